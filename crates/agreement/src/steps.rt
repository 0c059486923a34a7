// The steps of reading: each hands on its value and the bytes behind it, or says what is wrong.
ghost use Rattle.std.specs.Prelude.{◌≡◌, ℕ, ◌<◌, ◌≤◌, List, length, IfOk};
ghost use Rattle.agreement.specs.Checks as checks;
ghost use Rattle.agreement.specs.Steps.{Goes};
ghost use Rattle.agreement.specs.declared.Wrong.{Wrong as Failed};

use crate::header::Header;
use crate::numbers::{read_byte, read_half, read_word};
use crate::way::Way;
use crate::{Fault, Wrong};

// The most cents that an amount may have as its base.
const MOST_BASE: u32 = 1_000_000_000;

// The most cents that it may have for each unit of a slot.
const MOST_PER_UNIT: u16 = 1_000;

// The largest value of a slot.
const MOST_VALUE: u32 = 1_000_000;

// The most acts that may be awaited together.
const MOST_ACTS: u8 = 16;

impl Fault {
    // The failed check, with so many bytes left.
    pub(crate) fn with(self, left: usize) -> Wrong
        ensures { result ≡ record { fault = self; left = left } }
    {
        Wrong { fault: self, left }
    }
}

// A number below the count of those that are there; `fault` says what is not there.
fn read_index(bytes: &[u8], count: u8, fault: Fault) -> Result<(u8, &[u8]), Wrong>
    ensures goes { (k : ℕ → List ℕ → List Failed) → Goes result (checks.index fault count bytes.now k) (λ x. k x.0 x.1.now) }
    ensures shorter { IfOk result (λ x. length x.1.now < length bytes.now) }
    ensures within { IfOk result (λ x. x.0 < count) }
{
    let Some((index, rest)) = read_byte(bytes) else {
        return Err(Fault::Cut.with(0));
    };
    if index >= count {
        return Err(fault.with(bytes.len()));
    }
    Ok((index, rest))
}

pub(crate) fn read_party(bytes: &[u8], header: Header) -> Result<(u8, &[u8]), Wrong>
    ensures goes { (k : ℕ → List ℕ → List Failed) → Goes result (checks.party header.parties bytes.now k) (λ x. k x.0 x.1.now) }
    ensures shorter { IfOk result (λ x. length x.1.now < length bytes.now) }
    ensures within { IfOk result (λ x. x.0 < header.parties) }
{
    read_index(bytes, header.parties, Fault::Party)
}

pub(crate) fn read_slot(bytes: &[u8], header: Header) -> Result<(u8, &[u8]), Wrong>
    ensures goes { (k : ℕ → List ℕ → List Failed) → Goes result (checks.slot header.slots bytes.now k) (λ x. k x.0 x.1.now) }
    ensures shorter { IfOk result (λ x. length x.1.now < length bytes.now) }
    ensures within { IfOk result (λ x. x.0 < header.slots) }
{
    read_index(bytes, header.slots, Fault::Slot)
}

// A slot to be set: on this way it was not set before.
pub(crate) fn read_fresh<'a>(bytes: &'a [u8], way: &Way) -> Result<(u8, &'a [u8]), Wrong>
    ensures goes { (k : ℕ → List ℕ → List Failed) → Goes result (checks.fresh way.now.header.slots way.now.used bytes.now k) (λ x. k x.0 x.1.now) }
    ensures shorter { IfOk result (λ x. length x.1.now < length bytes.now) }
    ensures within { IfOk result (λ x. x.0 < way.now.header.slots) }
{
    let Some((slot, rest)) = read_byte(bytes) else {
        return Err(Fault::Cut.with(0));
    };
    if slot >= way.header.slots {
        return Err(Fault::Slot.with(bytes.len()));
    }
    if way.used[usize::from(slot)] {
        return Err(Fault::SetTwice.with(bytes.len()));
    }
    Ok((slot, rest))
}

// The value of a slot, or what it is compared with.
pub(crate) fn read_value(bytes: &[u8]) -> Result<(u32, &[u8]), Wrong>
    ensures goes { (k : ℕ → List ℕ → List Failed) → Goes result (checks.value bytes.now k) (λ x. k x.0 x.1.now) }
    ensures shorter { IfOk result (λ x. length x.1.now < length bytes.now) }
{
    let Some((value, rest)) = read_word(bytes) else {
        return Err(Fault::Cut.with(0));
    };
    if value > MOST_VALUE {
        return Err(Fault::Value.with(bytes.len()));
    }
    Ok((value, rest))
}

// The high end of values from `low` on.
pub(crate) fn read_high(bytes: &[u8], low: u32) -> Result<&[u8], Wrong>
    ensures goes { (k : List ℕ → List Failed) → Goes result (checks.high low bytes.now k) (λ x. k x.now) }
    ensures shorter { IfOk result (λ x. length x.now < length bytes.now) }
{
    let Some((high, rest)) = read_word(bytes) else {
        return Err(Fault::Cut.with(0));
    };
    if high > MOST_VALUE || high < low {
        return Err(Fault::Value.with(bytes.len()));
    }
    Ok(rest)
}

// The cents per unit of each slot.
pub(crate) fn read_rates(bytes: &[u8], header: Header) -> Result<&[u8], Wrong>
    ensures goes { (k : List ℕ → List Failed) → Goes result (checks.rates header.slots bytes.now k) (λ x. k x.now) }
    ensures shorter { IfOk result (λ x. length x.now ≤ length bytes.now) }
{
    let slots = usize::from(header.slots);
    let (rates, _) = bytes.as_chunks();
    let there = rates.len().min(slots);
    for (i, rate) in rates[..there].iter().enumerate() {
        if u16::from_le_bytes(*rate) > MOST_PER_UNIT {
            return Err(Fault::Cents.with(bytes.len() - 2 * i));
        }
    }
    if there < slots {
        return Err(Fault::Cut.with(0));
    }
    Ok(&bytes[2 * slots..])
}

pub(crate) fn read_amount(bytes: &[u8], header: Header) -> Result<&[u8], Wrong>
    ensures goes { (k : List ℕ → List Failed) → Goes result (checks.amount header.slots bytes.now k) (λ x. k x.now) }
    ensures shorter { IfOk result (λ x. length x.now < length bytes.now) }
{
    let Some((base, rest)) = read_word(bytes) else {
        return Err(Fault::Cut.with(0));
    };
    if base > MOST_BASE {
        return Err(Fault::Cents.with(bytes.len()));
    }
    read_rates(rest, header)
}

// What a fork has before its two sides.
pub(crate) fn read_fork(bytes: &[u8], header: Header) -> Result<&[u8], Wrong>
    ensures goes { (k : List ℕ → List Failed) → Goes result (checks.branch header.slots bytes.now k) (λ x. k x.now) }
    ensures shorter { IfOk result (λ x. length x.now < length bytes.now) }
{
    let (_, rest) = read_slot(bytes, header)?;
    let (_, rest) = read_value(rest)?;
    Ok(rest)
}

// What a waiting has before its acts; the number of these is handed on.
pub(crate) fn read_waiting(bytes: &[u8]) -> Result<(u8, &[u8]), Wrong>
    ensures goes { (k : ℕ → List ℕ → List Failed) → Goes result (checks.waiting bytes.now k) (λ x. k x.0 x.1.now) }
    ensures shorter { IfOk result (λ x. length x.1.now < length bytes.now) }
{
    let Some((_, rest)) = read_half(bytes) else {
        return Err(Fault::Cut.with(0));
    };
    let Some((count, behind)) = read_byte(rest) else {
        return Err(Fault::Cut.with(0));
    };
    if count < 1 || count > MOST_ACTS {
        return Err(Fault::ActCount.with(rest.len()));
    }
    Ok((count, behind))
}

// What a payment and a deposit have between their kind and what follows: two parties, which are handed on, and an amount.
pub(crate) fn read_transfer(bytes: &[u8], header: Header) -> Result<(u8, u8, &[u8]), Wrong>
    ensures goes { (k : ℕ → ℕ → List ℕ → List Failed) → Goes result (checks.transfer header.parties header.slots bytes.now k) (λ x. k x.0 x.1 x.2.now) }
    ensures shorter { IfOk result (λ x. length x.2.now < length bytes.now) }
    ensures within { IfOk result (λ x. (x.0 < header.parties) × (x.1 < header.parties)) }
{
    let (first, rest) = read_party(bytes, header)?;
    let (second, rest) = read_party(rest, header)?;
    let rest = read_amount(rest, header)?;
    Ok((first, second, rest))
}

// What a choice has between its kind and its continuation; its party and slot are handed on.
pub(crate) fn read_choice<'a>(bytes: &'a [u8], way: &Way) -> Result<(u8, u8, &'a [u8]), Wrong>
    ensures goes { (k : ℕ → ℕ → List ℕ → List Failed) → Goes result (checks.choice way.now.header.parties way.now.header.slots way.now.used bytes.now k) (λ x. k x.0 x.1 x.2.now) }
    ensures shorter { IfOk result (λ x. length x.2.now < length bytes.now) }
    ensures within { IfOk result (λ x. (x.0 < way.now.header.parties) × (x.1 < way.now.header.slots)) }
{
    let (party, rest) = read_party(bytes, way.header)?;
    let (slot, rest) = read_fresh(rest, way)?;
    let (low, rest) = read_value(rest)?;
    let rest = read_high(rest, low)?;
    Ok((party, slot, rest))
}
