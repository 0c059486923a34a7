// Numbers and amounts at the front of bytes.
ghost use Rattle.std.specs.Prelude.{◌≡◌, ℕ, ◌<◌, ◌≤◌, List, length};
ghost use Rattle.agreement.specs.Bytes as numbers;
ghost use Rattle.agreement.specs.Checks.{cut};
ghost use Rattle.agreement.specs.Meaning as meanings;
ghost use Rattle.agreement.specs.Numbers.{Reads, Found, Front, goes, valued};
ghost use Rattle.agreement.specs.declared.Wrong.{Wrong};

use crate::header::Header;
use amount::{Amount, SLOTS};

// The first byte, and those behind it.
pub(crate) fn read_byte(bytes: &[u8]) -> Option<(u8, &[u8])>
    ensures is { Reads result bytes.now (λ R. numbers.byte {R = R}) }
    ensures walks { (k : ℕ → List ℕ → List Wrong) → numbers.byte bytes.now cut k ≡ goes result cut k }
    ensures shorter { Found result (λ x rest. length rest < length bytes.now) }
    ensures front { Front bytes.now result }
{
    let (first, rest) = bytes.split_first()?;
    Some((*first, rest))
}

// The first byte, if it is below the limit.
pub(crate) fn read_below(bytes: &[u8], limit: u8) -> Option<(u8, &[u8])>
    ensures is { Reads result bytes.now (λ R. meanings.below {R = R} limit) }
    ensures shorter { Found result (λ x rest. length rest < length bytes.now) }
    ensures below { Found result (λ x rest. x < limit) }
{
    let (first, rest) = read_byte(bytes)?;
    if first >= limit {
        return None;
    }
    Some((first, rest))
}

// A number of two bytes.
pub(crate) fn read_half(bytes: &[u8]) -> Option<(u16, &[u8])>
    ensures is { Reads result bytes.now (λ R. numbers.half {R = R}) }
    ensures walks { (k : ℕ → List ℕ → List Wrong) → numbers.half bytes.now cut k ≡ goes result cut k }
    ensures shorter { Found result (λ x rest. length rest < length bytes.now) }
{
    let (number, rest) = bytes.split_first_chunk()?;
    Some((u16::from_le_bytes(*number), rest))
}

// A number of four bytes.
pub(crate) fn read_word(bytes: &[u8]) -> Option<(u32, &[u8])>
    ensures is { Reads result bytes.now (λ R. numbers.word {R = R}) }
    ensures walks { (k : ℕ → List ℕ → List Wrong) → numbers.word bytes.now cut k ≡ goes result cut k }
    ensures shorter { Found result (λ x rest. length rest < length bytes.now) }
{
    let (number, rest) = bytes.split_first_chunk()?;
    Some((u32::from_le_bytes(*number), rest))
}

// The amount with this base: the coefficients of the slots are read, the others are 0.
fn read_rates(base: u32, bytes: &[u8], header: Header) -> Option<(Amount, &[u8])>
    ensures is { Reads (valued result) bytes.now (λ R bs bad k. meanings.rates_at {R = R} 8 header.slots bs bad (λ cs. k (record { base = base; per = cs }))) }
    ensures shorter { Found result (λ x rest. length rest ≤ length bytes.now) }
{
    let mut per = [0; SLOTS];
    let mut rest = bytes;
    for rate in &mut per[..usize::from(header.slots)] {
        let (cents, more) = read_half(rest)?;
        *rate = cents;
        rest = more;
    }
    Some((Amount { base, per }, rest))
}

// An amount over the agreement's slots.
pub(crate) fn read_amount(bytes: &[u8], header: Header) -> Option<(Amount, &[u8])>
    ensures is { Reads (valued result) bytes.now (λ R. meanings.amount_at {R = R} header.slots) }
    ensures shorter { Found result (λ x rest. length rest < length bytes.now) }
{
    let (base, rest) = read_word(bytes)?;
    read_rates(base, rest, header)
}
