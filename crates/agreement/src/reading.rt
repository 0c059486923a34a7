// Reading an agreement: a thing and a waiting's acts are read by two functions that call each other.
ghost use Rattle.std.specs.Prelude.{◌≡◌, ℕ, ◌+◌, ◌-◌, ◌<◌, ◌≤◌, Bool, List, [], length, IfOk, OnOk};
ghost use Rattle.agreement.specs.Checks.{Key, acts, follow, thing, walker};
ghost use Rattle.agreement.specs.Kinds.{thing_code};
ghost use Rattle.agreement.specs.Reading.{First, Taking, answered, reading};
ghost use Rattle.agreement.specs.Steps.{Goes, Keeps, ActsOn, Whole, counted};
ghost use Rattle.agreement.specs.declared.Wrong.{Wrong as Failed};

use crate::header::{Header, MOST_PARTIES, MOST_SLOTS};
use crate::kinds::{ActKind, ThingKind};
use crate::numbers::read_byte;
use crate::seen::Seen;
use crate::steps::{read_choice, read_fork, read_transfer, read_waiting};
use crate::way::Way;
use crate::{Agreement, DEEPEST, Fault, Refusal, Wrong};
use amount::SLOTS;

// The most things that an agreement may have.
const MOST_THINGS: u16 = 512;

// What an act has before its continuation; the slots set before that are handed on.
fn read_act<'a>(
    bytes: &'a [u8],
    way: &Way,
    seen: &mut Seen,
) -> Result<([bool; SLOTS], &'a [u8]), Wrong>
    ensures goes { (keys : List Key) → Keeps seen.old keys → ActsOn way.now bytes.now keys seen.new result }
    ensures shorter { IfOk result (λ x. length x.1.now < length bytes.now) }
{
    let Some((kind, rest)) = read_byte(bytes) else {
        return Err(Fault::Cut.with(0));
    };
    let Ok(kind) = ActKind::try_from(kind) else {
        return Err(Fault::Kind.with(bytes.len()));
    };
    if seen.has(kind, bytes) {
        return Err(Fault::Alike.with(bytes.len()));
    }
    match kind {
        ActKind::Deposit => {
            let (party, account, rest) = read_transfer(rest, way.header)?;
            seen.add(kind, party, account);
            Ok((way.used, rest))
        }
        ActKind::Choice => {
            let (party, slot, rest) = read_choice(rest, way)?;
            seen.add(kind, party, slot);
            Ok((way.used_with(slot), rest))
        }
    }
}

// The kind of a thing. `things` is how many came before it.
fn read_kind(bytes: &[u8], depth: u8, things: u16) -> Result<(ThingKind, &[u8]), Wrong>
    ensures goes { (p q : ℕ) (us : List Bool) (n : ℕ) → length bytes.now ≤ n → (k : ℕ → List ℕ → List Failed) → Goes result (thing p q us depth things bytes.now n k) (λ x. follow p q (walker p q (depth + 1) (n - 1)) us (thing_code x.0) (things + 1) x.1.now k) }
    ensures shorter { IfOk result (λ x. length x.1.now < length bytes.now) }
    ensures within { OnOk result ((depth ≤ 64) × (things < 512)) }
{
    let Some((kind, rest)) = read_byte(bytes) else {
        return Err(Fault::Cut.with(0));
    };
    let Ok(kind) = ThingKind::try_from(kind) else {
        return Err(Fault::Kind.with(bytes.len()));
    };
    if depth > DEEPEST || things >= MOST_THINGS {
        return Err(Fault::TooLarge.with(bytes.len()));
    }
    Ok((kind, rest))
}

// How far reading has come: the bytes still to be read, and how many things there were.
#[derive(Clone, Copy)]
pub(crate) struct Ahead<'a> {
    rest: &'a [u8],
    things: u16,
}

// One of the four things. What follows last, on a payment, on a fork's second side or on a waiting's day, is read in
// turn, and what stands before that by a call.
#[cycle(things)]
fn read_thing(ahead: &mut Ahead<'_>, way: &Way, mut depth: u8) -> Result<(), Wrong>
    ensures goes { (n : ℕ) → length ahead.old.rest.now ≤ n → (k : ℕ → List ℕ → List Failed) → Goes result (thing way.now.header.parties way.now.header.slots way.now.used depth ahead.old.things ahead.old.rest.now n k) (λ _. k ahead.new.things ahead.new.rest.now) }
    ensures shorter { OnOk result (length ahead.new.rest.now < length ahead.old.rest.now) }
{
    loop {
        let (kind, rest) = read_kind(ahead.rest, depth, ahead.things)?;
        ahead.things += 1;
        // A payment is told first and by itself: the three kinds left are then compared, where four would be a jump
        // through a table.
        if kind == ThingKind::Pay {
            let (_, _, rest) = read_transfer(rest, way.header)?;
            ahead.rest = rest;
            depth += 1;
            continue;
        }
        depth += 1;
        match kind {
            ThingKind::Over => {
                ahead.rest = rest;
                return Ok(());
            }
            ThingKind::Pay => unreachable!(),
            ThingKind::Fork => {
                ahead.rest = read_fork(rest, way.header)?;
                read_thing(ahead, way, depth)?;
            }
            ThingKind::Wait => {
                let (count, rest) = read_waiting(rest)?;
                ahead.rest = rest;
                read_acts(ahead, way, depth, count)?;
            }
        }
    }
}

// So many acts, each with its continuation. `depth` is how deep these are.
#[cycle(things)]
fn read_acts(ahead: &mut Ahead<'_>, way: &Way, depth: u8, count: u8) -> Result<(), Wrong>
    ensures goes { (n : ℕ) → length ahead.old.rest.now ≤ n → (k : ℕ → List ℕ → List Failed) → Goes result (acts way.now.header.parties way.now.header.slots (walker way.now.header.parties way.now.header.slots depth n) way.now.used count [] ahead.old.things ahead.old.rest.now k) (λ _. k ahead.new.things ahead.new.rest.now) }
    ensures shorter { OnOk result (length ahead.new.rest.now ≤ length ahead.old.rest.now) }
{
    let mut seen = Seen::none();
    for _ in 0..count {
        let (used, rest) = read_act(ahead.rest, way, &mut seen)?;
        ahead.rest = rest;
        let header = way.header;
        read_thing(ahead, &Way { header, used }, depth)?;
    }
    Ok(())
}

// The whole: the number of parties, the number of slots, the first thing, and nothing behind it.
fn read_whole(bytes: &[u8]) -> Result<Agreement<'_>, Wrong>
    ensures { Whole bytes.now result }
{
    let Some((parties, rest)) = read_byte(bytes) else {
        return Err(Fault::Cut.with(0));
    };
    if parties < 1 || parties > MOST_PARTIES {
        return Err(Fault::Parties.with(bytes.len()));
    }
    let Some((slots, first)) = read_byte(rest) else {
        return Err(Fault::Cut.with(0));
    };
    if slots > MOST_SLOTS {
        return Err(Fault::Slots.with(rest.len()));
    }
    let header = Header { parties, slots };
    let way = Way {
        header,
        used: [false; SLOTS],
    };
    let mut ahead = Ahead {
        rest: first,
        things: 0,
    };
    read_thing(&mut ahead, &way, 1)?;
    let left = ahead.rest.len();
    if left > 0 {
        return Err(Fault::Surplus.with(left));
    }
    Ok(Agreement {
        header,
        bytes: first,
    })
}

// The most bytes that an agreement may have.
const LONGEST: usize = 16_384;

// More bytes than that are wrong at the first too many.
const TOO_LONG: Refusal = Refusal {
    fault: Fault::Surplus,
    place: LONGEST,
};

impl Wrong {
    // The refusal of so many bytes.
    fn among(self, length: usize) -> Refusal
        requires { self.left ≤ length }
        ensures { result ≡ counted length self }
    {
        let place = length - self.left;
        if place > LONGEST {
            return TOO_LONG;
        }
        Refusal {
            fault: self.fault,
            place,
        }
    }
}

// The agreement, or the first thing that is wrong with the bytes: of all checks that fail the one with the smallest
// place, and of those at one place the one with the smallest number.
pub fn read(bytes: &[u8]) -> Result<Agreement<'_>, Refusal>
    ensures is { answered result ≡ reading bytes.now }
    ensures first { First bytes.now (answered result) }
    ensures taken { Taking bytes.now (answered result) }
{
    match read_whole(bytes) {
        Err(wrong) => Err(wrong.among(bytes.len())),
        Ok(agreement) if bytes.len() <= LONGEST => Ok(agreement),
        Ok(_) => Err(TOO_LONG),
    }
}
