// Places in an agreement: what is there, and where it ends.
ghost use Rattle.std.specs.Prelude.{◌≡◌, ◌<◌, ◌≤◌, [], length};
ghost use Rattle.agreement.specs.Meaning.{behind, look_act};
ghost use Rattle.agreement.specs.Numbers.{Given};
ghost use Rattle.agreement.specs.Places.{spot, moved, deeper, seen, shown, shown_if, Inside, Beside, Parts, Ranges, Steps};
ghost use Rattle.agreement.specs.Reading.{begun};
ghost use Rattle.agreement.specs.Places.{due, fewer, awaited, next_act, leftover, shown_next, ActParts, ActRanges, ActSteps};

mod heads;

use crate::act::Act;
use crate::header::Header;
use crate::kinds::{ActKind, ThingKind};
use crate::numbers::read_byte;
use crate::{Agreement, DEEPEST};
use amount::Amount;

// A part of an agreement's bytes that starts at one of the four things, and how much deeper it may go.
#[derive(Clone, Copy)]
pub struct Place<'a> {
    header: Header,
    depth: u8,
    bytes: &'a [u8],
}

// The bytes behind a thing.
#[derive(Clone, Copy)]
pub struct Rest<'a> {
    bytes: &'a [u8],
}

// The acts of a waiting that are still to come. The place is where they stand, as deep as their continuations.
#[derive(Clone, Copy)]
pub struct Acts<'a> {
    place: Place<'a>,
    left: u8,
}

// One of the four things, and the places of its parts.
#[derive(Clone, Copy)]
pub enum Step<'a> {
    Over {
        after: Rest<'a>,
    },
    Pay {
        from: u8,
        to: u8,
        amount: Amount,
        rest: Place<'a>,
    },
    Fork {
        slot: u8,
        bound: u32,
        below: Place<'a>,
    },
    Wait {
        day: u16,
        acts: Acts<'a>,
    },
}

impl<'a> Rest<'a> {
    // No bytes.
    fn none() -> Rest<'a>
        ensures { result.bytes.now ≡ [] }
    {
        Rest { bytes: &[] }
    }
}

impl<'a> Agreement<'a> {
    // Where it begins.
    pub fn start(self) -> Place<'a>
        ensures { spot result ≡ begun self.entry }
    {
        Place {
            header: self.header,
            depth: DEEPEST,
            bytes: self.bytes,
        }
    }
}

impl<'a> Place<'a> {
    // How many parties the agreement has.
    pub fn parties(self) -> u8
        ensures { result ≡ self.entry.header.parties }
    {
        self.header.parties
    }

    // How many slots it has.
    pub fn slots(self) -> u8
        ensures { result ≡ self.entry.header.slots }
    {
        self.header.slots
    }

    // The same place at other bytes.
    fn at(self, bytes: &'a [u8]) -> Place<'a>
        ensures { spot result ≡ moved (spot self.entry) bytes.now }
    {
        Place { bytes, ..self }
    }

    // The place at `rest`, one deeper.
    pub fn next(self, rest: Rest<'a>) -> Place<'a>
        ensures { spot result ≡ deeper (spot self.entry) rest.entry.bytes.now }
    {
        Place {
            depth: self.depth.saturating_sub(1),
            ..self.at(rest.bytes)
        }
    }

    // One of the four things, if it can be read.
    fn thing(self) -> Option<Step<'a>>
        ensures is { shown_if result ≡ seen (spot self.entry) }
        ensures parts { Given result (Parts Inside (spot self.entry)) }
        ensures ranges { Given result (Ranges (spot self.entry)) }
    {
        if self.depth == 0 {
            return None;
        }
        let (kind, bytes) = read_byte(self.bytes)?;
        let after = Rest { bytes };
        let inner = self.next(after);
        match ThingKind::try_from(kind).ok()? {
            ThingKind::Over => Some(Step::Over { after }),
            ThingKind::Pay => inner.payment(),
            ThingKind::Fork => inner.branch(),
            ThingKind::Wait => inner.waiting(),
        }
    }

    // An act, if it can be read.
    fn act(self) -> Option<Act<Place<'a>>>
        ensures is { shown_next [] result ≡ look_act self.entry.header.parties self.entry.header.slots 1 self.entry.bytes.now }
        ensures parts { Given result (ActParts Beside (spot self.entry)) }
        ensures ranges { Given result (ActRanges (spot self.entry)) }
    {
        let (kind, bytes) = read_byte(self.bytes)?;
        let inner = self.at(bytes);
        match ActKind::try_from(kind).ok()? {
            ActKind::Deposit => inner.deposit(),
            ActKind::Choice => inner.choice(),
        }
    }

    // What stands at the place. What can't be read is over, with nothing behind it.
    #[tactic(auto, using(crate::proofs::Peeks::steps_mean))]
    pub fn peek(self) -> Step<'a>
        ensures is { shown result ≡ seen (spot self.entry) }
        ensures means { Steps (spot self.entry) result }
        ensures parts { Parts Inside (spot self.entry) result }
        ensures ranges { Ranges (spot self.entry) result }
    {
        self.thing().unwrap_or(Step::Over {
            after: Rest::none(),
        })
    }

    // Where the thing at the place ends.
    #[cycle(ends)]
    pub fn after(self) -> Rest<'a>
        ensures is { result.bytes.now ≡ behind (spot self.entry) }
        ensures shorter { length result.bytes.now ≤ length self.entry.bytes.now }
    {
        match self.peek() {
            Step::Over { after } => after,
            Step::Pay { rest, .. } => rest.after(),
            Step::Fork { below, .. } => self.next(below.after()).after(),
            Step::Wait { acts, .. } => self.next(acts.after()).after(),
        }
    }
}

impl<'a> Acts<'a> {
    // The acts behind the next one, whose continuation ended at `rest`.
    pub fn next(self, rest: Rest<'a>) -> Acts<'a>
        ensures { due result ≡ fewer (due self.entry) rest.entry.bytes.now }
    {
        Acts {
            place: self.place.at(rest.bytes),
            left: self.left.saturating_sub(1),
        }
    }

    // The next act. What can't be read is none.
    #[tactic(auto, using(crate::proofs::Peeks::acts_mean))]
    pub fn peek(self) -> Option<Act<Place<'a>>>
        ensures is { shown_next (leftover (due self.entry)) result ≡ next_act (due self.entry) }
        ensures means { ActSteps (due self.entry) result }
        ensures parts { Given result (ActParts Beside (due self.entry).at) }
        ensures ranges { Given result (ActRanges (due self.entry).at) }
        ensures counted { Given result (λ _. 0 < self.entry.left) }
    {
        if self.left == 0 {
            return None;
        }
        self.place.act()
    }

    // What is behind the acts where there is no next one: nothing, if one is left that can't be read.
    fn end(self) -> Rest<'a>
        ensures { result.bytes.now ≡ leftover (due self.entry) }
    {
        if self.left > 0 {
            return Rest::none();
        }
        Rest {
            bytes: self.place.bytes,
        }
    }

    // Where the acts end, each with its continuation.
    #[cycle(ends)]
    pub fn after(self) -> Rest<'a>
        ensures is { result.bytes.now ≡ (awaited (due self.entry)).rest }
        ensures shorter { length result.bytes.now ≤ length self.entry.place.bytes.now }
    {
        match self.peek() {
            None => self.end(),
            Some(Act::Deposit { rest, .. } | Act::Choice { rest, .. }) => {
                self.next(rest.after()).after()
            }
        }
    }
}
