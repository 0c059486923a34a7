// Agreements as bytes.
#![tactic(auto)]

mod act;
mod display;
mod header;
mod kinds;
mod numbers;
mod pairs;
mod places;
mod reading;
mod seen;
mod steps;
mod way;

pub use act::Act;
use header::Header;
pub use kinds::{ActKind, ThingKind, UnknownKind};
pub use places::{Acts, Place, Rest, Step};
pub use reading::read;

// How deep things may be nested.
const DEEPEST: u8 = 64;

// What can be wrong with an input. Each case has a number, which is printed.
#[derive(Clone, Copy, PartialEq, Eq, Debug)]
pub enum Fault {
    Parties = 1,
    Slots = 2,
    Cut = 3,
    Kind = 4,
    TooLarge = 5,
    Party = 6,
    Slot = 7,
    Cents = 8,
    Value = 9,
    ActCount = 10,
    SetTwice = 11,
    Alike = 12,
    Surplus = 13,
    Message = 14,
    Sender = 15,
    NotClear = 16,
    Memory = 17,
}

// Why an input is turned away, and the place of the first byte that is wrong.
#[derive(Clone, Copy, PartialEq, Eq, Debug)]
pub struct Refusal {
    pub fault: Fault,
    pub place: usize,
}

// An agreement that was read: for how many parties and slots, and its bytes behind these two.
#[derive(Clone, Copy)]
pub struct Agreement<'a> {
    header: Header,
    bytes: &'a [u8],
}

// A check that failed while so many bytes were left.
#[derive(Clone, Copy)]
struct Wrong {
    fault: Fault,
    left: usize,
}
