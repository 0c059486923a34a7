// Amounts of money over slots: what one is worth, and by how much one may fall below another.
//
// A slot is a whole number that the parties choose while an agreement runs. An amount is a base and so many cents for
// each unit of each slot, so what it is worth is known only once the slots are. A form is an amount less an amount:
// an account less a payment, say. Over a box of slot values a form is least at one of the box's corners, so the
// question whether the account can always cover the payment has an exact answer.
#![tactic(auto)]

mod change;
mod least;
mod worth;

// How many slots an agreement can have.
pub const SLOTS: usize = 8;

// An amount: a base, and the cents for each unit of each slot.
//
// An agreement has a base of at most 1,000,000,000 and at most 1,000 cents per unit, and slot values of at most
// 1,000,000. Nothing here leans on that: every value of the field types is exact.
#[derive(Clone, Copy, PartialEq, Eq, Debug)]
pub struct Amount {
    pub base: u32,
    pub per: [u16; SLOTS],
}

// An amount less an amount: the difference of the bases, and of the cents per unit of each slot.
#[derive(Clone, Copy, PartialEq, Eq, Debug)]
pub struct Form {
    base: i64,
    per: [i64; SLOTS],
}

// A box of slot values: the lowest and the highest value of each slot.
#[derive(Clone, Copy, PartialEq, Eq, Debug)]
pub struct Bounds {
    pub low: [u32; SLOTS],
    pub high: [u32; SLOTS],
}
