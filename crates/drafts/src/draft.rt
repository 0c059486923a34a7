// Drafts: agreements before they are written as bytes.
use agreement::Act;
use amount::Amount;

// An agreement for so many parties, over so many slots.
#[derive(PartialEq, Eq, Debug, Drop)]
pub struct Draft {
    pub parties: u8,
    pub slots: u8,
    pub first: Thing,
}

// What is left to do: nothing; a payment out of one party's account to a party; two ways by a slot's value; or to wait
// until a day for one of some acts, and what follows if none came.
#[derive(PartialEq, Eq, Debug, Drop)]
pub enum Thing {
    Over,
    Pay {
        from: u8,
        to: u8,
        amount: Amount,
        rest: Box<Thing>,
    },
    Fork {
        slot: u8,
        bound: u32,
        below: Box<Thing>,
        otherwise: Box<Thing>,
    },
    Wait {
        day: u16,
        acts: Vec<Act<Thing>>,
        rest: Box<Thing>,
    },
}
