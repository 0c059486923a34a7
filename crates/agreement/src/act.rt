// Acts that a waiting may wait for.
use amount::Amount;

// A party puts an amount into an account, or sets a slot to a value from one bound to another; with what follows it.
#[derive(Clone, Copy, PartialEq, Eq, Debug, Drop)]
pub enum Act<R> {
    Deposit {
        party: u8,
        account: u8,
        amount: Amount,
        rest: R,
    },
    Choice {
        party: u8,
        slot: u8,
        low: u32,
        high: u32,
        rest: R,
    },
}
