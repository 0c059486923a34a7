// Things and acts behind their kind. What follows them is as deep as the place where they are read.
ghost use Rattle.std.specs.Prelude.{◌≡◌, ◌<◌, []};
ghost use Rattle.agreement.specs.Meaning.{ends, pays, no_more, puts, look_pay, look_fork, look_wait, look_deposit, look_choice};
ghost use Rattle.agreement.specs.Numbers.{Given};
ghost use Rattle.agreement.specs.Places.{spot, transferred, Beside, shown_if, Parts, Ranges, shown_next, ActParts, ActRanges};

use crate::act::Act;
use crate::numbers::{read_amount, read_below, read_byte, read_half, read_word};
use crate::places::{Acts, Place, Step};
use amount::Amount;

impl<'a> Place<'a> {
    // Two parties and an amount.
    fn transfer(self) -> Option<(u8, u8, Amount, Place<'a>)>
        ensures pays { transferred result (ends []) pays ≡ look_pay self.entry.header.parties self.entry.header.slots self.entry.bytes.now }
        ensures puts { transferred result (no_more []) puts ≡ look_deposit self.entry.header.parties self.entry.header.slots self.entry.bytes.now }
        ensures parts { Given result (λ x. Beside (spot self.entry) (spot x.3)) }
        ensures ranges { Given result (λ x. (x.0 < self.entry.header.parties) × (x.1 < self.entry.header.parties)) }
    {
        let (from, rest) = read_below(self.bytes, self.header.parties)?;
        let (to, rest) = read_below(rest, self.header.parties)?;
        let (amount, rest) = read_amount(rest, self.header)?;
        Some((from, to, amount, self.at(rest)))
    }

    pub(super) fn payment(self) -> Option<Step<'a>>
        ensures is { shown_if result ≡ look_pay self.entry.header.parties self.entry.header.slots self.entry.bytes.now }
        ensures parts { Given result (Parts Beside (spot self.entry)) }
        ensures ranges { Given result (Ranges (spot self.entry)) }
    {
        let (from, to, amount, rest) = self.transfer()?;
        Some(Step::Pay {
            from,
            to,
            amount,
            rest,
        })
    }

    pub(super) fn branch(self) -> Option<Step<'a>>
        ensures is { shown_if result ≡ look_fork self.entry.header.slots self.entry.bytes.now }
        ensures parts { Given result (Parts Beside (spot self.entry)) }
        ensures ranges { Given result (Ranges (spot self.entry)) }
    {
        let (slot, rest) = read_below(self.bytes, self.header.slots)?;
        let (bound, rest) = read_word(rest)?;
        let below = self.at(rest);
        Some(Step::Fork { slot, bound, below })
    }

    pub(super) fn waiting(self) -> Option<Step<'a>>
        ensures is { shown_if result ≡ look_wait self.entry.bytes.now }
        ensures parts { Given result (Parts Beside (spot self.entry)) }
        ensures ranges { Given result (Ranges (spot self.entry)) }
    {
        let (day, rest) = read_half(self.bytes)?;
        let (left, rest) = read_byte(rest)?;
        let place = self.at(rest);
        Some(Step::Wait {
            day,
            acts: Acts { place, left },
        })
    }

    pub(super) fn deposit(self) -> Option<Act<Place<'a>>>
        ensures is { shown_next [] result ≡ look_deposit self.entry.header.parties self.entry.header.slots self.entry.bytes.now }
        ensures parts { Given result (ActParts Beside (spot self.entry)) }
        ensures ranges { Given result (ActRanges (spot self.entry)) }
    {
        let (party, account, amount, rest) = self.transfer()?;
        Some(Act::Deposit {
            party,
            account,
            amount,
            rest,
        })
    }

    pub(super) fn choice(self) -> Option<Act<Place<'a>>>
        ensures is { shown_next [] result ≡ look_choice self.entry.header.parties self.entry.header.slots self.entry.bytes.now }
        ensures parts { Given result (ActParts Beside (spot self.entry)) }
        ensures ranges { Given result (ActRanges (spot self.entry)) }
    {
        let (party, rest) = read_below(self.bytes, self.header.parties)?;
        let (slot, rest) = read_below(rest, self.header.slots)?;
        let (low, rest) = read_word(rest)?;
        let (high, rest) = read_word(rest)?;
        let rest = self.at(rest);
        Some(Act::Choice {
            party,
            slot,
            low,
            high,
            rest,
        })
    }
}
