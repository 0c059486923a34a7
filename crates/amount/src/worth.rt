// What an amount is worth, and what of it counts before all slots are set.
ghost use Rattle.std.specs.Prelude.{◌≡◌};
ghost use Rattle.amount.specs.Amount.{worth};
ghost use Rattle.amount.specs.Known.{known, Counts};
ghost use Rattle.amount.specs.Form.{meaning};

use crate::{Amount, SLOTS};
use std::array;

impl Amount {
    // The cents that the amount comes to at these slot values.
    pub fn worth(&self, slots: &[u32; SLOTS]) -> u64
        ensures { result ≡ worth (meaning self.now) slots.now }
    {
        let units_worth: u64 = self
            .per
            .iter()
            .zip(slots)
            .map(|(cents, units)| u64::from(*cents) * u64::from(*units))
            .sum();
        u64::from(self.base) + units_worth
    }

    // The amount as it counts while only some slots are set: the others are 0, whatever they are set to later.
    pub fn known(&self, set: &[bool; SLOTS]) -> Amount
        ensures is { meaning result ≡ known set.now (meaning self.now) }
        ensures counts { Counts set.now (meaning self.now) (meaning result) }
    {
        Amount {
            base: self.base,
            per: array::from_fn(|k| if set[k] { self.per[k] } else { 0 }),
        }
    }
}
