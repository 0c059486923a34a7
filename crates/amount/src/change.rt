// Forms as they grow: an amount added, an amount taken away.
ghost use Rattle.std.specs.Prelude.{◌≡◌, ℕ, ◌+◌, ◌<◌, ◌^◌, ℤ, pos};
ghost use Rattle.amount.specs.Form.{meaning, Within, UpTo, Roomy, Gives, Moves, changed, increased, decreased, nothing};
ghost use Rattle.amount.specs.Less.{Less, Adds, Takes, no_money};

use crate::{Amount, Form, SLOTS};
use std::array;

impl Form {
    // An account that nothing went into or out of.
    pub fn zero() -> Form
        ensures is { result ≡ nothing }
        ensures less { Less no_money no_money result }
        ensures room { UpTo 0 result }
    {
        Form {
            base: 0,
            per: [0; SLOTS],
        }
    }

    // The form with the base and each coefficient changed by those of an amount.
    fn changed<F: Fn(i64, i64) -> i64>(&self, amount: &Amount, change: F) -> Form
        requires roomy { Roomy self.now }
        requires callable { (z : ℤ) (n : ℕ) → Within (2 ^ 62) z → n < 2 ^ 32 → F.pre change z (pos n) }
        ensures is { (op : ℤ → ℤ → ℤ) → Gives (F.post change) op → result ≡ changed op self.now (meaning amount.now) }
        ensures room { (op : ℤ → ℤ → ℤ) → Gives (F.post change) op → Moves op → (n : ℕ) → UpTo n self.now → UpTo (n + 1) result }
    {
        Form {
            base: change(self.base, i64::from(amount.base)),
            per: array::from_fn(|k| change(self.per[k], i64::from(amount.per[k]))),
        }
    }

    // The form with an amount added.
    pub fn plus(&self, amount: &Amount) -> Form
        requires { Roomy self.now }
        ensures is { result ≡ increased self.now (meaning amount.now) }
        ensures less { Adds self.now (meaning amount.now) result }
        ensures room { (n : ℕ) → UpTo n self.now → UpTo (n + 1) result }
    {
        self.changed(amount, |mine, added| mine + added)
    }

    // The form with an amount taken away.
    pub fn minus(&self, amount: &Amount) -> Form
        requires { Roomy self.now }
        ensures is { result ≡ decreased self.now (meaning amount.now) }
        ensures less { Takes self.now (meaning amount.now) result }
        ensures room { (n : ℕ) → UpTo n self.now → UpTo (n + 1) result }
    {
        self.changed(amount, |mine, taken| mine - taken)
    }
}
