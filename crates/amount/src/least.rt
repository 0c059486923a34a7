// The least of a form over a box of slot values, and where it lies.
ghost use Rattle.std.specs.Prelude.{◌≡◌};
ghost use Rattle.amount.specs.Corner.{CornerLaw};
ghost use Rattle.amount.specs.Form.{Bounded, value, low_or_high};
ghost use Rattle.amount.specs.Least.{lowest_in, AtCorner, Belongs, Exact, lack, Short};

use crate::{Bounds, Form, SLOTS};
use std::array;

// The value of one slot at which its term of a form is least; low where it doesn't matter.
fn low_or_high(coefficient: i64, low: u32, high: u32) -> u32
    ensures { result ≡ low_or_high coefficient low high }
{
    if coefficient < 0 { high } else { low }
}

impl Form {
    // What the form comes to at these slot values.
    fn value(&self, slots: &[u32; SLOTS]) -> i64
        requires { Bounded self.now }
        ensures { result ≡ value self.now slots.now }
    {
        let mut sum = self.base;
        for (coefficient, units) in self.per.iter().zip(slots) {
            sum += coefficient * i64::from(*units);
        }
        sum
    }

    // The corner of the box where the form is least: each slot low where its coefficient is 0 or more, else high.
    pub fn corner(&self, bounds: &Bounds) -> [u32; SLOTS]
        ensures is { result ≡ lowest_in self.now bounds.now }
        ensures amounts { AtCorner self.now bounds.now result }
        ensures belongs { Belongs bounds.now result }
    {
        array::from_fn(|k| low_or_high(self.per[k], bounds.low[k], bounds.high[k]))
    }

    // The least value of the form over the box.
    pub fn least(&self, bounds: &Bounds) -> i64
        requires { Bounded self.now }
        ensures is { result ≡ value self.now (lowest_in self.now bounds.now) }
        ensures amounts { Exact self.now bounds.now result }
        ensures law { CornerLaw }
    {
        let at = self.corner(bounds);
        self.value(&at)
    }

    // By how much the form falls below 0 at the worst slot values of the box; 0 where it never does.
    pub fn shortfall(&self, bounds: &Bounds) -> u64
        requires { Bounded self.now }
        ensures is { result ≡ lack (value self.now (lowest_in self.now bounds.now)) }
        ensures amounts { Short self.now bounds.now result }
    {
        self.least(bounds).min(0).unsigned_abs()
    }
}
