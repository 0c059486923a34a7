// How a refusal is told.
ghost use Rattle.std.specs.Prelude.{◌≡◌, Some};
ghost use Rattle.agreement.specs.Fault.{number, told};

use crate::{Fault, Refusal};
use std::fmt;

impl Fault {
    // The number by which the fault is known.
    pub fn number(self) -> u8
        ensures { result ≡ number self }
    {
        self as u8
    }
}

impl fmt::Display for Refusal {
    ghost output = { λ r. Some (told r) };

    fn fmt<W: fmt::Write>(&self, f: &mut fmt::Formatter<W>) -> fmt::Result {
        let number = self.fault.number();
        let place = self.place;
        write!(f, "refused {number} at {place}")
    }
}
