// The way to a thing.
ghost use Rattle.std.specs.Prelude.{◌≡◌, ◌<◌, true, slice_set};

use crate::header::Header;
use amount::SLOTS;

// For how many parties and slots, and which slots are set on the way.
#[derive(Clone, Copy)]
pub(crate) struct Way {
    pub(crate) header: Header,
    pub(crate) used: [bool; SLOTS],
}

impl Way {
    // The slots set with one more.
    pub(crate) fn used_with(&self, slot: u8) -> [bool; SLOTS]
        requires { slot < 8 }
        ensures { result ≡ slice_set self.now.used slot true }
    {
        let mut used = self.used;
        used[usize::from(slot)] = true;
        used
    }
}
