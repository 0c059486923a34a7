// Sets of pairs of a party and an account or a slot.
ghost use Rattle.std.specs.Prelude.{◌≡◌, ℕ, ◌<◌, [], length, slice_index_or};

// A mark for each of eight parties and eight accounts or slots.
#[derive(Clone, Copy)]
pub(crate) struct Pairs {
    marks: [[bool; 8]; 8],
    ghost wide: { (i : ℕ) → i < 8 → length (slice_index_or marks i []) ≡ 8 },
}

impl Pairs {
    ghost use Rattle.std.specs.Prelude.{false, ◌&&◌, ◌||◌, ◌==◌};
    ghost use Rattle.agreement.specs.Pairs.{marked};

    pub(crate) fn none() -> Pairs
        ensures { (who what : ℕ) → marked result who what ≡ false }
    {
        Pairs {
            marks: [[false; 8]; 8],
        }
    }

    pub(crate) fn contains(&self, party: u8, object: u8) -> bool
        ensures { result ≡ marked self.now party object }
    {
        party < 8 && object < 8 && self.marks[usize::from(party)][usize::from(object)]
    }

    pub(crate) fn insert(&mut self, party: u8, object: u8)
        requires party_there { party < 8 }
        requires object_there { object < 8 }
        ensures { (who what : ℕ) → marked self.new who what ≡ ((who == party && what == object) || marked self.old who what) }
    {
        self.marks[usize::from(party)][usize::from(object)] = true;
    }
}
