// For how many parties and slots an agreement is made.
ghost use Rattle.std.specs.Prelude.{◌≤◌};

// The most parties that an agreement may have.
pub(crate) const MOST_PARTIES: u8 = 8;

// The most slots that it may have.
pub(crate) const MOST_SLOTS: u8 = 8;

// The two numbers at the front of an agreement, within their limits.
#[derive(Clone, Copy)]
pub(crate) struct Header {
    pub(crate) parties: u8,
    pub(crate) slots: u8,
    ghost few_parties: { parties ≤ 8 },
    ghost few_slots: { slots ≤ 8 },
}
