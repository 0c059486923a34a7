// The kinds of things and of acts, as their first byte has them.
ghost use Rattle.agreement.specs.Kinds.{ThingDecodes, ActDecodes};

// What is left to do at some place.
#[derive(Clone, Copy, PartialEq, Eq, Debug)]
pub enum ThingKind {
    Over = 0,
    Pay = 1,
    Fork = 2,
    Wait = 3,
}

// What a party may do in a waiting.
#[derive(Clone, Copy, PartialEq, Eq, Debug)]
pub enum ActKind {
    Deposit = 1,
    Choice = 2,
}

// A byte that stands for no kind.
#[derive(Clone, Copy, PartialEq, Eq, Debug)]
pub struct UnknownKind;

impl TryFrom<u8> for ThingKind {
    type Error = UnknownKind;

    ghost try_from_gives = { ThingDecodes };

    fn try_from(byte: u8) -> Result<ThingKind, UnknownKind> {
        match byte {
            0 => Ok(ThingKind::Over),
            1 => Ok(ThingKind::Pay),
            2 => Ok(ThingKind::Fork),
            3 => Ok(ThingKind::Wait),
            _ => Err(UnknownKind),
        }
    }
}

impl TryFrom<u8> for ActKind {
    type Error = UnknownKind;

    ghost try_from_gives = { ActDecodes };

    fn try_from(byte: u8) -> Result<ActKind, UnknownKind> {
        match byte {
            1 => Ok(ActKind::Deposit),
            2 => Ok(ActKind::Choice),
            _ => Err(UnknownKind),
        }
    }
}
