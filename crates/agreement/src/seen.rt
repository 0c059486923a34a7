// Which acts were seen before in one waiting.
ghost use Rattle.std.specs.Prelude.{◌≡◌, ◌<◌, List, [], ◌∷◌};
ghost use Rattle.agreement.specs.Checks.{Key};
ghost use Rattle.agreement.specs.Kinds.{act_code};
ghost use Rattle.agreement.specs.Steps.{alike, like, Keeps};

use crate::kinds::ActKind;
use crate::pairs::Pairs;

// The deposits seen, by party and account, and the settings seen, by party and slot.
#[derive(Drop)]
pub(crate) struct Seen {
    deposits: Pairs,
    settings: Pairs,
}

// Whether the act at the front of the bytes has the party and the account or slot of one that is marked.
fn is_alike(pairs: &Pairs, act: &[u8]) -> bool
    ensures { result ≡ alike pairs.now act.now }
{
    let [_, party, object, ..] = act else {
        return false;
    };
    pairs.contains(*party, *object)
}

impl Seen {
    pub(crate) fn none() -> Seen
        ensures { Keeps result [] }
    {
        Seen {
            deposits: Pairs::none(),
            settings: Pairs::none(),
        }
    }

    // Whether there was an act of the kind before by the party and with the account or slot of the act at the front of
    // the bytes.
    pub(crate) fn has(&self, kind: ActKind, act: &[u8]) -> bool
        ensures { (keys : List Key) → Keeps self.now keys → result ≡ like (act_code kind) act.now keys }
    {
        match kind {
            ActKind::Deposit => is_alike(&self.deposits, act),
            ActKind::Choice => is_alike(&self.settings, act),
        }
    }

    pub(crate) fn add(&mut self, kind: ActKind, party: u8, object: u8)
        requires party_there { party < 8 }
        requires object_there { object < 8 }
        ensures { (keys : List Key) → Keeps self.old keys → Keeps self.new (record { kind = act_code kind; who = party; what = object } ∷ keys) }
    {
        match kind {
            ActKind::Deposit => self.deposits.insert(party, object),
            ActKind::Choice => self.settings.insert(party, object),
        }
    }
}
