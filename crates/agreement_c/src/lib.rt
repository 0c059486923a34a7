// Agreements as other languages call them.
#![tactic(auto)]

ghost use Rattle.std.specs.Prelude.{◌≡◌};
ghost use Rattle.agreement.specs.Reading.{reading};
ghost use Rattle.agreement_c.specs.Told.{numbered, put};

use agreement::read;

// 0 where the bytes are an agreement; else the number of the refusal, and its place is put into `place`.
#[unsafe(no_mangle)]
pub extern "C" fn agreement_read(bytes: &[u8], place: &mut usize) -> u8
    ensures number { result ≡ numbered (reading bytes.now) }
    ensures place { place.new ≡ put place.old (reading bytes.now) }
{
    match read(bytes) {
        Ok(_) => 0,
        Err(refusal) => {
            *place = refusal.place;
            refusal.fault.number()
        }
    }
}
