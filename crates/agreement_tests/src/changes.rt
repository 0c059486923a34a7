// Agreements that are cut off, and agreements with a byte changed.
use crate::answers::{Answer, answer_to, check_all, check_answer};
use crate::refusals::REFUSALS;
use std::alloc::Global;
use std::process::Abort;
use std::test::Fail;

const WHOLE: [(&[u8], Answer); 3] = [
    // a payment
    (b"\x02\x00\x01\x00\x01\x01\x00\x00\x00\x00", Ok(())),
    // a deposit, then a setting, then a payment
    (
        b"\x02\x01\x03\x05\x00\x01\x01\x00\x00\x10\x27\x00\x00\x00\x00\x03\x14\x00\x01\
          \x02\x00\x00\x00\x00\x00\x00\x64\x00\x00\x00\x01\x00\x01\x00\x00\x00\x00\x64\x00\x00\
          \x01\x00\x01\x10\x27\x00\x00\x00\x00\x00\x00",
        Ok(()),
    ),
    // with a fork behind the setting
    (
        b"\x02\x01\x03\x05\x00\x01\x01\x00\x00\x10\x27\x00\x00\x00\x00\x03\x14\x00\x01\
          \x02\x00\x00\x00\x00\x00\x00\x69\x00\x00\x00\x02\x00\x64\x00\x00\x00\
          \x01\x00\x01\x00\x00\x00\x00\x64\x00\x00\x00\x01\x00\x01\x10\x27\x00\x00\x00\x00\x00\x00",
        Ok(()),
    ),
];

fn check_cuts(rt: &impl Abort, table: &[(&[u8], Answer)]) {
    for (bytes, _) in table {
        for length in 0..bytes.len() {
            check_answer(rt, &bytes[..length], Err((3, length)));
        }
    }
}

#[test]
fn cut_off_anywhere_is_3_there(rt: HostRuntime) {
    check_all(&rt, &WHOLE);
    check_cuts(&rt, &WHOLE);
}

// Puts each of the 256 values in each place.
fn check_places(rt: &impl Abort, bytes: &mut [u8]) {
    for place in 0..bytes.len() {
        let kept = bytes[place];
        for value in 0..=255 {
            bytes[place] = value;
            if let Err((number, at)) = answer_to(bytes) {
                assert!(rt; 1 <= number && number <= 13 && at <= bytes.len());
            }
        }
        bytes[place] = kept;
    }
}

fn check_changes(rt: &impl Abort, heap: Global, table: &[(&[u8], Answer)]) -> Result<(), Fail> {
    for (bytes, _) in table {
        check_places(rt, &mut bytes.to_vec(heap)?);
    }
    Ok(())
}

#[test]
fn changed_anywhere_is_answered(rt: HostRuntime) -> Result<(), Fail> {
    check_changes(&rt, rt.alloc(), &WHOLE)?;
    check_changes(&rt, rt.alloc(), &REFUSALS)
}
