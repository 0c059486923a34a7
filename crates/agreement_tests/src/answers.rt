// What is answered to bytes.
use agreement::read;
use std::process::Abort;

// Whether the bytes are taken; else the number and the place of the refusal.
pub(crate) type Answer = Result<(), (u8, usize)>;

pub(crate) fn answer_to(bytes: &[u8]) -> Answer {
    match read(bytes) {
        Ok(_) => Ok(()),
        Err(refusal) => Err((refusal.fault.number(), refusal.place)),
    }
}

pub(crate) fn check_answer(rt: &impl Abort, bytes: &[u8], answer: Answer) {
    assert_eq!(rt; answer_to(bytes), answer, "{bytes:?}");
}

pub(crate) fn check_all(rt: &impl Abort, table: &[(&[u8], Answer)]) {
    for (bytes, answer) in table {
        check_answer(rt, bytes, *answer);
    }
}
