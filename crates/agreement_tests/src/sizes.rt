// How many things, how deep, how many acts and how many bytes an agreement may have.
use crate::answers::{Answer, check_answer};
use std::alloc::{AllocError, Global};
use std::process::Abort;
use std::test::Fail;

// Parts of an agreement, each to be written so often.
type Parts = &'static [(&'static [u8], usize)];

fn add(bytes: &mut Vec<u8>, parts: Parts) -> Result<(), AllocError> {
    for (part, count) in parts {
        for _ in 0..*count {
            bytes.extend_from_slice(part)?;
        }
    }
    Ok(())
}

fn check_parts(rt: &impl Abort, heap: Global, table: &[(Parts, Answer)]) -> Result<(), Fail> {
    for (parts, answer) in table {
        let mut bytes = Vec::new(heap);
        add(&mut bytes, parts)?;
        check_answer(rt, &bytes, *answer);
    }
    Ok(())
}

const OVER: &[u8] = b"\x00";

const PAYMENT: &[u8] = b"\x01\x00\x00\x00\x00\x00\x00";

// a fork before its two sides
const FORK: &[u8] = b"\x02\x00\x01\x00\x00\x00";

// a fork before its second side
const FORK_OVER: &[u8] = b"\x02\x00\x01\x00\x00\x00\x00";

// a waiting before what follows its only act
const ACT: &[u8] = b"\x03\x01\x00\x01\x01\x00\x00\x00\x00\x00\x00";

// a waiting before what follows on its day
const ACT_OVER: &[u8] = b"\x03\x01\x00\x01\x01\x00\x00\x00\x00\x00\x00\x00";

const DEPTHS: [(Parts, Answer); 13] = [
    (&[(b"\x01\x00", 1), (PAYMENT, 63), (OVER, 1)], Ok(())),
    (&[(b"\x01\x00", 1), (PAYMENT, 64), (OVER, 1)], Err((5, 450))),
    (&[(b"\x01\x00", 1), (PAYMENT, 64)], Err((3, 450))),
    // no such thing: 4 before 5
    (
        &[(b"\x01\x00", 1), (PAYMENT, 64), (b"\x04", 1)],
        Err((4, 450)),
    ),
    // from a party that is not there: 5 before 6
    (
        &[
            (b"\x01\x00", 1),
            (PAYMENT, 64),
            (b"\x01\x01\x00\x00\x00\x00\x00\x00", 1),
        ],
        Err((5, 450)),
    ),
    // on first sides
    (&[(b"\x01\x01", 1), (FORK, 63), (OVER, 64)], Ok(())),
    (&[(b"\x01\x01", 1), (FORK, 64), (OVER, 65)], Err((5, 386))),
    // on second sides
    (&[(b"\x01\x01", 1), (FORK_OVER, 63), (OVER, 1)], Ok(())),
    (
        &[(b"\x01\x01", 1), (FORK_OVER, 64), (OVER, 1)],
        Err((5, 449)),
    ),
    // behind acts
    (&[(b"\x01\x00", 1), (ACT, 63), (OVER, 64)], Ok(())),
    (&[(b"\x01\x00", 1), (ACT, 64), (OVER, 65)], Err((5, 706))),
    // on days
    (&[(b"\x01\x00", 1), (ACT_OVER, 63), (OVER, 1)], Ok(())),
    (
        &[(b"\x01\x00", 1), (ACT_OVER, 64), (OVER, 1)],
        Err((5, 769)),
    ),
];

#[test]
fn things_are_up_to_64_deep(rt: HostRuntime) -> Result<(), Fail> {
    check_parts(&rt, rt.alloc(), &DEPTHS)
}

// a waiting with 16 acts before what follows on its day: 17 things
const SIXTEEN: &[u8] =
    b"\x03\x01\x00\x10\x01\x00\x00\x01\x00\x00\x00\x00\x01\x00\x01\x01\x00\x00\x00\x00\
      \x01\x00\x02\x01\x00\x00\x00\x00\x01\x00\x03\x01\x00\x00\x00\x00\
      \x01\x00\x04\x01\x00\x00\x00\x00\x01\x01\x00\x01\x00\x00\x00\x00\
      \x01\x01\x01\x01\x00\x00\x00\x00\x01\x01\x02\x01\x00\x00\x00\x00\
      \x01\x01\x03\x01\x00\x00\x00\x00\x01\x01\x04\x01\x00\x00\x00\x00\
      \x01\x02\x00\x01\x00\x00\x00\x00\x01\x02\x01\x01\x00\x00\x00\x00\
      \x01\x02\x02\x01\x00\x00\x00\x00\x01\x02\x03\x01\x00\x00\x00\x00\
      \x01\x02\x04\x01\x00\x00\x00\x00\x01\x03\x00\x01\x00\x00\x00\x00";

// a fork with seven forks on its first side, before its second: 16 things
const BUSH: &[u8] = b"\x02\x00\x01\x00\x00\x00\
      \x02\x00\x01\x00\x00\x00\x02\x00\x01\x00\x00\x00\x02\x00\x01\x00\x00\x00\x00\x00\
      \x02\x00\x01\x00\x00\x00\x00\x00\
      \x02\x00\x01\x00\x00\x00\x02\x00\x01\x00\x00\x00\x00\x00\
      \x02\x00\x01\x00\x00\x00\x00\x00";

// a payment where there is one slot
const SLOT_PAYMENT: &[u8] = b"\x01\x00\x00\x00\x00\x00\x00\x00\x00";

const COUNTS: [(Parts, Answer); 6] = [
    // 31 bushes have 496 things
    (
        &[(b"\x01\x01", 1), (BUSH, 31), (SLOT_PAYMENT, 15), (OVER, 1)],
        Ok(()),
    ),
    (
        &[(b"\x01\x01", 1), (BUSH, 31), (SLOT_PAYMENT, 16), (OVER, 1)],
        Err((5, 1882)),
    ),
    (
        &[(b"\x01\x01", 1), (BUSH, 31), (SLOT_PAYMENT, 16)],
        Err((3, 1882)),
    ),
    // no such thing: 4 before 5
    (
        &[
            (b"\x01\x01", 1),
            (BUSH, 31),
            (SLOT_PAYMENT, 16),
            (b"\x04", 1),
        ],
        Err((4, 1882)),
    ),
    // 30 waitings have 510
    (
        &[(b"\x05\x00", 1), (SIXTEEN, 30), (PAYMENT, 1), (OVER, 1)],
        Ok(()),
    ),
    (
        &[(b"\x05\x00", 1), (SIXTEEN, 30), (PAYMENT, 2), (OVER, 1)],
        Err((5, 3976)),
    ),
];

#[test]
fn things_are_up_to_512(rt: HostRuntime) -> Result<(), Fail> {
    check_parts(&rt, rt.alloc(), &COUNTS)
}

const ACTS: [(Parts, Answer); 5] = [
    (&[(b"\x05\x00\x03\x01\x00\x00", 1), (OVER, 1)], Err((10, 5))),
    (&[(b"\x05\x00", 1), (ACT_OVER, 1), (OVER, 1)], Ok(())),
    (&[(b"\x05\x00", 1), (SIXTEEN, 1), (OVER, 1)], Ok(())),
    (&[(b"\x05\x00\x03\x01\x00\x11", 1), (OVER, 1)], Err((10, 5))),
    (&[(b"\x05\x00\x03\x01\x00\xff", 1), (OVER, 1)], Err((10, 5))),
];

#[test]
fn acts_are_1_to_16(rt: HostRuntime) -> Result<(), Fail> {
    check_parts(&rt, rt.alloc(), &ACTS)
}

const LENGTHS: [(Parts, Answer); 5] = [
    (&[(b"\x01\x00\x00", 1), (OVER, 1)], Err((13, 3))),
    // 16,384 bytes, and one more
    (&[(b"\x01\x00\x00", 1), (OVER, 16_381)], Err((13, 3))),
    (&[(b"\x01\x00\x00", 1), (OVER, 16_382)], Err((13, 3))),
    // something wrong before
    (&[(b"\x01\x00\x04", 1), (OVER, 16_382)], Err((4, 2))),
    (&[(b"\x01\x00", 1), (PAYMENT, 2_500)], Err((5, 450))),
];

#[test]
fn nothing_stands_behind(rt: HostRuntime) -> Result<(), Fail> {
    check_parts(&rt, rt.alloc(), &LENGTHS)
}

// a payment for eight slots
const WIDE: &[u8] = b"\x01\x00\x00\x00\x00\x00\x00\
      \x00\x00\x00\x00\x00\x00\x00\x00\x00\x00\x00\x00\x00\x00\x00\x00";

// Eight parties and slots, a waiting with 16 deposits and 29 payments behind each of them, and `end` on its day.
fn check_long(rt: &impl Abort, heap: Global, end: Parts, answer: Answer) -> Result<(), Fail> {
    let mut bytes = b"\x08\x08\x03\x01\x00\x10".to_vec(heap)?;
    for party in 0..2 {
        for account in 0..8 {
            bytes.extend_from_slice(&[1, party, account])?;
            add(&mut bytes, &[(b"\x00", 20), (WIDE, 29), (OVER, 1)])?;
        }
    }
    add(&mut bytes, end)?;
    check_answer(rt, &bytes, answer);
    Ok(())
}

#[test]
fn the_longest_has_11_753_bytes(rt: HostRuntime) -> Result<(), Fail> {
    check_long(&rt, rt.alloc(), &[(WIDE, 30)], Err((3, 11_752)))?;
    check_long(&rt, rt.alloc(), &[(WIDE, 30), (OVER, 1)], Ok(()))?;
    check_long(&rt, rt.alloc(), &[(WIDE, 31), (OVER, 1)], Err((5, 11_775)))?;
    check_long(
        &rt,
        rt.alloc(),
        &[(WIDE, 30), (OVER, 4_633)],
        Err((13, 11_753)),
    )
}

// Forks 8 deep, 255 in all, each with over on both sides; the last over is left out.
fn forks(heap: Global) -> Result<Vec<u8>, AllocError> {
    let mut bytes = Vec::from_slice(heap, b"\x01\x01")?;
    for pair in 128..256u32 {
        for _ in 0..pair.trailing_zeros().saturating_add(1) {
            bytes.extend_from_slice(FORK)?;
        }
        bytes.extend_from_slice(b"\x00\x00")?;
    }
    bytes.pop();
    Ok(bytes)
}

fn check_forks(rt: &impl Abort, heap: Global, last: &[u8], answer: Answer) -> Result<(), Fail> {
    let mut bytes = forks(heap)?;
    bytes.extend_from_slice(last)?;
    check_answer(rt, &bytes, answer);
    Ok(())
}

#[test]
fn forks_are_things(rt: HostRuntime) -> Result<(), Fail> {
    check_forks(&rt, rt.alloc(), OVER, Ok(()))?;
    // the 513th is the last over
    check_forks(
        &rt,
        rt.alloc(),
        b"\x02\x00\x01\x00\x00\x00\x00\x00",
        Err((5, 1794)),
    )?;
    // the bytes end where it is due
    check_forks(
        &rt,
        rt.alloc(),
        b"\x02\x00\x01\x00\x00\x00\x00",
        Err((3, 1794)),
    )
}
