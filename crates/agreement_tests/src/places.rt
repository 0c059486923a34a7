// The sale, gone through by its places.
use agreement::{Act, Place, Step, read};
use std::process::Abort;
use std::test::Fail;

// A deposit of 10,000 until day 5, then a value up to 100 until day 20.
const SALE: &[u8] = b"\x02\x01\x03\x05\x00\x01\x01\x00\x00\x10\x27\x00\x00\x00\x00\x03\x14\x00\x01\
    \x02\x00\x00\x00\x00\x00\x00\x64\x00\x00\x00\x01\x00\x01\x00\x00\x00\x00\x64\x00\x00\
    \x01\x00\x01\x10\x27\x00\x00\x00\x00\x00\x00";

// A payment from party 0 to party 1, after which it is over.
fn check_payment(rt: &impl Abort, place: Place<'_>, base: u32, per_unit: u16) -> Result<(), Fail> {
    let Step::Pay {
        from: 0,
        to: 1,
        amount,
        rest,
    } = place.peek()
    else {
        return Err(Fail::new("no payment from 0 to 1"));
    };
    assert_eq!(rt; (amount.base, amount.per[0]), (base, per_unit));
    let Step::Over { .. } = rest.peek() else {
        return Err(Fail::new("not over after the payment"));
    };
    Ok(())
}

#[test]
fn the_sale_waits_for_a_deposit(rt: HostRuntime) -> Result<(), Fail> {
    let Ok(sale) = read(SALE) else {
        return Err(Fail::new("the sale is refused"));
    };
    let start = sale.start();
    assert_eq!(rt; (start.parties(), start.slots()), (2, 1));
    let Step::Wait { day: 5, acts } = start.peek() else {
        return Err(Fail::new("no waiting until day 5"));
    };
    let Some(
        Act::Deposit {
            party: 0,
            account: 0,
            amount,
            rest,
        },
    ) = acts.peek()
    else {
        return Err(Fail::new("no deposit"));
    };
    assert_eq!(rt; (amount.base, amount.per[0]), (10_000, 0));
    let behind = acts.next(rest.after());
    let None = behind.peek() else {
        return Err(Fail::new("a second act"));
    };
    let Step::Over { .. } = start.next(behind.after()).peek() else {
        return Err(Fail::new("not over on day 5"));
    };
    Ok(())
}

#[test]
fn after_the_deposit_it_waits_for_a_choice(rt: HostRuntime) -> Result<(), Fail> {
    let Ok(sale) = read(SALE) else {
        return Err(Fail::new("the sale is refused"));
    };
    let Step::Wait { acts, .. } = sale.start().peek() else {
        return Err(Fail::new("no waiting"));
    };
    let Some(Act::Deposit { rest: place, .. }) = acts.peek() else {
        return Err(Fail::new("no deposit"));
    };
    let Step::Wait { day: 20, acts } = place.peek() else {
        return Err(Fail::new("no waiting until day 20"));
    };
    let Some(
        Act::Choice {
            party: 0,
            slot: 0,
            low: 0,
            high: 100,
            rest,
        },
    ) = acts.peek()
    else {
        return Err(Fail::new("no choice"));
    };
    check_payment(&rt, rest, 0, 100)?;
    check_payment(&rt, place.next(acts.after()), 10_000, 0)
}
