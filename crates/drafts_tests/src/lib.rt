// Tests of writing: the sale, as software draws it up.
#![tactic(auto)]

#[cfg(test)]
mod tests {
    use agreement::read;
    use amount::Amount;
    use drafts::{Act, Draft, Thing, write};
    use std::alloc::{AllocError, Global};
    use std::test::Fail;

    // The sale's bytes: a deposit of 10,000 until day 5, then a value up to 100 until day 20.
    const SALE: [u8; 51] =
        *b"\x02\x01\x03\x05\x00\x01\x01\x00\x00\x10\x27\x00\x00\x00\x00\x03\x14\x00\x01\
        \x02\x00\x00\x00\x00\x00\x00\x64\x00\x00\x00\x01\x00\x01\x00\x00\x00\x00\x64\x00\x00\
        \x01\x00\x01\x10\x27\x00\x00\x00\x00\x00\x00";

    fn cents(base: u32, per_unit: u16) -> Amount {
        Amount {
            base,
            per: [per_unit, 0, 0, 0, 0, 0, 0, 0],
        }
    }

    fn payment(heap: Global, amount: Amount) -> Result<Thing, AllocError> {
        let rest = Box::new(heap, Thing::Over)?;
        Ok(Thing::Pay {
            from: 0,
            to: 1,
            amount,
            rest,
        })
    }

    fn choice(heap: Global) -> Result<Thing, AllocError> {
        let choice = Act::Choice {
            party: 0,
            slot: 0,
            low: 0,
            high: 100,
            rest: payment(heap, cents(0, 100))?,
        };
        let acts = vec![in heap; choice]?;
        let rest = Box::new(heap, payment(heap, cents(10_000, 0))?)?;
        Ok(Thing::Wait {
            day: 20,
            acts,
            rest,
        })
    }

    fn sale(heap: Global) -> Result<Draft, AllocError> {
        let deposit = Act::Deposit {
            party: 0,
            account: 0,
            amount: cents(10_000, 0),
            rest: choice(heap)?,
        };
        let acts = vec![in heap; deposit]?;
        let rest = Box::new(heap, Thing::Over)?;
        Ok(Draft {
            parties: 2,
            slots: 1,
            first: Thing::Wait { day: 5, acts, rest },
        })
    }

    #[test]
    fn the_sale_is_written_and_read(rt: HostRuntime) -> Result<(), Fail> {
        let draft = sale(rt.alloc())?;
        let mut memory = [7; 60];
        assert!(rt; write(&draft, &mut memory).is_ok());
        assert_eq!(rt; &memory[0..51], SALE.as_slice());
        assert_eq!(rt; &memory[51..60], [7; 9].as_slice());
        assert!(rt; read(&memory[0..51]).is_ok());
        Ok(())
    }

    #[test]
    fn memory_that_is_just_long_enough(rt: HostRuntime) -> Result<(), Fail> {
        let draft = sale(rt.alloc())?;
        let mut memory = [0; 51];
        assert!(rt; write(&draft, &mut memory).is_ok());
        assert_eq!(rt; memory.as_slice(), SALE.as_slice());
        Ok(())
    }

    #[test]
    fn memory_that_is_too_short_stays_as_it_is(rt: HostRuntime) -> Result<(), Fail> {
        let draft = sale(rt.alloc())?;
        let mut memory = [7; 50];
        match write(&draft, &mut memory) {
            Ok(_) => assert!(rt; false),
            Err(refusal) => assert_eq!(rt; (refusal.fault.number(), refusal.place), (17, 2)),
        }
        assert_eq!(rt; memory.as_slice(), [7; 50].as_slice());
        Ok(())
    }
}
