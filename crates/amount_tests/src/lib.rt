// Examples of what amounts and forms come to.
#![tactic(auto)]

ghost use Rattle.std.specs.Prelude.{◌≤◌, length};
ghost use Rattle.amount.specs.Form.{Bounded};

#[cfg(test)]
mod tests {
    use amount::{Amount, Bounds, Form, SLOTS};

    // An account that the amounts of `into` went into and those of `out` out of.
    fn account(into: &[Amount], out: &[Amount]) -> Form
        requires into_few { length into.now ≤ 64 }
        requires out_few { length out.now ≤ 64 }
        ensures { Bounded result }
    {
        let mut form = Form::zero();
        for deposit in into {
            form = form.plus(deposit);
        }
        for payment in out {
            form = form.minus(payment);
        }
        form
    }

    // So many cents, and so many for each unit of the first three slots.
    fn amount(base: u32, first: u16, second: u16, third: u16) -> Amount {
        let per = [first, second, third, 0, 0, 0, 0, 0];
        Amount { base, per }
    }

    // A box that is open in the first three slots.
    fn bounds(low: u32, high: u32) -> Bounds {
        let low = [low, low, low, 0, 0, 0, 0, 0];
        let high = [high, high, high, 0, 0, 0, 0, 0];
        Bounds { low, high }
    }

    #[test]
    fn worth_is_base_and_units(rt: HostRuntime) {
        let slots = [3, 5, 7, 11, 0, 0, 0, 0];
        assert_eq!(rt; amount(1000, 100, 10, 1).worth(&slots), 1357);
    }

    #[test]
    fn unset_slots_count_as_0(rt: HostRuntime) {
        let slots = [3, 5, 7, 11, 0, 0, 0, 0];
        let set = [true, false, true, false, false, false, false, false];
        assert_eq!(rt; amount(1000, 100, 10, 1).known(&set).worth(&slots), 1307);
    }

    #[test]
    fn least_lies_at_a_mixed_corner(rt: HostRuntime) {
        // 1000 + 5·a - 7·b over a and b from 2 to 100
        let form = account(&[amount(1000, 5, 0, 0)], &[amount(0, 0, 7, 0)]);
        let bounds = bounds(2, 100);
        assert_eq!(rt; form.corner(&bounds), [2, 100, 2, 0, 0, 0, 0, 0]);
        assert_eq!(rt; form.least(&bounds), 310);
        assert_eq!(rt; form.shortfall(&bounds), 0);
    }

    #[test]
    fn slots_that_do_not_matter_are_low(rt: HostRuntime) {
        // the third slot goes in and out with the same cents per unit
        let form = account(&[amount(0, 0, 0, 9)], &[amount(1, 0, 0, 9)]);
        let bounds = bounds(4, 8);
        assert_eq!(rt; form.corner(&bounds), [4, 4, 4, 0, 0, 0, 0, 0]);
        assert_eq!(rt; form.least(&bounds), -1);
        assert_eq!(rt; form.shortfall(&bounds), 1);
    }

    #[test]
    fn a_box_of_one_point(rt: HostRuntime) {
        let form = account(&[amount(10, 1, 2, 3)], &[amount(20, 3, 2, 1)]);
        let bounds = bounds(6, 6);
        assert_eq!(rt; form.corner(&bounds), [6, 6, 6, 0, 0, 0, 0, 0]);
        assert_eq!(rt; form.least(&bounds), -10);
    }

    #[test]
    fn all_limits_at_once(rt: HostRuntime) {
        let per = [1000; SLOTS];
        let most = Amount {
            base: 1_000_000_000,
            per,
        };
        let low = [0; SLOTS];
        let high = [1_000_000; SLOTS];
        let bounds = Bounds { low, high };
        let all = [most; 64];
        assert_eq!(rt; most.worth(&high), 9_000_000_000);
        assert_eq!(rt; account(&[], &all).least(&bounds), -576_000_000_000);
        assert_eq!(rt; account(&[], &all).corner(&bounds), high);
        assert_eq!(rt; account(&all, &[]).least(&bounds), 64_000_000_000);
        assert_eq!(rt; account(&all, &all).shortfall(&bounds), 0);
    }

    #[test]
    fn all_values_of_the_types(rt: HostRuntime) {
        let per = [u16::MAX; SLOTS];
        let most = Amount {
            base: u32::MAX,
            per,
        };
        let high = [u32::MAX; SLOTS];
        let bounds = Bounds { low: high, high };
        let all = [most; 64];
        assert_eq!(rt; most.worth(&high), 2_251_769_748_389_895);
        assert_eq!(rt; account(&[], &all).least(&bounds), -144_113_263_896_953_280);
        assert_eq!(rt;
            account(&[], &all).shortfall(&bounds),
            144_113_263_896_953_280
        );
        assert_eq!(rt; account(&all, &[]).least(&bounds), 144_113_263_896_953_280);
    }
}
