//! Tests of the choice where there is memory: all levels, the turns of a worked example, and what is refused.
#![tactic(auto)]

#[cfg(test)]
mod tests {
    use greedy::Turn;
    use greedy::by_sizes::all_levels;
    use hierarchy::{Dimensions, Levels};
    use replies::Refusal;
    use selection::Fault;
    use selection::entry::choose;
    use std::test::Fail;

    // Branches, of which two make a town and two towns a county, and days, of which seven make a week.
    const SHOP: [u64; 11] = [2, 2, 2, 2, 0, 0, 1, 7, 0, 0, 0];

    // A branch, a day and an amount, one behind the other.
    const SALES: [u64; 18] = [0, 0, 5, 1, 3, 2, 1, 3, 4, 2, 8, 1, 5, 9, 7, 5, 10, 3];

    fn turn(branches: u64, days: u64, saves: u64) -> Turn {
        let at = [branches, days, 0, 0];
        Turn {
            levels: Levels { at },
            saves,
        }
    }

    #[test]
    fn lists_all_levels(rt: HostRuntime) -> Result<(), Fail> {
        let dims = Dimensions::read(&SHOP)?;
        let all = all_levels(rt.alloc(), &dims)?;
        assert_eq!(rt; all.len(), 12);
        assert_eq!(rt; all[0].at, [0, 0, 0, 0]);
        assert_eq!(rt; all[11].at, [3, 2, 0, 0]);
        Ok(())
    }

    // Each of the twelve questions costs 5, the groups of the finest table. Weeks of towns, 3 groups, take 2 off six of them; weeks of
    // branches, 4 groups, 1 off two more; all days of counties, 2 groups, 1 off two; weeks of all branches, 2 groups, 1 off one. The
    // third and the fourth are the first of equals: all days of all branches, 1 group, would take off as much.
    #[test]
    fn worked_example(rt: HostRuntime) -> Result<(), Fail> {
        let four = [
            turn(1, 1, 12),
            turn(0, 1, 14),
            turn(2, 2, 16),
            turn(3, 1, 17),
        ];
        let turns = choose(rt.alloc(), &SHOP, 2, &SALES)?;
        assert_eq!(rt; turns.as_slice(), &four[..2]);
        let turns = choose(rt.alloc(), &SHOP, 4, &SALES)?;
        assert_eq!(rt; turns.as_slice(), &four[..]);
        Ok(())
    }

    #[test]
    fn refusals(rt: HostRuntime) {
        for n in [0, 16] {
            assert_eq!(rt;
                choose(rt.alloc(), &SHOP, n, &SALES).err(),
                Some(Fault::Refused(Refusal::BadChoice(n)))
            );
        }
        assert_eq!(rt;
            choose(rt.alloc(), &SHOP, 2, &SALES[..17]).err(),
            Some(Fault::Refused(Refusal::BadFact(2)))
        );
    }
}
