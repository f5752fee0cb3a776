//! Tests of lent tables: facts put in one by one, rows checked and rolled up, and each refusal with its place.
#![tactic(auto)]

#[cfg(test)]
mod tests {
    use hierarchy::Dimensions;
    use replies::Refusal;
    use rollup::{GROUPS, check, roll};
    use std::process::Abort;
    use std::test::Fail;
    use summary::{Group, Shape};

    // Branches, of which two make a town and two towns a county, and days, of which seven make a week.
    const SHOP: [u64; 11] = [2, 2, 2, 2, 0, 0, 1, 7, 0, 0, 0];

    // A branch, a day and an amount.
    const SALES: [(u64, u64, u64); 6] = [
        (0, 0, 5),
        (1, 3, 2),
        (1, 3, 4),
        (2, 8, 1),
        (5, 9, 7),
        (5, 10, 3),
    ];

    fn same(rt: &impl Abort, row: &[u64], other: &[u64]) {
        assert_eq!(rt; row, other);
    }

    // A sale comes to the table of a row, if it is one.
    fn put(dims: &Dimensions, row: &mut [u64], sale: (u64, u64, u64)) -> Result<bool, Fail> {
        let (branch, day, amount) = sale;
        if amount >= 1 << 32 {
            return Err(Fail::new("amount"));
        }
        check(dims, GROUPS, row)?;
        let group = Group::one([branch, day, 0, 0], amount);
        Ok(Shape::of(dims).put(row, group))
    }

    fn put_all(rt: &impl Abort, dims: &Dimensions, row: &mut [u64]) -> Result<(), Fail> {
        for sale in SALES {
            assert_eq!(rt; put(dims, row, sale)?, true);
        }
        Ok(())
    }

    #[test]
    fn worked_example(rt: HostRuntime) -> Result<(), Fail> {
        let dims = Dimensions::read(&SHOP)?;
        let mut row = [0; 23];
        put_all(&rt, &dims, &mut row)?;
        same(&rt, &row[0..11], &[0, 0, 5, 0, 0, 1, 5, 1, 3, 2, 6]);
        same(&rt, &row[11..23], &[2, 8, 1, 1, 5, 9, 1, 7, 5, 10, 1, 3]);
        assert_eq!(rt; put(&dims, &mut row, (0, 1, 1))?, false);
        let mut out = [9; 23];
        assert_eq!(rt; roll(&SHOP, &row, &[0, 1], &mut out), Ok(5));
        same(&rt, &out[0..11], &[0, 1, 4, 0, 0, 1, 5, 1, 0, 2, 6]);
        same(&rt, &out[11..23], &[2, 1, 1, 1, 5, 1, 2, 10, 9, 9, 9, 9]);
        Ok(())
    }

    fn checks(rt: &impl Abort, row: &[u64], told: Result<usize, Refusal>) -> Result<(), Fail> {
        let dims = Dimensions::read(&SHOP)?;
        assert_eq!(rt; check(&dims, 2, row), told);
        Ok(())
    }

    #[test]
    fn tables(rt: HostRuntime) -> Result<(), Fail> {
        checks(&rt, &[3, 2, 0], Ok(0))?;
        checks(&rt, &[0, 0, 1, 0, 0, 1, 5, 9], Ok(1))?;
        checks(
            &rt,
            &[0, 0, 2, 0, 1, 4294967295, 1125899906842623, 1, 0, 1, 0],
            Ok(2),
        )
    }

    #[test]
    fn no_tables(rt: HostRuntime) -> Result<(), Fail> {
        checks(&rt, &[0, 0], Err(Refusal::BadTable(2)))?;
        checks(&rt, &[4, 3, 9], Err(Refusal::BadTableLevel(0)))?;
        checks(&rt, &[0, 3, 9], Err(Refusal::BadTableLevel(1)))?;
        checks(&rt, &[0, 0, 1, 0, 0, 1], Err(Refusal::BadTable(2)))?;
        checks(
            &rt,
            &[0, 0, 18446744073709551615],
            Err(Refusal::BadTable(2)),
        )?;
        checks(
            &rt,
            &[0, 0, 3, 0, 0, 1, 5, 0, 1, 1, 5, 0, 2, 1, 5],
            Err(Refusal::BadTable(2)),
        )
    }

    #[test]
    fn no_groups(rt: HostRuntime) -> Result<(), Fail> {
        checks(&rt, &[0, 0, 1, 0, 0, 0, 5], Err(Refusal::BadGroup(0)))?;
        checks(
            &rt,
            &[0, 0, 1, 0, 0, 4294967296, 5],
            Err(Refusal::BadGroup(0)),
        )?;
        checks(
            &rt,
            &[0, 0, 2, 0, 0, 1, 5, 1, 0, 1, 1125899906842624],
            Err(Refusal::BadGroup(1)),
        )?;
        checks(
            &rt,
            &[0, 0, 2, 1, 0, 1, 5, 1, 0, 1, 5],
            Err(Refusal::BadGroup(1)),
        )?;
        checks(
            &rt,
            &[0, 0, 2, 1, 0, 1, 5, 0, 9, 1, 5],
            Err(Refusal::BadGroup(1)),
        )
    }

    // Refused, and the row is as it was: six numbers, one too few for a group.
    fn refuses(rt: &impl Abort, sides: &[u64], from: &[u64], to: &[u64], refusal: Refusal) {
        let mut out = [9; 6];
        assert_eq!(rt; roll(sides, from, to, &mut out), Err(refusal));
        assert_eq!(rt; out, [9; 6]);
    }

    #[test]
    fn refusals(rt: HostRuntime) {
        let from = [1, 1, 1, 3, 4, 2, 8];
        refuses(&rt, &[], &[], &[], Refusal::NoDimensions);
        refuses(&rt, &[1, 1, 0, 0, 0, 0], &[], &[], Refusal::BadDimension(0));
        refuses(&rt, &SHOP, &[], &[], Refusal::BadTable(2));
        refuses(&rt, &SHOP, &from, &[], Refusal::NoLevel(0));
        refuses(&rt, &SHOP, &from, &[0, 0], Refusal::NoLevel(0));
        refuses(&rt, &SHOP, &from, &[3], Refusal::NoLevel(1));
        refuses(&rt, &SHOP, &from, &[1, 3], Refusal::NoLevel(1));
        refuses(&rt, &SHOP, &from, &[1, 0], Refusal::NoLevel(1));
        refuses(&rt, &SHOP, &from, &[1, 1], Refusal::NoRoom(6));
    }

    // No group; one, in a row that is exactly long enough; and four dimensions.
    #[test]
    fn rolls(rt: HostRuntime) {
        let mut few = [9; 4];
        assert_eq!(rt; roll(&SHOP, &[0, 0, 0], &[3, 2], &mut few), Ok(0));
        assert_eq!(rt; few, [3, 2, 0, 9]);
        let mut one = [9; 7];
        assert_eq!(rt;
            roll(&SHOP, &[1, 1, 1, 3, 4, 2, 8], &[2, 1], &mut one),
            Ok(1)
        );
        assert_eq!(rt; one, [2, 1, 1, 1, 4, 2, 8]);
        // Three levels in the second and the fourth dimension, two in the others.
        let sides = [
            4, 0, 0, 0, 0, 0, 1, 2, 0, 0, 0, 0, 0, 0, 0, 0, 1, 3, 0, 0, 0,
        ];
        let from = [0, 0, 0, 0, 2, 1, 2, 3, 4, 1, 5, 1, 3, 3, 5, 2, 6];
        let mut four = [9; 17];
        assert_eq!(rt; roll(&sides, &from, &[0, 1, 1, 1], &mut four), Ok(2));
        assert_eq!(rt; four, [0, 1, 1, 1, 1, 1, 1, 0, 1, 3, 11, 9, 9, 9, 9, 9, 9]);
    }
}
