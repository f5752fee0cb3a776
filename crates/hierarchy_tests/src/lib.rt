//! Tests of hierarchy: rows at the edge of what is accepted, and the worked example of two dimensions, `2 2` and `7`.
#![tactic(auto)]

#[cfg(test)]
mod tests {
    use hierarchy::{Dimension, Dimensions, Fact, Levels};
    use replies::{Refusal, Reply};
    use std::alloc::Global;
    use std::fmt::Display;
    use std::process::Abort;
    use std::test::Fail;

    // The least number that is too large.
    const LARGE: u64 = 4294967296;

    // The last number.
    const LAST: u64 = 18446744073709551615;

    // Two dimensions: `2 2` and `7`. Numbers behind the count of factors are not read.
    const TWO: [u64; 11] = [2, 2, 2, 2, 0, LAST, 1, 7, 0, LAST, 0];

    // All their levels, in order.
    const ALL: [[u64; 4]; 12] = [
        [0, 0, 0, 0],
        [0, 1, 0, 0],
        [0, 2, 0, 0],
        [1, 0, 0, 0],
        [1, 1, 0, 0],
        [1, 2, 0, 0],
        [2, 0, 0, 0],
        [2, 1, 0, 0],
        [2, 2, 0, 0],
        [3, 0, 0, 0],
        [3, 1, 0, 0],
        [3, 2, 0, 0],
    ];

    fn levels(first: u64, second: u64) -> Levels {
        let at = [first, second, 0, 0];
        Levels { at }
    }

    // How many levels a row's dimension has, if it is one.
    fn level_count(row: &[u64]) -> Option<u64> {
        Dimension::read(row).map(|dimension| dimension.level_count())
    }

    // The number and the place at which a row is refused, if it is.
    fn refused<T: Drop>(read: Result<T, Refusal>) -> Option<(u64, u128)> {
        read.err()
            .map(|refusal| (refusal.number(), refusal.place()))
    }

    #[test]
    fn one_dimension(rt: HostRuntime) {
        // Products of 2^32 - 1 and of 2^32, and far above.
        assert_eq!(rt; level_count(&[1, LARGE - 1, 0, 0, 0]), Some(3));
        assert_eq!(rt; level_count(&[2, 65535, 65537, 0, 0]), Some(4));
        assert_eq!(rt; level_count(&[4, 255, 257, 65537, 1]), Some(6));
        assert_eq!(rt; level_count(&[1, LARGE, 0, 0, 0]), None);
        assert_eq!(rt; level_count(&[2, 65536, 65536, 0, 0]), None);
        assert_eq!(rt; level_count(&[4, 256, 256, 256, 256]), None);
        assert_eq!(rt; level_count(&[3, LAST, LAST, LAST, 0]), None);
        // A factor 0, no factor, five factors, a row too short, and numbers that are not read.
        assert_eq!(rt; level_count(&[2, 0, 7, 0, 0]), None);
        assert_eq!(rt; level_count(&[2, 7, 0, 0, 0]), None);
        assert_eq!(rt; level_count(&[0, 0, 0, 0, 0]), Some(2));
        assert_eq!(rt; level_count(&[5, 1, 1, 1, 1, 1]), None);
        assert_eq!(rt; level_count(&[LAST, 1, 1, 1, 1, 1]), None);
        assert_eq!(rt; level_count(&[0, 0, 0, 0]), None);
        assert_eq!(rt; level_count(&[1, 7, LAST, 0, LAST, 8]), Some(3));
        assert_eq!(rt; Dimension::plain().level_count(), 2);
    }

    #[test]
    fn rows_of_dimensions(rt: HostRuntime) -> Result<(), Fail> {
        assert_eq!(rt; refused(Dimensions::read(&[])), Some((1, 4)));
        assert_eq!(rt; refused(Dimensions::read(&[0; 26])), Some((1, 4)));
        assert_eq!(rt; refused(Dimensions::read(&[5; 26])), Some((1, 4)));
        assert_eq!(rt; refused(Dimensions::read(&[1, 1, 7, 0, 0])), Some((1, 4)));
        assert_eq!(rt; refused(Dimensions::read(&[2; 10])), Some((1, 4)));
        assert_eq!(rt;
            refused(Dimensions::read(&[1, 1, 0, 0, 0, 0])),
            Some((1, 0))
        );
        // The first of two that are none is told.
        let bad = [3, 0, 0, 0, 0, 0, 5, 1, 1, 1, 1, 1, LARGE, 0, 0, 0];
        assert_eq!(rt; refused(Dimensions::read(&bad)), Some((1, 1)));
        // Numbers behind the dimensions are not read.
        assert_eq!(rt; refused(Dimensions::read(&[1, 1, 7, 0, 0, 0, 5])), None);
        let one = Dimensions::read(&[1, 1, 7, 0, 0, 0, 5, 5, 5, 5, 5])?;
        assert_eq!(rt; Levels::count(&one), 3);
        let most = Dimensions::read(&[4; 21])?;
        assert_eq!(rt; Levels::count(&most), 1296);
        let last = Levels::nth(&most, 1295).ok_or("no levels")?;
        assert_eq!(rt; last.at, [5, 5, 5, 5]);
        Ok(())
    }

    #[test]
    fn rows_of_levels(rt: HostRuntime) -> Result<(), Fail> {
        let dims = Dimensions::read(&TWO)?;
        assert_eq!(rt; dims.width(), 2);
        assert_eq!(rt; Levels::read(&dims, &[3, 2])?.at, [3, 2, 0, 0]);
        assert_eq!(rt; Levels::read(&dims, &[3, 2, 9, 9, 9])?.at, [3, 2, 0, 0]);
        assert_eq!(rt; refused(Levels::read(&dims, &[4, 3])), Some((3, 0)));
        assert_eq!(rt; refused(Levels::read(&dims, &[3, 3])), Some((3, 1)));
        assert_eq!(rt; refused(Levels::read(&dims, &[])), Some((3, 0)));
        assert_eq!(rt; refused(Levels::read(&dims, &[3])), Some((3, 1)));
        assert!(rt; levels(1, 1).no_coarser(&dims, levels(2, 1)));
        assert!(rt; !levels(2, 1).no_coarser(&dims, levels(1, 1)));
        assert!(rt; !levels(0, 1).no_coarser(&dims, levels(3, 0)));
        assert!(rt; levels(3, 2).no_coarser(&dims, levels(3, 2)));
        Ok(())
    }

    #[test]
    fn all_levels_in_order(rt: HostRuntime) -> Result<(), Fail> {
        let dims = Dimensions::read(&TWO)?;
        assert_eq!(rt; Levels::count(&dims), 12);
        for (i, at) in ALL.iter().enumerate() {
            let row = Levels::nth(&dims, i).ok_or("no levels")?;
            assert_eq!(rt; row.at, *at);
            assert!(rt; Levels::finest().no_coarser(&dims, row));
        }
        assert!(rt; Levels::nth(&dims, 12).is_none());
        Ok(())
    }

    #[test]
    fn facts(rt: HostRuntime) -> Result<(), Fail> {
        let dims = Dimensions::read(&TWO)?;
        let fact = Fact::read(&dims, &[5, LARGE - 1, LARGE - 2])?;
        assert_eq!(rt; fact.place, [5, LARGE - 1, 0, 0]);
        assert_eq!(rt; fact.amount, LARGE - 2);
        assert_eq!(rt;
            refused(Fact::read(&dims, &[LARGE, LARGE, LARGE])),
            Some((5, 0))
        );
        assert_eq!(rt; refused(Fact::read(&dims, &[0, LARGE, 0, 0])), Some((5, 1)));
        assert_eq!(rt; refused(Fact::read(&dims, &[0, 0, LARGE])), Some((5, 2)));
        assert_eq!(rt; refused(Fact::read(&dims, &[0, 0])), Some((5, 2)));
        assert_eq!(rt; refused(Fact::read(&dims, &[0, 0, 0, 0])), Some((5, 3)));
        assert_eq!(rt; refused(Fact::read(&dims, &[])), Some((5, 0)));
        Ok(())
    }

    #[test]
    fn places(rt: HostRuntime) -> Result<(), Fail> {
        let dims = Dimensions::read(&TWO)?;
        let place = [5, 10, 0, 0];
        assert_eq!(rt; dims.place_at(Levels::finest(), place), place);
        assert_eq!(rt; dims.place_at(levels(1, 0), place), [2, 10, 0, 0]);
        assert_eq!(rt; dims.place_at(levels(0, 1), place), [5, 1, 0, 0]);
        assert_eq!(rt; dims.place_at(levels(2, 1), place), [1, 1, 0, 0]);
        assert_eq!(rt; dims.place_at(levels(3, 2), place), [0, 0, 0, 0]);
        let up = dims.ascent(levels(1, 1), levels(2, 1));
        assert_eq!(rt; up.place([2, 1, 0, 0]), [1, 1, 0, 0]);
        assert_eq!(rt; up.place([7, 9, 8, 8]), [3, 9, 0, 0]);
        let days = Dimension::read(&[1, 7, 0, 0, 0]).ok_or(Refusal::BadDimension(0))?;
        assert_eq!(rt; days.rise(0, 1).number(10), 1);
        assert_eq!(rt; days.rise(1, 1).number(10), 10);
        assert_eq!(rt; days.rise(1, 2).number(10), 0);
        Ok(())
    }

    fn says<T: Display + Drop>(
        rt: &impl Abort,
        heap: Global,
        told: T,
        text: &str,
    ) -> Result<(), Fail> {
        assert_eq!(rt; format!(in heap; "{told}")?.as_str(), text);
        Ok(())
    }

    #[test]
    fn texts(rt: HostRuntime) -> Result<(), Fail> {
        says(&rt, rt.alloc(), Refusal::NoDimensions, "refused 1 at 4")?;
        says(&rt, rt.alloc(), Refusal::BadFact(2), "refused 5 at 2")?;
        says(&rt, rt.alloc(), Refusal::BadGroup(3), "refused 2 at 19")?;
        says(&rt, rt.alloc(), Refusal::NotKept, "refused 7 at 16")?;
        says(&rt, rt.alloc(), Reply::Done, "done")?;
        says(&rt, rt.alloc(), Reply::Shown(5), "work 5")?;
        let reply = Reply::Refused(Refusal::NoLevel(1));
        says(&rt, rt.alloc(), reply, "refused 3 at 1")
    }
}
