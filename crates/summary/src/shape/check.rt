// Groups of a row that came from elsewhere, checked.
ghost use Rattle.std.specs.Prelude.{◌≡◌, ◌-◌, ◌<◌, Some, None, slice_index_or};
ghost use Rattle.totals.specs.Tables.{before};
ghost use Rattle.summary.specs.Memory.{count_in, table_in, Whole, Sound, none, bad, AllGood, FirstBad};

use super::Shape;

impl Shape {
    // The first group that is empty, too large, or does not come after the one before.
    pub fn first_bad_group(self, row: &[u64]) -> Option<usize>
        requires { Whole self.width row.now }
        ensures { elim result [ Some i ↦ FirstBad (table_in self.width row.now) i | None ↦ Sound self.width row.now × AllGood (table_in self.width row.now) ] }
    {
        (0..self.count(row)).find(|&i| self.is_bad(row, i))
    }

    fn is_bad(self, row: &[u64], i: usize) -> bool
        requires { (Whole self.width row.now) × (i < count_in self.width row.now) }
        ensures { result ≡ bad (table_in self.width row.now) i }
    {
        let group = self.group(row, i);
        group.out_of_bounds() || (0 < i && !self.comes_after(row, i))
    }

    // The i-th group comes after the one before.
    fn comes_after(self, row: &[u64], i: usize) -> bool
        requires { (Whole self.width row.now) × ((i < count_in self.width row.now) × (0 < i)) }
        ensures { result ≡ before (slice_index_or (table_in self.width row.now) (i - 1) none).place (slice_index_or (table_in self.width row.now) i none).place }
    {
        let last = self.group(row, i - 1);
        self.compare_at(row, i, last.place).is_gt()
    }
}
