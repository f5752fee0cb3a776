// A group found by its place.
ghost use Rattle.std.specs.Prelude.{◌+◌, ◌-◌, ◌<◌, take, slice_index_or};
ghost use Rattle.summary.specs.Memory.{count_in, table_in, Whole, Sound, none, Compared, Found};

use super::Shape;
use std::cmp::Ordering;

impl Shape {
    // Where the group of a place stands, or where it would; by halves.
    // A loop, since the library's search is over a slice of groups, and a lent row is one of numbers.
    pub fn find(self, row: &[u64], place: [u64; 4]) -> Result<usize, usize>
        requires { Sound self.width row.now }
        ensures { Found (take self.width place) (table_in self.width row.now) result }
    {
        let mut low = 0;
        let mut high = self.count(row);
        while low < high {
            let middle = low + (high - low) / 2;
            match self.compare_at(row, middle, place) {
                Ordering::Less => low = middle + 1,
                Ordering::Equal => return Ok(middle),
                Ordering::Greater => high = middle,
            }
        }
        Err(low)
    }

    // As `find`, where the place mostly is the last or comes after it: there one group is looked at.
    pub fn find_from_end(self, row: &[u64], place: [u64; 4]) -> Result<usize, usize>
        requires { Sound self.width row.now }
        ensures { Found (take self.width place) (table_in self.width row.now) result }
    {
        let n = self.count(row);
        if n == 0 {
            return Err(0);
        }
        match self.compare_at(row, n - 1, place) {
            Ordering::Less => Err(n),
            Ordering::Equal => Ok(n - 1),
            Ordering::Greater => self.find(row, place),
        }
    }

    // How the place of the i-th group stands to another.
    pub(super) fn compare_at(self, row: &[u64], i: usize, place: [u64; 4]) -> Ordering
        requires { (Whole self.width row.now) × (i < count_in self.width row.now) }
        ensures { Compared (slice_index_or (table_in self.width row.now) i none).place (take self.width place) result }
    {
        let width = self.width;
        self.part(row, i)[0..width].cmp(&place[0..width])
    }
}
