// Where the levels, the count and the groups of a table lie, and a group read and written.
ghost use Rattle.std.specs.Prelude.{◌≡◌, ◌+◌, ◌-◌, ◌*◌, ◌^◌, ◌<◌, ◌≤◌, ◌&&◌, length, take, drop, replicate, is_some, IfSome, nat_le, slice_index_or};
ghost use borrow.Rule.Slice.PartMut.{put_mid};
ghost use Rattle.summary.specs.Memory.{stride, start, count_in, table_in, Whole, cell_of, cell_in, cell_out, none};

use super::Shape;
use crate::group::Group;
use hierarchy::levels::methods::padded;

impl Shape {
    // The shape for so many dimensions: one to four.
    pub fn new(width: usize) -> Option<Shape>
        ensures test { is_some result ≡ (nat_le 1 width && nat_le width 4) }
        ensures value { IfSome result (λ s. s.width ≡ width) }
    {
        if 1 <= width && width <= 4 {
            Some(Shape { width })
        } else {
            None
        }
    }

    pub fn width(self) -> usize
        ensures { result ≡ self.width }
    {
        self.width
    }

    // How many numbers a group takes: its place, the count, the sum.
    pub fn stride(self) -> usize
        ensures { result ≡ stride self.width }
    {
        self.width + 2
    }

    // Where the i-th group starts. A book and the kept tables have `start` and `part` like these, and a book `write`, each with another
    // head, length and bound: a type for the three would be no plainer than these lines.
    pub fn start(self, i: usize) -> usize
        requires { start self.width i < 2 ^ 64 }
        ensures { result ≡ start self.width i }
    {
        self.width + 1 + self.stride() * i
    }

    // Whether a row of such a length has room for so many groups. A product of any two numbers could wrap, so this divides.
    pub fn fits(self, length: usize, groups: usize) -> bool
        ensures { result ≡ nat_le (start self.width groups) length }
    {
        self.width < length && groups <= (length - self.width - 1) / self.stride()
    }

    // How many groups a row holds.
    pub fn count(self, row: &[u64]) -> usize
        requires { Whole self.width row.now }
        ensures { result ≡ count_in self.width row.now }
    {
        row[self.width] as usize
    }

    // The numbers of the i-th group.
    pub(super) fn part(self, row: &[u64], i: usize) -> &[u64]
        requires { (Whole self.width row.now) × (i < count_in self.width row.now) }
        ensures { (result.now ≡ take (stride self.width) (drop (start self.width i) row.now)) × (length result.now ≡ stride self.width) }
    {
        let at = self.start(i);
        &row[at..at + self.stride()]
    }

    // The i-th group.
    pub fn group(self, row: &[u64], i: usize) -> Group
        requires { (Whole self.width row.now) × (i < count_in self.width row.now) }
        ensures cell { cell_of self.width result ≡ slice_index_or (table_in self.width row.now) i none }
        ensures rest { drop self.width result.place ≡ replicate (4 - self.width) 0 }
    {
        self.read(self.part(row, i))
    }

    // The numbers of all groups, one behind the other.
    pub fn groups(self, row: &[u64]) -> &[u64]
        requires { Whole self.width row.now }
        ensures { result.now ≡ take (stride self.width * count_in self.width row.now) (drop (self.width + 1) row.now) }
    {
        &row[self.start(0)..self.start(self.count(row))]
    }

    // A group from its numbers.
    pub fn read(self, part: &[u64]) -> Group
        requires { length part.now ≡ stride self.width }
        ensures cell { cell_of self.width result ≡ cell_in self.width part.now }
        ensures rest { drop self.width result.place ≡ replicate (4 - self.width) 0 }
    {
        Group {
            place: padded(part, self.width),
            count: part[self.width],
            sum: part[self.width + 1],
        }
    }

    // Writes a group where the i-th lies.
    pub(super) fn write(self, row: &mut [u64], i: usize, group: Group)
        requires { start self.width i + stride self.width ≤ length row.old }
        ensures { row.new ≡ put_mid (start self.width i) (stride self.width) row.old (cell_out (cell_of self.width group)) }
    {
        let at = self.start(i);
        let width = self.width;
        let part = &mut row[at..at + self.stride()];
        part[0..width].copy_from_slice(&group.place[0..width]);
        part[width] = group.count;
        part[width + 1] = group.sum;
    }
}
