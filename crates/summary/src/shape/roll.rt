// A table rolled up to coarser levels.
ghost use Rattle.std.specs.Prelude.{◌≡◌, ◌+◌, ◌^◌, ◌<◌, ◌≤◌, ◌∷◌, ◌++◌, length, drop};
ghost use Rattle.hierarchy.specs.Dimensions.{four};
ghost use Rattle.hierarchy.specs.Views.{dims_of, levels_of, carried};
ghost use Rattle.totals.specs.Counts.{total};
ghost use Rattle.summary.specs.Memory.{start, count_in, table_in, row_over, rolled_in, Sound};

use super::Shape;
use crate::group::Group;
use hierarchy::{Ascent, Dimensions, Levels};

impl Shape {
    // The shape of tables over dimensions.
    pub fn of(dims: &Dimensions) -> Shape
        ensures { result.width ≡ length (dims_of dims.now) }
    {
        Shape {
            width: dims.width(),
        }
    }

    // Rolls the table of one row up to levels into another, which has room for as many groups: group by group from the first,
    // so that most go behind the last. What lies behind the groups stays.
    pub fn roll(self, dims: &Dimensions, from: &[u64], levels: Levels, to: &mut [u64])
        requires width { self.width ≡ length (dims_of dims.now) }
        requires sound { Sound self.width from.now }
        requires room { start self.width (count_in self.width from.now) ≤ length to.old }
        requires count_fits { (total (table_in self.width from.now)).count < 2 ^ 64 }
        requires sum_fits { (total (table_in self.width from.now)).sum < 2 ^ 64 }
        ensures after { to.new ≡ row_over self.width (levels_of self.width levels) (rolled_in self.width (dims_of dims.now) (levels_of self.width levels) from.now) to.old }
        ensures sound { Sound self.width to.new }
    {
        let ascent = dims.ascent(Levels::front(from, self.width), levels);
        self.begin(to, levels);
        for part in self.groups(from).chunks_exact(self.stride()) {
            self.append(to, raised(self.read(part), &ascent));
        }
    }

    // A table at levels, with no group yet.
    pub fn begin(self, row: &mut [u64], levels: Levels)
        requires { self.width < length row.old }
        ensures { row.new ≡ levels_of self.width levels ++ (0 ∷ drop (self.width + 1) row.old) }
    {
        let width = self.width;
        row[0..width].copy_from_slice(&levels.at[0..width]);
        row[width] = 0;
    }
}

// A group at a place that is taken up.
fn raised(group: Group, ascent: &Ascent) -> Group
    ensures { (result.place ≡ four (carried ascent.now group.place)) × (result.count ≡ group.count) × (result.sum ≡ group.sum) }
{
    Group {
        place: ascent.place(group.place),
        ..group
    }
}
