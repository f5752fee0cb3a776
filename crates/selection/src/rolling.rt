// The sizes of all levels, counted by rolling the finest table up.
ghost use Rattle.std.specs.Prelude.{◌≡◌, ◌^◌, ◌<◌, ◌≤◌, List, length, IfOk, vec_len};
ghost use Rattle.hierarchy.specs.Facts.{Entry};
ghost use Rattle.hierarchy.specs.Levels.{finest};
ghost use Rattle.hierarchy.specs.Views.{dims_of, levels_of};
ghost use Rattle.totals.specs.Cost.{size};
ghost use Rattle.totals.specs.Counts.{total};
ghost use Rattle.totals.specs.Tables.{table};
ghost use Rattle.summary.specs.Memory.{count_in, table_in, levels_in, rolled_in, Sound, sound_prop};
ghost use Rattle.greedy.specs.Turns.{TurnsAre};
ghost use Rattle.selection.specs.Rolling.{RolledSizes};

use greedy::by_sizes::all_levels;
use greedy::{Turn, choose_by_sizes};
use hierarchy::{Dimensions, Levels};
use std::alloc::{AllocError, Global};
use summary::Shape;

// How many groups a table has at coarser levels. The row is overwritten.
fn size_at(dims: &Dimensions, table: &[u64], levels: Levels, row: &mut [u64]) -> u64
    requires sound { Sound (length (dims_of dims.now)) table.now }
    requires room { length table.now ≤ length row.old }
    requires count_fits { (total (table_in (length (dims_of dims.now)) table.now)).count < 2 ^ 64 }
    requires sum_fits { (total (table_in (length (dims_of dims.now)) table.now)).sum < 2 ^ 64 }
    ensures { result ≡ length (rolled_in (length (dims_of dims.now)) (dims_of dims.now) (levels_of (length (dims_of dims.now)) levels) table.now) }
{
    let shape = Shape::of(dims);
    shape.roll(dims, table, levels, row);
    shape.count(row) as u64
}

// A table at the finest levels, whose counts and sums fit.
#[derive(Clone, Copy)]
pub struct Finest<'a> {
    pub dims: &'a Dimensions,
    pub row: &'a [u64],
    pub ghost sound: { Sound (length (dims_of dims.now)) row.now } by { sound_prop (length (dims_of dims.now)) row.now },
    pub ghost levels: { levels_in (length (dims_of dims.now)) row.now ≡ finest (dims_of dims.now) },
    pub ghost count_fits: { (total (table_in (length (dims_of dims.now)) row.now)).count < 2 ^ 64 },
    pub ghost sum_fits: { (total (table_in (length (dims_of dims.now)) row.now)).sum < 2 ^ 64 },
}

impl Finest<'_> {
    // The sizes of all levels in their order. The front is rolled up anew where the last dimension starts again: until then only
    // that dimension gets coarser, so that the front is fine enough already.
    pub fn sizes(self, heap: Global) -> Result<Vec<u64>, AllocError>
        ensures { IfOk result (λ v. RolledSizes (dims_of self.entry.dims.now) self.entry.row.now v.items) }
    {
        let dims = self.dims;
        let shape = Shape::of(dims);
        let last = dims.width() - 1;
        let all = all_levels(heap, dims)?;
        let mut front = vec![in heap; 0; self.row.len()]?;
        let mut row = vec![in heap; 0; self.row.len()]?;
        let mut sizes = Vec::new(heap);
        for levels in all.iter() {
            if levels.at[last] == 0 {
                shape.roll(dims, self.row, *levels, &mut front);
            }
            sizes.push(size_at(dims, &front, *levels, &mut row))?;
        }
        Ok(sizes)
    }

    // The choice of n.
    pub(crate) fn choose(self, heap: Global, n: u64) -> Result<Vec<Turn>, AllocError>
        requires { count_in (length (dims_of self.dims.now)) self.row.now < 2 ^ 32 }
        ensures { IfOk result (λ v. (vec_len v ≡ n) × ((es : List Entry) → table_in (length (dims_of self.entry.dims.now)) self.entry.row.now ≡ table (dims_of self.entry.dims.now) (finest (dims_of self.entry.dims.now)) es → TurnsAre (dims_of self.entry.dims.now) (size (dims_of self.entry.dims.now) es) v.items)) }
    {
        let sizes = self.sizes(heap)?;
        choose_by_sizes(heap, self.dims, &sizes, n as usize)
    }
}
