// Which kept table serves for a question, and a table rolled up into another row.
ghost use Rattle.std.specs.Prelude.{◌≡◌, ◌<◌, ◌≤◌, ◌&&◌, length, nat_lt, slice_index};
ghost use Rattle.hierarchy.specs.Levels.{no_coarser};
ghost use Rattle.hierarchy.specs.Views.{levels_of};
ghost use Rattle.totals.specs.Tables.{rolled};
ghost use Rattle.summary.specs.Memory.{Sound, start, row_over};
ghost use Rattle.model.specs.House.{source};
ghost use Rattle.tables.specs.Memory.{sides, wide, part};
ghost use Rattle.tables.specs.Ready.{kept_tables, Ready, kept_table};

use super::TableLayout;
use hierarchy::Levels;

impl TableLayout {
    // How many groups the table at i has.
    pub fn groups_at(&self, tables: &[u64], i: usize) -> usize
        requires { (Ready self.now tables.now) × (i < slice_index tables.now 0) }
        ensures { result ≡ length (kept_table self.now i tables.now).cells }
    {
        self.shape.count(self.part(tables, i))
    }

    // How many numbers the table at i takes.
    pub fn length_at(&self, tables: &[u64], i: usize) -> usize
        requires { (Ready self.now tables.now) × (i < slice_index tables.now 0) }
        ensures { result ≡ start (wide self.now) (length (kept_table self.now i tables.now).cells) }
    {
        self.shape.start(self.groups_at(tables, i))
    }

    // Whether the table at i serves better than that at best: it is no coarser than the levels, and has fewer groups.
    fn serves_better(&self, tables: &[u64], levels: Levels, i: usize, best: usize) -> bool
        requires { (Ready self.now tables.now) × ((i < slice_index tables.now 0) × (best < slice_index tables.now 0)) }
        ensures { result ≡ (no_coarser (sides self.now) (kept_table self.now i tables.now).levels (levels_of (wide self.now) levels) && nat_lt (length (kept_table self.now i tables.now).cells) (length (kept_table self.now best tables.now).cells)) }
    {
        let at = self.levels_in(self.part(tables, i));
        at.no_coarser(&self.dims, levels)
            && self.groups_at(tables, i) < self.groups_at(tables, best)
    }

    // Of the kept tables that are no coarser than the levels, one with fewest groups, the first of several. The first table is the
    // finest, so that there is one.
    pub fn source(&self, tables: &[u64], levels: Levels) -> usize
        requires { Ready self.now tables.now }
        ensures { (result < slice_index tables.now 0) × (kept_table self.now result tables.now ≡ source (sides self.now) (levels_of (wide self.now) levels) (kept_tables self.now tables.now)) }
    {
        (1..self.kept(tables)).fold(0, |best, i| {
            if self.serves_better(tables, levels, i, best) {
                i
            } else {
                best
            }
        })
    }

    // Rolls the table at i up to levels, into a row with room for as many groups.
    pub fn roll(&self, tables: &[u64], i: usize, levels: Levels, to: &mut [u64])
        requires ready { Ready self.now tables.now }
        requires there { i < slice_index tables.now 0 }
        requires room { start (wide self.now) (length (kept_table self.now i tables.now).cells) ≤ length to.old }
        ensures after { to.new ≡ row_over (wide self.now) (levels_of (wide self.now) levels) (rolled (sides self.now) (kept_table self.now i tables.now).levels (levels_of (wide self.now) levels) (kept_table self.now i tables.now).cells) to.old }
        ensures sound { Sound (wide self.now) to.new }
    {
        self.shape
            .roll(&self.dims, self.part(tables, i), levels, to);
    }
}
