// Tables that are found, put behind the others, and removed.
ghost use Rattle.std.specs.Prelude.{◌≡◌, ◌+◌, ◌<◌, ◌≤◌, [], ◌∷◌, ◌++◌, length, take, slice_index};
ghost use Rattle.std.specs.List.{remove};
ghost use Rattle.hierarchy.specs.Levels.{same};
ghost use Rattle.hierarchy.specs.Views.{levels_of};
ghost use Rattle.model.specs.House.{kept_at, answer, source};
ghost use Rattle.tables.specs.Memory.{sides, wide, part_size, part};
ghost use Rattle.tables.specs.Ready.{kept_tables, Ready, Left};

use super::TableLayout;
use hierarchy::Levels;

impl TableLayout {
    // Whether a table is at these levels.
    fn is_at(&self, table: &[u64], levels: Levels) -> bool
        requires { wide self.now ≤ length table.now }
        ensures { result ≡ same (levels_of (wide self.now) levels) (take (wide self.now) table.now) }
    {
        let width = self.dims.width();
        levels.at[..width] == table[..width]
    }

    // Where a table at these levels is kept.
    pub fn place_of(&self, tables: &[u64], levels: Levels) -> Option<usize>
        requires { Ready self.now tables.now }
        ensures { result ≡ kept_at (levels_of (wide self.now) levels) 0 (kept_tables self.now tables.now) }
    {
        (0..self.kept(tables)).find(|&i| self.is_at(self.part(tables, i), levels))
    }

    // Puts the totals at levels, made of the table that serves, behind the other tables.
    pub fn add(&self, levels: Levels, tables: &mut [u64], row: &mut [u64])
        requires ready { Ready self.now tables.old }
        requires room { slice_index tables.old 0 < 16 }
        requires row { length row.old ≡ part_size self.now }
        ensures { Left self.now (kept_tables self.now tables.old ++ (record { levels = levels_of (wide self.now) levels; cells = answer (sides self.now) (levels_of (wide self.now) levels) (kept_tables self.now tables.old) } ∷ [])) tables.new }
    {
        let from = self.source(tables, levels);
        self.roll(tables, from, levels, row);
        let kept = self.kept(tables);
        let at = self.at(kept);
        tables[at..at + self.part_length()].copy_from_slice(row);
        tables[0] = kept as u64 + 1;
    }

    // The table at i goes, and the later ones move up.
    pub fn remove(&self, i: usize, tables: &mut [u64])
        requires { (Ready self.now tables.old) × (i < slice_index tables.old 0) }
        ensures { Left self.now (remove (kept_tables self.now tables.old) i) tables.new }
    {
        let kept = self.kept(tables);
        tables.copy_within(self.at(i + 1)..self.at(kept), self.at(i));
        tables[0] = kept as u64 - 1;
    }
}
