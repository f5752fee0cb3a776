// Tables that are kept and dropped.
ghost use Rattle.std.specs.Prelude.{◌≡◌, ℕ, List, length, Some, None, Ok, Err};
ghost use Rattle.hierarchy.specs.Reading.{levels_in};
ghost use Rattle.hierarchy.specs.Views.{levels_of};
ghost use Rattle.model.specs.House.{refusal, keep, drop_table, kept_at};
ghost use Rattle.replies.specs.Replies.{of_deed};
ghost use Rattle.storage.specs.Memory.{sides, wide, limits, house_in, Memory, part_size, Does};
ghost use Rattle.tables.specs.Ready.{kept_tables, Ready};

use super::Layout;
use hierarchy::Levels;
use replies::Refusal;
use tables::TABLES;

impl Layout {
    // Keeps the totals at the levels that are named, in a table behind the others. `row` is room to make it in.
    #[tactic(auto, using(crate::proofs::Rebuilt::memory_ready))]
    pub fn keep(
        &self,
        numbers: &[u64],
        book: &[u64],
        tables: &mut [u64],
        row: &mut [u64],
    ) -> Result<(), Refusal>
        requires memory { Memory self.now book.now tables.old }
        requires row { length row.old ≡ part_size self.now }
        ensures { Does self.now (keep numbers.now) (of_deed result) book.now tables.old book.now tables.new }
    {
        let levels = self.may_keep(numbers, tables)?;
        self.tables.add(levels, tables, row);
        Ok(())
    }

    // Drops the table at the levels that are named.
    #[tactic(auto, using(crate::proofs::Rebuilt::memory_ready))]
    pub fn drop_table(
        &self,
        numbers: &[u64],
        book: &[u64],
        tables: &mut [u64],
    ) -> Result<(), Refusal>
        requires { Memory self.now book.now tables.old }
        ensures { Does self.now (drop_table numbers.now) (of_deed result) book.now tables.old book.now tables.new }
    {
        let place = self.may_drop(numbers, tables)?;
        self.tables.remove(place, tables);
        Ok(())
    }

    // The levels at which a table may be kept, or why not. No fact counts for that.
    fn may_keep(&self, numbers: &[u64], tables: &[u64]) -> Result<Levels, Refusal>
        requires { Ready self.now.tables tables.now }
        ensures { (book : List ℕ) → elim result [ Ok l ↦ (refusal (sides self.now) (limits self.now) (house_in self.now book tables.now) (keep numbers.now) ≡ None) × (levels_of (wide self.now) l ≡ levels_in (sides self.now) numbers.now) | Err e ↦ refusal (sides self.now) (limits self.now) (house_in self.now book tables.now) (keep numbers.now) ≡ Some e ] }
    {
        let levels = self.tables.read_levels(numbers)?;
        if let Some(place) = self.tables.place_of(tables, levels) {
            return Err(Refusal::AlreadyKept(place));
        }
        let kept = self.tables.kept(tables);
        if kept >= TABLES {
            return Err(Refusal::AllKept);
        }
        Ok(levels)
    }

    // Where the table is kept that may be dropped, or why not. The finest is the source of all others, so it stays.
    fn may_drop(&self, numbers: &[u64], tables: &[u64]) -> Result<usize, Refusal>
        requires { Ready self.now.tables tables.now }
        ensures { (book : List ℕ) → elim result [ Ok i ↦ (refusal (sides self.now) (limits self.now) (house_in self.now book tables.now) (drop_table numbers.now) ≡ None) × (kept_at (levels_in (sides self.now) numbers.now) 0 (kept_tables self.now.tables tables.now) ≡ Some i) | Err e ↦ refusal (sides self.now) (limits self.now) (house_in self.now book tables.now) (drop_table numbers.now) ≡ Some e ] }
    {
        let levels = self.tables.read_levels(numbers)?;
        if self.tables.are_finest(levels) {
            return Err(Refusal::FinestStays);
        }
        self.tables.place_of(tables, levels).ok_or(Refusal::NotKept)
    }
}
