// A fact that goes from each kept table.
ghost use Rattle.std.specs.Prelude.{◌≡◌, ℕ, ◌+◌, ◌*◌, ◌<◌, ◌≤◌, length, slice_index};
ghost use Rattle.hierarchy.specs.Views.{entry_of};
ghost use Rattle.summary.specs.Memory.{Sound};
ghost use Rattle.tables.specs.Memory.{wide, part_size, part, Each, WithoutFact};

use super::TableLayout;
use hierarchy::Fact;

impl TableLayout {
    // Takes a fact out of each kept table.
    pub fn take_all(&self, tables: &mut [u64], fact: Fact)
        requires long { length tables.old ≡ 1 + part_size self.now * 16 }
        requires few { slice_index tables.old 0 ≤ 16 }
        requires sound { (i : ℕ) → i < slice_index tables.old 0 → Sound (wide self.now) (part (part_size self.now) i tables.old) }
        ensures { Each (part_size self.now) (WithoutFact self.now (entry_of (wide self.now) fact)) (slice_index tables.old 0) tables.old tables.new }
    {
        self.each_part(tables, |part| self.take(part, fact));
    }

    // Takes a fact out of the table in a part.
    fn take(&self, part: &mut [u64], fact: Fact)
        requires { Sound (wide self.now) part.old }
        ensures { WithoutFact self.now (entry_of (wide self.now) fact) part.old part.new }
    {
        let place = self.place_in(part, fact);
        self.shape.take(part, place, fact.amount);
    }
}
