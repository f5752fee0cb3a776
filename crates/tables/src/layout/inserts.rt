// A fact that comes to each kept table.
ghost use Rattle.std.specs.Prelude.{◌≡◌, ℕ, ◌+◌, ◌*◌, ◌<◌, ◌≤◌, length, take, nat_le, slice_index};
ghost use Rattle.hierarchy.specs.Views.{entry_of};
ghost use Rattle.hierarchy.specs.Places.{place_at};
ghost use Rattle.summary.specs.Memory.{table_in, Sound, Found};
ghost use Rattle.model.specs.House.{with_fact};
ghost use Rattle.tables.specs.Memory.{sides, wide, part_size, part, kept_in, PutReady, WithFact, Each};

use super::TableLayout;
use hierarchy::Fact;
use summary::Group;

impl TableLayout {
    // Where the group of a fact stands in the table of a part, or where it would.
    pub fn find(&self, part: &[u64], fact: Fact) -> Result<usize, usize>
        requires { Sound (wide self.now) part.now }
        ensures { Found (place_at (sides self.now) (take (wide self.now) part.now) (entry_of (wide self.now) fact).place) (table_in (wide self.now) part.now) result }
    {
        let place = self.place_in(part, fact);
        self.shape.find(part, place)
    }

    // Whether the table in a part has a group at a fact's place, or room for one.
    pub fn takes(&self, part: &[u64], fact: Fact) -> bool
        requires { (Sound (wide self.now) part.now) × (length part.now ≡ part_size self.now) }
        ensures { result ≡ nat_le (length (with_fact (sides self.now) (entry_of (wide self.now) fact) (kept_in (wide self.now) part.now)).cells) self.now.groups }
    {
        self.find(part, fact).is_ok() || self.shape.count(part) < self.groups
    }

    // Puts a fact into each kept table.
    pub fn put_all(&self, tables: &mut [u64], fact: Fact)
        requires long { length tables.old ≡ 1 + part_size self.now * 16 }
        requires few { slice_index tables.old 0 ≤ 16 }
        requires ready { (i : ℕ) → i < slice_index tables.old 0 → PutReady self.now (entry_of (wide self.now) fact) (part (part_size self.now) i tables.old) }
        ensures { Each (part_size self.now) (WithFact self.now (entry_of (wide self.now) fact)) (slice_index tables.old 0) tables.old tables.new }
    {
        self.each_part(tables, |part| self.put(part, fact));
    }

    // Puts a fact into the table in a part.
    fn put(&self, part: &mut [u64], fact: Fact)
        requires { PutReady self.now (entry_of (wide self.now) fact) part.old }
        ensures { WithFact self.now (entry_of (wide self.now) fact) part.old part.new }
    {
        let place = self.place_in(part, fact);
        self.shape.put(part, Group::one(place, fact.amount));
    }
}
