// Facts and levels read for these tables.
ghost use Rattle.std.specs.Prelude.{◌≡◌, take, Some, None, Ok, Err, slice_index};
ghost use Rattle.hierarchy.specs.Dimensions.{four};
ghost use Rattle.hierarchy.specs.Levels.{same, finest};
ghost use Rattle.hierarchy.specs.Reading.{levels_refusal, levels_in, fact_refusal};
ghost use Rattle.hierarchy.specs.Views.{levels_of};
ghost use Rattle.tables.specs.Memory.{sides, wide};

use super::TableLayout;
use hierarchy::{Fact, Levels};
use replies::Refusal;

impl TableLayout {
    // The fact that a row is, or what is wrong first.
    pub fn read_fact(&self, row: &[u64]) -> Result<Fact, Refusal>
        ensures { elim result [ Ok f ↦ (fact_refusal (sides self.now) row.now ≡ None) × (f.place ≡ four (take (wide self.now) row.now)) × (f.amount ≡ slice_index row.now (wide self.now)) | Err e ↦ fact_refusal (sides self.now) row.now ≡ Some e ] }
    {
        Fact::read(&self.dims, row)
    }

    // The levels that a row begins with, or the first that is not there.
    pub fn read_levels(&self, row: &[u64]) -> Result<Levels, Refusal>
        ensures { elim result [ Ok l ↦ (levels_refusal (sides self.now) row.now ≡ None) × (l.at ≡ four (levels_in (sides self.now) row.now)) | Err e ↦ levels_refusal (sides self.now) row.now ≡ Some e ] }
    {
        Levels::read(&self.dims, row)
    }

    // Whether these are the finest levels: no others are no coarser than the finest.
    pub fn are_finest(&self, levels: Levels) -> bool
        ensures { result ≡ same (levels_of (wide self.now) levels) (finest (sides self.now)) }
    {
        levels.no_coarser(&self.dims, Levels::finest())
    }
}
