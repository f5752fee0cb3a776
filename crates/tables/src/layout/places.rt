// Where the parts of the tables lie.
ghost use Rattle.std.specs.Prelude.{◌≡◌, ℕ, ◌+◌, ◌*◌, ◌^◌, ◌<◌, ◌≤◌, length, take, slice_index};
ghost use Rattle.std.specs.Fn.{FnOnceTakesAtMut, FnOnceReturnsAtMut};
ghost use Rattle.hierarchy.specs.Dimensions.{four};
ghost use Rattle.hierarchy.specs.Places.{place_at};
ghost use Rattle.hierarchy.specs.Views.{entry_of};
ghost use Rattle.summary.specs.Memory.{start, Sound};
ghost use Rattle.tables.specs.Memory.{sides, wide, part_size, part, Each};

use super::super::room::Room;
use super::TableLayout;
use crate::TABLES;
use hierarchy::{Dimensions, Fact, Levels};
use summary::Shape;

impl TableLayout {
    // For these dimensions, with so much room.
    pub fn new(dims: Dimensions, room: Room) -> TableLayout
        ensures { (result.dims ≡ dims) × (result.groups ≡ room.groups) }
    {
        TableLayout {
            dims,
            shape: Shape::of(&dims),
            groups: room.groups(),
        }
    }

    // How a table lies in memory.
    pub fn shape(&self) -> Shape
        ensures { result.width ≡ wide self.now }
    {
        self.shape
    }

    // How many numbers the part of a table takes.
    pub fn part_length(&self) -> usize
        ensures { (result ≡ part_size self.now) × (result < 2 ^ 36) }
    {
        self.shape.start(self.groups)
    }

    // How many numbers all tables take.
    pub fn tables_length(&self) -> usize
        ensures { result ≡ 1 + part_size self.now * 16 }
    {
        1 + self.part_length() * TABLES
    }

    // Where the part at i starts. A line like those of a group and of a fact: see `Shape::start`.
    pub(super) fn at(&self, i: usize) -> usize
        requires { i ≤ 16 }
        ensures { (result ≡ 1 + part_size self.now * i) × (result < 2 ^ 41) }
    {
        1 + self.part_length() * i
    }

    // The part at i.
    pub fn part<'a>(&self, tables: &'a [u64], i: usize) -> &'a [u64]
        requires { (i < 16) × (length tables.now ≡ 1 + part_size self.now * 16) }
        ensures { (result.now ≡ part (part_size self.now) i tables.now) × (length result.now ≡ part_size self.now) }
    {
        let at = self.at(i);
        &tables[at..at + self.part_length()]
    }

    // Changes the part of each kept table.
    pub(super) fn each_part<F: Fn(&mut [u64])>(&self, tables: &mut [u64], change: F)
        requires long { length tables.old ≡ 1 + part_size self.now * 16 }
        requires few { slice_index tables.old 0 ≤ 16 }
        requires ready { (i : ℕ) → i < slice_index tables.old 0 → FnOnceTakesAtMut F.FnOnce change (part (part_size self.now) i tables.old) }
        ensures { Each (part_size self.now) (λ xs ys. FnOnceReturnsAtMut F.FnOnce change xs tt ys) (slice_index tables.old 0) tables.old tables.new }
    {
        let length = self.part_length();
        let kept = self.kept(tables);
        // Behind `chunks_exact_mut` nothing would be known of what the parts hold.
        for t in 0..kept {
            let at = self.at(t);
            change(&mut tables[at..at + length]);
        }
    }

    // How many tables are kept.
    pub fn kept(&self, tables: &[u64]) -> usize
        requires { 0 < length tables.now }
        ensures { result ≡ slice_index tables.now 0 }
    {
        tables[0] as usize
    }

    // The levels of the table in a part.
    pub(super) fn levels_in(&self, part: &[u64]) -> Levels
        ensures { result.at ≡ four (take (wide self.now) part.now) }
    {
        Levels::front(part, self.dims.width())
    }

    // The place of a fact at the levels of the table in a part.
    pub(super) fn place_in(&self, part: &[u64], fact: Fact) -> [u64; 4]
        requires { Sound (wide self.now) part.now }
        ensures { take (wide self.now) result ≡ place_at (sides self.now) (take (wide self.now) part.now) (entry_of (wide self.now) fact).place }
    {
        self.dims.place_at(self.levels_in(part), fact.place)
    }
}
