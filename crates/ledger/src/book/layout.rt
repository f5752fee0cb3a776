// Where the count and the facts of a book lie, and a fact read and written.
ghost use Rattle.std.specs.Prelude.{◌≡◌, ◌-◌, ◌<◌, ◌≤◌, length, take, drop, replicate, ◌==◌, slice_index_or};
ghost use borrow.Rule.Slice.PartMut.{put_mid};
ghost use Rattle.hierarchy.specs.Views.{entry_of};
ghost use Rattle.ledger.specs.Book.{stride, start, count_in, in_order, entry_out, nothing, Holds};

use super::Book;
use hierarchy::Fact;
use hierarchy::levels::methods::padded;

impl Book {
    // How many numbers a fact takes: its place and its amount.
    fn stride(self) -> usize
        ensures { result ≡ stride self.width }
    {
        self.width + 1
    }

    // Where the i-th fact starts, behind the count. A line like those of a group and of a kept table: see `Shape::start`.
    pub(super) fn start(self, i: usize) -> usize
        requires { i ≤ self.room }
        ensures { result ≡ start self.width i }
    {
        1 + self.stride() * i
    }

    // How many numbers the book takes.
    pub fn length(self) -> usize
        ensures { result ≡ start self.width self.room }
    {
        self.start(self.room)
    }

    // How many facts there are.
    pub fn count(self, row: &[u64]) -> usize
        requires { Holds self.width self.room row.now }
        ensures { result ≡ count_in row.now }
    {
        row[0] as usize
    }

    // Whether there is no room for one more.
    pub fn is_full(self, row: &[u64]) -> bool
        requires { Holds self.width self.room row.now }
        ensures { result ≡ (count_in row.now == self.room) }
    {
        self.count(row) == self.room
    }

    // The numbers of the i-th fact.
    pub(super) fn part(self, row: &[u64], i: usize) -> &[u64]
        requires { (Holds self.width self.room row.now) × (i < count_in row.now) }
        ensures { (result.now ≡ take (stride self.width) (drop (start self.width i) row.now)) × (length result.now ≡ stride self.width) }
    {
        let at = self.start(i);
        &row[at..at + self.stride()]
    }

    // The i-th fact, in the order in which they came.
    pub fn get(self, row: &[u64], i: usize) -> Fact
        requires { (Holds self.width self.room row.now) × (i < count_in row.now) }
        ensures fact { entry_of self.width result ≡ slice_index_or (in_order self.width row.now) i nothing }
        ensures rest { drop self.width result.place ≡ replicate (4 - self.width) 0 }
    {
        let part = self.part(row, i);
        Fact {
            place: padded(part, self.width),
            amount: part[self.width],
        }
    }

    // Writes a fact where the i-th lies.
    pub(super) fn write(self, row: &mut [u64], i: usize, fact: Fact)
        requires { (i < self.room) × (start self.width self.room ≤ length row.old) }
        ensures { row.new ≡ put_mid (start self.width i) (stride self.width) row.old (entry_out (entry_of self.width fact)) }
    {
        let at = self.start(i);
        let width = self.width;
        let part = &mut row[at..at + self.stride()];
        part[0..width].copy_from_slice(&fact.place[0..width]);
        part[width] = fact.amount;
    }
}
