// The deeds.
ghost use Rattle.std.specs.Prelude.{◌≡◌, ℕ, length};
ghost use Rattle.summary.specs.Memory.{table_in, Whole};
ghost use Rattle.totals.specs.Tables.{Table};
ghost use Rattle.hierarchy.specs.Reading.{levels_in};
ghost use Rattle.model.specs.House.{insert, delete, keep, drop_table, ask, shown, step, told};
ghost use Rattle.replies.specs.Replies.{of_deed, of_question};
ghost use Rattle.storage.specs.Memory.{reply_of, row_after};
ghost use Rattle.warehouse.specs.Views.{dims_in, limits_in, house_of};

use super::Warehouse;
use replies::Refusal;
use summary::Shape;

impl Warehouse {
    // One fact more: the numbers of its place, one a dimension, and its amount.
    pub fn insert(&mut self, numbers: &[u64]) -> Result<(), Refusal>
        ensures reply { of_deed result ≡ reply_of (told (dims_in self.old) (limits_in self.old) (house_of self.old) (insert numbers.now)) }
        ensures house { house_of self.new ≡ step (dims_in self.old) (limits_in self.old) (house_of self.old) (insert numbers.now) }
        ensures same { self.new.layout ≡ self.old.layout }
    {
        self.layout
            .insert(numbers, &mut self.book, &mut self.tables)
    }

    // One fact equal to this one goes, the newest of several.
    pub fn delete(&mut self, numbers: &[u64]) -> Result<(), Refusal>
        ensures reply { of_deed result ≡ reply_of (told (dims_in self.old) (limits_in self.old) (house_of self.old) (delete numbers.now)) }
        ensures house { house_of self.new ≡ step (dims_in self.old) (limits_in self.old) (house_of self.old) (delete numbers.now) }
        ensures same { self.new.layout ≡ self.old.layout }
    {
        self.layout
            .delete(numbers, &mut self.book, &mut self.tables)
    }

    // One table more, at these levels, made of the smallest that is kept and no coarser.
    pub fn keep(&mut self, numbers: &[u64]) -> Result<(), Refusal>
        ensures reply { of_deed result ≡ reply_of (told (dims_in self.old) (limits_in self.old) (house_of self.old) (keep numbers.now)) }
        ensures house { house_of self.new ≡ step (dims_in self.old) (limits_in self.old) (house_of self.old) (keep numbers.now) }
        ensures same { self.new.layout ≡ self.old.layout }
    {
        self.layout
            .keep(numbers, &self.book, &mut self.tables, &mut self.row)
    }

    // The table at these levels is kept no more.
    pub fn drop_table(&mut self, numbers: &[u64]) -> Result<(), Refusal>
        ensures reply { of_deed result ≡ reply_of (told (dims_in self.old) (limits_in self.old) (house_of self.old) (drop_table numbers.now)) }
        ensures house { house_of self.new ≡ step (dims_in self.old) (limits_in self.old) (house_of self.old) (drop_table numbers.now) }
        ensures same { self.new.layout ≡ self.old.layout }
    {
        self.layout
            .drop_table(numbers, &self.book, &mut self.tables)
    }

    // The totals at these levels, into a lent row, and how many groups were looked at.
    pub fn ask(&self, numbers: &[u64], out: &mut [u64]) -> Result<usize, Refusal>
        ensures reply { of_question result ≡ reply_of (told (dims_in self.now) (limits_in self.now) (house_of self.now) (ask numbers.now (length out.old))) }
        ensures row { out.new ≡ row_after (levels_in (dims_in self.now) numbers.now) (told (dims_in self.now) (limits_in self.now) (house_of self.now) (ask numbers.now (length out.old))) out.old }
        ensures shown { (t : Table) (n : ℕ) → told (dims_in self.now) (limits_in self.now) (house_of self.now) (ask numbers.now (length out.old)) ≡ shown t n → (table_in (length (dims_in self.now)) out.new ≡ t) × Whole (length (dims_in self.now)) out.new }
    {
        self.layout.ask(numbers, &self.book, &self.tables, out)
    }

    // How its tables lie in memory.
    pub fn shape(&self) -> Shape
        ensures { result.width ≡ length (dims_in self.now) }
    {
        self.layout.shape()
    }
}
