// A fact comes: into the book, and into each kept table.
ghost use Rattle.std.specs.Prelude.{◌≡◌, Some, None, Ok, Err};
ghost use Rattle.hierarchy.specs.Reading.{entry_in};
ghost use Rattle.hierarchy.specs.Views.{entry_of};
ghost use Rattle.model.specs.House.{insert, refusal};
ghost use Rattle.replies.specs.Replies.{of_deed};
ghost use Rattle.storage.specs.Memory.{sides, wide, limits, house_in, Memory, Does};

use super::Layout;
use hierarchy::Fact;
use replies::Refusal;

impl Layout {
    // One fact more, if the book and the finest table have room for it: no other table then has more groups.
    #[tactic(auto, using(crate::proofs::Inserts::book_free, crate::proofs::Inserts::few_kept, model::proofs::Steps::step_unless_refused, model::proofs::Steps::told_or_refused))]
    pub fn insert(
        &self,
        numbers: &[u64],
        book: &mut [u64],
        tables: &mut [u64],
    ) -> Result<(), Refusal>
        requires { Memory self.now book.old tables.old }
        ensures { Does self.now (insert numbers.now) (of_deed result) book.old tables.old book.new tables.new }
    {
        let fact = self.insertable(numbers, book, tables)?;
        self.book.insert(book, fact);
        self.tables.put_all(tables, fact);
        Ok(())
    }

    // The fact to insert, or why it is refused.
    fn insertable(&self, numbers: &[u64], book: &[u64], tables: &[u64]) -> Result<Fact, Refusal>
        requires { Memory self.now book.now tables.now }
        ensures { elim result [ Ok f ↦ (refusal (sides self.now) (limits self.now) (house_in self.now book.now tables.now) (insert numbers.now) ≡ None) × (entry_of (wide self.now) f ≡ entry_in (sides self.now) numbers.now) | Err e ↦ refusal (sides self.now) (limits self.now) (house_in self.now book.now tables.now) (insert numbers.now) ≡ Some e ] }
    {
        let fact = self.tables.read_fact(numbers)?;
        if self.book.is_full(book) {
            return Err(Refusal::LedgerFull(self.book.room()));
        }
        if !self.tables.takes(self.tables.part(tables, 0), fact) {
            return Err(Refusal::TableFull(0));
        }
        Ok(fact)
    }
}
