// A fact goes: from the book, and from each kept table.
ghost use Rattle.std.specs.Prelude.{◌≡◌, false, nat_lt};
ghost use Rattle.hierarchy.specs.Facts.{copies, without};
ghost use Rattle.hierarchy.specs.Views.{entry_of};
ghost use Rattle.ledger.specs.Book.{facts_in, Holds};
ghost use Rattle.model.specs.House.{delete};
ghost use Rattle.replies.specs.Replies.{of_deed};
ghost use Rattle.storage.specs.Memory.{wide, Memory, Does};

use super::Layout;
use hierarchy::Fact;
use replies::Refusal;

impl Layout {
    // One fact equal to this one, the newest, goes, if there is one.
    #[tactic(auto, using(crate::proofs::Deletes::few_tables, model::proofs::Steps::step_unless_refused, model::proofs::Steps::told_or_refused))]
    pub fn delete(
        &self,
        numbers: &[u64],
        book: &mut [u64],
        tables: &mut [u64],
    ) -> Result<(), Refusal>
        requires { Memory self.now book.old tables.old }
        ensures { Does self.now (delete numbers.now) (of_deed result) book.old tables.old book.new tables.new }
    {
        let fact = self.tables.read_fact(numbers)?;
        if !self.strike(book, tables, fact) {
            return Err(Refusal::NoSuchFact);
        }
        self.tables.take_all(tables, fact);
        Ok(())
    }

    // Takes a fact out of the book. Where the finest table has no group at its place, the book is not searched.
    fn strike(&self, book: &mut [u64], tables: &[u64], fact: Fact) -> bool
        requires { Memory self.now book.old tables.now }
        ensures told { result ≡ nat_lt 0 (copies (entry_of (wide self.now) fact) (facts_in (wide self.now) book.old)) }
        ensures facts { facts_in (wide self.now) book.new ≡ without (entry_of (wide self.now) fact) (facts_in (wide self.now) book.old) }
        ensures holds { Holds (wide self.now) self.now.book.room book.new }
        ensures none { result ≡ false → book.new ≡ book.old }
    {
        let finest = self.tables.part(tables, 0);
        self.tables.find(finest, fact).is_ok() && self.book.remove(book, fact)
    }
}
