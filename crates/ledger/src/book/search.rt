// A fact looked for, from the newest on.
ghost use Rattle.std.specs.Prelude.{◌≡◌, length, Some, None};
ghost use Rattle.hierarchy.specs.Facts.{same_fact, copies};
ghost use Rattle.hierarchy.specs.Views.{entry_of};
ghost use Rattle.ledger.specs.Book.{stride, in_order, facts_in, entry_in, Holds, Newest};

use super::Book;
use hierarchy::Fact;

impl Book {
    // The newest fact that equals this one in every number and in the amount.
    pub fn find(self, row: &[u64], fact: Fact) -> Option<usize>
        requires { Holds self.width self.room row.now }
        ensures { elim result [ Some i ↦ Newest (entry_of self.width fact) (in_order self.width row.now) i | None ↦ copies (entry_of self.width fact) (facts_in self.width row.now) ≡ 0 ] }
    {
        (0..self.count(row)).rfind(|&i| self.is_fact(self.part(row, i), fact))
    }

    // Whether these are the numbers of the fact: not `==` of two facts, since numbers of an array behind the dimensions do not count.
    // The amount comes first, since it mostly differs.
    fn is_fact(self, part: &[u64], fact: Fact) -> bool
        requires { length part.now ≡ stride self.width }
        ensures { result ≡ same_fact (entry_of self.width fact) (entry_in self.width part.now) }
    {
        let width = self.width;
        fact.amount == part[width] && fact.place[0..width] == part[0..width]
    }
}
