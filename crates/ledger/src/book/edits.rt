// Facts that come to a book and go from it.
ghost use Rattle.std.specs.Prelude.{◌≡◌, ◌<◌, ◌∷◌, reverse, if◌then◌else◌, nat_lt};
ghost use Rattle.std.specs.List.{remove};
ghost use Rattle.hierarchy.specs.Facts.{copies, without};
ghost use Rattle.hierarchy.specs.Views.{entry_of};
ghost use Rattle.ledger.specs.Book.{count_in, in_order, facts_in, holding, Holds};

use super::Book;
use hierarchy::Fact;

impl Book {
    // Writes a fact behind the last.
    pub fn insert(self, row: &mut [u64], fact: Fact)
        requires holds { Holds self.width self.room row.old }
        requires free { count_in row.old < self.room }
        ensures after { row.new ≡ holding self.width (entry_of self.width fact ∷ facts_in self.width row.old) row.old }
        ensures facts { facts_in self.width row.new ≡ entry_of self.width fact ∷ facts_in self.width row.old }
        ensures holds { Holds self.width self.room row.new }
    {
        let n = self.count(row);
        self.write(row, n, fact);
        row[0] = n as u64 + 1;
    }

    // One fact equal to this one, the newest, goes, if there is one.
    pub fn remove(self, row: &mut [u64], fact: Fact) -> bool
        requires { Holds self.width self.room row.old }
        ensures told { result ≡ nat_lt 0 (copies (entry_of self.width fact) (facts_in self.width row.old)) }
        ensures after { row.new ≡ (if result then holding self.width (without (entry_of self.width fact) (facts_in self.width row.old)) row.old else row.old) }
        ensures facts { facts_in self.width row.new ≡ without (entry_of self.width fact) (facts_in self.width row.old) }
        ensures holds { Holds self.width self.room row.new }
    {
        let Some(i) = self.find(row, fact) else {
            return false;
        };
        self.delete(row, i);
        true
    }

    // The i-th fact goes, and the later ones move down.
    fn delete(self, row: &mut [u64], i: usize)
        requires { (Holds self.width self.room row.old) × (i < count_in row.old) }
        ensures after { row.new ≡ holding self.width (reverse (remove (in_order self.width row.old) i)) row.old }
        ensures facts { facts_in self.width row.new ≡ reverse (remove (in_order self.width row.old) i) }
        ensures holds { Holds self.width self.room row.new }
    {
        let n = self.count(row);
        let at = self.start(i);
        let next = self.start(i + 1);
        let end = self.start(n);
        row.copy_within(next..end, at);
        row[0] = n as u64 - 1;
    }
}
