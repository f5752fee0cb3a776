// A question, answered.
ghost use Rattle.std.specs.Prelude.{◌≡◌, length};
ghost use Rattle.hierarchy.specs.Reading.{levels_in};
ghost use Rattle.model.specs.House.{ask, told};
ghost use Rattle.replies.specs.Replies.{of_question};
ghost use Rattle.storage.specs.Memory.{sides, limits, house_in, Memory, reply_of, row_after};

use super::Layout;
use replies::Refusal;

impl Layout {
    // Writes the totals at the levels asked for into a lent row, and tells how many groups were looked at.
    #[tactic(auto, using(crate::proofs::Rebuilt::memory_ready))]
    pub fn ask(
        &self,
        numbers: &[u64],
        book: &[u64],
        tables: &[u64],
        out: &mut [u64],
    ) -> Result<usize, Refusal>
        requires { Memory self.now book.now tables.now }
        ensures reply { of_question result ≡ reply_of (told (sides self.now) (limits self.now) (house_in self.now book.now tables.now) (ask numbers.now (length out.old))) }
        ensures row { out.new ≡ row_after (levels_in (sides self.now) numbers.now) (told (sides self.now) (limits self.now) (house_in self.now book.now tables.now) (ask numbers.now (length out.old))) out.old }
    {
        let levels = self.tables.read_levels(numbers)?;
        let from = self.tables.source(tables, levels);
        if out.len() < self.tables.length_at(tables, from) {
            return Err(Refusal::NoRoom(out.len()));
        }
        self.tables.roll(tables, from, levels, out);
        Ok(self.tables.groups_at(tables, from))
    }
}
