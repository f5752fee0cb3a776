// Deeds read one by one.
ghost use Rattle.std.specs.Prelude.{◌≡◌, ◌+◌, ◌*◌, ◌<◌, ◌≤◌, false, length, take, Some, None};
ghost use Rattle.formats.specs.Bytes.{numbers};
ghost use Rattle.journal.specs.Deeds.{Says, row_length, is_deed};
ghost use Rattle.journal.specs.Steps.{Reads};

use super::{Kind, NoDeed, Step};
use formats::bytes::read_numbers;

impl TryFrom<u8> for Kind {
    type Error = NoDeed;

    ghost try_from_gives = { Says };

    fn try_from(byte: u8) -> Result<Kind, NoDeed> {
        match byte {
            0 => Ok(Kind::Insert),
            1 => Ok(Kind::Delete),
            2 => Ok(Kind::Keep),
            3 => Ok(Kind::Drop),
            4 => Ok(Kind::Ask),
            _ => Err(NoDeed(byte)),
        }
    }
}

impl Kind {
    // How many numbers come with it: an amount comes behind the place of a fact, and nothing behind levels.
    pub fn row_length(self, width: usize) -> usize
        requires { width ≤ 4 }
        ensures { (result ≡ row_length width self) × (result ≤ 5) }
    {
        match self {
            Kind::Insert | Kind::Delete => width + 1,
            Kind::Keep | Kind::Drop | Kind::Ask => width,
        }
    }
}

// The first so many numbers, at most five; behind them are zeros.
fn first_numbers(bytes: &[u8], count: usize) -> [u64; 5]
    requires { (count ≤ 5) × (4 * count ≤ length bytes.now) }
    ensures { take count result ≡ numbers count bytes.now }
{
    let mut all = [0; 5];
    read_numbers(bytes, &mut all[..count]);
    all
}

// The deed that bytes begin with, if they begin with one. A width of 0 is taken too, so no type says that it is small.
pub fn next_deed(width: usize, bytes: &[u8]) -> Option<Step<'_>>
    requires { width ≤ 4 }
    ensures { elim result [ Some s ↦ Reads width bytes.now s.kind s.count s.numbers s.rest.now | None ↦ is_deed width bytes.now ≡ false ] }
{
    let (first, behind) = bytes.split_first()?;
    let kind = Kind::try_from(*first).ok()?;
    let count = kind.row_length(width);
    if behind.len() < 4 * count {
        return None;
    }
    let numbers = first_numbers(behind, count);
    Some(Step {
        kind,
        count,
        numbers,
        rest: &behind[4 * count..],
    })
}
