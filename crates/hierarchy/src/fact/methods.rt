// How a fact is read.
ghost use Rattle.std.specs.Prelude.{◌≡◌, ◌+◌, ◌<◌, length, take, Some, None, Ok, Err, slice_index};
ghost use Rattle.hierarchy.specs.Dimensions.{four};
ghost use Rattle.hierarchy.specs.Reading.{first_wrong, fact_refusal};
ghost use Rattle.hierarchy.specs.Views.{dims_of};

use super::super::dimension::methods::LIMIT;
use super::super::dimensions::Dimensions;
use super::super::levels::methods::padded;
use super::Fact;
use replies::Refusal;

// The first number that is missing, not below 2^32, or behind the so many that there are to be.
fn wrong_number(row: &[u64], count: usize) -> Option<usize>
    ensures { result ≡ first_wrong 0 count row.now }
{
    // One that is too large, or else the place at which the row ends too early or goes on.
    let large = row.iter().take(count).position(|n| *n >= LIMIT);
    large.or((row.len() != count).then_some(row.len().min(count)))
}

impl Fact {
    // A fact is one number a dimension and the amount behind them, each below 2^32, and no number more.
    pub fn read(dims: &Dimensions, row: &[u64]) -> Result<Fact, Refusal>
        ensures { elim result [ Ok f ↦ (fact_refusal (dims_of dims.now) row.now ≡ None) × (f.place ≡ four (take (length (dims_of dims.now)) row.now)) × (f.amount ≡ slice_index row.now (length (dims_of dims.now))) | Err e ↦ fact_refusal (dims_of dims.now) row.now ≡ Some e ] }
    {
        let width = dims.width();
        if let Some(number) = wrong_number(row, width + 1) {
            return Err(Refusal::BadFact(number));
        }
        let place = padded(row, width);
        Ok(Fact {
            place,
            amount: row[width],
        })
    }
}
