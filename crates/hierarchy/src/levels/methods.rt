// What levels answer.
ghost use Rattle.std.specs.Prelude.{◌≡◌, ◌<◌, ◌≤◌, [], ◌∷◌, length, take, Some, None, Ok, Err, slice_index};
ghost use Rattle.hierarchy.specs.Dimensions.{four};
ghost use Rattle.hierarchy.specs.Levels.{no_coarser, total_levels, nth_levels};
ghost use Rattle.hierarchy.specs.Reading.{first_missing, levels_refusal, levels_in};
ghost use Rattle.hierarchy.specs.Views.{dims_of, levels_of};

use super::super::dimensions::Dimensions;
use super::Levels;
use replies::Refusal;

// A number of the first so many of a row, or 0 behind them.
fn number_or_0(row: &[u64], width: usize, i: usize) -> u64
    ensures { result ≡ slice_index (take width row.now) i }
{
    if i < width && i < row.len() {
        row[i]
    } else {
        0
    }
}

// The first numbers of a row, at most four, as an array of four.
pub fn padded(row: &[u64], width: usize) -> [u64; 4]
    ensures { result ≡ four (take width row.now) }
{
    // Written out, since it is done once a group of a roll up: with `array::from_fn` a group took 5 to 10 in a hundred longer than
    // before.
    [
        number_or_0(row, width, 0),
        number_or_0(row, width, 1),
        number_or_0(row, width, 2),
        number_or_0(row, width, 3),
    ]
}

impl Levels {
    // The finest levels.
    pub fn finest() -> Levels
        ensures { result.at ≡ 0 ∷ 0 ∷ 0 ∷ 0 ∷ [] }
    {
        Levels { at: [0; 4] }
    }

    // The first so many numbers of a row as levels, whatever they are.
    pub fn front(row: &[u64], width: usize) -> Levels
        ensures { result.at ≡ four (take width row.now) }
    {
        let at = padded(row, width);
        Levels { at }
    }

    // The levels that a row begins with, if they are there. Numbers behind them are not read.
    pub fn read(dims: &Dimensions, row: &[u64]) -> Result<Levels, Refusal>
        ensures { elim result [ Ok l ↦ (levels_refusal (dims_of dims.now) row.now ≡ None) × (l.at ≡ four (levels_in (dims_of dims.now) row.now)) | Err e ↦ levels_refusal (dims_of dims.now) row.now ≡ Some e ] }
    {
        if let Some(dimension) = dims.first_missing(row) {
            return Err(Refusal::NoLevel(dimension));
        }
        Ok(Levels::front(row, dims.width()))
    }

    // Whether each level is at most the other's.
    pub fn no_coarser(self, dims: &Dimensions, other: Levels) -> bool
        ensures { result ≡ no_coarser (dims_of dims.now) (levels_of (length (dims_of dims.now)) self) (levels_of (length (dims_of dims.now)) other) }
    {
        self.at
            .iter()
            .zip(other.at.iter())
            .take(dims.width())
            .all(|(level, other)| level <= other)
    }

    // How many rows of levels there are: at most six levels in each of at most four dimensions. Here and in `nth` the four stand
    // written out: `nth` divides by three of them, and a product over a range would be no plainer beside it.
    pub fn count(dims: &Dimensions) -> usize
        ensures { (result ≡ total_levels (dims_of dims.now)) × ((1 ≤ result) × (result ≤ 1296)) }
    {
        dims.levels_in(0) * (dims.levels_in(1) * (dims.levels_in(2) * dims.levels_in(3)))
    }

    // The levels at an index in the order of all: the first dimension changes slowest, and the finest level comes first.
    pub fn nth(dims: &Dimensions, index: usize) -> Option<Levels>
        ensures { elim result [ Some l ↦ (index < total_levels (dims_of dims.now)) × (l.at ≡ four (nth_levels (dims_of dims.now) index)) | None ↦ total_levels (dims_of dims.now) ≤ index ] }
    {
        let second = dims.levels_in(1);
        let third = dims.levels_in(2);
        let fourth = dims.levels_in(3);
        if index >= Levels::count(dims) {
            return None;
        }
        let behind = third * fourth;
        let rest = index % (second * behind);
        let at = [
            (index / (second * behind)) as u64,
            (rest / behind) as u64,
            (rest % behind / fourth) as u64,
            (rest % behind % fourth) as u64,
        ];
        Some(Levels { at })
    }
}
