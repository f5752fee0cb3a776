// What dimensions answer.
ghost use Rattle.std.specs.Prelude.{◌≡◌, ℕ, ◌+◌, ◌*◌, ◌<◌, ◌≤◌, true, false, List, [], length, Some, None, Ok, Err, slice_index, slice_index_or};
ghost use Rattle.hierarchy.specs.Dimensions.{four, up};
ghost use Rattle.hierarchy.specs.Levels.{levels_in_dimension};
ghost use Rattle.hierarchy.specs.Places.{place_up, place_at};
ghost use Rattle.hierarchy.specs.Reading.{is_whole, dims_in, dims_refusal, first_missing};
ghost use Rattle.hierarchy.specs.Views.{dims_of, carried, levels_of, risen};
ghost use Rattle.replies.specs.declared.Refusal.TheVariants.{NoDimensions, BadDimension};

use super::super::dimension::{Dimension, Rise};
use super::super::levels::Levels;
use super::{Ascent, Dimensions};
use replies::Refusal;

// How many dimensions a row is to have, if it is long enough for them.
fn width_in(row: &[u64]) -> Result<usize, Refusal>
    ensures { elim result [ Ok w ↦ (is_whole row.now ≡ true) × (w ≡ slice_index row.now 0) × (1 ≤ w) × (w ≤ 4) × (1 + 5 * w ≤ length row.now) | Err e ↦ (is_whole row.now ≡ false) × (e ≡ NoDimensions) ] }
{
    if row.is_empty() || row[0] < 1 || row[0] > 4 {
        return Err(Refusal::NoDimensions);
    }
    let width = row[0] as usize;
    if row.len() < 1 + 5 * width {
        return Err(Refusal::NoDimensions);
    }
    Ok(width)
}

impl Dimensions {
    // Dimensions read from a row: how many, and for each how many factors and room for four. Numbers behind these are not read.
    pub fn read(row: &[u64]) -> Result<Dimensions, Refusal>
        ensures { elim result [ Ok d ↦ (dims_refusal row.now ≡ None) × (dims_of d ≡ dims_in row.now) | Err e ↦ dims_refusal row.now ≡ Some e ] }
    {
        let width = width_in(row)?;
        let mut each = [Dimension::plain(); 4];
        for (i, part) in row[1..1 + 5 * width].chunks_exact(5).enumerate() {
            each[i] = Dimension::read(part).ok_or(Refusal::BadDimension(i))?;
        }
        Ok(Dimensions { width, each })
    }

    // How many dimensions there are.
    pub fn width(&self) -> usize
        ensures { (result ≡ length (dims_of self.now)) × ((1 ≤ result) × (result ≤ 4)) }
    {
        self.width
    }

    // The first dimension whose level is missing in a row or not there.
    pub fn first_missing(&self, row: &[u64]) -> Option<usize>
        ensures { result ≡ first_missing 0 (dims_of self.now) row.now }
    {
        let high = self.each[..self.width]
            .iter()
            .zip(row.iter())
            .position(|(dimension, level)| *level >= dimension.level_count());
        high.or((row.len() < self.width).then_some(row.len()))
    }

    // How many levels there are in a dimension, or 1 where there is no such dimension.
    pub fn levels_in(&self, i: usize) -> usize
        ensures { (result ≡ levels_in_dimension (dims_of self.now) i) × ((1 ≤ result) × (result ≤ 6)) }
    {
        if i < self.width {
            self.each[i].level_count() as usize
        } else {
            1
        }
    }

    // How numbers of one dimension rise from levels to coarser ones.
    fn rise(&self, i: usize, from: Levels, to: Levels) -> Rise
        requires { i < 4 }
        ensures { i < length (dims_of self.now) → (n : ℕ) → risen result n ≡ up (slice_index_or (dims_of self.now) i []) (slice_index from.at i) (slice_index to.at i) n }
    {
        self.each[i].rise(from.at[i], to.at[i])
    }

    // How places rise from levels to coarser ones, each number by the factors between.
    #[inline(always)]
    pub fn ascent(&self, from: Levels, to: Levels) -> Ascent
        ensures { (ns : List ℕ) → carried result ns ≡ place_up (dims_of self.now) (levels_of (length (dims_of self.now)) from) (levels_of (length (dims_of self.now)) to) ns }
    {
        // Written out, since it is done once a table of an insert or a delete: with `array::from_fn` it took half as long again.
        let each = [
            self.rise(0, from, to),
            self.rise(1, from, to),
            self.rise(2, from, to),
            self.rise(3, from, to),
        ];
        Ascent {
            width: self.width,
            each,
        }
    }

    // A place at the finest levels, taken up to coarser ones.
    pub fn place_at(&self, levels: Levels, place: [u64; 4]) -> [u64; 4]
        ensures { result ≡ four (place_at (dims_of self.now) (levels_of (length (dims_of self.now)) levels) place) }
    {
        self.ascent(Levels::finest(), levels).place(place)
    }
}

impl Ascent {
    // One number of a place, taken up.
    fn number(&self, i: usize, place: [u64; 4]) -> u64
        requires { i < 4 }
        ensures { result ≡ slice_index (carried self.now place) i }
    {
        if i < self.width {
            self.each[i].number(place[i])
        } else {
            0
        }
    }

    // A place, taken up.
    pub fn place(&self, place: [u64; 4]) -> [u64; 4]
        ensures { result ≡ four (carried self.now place) }
    {
        // Written out, since it is done once a group of a roll up: with `array::from_fn` a group took 5 to 10 in a hundred longer than
        // before.
        [
            self.number(0, place),
            self.number(1, place),
            self.number(2, place),
            self.number(3, place),
        ]
    }
}
