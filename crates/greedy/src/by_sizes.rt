// The choice where the sizes of all levels are known.
ghost use Rattle.std.specs.Prelude.{◌≡◌, ℕ, ◌^◌, ◌<◌, length, replicate, IfOk, vec_len, sum, slice_index};
ghost use Rattle.hierarchy.specs.Dimensions.{Row};
ghost use Rattle.hierarchy.specs.Levels.{total_levels};
ghost use Rattle.hierarchy.specs.Views.{dims_of, levels_of};
ghost use Rattle.greedy.specs.Candidates.{all_levels_of, sizes_of, costs_of};
ghost use Rattle.greedy.specs.Turns.{SizesAre, TurnsAre, AllLevels, fall, Lowered, Counted};

use super::turn::Turn;
use hierarchy::{Dimensions, Levels};
use std::alloc::{AllocError, Global};

// Levels that can be taken, how many groups the table there has, and what a question there costs so far.
#[derive(Clone, Copy)]
struct Candidate {
    levels: Levels,
    size: u64,
    cost: u64,
}

impl Candidate {
    // What the cost of a question falls by where this table is kept too.
    fn takes_off(self, dims: &Dimensions, question: Candidate) -> u64
        ensures { result ≡ fall (dims_of dims.now) (levels_of (length (dims_of dims.now)) self.levels) self.size (levels_of (length (dims_of dims.now)) question.levels) question.cost }
    {
        if self.levels.no_coarser(dims, question.levels) {
            question.cost.saturating_sub(self.size)
        } else {
            0
        }
    }
}

// All levels in their order.
pub fn all_levels(heap: Global, dims: &Dimensions) -> Result<Vec<Levels>, AllocError>
    ensures { IfOk result (λ v. AllLevels (dims_of dims.now) v.items) }
{
    (0..Levels::count(dims))
        .map(|i| Levels::nth(dims, i).unwrap())
        .collect(heap)
}

// All levels with their sizes. While none are taken, every question costs as much as the finest table has groups.
fn candidates(heap: Global, dims: &Dimensions, sizes: &[u64]) -> Result<Vec<Candidate>, AllocError>
    requires { Counted (total_levels (dims_of dims.now)) sizes.now }
    ensures { IfOk result (λ v. AllLevels (dims_of dims.now) (all_levels_of v.items) × (sizes_of v.items ≡ sizes.now) × (costs_of v.items ≡ replicate (length v.items) (slice_index sizes.now 0))) }
{
    let count = Levels::count(dims);
    let finest = sizes[0];
    (0..count)
        .zip(sizes)
        .map(|(i, size)| Candidate {
            levels: Levels::nth(dims, i).unwrap(),
            size: *size,
            cost: finest,
        })
        .collect(heap)
}

// What all questions cost together.
fn total(all: &[Candidate]) -> u64
    requires { sum (costs_of all.now) < 2 ^ 64 }
    ensures { result ≡ sum (costs_of all.now) }
{
    all.iter().map(|question| question.cost).sum()
}

// Takes levels: every question that they serve costs at most their size from now on.
// `dims` and the candidates stay two, here and below: a struct would owe its fact of the levels again at each cost written, no plainer.
fn lower(dims: &Dimensions, all: &mut [Candidate], at: usize)
    requires all { AllLevels (dims_of dims.now) (all_levels_of all.old) }
    requires there { at < length all.old }
    ensures levels { all_levels_of all.new ≡ all_levels_of all.old }
    ensures sizes { sizes_of all.new ≡ sizes_of all.old }
    ensures costs { Lowered (dims_of dims.now) at (slice_index (sizes_of all.old) at) (costs_of all.old) (costs_of all.new) }
{
    let taken = all[at];
    for question in all.iter_mut() {
        question.cost -= taken.takes_off(dims, *question);
    }
}

// Makes n turns. At each the levels are taken that save most together with those taken before, the first of equals. What each
// question costs is carried from turn to turn.
fn take_turns(
    heap: Global,
    dims: &Dimensions,
    all: &mut [Candidate],
    n: usize,
) -> Result<Vec<Turn>, AllocError>
    requires all { AllLevels (dims_of dims.now) (all_levels_of all.old) }
    requires counted { Counted (length all.old) (sizes_of all.old) }
    requires start { costs_of all.old ≡ replicate (length all.old) (slice_index (sizes_of all.old) 0) }
    ensures { IfOk result (λ v. (vec_len v ≡ n) × ((sz : Row → ℕ) → SizesAre (dims_of dims.now) sz (sizes_of all.old) → TurnsAre (dims_of dims.now) sz v.items)) }
{
    let mut turns = Vec::new(heap);
    let mut saves = 0;
    'turns: for _ in 0..n {
        let costly = total(all);
        let mut best = 0;
        let mut most = 0;
        'levels: for (i, taken) in all.iter().enumerate() {
            let mut gain = 0;
            let mut left = costly;
            'questions: for question in all.iter() {
                // The questions left give no more than they cost.
                if gain + left <= most {
                    continue 'levels;
                }
                left -= question.cost;
                gain += taken.takes_off(dims, *question);
            }
            if gain > most {
                best = i;
                most = gain;
            }
        }
        saves += most;
        lower(dims, all, best);
        turns.push(Turn {
            levels: all[best].levels,
            saves,
        })?;
    }
    Ok(turns)
}

// The choice of n. The i-th size is that of the i-th levels in the order of all.
pub fn choose_by_sizes(
    heap: Global,
    dims: &Dimensions,
    sizes: &[u64],
    n: usize,
) -> Result<Vec<Turn>, AllocError>
    requires { Counted (total_levels (dims_of dims.now)) sizes.now }
    ensures { IfOk result (λ v. (vec_len v ≡ n) × ((sz : Row → ℕ) → SizesAre (dims_of dims.now) sz sizes.now → TurnsAre (dims_of dims.now) sz v.items)) }
{
    let mut all = candidates(heap, dims, sizes)?;
    take_turns(heap, dims, &mut all, n)
}
