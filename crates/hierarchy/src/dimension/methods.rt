// What a dimension answers.
ghost use Rattle.std.specs.Prelude.{◌≡◌, ℕ, ◌+◌, ◌<◌, ◌≤◌, true, false, [], length, take, drop, Some, None};
ghost use Rattle.std.specs.Int.NonZero.{non_zero_u64_get};
ghost use Rattle.hierarchy.specs.Dimensions.{product, up};
ghost use Rattle.hierarchy.specs.Reading.{small, is_dimension, factors_in};
ghost use Rattle.hierarchy.specs.Views.{factors_of, risen};

use super::{Dimension, Rise};
use std::num::NonZero;

// Numbers of facts, factors and their products are below this.
pub const LIMIT: u64 = 4294967296;

// Whether no factor is 0 and the product of all is below 2^32.
fn product_is_small(factors: &[u64]) -> bool
    ensures { result ≡ small factors.now }
{
    let mut product: u64 = 1;
    for f in factors {
        if *f == 0 || *f >= LIMIT {
            return false;
        }
        product *= *f;
        if product >= LIMIT {
            return false;
        }
    }
    true
}

impl Dimension {
    // A dimension with no factor: the finest level, and everything together.
    pub fn plain() -> Dimension
        ensures { factors_of result ≡ [] }
    {
        Dimension {
            count: 0,
            factors: [0; 4],
        }
    }

    // A dimension read from a row: how many factors, and room for four.
    pub fn read(row: &[u64]) -> Option<Dimension>
        ensures { elim result [ Some d ↦ (is_dimension row.now ≡ true) × (factors_of d ≡ factors_in row.now) | None ↦ is_dimension row.now ≡ false ] }
    {
        if row.len() < 5 || row[0] > 4 {
            return None;
        }
        let count = row[0] as usize;
        if !product_is_small(&row[1..1 + count]) {
            return None;
        }
        let mut factors = [0; 4];
        factors[..count].copy_from_slice(&row[1..1 + count]);
        Some(Dimension { count, factors })
    }

    // How many levels there are: one for each factor, beside the finest and the last.
    pub fn level_count(self) -> u64
        ensures { result ≡ length (factors_of self) + 2 }
    {
        self.count as u64 + 2
    }

    // The product of the factors between two levels, neither of them the last.
    fn between(self, from: usize, to: usize) -> NonZero<u64>
        requires { to ≤ length (factors_of self) }
        ensures { non_zero_u64_get result ≡ product (drop from (take to (factors_of self))) }
    {
        let product = self.factors[from.min(to)..to].iter().product();
        NonZero::<u64>::new(product).unwrap()
    }

    // How numbers rise from one level to another that is no finer.
    pub fn rise(self, from: u64, to: u64) -> Rise
        ensures { (n : ℕ) → risen result n ≡ up (factors_of self) from to n }
    {
        if to > self.count as u64 {
            return Rise::Together;
        }
        Rise::By(self.between(from as usize, to as usize))
    }
}

impl Rise {
    // A number after its rise.
    pub fn number(self, n: u64) -> u64
        ensures { result ≡ risen self n }
    {
        match self {
            Rise::By(factors) => n / factors,
            Rise::Together => 0,
        }
    }
}
