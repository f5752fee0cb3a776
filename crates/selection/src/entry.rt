// The choice over dimensions and facts as they come.
ghost use Rattle.std.specs.Prelude.{◌≡◌, ◌+◌, ◌<◌, ◌≤◌, length, IfOk, Some, None, Ok, Err, vec_len, ◌==◌};
ghost use Rattle.hierarchy.specs.Levels.{finest};
ghost use Rattle.hierarchy.specs.Reading.{dims_in};
ghost use Rattle.hierarchy.specs.Views.{dims_of};
ghost use Rattle.totals.specs.Cost.{size};
ghost use Rattle.totals.specs.Tables.{table};
ghost use Rattle.summary.specs.Memory.{start};
ghost use Rattle.selection.specs.Entry.{fact_count, facts_in, facts_refusal, limits_refusal, groups_refusal, over_refusal, choice_refusal, Told, Gathered};
ghost use Rattle.greedy.specs.Turns.{TurnsAre};

use super::fault::Fault;
use super::rolling::Finest;
use greedy::Turn;
use hierarchy::{Dimensions, Fact, Levels};
use replies::Refusal;
use std::alloc::{AllocError, Global};
use summary::{Group, Shape};

// How many facts the ledger has room for.
pub const FACTS: usize = 65_536;

// How many groups a table has room for.
pub const GROUPS: usize = 4_096;

// How many tables can be kept beside the finest.
pub const TABLES: u64 = 15;

// How many facts there are, or the first fault of the first that is none.
fn check_facts(dims: &Dimensions, numbers: &[u64]) -> Result<usize, Refusal>
    ensures { elim result [ Ok k ↦ (k ≡ fact_count (dims_of dims.now) numbers.now) × (facts_refusal (dims_of dims.now) (fact_count (dims_of dims.now) numbers.now) numbers.now ≡ None) | Err e ↦ facts_refusal (dims_of dims.now) (fact_count (dims_of dims.now) numbers.now) numbers.now ≡ Some e ] }
{
    let long = dims.width() + 1;
    for part in numbers.chunks(long) {
        Fact::read(dims, part)?;
    }
    Ok(numbers.len().div_ceil(long))
}

// Whether so many facts have room, and so many tables can be chosen.
fn check_limits(facts: usize, n: u64) -> Result<(), Refusal>
    ensures { elim result [ Ok _ ↦ limits_refusal facts n ≡ None | Err e ↦ limits_refusal facts n ≡ Some e ] }
{
    if facts > FACTS {
        return Err(Refusal::LedgerFull(FACTS));
    }
    if n == 0 || n > TABLES {
        return Err(Refusal::BadChoice(n));
    }
    Ok(())
}

// Whether so many groups have room in the finest table.
fn check_groups(groups: usize) -> Result<(), Refusal>
    ensures { elim result [ Ok _ ↦ groups_refusal groups ≡ None | Err e ↦ groups_refusal groups ≡ Some e ] }
{
    if groups > GROUPS {
        return Err(Refusal::TooManyGroups(groups));
    }
    Ok(())
}

// Facts one behind the other, none of them refused, and no more than the ledger has room for.
#[derive(Clone, Copy)]
struct Facts<'a> {
    dims: &'a Dimensions,
    numbers: &'a [u64],
    count: usize,
    ghost counted: { count ≡ fact_count (dims_of dims.now) numbers.now },
    ghost right: { facts_refusal (dims_of dims.now) count numbers.now ≡ None },
    ghost few: { count ≤ 65536 },
}

impl Facts<'_> {
    // Writes their table at the finest levels into a row.
    fn gather(self, row: &mut [u64])
        requires { start (length (dims_of self.dims.now)) self.count ≤ length row.old }
        ensures { Gathered (dims_of self.entry.dims.now) self.entry.numbers.now row.new }
    {
        let dims = self.dims;
        let shape = Shape::of(dims);
        shape.begin(row, Levels::finest());
        for part in self.numbers.chunks(dims.width() + 1) {
            let Fact { place, amount } = Fact::read(dims, part).unwrap();
            shape.put(row, Group::one(place, amount));
        }
    }

    // Their table at the finest levels, with room for as many groups as there are facts.
    fn table(self, heap: Global) -> Result<Vec<u64>, AllocError>
        ensures { IfOk result (λ v. Gathered (dims_of self.entry.dims.now) self.entry.numbers.now v.items) }
    {
        let mut row = vec![in heap; 0; Shape::of(self.dims).start(self.count)]?;
        self.gather(&mut row);
        Ok(row)
    }
}

// The choice over dimensions that were read.
fn choose_over(heap: Global, dims: &Dimensions, n: u64, numbers: &[u64]) -> Result<Vec<Turn>, Fault>
    ensures { elim result [ Ok v ↦ (over_refusal (dims_of dims.now) n numbers.now ≡ None) × (vec_len v ≡ n) × TurnsAre (dims_of dims.now) (size (dims_of dims.now) (facts_in (dims_of dims.now) numbers.now)) v.items | Err f ↦ Told (over_refusal (dims_of dims.now) n numbers.now) f ] }
{
    let count = check_facts(dims, numbers)?;
    check_limits(count, n)?;
    let facts = Facts {
        dims,
        numbers,
        count,
    };
    let row = facts.table(heap)?;
    check_groups(Shape::of(dims).count(&row))?;
    let finest = Finest { dims, row: &row };
    Ok(finest.choose(heap, n)?)
}

// Which n tables to keep beside the finest, over dimensions and facts as they come: the facts one behind the other, one number a
// dimension and an amount each. The turns are told in order.
pub fn choose(heap: Global, sides: &[u64], n: u64, facts: &[u64]) -> Result<Vec<Turn>, Fault>
    ensures { elim result [ Ok v ↦ (choice_refusal sides.now n facts.now ≡ None) × (vec_len v ≡ n) × TurnsAre (dims_in sides.now) (size (dims_in sides.now) (facts_in (dims_in sides.now) facts.now)) v.items | Err f ↦ Told (choice_refusal sides.now n facts.now) f ] }
{
    let dims = Dimensions::read(sides)?;
    choose_over(heap, &dims, n, facts)
}
