//! The promises of tables of totals: each function's contract is one of them, so that the crate is proved only with its proof.

ghost use Rattle.totals.specs.Promises.{RolledRight, RolledTwice, AnyOrder, AddsUp, CoarserSmaller, TakenBack};
ghost use Rattle.totals.specs.Examples.{Worked};

/// A coarser table made of a finer one is the table of the facts.
pub fn rolled_right()
    ensures { RolledRight }
{}

/// Rolling up by way of a third row of levels gives the same.
pub fn rolled_twice()
    ensures { RolledTwice }
{}

/// The order in which facts came does not matter.
pub fn any_order()
    ensures { AnyOrder }
{}

/// Groups stand in order, none is empty, and each has what belongs to its place.
pub fn adds_up()
    ensures { AddsUp }
{}

/// Coarser levels have no more groups.
pub fn coarser_smaller()
    ensures { CoarserSmaller }
{}

/// Taking out undoes putting in, and a fact goes from the table as from the facts.
pub fn taken_back()
    ensures { TakenBack }
{}

/// A small shop, worked out by hand.
pub fn worked_examples()
    ensures { Worked }
{}
