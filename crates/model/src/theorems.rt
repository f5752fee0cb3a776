//! The promises of a warehouse: each function's contract is one of them, so that the crate is proved only with its proof.

ghost use Rattle.model.specs.Promises.{AlwaysSound, FactsWhole, TotalsRight, AlwaysAnswered, FactsBalance, ComesAndGoes, TablesUnseen, RefusedUntouched, NeverNothing, WithinLimits, WarehouseRight};
ghost use Rattle.model.specs.Examples.{Worked};

/// Every kept table is the table of the facts at its levels, and the finest is first.
pub fn always_sound()
    ensures { AlwaysSound }
{}

/// Every fact that is there has one number a dimension, and all its numbers are below 2^32.
pub fn facts_whole()
    ensures { FactsWhole }
{}

/// An answer is the table of the facts, made of the fewest groups that it can be made of.
pub fn totals_right()
    ensures { TotalsRight }
{}

/// Levels that are there are answered.
pub fn always_answered()
    ensures { AlwaysAnswered }
{}

/// The facts that are there, and those that went, are those that came.
pub fn facts_balance()
    ensures { FactsBalance }
{}

/// A fact that comes and goes leaves the warehouse as it was.
pub fn comes_and_goes()
    ensures { ComesAndGoes }
{}

/// Which tables are kept is seen in no reply but for the work.
pub fn tables_unseen()
    ensures { TablesUnseen }
{}

/// A refused deed changes nothing.
pub fn refused_untouched()
    ensures { RefusedUntouched }
{}

/// Where there are facts, an answer has groups.
pub fn never_nothing()
    ensures { NeverNothing }
{}

/// There are never more facts, groups or tables than their room.
pub fn within_limits()
    ensures { WithinLimits }
{}

/// The main promises as one theorem, over every list of deeds.
pub fn warehouse_right()
    ensures { WarehouseRight }
{}

/// A small shop, worked out by hand.
pub fn worked_examples()
    ensures { Worked }
{}
