// The theorems of this crate, each the contract of a function, so that its proof is asked for.
ghost use Rattle.hierarchy.specs.Promises.{LevelIs, UpAndOn, NoCoarserOrders, EveryOnce, ReadRight, Worked};

// What a level is.
pub fn level_is()
    ensures { LevelIs }
{}

// Going up to levels and then on to coarser ones.
pub fn up_and_on()
    ensures { UpAndOn }
{}

// No coarser is an order with the finest levels below all.
pub fn no_coarser_orders()
    ensures { NoCoarserOrders }
{}

// The list of all levels has each once.
pub fn every_once()
    ensures { EveryOnce }
{}

// What rows are read as.
pub fn read_right()
    ensures { ReadRight }
{}

// Numbers of the worked example.
pub fn worked_examples()
    ensures { Worked }
{}
