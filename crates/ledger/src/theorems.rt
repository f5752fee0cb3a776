// What a book promises of the facts in it: each function's contract is one promise, so that the crate is proved only with its proof.
ghost use Rattle.ledger.specs.Promises.{InsertCounts, RemovalCounts, InsertUndone};

// An insert makes one more copy of its fact and leaves the others as many.
pub fn insert_counts()
    ensures { InsertCounts }
{}

// A removal takes one copy of its fact and leaves the others as many.
pub fn removal_counts()
    ensures { RemovalCounts }
{}

// A removal straight after the insert of its fact undoes it.
pub fn insert_undone()
    ensures { InsertUndone }
{}
