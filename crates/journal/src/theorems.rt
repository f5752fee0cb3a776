//! The promises of a day: each function's contract is one of them, so that the crate is proved only with its proof.

ghost use Rattle.journal.specs.Promises.{ReadBack, ToldBack, BrokenOff, WrittenBack};
ghost use Rattle.journal.specs.Examples.{Worked};

/// A day that is written as bytes and read again is the same day.
pub fn read_back()
    ensures { ReadBack }
{}

/// Its text is the answers to its deeds.
pub fn told_back()
    ensures { ToldBack }
{}

/// Deeds before a byte that is none, or before one that is cut short, stand, and the day is not whole.
pub fn broken_off()
    ensures { BrokenOff }
{}

/// Bytes of whole deeds are these deeds written out, so that nothing that is read is lost.
pub fn written_back()
    ensures { WrittenBack }
{}

/// Files worked out by hand.
pub fn worked_examples()
    ensures { Worked }
{}
