//! What is told of a deed: done, shown with its work, or refused with a reason.
#![tactic(auto)]

ghost use Rattle.std.specs.Prelude.{◌≡◌, Some};
ghost use Rattle.replies.specs.Replies.{number, place, refusal_text, reply_text, of_deed, of_question};

use std::fmt;

// Why a deed is refused, with what the reason is about. specs/Replies.antt gives each its number and its place.
#[derive(Clone, Copy, PartialEq, Eq, Debug)]
pub enum Refusal {
    // The dimensions as a whole: no count, none or more than four, or fewer numbers than the count asks for.
    NoDimensions,
    // This dimension has more than four factors, a factor 0, or a product that is not below 2^32.
    BadDimension(usize),
    // A lent table is too short for its levels, its count and its groups, or has more groups than its room: where its count stands.
    BadTable(usize),
    // A lent table's level in this dimension is not there.
    BadTableLevel(usize),
    // This group of a lent table is none, or does not come after the one before it.
    BadGroup(usize),
    // The level in this dimension is missing, is not there, or is finer than that of the table given.
    NoLevel(usize),
    // The lent row, of this length, has no room for as many groups as the source has.
    NoRoom(usize),
    // This number of a fact is missing, not below 2^32, or one too many.
    BadFact(usize),
    // There is no such fact.
    NoSuchFact,
    // Such a table is kept, at this place.
    AlreadyKept(usize),
    // The finest table is kept for ever.
    FinestStays,
    // No such table is kept.
    NotKept,
    // The ledger has no room for more than so many facts.
    LedgerFull(usize),
    // The kept table at this place would have more groups than its room.
    TableFull(usize),
    // As many tables are kept as may be.
    AllKept,
    // So many tables cannot be chosen.
    BadChoice(u64),
    // The finest table has so many groups, more than its room.
    TooManyGroups(usize),
}

impl Refusal {
    // The number under which a reason is told.
    pub fn number(self) -> u64
        ensures { result ≡ number self }
    {
        match self {
            Refusal::NoDimensions => 1,
            Refusal::BadDimension(_) => 1,
            Refusal::BadTable(_) => 2,
            Refusal::BadTableLevel(_) => 2,
            Refusal::BadGroup(_) => 2,
            Refusal::NoLevel(_) => 3,
            Refusal::NoRoom(_) => 4,
            Refusal::BadFact(_) => 5,
            Refusal::NoSuchFact => 6,
            Refusal::AlreadyKept(_) => 7,
            Refusal::FinestStays => 7,
            Refusal::NotKept => 7,
            Refusal::LedgerFull(_) => 8,
            Refusal::TableFull(_) => 8,
            Refusal::AllKept => 9,
            Refusal::BadChoice(_) => 10,
            Refusal::TooManyGroups(_) => 10,
        }
    }

    // The place at which it is told.
    pub fn place(self) -> u128
        ensures { result ≡ place self }
    {
        match self {
            Refusal::NoDimensions => 4,
            Refusal::BadDimension(dimension) => dimension as u128,
            Refusal::BadTable(width) => width as u128,
            Refusal::BadTableLevel(dimension) => dimension as u128,
            Refusal::BadGroup(group) => 16 + group as u128,
            Refusal::NoLevel(dimension) => dimension as u128,
            Refusal::NoRoom(length) => length as u128,
            Refusal::BadFact(index) => index as u128,
            Refusal::NoSuchFact => 0,
            Refusal::AlreadyKept(table) => table as u128,
            Refusal::FinestStays => 0,
            Refusal::NotKept => 16,
            Refusal::LedgerFull(room) => room as u128,
            Refusal::TableFull(table) => table as u128,
            Refusal::AllKept => 16,
            Refusal::BadChoice(n) => n as u128,
            Refusal::TooManyGroups(groups) => groups as u128,
        }
    }
}

impl fmt::Display for Refusal {
    ghost output = { λ r. Some (refusal_text r) };

    fn fmt<W: fmt::Write>(&self, f: &mut fmt::Formatter<W>) -> fmt::Result {
        let number = self.number();
        let place = self.place();
        write!(f, "refused {number} at {place}")
    }
}

// What is told of a deed or a question, as a line says it. It has three outcomes, and so no Result's shape: deeds and questions answer
// by a Result each, and become this to be printed.
#[derive(Clone, Copy, PartialEq, Eq, Debug)]
pub enum Reply {
    // It is done.
    Done,
    // The groups asked for are in the lent row, and so many groups were looked at.
    Shown(usize),
    // It is refused, and nothing has changed.
    Refused(Refusal),
}

impl From<Result<(), Refusal>> for Reply {
    ghost from_gives = { λ told reply. reply ≡ of_deed told };

    fn from(told: Result<(), Refusal>) -> Reply {
        match told {
            Ok(()) => Reply::Done,
            Err(refusal) => Reply::Refused(refusal),
        }
    }
}

impl From<Result<usize, Refusal>> for Reply {
    ghost from_gives = { λ told reply. reply ≡ of_question told };

    fn from(told: Result<usize, Refusal>) -> Reply {
        match told {
            Ok(work) => Reply::Shown(work),
            Err(refusal) => Reply::Refused(refusal),
        }
    }
}

impl fmt::Display for Reply {
    ghost output = { λ r. Some (reply_text r) };

    fn fmt<W: fmt::Write>(&self, f: &mut fmt::Formatter<W>) -> fmt::Result {
        match *self {
            Reply::Done => write!(f, "done"),
            Reply::Shown(work) => write!(f, "work {work}"),
            Reply::Refused(refusal) => write!(f, "{refusal}"),
        }
    }
}
