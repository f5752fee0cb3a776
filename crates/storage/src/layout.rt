// How a warehouse lies in memory.
ghost use Rattle.std.specs.Prelude.{◌≡◌, length};
ghost use Rattle.hierarchy.specs.Views.{dims_of};

use ledger::Book;
use tables::TableLayout;

mod asks;
mod deletes;
mod inserts;
mod moves;
mod places;

// How the kept tables and the book lie in memory, and with them the dimensions and the room.
// Both are lent slices, two parameters of each deed: the project wants that form below `warehouse`.
#[derive(Clone, Copy, Debug, PartialEq, Eq)]
pub struct Layout {
    tables: TableLayout,
    book: Book,
    ghost booked: { book.width ≡ length (dims_of tables.dims) },
}
