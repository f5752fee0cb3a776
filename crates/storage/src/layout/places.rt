// How much memory a warehouse takes.
ghost use Rattle.std.specs.Prelude.{◌≡◌, ◌+◌, ◌*◌, ◌^◌, ◌<◌, ◌&&◌, is_some, IfSome, nat_le};
ghost use Rattle.storage.specs.Memory.{wide, limits, part_size, book_size};
ghost use Rattle.tables.specs.Rooms.{limits_of};

use super::Layout;
use hierarchy::Dimensions;
use ledger::Book;
use summary::Shape;
use tables::{Room, TableLayout};

impl Layout {
    // For these dimensions, with room for so many facts and so many groups a table, if that is not too much.
    pub fn new(dims: Dimensions, facts: usize, groups: usize) -> Option<Layout>
        ensures test { is_some result ≡ (nat_le facts (2 ^ 32) && nat_le groups (2 ^ 32)) }
        ensures value { IfSome result (λ l. (l.tables.dims ≡ dims) × (l.book.room ≡ facts) × (l.tables.groups ≡ groups)) }
    {
        Some(Layout::with_room(dims, Room::new(facts, groups)?))
    }

    // For these dimensions, with so much room.
    pub fn with_room(dims: Dimensions, room: Room) -> Layout
        ensures { (result.tables.dims ≡ dims) × (limits result ≡ limits_of room) }
    {
        Layout {
            tables: TableLayout::new(dims, room),
            book: Book::new(dims.width(), room.facts()).unwrap(),
        }
    }

    // How a table lies in memory.
    pub fn shape(&self) -> Shape
        ensures { result.width ≡ wide self.now }
    {
        self.tables.shape()
    }

    // How many numbers the part of a table takes.
    pub fn part_length(&self) -> usize
        ensures { (result ≡ part_size self.now) × (result < 2 ^ 36) }
    {
        self.tables.part_length()
    }

    // How many numbers the book takes.
    pub fn book_length(&self) -> usize
        ensures { result ≡ book_size self.now }
    {
        self.book.length()
    }

    // How many numbers all tables take.
    pub fn tables_length(&self) -> usize
        ensures { result ≡ 1 + part_size self.now * 16 }
    {
        self.tables.tables_length()
    }
}
