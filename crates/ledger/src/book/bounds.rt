// How large a book may be.
ghost use Rattle.std.specs.Prelude.{◌≡◌, ◌^◌, ◌&&◌, is_some, IfSome, nat_le};

use super::Book;

// No book has room for more facts than this, so that where a fact lies is a usize.
pub const MOST: usize = 1 << 32;

impl Book {
    // A book for so many dimensions, one to four, with room for so many facts.
    pub fn new(width: usize, room: usize) -> Option<Book>
        ensures test { is_some result ≡ (nat_le 1 width && (nat_le width 4 && nat_le room (2 ^ 32))) }
        ensures value { IfSome result (λ b. (b.width ≡ width) × (b.room ≡ room)) }
    {
        if 1 <= width && width <= 4 && room <= MOST {
            Some(Book { width, room })
        } else {
            None
        }
    }

    // The number of dimensions.
    pub fn width(self) -> usize
        ensures { result ≡ self.width }
    {
        self.width
    }

    // How many facts it may hold.
    pub fn room(self) -> usize
        ensures { result ≡ self.room }
    {
        self.room
    }
}
