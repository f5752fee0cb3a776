// A warehouse that owns its memory.
ghost use Rattle.std.specs.Prelude.{◌≡◌, vec_len};
ghost use Rattle.storage.specs.Memory.{part_size, Memory};

use storage::Layout;

mod deeds;
mod opens;

// The layout, the book of facts, the kept tables, and a row to make a table in. All that is in memory is one valid warehouse.
#[derive(Drop)]
pub struct Warehouse {
    layout: Layout,
    book: Vec<u64>,
    tables: Vec<u64>,
    row: Vec<u64>,
    ghost valid: { ∥ Memory layout book.items tables.items ∥₁ },
    ghost exact: { vec_len row ≡ part_size layout },
}
