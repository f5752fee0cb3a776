// How a warehouse is opened.
ghost use Rattle.std.specs.Prelude.{◌≡◌, IfOk};
ghost use Rattle.model.specs.House.{empty};
ghost use Rattle.storage.specs.Memory.{sides};
ghost use Rattle.warehouse.specs.Views.{house_of};

use super::Warehouse;
use std::alloc::{AllocError, Global};
use storage::Layout;

impl Warehouse {
    // A warehouse with no facts, which keeps the finest table only.
    pub fn open(heap: Global, layout: Layout) -> Result<Warehouse, AllocError>
        ensures { IfOk result (λ w. (w.layout ≡ layout) × (house_of w ≡ empty (sides layout))) }
    {
        let book = vec![in heap; 0; layout.book_length()]?;
        let mut tables = vec![in heap; 0; layout.tables_length()]?;
        let row = vec![in heap; 0; layout.part_length()]?;
        tables[0] = 1;
        Ok(Warehouse {
            layout,
            book,
            tables,
            row,
        })
    }
}
