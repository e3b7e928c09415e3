ghost use Rattle.std.specs.Prelude.{◌≡◌, IfOk};

use nwq_value::{NoMemory, Value};
use std::alloc::Global;

/// A cell of a stack: a value, or a base cell with the BP that was in force when it was pushed.
#[derive(Drop)]
pub enum Cell {
    Value(Value),
    Base(usize),
}

impl Cell {
    /// An equal cell.
    pub fn copy(&self, alloc: Global) -> Result<Cell, NoMemory>
        ensures same { IfOk result (λ cell. cell ≡ self.now) }
    {
        match self {
            Cell::Value(value) => Ok(Cell::Value(value.copy(alloc)?)),
            Cell::Base(bp) => Ok(Cell::Base(*bp)),
        }
    }
}
