// Cells of partitions.
ghost use Rattle.std.specs.Prelude.{◌≡◌, IfOk};

use crate::Value;
use std::alloc::{AllocError, Global};

/// A cell: what was written to one column of one key.
#[derive(Drop)]
pub struct Cell {
    /// The timestamp, from 1 to 2^62; the larger one is newer.
    pub time: u64,
    /// None for a tombstone.
    pub value: Option<Value>,
}

impl Cell {
    /// A copy of the cell.
    pub fn copy(&self, alloc: Global) -> Result<Cell, AllocError>
        ensures { IfOk result (λ copy. copy ≡ self.now) }
    {
        let value = copy_of(&self.value, alloc)?;
        Ok(Cell {
            time: self.time,
            value,
        })
    }
}

// A copy of a value that may be none.
fn copy_of(value: &Option<Value>, alloc: Global) -> Result<Option<Value>, AllocError>
    ensures { IfOk result (λ copy. copy ≡ value.now) }
{
    match value {
        None => Ok(None),
        Some(value) => {
            let copy = value.copy(alloc)?;
            Ok(Some(copy))
        }
    }
}
