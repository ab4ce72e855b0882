// Which values of a row are asked for.
ghost use Rattle.std.specs.Prelude.{◌≡◌, ◌++◌, ◌∷◌, [], OnOk, OnErr};

use sasi_types::ColumnType;
use std::alloc::{AllocError, Global};
use std::marker::Model;

/// One value that is asked for.
#[derive(Clone, Copy, Debug, PartialEq, Eq)]
pub enum PickedColumn {
    Key,
    /// A regular column by its number, from 1.
    Column(u16),
}

/// The values that are asked for, in order.
#[derive(Drop)]
pub struct PickedList {
    items: Vec<PickedColumn>,
}

impl Model for PickedList {
    ghost use Rattle.std.specs.Prelude.{List};
    ghost use Rattle.sasi_cells.specs.declared.picked.PickedColumn.{PickedColumn};

    ghost Value = { List PickedColumn };

    ghost view = { λ a. a.items.items };
}

/// The values that a row has to give.
#[derive(Drop)]
pub struct Picked {
    /// The type of the key.
    pub key: ColumnType,
    pub columns: PickedList,
}

impl PickedList {
    /// No columns.
    pub fn new(alloc: Global) -> PickedList
        ensures { result ≡ [] }
    {
        PickedList {
            items: Vec::new(alloc),
        }
    }

    /// The columns, in order.
    pub fn as_slice(&self) -> &[PickedColumn]
        ensures { result.now ≡ self.now }
    {
        &self.items
    }

    /// Asks for one more column.
    pub fn push(&mut self, column: PickedColumn) -> Result<(), AllocError>
        ensures ok { OnOk result (self.new ≡ self.old ++ column ∷ []) }
        ensures err { OnErr result (self.new ≡ self.old) }
    {
        self.items.push(column)?;
        Ok(())
    }
}
