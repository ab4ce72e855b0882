// Cells as a partition keeps them.
ghost use Rattle.std.specs.Prelude.{◌≡◌, IfOk};
ghost use Rattle.std.specs.Option.{option_copied};

use sasi_types::{Cell, Value};
use std::alloc::{AllocError, Global};
use std::marker::Model;

// Whether a cell has a value.
#[derive(Clone, Copy)]
enum State {
    Live,
    Tombstone,
}

/// A column's number with its cell. It has 48 bytes, where a pair of the two would have 56: the mark of a
/// tombstone stands beside the number, and not around the value.
#[derive(Drop)]
pub struct Entry {
    time: u64,
    column: u16,
    state: State,
    // In a tombstone any value that takes no memory.
    value: Value,
}

impl Model for Entry {
    ghost use Rattle.std.specs.Prelude.{ℕ};
    ghost use Rattle.sasi_types.specs.declared.cell.Cell.{Cell};
    ghost use Rattle.sasi_model.specs.Codes.{coded_entry};
    ghost use Rattle.sasi_cells.specs.EntryView.{entry_view};

    ghost Value = { ℕ × Cell };

    ghost coded = { coded_entry };

    ghost view = { λ e. entry_view e.column e.time e.state e.value };
}

impl Entry {
    /// The entry of a column and its cell.
    pub fn new(column: u16, cell: Cell) -> Entry
        ensures { result ≡ (column, cell) }
    {
        let Cell { time, value } = cell;
        match value {
            None => Entry {
                time,
                column,
                state: State::Tombstone,
                value: Value::Int(0),
            },
            Some(value) => Entry {
                time,
                column,
                state: State::Live,
                value,
            },
        }
    }

    /// The number of the column; 0 for the marker of the row.
    pub fn column(&self) -> u16
        ensures { result ≡ self.now.0 }
    {
        self.column
    }

    /// The time of the cell.
    pub fn time(&self) -> u64
        ensures { result ≡ self.now.1.time }
    {
        self.time
    }

    /// The value of the cell; None for a tombstone.
    pub fn value(&self) -> Option<&Value>
        ensures { option_copied result ≡ self.now.1.value }
    {
        match self.state {
            State::Live => Some(&self.value),
            State::Tombstone => None,
        }
    }

    /// The cell without its column.
    pub fn into_cell(self) -> Cell
        ensures { result ≡ self.1 }
    {
        let Entry {
            time,
            column: _,
            state,
            value,
        } = self;
        match state {
            State::Live => Cell {
                time,
                value: Some(value),
            },
            State::Tombstone => Cell { time, value: None },
        }
    }

    /// A copy of the entry.
    pub fn copy(&self, alloc: Global) -> Result<Entry, AllocError>
        ensures { IfOk result (λ copy. copy ≡ self.now) }
    {
        let value = self.value.copy(alloc)?;
        Ok(Entry {
            time: self.time,
            column: self.column,
            state: self.state,
            value,
        })
    }
}
