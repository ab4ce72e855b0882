// The partition of one key.
ghost use Rattle.std.specs.Prelude.{◌≡◌, ℕ, ◌<◌, true, IsTrue, OnOk, OnErr, IfOk};
ghost use Rattle.std.specs.Option.{option_copied, option_map};
ghost use Rattle.std.specs.Ordering.{nat_cmp};
ghost use Rattle.std.specs.FinMap as map;
ghost use Rattle.sasi_model.specs.Cells.{Partition as Written, empty_partition, IsNormal, merge, is_live, max_timestamp_of};
ghost use Rattle.sasi_cells.specs.Typed.{IsTyped};
ghost use Rattle.sasi_types.specs.declared.column.ColumnType.{ColumnType};
ghost use Rattle.sasi_cells.specs.Changes.{deletion, with_column};
ghost use Rattle.sasi_cells.specs.Entries.{IsOrdered, partition_of};

use crate::merge_sorted::merge_sorted;
use crate::{Entry, search};
use sasi_types::Cell;
use std::alloc::{AllocError, Global};
use std::marker::Model;
use std::mem;

/// The cells of one key, and the timestamp of its deletion: each cell has a larger one. Contracts see the two, with the
/// cells as a map from the numbers of their columns; column 0 is the marker of the row.
#[derive(Drop)]
pub struct Partition {
    deleted: u64,
    cells: Vec<Entry>,
}

impl Model for Partition {
    ghost use Rattle.sasi_model.specs.Cells.{Partition as Written};
    ghost use Rattle.sasi_model.specs.Codes.{coded_partition};
    ghost use Rattle.sasi_cells.specs.Entries.{IsOrdered, partition_of};

    ghost Value = { Written };

    ghost coded = { coded_partition };

    ghost view = { λ a. partition_of a.deleted a.cells.items };

    ghost invariant = { λ a. IsOrdered a.deleted a.cells.items };
}

impl Partition {
    /// The partition to which nothing was written.
    pub fn new(alloc: Global) -> Partition
        ensures { result ≡ empty_partition }
    {
        Partition::deletion(alloc, 0)
    }

    /// A deletion at this time, which shadows every cell up to it.
    pub fn deletion(alloc: Global, time: u64) -> Partition
        ensures { result ≡ deletion time }
    {
        Partition {
            deleted: time,
            cells: Vec::new(alloc),
        }
    }

    /// The partition of a deletion, 0 for none, and of cells above it, which are in the order of their columns.
    pub fn from_entries(deleted: u64, cells: Vec<Entry>) -> Partition
        requires { IsOrdered deleted cells.items }
        ensures { result ≡ partition_of deleted cells.items }
    {
        Partition { deleted, cells }
    }

    /// The time of the deletion, 0 for none.
    pub fn deleted(&self) -> u64
        ensures { result ≡ self.now.deleted }
    {
        self.deleted
    }

    /// The cells with their columns, in the order of the columns.
    pub fn cells(&self) -> &[Entry]
        ensures entries { result.now ≡ map.entries self.now.cells }
        ensures normal { IsNormal self.now }
    {
        &self.cells
    }

    /// The cell of a column, if it has one.
    pub fn cell(&self, column: u16) -> Option<&Entry>
        ensures { option_copied result ≡ option_map (λ cell. (column, cell)) (map.get self.now.cells column) }
    {
        match search::search(&self.cells, column) {
            Ok(at) => Some(&self.cells[at]),
            Err(_) => None,
        }
    }

    /// Writes the cell of a column over what was there.
    pub fn put(&mut self, column: u16, cell: Cell) -> Result<(), AllocError>
        requires { self.old.deleted < cell.time }
        ensures ok { OnOk result (self.new ≡ with_column self.old column cell) }
        ensures err { OnErr result (self.new ≡ self.old) }
    {
        put_in(&mut self.cells, column, cell)
    }

    /// A copy of the partition.
    pub fn copy(&self, alloc: Global) -> Result<Partition, AllocError>
        ensures ok { IfOk result (λ copy. copy ≡ self.now) }
        ensures normal { IsNormal self.now }
    {
        let cells = copy_cells(&self.cells, alloc)?;
        Ok(Partition {
            deleted: self.deleted,
            cells,
        })
    }

    /// Merges a copy of another partition of the key.
    pub fn merge(&mut self, other: &Partition) -> Result<(), AllocError>
        ensures ok { OnOk result (self.new ≡ merge self.old other.now) }
        ensures err { OnErr result (self.new ≡ self.old) }

        // Merges commute, associate, and change nothing when they are repeated.
        ensures commutes { (types : ℕ → ColumnType) → IsTyped types self.old → IsTyped types other.now → OnOk result (self.new ≡ merge other.now self.old) }
        ensures associates { (third : Written) → OnOk result (merge self.new third ≡ merge self.old (merge other.now third)) }
        ensures idempotent { merge other.now other.now ≡ other.now }
    {
        let copy = other.copy(*self.cells.allocator())?;
        self.merge_from(copy)
    }

    /// Merges another partition of the key by moving its cells. Out of memory leaves this partition unchanged. Onto one to which nothing was
    /// written the other moves as it is.
    pub fn merge_from(&mut self, other: Partition) -> Result<(), AllocError>
        ensures ok { OnOk result (self.new ≡ merge self.old other) }
        ensures err { OnErr result (self.new ≡ self.old) }
    {
        let _ = &other.deleted;
        if self.is_unwritten() {
            *self = other;
            return Ok(());
        }
        self.merge_cells(other)
    }

    // Whether nothing was written to it.
    fn is_unwritten(&self) -> bool
        ensures { IsTrue result → self.now ≡ empty_partition }
    {
        self.deleted == 0 && self.cells.is_empty()
    }

    // Merges the cells of another partition, of each column the newest.
    fn merge_cells(&mut self, other: Partition) -> Result<(), AllocError>
        ensures ok { OnOk result (self.new ≡ merge self.old other) }
        ensures err { OnErr result (self.new ≡ self.old) }
    {
        let alloc = *self.cells.allocator();
        let room = Vec::with_capacity(alloc, self.cells.len() + other.cells.len())?;
        let cells = mem::replace(&mut self.cells, Vec::new(alloc));
        self.deleted = self.deleted.max(other.deleted);
        self.cells = merge_sorted(self.deleted, cells, other.cells, room);
        self.cells.shrink_to_fit();
        Ok(())
    }

    /// Whether the row is there: its marker or another cell has a value.
    pub fn is_live(&self) -> bool
        ensures { result ≡ is_live self.now }
    {
        search::any_live(&self.cells)
    }

    /// The maximum of the timestamps of the deletion and the cells, 0 if there is none.
    pub fn max_timestamp(&self) -> u64
        ensures { result ≡ max_timestamp_of self.now }
    {
        search::max_timestamp_in(&self.cells, self.deleted)
    }
}

// Puts the cell of a column at its position.
fn put_in(cells: &mut Vec<Entry>, column: u16, cell: Cell) -> Result<(), AllocError>
    requires { map.is_sorted nat_cmp cells.old.items ≡ true }
    ensures ok { OnOk result (cells.new.items ≡ map.put nat_cmp column cell cells.old.items) }
    ensures err { OnErr result (cells.new.items ≡ cells.old.items) }
{
    match search::search(cells, column) {
        Ok(at) => cells[at] = Entry::new(column, cell),
        Err(at) => cells.insert(at, Entry::new(column, cell))?,
    }
    Ok(())
}

// A copy of the cells.
fn copy_cells(cells: &[Entry], alloc: Global) -> Result<Vec<Entry>, AllocError>
    ensures { IfOk result (λ copy. copy.items ≡ cells.now) }
{
    let mut copy = Vec::with_capacity(alloc, cells.len())?;
    for entry in cells {
        copy.push(entry.copy(alloc)?)?;
    }
    Ok(copy)
}
