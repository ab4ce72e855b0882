// New tables.
ghost use Rattle.std.specs.Prelude.{◌≡◌, ◌<◌, ◌++◌, ◌∷◌, [], IfOk, OnErr, OnOk};
ghost use Rattle.std.specs.Vec.{vec_capacity, vec_len};
ghost use Rattle.sasi_layout.specs.Layout.{state_of};
ghost use Rattle.sasi_layout.specs.Moves.{after_create};
ghost use Rattle.sasi_machine.specs.Prepares.{IsNewTable};
ghost use Rattle.sasi_schema.specs.Defined.{definition};
ghost use Rattle.sasi_machine_layout.specs.Contents.{IsContents, layout_of};
ghost use Rattle.sasi_machine_layout.specs.Steps.{IsFresh};

use crate::contents::{Contents, TableContents};
use crate::records::{length_with, record_after};
use sasi_host::SegmentNumber;
use sasi_manifest::{Edit, EditList};
use sasi_memtable::Memtable;
use sasi_schema::Table;
use sasi_types::Partitioner;
use std::alloc::{AllocError, Global};

/// Creates a table that was prepared.
pub fn create(contents: &mut Contents, table: Table) -> Result<(), AllocError>
    requires contents { IsContents contents.old }
    requires next { IsNewTable (state_of (layout_of contents.old)) table }
    requires plain { table.indexes ≡ [] }
    ensures ok { OnOk result (layout_of contents.new ≡ after_create (definition table) (layout_of contents.old)) }
    ensures err { OnErr result (layout_of contents.new ≡ layout_of contents.old) }
    ensures kept { IsContents contents.new }
{
    let edits = create_edits(contents.alloc, &table, contents.last)?;
    let length = length_with(contents.length, &edits)?;
    let records = record_after(contents.records)?;
    reserve_one(&mut contents.tables)?;
    contents.schema.restore_table(table)?;
    let new = new_table(contents.alloc, contents.partitioner, contents.last);
    add_within(&mut contents.tables, new);
    contents.length = length;
    contents.records = records;
    Ok(())
}

// A table of which nothing is held yet.
fn new_table(alloc: Global, partitioner: Partitioner, last: SegmentNumber) -> TableContents
    ensures { IsFresh partitioner last result }
{
    TableContents {
        since: last,
        first: None,
        files: Vec::new(alloc),
        memtable: Memtable::new(alloc, partitioner),
    }
}

// The manifest's record of it.
fn create_edits(alloc: Global, table: &Table, since: SegmentNumber) -> Result<EditList, AllocError>
    ensures { IfOk result (λ edits. edits ≡ Edit.CreateTable table.now.number table.now.name table.now.columns table.now.key since ∷ []) }
{
    let mut edits = EditList::new(alloc);
    edits.push(Edit::CreateTable {
        number: table.number,
        name: table.name.copy(alloc)?,
        columns: table.columns.copy(alloc)?,
        key: table.key,
        since,
    })?;
    Ok(edits)
}

// Reserves room for one more.
fn reserve_one(tables: &mut Vec<TableContents>) -> Result<(), AllocError>
    ensures room { OnOk result (vec_len tables.new < vec_capacity tables.new) }
    ensures items { tables.new.items ≡ tables.old.items }
{
    tables.reserve(1)
}

// Adds a table at the end of a list that has room for it.
fn add_within(tables: &mut Vec<TableContents>, table: TableContents)
    requires { vec_len tables.old < vec_capacity tables.old }
    ensures { tables.new.items ≡ tables.old.items ++ table ∷ [] }
{
    let _ = tables.push(table);
}
