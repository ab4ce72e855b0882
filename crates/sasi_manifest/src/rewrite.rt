// The edits that build up a listing anew.
ghost use Rattle.std.specs.Prelude.{◌≡◌, ◌+◌, ◌<◌, ◌≤◌, ◌^◌, ◌++◌, length, map, IfOk, OnOk};
ghost use Rattle.sasi_manifest.specs.ListedTables.{listed};
ghost use Rattle.sasi_manifest.specs.Listings.{create_edit, file_edits, files_edit, rewrite_edits, table_edits};

use crate::file_list::copy_files;
use crate::rewrite_indexes::push_indexes;
use crate::{Edit, ListedFiles, ListedTable, Listing, NumberList};
use sasi_host::SegmentNumber;
use sasi_types::TableNumber;
use std::alloc::{AllocError, Global};

/// The start, then the tables in order, then the indexes of all tables in the order of their numbers, then the files of each table.
pub fn rewrite_edits(alloc: Global, listing: &Listing) -> Result<Vec<Edit>, AllocError>
    ensures { IfOk result (λ edits. edits.items ≡ rewrite_edits listing.now) }
{
    let tables = listing.tables.as_slice();
    let mut edits = Vec::new(alloc);
    edits.push(Edit::Start {
        partitioner: listing.partitioner,
        floor: listing.floor,
        last: listing.last,
    })?;
    push_tables(alloc, &mut edits, tables)?;
    push_indexes(alloc, &mut edits, tables)?;
    push_files(alloc, &mut edits, listing.floor, listing.last, tables)?;
    Ok(edits)
}

// Adds the edits that create the tables.
fn push_tables(
    alloc: Global,
    edits: &mut Vec<Edit>,
    tables: &[ListedTable],
) -> Result<(), AllocError>
    requires { length tables.now ≤ 256 }
    ensures { OnOk result (edits.new.items ≡ edits.old.items ++ table_edits 1 (map listed tables.now)) }
{
    for (i, table) in tables.iter().enumerate() {
        edits.push(create_edit(alloc, i as u32 + 1, table)?)?;
    }
    Ok(())
}

// The edit that creates a table with this number.
fn create_edit(alloc: Global, number: TableNumber, own: &ListedTable) -> Result<Edit, AllocError>
    ensures { IfOk result (λ edit. edit ≡ create_edit number (listed own.now)) }
{
    let table = &own.table;
    Ok(Edit::CreateTable {
        number,
        name: table.name.copy(alloc)?,
        columns: table.columns.copy(alloc)?,
        key: table.key,
        since: own.since,
    })
}

// Adds an edit for each table that has files, which adds them all.
fn push_files(
    alloc: Global,
    edits: &mut Vec<Edit>,
    floor: SegmentNumber,
    last: SegmentNumber,
    tables: &[ListedTable],
) -> Result<(), AllocError>
    requires { length tables.now ≤ 256 }
    ensures { OnOk result (edits.new.items ≡ edits.old.items ++ file_edits 1 floor last (map listed tables.now)) }
{
    for (i, table) in tables.iter().enumerate() {
        push_file_edit(alloc, edits, i as u32 + 1, floor, last, table)?;
    }
    Ok(())
}

// Adds the edit that adds all files of a table, if it has some.
fn push_file_edit(
    alloc: Global,
    edits: &mut Vec<Edit>,
    number: TableNumber,
    floor: SegmentNumber,
    last: SegmentNumber,
    table: &ListedTable,
) -> Result<(), AllocError>
    ensures { OnOk result (edits.new.items ≡ edits.old.items ++ files_edit number table.now.since floor last table.now.files) }
{
    let files = copy_files(alloc, table.files.as_slice())?;
    if !files.is_empty() {
        edits.push(Edit::Replace {
            table: number,
            removed: NumberList::new(alloc),
            added: ListedFiles::from_vec(files),
            since: table.since,
            floor,
            last,
        })?;
    }
    Ok(())
}
