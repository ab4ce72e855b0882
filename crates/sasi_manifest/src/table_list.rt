// Lists of listed tables: names, files and copies.
ghost use Rattle.std.specs.Prelude.{◌≡◌, ◌-◌, ◌<◌, ◌≤◌, length, map, slice_get, slice_set, Some, IfOk, OnOk, OnErr};
ghost use Rattle.std.specs.List.{AllByRecursion, list_any};
ghost use Rattle.sasi_model.specs.Statements.{same};
ghost use Rattle.sasi_manifest.specs.Edits.{are_within, definition_at, files_of};
ghost use Rattle.sasi_manifest.specs.ListedFiles.{AreInOrder, has_file};
ghost use Rattle.sasi_manifest.specs.ListedTables.{IsDefinedAt, IsReplacedAt, listed};
ghost use Rattle.sasi_manifest.specs.Abbreviations.{listed_names};
ghost use Rattle.sasi_manifest.specs.Listings.{listed_definitions};
ghost use Rattle.sasi_schema.specs.Defined.{definition};
ghost use Rattle.sasi_schema.specs.IndexFacts.{IsIndexIn};
ghost use Rattle.sasi_schema.specs.Numbers.{RisesFrom};

use crate::ListedTable;
use crate::file_list::{copy_files, has_file};
use crate::files::{ListedFile, ListedFiles};
use crate::number_set::NumberSet;
use sasi_host::{DataNumber, SegmentNumber};
use sasi_schema::Table;
use sasi_types::{IndexDef, TableNumber};
use std::alloc::{AllocError, Global};

/// The table with this number, from 1 on.
pub fn table_at(tables: &[ListedTable], table: TableNumber) -> &Table
    requires some { 0 < table }
    requires within { table ≤ length tables.now }
    ensures { definition result.now ≡ definition_at (listed_definitions (map listed tables.now)) table }
{
    let at = table as usize - 1;
    &tables[at].table
}

/// Whether one of the tables has the name.
pub fn is_listed(name: &[u8], tables: &[ListedTable]) -> bool
    ensures { result ≡ list_any (same name.now) (listed_names (map listed tables.now)) }
{
    for table in tables {
        if name == table.table.name.bytes() {
            return true;
        }
    }
    false
}

/// Whether one of the tables has a file of this number.
pub fn is_file_listed(number: DataNumber, tables: &[ListedTable]) -> bool
    requires { AllByRecursion (λ t. AreInOrder 0 t.files) tables.now }
    ensures { result ≡ list_any (λ t. has_file t.files number) (map listed tables.now) }
{
    for table in tables {
        if has_file(table.files.as_slice(), number) {
            return true;
        }
    }
    false
}

/// The files of the table with this number, if there is one.
pub fn files_at(tables: &[ListedTable], table: TableNumber) -> &[ListedFile]
    ensures { result.now ≡ files_of (map listed tables.now) table }
{
    match tables.get((table as usize).saturating_sub(1)) {
        Some(found) => found.files.as_slice(),
        None => &[],
    }
}

/// Whether a file of the table with this number has the number.
pub fn is_file_of(tables: &[ListedTable], table: TableNumber, number: DataNumber) -> bool
    requires { AllByRecursion (λ t. AreInOrder 0 t.files) tables.now }
    ensures { result ≡ has_file (files_of (map listed tables.now) table) number }
{
    has_file(files_at(tables, table), number)
}

/// Whether no table but this one begins after the segment.
pub fn are_within(tables: &[ListedTable], table: TableNumber, last: SegmentNumber) -> bool
    requires { length tables.now ≤ 256 }
    ensures { result ≡ are_within last table 1 (map listed tables.now) }
{
    let mut number = 1u32;
    for other in tables {
        if number != table && other.since > last {
            return false;
        }
        number += 1;
    }
    true
}

/// Puts files of the table with this number in the place of others, and changes its first segment.
pub fn replace_at(
    alloc: Global,
    tables: &mut Vec<ListedTable>,
    table: TableNumber,
    removed: &[DataNumber],
    added: &[ListedFile],
    since: SegmentNumber,
) -> Result<(), AllocError>
    requires some { 0 < table }
    requires within { table ≤ length tables.old.items }
    requires order { AllByRecursion (λ t. AreInOrder 0 t.files) tables.old.items }
    ensures ok { OnOk result (IsReplacedAt table removed.now added.now since tables.old.items tables.new.items) }
    ensures err { OnErr result (tables.new.items ≡ tables.old.items) }
{
    let removed = NumberSet::of(alloc, removed)?;
    let added = copy_files(alloc, added)?;
    let changed = &mut tables[table as usize - 1];
    changed.files.replace(&removed, added)?;
    changed.since = since;
    Ok(())
}

/// Adds an index behind the others of its table.
pub fn define_at(tables: &mut Vec<ListedTable>, def: IndexDef) -> Result<(), AllocError>
    requires rises { RisesFrom 1 (map (λ t. t.table.number) tables.old.items) }
    requires index { IsIndexIn (listed_definitions (map listed tables.old.items)) def }
    ensures ok { OnOk result (IsDefinedAt def tables.old.items tables.new.items) }
    ensures err { OnErr result (tables.new.items ≡ tables.old.items) }
{
    let changed = &mut tables[def.table as usize - 1];
    changed.table.add_index(def)
}

/// A copy of the tables.
pub fn copies(alloc: Global, tables: &[ListedTable]) -> Result<Vec<ListedTable>, AllocError>
    ensures same { IfOk result (λ copies. map listed copies.items ≡ map listed tables.now) }
    ensures numbers { IfOk result (λ copies. map (λ t. t.table.number) copies.items ≡ map (λ t. t.table.number) tables.now) }
{
    let mut copies = Vec::with_capacity(alloc, tables.len())?;
    for table in tables {
        copies.push(copy_table(alloc, table)?)?;
    }
    Ok(copies)
}

// A copy of a table.
fn copy_table(alloc: Global, table: &ListedTable) -> Result<ListedTable, AllocError>
    ensures same { IfOk result (λ copy. listed copy ≡ listed table.now) }
    ensures number { IfOk result (λ copy. copy.table.number ≡ table.now.table.number) }
{
    let files = copy_files(alloc, table.files.as_slice())?;
    Ok(ListedTable {
        table: table.table.copy(alloc)?,
        since: table.since,
        files: ListedFiles::from_vec(files),
    })
}
