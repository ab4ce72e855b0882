// The indexes of listed tables: their numbers and their names.
ghost use Rattle.std.specs.Prelude.{◌≡◌, map};
ghost use Rattle.std.specs.List.{list_any};
ghost use Rattle.sasi_model.specs.Cells.{largest};
ghost use Rattle.sasi_model.specs.Indexes.{index_of};
ghost use Rattle.sasi_model.specs.Statements.{same};
ghost use Rattle.sasi_manifest.specs.Edits.{index_names, index_numbers, numbers_at};
ghost use Rattle.sasi_manifest.specs.ListedFiles.{is_among};
ghost use Rattle.sasi_manifest.specs.ListedTables.{listed};
ghost use Rattle.sasi_manifest.specs.Listings.{largest_index, listed_definitions};

use crate::ListedTable;
use sasi_types::{IndexDef, IndexNumber, TableNumber};

/// Whether an index of one of the tables has the number.
pub fn is_index_listed(number: IndexNumber, tables: &[ListedTable]) -> bool
    ensures { result ≡ is_among (index_numbers (map listed tables.now)) number }
{
    for table in tables {
        if has_number(number, table.table.indexes.as_slice()) {
            return true;
        }
    }
    false
}

/// Whether an index of the table with this number has the number.
pub fn is_index_of(tables: &[ListedTable], table: TableNumber, number: IndexNumber) -> bool
    ensures { result ≡ is_among (numbers_at (map listed tables.now) table) number }
{
    match tables.get((table as usize).saturating_sub(1)) {
        Some(found) => has_number(number, found.table.indexes.as_slice()),
        None => false,
    }
}

fn has_number(number: IndexNumber, indexes: &[IndexDef]) -> bool
    ensures { result ≡ is_among (map (λ def. def.number) indexes.now) number }
{
    for def in indexes {
        if number == def.number {
            return true;
        }
    }
    false
}

/// Whether an index of one of the tables has the name.
pub fn is_index_named(name: &[u8], tables: &[ListedTable]) -> bool
    ensures { result ≡ list_any (same name.now) (index_names (listed_definitions (map listed tables.now))) }
{
    for table in tables {
        if has_name(name, table.table.indexes.as_slice()) {
            return true;
        }
    }
    false
}

fn has_name(name: &[u8], indexes: &[IndexDef]) -> bool
    ensures { result ≡ list_any (same name.now) (map (λ i. i.name) (map index_of indexes.now)) }
{
    for def in indexes {
        if name == def.name.bytes() {
            return true;
        }
    }
    false
}

/// The largest number of an index, 0 where there is none.
pub fn largest_index(tables: &[ListedTable]) -> IndexNumber
    ensures { result ≡ largest_index (map listed tables.now) }
{
    let mut most = 0;
    for table in tables {
        most = most.max(largest_number(table.table.indexes.as_slice()));
    }
    most
}

fn largest_number(indexes: &[IndexDef]) -> IndexNumber
    ensures { result ≡ largest (map (λ def. def.number) indexes.now) }
{
    let mut most = 0;
    for def in indexes {
        most = most.max(def.number);
    }
    most
}
