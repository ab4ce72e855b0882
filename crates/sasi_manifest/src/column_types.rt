// The types of columns by their numbers, and which columns have an index.
ghost use Rattle.std.specs.Prelude.{◌≡◌, ◌-◌, ◌<◌, ◌≤◌, is_some, map};
ghost use Rattle.sasi_model.specs.Abbreviations.{kind_of};
ghost use Rattle.sasi_model.specs.Indexes.{index_of, index_on};
ghost use Rattle.sasi_schema.specs.Defined.{definition};

use sasi_schema::Table;
use sasi_types::{ColumnType, IndexDef};

/// The type of the column with this number, the key's for 0; text where there is no such column.
pub fn type_at(table: &Table, column: u16) -> ColumnType
    ensures { result ≡ kind_of (definition table.now) column }
{
    if column == 0 {
        return table.key_type();
    }
    let position = position_of(table.key, column);
    match table.columns.as_slice().get(position as usize) {
        Some(found) => found.1,
        None => ColumnType::Text,
    }
}

// The position of a regular column of a table with the key at this position.
fn position_of(key: u16, column: u16) -> u16
    requires { 0 < column }
    ensures low { column ≤ key → result ≡ column - 1 }
    ensures high { key < column → result ≡ column }
{
    if column <= key { column - 1 } else { column }
}

/// Whether the column with this number has one of the indexes.
pub fn is_indexed(indexes: &[IndexDef], column: u16) -> bool
    ensures { result ≡ is_some (index_on column (map index_of indexes.now)) }
{
    for def in indexes {
        if def.column == column {
            return true;
        }
    }
    false
}
