// Where names stand among tables and columns.
ghost use Rattle.std.specs.Prelude.{◌≡◌, ◌<◌, IfSome, length, map};
ghost use Rattle.std.specs.Option.{option_copied, option_map};
ghost use Rattle.sasi_model.specs.Abbreviations.{COLUMN_LIMIT as column_limit};
ghost use Rattle.std.specs.List.{find};
ghost use Rattle.sasi_model.specs.Indexes.{index_named, index_of, index_on};
ghost use Rattle.sasi_model.specs.State.{definition_of, position_in};
ghost use Rattle.sasi_model.specs.Tokens.{same};
ghost use Rattle.sasi_schema.specs.Defined.{definition, definitions};
ghost use Rattle.sasi_schema.specs.Numbers.{RisesFrom, number_of_table};

use crate::table::Table;
use sasi_types::{ColumnType, IndexDef, Name};

/// The first table of that name.
pub fn find_table<'a>(name: &Name, tables: &'a [Table]) -> Option<&'a Table>
    ensures definition { option_map definition (option_copied result) ≡ definition_of name.now (definitions tables.now) }
    ensures number { RisesFrom 1 (map (λ t. t.number) tables.now) → option_map (λ t. t.number) (option_copied result) ≡ number_of_table name.now (definitions tables.now) }
{
    for table in tables {
        if table.name.bytes() == name.bytes() {
            return Some(table);
        }
    }
    None
}

/// The first index of that name, of whichever table.
pub fn find_index<'a>(name: &Name, tables: &'a [Table]) -> Option<&'a IndexDef>
    ensures { option_map index_of (option_copied result) ≡ index_named name.now (definitions tables.now) }
{
    for table in tables {
        if let Some(def) = index_in(name, table.indexes.as_slice()) {
            return Some(def);
        }
    }
    None
}

/// The first index of that name.
pub fn index_in<'a>(name: &Name, indexes: &'a [IndexDef]) -> Option<&'a IndexDef>
    ensures { option_map index_of (option_copied result) ≡ find (λ i. same i.name name.now) (map index_of indexes.now) }
{
    for def in indexes {
        if def.name.bytes() == name.bytes() {
            return Some(def);
        }
    }
    None
}

/// The index on the column with this number.
pub fn index_on(column: u16, indexes: &[IndexDef]) -> Option<&IndexDef>
    ensures { option_map index_of (option_copied result) ≡ index_on column (map index_of indexes.now) }
{
    for def in indexes {
        if def.column == column {
            return Some(def);
        }
    }
    None
}

/// The position of the first column of that name.
pub fn position_in(name: &Name, columns: &[(Name, ColumnType)]) -> Option<usize>
    ensures position { result ≡ position_in name.now columns.now }
    ensures within { IfSome result (λ position. position < length columns.now) }
{
    for (i, column) in columns.iter().enumerate() {
        if name.bytes() == column.0.bytes() {
            return Some(i);
        }
    }
    None
}
