// The rules by which a CREATE TABLE is refused, in their order.
ghost use Rattle.std.specs.Prelude.{◌≡◌, [], map};
ghost use Rattle.sasi_model.specs.Refusals.{create_rules, repeat_rules, names_in};
ghost use Rattle.sasi_schema.specs.Answers.{Answers};
ghost use Rattle.sasi_schema.specs.Checks.{count_rules, key_rules, name_rules};
ghost use Rattle.sasi_schema.specs.Defined.{definitions};
ghost use Rattle.sasi_schema.specs.Faults.{refusal_of_fault};

use crate::repeats::repeated_column;
use crate::search::{find_table, position_in};
use crate::table::Table;
use crate::{Limit, SchemaFault};
use sasi_types::{ColumnType, Name};
use std::alloc::Global;

/// The most tables.
pub const TABLE_LIMIT: usize = 256;

/// The most columns of a table, the key column included.
pub const COLUMN_LIMIT: usize = 64;

/// Tries all rules.
pub fn check(
    alloc: Global,
    tables: &[Table],
    table: &Name,
    columns: &[(Name, ColumnType)],
    keys: &[Name],
) -> Result<(), SchemaFault>
    ensures { Answers refusal_of_fault (create_rules (definitions tables.now) table.now columns.now keys.now) result }
{
    check_name(alloc, tables, table)?;
    check_keys(alloc, columns, keys)?;
    check_repeats(alloc, columns)?;
    check_counts(alloc, tables, table, columns, keys)
}

fn check_name(alloc: Global, tables: &[Table], table: &Name) -> Result<(), SchemaFault>
    ensures { Answers refusal_of_fault (name_rules (definitions tables.now) table.now) result }
{
    if find_table(table, tables).is_some() {
        return Err(SchemaFault::TableExists(table.copy(alloc)?));
    }
    Ok(())
}

fn check_keys(
    alloc: Global,
    columns: &[(Name, ColumnType)],
    keys: &[Name],
) -> Result<(), SchemaFault>
    ensures { Answers refusal_of_fault (key_rules columns.now keys.now) result }
{
    for key in keys {
        if position_in(key, columns).is_none() {
            return Err(SchemaFault::NoColumn(key.copy(alloc)?));
        }
    }
    Ok(())
}

fn check_repeats(alloc: Global, columns: &[(Name, ColumnType)]) -> Result<(), SchemaFault>
    ensures { Answers refusal_of_fault (repeat_rules [] (names_in columns.now)) result }
{
    match repeated_column(alloc, columns)? {
        Some(name) => Err(SchemaFault::ColumnRepeated(name)),
        None => Ok(()),
    }
}

fn check_counts(
    alloc: Global,
    tables: &[Table],
    table: &Name,
    columns: &[(Name, ColumnType)],
    keys: &[Name],
) -> Result<(), SchemaFault>
    ensures { Answers refusal_of_fault (count_rules (definitions tables.now) table.now columns.now keys.now) result }
{
    if keys.is_empty() {
        return Err(SchemaFault::KeyMissing(table.copy(alloc)?));
    }
    if tables.len() >= TABLE_LIMIT {
        return Err(SchemaFault::TooMany(Limit::Tables));
    }
    if columns.len() > COLUMN_LIMIT {
        return Err(SchemaFault::TooMany(Limit::Columns));
    }
    Ok(())
}
