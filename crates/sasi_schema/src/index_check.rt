// The rules by which a CREATE CUSTOM INDEX is refused, in their order.
ghost use Rattle.std.specs.Prelude.{◌≡◌, ◌≤◌, ◌<◌, ◌∷◌, [], length, map, Some, IfOk};
ghost use Rattle.std.specs.List.{list_any};
ghost use Rattle.sasi_model.specs.Abbreviations.{kind_of};
ghost use Rattle.sasi_model.specs.Refusals.{option_rules, type_of_column};
ghost use Rattle.sasi_model.specs.State.{number_of_column};
ghost use Rattle.sasi_model.specs.Tokens.{same};
ghost use Rattle.sasi_schema.specs.Answers.{Answers};
ghost use Rattle.sasi_schema.specs.Checks.{column_rules, mode_rules, taken_rules, using_rules, word_rules};
ghost use Rattle.sasi_schema.specs.Defined.{definition, definitions};
ghost use Rattle.sasi_schema.specs.Faults.{refusal_of_fault};

use crate::SchemaFault;
use crate::options::{
    class_given, is_allowed, is_index_class, mode_fits, mode_given, option_value,
};
use crate::search::{find_index, index_on};
use crate::table::Table;
use sasi_types::{Class, ColumnType, Name, Text};
use std::alloc::Global;

/// Tries the rules of an index of this name on a column of a table, and gives the number and the type of the column.
pub fn check_index(
    alloc: Global,
    tables: &[Table],
    table: &Table,
    name: &Name,
    column: &Name,
    class: &Text,
    options: &[(Text, Text)],
) -> Result<(u16, ColumnType), SchemaFault>
    ensures answers { Answers refusal_of_fault (column_rules (definitions tables.now) (definition table.now) name.now column.now class.now options.now) result }
    ensures number { IfOk result (λ found. number_of_column (definition table.now) column.now ≡ Some found.0) }
    ensures kind { IfOk result (λ found. type_of_column (definition table.now) column.now ≡ Some found.1) }
{
    let Some((number, kind)) = table.column(column) else {
        return Err(SchemaFault::NoColumn(column.copy(alloc)?));
    };
    check_taken(alloc, tables, table, name, number)?;
    check_words(alloc, column, number, kind, class, options)?;
    Ok((number, kind))
}

fn check_taken(
    alloc: Global,
    tables: &[Table],
    table: &Table,
    name: &Name,
    number: u16,
) -> Result<(), SchemaFault>
    ensures { Answers refusal_of_fault (taken_rules (definitions tables.now) (definition table.now) name.now number) result }
{
    if let Some(def) = find_index(name, tables) {
        return Err(SchemaFault::IndexExists(def.name.copy(alloc)?));
    }
    if let Some(def) = index_on(number, table.indexes.as_slice()) {
        return Err(SchemaFault::IndexExists(def.name.copy(alloc)?));
    }
    Ok(())
}

fn check_words(
    alloc: Global,
    column: &Name,
    number: u16,
    kind: ColumnType,
    class: &Text,
    options: &[(Text, Text)],
) -> Result<(), SchemaFault>
    ensures { Answers refusal_of_fault (word_rules column.now number kind class.now options.now) result }
{
    check_using(class)?;
    check_options(alloc, kind, class_given(options), options)?;
    check_mode(alloc, column, number, kind, options)
}

fn check_using(class: &Text) -> Result<(), SchemaFault>
    ensures { Answers refusal_of_fault (using_rules class.now) result }
{
    if !is_index_class(class.bytes()) {
        return Err(SchemaFault::BadUsing);
    }
    Ok(())
}

// An option that passes is one of six, so the loop ends at the seventh, and a look at those before it is short.
fn check_options(
    alloc: Global,
    kind: ColumnType,
    class: Option<Class>,
    options: &[(Text, Text)],
) -> Result<(), SchemaFault>
    ensures { Answers refusal_of_fault (option_rules kind class [] options.now) result }
{
    for (i, option) in options.iter().enumerate() {
        let (name, value) = (option.0.bytes(), option.1.bytes());
        if stands_in(name, &options[..i]) || !is_allowed(kind, class, name, value) {
            return Err(SchemaFault::BadOption(option.0.copy(alloc)?));
        }
    }
    Ok(())
}

fn stands_in(name: &[u8], options: &[(Text, Text)]) -> bool
    ensures { result ≡ list_any (same name.now) (map (λ option. option.0) options.now) }
{
    option_value(name, options).is_some()
}

fn check_mode(
    alloc: Global,
    column: &Name,
    number: u16,
    kind: ColumnType,
    options: &[(Text, Text)],
) -> Result<(), SchemaFault>
    ensures { Answers refusal_of_fault (mode_rules column.now number kind options.now) result }
{
    if number == 0 || !mode_fits(mode_given(options), kind) {
        return Err(SchemaFault::ModeType(column.copy(alloc)?));
    }
    Ok(())
}
