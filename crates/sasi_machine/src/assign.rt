// The literals of an INSERT or UPDATE, as the literal of the key and the cells.
ghost use Rattle.std.specs.Prelude.{◌≡◌, ◌<◌, None, false, if◌then◌else◌, IfOk, OnOk, map};
ghost use Rattle.sasi_types.specs.declared.literal.Literal.TheVariants.{Null};
ghost use Rattle.sasi_model.specs.Refusals.{each, is_key_value, is_out_of_range, number_range, tests, type_of_column};
ghost use Rattle.sasi_model.specs.Abbreviations.{first_refusal, key_literal, update_change};
ghost use Rattle.sasi_schema.specs.Defined.{definition};
ghost use Rattle.sasi_machine.specs.Assignment.{with_set};

use crate::literals::{is_null, value_set};
use sasi_cells::Partition;
use sasi_schema::Table;
use sasi_types::{Cell, ColumnValues, Literal, Name};
use std::alloc::{AllocError, Global};

/// The literal of the key, and the cells of the regular columns.
#[derive(Drop)]
pub struct Assignment {
    pub key: Literal,
    pub change: Partition,
}

/// Finds the literal of the key, and makes a cell for each regular column. Of two literals of one column the first counts,
/// so the list is read from its end.
pub fn assign(
    alloc: Global,
    table: &Table,
    time: u64,
    given: ColumnValues,
) -> Result<Assignment, AllocError>
    requires above { 0 < time }
    requires ranges { first_refusal (each (number_range (definition table.now)) given) ≡ None }
    ensures key { IfOk result (λ c. c.key ≡ key_literal (definition table.now) given) }
    ensures change { IfOk result (λ c. c.change ≡ update_change (definition table.now) time given) }
{
    let mut given = given;
    let mut assignment = Assignment {
        key: Literal::Null,
        change: Partition::new(alloc),
    };
    while let Some((column, literal)) = given.pop() {
        assign_one(table, time, &mut assignment, &column, literal)?;
    }
    Ok(assignment)
}

// Adds one column with its literal.
fn assign_one(
    table: &Table,
    time: u64,
    assignment: &mut Assignment,
    column: &Name,
    literal: Literal,
) -> Result<(), AllocError>
    requires above { assignment.old.change.deleted < time }
    requires range { tests is_out_of_range (type_of_column (definition table.now) column.now) literal ≡ false }
    ensures key { OnOk result (assignment.new.key ≡ (if is_key_value (definition table.now) column.now literal then literal else assignment.old.key)) }
    ensures cells { OnOk result (assignment.new.change.cells ≡ with_set (definition table.now) time column.now literal assignment.old.change.cells) }
    ensures deleted { OnOk result (assignment.new.change.deleted ≡ assignment.old.change.deleted) }
{
    if is_key_value(table, column, &literal) {
        assignment.key = literal;
        return Ok(());
    }
    set(table, time, &mut assignment.change, column, literal)
}

/// Whether it is a value for the key.
pub fn is_key_value(table: &Table, column: &Name, literal: &Literal) -> bool
    ensures { result ≡ is_key_value (definition table.now) column.now literal.now }
{
    table.is_key(column) && !is_null(literal)
}

// Writes the cell of a column, if it is a regular column.
fn set(
    table: &Table,
    time: u64,
    change: &mut Partition,
    column: &Name,
    literal: Literal,
) -> Result<(), AllocError>
    requires above { change.old.deleted < time }
    requires range { tests is_out_of_range (type_of_column (definition table.now) column.now) literal ≡ false }
    ensures cells { OnOk result (change.new.cells ≡ with_set (definition table.now) time column.now literal change.old.cells) }
    ensures deleted { OnOk result (change.new.deleted ≡ change.old.deleted) }
{
    match table.number_of(column) {
        None | Some(0) => Ok(()),
        Some(number) => {
            let value = value_set(table.type_of(column), literal);
            change.put(number, Cell { time, value })
        }
    }
}

/// Each name with NULL.
pub fn nulls(alloc: Global, columns: Vec<Name>) -> Result<ColumnValues, AllocError>
    ensures { IfOk result (λ sets. sets ≡ map (λ name. (name, Null)) columns.items) }
{
    let mut sets = ColumnValues::new(alloc);
    for column in columns {
        sets.push(column, Literal::Null)?;
    }
    Ok(sets)
}
