// The mutations of writes that no rule refuses.
ghost use Rattle.std.specs.Prelude.{◌≡◌, ◌<◌, None, IfOk};
ghost use Rattle.sasi_model.specs.Refusals.{each, number_range};
ghost use Rattle.sasi_model.specs.Abbreviations.{first_refusal, key_literal, marker, update_change, key_type};
ghost use Rattle.sasi_model.specs.Step.{delete_change, insert_change};
ghost use Rattle.sasi_cells.specs.Changes.{with_column};
ghost use Rattle.sasi_schema.specs.Defined.{definition};
ghost use Rattle.sasi_machine.specs.KeyLiteral.{IsKeyLiteral};
ghost use Rattle.sasi_machine.specs.Writes.{IsChange};

use crate::assign::{assign, nulls};
use crate::key::key_given;
use sasi_cells::{Mutation, Partition};
use sasi_schema::Table;
use sasi_types::{Cell, ColumnValues, Literal, Name, Text, Value};
use std::alloc::{AllocError, Global};

/// The mutation of a key with this change.
fn mutation_of(
    alloc: Global,
    table: &Table,
    key: Literal,
    change: Partition,
) -> Result<Mutation, AllocError>
    requires { IsKeyLiteral (key_type (definition table.now)) key }
    ensures change { IfOk result (IsChange (definition table.now) key change) }
    ensures table { IfOk result (λ mutation. mutation.table ≡ table.now.number) }
{
    let key = key_given(alloc, table.key_type(), key)?;
    Ok(Mutation {
        table: table.number,
        key,
        change,
    })
}

/// The mutation of an INSERT: a marker, and a cell for each regular column that it names.
pub fn mutation_of_insert(
    alloc: Global,
    table: &Table,
    time: u64,
    given: ColumnValues,
) -> Result<Mutation, AllocError>
    requires above { 0 < time }
    requires ranges { first_refusal (each (number_range (definition table.now)) given) ≡ None }
    requires key { IsKeyLiteral (key_type (definition table.now)) (key_literal (definition table.now) given) }
    ensures change { IfOk result (IsChange (definition table.now) (key_literal (definition table.now) given) (insert_change (definition table.now) time given)) }
    ensures table { IfOk result (λ mutation. mutation.table ≡ table.now.number) }
{
    let assignment = assign(alloc, table, time, given)?;
    let change = marked(alloc, assignment.change, time)?;
    mutation_of(alloc, table, assignment.key, change)
}

// The change with a live marker.
fn marked(alloc: Global, change: Partition, time: u64) -> Result<Partition, AllocError>
    requires { change.deleted < time }
    ensures { IfOk result (λ marked. marked ≡ with_column change 0 (marker time)) }
{
    let mut change = change;
    let value = Some(Value::Text(Text::new(Vec::new(alloc))));
    change.put(0, Cell { time, value })?;
    Ok(change)
}

/// The mutation of an UPDATE: the cells alone.
pub fn mutation_of_update(
    alloc: Global,
    table: &Table,
    time: u64,
    sets: ColumnValues,
    key: Literal,
) -> Result<Mutation, AllocError>
    requires above { 0 < time }
    requires ranges { first_refusal (each (number_range (definition table.now)) sets) ≡ None }
    requires key { IsKeyLiteral (key_type (definition table.now)) key }
    ensures change { IfOk result (IsChange (definition table.now) key (update_change (definition table.now) time sets)) }
    ensures table { IfOk result (λ mutation. mutation.table ≡ table.now.number) }
{
    let assignment = assign(alloc, table, time, sets)?;
    mutation_of(alloc, table, key, assignment.change)
}

/// The mutation of a DELETE: tombstones, or a deletion of the whole row.
pub fn mutation_of_delete(
    alloc: Global,
    table: &Table,
    time: u64,
    columns: Vec<Name>,
    key: Literal,
) -> Result<Mutation, AllocError>
    requires above { 0 < time }
    requires key { IsKeyLiteral (key_type (definition table.now)) key }
    ensures change { IfOk result (IsChange (definition table.now) key (delete_change (definition table.now) time columns.items)) }
    ensures table { IfOk result (λ mutation. mutation.table ≡ table.now.number) }
{
    let change = deletion(alloc, table, time, columns)?;
    mutation_of(alloc, table, key, change)
}

// Tombstones of the columns, or a deletion where there are none.
fn deletion(
    alloc: Global,
    table: &Table,
    time: u64,
    columns: Vec<Name>,
) -> Result<Partition, AllocError>
    requires { 0 < time }
    ensures { IfOk result (λ change. change ≡ delete_change (definition table.now) time columns.items) }
{
    if columns.is_empty() {
        return Ok(Partition::deletion(alloc, time));
    }
    let sets = nulls(alloc, columns)?;
    Ok(assign(alloc, table, time, sets)?.change)
}
