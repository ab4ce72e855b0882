// Rows that are printed from a key and its partition.
ghost use Rattle.std.specs.Prelude.{◌≡◌, ◌++◌, Some, codes, map, OnOk};
ghost use Rattle.std.specs.List.{flat_map};
ghost use Rattle.std.specs.Option.{option_copied};
ghost use Rattle.sasi_cells.specs.Rows.{IsStored, picked_value};
ghost use Rattle.sasi_model.specs.Abbreviations.{row_text};
ghost use Rattle.sasi_model.specs.Cells.{value_at};
ghost use Rattle.sasi_model.specs.Lines.{printed, value_printed};
ghost use Rattle.sasi_model.specs.Values.{value_stored};

use crate::values::{push_live, push_text};
use sasi_cells::{Partition, Picked, PickedColumn, decode_value};
use sasi_types::{ColumnType, Key, Value};
use std::alloc::{AllocError, Global};

// Adds the values of a row that are picked, with ` | ` between them.
pub(crate) fn push_picked(
    alloc: Global,
    reply: &mut Vec<u8>,
    key: &Key,
    part: &Partition,
    picked: &Picked,
) -> Result<(), AllocError>
    requires { IsStored picked.now.key key.now }
    ensures ok { OnOk result (reply.new.items ≡ reply.old.items ++ row_text (map (picked_value picked.now.key key.now part.now) picked.now.columns)) }
{
    let columns = picked.columns.as_slice();
    push_columns(alloc, reply, picked.key, key.bytes(), part, columns)
}

// Adds the values of columns.
fn push_columns(
    alloc: Global,
    reply: &mut Vec<u8>,
    kind: ColumnType,
    key: &[u8],
    part: &Partition,
    columns: &[PickedColumn],
) -> Result<(), AllocError>
    requires { IsStored kind key.now }
    ensures ok { OnOk result (reply.new.items ≡ reply.old.items ++ row_text (map (picked_value kind key.now part.now) columns.now)) }
{
    let [first, others @ ..] = columns else {
        return Ok(());
    };
    push_column(alloc, reply, kind, key, part, *first)?;
    push_others(alloc, reply, kind, key, part, others)
}

// Adds the values of the columns after the first.
fn push_others(
    alloc: Global,
    reply: &mut Vec<u8>,
    kind: ColumnType,
    key: &[u8],
    part: &Partition,
    columns: &[PickedColumn],
) -> Result<(), AllocError>
    requires { IsStored kind key.now }
    ensures ok { OnOk result (reply.new.items ≡ reply.old.items ++ flat_map (λ column. codes " | " ++ printed (picked_value kind key.now part.now column)) columns.now) }
{
    for column in columns {
        reply.extend_from_slice(b" | ")?;
        push_column(alloc, reply, kind, key, part, *column)?;
    }
    Ok(())
}

// Adds the value of one column.
fn push_column(
    alloc: Global,
    reply: &mut Vec<u8>,
    kind: ColumnType,
    key: &[u8],
    part: &Partition,
    column: PickedColumn,
) -> Result<(), AllocError>
    requires { IsStored kind key.now }
    ensures ok { OnOk result (reply.new.items ≡ reply.old.items ++ printed (picked_value kind key.now part.now column)) }
{
    match column {
        PickedColumn::Key => push_stored(alloc, reply, kind, key),
        PickedColumn::Column(number) => push_cell(reply, part, number),
    }
}

// Adds the value of a column's cell, or `null` where it has none.
fn push_cell(reply: &mut Vec<u8>, part: &Partition, column: u16) -> Result<(), AllocError>
    ensures ok { OnOk result (reply.new.items ≡ reply.old.items ++ printed (value_at part.now column)) }
{
    match value_of(part, column) {
        None => {
            reply.extend_from_slice(b"null")?;
            Ok(())
        }
        Some(value) => push_live(reply, value),
    }
}

// The value of a column's cell, where it has one.
fn value_of(part: &Partition, column: u16) -> Option<&Value>
    ensures { option_copied result ≡ value_at part.now column }
{
    match part.cell(column) {
        None => None,
        Some(cell) => cell.value(),
    }
}

// Adds the value that the bytes of a key encode. Those of a text are its own.
fn push_stored(
    alloc: Global,
    reply: &mut Vec<u8>,
    kind: ColumnType,
    bytes: &[u8],
) -> Result<(), AllocError>
    requires { IsStored kind bytes.now }
    ensures ok { OnOk result (reply.new.items ≡ reply.old.items ++ value_printed (value_stored kind bytes.now)) }
{
    match kind {
        ColumnType::Text => push_text(reply, bytes),
        kind => {
            let value = decode_value(alloc, kind, bytes)?;
            push_live(reply, &value)
        }
    }
}
