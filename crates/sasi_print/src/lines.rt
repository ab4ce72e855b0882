// The lines of what was done, of rows and of numbers.
ghost use Rattle.std.specs.Prelude.{◌≡◌, ◌++◌, map, OnOk};
ghost use Rattle.sasi_cells.specs.Rows.{IsStored, picked_value};
ghost use Rattle.sasi_model.specs.Abbreviations.{ok_line, row_line, count_line};
ghost use Rattle.sasi_print.specs.Checked.{checked_line};

use crate::Reply;
use crate::picked_values::push_picked;
use crate::row_values::push_values;
use crate::values::push_number;
use sasi_cells::{Partition, Picked};
use sasi_types::{Key, Row};
use std::alloc::{AllocError, Global};

/// Adds the line `ok`.
pub fn ok(reply: &mut Reply) -> Result<(), AllocError>
    ensures ok { OnOk result (reply.new ≡ reply.old ++ ok_line) }
{
    reply.bytes.extend_from_slice(b"ok\n")?;
    Ok(())
}

/// Adds the line of a row.
pub fn row(reply: &mut Reply, row: &Row) -> Result<(), AllocError>
    ensures ok { OnOk result (reply.new ≡ reply.old ++ row_line row.now) }
{
    push_values(&mut reply.bytes, row.values())?;
    reply.bytes.push(b'\n')?;
    Ok(())
}

/// Adds the line of the row of a key's partition, with the values that are picked. They are printed from the key and the cells, without
/// a copy.
pub fn picked_row(
    alloc: Global,
    reply: &mut Reply,
    key: &Key,
    part: &Partition,
    picked: &Picked,
) -> Result<(), AllocError>
    requires { IsStored picked.now.key key.now }
    ensures ok { OnOk result (reply.new ≡ reply.old ++ row_line (map (picked_value picked.now.key key.now part.now) picked.now.columns)) }
{
    push_picked(alloc, &mut reply.bytes, key, part, picked)?;
    reply.bytes.push(b'\n')?;
    Ok(())
}

/// Adds the line with the number of rows.
pub fn count(reply: &mut Reply, rows: u64) -> Result<(), AllocError>
    ensures ok { OnOk result (reply.new ≡ reply.old ++ count_line rows) }
{
    reply.bytes.push(b'(')?;
    push_number(&mut reply.bytes, rows)?;
    reply.bytes.extend_from_slice(b" rows)\n")?;
    Ok(())
}

/// Adds the line with the number of candidates that a SELECT checked.
pub fn checked(reply: &mut Reply, candidates: u64) -> Result<(), AllocError>
    ensures ok { OnOk result (reply.new ≡ reply.old ++ checked_line candidates) }
{
    reply.bytes.extend_from_slice(b"checked ")?;
    push_number(&mut reply.bytes, candidates)?;
    reply.bytes.push(b'\n')?;
    Ok(())
}
