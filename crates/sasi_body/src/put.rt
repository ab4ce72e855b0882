// Encodes bodies.
ghost use Rattle.std.specs.Prelude.{◌≡◌, ◌<◌, ◌^◌, ◌++◌, [], length, OnOk, Some, All};
ghost use Rattle.sasi_formats.specs.Formats.{encoded};
ghost use Rattle.sasi_body.specs.Body.{body, HasBody};
ghost use Rattle.sasi_body.specs.Body as format;
ghost use Rattle.sasi_model.specs.Stored.{HasBytes, HasCellBytes};

use sasi_cells::{Entry, Partition};
use sasi_fields::{put_bytes, put_u8, put_u16, put_u64};
use sasi_types::{Key, Value};
use std::alloc::AllocError;

/// Appends the body of a key and its partition.
pub fn put_body(out: &mut Vec<u8>, key: &Key, part: &Partition) -> Result<(), AllocError>
    requires { HasBody key.now part.now }
    ensures { OnOk result (out.new.items ≡ out.old.items ++ body key.now part.now) }
{
    put_key(out, key)?;
    put_u64(out, part.deleted())?;
    put_cells(out, part.cells())
}

// Appends a key's length and the key.
fn put_key(out: &mut Vec<u8>, key: &Key) -> Result<(), AllocError>
    requires { length key.now < 2 ^ 16 }
    ensures { OnOk result (out.new.items ≡ out.old.items ++ encoded (format.key []) key.now) }
{
    let bytes = key.bytes();
    put_u16(out, bytes.len() as u16)?;
    put_bytes(out, bytes)
}

// Appends the number of cells, and each cell.
fn put_cells(out: &mut Vec<u8>, cells: &[Entry]) -> Result<(), AllocError>
    requires few { length cells.now < 2 ^ 16 }
    requires each { All HasCellBytes cells.now }
    ensures { OnOk result (out.new.items ≡ out.old.items ++ encoded (format.cells [] 0) cells.now) }
{
    put_u16(out, cells.len() as u16)?;
    for entry in cells {
        put_cell(out, entry)?;
    }
    Ok(())
}

// Appends a column's number and its cell.
fn put_cell(out: &mut Vec<u8>, entry: &Entry) -> Result<(), AllocError>
    requires { HasCellBytes entry.now }
    ensures { OnOk result (out.new.items ≡ out.old.items ++ encoded (format.cell [] 0 []) entry.now) }
{
    put_u16(out, entry.column())?;
    put_u64(out, entry.time())?;
    match entry.value() {
        None => put_u8(out, 0),
        Some(value) => put_value(out, value),
    }
}

// Appends the tag, the length and the bytes of a value.
fn put_value(out: &mut Vec<u8>, value: &Value) -> Result<(), AllocError>
    requires { HasBytes value.now }
    ensures { OnOk result (out.new.items ≡ out.old.items ++ encoded (format.value [] 0) (Some value.now)) }
{
    let stored = value.stored();
    let bytes = stored.as_slice();
    put_u8(out, 1)?;
    put_u16(out, bytes.len() as u16)?;
    put_bytes(out, bytes)
}
