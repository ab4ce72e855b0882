// Decodes the fields of a body.
ghost use Rattle.std.specs.Prelude.{◌≡◌, ◌≤◌, ◌^◌, slice_get};
ghost use Rattle.std.specs.Int.{w16};
ghost use Rattle.sasi_formats.specs.Reader.{read};
ghost use Rattle.sasi_formats.specs.Fields.{number, checked};
ghost use Rattle.sasi_formats.specs.Gives.{Gives};
ghost use Rattle.sasi_host.specs.declared.damage.FormatRule.TheVariants as rule;
ghost use Rattle.sasi_body.specs.Body.{body_of, cells, key};
ghost use Rattle.sasi_body.specs.Abbreviations.{is_typed, is_count, part};

use crate::cell::ReadCell;
use crate::value::is_value;
use sasi_cells::Entry;
use sasi_fields::FieldReader;
use sasi_formats::{
    FieldStart, FormatFault, Items, broken, read_items, read_u16, read_u16_in_range,
    read_u64_in_range, take,
};
use sasi_host::FormatRule;
use sasi_types::{ColumnType, Key};
use std::alloc::Global;

/// The largest timestamp.
pub const MAX_TIME: u64 = 1 << 62;

/// Reads the fields of a body, of a table whose columns have these types: the key, the timestamp of the deletion, and the
/// cells.
pub fn read_content(
    alloc: Global,
    reader: &mut FieldReader,
    types: &[ColumnType],
) -> Result<(Key, (u64, Items<Entry>)), FormatFault>
    ensures { Gives (read (body_of types.now) reader.old) result reader.new }
{
    let key = read_key(alloc, reader, types)?;
    let deleted = read_u64_in_range(reader, 0, MAX_TIME)?;
    let cells = read_cells(alloc, reader, types, deleted)?;
    Ok((key, (deleted, cells)))
}

// Reads a length and the key.
fn read_key(
    alloc: Global,
    reader: &mut FieldReader,
    types: &[ColumnType],
) -> Result<Key, FormatFault>
    ensures { Gives (read (key types.now) reader.old) result reader.new }
{
    let size = read_u16_in_range(reader, 1, u16::MAX)?;
    let at = reader.offset();
    let bytes = take(reader, usize::from(size))?;
    if !is_key(types, bytes) {
        return Err(broken(FormatRule::Text, at, bytes));
    }
    match Key::new(alloc, bytes) {
        Ok(key) => Ok(key),
        Err(_) => Err(FormatFault::OutOfMemory),
    }
}

// Whether the bytes are a key of the table.
fn is_key(types: &[ColumnType], bytes: &[u8]) -> bool
    ensures { result ≡ is_typed (slice_get types.now 0) bytes.now }
{
    match types.first() {
        None => false,
        Some(kind) => is_value(*kind, bytes),
    }
}

// Reads the number of cells, and each cell.
fn read_cells(
    alloc: Global,
    reader: &mut FieldReader,
    types: &[ColumnType],
    deleted: u64,
) -> Result<Items<Entry>, FormatFault>
    ensures { Gives (read (cells types.now deleted) reader.old) result reader.new }
{
    let count = read_count(reader, deleted)?;
    read_items(
        alloc,
        reader,
        usize::from(count),
        &ReadCell { types, deleted },
    )
}

// Reads the number of cells.
fn read_count(reader: &mut FieldReader, deleted: u64) -> Result<u16, FormatFault>
    ensures { Gives (read (checked rule.Number 2 (is_count deleted) (number w16)) reader.old) result reader.new }
{
    let start = FieldStart::of(reader);
    let count = read_u16(reader)?;
    if !is_count(deleted, count) {
        return Err(start.broken(FormatRule::Number, 2));
    }
    Ok(count)
}

// At most 64 cells, and one at least where nothing is deleted.
fn is_count(deleted: u64, count: u16) -> bool
    ensures { result ≡ is_count deleted count }
{
    count <= 64 && (count > 0 || deleted > 0)
}
