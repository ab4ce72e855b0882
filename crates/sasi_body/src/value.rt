// The value of a cell; a tombstone has none.
ghost use Rattle.std.specs.Prelude.{◌≡◌, ◌↔◌, IsTrue, Some, IfOk, slice_get};
ghost use Rattle.std.specs.Option.{option_copied};
ghost use Rattle.std.specs.Str.{IsUtf8};
ghost use Rattle.sasi_formats.specs.Reader.{read};
ghost use Rattle.sasi_formats.specs.Gives.{Gives};
ghost use Rattle.sasi_body.specs.Body.{is_value, kind_of, tag, value, value_in};
ghost use Rattle.sasi_body.specs.Abbreviations.{is_typed, live, most_bytes};

use sasi_cells::decode_value;
use sasi_fields::FieldReader;
use sasi_formats::{FieldStart, FormatFault, broken, read_flag, read_u16_in_range, take};
use sasi_host::FormatRule;
use sasi_types::{ColumnType, Value};
use std::alloc::{AllocError, Global};

/// Reads the tag of a tombstone, or that of a value and the value.
pub fn read_value(
    alloc: Global,
    reader: &mut FieldReader,
    types: &[ColumnType],
    column: u16,
) -> Result<Option<Value>, FormatFault>
    ensures { Gives (read (value types.now column) reader.old) result reader.new }
{
    if !read_tag(reader, column)? {
        return Ok(None);
    }
    let value = read_live(alloc, reader, types, column)?;
    Ok(Some(value))
}

// Reads the tag: whether a value follows it. The marker is no tombstone.
fn read_tag(reader: &mut FieldReader, column: u16) -> Result<bool, FormatFault>
    ensures { Gives (read (tag column) reader.old) result reader.new }
{
    let start = FieldStart::of(reader);
    let live = read_flag(reader)?;
    if !live && column == 0 {
        return Err(start.broken(FormatRule::Number, 1));
    }
    Ok(live)
}

// Reads a length and a value. The marker's value is empty.
fn read_live(
    alloc: Global,
    reader: &mut FieldReader,
    types: &[ColumnType],
    column: u16,
) -> Result<Value, FormatFault>
    ensures { Gives (read (live types.now column) reader.old) result reader.new }
{
    let size = read_u16_in_range(reader, 0, most_bytes(column))?;
    let at = reader.offset();
    let bytes = take(reader, usize::from(size))?;
    let Some(value) = value_in(alloc, kind_of(types, column), bytes)? else {
        return Err(broken(FormatRule::Text, at, bytes));
    };
    Ok(value)
}

// The most bytes of a value of the column.
fn most_bytes(column: u16) -> u16
    ensures { result ≡ most_bytes column }
{
    if column == 0 { 0 } else { u16::MAX }
}

// The type of the column, if the table has it. The marker is a text.
fn kind_of(types: &[ColumnType], column: u16) -> Option<ColumnType>
    ensures { result ≡ kind_of types.now column }
{
    if column == 0 {
        return Some(ColumnType::Text);
    }
    types.get(usize::from(column)).copied()
}

// The value of the type that the bytes encode, if they do.
fn value_in(
    alloc: Global,
    kind: Option<ColumnType>,
    bytes: &[u8],
) -> Result<Option<Value>, AllocError>
    ensures { IfOk result (λ value. value ≡ value_in kind bytes.now) }
{
    let Some(kind) = kind else {
        return Ok(None);
    };
    if !is_value(kind, bytes) {
        return Ok(None);
    }
    Ok(Some(decode_value(alloc, kind, bytes)?))
}

/// Whether the bytes encode a value of the type.
pub fn is_value(kind: ColumnType, bytes: &[u8]) -> bool
    ensures { result ≡ is_value kind bytes.now }
{
    match kind {
        ColumnType::Text => is_text(bytes),
        ColumnType::Int => bytes.len() == 4,
        ColumnType::BigInt => bytes.len() == 8,
        ColumnType::Uuid => bytes.len() == 16,
    }
}

// Whether the bytes are UTF-8.
fn is_text(bytes: &[u8]) -> bool
    ensures { IsTrue result ↔ IsUtf8 bytes.now }
{
    str::from_utf8(bytes).is_ok()
}
