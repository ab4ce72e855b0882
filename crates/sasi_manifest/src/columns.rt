// The columns of a table in a record.
ghost use Rattle.std.specs.Prelude.{◌≡◌, []};
ghost use Rattle.sasi_formats.specs.Reader.{read, read_items};
ghost use Rattle.sasi_formats.specs.Gives.{Gives};
ghost use Rattle.sasi_manifest.specs.Edits.{columns, type};
ghost use Rattle.sasi_manifest.specs.Abbreviations.{column, key};

use crate::text::read_column_name;
use sasi_fields::FieldReader;
use sasi_formats::{FieldStart, FormatFault, read_u8, read_u16, read_u16_in_range};
use sasi_host::FormatRule;
use sasi_types::{ColumnType, Columns, Name};
use std::alloc::Global;

// The most columns of a table.
const COLUMN_LIMIT: u16 = 64;

/// Reads the number of columns, and each column.
pub fn read_columns(alloc: Global, reader: &mut FieldReader) -> Result<Columns, FormatFault>
    ensures { Gives (read columns reader.old) result reader.new }
{
    let count = read_u16_in_range(reader, 1, COLUMN_LIMIT)?;
    read_each(alloc, reader, count)
}

// Reads this many columns.
fn read_each(alloc: Global, reader: &mut FieldReader, count: u16) -> Result<Columns, FormatFault>
    ensures { Gives (read_items (λ before. read (column before)) count [] reader.old) result reader.new }
{
    let mut columns = Columns::new(alloc);
    for _turn in 0..count {
        let next = read_column(alloc, reader, columns.as_slice())?;
        columns.push(next.0, next.1)?;
    }
    Ok(columns)
}

// Reads the next column after those before.
fn read_column(
    alloc: Global,
    reader: &mut FieldReader,
    before: &[(Name, ColumnType)],
) -> Result<(Name, ColumnType), FormatFault>
    ensures { Gives (read (column before.now) reader.old) result reader.new }
{
    let name = read_column_name(alloc, reader, before)?;
    let kind = read_type(reader)?;
    Ok((name, kind))
}

// Reads the type of a column.
fn read_type(reader: &mut FieldReader) -> Result<ColumnType, FormatFault>
    ensures { Gives (read type reader.old) result reader.new }
{
    let start = FieldStart::of(reader);
    match read_u8(reader)? {
        0 => Ok(ColumnType::Text),
        1 => Ok(ColumnType::Int),
        2 => Ok(ColumnType::BigInt),
        3 => Ok(ColumnType::Uuid),
        _ => Err(start.broken(FormatRule::Number, 1)),
    }
}

/// Reads the position of the key among the columns.
pub fn read_key(
    reader: &mut FieldReader,
    columns: &[(Name, ColumnType)],
) -> Result<u16, FormatFault>
    ensures { Gives (read (key columns.now) reader.old) result reader.new }
{
    let start = FieldStart::of(reader);
    let key = read_u16(reader)?;
    if usize::from(key) >= columns.len() {
        return Err(start.broken(FormatRule::Number, 2));
    }
    Ok(key)
}
