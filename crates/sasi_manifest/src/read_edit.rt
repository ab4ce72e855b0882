// Edits of a record.
ghost use Rattle.std.specs.Prelude.{◌≡◌, None, Some};
ghost use Rattle.std.specs.Option.{option_copied};
ghost use Rattle.sasi_formats.specs.Reader.{read};
ghost use Rattle.sasi_formats.specs.Gives.{Gives};
ghost use Rattle.sasi_manifest.specs.Edits.{create, edit, later_tag, partitioner, shape, start};
ghost use Rattle.sasi_manifest.specs.Abbreviations.{segments};

use crate::columns::{read_columns, read_key};
use crate::read_index::read_create_index;
use crate::read_replace::read_replace;
use crate::text::read_table_name;
use crate::{Edit, Listing};
use sasi_fields::FieldReader;
use sasi_formats::{FieldStart, FormatFault, read_u8, read_u8_in_range, read_u32_in_range};
use sasi_host::{FormatRule, SegmentNumber};
use sasi_types::{Columns, Partitioner};
use std::alloc::Global;

// The most tables.
const TABLE_LIMIT: u32 = 256;

/// Reads the next edit, which applies to the listing.
pub fn read_edit(
    alloc: Global,
    reader: &mut FieldReader,
    listed: Option<&Listing>,
) -> Result<Edit, FormatFault>
    ensures { Gives (read (edit (option_copied listed.entry)) reader.old) result reader.new }
{
    match listed {
        None => read_first(reader),
        Some(listing) => read_later(alloc, reader, listing),
    }
}

// Reads the first edit of a manifest.
fn read_first(reader: &mut FieldReader) -> Result<Edit, FormatFault>
    ensures { Gives (read (edit None) reader.old) result reader.new }
{
    let _tag = read_u8_in_range(reader, 1, 1)?;
    read_start(reader)
}

// Reads an edit of a manifest that has begun.
fn read_later(
    alloc: Global,
    reader: &mut FieldReader,
    listing: &Listing,
) -> Result<Edit, FormatFault>
    ensures { Gives (read (edit (Some listing.now)) reader.old) result reader.new }
{
    let tag = read_later_tag(reader)?;
    if tag == 2 {
        return read_create(alloc, reader, listing);
    }
    if tag == 3 {
        return read_create_index(alloc, reader, &listing.tables);
    }
    read_replace(alloc, reader, &listing.tables)
}

// Reads the tag of an edit after a start.
fn read_later_tag(reader: &mut FieldReader) -> Result<u8, FormatFault>
    ensures { Gives (read later_tag reader.old) result reader.new }
{
    let start = FieldStart::of(reader);
    let tag = read_u8(reader)?;
    if tag != 2 && tag != 3 && tag != 5 {
        return Err(start.broken(FormatRule::Number, 1));
    }
    Ok(tag)
}

// Reads the fields of a start.
fn read_start(reader: &mut FieldReader) -> Result<Edit, FormatFault>
    ensures { Gives (read start reader.old) result reader.new }
{
    let partitioner = read_partitioner(reader)?;
    let (floor, last) = read_segments(reader)?;
    Ok(Edit::Start {
        partitioner,
        floor,
        last,
    })
}

// Reads the byte that names a partitioner.
fn read_partitioner(reader: &mut FieldReader) -> Result<Partitioner, FormatFault>
    ensures { Gives (read partitioner reader.old) result reader.new }
{
    let start = FieldStart::of(reader);
    match read_u8(reader)? {
        0 => Ok(Partitioner::Lead8),
        1 => Ok(Partitioner::Murmur3),
        _ => Err(start.broken(FormatRule::Number, 1)),
    }
}

// Reads the first and the last live segment.
fn read_segments(reader: &mut FieldReader) -> Result<(SegmentNumber, SegmentNumber), FormatFault>
    ensures { Gives (read segments reader.old) result reader.new }
{
    let start = FieldStart::of(reader);
    let floor = read_u32_in_range(reader, 1, u32::MAX)?;
    let last = read_u32_in_range(reader, 1, u32::MAX)?;
    if last < floor {
        return Err(start.broken(FormatRule::Number, 4));
    }
    Ok((floor, last))
}

// Reads the fields of a table after the listed ones.
fn read_create(
    alloc: Global,
    reader: &mut FieldReader,
    listing: &Listing,
) -> Result<Edit, FormatFault>
    ensures { Gives (read (create listing.now.tables listing.now.last) reader.old) result reader.new }
{
    let next = listing.tables.len() as u32 + 1;
    let number = read_u32_in_range(reader, next, next.min(TABLE_LIMIT))?;
    let name = read_table_name(alloc, reader, &listing.tables)?;
    let (columns, (key, since)) = read_shape(alloc, reader, listing.last)?;
    Ok(Edit::CreateTable {
        number,
        name,
        columns,
        key,
        since,
    })
}

// Reads the columns, the position of the key and the first segment.
fn read_shape(
    alloc: Global,
    reader: &mut FieldReader,
    last: SegmentNumber,
) -> Result<(Columns, (u16, SegmentNumber)), FormatFault>
    ensures { Gives (read (shape last) reader.old) result reader.new }
{
    let columns = read_columns(alloc, reader)?;
    let key = read_key(reader, columns.as_slice())?;
    let since = read_u32_in_range(reader, 1, last)?;
    Ok((columns, (key, since)))
}
