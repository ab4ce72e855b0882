// Replacements of files in a record.
ghost use Rattle.std.specs.Prelude.{◌≡◌};
ghost use Rattle.sasi_formats.specs.Reader.{read};
ghost use Rattle.sasi_formats.specs.Gives.{Gives};
ghost use Rattle.sasi_manifest.specs.Edits.{is_last, last_segment, live_segments, new_segments, replace, replacing};

use crate::listed::ListedTables;
use crate::read_files::read_files;
use crate::{Edit, ListedFiles, NumberList};
use sasi_fields::FieldReader;
use sasi_formats::{FieldStart, FormatFault, read_u32_in_range};
use sasi_host::{FormatRule, SegmentNumber};
use sasi_types::TableNumber;
use std::alloc::Global;

/// Reads the fields of a replacement of files of a listed table.
#[tactic(auto, unfolding(crate::specs::Edits::replace))]
pub fn read_replace(
    alloc: Global,
    reader: &mut FieldReader,
    tables: &ListedTables,
) -> Result<Edit, FormatFault>
    ensures { Gives (read (replace tables.now) reader.old) result reader.new }
{
    let table = read_u32_in_range(reader, 1, tables.len() as u32)?;
    let ((removed, added), (since, (floor, last))) = read_rest(alloc, reader, tables, table)?;
    Ok(Edit::Replace {
        table,
        removed,
        added,
        since,
        floor,
        last,
    })
}

// The files that go and those that come, and the first segment of the table and the live ones.
type Rest = (
    (NumberList, ListedFiles),
    (SegmentNumber, (SegmentNumber, SegmentNumber)),
);

// Reads what follows the number of the table.
fn read_rest(
    alloc: Global,
    reader: &mut FieldReader,
    tables: &ListedTables,
    table: TableNumber,
) -> Result<Rest, FormatFault>
    ensures { Gives (read (replacing tables.now table) reader.old) result reader.new }
{
    let files = read_files(alloc, reader, tables, table)?;
    let segments = read_segments(reader, tables, table)?;
    Ok((files, segments))
}

// Reads the first segment of the table, and the live ones.
fn read_segments(
    reader: &mut FieldReader,
    tables: &ListedTables,
    table: TableNumber,
) -> Result<(SegmentNumber, (SegmentNumber, SegmentNumber)), FormatFault>
    ensures { Gives (read (new_segments tables.now table) reader.old) result reader.new }
{
    let start = FieldStart::of(reader);
    let since = read_u32_in_range(reader, 1, u32::MAX)?;
    let (floor, last) = read_live(reader, tables, table, since)?;
    if last < since {
        return Err(start.broken(FormatRule::Number, 4));
    }
    Ok((since, (floor, last)))
}

// Reads the first and the last live segment.
fn read_live(
    reader: &mut FieldReader,
    tables: &ListedTables,
    table: TableNumber,
    since: SegmentNumber,
) -> Result<(SegmentNumber, SegmentNumber), FormatFault>
    ensures { Gives (read (live_segments tables.now table since) reader.old) result reader.new }
{
    let start = FieldStart::of(reader);
    let floor = read_u32_in_range(reader, 1, u32::MAX)?;
    let last = read_last(reader, tables, table, since, floor)?;
    if since <= last && last < floor {
        return Err(start.broken(FormatRule::Number, 4));
    }
    Ok((floor, last))
}

// Reads the last live segment.
fn read_last(
    reader: &mut FieldReader,
    tables: &ListedTables,
    table: TableNumber,
    since: SegmentNumber,
    floor: SegmentNumber,
) -> Result<SegmentNumber, FormatFault>
    ensures { Gives (read (last_segment tables.now table since floor) reader.old) result reader.new }
{
    let start = FieldStart::of(reader);
    let last = read_u32_in_range(reader, 1, u32::MAX)?;
    if !is_last(tables, table, since, floor, last) {
        return Err(start.broken(FormatRule::Number, 4));
    }
    Ok(last)
}

// Whether no other table begins after the segment. One before the table's first segment or the first live one passes: the segment that
// it is before is reported instead.
fn is_last(
    tables: &ListedTables,
    table: TableNumber,
    since: SegmentNumber,
    floor: SegmentNumber,
    last: SegmentNumber,
) -> bool
    ensures { result ≡ is_last tables.now table since floor last }
{
    last < since || last < floor || tables.are_within(table, last)
}
