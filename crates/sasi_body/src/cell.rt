// One cell of a body, with its column.
ghost use Rattle.std.specs.Prelude.{◌≡◌, ◌<◌, ◌^◌, ◌+◌};
ghost use Rattle.sasi_formats.specs.Reader.{read};
ghost use Rattle.sasi_formats.specs.Fields.{last};
ghost use Rattle.sasi_formats.specs.Gives.{Gives};
ghost use Rattle.sasi_body.specs.Body.{cell, column_after, is_next, time};

use crate::part::MAX_TIME;
use crate::value::read_value;
use sasi_cells::Entry;
use sasi_fields::FieldReader;
use sasi_formats::{FieldStart, FormatFault, ReadItem, read_u16, read_u64};
use sasi_host::FormatRule;
use sasi_types::{Cell, ColumnType};
use std::alloc::Global;

/// Reads cells of a table whose columns have these types, above a deletion.
#[derive(Drop)]
pub struct ReadCell<'a> {
    pub types: &'a [ColumnType],
    pub deleted: u64,
}

impl<'a> ReadItem<Entry> for ReadCell<'a> {
    ghost format = { λ c before. cell c.types.now c.deleted before };

    fn read(
        &self,
        alloc: Global,
        before: &[Entry],
        reader: &mut FieldReader,
    ) -> Result<Entry, FormatFault> {
        read_cell(alloc, reader, self.types, self.deleted, before)
    }
}

// Reads the next cell after those before.
fn read_cell(
    alloc: Global,
    reader: &mut FieldReader,
    types: &[ColumnType],
    deleted: u64,
    before: &[Entry],
) -> Result<Entry, FormatFault>
    ensures { Gives (read (cell types.now deleted before.now) reader.old) result reader.new }
{
    let column = read_column(reader, types, before)?;
    let time = read_time(reader, deleted)?;
    let value = read_value(alloc, reader, types, column)?;
    Ok(Entry::new(column, Cell { time, value }))
}

// Reads the timestamp of a cell, which is above that of the deletion.
fn read_time(reader: &mut FieldReader, deleted: u64) -> Result<u64, FormatFault>
    ensures { Gives (read (time deleted) reader.old) result reader.new }
{
    let start = FieldStart::of(reader);
    let time = read_u64(reader)?;
    if time <= deleted || time > MAX_TIME {
        return Err(start.broken(FormatRule::Number, 8));
    }
    Ok(time)
}

// Reads a column's number, which is in the list and above the last one.
fn read_column(
    reader: &mut FieldReader,
    types: &[ColumnType],
    before: &[Entry],
) -> Result<u16, FormatFault>
    ensures { Gives (read (column_after types.now before.now) reader.old) result reader.new }
{
    let start = FieldStart::of(reader);
    let column = read_u16(reader)?;
    if usize::from(column) >= types.len() {
        return Err(start.broken(FormatRule::Number, 2));
    }
    if !is_next(before, column) {
        return Err(start.broken(FormatRule::Order, 8));
    }
    Ok(column)
}

// Whether the column comes after the last of these.
fn is_next(before: &[Entry], column: u16) -> bool
    ensures { result ≡ is_next (last before.now) column }
{
    match before.last() {
        None => true,
        Some(last) => last.column() < column,
    }
}
