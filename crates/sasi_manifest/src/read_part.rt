// A part of an index that an added file has.
ghost use Rattle.std.specs.Prelude.{◌≡◌};
ghost use Rattle.sasi_formats.specs.Reader.{read};
ghost use Rattle.sasi_formats.specs.Gives.{Gives};
ghost use Rattle.sasi_manifest.specs.Edits.{index_part, is_above, numbers_at, part, part_index};

use crate::files::PartNumber;
use crate::listed::ListedTables;
use sasi_fields::FieldReader;
use sasi_formats::{FieldStart, FormatFault, ReadItem, read_u32, read_u32_in_range};
use sasi_host::FormatRule;
use sasi_types::{IndexNumber, TableNumber};
use std::alloc::Global;

/// Reads parts of the indexes of a table, each behind the one before.
#[derive(Drop)]
pub struct ReadPart<'a> {
    pub tables: &'a ListedTables,
    pub table: TableNumber,
}

impl<'a> ReadItem<PartNumber> for ReadPart<'a> {
    ghost format = { λ r before. part (numbers_at r.tables.now r.table) before };

    fn read(
        &self,
        _alloc: Global,
        before: &[PartNumber],
        reader: &mut FieldReader,
    ) -> Result<PartNumber, FormatFault> {
        read_part(reader, self.tables, self.table, before)
    }
}

// Reads the next part after those before.
fn read_part(
    reader: &mut FieldReader,
    tables: &ListedTables,
    table: TableNumber,
    before: &[PartNumber],
) -> Result<PartNumber, FormatFault>
    ensures { Gives (read (part (numbers_at tables.now table) before.now) reader.old) result reader.new }
{
    let start = FieldStart::of(reader);
    let part = read_fields(reader, tables, table)?;
    if !is_above(before, part.index) {
        return Err(start.broken(FormatRule::Order, 8));
    }
    Ok(part)
}

// Reads the number of an index of the table, and that of its part.
fn read_fields(
    reader: &mut FieldReader,
    tables: &ListedTables,
    table: TableNumber,
) -> Result<PartNumber, FormatFault>
    ensures { Gives (read (index_part (numbers_at tables.now table)) reader.old) result reader.new }
{
    let index = read_index(reader, tables, table)?;
    let part = read_u32_in_range(reader, 1, u32::MAX)?;
    Ok(PartNumber { index, part })
}

// Reads the number of an index of the table.
fn read_index(
    reader: &mut FieldReader,
    tables: &ListedTables,
    table: TableNumber,
) -> Result<IndexNumber, FormatFault>
    ensures { Gives (read (part_index (numbers_at tables.now table)) reader.old) result reader.new }
{
    let start = FieldStart::of(reader);
    let index = read_u32(reader)?;
    if !tables.has_index_of(table, index) {
        return Err(start.broken(FormatRule::Number, 4));
    }
    Ok(index)
}

// Whether the number is above that of the index of the last of these parts.
fn is_above(before: &[PartNumber], index: IndexNumber) -> bool
    ensures { result ≡ is_above before.now index }
{
    match before.last() {
        None => true,
        Some(last) => last.index < index,
    }
}
