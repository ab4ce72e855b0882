// The files of a replacement in a record.
ghost use Rattle.std.specs.Prelude.{◌≡◌, []};
ghost use Rattle.sasi_formats.specs.Reader.{read, read_items as items_of};
ghost use Rattle.sasi_formats.specs.Gives.{Gives};
ghost use Rattle.sasi_manifest.specs.Edits.{files, files_of, is_current, is_new, is_taken, new_file_format, new_files, new_number, numbers_at, parts, removed_number, removed_numbers};

use crate::files::{ListedFile, ListedFiles, NumberList, PartNumbers};
use crate::listed::ListedTables;
use crate::new_files::NewFiles;
use crate::number_set::NumberSet;
use crate::read_part::ReadPart;
use sasi_fields::FieldReader;
use sasi_formats::{FieldStart, FormatFault, read_items, read_u16, read_u32, read_u32_in_range};
use sasi_host::{DataNumber, FormatRule};
use sasi_types::TableNumber;
use std::alloc::Global;

/// Reads the numbers of files of a table that go, and the files that come.
pub fn read_files(
    alloc: Global,
    reader: &mut FieldReader,
    tables: &ListedTables,
    table: TableNumber,
) -> Result<(NumberList, ListedFiles), FormatFault>
    ensures { Gives (read (files tables.now table) reader.old) result reader.new }
{
    let removed = read_removed(alloc, reader, tables, table)?;
    let added = read_added(alloc, reader, tables, table, &removed)?;
    Ok((removed.into_list(), added.into_files()))
}

// Reads numbers of files of a table.
fn read_removed(
    alloc: Global,
    reader: &mut FieldReader,
    tables: &ListedTables,
    table: TableNumber,
) -> Result<NumberSet, FormatFault>
    ensures { Gives (read (removed_numbers (files_of tables.now table)) reader.old) result reader.new }
{
    let count = read_u32(reader)?;
    read_each_removed(alloc, reader, tables, table, count)
}

// Reads so many numbers of files of a table.
fn read_each_removed(
    alloc: Global,
    reader: &mut FieldReader,
    tables: &ListedTables,
    table: TableNumber,
    count: u32,
) -> Result<NumberSet, FormatFault>
    ensures { Gives (items_of (λ before. read (removed_number (files_of tables.now table) before)) count [] reader.old) result reader.new }
{
    let mut removed = NumberSet::new(alloc);
    for _turn in 0..count {
        let next = read_removed_number(reader, tables, table, &removed)?;
        removed = removed.with(next)?;
    }
    Ok(removed)
}

// Reads the number of a file of a table that isn't among those before.
fn read_removed_number(
    reader: &mut FieldReader,
    tables: &ListedTables,
    table: TableNumber,
    before: &NumberSet,
) -> Result<DataNumber, FormatFault>
    ensures { Gives (read (removed_number (files_of tables.now table) before.now) reader.old) result reader.new }
{
    let start = FieldStart::of(reader);
    let number = read_u32(reader)?;
    if !is_current(tables, table, before, number) {
        return Err(start.broken(FormatRule::Number, 4));
    }
    Ok(number)
}

// Whether a file of the table has the number, and it isn't removed.
fn is_current(
    tables: &ListedTables,
    table: TableNumber,
    removed: &NumberSet,
    number: DataNumber,
) -> bool
    ensures { result ≡ is_current (files_of tables.now table) removed.now number }
{
    tables.has_file_of(table, number) && !removed.has(number)
}

// Reads files whose numbers are new once others are removed.
fn read_added(
    alloc: Global,
    reader: &mut FieldReader,
    tables: &ListedTables,
    table: TableNumber,
    removed: &NumberSet,
) -> Result<NewFiles, FormatFault>
    ensures { Gives (read (new_files tables.now table removed.now) reader.old) result reader.new }
{
    let count = read_u32(reader)?;
    read_each_added(alloc, reader, tables, table, removed, count)
}

// Reads so many files whose numbers are new.
fn read_each_added(
    alloc: Global,
    reader: &mut FieldReader,
    tables: &ListedTables,
    table: TableNumber,
    removed: &NumberSet,
    count: u32,
) -> Result<NewFiles, FormatFault>
    ensures { Gives (items_of (λ before. read (new_file_format tables.now table removed.now before)) count [] reader.old) result reader.new }
{
    let mut added = NewFiles::new(alloc);
    for _turn in 0..count {
        let next = read_file(alloc, reader, tables, table, removed, &added)?;
        added = added.with(next)?;
    }
    Ok(added)
}

// Reads a file whose number is new once others are removed.
fn read_file(
    alloc: Global,
    reader: &mut FieldReader,
    tables: &ListedTables,
    table: TableNumber,
    removed: &NumberSet,
    before: &NewFiles,
) -> Result<ListedFile, FormatFault>
    ensures { Gives (read (new_file_format tables.now table removed.now before.now) reader.old) result reader.new }
{
    let number = read_number(reader, tables, removed, before)?;
    let parts = read_parts(alloc, reader, tables, table)?;
    Ok(ListedFile { number, parts })
}

// Reads a number that is new.
fn read_number(
    reader: &mut FieldReader,
    tables: &ListedTables,
    removed: &NumberSet,
    before: &NewFiles,
) -> Result<DataNumber, FormatFault>
    ensures { Gives (read (new_number tables.now removed.now before.now) reader.old) result reader.new }
{
    let start = FieldStart::of(reader);
    let number = read_u32_in_range(reader, 1, u32::MAX)?;
    if !is_new(tables, removed, before, number) {
        return Err(start.broken(FormatRule::Number, 4));
    }
    Ok(number)
}

// Whether no file that stays has the number, and none that was added before.
fn is_new(tables: &ListedTables, removed: &NumberSet, before: &NewFiles, number: DataNumber) -> bool
    ensures { result ≡ is_new tables.now removed.now before.now number }
{
    !is_taken(tables, removed, number) && !before.has(number)
}

// Whether a file that stays has the number.
fn is_taken(tables: &ListedTables, removed: &NumberSet, number: DataNumber) -> bool
    ensures { result ≡ is_taken tables.now removed.now number }
{
    tables.has_file(number) && !removed.has(number)
}

// Reads the number of parts, and each of them.
fn read_parts(
    alloc: Global,
    reader: &mut FieldReader,
    tables: &ListedTables,
    table: TableNumber,
) -> Result<PartNumbers, FormatFault>
    ensures { Gives (read (parts (numbers_at tables.now table)) reader.old) result reader.new }
{
    let count = read_u16(reader)?;
    let part = ReadPart { tables, table };
    read_items(alloc, reader, usize::from(count), &part)
}
