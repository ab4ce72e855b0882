// The parts of views.
ghost use Rattle.std.specs.Prelude.{◌≡◌, ◌++◌, ◌<◌, ◌≤◌, IfOk, OnOk, length, map};
ghost use Rattle.sasi_tables.specs.ViewParts.{aside_parts, current_parts, file_part};
ghost use Rattle.sasi_views.specs.declared.part.Part.TheVariants.{Map};

use crate::parts::Parts;
use sasi_manifest::{ListedFile, PartNumber, PartNumbers};
use sasi_types::TableNumber;
use sasi_views::{Part, PartList};
use std::alloc::{AllocError, Global};

/// The current parts of a table, as a view lists them: its data files with their index files, rising by number, its frozen maps, the
/// oldest first, and its memtable.
pub fn view_parts(alloc: Global, parts: &Parts, table: TableNumber) -> Result<PartList, AllocError>
    requires some { 0 < table }
    requires within { table ≤ length parts.now.tables.items }
    ensures { IfOk result (λ listed. listed ≡ current_parts parts.now table) }
{
    let mut listed = aside_parts(alloc, parts, table)?;
    listed.push(Part::Map(parts.tables[table as usize - 1].memtable))?;
    Ok(listed)
}

/// The same without the memtable: what doesn't change any more. A cursor's view lists them.
pub fn aside_parts(alloc: Global, parts: &Parts, table: TableNumber) -> Result<PartList, AllocError>
    requires some { 0 < table }
    requires within { table ≤ length parts.now.tables.items }
    ensures { IfOk result (λ listed. listed ≡ aside_parts parts.now table) }
{
    let mut listed = file_parts(alloc, parts.manifest.listing().tables.files_of(table))?;
    list_maps(
        &mut listed,
        parts.tables[table as usize - 1].frozen.as_slice(),
    )?;
    Ok(listed)
}

// Adds the maps with these numbers.
fn list_maps(listed: &mut PartList, numbers: &[u64]) -> Result<(), AllocError>
    ensures { OnOk result (listed.new ≡ listed.old ++ map (λ number. Map number) numbers.now) }
{
    for number in numbers {
        listed.push(Part::Map(*number))?;
    }
    Ok(())
}

// Data files as parts.
fn file_parts(alloc: Global, files: &[ListedFile]) -> Result<PartList, AllocError>
    ensures { IfOk result (λ listed. listed ≡ map file_part files.now) }
{
    let mut listed = PartList::new(alloc);
    for file in files {
        listed.push(part_of(alloc, file)?)?;
    }
    Ok(listed)
}

// A data file as a part, with the index files that go with it.
fn part_of(alloc: Global, file: &ListedFile) -> Result<Part, AllocError>
    ensures { IfOk result (λ part. part ≡ file_part file.now) }
{
    let indexes = copy_indexes(alloc, file.parts.as_slice())?;
    Ok(Part::File {
        number: file.number,
        indexes,
    })
}

// A copy of parts of indexes.
fn copy_indexes(alloc: Global, indexes: &[PartNumber]) -> Result<PartNumbers, AllocError>
    ensures { IfOk result (λ copy. copy ≡ indexes.now) }
{
    let mut copy = PartNumbers::new(alloc);
    for index in indexes {
        copy.push(*index)?;
    }
    Ok(copy)
}
