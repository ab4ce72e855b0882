// The record that lists the output of a compaction.
ghost use Rattle.std.specs.Prelude.{◌≡◌, ◌+◌, ◌*◌, ◌-◌, ◌^◌, ◌∷◌, [], min, IfOk};
ghost use Rattle.sasi_manifest.specs.declared.edit.Edit.TheVariants.{Replace};
ghost use Rattle.sasi_compact.specs.Listing.{since_of as since_in};

use sasi_host::{DataNumber, SegmentNumber};
use sasi_manifest::{
    Edit, EditList, ListedFile, ListedFiles, ListedTables, Listing, NumberList, PartNumber,
    PartNumbers,
};
use sasi_types::TableNumber;
use std::alloc::{AllocError, Global};

/// The edit that puts a data file with index files of these parts in the place of the sources, in a table of the listing.
pub fn edits_of(
    alloc: Global,
    listing: &Listing,
    table: TableNumber,
    sources: NumberList,
    output: ListedFile,
) -> Result<EditList, AllocError>
    ensures { IfOk result (λ edits. edits ≡ Replace table sources (output ∷ []) (since_in listing.now.tables table) listing.now.floor listing.now.last ∷ []) }
{
    let mut added = ListedFiles::new(alloc);
    added.push(output)?;
    let mut edits = EditList::new(alloc);
    edits.push(Edit::Replace {
        table,
        removed: sources,
        added,
        since: since_of(&listing.tables, table),
        floor: listing.floor,
        last: listing.last,
    })?;
    Ok(edits)
}

// The first segment of the log that can have mutations of a table. Segments are numbered from 1.
fn since_of(tables: &ListedTables, table: TableNumber) -> SegmentNumber
    ensures { result ≡ since_in tables.now table }
{
    let index = (table as usize).saturating_sub(1);
    match tables.as_slice().get(index) {
        Some(listed) => listed.since.max(1),
        None => 1,
    }
}

/// A data file with copies of these parts.
pub fn file_with(
    alloc: Global,
    number: DataNumber,
    parts: &[PartNumber],
) -> Result<ListedFile, AllocError>
    ensures { IfOk result (λ file. file ≡ record { number = number; parts = parts.now }) }
{
    let mut copy = PartNumbers::new(alloc);
    for part in parts {
        copy.push(*part)?;
    }
    Ok(ListedFile {
        number,
        parts: copy,
    })
}

/// The length of the payload of the record, with so many sources and parts.
pub fn length_of(sources: usize, parts: usize) -> u64
    ensures { result ≡ min (35 + (4 * sources + 8 * parts)) (2 ^ 64 - 1) }
{
    (sources as u64)
        .saturating_mul(4)
        .saturating_add((parts as u64).saturating_mul(8))
        .saturating_add(35)
}
