// The files that a listing has, by their names.
ghost use Rattle.std.specs.Prelude.{◌≡◌, ◌+◌, ◌*◌, IfOk, map};
ghost use Rattle.sasi_manifest.specs.FileNames.{largest_part};
ghost use Rattle.sasi_manifest.specs.ListedFiles.{largest_of_files, largest_of_parts};
ghost use Rattle.sasi_manifest.specs.ListedTables.{listed};
ghost use Rattle.sasi_layout.specs.Layout.{largest_data, largest_file};
ghost use Rattle.sasi_recover.specs.OpeningReads.{data_count, ends_reads, index_count};
ghost use Rattle.sasi_recover.specs.SealedFolder.{AreListedFiles};

use sasi_host::{DataNumber, FileName};
use sasi_listing::push_tables;
use sasi_manifest::{ListedFile, ListedTable, Listing, PartNumber};
use std::alloc::{AllocError, Global};

/// The names of all listed data files and index files, in their order.
pub fn sorted_names(alloc: Global, listing: &Listing) -> Result<Vec<FileName>, AllocError>
    ensures listed { IfOk result (λ names. AreListedFiles listing.now names.items) }
    ensures reads { IfOk result (λ names. ends_reads names.items ≡ 2 * data_count listing.now.tables + 3 * index_count listing.now.tables) }
{
    let mut names = Vec::new(alloc);
    push_tables(&mut names, listing.tables.as_slice())?;
    names.sort_unstable();
    Ok(names)
}

/// The largest number of a listed data file; 0 where there is none.
pub fn largest_number(tables: &[ListedTable]) -> DataNumber
    ensures { result ≡ largest_data (map listed tables.now) }
{
    let mut largest = 0;
    for table in tables {
        largest = largest.max(largest_in(table.files.as_slice()));
    }
    largest
}

fn largest_in(files: &[ListedFile]) -> DataNumber
    ensures { result ≡ largest_file files.now }
{
    let mut largest = 0;
    for file in files {
        largest = largest.max(file.number);
    }
    largest
}

/// The largest number of a listed part; 0 where there is none.
pub fn largest_part(tables: &[ListedTable]) -> u32
    ensures { result ≡ largest_part (map listed tables.now) }
{
    let mut largest = 0;
    for table in tables {
        largest = largest.max(largest_of_files(table.files.as_slice()));
    }
    largest
}

fn largest_of_files(files: &[ListedFile]) -> u32
    ensures { result ≡ largest_of_files files.now }
{
    let mut largest = 0;
    for file in files {
        largest = largest.max(largest_of_parts(file.parts.as_slice()));
    }
    largest
}

fn largest_of_parts(parts: &[PartNumber]) -> u32
    ensures { result ≡ largest_of_parts parts.now }
{
    let mut largest = 0;
    for part in parts {
        largest = largest.max(part.part);
    }
    largest
}
