// The names of listed files, in the order in which they are told.
ghost use Rattle.std.specs.Prelude.{◌≡◌, ◌++◌, IfOk, OnOk, map};
ghost use Rattle.std.specs.List.{flat_map};
ghost use Rattle.sasi_segments.specs.Sorting.{sort};
ghost use Rattle.sasi_manifest.specs.FileNames.{file_names};
ghost use Rattle.sasi_manifest.specs.ListedFiles.{index_name, names_of};
ghost use Rattle.sasi_manifest.specs.ListedTables.{listed};
ghost use Rattle.sasi_layout.specs.FileNames.{names_listed, told_cmp};

use sasi_host::{DataNumber, FileName};
use sasi_manifest::{ListedFile, ListedTable, ListedTables, PartNumber};
use std::alloc::{AllocError, Global};
use std::cmp::Ordering;

/// The names of all data files and index files of these tables, in the order in which SHOW FILES tells them.
pub fn listed_names(alloc: Global, tables: &ListedTables) -> Result<Vec<FileName>, AllocError>
    ensures { IfOk result (λ names. names.items ≡ sort told_cmp (names_listed (map (λ t. t.files) tables.now))) }
{
    let mut names = Vec::new(alloc);
    push_tables(&mut names, tables.as_slice())?;
    sort_names(&mut names);
    Ok(names)
}

/// Sorts names into the order in which SHOW FILES tells them.
pub fn sort_names(names: &mut Vec<FileName>)
    ensures { names.new.items ≡ sort told_cmp names.old.items }
{
    names.sort_unstable_by(|a, b| compare_told(a, b));
}

/// Compares two names by the order in which they are told.
pub fn compare_told(a: &FileName, b: &FileName) -> Ordering
    ensures { result ≡ told_cmp a.now b.now }
{
    let numbers = a.number.cmp(&b.number);
    let kinds = a.kind.rank().cmp(&b.kind.rank());
    let indexes = a.index.cmp(&b.index);
    let parts = a.part.cmp(&b.part);
    numbers.then(kinds.then(indexes.then(parts)))
}

/// Adds the names of the files of these tables, table by table.
pub fn push_tables(names: &mut Vec<FileName>, tables: &[ListedTable]) -> Result<(), AllocError>
    ensures { OnOk result (names.new.items ≡ names.old.items ++ file_names (map listed tables.now)) }
{
    for table in tables {
        push_files(names, table.files.as_slice())?;
    }
    Ok(())
}

// Adds the names of data files and of the index files that go with them.
fn push_files(names: &mut Vec<FileName>, files: &[ListedFile]) -> Result<(), AllocError>
    ensures { OnOk result (names.new.items ≡ names.old.items ++ flat_map names_of files.now) }
{
    for file in files {
        push_file(names, file)?;
    }
    Ok(())
}

/// Adds the name of a data file, and those of the index files that go with it.
pub fn push_file(names: &mut Vec<FileName>, file: &ListedFile) -> Result<(), AllocError>
    ensures { OnOk result (names.new.items ≡ names.old.items ++ names_of file.now) }
{
    names.push(FileName::data(file.number))?;
    push_parts(names, file.number, file.parts.as_slice())
}

/// Adds the names of the index files that go with the data file of this number.
pub fn push_parts(
    names: &mut Vec<FileName>,
    number: DataNumber,
    parts: &[PartNumber],
) -> Result<(), AllocError>
    ensures { OnOk result (names.new.items ≡ names.old.items ++ map (index_name number) parts.now) }
{
    for part in parts {
        names.push(part.file_name(number))?;
    }
    Ok(())
}
