// The length of a record of edits.
ghost use Rattle.std.specs.Prelude.{◌≡◌, ◌+◌, ◌*◌, ◌^◌, ◌-◌, [], min, length, None};
ghost use Rattle.std.specs.List.{sum_by};
ghost use Rattle.sasi_formats.specs.Formats as formats;
ghost use Rattle.sasi_manifest.specs.ListedFiles.{file_length};
ghost use Rattle.sasi_manifest.specs.Edits.{columns as columns_format, edit as edit_format, encoded};
ghost use Rattle.sasi_manifest.specs.Abbreviations.{column as column_format};

use crate::{Edit, ListedFile, ListedFiles, NumberList};
use sasi_types::{ColumnType, Columns, Name};

/// The length of the payload of their record, or `u64::MAX` where it is longer.
pub fn edits_size(edits: &[Edit]) -> u64
    ensures { result ≡ min (length (encoded edits.now)) (2 ^ 64 - 1) }
{
    let mut size = 4u64;
    for edit in edits {
        size = size.saturating_add(edit_size(edit));
    }
    size
}

#[tactic(auto, unfolding(crate::specs::Edits::edit, crate::specs::Edits::create_index, crate::specs::Edits::replace))]
fn edit_size(edit: &Edit) -> u64
    ensures { result ≡ min (length (formats.encoded (edit_format None) edit.now)) (2 ^ 64 - 1) }
{
    match edit {
        Edit::Start { .. } => 10,
        Edit::CreateTable { name, columns, .. } => create_size(name, columns),
        Edit::CreateIndex { def, .. } => index_size(&def.name),
        Edit::Replace { removed, added, .. } => replace_size(removed, added),
    }
}

// A tag, two numbers, the length of the name, the name, a column and three bytes.
fn index_size(name: &Name) -> u64
    ensures { result ≡ min (15 + length name.now) (2 ^ 64 - 1) }
{
    (name.bytes().len() as u64).saturating_add(15)
}

// A tag, the number of the table, two counts, the data numbers and the files, and three segments.
fn replace_size(removed: &NumberList, added: &ListedFiles) -> u64
    ensures { result ≡ min (25 + (4 * length removed.now + sum_by file_length added.now)) (2 ^ 64 - 1) }
{
    (removed.as_slice().len() as u64)
        .saturating_mul(4)
        .saturating_add(files_size(added.as_slice()))
        .saturating_add(25)
}

fn files_size(files: &[ListedFile]) -> u64
    ensures { result ≡ min (sum_by file_length files.now) (2 ^ 64 - 1) }
{
    let mut size = 0u64;
    for file in files {
        size = size.saturating_add(file_size(file));
    }
    size
}

// The number of the file and the count of its parts, and 8 bytes for each part.
fn file_size(file: &ListedFile) -> u64
    ensures { result ≡ min (file_length file.now) (2 ^ 64 - 1) }
{
    (file.parts.as_slice().len() as u64)
        .saturating_mul(8)
        .saturating_add(6)
}

fn create_size(name: &Name, columns: &Columns) -> u64
    ensures { result ≡ min (12 + length name.now + length (formats.encoded columns_format columns.now)) (2 ^ 64 - 1) }
{
    columns_size(columns.as_slice())
        .saturating_add(name.bytes().len() as u64)
        .saturating_add(12)
}

fn columns_size(columns: &[(Name, ColumnType)]) -> u64
    ensures { result ≡ min (length (formats.encoded columns_format columns.now)) (2 ^ 64 - 1) }
{
    let mut size = 2u64;
    for column in columns {
        size = size.saturating_add(column_size(column));
    }
    size
}

// A byte for the length of the name, the name, and a byte for the type.
fn column_size(column: &(Name, ColumnType)) -> u64
    ensures { result ≡ min (length (formats.encoded (column_format []) column.now)) (2 ^ 64 - 1) }
{
    (column.0.bytes().len() as u64).saturating_add(2)
}
