// Lists of data files: which numbers they have, copies, and files in the place of others.
ghost use Rattle.std.specs.Prelude.{◌≡◌, ◌+◌, ◌<◌, ◌≤◌, length, vec_len, vec_capacity, nat_eq, nat_le, slice_get, false, IfOk, OnOk, OnErr};
ghost use Rattle.std.specs.List.{position_or_len};
ghost use Rattle.std.specs.Option.{option_map_or};
ghost use Rattle.sasi_manifest.specs.ListedFiles.{AreInOrder, has_file, with_file, with_files, without};

use crate::files::{ListedFile, PartNumber, PartNumbers};
use crate::number_set::NumberSet;
use sasi_host::DataNumber;
use std::alloc::{AllocError, Global};
use std::collections::VecDeque;

/// Whether one of the files, which are in the order of their numbers, has the number.
pub fn has_file(files: &[ListedFile], number: DataNumber) -> bool
    requires { AreInOrder 0 files.now }
    ensures { result ≡ has_file files.now number }
{
    is_at(files, position_of(files, number), number)
}

// Whether the file at this position has the number.
fn is_at(files: &[ListedFile], at: usize, number: DataNumber) -> bool
    ensures { result ≡ option_map_or (λ f. nat_eq f.number number) (slice_get files.now at) false }
{
    match files.get(at) {
        Some(file) => file.number == number,
        None => false,
    }
}

// A copy of parts.
fn copy_parts(alloc: Global, parts: &[PartNumber]) -> Result<PartNumbers, AllocError>
    ensures { IfOk result (λ copy. copy ≡ parts.now) }
{
    let mut copy = PartNumbers::new(alloc);
    for part in parts {
        copy.push(*part)?;
    }
    Ok(copy)
}

/// A copy of a file.
pub fn copy_file(alloc: Global, file: &ListedFile) -> Result<ListedFile, AllocError>
    ensures { IfOk result (λ copy. copy ≡ file.now) }
{
    let parts = copy_parts(alloc, file.parts.as_slice())?;
    Ok(ListedFile {
        number: file.number,
        parts,
    })
}

/// A copy of files.
pub fn copy_files(alloc: Global, files: &[ListedFile]) -> Result<Vec<ListedFile>, AllocError>
    ensures { IfOk result (λ copy. copy.items ≡ files.now) }
{
    let mut copy = Vec::with_capacity(alloc, files.len())?;
    for file in files {
        copy.push(copy_file(alloc, file)?)?;
    }
    Ok(copy)
}

// The first position of a file whose number isn't lower, or else the end.
fn position_of(files: &[ListedFile], number: DataNumber) -> usize
    requires { AreInOrder 0 files.now }
    ensures place { result ≡ position_or_len (λ f. nat_le number f.number) files.now }
    ensures within { result ≤ length files.now }
{
    files.partition_point(|file| file.number < number)
}

/// Puts files in the place of those of these numbers.
pub fn replace_files(
    files: &mut Vec<ListedFile>,
    removed: &NumberSet,
    added: Vec<ListedFile>,
) -> Result<(), AllocError>
    requires { AreInOrder 0 files.old.items }
    ensures ok { OnOk result (files.new.items ≡ with_files added.items (without removed.now files.old.items)) }
    ensures err { OnErr result (files.new.items ≡ files.old.items) }
{
    files.reserve(added.len())?;
    remove_files(files, removed);
    put_files(files, added);
    Ok(())
}

// Removes the files of these numbers.
fn remove_files(files: &mut Vec<ListedFile>, removed: &NumberSet)
    ensures items { files.new.items ≡ without removed.now files.old.items }
    ensures length { vec_len files.new ≤ vec_len files.old }
    ensures room { vec_capacity files.new ≡ vec_capacity files.old }
{
    if removed.is_empty() {
        return;
    }
    files.retain(|file| !removed.has(file.number));
}

// Inserts files in the order of their numbers. There is room for them.
fn put_files(files: &mut Vec<ListedFile>, added: Vec<ListedFile>)
    requires order { AreInOrder 0 files.old.items }
    requires room { vec_len files.old + vec_len added ≤ vec_capacity files.old }
    ensures { files.new.items ≡ with_files added.items files.old.items }
{
    let mut added = VecDeque::from_vec(added);
    'files: while let Some(file) = added.pop_front() {
        put_file(files, file);
    }
}

// Inserts a file in the order of the numbers. There is room for it.
fn put_file(files: &mut Vec<ListedFile>, file: ListedFile)
    requires order { AreInOrder 0 files.old.items }
    requires room { vec_len files.old < vec_capacity files.old }
    ensures items { files.new.items ≡ with_file file files.old.items }
    ensures order { AreInOrder 0 files.new.items }
    ensures length { vec_len files.new ≡ vec_len files.old + 1 }
    ensures room { vec_capacity files.old ≤ vec_capacity files.new }
{
    let at = position_of(files, file.number);
    let _ = files.insert(at, file);
}
