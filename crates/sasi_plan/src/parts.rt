// The data files of a view.
ghost use Rattle.std.specs.Prelude.{◌≡◌, ◌++◌, ◌∷◌, [], IfOk, OnOk};
ghost use Rattle.sasi_plan.specs.Reading.{listed_files};

use sasi_manifest::{ListedFile, PartNumber, PartNumbers};
use sasi_views::Part;
use std::alloc::{AllocError, Global};

// A copy of the parts of a file.
fn copy_parts(alloc: Global, parts: &[PartNumber]) -> Result<PartNumbers, AllocError>
    ensures { IfOk result (λ copy. copy ≡ parts.now) }
{
    let mut copy = PartNumbers::new(alloc);
    for part in parts {
        copy.push(*part)?;
    }
    Ok(copy)
}

// Adds a file.
fn add(files: &mut Vec<ListedFile>, file: ListedFile) -> Result<(), AllocError>
    ensures { OnOk result (files.new.items ≡ files.old.items ++ file ∷ []) }
{
    files.push(file)?;
    Ok(())
}

/// The data files, as a manifest lists them.
pub(crate) fn listed_files(alloc: Global, listed: &[Part]) -> Result<Vec<ListedFile>, AllocError>
    ensures { IfOk result (λ files. files.items ≡ listed_files listed.now) }
{
    let mut files = Vec::new(alloc);
    for part in listed {
        if let Part::File { number, indexes } = part {
            let number = *number;
            let parts = copy_parts(alloc, indexes.as_slice())?;
            add(&mut files, ListedFile { number, parts })?;
        }
    }
    Ok(files)
}
