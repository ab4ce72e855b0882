// Files that a record adds, while it is read.
ghost use Rattle.std.specs.Prelude.{◌≡◌, ◌++◌, ◌∷◌, [], IfOk};
ghost use Rattle.sasi_manifest.specs.ListedFiles.{has_file};

use crate::files::{ListedFile, ListedFiles};
use crate::number_set::NumberSet;
use sasi_host::DataNumber;
use std::alloc::{AllocError, Global};
use std::marker::Model;

/// Files in the order in which they came, each of which is found by its number.
#[derive(Drop)]
pub struct NewFiles {
    files: ListedFiles,
    numbers: NumberSet,
}

impl Model for NewFiles {
    ghost use Rattle.std.specs.Prelude.{◌≡◌, List, map};
    ghost use Rattle.sasi_manifest.specs.declared.files.ListedFile.{ListedFile};

    ghost Value = { List ListedFile };

    ghost view = { λ a. a.files };

    ghost invariant = { λ a. a.numbers ≡ map (λ f. f.number) a.files };
}

impl NewFiles {
    /// No files.
    pub fn new(alloc: Global) -> NewFiles
        ensures { result ≡ [] }
    {
        NewFiles {
            files: ListedFiles::new(alloc),
            numbers: NumberSet::new(alloc),
        }
    }

    /// Whether one of them has the number.
    pub fn has(&self, number: DataNumber) -> bool
        ensures { result ≡ has_file self.now number }
    {
        self.numbers.has(number)
    }

    /// With one file more at the end.
    pub fn with(self, file: ListedFile) -> Result<NewFiles, AllocError>
        ensures { IfOk result (λ more. more ≡ self ++ file ∷ []) }
    {
        let NewFiles { mut files, numbers } = self;
        let numbers = numbers.with(file.number)?;
        files.push(file)?;
        Ok(NewFiles { files, numbers })
    }

    /// The files. Allocates nothing.
    pub fn into_files(self) -> ListedFiles
        ensures { result ≡ self }
    {
        self.files
    }
}
