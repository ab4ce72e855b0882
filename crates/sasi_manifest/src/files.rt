// The data files that a manifest lists.
ghost use Rattle.std.specs.Prelude.{◌≡◌, ◌++◌, ◌∷◌, [], OnOk, OnErr};

use crate::file_list::replace_files;
use crate::number_set::NumberSet;
use sasi_formats::Items;
use sasi_host::{DataNumber, FileName, Kind};
use std::alloc::{AllocError, Global};
use std::marker::Model;

/// A part of an index, with the number of the index.
#[derive(Clone, Copy)]
pub struct PartNumber {
    pub index: u32,
    pub part: u32,
}

impl PartNumber {
    ghost use Rattle.sasi_manifest.specs.ListedFiles.{index_name};

    /// The name of the index file that goes with the data file of this number.
    pub fn file_name(self, number: DataNumber) -> FileName
        ensures { result ≡ index_name number self }
    {
        FileName {
            kind: Kind::Index,
            number,
            index: self.index,
            part: self.part,
        }
    }
}

/// Parts of indexes, in the order of the indexes.
pub type PartNumbers = Items<PartNumber>;

/// A data file of a table, and the part of each index that it has.
#[derive(Drop)]
pub struct ListedFile {
    pub number: DataNumber,
    pub parts: PartNumbers,
}

/// Numbers of data files.
pub type NumberList = Items<DataNumber>;

/// Data files of a table.
#[derive(Drop)]
pub struct ListedFiles {
    items: Vec<ListedFile>,
}

impl Model for ListedFiles {
    ghost use Rattle.std.specs.Prelude.{List};
    ghost use Rattle.std.specs.Coded.{coded_list};
    ghost use Rattle.sasi_manifest.specs.declared.files.ListedFile.{ListedFile};
    ghost use Rattle.sasi_manifest.specs.ListedFiles.{coded_file};

    ghost Value = { List ListedFile };

    ghost coded = { coded_list coded_file };

    ghost view = { λ a. a.items.items };
}

impl ListedFiles {
    ghost use Rattle.sasi_manifest.specs.ListedFiles.{AreInOrder, with_files, without};

    /// No files.
    pub fn new(alloc: Global) -> ListedFiles
        ensures { result ≡ [] }
    {
        ListedFiles {
            items: Vec::new(alloc),
        }
    }

    /// The files of a vector. Allocates nothing.
    pub fn from_vec(items: Vec<ListedFile>) -> ListedFiles
        ensures { result ≡ items.items }
    {
        ListedFiles { items }
    }

    /// The files, in order.
    pub fn as_slice(&self) -> &[ListedFile]
        ensures { result.now ≡ self.now }
    {
        &self.items
    }

    /// Adds a file at the end.
    pub fn push(&mut self, file: ListedFile) -> Result<(), AllocError>
        ensures ok { OnOk result (self.new ≡ self.old ++ file ∷ []) }
        ensures err { OnErr result (self.new ≡ self.old) }
    {
        self.items.push(file)?;
        Ok(())
    }

    // Puts files in the place of those of these numbers.
    pub(crate) fn replace(
        &mut self,
        removed: &NumberSet,
        added: Vec<ListedFile>,
    ) -> Result<(), AllocError>
        requires { AreInOrder 0 self.old }
        ensures ok { OnOk result (self.new ≡ with_files added.items (without removed.now self.old)) }
        ensures err { OnErr result (self.new ≡ self.old) }
    {
        replace_files(&mut self.items, removed, added)
    }
}
