// Look-ups in the data files of a table.
ghost use Rattle.std.specs.Prelude.{◌≡◌, ◌+◌, ◌≤◌, ℕ, List, Option, map as map_list, IfOk, IfSome, OnOk};
ghost use Rattle.sasi_types.specs.declared.column.ColumnType.{ColumnType};
ghost use Rattle.sasi_types.specs.declared.partitioner.Partitioner.{Partitioner};
ghost use Rattle.sasi_types.specs.Token.{token_of};
ghost use Rattle.sasi_host.specs.Names.{Folder};
ghost use Rattle.sasi_model.specs.State.{decorated};
ghost use Rattle.sasi_datawrite.specs.Format.{Content};
ghost use Rattle.sasi_manifest.specs.declared.files.ListedFile.{ListedFile};
ghost use Rattle.sasi_memtable.specs.MemtableView.{MemtableView};
ghost use Rattle.sasi_ranges.specs.StreamCalls.{CanStream, HasStreamed, StreamFaults};
ghost use Rattle.sasi_scan.specs.Finding.{file_maps, found_in};
ghost use Rattle.sasi_scan.specs.Parts.{AreContents, IsMergeOfParts};
ghost use Rattle.sasi_lookup.specs.Lookups.{AreDataOf, AreRight, EachHasKeys, FilesOpen, FilesReady, FilesShow, HasKeysOf, IsLookingIn, IsOfSameFiles, IsReady, IsRight, IsTurned, Opens, Shows, unopened_files};
ghost use Rattle.sasi_lookup.specs.Reads.{found_pages, turn_reads};

use crate::LookupFile;
use crate::found::find_in_files;
use sasi_cells::Partition;
use sasi_host::{DataNumber, FileName, Host, PageReader, ReadFault};
use sasi_types::{Key, Token, TypeList};
use std::alloc::{AllocError, Global};
use std::marker::Model;

/// The data files of a table, in which one token after another is looked up. Each is opened at the first token.
#[derive(Drop)]
pub struct Lookup {
    alloc: Global,
    types: TypeList,
    files: Vec<LookupFile>,
}

impl Model for Lookup {
    ghost use Rattle.sasi_lookup.specs.Codes.{coded_lookup};
    ghost use Rattle.sasi_lookup.specs.Lookups.{LookupView};

    ghost Value = { LookupView };

    ghost coded = { coded_lookup };

    ghost view = { λ a. record { types = a.types; files = a.files.items } };
}

// The files of these numbers, before the first token.
fn unopened_files(alloc: Global, numbers: &[DataNumber]) -> Result<Vec<LookupFile>, AllocError>
    ensures { IfOk result (λ files. files.items ≡ unopened_files numbers.now) }
{
    let mut files = Vec::new(alloc);
    for number in numbers {
        files.push(LookupFile::new(alloc, FileName::data(*number)))?;
    }
    Ok(files)
}

// Takes the keys of each file with this token.
fn turn_files<H: Host, P: PageReader>(
    alloc: Global,
    host: &mut H,
    pages: &mut P,
    types: &TypeList,
    files: &mut [LookupFile],
    token: Token,
) -> Result<(), ReadFault>
    requires read { CanStream (P.agrees pages.old) (FilesOpen files.old) (H.view host.old) }
    requires ready { FilesReady types.now (H.view host.old).files files.old }
    ensures names { map_list (λ f. f.name) files.new ≡ map_list (λ f. f.name) files.old }
    ensures data { (partitioner : Partitioner) (contents : List Content) → AreDataOf (H.view host.old).files partitioner types.now files.old contents → AreDataOf (H.view host.new).files partitioner types.now files.new contents }
    ensures keys { (partitioner : Partitioner) (contents : List Content) → AreDataOf (H.view host.old).files partitioner types.now files.old contents → OnOk result (EachHasKeys partitioner token files.new contents) }
    ensures reads { (partitioner : Partitioner) (contents : List Content) → AreDataOf (H.view host.old).files partitioner types.now files.old contents → (H.view host.new).reads ≤ (H.view host.old).reads + turn_reads partitioner token files.old contents }
    ensures ready { FilesReady types.now (H.view host.new).files files.new }
    ensures read { HasStreamed (P.agrees pages.new) (P.covers pages.old) (P.covers pages.new) (FilesOpen files.old) (FilesOpen files.new) (H.view host.old) (H.view host.new) }
    ensures faults { StreamFaults (FilesShow types.now (H.view host.old).files files.old) (FilesShow types.now (H.view host.new).files files.new) (AreRight (H.view host.old).files types.now files.old) (H.view host.old) (H.view host.new) result }
{
    for file in files.iter_mut() {
        file.turn_to(alloc, host, pages, types, token)?;
    }
    Ok(())
}

impl Lookup {
    /// A look-up in the data files of these numbers, the oldest first, of a table whose columns have these types. It reads nothing yet.
    pub fn new(alloc: Global, numbers: &[DataNumber], types: TypeList) -> Result<Lookup, AllocError>
        ensures made { IfOk result (λ lookup. lookup ≡ record { types = types; files = unopened_files numbers.now }) }
        // It looks in the contents that the files have.
        ensures looks { IfOk result (λ lookup. (seen : Option Folder) (partitioner : Partitioner) (files : List ListedFile) (contents : List Content) → numbers.now ≡ map_list (λ file. file.number) files
            → AreContents seen partitioner types files contents → IsLookingIn seen partitioner contents lookup) }
        ensures ready { IfOk result (λ lookup. (seen : Option Folder) → IsReady lookup seen) }
    {
        let files = unopened_files(alloc, numbers)?;
        Ok(Lookup {
            alloc,
            types,
            files,
        })
    }

    /// The data files, each with its keys of the token in hand.
    pub fn files(&self) -> &[LookupFile]
        ensures { result.now ≡ self.now.files }
    {
        &self.files
    }

    /// Takes the keys of each file with this token. Files that aren't open yet are opened.
    pub fn turn_to<H: Host, P: PageReader>(
        &mut self,
        host: &mut H,
        pages: &mut P,
        token: Token,
    ) -> Result<(), ReadFault>
        requires read { CanStream (P.agrees pages.old) (Opens self.old) (H.view host.old) }
        requires ready { IsReady self.old (H.view host.old).files }
        // Each file has then in hand the keys that its content has with the token.
        ensures keys { (partitioner : Partitioner) (contents : List Content) → IsLookingIn (H.view host.old).files partitioner contents self.old → OnOk result (HasKeysOf partitioner token contents self.new) }
        // What is known of the files stays, also where it fails.
        ensures looks { (partitioner : Partitioner) (contents : List Content) → IsLookingIn (H.view host.old).files partitioner contents self.old → IsLookingIn (H.view host.new).files partitioner contents self.new }
        ensures ready { IsReady self.new (H.view host.new).files }
        ensures same { IsOfSameFiles self.old self.new }
        ensures reads { (partitioner : Partitioner) (contents : List Content) → IsLookingIn (H.view host.old).files partitioner contents self.old → (H.view host.new).reads ≤ (H.view host.old).reads + turn_reads partitioner token self.old.files contents }
        ensures read { HasStreamed (P.agrees pages.new) (P.covers pages.old) (P.covers pages.new) (Opens self.old) (Opens self.new) (H.view host.old) (H.view host.new) }
        ensures faults { StreamFaults (Shows self.old (H.view host.old).files) (Shows self.new (H.view host.new).files) (IsRight (H.view host.old).files self.old) (H.view host.old) (H.view host.new) result }
    {
        turn_files(self.alloc, host, pages, &self.types, &mut self.files, token)
    }

    /// What the files have of a key with the token in hand, merged, the oldest first; None where none has it. Of each file that has the
    /// key it reads the partition, and nothing else.
    pub fn find<H: Host, P: PageReader>(
        &self,
        host: &mut H,
        pages: &mut P,
        key: &Key,
    ) -> Result<Option<Partition>, ReadFault>
        requires read { CanStream (P.agrees pages.old) (Opens self.now) (H.view host.old) }
        requires ready { IsReady self.now (H.view host.old).files }
        // It is what the files have of the key.
        ensures found { IfOk result (λ found. (partitioner : Partitioner) (token : ℕ) (contents : List Content) → IsLookingIn (H.view host.old).files partitioner contents self.now → HasKeysOf partitioner token contents self.now
            → token_of partitioner key.now ≡ token → found ≡ found_in (decorated partitioner key.now) None (file_maps partitioner contents)) }
        // In any file it is the merge of what the files have of the key.
        ensures of_parts { (maps : List MemtableView) → IfOk result (λ found. IfSome found (IsMergeOfParts self.now.types maps key.now)) }
        // What is known of the files stays, also where it fails.
        ensures looks { (partitioner : Partitioner) (contents : List Content) → IsLookingIn (H.view host.old).files partitioner contents self.now → IsLookingIn (H.view host.new).files partitioner contents self.now }
        ensures ready { IsReady self.now (H.view host.new).files }
        ensures reads { (partitioner : Partitioner) (token : ℕ) (contents : List Content) → IsLookingIn (H.view host.old).files partitioner contents self.now → HasKeysOf partitioner token contents self.now
            → (H.view host.new).reads ≤ (H.view host.old).reads + found_pages key.now contents }
        ensures read { HasStreamed (P.agrees pages.new) (P.covers pages.old) (P.covers pages.new) (Opens self.now) (Opens self.now) (H.view host.old) (H.view host.new) }
        ensures faults { StreamFaults (Shows self.now (H.view host.old).files) (Shows self.now (H.view host.new).files) (IsTurned (H.view host.old).files self.now) (H.view host.old) (H.view host.new) result }
    {
        find_in_files(self.alloc, host, pages, &self.files, key)
    }
}
