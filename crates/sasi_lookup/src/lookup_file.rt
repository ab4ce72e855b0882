// A data file in which tokens are looked up.
ghost use Rattle.std.specs.Prelude.{◌≡◌, ◌+◌, ◌≤◌, ℕ, List, length, IfOk, IfSome, OnOk};
ghost use Rattle.std.specs.FinMap as map_;
ghost use Rattle.sasi_types.specs.declared.column.ColumnType.{ColumnType};
ghost use Rattle.sasi_types.specs.declared.partitioner.Partitioner.{Partitioner};
ghost use Rattle.sasi_types.specs.DecoratedKey.{decorated_cmp};
ghost use Rattle.sasi_types.specs.Token.{token_of};
ghost use Rattle.sasi_host.specs.PageReading.{CanRead, HasRead};
ghost use Rattle.sasi_model.specs.State.{decorated};
ghost use Rattle.sasi_model.specs.Stored.{IsBodyOf};
ghost use Rattle.sasi_datawrite.specs.Format.{Content, header};
ghost use Rattle.sasi_ranges.specs.StreamCalls.{StreamFaults};
ghost use Rattle.sasi_scan.specs.Parts.{entries_of};
ghost use Rattle.sasi_lookup.specs.Files.{FileShows, HasTokenKeys, IsDataOf, IsFileReady, IsNamed, IsTurnedFile, unopened};
ghost use Rattle.sasi_lookup.specs.Reads.{key_pages, keys_reads, opening_reads};

use crate::found::partition_of;
use crate::opening::read_keys;
use sasi_cells::Partition;
use sasi_dataread::{DataFile, PlacedKey};
use sasi_host::{FileName, Host, PageReader, ReadFault};
use sasi_types::{Key, Token, TypeList};
use std::alloc::Global;
use std::marker::Model;

/// A data file in which tokens are looked up, with its keys of the token in hand.
#[derive(Drop)]
pub struct LookupFile {
    name: FileName,
    opened: Option<DataFile>,
    keys: Vec<PlacedKey>,
}

impl Model for LookupFile {
    ghost use Rattle.sasi_lookup.specs.Codes.{coded_file};
    ghost use Rattle.sasi_lookup.specs.Files.{LookedFile};

    ghost Value = { LookedFile };

    ghost coded = { coded_file };

    ghost view = { λ a. record { name = a.name; opened = a.opened; keys = a.keys.items } };
}

impl LookupFile {
    // The file, before its first token.
    pub(crate) fn new(alloc: Global, name: FileName) -> LookupFile
        ensures { result ≡ unopened name }
    {
        LookupFile {
            name,
            opened: None,
            keys: Vec::new(alloc),
        }
    }

    /// The keys with the token in hand, by their bytes, each with the offset of its partition.
    pub fn keys(&self) -> &[PlacedKey]
        ensures { result.now ≡ self.now.keys }
    {
        &self.keys
    }

    // Takes the keys with this token. The file is opened at the first one.
    pub(crate) fn turn_to<H: Host, P: PageReader>(
        &mut self,
        alloc: Global,
        host: &mut H,
        pages: &mut P,
        types: &TypeList,
        token: Token,
    ) -> Result<(), ReadFault>
        requires read { CanRead (P.agrees pages.old) (H.view host.old) self.old.name }
        requires ready { IsFileReady types.now self.old (H.view host.old).files }
        ensures named { self.new.name ≡ self.old.name }
        ensures ready { IsFileReady types.now self.new (H.view host.new).files }
        ensures data { (partitioner : Partitioner) (content : Content) → IsDataOf (H.view host.old).files partitioner types.now self.old.name self.old.opened content
            → IsDataOf (H.view host.new).files partitioner types.now self.new.name self.new.opened content }
        ensures keys { (partitioner : Partitioner) (content : Content) → IsDataOf (H.view host.old).files partitioner types.now self.old.name self.old.opened content → OnOk result (HasTokenKeys partitioner token self.new content) }
        ensures reads { (partitioner : Partitioner) (content : Content) → IsDataOf (H.view host.old).files partitioner types.now self.old.name self.old.opened content
            → (H.view host.new).reads ≤ (H.view host.old).reads + (opening_reads self.old.opened + keys_reads partitioner token content) }
        ensures read { HasRead (P.agrees pages.new) (P.covers pages.old) (P.covers pages.new) (H.view host.old) (H.view host.new) self.old.name }
        ensures faults { StreamFaults (FileShows types.now self.old.name (H.view host.old).files) (FileShows types.now self.old.name (H.view host.new).files)
            (λ (has : Partitioner × Content). IsDataOf (H.view host.old).files has.0 types.now self.old.name self.old.opened has.1) (H.view host.old) (H.view host.new) result }
    {
        let was = self.opened.take();
        let (now, keys) = read_keys(alloc, host, pages, self.name, types, was, token)?;
        self.opened = Some(now);
        self.keys = keys;
        Ok(())
    }

    // What the file has of a key with the token in hand.
    pub(crate) fn find<H: Host, P: PageReader>(
        &self,
        alloc: Global,
        host: &mut H,
        pages: &mut P,
        key: &Key,
    ) -> Result<Option<Partition>, ReadFault>
        requires read { CanRead (P.agrees pages.old) (H.view host.old) self.now.name }
        requires named { IsNamed self.now }
        ensures found { IfOk result (λ found. (partitioner : Partitioner) (token : ℕ) (types : List ColumnType) (content : Content) → IsFileReady types self.now (H.view host.old).files
            → IsTurnedFile (H.view host.old).files types self.now (partitioner, (token, content)) → token_of partitioner key.now ≡ token → found ≡ map_.get (map_.from_entries {R = decorated_cmp} (entries_of partitioner content)) (decorated partitioner key.now)) }
        ensures stored { (types : List ColumnType) → IsFileReady types self.now (H.view host.old).files → IfOk result (λ found. IfSome found (IsBodyOf types key.now)) }
        ensures reads { (partitioner : Partitioner) (token : ℕ) (types : List ColumnType) (content : Content) → IsFileReady types self.now (H.view host.old).files
            → IsTurnedFile (H.view host.old).files types self.now (partitioner, (token, content)) → (H.view host.new).reads ≤ (H.view host.old).reads + key_pages key.now (length header) content }
        ensures read { HasRead (P.agrees pages.new) (P.covers pages.old) (P.covers pages.new) (H.view host.old) (H.view host.new) self.now.name }
        ensures faults { (types : List ColumnType) → IsFileReady types self.now (H.view host.old).files
            → StreamFaults (FileShows types self.now.name (H.view host.old).files) (FileShows types self.now.name (H.view host.new).files) (IsTurnedFile (H.view host.old).files types self.now) (H.view host.old) (H.view host.new) result }
    {
        match &self.opened {
            Some(opened) => partition_of(alloc, host, pages, opened, &self.keys, key),
            None => Ok(None),
        }
    }
}
