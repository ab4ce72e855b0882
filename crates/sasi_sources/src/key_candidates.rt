// The candidate of a relation on the key.
ghost use Rattle.std.specs.Prelude.{◌≡◌, ◌+◌, ◌≤◌, List, ℕ, IfErr, IfOk, Option, Some};
ghost use Rattle.std.specs.FinMap as map_;
ghost use Rattle.std.specs.List.{AllByRecursion};
ghost use Rattle.std.specs.Option.{option_map};
ghost use Rattle.sasi_types.specs.declared.column.ColumnType.{ColumnType};
ghost use Rattle.sasi_types.specs.declared.partitioner.Partitioner.{Partitioner};
ghost use Rattle.sasi_host.specs.declared.damage.Damage.{Damage};
ghost use Rattle.sasi_host.specs.declared.name.FileName.{FileName};
ghost use Rattle.sasi_host.specs.Damages.{OnDamage};
ghost use Rattle.sasi_host.specs.Disk.{Changes, Same};
ghost use Rattle.sasi_host.specs.Names.{Folder, data_name};
ghost use Rattle.sasi_host.specs.View.{IsThere};
ghost use Rattle.sasi_memindex.specs.Book.{Book};
ghost use Rattle.sasi_datawrite.specs.Format.{Content};
ghost use Rattle.sasi_manifest.specs.declared.files.ListedFile.{ListedFile as AListedFile};
ghost use Rattle.sasi_scan.specs.Finding.{key_reads};
ghost use Rattle.sasi_scan.specs.Numbered.{views_numbered};
ghost use Rattle.sasi_scan.specs.Parts.{ShowsListed, merged_parts};
ghost use Rattle.sasi_scan.specs.Scanning.{ScanCauses};
ghost use Rattle.sasi_recheck.specs.Sources.{GivesPrintable, first_price};
ghost use Rattle.sasi_sources.specs.KeyCandidates.{HasKeyType, IsKeyOf, IsListed, found_of};
ghost use Rattle.sasi_sources.specs.Maps.{IsOneOf};

use sasi_cells::Partition;
use sasi_host::{Host, PageReader, ReadFault};
use sasi_manifest::ListedFile;
use sasi_memindex::MapBook;
use sasi_recheck::Candidates;
use sasi_scan::{Maps, find_key};
use sasi_types::{DecoratedKey, Key, TypeList};
use std::alloc::Global;

/// The candidate of a WHERE with a relation on the key, and none on an indexed column: the key, where some part of the table has it.
#[derive(Drop)]
pub struct KeyCandidates {
    alloc: Global,
    types: TypeList,
    files: Vec<ListedFile>,
    maps: Vec<u64>,
    // None once it was looked up.
    key: Option<DecoratedKey>,
}

impl KeyCandidates {
    /// This key, in the listed data files of a table with these types, and in the maps with these numbers, which come behind the
    /// files, the oldest first. It reads nothing yet.
    pub fn new(
        alloc: Global,
        types: TypeList,
        files: Vec<ListedFile>,
        maps: Vec<u64>,
        key: DecoratedKey,
    ) -> KeyCandidates
        ensures leaves { (seen : Option Folder) (book : Book) (partitioner : Partitioner) (contents : List Content) → IsKeyOf seen types files.items key partitioner contents
            → ⟦<KeyCandidates as Candidates>⟧.leaves result seen book (found_of key (map_.get (merged_parts partitioner contents (views_numbered book maps.items)) key)) }
        // It takes the reads of one look-up.
        ensures pays { (seen : Option Folder) (book : Book) (partitioner : Partitioner) (contents : List Content) (most : ℕ) (prices : List ℕ) → IsKeyOf seen types files.items key partitioner contents
            → key_reads partitioner key.key contents ≤ most + first_price prices → ⟦<KeyCandidates as Candidates>⟧.pays result seen book most prices }
        ensures ready { (seen : Option Folder) (book : Book) → ⟦<KeyCandidates as Candidates>⟧.ready result seen book }
        ensures prints { (seen : Option Folder) (book : Book) (kind : ColumnType) → HasKeyType types (views_numbered book maps.items) kind → ⟦<KeyCandidates as Candidates>⟧.prints result seen book kind }
        // It reads these files and these maps alone.
        ensures opens { (name : FileName) → ⟦<KeyCandidates as Candidates>⟧.opens result name → IsListed files.items name }
        ensures uses { (number : ℕ) → ⟦<KeyCandidates as Candidates>⟧.uses result number → IsOneOf maps.items number }
        ensures shows { (seen : Option Folder) (damage : Damage) → ⟦<KeyCandidates as Candidates>⟧.shows result seen damage → ShowsListed seen files.items types damage }
    {
        KeyCandidates {
            alloc,
            types,
            files,
            maps,
            key: Some(key),
        }
    }
}

impl Candidates for KeyCandidates {
    ghost use Rattle.sasi_sources.specs.KeyCandidates.{HasKeyType, IsListed, KeyLeaves, KeyPays};
    ghost use Rattle.sasi_sources.specs.Maps.{IsOneOf};
    ghost use Rattle.sasi_sources.specs.inside.KeyLaws.{key_keeps};
    ghost use Rattle.sasi_scan.specs.Numbered.{views_numbered};
    ghost use Rattle.sasi_scan.specs.Parts.{ShowsListed};

    ghost leaves = { λ s files book left. KeyLeaves s.types s.files.items s.key files (views_numbered book s.maps.items) left };

    ghost pays = { λ s files book most prices. KeyPays s.types s.files.items s.key files most prices };

    ghost opens = { λ s name. IsListed s.files.items name };

    ghost uses = { λ s number. IsOneOf s.maps.items number };

    ghost ready = { λ s files book. Unit {0} };

    ghost shows = { λ s files damage. ShowsListed files s.files.items s.types damage };

    ghost prints = { λ s files book kind. HasKeyType s.types (views_numbered book s.maps.items) kind };

    ghost kept = { λ _. tt };

    ghost keeps = { λ s old new was now told same maps. key_keeps s.types s.files.items s.key s.maps.items old new was now same maps };

    fn next<H: Host, P: PageReader>(
        &mut self,
        host: &mut H,
        pages: &mut P,
        maps: &MapBook,
    ) -> Result<Option<(Key, Partition)>, ReadFault> {
        let _ = &pages;
        let Some(key) = self.key.take() else {
            return Ok(None);
        };
        let maps = Maps::new(maps, &self.maps);
        find_candidate(self.alloc, host, &maps, &self.files, &self.types, key)
    }
}

// The key with what the parts have of it, if one has it.
fn find_candidate<H: Host>(
    alloc: Global,
    host: &mut H,
    maps: &Maps,
    files: &[ListedFile],
    types: &TypeList,
    key: DecoratedKey,
) -> Result<Option<(Key, Partition)>, ReadFault>
    requires { AllByRecursion (λ (f : AListedFile). IsThere (H.view host.old) (data_name f.number)) files.now }
    ensures gives { IfOk result (λ found. (partitioner : Partitioner) (contents : List Content) → IsKeyOf (H.view host.old).files types.now files.now key partitioner contents
        → found ≡ option_map (λ part. (key.key, part)) (map_.get (merged_parts partitioner contents maps.now) key)) }
    ensures prints { (kind : ColumnType) → HasKeyType types.now maps.now kind → IfOk result (GivesPrintable kind) }
    ensures reads { (partitioner : Partitioner) (contents : List Content) → IsKeyOf (H.view host.old).files types.now files.now key partitioner contents → (H.view host.new).reads ≤ (H.view host.old).reads + key_reads partitioner key.key contents }
    ensures damaged { IfErr result (OnDamage (ShowsListed (H.view host.old).files files.now types.now)) }
    ensures undamaged { IfErr result (OnDamage (λ _. (partitioner : Partitioner) (contents : List Content) → IsKeyOf (H.view host.old).files types.now files.now key partitioner contents → ⊥)) }
    ensures changes { Changes Same (H.view host.old) (H.view host.new) }
    ensures causes { ScanCauses (H.view host.old) (H.view host.new) result }
{
    match find_key(alloc, host, files, types, maps, &key)? {
        None => Ok(None),
        Some(part) => Ok(Some((key.key, part))),
    }
}
