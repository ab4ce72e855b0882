// Look-ups of a key in the parts of a table.
ghost use Rattle.std.specs.Prelude.{◌≡◌, ◌+◌, ◌≤◌, List, map as map_list, IfErr, IfOk, IfSome, None, OnOk};
ghost use Rattle.std.specs.FinMap as map_;
ghost use Rattle.std.specs.List.{AllByRecursion};
ghost use Rattle.sasi_types.specs.declared.partitioner.Partitioner.{Partitioner};
ghost use Rattle.sasi_types.specs.DecoratedKey.{decorated_cmp};
ghost use Rattle.sasi_host.specs.Damages.{OnDamage};
ghost use Rattle.sasi_host.specs.Disk.{Changes, Same};
ghost use Rattle.sasi_host.specs.Names.{Bytes, data_name};
ghost use Rattle.sasi_host.specs.View.{IsThere, contents_in};
ghost use Rattle.sasi_model.specs.State.{decorated};
ghost use Rattle.sasi_model.specs.Stored.{IsBodyOf};
ghost use Rattle.sasi_cells.specs.Maps.{joined};
ghost use Rattle.sasi_datawrite.specs.Format.{Content};
ghost use Rattle.sasi_dataread.specs.Damages.{ShowsDataFile};
ghost use Rattle.sasi_memtable.specs.MemtableView.{MemtableView};
ghost use Rattle.sasi_manifest.specs.declared.files.ListedFile.{ListedFile as AListedFile};
ghost use Rattle.sasi_scan.specs.Finding.{file_maps, find_reads, found_at, found_in, key_reads};
ghost use Rattle.sasi_scan.specs.Parts.{AreContents, HasContent, IsMergeOfParts, ShowsListed, entries_of, merged_parts};
ghost use Rattle.sasi_scan.specs.Scanning.{ScanCauses};

use crate::maps::Maps;
use sasi_cells::Partition;
use sasi_dataread::DataFile;
use sasi_host::{Direct, FileName, Host, ReadFault};
use sasi_manifest::ListedFile;
use sasi_types::{DecoratedKey, TypeList};
use std::alloc::{AllocError, Global};

/// What listed data files of a table with these types and maps in memory, the oldest first, have of a key, merged; None where
/// none has it. It looks the key up in each data file by its key tree.
pub fn find_key<H: Host>(
    alloc: Global,
    host: &mut H,
    files: &[ListedFile],
    types: &TypeList,
    maps: &Maps,
    key: &DecoratedKey,
) -> Result<Option<Partition>, ReadFault>
    requires { AllByRecursion (λ (f : AListedFile). IsThere (H.view host.old) (data_name f.number)) files.now }
    // It is what the merge of the parts has of the key.
    ensures found { IfOk result (λ found. (p : Partitioner) (contents : List Content) → AreContents (H.view host.old).files p types.now files.now contents → key.now ≡ decorated p key.now.key → found ≡ map_.get (merged_parts p contents maps.now) key.now) }
    // In any file it is the merge of what the parts have of the key.
    ensures of_parts { IfOk result (λ found. IfSome found (IsMergeOfParts types.now maps.now key.now.key)) }
    ensures reads { (p : Partitioner) (contents : List Content) → AreContents (H.view host.old).files p types.now files.now contents → key.now ≡ decorated p key.now.key → (H.view host.new).reads ≤ (H.view host.old).reads + key_reads p key.now.key contents }
    ensures damaged { IfErr result (OnDamage (ShowsListed (H.view host.old).files files.now types.now)) }
    ensures undamaged { IfErr result (OnDamage (λ _. (p : Partitioner) (contents : List Content) → AreContents (H.view host.old).files p types.now files.now contents → ⊥)) }
    ensures changes { Changes Same (H.view host.old) (H.view host.new) }
    ensures causes { ScanCauses (H.view host.old) (H.view host.new) result }
{
    let in_files = find_in_files(alloc, host, files, types, key)?;
    let found = find_in_maps(alloc, maps, key, in_files)?;
    Ok(found)
}

// The merge of what data files have of a key, the oldest first.
fn find_in_files<H: Host>(
    alloc: Global,
    host: &mut H,
    files: &[ListedFile],
    types: &TypeList,
    key: &DecoratedKey,
) -> Result<Option<Partition>, ReadFault>
    requires { AllByRecursion (λ (f : AListedFile). IsThere (H.view host.old) (data_name f.number)) files.now }
    ensures found { IfOk result (λ found. (p : Partitioner) (contents : List Content) → AreContents (H.view host.old).files p types.now files.now contents → key.now ≡ decorated p key.now.key → found ≡ found_in key.now None (file_maps p contents)) }
    ensures of_parts { (maps : List MemtableView) → IfOk result (λ found. IfSome found (IsMergeOfParts types.now maps key.now.key)) }
    ensures reads { (p : Partitioner) (contents : List Content) → AreContents (H.view host.old).files p types.now files.now contents → key.now ≡ decorated p key.now.key → (H.view host.new).reads ≤ (H.view host.old).reads + key_reads p key.now.key contents }
    ensures damaged { IfErr result (OnDamage (ShowsListed (H.view host.old).files files.now types.now)) }
    ensures undamaged { IfErr result (OnDamage (λ _. (p : Partitioner) (contents : List Content) → AreContents (H.view host.old).files p types.now files.now contents → ⊥)) }
    ensures changes { Changes Same (H.view host.old) (H.view host.new) }
    ensures causes { ScanCauses (H.view host.old) (H.view host.new) result }
{
    let mut found = None;
    for file in files {
        let part = find_in_file(alloc, host, file, types, key)?;
        join(alloc, &mut found, part)?;
    }
    Ok(found)
}

// What a data file has of a key.
fn find_in_file<H: Host>(
    alloc: Global,
    host: &mut H,
    file: &ListedFile,
    types: &TypeList,
    key: &DecoratedKey,
) -> Result<Option<Partition>, ReadFault>
    requires { IsThere (H.view host.old) (data_name file.now.number) }
    ensures found { IfOk result (λ found. (p : Partitioner) (content : Content) → HasContent (H.view host.old).files p types.now file.now content → key.now ≡ decorated p key.now.key → found ≡ map_.get (map_.from_entries {R = decorated_cmp} (entries_of p content)) key.now) }
    ensures stored { IfOk result (λ found. IfSome found (IsBodyOf types.now key.now.key)) }
    ensures reads { (p : Partitioner) (content : Content) → HasContent (H.view host.old).files p types.now file.now content → key.now ≡ decorated p key.now.key → (H.view host.new).reads ≤ (H.view host.old).reads + find_reads p key.now.key content }
    ensures damaged { IfErr result (OnDamage (λ damage. (bytes : Bytes) → contents_in (H.view host.old).files (data_name file.now.number) ≡ Some bytes → ShowsDataFile types.now (data_name file.now.number) bytes damage)) }
    ensures undamaged { IfErr result (OnDamage (λ _. (p : Partitioner) (content : Content) → HasContent (H.view host.old).files p types.now file.now content → ⊥)) }
    ensures changes { Changes Same (H.view host.old) (H.view host.new) }
    ensures causes { ScanCauses (H.view host.old) (H.view host.new) result }
{
    let name = FileName::data(file.number);
    let opened = DataFile::open(alloc, host, &mut Direct, name, types)?;
    let found = opened.find(alloc, host, &mut Direct, key.token, &key.key)?;
    Ok(found)
}

// Merges what maps in memory have of a key onto what was found, the oldest first.
fn find_in_maps(
    alloc: Global,
    maps: &Maps,
    key: &DecoratedKey,
    found: Option<Partition>,
) -> Result<Option<Partition>, AllocError>
    ensures { IfOk result (λ all. all ≡ found_in key.now found (map_list (λ (m : MemtableView). m.partitions) maps.now)) }
{
    let mut all = found;
    for position in 0..maps.len() {
        let part = find_in_map(alloc, maps, position, key)?;
        join(alloc, &mut all, part)?;
    }
    Ok(all)
}

// A copy of what the map in memory at a position has of a key.
fn find_in_map(
    alloc: Global,
    maps: &Maps,
    position: usize,
    key: &DecoratedKey,
) -> Result<Option<Partition>, AllocError>
    ensures { IfOk result (λ found. found ≡ found_at maps.now position key.now) }
{
    let Some(map) = maps.get(position) else {
        return Ok(None);
    };
    match map.get(key) {
        Some(part) => Ok(Some(part.copy(alloc)?)),
        None => Ok(None),
    }
}

// Merges what a later part of a table has of a key.
fn join(
    alloc: Global,
    found: &mut Option<Partition>,
    later: Option<Partition>,
) -> Result<(), AllocError>
    ensures { OnOk result (found.new ≡ joined found.old later) }
{
    let Some(later) = later else {
        return Ok(());
    };
    let mut merged = found.take().unwrap_or(Partition::new(alloc));
    merged.merge_from(later)?;
    *found = Some(merged);
    Ok(())
}
