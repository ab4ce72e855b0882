// The flush of maps.
ghost use Rattle.std.specs.Prelude.{◌≡◌, ◌+◌, ◌≤◌, ◌∷◌, [], List, length, map, IfOk, OnOk, IsTrue};
ghost use Rattle.std.specs.List.{AllByRecursion};
ghost use Rattle.std.specs.FinMap as fin;
ghost use Rattle.sasi_host.specs.Names.{log_name, manifest_name};
ghost use Rattle.sasi_host.specs.View.{IsAbsent, IsThere, ListCauses, Reaches};
ghost use Rattle.sasi_host.specs.Disk.{Changes, IsFolderSynced};
ghost use Rattle.sasi_cells.specs.declared.mutation.Mutation.{Mutation};
ghost use Rattle.sasi_commitlog.specs.LogPosition.{IsAtLogEnd};
ghost use Rattle.sasi_manifest.specs.Format.{IsNext};
ghost use Rattle.sasi_manifest.specs.ListedFiles.{names_of};
ghost use Rattle.sasi_manifest.specs.OpenManifest.{ManifestStands};
ghost use Rattle.sasi_layout.specs.Layout.{Layout};
ghost use Rattle.sasi_layout.specs.Moves.{Flush};
ghost use Rattle.sasi_layout.specs.Between.{Between};
ghost use Rattle.sasi_layout.specs.Flushed.{contents_of};
ghost use Rattle.sasi_tables.specs.Flushing.{AreFree, AreWritten, CanFlush, CanIndex, ChangesInFlush, HasFlushedFiles, HaveBodies, IsFlushOf, IsFlushed, MakesFiles, edit_of, file_of, whole_of};
ghost use Rattle.sasi_tables.specs.Held.{CanMerge, merged_in};
ghost use Rattle.sasi_memtable.specs.MemtableView.{AreDecorated};

use crate::flush_file::write_file;
use crate::old_segments::delete_segments;
use sasi_analyzers::Kit;
use sasi_commitlog::Log;
use sasi_host::{DataNumber, Host, HostFault, SegmentNumber};
use sasi_manifest::{
    Edit, EditList, ListedFile, ListedFiles, Manifest, NumberList, PartNumber, PartNumbers,
};
use sasi_memindex::MapBook;
use sasi_pairs::{Sealed, commit};
use sasi_types::{IndexList, Partitioner, TableNumber};
use std::alloc::{AllocError, Global};

/// The numbers of a flush: the table, its new data file, the first segment of the log that stays live, and the new segment.
#[derive(Clone, Copy)]
pub struct FlushNumbers {
    pub table: TableNumber,
    pub file: DataNumber,
    pub floor: SegmentNumber,
    pub last: SegmentNumber,
}

/// Writes the merge of the maps with these numbers, of which a later one is newer, to a new data file, with index files of these
/// definitions as these parts, and creates a segment of the log.
/// Once all are durable, the manifest lists them, and then the segments below the new floor are deleted. Gives the log at its
/// new segment.
pub fn flush<H: Host>(
    alloc: Global,
    host: &mut H,
    kit: &mut Kit,
    manifest: &mut Manifest,
    maps: &MapBook,
    unflushed: &[u64],
    defs: &IndexList,
    numbers: FlushNumbers,
    parts: &PartNumbers,
) -> Result<Log, HostFault>
    requires maps { CanMerge maps.now unflushed.now }
    requires can { CanFlush (H.view host.old) manifest.old (whole_of manifest.old.listing.partitioner maps.now unflushed.now) numbers parts.now }
    requires indexes { CanIndex (map (λ b. kind (b.vtable, b.value)) kit.old.objects.items) (merged_in maps.now unflushed.now) defs.now parts.now }
    ensures any_moment { (l : Layout) (logs : List (List Mutation)) → IsFlushOf (H.view host.old) manifest.old (whole_of manifest.old.listing.partitioner maps.now unflushed.now) numbers defs.now parts.now l logs
        → Changes (λ x y. Between l (Flush numbers.table ∷ []) y) (H.view host.old) (H.view host.new) }
    ensures flushed { IfOk result (λ log. (l : Layout) (logs : List (List Mutation)) → IsFlushOf (H.view host.old) manifest.old (whole_of manifest.old.listing.partitioner maps.now unflushed.now) numbers defs.now parts.now l logs
        → IsFlushed (H.view host.new) manifest.new log numbers l logs) }
    ensures stands { OnOk result (ManifestStands (H.view host.old) manifest.old.number manifest.old.at manifest.old.listing → ManifestStands (H.view host.new) manifest.new.number manifest.new.at manifest.new.listing) }
    ensures listing { OnOk result (IsNext manifest.old.listing (edit_of numbers parts.now ∷ []) manifest.new.listing) }
    ensures number { manifest.new.number ≡ manifest.old.number }
    ensures manifest_room { OnOk result (Reaches (H.view host.new) (manifest_name manifest.new.number) (manifest.new.at + 1)) }
    ensures manifest_usable { OnOk result (IsTrue manifest.new.usable) }
    ensures log_file { IfOk result (λ log. log.file ≡ log_name numbers.last) }
    ensures log_room { IfOk result (λ log. Reaches (H.view host.new) log.file (log.at + 1)) }
    ensures log_usable { IfOk result (λ log. IsTrue log.usable) }
    // A crash leaves none of the deleted segments then.
    ensures synced { OnOk result (IsFolderSynced (H.view host.new)) }
    ensures files { OnOk result (HasFlushedFiles (H.view host.new) manifest.old.listing.floor numbers parts.now) }
    ensures changes { Changes (ChangesInFlush manifest.old.number manifest.old.listing.floor numbers parts.now) (H.view host.old) (H.view host.new) }
    ensures causes { ListCauses (H.view host.old) (H.view host.new) result }
    ensures kinds { map (λ b. kind (b.vtable, b.value)) kit.new.objects.items ≡ map (λ b. kind (b.vtable, b.value)) kit.old.objects.items }
{
    let edits = flush_edits(alloc, numbers, parts)?;
    let first = manifest.listing().floor;
    let partitioner = manifest.listing().partitioner;
    let made = make_files(
        alloc,
        host,
        kit,
        partitioner,
        maps,
        unflushed,
        defs,
        numbers,
        parts,
    )?;
    commit(made.sealed, host, manifest, &edits)?;
    delete_segments(host, first, numbers.floor)?;
    Ok(made.log)
}

// The one edit of a flush.
fn flush_edits(
    alloc: Global,
    numbers: FlushNumbers,
    parts: &PartNumbers,
) -> Result<EditList, AllocError>
    ensures { IfOk result (λ edits. edits ≡ edit_of numbers parts.now ∷ []) }
{
    let mut added = ListedFiles::new(alloc);
    added.push(ListedFile {
        number: numbers.file,
        parts: copy_of(alloc, parts.as_slice())?,
    })?;
    let mut edits = EditList::new(alloc);
    edits.push(Edit::Replace {
        table: numbers.table,
        removed: NumberList::new(alloc),
        added,
        since: numbers.last,
        floor: numbers.floor,
        last: numbers.last,
    })?;
    Ok(edits)
}

// The same parts.
fn copy_of(alloc: Global, parts: &[PartNumber]) -> Result<PartNumbers, AllocError>
    ensures { IfOk result (λ copy. copy ≡ parts.now) }
{
    let mut copy = PartNumbers::new(alloc);
    for part in parts {
        copy.push(*part)?;
    }
    Ok(copy)
}

// The files of a flush, which nothing lists yet.
#[derive(Drop)]
struct MadeFiles {
    sealed: Sealed,
    log: Log,
}

// Writes the data file of the merge of maps with its index files, and creates an empty segment of the log.
fn make_files<H: Host>(
    alloc: Global,
    host: &mut H,
    kit: &mut Kit,
    partitioner: Partitioner,
    maps: &MapBook,
    unflushed: &[u64],
    defs: &IndexList,
    numbers: FlushNumbers,
    parts: &PartNumbers,
) -> Result<MadeFiles, HostFault>
    requires files { AreFree (H.view host.old) (names_of (file_of numbers parts.now)) }
    requires segment { IsAbsent (H.view host.old) (log_name numbers.last) }
    requires maps { CanMerge maps.now unflushed.now }
    requires decorated { AreDecorated partitioner (merged_in maps.now unflushed.now) }
    requires some { 1 ≤ length (fin.entries (merged_in maps.now unflushed.now)) }
    requires bodies { HaveBodies (merged_in maps.now unflushed.now) }
    requires indexes { CanIndex (map (λ b. kind (b.vtable, b.value)) kit.old.objects.items) (merged_in maps.now unflushed.now) defs.now parts.now }
    ensures written { OnOk result (AreWritten (H.view host.new) numbers.file partitioner defs.now parts.now (contents_of (merged_in maps.now unflushed.now))) }
    ensures there { OnOk result (AllByRecursion (λ name. IsThere (H.view host.new) name) (names_of (file_of numbers parts.now))) }
    ensures sealed { IfOk result (λ made. made.sealed ≡ file_of numbers parts.now) }
    ensures log_end { IfOk result (λ made. IsAtLogEnd (H.view host.new) (log_name numbers.last) made.log.at []) }
    ensures log_file { IfOk result (λ made. made.log.file ≡ log_name numbers.last) }
    ensures log_room { IfOk result (λ made. Reaches (H.view host.new) (log_name numbers.last) (made.log.at + 1)) }
    ensures log_usable { IfOk result (λ made. IsTrue made.log.usable) }
    ensures changes { Changes (MakesFiles numbers parts.now) (H.view host.old) (H.view host.new) }
    ensures causes { ListCauses (H.view host.old) (H.view host.new) result }
    ensures kinds { map (λ b. kind (b.vtable, b.value)) kit.new.objects.items ≡ map (λ b. kind (b.vtable, b.value)) kit.old.objects.items }
{
    let sealed = write_file(
        alloc,
        host,
        kit,
        numbers.file,
        partitioner,
        maps,
        unflushed,
        defs,
        parts,
    )?;
    let log = Log::create(alloc, host, numbers.last)?;
    Ok(MadeFiles { sealed, log })
}
