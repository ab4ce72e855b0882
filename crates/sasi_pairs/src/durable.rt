// Makes a data file durable, with its index files.
ghost use Rattle.std.specs.Prelude.{◌≡◌, ◌≤◌, length, map, IfOk, IsTrue, OnOk};
ghost use Rattle.std.specs.List.{AllByRecursion};
ghost use Rattle.std.specs.List.Sorted.{IsStrictlySortedBy};
ghost use Rattle.std.specs.Ordering.{nat_cmp};
ghost use Rattle.sasi_host.specs.Names.{data_name};
ghost use Rattle.sasi_host.specs.View.{DiskCauses, Holds, Reaches};
ghost use Rattle.sasi_host.specs.Disk.{Changes, IsFolderSynced, IsSynced, Same, Within};
ghost use Rattle.sasi_datawrite.specs.Causes.{PushCauses};
ghost use Rattle.sasi_datawrite.specs.Format.{Content, data_bytes};
ghost use Rattle.sasi_datawrite.specs.Writing.{IsWriting};
ghost use Rattle.sasi_indexwrite.specs.TermsSoFar.{AreSortedPostings};
ghost use Rattle.sasi_pairs.specs.Gathered.{IsBuilt};
ghost use Rattle.sasi_pairs.specs.PairViews.{IsPairing};
ghost use Rattle.sasi_pairs.specs.SealedFiles.{AreAbsent, AreAmong, AreDurable, HasSyncedIndex};
ghost use Rattle.sasi_manifest.specs.ListedFiles.{is_name_of};

use crate::PairFault;
use crate::builder::IndexBuilder;
use crate::index_files::write_indexes;
use sasi_datawrite::DataWriter;
use sasi_host::{Failed, Host};
use sasi_manifest::PartNumber;
use std::alloc::Global;

/// Ends a data file, writes the index file of each part, and syncs them, and then the folder. Then each image has them.
pub fn finish_durably<H: Host>(
    alloc: Global,
    host: &mut H,
    writer: DataWriter,
    builders: Vec<IndexBuilder>,
    parts: &[PartNumber],
) -> Result<(), PairFault>
    requires some { 1 ≤ length writer.pairs }
    requires room { Reaches (H.view host.old) writer.file writer.offset }
    requires usable { IsTrue writer.usable }
    requires named { writer.file ≡ data_name writer.file.number }
    requires built { AllByRecursion (λ i. IsBuilt i.def) builders.items }
    requires gathered { AllByRecursion (λ i. AreSortedPostings i.postings) builders.items }
    requires defined { AreAmong builders.items parts.now }
    requires rising { IsStrictlySortedBy nat_cmp (map (λ p. p.index) parts.now) }
    requires absent { AreAbsent (H.view host.old) writer.file.number parts.now }
    ensures durable { OnOk result ((content : Content) → IsPairing (H.view host.old) (record { writer = writer; indexes = builders.items }) content → AreDurable (H.view host.new) (record { writer = writer; indexes = builders.items }) parts.now content) }
    ensures changes { Changes (Within (is_name_of (record { number = writer.file.number; parts = parts.now }))) (H.view host.old) (H.view host.new) }
    ensures causes { PushCauses (λ _. ⊥) (H.view host.old) (H.view host.new) result }
{
    write_files(alloc, host, writer, builders, parts)?;
    sync_names(host)?;
    Ok(())
}

// Ends a data file, and writes the index file of each part. Each is synced.
fn write_files<H: Host>(
    alloc: Global,
    host: &mut H,
    writer: DataWriter,
    builders: Vec<IndexBuilder>,
    parts: &[PartNumber],
) -> Result<(), PairFault>
    requires some { 1 ≤ length writer.pairs }
    requires room { Reaches (H.view host.old) writer.file writer.offset }
    requires usable { IsTrue writer.usable }
    requires named { writer.file ≡ data_name writer.file.number }
    requires built { AllByRecursion (λ i. IsBuilt i.def) builders.items }
    requires gathered { AllByRecursion (λ i. AreSortedPostings i.postings) builders.items }
    requires defined { AreAmong builders.items parts.now }
    requires rising { IsStrictlySortedBy nat_cmp (map (λ p. p.index) parts.now) }
    requires absent { AreAbsent (H.view host.old) writer.file.number parts.now }
    ensures holds { OnOk result ((content : Content) → IsWriting (H.view host.old) writer content → Holds (H.view host.new) writer.file (data_bytes writer.partitioner content)) }
    ensures synced { OnOk result (IsSynced (H.view host.new) writer.file) }
    ensures indexes { OnOk result (AllByRecursion (HasSyncedIndex (H.view host.new) writer.file.number builders.items) parts.now) }
    ensures changes { Changes (Within (is_name_of (record { number = writer.file.number; parts = parts.now }))) (H.view host.old) (H.view host.new) }
    ensures causes { PushCauses (λ _. ⊥) (H.view host.old) (H.view host.new) result }
{
    let written = writer.finish(host)?;
    write_indexes(alloc, host, written.number, builders, parts)?;
    Ok(())
}

// Makes the names of the files durable.
fn sync_names<H: Host>(host: &mut H) -> Result<(), Failed>
    ensures ok { OnOk result (IsFolderSynced (H.view host.new)) }
    ensures changes { Changes Same (H.view host.old) (H.view host.new) }
    ensures causes { DiskCauses (H.view host.old) (H.view host.new) result }
{
    host.sync_folder()
}
