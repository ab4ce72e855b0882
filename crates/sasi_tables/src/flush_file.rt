// Writes the data file of the merge of maps, with its index files.
ghost use Rattle.std.specs.Prelude.{◌≡◌, ◌≢◌, ◌≤◌, [], length, map, IfOk, IsSome, OnOk, IsTrue};
ghost use Rattle.std.specs.List.{AllByRecursion};
ghost use Rattle.std.specs.FinMap as fin;
ghost use Rattle.std.specs.FinMap.{get};
ghost use Rattle.sasi_types.specs.declared.class.Class.{Class};
ghost use Rattle.sasi_host.specs.declared.damage.Damage.{Damage as ADamage};
ghost use Rattle.sasi_host.specs.Names.{data_name};
ghost use Rattle.sasi_host.specs.View.{ListCauses, Reaches};
ghost use Rattle.sasi_host.specs.Disk.{AnyChange, Changes, FileChange, Within};
ghost use Rattle.sasi_datawrite.specs.Causes.{PushCauses, of_host};
ghost use Rattle.sasi_datawrite.specs.declared.fault.PairFault.TheVariants as pair;
ghost use Rattle.sasi_layout.specs.Flushed.{contents_of};
ghost use Rattle.sasi_manifest.specs.ListedFiles.{is_name_of, names_of};
ghost use Rattle.sasi_layout.specs.Moves.{new_listed_file};
ghost use Rattle.sasi_memindex.specs.Book.{AreValuesOf};
ghost use Rattle.sasi_pairs.specs.Gathered.{defs_of};
ghost use Rattle.sasi_pairs.specs.PairViews.{IsPairing};
ghost use Rattle.sasi_pairs.specs.SealedFiles.{AreAbsent};
ghost use Rattle.sasi_tables.specs.Flushing.{AreFree, AreWritten, CanIndex, HaveBodies};
ghost use Rattle.sasi_tables.specs.Held.{CanMerge, KnowsDef, merged_in};
ghost use Rattle.sasi_memtable.specs.MemtableView.{AreDecorated};

use crate::merged_maps::next_merged;
use crate::table_maps::map_with;
use sasi_analyzers::Kit;
use sasi_host::{DataNumber, Host, HostFault};
use sasi_manifest::PartNumbers;
use sasi_memindex::MapBook;
use sasi_memtable::Memtable;
use sasi_pairs::{PairFault, PairWriter, Sealed};
use sasi_types::{IndexList, Partitioner};
use std::alloc::Global;

/// Writes the merge of the maps with these numbers, of which a later one is newer, to the data file with this number, and the index
/// files of these definitions as these parts. Then each image has the files.
pub fn write_file<H: Host>(
    alloc: Global,
    host: &mut H,
    kit: &mut Kit,
    number: DataNumber,
    partitioner: Partitioner,
    maps: &MapBook,
    unflushed: &[u64],
    defs: &IndexList,
    parts: &PartNumbers,
) -> Result<Sealed, HostFault>
    requires files { AreFree (H.view host.old) (names_of (new_listed_file number parts.now)) }
    requires maps { CanMerge maps.now unflushed.now }
    requires decorated { AreDecorated partitioner (merged_in maps.now unflushed.now) }
    requires some { 1 ≤ length (fin.entries (merged_in maps.now unflushed.now)) }
    requires bodies { HaveBodies (merged_in maps.now unflushed.now) }
    requires indexes { CanIndex (map (λ b. kind (b.vtable, b.value)) kit.old.objects.items) (merged_in maps.now unflushed.now) defs.now parts.now }
    ensures written { OnOk result (AreWritten (H.view host.new) number partitioner defs.now parts.now (contents_of (merged_in maps.now unflushed.now))) }
    ensures sealed { IfOk result (λ sealed. sealed ≡ new_listed_file number parts.now) }
    ensures changes { Changes (Within (is_name_of (new_listed_file number parts.now))) (H.view host.old) (H.view host.new) }
    ensures causes { ListCauses (H.view host.old) (H.view host.new) result }
    ensures kinds { map (λ b. kind (b.vtable, b.value)) kit.new.objects.items ≡ map (λ b. kind (b.vtable, b.value)) kit.old.objects.items }
{
    let files = PairWriter::begin(alloc, host, number, partitioner, defs)?;
    match write_all(alloc, host, kit, files, maps, unflushed, parts) {
        Ok(sealed) => Ok(sealed),
        Err(fault) => Err(host_fault(fault)),
    }
}

// The fault of the host that it is. Nothing is read, so nothing is damaged, and no analyzer is missing.
fn host_fault(fault: PairFault) -> HostFault
    requires undamaged { (damage : ADamage) → fault ≢ pair.Damaged damage }
    requires known { (class : Class) → fault ≢ pair.Missing class }
    ensures { fault ≡ of_host result }
{
    match fault {
        PairFault::Failed => HostFault::Failed,
        PairFault::OutOfMemory => HostFault::OutOfMemory,
        PairFault::Damaged(_) => unreachable!(),
        PairFault::Missing(_) => unreachable!(),
    }
}

// Writes the merge of maps, and ends the files.
fn write_all<H: Host>(
    alloc: Global,
    host: &mut H,
    kit: &mut Kit,
    mut files: PairWriter,
    maps: &MapBook,
    unflushed: &[u64],
    parts: &PartNumbers,
) -> Result<Sealed, PairFault>
    requires begun { IsPairing (H.view host.old) files [] }
    requires named { files.writer.file ≡ data_name files.writer.file.number }
    requires maps { CanMerge maps.now unflushed.now }
    requires decorated { AreDecorated files.writer.partitioner (merged_in maps.now unflushed.now) }
    requires some { 1 ≤ length (fin.entries (merged_in maps.now unflushed.now)) }
    requires bodies { HaveBodies (merged_in maps.now unflushed.now) }
    requires indexes { CanIndex (map (λ b. kind (b.vtable, b.value)) kit.old.objects.items) (merged_in maps.now unflushed.now) (defs_of files.indexes) parts.now }
    requires absent { AreAbsent (H.view host.old) files.writer.file.number parts.now }
    requires room { Reaches (H.view host.old) files.writer.file files.writer.offset }
    requires usable { IsTrue files.writer.usable }
    ensures written { OnOk result (AreWritten (H.view host.new) files.writer.file.number files.writer.partitioner (defs_of files.indexes) parts.now (contents_of (merged_in maps.now unflushed.now))) }
    ensures sealed { IfOk result (λ sealed. sealed ≡ new_listed_file files.writer.file.number parts.now) }
    ensures changes { Changes (Within (is_name_of (new_listed_file files.writer.file.number parts.now))) (H.view host.old) (H.view host.new) }
    ensures causes { PushCauses (λ _. ⊥) (H.view host.old) (H.view host.new) result }
    ensures kinds { map (λ b. kind (b.vtable, b.value)) kit.new.objects.items ≡ map (λ b. kind (b.vtable, b.value)) kit.old.objects.items }
{
    write_partitions(alloc, host, kit, &mut files, maps, unflushed)?;
    files.seal(host, parts)
}

// Pushes the merged partitions of maps, in the order of their decorated keys. One map alone is written as it is.
fn write_partitions<H: Host>(
    alloc: Global,
    host: &mut H,
    kit: &mut Kit,
    files: &mut PairWriter,
    maps: &MapBook,
    unflushed: &[u64],
) -> Result<(), PairFault>
    requires begun { IsPairing (H.view host.old) files.old [] }
    requires maps { CanMerge maps.now unflushed.now }
    requires decorated { AreDecorated files.old.writer.partitioner (merged_in maps.now unflushed.now) }
    requires bodies { HaveBodies (merged_in maps.now unflushed.now) }
    requires typed { AllByRecursion (λ def. AreValuesOf def.column def.kind (merged_in maps.now unflushed.now)) (defs_of files.old.indexes) }
    requires known { AllByRecursion (KnowsDef (map (λ b. kind (b.vtable, b.value)) kit.old.objects.items)) (defs_of files.old.indexes) }
    requires room { Reaches (H.view host.old) files.old.writer.file files.old.writer.offset }
    requires usable { IsTrue files.old.writer.usable }
    ensures written { OnOk result (IsPairing (H.view host.new) files.new (contents_of (merged_in maps.now unflushed.now))) }
    ensures room { OnOk result (Reaches (H.view host.new) files.new.writer.file files.new.writer.offset) }
    ensures usable { OnOk result (IsTrue files.new.writer.usable) }
    ensures file { files.new.writer.file ≡ files.old.writer.file }
    ensures partitioner { files.new.writer.partitioner ≡ files.old.writer.partitioner }
    ensures defs { defs_of files.new.indexes ≡ defs_of files.old.indexes }
    ensures changes { Changes (FileChange files.old.writer.file AnyChange) (H.view host.old) (H.view host.new) }
    ensures causes { PushCauses (λ _. ⊥) (H.view host.old) (H.view host.new) result }
    ensures kinds { map (λ b. kind (b.vtable, b.value)) kit.new.objects.items ≡ map (λ b. kind (b.vtable, b.value)) kit.old.objects.items }
{
    if let [number] = unflushed {
        return write_map(host, kit, files, map_with(maps, *number));
    }
    write_merged(alloc, host, kit, files, maps, unflushed)
}

// Pushes the partitions of a map, in the order of their decorated keys.
fn write_map<H: Host>(
    host: &mut H,
    kit: &mut Kit,
    files: &mut PairWriter,
    memtable: &Memtable,
) -> Result<(), PairFault>
    requires begun { IsPairing (H.view host.old) files.old [] }
    requires decorated { AreDecorated files.old.writer.partitioner memtable.now.partitions }
    requires bodies { HaveBodies memtable.now.partitions }
    requires typed { AllByRecursion (λ def. AreValuesOf def.column def.kind memtable.now.partitions) (defs_of files.old.indexes) }
    requires known { AllByRecursion (KnowsDef (map (λ b. kind (b.vtable, b.value)) kit.old.objects.items)) (defs_of files.old.indexes) }
    requires room { Reaches (H.view host.old) files.old.writer.file files.old.writer.offset }
    requires usable { IsTrue files.old.writer.usable }
    ensures written { OnOk result (IsPairing (H.view host.new) files.new (contents_of memtable.now.partitions)) }
    ensures room { OnOk result (Reaches (H.view host.new) files.new.writer.file files.new.writer.offset) }
    ensures usable { OnOk result (IsTrue files.new.writer.usable) }
    ensures file { files.new.writer.file ≡ files.old.writer.file }
    ensures partitioner { files.new.writer.partitioner ≡ files.old.writer.partitioner }
    ensures defs { defs_of files.new.indexes ≡ defs_of files.old.indexes }
    ensures changes { Changes (FileChange files.old.writer.file AnyChange) (H.view host.old) (H.view host.new) }
    ensures causes { PushCauses (λ _. ⊥) (H.view host.old) (H.view host.new) result }
    ensures kinds { map (λ b. kind (b.vtable, b.value)) kit.new.objects.items ≡ map (λ b. kind (b.vtable, b.value)) kit.old.objects.items }
{
    for (key, partition) in memtable.iter() {
        files.push(host, kit, &key.key, partition)?;
    }
    Ok(())
}

// Pushes the merged partitions of maps, in the order of their decorated keys. Of each map it holds one partition at a time.
fn write_merged<H: Host>(
    alloc: Global,
    host: &mut H,
    kit: &mut Kit,
    files: &mut PairWriter,
    maps: &MapBook,
    unflushed: &[u64],
) -> Result<(), PairFault>
    requires begun { IsPairing (H.view host.old) files.old [] }
    requires there { AllByRecursion (λ number. IsSome (get maps.now number)) unflushed.now }
    requires decorated { AreDecorated files.old.writer.partitioner (merged_in maps.now unflushed.now) }
    requires bodies { HaveBodies (merged_in maps.now unflushed.now) }
    requires typed { AllByRecursion (λ def. AreValuesOf def.column def.kind (merged_in maps.now unflushed.now)) (defs_of files.old.indexes) }
    requires known { AllByRecursion (KnowsDef (map (λ b. kind (b.vtable, b.value)) kit.old.objects.items)) (defs_of files.old.indexes) }
    requires room { Reaches (H.view host.old) files.old.writer.file files.old.writer.offset }
    requires usable { IsTrue files.old.writer.usable }
    ensures written { OnOk result (IsPairing (H.view host.new) files.new (contents_of (merged_in maps.now unflushed.now))) }
    ensures room { OnOk result (Reaches (H.view host.new) files.new.writer.file files.new.writer.offset) }
    ensures usable { OnOk result (IsTrue files.new.writer.usable) }
    ensures file { files.new.writer.file ≡ files.old.writer.file }
    ensures partitioner { files.new.writer.partitioner ≡ files.old.writer.partitioner }
    ensures defs { defs_of files.new.indexes ≡ defs_of files.old.indexes }
    ensures changes { Changes (FileChange files.old.writer.file AnyChange) (H.view host.old) (H.view host.new) }
    ensures causes { PushCauses (λ _. ⊥) (H.view host.old) (H.view host.new) result }
    ensures kinds { map (λ b. kind (b.vtable, b.value)) kit.new.objects.items ≡ map (λ b. kind (b.vtable, b.value)) kit.old.objects.items }
{
    let mut last = None;
    for _turn in 0..u64::MAX {
        let found = next_merged(alloc, maps, unflushed, last.as_ref())?;
        let Some((key, partition)) = found else {
            return Ok(());
        };
        files.push(host, kit, &key.key, &partition)?;
        last = Some(key);
    }
    Err(PairFault::OutOfMemory)
}
