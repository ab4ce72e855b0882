// Changes of the indexes of a map, and the making of one.
ghost use Rattle.std.specs.Prelude.{◌≡◌, map, Err, IfOk, OnOk, unwrap_or};
ghost use Rattle.std.specs.Option.{option_copied};
ghost use Rattle.sasi_types.specs.declared.class.Class.{Class};
ghost use Rattle.sasi_cells.specs.Maps.{put};
ghost use Rattle.sasi_model.specs.Cells.{empty_partition, merge, value_at};
ghost use Rattle.sasi_model.specs.IndexTerms.{terms_of_value};
ghost use Rattle.sasi_memindex.specs.Book.{AreKept, AreValuesOf, CanIndex, CanMerge, IsKept, IsMissing, IsMissingOf, subjects};
ghost use Rattle.sasi_memindex.specs.IndexOf.{HasPut};
ghost use Rattle.sasi_memindex.specs.MemIndexView.{subject};

use crate::MemIndex;
use crate::merged_value::{is_unchanged, value_after, value_in};
use sasi_analyzers::Kit;
use sasi_cells::Partition;
use sasi_memtable::Memtable;
use sasi_types::{DecoratedKey, IndexDef, IndexNumber, KitFault};
use std::alloc::Global;

/// Brings each index of a map up to a change of a key's partition, which is then merged into the map.
pub fn change_all(
    memtable: &Memtable,
    indexes: &mut [(IndexNumber, MemIndex)],
    key: &DecoratedKey,
    change: &Partition,
    kit: &mut Kit,
) -> Result<(), KitFault>
    requires kept { AreKept memtable.now.partitions indexes.old }
    requires change { CanIndex indexes.old change.now }
    ensures ok { OnOk result (AreKept (put memtable.now.partitions key.now change.now) indexes.new) }
    ensures subjects { subjects indexes.new ≡ subjects indexes.old }
    ensures missing { (class : Class) → result ≡ Err (KitFault.Missing class) → IsMissingOf (map (λ b. kind (b.vtable, b.value)) kit.old.objects.items) indexes.old class }
    ensures classes { map (λ b. kind (b.vtable, b.value)) kit.new.objects.items ≡ map (λ b. kind (b.vtable, b.value)) kit.old.objects.items }
{
    if indexes.is_empty() {
        return Ok(());
    }
    let old = memtable.get(key);
    'indexes: for at in 0..indexes.len() {
        change_one(&mut indexes[at], key, old, change, kit)?;
    }
    Ok(())
}

// Brings one index up to a change of a key's partition. No terms are made where the value of its column stays.
fn change_one(
    numbered: &mut (IndexNumber, MemIndex),
    key: &DecoratedKey,
    old: Option<&Partition>,
    change: &Partition,
    kit: &mut Kit,
) -> Result<(), KitFault>
    requires { CanMerge numbered.old.1 key.now (option_copied old) change.now }
    ensures ok { OnOk result (HasPut numbered.old.1 key.now (terms_of_value numbered.old.1.rule (value_at (merge (unwrap_or (option_copied old.entry) empty_partition) change.now) numbered.old.1.column)) numbered.new.1) }
    ensures number { numbered.new.0 ≡ numbered.old.0 }
    ensures subject { subject numbered.new.1 ≡ subject numbered.old.1 }
    ensures missing { (class : Class) → result ≡ Err (KitFault.Missing class) → IsMissing (map (λ b. kind (b.vtable, b.value)) kit.old.objects.items) numbered.old.1.rule class }
    ensures classes { map (λ b. kind (b.vtable, b.value)) kit.new.objects.items ≡ map (λ b. kind (b.vtable, b.value)) kit.old.objects.items }
{
    let index = &mut numbered.1;
    let column = index.column();
    let before = value_in(old, column);
    let after = value_after(old, change, column);
    if is_unchanged(before, after) {
        return Ok(());
    }
    index.put_value(key, before, after, kit)
}

/// The index of a map that a definition asks for.
pub fn index_of(
    alloc: Global,
    def: &IndexDef,
    memtable: &Memtable,
    kit: &mut Kit,
) -> Result<MemIndex, KitFault>
    requires { AreValuesOf def.now.column def.now.kind memtable.now.partitions }
    ensures ok { IfOk result (IsKept memtable.now.partitions) }
    ensures subject { IfOk result (λ index. subject index ≡ (def.now.column, (def.now.kind, def.now.rule))) }
    ensures missing { (class : Class) → result ≡ Err (KitFault.Missing class) → IsMissing (map (λ b. kind (b.vtable, b.value)) kit.old.objects.items) def.now.rule class }
    ensures classes { map (λ b. kind (b.vtable, b.value)) kit.new.objects.items ≡ map (λ b. kind (b.vtable, b.value)) kit.old.objects.items }
{
    let mut index = MemIndex::new(alloc, def);
    'partitions: for (key, partition) in memtable.iter() {
        let value = value_in(Some(partition), def.column);
        index.put_value(key, None, value, kit)?;
    }
    Ok(index)
}
