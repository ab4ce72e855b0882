// A map with its indexes.
ghost use Rattle.std.specs.Prelude.{◌≡◌, map, Err, OnOk, OnErr};
ghost use Rattle.sasi_types.specs.declared.class.Class.{Class};

use crate::MemIndexes;
use crate::indexed::index_of;
use sasi_analyzers::Kit;
use sasi_cells::Partition;
use sasi_memtable::{Memtable, decorated};
use sasi_types::{IndexDef, Key, KitFault};
use std::alloc::Global;

/// A memtable or a frozen map, with its indexes.
#[derive(Drop)]
pub struct MapPart {
    pub map: Memtable,
    pub indexes: MemIndexes,
}

impl MapPart {
    ghost use Rattle.sasi_memindex.specs.Book.{AreKept, AreValuesOf, CanIndex, HasAdded, HasChange, IsMissing, IsMissingOf};

    /// Merges a change into the partition of a key by moving both, and brings the indexes up to it.
    pub(crate) fn put_from(
        &mut self,
        key: Key,
        change: Partition,
        kit: &mut Kit,
    ) -> Result<(), KitFault>
        requires kept { AreKept self.old.map.partitions self.old.indexes }
        requires change { CanIndex self.old.indexes change }
        ensures ok { OnOk result (HasChange key change self.old self.new) }
        ensures missing { (class : Class) → result ≡ Err (KitFault.Missing class) → IsMissingOf (map (λ b. kind (b.vtable, b.value)) kit.old.objects.items) self.old.indexes class }
        ensures classes { map (λ b. kind (b.vtable, b.value)) kit.new.objects.items ≡ map (λ b. kind (b.vtable, b.value)) kit.old.objects.items }
    {
        let key = decorated(self.map.partitioner(), key);
        self.indexes.change(&self.map, &key, &change, kit)?;
        self.map.put_from(key.key, change)?;
        Ok(())
    }

    /// Adds the index of the map that a definition asks for. A fault leaves the indexes unchanged.
    pub(crate) fn add_index(
        &mut self,
        alloc: Global,
        def: &IndexDef,
        kit: &mut Kit,
    ) -> Result<(), KitFault>
        requires { AreValuesOf def.now.column def.now.kind self.old.map.partitions }
        ensures ok { OnOk result (HasAdded def.now.number def.now.column def.now.kind def.now.rule self.old self.new) }
        ensures err { OnErr result (self.new ≡ self.old) }
        ensures missing { (class : Class) → result ≡ Err (KitFault.Missing class) → IsMissing (map (λ b. kind (b.vtable, b.value)) kit.old.objects.items) def.now.rule class }
        ensures classes { map (λ b. kind (b.vtable, b.value)) kit.new.objects.items ≡ map (λ b. kind (b.vtable, b.value)) kit.old.objects.items }
    {
        let index = index_of(alloc, def, &self.map, kit)?;
        self.indexes.push(def.number, index)?;
        Ok(())
    }
}
