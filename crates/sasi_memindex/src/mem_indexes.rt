// The indexes of one map.
ghost use Rattle.std.specs.Prelude.{◌≡◌, ◌++◌, ◌∷◌, [], map, nat_eq, Err, OnOk, OnErr};
ghost use Rattle.std.specs.Option.{option_copied};
ghost use Rattle.std.specs.Map.{lookup};
ghost use Rattle.sasi_types.specs.declared.class.Class.{Class};
ghost use Rattle.sasi_cells.specs.Maps.{put};
ghost use Rattle.sasi_memindex.specs.Book.{AreKept, CanIndex, IsMissingOf, subjects};

use crate::MemIndex;
use crate::indexed::change_all;
use sasi_analyzers::Kit;
use sasi_cells::Partition;
use sasi_memtable::Memtable;
use sasi_types::{DecoratedKey, IndexNumber, KitFault};
use std::alloc::{AllocError, Global};
use std::marker::Model;

/// The indexes of one map, with their numbers, in the order in which they were added.
#[derive(Drop)]
pub struct MemIndexes {
    items: Vec<(IndexNumber, MemIndex)>,
}

impl Model for MemIndexes {
    ghost use Rattle.sasi_memindex.specs.MemIndexView.{Numbered, coded_numbered};

    ghost Value = { Numbered };

    ghost coded = { coded_numbered };

    ghost view = { λ a. a.items.items };
}

impl MemIndexes {
    /// No indexes.
    pub(crate) fn new(alloc: Global) -> MemIndexes
        ensures { result ≡ [] }
    {
        MemIndexes {
            items: Vec::new(alloc),
        }
    }

    /// The indexes with their numbers, in order.
    pub fn as_slice(&self) -> &[(IndexNumber, MemIndex)]
        ensures { result.now ≡ self.now }
    {
        &self.items
    }

    /// The index with this number.
    pub fn get(&self, number: IndexNumber) -> Option<&MemIndex>
        ensures { option_copied result ≡ lookup (λ n. nat_eq n number) self.now }
    {
        for (other, index) in self.items.iter() {
            if *other == number {
                return Some(index);
            }
        }
        None
    }

    /// Brings each index up to a change of a key's partition, which is then merged into the map.
    pub(crate) fn change(
        &mut self,
        memtable: &Memtable,
        key: &DecoratedKey,
        change: &Partition,
        kit: &mut Kit,
    ) -> Result<(), KitFault>
        requires kept { AreKept memtable.now.partitions self.old }
        requires change { CanIndex self.old change.now }
        ensures ok { OnOk result (AreKept (put memtable.now.partitions key.now change.now) self.new) }
        ensures subjects { subjects self.new ≡ subjects self.old }
        ensures missing { (class : Class) → result ≡ Err (KitFault.Missing class) → IsMissingOf (map (λ b. kind (b.vtable, b.value)) kit.old.objects.items) self.old class }
        ensures classes { map (λ b. kind (b.vtable, b.value)) kit.new.objects.items ≡ map (λ b. kind (b.vtable, b.value)) kit.old.objects.items }
    {
        change_all(memtable, &mut self.items, key, change, kit)
    }

    /// Adds an index at the end.
    pub(crate) fn push(&mut self, number: IndexNumber, index: MemIndex) -> Result<(), AllocError>
        ensures ok { OnOk result (self.new ≡ self.old ++ (number, index) ∷ []) }
        ensures err { OnErr result (self.new ≡ self.old) }
    {
        self.items.push((number, index))?;
        Ok(())
    }
}
