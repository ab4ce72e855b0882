// The book of maps.
ghost use Rattle.std.specs.Prelude.{◌≡◌, ℕ, false, map, nat_eq, Err, IfOk, OnOk, OnErr};
ghost use Rattle.std.specs.BTreeMap.{get};
ghost use Rattle.std.specs.FinMap as fin;
ghost use Rattle.std.specs.Option.{option_copied};
ghost use Rattle.std.specs.Ordering.{nat_cmp};
ghost use Rattle.sasi_types.specs.declared.class.Class.{Class};
ghost use Rattle.sasi_memindex.specs.Book.{CanAdd, CanChange, IsAdded, IsChanged, IsMissing, IsMissingIn, bare};

use crate::{MapPart, MemIndexes};
use sasi_analyzers::Kit;
use sasi_cells::Partition;
use sasi_memtable::Memtable;
use sasi_types::{IndexDef, Key, KitFault};
use std::alloc::{AllocError, Global};
use std::collections::BTreeMap;
use std::marker::Model;

/// The memtables and frozen maps of a store by their numbers, each with its indexes.
#[derive(Drop)]
pub struct MapBook {
    alloc: Global,
    parts: BTreeMap<u64, MapPart>,
}

impl Model for MapBook {
    ghost use Rattle.std.specs.FinMap as fin;
    ghost use Rattle.sasi_memindex.specs.Book.{Book, coded_book};

    ghost Value = { Book };

    ghost coded = { coded_book };

    ghost view = { λ a. fin.from_entries a.parts.entries };
}

impl MapBook {
    /// The book without maps.
    pub fn new(alloc: Global) -> MapBook
        ensures { result ≡ fin.empty }
    {
        MapBook {
            alloc,
            parts: BTreeMap::new(alloc),
        }
    }

    /// Adds a map without indexes. A map that had the number is dropped. Out of memory leaves the book unchanged.
    pub fn add(&mut self, number: u64, memtable: Memtable) -> Result<(), AllocError>
        ensures ok { OnOk result (self.new ≡ fin.insert self.old number (bare memtable)) }
        ensures err { OnErr result (self.new ≡ self.old) }
    {
        let indexes = MemIndexes::new(self.alloc);
        add_to(
            &mut self.parts,
            number,
            MapPart {
                map: memtable,
                indexes,
            },
        )
    }

    /// The map with this number.
    pub fn get(&self, number: u64) -> Option<&MapPart>
        ensures { option_copied result ≡ fin.get self.now number }
    {
        self.parts.get(&number)
    }

    /// Merges copies of a change into the partition of a key, in the map with this number and its indexes. After a fault the book
    /// isn't used again: some of the indexes may be ahead of the map.
    pub fn put(
        &mut self,
        number: u64,
        key: &Key,
        change: &Partition,
        kit: &mut Kit,
    ) -> Result<(), KitFault>
        requires { CanChange (fin.get self.old number) change.now }
        ensures ok { OnOk result (IsChanged key.now change.now (fin.get self.old number) (fin.get self.new number)) }
        ensures others { (other : ℕ) → nat_eq other number ≡ false → fin.get self.new other ≡ fin.get self.old other }
        ensures missing { (class : Class) → result ≡ Err (KitFault.Missing class) → IsMissingIn (map (λ b. kind (b.vtable, b.value)) kit.old.objects.items) (fin.get self.old number) class }
        ensures classes { map (λ b. kind (b.vtable, b.value)) kit.new.objects.items ≡ map (λ b. kind (b.vtable, b.value)) kit.old.objects.items }
    {
        let key = copy_of(self.alloc, key)?;
        let change = change.copy(self.alloc)?;
        self.put_from(number, key, change, kit)
    }

    /// The same, by moving the key and the change.
    pub fn put_from(
        &mut self,
        number: u64,
        key: Key,
        change: Partition,
        kit: &mut Kit,
    ) -> Result<(), KitFault>
        requires { CanChange (fin.get self.old number) change }
        ensures ok { OnOk result (IsChanged key change (fin.get self.old number) (fin.get self.new number)) }
        ensures others { (other : ℕ) → nat_eq other number ≡ false → fin.get self.new other ≡ fin.get self.old other }
        ensures missing { (class : Class) → result ≡ Err (KitFault.Missing class) → IsMissingIn (map (λ b. kind (b.vtable, b.value)) kit.old.objects.items) (fin.get self.old number) class }
        ensures classes { map (λ b. kind (b.vtable, b.value)) kit.new.objects.items ≡ map (λ b. kind (b.vtable, b.value)) kit.old.objects.items }
    {
        put_at(&mut self.parts, number, key, change, kit)
    }

    /// Adds the index that a definition asks for to the map with this number. A fault leaves the book unchanged.
    pub fn index(&mut self, number: u64, def: &IndexDef, kit: &mut Kit) -> Result<(), KitFault>
        requires { CanAdd def.now.column def.now.kind (fin.get self.old number) }
        ensures ok { OnOk result (IsAdded def.now.number def.now.column def.now.kind def.now.rule (fin.get self.old number) (fin.get self.new number)) }
        ensures err { OnErr result (self.new ≡ self.old) }
        ensures others { (other : ℕ) → nat_eq other number ≡ false → fin.get self.new other ≡ fin.get self.old other }
        ensures missing { (class : Class) → result ≡ Err (KitFault.Missing class) → IsMissing (map (λ b. kind (b.vtable, b.value)) kit.old.objects.items) def.now.rule class }
        ensures classes { map (λ b. kind (b.vtable, b.value)) kit.new.objects.items ≡ map (λ b. kind (b.vtable, b.value)) kit.old.objects.items }
    {
        index_at(self.alloc, &mut self.parts, number, def, kit)
    }

    /// Drops the map with this number, if there is one.
    pub fn remove(&mut self, number: u64)
        ensures { self.new ≡ fin.remove self.old number }
    {
        remove_from(&mut self.parts, number);
    }
}

// A copy of a key. Its bytes are those of a key, so the only fault is out of memory.
fn copy_of(alloc: Global, key: &Key) -> Result<Key, AllocError>
    ensures { IfOk result (λ copy. copy ≡ key.now) }
{
    match Key::new(alloc, key.bytes()) {
        Ok(copy) => Ok(copy),
        Err(_) => Err(AllocError),
    }
}

// Merges a change into the map with this number.
fn put_at(
    parts: &mut BTreeMap<u64, MapPart>,
    number: u64,
    key: Key,
    change: Partition,
    kit: &mut Kit,
) -> Result<(), KitFault>
    requires { CanChange (get nat_cmp parts.old number) change }
    ensures ok { OnOk result (IsChanged key change (get nat_cmp parts.old number) (get nat_cmp parts.new number)) }
    ensures others { (other : ℕ) → nat_eq other number ≡ false → get nat_cmp parts.new other ≡ get nat_cmp parts.old other }
    ensures missing { (class : Class) → result ≡ Err (KitFault.Missing class) → IsMissingIn (map (λ b. kind (b.vtable, b.value)) kit.old.objects.items) (get nat_cmp parts.old number) class }
    ensures classes { map (λ b. kind (b.vtable, b.value)) kit.new.objects.items ≡ map (λ b. kind (b.vtable, b.value)) kit.old.objects.items }
{
    let Some(part) = parts.get_mut(&number) else {
        unreachable!();
    };
    part.put_from(key, change, kit)
}

// Adds an index to the map with this number.
fn index_at(
    alloc: Global,
    parts: &mut BTreeMap<u64, MapPart>,
    number: u64,
    def: &IndexDef,
    kit: &mut Kit,
) -> Result<(), KitFault>
    requires { CanAdd def.now.column def.now.kind (get nat_cmp parts.old number) }
    ensures ok { OnOk result (IsAdded def.now.number def.now.column def.now.kind def.now.rule (get nat_cmp parts.old number) (get nat_cmp parts.new number)) }
    ensures err { OnErr result ((other : ℕ) → get nat_cmp parts.new other ≡ get nat_cmp parts.old other) }
    ensures others { (other : ℕ) → nat_eq other number ≡ false → get nat_cmp parts.new other ≡ get nat_cmp parts.old other }
    ensures missing { (class : Class) → result ≡ Err (KitFault.Missing class) → IsMissing (map (λ b. kind (b.vtable, b.value)) kit.old.objects.items) def.now.rule class }
    ensures classes { map (λ b. kind (b.vtable, b.value)) kit.new.objects.items ≡ map (λ b. kind (b.vtable, b.value)) kit.old.objects.items }
{
    let Some(part) = parts.get_mut(&number) else {
        unreachable!();
    };
    part.add_index(alloc, def, kit)
}

fn add_to(parts: &mut BTreeMap<u64, MapPart>, number: u64, part: MapPart) -> Result<(), AllocError>
    ensures ok { OnOk result (fin.from_entries {R = nat_cmp} parts.new.entries ≡ fin.insert (fin.from_entries parts.old.entries) number part) }
    ensures err { OnErr result (fin.from_entries {R = nat_cmp} parts.new.entries ≡ fin.from_entries parts.old.entries) }
{
    let _ = parts.insert(number, part)?;
    Ok(())
}

fn remove_from(parts: &mut BTreeMap<u64, MapPart>, number: u64)
    ensures { fin.from_entries {R = nat_cmp} parts.new.entries ≡ fin.remove (fin.from_entries parts.old.entries) number }
{
    let _ = parts.remove(&number);
}
