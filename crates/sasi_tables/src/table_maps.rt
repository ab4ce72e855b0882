// The maps of tables in memory: frozen maps and memtables.
ghost use Rattle.std.specs.Prelude.{◌≡◌, ◌≢◌, ◌⊎◌, ◌↔◌, ◌+◌, ◌-◌, ◌<◌, ◌∷◌, [], Contains, IfOk, IsSome, IsTrue, OnOk, Some, length, map, slice_get};
ghost use Rattle.std.specs.FinMap.{get, remove};
ghost use Rattle.std.specs.List.{AllByRecursion, sum_by};
ghost use Rattle.sasi_types.specs.declared.class.Class.{Class as AClass};
ghost use Rattle.sasi_types.specs.declared.kit_fault.KitFault.TheVariants as kit_fault;
ghost use Rattle.sasi_layout.specs.Moves.{or_else};
ghost use Rattle.sasi_layout.specs.Statements.{any_partition};
ghost use Rattle.sasi_memindex.specs.Book.{CanAdd, CanChange, IsAdded, IsChanged, bare};
ghost use Rattle.sasi_memtable.specs.Sizes.{byte_count, cell_count, saturated};
ghost use Rattle.sasi_model.specs.Cells.{max_timestamp_of};
ghost use Rattle.sasi_tables.specs.Held.{AreAdded, AreForgotten, AreForgottenBut, CanAddAll, HasMapFor, HaveRising, HeldTable, IsAddedTo, IsAddedToAll, IsForgottenBut, IsFrozen, IsOfTable, IsPutIn, IsReplaced, KnowsDef, KnowsMap, OthersStay, Rise, held_of, in_memory, map_in, maps_with, numbers_of, unflushed_maps};
ghost use Rattle.sasi_views.specs.Books.{count_of};
ghost use Rattle.sasi_views.specs.declared.component.Component.TheVariants.{Map};
ghost use Rattle.sasi_tables.specs.declared.table_maps.TableMaps.{TableMaps as ATableMaps};

use sasi_analyzers::Kit;
use sasi_cells::{Mutation, Partition};
use sasi_formats::Items;
use sasi_host::SegmentNumber;
use sasi_memindex::MapBook;
use sasi_memtable::Memtable;
use sasi_recover::TableMap;
use sasi_types::{IndexDef, Key, KitFault, TableNumber};
use sasi_views::{Component, ViewBook};
use std::alloc::{AllocError, Global};
use std::mem;

/// Numbers of maps, one after another.
pub type MapNumbers = Items<u64>;

/// A table with the numbers of its maps in the book of maps.
#[derive(Drop)]
pub struct TableMaps {
    pub number: TableNumber,
    /// The maps that no write changes any more, the oldest first.
    pub frozen: MapNumbers,
    pub memtable: u64,
    /// The first live segment that has a mutation of one of the maps.
    pub first: Option<SegmentNumber>,
}

/// The map with this number.
pub fn map_with(maps: &MapBook, number: u64) -> &Memtable
    requires { IsSome (get maps.now number) }
    ensures { result.now ≡ map_in maps.now number }
{
    let Some(part) = maps.get(number) else {
        unreachable!();
    };
    &part.map
}

/// The numbers of a table's maps, the oldest first: the frozen ones, and then the memtable.
pub fn numbers_of(alloc: Global, table: &TableMaps) -> Result<MapNumbers, AllocError>
    ensures { IfOk result (λ numbers. numbers ≡ numbers_of table.now) }
{
    let mut numbers = copy_of(alloc, table.frozen.as_slice())?;
    numbers.push(table.memtable)?;
    Ok(numbers)
}

// A copy of numbers of maps.
fn copy_of(alloc: Global, numbers: &[u64]) -> Result<MapNumbers, AllocError>
    ensures { IfOk result (λ copy. copy ≡ numbers.now) }
{
    let mut copy = MapNumbers::new(alloc);
    for number in numbers {
        copy.push(*number)?;
    }
    Ok(copy)
}

/// Whether the memtable of a table holds anything.
pub fn holds_any(tables: &[TableMaps], maps: &MapBook, table: TableNumber) -> bool
    requires { HasMapFor table tables.now maps.now }
    ensures { (t : HeldTable) → slice_get (held_of maps.now tables.now) (table - 1) ≡ Some t → result ≡ any_partition (t.memtable.partitions ∷ []) }
{
    !map_with(maps, tables[table as usize - 1].memtable).is_empty()
}

/// Whether one of the maps of a table holds anything.
pub fn is_unflushed(tables: &[TableMaps], maps: &MapBook, table: TableNumber) -> bool
    requires { HasMapFor table tables.now maps.now }
    ensures { (t : HeldTable) → slice_get (held_of maps.now tables.now) (table - 1) ≡ Some t → result ≡ any_partition (unflushed_maps (in_memory t)) }
{
    let table = &tables[table as usize - 1];
    any_held(maps, table.frozen.as_slice()) || !map_with(maps, table.memtable).is_empty()
}

// Whether one of the maps with these numbers holds anything.
fn any_held(maps: &MapBook, numbers: &[u64]) -> bool
    requires { AllByRecursion (λ number. IsSome (get maps.now number)) numbers.now }
    ensures { result ≡ any_partition (maps_with maps.now numbers.now) }
{
    for number in numbers {
        if !map_with(maps, *number).is_empty() {
            return true;
        }
    }
    false
}

/// The cells of the maps of a table, and the bytes of their keys and values. Each count stays at 2^64 - 1.
pub fn size_of(tables: &[TableMaps], maps: &MapBook, table: TableNumber) -> (u64, u64)
    requires { HasMapFor table tables.now maps.now }
    ensures cells { (t : HeldTable) → slice_get (held_of maps.now tables.now) (table - 1) ≡ Some t → result.0 ≡ saturated (sum_by cell_count (unflushed_maps (in_memory t))) }
    ensures bytes { (t : HeldTable) → slice_get (held_of maps.now tables.now) (table - 1) ≡ Some t → result.1 ≡ saturated (sum_by byte_count (unflushed_maps (in_memory t))) }
{
    let table = &tables[table as usize - 1];
    let memtable = map_with(maps, table.memtable);
    let (cells, bytes) = sizes_of(maps, table.frozen.as_slice());
    (
        cells.saturating_add(memtable.cells()),
        bytes.saturating_add(memtable.bytes()),
    )
}

// The same of the maps with these numbers.
fn sizes_of(maps: &MapBook, numbers: &[u64]) -> (u64, u64)
    requires { AllByRecursion (λ number. IsSome (get maps.now number)) numbers.now }
    ensures cells { result.0 ≡ saturated (sum_by cell_count (maps_with maps.now numbers.now)) }
    ensures bytes { result.1 ≡ saturated (sum_by byte_count (maps_with maps.now numbers.now)) }
{
    let mut cells = 0u64;
    let mut bytes = 0u64;
    for number in numbers {
        let map = map_with(maps, *number);
        cells = cells.saturating_add(map.cells());
        bytes = bytes.saturating_add(map.bytes());
    }
    (cells, bytes)
}

/// Merges a mutation into the memtable of its table and into its indexes, and gives its largest timestamp.
pub fn merge(
    tables: &mut Vec<TableMaps>,
    maps: &mut MapBook,
    kit: &mut Kit,
    segment: SegmentNumber,
    mutation: Mutation,
) -> Result<u64, AllocError>
    requires there { HasMapFor mutation.table tables.old.items maps.old }
    requires can { (t : ATableMaps) → slice_get tables.old.items (mutation.table - 1) ≡ Some t → CanChange (get maps.old t.memtable) mutation.change }
    requires known { (t : ATableMaps) → slice_get tables.old.items (mutation.table - 1) ≡ Some t → KnowsMap (map (λ b. kind (b.vtable, b.value)) kit.old.objects.items) (get maps.old t.memtable) }
    ensures ok { OnOk result ((t : ATableMaps) → slice_get tables.old.items (mutation.table - 1) ≡ Some t → IsPutIn segment mutation t tables.old.items tables.new.items maps.old maps.new) }
    ensures time { IfOk result (λ time. time ≡ max_timestamp_of mutation.change) }
    ensures kinds { map (λ b. kind (b.vtable, b.value)) kit.new.objects.items ≡ map (λ b. kind (b.vtable, b.value)) kit.old.objects.items }
{
    let time = mutation.change.max_timestamp();
    let table = &mut tables[mutation.table as usize - 1];
    put_into(table, maps, kit, segment, mutation.key, mutation.change)?;
    Ok(time)
}

// Merges a change into the memtable of a table, of which this segment of the log has a mutation now.
fn put_into(
    table: &mut TableMaps,
    maps: &mut MapBook,
    kit: &mut Kit,
    segment: SegmentNumber,
    key: Key,
    change: Partition,
) -> Result<(), AllocError>
    requires can { CanChange (get maps.old table.old.memtable) change }
    requires known { KnowsMap (map (λ b. kind (b.vtable, b.value)) kit.old.objects.items) (get maps.old table.old.memtable) }
    ensures table { OnOk result (table.new ≡ record table.old { first = or_else table.old.first (Some segment) }) }
    ensures changed { OnOk result (IsChanged key change (get maps.old table.old.memtable) (get maps.new table.old.memtable)) }
    ensures others { OthersStay table.old.memtable maps.old maps.new }
    ensures kinds { map (λ b. kind (b.vtable, b.value)) kit.new.objects.items ≡ map (λ b. kind (b.vtable, b.value)) kit.old.objects.items }
{
    put_in_book(maps, kit, table.memtable, key, change)?;
    if table.first.is_none() {
        table.first = Some(segment);
    }
    Ok(())
}

// Merges a change into a map and its indexes, all of whose analyzers are there.
fn put_in_book(
    maps: &mut MapBook,
    kit: &mut Kit,
    number: u64,
    key: Key,
    change: Partition,
) -> Result<(), AllocError>
    requires can { CanChange (get maps.old number) change }
    requires known { KnowsMap (map (λ b. kind (b.vtable, b.value)) kit.old.objects.items) (get maps.old number) }
    ensures changed { OnOk result (IsChanged key change (get maps.old number) (get maps.new number)) }
    ensures others { OthersStay number maps.old maps.new }
    ensures kinds { map (λ b. kind (b.vtable, b.value)) kit.new.objects.items ≡ map (λ b. kind (b.vtable, b.value)) kit.old.objects.items }
{
    match maps.put_from(number, key, change, kit) {
        Ok(()) => Ok(()),
        Err(fault) => Err(memory_fault(fault)),
    }
}

// The fault where no analyzer is missing.
fn memory_fault(fault: KitFault) -> AllocError
    requires { (class : AClass) → fault ≢ kit_fault.Missing class }
{
    match fault {
        KitFault::OutOfMemory => AllocError,
        KitFault::Missing(_) => unreachable!(),
    }
}

/// Adds a table, whose memtable comes into the book under the next number, with indexes of these definitions.
pub fn add_table(
    alloc: Global,
    tables: &mut Vec<TableMaps>,
    maps: &mut MapBook,
    last: &mut u64,
    kit: &mut Kit,
    table: TableMap,
    defs: &[IndexDef],
) -> Result<(), AllocError>
    requires can { CanAddAll defs.now (Some (bare table.memtable)) }
    requires known { AllByRecursion (KnowsDef (map (λ b. kind (b.vtable, b.value)) kit.old.objects.items)) defs.now }
    ensures ok { OnOk result (IsAddedTo last.old table defs.now tables.old.items tables.new.items maps.old maps.new) }
    ensures last { OnOk result (last.new ≡ last.old + 1) }
    ensures kinds { map (λ b. kind (b.vtable, b.value)) kit.new.objects.items ≡ map (λ b. kind (b.vtable, b.value)) kit.old.objects.items }
{
    let Some(memtable) = last.checked_add(1) else {
        return Err(AllocError);
    };
    set_map(maps, kit, memtable, table.memtable, defs)?;
    tables.push(TableMaps {
        number: table.number,
        frozen: MapNumbers::new(alloc),
        memtable,
        first: table.first,
    })?;
    *last = memtable;
    Ok(())
}

/// Puts another memtable with indexes of these definitions in the place of a table's own. The table has no frozen map and no first
/// segment then. Gives the numbers of those that it had, which stay in the book.
pub fn replace(
    alloc: Global,
    tables: &mut Vec<TableMaps>,
    maps: &mut MapBook,
    kit: &mut Kit,
    index: usize,
    memtable: Memtable,
    defs: &[IndexDef],
) -> Result<MapNumbers, AllocError>
    requires inside { index < length tables.old.items }
    requires can { CanAddAll defs.now (Some (bare memtable)) }
    requires known { AllByRecursion (KnowsDef (map (λ b. kind (b.vtable, b.value)) kit.old.objects.items)) defs.now }
    ensures ok { OnOk result ((t : ATableMaps) → slice_get tables.old.items index ≡ Some t → IsReplaced index memtable defs.now t tables.old.items tables.new.items maps.old maps.new) }
    ensures frozen { IfOk result (λ frozen. (t : ATableMaps) → slice_get tables.old.items index ≡ Some t → frozen ≡ t.frozen) }
    ensures kinds { map (λ b. kind (b.vtable, b.value)) kit.new.objects.items ≡ map (λ b. kind (b.vtable, b.value)) kit.old.objects.items }
{
    let table = &mut tables[index];
    set_map(maps, kit, table.memtable, memtable, defs)?;
    table.first = None;
    Ok(mem::replace(&mut table.frozen, MapNumbers::new(alloc)))
}

/// Makes the memtable of a table its last frozen map, and another one, with indexes of these definitions, its memtable under the next
/// number.
pub fn freeze_map(
    tables: &mut Vec<TableMaps>,
    maps: &mut MapBook,
    last: &mut u64,
    kit: &mut Kit,
    index: usize,
    memtable: Memtable,
    defs: &[IndexDef],
) -> Result<(), AllocError>
    requires inside { index < length tables.old.items }
    requires can { CanAddAll defs.now (Some (bare memtable)) }
    requires known { AllByRecursion (KnowsDef (map (λ b. kind (b.vtable, b.value)) kit.old.objects.items)) defs.now }
    ensures ok { OnOk result ((t : ATableMaps) → slice_get tables.old.items index ≡ Some t → IsFrozen last.old index memtable defs.now t tables.old.items tables.new.items maps.old maps.new) }
    ensures last { OnOk result (last.new ≡ last.old + 1) }
    ensures kinds { map (λ b. kind (b.vtable, b.value)) kit.new.objects.items ≡ map (λ b. kind (b.vtable, b.value)) kit.old.objects.items }
{
    let Some(number) = last.checked_add(1) else {
        return Err(AllocError);
    };
    set_map(maps, kit, number, memtable, defs)?;
    let table = &mut tables[index];
    table.frozen.push(table.memtable)?;
    table.memtable = number;
    *last = number;
    Ok(())
}

/// Drops the maps with these numbers from the book, but for those that a view lists which is out.
pub fn forget(maps: &mut MapBook, views: &ViewBook, numbers: &[u64])
    ensures { AreForgotten views.now numbers.now maps.old maps.new }
{
    for number in numbers {
        forget_one(maps, views, *number);
    }
}

/// Drops the maps with these numbers that no table has, but for those that a view lists which is out.
pub fn forget_unused(maps: &mut MapBook, views: &ViewBook, tables: &[TableMaps], numbers: &[u64])
    requires { HaveRising tables.now }
    ensures { AreForgottenBut tables.now views.now numbers.now maps.old maps.new }
{
    for number in numbers {
        forget_one_unused(maps, views, tables, *number);
    }
}

// Drops the map with this number, unless a table has it or a view lists it.
fn forget_one_unused(maps: &mut MapBook, views: &ViewBook, tables: &[TableMaps], number: u64)
    requires { HaveRising tables.now }
    ensures { IsForgottenBut tables.now views.now number maps.old maps.new }
{
    if has_map(tables, number) {
        return;
    }
    forget_one(maps, views, number);
}

// Whether one of the tables has the map with this number.
fn has_map(tables: &[TableMaps], number: u64) -> bool
    requires { HaveRising tables.now }
    ensures { IsTrue result ↔ IsOfTable tables.now number }
{
    for table in tables {
        if has_number(table, number) {
            return true;
        }
    }
    false
}

// Whether the table has the map with this number.
fn has_number(table: &TableMaps, number: u64) -> bool
    requires { Rise table.now.frozen }
    ensures { IsTrue result ↔ (Contains table.now.frozen number ⊎ (table.now.memtable ≡ number)) }
{
    is_among(table.frozen.as_slice(), number) || table.memtable == number
}

// Whether the number is one of these, which rise: a table may have many frozen maps.
fn is_among(numbers: &[u64], number: u64) -> bool
    requires { Rise numbers.now }
    ensures { IsTrue result ↔ Contains numbers.now number }
{
    numbers.binary_search(&number).is_ok()
}

// Drops the map with this number, unless a view lists it.
fn forget_one(maps: &mut MapBook, views: &ViewBook, number: u64)
    ensures gone { count_of views.now (Map number) ≡ 0 → maps.new ≡ remove maps.old number }
    ensures listed { (count_of views.now (Map number) ≡ 0 → ⊥) → maps.new ≡ maps.old }
{
    if views.count(&Component::Map(number)) == 0 {
        maps.remove(number);
    }
}

// Puts a map into the book, with indexes of these definitions.
fn set_map(
    maps: &mut MapBook,
    kit: &mut Kit,
    number: u64,
    memtable: Memtable,
    defs: &[IndexDef],
) -> Result<(), AllocError>
    requires can { CanAddAll defs.now (Some (bare memtable)) }
    requires known { AllByRecursion (KnowsDef (map (λ b. kind (b.vtable, b.value)) kit.old.objects.items)) defs.now }
    ensures made { OnOk result (AreAdded defs.now (Some (bare memtable)) (get maps.new number)) }
    ensures others { OthersStay number maps.old maps.new }
    ensures kinds { map (λ b. kind (b.vtable, b.value)) kit.new.objects.items ≡ map (λ b. kind (b.vtable, b.value)) kit.old.objects.items }
{
    maps.add(number, memtable)?;
    for def in defs {
        add_index(maps, kit, number, def)?;
    }
    Ok(())
}

/// Adds an index to each map of a table, whose analyzer is there.
pub fn add_to_all(
    maps: &mut MapBook,
    kit: &mut Kit,
    table: &TableMaps,
    def: &IndexDef,
) -> Result<(), AllocError>
    requires apart { Rise (numbers_of table.now) }
    requires can { AllByRecursion (λ number. CanAdd def.now.column def.now.kind (get maps.old number)) (numbers_of table.now) }
    requires known { KnowsDef (map (λ b. kind (b.vtable, b.value)) kit.old.objects.items) def.now }
    ensures ok { OnOk result (IsAddedToAll def.now (numbers_of table.now) maps.old maps.new) }
    ensures kinds { map (λ b. kind (b.vtable, b.value)) kit.new.objects.items ≡ map (λ b. kind (b.vtable, b.value)) kit.old.objects.items }
{
    add_to_each(maps, kit, table.frozen.as_slice(), def)?;
    add_index(maps, kit, table.memtable, def)?;
    Ok(())
}

// Adds an index to each of the maps with these numbers.
fn add_to_each(
    maps: &mut MapBook,
    kit: &mut Kit,
    numbers: &[u64],
    def: &IndexDef,
) -> Result<(), AllocError>
    requires apart { Rise numbers.now }
    requires can { AllByRecursion (λ number. CanAdd def.now.column def.now.kind (get maps.old number)) numbers.now }
    requires known { KnowsDef (map (λ b. kind (b.vtable, b.value)) kit.old.objects.items) def.now }
    ensures ok { OnOk result (IsAddedToAll def.now numbers.now maps.old maps.new) }
    ensures kinds { map (λ b. kind (b.vtable, b.value)) kit.new.objects.items ≡ map (λ b. kind (b.vtable, b.value)) kit.old.objects.items }
{
    for number in numbers {
        add_index(maps, kit, *number, def)?;
    }
    Ok(())
}

// Adds an index to a map, whose analyzer is there.
fn add_index(
    maps: &mut MapBook,
    kit: &mut Kit,
    number: u64,
    def: &IndexDef,
) -> Result<(), AllocError>
    requires can { CanAdd def.now.column def.now.kind (get maps.old number) }
    requires known { KnowsDef (map (λ b. kind (b.vtable, b.value)) kit.old.objects.items) def.now }
    ensures ok { OnOk result (IsAdded def.now.number def.now.column def.now.kind def.now.rule (get maps.old number) (get maps.new number)) }
    ensures others { OthersStay number maps.old maps.new }
    ensures kinds { map (λ b. kind (b.vtable, b.value)) kit.new.objects.items ≡ map (λ b. kind (b.vtable, b.value)) kit.old.objects.items }
{
    match maps.index(number, def, kit) {
        Ok(()) => Ok(()),
        Err(fault) => Err(memory_fault(fault)),
    }
}
