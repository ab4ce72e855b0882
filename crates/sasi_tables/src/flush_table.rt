// The flush of a table of a store.
ghost use Rattle.std.specs.Prelude.{◌≡◌, ◌∷◌, ◌<◌, [], Some, length, map, slice_get, OnOk};
ghost use Rattle.std.specs.List.{AllByRecursion};
ghost use Rattle.sasi_layout.specs.Classes.{KnowsClasses, KnowsIndexes};
ghost use Rattle.sasi_manifest.specs.Listings.{listed_definitions};
ghost use Rattle.sasi_layout.specs.Moves.{Flush};
ghost use Rattle.sasi_layout.specs.Serving.{CanChange};
ghost use Rattle.sasi_layout.specs.Statements.{any_partition, flush_where};
ghost use Rattle.sasi_memindex.specs.Book.{Book};
ghost use Rattle.sasi_schema.specs.Numbers.{RisesFrom};
ghost use Rattle.sasi_tables.specs.Floors.{IsUnflushed, floor_in_memory, lowered};
ghost use Rattle.sasi_tables.specs.Held.{AreMapped, HasNoOthers, HeldTable, held_of, in_memory};
ghost use Rattle.sasi_tables.specs.Clearing.{IsCleared};
ghost use Rattle.sasi_tables.specs.MakesMoves.{Knows, MakesMoves};
ghost use Rattle.sasi_tables.specs.Pinned.{KeepsPinned};
ghost use Rattle.sasi_tables.specs.Puts.{HasTableFor};
ghost use Rattle.sasi_tables.specs.TablesView.{IsOfParts, held_in, memory_of, wanted_of};

use crate::StepFault;
use crate::flush::{FlushNumbers, flush};
use crate::flush_draws::draw_numbers;
use crate::parts::Parts;
use crate::table_maps::{TableMaps, forget, is_unflushed, numbers_of, replace};
use sasi_analyzers::Kit;
use sasi_host::{Host, SegmentNumber};
use sasi_memtable::Memtable;
use sasi_types::TableNumber;
use sasi_views::ViewBook;
use std::alloc::AllocError;

/// Flushes a table, unless its maps are empty.
pub fn flush_unless_empty<H: Host>(
    parts: &mut Parts,
    views: &ViewBook,
    host: &mut H,
    kit: &mut Kit,
    table: TableNumber,
) -> Result<(), StepFault>
    requires ready { CanChange (H.view host.old) (memory_of parts.old) }
    requires parts { IsOfParts parts.old }
    requires classes { KnowsClasses (map (λ b. kind (b.vtable, b.value)) kit.old.objects.items) (memory_of parts.old) }
    requires there { HasTableFor table (held_in parts.old) }
    ensures makes { MakesMoves (flush_where any_partition table) (H.view host.old) (H.view host.new) (memory_of parts.old) (memory_of parts.new) result }
    ensures knows { OnOk result (Knows (memory_of parts.new) parts.old.schema.definitions parts.old.max_timestamp) }
    ensures parts { OnOk result (IsOfParts parts.new) }
    // Of the maps in the book it leaves those of tables, and those that a view lists.
    ensures others { HasNoOthers views.now parts.old.tables.items parts.old.maps → OnOk result (HasNoOthers views.now parts.new.tables.items parts.new.maps) }
    ensures pinned { OnOk result (KeepsPinned views.now parts.old parts.new) }
    ensures kinds { map (λ b. kind (b.vtable, b.value)) kit.new.objects.items ≡ map (λ b. kind (b.vtable, b.value)) kit.old.objects.items }
{
    if is_unflushed(&parts.tables, &parts.maps, table) {
        return flush_table(parts, views, host, kit, table);
    }
    Ok(())
}

/// Flushes a table: the merge of its maps becomes a data file, and the log goes on in a new segment. The frozen maps are dropped, but for
/// those that a view lists which is out.
pub fn flush_table<H: Host>(
    parts: &mut Parts,
    views: &ViewBook,
    host: &mut H,
    kit: &mut Kit,
    table: TableNumber,
) -> Result<(), StepFault>
    requires ready { CanChange (H.view host.old) (memory_of parts.old) }
    requires parts { IsOfParts parts.old }
    requires classes { KnowsClasses (map (λ b. kind (b.vtable, b.value)) kit.old.objects.items) (memory_of parts.old) }
    requires held { IsUnflushed table (memory_of parts.old) }
    ensures makes { MakesMoves (λ l. Flush table ∷ []) (H.view host.old) (H.view host.new) (memory_of parts.old) (memory_of parts.new) result }
    ensures knows { OnOk result (Knows (memory_of parts.new) parts.old.schema.definitions parts.old.max_timestamp) }
    ensures parts { OnOk result (IsOfParts parts.new) }
    // Of the maps in the book it leaves those of tables, and those that a view lists.
    ensures others { HasNoOthers views.now parts.old.tables.items parts.old.maps → OnOk result (HasNoOthers views.now parts.new.tables.items parts.new.maps) }
    ensures pinned { OnOk result (KeepsPinned views.now parts.old parts.new) }
    ensures kinds { map (λ b. kind (b.vtable, b.value)) kit.new.objects.items ≡ map (λ b. kind (b.vtable, b.value)) kit.old.objects.items }
{
    let index = table as usize - 1;
    let drawn = draw_numbers(parts, table)?;
    let numbers = FlushNumbers {
        table,
        file: drawn.numbers.data,
        floor: floor_without(&parts.tables, table, drawn.numbers.log),
        last: drawn.numbers.log,
    };
    let row = &parts.tables[index];
    let own = numbers_of(parts.alloc, row)?;
    parts.log = flush(
        parts.alloc,
        host,
        kit,
        &mut parts.manifest,
        &parts.maps,
        own.as_slice(),
        &drawn.defs,
        numbers,
        &drawn.parts,
    )?;
    parts.numbers = drawn.numbers;
    clear(parts, views, kit, index)?;
    Ok(())
}

// Puts an empty memtable in the place of the maps of a table, and drops the frozen ones that no view lists.
fn clear(parts: &mut Parts, views: &ViewBook, kit: &mut Kit, index: usize) -> Result<(), AllocError>
    requires inside { index < length parts.old.tables.items }
    requires mapped { AreMapped parts.old.maps parts.old.last_map (wanted_of parts.old) parts.old.tables.items }
    requires known { AllByRecursion (KnowsIndexes (map (λ b. kind (b.vtable, b.value)) kit.old.objects.items)) (listed_definitions parts.old.manifest.listing.tables) }
    ensures cleared { OnOk result ((t : HeldTable) → slice_get (held_in parts.old) index ≡ Some t → IsCleared index t parts.old parts.new) }
    // Of the maps in the book it leaves those of tables, and those that a view lists.
    ensures others { HasNoOthers views.now parts.old.tables.items parts.old.maps → OnOk result (HasNoOthers views.now parts.new.tables.items parts.new.maps) }
    ensures pinned { OnOk result (KeepsPinned views.now parts.old parts.new) }
    ensures kinds { map (λ b. kind (b.vtable, b.value)) kit.new.objects.items ≡ map (λ b. kind (b.vtable, b.value)) kit.old.objects.items }
{
    let listing = parts.manifest.listing();
    let empty = Memtable::new(parts.alloc, listing.partitioner);
    let defs = listing.tables.as_slice()[index].table.indexes.as_slice();
    let frozen = replace(
        parts.alloc,
        &mut parts.tables,
        &mut parts.maps,
        kit,
        index,
        empty,
        defs,
    )?;
    let numbers = frozen.as_slice();
    forget(&mut parts.maps, views, numbers);
    Ok(())
}

// The first segment that has a mutation of another table than this one, or the last segment where none has.
fn floor_without(tables: &[TableMaps], table: TableNumber, last: SegmentNumber) -> SegmentNumber
    requires { RisesFrom 1 (map (λ t. t.number) tables.now) }
    ensures { (maps : Book) → result ≡ floor_in_memory 1 table last (map in_memory (held_of maps tables.now)) }
{
    let mut floor = last;
    for held in tables {
        floor = lower(floor, held, table);
    }
    floor
}

// The segment, or the first one of a table other than this one where that is lower.
fn lower(floor: SegmentNumber, held: &TableMaps, table: TableNumber) -> SegmentNumber
    ensures { result ≡ lowered table floor held.now.number held.now.first }
{
    match held.first {
        Some(first) if held.number != table => floor.min(first),
        _ => floor,
    }
}
