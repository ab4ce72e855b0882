// The freeze of a memtable.
ghost use Rattle.std.specs.Prelude.{◌≡◌, ◌<◌, OnOk, Some, length, map, slice_get};
ghost use Rattle.std.specs.List.{AllByRecursion};
ghost use Rattle.sasi_layout.specs.Classes.{KnowsClasses, KnowsIndexes};
ghost use Rattle.sasi_layout.specs.Layout.{Layout};
ghost use Rattle.sasi_layout.specs.Moves.{after_moves};
ghost use Rattle.sasi_layout.specs.Serving.{CanChange, Serves};
ghost use Rattle.sasi_manifest.specs.Listings.{listed_definitions};
ghost use Rattle.sasi_tables.specs.Freezing.{HasEmptyMemtable, HasFrozen, HasFrozenWhere, freeze_where, frozen_where};
ghost use Rattle.sasi_tables.specs.Held.{AreMapped, HeldTable};
ghost use Rattle.sasi_tables.specs.MakesMoves.{Knows};
ghost use Rattle.sasi_tables.specs.Puts.{HasTableFor};
ghost use Rattle.sasi_tables.specs.Pinned.{KeepsPinned};
ghost use Rattle.sasi_tables.specs.TablesView.{IsOfParts, held_in, memory_of, wanted_of};
ghost use Rattle.sasi_views.specs.Books.{Book as AViewBook};

use crate::parts::Parts;
use crate::table_maps::{freeze_map, holds_any};
use sasi_analyzers::Kit;
use sasi_host::Host;
use sasi_memtable::Memtable;
use sasi_types::TableNumber;
use std::alloc::AllocError;

/// Freezes the memtable of a table, unless it is empty: it becomes the last of the frozen maps, and a new one takes the writes from then on.
/// After an error the store isn't used again.
pub fn freeze<H: Host>(
    parts: &mut Parts,
    host: &H,
    kit: &mut Kit,
    table: TableNumber,
) -> Result<(), AllocError>
    requires parts { IsOfParts parts.old }
    requires listed { parts.old.schema.definitions ≡ listed_definitions parts.old.manifest.listing.tables }
    requires classes { KnowsClasses (map (λ b. kind (b.vtable, b.value)) kit.old.objects.items) (memory_of parts.old) }
    requires there { HasTableFor table (held_in parts.old) }
    // No call is made: whichever layout the store serves, it serves the layout after the same moves.
    ensures serves { OnOk result ((l : Layout) → Serves (H.view host.now) (memory_of parts.old) l → Serves (H.view host.now) (memory_of parts.new) (after_moves (freeze_where table l) l)) }
    ensures ready { OnOk result (CanChange (H.view host.now) (memory_of parts.old) → CanChange (H.view host.now) (memory_of parts.new)) }
    ensures memory { OnOk result (memory_of parts.new ≡ frozen_where table (memory_of parts.old)) }
    ensures knows { OnOk result (Knows (memory_of parts.new) parts.old.schema.definitions parts.old.max_timestamp) }
    ensures parts { OnOk result (IsOfParts parts.new) }
    ensures frozen { OnOk result (HasFrozenWhere table parts.old parts.new) }
    ensures empty { OnOk result (HasEmptyMemtable table parts.new) }
    ensures pinned { OnOk result ((views : AViewBook) → KeepsPinned views parts.old parts.new) }
    ensures kinds { map (λ b. kind (b.vtable, b.value)) kit.new.objects.items ≡ map (λ b. kind (b.vtable, b.value)) kit.old.objects.items }
{
    let _ = host;
    if holds_any(&parts.tables, &parts.maps, table) {
        return freeze_held(parts, kit, table as usize - 1);
    }
    Ok(())
}

// Freezes the memtable of the table at this index.
fn freeze_held(parts: &mut Parts, kit: &mut Kit, index: usize) -> Result<(), AllocError>
    requires inside { index < length parts.old.tables.items }
    requires mapped { AreMapped parts.old.maps parts.old.last_map (wanted_of parts.old) parts.old.tables.items }
    requires known { AllByRecursion (KnowsIndexes (map (λ b. kind (b.vtable, b.value)) kit.old.objects.items)) (listed_definitions parts.old.manifest.listing.tables) }
    ensures frozen { OnOk result ((t : HeldTable) → slice_get (held_in parts.old) index ≡ Some t → HasFrozen index t parts.old parts.new) }
    ensures pinned { OnOk result ((views : AViewBook) → KeepsPinned views parts.old parts.new) }
    ensures kinds { map (λ b. kind (b.vtable, b.value)) kit.new.objects.items ≡ map (λ b. kind (b.vtable, b.value)) kit.old.objects.items }
{
    let listing = parts.manifest.listing();
    let empty = Memtable::new(parts.alloc, listing.partitioner);
    let defs = listing.tables.as_slice()[index].table.indexes.as_slice();
    freeze_map(
        &mut parts.tables,
        &mut parts.maps,
        &mut parts.last_map,
        kit,
        index,
        empty,
        defs,
    )?;
    Ok(())
}
