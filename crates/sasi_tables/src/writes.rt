// Writes: a mutation is logged, and then merged into its memtable.
ghost use Rattle.std.specs.Prelude.{◌≡◌, ◌-◌, ◌∷◌, [], OnOk, Some, map, max, slice_get};
ghost use Rattle.sasi_layout.specs.Classes.{KnowsClasses};
ghost use Rattle.sasi_layout.specs.Moves.{Put};
ghost use Rattle.sasi_layout.specs.Serving.{CanChange};
ghost use Rattle.sasi_layout.specs.Statements.{are_full, flush_where, moves_asked};
ghost use Rattle.sasi_model.specs.Asked.{Writes};
ghost use Rattle.sasi_model.specs.Cells.{max_timestamp_of};
ghost use Rattle.sasi_types.specs.Token.{AreBytes};
ghost use Rattle.sasi_tables.specs.Held.{HasMapFor, HeldTable, held_of, in_memory, unflushed_maps};
ghost use Rattle.sasi_tables.specs.MakesMoves.{Knows, MakesMoves};
ghost use Rattle.sasi_tables.specs.Pinned.{KeepsPinned};
ghost use Rattle.sasi_tables.specs.Puts.{HasTableFor};
ghost use Rattle.sasi_tables.specs.TablesView.{IsOfParts, held_in, memory_of};
ghost use Rattle.sasi_tables.specs.Writable.{IsWritableMutation};
ghost use Rattle.sasi_views.specs.Books.{Book as AViewBook};

use crate::StepFault;
use crate::flush_table::flush_table;
use crate::parts::Parts;
use crate::table_maps::{TableMaps, merge, size_of};
use sasi_analyzers::Kit;
use sasi_cells::Mutation;
use sasi_host::Host;
use sasi_memindex::MapBook;
use sasi_types::TableNumber;
use sasi_views::ViewBook;

/// The maps of a table are flushed once they have so many cells, or so many bytes of keys and values.
const CELL_LIMIT: u64 = 65_536;

const BYTE_LIMIT: u64 = 1 << 26;

/// Puts a mutation, and flushes its table if its maps are full then.
pub fn write<H: Host>(
    parts: &mut Parts,
    views: &ViewBook,
    host: &mut H,
    kit: &mut Kit,
    mutation: Mutation,
) -> Result<(), StepFault>
    requires ready { CanChange (H.view host.old) (memory_of parts.old) }
    requires parts { IsOfParts parts.old }
    requires classes { KnowsClasses (map (λ b. kind (b.vtable, b.value)) kit.old.objects.items) (memory_of parts.old) }
    requires writable { IsWritableMutation (memory_of parts.old) mutation }
    ensures makes { MakesMoves (λ l. moves_asked l (Writes mutation.table mutation.key mutation.change)) (H.view host.old) (H.view host.new) (memory_of parts.old) (memory_of parts.new) result }
    ensures knows { OnOk result (Knows (memory_of parts.new) parts.old.schema.definitions (max parts.old.max_timestamp (max_timestamp_of mutation.change))) }
    ensures parts { OnOk result (IsOfParts parts.new) }
    ensures pinned { OnOk result (KeepsPinned views.now parts.old parts.new) }
    ensures kinds { map (λ b. kind (b.vtable, b.value)) kit.new.objects.items ≡ map (λ b. kind (b.vtable, b.value)) kit.old.objects.items }
{
    let table = mutation.table;
    put(parts, host, kit, mutation)?;
    flush_full(parts, views, host, kit, table)
}

// Flushes a table if its maps are full.
fn flush_full<H: Host>(
    parts: &mut Parts,
    views: &ViewBook,
    host: &mut H,
    kit: &mut Kit,
    table: TableNumber,
) -> Result<(), StepFault>
    requires ready { CanChange (H.view host.old) (memory_of parts.old) }
    requires parts { IsOfParts parts.old }
    requires classes { KnowsClasses (map (λ b. kind (b.vtable, b.value)) kit.old.objects.items) (memory_of parts.old) }
    requires there { HasTableFor table (held_in parts.old) }
    ensures makes { MakesMoves (flush_where are_full table) (H.view host.old) (H.view host.new) (memory_of parts.old) (memory_of parts.new) result }
    ensures knows { OnOk result (Knows (memory_of parts.new) parts.old.schema.definitions parts.old.max_timestamp) }
    ensures parts { OnOk result (IsOfParts parts.new) }
    ensures pinned { OnOk result (KeepsPinned views.now parts.old parts.new) }
    ensures kinds { map (λ b. kind (b.vtable, b.value)) kit.new.objects.items ≡ map (λ b. kind (b.vtable, b.value)) kit.old.objects.items }
{
    if is_full(&parts.tables, &parts.maps, table) {
        return flush_table(parts, views, host, kit, table);
    }
    Ok(())
}

// Whether the maps of a table have so many cells or bytes that it has to be flushed.
fn is_full(tables: &[TableMaps], maps: &MapBook, table: TableNumber) -> bool
    requires { HasMapFor table tables.now maps.now }
    ensures { (t : HeldTable) → slice_get (held_of maps.now tables.now) (table - 1) ≡ Some t → result ≡ are_full (unflushed_maps (in_memory t)) }
{
    let (cells, bytes) = size_of(tables, maps, table);
    cells >= CELL_LIMIT || bytes >= BYTE_LIMIT
}

// Logs a mutation, and then merges it into its memtable.
fn put<H: Host>(
    parts: &mut Parts,
    host: &mut H,
    kit: &mut Kit,
    mutation: Mutation,
) -> Result<(), StepFault>
    requires ready { CanChange (H.view host.old) (memory_of parts.old) }
    requires parts { IsOfParts parts.old }
    requires classes { KnowsClasses (map (λ b. kind (b.vtable, b.value)) kit.old.objects.items) (memory_of parts.old) }
    requires writable { IsWritableMutation (memory_of parts.old) mutation }
    ensures makes { MakesMoves (λ l. Put mutation ∷ []) (H.view host.old) (H.view host.new) (memory_of parts.old) (memory_of parts.new) result }
    ensures knows { OnOk result (Knows (memory_of parts.new) parts.old.schema.definitions (max parts.old.max_timestamp (max_timestamp_of mutation.change))) }
    ensures parts { OnOk result (IsOfParts parts.new) }
    ensures pinned { OnOk result ((views : AViewBook) → KeepsPinned views parts.old parts.new) }
    ensures kinds { map (λ b. kind (b.vtable, b.value)) kit.new.objects.items ≡ map (λ b. kind (b.vtable, b.value)) kit.old.objects.items }
    ensures there { OnOk result (HasTableFor mutation.table (held_in parts.new)) }
{
    note_bytes(mutation.key.bytes());
    parts.log.append(host, &mutation)?;
    let segment = parts.numbers.log;
    let time = merge(&mut parts.tables, &mut parts.maps, kit, segment, mutation)?;
    parts.max_timestamp = parts.max_timestamp.max(time);
    Ok(())
}

// Does nothing. Its clause says that what a slice has are bytes.
fn note_bytes(bytes: &[u8])
    ensures { AreBytes bytes.now }
{
    let _ = bytes;
}
