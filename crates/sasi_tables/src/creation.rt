// New tables.
ghost use Rattle.std.specs.Prelude.{◌≡◌, ◌++◌, ◌∷◌, [], IfOk, OnOk, map};
ghost use Rattle.sasi_layout.specs.Serving.{CanChange};
ghost use Rattle.sasi_layout.specs.Statements.{moves_asked};
ghost use Rattle.sasi_model.specs.Asked.{Creates};
ghost use Rattle.sasi_schema.specs.Defined.{definition};
ghost use Rattle.sasi_tables.specs.MakesMoves.{Knows, MakesMoves};
ghost use Rattle.sasi_tables.specs.Pinned.{KeepsPinned};
ghost use Rattle.sasi_tables.specs.TablesView.{IsOfParts, memory_of};
ghost use Rattle.sasi_tables.specs.Writable.{IsCreatable};
ghost use Rattle.sasi_views.specs.Books.{Book as AViewBook};

use crate::StepFault;
use crate::parts::Parts;
use crate::table_maps::add_table;
use sasi_analyzers::Kit;
use sasi_host::{Host, SegmentNumber};
use sasi_manifest::{Edit, EditList};
use sasi_memtable::Memtable;
use sasi_recover::TableMap;
use sasi_schema::Table;
use std::alloc::{AllocError, Global};

/// Lists a table in the manifest, and creates it.
pub fn create<H: Host>(
    parts: &mut Parts,
    host: &mut H,
    kit: &mut Kit,
    table: Table,
) -> Result<(), StepFault>
    requires ready { CanChange (H.view host.old) (memory_of parts.old) }
    requires parts { IsOfParts parts.old }
    requires creatable { IsCreatable (memory_of parts.old) table }
    ensures makes { MakesMoves (λ l. moves_asked l (Creates (definition table))) (H.view host.old) (H.view host.new) (memory_of parts.old) (memory_of parts.new) result }
    ensures knows { OnOk result (Knows (memory_of parts.new) (parts.old.schema.definitions ++ definition table ∷ []) parts.old.max_timestamp) }
    ensures parts { OnOk result (IsOfParts parts.new) }
    ensures pinned { OnOk result ((views : AViewBook) → KeepsPinned views parts.old parts.new) }
    ensures kinds { map (λ b. kind (b.vtable, b.value)) kit.new.objects.items ≡ map (λ b. kind (b.vtable, b.value)) kit.old.objects.items }
{
    let edits = create_edits(parts.alloc, &table, parts.manifest.listing().last)?;
    parts.manifest.append(host, &edits)?;
    let new = TableMap {
        number: table.number,
        memtable: Memtable::new(parts.alloc, parts.manifest.listing().partitioner),
        first: None,
    };
    parts.schema.restore_table(table)?;
    add_table(
        parts.alloc,
        &mut parts.tables,
        &mut parts.maps,
        &mut parts.last_map,
        kit,
        new,
        &[],
    )?;
    Ok(())
}

// The edit that lists a table whose mutations stand in the segments of the log from this one on.
fn create_edits(alloc: Global, table: &Table, since: SegmentNumber) -> Result<EditList, AllocError>
    ensures { IfOk result (λ edits. edits ≡ Edit.CreateTable table.now.number table.now.name table.now.columns table.now.key since ∷ []) }
{
    let mut edits = EditList::new(alloc);
    edits.push(Edit::CreateTable {
        number: table.number,
        name: table.name.copy(alloc)?,
        columns: table.columns.copy(alloc)?,
        key: table.key,
        since,
    })?;
    Ok(edits)
}
