// New indexes.
ghost use Rattle.std.specs.Prelude.{◌≡◌, ◌∷◌, [], IfErr, IfOk, OnOk, map};
ghost use Rattle.sasi_layout.specs.Classes.{HasNeeded, LacksNeeded};
ghost use Rattle.sasi_layout.specs.Serving.{CanChange};
ghost use Rattle.sasi_layout.specs.Statements.{moves_asked};
ghost use Rattle.sasi_manifest.specs.Listings.{index_edit};
ghost use Rattle.sasi_model.specs.Asked.{Defines, class_needed};
ghost use Rattle.sasi_model.specs.Changes.{at_number};
ghost use Rattle.sasi_model.specs.State.{with_index};
ghost use Rattle.sasi_schema.specs.SchemaViews.{index_of_new};
ghost use Rattle.sasi_tables.specs.MakesMoves.{Knows, MakesMoves};
ghost use Rattle.sasi_tables.specs.Numbers.{IsNextIndex, IsSpentIndex};
ghost use Rattle.sasi_tables.specs.Pinned.{KeepsPinned};
ghost use Rattle.sasi_tables.specs.TablesView.{IsOfParts, memory_of};
ghost use Rattle.sasi_tables.specs.Writable.{IsDefinable};
ghost use Rattle.sasi_views.specs.Books.{Book as AViewBook};

use crate::StepFault;
use crate::parts::Parts;
use crate::table_maps::add_to_all;
use sasi_analyzers::Kit;
use sasi_host::Host;
use sasi_layout::NumberKind;
use sasi_manifest::{Edit, EditList};
use sasi_schema::NewIndex;
use sasi_types::{Class, IndexDef, IndexNumber};
use std::alloc::{AllocError, Global};

/// Passes where an analyzer is there for the index.
pub fn check_class(kit: &Kit, index: &NewIndex) -> Result<(), Class>
    ensures there { OnOk result (HasNeeded (map (λ b. kind (b.vtable, b.value)) kit.now.objects.items) (class_needed (Defines index.now.table (index_of_new index.now)))) }
    ensures missing { IfErr result (LacksNeeded (map (λ b. kind (b.vtable, b.value)) kit.now.objects.items) (Defines index.now.table (index_of_new index.now))) }
{
    let Some(rule) = index.rule else {
        return Ok(());
    };
    let class = rule.class();
    if kit.has(class) { Ok(()) } else { Err(class) }
}

/// Defines an index under the next number, and lists it in the manifest.
pub fn define<H: Host>(
    parts: &mut Parts,
    host: &mut H,
    kit: &mut Kit,
    index: NewIndex,
) -> Result<(), StepFault>
    requires ready { CanChange (H.view host.old) (memory_of parts.old) }
    requires parts { IsOfParts parts.old }
    requires definable { IsDefinable (memory_of parts.old) index }
    requires needed { HasNeeded (map (λ b. kind (b.vtable, b.value)) kit.old.objects.items) (class_needed (Defines index.table (index_of_new index))) }
    ensures makes { MakesMoves (λ l. moves_asked l (Defines index.table (index_of_new index))) (H.view host.old) (H.view host.new) (memory_of parts.old) (memory_of parts.new) result }
    ensures knows { OnOk result (Knows (memory_of parts.new) (at_number 1 index.table (with_index (index_of_new index)) parts.old.schema.definitions) parts.old.max_timestamp) }
    ensures parts { OnOk result (IsOfParts parts.new) }
    ensures pinned { OnOk result ((views : AViewBook) → KeepsPinned views parts.old parts.new) }
    ensures kinds { map (λ b. kind (b.vtable, b.value)) kit.new.objects.items ≡ map (λ b. kind (b.vtable, b.value)) kit.old.objects.items }
{
    let number = next_index(parts.numbers.index)?;
    let def = index.numbered(number);
    let edits = define_edits(parts.alloc, &def)?;
    parts.manifest.append(host, &edits)?;
    let table = &parts.tables[def.table as usize - 1];
    add_to_all(&mut parts.maps, kit, table, &def)?;
    parts.schema.restore_index(def)?;
    parts.numbers.index = number;
    Ok(())
}

// The number after the last used one, unless none is left.
fn next_index(last: IndexNumber) -> Result<IndexNumber, NumberKind>
    ensures next { IfOk result (IsNextIndex last) }
    ensures spent { IfErr result (IsSpentIndex last) }
{
    match last.checked_add(1) {
        Some(next) => Ok(next),
        None => Err(NumberKind::Index),
    }
}

// The edit that lists an index.
fn define_edits(alloc: Global, def: &IndexDef) -> Result<EditList, AllocError>
    ensures { IfOk result (λ edits. edits ≡ index_edit def.now ∷ []) }
{
    let mut edits = EditList::new(alloc);
    edits.push(Edit::create_index(def.copy(alloc)?))?;
    Ok(edits)
}
