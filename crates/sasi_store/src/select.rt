// SELECTs.
ghost use Rattle.std.specs.Prelude.{◌≡◌, ◌+◌, ◌++◌, ◌≤◌, List, IfErr, IfOk, OnOk, map};
ghost use Rattle.sasi_folder.specs.Damages.{FolderShows};
ghost use Rattle.sasi_host.specs.Damages.{OnDamage};
ghost use Rattle.sasi_host.specs.Disk.{Changes, Same};
ghost use Rattle.sasi_host.specs.Names.{Folder};
ghost use Rattle.sasi_layout.specs.Classes.{KnowsClasses};
ghost use Rattle.sasi_layout.specs.Layout.{Layout, state_of};
ghost use Rattle.sasi_layout.specs.Serving.{CanChange, Serves};
ghost use Rattle.sasi_machine.specs.Prepares.{answer_rows};
ghost use Rattle.sasi_recheck.specs.Rows.{KnowsWhere};
ghost use Rattle.sasi_scan.specs.Scanning.{ScanCauses};
ghost use Rattle.sasi_tables.specs.Faults.{OnMissing, OnSpent, OnStepDamage, StepCauses};
ghost use Rattle.sasi_store.specs.Selects.{HasShortFiles, IsPlanFor, IsSelectable, selection_reads};
ghost use Rattle.sasi_tables.specs.TablesView.{IsOfParts, memory_of};
ghost use Rattle.sasi_types.specs.declared.kit_fault.KitFault.TheVariants.{OutOfMemory};
ghost use Rattle.sasi_views.specs.Kept.{IsCounted};
ghost use Rattle.sasi_views.specs.declared.part.Part.{Part as AnyPart};
ghost use Rattle.sasi_store.specs.Cursors.{HasFewOut};
ghost use Rattle.sasi_store.specs.Worlds.{rows_tail, selection_checks};

use crate::session_state::SessionState;
use sasi_analyzers::Kit;
use sasi_cache::Cached;
use sasi_fetch::print_rows;
use sasi_host::{Direct, Host, PageReader, ReadFault};
use sasi_machine::{Reply, Selection};
use sasi_plan::{Plan, Reader};
use sasi_print::checked;
use sasi_tables::{Parts, StepFault, view_parts};
use sasi_types::KitFault;
use sasi_views::ViewBook;
use std::alloc::AllocError;

// How many pages a SELECT keeps of those that it has read: 4 MiB.
const CACHED_PAGES: usize = 1024;

/// Prints the rows that a SELECT asks for, and where TRACE is on how many candidates were checked for them.
pub fn select<H: Host>(
    parts: &Parts,
    session: &mut SessionState,
    host: &mut H,
    kit: &mut Kit,
    rows: &Selection,
    reply: &mut Reply,
) -> Result<(), StepFault>
    requires ready { CanChange (H.view host.old) (memory_of parts.now) }
    requires parts { IsOfParts parts.now }
    requires classes { KnowsClasses (map (λ b. kind (b.vtable, b.value)) kit.old.objects.items) (memory_of parts.now) }
    requires there { IsSelectable (memory_of parts.now) rows.now }
    requires few { HasFewOut session.old.views }
    ensures ok { OnOk result ((l : Layout) → Serves (H.view host.old) (memory_of parts.now) l → reply.new ≡ reply.old ++ (answer_rows (state_of l) rows.now ++ rows_tail session.old.trace (selection_checks l rows.now))) }
    // Where a relation is on an indexed column, the bound supposes files of at most 2^40 bytes.
    ensures reads { (l : Layout) → Serves (H.view host.old) (memory_of parts.now) l → HasShortFiles (H.view host.old).files l rows.now → (H.view host.new).reads ≤ (H.view host.old).reads + selection_reads (H.view host.old).files l rows.now }
    ensures damaged { (folder : Folder) → (H.view host.new).files ≡ Some folder → IfErr result (OnStepDamage (FolderShows folder)) }
    ensures undamaged { (l : Layout) → Serves (H.view host.old) (memory_of parts.now) l → IfErr result (OnStepDamage (λ _. ⊥)) }
    ensures unspent { IfErr result (OnSpent (λ _. ⊥)) }
    ensures present { IfErr result (OnMissing (λ _. ⊥)) }
    ensures kinds { map (λ b. kind (b.vtable, b.value)) kit.new.objects.items ≡ map (λ b. kind (b.vtable, b.value)) kit.old.objects.items }
    ensures changes { Changes Same (H.view host.old) (H.view host.new) }
    ensures causes { StepCauses (H.view host.old) (H.view host.new) result }
    ensures trace { session.new.trace ≡ session.old.trace }
    // The view is given back, also where it fails.
    ensures back { (out : List (List AnyPart)) → IsCounted session.old.views out → IsCounted session.new.views out }
    ensures cursors { session.new.cursors ≡ session.old.cursors }
    ensures tasks { session.new.tasks ≡ session.old.tasks }
{
    let candidates = answer(parts, &mut session.views, host, kit, rows, reply)?;
    print_checked(session, candidates, reply)?;
    Ok(())
}

// Adds the line of TRACE where it is on.
fn print_checked(
    session: &SessionState,
    candidates: u64,
    reply: &mut Reply,
) -> Result<(), AllocError>
    ensures { OnOk result (reply.new ≡ reply.old ++ rows_tail session.now.trace candidates) }
{
    if session.trace {
        checked(reply, candidates)?;
    }
    Ok(())
}

// Prints the rows, over a view of the current parts of their table, and gives how many candidates were checked.
fn answer<H: Host>(
    parts: &Parts,
    views: &mut ViewBook,
    host: &mut H,
    kit: &mut Kit,
    rows: &Selection,
    reply: &mut Reply,
) -> Result<u64, StepFault>
    requires ready { CanChange (H.view host.old) (memory_of parts.now) }
    requires parts { IsOfParts parts.now }
    requires classes { KnowsClasses (map (λ b. kind (b.vtable, b.value)) kit.old.objects.items) (memory_of parts.now) }
    requires there { IsSelectable (memory_of parts.now) rows.now }
    requires few { HasFewOut views.old }
    ensures ok { OnOk result ((l : Layout) → Serves (H.view host.old) (memory_of parts.now) l → reply.new ≡ reply.old ++ answer_rows (state_of l) rows.now) }
    ensures counted { IfOk result (λ checked. (l : Layout) → Serves (H.view host.old) (memory_of parts.now) l → checked ≡ selection_checks l rows.now) }
    // Where a relation is on an indexed column, the bound supposes files of at most 2^40 bytes.
    ensures reads { (l : Layout) → Serves (H.view host.old) (memory_of parts.now) l → HasShortFiles (H.view host.old).files l rows.now → (H.view host.new).reads ≤ (H.view host.old).reads + selection_reads (H.view host.old).files l rows.now }
    ensures damaged { (folder : Folder) → (H.view host.new).files ≡ Some folder → IfErr result (OnStepDamage (FolderShows folder)) }
    ensures undamaged { (l : Layout) → Serves (H.view host.old) (memory_of parts.now) l → IfErr result (OnStepDamage (λ _. ⊥)) }
    ensures unspent { IfErr result (OnSpent (λ _. ⊥)) }
    ensures present { IfErr result (OnMissing (λ _. ⊥)) }
    ensures kinds { map (λ b. kind (b.vtable, b.value)) kit.new.objects.items ≡ map (λ b. kind (b.vtable, b.value)) kit.old.objects.items }
    ensures changes { Changes Same (H.view host.old) (H.view host.new) }
    ensures causes { StepCauses (H.view host.old) (H.view host.new) result }
    // The view is given back, also where it fails.
    ensures back { (out : List (List AnyPart)) → IsCounted views.old out → IsCounted views.new out }
{
    let plan = plan_for(parts, host, kit, rows)?;
    Ok(read_plan(parts, views, host, kit, rows, plan, reply)?)
}

/// The plan of a SELECT on its table. No call is made.
pub fn plan_for<H: Host>(
    parts: &Parts,
    host: &H,
    kit: &mut Kit,
    rows: &Selection,
) -> Result<Plan, KitFault>
    requires ready { CanChange (H.view host.now) (memory_of parts.now) }
    requires classes { KnowsClasses (map (λ b. kind (b.vtable, b.value)) kit.old.objects.items) (memory_of parts.now) }
    requires there { IsSelectable (memory_of parts.now) rows.now }
    ensures plan { IfOk result (λ plan. IsPlanFor parts.now rows.now plan) }
    ensures known { IfOk result (λ plan. KnowsWhere (map (λ b. kind (b.vtable, b.value)) kit.old.objects.items) plan.conditions) }
    ensures memory { IfErr result (λ fault. fault ≡ OutOfMemory) }
    ensures kinds { map (λ b. kind (b.vtable, b.value)) kit.new.objects.items ≡ map (λ b. kind (b.vtable, b.value)) kit.old.objects.items }
{
    let _ = host;
    let listing = parts.manifest.listing();
    let index = rows.table as usize - 1;
    let table = &listing.tables.as_slice()[index].table;
    let plan = Plan::new(parts.alloc, &rows.select, table, listing.partitioner, kit)?;
    Ok(plan)
}

// Prints the rows of a plan. Pages that are read again and again are kept until the last row.
fn read_plan<H: Host>(
    parts: &Parts,
    views: &mut ViewBook,
    host: &mut H,
    kit: &mut Kit,
    rows: &Selection,
    plan: Plan,
    reply: &mut Reply,
) -> Result<u64, ReadFault>
    requires ready { CanChange (H.view host.old) (memory_of parts.now) }
    requires parts { IsOfParts parts.now }
    requires plan { IsPlanFor parts.now rows.now plan }
    requires known { KnowsWhere (map (λ b. kind (b.vtable, b.value)) kit.old.objects.items) plan.conditions }
    requires few { HasFewOut views.old }
    ensures ok { OnOk result ((l : Layout) → Serves (H.view host.old) (memory_of parts.now) l → reply.new ≡ reply.old ++ answer_rows (state_of l) rows.now) }
    ensures counted { IfOk result (λ checked. (l : Layout) → Serves (H.view host.old) (memory_of parts.now) l → checked ≡ selection_checks l rows.now) }
    ensures reads { (l : Layout) → Serves (H.view host.old) (memory_of parts.now) l → HasShortFiles (H.view host.old).files l rows.now → (H.view host.new).reads ≤ (H.view host.old).reads + selection_reads (H.view host.old).files l rows.now }
    ensures damaged { (folder : Folder) → (H.view host.old).files ≡ Some folder → IfErr result (OnDamage (FolderShows folder)) }
    ensures undamaged { (l : Layout) → Serves (H.view host.old) (memory_of parts.now) l → IfErr result (OnDamage (λ _. ⊥)) }
    ensures kinds { map (λ b. kind (b.vtable, b.value)) kit.new.objects.items ≡ map (λ b. kind (b.vtable, b.value)) kit.old.objects.items }
    ensures changes { Changes Same (H.view host.old) (H.view host.new) }
    ensures causes { ScanCauses (H.view host.old) (H.view host.new) result }
    ensures back { (out : List (List AnyPart)) → IsCounted views.old out → IsCounted views.new out }
{
    if !plan.asks_indexes() {
        return read_view(parts, views, host, &mut Direct, kit, rows, plan, reply);
    }
    let mut pages = Cached::new(parts.alloc, CACHED_PAGES)?;
    read_view(parts, views, host, &mut pages, kit, rows, plan, reply)
}

// Prints the rows of a plan over a view of the current parts of its table.
fn read_view<H: Host, P: PageReader>(
    parts: &Parts,
    views: &mut ViewBook,
    host: &mut H,
    pages: &mut P,
    kit: &mut Kit,
    rows: &Selection,
    plan: Plan,
    reply: &mut Reply,
) -> Result<u64, ReadFault>
    requires ready { CanChange (H.view host.old) (memory_of parts.now) }
    requires parts { IsOfParts parts.now }
    requires plan { IsPlanFor parts.now rows.now plan }
    requires known { KnowsWhere (map (λ b. kind (b.vtable, b.value)) kit.old.objects.items) plan.conditions }
    requires few { HasFewOut views.old }
    requires agrees { P.agrees pages.old (H.view host.old).files }
    ensures ok { OnOk result ((l : Layout) → Serves (H.view host.old) (memory_of parts.now) l → reply.new ≡ reply.old ++ answer_rows (state_of l) rows.now) }
    ensures counted { IfOk result (λ checked. (l : Layout) → Serves (H.view host.old) (memory_of parts.now) l → checked ≡ selection_checks l rows.now) }
    ensures reads { (l : Layout) → Serves (H.view host.old) (memory_of parts.now) l → HasShortFiles (H.view host.old).files l rows.now → (H.view host.new).reads ≤ (H.view host.old).reads + selection_reads (H.view host.old).files l rows.now }
    ensures damaged { (folder : Folder) → (H.view host.old).files ≡ Some folder → IfErr result (OnDamage (FolderShows folder)) }
    ensures undamaged { (l : Layout) → Serves (H.view host.old) (memory_of parts.now) l → IfErr result (OnDamage (λ _. ⊥)) }
    ensures kinds { map (λ b. kind (b.vtable, b.value)) kit.new.objects.items ≡ map (λ b. kind (b.vtable, b.value)) kit.old.objects.items }
    ensures changes { Changes Same (H.view host.old) (H.view host.new) }
    ensures causes { ScanCauses (H.view host.old) (H.view host.new) result }
    ensures back { (out : List (List AnyPart)) → IsCounted views.old out → IsCounted views.new out }
{
    let current = view_parts(parts.alloc, parts, rows.table)?;
    let view = views.take(current)?;
    let mut reader = Reader::new(plan, view);
    let printed = print_rows(
        parts.alloc,
        host,
        pages,
        kit,
        &parts.maps,
        &mut reader,
        reply,
    );
    views.give(reader.end());
    printed
}
