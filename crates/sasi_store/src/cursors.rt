// OPEN, FETCH and CLOSE.
ghost use Rattle.std.specs.Prelude.{◌≡◌, ◌++◌, ◌∷◌, [], ℕ, None, Some, true, false, length, map, ◌<◌, ◌≤◌, IfErr, IfOk, OnOk};
ghost use Rattle.sasi_host.specs.Disk.{Changes, Same, Within};
ghost use Rattle.sasi_host.specs.Names.{Folder};
ghost use Rattle.sasi_host.specs.View.{DiskCauses};
ghost use Rattle.sasi_cursors.specs.Cursors.{is_open};
ghost use Rattle.sasi_machine.specs.Outcome.{outcome_of};
ghost use Rattle.sasi_model.specs.Abbreviations.{NoCursor, ok_line};
ghost use Rattle.sasi_model.specs.Lines.{refusal_line};
ghost use Rattle.sasi_model.specs.Refusals.{Refusal as SomeRefusal};
ghost use Rattle.sasi_tables.specs.Faults.{OnMissing, OnSpent, OnStepDamage, StepCauses};
ghost use Rattle.sasi_tables.specs.TablesView.{memory_of};
ghost use Rattle.sasi_tables.specs.declared.fault.StepFault.TheVariants.{OutOfMemory};
ghost use Rattle.sasi_cursors.specs.Cursors.{cursor_of};
ghost use Rattle.sasi_layout.specs.Between.{Between};
ghost use Rattle.sasi_layout.specs.NumbersInOrder.{Rising};
ghost use Rattle.sasi_manifest.specs.Edits.{files_of};
ghost use Rattle.sasi_views.specs.Changes.{AreCounted, Given};
ghost use Rattle.sasi_views.specs.Parts.{components_of, view_names};
ghost use Rattle.sasi_tasks.specs.Unheld.{AreGone, AreOnce, AreThere, AreUnchosen, is_left, is_one_of};
ghost use Rattle.sasi_recover.specs.OpenedFolder.{AnyFolderChange};
ghost use Rattle.sasi_tasks.specs.MakesTaskMoves.{CanGoOn, KeepsHeld};
ghost use Rattle.sasi_store.specs.CursorCalls.{CanOpenOn, HasAllListed, IsClosed, IsFetched, IsOfCalls, IsOpened, open_refusal};
ghost use Rattle.sasi_store.specs.declared.session_state.OpenCursor.{OpenCursor as AnOpenCursor};
ghost use Rattle.sasi_store.specs.Cursors.{AreCursors};
ghost use Rattle.sasi_store.specs.HeldDamage.{StepShows};
ghost use Rattle.sasi_store.specs.Selects.{IsSelectable};
ghost use Rattle.sasi_store.specs.StoreView.{KnowsAll};
ghost use Rattle.sasi_store.specs.Worlds.{PartsServe, World};

use crate::select::plan_for;
use crate::session_state::{OpenCursor, SessionState};
use sasi_analyzers::Kit;
use sasi_cursors::Cursors;
use sasi_engine::map_numbers;
use sasi_fetch::Cursor;
use sasi_host::{Failed, Host};
use sasi_machine::{FetchAsked, OpenAsked, Outcome, Refusal, Reply, check_open, refuse};
use sasi_print::ok;
use sasi_tables::{Parts, StepFault, aside_parts, forget_unused, freeze};
use sasi_tasks::delete_left;
use sasi_types::{Name, TableNumber};
use sasi_views::{View, ViewBook};
use std::alloc::AllocError;

// Opens a cursor that no rule refuses, over what its table has now: the memtable is frozen first, unless it is empty. No call is made.
fn open_cursor<H: Host>(
    parts: &mut Parts,
    session: &mut SessionState,
    host: &H,
    kit: &mut Kit,
    asked: &OpenAsked,
) -> Result<(), StepFault>
    requires ready { CanGoOn (H.view host.now) session.old.views parts.old session.old.tasks.items }
    requires cursors { AreCursors (H.view host.now).files parts.old session.old }
    requires classes { KnowsAll (map (λ b. kind (b.vtable, b.value)) kit.old.objects.items) parts.old session.old }
    requires there { IsSelectable (memory_of parts.old) asked.now.rows }
    requires name { is_open asked.now.cursor session.old.cursors ≡ false }
    requires few { length session.old.cursors < 64 }
    ensures opened { OnOk result (IsOpened (map (λ b. kind (b.vtable, b.value)) kit.old.objects.items) (H.view host.now) asked.now parts.old parts.new session.old session.new) }
    ensures memory { IfErr result (λ fault. fault ≡ OutOfMemory) }
    ensures kinds { map (λ b. kind (b.vtable, b.value)) kit.new.objects.items ≡ map (λ b. kind (b.vtable, b.value)) kit.old.objects.items }
{
    let table = asked.rows.table;
    freeze(parts, host, kit, table)?;
    let plan = plan_for(parts, host, kit, &asked.rows)?;
    let listed = aside_parts(parts.alloc, parts, table)?;
    let view = session.views.take(listed)?;
    let rows = Cursor::new(parts.alloc, plan, view);
    let cursor = OpenCursor { table, rows };
    add_cursor(&mut session.cursors, &asked.cursor, cursor)?;
    Ok(())
}

// Adds a cursor behind all others. The one that there is no memory for is dropped.
fn add_cursor(
    cursors: &mut Cursors<OpenCursor>,
    name: &Name,
    cursor: OpenCursor,
) -> Result<(), AllocError>
    requires { is_open name.now cursors.old ≡ false }
    ensures { OnOk result (cursors.new ≡ cursors.old ++ (name.now, cursor) ∷ []) }
{
    let Ok(()) = cursors.insert(name, cursor) else {
        return Err(AllocError);
    };
    Ok(())
}

/// Opens a cursor, unless a rule of cursors refuses it.
pub fn open<H: Host>(
    parts: &mut Parts,
    session: &mut SessionState,
    host: &H,
    kit: &mut Kit,
    asked: OpenAsked,
    reply: &mut Reply,
) -> Result<Outcome, StepFault>
    requires ready { CanGoOn (H.view host.now) session.old.views parts.old session.old.tasks.items }
    requires cursors { AreCursors (H.view host.now).files parts.old session.old }
    requires classes { KnowsAll (map (λ b. kind (b.vtable, b.value)) kit.old.objects.items) parts.old session.old }
    requires there { CanOpenOn (memory_of parts.old) asked.rows }
    ensures refused { IfOk result (λ outcome. (r : SomeRefusal) → open_refusal session.old.cursors asked ≡ Some r → (outcome ≡ outcome_of (Some r)) × (reply.new ≡ reply.old ++ refusal_line r) × (parts.new ≡ parts.old) × (session.new ≡ session.old)) }
    ensures taken { IfOk result (λ outcome. open_refusal session.old.cursors asked ≡ None → (outcome ≡ outcome_of None) × (reply.new ≡ reply.old ++ ok_line) × IsOpened (map (λ b. kind (b.vtable, b.value)) kit.old.objects.items) (H.view host.now) asked parts.old parts.new session.old session.new) }
    ensures memory { IfErr result (λ fault. fault ≡ OutOfMemory) }
    ensures kinds { map (λ b. kind (b.vtable, b.value)) kit.new.objects.items ≡ map (λ b. kind (b.vtable, b.value)) kit.old.objects.items }
{
    match check_open(&session.cursors, asked) {
        Err(refusal) => Ok(refuse(reply, refusal)?),
        Ok(asked) => {
            open_cursor(parts, session, host, kit, &asked)?;
            ok(reply)?;
            Ok(Outcome::Done)
        }
    }
}

/// Prints the next rows of a cursor, and their number, or refuses where no cursor has the name.
pub fn fetch<H: Host>(
    parts: &Parts,
    session: &mut SessionState,
    host: &mut H,
    kit: &mut Kit,
    asked: FetchAsked,
    reply: &mut Reply,
) -> Result<Outcome, StepFault>
    requires ready { CanGoOn (H.view host.old) session.old.views parts.now session.old.tasks.items }
    requires cursors { AreCursors (H.view host.old).files parts.now session.old }
    requires classes { KnowsAll (map (λ b. kind (b.vtable, b.value)) kit.old.objects.items) parts.now session.old }
    ensures refused { IfOk result (λ outcome. is_open asked.cursor session.old.cursors ≡ false → (outcome ≡ outcome_of (Some (NoCursor asked.cursor))) × (reply.new ≡ reply.old ++ refusal_line (NoCursor asked.cursor)) × (session.new ≡ session.old)) }
    ensures taken { IfOk result (λ outcome. is_open asked.cursor session.old.cursors ≡ true → (outcome ≡ outcome_of None) × IsFetched (map (λ b. kind (b.vtable, b.value)) kit.old.objects.items) (H.view host.old) (H.view host.new) asked parts.now session.old session.new reply.old reply.new) }
    ensures no_call { is_open asked.cursor session.old.cursors ≡ false → host.new ≡ host.old }
    // The damage may be that of a file that the cursor holds and that is listed no more.
    ensures damaged { (folder : Folder) → (H.view host.new).files ≡ Some folder → IfErr result (OnStepDamage (StepShows session.old.views folder)) }
    ensures undamaged { (w : World) → PartsServe (H.view host.old) parts.now session.old w → IfErr result (OnStepDamage (λ _. ⊥)) }
    ensures unspent { IfErr result (OnSpent (λ _. ⊥)) }
    ensures present { IfErr result (OnMissing (λ _. ⊥)) }
    ensures kinds { map (λ b. kind (b.vtable, b.value)) kit.new.objects.items ≡ map (λ b. kind (b.vtable, b.value)) kit.old.objects.items }
    ensures changes { Changes Same (H.view host.old) (H.view host.new) }
    ensures causes { StepCauses (H.view host.old) (H.view host.new) result }
{
    let Some(cursor) = session.cursors.get_mut(&asked.cursor) else {
        return Ok(refuse(reply, Refusal::NoCursor(asked.cursor))?);
    };
    cursor
        .rows
        .fetch(host, kit, &parts.maps, asked.count, reply)?;
    Ok(Outcome::Done)
}

/// Ends a cursor: its view is given back, and the files and maps that nothing else needs are deleted and dropped. Refuses where no cursor has the name.
pub fn close<H: Host>(
    parts: &mut Parts,
    session: &mut SessionState,
    host: &mut H,
    name: Name,
    reply: &mut Reply,
) -> Result<Outcome, StepFault>
    requires ready { CanGoOn (H.view host.old) session.old.views parts.old session.old.tasks.items }
    requires cursors { AreCursors (H.view host.old).files parts.old session.old }
    ensures refused { IfOk result (λ outcome. is_open name session.old.cursors ≡ false → (outcome ≡ outcome_of (Some (NoCursor name))) × (reply.new ≡ reply.old ++ refusal_line (NoCursor name)) × (parts.new ≡ parts.old) × (session.new ≡ session.old)) }
    ensures taken { IfOk result (λ outcome. is_open name session.old.cursors ≡ true → (outcome ≡ outcome_of None) × (reply.new ≡ reply.old ++ ok_line) × IsClosed (H.view host.old) (H.view host.new) name parts.old parts.new session.old session.new) }
    ensures free { is_open name session.old.cursors ≡ false → host.new ≡ host.old }
    // Where its table has all of its files still, no call is made.
    ensures no_call { (c : AnOpenCursor) → Some c ≡ cursor_of name session.old.cursors → HasAllListed parts.old c → host.new ≡ host.old }
    ensures tasks { session.new.tasks.items ≡ session.old.tasks.items }
    ensures failed { IfErr result (λ f. IsOfCalls f) }
    ensures held { Changes (KeepsHeld session.new.views) (H.view host.old) (H.view host.new) }
    ensures changes { Changes AnyFolderChange (H.view host.old) (H.view host.new) }
    ensures any_moment { (w : World) → PartsServe (H.view host.old) parts.old session.old w → Changes (λ x y. Between w.layout [] y) (H.view host.old) (H.view host.new) }
    ensures reads { (H.view host.new).reads ≡ (H.view host.old).reads }
    ensures causes { StepCauses (H.view host.old) (H.view host.new) result }
{
    let Some(cursor) = session.cursors.remove(&name) else {
        return Ok(refuse(reply, Refusal::NoCursor(name))?);
    };
    let view = cursor.rows.end();
    let numbers = map_numbers(parts.alloc, view.parts().as_slice())?;
    give_back(parts, &mut session.views, host, cursor.table, view)?;
    forget_unused(&mut parts.maps, &session.views, &parts.tables, &numbers);
    ok(reply)?;
    Ok(Outcome::Done)
}

/// Gives a view back, also where it fails, and deletes the files that no other view lists and that its table has no more.
pub fn give_back<H: Host>(
    parts: &Parts,
    views: &mut ViewBook,
    host: &mut H,
    table: TableNumber,
    view: View,
) -> Result<(), Failed>
    requires rising { (high : ℕ) × Rising 0 high (files_of parts.now.manifest.listing.tables table) }
    requires there { AreThere (is_left views.old (files_of parts.now.manifest.listing.tables table)) (H.view host.old) (view_names view) }
    requires once { AreOnce (view_names view) }
    requires counted { AreCounted views.old (components_of view) }
    requires out { 1 ≤ views.old.out }
    ensures given { Given views.old views.new (components_of view) }
    ensures gone { OnOk result (AreGone (is_left views.old (files_of parts.now.manifest.listing.tables table)) (H.view host.new) (view_names view)) }
    ensures idle { AreUnchosen (is_left views.old (files_of parts.now.manifest.listing.tables table)) (view_names view) → host.new ≡ host.old }
    ensures changes { Changes (Within (is_one_of (is_left views.old (files_of parts.now.manifest.listing.tables table)) (view_names view))) (H.view host.old) (H.view host.new) }
    ensures causes { DiskCauses (H.view host.old) (H.view host.new) result }
{
    let files = parts.manifest.listing().tables.files_of(table);
    let deleted = delete_left(host, views, files, view.parts().as_slice());
    views.give(view);
    deleted
}
