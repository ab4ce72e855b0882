// Stores.
ghost use Rattle.std.specs.Prelude.{◌≡◌, ◌+◌, ◌≤◌, [], IfErr, IfOk, OnOk, Some, false, is_ok, map};
ghost use Rattle.sasi_host.specs.Disk.{Changes, Same};
ghost use Rattle.sasi_host.specs.Names.{Folder};
ghost use Rattle.sasi_host.specs.View.{DiskCauses, counted};
ghost use Rattle.sasi_model.specs.Asked.{NoChange, asks, class_needed};
ghost use Rattle.sasi_model.specs.Pieces.{piece_of};
ghost use Rattle.sasi_model.specs.Refusals.{read};
ghost use Rattle.sasi_model.specs.Sessions.{SessionState as ModelSession, new_session};
ghost use Rattle.sasi_model.specs.State.{State};
ghost use Rattle.sasi_folder.specs.Opens.{CanOpen};
ghost use Rattle.sasi_layout.specs.Between.{Between};
ghost use Rattle.sasi_layout.specs.Layout.{Layout};
ghost use Rattle.sasi_analyzers.specs.Kits.{has_class};
ghost use Rattle.sasi_layout.specs.Classes.{HasNeeded, LacksNeeded};
ghost use Rattle.sasi_layout.specs.Serving.{Ended, closed, known_in_memory};
ghost use Rattle.sasi_layout.specs.Shape.{ShapeOf};
ghost use Rattle.sasi_layout.specs.Spent.{spent};
ghost use Rattle.sasi_machine.specs.Prepares.{IsStateOf};
ghost use Rattle.sasi_recover.specs.Faults.{OnDiffers, OnMissing, OpenCauses};
ghost use Rattle.sasi_recover.specs.OpenedFolder.{AnyFolderChange};
ghost use Rattle.sasi_recover.specs.Promises.{OpensSafely, ReportsTruly};
ghost use Rattle.sasi_store.specs.Answers.{Answered, AnsweredButRows, DeletesOrBuilds, MakesNoCall, ReadsFiles};
ghost use Rattle.sasi_store.specs.HeldDamage.{StepShows};
ghost use Rattle.sasi_tasks.specs.MakesTaskMoves.{KeepsHeld};
ghost use Rattle.sasi_tables.specs.Faults.{OnMissing as OnMissingClass, OnSpent, OnStepDamage, StepCauses};
ghost use Rattle.sasi_store.specs.Selects.{HasShortRows, select_reads};
ghost use Rattle.sasi_store.specs.Cursors.{HasNamesOf};
ghost use Rattle.sasi_store.specs.StoreView.{IsReady, KnowsStore, store_memory};
ghost use Rattle.sasi_store.specs.Worlds.{ServesWorld, World, new_world, steps};

use crate::cursors::give_back;
use crate::session_state::SessionState;
use crate::step::step;
use sasi_analyzers::Kit;
use sasi_cursors::Cursors;
use sasi_host::{Failed, Host};
use sasi_machine::{Outcome, Reply};
use sasi_recover::OpenFault;
use sasi_tables::{Parts, StepFault, parts_of};
use sasi_tasks::give_up;
use sasi_types::{Partitioner, PieceEnd};
use sasi_views::ViewBook;
use std::alloc::Global;

/// A store over a folder.
#[derive(Drop)]
pub struct Store {
    parts: Parts,
    session: SessionState,
    steps: u64,
    usable: bool,
}

impl Store {
    /// Opens the store of a folder, or creates one where the folder has no seal: with the asked partitioner, or else lead8.
    pub fn open<H: Host>(
        alloc: Global,
        host: &mut H,
        kit: &mut Kit,
        asked: Option<Partitioner>,
    ) -> Result<Store, OpenFault>
        ensures ready { IfOk result (λ store. IsReady (H.view host.new) store) }
        ensures state { IfOk result (λ store. (s : State) × IsStateOf (known_in_memory (store_memory store)) s) }
        ensures serves { (folder : Folder) (l : Layout) → (H.view host.old).files ≡ Some folder → ShapeOf asked folder l → IfOk result (λ store. ServesWorld (H.view host.new) store (new_world l)) }
        ensures no_cursors { IfOk result (λ store. HasNamesOf store.session.cursors new_session) }
        ensures opens { (folder : Folder) → (H.view host.old).files ≡ Some folder → OnOk result (CanOpen folder) }
        ensures safe { OpensSafely asked (H.view host.old) (H.view host.new) }
        // An analyzer is there for each index.
        ensures classes { IfOk result (λ store. KnowsStore (map (λ b. kind (b.vtable, b.value)) kit.old.objects.items) store) }
        ensures kinds { map (λ b. kind (b.vtable, b.value)) kit.new.objects.items ≡ map (λ b. kind (b.vtable, b.value)) kit.old.objects.items }
        ensures reports { ReportsTruly asked (map (λ b. kind (b.vtable, b.value)) kit.old.objects.items) (H.view host.old) result }
        // A folder that keeps another partitioner, or that needs an analyzer that isn't there, stays as it is.
        ensures untouched { IfErr result (OnDiffers (λ wanted kept. Changes Same (H.view host.old) (H.view host.new))) }
        ensures absent { IfErr result (OnMissing (λ class. has_class class (map (λ b. kind (b.vtable, b.value)) kit.old.objects.items) ≡ false)) }
        ensures unopened { IfErr result (OnMissing (λ class. Changes Same (H.view host.old) (H.view host.new))) }
        ensures causes { OpenCauses (H.view host.old) (H.view host.new) result }
        ensures steps { IfOk result (λ store. store.steps ≡ 0) }
    {
        let opened = sasi_recover::open(alloc, host, kit, asked)?;
        let Ok(parts) = parts_of(alloc, kit, opened) else {
            return Err(OpenFault::OutOfMemory);
        };
        let views = ViewBook::new(alloc);
        let cursors = Cursors::new(alloc);
        let tasks = Vec::new(alloc);
        Ok(Store {
            parts,
            session: SessionState {
                trace: false,
                views,
                cursors,
                tasks,
            },
            steps: 0,
            usable: true,
        })
    }

    /// Answers a piece: the reply is replaced. A piece that isn't refused makes its moves before this returns. After a fault the
    /// reply may be a part of one.
    pub fn step<H: Host>(
        &mut self,
        host: &mut H,
        kit: &mut Kit,
        piece: &[u8],
        end: PieceEnd,
        reply: &mut Reply,
    ) -> Result<Outcome, StepFault>
        requires ready { IsReady (H.view host.old) self.old }
        requires classes { KnowsStore (map (λ b. kind (b.vtable, b.value)) kit.old.objects.items) self.old }
        ensures answers { IfOk result (λ outcome. (w : World) → ServesWorld (H.view host.old) self.old w → Answered (H.view host.new) self.new.parts self.new.session w (piece_of end piece.now) reply.new outcome) }
        ensures everywhere { IfOk result (λ outcome. (x : ModelSession) (s : State) → HasNamesOf self.old.session.cursors x → IsStateOf (known_in_memory (store_memory self.old)) s → AnsweredButRows self.new.parts self.new.session x s (piece_of end piece.now) reply.new outcome) }
        ensures ready { OnOk result (IsReady (H.view host.new) self.new) }
        ensures any_moment { (w : World) → ServesWorld (H.view host.old) self.old w → Changes (λ x y. Between w.layout (steps.moves w (piece_of end piece.now)) y) (H.view host.old) (H.view host.new) }
        ensures spent { IfErr result (OnSpent (λ kind. (w : World) → ServesWorld (H.view host.old) self.old w → spent w.layout (steps.moves w (piece_of end piece.now)) ≡ Some kind)) }
        // An analyzer is there for each index, also for a new one, and for each cursor. Where none is for a new one, no number was looked at.
        ensures classes { OnOk result (KnowsStore (map (λ b. kind (b.vtable, b.value)) kit.new.objects.items) self.new) }
        ensures kinds { map (λ b. kind (b.vtable, b.value)) kit.new.objects.items ≡ map (λ b. kind (b.vtable, b.value)) kit.old.objects.items }
        ensures needed { IfOk result (λ outcome. HasNeeded (map (λ b. kind (b.vtable, b.value)) kit.old.objects.items) (class_needed (asks (known_in_memory (store_memory self.old)) (piece_of end piece.now)))) }
        ensures needed_first { IfErr result (OnSpent (λ _. HasNeeded (map (λ b. kind (b.vtable, b.value)) kit.old.objects.items) (class_needed (asks (known_in_memory (store_memory self.old)) (piece_of end piece.now))))) }
        ensures missing { IfErr result (OnMissingClass (LacksNeeded (map (λ b. kind (b.vtable, b.value)) kit.old.objects.items) (asks (known_in_memory (store_memory self.old)) (piece_of end piece.now)))) }
        // The damage may be that of a file that a cursor holds and that is listed no more.
        ensures damaged { (folder : Folder) → (H.view host.new).files ≡ Some folder → IfErr result (OnStepDamage (StepShows self.old.session.views folder)) }
        ensures undamaged { (w : World) → ServesWorld (H.view host.old) self.old w → IfErr result (OnStepDamage (λ _. ⊥)) }
        // A CLOSE is one of them where the table of its cursor has all files still that the cursor holds.
        ensures no_file_call { (x : ModelSession) (s : State) → HasNamesOf self.old.session.cursors x → IsStateOf (known_in_memory (store_memory self.old)) s → MakesNoCall self.old.parts self.old.session x s (piece_of end piece.now) → host.new ≡ host.old }
        ensures reads_only { asks (known_in_memory (store_memory self.old)) (piece_of end piece.now) ≡ NoChange → (DeletesOrBuilds (read (piece_of end piece.now)) → ⊥) → Changes Same (H.view host.old) (H.view host.new) }
        ensures unread { (ReadsFiles (read (piece_of end piece.now)) → ⊥) → (H.view host.new).reads ≡ (H.view host.old).reads }
        // The bound on what a SELECT reads supposes files of at most 2^40 bytes where a relation is on an indexed column.
        ensures reads { (w : World) → ServesWorld (H.view host.old) self.old w → HasShortRows (H.view host.old).files w.layout (read (piece_of end piece.now)) → (H.view host.new).reads ≤ (H.view host.old).reads + select_reads (H.view host.old).files w.layout (read (piece_of end piece.now)) }
        ensures changes { Changes AnyFolderChange (H.view host.old) (H.view host.new) }
        // The files that open cursors hold after the step stay, also where it fails.
        ensures held_stay { Changes (KeepsHeld self.new.session.views) (H.view host.old) (H.view host.new) }
        ensures usable { self.new.usable ≡ is_ok result }
        ensures steps { self.new.steps ≡ counted self.old.steps }
        ensures causes { StepCauses (H.view host.old) (H.view host.new) result }
    {
        self.steps = self.steps.saturating_add(1);
        self.usable = false;
        let outcome = step(
            &mut self.parts,
            &mut self.session,
            host,
            kit,
            piece,
            end,
            reply,
        )?;
        self.usable = true;
        Ok(outcome)
    }

    /// How many steps were begun, at most 2^64 - 1.
    pub fn steps(&self) -> u64
        ensures { result ≡ self.now.steps }
    {
        self.steps
    }

    /// Whether every step succeeded.
    pub fn is_usable(&self) -> bool
        ensures { result ≡ self.now.usable }
    {
        self.usable
    }

    /// Ends the use of the store. Its tasks are given up and its cursors closed, and the folder is left with the files of its tables and of the log alone.
    pub fn finish<H: Host>(self, host: &mut H) -> Result<(), Failed>
        requires { IsReady (H.view host.old) self }
        ensures ends { OnOk result ((w : World) → ServesWorld (H.view host.old) self w → Ended (H.view host.new) (closed w.layout)) }
        ensures any_moment { (w : World) → ServesWorld (H.view host.old) self w → Changes (λ x y. Between w.layout [] y) (H.view host.old) (H.view host.new) }
        // Without cursors and tasks it makes no call.
        ensures idle { self.session.cursors ≡ [] → self.session.tasks.items ≡ [] → host.new ≡ host.old }
        ensures changes { Changes AnyFolderChange (H.view host.old) (H.view host.new) }
        ensures reads { (H.view host.new).reads ≡ (H.view host.old).reads }
        ensures causes { DiskCauses (H.view host.old) (H.view host.new) result }
    {
        let Store { parts, session, .. } = self;
        let mut views = session.views;
        give_up(session.tasks, host)?;
        for cursor in session.cursors.into_values() {
            let view = cursor.rows.end();
            give_back(&parts, &mut views, host, cursor.table, view)?;
        }
        Ok(())
    }
}
