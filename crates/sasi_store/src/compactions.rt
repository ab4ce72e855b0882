// COMPACT, BEGIN COMPACT and STEP COMPACT.
ghost use Rattle.std.specs.Prelude.{◌≡◌, map};
ghost use Rattle.sasi_layout.specs.Classes.{KnowsClasses};
ghost use Rattle.sasi_tables.specs.Puts.{HasTableFor};
ghost use Rattle.sasi_tables.specs.TablesView.{held_in, memory_of};
ghost use Rattle.sasi_machine.specs.declared.prepared.CompactSteps.TheVariants.{Begin};
ghost use Rattle.sasi_tasks.specs.MakesTaskMoves.{CanGoOn, MakesTaskMoves};
ghost use Rattle.sasi_tasks.specs.Running.{KnowsTasks};
ghost use Rattle.sasi_store.specs.Compactions.{IsAsked, moves_asked, tasks_asked};

use crate::session_state::SessionState;
use sasi_analyzers::Kit;
use sasi_host::Host;
use sasi_machine::{CompactAsked, CompactSteps};
use sasi_tables::{Parts, StepFault};
use sasi_tasks::{begin, compact, step};

/// Does what is asked of the compaction of a table.
pub fn go_on<H: Host>(
    parts: &mut Parts,
    session: &mut SessionState,
    host: &mut H,
    kit: &mut Kit,
    asked: &CompactAsked,
) -> Result<(), StepFault>
    requires ready { CanGoOn (H.view host.old) session.old.views parts.old session.old.tasks.items }
    requires there { HasTableFor asked.now.table (held_in parts.old) }
    requires asked { IsAsked asked.now }
    requires tables { KnowsClasses (map (λ b. kind (b.vtable, b.value)) kit.old.objects.items) (memory_of parts.old) }
    requires classes { KnowsTasks (map (λ b. kind (b.vtable, b.value)) kit.old.objects.items) session.old.tasks.items }
    ensures makes { MakesTaskMoves (moves_asked asked.now) (tasks_asked asked.now) session.old.views (H.view host.old) (H.view host.new) parts.old parts.new session.old.tasks.items session.new.tasks.items result }
    ensures trace { session.new.trace ≡ session.old.trace }
    ensures views { session.new.views ≡ session.old.views }
    ensures cursors { session.new.cursors ≡ session.old.cursors }
    // BEGIN COMPACT makes no call.
    ensures no_call { asked.now.steps ≡ Begin → host.new ≡ host.old }
    ensures kinds { map (λ b. kind (b.vtable, b.value)) kit.new.objects.items ≡ map (λ b. kind (b.vtable, b.value)) kit.old.objects.items }
{
    let tasks = &mut session.tasks;
    let views = &session.views;
    match asked.steps {
        CompactSteps::Whole => compact(parts, tasks, views, host, kit, asked.table),
        CompactSteps::Begin => begin(parts, tasks, host, asked.table),
        CompactSteps::Units(units) => step(parts, tasks, views, host, kit, asked.table, units),
    }
}
