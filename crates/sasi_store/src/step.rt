// Steps.
ghost use Rattle.std.specs.Prelude.{◌≡◌, ◌<◌, ◌^◌, map};
ghost use Rattle.sasi_layout.specs.Serving.{known_in_memory};
ghost use Rattle.sasi_machine.specs.Prepares.{IsStateOf};
ghost use Rattle.sasi_model.specs.Pieces.{piece_of};
ghost use Rattle.sasi_model.specs.Sessions.{SessionState as ModelSession};
ghost use Rattle.sasi_model.specs.State.{State};
ghost use Rattle.sasi_store.specs.Answers.{MakesNoCall};
ghost use Rattle.sasi_store.specs.Steps.{StepPromises};
ghost use Rattle.sasi_tables.specs.TablesView.{memory_of};
ghost use Rattle.sasi_tasks.specs.MakesTaskMoves.{CanGoOn};
ghost use Rattle.sasi_store.specs.Cursors.{AreCursors, HasNamesOf};
ghost use Rattle.sasi_store.specs.StoreView.{KnowsAll};

use crate::compactions::go_on;
use crate::cursors::{close, fetch, open};
use crate::select::select;
use crate::session_state::SessionState;
use crate::show_files::show_files;
use sasi_analyzers::Kit;
use sasi_host::Host;
use sasi_machine::{Outcome, Prepared, Reply, prepare};
use sasi_tables::{Parts, StepFault, check_class, create, define, flush_unless_empty, write};
use sasi_types::{PieceEnd, TableNumber};

/// Answers a piece: prepares it, and makes its moves.
pub fn step<H: Host>(
    parts: &mut Parts,
    session: &mut SessionState,
    host: &mut H,
    kit: &mut Kit,
    piece: &[u8],
    end: PieceEnd,
    reply: &mut Reply,
) -> Result<Outcome, StepFault>
    requires goes_on { CanGoOn (H.view host.old) session.old.views parts.old session.old.tasks.items }
    requires classes { KnowsAll (map (λ b. kind (b.vtable, b.value)) kit.old.objects.items) parts.old session.old }
    requires cursors { AreCursors (H.view host.old).files parts.old session.old }
    ensures kinds { map (λ b. kind (b.vtable, b.value)) kit.new.objects.items ≡ map (λ b. kind (b.vtable, b.value)) kit.old.objects.items }
    ensures steps { StepPromises (map (λ b. kind (b.vtable, b.value)) kit.old.objects.items) (piece_of end piece.now) (H.view host.old) (H.view host.new) parts.old parts.new session.old session.new reply.new result }
    ensures no_file_call { (x : ModelSession) (s : State) → HasNamesOf session.old.cursors x → IsStateOf (known_in_memory (memory_of parts.old)) s → MakesNoCall parts.old session.old x s (piece_of end piece.now) → host.new ≡ host.old }
{
    match prepare(
        parts.alloc,
        &parts.schema,
        parts.max_timestamp,
        kit,
        piece,
        end,
        reply,
    )? {
        Prepared::Answered(outcome) => Ok(outcome),
        Prepared::Create(table) => {
            create(parts, host, kit, table)?;
            Ok(Outcome::Done)
        }
        Prepared::Define(index) => {
            note_number(index.table);
            note_column(index.column);
            check_class(kit, &index)?;
            define(parts, host, kit, index)?;
            Ok(Outcome::Done)
        }
        Prepared::Write(mutation) => {
            note_number(mutation.table);
            write(parts, &session.views, host, kit, mutation)?;
            Ok(Outcome::Done)
        }
        Prepared::Flush(table) => {
            flush_unless_empty(parts, &session.views, host, kit, table)?;
            Ok(Outcome::Done)
        }
        Prepared::Compact(asked) => {
            go_on(parts, session, host, kit, &asked)?;
            Ok(Outcome::Done)
        }
        Prepared::Select(rows) => {
            select(parts, session, host, kit, &rows, reply)?;
            Ok(Outcome::Done)
        }
        Prepared::Trace(on) => {
            session.trace = on;
            Ok(Outcome::Done)
        }
        Prepared::Files => {
            show_files(parts, session, reply)?;
            Ok(Outcome::Done)
        }
        Prepared::Open(asked) => open(parts, session, host, kit, asked, reply),
        Prepared::Fetch(asked) => fetch(parts, session, host, kit, asked, reply),
        Prepared::Close(cursor) => close(parts, session, host, cursor, reply),
    }
}

// Does nothing. Its clause says that a number has 32 bits.
fn note_number(number: TableNumber)
    ensures { number < 2 ^ 32 }
{
    let _ = number;
}

// The same of a column's number, which has 16.
fn note_column(column: u16)
    ensures { column < 2 ^ 16 }
{
    let _ = column;
}
