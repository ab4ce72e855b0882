// Statements on cursors whose rows are printed already.
ghost use Rattle.std.specs.Prelude.{◌≡◌, ◌++◌, ◌∷◌, [], false, map, IfErr, IfOk, OnErr, OnOk};
ghost use Rattle.sasi_analyzers.specs.Kits.{has_class};
ghost use Rattle.sasi_cursors.specs.Cursors.{is_open};
ghost use Rattle.sasi_model.specs.Abbreviations.{ok_line, row_line};
ghost use Rattle.sasi_model.specs.Pieces.{Piece};
ghost use Rattle.sasi_model.specs.State.{State};
ghost use Rattle.sasi_machine.specs.Classes.{OnMissing};
ghost use Rattle.sasi_machine.specs.MachineView.{AnswersSessions};
ghost use Rattle.sasi_machine.specs.Prepares.{HasRows, OpensFrom, Prepares, rows_asked};
ghost use Rattle.sasi_machine.specs.declared.prepared.Prepared.TheVariants.{Open as Opens, Fetch as Fetches, Close as Closes};

use crate::cursors::check_open;
use crate::database::Database;
use crate::prepared::{FetchAsked, OpenAsked};
use crate::printed_rows::PrintedRows;
use crate::reply_refusal::reply_refusal;
use crate::{Outcome, Refusal, Reply};
use sasi_analyzers::Kit;
use sasi_cursors::Cursors;
use sasi_print::ok;
use sasi_types::{KitFault, Name};
use std::alloc::AllocError;

/// Opens a cursor on the rows that a SELECT has now, or refuses to.
pub fn open(
    database: &Database,
    cursors: &mut Cursors<PrintedRows>,
    asked: OpenAsked,
    kit: &mut Kit,
    reply: &mut Reply,
) -> Result<Outcome, KitFault>
    requires { OpensFrom database.now asked.cursor asked.rows.select asked }
    ensures session { IfOk result (λ outcome. (piece : Piece) → Prepares database.now piece reply.old (Opens asked) → AnswersSessions database.now piece cursors.old cursors.new reply.new outcome) }
    ensures err { OnErr result (cursors.new ≡ cursors.old) }
    ensures missing { IfErr result (OnMissing (λ class. has_class class (map (λ b. kind (b.vtable, b.value)) kit.old.objects.items) ≡ false)) }
{
    match check_open(cursors, asked) {
        Ok(asked) => {
            open_free(database, cursors, &asked, kit, reply)?;
            Ok(Outcome::Done)
        }
        Err(refusal) => Ok(reply_refusal(reply, refusal)?),
    }
}

// Opens a cursor that no rule refuses.
fn open_free(
    database: &Database,
    cursors: &mut Cursors<PrintedRows>,
    asked: &OpenAsked,
    kit: &mut Kit,
    reply: &mut Reply,
) -> Result<(), KitFault>
    requires rows { HasRows database.now asked.now.rows }
    requires free { is_open asked.now.cursor cursors.old ≡ false }
    ensures opened { OnOk result (cursors.new ≡ cursors.old ++ (asked.now.cursor, map row_line (rows_asked database.now asked.now.rows)) ∷ []) }
    ensures reply { OnOk result (reply.new ≡ reply.old ++ ok_line) }
    ensures err { OnErr result (cursors.new ≡ cursors.old) }
    ensures missing { IfErr result (OnMissing (λ class. has_class class (map (λ b. kind (b.vtable, b.value)) kit.old.objects.items) ≡ false)) }
{
    let lines = database.lines(&asked.rows, kit)?;
    ok(reply)?;
    match cursors.insert(&asked.cursor, PrintedRows::new(lines)) {
        Ok(()) => Ok(()),
        Err(_) => Err(KitFault::OutOfMemory),
    }
}

/// Prints the next rows of a cursor, or refuses to where none has the name.
pub fn fetch(
    cursors: &mut Cursors<PrintedRows>,
    asked: FetchAsked,
    reply: &mut Reply,
) -> Result<Outcome, AllocError>
    ensures session { IfOk result (λ outcome. (s : State) (piece : Piece) → Prepares s piece reply.old (Fetches asked) → AnswersSessions s piece cursors.old cursors.new reply.new outcome) }
    ensures err { OnErr result (cursors.new ≡ cursors.old) }
{
    let Some(rows) = cursors.get_mut(&asked.cursor) else {
        return reply_refusal(reply, Refusal::NoCursor(asked.cursor));
    };
    rows.fetch(asked.count as usize, reply)?;
    Ok(Outcome::Done)
}

/// Closes a cursor, or refuses to where none has the name.
pub fn close(
    cursors: &mut Cursors<PrintedRows>,
    cursor: Name,
    reply: &mut Reply,
) -> Result<Outcome, AllocError>
    ensures session { IfOk result (λ outcome. (s : State) (piece : Piece) → Prepares s piece reply.old (Closes cursor) → AnswersSessions s piece cursors.old cursors.new reply.new outcome) }
    ensures err { OnErr result (cursors.new ≡ cursors.old) }
{
    if !cursors.has(&cursor) {
        return reply_refusal(reply, Refusal::NoCursor(cursor));
    }
    ok(reply)?;
    cursors.remove(&cursor);
    Ok(Outcome::Done)
}
