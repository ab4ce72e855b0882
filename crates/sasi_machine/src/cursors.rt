// The rules of cursors, which come after the others.
ghost use Rattle.std.specs.Prelude.{◌≡◌, None, Some, IfErr, IfOk};
ghost use Rattle.std.specs.Map.{keys_of};
ghost use Rattle.sasi_types.specs.declared.statement.Statement.TheVariants.{OpenCursor};
ghost use Rattle.sasi_model.specs.Abbreviations.{first_refusal};
ghost use Rattle.sasi_model.specs.Refusals.{cursor_rules};
ghost use Rattle.sasi_machine.specs.Refusal.{refusal_of};

use crate::Refusal;
use crate::prepared::OpenAsked;
use crate::select_refusal::relations_refusal;
use sasi_cursors::Cursors;

/// The most cursors that are open at a time.
const CURSOR_LIMIT: usize = 64;

/// Gives an OPEN back where no rule of cursors refuses it beside the open ones, and else its refusal.
pub fn check_open<C>(cursors: &Cursors<C>, asked: OpenAsked) -> Result<OpenAsked, Refusal>
    ensures free { IfOk result (λ given. (given ≡ asked) × (first_refusal (cursor_rules (keys_of cursors.now) (OpenCursor asked.cursor asked.rows.select)) ≡ None)) }
    ensures refused { IfErr result (λ refusal. first_refusal (cursor_rules (keys_of cursors.now) (OpenCursor asked.cursor asked.rows.select)) ≡ Some (refusal_of refusal)) }
{
    if cursors.has(&asked.cursor) {
        return Err(Refusal::CursorExists(asked.cursor));
    }
    if cursors.len() >= CURSOR_LIMIT {
        return Err(Refusal::TooManyCursors);
    }
    match relations_refusal(&asked.rows.select) {
        Some(refusal) => Err(refusal),
        None => Ok(asked),
    }
}
