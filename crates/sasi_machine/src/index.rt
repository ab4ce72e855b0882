// The preparing of a CREATE CUSTOM INDEX.
ghost use Rattle.std.specs.Prelude.{Bool, ℕ, IfOk};
ghost use Rattle.std.specs.Option.{option_copied};
ghost use Rattle.sasi_types.specs.declared.statement.Statement.TheVariants.{CreateIndex};
ghost use Rattle.sasi_machine.specs.Prepares.{IsPrepared, known_by};

use crate::Reply;
use crate::fault::Fault;
use crate::prepared::Prepared;
use crate::reply_refusal::reply_fault;
use sasi_print::ok;
use sasi_schema::Schema;
use sasi_types::{Name, Options, Text};
use std::alloc::AllocError;

/// Prepares the index of these words, or refuses it.
pub fn prepare_index(
    schema: &Schema,
    name: Option<&Name>,
    table: &Name,
    column: &Name,
    class: &Text,
    options: &Options,
    reply: &mut Reply,
) -> Result<Prepared, AllocError>
    ensures { (stepped : Bool) → IfOk result (λ prepared. (max_time : ℕ) → IsPrepared (known_by schema.now max_time) (CreateIndex (option_copied name.entry) table.now column.now class.now options.now stepped) reply.old reply.new prepared) }
{
    match schema.prepare_index(name, table, column, class, options) {
        Ok(new) => {
            ok(reply)?;
            Ok(Prepared::Define(new))
        }
        Err(fault) => {
            let outcome = reply_fault(reply, Fault::of_schema(fault))?;
            Ok(Prepared::Answered(outcome))
        }
    }
}
