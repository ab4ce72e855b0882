// Replies to refused pieces.
ghost use Rattle.std.specs.Prelude.{◌≡◌, ◌++◌, Some, IfOk, OnOk};
ghost use Rattle.sasi_model.specs.Lines.{refusal_line};
ghost use Rattle.sasi_machine.specs.Faults.{refusal_of_fault};
ghost use Rattle.sasi_machine.specs.Outcome.{outcome_of};
ghost use Rattle.sasi_machine.specs.Refusal.{refusal_of};
ghost use Rattle.sasi_machine.specs.StatementSteps.{IsRefused};

use crate::fault::Fault;
use crate::{Outcome, Refusal, Reply};
use sasi_print::{refusal_about, refusal_at};
use std::alloc::AllocError;

/// Replies with a refusal.
pub fn reply_refusal(reply: &mut Reply, refusal: Refusal) -> Result<Outcome, AllocError>
    ensures reply { OnOk result (reply.new ≡ reply.old ++ refusal_line (refusal_of refusal)) }
    ensures outcome { IfOk result (λ outcome. outcome ≡ outcome_of (Some (refusal_of refusal))) }
{
    refused(reply, &refusal)
}

fn refused(reply: &mut Reply, refusal: &Refusal) -> Result<Outcome, AllocError>
    ensures reply { OnOk result (reply.new ≡ reply.old ++ refusal_line (refusal_of refusal.now)) }
    ensures outcome { IfOk result (λ outcome. outcome ≡ outcome_of (Some (refusal_of refusal.now))) }
{
    print_refusal(reply, refusal)?;
    Ok(Outcome::Refused(refusal.number()))
}

// Adds the line of a refusal.
fn print_refusal(reply: &mut Reply, refusal: &Refusal) -> Result<(), AllocError>
    ensures ok { OnOk result (reply.new ≡ reply.old ++ refusal_line (refusal_of refusal.now)) }
{
    if let Refusal::Syntax(offset) = refusal {
        return refusal_at(reply, refusal.number(), *offset);
    }
    if let Refusal::NotUtf8(offset) = refusal {
        return refusal_at(reply, refusal.number(), *offset);
    }
    match refusal.name() {
        Some(name) => refusal_about(reply, refusal.number(), name),
        None => sasi_print::refusal(reply, refusal.number(), refusal.words()),
    }
}

/// Replies with the refusal of a fault; out of memory is handed on.
pub fn reply_fault(reply: &mut Reply, fault: Fault) -> Result<Outcome, AllocError>
    ensures { IfOk result (λ outcome. IsRefused (refusal_of_fault fault) reply.old reply.new outcome) }
{
    match fault {
        Fault::Refused(refusal) => reply_refusal(reply, refusal),
        Fault::OutOfMemory => Err(AllocError),
    }
}
