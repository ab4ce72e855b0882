// The preparing of SELECTs.
ghost use Rattle.std.specs.Prelude.{◌≡◌, ℕ, None, Some, IfOk, IfErr, map};
ghost use Rattle.sasi_types.specs.declared.kit_fault.KitFault.TheVariants.{OutOfMemory};
ghost use Rattle.sasi_types.specs.declared.statement.Statement.TheVariants.{OpenCursor, Query};
ghost use Rattle.sasi_model.specs.WellFormed.{IsWellFormedSelect};
ghost use Rattle.sasi_schema.specs.Defined.{definition};
ghost use Rattle.sasi_machine.specs.Classes.{OnMissing, TableLacks, TablesLack};
ghost use Rattle.sasi_machine.specs.Prepares.{IsPrepared, known_by};
ghost use Rattle.sasi_machine.specs.Selections.{PreparesCursor, PreparesRows};

use crate::prepared::{OpenAsked, Prepared, Selection};
use crate::reply_refusal::reply_refusal;
use crate::select_refusal::{answer_refusal, select_refusal};
use crate::{Refusal, Reply};
use sasi_analyzers::Kit;
use sasi_schema::{Schema, Table};
use sasi_types::{KitFault, Name, Select};
use std::alloc::Global;

/// Prepares a SELECT, or refuses it.
pub fn prepare_select(
    alloc: Global,
    schema: &Schema,
    select: Select,
    kit: &mut Kit,
    reply: &mut Reply,
) -> Result<Prepared, KitFault>
    requires { IsWellFormedSelect select }
    ensures prepares { IfOk result (λ prepared. (max_time : ℕ) → IsPrepared (known_by schema.now max_time) (Query select) reply.old reply.new prepared) }
    ensures missing { IfErr result (OnMissing (TablesLack (map (λ b. kind (b.vtable, b.value)) kit.old.objects.items) schema.now.definitions)) }
    ensures kinds { map (λ b. kind (b.vtable, b.value)) kit.new.objects.items ≡ map (λ b. kind (b.vtable, b.value)) kit.old.objects.items }
{
    match schema.table(&select.table) {
        None => refuse_table(select, reply),
        Some(table) => prepare_rows(alloc, table, select, kit, reply),
    }
}

fn refuse_table(select: Select, reply: &mut Reply) -> Result<Prepared, KitFault>
    ensures prepares { IfOk result (λ prepared. PreparesRows None select reply.old reply.new prepared) }
    ensures err { IfErr result (λ fault. fault ≡ OutOfMemory) }
{
    let outcome = reply_refusal(reply, Refusal::NoTable(select.table))?;
    Ok(Prepared::Answered(outcome))
}

/// Prepares an OPEN, or refuses it by a rule that comes before those of cursors.
pub fn prepare_open(
    alloc: Global,
    schema: &Schema,
    cursor: Name,
    select: Select,
    kit: &mut Kit,
    reply: &mut Reply,
) -> Result<Prepared, KitFault>
    requires { IsWellFormedSelect select }
    ensures prepares { IfOk result (λ prepared. (max_time : ℕ) → IsPrepared (known_by schema.now max_time) (OpenCursor cursor select) reply.old reply.new prepared) }
    ensures missing { IfErr result (OnMissing (TablesLack (map (λ b. kind (b.vtable, b.value)) kit.old.objects.items) schema.now.definitions)) }
    ensures kinds { map (λ b. kind (b.vtable, b.value)) kit.new.objects.items ≡ map (λ b. kind (b.vtable, b.value)) kit.old.objects.items }
{
    match schema.table(&select.table) {
        None => refuse_table(select, reply),
        Some(table) => prepare_cursor(alloc, table, cursor, select, kit, reply),
    }
}

// Prepares an OPEN on a table, or refuses it.
fn prepare_cursor(
    alloc: Global,
    table: &Table,
    cursor: Name,
    select: Select,
    kit: &mut Kit,
    reply: &mut Reply,
) -> Result<Prepared, KitFault>
    requires { IsWellFormedSelect select }
    ensures prepares { IfOk result (λ prepared. PreparesCursor table.now cursor select reply.old reply.new prepared) }
    ensures missing { IfErr result (OnMissing (TableLacks (map (λ b. kind (b.vtable, b.value)) kit.old.objects.items) (definition table.now))) }
    ensures kinds { map (λ b. kind (b.vtable, b.value)) kit.new.objects.items ≡ map (λ b. kind (b.vtable, b.value)) kit.old.objects.items }
{
    match answer_refusal(alloc, table, &select, kit)? {
        Some(refusal) => {
            let outcome = reply_refusal(reply, refusal)?;
            Ok(Prepared::Answered(outcome))
        }
        None => {
            let table = table.number;
            let rows = Selection { table, select };
            Ok(Prepared::Open(OpenAsked { cursor, rows }))
        }
    }
}

// Prepares a SELECT on a table, or refuses it.
fn prepare_rows(
    alloc: Global,
    table: &Table,
    select: Select,
    kit: &mut Kit,
    reply: &mut Reply,
) -> Result<Prepared, KitFault>
    requires { IsWellFormedSelect select }
    ensures prepares { IfOk result (λ prepared. PreparesRows (Some table.now) select reply.old reply.new prepared) }
    ensures missing { IfErr result (OnMissing (TableLacks (map (λ b. kind (b.vtable, b.value)) kit.old.objects.items) (definition table.now))) }
    ensures kinds { map (λ b. kind (b.vtable, b.value)) kit.new.objects.items ≡ map (λ b. kind (b.vtable, b.value)) kit.old.objects.items }
{
    match select_refusal(alloc, table, &select, kit)? {
        Some(refusal) => {
            let outcome = reply_refusal(reply, refusal)?;
            Ok(Prepared::Answered(outcome))
        }
        None => {
            let table = table.number;
            Ok(Prepared::Select(Selection { table, select }))
        }
    }
}
