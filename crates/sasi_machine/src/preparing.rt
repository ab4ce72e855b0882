// The preparing of pieces, before anything changes.
ghost use Rattle.std.specs.Prelude.{◌≡◌, ◌≤◌, ℕ, List, Some, true, map, IfErr, IfOk};
ghost use Rattle.sasi_types.specs.declared.statement.Statement.{Statement};
ghost use Rattle.sasi_types.specs.declared.statement.Statement.TheVariants.{CloseCursor, CreateTable, Fetch, Flush, ShowFiles, Trace};
ghost use Rattle.sasi_model.specs.Abbreviations.{TIME_LIMIT as time_limit};
ghost use Rattle.sasi_model.specs.Asked.{asks};
ghost use Rattle.sasi_model.specs.Pieces.{piece_of};
ghost use Rattle.sasi_model.specs.Abbreviations.{definitions};
ghost use Rattle.sasi_model.specs.Refusals.{Known, is_built, read as parsed};
ghost use Rattle.sasi_model.specs.State.{State};
ghost use Rattle.sasi_model.specs.WellFormed.{IsWellFormed};
ghost use Rattle.sasi_machine.specs.Classes.{OnMissing, TablesLack};
ghost use Rattle.sasi_machine.specs.Prepares.{AsksSteps, CanBeDone, IsChanging, IsPrepared, IsListing, IsOnTable, IsPreparedFor, IsQuery, IsSelect, IsShowFiles, IsStateOf, IsTimeless, Prepares, asked_by, compact_asked, known_by, unit_steps};
ghost use Rattle.sasi_machine.specs.Writes.{IsWriting};

use crate::builder::MutationBuilder;
use crate::fault::Fault;
use crate::index::prepare_index;
use crate::limit::count_asked;
use crate::prepared::{CompactAsked, CompactSteps, FetchAsked, Prepared};
use crate::read::{ParsedPiece, read};
use crate::reply_refusal::{reply_fault, reply_refusal};
use crate::select::{prepare_open, prepare_select};
use crate::statement_mutation::statement_mutation;
use crate::{Outcome, Refusal, Reply};
use sasi_analyzers::Kit;
use sasi_print::ok;
use sasi_schema::{Schema, Table};
use sasi_types::{Columns, DeclaredColumns, KitFault, Name, Names, Number, PieceEnd, Statement};
use std::alloc::{AllocError, Global};

/// Prepares a piece for these tables, where this is the largest timestamp of their state. The reply is replaced; after an
/// error it may be incomplete.
pub fn prepare(
    alloc: Global,
    schema: &Schema,
    max_timestamp: u64,
    kit: &mut Kit,
    piece: &[u8],
    end: PieceEnd,
    reply: &mut Reply,
) -> Result<Prepared, KitFault>
    requires { max_timestamp ≤ time_limit }
    ensures asked { IfOk result (λ prepared. asks (known_by schema.now max_timestamp) (piece_of end piece.now) ≡ asked_by prepared) }
    ensures prepares { IfOk result (λ prepared. (s : State) → IsStateOf (known_by schema.now max_timestamp) s → Prepares s (piece_of end piece.now) reply.new prepared) }
    // What doesn't depend on the time is prepared for each state with these definitions.
    ensures timeless { IfOk result (λ prepared. IsTimeless prepared → (s : State) → definitions s.tables ≡ schema.now.definitions → Prepares s (piece_of end piece.now) reply.new prepared) }
    ensures selects { IfOk result (λ prepared. IsSelect prepared → IsQuery (parsed (piece_of end piece.now))) }
    ensures lists { IfOk result (λ prepared. IsListing prepared → IsShowFiles (parsed (piece_of end piece.now))) }
    // A class is missing only where an index needs it.
    ensures missing { IfErr result (OnMissing (TablesLack (map (λ b. kind (b.vtable, b.value)) kit.old.objects.items) schema.now.definitions)) }
    ensures kinds { map (λ b. kind (b.vtable, b.value)) kit.new.objects.items ≡ map (λ b. kind (b.vtable, b.value)) kit.old.objects.items }
{
    reply.clear();
    match read(alloc, piece, end)? {
        ParsedPiece::Nothing => Ok(Prepared::Answered(Outcome::Done)),
        ParsedPiece::Bad(refusal) => {
            let outcome = reply_refusal(reply, refusal)?;
            Ok(Prepared::Answered(outcome))
        }
        ParsedPiece::Says(statement) => {
            let builder = MutationBuilder {
                alloc,
                max_timestamp,
            };
            prepare_statement(&builder, schema, statement, kit, reply)
        }
    }
}

// Prepares a statement that is built, or replies with its refusal.
fn prepare_statement(
    builder: &MutationBuilder,
    schema: &Schema,
    statement: Statement,
    kit: &mut Kit,
    reply: &mut Reply,
) -> Result<Prepared, KitFault>
    requires limit { builder.now.max_timestamp ≤ time_limit }
    requires built { is_built statement ≡ true }
    requires written { IsWellFormed statement }
    ensures prepares { IfOk result (IsPreparedFor (known_by schema.now builder.now.max_timestamp) statement reply.old reply.new) }
    ensures missing { IfErr result (OnMissing (TablesLack (map (λ b. kind (b.vtable, b.value)) kit.old.objects.items) schema.now.definitions)) }
    ensures kinds { map (λ b. kind (b.vtable, b.value)) kit.new.objects.items ≡ map (λ b. kind (b.vtable, b.value)) kit.old.objects.items }
{
    match statement {
        Statement::Query { select } => prepare_select(builder.alloc, schema, select, kit, reply),
        Statement::OpenCursor { cursor, select } => prepare_open(
            builder.alloc,
            schema,
            cursor,
            select,
            kit,
            reply,
        ),
        other => Ok(prepare_other(builder, schema, other, reply)?),
    }
}

/// Prepares a statement that isn't a SELECT for these tables, where this is the largest timestamp of their state. Its reply is appended.
pub fn prepare_change(
    alloc: Global,
    schema: &Schema,
    max_timestamp: u64,
    statement: Statement,
    reply: &mut Reply,
) -> Result<Prepared, AllocError>
    requires limit { max_timestamp ≤ time_limit }
    requires change { IsChanging statement }
    requires written { IsWellFormed statement }
    ensures prepares { IfOk result (IsPreparedFor (known_by schema.now max_timestamp) statement reply.old reply.new) }
    ensures can { IfOk result (λ prepared. (s : State) → IsStateOf (known_by schema.now max_timestamp) s → CanBeDone s prepared) }
{
    let builder = MutationBuilder {
        alloc,
        max_timestamp,
    };
    prepare_other(&builder, schema, statement, reply)
}

// The same with a builder of its mutation.
fn prepare_other(
    builder: &MutationBuilder,
    schema: &Schema,
    statement: Statement,
    reply: &mut Reply,
) -> Result<Prepared, AllocError>
    requires limit { builder.now.max_timestamp ≤ time_limit }
    requires change { IsChanging statement }
    ensures { IfOk result (IsPreparedFor (known_by schema.now builder.now.max_timestamp) statement reply.old reply.new) }
{
    match statement {
        Statement::CreateTable {
            table,
            columns,
            keys,
        } => prepare_table(builder.alloc, schema, &table, &columns, &keys, reply),
        Statement::CreateIndex {
            name,
            table,
            column,
            class,
            options,
            ..
        } => prepare_index(
            schema,
            name.as_ref(),
            &table,
            &column,
            &class,
            &options,
            reply,
        ),
        Statement::Trace { on } => prepare_trace(on, reply),
        Statement::ShowFiles => Ok(prepare_files()),
        Statement::Fetch { cursor, count } => prepare_fetch(cursor, count, reply),
        Statement::CloseCursor { cursor } => Ok(prepare_close(cursor)),
        other => prepare_on_table(builder, schema, other, reply),
    }
}

// Prepares a statement on the files of a table or on its rows.
fn prepare_on_table(
    builder: &MutationBuilder,
    schema: &Schema,
    statement: Statement,
    reply: &mut Reply,
) -> Result<Prepared, AllocError>
    requires limit { builder.now.max_timestamp ≤ time_limit }
    requires on_table { IsOnTable statement }
    ensures { IfOk result (IsPreparedFor (known_by schema.now builder.now.max_timestamp) statement reply.old reply.new) }
{
    match statement {
        Statement::Flush { table } => prepare_flush(schema, table, reply),
        Statement::Compact { table } => {
            prepare_compact(schema, table, Some(CompactSteps::Whole), reply)
        }
        Statement::BeginCompact { table } => {
            prepare_compact(schema, table, Some(CompactSteps::Begin), reply)
        }
        Statement::StepCompact { table, units } => {
            prepare_compact(schema, table, unit_steps(units), reply)
        }
        write => prepare_mutation(builder, schema, write, reply),
    }
}

fn prepare_table(
    alloc: Global,
    schema: &Schema,
    table: &Name,
    columns: &DeclaredColumns,
    keys: &Names,
    reply: &mut Reply,
) -> Result<Prepared, AllocError>
    ensures { IfOk result (λ prepared. (max_time : ℕ) → IsPrepared (known_by schema.now max_time) (CreateTable table.now columns.now keys.now) reply.old reply.new prepared) }
{
    let columns = columns.unpack(alloc)?;
    let keys = keys.unpack(alloc)?;
    prepare_definition(schema, table, &columns, keys.as_slice(), reply)
}

// A table of these columns, with the names that PRIMARY KEY is said of.
fn prepare_definition(
    schema: &Schema,
    table: &Name,
    columns: &Columns,
    keys: &[Name],
    reply: &mut Reply,
) -> Result<Prepared, AllocError>
    ensures { IfOk result (λ prepared. (max_time : ℕ) → IsPrepared (known_by schema.now max_time) (CreateTable table.now columns.now keys.now) reply.old reply.new prepared) }
{
    match schema.prepare_table(table, columns, keys) {
        Ok(table) => {
            ok(reply)?;
            Ok(Prepared::Create(table))
        }
        Err(fault) => {
            let outcome = reply_fault(reply, Fault::of_schema(fault))?;
            Ok(Prepared::Answered(outcome))
        }
    }
}

fn prepare_flush(schema: &Schema, table: Name, reply: &mut Reply) -> Result<Prepared, AllocError>
    ensures { IfOk result (λ prepared. (max_time : ℕ) → IsPrepared (known_by schema.now max_time) (Flush table) reply.old reply.new prepared) }
{
    match schema.table(&table) {
        Some(table) => {
            ok(reply)?;
            Ok(Prepared::Flush(table.number))
        }
        None => {
            let outcome = reply_refusal(reply, Refusal::NoTable(table))?;
            Ok(Prepared::Answered(outcome))
        }
    }
}

// What is asked of the compactions of a table; no steps where a rule refuses their number.
fn prepare_compact(
    schema: &Schema,
    table: Name,
    steps: Option<CompactSteps>,
    reply: &mut Reply,
) -> Result<Prepared, AllocError>
    ensures { IfOk result (λ prepared. (max_time : ℕ) (statement : Statement) → compact_asked statement ≡ Some (table, steps) → IsPrepared (known_by schema.now max_time) statement reply.old reply.new prepared) }
{
    match schema.table(&table) {
        Some(table) => prepare_steps(table, steps, reply),
        None => {
            let outcome = reply_refusal(reply, Refusal::NoTable(table))?;
            Ok(Prepared::Answered(outcome))
        }
    }
}

fn prepare_steps(
    table: &Table,
    steps: Option<CompactSteps>,
    reply: &mut Reply,
) -> Result<Prepared, AllocError>
    ensures { IfOk result (λ prepared. (known : Known) (statement : Statement) → AsksSteps known table.now steps statement → IsPrepared known statement reply.old reply.new prepared) }
{
    match steps {
        Some(steps) => {
            ok(reply)?;
            Ok(Prepared::Compact(CompactAsked {
                table: table.number,
                steps,
            }))
        }
        None => {
            let outcome = reply_refusal(reply, Refusal::StepRange)?;
            Ok(Prepared::Answered(outcome))
        }
    }
}

// The steps of a STEP COMPACT of so many units; None where a rule refuses the number.
fn unit_steps(units: Number) -> Option<CompactSteps>
    ensures { result ≡ unit_steps units }
{
    match count_asked(units) {
        Some(count) => Some(CompactSteps::Units(count)),
        None => None,
    }
}

// TRACE is never refused.
fn prepare_trace(on: bool, reply: &mut Reply) -> Result<Prepared, AllocError>
    ensures { IfOk result (λ prepared. (known : Known) → IsPrepared known (Trace on) reply.old reply.new prepared) }
{
    ok(reply)?;
    Ok(Prepared::Trace(on))
}

// SHOW FILES is never refused.
fn prepare_files() -> Prepared
    ensures { (known : Known) (reply : List ℕ) → IsPrepared known ShowFiles reply reply result }
{
    Prepared::Files
}

fn prepare_fetch(cursor: Name, count: Number, reply: &mut Reply) -> Result<Prepared, AllocError>
    ensures { IfOk result (λ prepared. (known : Known) → IsPrepared known (Fetch cursor count) reply.old reply.new prepared) }
{
    match count_asked(count) {
        Some(count) => Ok(Prepared::Fetch(FetchAsked { cursor, count })),
        None => {
            let outcome = reply_refusal(reply, Refusal::FetchRange)?;
            Ok(Prepared::Answered(outcome))
        }
    }
}

// Whether a cursor has the name is not known here.
fn prepare_close(cursor: Name) -> Prepared
    ensures { (known : Known) (reply : List ℕ) → IsPrepared known (CloseCursor cursor) reply reply result }
{
    Prepared::Close(cursor)
}

// An INSERT, an UPDATE or a DELETE.
fn prepare_mutation(
    builder: &MutationBuilder,
    schema: &Schema,
    statement: Statement,
    reply: &mut Reply,
) -> Result<Prepared, AllocError>
    requires limit { builder.now.max_timestamp ≤ time_limit }
    requires writing { IsWriting statement }
    ensures { IfOk result (IsPreparedFor (known_by schema.now builder.now.max_timestamp) statement reply.old reply.new) }
{
    match statement_mutation(builder, schema, statement) {
        Ok(mutation) => {
            ok(reply)?;
            Ok(Prepared::Write(mutation))
        }
        Err(fault) => {
            let outcome = reply_fault(reply, fault)?;
            Ok(Prepared::Answered(outcome))
        }
    }
}
