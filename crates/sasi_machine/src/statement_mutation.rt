// The mutations of statements, or their refusals.
ghost use Rattle.std.specs.Prelude.{◌≡◌, ◌≤◌, IfOk};
ghost use Rattle.sasi_types.specs.declared.statement.Statement.TheVariants.{Insert, Update, Delete};
ghost use Rattle.sasi_model.specs.Refusals.{rules};
ghost use Rattle.sasi_model.specs.Abbreviations.{TIME_LIMIT as time_limit};
ghost use Rattle.sasi_schema.specs.Answers.{Answers};
ghost use Rattle.sasi_machine.specs.Faults.{refusal_of_fault};
ghost use Rattle.sasi_machine.specs.Prepares.{known_by};
ghost use Rattle.sasi_machine.specs.Writes.{IsWrite, IsWriting};

use crate::Refusal;
use crate::builder::MutationBuilder;
use crate::fault::Fault;
use crate::relation::KeyRelation;
use sasi_cells::Mutation;
use sasi_schema::Schema;
use sasi_types::{Literals, Name, Names, Number, Sets, Statement};

/// The mutation of an INSERT, an UPDATE or a DELETE, or its refusal.
pub fn statement_mutation(
    builder: &MutationBuilder,
    schema: &Schema,
    statement: Statement,
) -> Result<Mutation, Fault>
    requires limit { builder.now.max_timestamp ≤ time_limit }
    requires writing { IsWriting statement }
    ensures answers { Answers refusal_of_fault (rules (known_by schema.now builder.now.max_timestamp) statement) result }
    ensures write { IfOk result (IsWrite (known_by schema.now builder.now.max_timestamp) statement) }
{
    match statement {
        Statement::Insert {
            table,
            columns,
            values,
            time,
        } => insert(builder, schema, table, &columns, &values, time),
        Statement::Update {
            table,
            time,
            sets,
            key,
            value,
        } => update(
            builder,
            schema,
            table,
            &sets,
            KeyRelation { column: key, value },
            time,
        ),
        Statement::Delete {
            table,
            columns,
            time,
            key,
            value,
        } => delete(
            builder,
            schema,
            table,
            &columns,
            KeyRelation { column: key, value },
            time,
        ),
        _ => unreachable!(),
    }
}

fn insert(
    builder: &MutationBuilder,
    schema: &Schema,
    table: Name,
    columns: &Names,
    values: &Literals,
    time: Option<Number>,
) -> Result<Mutation, Fault>
    requires { builder.now.max_timestamp ≤ time_limit }
    ensures answers { Answers refusal_of_fault (rules (known_by schema.now builder.now.max_timestamp) (Insert table columns.now values.now time)) result }
    ensures write { IfOk result (IsWrite (known_by schema.now builder.now.max_timestamp) (Insert table columns.now values.now time)) }
{
    match schema.table(&table) {
        None => Err(Fault::Refused(Refusal::NoTable(table))),
        Some(found) => {
            let columns = columns.unpack(builder.alloc)?;
            let values = values.unpack(builder.alloc)?;
            builder.insert(found, columns, values, time)
        }
    }
}

fn update(
    builder: &MutationBuilder,
    schema: &Schema,
    table: Name,
    sets: &Sets,
    relation: KeyRelation,
    time: Option<Number>,
) -> Result<Mutation, Fault>
    requires { builder.now.max_timestamp ≤ time_limit }
    ensures answers { Answers refusal_of_fault (rules (known_by schema.now builder.now.max_timestamp) (Update table time sets.now relation.column relation.value)) result }
    ensures write { IfOk result (IsWrite (known_by schema.now builder.now.max_timestamp) (Update table time sets.now relation.column relation.value)) }
{
    match schema.table(&table) {
        None => Err(Fault::Refused(Refusal::NoTable(table))),
        Some(found) => {
            let sets = sets.unpack(builder.alloc)?;
            builder.update(found, sets, relation, time)
        }
    }
}

fn delete(
    builder: &MutationBuilder,
    schema: &Schema,
    table: Name,
    columns: &Names,
    relation: KeyRelation,
    time: Option<Number>,
) -> Result<Mutation, Fault>
    requires { builder.now.max_timestamp ≤ time_limit }
    ensures answers { Answers refusal_of_fault (rules (known_by schema.now builder.now.max_timestamp) (Delete table columns.now time relation.column relation.value)) result }
    ensures write { IfOk result (IsWrite (known_by schema.now builder.now.max_timestamp) (Delete table columns.now time relation.column relation.value)) }
{
    match schema.table(&table) {
        None => Err(Fault::Refused(Refusal::NoTable(table))),
        Some(found) => {
            let columns = columns.unpack(builder.alloc)?;
            builder.delete(found, columns, relation, time)
        }
    }
}
