// The rules of writes on an existing table, in their order.
ghost use Rattle.std.specs.Prelude.{◌≡◌, ◌≤◌, ◌∷◌, ◌++◌, [], IfOk, map, Some};
ghost use Rattle.sasi_model.specs.Refusals.{delete_rules, each, repeat_rules, update_rules};
ghost use Rattle.sasi_model.specs.Abbreviations.{TIME_LIMIT as time_limit, gives_key};
ghost use Rattle.sasi_schema.specs.Answers.{Answers};
ghost use Rattle.sasi_schema.specs.Defined.{definition};
ghost use Rattle.sasi_machine.specs.Checks.{IsTimeOf, given_key_rules, given_rules, kind_rules, length_rules, missing_rule, other_key_rule, range_rules, where_rules};
ghost use Rattle.sasi_machine.specs.Faults.{refusal_of_fault};
ghost use Rattle.sasi_machine.specs.Rules.{literal_rule};

use crate::Refusal;
use crate::assign::is_key_value;
use crate::fault::Fault;
use crate::literal_rule::LiteralRule;
use crate::name_rule::NameRule;
use crate::relation::KeyRelation;
use crate::time::time_of;
use sasi_schema::{Table, repeated_column, repeated_name};
use sasi_types::{Literal, Name, Number};
use std::alloc::Global;

/// Checks that no name is there twice.
pub fn check_once(alloc: Global, names: &[Name]) -> Result<(), Fault>
    ensures { Answers refusal_of_fault (repeat_rules [] names.now) result }
{
    match repeated_name(alloc, names)? {
        Some(name) => Err(Fault::Refused(Refusal::ColumnRepeated(name))),
        None => Ok(()),
    }
}

// Checks that no column is set twice.
fn check_set_once(alloc: Global, sets: &[(Name, Literal)]) -> Result<(), Fault>
    ensures { Answers refusal_of_fault (repeat_rules [] (map (λ set. set.0) sets.now)) result }
{
    match repeated_column(alloc, sets)? {
        Some(name) => Err(Fault::Refused(Refusal::ColumnRepeated(name))),
        None => Ok(()),
    }
}

// ---- INSERT

fn gives_key(table: &Table, given: &[(Name, Literal)]) -> bool
    ensures { result ≡ gives_key (definition table.now) given.now }
{
    for (column, literal) in given {
        if is_key_value(table, column, literal) {
            return true;
        }
    }
    false
}

fn check_key_is_given(alloc: Global, table: &Table, given: &[(Name, Literal)]) -> Result<(), Fault>
    ensures { Answers refusal_of_fault (missing_rule (definition table.now) given.now ∷ []) result }
{
    if !gives_key(table, given) {
        return Err(Fault::Refused(Refusal::KeyMissing(table.key_name().copy(alloc)?)));
    }
    Ok(())
}

fn check_given_key(
    alloc: Global,
    table: &Table,
    max_timestamp: u64,
    given: &[(Name, Literal)],
    time: Option<Number>,
) -> Result<u64, Fault>
    requires { max_timestamp ≤ time_limit }
    ensures answers { Answers refusal_of_fault (given_key_rules (definition table.now) max_timestamp given.now time) result }
    ensures time { IfOk result (IsTimeOf max_timestamp time) }
{
    check_key_is_given(alloc, table, given)?;
    LiteralRule::KeyEmpty.check_each(alloc, table, given)?;
    LiteralRule::ValueTooLong.check_each(alloc, table, given)?;
    time_of(max_timestamp, time)
}

/// Tries the rules on the literals of an INSERT, and finds its timestamp.
pub fn check_given(
    alloc: Global,
    table: &Table,
    max_timestamp: u64,
    given: &[(Name, Literal)],
    time: Option<Number>,
) -> Result<u64, Fault>
    requires { max_timestamp ≤ time_limit }
    ensures answers { Answers refusal_of_fault (given_rules (definition table.now) max_timestamp given.now time) result }
    ensures time { IfOk result (IsTimeOf max_timestamp time) }
{
    LiteralRule::WrongType.check_each(alloc, table, given)?;
    LiteralRule::NumberRange.check_each(alloc, table, given)?;
    check_given_key(alloc, table, max_timestamp, given, time)
}

// ---- UPDATE and DELETE

// Checks that the column of the WHERE is the key, if it is a column.
fn check_is_key(alloc: Global, table: &Table, column: &Name) -> Result<(), Fault>
    ensures { Answers refusal_of_fault (other_key_rule (definition table.now) column.now ∷ []) result }
{
    if table.number_of(column).is_some() && !table.is_key(column) {
        return Err(Fault::Refused(Refusal::KeyMissing(table.key_name().copy(alloc)?)));
    }
    Ok(())
}

// Tries a rule on each column's literal, and one on that of the WHERE.
fn check_literals(
    alloc: Global,
    table: &Table,
    of_sets: LiteralRule,
    of_where: LiteralRule,
    sets: &[(Name, Literal)],
    relation: &KeyRelation,
) -> Result<(), Fault>
    ensures { Answers refusal_of_fault (each (literal_rule of_sets (definition table.now)) sets.now ++ literal_rule of_where (definition table.now) relation.now.column relation.now.value ∷ []) result }
{
    of_sets.check_each(alloc, table, sets)?;
    of_where.check(alloc, table, &relation.column, &relation.value)
}

fn check_lengths(
    alloc: Global,
    table: &Table,
    max_timestamp: u64,
    sets: &[(Name, Literal)],
    relation: &KeyRelation,
    time: Option<Number>,
) -> Result<u64, Fault>
    requires { max_timestamp ≤ time_limit }
    ensures answers { Answers refusal_of_fault (length_rules (definition table.now) max_timestamp sets.now relation.now time) result }
    ensures time { IfOk result (IsTimeOf max_timestamp time) }
{
    let too_long = LiteralRule::ValueTooLong;
    check_literals(alloc, table, too_long, too_long, sets, relation)?;
    time_of(max_timestamp, time)
}

fn check_where(
    alloc: Global,
    table: &Table,
    max_timestamp: u64,
    sets: &[(Name, Literal)],
    relation: &KeyRelation,
    time: Option<Number>,
) -> Result<u64, Fault>
    requires { max_timestamp ≤ time_limit }
    ensures answers { Answers refusal_of_fault (where_rules (definition table.now) max_timestamp sets.now relation.now time) result }
    ensures time { IfOk result (IsTimeOf max_timestamp time) }
{
    check_is_key(alloc, table, &relation.column)?;
    LiteralRule::KeyEmpty.check(alloc, table, &relation.column, &relation.value)?;
    check_lengths(alloc, table, max_timestamp, sets, relation, time)
}

fn check_ranges(
    alloc: Global,
    table: &Table,
    max_timestamp: u64,
    sets: &[(Name, Literal)],
    relation: &KeyRelation,
    time: Option<Number>,
) -> Result<u64, Fault>
    requires { max_timestamp ≤ time_limit }
    ensures answers { Answers refusal_of_fault (range_rules (definition table.now) max_timestamp sets.now relation.now time) result }
    ensures time { IfOk result (IsTimeOf max_timestamp time) }
{
    let range = LiteralRule::NumberRange;
    check_literals(alloc, table, range, range, sets, relation)?;
    check_where(alloc, table, max_timestamp, sets, relation, time)
}

fn check_kinds(
    alloc: Global,
    table: &Table,
    max_timestamp: u64,
    sets: &[(Name, Literal)],
    relation: &KeyRelation,
    time: Option<Number>,
) -> Result<u64, Fault>
    requires { max_timestamp ≤ time_limit }
    ensures answers { Answers refusal_of_fault (kind_rules (definition table.now) max_timestamp sets.now relation.now time) result }
    ensures time { IfOk result (IsTimeOf max_timestamp time) }
{
    let (of_sets, of_where) = (LiteralRule::WrongType, LiteralRule::WrongWhere);
    check_literals(alloc, table, of_sets, of_where, sets, relation)?;
    check_ranges(alloc, table, max_timestamp, sets, relation, time)
}

/// Tries the rules of an UPDATE, and finds its timestamp.
pub fn check_update(
    alloc: Global,
    table: &Table,
    max_timestamp: u64,
    sets: &[(Name, Literal)],
    relation: &KeyRelation,
    time: Option<Number>,
) -> Result<u64, Fault>
    requires { max_timestamp ≤ time_limit }
    ensures answers { Answers refusal_of_fault (update_rules max_timestamp table.now.name sets.now relation.now.column relation.now.value time (Some (definition table.now))) result }
    ensures time { IfOk result (IsTimeOf max_timestamp time) }
{
    NameRule::NoRegularColumn.check_sets(alloc, table, sets)?;
    NameRule::NoColumn.check(alloc, table, &relation.column)?;
    check_set_once(alloc, sets)?;
    check_kinds(alloc, table, max_timestamp, sets, relation, time)
}

/// Tries the rules of a DELETE, and finds its timestamp.
pub fn check_delete(
    alloc: Global,
    table: &Table,
    max_timestamp: u64,
    columns: &[Name],
    relation: &KeyRelation,
    time: Option<Number>,
) -> Result<u64, Fault>
    requires { max_timestamp ≤ time_limit }
    ensures answers { Answers refusal_of_fault (delete_rules max_timestamp table.now.name columns.now relation.now.column relation.now.value time (Some (definition table.now))) result }
    ensures time { IfOk result (IsTimeOf max_timestamp time) }
{
    NameRule::NoRegularColumn.check_names(alloc, table, columns)?;
    NameRule::NoColumn.check(alloc, table, &relation.column)?;
    check_once(alloc, columns)?;
    check_kinds(alloc, table, max_timestamp, &[], relation, time)
}
