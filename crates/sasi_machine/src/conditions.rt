// The conditions of a WHERE, made of its relations.
ghost use Rattle.std.specs.Prelude.{◌≡◌, ◌≤◌, ◌++◌, ◌∷◌, [], true, false, OnOk, IfOk, IfErr, Some, map};
ghost use Rattle.std.specs.List.{AllByRecursion};
ghost use Rattle.std.specs.Str.{IsUtf8};
ghost use Rattle.sasi_types.specs.declared.relation.Test.TheVariants.{Like};
ghost use Rattle.sasi_model.specs.Conditions.{Between, comparison_of, condition_of, condition_on, integer_of, number_search, search_of, text_search};
ghost use Rattle.sasi_model.specs.Refusals.{is_within};
ghost use Rattle.sasi_model.specs.Relations.{asks_nothing, rule_on};
ghost use Rattle.sasi_schema.specs.Defined.{definition};
ghost use Rattle.sasi_machine.specs.Classes.{OnMissing, RuleLacks, TableLacks};
ghost use Rattle.sasi_machine.specs.Operands.{CanAsk, CanSearch, IsOperand};
ghost use Rattle.sasi_machine.specs.Where.{model_comparison, model_condition, model_search};

use crate::bounds::{NOWHERE, bounds};
use crate::condition::{Comparison, Condition};
use crate::key::key_given;
use crate::search::Search;
use crate::terms::{as_str, terms_of};
use sasi_analyzers::Kit;
use sasi_schema::{Table, index_on};
use sasi_terms::{Op, Pattern};
use sasi_types::{
    ColumnType, KitFault, Literal, Number, Relation, Rule, Term, TermList, Test, Text,
};
use std::alloc::{AllocError, Global};

/// The conditions of relations on a table, none of which is refused.
pub fn conditions_of(
    alloc: Global,
    table: &Table,
    relations: &[Relation],
    kit: &mut Kit,
) -> Result<Vec<Condition>, KitFault>
    requires { AllByRecursion (CanAsk (definition table.now)) relations.now }
    ensures conditions { IfOk result (λ conditions. map model_condition conditions.items ≡ map (condition_of (definition table.now)) relations.now) }
    ensures missing { IfErr result (OnMissing (TableLacks (map (λ b. kind (b.vtable, b.value)) kit.old.objects.items) (definition table.now))) }
    ensures kinds { map (λ b. kind (b.vtable, b.value)) kit.new.objects.items ≡ map (λ b. kind (b.vtable, b.value)) kit.old.objects.items }
{
    let mut conditions = Vec::new(alloc);
    for relation in relations {
        let condition = condition_of(alloc, table, relation, kit)?;
        add(&mut conditions, condition)?;
    }
    Ok(conditions)
}

fn add(conditions: &mut Vec<Condition>, condition: Condition) -> Result<(), AllocError>
    ensures { OnOk result (conditions.new.items ≡ conditions.old.items ++ condition ∷ []) }
{
    conditions.push(condition)?;
    Ok(())
}

// The condition of one relation.
fn condition_of(
    alloc: Global,
    table: &Table,
    relation: &Relation,
    kit: &mut Kit,
) -> Result<Condition, KitFault>
    requires { CanAsk (definition table.now) relation.now }
    ensures condition { IfOk result (λ condition. model_condition condition ≡ condition_of (definition table.now) relation.now) }
    ensures missing { IfErr result (OnMissing (TableLacks (map (λ b. kind (b.vtable, b.value)) kit.old.objects.items) (definition table.now))) }
    ensures kinds { map (λ b. kind (b.vtable, b.value)) kit.new.objects.items ≡ map (λ b. kind (b.vtable, b.value)) kit.old.objects.items }
{
    match table.column(&relation.column) {
        Some((0, kind)) => {
            let value = relation.value.copy(alloc)?;
            Ok(Condition::OfKey(key_given(alloc, kind, value)?))
        }
        Some((number, kind)) => condition_on(alloc, table, number, kind, relation, kit),
        None => unreachable!(),
    }
}

// The same on a regular column, by its number and type.
fn condition_on(
    alloc: Global,
    table: &Table,
    number: u16,
    column_type: ColumnType,
    relation: &Relation,
    kit: &mut Kit,
) -> Result<Condition, KitFault>
    requires regular { 1 ≤ number }
    requires operand { IsOperand column_type relation.now.value }
    requires search { CanSearch (rule_on (definition table.now) number) relation.now.test relation.now.value }
    ensures condition { IfOk result (λ condition. model_condition condition ≡ condition_on (definition table.now) number column_type relation.now.test relation.now.value) }
    ensures missing { IfErr result (OnMissing (TableLacks (map (λ b. kind (b.vtable, b.value)) kit.old.objects.items) (definition table.now))) }
    ensures kinds { map (λ b. kind (b.vtable, b.value)) kit.new.objects.items ≡ map (λ b. kind (b.vtable, b.value)) kit.old.objects.items }
{
    let (test, literal) = (relation.test, &relation.value);
    match index_on(number, table.indexes.as_slice()) {
        Some(index) => {
            let search = search_of(alloc, column_type, index.rule, test, literal, kit)?;
            Ok(Condition::Indexed(index.copy(alloc)?, search))
        }
        None => {
            let comparison = comparison_of(alloc, column_type, test, literal)?;
            Ok(Condition::Plain(number, comparison))
        }
    }
}

// ---- a column with an index

fn search_of(
    alloc: Global,
    column_type: ColumnType,
    rule: Option<Rule>,
    test: Test,
    literal: &Literal,
    kit: &mut Kit,
) -> Result<Search, KitFault>
    requires operand { IsOperand column_type literal.now }
    requires search { CanSearch rule test literal.now }
    ensures search { IfOk result (λ search. model_search search ≡ search_of column_type rule test literal.now) }
    ensures missing { IfErr result (OnMissing (RuleLacks (map (λ b. kind (b.vtable, b.value)) kit.old.objects.items) rule)) }
    ensures kinds { map (λ b. kind (b.vtable, b.value)) kit.new.objects.items ≡ map (λ b. kind (b.vtable, b.value)) kit.old.objects.items }
{
    match (rule, literal) {
        (Some(rule), Literal::Text(text)) => text_search(alloc, rule, test, text, kit),
        (_, Literal::Number(number)) => {
            let range = bounds(column_type, test, integer_of(*number));
            Ok(number_search(alloc, range)?)
        }
        _ => Ok(number_search(alloc, NOWHERE)?),
    }
}

fn text_search(
    alloc: Global,
    rule: Rule,
    test: Test,
    text: &Text,
    kit: &mut Kit,
) -> Result<Search, KitFault>
    requires text { IsUtf8 text.now }
    requires body { test ≡ Like → asks_nothing (Some rule) text.now ≡ false }
    ensures search { IfOk result (λ search. model_search search ≡ text_search rule test text.now) }
    ensures missing { IfErr result (OnMissing (RuleLacks (map (λ b. kind (b.vtable, b.value)) kit.old.objects.items) (Some rule))) }
    ensures kinds { map (λ b. kind (b.vtable, b.value)) kit.new.objects.items ≡ map (λ b. kind (b.vtable, b.value)) kit.old.objects.items }
{
    if test == Test::Like {
        return like_search(alloc, rule, as_str(text), kit);
    }
    let words = terms_of(alloc, rule, as_str(text), kit)?;
    Ok(Search { op: Op::Eq, words })
}

// What a LIKE asks for, whose pattern has a body.
fn like_search(alloc: Global, rule: Rule, text: &str, kit: &mut Kit) -> Result<Search, KitFault>
    requires { asks_nothing (Some rule) text.now ≡ false }
    ensures search { IfOk result (λ search. model_search search ≡ text_search rule Like text.now) }
    ensures missing { IfErr result (OnMissing (RuleLacks (map (λ b. kind (b.vtable, b.value)) kit.old.objects.items) (Some rule))) }
    ensures kinds { map (λ b. kind (b.vtable, b.value)) kit.new.objects.items ≡ map (λ b. kind (b.vtable, b.value)) kit.old.objects.items }
{
    let Ok(pattern) = Pattern::read(text) else {
        unreachable!()
    };
    let words = terms_of(alloc, rule, pattern.body, kit)?;
    Ok(Search {
        op: pattern.op,
        words,
    })
}

// A term in the range, for one word that isn't looked at.
fn number_search(alloc: Global, range: (i64, i64)) -> Result<Search, AllocError>
    ensures { IfOk result (λ search. model_search search ≡ number_search range) }
{
    let (least, greatest) = range;
    let mut words = TermList::new(alloc);
    words.push(Term::new(Vec::new(alloc)))?;
    Ok(Search {
        op: Op::Range { least, greatest },
        words,
    })
}

// ---- a column without one

fn comparison_of(
    alloc: Global,
    kind: ColumnType,
    test: Test,
    literal: &Literal,
) -> Result<Comparison, AllocError>
    requires { IsOperand kind literal.now }
    ensures { IfOk result (λ comparison. model_comparison comparison ≡ comparison_of kind test literal.now) }
{
    match literal {
        Literal::Text(text) => Ok(Comparison::Text(text.copy(alloc)?)),
        Literal::Uuid(bytes) => Ok(Comparison::Uuid(*bytes)),
        Literal::Number(number) => Ok(between(bounds(kind, test, integer_of(*number)))),
        Literal::Null => Ok(between(NOWHERE)),
    }
}

fn between(range: (i64, i64)) -> Comparison
    ensures { model_comparison result ≡ Between range.0 range.1 }
{
    let (least, greatest) = range;
    Comparison::Between { least, greatest }
}

// The number of a literal of 64 bits.
fn integer_of(number: Number) -> i64
    requires { is_within 63 number ≡ true }
    ensures { result ≡ integer_of number }
{
    match number {
        Number::Fits(number) => number as i64,
        Number::Wide => unreachable!(),
    }
}
