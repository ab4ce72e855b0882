// What a relation asks of the terms of an indexed column.
ghost use Rattle.std.specs.Prelude.{◌≡◌, ◌∷◌, [], IfOk, IfErr, Some, map};
ghost use Rattle.std.specs.List.{list_all};
ghost use Rattle.std.specs.Str.{IsUtf8};
ghost use Rattle.sasi_types.specs.declared.value.Value.TheVariants as values;
ghost use Rattle.sasi_model.specs.Conditions.{finds};
ghost use Rattle.sasi_model.specs.IndexTerms.{any_holds};
ghost use Rattle.sasi_machine.specs.Classes.{OnMissing, RuleLacks};
ghost use Rattle.sasi_machine.specs.Where.{IsText, model_search};

use crate::terms::{as_str, terms_of};
use sasi_analyzers::Kit;
use sasi_terms::{Op, bigint_term, holds, int_term};
use sasi_types::{KitFault, Rule, Term, TermList, Text, Value};
use std::alloc::Global;

/// What is asked of the terms of a value: for each of the words, some term is as the operator asks.
#[derive(Drop)]
pub struct Search {
    pub op: Op,
    pub words: TermList,
}

/// Whether the terms that the rule makes of a value are as asked.
pub fn finds(
    alloc: Global,
    rule: Option<Rule>,
    search: &Search,
    value: &Value,
    kit: &mut Kit,
) -> Result<bool, KitFault>
    requires { IsText value.now }
    ensures finds { IfOk result (λ found. found ≡ finds rule (model_search search.now) (Some value.now)) }
    ensures missing { IfErr result (OnMissing (RuleLacks (map (λ b. kind (b.vtable, b.value)) kit.old.objects.items) rule)) }
    ensures kinds { map (λ b. kind (b.vtable, b.value)) kit.new.objects.items ≡ map (λ b. kind (b.vtable, b.value)) kit.old.objects.items }
{
    match value {
        Value::Text(text) => finds_in_text(alloc, rule, search, text, kit),
        Value::Int(number) => Ok(finds_term(search, &int_term(*number))),
        Value::BigInt(number) => Ok(finds_term(search, &bigint_term(*number))),
        Value::Uuid(_) => Ok(finds_among(search, &[])),
    }
}

// The same of a text.
fn finds_in_text(
    alloc: Global,
    rule: Option<Rule>,
    search: &Search,
    text: &Text,
    kit: &mut Kit,
) -> Result<bool, KitFault>
    requires { IsUtf8 text.now }
    ensures finds { IfOk result (λ found. found ≡ finds rule (model_search search.now) (Some (values.Text text.now))) }
    ensures missing { IfErr result (OnMissing (RuleLacks (map (λ b. kind (b.vtable, b.value)) kit.old.objects.items) rule)) }
    ensures kinds { map (λ b. kind (b.vtable, b.value)) kit.new.objects.items ≡ map (λ b. kind (b.vtable, b.value)) kit.old.objects.items }
{
    let Some(rule) = rule else {
        return Ok(finds_among(search, &[]));
    };
    let terms = terms_of(alloc, rule, as_str(text), kit)?;
    Ok(finds_among(search, terms.as_slice()))
}

// Whether the one term of a number is as asked for each of the words.
fn finds_term(search: &Search, term: &[u8]) -> bool
    ensures { result ≡ list_all (λ word. any_holds search.now.op word (term.now ∷ [])) search.now.words }
{
    let words = search.words.as_slice();
    for word in words {
        if !holds(&search.op, term, word.bytes()) {
            return false;
        }
    }
    true
}

/// Whether for each of the words one of these terms is as asked.
pub fn finds_among(search: &Search, terms: &[Term]) -> bool
    ensures { result ≡ list_all (λ word. any_holds search.now.op word terms.now) search.now.words }
{
    let words = search.words.as_slice();
    for word in words {
        if !any_holds(&search.op, word, terms) {
            return false;
        }
    }
    true
}

// Whether one of the terms is as asked.
fn any_holds(op: &Op, word: &Term, terms: &[Term]) -> bool
    ensures { result ≡ any_holds op.now word.now terms.now }
{
    for term in terms {
        if holds(op, term.bytes(), word.bytes()) {
            return true;
        }
    }
    false
}
