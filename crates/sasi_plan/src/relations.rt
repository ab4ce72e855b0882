// Relations on indexed columns, by the numbers of their indexes.
ghost use Rattle.std.specs.Prelude.{◌≡◌, ◌++◌, ◌∷◌, [], Some, IfOk, OnOk, map};
ghost use Rattle.std.specs.List.{AllByRecursion};
ghost use Rattle.sasi_machine.specs.Where.{model_condition};
ghost use Rattle.sasi_engine.specs.Asked.{asked_of};
ghost use Rattle.sasi_plan.specs.Plans.{IsNumbered, number_on, relation_of};

use sasi_engine::IndexedRelation;
use sasi_machine::Condition;
use sasi_types::{IndexDef, IndexNumber, Term, TermList};
use std::alloc::{AllocError, Global};

// The number of the index on the column.
fn number_on(column: u16, indexes: &[IndexDef]) -> Option<IndexNumber>
    ensures { result ≡ number_on column indexes.now }
{
    for def in indexes {
        if def.column == column {
            return Some(def.number);
        }
    }
    None
}

// A copy of the words.
fn words_of(alloc: Global, words: &[Term]) -> Result<TermList, AllocError>
    ensures { IfOk result (λ copy. copy ≡ words.now) }
{
    let mut copy = TermList::new(alloc);
    for word in words {
        copy.push(Term::new(Vec::from_slice(alloc, word.bytes())?))?;
    }
    Ok(copy)
}

// Adds a relation.
fn add(relations: &mut Vec<IndexedRelation>, relation: IndexedRelation) -> Result<(), AllocError>
    ensures { OnOk result (relations.new.items ≡ relations.old.items ++ relation ∷ []) }
{
    relations.push(relation)?;
    Ok(())
}

/// The conditions on indexed columns, each with the number of the column's index.
pub(crate) fn relations_of(
    alloc: Global,
    indexes: &[IndexDef],
    conditions: &[Condition],
) -> Result<Vec<IndexedRelation>, AllocError>
    requires { AllByRecursion (IsNumbered indexes.now) (asked_of (map model_condition conditions.now)) }
    ensures { IfOk result (λ relations. relations.items ≡ map (relation_of indexes.now) (asked_of (map model_condition conditions.now))) }
{
    let mut relations = Vec::new(alloc);
    for condition in conditions {
        if let Condition::Indexed(def, search) = condition {
            let Some(index) = number_on(def.column, indexes) else {
                unreachable!();
            };
            let words = words_of(alloc, search.words.as_slice())?;
            let op = search.op;
            add(&mut relations, IndexedRelation { index, op, words })?;
        }
    }
    Ok(relations)
}
