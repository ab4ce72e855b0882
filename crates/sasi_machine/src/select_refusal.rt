// The rules by which a SELECT on a table is refused.
ghost use Rattle.std.specs.Prelude.{◌≡◌, ◌∷◌, [], Some, IfOk, IfErr, map, unwrap_or};
ghost use Rattle.std.specs.List.{AllByRecursion, list_any};
ghost use Rattle.std.specs.Option.{option_map};
ghost use Rattle.sasi_model.specs.Abbreviations.{first_refusal};
ghost use Rattle.sasi_model.specs.Refusals.{answer_rules, is_filtered, no_column, select_rules, too_many_relations};
ghost use Rattle.sasi_model.specs.WellFormed.{IsWellFormedRelation, IsWellFormedSelect};
ghost use Rattle.sasi_schema.specs.Defined.{definition};
ghost use Rattle.sasi_machine.specs.Checks.{after_columns_rules, after_limit_rules, after_operands_rules, filtering_rules};
ghost use Rattle.sasi_machine.specs.Classes.{OnMissing, TableLacks};
ghost use Rattle.sasi_machine.specs.Refusal.{refusal_of};

use crate::Refusal;
use crate::fault::Fault;
use crate::limit::is_out_of_range;
use crate::name_rule::NameRule;
use crate::operators::is_filtered;
use crate::relation_rule::{operands_refusal, searches_refusal};
use sasi_analyzers::Kit;
use sasi_schema::Table;
use sasi_types::{KitFault, Names, Number, Relation, Select};
use std::alloc::{AllocError, Global};

/// The most relations that a SELECT has.
const RELATION_LIMIT: usize = 32;

/// The refusal of a SELECT on this table, if one applies.
pub fn select_refusal(
    alloc: Global,
    table: &Table,
    select: &Select,
    kit: &mut Kit,
) -> Result<Option<Refusal>, KitFault>
    requires { IsWellFormedSelect select.now }
    ensures refusal { IfOk result (λ refusal. option_map refusal_of refusal ≡ first_refusal (select_rules select.now (Some (definition table.now)))) }
    ensures missing { IfErr result (OnMissing (TableLacks (map (λ b. kind (b.vtable, b.value)) kit.old.objects.items) (definition table.now))) }
    ensures kinds { map (λ b. kind (b.vtable, b.value)) kit.new.objects.items ≡ map (λ b. kind (b.vtable, b.value)) kit.old.objects.items }
{
    match answer_refusal(alloc, table, select, kit)? {
        Some(refusal) => Ok(Some(refusal)),
        None => Ok(relations_refusal(select)),
    }
}

/// The refusal of a SELECT by the number of its relations, the last of its rules.
pub fn relations_refusal(select: &Select) -> Option<Refusal>
    ensures { option_map refusal_of result ≡ first_refusal (too_many_relations select.now ∷ []) }
{
    (select.relations.len() > RELATION_LIMIT).then_some(Refusal::TooManyRelations)
}

/// The refusal of a SELECT on this table by another rule than the number of its relations, if one applies.
pub fn answer_refusal(
    alloc: Global,
    table: &Table,
    select: &Select,
    kit: &mut Kit,
) -> Result<Option<Refusal>, KitFault>
    requires { IsWellFormedSelect select.now }
    ensures refusal { IfOk result (λ refusal. option_map refusal_of refusal ≡ first_refusal (answer_rules select.now (Some (definition table.now)))) }
    ensures missing { IfErr result (OnMissing (TableLacks (map (λ b. kind (b.vtable, b.value)) kit.old.objects.items) (definition table.now))) }
    ensures kinds { map (λ b. kind (b.vtable, b.value)) kit.new.objects.items ≡ map (λ b. kind (b.vtable, b.value)) kit.old.objects.items }
{
    if let Some(refusal) = columns_refusal(alloc, table, &select.columns)? {
        return Ok(Some(refusal));
    }
    let relations = select.relations.unpack(alloc)?;
    where_refusal(
        alloc,
        table,
        select.limit,
        select.filtering,
        &relations,
        kit,
    )
}

// That of the columns that it names.
fn columns_refusal(
    alloc: Global,
    table: &Table,
    columns: &Option<Names>,
) -> Result<Option<Refusal>, AllocError>
    ensures { IfOk result (λ refusal. option_map refusal_of refusal ≡ first_refusal (map (no_column (definition table.now)) (unwrap_or columns.now []))) }
{
    let Some(names) = columns else {
        return Ok(None);
    };
    match NameRule::NoColumn.check_names(alloc, table, &names.unpack(alloc)?) {
        Ok(()) => Ok(None),
        Err(Fault::Refused(refusal)) => Ok(Some(refusal)),
        Err(Fault::OutOfMemory) => Err(AllocError),
    }
}

// That of its WHERE and of what stands behind that.
fn where_refusal(
    alloc: Global,
    table: &Table,
    limit: Option<Number>,
    filtering: bool,
    relations: &[Relation],
    kit: &mut Kit,
) -> Result<Option<Refusal>, KitFault>
    requires { AllByRecursion IsWellFormedRelation relations.now }
    ensures refusal { IfOk result (λ refusal. option_map refusal_of refusal ≡ first_refusal (after_columns_rules (definition table.now) limit filtering relations.now)) }
    ensures missing { IfErr result (OnMissing (TableLacks (map (λ b. kind (b.vtable, b.value)) kit.old.objects.items) (definition table.now))) }
    ensures kinds { map (λ b. kind (b.vtable, b.value)) kit.new.objects.items ≡ map (λ b. kind (b.vtable, b.value)) kit.old.objects.items }
{
    match operands_refusal(alloc, table, relations, kit)? {
        Some(refusal) => Ok(Some(refusal)),
        None => limit_refusal(alloc, table, limit, filtering, relations, kit),
    }
}

// That of LIMIT and of what is tried after it.
fn limit_refusal(
    alloc: Global,
    table: &Table,
    limit: Option<Number>,
    filtering: bool,
    relations: &[Relation],
    kit: &mut Kit,
) -> Result<Option<Refusal>, KitFault>
    requires { AllByRecursion IsWellFormedRelation relations.now }
    ensures refusal { IfOk result (λ refusal. option_map refusal_of refusal ≡ first_refusal (after_operands_rules (definition table.now) limit filtering relations.now)) }
    ensures missing { IfErr result (OnMissing (TableLacks (map (λ b. kind (b.vtable, b.value)) kit.old.objects.items) (definition table.now))) }
    ensures kinds { map (λ b. kind (b.vtable, b.value)) kit.new.objects.items ≡ map (λ b. kind (b.vtable, b.value)) kit.old.objects.items }
{
    if is_out_of_range(limit) {
        return Ok(Some(Refusal::LimitRange));
    }
    search_refusal(alloc, table, filtering, relations, kit)
}

// That of the searches that it asks for, and of ALLOW FILTERING.
fn search_refusal(
    alloc: Global,
    table: &Table,
    filtering: bool,
    relations: &[Relation],
    kit: &mut Kit,
) -> Result<Option<Refusal>, KitFault>
    requires { AllByRecursion IsWellFormedRelation relations.now }
    ensures refusal { IfOk result (λ refusal. option_map refusal_of refusal ≡ first_refusal (after_limit_rules (definition table.now) filtering relations.now)) }
    ensures missing { IfErr result (OnMissing (TableLacks (map (λ b. kind (b.vtable, b.value)) kit.old.objects.items) (definition table.now))) }
    ensures kinds { map (λ b. kind (b.vtable, b.value)) kit.new.objects.items ≡ map (λ b. kind (b.vtable, b.value)) kit.old.objects.items }
{
    match searches_refusal(alloc, table, relations, kit)? {
        Some(refusal) => Ok(Some(refusal)),
        None => Ok(filtering_refusal(table, filtering, relations)),
    }
}

// That of columns that need ALLOW FILTERING.
fn filtering_refusal(table: &Table, filtering: bool, relations: &[Relation]) -> Option<Refusal>
    ensures { option_map refusal_of result ≡ first_refusal (filtering_rules (definition table.now) filtering relations.now) }
{
    if !filtering && (relations.len() >= 2 || any_filtered(table, relations)) {
        return Some(Refusal::NeedsFiltering);
    }
    None
}

// Whether a relation is on a column that is neither the key nor indexed.
fn any_filtered(table: &Table, relations: &[Relation]) -> bool
    ensures { result ≡ list_any (is_filtered (definition table.now)) relations.now }
{
    for relation in relations {
        if is_filtered(table, relation) {
            return true;
        }
    }
    false
}
