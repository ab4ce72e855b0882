// Rules on the relations of a WHERE.
ghost use Rattle.std.specs.Prelude.{◌≡◌, IfOk, IfErr, map};
ghost use Rattle.std.specs.List.{AllByRecursion, flat_map};
ghost use Rattle.std.specs.Option.{option_map};
ghost use Rattle.std.specs.Str.{IsUtf8};
ghost use Rattle.sasi_types.specs.declared.relation.Relation.{Relation as Seen};
ghost use Rattle.sasi_model.specs.Abbreviations.{first_refusal};
ghost use Rattle.sasi_model.specs.Refusals.{like_empty, operand_rules, relation_rules, search_rules};
ghost use Rattle.sasi_model.specs.Relations.{asks_nothing, rule_on};
ghost use Rattle.sasi_model.specs.State.{Definition};
ghost use Rattle.sasi_model.specs.WellFormed.{IsWellFormedRelation};
ghost use Rattle.sasi_schema.specs.Defined.{definition};
ghost use Rattle.sasi_machine.specs.Classes.{OnMissing, RuleLacks, TableLacks};
ghost use Rattle.sasi_machine.specs.Refusal.{refusal_of};
ghost use Rattle.sasi_machine.specs.Rules.{relation_rule};

use crate::Refusal;
use crate::literal_rule::LiteralRule;
use crate::name_rule::NameRule;
use crate::operators::is_taken;
use crate::terms::{as_str, terms_of};
use sasi_analyzers::Kit;
use sasi_schema::{Table, index_on};
use sasi_terms::Pattern;
use sasi_types::{KitFault, Literal, Name, Relation, Rule, Test, Text};
use std::alloc::Global;

/// A rule on a relation.
#[derive(Clone, Copy)]
pub enum RelationRule {
    Column(NameRule),
    Operand(LiteralRule),
    OperatorUnsupported,
    LikeEmpty,
}

/// In the order in which they are tried, each on all relations before the next. LIMIT is tried after these.
const OPERAND_RULES: [RelationRule; 3] = [
    RelationRule::Column(NameRule::NoColumn),
    RelationRule::Operand(LiteralRule::WrongWhere),
    RelationRule::Operand(LiteralRule::NumberRange),
];

/// Those that are tried after LIMIT.
const SEARCH_RULES: [RelationRule; 4] = [
    RelationRule::Operand(LiteralRule::KeyEmpty),
    RelationRule::Operand(LiteralRule::ValueTooLong),
    RelationRule::OperatorUnsupported,
    RelationRule::LikeEmpty,
];

/// The refusal of the first rule on operands that applies to a relation, if one does.
pub fn operands_refusal(
    alloc: Global,
    table: &Table,
    relations: &[Relation],
    kit: &mut Kit,
) -> Result<Option<Refusal>, KitFault>
    requires { AllByRecursion IsWellFormedRelation relations.now }
    ensures refusal { IfOk result (λ refusal. option_map refusal_of refusal ≡ first_refusal (relation_rules operand_rules (definition table.now) relations.now)) }
    ensures missing { IfErr result (OnMissing (TableLacks (map (λ b. kind (b.vtable, b.value)) kit.old.objects.items) (definition table.now))) }
    ensures kinds { map (λ b. kind (b.vtable, b.value)) kit.new.objects.items ≡ map (λ b. kind (b.vtable, b.value)) kit.old.objects.items }
{
    first_refusal(alloc, table, &OPERAND_RULES, relations, kit)
}

/// The refusal of the first rule on searches that applies to a relation, if one does.
pub fn searches_refusal(
    alloc: Global,
    table: &Table,
    relations: &[Relation],
    kit: &mut Kit,
) -> Result<Option<Refusal>, KitFault>
    requires { AllByRecursion IsWellFormedRelation relations.now }
    ensures refusal { IfOk result (λ refusal. option_map refusal_of refusal ≡ first_refusal (relation_rules search_rules (definition table.now) relations.now)) }
    ensures missing { IfErr result (OnMissing (TableLacks (map (λ b. kind (b.vtable, b.value)) kit.old.objects.items) (definition table.now))) }
    ensures kinds { map (λ b. kind (b.vtable, b.value)) kit.new.objects.items ≡ map (λ b. kind (b.vtable, b.value)) kit.old.objects.items }
{
    first_refusal(alloc, table, &SEARCH_RULES, relations, kit)
}

// That of the first of these rules.
fn first_refusal(
    alloc: Global,
    table: &Table,
    rules: &[RelationRule],
    relations: &[Relation],
    kit: &mut Kit,
) -> Result<Option<Refusal>, KitFault>
    requires { AllByRecursion IsWellFormedRelation relations.now }
    ensures refusal { IfOk result (λ refusal. option_map refusal_of refusal ≡ first_refusal (flat_map (λ rule. map (relation_rule rule (definition table.now)) relations.now) rules.now)) }
    ensures missing { IfErr result (OnMissing (TableLacks (map (λ b. kind (b.vtable, b.value)) kit.old.objects.items) (definition table.now))) }
    ensures kinds { map (λ b. kind (b.vtable, b.value)) kit.new.objects.items ≡ map (λ b. kind (b.vtable, b.value)) kit.old.objects.items }
{
    for rule in rules {
        if let Some(refusal) = rule.refusal(alloc, table, relations, kit)? {
            return Ok(Some(refusal));
        }
    }
    Ok(None)
}

impl RelationRule {
    // The refusal of the first relation to which the rule applies.
    fn refusal(
        &self,
        alloc: Global,
        table: &Table,
        relations: &[Relation],
        kit: &mut Kit,
    ) -> Result<Option<Refusal>, KitFault>
        requires { AllByRecursion IsWellFormedRelation relations.now }
        ensures refusal { IfOk result (λ refusal. option_map refusal_of refusal ≡ first_refusal (map (relation_rule self.now (definition table.now)) relations.now)) }
        ensures missing { IfErr result (OnMissing (TableLacks (map (λ b. kind (b.vtable, b.value)) kit.old.objects.items) (definition table.now))) }
        ensures kinds { map (λ b. kind (b.vtable, b.value)) kit.new.objects.items ≡ map (λ b. kind (b.vtable, b.value)) kit.old.objects.items }
    {
        for relation in relations {
            if self.applies(alloc, table, relation, kit)? {
                let column = relation.column.copy(alloc)?;
                return Ok(Some(self.refused(column)));
            }
        }
        Ok(None)
    }

    // Whether the rule applies to a relation.
    fn applies(
        &self,
        alloc: Global,
        table: &Table,
        relation: &Relation,
        kit: &mut Kit,
    ) -> Result<bool, KitFault>
        requires { IsWellFormedRelation relation.now }
        ensures applies { IfOk result (λ applies. applies ≡ (relation_rule self.now (definition table.now) relation.now).0) }
        ensures missing { IfErr result (OnMissing (TableLacks (map (λ b. kind (b.vtable, b.value)) kit.old.objects.items) (definition table.now))) }
        ensures kinds { map (λ b. kind (b.vtable, b.value)) kit.new.objects.items ≡ map (λ b. kind (b.vtable, b.value)) kit.old.objects.items }
    {
        match self {
            RelationRule::Column(rule) => Ok(rule.applies(table, &relation.column)),
            RelationRule::Operand(rule) => {
                Ok(rule.applies(table, &relation.column, &relation.value))
            }
            RelationRule::OperatorUnsupported => Ok(!is_taken(table, relation)),
            RelationRule::LikeEmpty => is_empty_like(alloc, table, relation, kit),
        }
    }

    // Its refusal of a relation on this column.
    fn refused(&self, column: Name) -> Refusal
        ensures { (d : Definition) (r : Seen) → r.column ≡ column → refusal_of result ≡ (relation_rule self.now d r).1 }
    {
        match self {
            RelationRule::Column(_) => Refusal::NoColumn(column),
            RelationRule::Operand(rule) => rule.refusal(column),
            RelationRule::OperatorUnsupported => Refusal::OperatorUnsupported(column),
            RelationRule::LikeEmpty => Refusal::LikeEmpty(column),
        }
    }
}

// Whether the relation is a LIKE that asks for nothing.
fn is_empty_like(
    alloc: Global,
    table: &Table,
    relation: &Relation,
    kit: &mut Kit,
) -> Result<bool, KitFault>
    requires { IsWellFormedRelation relation.now }
    ensures empty { IfOk result (λ empty. empty ≡ (like_empty (definition table.now) relation.now).0) }
    ensures missing { IfErr result (OnMissing (TableLacks (map (λ b. kind (b.vtable, b.value)) kit.old.objects.items) (definition table.now))) }
    ensures kinds { map (λ b. kind (b.vtable, b.value)) kit.new.objects.items ≡ map (λ b. kind (b.vtable, b.value)) kit.old.objects.items }
{
    let Some(number) = table.number_of(&relation.column) else {
        return Ok(false);
    };
    match (relation.test, &relation.value) {
        (Test::Like, Literal::Text(text)) => {
            asks_nothing(alloc, rule_on(table, number), text, kit)
        }
        _ => Ok(false),
    }
}

// The rule of the index on the column with this number, if it has one.
fn rule_on(table: &Table, number: u16) -> Option<Rule>
    ensures { result ≡ rule_on (definition table.now) number }
{
    index_on(number, table.indexes.as_slice())?.rule
}

// Whether the pattern of this text has an empty body, or one of which the rule makes no term.
fn asks_nothing(
    alloc: Global,
    rule: Option<Rule>,
    text: &Text,
    kit: &mut Kit,
) -> Result<bool, KitFault>
    requires { IsUtf8 text.now }
    ensures nothing { IfOk result (λ nothing. nothing ≡ asks_nothing rule text.now) }
    ensures missing { IfErr result (OnMissing (RuleLacks (map (λ b. kind (b.vtable, b.value)) kit.old.objects.items) rule)) }
    ensures kinds { map (λ b. kind (b.vtable, b.value)) kit.new.objects.items ≡ map (λ b. kind (b.vtable, b.value)) kit.old.objects.items }
{
    let Ok(pattern) = Pattern::read(as_str(text)) else {
        return Ok(true);
    };
    let Some(rule) = rule else {
        return Ok(false);
    };
    let terms = terms_of(alloc, rule, pattern.body, kit)?;
    Ok(terms.as_slice().is_empty())
}
