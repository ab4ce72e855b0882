// The WHERE of a SELECT, as it is tested.
ghost use Rattle.std.specs.Prelude.{◌≡◌, IfOk, IfErr, map};
ghost use Rattle.std.specs.Option.{option_copied};
ghost use Rattle.sasi_model.specs.Filters.{accepts, key_asked, where_of};
ghost use Rattle.sasi_machine.specs.Classes.{OnMissing, WhereLacks};
ghost use Rattle.sasi_machine.specs.Where.{HasTexts, model_condition};

use crate::condition::{Condition, meets};
use sasi_analyzers::Kit;
use sasi_cells::Partition;
use sasi_types::{Key, KitFault};
use std::alloc::Global;
use std::marker::Model;

/// The WHERE of a SELECT, with the terms of its literals made. Contracts see its conditions, which all have to hold.
#[derive(Drop)]
pub struct RowFilter {
    alloc: Global,
    conditions: Vec<Condition>,
}

impl Model for RowFilter {
    ghost use Rattle.std.specs.Prelude.{List, map};
    ghost use Rattle.std.specs.Coded.{coded_list};
    ghost use Rattle.sasi_model.specs.Conditions.{Condition as Seen};
    ghost use Rattle.sasi_machine.specs.Where.{model_condition};
    ghost use Rattle.sasi_machine.specs.WhereCodes.{coded_condition};

    ghost Value = { List Seen };

    ghost coded = { coded_list coded_condition };

    ghost view = { λ a. map model_condition a.conditions.items };
}

impl RowFilter {
    /// The filter of these conditions.
    pub(crate) fn new(alloc: Global, conditions: Vec<Condition>) -> RowFilter
        ensures { result ≡ map model_condition conditions.items }
    {
        RowFilter { alloc, conditions }
    }

    /// The conditions, in the order of the relations.
    pub fn conditions(&self) -> &[Condition]
        ensures { map model_condition result.now ≡ self.now }
    {
        &self.conditions
    }

    /// Whether the partition of a key is as the WHERE asks.
    pub fn accepts(&self, key: &Key, part: &Partition, kit: &mut Kit) -> Result<bool, KitFault>
        requires { HasTexts part.now }
        ensures accepts { IfOk result (λ accepted. accepted ≡ accepts (where_of self.now) key.now part.now) }
        ensures missing { IfErr result (OnMissing (WhereLacks (map (λ b. kind (b.vtable, b.value)) kit.old.objects.items) self.now)) }
        ensures kinds { map (λ b. kind (b.vtable, b.value)) kit.new.objects.items ≡ map (λ b. kind (b.vtable, b.value)) kit.old.objects.items }
    {
        meet_all(self.alloc, &self.conditions, key, part, kit)
    }

    /// The key that the first relation on the key asks for, if there is one. No other key is accepted.
    pub fn key(&self) -> Option<&Key>
        ensures { option_copied result ≡ key_asked self.now }
    {
        key_in(&self.conditions)
    }
}

// Whether all the conditions hold.
fn meet_all(
    alloc: Global,
    conditions: &[Condition],
    key: &Key,
    part: &Partition,
    kit: &mut Kit,
) -> Result<bool, KitFault>
    requires { HasTexts part.now }
    ensures accepts { IfOk result (λ accepted. accepted ≡ accepts (where_of (map model_condition conditions.now)) key.now part.now) }
    ensures missing { IfErr result (OnMissing (WhereLacks (map (λ b. kind (b.vtable, b.value)) kit.old.objects.items) (map model_condition conditions.now))) }
    ensures kinds { map (λ b. kind (b.vtable, b.value)) kit.new.objects.items ≡ map (λ b. kind (b.vtable, b.value)) kit.old.objects.items }
{
    for condition in conditions {
        if !meets(alloc, condition, key, part, kit)? {
            return Ok(false);
        }
    }
    Ok(true)
}

// The key of the first condition on it.
fn key_in(conditions: &[Condition]) -> Option<&Key>
    ensures { option_copied result ≡ key_asked (map model_condition conditions.now) }
{
    for condition in conditions {
        if let Condition::OfKey(key) = condition {
            return Some(key);
        }
    }
    None
}
