// The conditions of a WHERE.
ghost use Rattle.std.specs.Prelude.{◌≡◌, false, IfOk, IfErr, map};
ghost use Rattle.std.specs.Option.{option_copied, option_map_or};
ghost use Rattle.sasi_model.specs.Cells.{value_at};
ghost use Rattle.sasi_model.specs.Conditions.{compares, meets, number_in};
ghost use Rattle.sasi_machine.specs.Classes.{ConditionLacks, OnMissing};
ghost use Rattle.sasi_machine.specs.Where.{HasTexts, model_comparison, model_condition};

use crate::search::{Search, finds};
use sasi_analyzers::Kit;
use sasi_cells::Partition;
use sasi_types::{IndexDef, Key, KitFault, Text, Value};
use std::alloc::Global;

/// What a relation asks of the value of a column without an index.
#[derive(Drop)]
pub enum Comparison {
    Text(Text),
    Uuid([u8; 16]),
    /// A number from `least` to `greatest`, both included.
    Between { least: i64, greatest: i64 },
}

/// What a relation asks of a partition and its key.
#[derive(Drop)]
pub enum Condition {
    /// The key is this one.
    OfKey(Key),
    /// The terms of the indexed column are as asked.
    Indexed(IndexDef, Search),
    /// The value of the column with this number is as asked.
    Plain(u16, Comparison),
}

/// Whether the condition holds of the partition of a key.
pub fn meets(
    alloc: Global,
    condition: &Condition,
    key: &Key,
    part: &Partition,
    kit: &mut Kit,
) -> Result<bool, KitFault>
    requires { HasTexts part.now }
    ensures meets { IfOk result (λ met. met ≡ meets key.now part.now (model_condition condition.now)) }
    ensures missing { IfErr result (OnMissing (ConditionLacks (map (λ b. kind (b.vtable, b.value)) kit.old.objects.items) (model_condition condition.now))) }
    ensures kinds { map (λ b. kind (b.vtable, b.value)) kit.new.objects.items ≡ map (λ b. kind (b.vtable, b.value)) kit.old.objects.items }
{
    match condition {
        Condition::OfKey(asked) => Ok(key.bytes() == asked.bytes()),
        Condition::Indexed(index, search) => match value_of(part, index.column) {
            Some(value) => finds(alloc, index.rule, search, value, kit),
            None => Ok(false),
        },
        Condition::Plain(column, comparison) => Ok(compares(comparison, value_of(part, *column))),
    }
}

// The value of a column, where it has one.
fn value_of(part: &Partition, column: u16) -> Option<&Value>
    ensures { option_copied result ≡ value_at part.now column }
{
    part.cell(column)?.value()
}

// Whether there is a value, and it is as asked.
fn compares(comparison: &Comparison, value: Option<&Value>) -> bool
    ensures { result ≡ option_map_or (compares (model_comparison comparison.now)) (option_copied value.entry) false }
{
    let Some(value) = value else {
        return false;
    };
    match comparison {
        Comparison::Text(text) => value.stored().as_slice() == text.bytes(),
        Comparison::Uuid(bytes) => value.stored().as_slice() == bytes.as_slice(),
        Comparison::Between { least, greatest } => match number_in(value) {
            Some(number) => *least <= number && number <= *greatest,
            None => false,
        },
    }
}

// The number, where the value is one.
fn number_in(value: &Value) -> Option<i64>
    ensures { result ≡ number_in value.now }
{
    match value {
        Value::Int(number) => Some(i64::from(*number)),
        Value::BigInt(number) => Some(*number),
        Value::Text(_) | Value::Uuid(_) => None,
    }
}
