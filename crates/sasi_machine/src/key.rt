// Keys, and their decorated keys.
ghost use Rattle.std.specs.Prelude.{◌≡◌, ◌≢◌, ◌≤◌, [], IfOk, length};
ghost use Rattle.sasi_types.specs.Value.{stored, type_of};
ghost use Rattle.sasi_cells.specs.Rows.{IsStored};
ghost use Rattle.sasi_model.specs.Step.{value_given};
ghost use Rattle.sasi_model.specs.Abbreviations.{stored_of};
ghost use Rattle.sasi_machine.specs.KeyLiteral.{IsKeyLiteral, IsKeyValue};

use crate::literals::{TEXT_LIMIT, value_given};
use sasi_types::{ColumnType, Key, KeyFault, Literal, Value};
use std::alloc::{AllocError, Global};

/// The key of a literal.
pub fn key_given(alloc: Global, kind: ColumnType, literal: Literal) -> Result<Key, AllocError>
    requires { IsKeyLiteral kind literal }
    ensures key { IfOk result (λ key. key ≡ stored_of (value_given kind literal)) }
    ensures stored { IfOk result (λ key. IsStored kind key) }
{
    match value_given(kind, literal) {
        Some(value) => key_of_value(alloc, &value),
        None => unreachable!(),
    }
}

fn key_of_value(alloc: Global, value: &Value) -> Result<Key, AllocError>
    requires { IsKeyValue value.now }
    ensures key { IfOk result (λ key. key ≡ stored value.now) }
    ensures stored { IfOk result (λ key. IsStored (type_of value.now) key) }
{
    match value {
        Value::Text(text) => key_of(alloc, text.bytes()),
        Value::Int(number) => key_of(alloc, &number.to_be_bytes()),
        Value::BigInt(number) => key_of(alloc, &number.to_be_bytes()),
        Value::Uuid(bytes) => key_of(alloc, bytes),
    }
}

// The key of 1 to 65,535 bytes.
fn key_of(alloc: Global, bytes: &[u8]) -> Result<Key, AllocError>
    requires some { bytes.now ≢ [] }
    requires short { length bytes.now ≤ TEXT_LIMIT }
    ensures { IfOk result (λ key. key ≡ bytes.now) }
{
    match Key::new(alloc, bytes) {
        Ok(key) => Ok(key),
        Err(KeyFault::OutOfMemory) => Err(AllocError),
        Err(KeyFault::Empty) => unreachable!(),
        Err(KeyFault::TooLong) => unreachable!(),
    }
}
