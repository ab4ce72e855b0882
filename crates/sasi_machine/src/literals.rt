// Tests of literals.
ghost use Rattle.std.specs.Prelude.{◌≡◌, false};
ghost use Rattle.sasi_model.specs.Step.{value_given};
ghost use Rattle.sasi_model.specs.Abbreviations.{value_set, is_empty_text, is_long_text};
ghost use Rattle.sasi_model.specs.Refusals.{is_null, is_of, is_out_of_range, is_within, tests};

use sasi_types::{ColumnType, Literal, Number, Value};

/// The most bytes that a key or a text has.
pub const TEXT_LIMIT: usize = 65_535;

/// Whether a literal is of the type; NULL is of every type.
pub fn is_of(kind: ColumnType, literal: &Literal) -> bool
    ensures { result ≡ is_of kind literal.now }
{
    match (kind, literal) {
        (ColumnType::Text, Literal::Text(_)) => true,
        (ColumnType::Int | ColumnType::BigInt, Literal::Number(_)) => true,
        (ColumnType::Uuid, Literal::Uuid(_)) => true,
        (_, Literal::Null) => true,
        _ => false,
    }
}

/// Whether it is NULL.
pub fn is_null(literal: &Literal) -> bool
    ensures { result ≡ is_null literal.now }
{
    matches!(literal, Literal::Null)
}

/// Whether a number is outside the type.
pub fn is_out_of_range(kind: ColumnType, literal: &Literal) -> bool
    ensures { result ≡ is_out_of_range kind literal.now }
{
    match (kind, literal) {
        (ColumnType::Int, Literal::Number(number)) => !is_int(*number),
        (ColumnType::BigInt, Literal::Number(number)) => !is_bigint(*number),
        _ => false,
    }
}

fn is_int(number: Number) -> bool
    ensures { result ≡ is_within 31 number }
{
    match number {
        Number::Fits(number) => i128::from(i32::MIN) <= number && number <= i128::from(i32::MAX),
        Number::Wide => false,
    }
}

fn is_bigint(number: Number) -> bool
    ensures { result ≡ is_within 63 number }
{
    match number {
        Number::Fits(number) => i128::from(i64::MIN) <= number && number <= i128::from(i64::MAX),
        Number::Wide => false,
    }
}

/// Whether it is an empty text, for a column of texts.
pub fn is_empty_text(kind: ColumnType, literal: &Literal) -> bool
    ensures { result ≡ is_empty_text kind literal.now }
{
    match (kind, literal) {
        (ColumnType::Text, Literal::Text(text)) => text.bytes().is_empty(),
        _ => false,
    }
}

/// Whether it is a text of too many bytes, for a column of texts.
pub fn is_long_text(kind: ColumnType, literal: &Literal) -> bool
    ensures { result ≡ is_long_text kind literal.now }
{
    match (kind, literal) {
        (ColumnType::Text, Literal::Text(text)) => text.bytes().len() > TEXT_LIMIT,
        _ => false,
    }
}

/// The value that a literal gives a column of the type; none for NULL.
pub fn value_given(kind: ColumnType, literal: Literal) -> Option<Value>
    requires { is_out_of_range kind literal ≡ false }
    ensures { result ≡ value_given kind literal }
{
    match (kind, literal) {
        (ColumnType::Text, Literal::Text(text)) => Some(Value::Text(text)),
        (ColumnType::Int, Literal::Number(Number::Fits(number))) => Some(Value::Int(number as i32)),
        (ColumnType::BigInt, Literal::Number(Number::Fits(number))) => {
            Some(Value::BigInt(number as i64))
        }
        (ColumnType::Uuid, Literal::Uuid(bytes)) => Some(Value::Uuid(bytes)),
        _ => None,
    }
}

/// The same for a column that may not be there.
pub fn value_set(kind: Option<ColumnType>, literal: Literal) -> Option<Value>
    requires { tests is_out_of_range kind literal ≡ false }
    ensures { result ≡ value_set kind literal }
{
    match kind {
        None => None,
        Some(kind) => value_given(kind, literal),
    }
}
