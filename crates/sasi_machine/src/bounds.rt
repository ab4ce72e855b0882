// Bounds of the numbers that compare with one.
ghost use Rattle.std.specs.Prelude.{◌≡◌, pos, ◌+ℤ◌, ◌-ℤ◌, int_le, if◌then◌else◌};
ghost use Rattle.sasi_model.specs.Conditions.{bounds, greatest_of, least_of, nowhere};

use sasi_types::{ColumnType, Test};

/// The bounds between which no number is.
pub const NOWHERE: (i64, i64) = (1, 0);

/// The least and the greatest number of the type that compare so with this one, which is of the type.
pub fn bounds(kind: ColumnType, test: Test, number: i64) -> (i64, i64)
    ensures { result ≡ bounds kind test number }
{
    let (least, greatest) = (least_of(kind), greatest_of(kind));
    match test {
        Test::Lt => below(least, number),
        Test::Le => (least, number),
        Test::Gt => above(number, greatest),
        Test::Ge => (number, greatest),
        Test::Eq | Test::Like => (number, number),
    }
}

// The bounds of the numbers from `least` on and below the number.
fn below(least: i64, number: i64) -> (i64, i64)
    ensures { result ≡ (if int_le number least then nowhere else (least, number -ℤ pos 1)) }
{
    if number <= least {
        return NOWHERE;
    }
    (least, number - 1)
}

// The bounds of the numbers above the number and up to `greatest`.
fn above(number: i64, greatest: i64) -> (i64, i64)
    ensures { result ≡ (if int_le greatest number then nowhere else (number +ℤ pos 1, greatest)) }
{
    if greatest <= number {
        return NOWHERE;
    }
    (number + 1, greatest)
}

fn least_of(kind: ColumnType) -> i64
    ensures { result ≡ least_of kind }
{
    match kind {
        ColumnType::Int => i64::from(i32::MIN),
        _ => i64::MIN,
    }
}

fn greatest_of(kind: ColumnType) -> i64
    ensures { result ≡ greatest_of kind }
{
    match kind {
        ColumnType::Int => i64::from(i32::MAX),
        _ => i64::MAX,
    }
}
