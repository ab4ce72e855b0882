// Which of two cells is newer.
ghost use Rattle.std.specs.Prelude.{◌≡◌, Some};
ghost use Rattle.sasi_model.specs.Cells.{value_cmp, newest};
ghost use Rattle.sasi_model.specs.Abbreviations.{cell_cmp};

use sasi_types::{Cell, Value};
use std::cmp::Ordering;

/// The order of two cells of a column, the newer one above: by timestamp; at equal timestamps a tombstone is above
/// every value, and of two values the one with the larger stored bytes is above the other.
pub fn newer(a: &Cell, b: &Cell) -> Ordering
    ensures { result ≡ cell_cmp a.now b.now }
{
    a.time.cmp(&b.time).then(value_order(&a.value, &b.value))
}

// The order of two values with equal timestamps.
fn value_order(a: &Option<Value>, b: &Option<Value>) -> Ordering
    ensures { result ≡ value_cmp a.now b.now }
{
    match (a, b) {
        (None, None) => Ordering::Equal,
        (None, Some(_)) => Ordering::Greater,
        (Some(_), None) => Ordering::Less,
        (Some(a), Some(b)) => stored_order(a, b),
    }
}

// The order of the stored bytes of two values.
fn stored_order(a: &Value, b: &Value) -> Ordering
    ensures { result ≡ value_cmp (Some a.now) (Some b.now) }
{
    let first = a.stored();
    let second = b.stored();
    first.as_slice().cmp(second.as_slice())
}

// The newer of two cells.
pub(crate) fn newest(a: Cell, b: Cell) -> Cell
    ensures { result ≡ newest a b }
{
    match newer(&a, &b) {
        Ordering::Less => b,
        _ => a,
    }
}
