// Values of a column before a change is merged into a partition, and after that.
ghost use Rattle.std.specs.Prelude.{◌≡◌, ◌↔◌, Some, true, unwrap_or};
ghost use Rattle.std.specs.FinMap as map;
ghost use Rattle.std.specs.Option.{option_and_then, option_copied, option_map, option_map_or};
ghost use Rattle.sasi_model.specs.Cells.{empty_partition, merge, newest, newest_of, unshadowed, value_at, value_cmp};
ghost use Rattle.sasi_memindex.specs.IndexedValues.{live_value};

use sasi_cells::{Entry, Partition};
use sasi_types::Value;
use std::cmp::Ordering;

/// The value of a column, where there is a partition and it has one.
pub fn value_in(partition: Option<&Partition>, column: u16) -> Option<&Value>
    ensures { option_copied result ≡ option_and_then (λ p. value_at p column) (option_copied partition.entry) }
{
    cell_in(partition, column)?.value()
}

/// The value of a column once a change is merged into what a key has.
pub fn value_after<'a>(
    old: Option<&'a Partition>,
    change: &'a Partition,
    column: u16,
) -> Option<&'a Value>
    ensures { option_copied result ≡ value_at (merge (unwrap_or (option_copied old.entry) empty_partition) change.now) column }
{
    let newest = newest_of(cell_in(old, column), change.cell(column));
    unshadowed(newest, deleted_in(old).max(change.deleted()))
}

/// Whether both are there and are the same value, or neither is there.
pub fn is_unchanged(a: Option<&Value>, b: Option<&Value>) -> bool
    ensures { (result ≡ true) ↔ (option_copied a.entry ≡ option_copied b.entry) }
{
    match (a, b) {
        (None, None) => true,
        (Some(a), Some(b)) => is_same(a, b),
        _ => false,
    }
}

// Whether they are the same value.
fn is_same(a: &Value, b: &Value) -> bool
    ensures { (result ≡ true) ↔ (a.now ≡ b.now) }
{
    match (a, b) {
        (Value::Text(a), Value::Text(b)) => a.bytes() == b.bytes(),
        (Value::Int(a), Value::Int(b)) => a == b,
        (Value::BigInt(a), Value::BigInt(b)) => a == b,
        (Value::Uuid(a), Value::Uuid(b)) => a == b,
        _ => false,
    }
}

// The value of a cell, where there is one and a deletion at this time doesn't shadow it.
fn unshadowed(cell: Option<&Entry>, deleted: u64) -> Option<&Value>
    ensures { option_copied result ≡ live_value (unshadowed deleted (option_map (λ e. e.1) (option_copied cell.entry))) }
{
    let cell = cell?;
    if cell.time() <= deleted {
        return None;
    }
    cell.value()
}

// The cell of a column.
fn cell_in(partition: Option<&Partition>, column: u16) -> Option<&Entry>
    ensures { option_copied result ≡ option_map (λ cell. (column, cell)) (option_and_then (λ p. map.get p.cells column) (option_copied partition.entry)) }
{
    partition?.cell(column)
}

// The time of the deletion, 0 for none.
fn deleted_in(partition: Option<&Partition>) -> u64
    ensures { result ≡ option_map_or (λ p. p.deleted) (option_copied partition.entry) 0 }
{
    match partition {
        Some(partition) => partition.deleted(),
        None => 0,
    }
}

// The newer of two cells of one column, if there is one.
fn newest_of<'a>(old: Option<&'a Entry>, new: Option<&'a Entry>) -> Option<&'a Entry>
    ensures { option_map (λ e. e.1) (option_copied result) ≡ newest_of (option_map (λ e. e.1) (option_copied old.entry)) (option_map (λ e. e.1) (option_copied new.entry)) }
{
    match (old, new) {
        (Some(old), Some(new)) => Some(newest(old, new)),
        (None, new) => new,
        (old, None) => old,
    }
}

// The newer of two cells of one column.
fn newest<'a>(a: &'a Entry, b: &'a Entry) -> &'a Entry
    ensures { result.now.1 ≡ newest a.now.1 b.now.1 }
{
    match a
        .time()
        .cmp(&b.time())
        .then(value_order(a.value(), b.value()))
    {
        Ordering::Less => b,
        _ => a,
    }
}

// The order of two values with equal timestamps; a tombstone is above every value.
fn value_order(a: Option<&Value>, b: Option<&Value>) -> Ordering
    ensures { result ≡ value_cmp (option_copied a.entry) (option_copied b.entry) }
{
    match (a, b) {
        (None, None) => Ordering::Equal,
        (None, Some(_)) => Ordering::Greater,
        (Some(_), None) => Ordering::Less,
        (Some(a), Some(b)) => stored_order(a, b),
    }
}

// The order of the stored bytes of two values.
fn stored_order(a: &Value, b: &Value) -> Ordering
    ensures { result ≡ value_cmp (Some a.now) (Some b.now) }
{
    let first = a.stored();
    let second = b.stored();
    first.as_slice().cmp(second.as_slice())
}
