// What no run shows of values and cells.
use sasi_cells::{Cell, Partition};
use sasi_types::{ColumnType, Text, Value};
use std::alloc::Global;
use std::process::Abort;

/// The text of one letter.
fn text(rt: &impl Abort, alloc: Global, letter: u8) -> Value {
    Value::Text(Text::new([letter].to_vec(alloc).expect(rt, "memory")))
}

/// A partition with this text in column 1.
fn partition(rt: &impl Abort, alloc: Global, letter: u8) -> Partition {
    let mut partition = Partition::new(alloc);
    let cell = Cell {
        time: 7,
        value: Some(text(rt, alloc, letter)),
    };
    partition.put(1, cell).expect(rt, "memory");
    partition
}

/// Whether column 1 has this text.
fn has_text(partition: &Partition, letter: u8) -> bool {
    match partition.cell(1).and_then(|cell| cell.value()) {
        Some(Value::Text(text)) => text.bytes() == [letter].as_slice(),
        _ => false,
    }
}

#[test]
fn borrowed_partition_is_merged(rt: HostRuntime) {
    let mut merged = partition(&rt, rt.alloc(), b'b');
    let other = partition(&rt, rt.alloc(), b'c');
    merged.merge(&other).expect(&rt, "memory");
    assert!(rt; has_text(&merged, b'c') && has_text(&other, b'c'));
}

#[test]
fn copy_of_a_value_has_its_type(rt: HostRuntime) {
    let value = text(&rt, rt.alloc(), b'a');
    let copy = value.copy(rt.alloc()).expect(&rt, "memory");
    assert!(rt; copy.column_type() == ColumnType::Text);
}
