// Memtables: each call on its happy path.
ghost use Rattle.std.specs.Prelude.{◌<◌};

use sasi_cells::Partition;
use sasi_memtable::{Memtable, decorated};
use sasi_types::{Cell, DecoratedKey, Key, Partitioner, Value};
use std::alloc::Global;
use std::process::Abort;

pub fn key_of(rt: &impl Abort, alloc: Global, bytes: &[u8]) -> Key {
    Key::new(alloc, bytes).expect(rt, "a key")
}

/// A partition with an int in column 1.
fn int_at(rt: &impl Abort, alloc: Global, time: u64) -> Partition
    requires { 0 < time }
{
    let mut part = Partition::new(alloc);
    let cell = Cell {
        time,
        value: Some(Value::Int(7)),
    };
    part.put(1, cell).expect(rt, "memory for a cell");
    part
}

/// Keys k2 and k1 with an int each, which were written at 5 and 4.
pub fn filled(rt: &impl Abort, alloc: Global) -> Memtable {
    let mut memtable = Memtable::new(alloc, Partitioner::Lead8);
    memtable
        .put(&key_of(rt, alloc, b"k2"), &int_at(rt, alloc, 5))
        .expect(rt, "memory for a change");
    memtable
        .put_from(key_of(rt, alloc, b"k1"), int_at(rt, alloc, 4))
        .expect(rt, "memory for a change");
    memtable
}

/// A key with an int that was written then.
pub fn one_row(rt: &impl Abort, alloc: Global, key: &[u8], time: u64) -> Memtable
    requires { 0 < time }
{
    let mut memtable = Memtable::new(alloc, Partitioner::Lead8);
    memtable
        .put_from(key_of(rt, alloc, key), int_at(rt, alloc, time))
        .expect(rt, "memory for a change");
    memtable
}

/// The key at a position is this one.
fn check_at(rt: &impl Abort, memtable: &Memtable, position: usize, bytes: &[u8]) {
    let is_it = match memtable.at(position) {
        Some((token, key, _)) => {
            token == Partitioner::Lead8.token(bytes) && key.bytes() == bytes
        }
        None => false,
    };
    assert!(rt; is_it);
}

#[test]
fn keys_are_in_order(rt: HostRuntime) {
    let memtable = filled(&rt, rt.alloc());
    check_at(&rt, &memtable, 0, b"k1");
    check_at(&rt, &memtable, 1, b"k2");
    assert!(rt; memtable.at(2).is_none());
}

#[test]
fn cells_and_bytes_are_counted(rt: HostRuntime) {
    let memtable = filled(&rt, rt.alloc());
    assert!(rt; (memtable.cells(), memtable.bytes(), memtable.is_empty()) == (2, 12, false));
}

/// Whether the partition has the int of column 1 alone, which was written then.
fn is_int_at(part: &Partition, time: u64) -> bool {
    match part.cells() {
        [cell] => {
            cell.column() == 1 && cell.time() == time && matches!(cell.value(), Some(Value::Int(7)))
        }
        _ => false,
    }
}

#[test]
fn key_is_found(rt: HostRuntime) {
    let memtable = filled(&rt, rt.alloc());
    let key = decorated(Partitioner::Lead8, key_of(&rt, rt.alloc(), b"k2"));
    let part = memtable.get(&key).expect(&rt, "a partition");
    assert!(rt; is_int_at(part, 5));
}

/// The first key behind this one has these bytes.
fn check_after(rt: &impl Abort, memtable: &Memtable, key: Option<&DecoratedKey>, bytes: &[u8]) {
    let is_it = match memtable.after(key) {
        Some((next, _)) => next.key.bytes() == bytes,
        None => false,
    };
    assert!(rt; is_it);
}

#[test]
fn next_key_is_found(rt: HostRuntime) {
    let memtable = filled(&rt, rt.alloc());
    let first = decorated(Partitioner::Lead8, key_of(&rt, rt.alloc(), b"k1"));
    let last = decorated(Partitioner::Lead8, key_of(&rt, rt.alloc(), b"k2"));
    check_after(&rt, &memtable, None, b"k1");
    check_after(&rt, &memtable, Some(&first), b"k2");
    assert!(rt; memtable.after(Some(&last)).is_none());
}

// The deletion shadows the int, and counts as a cell.
#[test]
fn deletion_is_merged(rt: HostRuntime) {
    let mut memtable = filled(&rt, rt.alloc());
    let key = key_of(&rt, rt.alloc(), b"k2");
    memtable
        .put_from(key, Partition::deletion(rt.alloc(), 6))
        .expect(&rt, "memory for a change");
    assert!(rt; (memtable.cells(), memtable.bytes()) == (2, 8));
}
