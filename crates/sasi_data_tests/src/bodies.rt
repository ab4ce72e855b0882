// Bodies: their bytes, and what is read of each front of one.
ghost use Rattle.sasi_body.specs.Body.{HasBody};

use crate::fixture::{INSERTED, body_of, list_of};
use sasi_body::read_body;
use sasi_cells::Partition;
use sasi_formats::FormatFault;
use sasi_types::{ColumnType, Key};
use std::alloc::Global;
use std::process::Abort;

// Key 7, a deletion at time 3, a tombstone, a bigint and a uuid.
const CHANGED: [u8; 77] = [
    0, 4, 0, 0, 0, 7, 0, 0, 0, 0, 0, 0, 0, 3, 0, 3, 0, 1, 0, 0, 0, 0, 0, 0, 0, 4, 0, 0, 2, 0, 0, 0,
    0, 0, 0, 0, 9, 1, 0, 8, 0, 1, 2, 3, 4, 5, 6, 7, 0, 3, 0x40, 0, 0, 0, 0, 0, 0, 0, 1, 0, 16, 0,
    1, 2, 3, 4, 5, 6, 7, 8, 9, 10, 11, 12, 13, 14, 15,
];

// Key k, and a deletion alone.
const DELETED: [u8; 13] = [0, 1, b'k', 0, 0, 0, 0, 0, 0, 0, 7, 0, 0];

const TEXTS: [ColumnType; 2] = [ColumnType::Text, ColumnType::Text];

const MIXED: [ColumnType; 4] = [
    ColumnType::Int,
    ColumnType::Text,
    ColumnType::BigInt,
    ColumnType::Uuid,
];

/// The partition with this body, in a table of these types.
fn read(rt: &impl Abort, alloc: Global, bytes: &[u8], types: &[ColumnType]) -> (Key, Partition)
    ensures { HasBody result.0 result.1 }
{
    read_body(alloc, bytes, &list_of(rt, alloc, types)).expect(rt, "a body")
}

/// A body is read, and the same bytes are put.
fn check_body(
    rt: &impl Abort,
    alloc: Global,
    bytes: &[u8],
    types: &[ColumnType],
    deleted: u64,
    count: usize,
) {
    let (key, part) = read(rt, alloc, bytes, types);
    assert!(rt; (part.deleted(), part.cells().len()) == (deleted, count));
    assert!(rt; body_of(rt, alloc, &key, &part).as_slice() == bytes);
}

#[test]
fn bodies_are_read_and_put(rt: HostRuntime) {
    let bodies: [(&[u8], &[ColumnType], u64, usize); 3] = [
        (&INSERTED, &TEXTS, 0, 2),
        (&CHANGED, &MIXED, 3, 3),
        (&DELETED, &TEXTS, 7, 0),
    ];
    for (bytes, types, deleted, count) in bodies {
        check_body(&rt, rt.alloc(), bytes, types, deleted, count);
    }
}

/// These bytes are refused as a body of two texts, with this fault.
fn check_other_length(rt: &impl Abort, alloc: Global, bytes: &[u8], fault: FormatFault) {
    let is_refused = match read_body(alloc, bytes, &list_of(rt, alloc, &TEXTS)) {
        Ok(_) => false,
        Err(reported) => reported == fault,
    };
    assert!(rt; is_refused);
}

/// The body with a byte more.
fn longer(rt: &impl Abort, alloc: Global, bytes: &[u8]) -> Vec<u8> {
    let mut longer = bytes.to_vec(alloc).expect(rt, "memory for a body");
    longer.push(0).expect(rt, "memory for a byte");
    longer
}

#[test]
fn other_lengths_are_refused(rt: HostRuntime) {
    let alloc = rt.alloc();
    for size in 0..INSERTED.len() {
        let front = INSERTED.get(..size).expect(&rt, "a front");
        check_other_length(&rt, alloc, front, FormatFault::Short);
    }
    let longer = longer(&rt, alloc, &INSERTED);
    check_other_length(&rt, alloc, &longer, FormatFault::Long);
}
