//! Which keys the indexes of numbers have between which bounds.
ghost use Rattle.std.specs.FinMap as fin;
ghost use Rattle.sasi_memindex.specs.IndexedValues.{IsValueOf};
ghost use Rattle.sasi_terms_tests.specs.IndexedMaps.{HasIndexes};

use crate::analyzers::kit_of_both;
use crate::mem_indexes::{book_of, change_of, check_search};
use sasi_analyzers::Kit;
use sasi_memindex::MapBook;
use sasi_terms::Op;
use sasi_types::{ColumnType, Key, Value};
use std::alloc::Global;
use std::process::Abort;

/// Writes a number at a key of one byte.
fn write_number(
    rt: &impl Abort,
    alloc: Global,
    book: &mut MapBook,
    kind: ColumnType,
    key: u8,
    value: Value,
    kit: &mut Kit,
)
    requires indexes { HasIndexes kind (fin.get book.old 1) }
    requires value { IsValueOf kind value }
    ensures { HasIndexes kind (fin.get book.new 1) }
{
    let key = Key::new(alloc, &[key]).expect(rt, "a key");
    let change = change_of(rt, alloc, 1, Some(value));
    book.put_from(1, key, change, kit).expect(rt, "memory");
}

// Keys with ints, and bounds with the keys of the ints from the one to the other.
const INTS: [(u8, i32); 5] = [
    (b'd', 7),
    (b'a', i32::MIN),
    (b'e', i32::MAX),
    (b'c', 0),
    (b'b', -1),
];

const INT_RANGES: [(i64, i64, &str); 9] = [
    (i64::MIN, i64::MAX, "abcde"),
    (i64::MIN, -2_147_483_649, ""),
    (i64::MIN, -2_147_483_648, "a"),
    (2_147_483_647, i64::MAX, "e"),
    (2_147_483_648, i64::MAX, ""),
    (-1, 0, "bc"),
    (7, 7, "d"),
    (1, 6, ""),
    (7, 0, ""),
];

#[test]
fn ints_are_found_between_bounds(rt: HostRuntime) {
    let alloc = rt.alloc();
    let mut kit = kit_of_both(&rt, alloc);
    let mut book = book_of(&rt, alloc, ColumnType::Int, None, &mut kit);
    for (key, number) in INTS {
        write_number(
            &rt,
            alloc,
            &mut book,
            ColumnType::Int,
            key,
            Value::Int(number),
            &mut kit,
        );
    }
    for (least, greatest, want) in INT_RANGES {
        check_search(
            &rt,
            alloc,
            &book,
            1,
            &Op::Range { least, greatest },
            b"",
            want,
        );
    }
}

const BIGINTS: [(u8, i64); 5] = [
    (b'd', 7),
    (b'a', i64::MIN),
    (b'e', i64::MAX),
    (b'c', 0),
    (b'b', -1),
];

const BIGINT_RANGES: [(i64, i64, &str); 7] = [
    (i64::MIN, i64::MAX, "abcde"),
    (i64::MIN, i64::MIN, "a"),
    (i64::MIN + 1, 6, "bc"),
    (i64::MAX, i64::MAX, "e"),
    (8, i64::MAX - 1, ""),
    (0, 7, "cd"),
    (7, 0, ""),
];

#[test]
fn bigints_are_found_between_bounds(rt: HostRuntime) {
    let alloc = rt.alloc();
    let mut kit = kit_of_both(&rt, alloc);
    let mut book = book_of(&rt, alloc, ColumnType::BigInt, None, &mut kit);
    for (key, number) in BIGINTS {
        write_number(
            &rt,
            alloc,
            &mut book,
            ColumnType::BigInt,
            key,
            Value::BigInt(number),
            &mut kit,
        );
    }
    for (least, greatest, want) in BIGINT_RANGES {
        check_search(
            &rt,
            alloc,
            &book,
            1,
            &Op::Range { least, greatest },
            b"",
            want,
        );
    }
}
