// Searches of indexes of numbers for ranges.
use crate::fixture::{Row, file_of};
use crate::searches::{bigints, next, numbers, search};
use sasi_host::MemHost;
use sasi_terms::{Op, bigint_term, int_term};
use sasi_types::{ColumnType, ListKind, Mode, Token};
use std::alloc::Global;
use std::process::Abort;

/// The bounds of a range, and the tokens that it gives: from the one up to the other, which isn't among them.
type Range = (i64, i64, Token, Token);

/// A range gives a pair of each of its tokens, and then none.
fn check_range(rt: &impl Abort, alloc: Global, host: &mut MemHost, range: Range) {
    let (least, greatest, from, to) = range;
    let mut found = search(rt, alloc, host, Op::Range { least, greatest }, b"");
    for token in from..to {
        assert!(rt; next(rt, host, &mut found) == Some(token));
    }
    assert!(rt; next(rt, host, &mut found).is_none());
}

/// Ranges give the numbers from 0 up to the count, whose tokens they are: all of them, those from 3 on, and those from 3 to 70.
pub fn check_all_numbers(rt: &impl Abort, alloc: Global, mut host: MemHost, count: u64) {
    check_range(rt, alloc, &mut host, (i64::MIN, i64::MAX, 0, count));
    check_range(rt, alloc, &mut host, (3, i64::MAX, 3, count));
    check_range(rt, alloc, &mut host, (3, 70, 3, count.min(71)));
    drop(host);
}

/// Each range gives its tokens.
fn check_ranges(rt: &impl Abort, alloc: Global, mut host: MemHost, ranges: &[Range]) {
    for range in ranges {
        check_range(rt, alloc, &mut host, *range);
    }
}

// Ranges of the numbers from -10 to 9, whose tokens are those from 0 to 19. The bounds are among the numbers, and outside of ints.
const RANGES: [Range; 14] = [
    (i64::MIN, i64::MAX, 0, 20),
    (-10, 9, 0, 20),
    (-2_147_483_649, 2_147_483_648, 0, 20),
    (-3, 1, 7, 12),
    (-1, 0, 9, 11),
    (4, 4, 14, 15),
    (i64::MIN, -10, 0, 1),
    (9, 4_294_967_296, 19, 20),
    (10, i64::MAX, 0, 0),
    (2_147_483_648, i64::MAX, 0, 0),
    (4_294_967_296, 4_294_967_305, 0, 0),
    (i64::MIN, -2_147_483_649, 0, 0),
    (1, 0, 0, 0),
    (i64::MAX, i64::MIN, 0, 0),
];

#[test]
fn ranges_give_their_ints(rt: HostRuntime) {
    let alloc = rt.alloc();
    for mode in [Mode::Prefix, Mode::Sparse] {
        check_ranges(&rt, alloc, numbers(&rt, alloc, mode), &RANGES);
    }
}

#[test]
fn ranges_give_their_bigints(rt: HostRuntime) {
    let alloc = rt.alloc();
    for mode in [Mode::Prefix, Mode::Sparse] {
        check_ranges(&rt, alloc, bigints(&rt, alloc, mode), &RANGES);
    }
}

/// A file of the least and the greatest int, and of those at zero.
pub fn ends_of_ints(rt: &impl Abort, alloc: Global, mode: Mode) -> MemHost {
    let rows: [Row<'_>; 4] = [
        (ListKind::Stored, &int_term(i32::MIN), 0),
        (ListKind::Stored, &int_term(-1), 1),
        (ListKind::Stored, &int_term(0), 2),
        (ListKind::Stored, &int_term(i32::MAX), 3),
    ];
    file_of(rt, alloc, mode, ColumnType::Int, &rows)
}

// Ranges of these ints.
const RANGES_OF_INTS: [Range; 9] = [
    (i64::MIN, i64::MAX, 0, 4),
    (-2_147_483_648, 2_147_483_647, 0, 4),
    (-2_147_483_649, -2_147_483_648, 0, 1),
    (-2_147_483_648, -1, 0, 2),
    (-2_147_483_647, 2_147_483_646, 1, 3),
    (0, 2_147_483_647, 2, 4),
    (2_147_483_647, 2_147_483_648, 3, 4),
    (2_147_483_648, i64::MAX, 0, 0),
    (i64::MIN, -2_147_483_649, 0, 0),
];

#[test]
fn ranges_give_the_ends_of_ints(rt: HostRuntime) {
    let alloc = rt.alloc();
    for mode in [Mode::Prefix, Mode::Sparse] {
        check_ranges(&rt, alloc, ends_of_ints(&rt, alloc, mode), &RANGES_OF_INTS);
    }
}

/// A file of the least and the greatest bigint, and of those at zero.
pub fn ends_of_bigints(rt: &impl Abort, alloc: Global, mode: Mode) -> MemHost {
    let rows: [Row<'_>; 4] = [
        (ListKind::Stored, &bigint_term(i64::MIN), 0),
        (ListKind::Stored, &bigint_term(-1), 1),
        (ListKind::Stored, &bigint_term(0), 2),
        (ListKind::Stored, &bigint_term(i64::MAX), 3),
    ];
    file_of(rt, alloc, mode, ColumnType::BigInt, &rows)
}

// Ranges of these bigints.
const RANGES_OF_BIGINTS: [Range; 6] = [
    (i64::MIN, i64::MAX, 0, 4),
    (i64::MIN, i64::MIN, 0, 1),
    (i64::MIN, -1, 0, 2),
    (-1, 0, 1, 3),
    (1, i64::MAX, 3, 4),
    (i64::MAX, i64::MAX, 3, 4),
];

#[test]
fn ranges_give_the_ends_of_bigints(rt: HostRuntime) {
    let alloc = rt.alloc();
    for mode in [Mode::Prefix, Mode::Sparse] {
        check_ranges(
            &rt,
            alloc,
            ends_of_bigints(&rt, alloc, mode),
            &RANGES_OF_BIGINTS,
        );
    }
}
