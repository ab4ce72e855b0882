//! Unions of lists.
use crate::fixture::{check, streams_of};
use sasi_host::{Direct, MemHost};
use sasi_ranges::Union;
use std::alloc::Global;
use std::process::Abort;

// Lists of which some have the same entries, each entry with the number of its list.
const LISTS: [(usize, u64, u64); 8] = [
    (0, 1, 10),
    (0, 3, 30),
    (0, 5, 50),
    (1, 1, 10),
    (1, 2, 20),
    (1, 5, 51),
    (2, 3, 30),
    (2, 5, 50),
];

fn check_union(
    rt: &impl Abort,
    alloc: Global,
    count: usize,
    items: &[(usize, u64, u64)],
    steps: &[(u64, u64, u64)],
    end: u64,
) {
    let streams = streams_of(rt, alloc, count, items);
    let mut union = Union::new(streams).expect(rt, "memory");
    let mut host = MemHost::new(alloc);
    check(rt, &mut union, &mut host, &mut Direct, steps, end);
    drop(host);
}

#[test]
fn equal_entries_come_once(rt: HostRuntime) {
    let steps = [(0, 1, 10), (0, 2, 20), (0, 3, 30), (0, 5, 50), (0, 5, 51)];
    check_union(&rt, rt.alloc(), 3, &LISTS, &steps, 0);
}

#[test]
fn a_skip_keeps_its_token(rt: HostRuntime) {
    check_union(
        &rt,
        rt.alloc(),
        3,
        &LISTS,
        &[(3, 3, 30), (2, 5, 50), (5, 5, 51)],
        0,
    );
    check_union(&rt, rt.alloc(), 3, &LISTS, &[(0, 1, 10), (4, 5, 50)], 6);
    check_union(&rt, rt.alloc(), 3, &LISTS, &[], u64::MAX);
}

#[test]
fn empty_lists_give_nothing(rt: HostRuntime) {
    check_union(&rt, rt.alloc(), 0, &[], &[], 0);
    check_union(&rt, rt.alloc(), 3, &[(1, 7, 70)], &[(0, 7, 70)], 0);
}
