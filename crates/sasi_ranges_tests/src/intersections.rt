//! Intersections of lists.
ghost use Rattle.std.specs.Prelude.{◌<◌, length};

use crate::fixture::{check, streams_of};
use sasi_host::{Direct, MemHost};
use sasi_ranges::{Intersection, RelationStreams};
use std::alloc::Global;
use std::process::Abort;

// Lists of which some have the same tokens, each entry with the number of its list.
const LISTS: [(usize, u64, u64); 9] = [
    (0, 2, 20),
    (0, 2, 21),
    (0, 4, 40),
    (0, 6, 60),
    (1, 1, 10),
    (1, 2, 22),
    (1, 4, 40),
    (1, 4, 41),
    (1, 6, 59),
];

fn check_intersection(
    rt: &impl Abort,
    alloc: Global,
    count: usize,
    items: &[(usize, u64, u64)],
    steps: &[(u64, u64, u64)],
    end: u64,
)
    requires { 0 < count }
{
    let streams = streams_of(rt, alloc, count, items);
    let mut intersection = Intersection::new(streams).expect(rt, "memory");
    let mut host = MemHost::new(alloc);
    check(rt, &mut intersection, &mut host, &mut Direct, steps, end);
    drop(host);
}

#[test]
fn each_entry_of_a_shared_token_is_given(rt: HostRuntime) {
    let steps = [
        (0, 2, 20),
        (0, 2, 21),
        (0, 2, 22),
        (0, 4, 40),
        (0, 4, 41),
        (0, 6, 59),
        (0, 6, 60),
    ];
    check_intersection(&rt, rt.alloc(), 2, &LISTS, &steps, 0);
}

#[test]
fn a_skip_keeps_its_token(rt: HostRuntime) {
    let steps = [(1, 2, 20), (2, 2, 21), (3, 4, 40), (4, 4, 41), (6, 6, 59)];
    check_intersection(&rt, rt.alloc(), 2, &LISTS, &steps, 7);
}

#[test]
fn a_list_without_the_token_takes_it_away(rt: HostRuntime) {
    check_intersection(&rt, rt.alloc(), 3, &LISTS, &[], 0);
    let items = [(0, 1, 10), (0, 9, 90), (1, 2, 20), (1, 9, 91), (2, 9, 92)];
    let steps = [(0, 9, 90), (0, 9, 91), (0, 9, 92)];
    check_intersection(&rt, rt.alloc(), 3, &items, &steps, 0);
}

// Two relations, of which the first is served by the streams at 0 and 2 and the second by those at 1 and 2.
fn two_relations(rt: &impl Abort, alloc: Global) -> RelationStreams
    ensures { 0 < length result }
{
    let mut relations = RelationStreams::new(alloc);
    for first in 0..2 {
        let positions = vec![in alloc; first, 2].expect(rt, "memory");
        relations.push(positions).expect(rt, "memory");
    }
    relations
}

fn check_serving(
    rt: &impl Abort,
    alloc: Global,
    items: &[(usize, u64, u64)],
    steps: &[(u64, u64, u64)],
    end: u64,
) {
    let streams = streams_of(rt, alloc, 4, items);
    let relations = two_relations(rt, alloc);
    let mut intersection = Intersection::serving(streams, relations).expect(rt, "memory");
    let mut host = MemHost::new(alloc);
    check(rt, &mut intersection, &mut host, &mut Direct, steps, end);
    drop(host);
}

#[test]
fn a_relation_has_the_tokens_of_each_of_its_streams(rt: HostRuntime) {
    let items = [
        (0, 1, 10),
        (0, 4, 40),
        (1, 3, 30),
        (1, 4, 41),
        (2, 2, 20),
        (2, 3, 31),
        (3, 1, 11),
        (3, 2, 21),
        (3, 5, 50),
    ];
    let steps = [
        (0, 2, 20),
        (0, 2, 21),
        (0, 3, 30),
        (3, 3, 31),
        (4, 4, 40),
        (4, 4, 41),
    ];
    check_serving(&rt, rt.alloc(), &items, &steps, 5);
    check_serving(&rt, rt.alloc(), &[(0, 1, 10), (3, 1, 11)], &[], 0);
}
