// The hits that an index file gives.
ghost use Rattle.std.specs.Prelude.{◌≤◌, length};

use crate::fixture::{INDEX, Row, check, hit, host_of};
use sasi_hits::IndexHits;
use sasi_host::{Direct, MemHost};
use sasi_ranges::Entry;
use sasi_terms::Op;
use sasi_types::{ListKind, Term, TermList, Token};
use std::alloc::Global;
use std::process::Abort;

/// Two words: they meet in one of the partitions with the token 5, and in none of those with 7. The spill has one more partition.
pub const ROWS: [Row<'static>; 8] = [
    (ListKind::Stored, b"blue", 5, 40),
    (ListKind::Stored, b"blue", 6, 60),
    (ListKind::Stored, b"blue", 7, 90),
    (ListKind::Stored, b"red", 5, 16),
    (ListKind::Stored, b"red", 5, 40),
    (ListKind::Stored, b"red", 7, 80),
    (ListKind::Stored, b"redder", 6, 60),
    (ListKind::Spill, b"", 8, 100),
];

/// A list of these words, of which there is one at least.
pub fn words_of(rt: &impl Abort, alloc: Global, words: &[&[u8]]) -> TermList
    ensures { 1 ≤ length result }
{
    let mut list = TermList::new(alloc);
    for word in words {
        let term = Term::new(word.to_vec(alloc).expect(rt, "memory"));
        list.push(term).expect(rt, "memory");
    }
    assert!(rt; !list.as_slice().is_empty());
    list
}

fn check_hits(
    rt: &impl Abort,
    alloc: Global,
    host: &mut MemHost,
    op: Op,
    words: &[&[u8]],
    steps: &[(Token, Entry)],
    end: Token,
) {
    assert!(rt; host.bytes(INDEX).is_some());
    let mut hits = IndexHits::new(alloc, INDEX, op, words_of(rt, alloc, words), 3, 7);
    check(rt, &mut hits, host, &mut Direct, steps, end);
}

#[test]
fn a_word_gives_its_postings_and_the_spill(rt: HostRuntime) {
    let alloc = rt.alloc();
    let mut host = host_of(&rt, alloc, &ROWS);
    let red = [
        (0, hit(5, 16)),
        (5, hit(5, 40)),
        (6, hit(7, 80)),
        (8, hit(8, 100)),
    ];
    check_hits(&rt, alloc, &mut host, Op::Eq, &[b"red"], &red, 0);
    let begun = [(0, hit(5, 16)), (6, hit(6, 60)), (8, hit(8, 100))];
    check_hits(&rt, alloc, &mut host, Op::Prefix, &[b"red"], &begun, 9);
    drop(host);
}

#[test]
fn words_meet_in_one_partition(rt: HostRuntime) {
    let alloc = rt.alloc();
    let mut host = host_of(&rt, alloc, &ROWS);
    let both = [(0, hit(5, 40)), (0, hit(8, 100))];
    check_hits(&rt, alloc, &mut host, Op::Eq, &[b"red", b"blue"], &both, 0);
    check_hits(&rt, alloc, &mut host, Op::Eq, &[b"blue", b"red"], &both, 0);
    let begun = [(0, hit(5, 40)), (6, hit(6, 60)), (7, hit(8, 100))];
    check_hits(
        &rt,
        alloc,
        &mut host,
        Op::Prefix,
        &[b"blue", b"red"],
        &begun,
        0,
    );
    check_hits(
        &rt,
        alloc,
        &mut host,
        Op::Eq,
        &[b"blue", b"green"],
        &[(0, hit(8, 100))],
        0,
    );
    check_hits(&rt, alloc, &mut host, Op::Eq, &[b"blue", b"red"], &[], 9);
    drop(host);
}
