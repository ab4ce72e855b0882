//! The order in which postings are given, and when a gathering is due.
use sasi_host::MemHost;
use sasi_segments::{Gather, Posting};
use sasi_types::{ListKind, Pair};
use std::alloc::Global;
use std::process::Abort;

/// Adds a posting of the term, or of the spill where it is empty.
fn add(rt: &impl Abort, gather: &mut Gather, term: &[u8], token: u64, place: u64) {
    assert!(rt; term.len() <= 1024);
    let list = if term.is_empty() {
        ListKind::Spill
    } else {
        ListKind::Stored
    };
    gather
        .add(term, list, Pair { token, place })
        .expect(rt, "memory");
}

/// Whether it is the posting of this term or, where that is empty, of the spill, with this pair.
fn is(posting: &Posting, term: &[u8], token: u64, place: u64) -> bool {
    posting.term.bytes() == term
        && (posting.list == ListKind::Spill) == term.is_empty()
        && posting.pair == Pair { token, place }
}

/// The next posting.
fn next(rt: &impl Abort, gather: &mut Gather, host: &mut MemHost) -> Option<Posting> {
    gather.next(host).expect(rt, "no fault")
}

/// The next posting is this one.
fn check_next(
    rt: &impl Abort,
    gather: &mut Gather,
    host: &mut MemHost,
    term: &[u8],
    token: u64,
    place: u64,
) {
    let posting = next(rt, gather, host).expect(rt, "a posting");
    assert!(rt;
        is(&posting, term, token, place),
        "{term:?} {token} {place}"
    );
}

// Postings by term, token and offset, in the order in which they are added. Those without a term are of the spill.
const ADDED: [(&[u8], u64, u64); 8] = [
    (b"", 1, 16),
    (b"b", 5, 90),
    (b"b", 5, 20),
    (b"ba", 1, 30),
    (b"\xc3\xa9", 0, 40),
    (b"b", 2, 70),
    (b"", 0, 99),
    (b"a", 9, 50),
];

// The same in their order.
const IN_ORDER: [(&[u8], u64, u64); 8] = [
    (b"a", 9, 50),
    (b"b", 2, 70),
    (b"b", 5, 20),
    (b"b", 5, 90),
    (b"ba", 1, 30),
    (b"\xc3\xa9", 0, 40),
    (b"", 0, 99),
    (b"", 1, 16),
];

#[test]
fn postings_come_in_their_order(rt: HostRuntime) {
    let alloc = rt.alloc();
    let mut gather = Gather::new(alloc, 1, 1);
    for (term, token, place) in ADDED {
        add(&rt, &mut gather, term, token, place);
    }
    let mut host = MemHost::new(alloc);
    for (term, token, place) in IN_ORDER {
        check_next(&rt, &mut gather, &mut host, term, token, place);
    }
    assert!(rt; next(&rt, &mut gather, &mut host).is_none());
    assert!(rt; next(&rt, &mut gather, &mut host).is_none());
}

/// A gathering of so many postings of a term of this length.
fn gathered(rt: &impl Abort, alloc: Global, count: u64, term: &[u8]) -> Gather {
    let mut gather = Gather::new(alloc, 1, 1);
    for place in 0..count {
        add(rt, &mut gather, term, 7, place);
    }
    gather
}

#[test]
fn gathering_is_due_at_its_limits(rt: HostRuntime) {
    let alloc = rt.alloc();
    // Records of 20 bytes, and of 1,043 bytes: 64,343 of these are the first to have 2^26 bytes.
    let table: [(u64, &[u8], bool); 4] = [
        ((1 << 20) - 1, &[b'a'; 1], false),
        (1 << 20, &[b'a'; 1], true),
        (64_342, &[b'a'; 1024], false),
        (64_343, &[b'a'; 1024], true),
    ];
    for (count, term, want) in table {
        let gather = gathered(&rt, alloc, count, term);
        assert!(rt; gather.is_due() == want, "{count}");
    }
}
