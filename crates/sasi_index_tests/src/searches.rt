// Searches of written files.
ghost use Rattle.sasi_host.specs.Memory.{host_view, memory_host};
ghost use Rattle.sasi_indexwrite.specs.TermsSoFar.{AreUpTo};
ghost use Rattle.sasi_index_tests.specs.Searching.{IsSearchOf};

use crate::fixture::{FILE, Row, file_of, lowest, put, write};
use sasi_host::{Direct, MemHost};
use sasi_indexread::{IndexFile, Search};
use sasi_segments::{Gather, Posting};
use sasi_terms::Op;
use sasi_types::{ColumnType, ListKind, Mode, Pair, Token};
use std::alloc::Global;
use std::process::Abort;

/// A search of the file.
pub fn search(rt: &impl Abort, alloc: Global, host: &mut MemHost, op: Op, body: &[u8]) -> Search
    ensures { IsSearchOf FILE (host_view (memory_host host.new)) result }
{
    assert!(rt; host.bytes(FILE).is_some());
    let index = IndexFile::open(host, &mut Direct, FILE).expect(rt, "opened");
    index.search(alloc, &op, body).expect(rt, "memory")
}

/// The next pair of a search.
fn next_pair(rt: &impl Abort, host: &mut MemHost, found: &mut Search) -> Option<Pair>
    requires { IsSearchOf FILE (host_view (memory_host host.old)) found.old }
    ensures { IsSearchOf FILE (host_view (memory_host host.new)) found.new }
{
    assert!(rt; host.bytes(FILE).is_some());
    found.next(host, &mut Direct).expect(rt, "read")
}

/// The token of the next pair of a search.
pub fn next(rt: &impl Abort, host: &mut MemHost, found: &mut Search) -> Option<Token>
    requires { IsSearchOf FILE (host_view (memory_host host.old)) found.old }
    ensures { IsSearchOf FILE (host_view (memory_host host.new)) found.new }
{
    let pair = next_pair(rt, host, found)?;
    assert!(rt; pair.place == pair.token.wrapping_add(16));
    Some(pair.token)
}

/// Drops the pairs below the token.
fn skip(rt: &impl Abort, host: &mut MemHost, found: &mut Search, token: Token)
    requires { IsSearchOf FILE (host_view (memory_host host.old)) found.old }
    ensures { IsSearchOf FILE (host_view (memory_host host.new)) found.new }
{
    found
        .skip_to(host, &mut Direct, token)
        .expect(rt, "skipped");
}

/// A search gives the pairs of these tokens, and then none.
fn check(
    rt: &impl Abort,
    alloc: Global,
    host: &mut MemHost,
    op: Op,
    body: &[u8],
    tokens: &[Token],
) {
    let mut found = search(rt, alloc, host, op, body);
    for token in tokens {
        assert!(rt; next(rt, host, &mut found) == Some(*token));
    }
    assert!(rt; next(rt, host, &mut found).is_none());
}

/// What is searched for, and the tokens that it gives.
type Case<'a> = (Op, &'a [u8], &'a [Token]);

/// Each search gives its tokens.
fn check_each(rt: &impl Abort, alloc: Global, mut host: MemHost, cases: &[Case<'_>]) {
    for (op, body, tokens) in cases {
        check(rt, alloc, &mut host, *op, body, tokens);
    }
}

/// A search gives so many pairs of the token 5, from the place 16 on, and then none.
pub fn check_all(
    rt: &impl Abort,
    alloc: Global,
    host: &mut MemHost,
    op: Op,
    body: &[u8],
    count: u64,
) {
    let mut found = search(rt, alloc, host, op, body);
    for k in 0..count {
        let place = k.wrapping_add(16);
        assert!(rt; next_pair(rt, host, &mut found) == Some(Pair { token: 5, place }));
    }
    assert!(rt; next_pair(rt, host, &mut found).is_none());
}

/// The pairs of a few terms.
const FEW: [Row<'static>; 10] = [
    (ListKind::Stored, b"", 9),
    (ListKind::Stored, b"blue", 4),
    (ListKind::Stored, b"red", 1),
    (ListKind::Stored, b"red", 5),
    (ListKind::Stored, b"red", 7),
    (ListKind::Stored, b"redder", 2),
    (ListKind::Stored, b"redder", 5),
    (ListKind::Stored, b"sred", 3),
    (ListKind::Spill, b"", 6),
    (ListKind::Spill, b"", 7),
];

/// A file of these.
fn few(rt: &impl Abort, alloc: Global) -> MemHost {
    file_of(rt, alloc, Mode::Prefix, ColumnType::Text, &FEW)
}

#[test]
fn each_operator_finds_its_terms(rt: HostRuntime) {
    let alloc = rt.alloc();
    let range = Op::Range {
        least: 0,
        greatest: 9,
    };
    let cases: [Case<'_>; 9] = [
        (Op::Eq, b"red", &[1, 5, 6, 7]),
        (Op::Eq, b"re", &[6, 7]),
        (Op::Eq, b"", &[6, 7, 9]),
        (Op::Prefix, b"red", &[1, 2, 5, 6, 7]),
        (Op::Prefix, b"", &[1, 2, 3, 4, 5, 6, 7, 9]),
        (Op::Prefix, b"z", &[6, 7]),
        (Op::Suffix, b"red", &[1, 3, 5, 6, 7]),
        (Op::Contains, b"ed", &[1, 2, 3, 5, 6, 7]),
        (range, b"", &[6, 7]),
    ];
    check_each(&rt, alloc, few(&rt, alloc), &cases);
}

#[test]
fn skips_drop_the_pairs_below(rt: HostRuntime) {
    let alloc = rt.alloc();
    let mut host = few(&rt, alloc);
    let mut found = search(&rt, alloc, &mut host, Op::Prefix, b"");
    skip(&rt, &mut host, &mut found, 3);
    assert!(rt; next(&rt, &mut host, &mut found) == Some(3));
    skip(&rt, &mut host, &mut found, 2);
    skip(&rt, &mut host, &mut found, 8);
    assert!(rt; next(&rt, &mut host, &mut found) == Some(9));
    assert!(rt; next(&rt, &mut host, &mut found).is_none());
    assert!(rt; next(&rt, &mut host, &mut found).is_none());
    drop(found);
    drop(host);
}

/// The tokens of the numbers from -10 to 9.
const TOKENS: [Token; 20] = [
    0, 1, 2, 3, 4, 5, 6, 7, 8, 9, 10, 11, 12, 13, 14, 15, 16, 17, 18, 19,
];

/// Adds the numbers from -10 to 9, with the tokens from 0 on.
fn add_numbers(rt: &impl Abort, alloc: Global, gather: &mut Gather, last: &mut Posting)
    requires { AreUpTo gather.old.postings last.old }
    ensures { AreUpTo gather.new.postings last.new }
{
    for k in 0..20_u32 {
        let term = (k.wrapping_sub(10) ^ (1 << 31)).to_be_bytes();
        put(
            rt,
            alloc,
            gather,
            last,
            ListKind::Stored,
            &term,
            u64::from(k),
        );
    }
}

/// A file of these ints.
pub fn numbers(rt: &impl Abort, alloc: Global, mode: Mode) -> MemHost {
    let mut last = lowest(alloc);
    let mut gather = Gather::new(alloc, 1, 1);
    add_numbers(rt, alloc, &mut gather, &mut last);
    write(rt, alloc, mode, ColumnType::Int, gather)
}

#[test]
fn ranges_find_their_numbers(rt: HostRuntime) {
    let alloc = rt.alloc();
    let some = Op::Range {
        least: -3,
        greatest: 1,
    };
    let none = Op::Range {
        least: 3,
        greatest: 1,
    };
    let cases: [Case<'_>; 6] = [
        (some, b"", &[7, 8, 9, 10, 11]),
        (none, b"", &[]),
        (Op::Eq, b"\x7f\xff\xff\xff", &[9]),
        (Op::Prefix, b"\x80", &TOKENS[10..]),
        (Op::Suffix, b"\xff\xfe", &[8]),
        (Op::Contains, b"\xff\xff", &TOKENS[..10]),
    ];
    check_each(&rt, alloc, numbers(&rt, alloc, Mode::Prefix), &cases);
}

/// Adds the numbers from -10 to 9 as terms of eight bytes, with the tokens from 0 on.
fn add_bigints(rt: &impl Abort, alloc: Global, gather: &mut Gather, last: &mut Posting)
    requires { AreUpTo gather.old.postings last.old }
    ensures { AreUpTo gather.new.postings last.new }
{
    for k in 0..20_u64 {
        let term = (k.wrapping_sub(10) ^ (1 << 63)).to_be_bytes();
        put(rt, alloc, gather, last, ListKind::Stored, &term, k);
    }
}

/// A file of these bigints.
pub fn bigints(rt: &impl Abort, alloc: Global, mode: Mode) -> MemHost {
    let mut last = lowest(alloc);
    let mut gather = Gather::new(alloc, 1, 1);
    add_bigints(rt, alloc, &mut gather, &mut last);
    write(rt, alloc, mode, ColumnType::BigInt, gather)
}

#[test]
fn ranges_find_their_large_numbers(rt: HostRuntime) {
    let alloc = rt.alloc();
    let some = Op::Range {
        least: -3,
        greatest: 1,
    };
    let high = Op::Range {
        least: 8,
        greatest: i64::MAX,
    };
    let one = b"\x7f\xff\xff\xff\xff\xff\xff\xff";
    let cases: [Case<'_>; 6] = [
        (some, b"", &[7, 8, 9, 10, 11]),
        (high, b"", &[18, 19]),
        (Op::Eq, one, &[9]),
        (Op::Prefix, b"\x80", &TOKENS[10..]),
        (Op::Suffix, b"\xff\xfe", &[8]),
        (Op::Contains, b"\xff\xff", &TOKENS[..10]),
    ];
    check_each(&rt, alloc, bigints(&rt, alloc, Mode::Prefix), &cases);
}

/// The shortest and the longest terms, and pairs of two lists that alternate.
pub fn edges(rt: &impl Abort, alloc: Global, mode: Mode) -> MemHost {
    let long = [97; 1024];
    let rows: [Row<'_>; 7] = [
        (ListKind::Stored, b"", 5),
        (ListKind::Stored, b"a", 1),
        (ListKind::Stored, b"a", 3),
        (ListKind::Stored, b"a", 7),
        (ListKind::Stored, &long, 2),
        (ListKind::Stored, &long, 3),
        (ListKind::Stored, &long, 8),
    ];
    file_of(rt, alloc, mode, ColumnType::Text, &rows)
}

/// Each operator finds the shortest and the longest terms.
fn check_edges(rt: &impl Abort, alloc: Global, host: MemHost) {
    let cases: [Case<'_>; 7] = [
        (Op::Eq, b"", &[5]),
        (Op::Eq, b"a", &[1, 3, 7]),
        (Op::Eq, &[97; 1024], &[2, 3, 8]),
        (Op::Eq, &[97; 1023], &[]),
        (Op::Prefix, b"a", &[1, 2, 3, 7, 8]),
        (Op::Suffix, &[97; 1024], &[2, 3, 8]),
        (Op::Contains, b"a", &[1, 2, 3, 7, 8]),
    ];
    check_each(rt, alloc, host, &cases);
}

#[test]
fn shortest_and_longest_terms_are_found(rt: HostRuntime) {
    let alloc = rt.alloc();
    for mode in [Mode::Prefix, Mode::Contains, Mode::Sparse] {
        check_edges(&rt, alloc, edges(&rt, alloc, mode));
    }
}

/// A term of 40 bytes with this number.
fn nth_term(k: u64) -> [u8; 40] {
    let mut term = [97; 40];
    term[..8].copy_from_slice(&k.to_be_bytes());
    term
}

/// Adds 2,000 terms: several blocks, and a level of pointers above them.
fn add_many(rt: &impl Abort, alloc: Global, gather: &mut Gather, last: &mut Posting)
    requires { AreUpTo gather.old.postings last.old }
    ensures { AreUpTo gather.new.postings last.new }
{
    for k in 0..2000 {
        let token = k * 7 % 2000;
        put(
            rt,
            alloc,
            gather,
            last,
            ListKind::Stored,
            &nth_term(k),
            token,
        );
    }
}

/// A file of these terms.
fn many(rt: &impl Abort, alloc: Global) -> MemHost {
    let mut last = lowest(alloc);
    let mut gather = Gather::new(alloc, 1, 1);
    add_many(rt, alloc, &mut gather, &mut last);
    write(rt, alloc, Mode::Prefix, ColumnType::Text, gather)
}

#[test]
fn each_of_many_terms_is_found(rt: HostRuntime) {
    let alloc = rt.alloc();
    let mut host = many(&rt, alloc);
    for k in 0..2000 {
        let token = k * 7 % 2000;
        check(&rt, alloc, &mut host, Op::Eq, &nth_term(k), &[token]);
    }
    check(&rt, alloc, &mut host, Op::Eq, &nth_term(2000), &[]);
    let prefix = [0, 0, 0, 0, 0, 0, 0, 9];
    check(&rt, alloc, &mut host, Op::Prefix, &prefix, &[63]);
    drop(host);
}

/// The longest term with this number.
fn long_term(k: u64) -> [u8; 1024] {
    let mut term = [97; 1024];
    term[..8].copy_from_slice(&k.to_be_bytes());
    term
}

/// Adds 100 terms of 1,024 bytes: three to a block, so there are four levels of pointers above them.
fn add_long_terms(rt: &impl Abort, alloc: Global, gather: &mut Gather, last: &mut Posting)
    requires { AreUpTo gather.old.postings last.old }
    ensures { AreUpTo gather.new.postings last.new }
{
    for k in 0..100 {
        put(rt, alloc, gather, last, ListKind::Stored, &long_term(k), k);
    }
}

/// A file of these terms.
pub fn long_terms(rt: &impl Abort, alloc: Global) -> MemHost {
    let mut last = lowest(alloc);
    let mut gather = Gather::new(alloc, 1, 1);
    add_long_terms(rt, alloc, &mut gather, &mut last);
    write(rt, alloc, Mode::Prefix, ColumnType::Text, gather)
}

#[test]
fn terms_below_many_levels_are_found(rt: HostRuntime) {
    let alloc = rt.alloc();
    let mut host = long_terms(&rt, alloc);
    for k in 0..100 {
        check(&rt, alloc, &mut host, Op::Eq, &long_term(k), &[k]);
    }
    check(&rt, alloc, &mut host, Op::Eq, &long_term(100), &[]);
    let part = [0, 0, 0, 0, 0, 0, 0, 99];
    check(&rt, alloc, &mut host, Op::Prefix, &part, &[99]);
    check(&rt, alloc, &mut host, Op::Contains, &part, &[99]);
    check(&rt, alloc, &mut host, Op::Suffix, b"b", &[]);
    drop(host);
}
