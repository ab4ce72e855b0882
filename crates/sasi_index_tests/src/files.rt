// The bytes of index files.
ghost use Rattle.sasi_indexwrite.specs.TermsSoFar.{AreUpTo};

use crate::fixture::{FILE, add, lowest, put, write};
use crate::ranges::{check_all_numbers, ends_of_bigints, ends_of_ints};
use crate::searches::{bigints, check_all, edges, long_terms, numbers};
use sasi_host::MemHost;
use sasi_segments::{Gather, Posting};
use sasi_terms::Op;
use sasi_types::{ColumnType, ListKind, Mode, Pair};
use std::alloc::Global;
use std::process::Abort;

/// The number of bytes of the file, and a checksum of them.
pub fn summary(rt: &impl Abort, host: &MemHost) -> (usize, u64) {
    let bytes = host.bytes(FILE).expect(rt, "a file");
    let mut sum = 0u64;
    for byte in bytes {
        sum = sum.wrapping_mul(31).wrapping_add(u64::from(*byte));
    }
    (bytes.len(), sum)
}

// The file has so many bytes, with this checksum.
fn check_summary(rt: &impl Abort, host: MemHost, size: usize, sum: u64) {
    assert!(rt; summary(rt, &host) == (size, sum));
}

// The file has these bytes at the offset.
fn has_at(rt: &impl Abort, host: &MemHost, at: usize, wanted: &[u8]) -> bool {
    let bytes = host.bytes(FILE).expect(rt, "a file");
    let rest = bytes.get(at..).expect(rt, "bytes");
    rest.starts_with(wanted)
}

#[test]
fn no_postings(rt: HostRuntime) {
    let alloc = rt.alloc();
    let gather = Gather::new(alloc, 1, 1);
    let host = write(&rt, alloc, Mode::Prefix, ColumnType::Text, gather);
    assert!(rt;
        has_at(
            &rt,
            &host,
            0,
            b"SASIIDX1\x00\x00\x00\x01\x00\x00\x00\x00\x00\x00\x00\x00"
        )
    );
    assert!(rt;
        has_at(
            &rt,
            &host,
            4096,
            b"\x00\x00\x00\x00\x00\x00\x10\x00\x00\x00"
        )
    );
    assert!(rt; summary(&rt, &host).0 == 4168);
    drop(host);
}

#[test]
fn one_posting(rt: HostRuntime) {
    let alloc = rt.alloc();
    let mut last = lowest(alloc);
    let mut gather = Gather::new(alloc, 1, 1);
    let pair = Pair {
        token: 0x6b31_0000_0000_0000,
        place: 16,
    };
    add(
        &rt,
        alloc,
        &mut gather,
        &mut last,
        ListKind::Stored,
        b"x",
        pair,
    );
    let host = write(&rt, alloc, Mode::Prefix, ColumnType::Text, gather);
    let entry =
        b"\x00\x01\x00\x04\x00\x01x\x01\x00\x00\x00\x00\x00\x00\x00\x10\x00\x00\x00\x00\x00\x00\x00\x01";
    assert!(rt; has_at(&rt, &host, 4096, entry));
    check_summary(&rt, host, 8264, 6691731470373201816);
}

// Adds so many pairs of a term.
fn add_pairs(
    rt: &impl Abort,
    alloc: Global,
    gather: &mut Gather,
    last: &mut Posting,
    list: ListKind,
    term: &[u8],
    token: u64,
    step: u64,
    count: u64,
)
    requires { AreUpTo gather.old.postings last.old }
    ensures { AreUpTo gather.new.postings last.new }
{
    for k in 0..count {
        let pair = Pair {
            token: token.wrapping_add(k.wrapping_mul(step)),
            place: k.wrapping_add(16),
        };
        add(rt, alloc, gather, last, list, term, pair);
    }
}

// Adds the term with this number, with one to three pairs.
fn add_term(rt: &impl Abort, alloc: Global, gather: &mut Gather, last: &mut Posting, k: u64)
    requires { AreUpTo gather.old.postings last.old }
    ensures { AreUpTo gather.new.postings last.new }
{
    let term = [
        (k / 256 % 256) as u8,
        (k % 256) as u8,
        97,
        97,
        97,
        97,
        97,
        97,
        97,
        97,
    ];
    let token = k.wrapping_mul(7);
    add_pairs(
        rt,
        alloc,
        gather,
        last,
        ListKind::Stored,
        &term,
        token,
        1,
        k % 3 + 1,
    );
}

// Adds 300 terms.
fn add_terms(rt: &impl Abort, alloc: Global, gather: &mut Gather, last: &mut Posting)
    requires { AreUpTo gather.old.postings last.old }
    ensures { AreUpTo gather.new.postings last.new }
{
    for k in 0..300 {
        add_term(rt, alloc, gather, last, k);
    }
}

#[test]
fn many_postings(rt: HostRuntime) {
    let alloc = rt.alloc();
    let mut last = lowest(alloc);
    let mut gather = Gather::new(alloc, 1, 1);
    add_terms(&rt, alloc, &mut gather, &mut last);
    add_pairs(
        &rt,
        alloc,
        &mut gather,
        &mut last,
        ListKind::Stored,
        b"\xff",
        5,
        0,
        300,
    );
    add_pairs(
        &rt,
        alloc,
        &mut gather,
        &mut last,
        ListKind::Spill,
        b"",
        9,
        0,
        256,
    );
    let host = write(&rt, alloc, Mode::Prefix, ColumnType::Text, gather);
    check_summary(&rt, host, 41032, 11704208124933860585);
}

// A file of one term with so many pairs, or of none.
fn one_term(rt: &impl Abort, alloc: Global, mode: Mode, count: u64) -> MemHost {
    let mut last = lowest(alloc);
    let mut gather = Gather::new(alloc, 1, 1);
    add_pairs(
        rt,
        alloc,
        &mut gather,
        &mut last,
        ListKind::Stored,
        b"\xff",
        5,
        0,
        count,
    );
    write(rt, alloc, mode, ColumnType::Text, gather)
}

// The file of one term with so many pairs has this size and this checksum, and each operator finds them all.
fn check_list(rt: &impl Abort, alloc: Global, mode: Mode, count: u64, size: usize, sum: u64) {
    let mut host = one_term(rt, alloc, mode, count);
    assert!(rt; summary(rt, &host) == (size, sum));
    for op in [Op::Eq, Op::Prefix, Op::Suffix, Op::Contains] {
        check_all(rt, alloc, &mut host, op, b"\xff", count);
    }
    drop(host);
}

#[test]
fn lists_of_many_sizes(rt: HostRuntime) {
    let alloc = rt.alloc();
    check_list(&rt, alloc, Mode::Prefix, 0, 4168, 11729583986541651391);
    check_list(&rt, alloc, Mode::Prefix, 1, 8264, 10737365363398691920);
    check_list(&rt, alloc, Mode::Prefix, 5, 8264, 8237946874393726646);
    check_list(&rt, alloc, Mode::Prefix, 6, 8264, 9728174361116139858);
    check_list(&rt, alloc, Mode::Prefix, 64, 8264, 8956473663715940185);
    check_list(&rt, alloc, Mode::Prefix, 65, 8264, 8956258151361313328);
    check_list(&rt, alloc, Mode::Prefix, 255, 12360, 2066075831248035684);
    check_list(&rt, alloc, Mode::Prefix, 256, 12360, 7532978365727171371);
    check_list(
        &rt,
        alloc,
        Mode::Prefix,
        65026,
        1052744,
        10618873693505411372,
    );
}

#[test]
fn lists_of_many_sizes_of_contains(rt: HostRuntime) {
    let alloc = rt.alloc();
    check_list(&rt, alloc, Mode::Contains, 0, 4168, 786251865788690718);
    check_list(&rt, alloc, Mode::Contains, 1, 8264, 3908223568072021935);
    check_list(&rt, alloc, Mode::Contains, 5, 8264, 1408805079067056661);
    check_list(&rt, alloc, Mode::Contains, 6, 8264, 2899032565789469873);
    check_list(&rt, alloc, Mode::Contains, 64, 8264, 2127331868389270200);
    check_list(&rt, alloc, Mode::Contains, 65, 8264, 2127116356034643343);
    check_list(&rt, alloc, Mode::Contains, 255, 12360, 3492739454906985155);
    check_list(&rt, alloc, Mode::Contains, 256, 12360, 8959641989386120842);
    check_list(
        &rt,
        alloc,
        Mode::Contains,
        65026,
        1052744,
        3137630551818052747,
    );
}

#[test]
fn few_pairs_in_their_entry_and_more_in_the_spill(rt: HostRuntime) {
    let alloc = rt.alloc();
    check_list(&rt, alloc, Mode::Sparse, 0, 4168, 8289663818745281661);
    check_list(&rt, alloc, Mode::Sparse, 1, 8280, 6704524528251387420);
    check_list(&rt, alloc, Mode::Sparse, 5, 8280, 17651804710879700960);
    check_list(&rt, alloc, Mode::Sparse, 6, 4168, 12554434264703523878);
    check_list(&rt, alloc, Mode::Sparse, 64, 4168, 7598890452836481581);
    check_list(&rt, alloc, Mode::Sparse, 65, 4168, 15208193817791668484);
    check_list(&rt, alloc, Mode::Sparse, 255, 8264, 11298535390693735992);
    check_list(&rt, alloc, Mode::Sparse, 256, 8264, 1305908122225017343);
    check_list(
        &rt,
        alloc,
        Mode::Sparse,
        65026,
        1048648,
        11566291518914111488,
    );
}

#[test]
fn four_levels_of_pointers(rt: HostRuntime) {
    let alloc = rt.alloc();
    let host = long_terms(&rt, alloc);
    check_summary(&rt, host, 221256, 6676431636921583305);
}

#[test]
fn numbers_on_both_sides_of_zero(rt: HostRuntime) {
    let alloc = rt.alloc();
    let host = numbers(&rt, alloc, Mode::Prefix);
    check_summary(&rt, host, 8264, 15654618548924623919);
}

#[test]
fn large_numbers_on_both_sides_of_zero(rt: HostRuntime) {
    let alloc = rt.alloc();
    let host = bigints(&rt, alloc, Mode::Prefix);
    check_summary(&rt, host, 8264, 405403911846547172);
}

#[test]
fn shortest_and_longest_terms(rt: HostRuntime) {
    let alloc = rt.alloc();
    check_summary(
        &rt,
        edges(&rt, alloc, Mode::Prefix),
        8264,
        17448122307951287475,
    );
    check_summary(
        &rt,
        edges(&rt, alloc, Mode::Contains),
        8264,
        10618980512624617490,
    );
}

/// Adds so many bigints from 0 on, each with one pair.
fn add_bigints(rt: &impl Abort, alloc: Global, gather: &mut Gather, last: &mut Posting, count: u64)
    requires { AreUpTo gather.old.postings last.old }
    ensures { AreUpTo gather.new.postings last.new }
{
    for k in 0..count {
        let term = (k ^ (1 << 63)).to_be_bytes();
        put(rt, alloc, gather, last, ListKind::Stored, &term, k);
    }
}

// A file of so many bigints.
fn many_numbers(rt: &impl Abort, alloc: Global, mode: Mode, count: u64) -> MemHost {
    let mut last = lowest(alloc);
    let mut gather = Gather::new(alloc, 1, 1);
    add_bigints(rt, alloc, &mut gather, &mut last, count);
    write(rt, alloc, mode, ColumnType::BigInt, gather)
}

// The file of so many bigints has this size and this checksum, and ranges find them.
fn check_numbers(rt: &impl Abort, alloc: Global, mode: Mode, count: u64, size: usize, sum: u64) {
    let host = many_numbers(rt, alloc, mode, count);
    assert!(rt; summary(rt, &host) == (size, sum));
    check_all_numbers(rt, alloc, host, count);
}

#[test]
fn many_numbers_with_a_tree_each(rt: HostRuntime) {
    let alloc = rt.alloc();
    check_numbers(&rt, alloc, Mode::Prefix, 1, 8264, 17588556958059853263);
    check_numbers(&rt, alloc, Mode::Prefix, 5, 8264, 16238862749757234055);
    check_numbers(&rt, alloc, Mode::Prefix, 6, 8264, 6199798962191559008);
    check_numbers(&rt, alloc, Mode::Prefix, 64, 8264, 13934892554827545772);
    check_numbers(&rt, alloc, Mode::Prefix, 65, 8264, 7765569782376301751);
    check_numbers(&rt, alloc, Mode::Prefix, 255, 20552, 11754340747619618998);
    check_numbers(&rt, alloc, Mode::Prefix, 256, 20552, 16647290005474248239);
    check_numbers(
        &rt,
        alloc,
        Mode::Prefix,
        65026,
        3473480,
        4330617867492249659,
    );
}

#[test]
fn many_numbers_with_a_tree_for_64_blocks(rt: HostRuntime) {
    let alloc = rt.alloc();
    check_numbers(&rt, alloc, Mode::Sparse, 1, 8280, 5449647162876506108);
    check_numbers(&rt, alloc, Mode::Sparse, 5, 8280, 13311354071403254302);
    check_numbers(&rt, alloc, Mode::Sparse, 6, 8280, 14398144904312713699);
    check_numbers(&rt, alloc, Mode::Sparse, 64, 8280, 6496509723932953235);
    check_numbers(&rt, alloc, Mode::Sparse, 65, 8280, 91898697844550039);
    check_numbers(&rt, alloc, Mode::Sparse, 255, 20568, 14488191420661845766);
    check_numbers(&rt, alloc, Mode::Sparse, 256, 20568, 11498629644569618660);
    check_numbers(
        &rt,
        alloc,
        Mode::Sparse,
        65026,
        3027144,
        14478786871348280308,
    );
}

#[test]
fn numbers_with_few_keys(rt: HostRuntime) {
    let alloc = rt.alloc();
    check_summary(
        &rt,
        numbers(&rt, alloc, Mode::Sparse),
        8280,
        5708043743796278372,
    );
    check_summary(
        &rt,
        bigints(&rt, alloc, Mode::Sparse),
        8280,
        4669693893326941289,
    );
    check_summary(
        &rt,
        edges(&rt, alloc, Mode::Sparse),
        8280,
        7267109041768868151,
    );
}

// The files of the least and the greatest numbers have these sizes and checksums.
fn check_ends(
    rt: &impl Abort,
    alloc: Global,
    mode: Mode,
    size: usize,
    int_sum: u64,
    bigint_sum: u64,
) {
    check_summary(rt, ends_of_ints(rt, alloc, mode), size, int_sum);
    check_summary(rt, ends_of_bigints(rt, alloc, mode), size, bigint_sum);
}

#[test]
fn least_and_greatest_numbers(rt: HostRuntime) {
    let alloc = rt.alloc();
    check_ends(
        &rt,
        alloc,
        Mode::Prefix,
        8264,
        12206142768018714171,
        4145193847077666964,
    );
    check_ends(
        &rt,
        alloc,
        Mode::Sparse,
        8280,
        10610923396865070735,
        11631482169550813944,
    );
}
