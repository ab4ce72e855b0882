// Trees of many sizes: their bytes, which another writer of the format gave, what is read of them, and damaged ones.
ghost use Rattle.std.specs.Prelude.{◌≡◌};
ghost use Rattle.sasi_host.specs.Buffered.{IsBuffered};
ghost use Rattle.sasi_host.specs.Memory.{host_view, memory_host};
ghost use Rattle.sasi_tokentree.specs.Scans.{IsAtLast};
ghost use Rattle.sasi_data_tests.specs.declared.tree_fixture.TheConstants.{FILE};

use crate::fixture::changed;
use crate::tree_fixture::{FILE, host_of, nth_pair, tree_at, tree_bytes};
use sasi_host::{Damage, Direct, FormatRule, MemHost, ReadFault, Seen};
use sasi_tokentree::{Pair, Tree, TreeRef};
use std::alloc::Global;
use std::process::Abort;

fn has_at(bytes: &[u8], at: usize, part: &[u8]) -> bool {
    at <= bytes.len() && bytes[at..].starts_with(part)
}

fn checksum(bytes: &[u8]) -> u64 {
    let mut sum = 0u64;
    for byte in bytes {
        sum = sum.wrapping_mul(31).wrapping_add(u64::from(*byte));
    }
    sum
}

#[test]
fn two_leaves_lie_below_a_root(rt: HostRuntime) {
    let (bytes, tree) = tree_bytes(&rt, rt.alloc(), 256);
    assert!(rt; (tree.root, bytes.len()) == (4112, 4152));
    let leaf: [u8; 24] = [
        0, 0, 0, 255, 0, 0, 0, 0, 0, 0, 0, 0, 0, 0, 0, 7, 0, 0, 0, 0, 0, 0, 3, 232,
    ];
    assert!(rt; has_at(&bytes, 0, &leaf));
    let last: [u8; 24] = [
        0, 0, 0, 1, 0, 0, 0, 0, 0, 0, 0, 0, 0, 0, 2, 5, 0, 0, 0, 0, 0, 0, 4, 231,
    ];
    assert!(rt; has_at(&bytes, 4088, &last));
    let root: [u8; 40] = [
        1, 0, 0, 2, 0, 0, 0, 0, 0, 0, 0, 0, 0, 0, 0, 7, 0, 0, 0, 0, 0, 0, 0, 0, 0, 0, 0, 0, 0, 0,
        2, 5, 0, 0, 0, 0, 0, 0, 15, 248,
    ];
    assert!(rt; has_at(&bytes, 4112, &root));
}

/// The next pair of a reader.
fn next(rt: &impl Abort, host: &mut MemHost, reader: &mut Tree) -> Option<Pair>
    requires file { reader.old.buffered.file ≡ FILE }
    requires buffered { IsBuffered reader.old.buffered (host_view (memory_host host.old)).files }
    requires at_last { IsAtLast reader.old (host_view (memory_host host.old)).files }
    ensures file { reader.new.buffered.file ≡ FILE }
    ensures buffered { IsBuffered reader.new.buffered (host_view (memory_host host.new)).files }
    ensures at_last { IsAtLast reader.new (host_view (memory_host host.new)).files }
{
    assert!(rt; host.bytes(FILE).is_some());
    reader.next(host, &mut Direct).expect(rt, "read")
}

/// A reader gives the pairs in order, and then none.
fn check_pairs(rt: &impl Abort, host: &mut MemHost, tree: TreeRef, step: u64) {
    let mut reader = Tree::new(FILE, tree);
    for k in 0..tree.pairs {
        assert!(rt; next(rt, host, &mut reader) == Some(nth_pair(k, step)));
    }
    assert!(rt; next(rt, host, &mut reader).is_none());
}

// A tree: its offset, how many pairs it has, and the step of their tokens.
type Shape = (usize, u64, u64);

/// The bytes of the tree are so many, with this checksum.
fn check_bytes(rt: &impl Abort, host: &MemHost, at: usize, size: usize, sum: u64) {
    let written = host.bytes(FILE).expect(rt, "a file");
    let bytes = written.get(at..).expect(rt, "a tree");
    assert!(rt; bytes.len() == size);
    assert!(rt; checksum(bytes) == sum);
}

/// The tree has so many bytes, this root and this checksum, and a scan of it reads so many pages.
fn check_tree(
    rt: &impl Abort,
    alloc: Global,
    (at, count, step): Shape,
    (size, root): (usize, u64),
    sum: u64,
    pages: u64,
) {
    let (mut host, tree) = tree_at(rt, alloc, at, count, step);
    assert!(rt; (tree.root, tree.pairs) == (root, count));
    check_bytes(rt, &host, at, size, sum);
    check_pairs(rt, &mut host, tree, step);
    assert!(rt; host.reads() == pages);
    drop(host);
}

#[test]
fn trees_are_written_and_scanned(rt: HostRuntime) {
    let expected: [(Shape, (usize, u64), u64, u64); 7] = [
        ((0, 0, 2), (0, 0), 0, 0),
        ((0, 1, 2), (24, 0), 770_052_108_647_399_373, 1),
        ((0, 255, 2), (4088, 0), 14_695_913_446_304_080_811, 1),
        ((0, 256, 2), (4152, 4112), 9_674_888_900_881_014_726, 2),
        ((100, 511, 2), (8256, 8300), 10_783_442_596_516_953_135, 3),
        ((0, 300, 0), (4856, 4816), 16_446_355_277_525_647_614, 2),
        (
            (0, 65_026, 2),
            (1_046_616, 1_046_576),
            6_108_995_159_362_092_637,
            255,
        ),
    ];
    for (shape, size, sum, pages) in expected {
        check_tree(&rt, rt.alloc(), shape, size, sum, pages);
    }
}

/// The first pair at or after a token, or the damage.
fn seek(
    rt: &impl Abort,
    host: &mut MemHost,
    tree: TreeRef,
    token: u64,
) -> Result<Option<Pair>, Damage> {
    let mut reader = Tree::new(FILE, tree);
    assert!(rt; host.bytes(FILE).is_some());
    match reader.first(host, &mut Direct, token) {
        Err(ReadFault::Damaged(damage)) => Err(damage),
        found => Ok(found.expect(rt, "read")),
    }
}

/// In a tree of so many pairs, the pair with this index is the first at or after the token.
fn check_seek(
    rt: &impl Abort,
    alloc: Global,
    count: u64,
    step: u64,
    token: u64,
    index: Option<u64>,
) {
    let (mut host, tree) = tree_at(rt, alloc, 0, count, step);
    let pair = index.map(|k| nth_pair(k, step));
    let found = seek(rt, &mut host, tree, token);
    drop(host);
    assert!(rt; found == Ok(pair), "at {token}");
}

#[test]
fn tokens_are_found(rt: HostRuntime) {
    let expected: [(u64, u64, u64, Option<u64>); 23] = [
        (0, 2, 0, None),
        (1, 2, 6, Some(0)),
        (1, 2, 7, Some(0)),
        (1, 2, 8, None),
        (255, 2, 6, Some(0)),
        (255, 2, 264, Some(129)),
        (255, 2, 265, Some(129)),
        (255, 2, 515, Some(254)),
        (255, 2, 516, None),
        (256, 2, 0, Some(0)),
        (256, 2, 8, Some(1)),
        (256, 2, 515, Some(254)),
        (256, 2, 516, Some(255)),
        (256, 2, 517, Some(255)),
        (256, 2, 518, None),
        (600, 0, 7, Some(0)),
        (600, 0, 8, None),
        (65_026, 2, 6, Some(0)),
        (65_026, 2, 65_032, Some(32_513)),
        (65_026, 2, 65_033, Some(32_513)),
        (65_026, 2, 130_056, Some(65_025)),
        (65_026, 2, 130_057, Some(65_025)),
        (65_026, 2, u64::MAX, None),
    ];
    for (count, step, token, index) in expected {
        check_seek(&rt, rt.alloc(), count, step, token, index);
    }
}

fn damage(at: u64, rule: FormatRule, bytes: [u8; 8], len: u8) -> Damage {
    Damage {
        file: FILE,
        at,
        rule,
        seen: Seen { bytes, len },
    }
}

/// A search in a file of these bytes has this damage. Gives how many pages were read.
fn check_damage(
    rt: &impl Abort,
    alloc: Global,
    bytes: &[u8],
    tree: TreeRef,
    damage: Damage,
    case: usize,
) -> u64 {
    let mut host = host_of(rt, alloc, bytes);
    let found = seek(rt, &mut host, tree, 400);
    let reads = host.reads();
    drop(host);
    assert!(rt; found == Err(damage), "case {case}");
    reads
}

/// With this byte changed, the tree of two leaves has this damage.
fn check_changed(rt: &impl Abort, alloc: Global, offset: usize, byte: u8, damage: Damage) {
    let (whole, tree) = tree_bytes(rt, alloc, 256);
    let bytes = changed(rt, alloc, &whole, offset, byte);
    check_damage(rt, alloc, &bytes, tree, damage, offset);
}

// Bytes of the tree that are changed: the offset, the new byte, and the damage that is seen.
const CHANGES: [(usize, u8, u64, FormatRule, [u8; 8], u8); 7] = [
    (
        4112,
        2,
        4112,
        FormatRule::Number,
        [2, 0, 0, 0, 0, 0, 0, 0],
        1,
    ),
    (
        4113,
        1,
        4113,
        FormatRule::Number,
        [1, 0, 0, 0, 0, 0, 0, 0],
        1,
    ),
    (
        4115,
        3,
        4114,
        FormatRule::Number,
        [0, 3, 0, 0, 0, 0, 0, 0],
        2,
    ),
    (
        4119,
        9,
        4116,
        FormatRule::Number,
        [0, 0, 0, 9, 0, 0, 0, 0],
        4,
    ),
    (0, 1, 0, FormatRule::Number, [1, 0, 0, 0, 0, 0, 0, 0], 1),
    (
        4142,
        0,
        4136,
        FormatRule::Order,
        [0, 0, 0, 0, 0, 0, 0, 5],
        8,
    ),
    (31, 200, 40, FormatRule::Order, [0, 0, 0, 0, 0, 0, 0, 11], 8),
];

#[test]
fn damage_is_reported(rt: HostRuntime) {
    for (offset, byte, at, rule, seen, len) in CHANGES {
        check_changed(&rt, rt.alloc(), offset, byte, damage(at, rule, seen, len));
    }
}

/// What a scan of the tree gives behind its first pair: the next one, or the damage.
fn second_pair(rt: &impl Abort, host: &mut MemHost, tree: TreeRef) -> Result<Option<Pair>, Damage> {
    let mut reader = Tree::new(FILE, tree);
    let first = next(rt, host, &mut reader);
    assert!(rt; first == Some(nth_pair(0, 2)));
    assert!(rt; host.bytes(FILE).is_some());
    match reader.next(host, &mut Direct) {
        Err(ReadFault::Damaged(damage)) => Err(damage),
        found => Ok(found.expect(rt, "read")),
    }
}

/// With this byte changed, a scan of the tree of two leaves gives this behind its first pair.
fn check_second(
    rt: &impl Abort,
    alloc: Global,
    offset: usize,
    byte: u8,
    second: Result<Option<Pair>, Damage>,
) {
    let (whole, tree) = tree_bytes(rt, alloc, 256);
    let bytes = changed(rt, alloc, &whole, offset, byte);
    let mut host = host_of(rt, alloc, &bytes);
    let found = second_pair(rt, &mut host, tree);
    drop(host);
    assert!(rt; found == second, "byte {byte}");
}

// The first pair has the token 7 and the offset 1,000, and the second one the token 9 and the offset 1,001.
#[test]
fn pair_that_does_not_rise_is_damage(rt: HostRuntime) {
    let low = damage(24, FormatRule::Order, [0, 0, 0, 0, 0, 0, 0, 6], 8);
    check_second(&rt, rt.alloc(), 31, 6, Err(low));
    let same = Pair {
        token: 7,
        place: 1001,
    };
    check_second(&rt, rt.alloc(), 31, 7, Ok(Some(same)));
    check_second(&rt, rt.alloc(), 31, 9, Ok(Some(nth_pair(1, 2))));
}

#[test]
fn cut_tree_is_too_short(rt: HostRuntime) {
    let (bytes, tree) = tree_bytes(&rt, rt.alloc(), 256);
    let front = bytes.get(..4151).expect(&rt, "a front");
    let short = damage(4151, FormatRule::Short, [0, 0, 0, 0, 0, 0, 16, 55], 8);
    assert!(rt; check_damage(&rt, rt.alloc(), front, tree, short, 4151) == 1);
}

/// The bytes, with this count of entries at an offset.
fn with_count(
    rt: &impl Abort,
    alloc: Global,
    bytes: &[u8],
    at: usize,
    [high, low]: [u8; 2],
) -> Vec<u8> {
    let half = changed(rt, alloc, bytes, at, high);
    changed(rt, alloc, &half, at.saturating_add(1), low)
}

// The number of pairs of a tree, and the offset of its root's count.
type Rooted = (u64, usize);

// One leaf, from 0 to 24.
const LEAF: Rooted = (1, 2);

// A root of two entries above two leaves, from 4,112 to 4,152.
const ROOT: Rooted = (256, 4114);

/// With this count of the root's entries, and cut to this size, the tree has this damage.
fn check_cut(
    rt: &impl Abort,
    alloc: Global,
    (pairs, at): Rooted,
    count: [u8; 2],
    size: usize,
    damage: Damage,
) {
    let (whole, tree) = tree_bytes(rt, alloc, pairs);
    let bytes = with_count(rt, alloc, &whole, at, count);
    let front = bytes.get(..size).expect(rt, "a front");
    check_damage(rt, alloc, front, tree, damage, size);
}

/// The damage of a file that ends here.
fn short_at(size: usize) -> Damage {
    let size = size as u64;
    damage(size, FormatRule::Short, size.to_be_bytes(), 8)
}

#[test]
fn wrong_count_is_told_before_a_missing_entry(rt: HostRuntime) {
    let expected: [(Rooted, [u8; 2], usize); 10] = [
        (ROOT, [0, 0], 4120),
        (ROOT, [0, 0], 4151),
        (ROOT, [1, 0], 4120),
        (ROOT, [1, 0], 4136),
        (ROOT, [1, 0], 4151),
        (ROOT, [0, 3], 4151),
        (LEAF, [0, 0], 8),
        (LEAF, [0, 0], 23),
        (LEAF, [1, 0], 8),
        (LEAF, [0, 2], 23),
    ];
    for (root, count, size) in expected {
        let [high, low] = count;
        let seen = [high, low, 0, 0, 0, 0, 0, 0];
        let wrong = damage(root.1 as u64, FormatRule::Number, seen, 2);
        check_cut(&rt, rt.alloc(), root, count, size, wrong);
    }
}

#[test]
fn right_count_of_missing_entries_is_too_short(rt: HostRuntime) {
    for size in 4120..4152 {
        check_cut(&rt, rt.alloc(), ROOT, [0, 2], size, short_at(size));
    }
    for size in 8..24 {
        check_cut(&rt, rt.alloc(), LEAF, [0, 1], size, short_at(size));
    }
}

#[test]
fn missing_header_is_too_short(rt: HostRuntime) {
    for size in 4116..4120 {
        check_cut(&rt, rt.alloc(), ROOT, [0, 0], size, short_at(size));
    }
    for size in 4..8 {
        check_cut(&rt, rt.alloc(), LEAF, [0, 0], size, short_at(size));
    }
}
