// Merges of sorted streams: each call on its happy path.
ghost use Rattle.std.specs.Prelude.{◌≡◌, length};

use sasi_cells::Partition;
use sasi_merge::{Head, Heads, Merge};
use sasi_types::{Key, Partitioner};
use std::alloc::Global;
use std::process::Abort;

/// The head of a source: a partition with a deletion.
fn head_of(rt: &impl Abort, alloc: Global, bytes: &[u8], deleted: u64) -> Head {
    let key = Key::new(alloc, bytes).expect(rt, "a key");
    let token = Partitioner::Lead8.token(key.bytes());
    Some((token, key, Partition::deletion(alloc, deleted)))
}

/// Two sources, whose heads have these keys and were deleted then.
fn heads_of(rt: &impl Abort, alloc: Global, first: (&[u8], u64), second: (&[u8], u64)) -> Heads
    ensures { length result ≡ 2 }
{
    let mut heads = Heads::new(alloc);
    heads
        .push(head_of(rt, alloc, first.0, first.1))
        .expect(rt, "memory for a head");
    heads
        .push(head_of(rt, alloc, second.0, second.1))
        .expect(rt, "memory for a head");
    heads
}

/// The merge gives this key next, with a partition that was deleted then.
fn check_next(
    rt: &impl Abort,
    alloc: Global,
    merge: &mut Merge,
    heads: &Heads,
    bytes: &[u8],
    deleted: u64,
) {
    let is_it = match merge
        .next(alloc, heads)
        .expect(rt, "memory for a partition")
    {
        Some((key, part)) => key.bytes() == bytes && part.deleted() == deleted,
        None => false,
    };
    assert!(rt; is_it);
}

#[test]
fn least_key_is_given(rt: HostRuntime) {
    let alloc = rt.alloc();
    let heads = heads_of(&rt, alloc, (b"k2", 5), (b"k1", 6));
    check_next(&rt, alloc, &mut Merge::new(), &heads, b"k1", 6);
}

/// Of two deletions of a key the merge has the one at 6.
fn check_merged(rt: &impl Abort, alloc: Global, first: u64, second: u64) {
    let heads = heads_of(rt, alloc, (b"k1", first), (b"k1", second));
    check_next(rt, alloc, &mut Merge::new(), &heads, b"k1", 6);
}

#[test]
fn partitions_of_a_key_are_merged(rt: HostRuntime) {
    check_merged(&rt, rt.alloc(), 5, 6);
    check_merged(&rt, rt.alloc(), 6, 5);
}

#[test]
fn merge_goes_on_behind_an_ended_source(rt: HostRuntime) {
    let alloc = rt.alloc();
    let mut heads = heads_of(&rt, alloc, (b"k1", 5), (b"k2", 6));
    let mut merge = Merge::new();
    check_next(&rt, alloc, &mut merge, &heads, b"k1", 5);
    heads.replace(0, None);
    check_next(&rt, alloc, &mut merge, &heads, b"k2", 6);
}

#[test]
fn merge_ends_with_its_sources(rt: HostRuntime) {
    let alloc = rt.alloc();
    let mut heads = Heads::new(alloc);
    heads.push(None).expect(&rt, "memory for a head");
    let end = Merge::new()
        .next(alloc, &heads)
        .expect(&rt, "no memory is needed");
    assert!(rt; end.is_none());
}

/// Whether the source at this position is to move.
fn is_given(merge: &Merge, heads: &Heads, position: usize, key: &Key) -> bool {
    match heads.as_slice().get(position) {
        Some(head) => merge.has_given(key, head),
        None => false,
    }
}

#[test]
fn sources_with_the_key_move(rt: HostRuntime) {
    let alloc = rt.alloc();
    let heads = heads_of(&rt, alloc, (b"k2", 5), (b"k1", 6));
    let mut merge = Merge::new();
    check_next(&rt, alloc, &mut merge, &heads, b"k1", 6);
    let key = Key::new(alloc, b"k1").expect(&rt, "a key");
    let moved = (
        is_given(&merge, &heads, 0, &key),
        is_given(&merge, &heads, 1, &key),
    );
    assert!(rt; moved == (false, true));
}
