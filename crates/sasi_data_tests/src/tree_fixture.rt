// Trees in a file in memory.
use sasi_host::{FileName, Kind, MemHost};
use sasi_tokentree::{Pair, PairList, TreeRef, is_rising, write};
use std::alloc::Global;
use std::process::Abort;

/// The file that has the tree.
pub const FILE: FileName = FileName {
    kind: Kind::Data,
    number: 1,
    index: 0,
    part: 0,
};

/// The pair with this index, whose tokens rise by this step.
pub fn nth_pair(k: u64, step: u64) -> Pair {
    Pair {
        token: step.wrapping_mul(k).wrapping_add(7),
        place: k.wrapping_add(1000),
    }
}

/// So many pairs.
pub fn pairs_of(rt: &impl Abort, alloc: Global, count: u64, step: u64) -> PairList {
    let mut pairs = PairList::new(alloc);
    for k in 0..count {
        pairs
            .push(nth_pair(k, step))
            .expect(rt, "memory for a pair");
    }
    pairs
}

/// A host with a file of these bytes.
pub fn host_of(rt: &impl Abort, alloc: Global, bytes: &[u8]) -> MemHost {
    let mut host = MemHost::new(alloc);
    host.put(FILE, bytes).expect(rt, "memory for a file");
    host
}

/// A host with a file of so many zeros.
fn host_of_zeros(rt: &impl Abort, alloc: Global, count: usize) -> MemHost {
    let zeros = vec![in alloc; 0; count].expect(rt, "memory for zeros");
    host_of(rt, alloc, &zeros)
}

/// Writes the tree of these pairs at an offset of the file.
fn write_at(
    rt: &impl Abort,
    alloc: Global,
    host: &mut MemHost,
    at: usize,
    pairs: &PairList,
) -> TreeRef {
    assert!(rt; is_rising(pairs), "the pairs rise");
    assert!(rt; host.bytes(FILE).expect(rt, "a file").len() >= at);
    write(alloc, host, FILE, at as u64, pairs).expect(rt, "written")
}

/// A host with a file that has the tree of so many pairs at an offset, and the tree.
pub fn tree_at(
    rt: &impl Abort,
    alloc: Global,
    at: usize,
    count: u64,
    step: u64,
) -> (MemHost, TreeRef) {
    let mut host = host_of_zeros(rt, alloc, at);
    let tree = write_at(rt, alloc, &mut host, at, &pairs_of(rt, alloc, count, step));
    (host, tree)
}

/// The bytes of a file that has the tree of so many pairs at its start, and the tree.
pub fn tree_bytes(rt: &impl Abort, alloc: Global, count: u64) -> (Vec<u8>, TreeRef) {
    let (host, tree) = tree_at(rt, alloc, 0, count, 2);
    let bytes = host.bytes(FILE).expect(rt, "a file");
    (bytes.to_vec(alloc).expect(rt, "memory for bytes"), tree)
}
