// Searches of files whose references can't be those of trees.
use crate::fixture::{FILE, file_of};
use crate::searches::search;
use sasi_host::{Damage, Direct, FormatRule, MemHost, ReadFault, Seen};
use sasi_terms::Op;
use sasi_types::{ColumnType, ListKind, Mode, TreeRef};
use std::alloc::Global;
use std::process::Abort;

// Where the reference of the term's tree stands, in a file of one posting with a term of one byte.
const REFERENCE: usize = 4104;

/// The bytes with another reference there.
fn changed(rt: &impl Abort, alloc: Global, bytes: &[u8], tree: TreeRef) -> Vec<u8> {
    let front = bytes.get(..REFERENCE).expect(rt, "bytes");
    let rest = bytes.get(REFERENCE + 16..).expect(rt, "bytes");
    let mut changed = front.to_vec(alloc).expect(rt, "memory");
    let root = tree.root.to_be_bytes();
    let pairs = tree.pairs.to_be_bytes();
    changed.extend_from_slice(&root).expect(rt, "memory");
    changed.extend_from_slice(&pairs).expect(rt, "memory");
    changed.extend_from_slice(rest).expect(rt, "memory");
    changed
}

/// A file of one posting, with this reference of the term's tree.
fn file_with(rt: &impl Abort, alloc: Global, tree: TreeRef) -> MemHost {
    let mut host = file_of(
        rt,
        alloc,
        Mode::Prefix,
        ColumnType::Text,
        &[(ListKind::Stored, b"x", 5)],
    );
    let bytes = host.bytes(FILE).expect(rt, "a file");
    let bytes = changed(rt, alloc, bytes, tree);
    host.put(FILE, &bytes).expect(rt, "memory");
    host
}

/// The corruption that a search for the term meets at its first pair.
fn damage(rt: &impl Abort, alloc: Global, host: &mut MemHost) -> Option<Damage> {
    let mut found = search(rt, alloc, host, Op::Eq, b"x");
    assert!(rt; host.bytes(FILE).is_some());
    match found.next(host, &mut Direct) {
        Err(ReadFault::Damaged(damage)) => Some(damage),
        _ => None,
    }
}

/// The root is blamed.
fn check_root(rt: &impl Abort, alloc: Global, root: u64, pairs: u64) {
    let mut host = file_with(rt, alloc, TreeRef { root, pairs });
    let found = damage(rt, alloc, &mut host);
    let seen = Seen {
        bytes: root.to_be_bytes(),
        len: 8,
    };
    let wanted = Damage {
        file: FILE,
        at: REFERENCE as u64,
        rule: FormatRule::Place,
        seen,
    };
    assert!(rt; found == Some(wanted));
}

#[test]
fn a_root_outside_the_part_of_the_trees(rt: HostRuntime) {
    for root in [0, 15, 4073, 4096, u64::MAX] {
        check_root(&rt, rt.alloc(), root, 1);
    }
}

#[test]
fn a_root_without_room_for_so_many_pairs(rt: HostRuntime) {
    for pairs in [256, 65026, 1 << 58, u64::MAX] {
        check_root(&rt, rt.alloc(), 16, pairs);
    }
}
