// Which keys two relations leave.
use crate::fixture::{TOKEN, entries_of, found_of, keys_of_files, parts_of};
use sasi_narrow::candidate_keys;
use sasi_types::Key;
use std::alloc::Global;
use std::process::Abort;

fn line_of(rt: &impl Abort, alloc: Global, keys: &[Key]) -> Vec<u8> {
    let mut line = Vec::new(alloc);
    for key in keys {
        line.extend_from_slice(key.bytes()).expect(rt, "memory");
    }
    line
}

/// With these hits the relations leave these keys, of one byte each. The second relation finds a key in the map, the first `d`.
fn check(
    rt: &impl Abort,
    alloc: Global,
    indexed: (bool, bool),
    found: (&[u8], bool),
    hits: &[(u32, u64, u64)],
    want: &str,
) {
    let first = found_of(rt, alloc, b"d", true);
    let second = found_of(rt, alloc, found.0, found.1);
    let parts = parts_of(rt, alloc, indexed, first, second);
    let keys = keys_of_files(rt, alloc);
    let keys = [keys[0].as_slice(), keys[1].as_slice()];
    let entries = entries_of(rt, alloc, hits);
    let left = candidate_keys(alloc, TOKEN, 2, &parts, &keys, &entries).expect(rt, "memory");
    assert!(rt;
        line_of(rt, alloc, &left).as_slice() == want.as_bytes(),
        "{want}"
    );
}

#[test]
fn hits_of_one_part_meet_those_of_another(rt: HostRuntime) {
    // `a` is a hit of the first relation in a file, and of the second in the map; `d` is one of both there.
    let hits = [(0, 0, 16)];
    check(&rt, rt.alloc(), (true, true), (b"a", true), &hits, "a");
    check(&rt, rt.alloc(), (true, true), (b"d", true), &hits, "d");
    check(&rt, rt.alloc(), (true, true), (b"a", false), &hits, "");
}

#[test]
fn file_without_the_index_has_all_its_keys(rt: HostRuntime) {
    let hits = [(0, 0, 40), (0, 1, 50)];
    check(&rt, rt.alloc(), (true, false), (b"d", true), &hits, "bcd");
    check(&rt, rt.alloc(), (false, false), (b"d", true), &[], "bcd");
    check(&rt, rt.alloc(), (true, true), (b"x", true), &hits, "");
}

#[test]
fn keys_of_one_token_are_told_apart(rt: HostRuntime) {
    let hits = [(0, 0, 16), (1, 0, 40)];
    check(&rt, rt.alloc(), (true, true), (b"x", false), &hits, "");
    let hits = [(0, 0, 16), (0, 0, 40), (1, 0, 16), (1, 0, 40), (1, 1, 50)];
    check(&rt, rt.alloc(), (true, true), (b"x", false), &hits, "ab");
}
