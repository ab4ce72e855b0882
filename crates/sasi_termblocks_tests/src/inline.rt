// Entries that have their pairs themselves, and the rules of the mode SPARSE.

use crate::fixture::{FILE, write_blocks, write_inline};
use sasi_host::{Damage, Direct, FormatRule, MemHost, ReadFault, Seen};
use sasi_sparse::{is_stored, put_inline, superblocks};
use sasi_termblocks::{BlockRef, Blocks, ListForm, TermEntry};
use sasi_types::{Pair, PairList};
use std::alloc::Global;
use std::process::Abort;

const PAIR: Pair = Pair {
    token: 7,
    place: 258,
};

// Where the flags of the first entry stand, in a block of one entry with a term of one byte.
const FLAGS: u64 = 4103;

#[test]
fn terms_of_up_to_five_keys_are_stored(rt: HostRuntime) {
    assert!(rt; is_stored(5) && !is_stored(6));
}

#[test]
fn a_superblock_has_64_blocks(rt: HostRuntime) {
    assert!(rt; superblocks(0) == 0 && superblocks(64) == 1 && superblocks(65) == 2);
}

#[test]
fn the_bytes_of_two_pairs(rt: HostRuntime) {
    let alloc = rt.alloc();
    let mut pairs = PairList::new(alloc);
    pairs.push(PAIR).expect(&rt, "memory");
    pairs
        .push(Pair {
            token: 513,
            place: 1,
        })
        .expect(&rt, "memory");
    let mut out = Vec::new(alloc);
    put_inline(&pairs, &mut out).expect(&rt, "memory");
    let wanted: [u8; 33] = [
        2, 0, 0, 0, 0, 0, 0, 0, 7, 0, 0, 0, 0, 0, 0, 1, 2, 0, 0, 0, 0, 0, 0, 2, 1, 0, 0, 0, 0, 0,
        0, 0, 1,
    ];
    assert!(rt; out.len() == 33 && out.starts_with(&wanted));
}

#[test]
fn the_bytes_of_an_entry_with_a_pair(rt: HostRuntime) {
    let alloc = rt.alloc();
    let mut host = MemHost::new(alloc);
    let blocks = write_inline(&rt, alloc, &mut host, PAIR);
    assert!(rt; (blocks.blocks, blocks.levels, blocks.terms) == (1, 0, 1));
    let bytes = host.bytes(FILE).expect(&rt, "a file");
    let block: [u8; 25] = [
        0, 1, 0, 4, 0, 1, b'a', 5, 1, 0, 0, 0, 0, 0, 0, 0, 7, 0, 0, 0, 0, 0, 0, 1, 2,
    ];
    assert!(rt; bytes.len() == 8192 && bytes[4096..].starts_with(&block));
}

// The first entry has the pair.
fn has_pair(found: &Option<TermEntry>) -> bool {
    let Some(entry) = found else {
        return false;
    };
    let Some(pairs) = &entry.inline else {
        return false;
    };
    entry.list.is_none() && pairs.as_slice() == [PAIR].as_slice()
}

#[test]
fn a_pair_is_read(rt: HostRuntime) {
    let alloc = rt.alloc();
    let mut host = MemHost::new(alloc);
    let blocks = write_inline(&rt, alloc, &mut host, PAIR);
    let mut scan = Blocks::new(alloc, FILE, blocks, ListForm::Inline);
    assert!(rt; host.bytes(FILE).is_some());
    let found = scan.seek(&mut host, &mut Direct, &[]).expect(&rt, "read");
    assert!(rt; has_pair(&found));
}

// The corruption that a scan meets at the first entry, where entries have this form.
fn damage(
    rt: &impl Abort,
    alloc: Global,
    host: &mut MemHost,
    blocks: BlockRef,
    form: ListForm,
) -> Option<Damage> {
    let mut scan = Blocks::new(alloc, FILE, blocks, form);
    assert!(rt; host.bytes(FILE).is_some());
    match scan.next(host, &mut Direct) {
        Err(ReadFault::Damaged(damage)) => Some(damage),
        _ => None,
    }
}

// The flags are blamed, which are these.
fn blames(found: Option<Damage>, flags: u8) -> bool {
    let wanted = Damage {
        file: FILE,
        at: FLAGS,
        rule: FormatRule::Number,
        seen: Seen {
            bytes: [flags, 0, 0, 0, 0, 0, 0, 0],
            len: 1,
        },
    };
    found == Some(wanted)
}

#[test]
fn a_pair_where_a_tree_should_be(rt: HostRuntime) {
    let alloc = rt.alloc();
    let mut host = MemHost::new(alloc);
    let blocks = write_inline(&rt, alloc, &mut host, PAIR);
    assert!(rt; blames(damage(&rt, alloc, &mut host, blocks, ListForm::Tree), 5));
}

#[test]
fn a_tree_where_pairs_should_be(rt: HostRuntime) {
    let alloc = rt.alloc();
    let mut host = MemHost::new(alloc);
    let blocks = write_blocks(&rt, alloc, &mut host, 1, 1);
    assert!(rt; blames(damage(&rt, alloc, &mut host, blocks, ListForm::Inline), 1));
}
