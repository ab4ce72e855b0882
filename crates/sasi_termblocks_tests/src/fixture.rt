// Blocks in a file in memory.
ghost use Rattle.std.specs.Prelude.{◌≡◌, ◌≤◌, length};
ghost use Rattle.sasi_formats.specs.Formats.{Fits};
ghost use Rattle.sasi_termblocks.specs.Entries.{term_entry};

use sasi_host::{FileName, Kind, MemHost};
use sasi_termblocks::{BlockRef, BlockWriter, TermEntry};
use sasi_types::{Pair, PairList, Term, TreeRef};
use std::alloc::Global;
use std::process::Abort;

/// The file that has the blocks.
pub const FILE: FileName = FileName {
    kind: Kind::Index,
    number: 1,
    index: 1,
    part: 1,
};

/// Where its blocks begin.
pub const FIRST: u64 = 4096;

/// The term with this number: the number in two bytes, and letters up to this width.
pub fn nth_term(rt: &impl Abort, alloc: Global, k: usize, width: usize) -> Vec<u8> {
    let mut bytes = vec![in alloc; b'a'; width].expect(rt, "memory for a term");
    if width > 1 {
        bytes[0] = (k / 256 % 256) as u8;
        bytes[1] = (k % 256) as u8;
    }
    bytes
}

/// An entry of a short term, with a tree.
fn entry_of(rt: &impl Abort, bytes: Vec<u8>, list: TreeRef) -> TermEntry
    ensures { Fits term_entry result }
{
    assert!(rt; bytes.len() <= 1024);
    assert!(rt; list.pairs > 0);
    TermEntry {
        term: Term::new(bytes),
        list: Some(list),
        inline: None,
    }
}

/// An entry of a short term, with this pair.
fn inline_entry(rt: &impl Abort, alloc: Global, bytes: Vec<u8>, pair: Pair) -> TermEntry
    ensures { Fits term_entry result }
{
    assert!(rt; bytes.len() <= 1024);
    let mut pairs = PairList::new(alloc);
    pairs.push(pair).expect(rt, "memory for a pair");
    TermEntry {
        term: Term::new(bytes),
        list: None,
        inline: Some(pairs),
    }
}

/// Puts a file of zeros where the blocks begin.
fn put_file(rt: &impl Abort, alloc: Global, host: &mut MemHost) {
    let zeros = vec![in alloc; 0; FIRST as usize].expect(rt, "memory for zeros");
    host.put(FILE, &zeros).expect(rt, "memory for a file");
}

/// Writes the blocks. The writer tells how many there are.
fn finish(rt: &impl Abort, host: &mut MemHost, writer: BlockWriter) -> BlockRef {
    assert!(rt; host.bytes(FILE).expect(rt, "a file").len() >= 4096);
    let count = writer.blocks();
    let made = writer.finish(host, FILE, FIRST).expect(rt, "written");
    assert!(rt; made.blocks == count);
    made
}

/// Writes the block of one entry, of the term `a` with this pair, to a new file.
pub fn write_inline(rt: &impl Abort, alloc: Global, host: &mut MemHost, pair: Pair) -> BlockRef {
    put_file(rt, alloc, host);
    let mut writer = BlockWriter::new(alloc);
    let entry = inline_entry(rt, alloc, nth_term(rt, alloc, 0, 1), pair);
    writer.push(&entry).expect(rt, "memory for an entry");
    finish(rt, host, writer)
}

/// Writes the blocks of so many entries, with terms of this width, to a new file.
pub fn write_blocks(
    rt: &impl Abort,
    alloc: Global,
    host: &mut MemHost,
    count: usize,
    width: usize,
) -> BlockRef {
    put_file(rt, alloc, host);
    let mut writer = BlockWriter::new(alloc);
    for k in 0..count {
        let list = TreeRef {
            root: (k as u64).wrapping_add(16),
            pairs: (k as u64).wrapping_add(1),
        };
        let entry = entry_of(rt, nth_term(rt, alloc, k, width), list);
        writer.push(&entry).expect(rt, "memory for an entry");
    }
    finish(rt, host, writer)
}
