// Blocks of many sizes.
ghost use Rattle.std.specs.Prelude.{◌≡◌};
ghost use Rattle.sasi_host.specs.Buffered.{IsBuffered};
ghost use Rattle.sasi_host.specs.Memory.{host_view, memory_host};
ghost use Rattle.sasi_termblocks_tests.specs.declared.fixture.TheConstants.{FILE};

use crate::fixture::{FILE, nth_term, write_blocks};
use sasi_host::{Direct, MemHost};
use sasi_termblocks::{BlockRef, Blocks, ListForm, TermEntry};
use std::alloc::Global;
use std::process::Abort;

fn checksum(bytes: &[u8]) -> u64 {
    let mut sum = 0u64;
    for byte in bytes {
        sum = sum.wrapping_mul(31).wrapping_add(u64::from(*byte));
    }
    sum
}

// What the file has from its second page on, and the reference, are these.
fn is_written(
    rt: &impl Abort,
    alloc: Global,
    count: usize,
    width: usize,
    blocks: BlockRef,
    sum: u64,
) -> bool {
    let mut host = MemHost::new(alloc);
    let made = write_blocks(rt, alloc, &mut host, count, width);
    let bytes = host.bytes(FILE).expect(rt, "a file");
    bytes.len() >= 4096 && made == blocks && checksum(&bytes[4096..]) == sum
}

#[test]
fn one_block(rt: HostRuntime) {
    let alloc = rt.alloc();
    let none = BlockRef {
        first: 4096,
        blocks: 0,
        levels: 0,
        top: 0,
        terms: 0,
    };
    assert!(rt; is_written(&rt, alloc, 0, 1000, none, 0));
    let one = BlockRef {
        first: 4096,
        blocks: 1,
        levels: 0,
        top: 0,
        terms: 4,
    };
    assert!(rt; is_written(&rt, alloc, 4, 1000, one, 16495381495603242905));
}

#[test]
fn two_and_three_levels(rt: HostRuntime) {
    let alloc = rt.alloc();
    let two = BlockRef {
        first: 4096,
        blocks: 2,
        levels: 1,
        top: 12288,
        terms: 5,
    };
    assert!(rt; is_written(&rt, alloc, 5, 1000, two, 3958599048384862056));
    let three = BlockRef {
        first: 4096,
        blocks: 5,
        levels: 2,
        top: 32768,
        terms: 17,
    };
    assert!(rt; is_written(&rt, alloc, 17, 1000, three, 6901337111494856428));
    let short = BlockRef {
        first: 4096,
        blocks: 3,
        levels: 1,
        top: 16384,
        terms: 300,
    };
    assert!(rt; is_written(&rt, alloc, 300, 10, short, 6810180923525292317));
}

// The next entry's term is this one.
fn has_next(rt: &impl Abort, host: &mut MemHost, scan: &mut Blocks, term: &[u8]) -> bool
    requires file { scan.old.buffered.file ≡ FILE }
    requires buffered { IsBuffered scan.old.buffered (host_view (memory_host host.old)).files }
    ensures file { scan.new.buffered.file ≡ FILE }
    ensures buffered { IsBuffered scan.new.buffered (host_view (memory_host host.new)).files }
{
    assert!(rt; host.bytes(FILE).is_some());
    let found = scan.next(host, &mut Direct).expect(rt, "read");
    is_entry(&found, term)
}

// The first entry at or above `sought` has this term.
fn has_first(
    rt: &impl Abort,
    host: &mut MemHost,
    scan: &mut Blocks,
    sought: &[u8],
    term: &[u8],
) -> bool
    requires file { scan.old.buffered.file ≡ FILE }
    requires buffered { IsBuffered scan.old.buffered (host_view (memory_host host.old)).files }
    ensures file { scan.new.buffered.file ≡ FILE }
    ensures buffered { IsBuffered scan.new.buffered (host_view (memory_host host.new)).files }
{
    assert!(rt; host.bytes(FILE).is_some());
    let found = scan.seek(host, &mut Direct, sought).expect(rt, "read");
    is_entry(&found, term)
}

fn is_entry(found: &Option<TermEntry>, term: &[u8]) -> bool {
    match found {
        None => term.is_empty(),
        Some(entry) => entry.term.bytes() == term,
    }
}

#[test]
fn seeks_and_goes_on(rt: HostRuntime) {
    let alloc = rt.alloc();
    let mut host = MemHost::new(alloc);
    let blocks = write_blocks(&rt, alloc, &mut host, 65, 1000);
    let mut scan = Blocks::new(alloc, FILE, blocks, ListForm::Tree);
    let first = nth_term(&rt, alloc, 0, 1000);
    let fourth = nth_term(&rt, alloc, 3, 1000);
    let fifth = nth_term(&rt, alloc, 4, 1000);
    let last = nth_term(&rt, alloc, 64, 1000);
    assert!(rt; has_next(&rt, &mut host, &mut scan, &first));
    assert!(rt; has_first(&rt, &mut host, &mut scan, &fourth, &fourth));
    assert!(rt; has_next(&rt, &mut host, &mut scan, &fifth));
    assert!(rt; has_first(&rt, &mut host, &mut scan, &[0, 4], &fifth));
    assert!(rt; has_first(&rt, &mut host, &mut scan, &[0, 3, b'b'], &fifth));
    assert!(rt; has_first(&rt, &mut host, &mut scan, &[], &first));
    assert!(rt; has_first(&rt, &mut host, &mut scan, &last, &last));
    assert!(rt; has_next(&rt, &mut host, &mut scan, &[]));
    assert!(rt; has_first(&rt, &mut host, &mut scan, &[0, 65], &[]));
}

#[test]
fn the_bytes_of_one_entry(rt: HostRuntime) {
    let alloc = rt.alloc();
    let mut host = MemHost::new(alloc);
    let blocks = write_blocks(&rt, alloc, &mut host, 1, 1);
    assert!(rt; (blocks.blocks, blocks.levels, blocks.terms) == (1, 0, 1));
    let bytes = host.bytes(FILE).expect(&rt, "a file");
    let block: [u8; 24] = [
        0, 1, 0, 4, 0, 1, b'a', 1, 0, 0, 0, 0, 0, 0, 0, 16, 0, 0, 0, 0, 0, 0, 0, 1,
    ];
    assert!(rt; bytes.len() == 8192 && bytes[4096..].starts_with(&block));
}
