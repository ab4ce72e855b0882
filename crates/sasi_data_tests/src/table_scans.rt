// Scans of a data file and maps in memory together, and look-ups in all of them: each call on its happy path.
ghost use Rattle.sasi_host.specs.Memory.{host_view, memory_host};
ghost use Rattle.sasi_scan.specs.Scanning.{CanScan};

use crate::fixture::{DATA, ONE, host_of, list_of};
use crate::memtables::{filled, key_of, one_row};
use sasi_cells::Partition;
use sasi_host::MemHost;
use sasi_manifest::{ListedFile, PartNumbers};
use sasi_memindex::MapBook;
use sasi_memtable::decorated;
use sasi_scan::{Maps, TableScan, find_key};
use sasi_types::{ColumnType, Key, Partitioner};
use std::alloc::Global;
use std::process::Abort;
use std::slice::from_ref;

const TEXTS: [ColumnType; 2] = [ColumnType::Text, ColumnType::Text];

/// The map 1 has k2 and an older int of k1, the map 2 has k3 alone, and the map 3 has the newest int of k1.
fn book_of(rt: &impl Abort, alloc: Global) -> MapBook {
    let mut book = MapBook::new(alloc);
    book.add(1, filled(rt, alloc)).expect(rt, "memory");
    book.add(2, one_row(rt, alloc, b"k3", 6))
        .expect(rt, "memory");
    book.add(3, one_row(rt, alloc, b"k1", 9))
        .expect(rt, "memory");
    book
}

/// Opens a scan of the data file and of these maps.
fn open(rt: &impl Abort, alloc: Global, host: &mut MemHost, maps: &Maps) -> TableScan
    ensures { CanScan (host_view (memory_host host.new)).files maps.now result }
{
    assert!(rt; host.bytes(DATA).is_some());
    let file = ListedFile {
        number: 7,
        parts: PartNumbers::new(alloc),
    };
    let types = list_of(rt, alloc, &TEXTS);
    TableScan::open(alloc, host, from_ref(&file), &types, maps, None).expect(rt, "opened")
}

/// The partition has so many cells, the last of them written then.
fn check_part(rt: &impl Abort, part: &Partition, cells: usize, time: u64) {
    assert!(rt; (part.cells().len(), part.max_timestamp()) == (cells, time));
}

/// The next partition is that of this key.
fn check_next(
    rt: &impl Abort,
    alloc: Global,
    host: &mut MemHost,
    maps: &Maps,
    scan: &mut TableScan,
    bytes: &[u8],
    cells: usize,
    time: u64,
)
    requires { CanScan (host_view (memory_host host.old)).files maps.now scan.old }
    ensures { CanScan (host_view (memory_host host.new)).files maps.now scan.new }
{
    let next: Option<(Key, Partition)> = scan.next(alloc, host, maps).expect(rt, "read");
    let (key, part) = next.expect(rt, "a partition");
    assert!(rt; key.bytes() == bytes);
    check_part(rt, &part, cells, time);
    drop((key, part));
}

/// A scan gives k1 once, of all parts, with a cell of then as its newest, and after it k2.
fn check_scan(rt: &impl Abort, alloc: Global, host: &mut MemHost, maps: &Maps, time: u64) {
    let mut scan = open(rt, alloc, host, maps);
    check_next(rt, alloc, host, maps, &mut scan, b"k1", 2, time);
    check_next(rt, alloc, host, maps, &mut scan, b"k2", 1, 5);
    assert!(rt; scan.next(alloc, host, maps).expect(rt, "read").is_none());
    drop(scan);
}

/// A scan of all three maps gives k3, too.
fn check_three(rt: &impl Abort, alloc: Global, host: &mut MemHost, maps: &Maps) {
    let mut scan = open(rt, alloc, host, maps);
    check_next(rt, alloc, host, maps, &mut scan, b"k1", 2, 9);
    check_next(rt, alloc, host, maps, &mut scan, b"k2", 1, 5);
    check_next(rt, alloc, host, maps, &mut scan, b"k3", 1, 6);
    assert!(rt; scan.next(alloc, host, maps).expect(rt, "read").is_none());
    drop(scan);
}

#[test]
fn parts_are_merged_in_order(rt: HostRuntime) {
    let mut host = host_of(&rt, rt.alloc(), &ONE);
    let book = book_of(&rt, rt.alloc());
    check_scan(&rt, rt.alloc(), &mut host, &Maps::new(&book, &[1]), 5);
    drop((book, host));
}

#[test]
fn newest_of_three_maps_wins(rt: HostRuntime) {
    let mut host = host_of(&rt, rt.alloc(), &ONE);
    let book = book_of(&rt, rt.alloc());
    check_three(&rt, rt.alloc(), &mut host, &Maps::new(&book, &[1, 2, 3]));
    drop((book, host));
}

#[test]
fn number_without_a_map_is_passed_over(rt: HostRuntime) {
    let mut host = host_of(&rt, rt.alloc(), &ONE);
    let book = book_of(&rt, rt.alloc());
    check_scan(&rt, rt.alloc(), &mut host, &Maps::new(&book, &[1, 8, 3]), 9);
    drop((book, host));
}

/// What the data file and the maps have of a key.
fn find(
    rt: &impl Abort,
    alloc: Global,
    host: &mut MemHost,
    maps: &Maps,
    bytes: &[u8],
) -> Partition {
    assert!(rt; host.bytes(DATA).is_some());
    let file = ListedFile {
        number: 7,
        parts: PartNumbers::new(alloc),
    };
    let types = list_of(rt, alloc, &TEXTS);
    let key = decorated(Partitioner::Lead8, key_of(rt, alloc, bytes));
    let found = find_key(alloc, host, from_ref(&file), &types, maps, &key).expect(rt, "read");
    found.expect(rt, "a partition")
}

/// They have so many cells of the key, the last of them written then.
fn check_found(
    rt: &impl Abort,
    alloc: Global,
    numbers: &[u64],
    bytes: &[u8],
    cells: usize,
    time: u64,
) {
    let mut host = host_of(rt, alloc, &ONE);
    let book = book_of(rt, alloc);
    let part = find(rt, alloc, &mut host, &Maps::new(&book, numbers), bytes);
    check_part(rt, &part, cells, time);
    drop((book, host, part));
}

#[test]
fn key_is_found_in_all_parts(rt: HostRuntime) {
    check_found(&rt, rt.alloc(), &[1], b"k1", 2, 5);
}

#[test]
fn key_is_found_in_three_maps(rt: HostRuntime) {
    check_found(&rt, rt.alloc(), &[1, 2, 3], b"k1", 2, 9);
}

#[test]
fn key_is_found_in_one_of_three_maps(rt: HostRuntime) {
    check_found(&rt, rt.alloc(), &[1, 2, 3], b"k3", 1, 6);
}
