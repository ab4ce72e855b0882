// Data files that are durable before a manifest lists them, or given up.
ghost use Rattle.std.specs.Prelude.{◌≤◌, length, IsTrue};
ghost use Rattle.sasi_host.specs.Memory.{host_view, memory_host};
ghost use Rattle.sasi_host.specs.View.{IsThere, Reaches};

use crate::fixture::{DATA, INSERTED, ONE, partition_of};
use sasi_analyzers::Kit;
use sasi_host::{BytePick, MemHost, NamePick, Pick};
use sasi_manifest::PartNumbers;
use sasi_pairs::{PairFault, PairWriter};
use sasi_types::{IndexList, Partitioner};
use std::alloc::Global;
use std::process::Abort;

// A kit without analyzers.
fn no_kit(alloc: Global) -> Kit {
    Kit::new(Vec::new(alloc))
}

// A writer of a data file without indexes, with one partition.
fn pushed(rt: &impl Abort, alloc: Global, host: &mut MemHost) -> PairWriter
    ensures room { Reaches (host_view (memory_host host.new)) result.writer.file result.writer.offset }
    ensures some { 1 ≤ length result.writer.pairs }
    ensures usable { IsTrue result.writer.usable }
{
    assert!(rt; host.bytes(DATA).is_none());
    let (key, part) = partition_of(rt, alloc, &INSERTED);
    let none = IndexList::new(alloc);
    let mut writer = PairWriter::begin(alloc, host, 7, Partitioner::Lead8, &none).expect(
        rt, "begun",
    );
    writer
        .push(host, &mut no_kit(alloc), &key, &part)
        .expect(rt, "pushed");
    drop((key, part, none));
    writer
}

// Seals a data file of one partition.
fn seal(rt: &impl Abort, alloc: Global, host: &mut MemHost) {
    let writer = pushed(rt, alloc, host);
    writer
        .seal(host, &PartNumbers::new(alloc))
        .expect(rt, "sealed");
}

#[test]
fn crash_leaves_a_sealed_file(rt: HostRuntime) {
    let mut host = MemHost::new(rt.alloc());
    seal(&rt, rt.alloc(), &mut host);
    let pick = Pick {
        names: NamePick::AsSynced,
        bytes: BytePick::Ones,
    };
    let left = host.crash(pick).expect(&rt, "a crash");
    drop(host);
    assert!(rt; left.bytes(DATA) == Some(ONE.as_slice()));
    drop(left);
}

// Creates, fills and seals a data file of one partition. Tells whether each call succeeded.
fn is_sealed(rt: &impl Abort, alloc: Global, host: &mut MemHost) -> bool {
    assert!(rt; host.bytes(DATA).is_none());
    let (key, part) = partition_of(rt, alloc, &INSERTED);
    let none = IndexList::new(alloc);
    let Ok(mut writer) = PairWriter::begin(alloc, host, 7, Partitioner::Lead8, &none) else {
        return false;
    };
    if writer.push(host, &mut no_kit(alloc), &key, &part).is_err() {
        return false;
    }
    drop((key, part, none));
    writer.seal(host, &PartNumbers::new(alloc)).is_ok()
}

// Where the call of this number on the disk fails, the file is sealed only if it takes fewer.
fn check_failing(rt: &impl Abort, alloc: Global, failing: u64) {
    let mut host = MemHost::new(alloc);
    host.fail_disk(vec![in alloc; failing].expect(rt, "memory for a number"));
    assert!(rt; is_sealed(rt, alloc, &mut host) == (failing > CALLS));
    drop(host);
}

// The calls that make a durable data file of one partition: it is created, its header, the partition and the key tree are
// written, its size is asked, the footer is written, and the file and the folder are synced.
const CALLS: u64 = 8;

#[test]
fn file_with_a_failed_call_is_not_sealed(rt: HostRuntime) {
    for failing in 1..=CALLS + 1 {
        check_failing(&rt, rt.alloc(), failing);
    }
}

#[test]
fn file_that_is_given_up_is_gone(rt: HostRuntime) {
    let mut host = MemHost::new(rt.alloc());
    let writer = pushed(&rt, rt.alloc(), &mut host);
    writer.give_up(&mut host).expect(&rt, "deleted");
    assert!(rt; host.bytes(DATA).is_none());
    drop(host);
}

// A writer whose first push failed.
fn failed(rt: &impl Abort, alloc: Global, host: &mut MemHost) -> PairWriter
    ensures { IsThere (host_view (memory_host host.new)) result.writer.file }
{
    host.fail_disk(vec![in alloc; 3].expect(rt, "memory for a call"));
    assert!(rt; host.bytes(DATA).is_none());
    let (key, part) = partition_of(rt, alloc, &INSERTED);
    let none = IndexList::new(alloc);
    let mut writer = PairWriter::begin(alloc, host, 7, Partitioner::Lead8, &none).expect(
        rt, "begun",
    );
    let result = writer.push(host, &mut no_kit(alloc), &key, &part);
    drop((key, part, none));
    assert!(rt; result == Err(PairFault::Failed));
    writer
}

#[test]
fn file_of_a_failed_push_is_given_up(rt: HostRuntime) {
    let mut host = MemHost::new(rt.alloc());
    let writer = failed(&rt, rt.alloc(), &mut host);
    assert!(rt; host.bytes(DATA).is_some());
    writer.give_up(&mut host).expect(&rt, "deleted");
    assert!(rt; host.bytes(DATA).is_none());
    drop(host);
}
