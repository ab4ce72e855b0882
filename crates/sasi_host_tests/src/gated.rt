// A log of records, read by pages: how often the host is read, and what a read that fails leaves.
ghost use Rattle.std.specs.Prelude.{IfOk};
ghost use Rattle.sasi_host.specs.Buffered.{IsBuffered};
ghost use Rattle.sasi_host.specs.Memory.{host_view, memory_host};

use sasi_gated::Gated;
use sasi_host::{FileName, Kind, MemHost, ReadFault};
use std::alloc::Global;
use std::process::Abort;

const LOG: FileName = FileName {
    kind: Kind::Log,
    number: 7,
    index: 0,
    part: 0,
};

const HEADER: [u8; 16] = *b"SASILOG1\0\0\0\x01\0\0\0\x07";

/// A log of so many records of twenty bytes each, gate and length among them.
fn log_of(rt: &impl Abort, alloc: Global, count: usize) -> Vec<u8> {
    let mut bytes = HEADER.as_slice().to_vec(alloc).expect(rt, "memory");
    for _record in 0..count {
        bytes
            .extend_from_slice(&[1, 0, 0, 0, 15])
            .expect(rt, "memory");
        bytes
            .extend_from_slice(b"fifteen letters")
            .expect(rt, "memory");
    }
    bytes
}

/// Opens the log.
fn open(rt: &impl Abort, host: &mut MemHost) -> Gated
    ensures buffered { IsBuffered result.buffered (host_view (memory_host host.new)).files }
{
    assert!(rt; host.bytes(LOG).is_some());
    Gated::open(host, LOG).expect(rt, "a log")
}

/// Whether a record was read.
fn next(rt: &impl Abort, host: &mut MemHost, gated: &mut Gated, out: &mut Vec<u8>) -> bool
    requires buffered { IsBuffered gated.old.buffered (host_view (memory_host host.old)).files }
    ensures buffered { IsBuffered gated.new.buffered (host_view (memory_host host.new)).files }
{
    assert!(rt; gated.is_usable() && host.bytes(gated.file()).is_some());
    match gated.next(host, out) {
        Ok(more) => more,
        Err(ReadFault::Damaged(_)) => false,
        Err(_) => panic!(rt; "the log can't be read"),
    }
}

/// How many records there are in front of the closed gate or the end of the file.
fn count_records(rt: &impl Abort, alloc: Global, host: &mut MemHost) -> u64 {
    let mut gated = open(rt, host);
    let mut out = Vec::new(alloc);
    for record in 0..3000 {
        if !next(rt, host, &mut gated, &mut out) {
            return record;
        }
    }
    3000
}

/// A host whose file is a log of so many records, and these bytes behind them.
fn host_with(rt: &impl Abort, alloc: Global, count: usize, gate: &[u8]) -> MemHost {
    let mut bytes = log_of(rt, alloc, count);
    bytes.extend_from_slice(gate).expect(rt, "memory");
    let mut host = MemHost::new(alloc);
    host.put(LOG, &bytes).expect(rt, "memory");
    host
}

// How many records a log has, what stands behind them, and how often it is read. 204 records fill the first page: what stands behind
// them is on the next one, and so is an end without a gate.
const READS: [(u64, &[u8], u64); 5] = [
    (0, &[0], 1),
    (2000, &[0], 10),
    (203, &[0], 1),
    (204, &[0], 2),
    (204, &[], 2),
];

fn check_reads(rt: &impl Abort, alloc: Global, count: u64, gate: &[u8], reads: u64) {
    let mut host = host_with(rt, alloc, count as usize, gate);
    assert!(rt; count_records(rt, alloc, &mut host) == count);
    assert!(rt; host.reads() == reads);
    drop(host);
}

#[test]
fn each_page_is_read_once(rt: HostRuntime) {
    for (count, gate, reads) in READS {
        check_reads(&rt, rt.alloc(), count, gate, reads);
    }
}

/// The next read of the log fails, and makes it unusable.
fn check_fault(rt: &impl Abort, host: &mut MemHost, gated: &mut Gated, out: &mut Vec<u8>)
    requires buffered { IsBuffered gated.old.buffered (host_view (memory_host host.old)).files }
{
    assert!(rt; gated.is_usable() && host.bytes(gated.file()).is_some());
    assert!(rt; matches!(gated.next(host, out), Err(ReadFault::Failed)));
    assert!(rt; !gated.is_usable());
}

/// A record of 4,096 bytes, of which some are missing.
fn long_record(rt: &impl Abort, alloc: Global) -> Vec<u8> {
    let mut bytes = [1, 0, 0, 16, 0].to_vec(alloc).expect(rt, "memory");
    bytes.resize(4080, b'x').expect(rt, "memory");
    bytes
}

// A record reaches over the end of the first page, and the read of the second fails.
#[test]
fn fault_makes_it_unusable(rt: HostRuntime) {
    let mut host = host_with(&rt, rt.alloc(), 1, &long_record(&rt, rt.alloc()));
    host.fail_disk(vec![in rt.alloc(); 2].expect(&rt, "memory"));
    let mut gated = open(&rt, &mut host);
    let mut out = Vec::new(rt.alloc());
    assert!(rt; next(&rt, &mut host, &mut gated, &mut out));
    assert!(rt; out.as_slice() == b"fifteen letters".as_slice());
    check_fault(&rt, &mut host, &mut gated, &mut out);
    drop(gated);
    drop(host);
}
