// Data files: their bytes, and the calls that an observer gets.
use crate::fixture::{DATA, INSERTED, ONE, TOKEN, bodies_of, write_bodies};
use sasi_datawrite::{DataRef, FlushObserver, NoWatch};
use sasi_host::MemHost;
use sasi_types::{Cell, KitFault, Partitioner, Token};
use std::alloc::{AllocError, Global};
use std::process::Abort;

// Key abcdefgh1, with the same cells.
const FIRST: [u8; 48] = [
    0, 9, b'a', b'b', b'c', b'd', b'e', b'f', b'g', b'h', b'1', 0, 0, 0, 0, 0, 0, 0, 0, 0, 2, 0, 0,
    0, 0, 0, 0, 0, 0, 0, 5, 1, 0, 0, 0, 1, 0, 0, 0, 0, 0, 0, 0, 5, 1, 0, 1, b'x',
];

// Key abcdefgh2, of the same token, and a deletion alone.
const SECOND: [u8; 21] = [
    0, 9, b'a', b'b', b'c', b'd', b'e', b'f', b'g', b'h', b'2', 0, 0, 0, 0, 0, 0, 0, 7, 0, 0,
];

// Key b, a deletion at time 3, a tombstone at 4, and the int 7 at 9.
const THIRD: [u8; 41] = [
    0, 1, b'b', 0, 0, 0, 0, 0, 0, 0, 3, 0, 2, 0, 1, 0, 0, 0, 0, 0, 0, 0, 4, 0, 0, 2, 0, 0, 0, 0, 0,
    0, 0, 9, 1, 0, 4, 0, 0, 0, 7,
];

// The data file of these three.
const THREE: [u8; 234] = [
    b'S', b'A', b'S', b'I', b'D', b'A', b'T', b'1', 0, 0, 0, 1, 0, 0, 0, 0, 0, 0, 0, b'0', 0, 9,
    b'a', b'b', b'c', b'd', b'e', b'f', b'g', b'h', b'1', 0, 0, 0, 0, 0, 0, 0, 0, 0, 2, 0, 0, 0, 0,
    0, 0, 0, 0, 0, 5, 1, 0, 0, 0, 1, 0, 0, 0, 0, 0, 0, 0, 5, 1, 0, 1, b'x', 0, 0, 0, 21, 0, 9,
    b'a', b'b', b'c', b'd', b'e', b'f', b'g', b'h', b'2', 0, 0, 0, 0, 0, 0, 0, 7, 0, 0, 0, 0, 0,
    41, 0, 1, b'b', 0, 0, 0, 0, 0, 0, 0, 3, 0, 2, 0, 1, 0, 0, 0, 0, 0, 0, 0, 4, 0, 0, 2, 0, 0, 0,
    0, 0, 0, 0, 9, 1, 0, 4, 0, 0, 0, 7, 0, 0, 0, 3, 0, 0, 0, 0, b'a', b'b', b'c', b'd', b'e', b'f',
    b'g', b'h', 0, 0, 0, 0, 0, 0, 0, 16, b'a', b'b', b'c', b'd', b'e', b'f', b'g', b'h', 0, 0, 0,
    0, 0, 0, 0, b'D', b'b', 0, 0, 0, 0, 0, 0, 0, 0, 0, 0, 0, 0, 0, 0, 93, 0, 0, 0, 0, 0, 0, 0, 138,
    0, 0, 0, 0, 0, 0, 0, 3, 0, 0, 0, 0, 0, 0, 0, 9, 0, 0, 0, 0, 0, 0, 0, 138, b'S', b'A', b'S',
    b'I', b'D', b'E', b'N', b'D',
];

// A call that an observer got: the token and the offset of a partition, the column and the time of a cell, or the end.
type Observed = (u64, u64);

const END: Observed = (u64::MAX, u64::MAX);

// Those of the three.
const CALLS: [Observed; 8] = [
    (0x6162_6364_6566_6768, 16),
    (0, 5),
    (1, 5),
    (0x6162_6364_6566_6768, 68),
    (0x6200_0000_0000_0000, 93),
    (1, 4),
    (2, 9),
    END,
];

// Keeps the calls that it got.
#[derive(Drop)]
struct Recorder {
    calls: Vec<Observed>,
}

impl Recorder {
    fn note(&mut self, call: Observed) -> Result<(), AllocError> {
        self.calls.push(call)?;
        Ok(())
    }
}

impl FlushObserver for Recorder {
    ghost agrees = { λ _ _. Unit {0} };

    ghost lacks = { λ _ _. ⊥ };

    fn start_partition(&mut self, token: Token, place: u64) -> Result<(), KitFault> {
        self.note((token, place))?;
        Ok(())
    }

    fn cell(&mut self, column: u16, cell: &Cell) -> Result<(), KitFault> {
        self.note((u64::from(column), cell.time))?;
        Ok(())
    }

    fn complete(&mut self) -> Result<(), KitFault> {
        self.note(END)?;
        Ok(())
    }
}

/// A data file of these partitions has these bytes, and a reference with their count and the largest timestamp.
fn check_file<O: FlushObserver>(
    rt: &impl Abort,
    alloc: Global,
    watch: &mut O,
    bodies: &[&[u8]],
    greatest: u64,
    bytes: &[u8],
) {
    let mut host = MemHost::new(alloc);
    let copies = bodies_of(rt, alloc, bodies);
    let data = write_bodies(rt, alloc, &mut host, watch, &copies);
    drop(copies);
    let expected = DataRef {
        number: 7,
        partitions: bodies.len() as u64,
        greatest,
    };
    assert!(rt; data == expected);
    assert!(rt; host.bytes(DATA) == Some(bytes));
    drop(host);
}

#[test]
fn one_partition_has_these_bytes(rt: HostRuntime) {
    assert!(rt; Partitioner::Lead8.token(b"k1") == TOKEN);
    check_file(&rt, rt.alloc(), &mut NoWatch, &[&INSERTED], 5, &ONE);
}

#[test]
fn three_partitions_have_these_bytes_and_are_observed(rt: HostRuntime) {
    let alloc = rt.alloc();
    let mut watch = Recorder {
        calls: Vec::new(alloc),
    };
    let bodies: [&[u8]; 3] = [&FIRST, &SECOND, &THIRD];
    check_file(&rt, alloc, &mut watch, &bodies, 9, &THREE);
    watch.complete().expect(&rt, "completed");
    assert!(rt; watch.calls.as_slice() == CALLS.as_slice());
}
