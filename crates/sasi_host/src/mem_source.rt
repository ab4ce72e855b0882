// A source in memory.
ghost use Rattle.std.specs.Prelude.{◌≡◌, ◌<◌, ◌↔◌, false, ℕ, List, length, min, drop, take, IsErr, IfOk, OnErr, Contains};
ghost use Rattle.std.specs.Io.{ReadsAtMost};
ghost use Rattle.std.specs.Io.KnownBytes.{ReadConsumes};
ghost use Rattle.sasi_host.specs.View.{SourceCauses, counted};
ghost use Rattle.sasi_host.specs.Memory.{source_view, count_given, failed_read};

use crate::{Failed, Source};
use std::marker::Model;

/// A script in memory, read in parts of a fixed size. It fails at the reads that are listed, and nowhere else.
#[derive(Drop)]
pub struct MemSource {
    bytes: Vec<u8>,
    at: usize,
    piece: usize,
    failing: Vec<u64>,
    reads: u64,
    faults: u64,
    failed_last: bool,
}

impl Model for MemSource {
    ghost use Rattle.std.specs.Prelude.{◌≤◌, ◌<◌, length, drop};
    ghost use Rattle.sasi_host.specs.Memory.{MemorySource};

    ghost Value = { MemorySource };

    ghost view = { λ a. record { left = drop a.at a.bytes.items; piece = a.piece; failing = a.failing.items; reads = a.reads; faults = a.faults; failed_last = a.failed_last } };

    ghost invariant = { λ a. (a.at ≤ length a.bytes.items) × (0 < a.piece) };
}

impl MemSource {
    /// A source of these bytes that gives at most `piece` of them at a read and fails at the reads listed, counted from 1.
    pub fn new(bytes: Vec<u8>, piece: usize, failing: Vec<u64>) -> MemSource
        requires { 0 < piece }
        ensures { result ≡ record { left = bytes.items; piece = piece; failing = failing.items; reads = 0; faults = 0; failed_last = false } }
    {
        MemSource {
            bytes,
            at: 0,
            piece,
            failing,
            reads: 0,
            faults: 0,
            failed_last: false,
        }
    }
}

// Fills the front of the buffer with the next bytes, as many as there are, fit, and a read gives.
fn give(rest: &[u8], piece: usize, buf: &mut [u8]) -> usize
    ensures count { result ≡ min (min (length rest.now) piece) (length buf.old) }
    ensures front { take result buf.new ≡ take result rest.now }
{
    let count = rest.len().min(piece).min(buf.len());
    buf[..count].copy_from_slice(&rest[..count]);
    count
}

impl Source for MemSource {
    ghost view = { source_view };

    fn read(&mut self, buf: &mut [u8]) -> Result<usize, Failed>
        requires { 0 < length buf.old }
        ensures bound { ReadsAtMost result buf.new }
        ensures bytes { ReadConsumes (source_view self.old).left (source_view self.new).left result buf.new }
        ensures causes { SourceCauses (source_view self.old) (source_view self.new) result }
        ensures listed { IsErr result ↔ Contains self.old.failing (counted self.old.reads) }
        ensures count { IfOk result (λ n. n ≡ count_given self.old (length buf.old)) }
        ensures ok { IfOk result (λ n. self.new ≡ record self.old { left = drop n self.old.left; reads = counted self.old.reads; failed_last = false }) }
        ensures err { OnErr result (self.new ≡ failed_read self.old) }
    {
        self.reads = self.reads.saturating_add(1);
        self.failed_last = self.failing.contains(&self.reads);
        if self.failed_last {
            self.faults = self.faults.saturating_add(1);
            return Err(Failed);
        }
        let count = give(&self.bytes[self.at..], self.piece, buf);
        self.at += count;
        Ok(count)
    }
}
