// The lines on standard error.
use sasi_host::{Damage, FileName, FormatRule, Kind, found};
use sasi_message::Message;
use sasi_run::{NumberKind, Status};
use sasi_types::{Class, Partitioner};
use std::alloc::Global;
use std::process::Abort;

/// The message of the status must be this line.
fn check(rt: &impl Abort, alloc: Global, status: Status, line: &str) {
    let printed = format!(in alloc; "{}", Message(status)).expect(rt, "memory");
    assert_eq!(rt; printed.as_str(), line);
}

fn check_damage(rt: &impl Abort, alloc: Global, damage: Damage, line: &str) {
    check(rt, alloc, Status::Damaged(damage), line);
}

const MANIFEST: FileName = FileName {
    kind: Kind::Manifest,
    number: 1,
    index: 0,
    part: 0,
};

const INDEX: FileName = FileName {
    kind: Kind::Index,
    number: 1,
    index: 2,
    part: 3,
};

#[test]
fn damage_is_told_in_one_line(rt: HostRuntime) {
    let cases = [
        (
            found(MANIFEST, 16, FormatRule::Number, b"\x00\xaf"),
            "damaged manifest-1 at 16 rule Number seen 00af",
        ),
        (
            found(INDEX, 20, FormatRule::Short, b"\0\0\0\0\0\0\0\x14"),
            "damaged index-1-2-3 at 20 rule Short seen 0000000000000014",
        ),
        (
            found(MANIFEST, 0, FormatRule::Missing, b""),
            "damaged manifest-1 at 0 rule Missing seen ",
        ),
    ];
    for (damage, line) in cases {
        check_damage(&rt, rt.alloc(), damage, line);
    }
}

#[test]
fn other_faults_have_their_lines(rt: HostRuntime) {
    let cases = [
        (Status::Done, ""),
        (Status::Refused(3), ""),
        (
            Status::Usage,
            "usage: sasi [--partitioner lead8|murmur3] FOLDER SCRIPT",
        ),
        (Status::ScriptFault, "script failed"),
        (Status::FolderFault, "folder failed"),
        (Status::OutputFault, "output failed"),
        (Status::OutOfMemory, "out of memory"),
        (Status::ScriptTooLong, "script too long"),
    ];
    for (status, line) in cases {
        check(&rt, rt.alloc(), status, line);
    }
}

#[test]
fn other_partitioner_is_told(rt: HostRuntime) {
    let status = Status::PartitionerDiffers {
        asked: Partitioner::Murmur3,
        kept: Partitioner::Lead8,
    };
    let line = "partitioner differs: asked murmur3, kept lead8";
    check(&rt, rt.alloc(), status, line);
}

#[test]
fn missing_analyzers_have_their_lines(rt: HostRuntime) {
    let cases = [
        (
            Class::NonTokenizing,
            "no analyzer for org.apache.cassandra.index.sasi.analyzer.NonTokenizingAnalyzer",
        ),
        (
            Class::Standard,
            "no analyzer for org.apache.cassandra.index.sasi.analyzer.StandardAnalyzer",
        ),
    ];
    for (class, line) in cases {
        check(&rt, rt.alloc(), Status::AnalyzerMissing(class), line);
    }
}

#[test]
fn spent_numbers_have_their_lines(rt: HostRuntime) {
    let cases = [
        (NumberKind::Manifest, "no manifest number is left"),
        (NumberKind::Log, "no log number is left"),
        (NumberKind::Data, "no data number is left"),
        (NumberKind::Index, "no index number is left"),
        (NumberKind::Part, "no part number is left"),
        (NumberKind::Record, "record too long"),
    ];
    for (kind, line) in cases {
        check(&rt, rt.alloc(), Status::NumbersSpent(kind), line);
    }
}
