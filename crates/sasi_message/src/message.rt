// The line that the program prints of a status.
use sasi_host::{Damage, Seen};
use sasi_names::NameText;
use sasi_run::{NumberKind, Status};
use sasi_types::{Class, Partitioner};
use std::fmt;

/// The line on standard error, empty where there is none.
#[derive(Clone, Copy)]
pub struct Message(pub Status);

impl fmt::Display for Message {
    fn fmt<W: fmt::Write>(&self, f: &mut fmt::Formatter<W>) -> fmt::Result {
        match self.0 {
            Status::Done | Status::Refused(_) => Ok(()),
            Status::Usage => write!(f, "usage: sasi [--partitioner lead8|murmur3] FOLDER SCRIPT"),
            Status::ScriptFault => write!(f, "script failed"),
            Status::FolderFault => write!(f, "folder failed"),
            Status::OutputFault => write!(f, "output failed"),
            Status::OutOfMemory => write!(f, "out of memory"),
            Status::Damaged(damage) => write_damage(f, damage),
            Status::AnalyzerMissing(class) => write_missing(f, class_name(class)),
            Status::PartitionerDiffers { asked, kept } => {
                write_partitioners(f, partitioner_name(asked), partitioner_name(kept))
            }
            Status::NumbersSpent(kind) => write_spent(f, kind),
            Status::ScriptTooLong => write!(f, "script too long"),
        }
    }
}

fn write_damage<W: fmt::Write>(f: &mut fmt::Formatter<W>, damage: Damage) -> fmt::Result {
    let Damage {
        file,
        at,
        rule,
        seen,
    } = damage;
    let file = NameText(file);
    let seen = SeenText(seen);
    write!(f, "damaged {file} at {at} rule {rule:?} seen {seen}")
}

fn write_missing<W: fmt::Write>(f: &mut fmt::Formatter<W>, class: &str) -> fmt::Result {
    write!(f, "no analyzer for {class}")
}

// The class in full, as a statement names it.
fn class_name(class: Class) -> &'static str {
    match class {
        Class::NonTokenizing => "org.apache.cassandra.index.sasi.analyzer.NonTokenizingAnalyzer",
        Class::Standard => "org.apache.cassandra.index.sasi.analyzer.StandardAnalyzer",
    }
}

fn write_partitioners<W: fmt::Write>(
    f: &mut fmt::Formatter<W>,
    asked: &str,
    kept: &str,
) -> fmt::Result {
    write!(f, "partitioner differs: asked {asked}, kept {kept}")
}

fn partitioner_name(partitioner: Partitioner) -> &'static str {
    match partitioner {
        Partitioner::Lead8 => "lead8",
        Partitioner::Murmur3 => "murmur3",
    }
}

fn write_spent<W: fmt::Write>(f: &mut fmt::Formatter<W>, kind: NumberKind) -> fmt::Result {
    let kind = match kind {
        NumberKind::Manifest => "manifest",
        NumberKind::Log => "log",
        NumberKind::Data => "data",
        NumberKind::Index => "index",
        NumberKind::Part => "part",
        NumberKind::Record => return write!(f, "record too long"),
    };
    write!(f, "no {kind} number is left")
}

// The seen bytes in hexadecimal.
#[derive(Clone, Copy)]
struct SeenText(Seen);

impl fmt::Display for SeenText {
    fn fmt<W: fmt::Write>(&self, f: &mut fmt::Formatter<W>) -> fmt::Result {
        for byte in seen_bytes(&self.0) {
            write!(f, "{byte:02x}")?;
        }
        Ok(())
    }
}

fn seen_bytes(seen: &Seen) -> &[u8] {
    let count = (seen.len as usize).min(seen.bytes.len());
    &seen.bytes[..count]
}
