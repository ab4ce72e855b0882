// Writes a data file, scans it, and looks up each of its keys.
ghost use Rattle.std.specs.Prelude.{◌≡◌, ◌≤◌, IfOk, OnOk, IsTrue, length};
ghost use Rattle.sasi_types.specs.declared.partitioner.Partitioner.TheVariants.{Lead8};
ghost use Rattle.sasi_body.specs.Body.{HasBody};
ghost use Rattle.sasi_datawrite.specs.Writing.{last_pair};

use crate::content::body;
use sasi_bench::CountingReader;
use sasi_body::read_body;
use sasi_cells::Partition;
use sasi_dataread::{DataFile, Walk};
use sasi_datawrite::{DataRef, DataWriter, NoWatch, PairFault};
use sasi_filehost::FileHost;
use sasi_host::ReadFault;
use sasi_types::{Key, Partitioner, Token, TypeList};
use std::alloc::Global;

/// The number of the data file that is measured.
pub const NUMBER: u32 = 1;

// Pushes a partition, and gives its token.
fn push_partition(
    host: &mut FileHost,
    writer: &mut DataWriter,
    last: Token,
    key: &Key,
    part: &Partition,
) -> Result<Token, PairFault>
    requires body { HasBody key.now part.now }
    requires last { (last_pair writer.old.pairs).token ≤ last }
    requires partitioner { writer.old.partitioner ≡ Lead8 }
    requires usable { IsTrue writer.old.usable }
    ensures last { IfOk result (λ token. (last_pair writer.new.pairs).token ≤ token) }
    ensures partitioner { writer.new.partitioner ≡ Lead8 }
    ensures usable { OnOk result (IsTrue writer.new.usable) }
    ensures some { OnOk result (1 ≤ length writer.new.pairs) }
{
    let token = Partitioner::Lead8.token(key.bytes());
    if token < last {
        return Err(PairFault::Failed);
    }
    writer.push(host, &mut NoWatch, key, part)?;
    Ok(token)
}

// Pushes the partition with this number, and gives its token.
fn push(
    alloc: Global,
    host: &mut FileHost,
    writer: &mut DataWriter,
    types: &TypeList,
    last: Token,
    number: u64,
) -> Result<Token, PairFault>
    requires last { (last_pair writer.old.pairs).token ≤ last }
    requires partitioner { writer.old.partitioner ≡ Lead8 }
    requires usable { IsTrue writer.old.usable }
    ensures last { IfOk result (λ token. (last_pair writer.new.pairs).token ≤ token) }
    ensures partitioner { writer.new.partitioner ≡ Lead8 }
    ensures usable { OnOk result (IsTrue writer.new.usable) }
    ensures some { OnOk result (1 ≤ length writer.new.pairs) }
{
    let Ok((key, part)) = read_body(alloc, &body(number), types) else {
        return Err(PairFault::Failed);
    };
    push_partition(host, writer, last, &key, &part)
}

// Pushes so many partitions, and one where none are asked for.
fn push_all(
    alloc: Global,
    host: &mut FileHost,
    writer: &mut DataWriter,
    types: &TypeList,
    count: u64,
) -> Result<(), PairFault>
    requires last { (last_pair writer.old.pairs).token ≤ 0 }
    requires partitioner { writer.old.partitioner ≡ Lead8 }
    requires usable { IsTrue writer.old.usable }
    ensures usable { OnOk result (IsTrue writer.new.usable) }
    ensures some { OnOk result (1 ≤ length writer.new.pairs) }
{
    let mut last = push(alloc, host, writer, types, 0, 0)?;
    for number in 1..count {
        last = push(alloc, host, writer, types, last, number)?;
    }
    Ok(())
}

/// Writes a file of so many partitions, and of one where none are asked for.
pub fn write_all(
    alloc: Global,
    host: &mut FileHost,
    types: &TypeList,
    count: u64,
) -> Result<DataRef, PairFault> {
    let mut writer = DataWriter::begin(alloc, host, NUMBER, Partitioner::Lead8)?;
    push_all(alloc, host, &mut writer, types, count)?;
    Ok(writer.finish(host)?)
}

// Whether a scan gives one partition more.
fn gives_next(
    alloc: Global,
    host: &mut FileHost,
    pages: &mut CountingReader,
    scan: &mut Walk,
) -> Result<bool, ReadFault> {
    Ok(scan.next(alloc, host, pages)?.is_some())
}

// How many partitions a scan gives.
fn count_all(
    alloc: Global,
    host: &mut FileHost,
    pages: &mut CountingReader,
    scan: &mut Walk,
) -> Result<u64, ReadFault> {
    let mut count = 0u64;
    for _turn in 0..u64::MAX {
        if !gives_next(alloc, host, pages, scan)? {
            break;
        }
        count = count.saturating_add(1);
    }
    Ok(count)
}

/// How many partitions a scan gives.
pub fn scan_all(
    alloc: Global,
    host: &mut FileHost,
    pages: &mut CountingReader,
    opened: &DataFile,
) -> Result<u64, ReadFault> {
    let mut scan = opened.walk(alloc)?;
    count_all(alloc, host, pages, &mut scan)
}

// Whether the key with this number is found.
fn finds(
    alloc: Global,
    host: &mut FileHost,
    pages: &mut CountingReader,
    opened: &DataFile,
    number: u64,
) -> Result<bool, ReadFault> {
    let Ok(key) = Key::new(alloc, &number.to_be_bytes()) else {
        return Err(ReadFault::OutOfMemory);
    };
    Ok(opened.find(alloc, host, pages, number, &key)?.is_some())
}

/// How many of the keys are found.
pub fn find_all(
    alloc: Global,
    host: &mut FileHost,
    pages: &mut CountingReader,
    opened: &DataFile,
) -> Result<u64, ReadFault> {
    let mut count = 0u64;
    for number in 0..opened.partitions() {
        if finds(alloc, host, pages, opened, number)? {
            count = count.saturating_add(1);
        }
    }
    Ok(count)
}
