// Data files in memory.
ghost use Rattle.std.specs.Prelude.{◌≤◌, length};
ghost use Rattle.sasi_body.specs.Body.{HasBody};
ghost use Rattle.sasi_host.specs.Memory.{host_view, memory_host};
ghost use Rattle.sasi_data_tests.specs.Ready.{CanPush};

use sasi_body::{put_body, read_body};
use sasi_cells::Partition;
use sasi_datawrite::{DataRef, DataWriter, FlushObserver};
use sasi_host::{FileName, Kind, MemHost};
use sasi_types::{ColumnType, Key, Partitioner, Token, TypeList};
use std::alloc::Global;
use std::process::Abort;

/// The data file.
pub const DATA: FileName = FileName {
    kind: Kind::Data,
    number: 7,
    index: 0,
    part: 0,
};

/// Key k1, and two cells at time 5: the marker, and the text x in column 1.
pub const INSERTED: [u8; 41] = [
    0, 2, b'k', b'1', 0, 0, 0, 0, 0, 0, 0, 0, 0, 2, 0, 0, 0, 0, 0, 0, 0, 0, 0, 5, 1, 0, 0, 0, 1, 0,
    0, 0, 0, 0, 0, 0, 5, 1, 0, 1, b'x',
];

/// Its token.
pub const TOKEN: Token = 0x6b31_0000_0000_0000;

/// The data file of this partition, whose bytes another writer of the format gave.
pub const ONE: [u8; 125] = [
    b'S', b'A', b'S', b'I', b'D', b'A', b'T', b'1', 0, 0, 0, 1, 0, 0, 0, 0, 0, 0, 0, 41, 0, 2,
    b'k', b'1', 0, 0, 0, 0, 0, 0, 0, 0, 0, 2, 0, 0, 0, 0, 0, 0, 0, 0, 0, 5, 1, 0, 0, 0, 1, 0, 0, 0,
    0, 0, 0, 0, 5, 1, 0, 1, b'x', 0, 0, 0, 1, 0, 0, 0, 0, b'k', b'1', 0, 0, 0, 0, 0, 0, 0, 0, 0, 0,
    0, 0, 0, 16, 0, 0, 0, 0, 0, 0, 0, 61, 0, 0, 0, 0, 0, 0, 0, 1, 0, 0, 0, 0, 0, 0, 0, 5, 0, 0, 0,
    0, 0, 0, 0, 61, b'S', b'A', b'S', b'I', b'D', b'E', b'N', b'D',
];

/// A host with a file of these bytes.
pub fn host_of(rt: &impl Abort, alloc: Global, bytes: &[u8]) -> MemHost {
    let mut host = MemHost::new(alloc);
    host.put(DATA, bytes).expect(rt, "memory for a file");
    host
}

/// A list of these types.
pub fn list_of(rt: &impl Abort, alloc: Global, types: &[ColumnType]) -> TypeList {
    let mut list = TypeList::new(alloc);
    for kind in types {
        list.push(*kind).expect(rt, "memory for a type");
    }
    list
}

/// The bytes, with another one at this offset.
pub fn changed(rt: &impl Abort, alloc: Global, bytes: &[u8], offset: usize, byte: u8) -> Vec<u8> {
    let mut changed = bytes.to_vec(alloc).expect(rt, "memory for bytes");
    *changed.get_mut(offset).expect(rt, "a byte") = byte;
    changed
}

/// A copy of these bodies.
pub fn bodies_of(rt: &impl Abort, alloc: Global, bodies: &[&[u8]]) -> Vec<Vec<u8>> {
    let mut all = Vec::new(alloc);
    for body in bodies {
        let body = body.to_vec(alloc).expect(rt, "memory for a body");
        all.push(body).expect(rt, "memory for a body");
    }
    all
}

/// The partition with this body, in a table of two texts and an int.
pub fn partition_of(rt: &impl Abort, alloc: Global, body: &[u8]) -> (Key, Partition)
    ensures { HasBody result.0 result.1 }
{
    let types = [ColumnType::Text, ColumnType::Text, ColumnType::Int];
    read_body(alloc, body, &list_of(rt, alloc, &types)).expect(rt, "a body")
}

/// The body of a partition.
pub fn body_of(rt: &impl Abort, alloc: Global, key: &Key, part: &Partition) -> Vec<u8>
    requires { HasBody key.now part.now }
{
    let mut body = Vec::new(alloc);
    put_body(&mut body, key, part).expect(rt, "memory for a body");
    body
}

/// Pushes the partition with this body, and gives its token.
fn push<O: FlushObserver>(
    rt: &impl Abort,
    alloc: Global,
    host: &mut MemHost,
    watch: &mut O,
    writer: &mut DataWriter,
    last: Token,
    body: &[u8],
) -> Token
    requires ready { CanPush (host_view (memory_host host.old)) writer.old last }
    ensures ready { CanPush (host_view (memory_host host.new)) writer.new result }
    ensures some { 1 ≤ length writer.new.pairs }
{
    let (key, part) = partition_of(rt, alloc, body);
    let token = Partitioner::Lead8.token(key.bytes());
    assert!(rt; last <= token, "tokens rise");
    writer.push(host, watch, &key, &part).expect(rt, "pushed");
    drop((key, part));
    token
}

/// Writes the data file of the partitions with these bodies.
pub fn write_bodies<O: FlushObserver>(
    rt: &impl Abort,
    alloc: Global,
    host: &mut MemHost,
    watch: &mut O,
    bodies: &[Vec<u8>],
) -> DataRef {
    assert!(rt; host.bytes(DATA).is_none());
    let mut writer = DataWriter::begin(alloc, host, 7, Partitioner::Lead8).expect(rt, "begun");
    let (first, others) = bodies.split_first().expect(rt, "a partition");
    let mut last = push(rt, alloc, host, watch, &mut writer, 0, first);
    for body in others {
        last = push(rt, alloc, host, watch, &mut writer, last, body);
    }
    writer.finish(host).expect(rt, "finished")
}
