// A data file of one partition that is read.
ghost use Rattle.std.specs.Prelude.{◌≡◌, IfOk};
ghost use Rattle.sasi_body.specs.Body.{HasBody};
ghost use Rattle.sasi_data_tests.specs.declared.fixture.TheConstants.{DATA};

use crate::fixture::{DATA, INSERTED, ONE, TOKEN, body_of, host_of, list_of};
use sasi_cells::Partition;
use sasi_dataread::DataFile;
use sasi_host::{Damage, Direct, MemHost, ReadFault};
use sasi_types::{ColumnType, Key, Token};
use std::alloc::Global;
use std::process::Abort;

const TEXTS: [ColumnType; 2] = [ColumnType::Text, ColumnType::Text];

/// Opens the data file of a table of two texts.
pub fn open(rt: &impl Abort, alloc: Global, host: &mut MemHost) -> Result<DataFile, Damage>
    ensures { IfOk result (λ file. file.file ≡ DATA) }
{
    assert!(rt; host.bytes(DATA).is_some());
    match DataFile::open(alloc, host, &mut Direct, DATA, &list_of(rt, alloc, &TEXTS)) {
        Err(ReadFault::Damaged(damage)) => Err(damage),
        data => Ok(data.expect(rt, "opened")),
    }
}

/// Opens a file that isn't damaged.
pub fn open_whole(rt: &impl Abort, alloc: Global, host: &mut MemHost) -> DataFile
    ensures { result.file ≡ DATA }
{
    open(rt, alloc, host).expect(rt, "no damage")
}

/// Whether the file has the key, or the damage.
pub fn find(
    rt: &impl Abort,
    alloc: Global,
    host: &mut MemHost,
    opened: &DataFile,
    token: Token,
    key: &[u8],
) -> Result<bool, Damage>
    requires { opened.now.file ≡ DATA }
{
    let key = Key::new(alloc, key).expect(rt, "a key");
    assert!(rt; host.bytes(DATA).is_some());
    match opened.find(alloc, host, &mut Direct, token, &key) {
        Err(ReadFault::Damaged(damage)) => Err(damage),
        found => Ok(found.expect(rt, "read").is_some()),
    }
}

/// Whether the file on the host has the key, or the damage.
pub fn find_in(
    rt: &impl Abort,
    alloc: Global,
    host: &mut MemHost,
    token: Token,
    key: &[u8],
) -> Result<bool, Damage> {
    let data = open(rt, alloc, host)?;
    find(rt, alloc, host, &data, token, key)
}

/// The key at this offset.
fn key_at(rt: &impl Abort, alloc: Global, host: &mut MemHost, opened: &DataFile, place: u64) -> Key
    requires { opened.now.file ≡ DATA }
{
    assert!(rt; host.bytes(DATA).is_some());
    let key = opened.key_at(alloc, host, &mut Direct, place);
    key.expect(rt, "read")
}

/// The partition at this offset.
pub fn read_at(
    rt: &impl Abort,
    alloc: Global,
    host: &mut MemHost,
    opened: &DataFile,
    place: u64,
) -> (Key, Partition)
    requires { opened.now.file ≡ DATA }
    ensures { HasBody result.0 result.1 }
{
    assert!(rt; host.bytes(DATA).is_some());
    opened
        .at(alloc, host, &mut Direct, place)
        .expect(rt, "read")
}

/// The body of the partition at this offset.
pub fn body_at(
    rt: &impl Abort,
    alloc: Global,
    host: &mut MemHost,
    opened: &DataFile,
    place: u64,
) -> Vec<u8>
    requires { opened.now.file ≡ DATA }
{
    let (key, part) = read_at(rt, alloc, host, opened, place);
    let body = body_of(rt, alloc, &key, &part);
    drop((key, part));
    body
}

/// The key at offset 16 is k1, and the body there is that of the one partition.
fn check_partition(rt: &impl Abort, alloc: Global, host: &mut MemHost, opened: &DataFile)
    requires { opened.now.file ≡ DATA }
{
    let key = key_at(rt, alloc, host, opened, 16);
    assert!(rt; key.bytes() == b"k1".as_slice());
    let body = body_at(rt, alloc, host, opened, 16);
    assert!(rt; body.as_slice() == INSERTED.as_slice());
}

#[test]
fn partition_is_read_at_its_offset(rt: HostRuntime) {
    let mut host = host_of(&rt, rt.alloc(), &ONE);
    let data = open_whole(&rt, rt.alloc(), &mut host);
    assert!(rt; (data.partitions(), data.max_timestamp()) == (1, 5));
    check_partition(&rt, rt.alloc(), &mut host, &data);
    drop(data);
    drop(host);
}

/// Whether the file of one partition has the key.
fn check_find(rt: &impl Abort, alloc: Global, token: Token, key: &[u8], is_there: bool) {
    let mut host = host_of(rt, alloc, &ONE);
    assert!(rt; find_in(rt, alloc, &mut host, token, key) == Ok(is_there));
    drop(host);
}

#[test]
fn key_is_found(rt: HostRuntime) {
    check_find(&rt, rt.alloc(), TOKEN, b"k1", true);
    check_find(&rt, rt.alloc(), TOKEN + 0x1_0000_0000_0000, b"k2", false);
}
