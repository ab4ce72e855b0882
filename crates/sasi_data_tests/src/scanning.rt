// A data file of many partitions, seven of a token, that is scanned and searched.
ghost use Rattle.std.specs.Prelude.{◌≡◌};
ghost use Rattle.sasi_host.specs.Memory.{host_view, memory_host};
ghost use Rattle.sasi_data_tests.specs.Scan.{IsScanOf};
ghost use Rattle.sasi_data_tests.specs.declared.fixture.TheConstants.{DATA};

use crate::fixture::{DATA, changed, host_of, write_bodies};
use crate::reading::{find, open_whole, read_at};
use sasi_cells::Partition;
use sasi_dataread::{DataFile, PlacedKey, Walk};
use sasi_datawrite::NoWatch;
use sasi_host::{Damage, Direct, FormatRule, MemHost, ReadFault, found};
use sasi_types::{Key, Partitioner, Token};
use std::alloc::Global;
use std::process::Abort;

// How many partitions it has.
const COUNT: u16 = 300;

// The token of a key: seven in a row have the same, which is odd.
fn nth_token(k: u16) -> Token {
    u64::from(k / 7) * 2 + 1
}

// The eight bytes of its token, and a letter.
fn nth_key(k: u16) -> [u8; 9] {
    let mut key = [b'a' + (k % 7) as u8; 9];
    key[..8].copy_from_slice(&nth_token(k).to_be_bytes());
    key
}

// The body of a partition with this key, in which there is a deletion alone.
fn nth_body(k: u16) -> [u8; 21] {
    let mut body = [0; 21];
    body[1] = 9;
    body[2..11].copy_from_slice(&nth_key(k));
    body[11..19].copy_from_slice(&(u64::from(k) + 1).to_be_bytes());
    body
}

fn all_bodies(rt: &impl Abort, alloc: Global) -> Vec<Vec<u8>> {
    let mut bodies = Vec::new(alloc);
    for k in 0..COUNT {
        let body = nth_body(k).as_slice().to_vec(alloc);
        bodies
            .push(body.expect(rt, "memory for a body"))
            .expect(rt, "memory for a body");
    }
    bodies
}

/// A host with the file.
fn written(rt: &impl Abort, alloc: Global) -> MemHost {
    let mut host = MemHost::new(alloc);
    let bodies = all_bodies(rt, alloc);
    write_bodies(rt, alloc, &mut host, &mut NoWatch, &bodies);
    host
}

/// The next partition of a scan.
fn next(
    rt: &impl Abort,
    alloc: Global,
    host: &mut MemHost,
    scan: &mut Walk,
) -> Option<(Token, Key, Partition)>
    requires { IsScanOf (host_view (memory_host host.old)) scan.old DATA }
    ensures { IsScanOf (host_view (memory_host host.new)) scan.new DATA }
{
    assert!(rt; host.bytes(DATA).is_some());
    scan.next(alloc, host, &mut Direct).expect(rt, "read")
}

/// The partition is this one.
fn check_nth(rt: &impl Abort, token: Token, key: &Key, part: &Partition, k: u16) {
    assert!(rt; (token, part.deleted()) == (nth_token(k), u64::from(k) + 1));
    assert!(rt; key.bytes() == nth_key(k).as_slice());
}

/// The next partition of a scan is this one.
fn check_next(rt: &impl Abort, alloc: Global, host: &mut MemHost, scan: &mut Walk, k: u16)
    requires { IsScanOf (host_view (memory_host host.old)) scan.old DATA }
    ensures { IsScanOf (host_view (memory_host host.new)) scan.new DATA }
{
    let (token, key, part) = next(rt, alloc, host, scan).expect(rt, "a partition");
    check_nth(rt, token, &key, &part, k);
    drop((key, part));
}

/// A scan gives the partitions in order, and then none.
fn check_scan(rt: &impl Abort, alloc: Global, host: &mut MemHost, opened: &DataFile)
    requires { opened.now.file ≡ DATA }
{
    let mut scan = opened.walk(alloc).expect(rt, "memory for a scan");
    for k in 0..COUNT {
        check_next(rt, alloc, host, &mut scan, k);
    }
    assert!(rt; next(rt, alloc, host, &mut scan).is_none());
}

#[test]
fn scan_reads_each_page_once(rt: HostRuntime) {
    let alloc = rt.alloc();
    let mut host = written(&rt, alloc);
    let data = open_whole(&rt, alloc, &mut host);
    assert!(rt; (data.partitions(), data.max_timestamp()) == (300, 300));
    // The header and the footer lie on two pages, the partitions on two, and the leaves of the key tree on three.
    assert!(rt; host.reads() == 2);
    check_scan(&rt, alloc, &mut host, &data);
    assert!(rt; host.reads() == 7);
    drop(data);
    drop(host);
}

/// What a scan gives behind its first partition: whether there is one more, or the damage.
fn second(
    rt: &impl Abort,
    alloc: Global,
    host: &mut MemHost,
    scan: &mut Walk,
) -> Result<bool, Damage>
    requires { IsScanOf (host_view (memory_host host.old)) scan.old DATA }
{
    let first = next(rt, alloc, host, scan);
    drop(first);
    assert!(rt; host.bytes(DATA).is_some());
    match scan.next(alloc, host, &mut Direct) {
        Err(ReadFault::Damaged(damage)) => Err(damage),
        read => Ok(read.expect(rt, "read").is_some()),
    }
}

/// The same of a scan, with these tokens, of a file of these bytes.
fn second_in(
    rt: &impl Abort,
    alloc: Global,
    bytes: &[u8],
    tokens: Option<Partitioner>,
) -> Result<bool, Damage> {
    let mut host = host_of(rt, alloc, bytes);
    let data = open_whole(rt, alloc, &mut host);
    let scan = data.walk(alloc).expect(rt, "memory for a scan");
    let mut scan = scan.with_tokens(tokens);
    let read = second(rt, alloc, &mut host, &mut scan);
    drop(data);
    drop(host);
    read
}

/// With this byte changed, a scan of the file gives this behind its first partition.
fn check_second(
    rt: &impl Abort,
    alloc: Global,
    offset: usize,
    byte: u8,
    second: Result<bool, Damage>,
) {
    let host = written(rt, alloc);
    let whole = host.bytes(DATA).expect(rt, "a file");
    let bytes = changed(rt, alloc, whole, offset, byte);
    drop(host);
    assert!(rt; second_in(rt, alloc, &bytes, None) == second, "byte {byte}");
}

// The second partition has the token of the first one. It stands at 41, and the last byte of its key, the letter b, at 55.
#[test]
fn partition_that_does_not_rise_is_damage(rt: HostRuntime) {
    let same = found(DATA, 41, FormatRule::Order, &[0, 0, 0, 21, 0, 9, 0, 0]);
    check_second(&rt, rt.alloc(), 55, b'a', Err(same));
    check_second(&rt, rt.alloc(), 55, b'c', Ok(true));
}

/// A file in which the first pair of the key tree has the token 0, and leads to the letter c. The next one has 1, the token of both keys, and the letter b.
fn falling(rt: &impl Abort, alloc: Global) -> Vec<u8> {
    let host = written(rt, alloc);
    let whole = host.bytes(DATA).expect(rt, "a file");
    let stored = changed(rt, alloc, whole, 7531, 0);
    drop(host);
    changed(rt, alloc, &stored, 30, b'c')
}

// The tokens of the key tree rise, those of the keys are equal, and the keys fall.
#[test]
fn keys_that_fall_are_damage_under_a_partitioner(rt: HostRuntime) {
    let alloc = rt.alloc();
    let bytes = falling(&rt, alloc);
    assert!(rt; second_in(&rt, alloc, &bytes, None) == Ok(true));
    let falls = found(DATA, 41, FormatRule::Order, &[0, 0, 0, 21, 0, 9, 0, 0]);
    assert!(rt; second_in(&rt, alloc, &bytes, Some(Partitioner::Lead8)) == Err(falls));
}

/// Whether the file has the key.
fn check_find(
    rt: &impl Abort,
    alloc: Global,
    host: &mut MemHost,
    opened: &DataFile,
    token: Token,
    key: &[u8],
    is_there: bool,
)
    requires { opened.now.file ≡ DATA }
{
    let found = find(rt, alloc, host, opened, token, key);
    assert!(rt; found == Ok(is_there), "at {token}");
}

/// The key is found, and neither a longer one of its token nor one of the token below.
fn check_key(rt: &impl Abort, alloc: Global, host: &mut MemHost, opened: &DataFile, k: u16)
    requires { opened.now.file ≡ DATA }
{
    let token = nth_token(k);
    let key = nth_key(k);
    let mut longer = [0; 10];
    longer[..9].copy_from_slice(&key);
    let mut lower = key;
    lower[7] = lower[7].wrapping_sub(1);
    check_find(rt, alloc, host, opened, token, &key, true);
    check_find(rt, alloc, host, opened, token, &longer, false);
    check_find(
        rt,
        alloc,
        host,
        opened,
        token.wrapping_sub(1),
        &lower,
        false,
    );
}

#[test]
fn keys_of_shared_tokens_are_found(rt: HostRuntime) {
    let alloc = rt.alloc();
    let mut host = written(&rt, alloc);
    let data = open_whole(&rt, alloc, &mut host);
    for k in 0..COUNT {
        check_key(&rt, alloc, &mut host, &data, k);
    }
    check_find(&rt, alloc, &mut host, &data, u64::MAX, &[0xff; 8], false);
    drop(data);
    drop(host);
}

/// The keys with a token.
fn keys_with(
    rt: &impl Abort,
    alloc: Global,
    host: &mut MemHost,
    opened: &DataFile,
    token: Token,
) -> Vec<PlacedKey>
    requires { opened.now.file ≡ DATA }
{
    assert!(rt; host.bytes(DATA).is_some());
    let keys = opened.keys_with(alloc, host, &mut Direct, token);
    keys.expect(rt, "read")
}

/// The key is this one, and its partition stands at the offset.
fn check_placed(
    rt: &impl Abort,
    alloc: Global,
    host: &mut MemHost,
    opened: &DataFile,
    placed: &PlacedKey,
    k: u16,
)
    requires { opened.now.file ≡ DATA }
{
    assert!(rt; placed.key.bytes() == nth_key(k).as_slice());
    let (key, part) = read_at(rt, alloc, host, opened, placed.place);
    check_nth(rt, nth_token(k), &key, &part, k);
    drop((key, part));
}

/// The keys with a token are as many as these, from this one on.
fn check_keys(
    rt: &impl Abort,
    alloc: Global,
    host: &mut MemHost,
    opened: &DataFile,
    token: Token,
    ks: &[u16],
)
    requires { opened.now.file ≡ DATA }
{
    let keys = keys_with(rt, alloc, host, opened, token);
    assert!(rt; keys.len() == ks.len());
    for (k, placed) in ks.iter().zip(&keys) {
        check_placed(rt, alloc, host, opened, placed, *k);
    }
    drop(keys);
}

#[test]
fn keys_of_a_token_are_read(rt: HostRuntime) {
    let alloc = rt.alloc();
    let mut host = written(&rt, alloc);
    let data = open_whole(&rt, alloc, &mut host);
    check_keys(&rt, alloc, &mut host, &data, 1, &[0, 1, 2, 3, 4, 5, 6]);
    check_keys(
        &rt,
        alloc,
        &mut host,
        &data,
        73,
        &[252, 253, 254, 255, 256, 257, 258],
    );
    check_keys(
        &rt,
        alloc,
        &mut host,
        &data,
        85,
        &[294, 295, 296, 297, 298, 299],
    );
    check_keys(&rt, alloc, &mut host, &data, 0, &[]);
    check_keys(&rt, alloc, &mut host, &data, 2, &[]);
    check_keys(&rt, alloc, &mut host, &data, u64::MAX, &[]);
    drop(data);
    drop(host);
}
