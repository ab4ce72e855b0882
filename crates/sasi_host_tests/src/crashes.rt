// What a write over synced bytes and behind them leaves where it isn't synced, and where it fails.
use sasi_host::{BytePick, FileName, Host, Kind, MemHost, NamePick, Pick};
use std::alloc::Global;
use std::process::Abort;

const FILE: FileName = FileName {
    kind: Kind::Log,
    number: 7,
    index: 0,
    part: 0,
};

/// Writes over the file from this offset on.
fn write(rt: &impl Abort, host: &mut MemHost, at: u64, bytes: &[u8]) {
    assert!(rt; host.bytes(FILE).is_some_and(|old| at <= old.len() as u64));
    host.write(FILE, at, bytes).expect(rt, "a write");
}

/// Makes the file, whose name is synced.
fn create(rt: &impl Abort, host: &mut MemHost) {
    assert!(rt; host.bytes(FILE).is_none());
    host.create(FILE).expect(rt, "a file");
    host.sync_folder().expect(rt, "a sync");
}

/// Syncs the file's bytes.
fn sync(rt: &impl Abort, host: &mut MemHost) {
    assert!(rt; host.bytes(FILE).is_some());
    host.sync(FILE).expect(rt, "a sync");
}

/// A file of four synced bytes, over and behind which others were written.
fn written(rt: &impl Abort, alloc: Global) -> MemHost {
    let mut host = MemHost::new(alloc);
    create(rt, &mut host);
    write(rt, &mut host, 0, b"abcd");
    sync(rt, &mut host);
    write(rt, &mut host, 2, b"WXYZ");
    host
}

fn check_crash(rt: &impl Abort, host: &MemHost, bytes: BytePick, left: &[u8]) {
    let names = NamePick::AsSynced;
    let crashed = host.crash(Pick { names, bytes }).expect(rt, "memory");
    assert!(rt; crashed.bytes(FILE) == Some(left));
    drop(crashed);
}

#[test]
fn crash_leaves_synced_bytes_and_a_pick_of_others(rt: HostRuntime) {
    let host = written(&rt, rt.alloc());
    check_crash(&rt, &host, BytePick::AsNow, b"abWXYZ");
    check_crash(&rt, &host, BytePick::AsSynced, b"abcd");
    check_crash(&rt, &host, BytePick::Zeros, b"ab\0\0\0\0");
    check_crash(&rt, &host, BytePick::Ones, b"ab\xff\xff\xff\xff");
    drop(host);
}

/// A write over the file fails.
fn fail_write(rt: &impl Abort, host: &mut MemHost) {
    assert!(rt; host.bytes(FILE).is_some_and(|old| old.len() == 4));
    assert!(rt; host.write(FILE, 2, b"WXYZ").is_err());
}

#[test]
fn failed_write_changes_nothing(rt: HostRuntime) {
    let mut host = MemHost::new(rt.alloc());
    host.fail_disk(vec![in rt.alloc(); 5].expect(&rt, "memory"));
    create(&rt, &mut host);
    write(&rt, &mut host, 0, b"abcd");
    sync(&rt, &mut host);
    fail_write(&rt, &mut host);
    assert!(rt; host.bytes(FILE) == Some(b"abcd".as_slice()));
    drop(host);
}
