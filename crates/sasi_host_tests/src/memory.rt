// The source and the host in memory: reads, emits, and calls that fail.
use sasi_host::{Failed, FileName, Host, Kind, MemHost, MemSource, Source};
use std::alloc::Global;
use std::process::Abort;

/// A source that gives at most three bytes a read, and whose second and ninth reads fail.
fn source(rt: &impl Abort, alloc: Global) -> MemSource {
    let bytes = b"abcde".as_slice().to_vec(alloc).expect(rt, "memory");
    let failing = vec![in alloc; 2, 9].expect(rt, "memory");
    MemSource::new(bytes, 3, failing)
}

#[test]
fn source_gives_its_bytes_in_parts(rt: HostRuntime) {
    let mut source = source(&rt, rt.alloc());
    let mut buf = [0; 8];
    let expected: [(Result<usize, Failed>, &[u8]); 4] = [
        (Ok(3), b"abc"),
        (Err(Failed), b"abc"),
        (Ok(2), b"dec"),
        (Ok(0), b"dec"),
    ];
    for (count, front) in expected {
        assert!(rt; source.read(&mut buf) == count);
        assert!(rt; &buf[..3] == front);
    }
}

/// A host whose second emit fails, and which stops after three calls.
fn failing_host(rt: &impl Abort, alloc: Global) -> MemHost {
    let mut host = MemHost::new(alloc);
    host.fail_emits(vec![in alloc; 2].expect(rt, "memory"));
    host.stop_after(3);
    host
}

#[test]
fn host_fails_where_it_is_told_to(rt: HostRuntime) {
    let mut host = failing_host(&rt, rt.alloc());
    let expected: [(&[u8], Result<(), Failed>, &[u8]); 4] = [
        (b"a", Ok(()), b"a"),
        (b"b", Err(Failed), b"a"),
        (b"cd", Ok(()), b"acd"),
        (b"e", Err(Failed), b"acd"),
    ];
    for (bytes, result, emitted) in expected {
        assert!(rt; host.emit(bytes) == result);
        assert!(rt; host.emitted() == emitted);
    }
    assert!(rt; host.refused() == 0);
    drop(host);
}

const LOG: FileName = FileName {
    kind: Kind::Log,
    number: 1,
    index: 0,
    part: 0,
};

/// A host with a log of six bytes.
fn host_with_log(rt: &impl Abort, alloc: Global) -> MemHost {
    let mut host = MemHost::new(alloc);
    host.put(LOG, b"abcdef").expect(rt, "memory");
    host
}

#[test]
fn file_has_its_size(rt: HostRuntime) {
    let mut host = host_with_log(&rt, rt.alloc());
    assert!(rt; host.bytes(LOG).is_some());
    assert!(rt; host.size(LOG) == Ok(6));
    drop(host);
}

/// A read at this offset gives so many bytes, and the buffer has these then.
fn check_read(
    rt: &impl Abort,
    host: &mut MemHost,
    at: u64,
    buf: &mut [u8; 4],
    count: usize,
    bytes: &[u8],
) {
    assert!(rt; host.bytes(LOG).is_some());
    assert!(rt; host.read(LOG, at, buf) == Ok(count));
    assert!(rt; &buf[..] == bytes);
}

#[test]
fn files_are_read_from_any_offset(rt: HostRuntime) {
    let mut host = host_with_log(&rt, rt.alloc());
    let mut buf = [0; 4];
    let expected: [(u64, usize, &[u8]); 4] = [
        (1, 4, b"bcde"),
        (4, 2, b"efde"),
        (6, 0, b"efde"),
        (u64::MAX, 0, b"efde"),
    ];
    for (at, count, bytes) in expected {
        check_read(&rt, &mut host, at, &mut buf, count, bytes);
    }
    assert!(rt; host.reads() == 4);
    drop(host);
}
