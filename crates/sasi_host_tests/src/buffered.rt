// A buffered file: a page that was read is not read again.
ghost use Rattle.std.specs.Prelude.{◌≡◌};
ghost use Rattle.sasi_host.specs.Buffered.{IsBuffered};
ghost use Rattle.sasi_host.specs.Memory.{host_view, memory_host};
ghost use Rattle.sasi_host_tests.specs.declared.buffered.TheConstants.{DATA};

use sasi_host::{BufferedFile, Direct, FileName, FormatRule, Kind, MemHost, ReadFault, found};
use std::alloc::Global;
use std::process::Abort;

const DATA: FileName = FileName {
    kind: Kind::Data,
    number: 1,
    index: 0,
    part: 0,
};

/// Ten thousand bytes, so that no two pages begin alike.
fn bytes(rt: &impl Abort, alloc: Global) -> Vec<u8> {
    let mut bytes = vec![in alloc; 0; 10_000].expect(rt, "memory");
    for (at, byte) in bytes.iter_mut().enumerate() {
        *byte = (at % 251) as u8;
    }
    bytes
}

/// A host with a file of these bytes.
fn host_of(rt: &impl Abort, alloc: Global, bytes: &[u8]) -> MemHost {
    let mut host = MemHost::new(alloc);
    host.put(DATA, bytes).expect(rt, "memory");
    host
}

/// Reads into the buffer, from this offset on.
fn read(
    rt: &impl Abort,
    host: &mut MemHost,
    file: &mut BufferedFile,
    at: u16,
    out: &mut [u8; 5000],
) -> Result<(), ReadFault>
    requires file { file.old.file ≡ DATA }
    requires buffered { IsBuffered file.old (host_view (memory_host host.old)).files }
    ensures file { file.new.file ≡ DATA }
    ensures buffered { IsBuffered file.new (host_view (memory_host host.new)).files }
{
    assert!(rt; host.bytes(DATA).is_some());
    file.read_into(host, &mut Direct, u64::from(at), out)
}

/// From this offset on the file has these bytes, and then so many reads were made.
fn check_read(
    rt: &impl Abort,
    host: &mut MemHost,
    file: &mut BufferedFile,
    at: u16,
    bytes: Option<&[u8]>,
    reads: u64,
)
    requires file { file.old.file ≡ DATA }
    requires buffered { IsBuffered file.old (host_view (memory_host host.old)).files }
    ensures file { file.new.file ≡ DATA }
    ensures buffered { IsBuffered file.new (host_view (memory_host host.new)).files }
{
    let mut out = [0; 5000];
    assert!(rt; read(rt, host, file, at, &mut out) == Ok(()));
    assert!(rt; Some(out.as_slice()) == bytes);
    assert!(rt; host.reads() == reads);
}

#[test]
fn buffered_page_is_not_read_again(rt: HostRuntime) {
    let bytes = bytes(&rt, rt.alloc());
    let mut host = host_of(&rt, rt.alloc(), &bytes);
    let mut file = BufferedFile::new(DATA);
    check_read(&rt, &mut host, &mut file, 0, bytes.get(..5000), 2);
    check_read(&rt, &mut host, &mut file, 5000, bytes.get(5000..), 3);
    let size: u64 = 10_000;
    let short = found(DATA, size, FormatRule::Short, &size.to_be_bytes());
    let past_end = read(&rt, &mut host, &mut file, 9000, &mut [0; 5000]);
    assert!(rt; past_end == Err(ReadFault::Damaged(short)));
    assert!(rt; host.reads() == 3);
    drop(file);
    drop(host);
}
