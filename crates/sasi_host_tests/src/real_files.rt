// Real folders: how they are opened and read, and what a later host reads of them.
use sasi_filehost::{FileHost, FileSource, fill_at, open_folder};
use sasi_host::{FileName, Host, HostFault, Kind, Source};
use std::alloc::{Allocator, Global};
use std::cell::Cell;
use std::fs::{Metadata, OpenFile, OpenOptions};
use std::io::{Read, Seek, SeekFrom, Write};
use std::os::unix::fs::FileExt;
use std::process::Abort;
use std::rt::Files;
use std::{fs, io};

/// The error of a call that no test needs.
fn unsupported() -> io::Error {
    io::ErrorKind::Unsupported.into()
}

/// A file whose reads give at most three bytes, and of which every other one is interrupted.
#[derive(Drop)]
struct CutShort<'a> {
    bytes: &'a [u8],
    reads: &'a Cell<u64>,
}

impl FileExt for CutShort<'_> {
    fn read_at(&self, buf: &mut [u8], offset: u64) -> io::Result<usize> {
        self.reads.set(self.reads.get().saturating_add(1));
        if self.reads.get() % 2 == 1 {
            return Err(io::ErrorKind::Interrupted.into());
        }
        let at = (offset as usize).min(self.bytes.len());
        let rest = &self.bytes[at..];
        let count = rest.len().min(buf.len()).min(3);
        buf[..count].copy_from_slice(&rest[..count]);
        Ok(count)
    }

    fn write_at(&self, _buf: &[u8], _offset: u64) -> io::Result<usize> {
        Err(unsupported())
    }
}

/// Reads from an offset on into eight bytes: what is read, and by how many calls.
fn check_read(rt: &impl Abort, at: u64, wanted: &[u8], reads: u64) {
    let made = Cell::new(0);
    let file = CutShort {
        bytes: b"0123456789",
        reads: &made,
    };
    let mut buf = [0; 8];
    let count = fill_at(&file, at, &mut buf).expect(rt, "a read");
    assert!(rt; &buf[..count] == wanted && made.get() == reads);
}

#[test]
fn read_that_is_cut_short_goes_on(rt: HostRuntime) {
    check_read(&rt, 0, b"01234567", 6);
    check_read(&rt, 4, b"456789", 6);
    check_read(&rt, 10, b"", 2);
}

/// A folder that notes the calls on it as digits, in their order: 1 makes it, 2 opens its parent, 3 syncs that, 4 opens the folder.
#[derive(Drop)]
struct FakeFolder<'a> {
    is_there: bool,
    syncs: bool,
    calls: &'a Cell<u64>,
}

/// An open file of it.
#[derive(Drop)]
struct FakeFile<'a> {
    syncs: bool,
    calls: &'a Cell<u64>,
}

fn note(calls: &Cell<u64>, call: u64) {
    calls.set(calls.get().saturating_mul(10).saturating_add(call));
}

impl<'a> Files for FakeFolder<'a> {
    type File = FakeFile<'a>;

    type Dir = io::Empty;

    fn open_file(&self, _how: &OpenOptions, path: &str) -> io::Result<FakeFile<'a>> {
        note(self.calls, if path == "folder/.." { 2 } else { 4 });
        Ok(FakeFile {
            syncs: self.syncs,
            calls: self.calls,
        })
    }

    fn open_dir(&self, _path: &str) -> io::Result<io::Empty> {
        Err(unsupported())
    }

    fn metadata(&self, _path: &str) -> io::Result<Metadata> {
        Err(unsupported())
    }

    fn symlink_metadata(&self, _path: &str) -> io::Result<Metadata> {
        Err(unsupported())
    }

    fn copy(&self, _from: &str, _to: &str) -> io::Result<u64> {
        Err(unsupported())
    }

    fn rename(&self, _from: &str, _to: &str) -> io::Result<()> {
        Err(unsupported())
    }

    fn remove_file(&self, _path: &str) -> io::Result<()> {
        Err(unsupported())
    }

    fn create_dir(&self, _path: &str) -> io::Result<()> {
        note(self.calls, 1);
        if self.is_there {
            return Err(io::ErrorKind::AlreadyExists.into());
        }
        Ok(())
    }

    fn remove_dir(&self, _path: &str) -> io::Result<()> {
        Err(unsupported())
    }

    fn remove_dir_all<B: Allocator>(&self, _alloc: B, _path: &str) -> io::Result<()> {
        Err(unsupported())
    }
}

impl OpenFile for FakeFile<'_> {
    fn metadata(&self) -> io::Result<Metadata> {
        Err(unsupported())
    }

    fn set_len(&self, _size: u64) -> io::Result<()> {
        Err(unsupported())
    }

    fn sync_all(&self) -> io::Result<()> {
        note(self.calls, 3);
        if self.syncs {
            Ok(())
        } else {
            Err(unsupported())
        }
    }

    fn sync_data(&self) -> io::Result<()> {
        Err(unsupported())
    }
}

impl Read for FakeFile<'_> {
    fn read(&mut self, _buf: &mut [u8]) -> io::Result<usize> {
        Err(unsupported())
    }
}

impl Write for FakeFile<'_> {
    fn write(&mut self, _buf: &[u8]) -> io::Result<usize> {
        Err(unsupported())
    }

    fn flush(&mut self) -> io::Result<()> {
        Err(unsupported())
    }
}

impl Seek for FakeFile<'_> {
    fn seek(&mut self, _to: SeekFrom) -> io::Result<u64> {
        Err(unsupported())
    }
}

/// Opens a folder that is there or not, whose parent can be synced or not: the calls, and whether it is opened.
fn check_opening(rt: &impl Abort, is_there: bool, syncs: bool, wanted: u64) {
    let calls = Cell::new(0);
    let files = FakeFolder {
        is_there,
        syncs,
        calls: &calls,
    };
    let is_opened = open_folder(&files, "folder/", "folder/..").is_ok();
    assert!(rt; calls.get() == wanted && is_opened == syncs);
}

#[test]
fn each_opening_syncs_the_parent(rt: HostRuntime) {
    check_opening(&rt, false, true, 1234);
    check_opening(&rt, true, true, 1234);
    check_opening(&rt, false, false, 123);
    check_opening(&rt, true, false, 123);
}

const FOLDER: &str = "sasi_real_files_test";

const LOG: FileName = FileName {
    kind: Kind::Log,
    number: 1,
    index: 0,
    part: 0,
};

const DATA: FileName = FileName {
    kind: Kind::Data,
    number: 2,
    index: 0,
    part: 0,
};

/// Fills the bytes so that no two pages begin alike.
fn fill(bytes: &mut [u8]) {
    for (at, byte) in bytes.iter_mut().enumerate() {
        *byte = (at % 251) as u8;
    }
}

/// Writes the file in two parts, of which the second goes over the end of the first.
fn write_data(rt: &impl Abort, host: &mut FileHost, bytes: &[u8; 6000]) {
    host.create(DATA).expect(rt, "a new file");
    host.write(DATA, 0, &bytes[..4000]).expect(rt, "a write");
    host.write(DATA, 3000, &bytes[3000..]).expect(rt, "a write");
    host.sync(DATA).expect(rt, "a sync");
    host.create(LOG).expect(rt, "a new file");
    host.sync_folder().expect(rt, "a sync of the names");
}

/// The page of the data file at this offset has these bytes.
fn check_page(rt: &impl Abort, host: &mut FileHost, at: u64, wanted: &[u8]) {
    let mut page = [0; 4096];
    let count = host.read(DATA, at, &mut page).expect(rt, "a read");
    assert!(rt; &page[..count] == wanted);
    assert!(rt; page[count..] == [0; 4096][count..]);
}

/// The host lists both files, and no foreign one.
fn check_names(rt: &impl Abort, alloc: Global, host: &mut FileHost) {
    let names = host.list(alloc).expect(rt, "a list");
    assert!(rt; names.as_slice() == [LOG, DATA].as_slice());
}

/// The host reads the data file's bytes, a page at a time and from an offset on.
fn check_data(rt: &impl Abort, host: &mut FileHost, bytes: &[u8; 6000]) {
    check_page(rt, host, 0, &bytes[..4096]);
    check_page(rt, host, 4096, &bytes[4096..]);
    check_page(rt, host, 5999, &bytes[5999..]);
    assert!(rt; host.size(DATA).expect(rt, "a size") == 6000);
}

/// After its deletion the data file can't be read, and once it is made again it is empty.
fn check_deletion(rt: &impl Abort, host: &mut FileHost) {
    host.delete(DATA).expect(rt, "a deletion");
    assert!(rt; host.read(DATA, 0, &mut [0; 8]).is_err());
    host.create(DATA).expect(rt, "the name once more");
    assert!(rt; host.size(DATA).expect(rt, "a size") == 0);
}

#[test]
fn second_host_reads_what_was_written(rt: HostRuntime) {
    let _ = fs::remove_dir_all(&rt, FOLDER);
    let mut bytes = [0; 6000];
    fill(&mut bytes);
    let mut host = FileHost::at(rt, FOLDER).expect(&rt, "memory");
    write_data(&rt, &mut host, &bytes);
    fs::write(&rt, "sasi_real_files_test/other", b"foreign".as_slice()).expect(&rt, "a file");
    let mut second = FileHost::at(rt, FOLDER).expect(&rt, "memory");
    check_names(&rt, rt.alloc(), &mut second);
    check_data(&rt, &mut second, &bytes);
    check_deletion(&rt, &mut second);
    drop(second);
    drop(host);
    fs::remove_dir_all(&rt, FOLDER).expect(&rt, "a deletion");
}

/// Each call of a host fails.
fn check_failed(rt: &impl Abort, alloc: Global, host: &mut FileHost) {
    let mut page = [0; 8];
    assert!(rt; matches!(host.list(alloc), Err(HostFault::Failed)));
    assert!(rt; host.size(DATA).is_err());
    assert!(rt; host.read(DATA, 0, &mut page).is_err() && host.write(DATA, 0, b"x").is_err());
    assert!(rt; host.create(LOG).is_err() && host.delete(DATA).is_err());
    assert!(rt; host.sync(DATA).is_err() && host.sync_folder().is_err());
    assert!(rt; host.emit(b"x").is_err());
}

/// What another host reads of the folder after the failed sync is the file that was made.
fn check_second(rt: &impl Abort, host: &mut FileHost) {
    assert!(rt; host.size(DATA).expect(rt, "a size") == 0);
}

#[test]
fn each_call_fails_after_a_failed_sync(rt: HostRuntime) {
    let _ = fs::remove_dir_all(&rt, "sasi_failed_sync_test");
    let mut host = FileHost::at(rt, "sasi_failed_sync_test").expect(&rt, "memory");
    host.create(DATA).expect(&rt, "a new file");
    assert!(rt; host.sync(LOG).is_err());
    check_failed(&rt, rt.alloc(), &mut host);
    let mut second = FileHost::at(rt, "sasi_failed_sync_test").expect(&rt, "memory");
    check_second(&rt, &mut second);
    drop(second);
    drop(host);
    fs::remove_dir_all(&rt, "sasi_failed_sync_test").expect(&rt, "a deletion");
}

#[test]
fn each_call_fails_where_nothing_can_be_opened(rt: HostRuntime) {
    let mut host = FileHost::at(rt, "sasi_filehost_none/folder").expect(&rt, "memory");
    check_failed(&rt, rt.alloc(), &mut host);
}

#[test]
fn script_that_is_not_there_is_not_read(rt: HostRuntime) {
    let mut script = FileSource::at(rt, "sasi_filehost_none").expect(&rt, "memory");
    assert!(rt; script.read(&mut [0; 8]).is_err());
}
