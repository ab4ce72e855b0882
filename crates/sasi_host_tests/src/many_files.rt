// Files that are read in turn, also more of them than a host keeps open.
use sasi_filehost::FileHost;
use sasi_host::{FileName, Host};
use std::alloc::Global;
use std::fs;
use std::process::Abort;

/// Makes the data file of this number, with these bytes.
fn make(rt: &impl Abort, host: &mut FileHost, number: u32, bytes: &[u8]) {
    let file = FileName::data(number);
    host.create(file).expect(rt, "a new file");
    host.write(file, 0, bytes).expect(rt, "a write");
}

/// Makes the data files of these numbers, each with its number.
fn make_each(rt: &impl Abort, host: &mut FileHost, first: u32, last: u32) {
    for number in first..=last {
        make(rt, host, number, &number.to_be_bytes());
    }
}

/// The data file of this number has these bytes.
fn check(rt: &impl Abort, host: &mut FileHost, number: u32, wanted: &[u8]) {
    let file = FileName::data(number);
    let mut page = [0; 8];
    let count = host.read(file, 0, &mut page).expect(rt, "a read");
    assert!(rt; &page[..count] == wanted);
    let size = host.size(file).expect(rt, "a size");
    assert!(rt; size == wanted.len() as u64);
}

/// Each of the data files up to this number has its number.
fn check_each(rt: &impl Abort, host: &mut FileHost, last: u32) {
    for number in 1..=last {
        check(rt, host, number, &number.to_be_bytes());
    }
}

/// The host reads so many files in turn, twice, and lists them.
fn check_turns(rt: &impl Abort, alloc: Global, host: &mut FileHost, files: u32) {
    check_each(rt, host, files);
    check_each(rt, host, files);
    let names = host.list(alloc).expect(rt, "a list");
    assert!(rt; names.len() == files as usize);
}

const FOLDER: &str = "sasi_many_files_test";

#[test]
fn more_files_than_stay_open_are_read_in_turn(rt: HostRuntime) {
    let _ = fs::remove_dir_all(&rt, FOLDER);
    let mut host = FileHost::at(rt, FOLDER).expect(&rt, "memory");
    let mut second = FileHost::at(rt, FOLDER).expect(&rt, "memory");
    make_each(&rt, &mut host, 1, 20);
    check_turns(&rt, rt.alloc(), &mut second, 20);
    make_each(&rt, &mut host, 21, 150);
    check_turns(&rt, rt.alloc(), &mut second, 150);
    drop(second);
    drop(host);
    fs::remove_dir_all(&rt, FOLDER).expect(&rt, "a deletion");
}

/// Reads a file, deletes it and makes it again with other bytes, and then so many further ones that it doesn't stay open to be written.
fn make_again(rt: &impl Abort, host: &mut FileHost) {
    check(rt, host, 1, &[0, 0, 0, 1]);
    host.delete(FileName::data(1)).expect(rt, "a deletion");
    make(rt, host, 1, b"again");
    for number in 100..120 {
        make(rt, host, number, b"further");
    }
}

#[test]
fn file_that_was_made_again_is_read_anew(rt: HostRuntime) {
    let _ = fs::remove_dir_all(&rt, "sasi_made_again_test");
    let mut host = FileHost::at(rt, "sasi_made_again_test").expect(&rt, "memory");
    make_each(&rt, &mut host, 1, 20);
    make_again(&rt, &mut host);
    check(&rt, &mut host, 1, b"again");
    drop(host);
    fs::remove_dir_all(&rt, "sasi_made_again_test").expect(&rt, "a deletion");
}
