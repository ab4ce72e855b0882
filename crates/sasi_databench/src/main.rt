//! Measures a data file of many partitions in a real folder: writes it, and then scans it or looks up each of its keys. The
//! arguments are the folder, the number of partitions, and write, scan or find. It prints how many partitions were given and
//! how many pages were read.
#![tactic(auto)]

mod content;
mod measured;

use measured::{NUMBER, find_all, scan_all, write_all};
use sasi_bench::{CountingReader, words};
use sasi_dataread::DataFile;
use sasi_datawrite::PairFault;
use sasi_filehost::FileHost;
use sasi_host::{FileName, ReadFault};
use sasi_types::TypeList;
use std::alloc::Global;
use std::process::ExitCode;

// Scans the file or looks up each of its keys, as the last argument asks, and gives how many partitions it got.
fn ask(
    alloc: Global,
    host: &mut FileHost,
    pages: &mut CountingReader,
    opened: &DataFile,
    what: &str,
) -> Result<u64, ReadFault> {
    match what {
        "scan" => scan_all(alloc, host, pages, opened),
        "find" => find_all(alloc, host, pages, opened),
        _ => Ok(0),
    }
}

// Opens the file, and asks it.
fn read(
    alloc: Global,
    host: &mut FileHost,
    pages: &mut CountingReader,
    types: &TypeList,
    what: &str,
) -> Result<u64, ReadFault> {
    let opened = DataFile::open(alloc, host, pages, FileName::data(NUMBER), types)?;
    ask(alloc, host, pages, &opened, what)
}

// Writes the file and reads it: how many partitions are given, and how many pages are read.
fn measure(
    alloc: Global,
    host: &mut FileHost,
    types: &TypeList,
    count: u64,
    what: &str,
) -> Result<(u64, u64), PairFault> {
    write_all(alloc, host, types, count)?;
    let mut pages = CountingReader { pages: 0 };
    let given = read(alloc, host, &mut pages, types, what)?;
    Ok((given, pages.pages))
}

fn run(rt: HostRuntime, folder: &str, count: u64, what: &str) -> Result<(u64, u64), PairFault> {
    let alloc = rt.alloc();
    let types = content::types(alloc)?;
    let mut host = FileHost::at(rt, folder)?;
    measure(alloc, &mut host, &types, count, what)
}

// Does what the arguments say, and gives the status.
fn obey(rt: HostRuntime, words: &[String]) -> u8 {
    let [folder, count, what] = words else {
        return 2;
    };
    let Ok(count) = count.parse::<u64>() else {
        return 2;
    };
    let Ok((given, pages)) = run(rt, folder, count, what) else {
        return 1;
    };
    let _ = println!(rt; "{given} partitions, {pages} pages");
    0
}

fn main(rt: HostRuntime) -> ExitCode {
    let Some(words) = words(&rt) else {
        return ExitCode::from(2);
    };
    ExitCode::from(obey(rt, &words))
}
