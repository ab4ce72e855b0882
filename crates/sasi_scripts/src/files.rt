// The files of a host in memory: put, cut, changed and printed.
use crate::runs::{run_script, two_numbers};
use sasi_host::{BytePick, FileName, Host, MemHost, NamePick, Pick};
use sasi_names::{NameText, parse_name};
use std::alloc::{AllocError, Global};
use std::io;

// A file and its bytes.
fn file_and_bytes(alloc: Global, line: &str) -> Option<(FileName, Vec<u8>)> {
    let (name, digits) = line.split_once(' ').unwrap_or((line, ""));
    let file = parse_name(name)?;
    let bytes = hex::decode(alloc, digits).ok()?;
    Some((file, bytes))
}

/// Puts a file: `NAME DIGITS`.
pub fn put_file(rt: &impl Print, alloc: Global, line: &str, host: &mut MemHost) -> io::Result<()> {
    let Some((file, bytes)) = file_and_bytes(alloc, line) else {
        return println!(rt; "no name and digits");
    };
    Ok(host.put(file, &bytes)?)
}

// Prints the name and the bytes of a file.
fn print_file(rt: &impl Print, alloc: Global, host: &MemHost, file: FileName) -> io::Result<()> {
    let digits = hex::encode(alloc, host.bytes(file).unwrap_or(&[]))?;
    println!(rt; "{} {digits}", NameText(file))
}

// Prints the name and the bytes of each of these files.
fn print_each(
    rt: &impl Print,
    alloc: Global,
    host: &MemHost,
    names: &[FileName],
) -> io::Result<()> {
    for file in names {
        print_file(rt, alloc, host, *file)?;
    }
    Ok(())
}

/// Prints the name and the bytes of each file.
pub fn print_files(rt: &impl Print, alloc: Global, host: &mut MemHost) -> io::Result<()> {
    let Ok(names) = host.list(alloc) else {
        return println!(rt; "no list");
    };
    print_each(rt, alloc, host, &names)
}

// Prints the name and the length of each of these files.
fn print_each_length(rt: &impl Print, host: &MemHost, names: &[FileName]) -> io::Result<()> {
    for file in names {
        let length = host.bytes(*file).unwrap_or(&[]).len();
        println!(rt; "{} {length}", NameText(*file))?;
    }
    Ok(())
}

/// Prints the name and the length of each file.
pub fn print_lengths(rt: &impl Print, alloc: Global, host: &mut MemHost) -> io::Result<()> {
    let Ok(names) = host.list(alloc) else {
        return println!(rt; "no list");
    };
    print_each_length(rt, host, &names)
}

// A file, two numbers, and a script.
fn file_and_numbers(line: &str) -> Option<(FileName, u64, u64, &str)> {
    let (name, rest) = line.split_once(' ')?;
    let file = parse_name(name)?;
    let (first, second, script) = two_numbers(rest)?;
    Some((file, first, second, script))
}

/// Runs a script over copies of the folder in which a file is cut: `NAME FROM TO SCRIPT`.
pub fn run_cuts(rt: &impl Print, alloc: Global, line: &str, host: &MemHost) -> io::Result<()> {
    let Some((file, from, to, script)) = file_and_numbers(line) else {
        return println!(rt; "no file and numbers");
    };
    for length in from..=to {
        print!(rt; "{length} ")?;
        run_over(rt, alloc, host, file, front(host, file, length), script)?;
    }
    Ok(())
}

// The file's bytes up to this length.
fn front(host: &MemHost, file: FileName, length: u64) -> &[u8] {
    let bytes = host.bytes(file).unwrap_or(&[]);
    bytes.get(..length as usize).unwrap_or(bytes)
}

/// Runs a script over a copy of the folder in which a byte of a file is another one: `NAME OFFSET BYTE SCRIPT`.
pub fn run_changed(rt: &impl Print, alloc: Global, line: &str, host: &MemHost) -> io::Result<()> {
    let Some((file, offset, byte, script)) = file_and_numbers(line) else {
        return println!(rt; "no file and numbers");
    };
    print!(rt; "{offset} ")?;
    let bytes = changed(alloc, host.bytes(file).unwrap_or(&[]), offset, byte)?;
    run_over(rt, alloc, host, file, &bytes, script)
}

// The bytes, with another one at this offset.
fn changed(alloc: Global, bytes: &[u8], offset: u64, byte: u64) -> Result<Vec<u8>, AllocError> {
    let mut changed = bytes.to_vec(alloc)?;
    if let Some(old) = changed.get_mut(offset as usize) {
        *old = (byte % 256) as u8;
    }
    Ok(changed)
}

/// A copy of the folder.
pub fn copy_of(host: &MemHost) -> Result<MemHost, AllocError> {
    host.crash(Pick {
        names: NamePick::AsNow,
        bytes: BytePick::AsNow,
    })
}

// Runs a script over a copy of the folder in which the file has these bytes.
fn run_over(
    rt: &impl Print,
    alloc: Global,
    host: &MemHost,
    file: FileName,
    bytes: &[u8],
    script: &str,
) -> io::Result<()> {
    let mut copy = copy_of(host)?;
    run_with(rt, alloc, &mut copy, file, bytes, script)
}

// Runs a script over a folder in which the file gets these bytes.
fn run_with(
    rt: &impl Print,
    alloc: Global,
    host: &mut MemHost,
    file: FileName,
    bytes: &[u8],
    script: &str,
) -> io::Result<()> {
    host.put(file, bytes)?;
    run_script(rt, alloc, script, host)?;
    print_change(rt, host, file, bytes)
}

// Prints whether the file has these bytes.
fn print_change(rt: &impl Print, host: &MemHost, file: FileName, bytes: &[u8]) -> io::Result<()> {
    let change = if host.bytes(file) == Some(bytes) {
        "is as it was"
    } else {
        "has changed"
    };
    println!(rt; "the file {change}")
}
