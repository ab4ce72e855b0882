//! Runs scripts over a folder in memory as the lines of stdin say, and prints the replies and the status of each run. `\n` in
//! a script stands for the end of a line. A line is a script, which runs over a new folder, unless it begins with one of these:
//!
//! - `# TITLE` is printed as it is.
//! - `new` begins a new folder.
//! - `put NAME DIGITS` puts a file of these bytes, in hexadecimal, into the folder.
//! - `then SCRIPT` runs a script over the folder.
//! - `ask NAME SCRIPT` does so where the partitioner of this name is asked.
//! - `whole SCRIPT` does so where the run is handed the analyzer of whole texts alone, and `bare SCRIPT` where it is handed none.
//! - `cut NAME FROM TO SCRIPT` runs a script over copies of the folder in which the file is cut to each of these lengths. It
//!   prints the length, and then whether the run left the file as it was.
//! - `change NAME OFFSET BYTE SCRIPT` does so with a copy in which the file has this byte at this offset.
//! - `crash FROM TO SCRIPT` runs a script over copies of the folder which stop after each of these numbers of calls. It prints
//!   the number, and for each crash what it makes of the names and of the bytes, and the files that it leaves.
//! - `recover FROM TO SCRIPT` does so, and runs the script again over these files in place of printing them.
//! - `outside PIECE READ EMIT SCRIPT` runs a script over a new folder: a read gives at most so many bytes, and the read and the
//!   emit of these numbers fail.
//! - `fill COUNT BYTE SCRIPT` runs a script over a new folder, with so many bytes of this value in place of each `~`.
//! - `many FROM TO SCRIPT` runs one script over the folder that has this one for each of these numbers, in place of each `#`. It
//!   prints how many lines the replies have.
//! - `words`, with `|` before each word, runs a command line of these words over a new folder.
//! - `files` prints the name and the bytes of each file, and `lengths` the name and the length.
#![tactic(auto)]

mod crashes;
mod files;
mod runs;

use crate::crashes::{Shown, run_crashes};
use crate::files::{print_files, print_lengths, put_file, run_changed, run_cuts};
use crate::runs::{
    Handed, run_asking, run_filled, run_handed, run_many, run_outside, run_script, run_words,
};
use sasi_host::MemHost;
use std::alloc::Global;
use std::io::{self, BufRead, BufReader};

// Does what a line says that begins with a word of this program, or runs it as a script.
fn take_line(rt: &impl Print, alloc: Global, host: &mut MemHost, line: &str) -> io::Result<()> {
    let (word, rest) = line.split_once(' ').unwrap_or((line, ""));
    match word {
        "then" => run_script(rt, alloc, rest, host),
        "ask" => run_asking(rt, alloc, rest, host),
        "whole" => run_handed(rt, alloc, rest, host, Handed::WholeAlone),
        "bare" => run_handed(rt, alloc, rest, host, Handed::Nothing),
        "put" => put_file(rt, alloc, rest, host),
        "cut" => run_cuts(rt, alloc, rest, host),
        "change" => run_changed(rt, alloc, rest, host),
        "crash" => run_crashes(rt, alloc, rest, host, Shown::Files),
        "recover" => run_crashes(rt, alloc, rest, host, Shown::Replies),
        "many" => run_many(rt, alloc, rest, host),
        "files" => print_files(rt, alloc, host),
        "lengths" => print_lengths(rt, alloc, host),
        "#" => println!(rt; "{line}"),
        _ => take_new(rt, alloc, host, line),
    }
}

// Does what a line says that begins a new folder.
fn take_new(rt: &impl Print, alloc: Global, host: &mut MemHost, line: &str) -> io::Result<()> {
    *host = MemHost::new(alloc);
    let (word, rest) = line.split_once(' ').unwrap_or((line, ""));
    match word {
        "new" => Ok(()),
        "outside" => run_outside(rt, alloc, rest, host),
        "fill" => run_filled(rt, alloc, rest, host),
        "words" => run_words(rt, alloc, rest, host),
        _ => run_script(rt, alloc, line, host),
    }
}

// Takes a line as it was read.
fn take_read(
    rt: &impl Print,
    alloc: Global,
    host: &mut MemHost,
    line: io::Result<String>,
) -> io::Result<()> {
    take_line(rt, alloc, host, &line?)
}

// Takes each line of stdin.
fn take_lines(rt: &HostRuntime, host: &mut MemHost) -> io::Result<()> {
    let alloc = rt.alloc();
    for line in BufReader::new(alloc, rt.reader())?.lines(alloc) {
        take_read(rt, alloc, host, line)?;
    }
    Ok(())
}

fn main(rt: HostRuntime) -> io::Result<()> {
    take_lines(&rt, &mut MemHost::new(rt.alloc()))
}
