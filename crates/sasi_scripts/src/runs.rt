// Runs over a host, whose replies and statuses are printed.
use sasi_analyzers::{Analyzer, Whole, Words};
use sasi_host::{MemHost, MemSource};
use sasi_run::{Status, run};
use std::alloc::{AllocError, Global};
use std::{io, str};

// The words of a command line that names a folder and a script.
const WORDS: [&str; 2] = ["folder", "script"];

// The words as strings of their own.
fn strings(alloc: Global, words: &[&str]) -> Result<Vec<String>, AllocError> {
    let mut strings = Vec::new(alloc);
    for word in words {
        strings.push(String::from_str(alloc, word)?)?;
    }
    Ok(strings)
}

// A source of the script that gives at most so many bytes a read, and whose read of this number fails.
fn source_of(
    alloc: Global,
    script: &str,
    piece: usize,
    failing: u64,
) -> Result<MemSource, AllocError> {
    let failing = vec![in alloc; failing]?;
    let bytes = script.replace(alloc, "\\n", "\n")?.into_bytes();
    Ok(MemSource::new(bytes, piece.max(1), failing))
}

// The replies behind the first so many bytes.
fn replies_behind(host: &MemHost, before: usize) -> &str {
    let replies = host.emitted().get(before..).unwrap_or(&[]);
    str::from_utf8(replies).unwrap_or("replies that are not UTF-8\n")
}

/// The analyzers that a run is handed.
#[derive(Clone, Copy)]
pub enum Handed {
    Both,
    WholeAlone,
    Nothing,
}

impl Handed {
    const fn has_whole(self) -> bool {
        !matches!(self, Handed::Nothing)
    }

    const fn has_words(self) -> bool {
        matches!(self, Handed::Both)
    }
}

// A run as it is asked: the words of its command line, and its analyzers.
#[derive(Clone, Copy)]
struct Asked<'a> {
    words: &'a [&'a str],
    handed: Handed,
}

const fn asking<'a>(words: &'a [&'a str], handed: Handed) -> Asked<'a> {
    Asked { words, handed }
}

// Runs a command line, and gives its status. It borrows the words, so nothing that `run` promises is carried over their drop.
fn status_over(
    alloc: Global,
    words: &[String],
    source: &mut MemSource,
    host: &mut MemHost,
    analyzers: Vec<Box<dyn Analyzer>>,
) -> Status {
    run(alloc, words, source, host, analyzers)
}

// Runs as asked, and gives the status.
fn status_of(
    alloc: Global,
    asked: Asked<'_>,
    source: &mut MemSource,
    host: &mut MemHost,
) -> Result<Status, AllocError> {
    let words = strings(alloc, asked.words)?;
    let mut analyzers: Vec<Box<dyn Analyzer>> = Vec::new(alloc);
    if asked.handed.has_whole() {
        analyzers.push(Box::new(alloc, Whole::new())?)?;
    }
    if asked.handed.has_words() {
        analyzers.push(Box::new(alloc, Words::new(alloc))?)?;
    }
    Ok(status_over(alloc, &words, source, host, analyzers))
}

// Runs as asked, and prints the replies and the status.
fn run_from(
    rt: &impl Print,
    alloc: Global,
    asked: Asked<'_>,
    source: &mut MemSource,
    host: &mut MemHost,
) -> io::Result<()> {
    let before = host.emitted().len();
    let status = status_of(alloc, asked, source, host)?;
    print!(rt; "{}{status:?}\n", replies_behind(host, before))
}

// Runs a script as asked.
fn run_under(
    rt: &impl Print,
    alloc: Global,
    asked: Asked<'_>,
    script: &str,
    host: &mut MemHost,
) -> io::Result<()> {
    let mut source = source_of(alloc, script, 4096, 0)?;
    run_from(rt, alloc, asked, &mut source, host)
}

/// Runs a script.
pub fn run_script(
    rt: &impl Print,
    alloc: Global,
    script: &str,
    host: &mut MemHost,
) -> io::Result<()> {
    run_handed(rt, alloc, script, host, Handed::Both)
}

/// Runs a script with these analyzers.
pub fn run_handed(
    rt: &impl Print,
    alloc: Global,
    script: &str,
    host: &mut MemHost,
    handed: Handed,
) -> io::Result<()> {
    run_under(rt, alloc, asking(&WORDS, handed), script, host)
}

/// Runs a script where a partitioner is asked: `NAME SCRIPT`.
pub fn run_asking(
    rt: &impl Print,
    alloc: Global,
    line: &str,
    host: &mut MemHost,
) -> io::Result<()> {
    let Some((partitioner, script)) = line.split_once(' ') else {
        return println!(rt; "a name is missing");
    };
    let words = ["--partitioner", partitioner, "folder", "script"];
    run_under(rt, alloc, asking(&words, Handed::Both), script, host)
}

// The number before the first space, and what stands behind it.
fn number(line: &str) -> Option<(u64, &str)> {
    let (digits, rest) = line.split_once(' ')?;
    match digits.parse::<u64>() {
        Ok(number) => Some((number, rest)),
        Err(_) => None,
    }
}

/// Two numbers, and what stands behind them.
pub fn two_numbers(line: &str) -> Option<(u64, u64, &str)> {
    let (first, rest) = number(line)?;
    let (second, rest) = number(rest)?;
    Some((first, second, rest))
}

// Three numbers, and what stands behind them.
fn three_numbers(line: &str) -> Option<(u64, u64, u64, &str)> {
    let (first, rest) = number(line)?;
    let (second, third, rest) = two_numbers(rest)?;
    Some((first, second, third, rest))
}

/// Runs a script where reads give at most so many bytes, and a read and an emit fail: `PIECE READ EMIT SCRIPT`.
pub fn run_outside(
    rt: &impl Print,
    alloc: Global,
    line: &str,
    host: &mut MemHost,
) -> io::Result<()> {
    let Some((piece, failing_read, failing_emit, script)) = three_numbers(line) else {
        return println!(rt; "numbers are missing");
    };
    host.fail_emits(vec![in alloc; failing_emit]?);
    let mut source = source_of(alloc, script, piece as usize, failing_read)?;
    run_from(rt, alloc, asking(&WORDS, Handed::Both), &mut source, host)
}

// The letter that is this byte, so many times.
fn repeated(alloc: Global, count: u64, byte: u64) -> Result<String, AllocError> {
    let letter = (byte % 128) as u8 as char;
    let mut text = String::new(alloc);
    for _turn in 0..count {
        text.push(letter)?;
    }
    Ok(text)
}

// The script with so many bytes in place of each `~`.
fn filled(alloc: Global, script: &str, count: u64, byte: u64) -> Result<String, AllocError> {
    let text = repeated(alloc, count, byte)?;
    script.replace(alloc, "~", &text)
}

/// Runs a script with so many bytes in place of each `~`: `COUNT BYTE SCRIPT`.
pub fn run_filled(
    rt: &impl Print,
    alloc: Global,
    line: &str,
    host: &mut MemHost,
) -> io::Result<()> {
    let Some((count, byte, script)) = two_numbers(line) else {
        return println!(rt; "numbers are missing");
    };
    run_script(rt, alloc, &filled(alloc, script, count, byte)?, host)
}

// Adds the script with this number in place of each `#`.
fn add_copy(alloc: Global, all: &mut String, script: &str, number: u64) -> Result<(), AllocError> {
    let digits = format!(in alloc; "{number}")?;
    all.push_str(&script.replace(alloc, "#", &digits)?)
}

// The script for each of these numbers, one after another.
fn copies(alloc: Global, script: &str, from: u64, to: u64) -> Result<String, AllocError> {
    let mut all = String::new(alloc);
    for number in from..=to {
        add_copy(alloc, &mut all, script, number)?;
    }
    Ok(all)
}

// Runs a script, and prints how many lines the replies have, and the status.
fn run_counted(rt: &impl Print, alloc: Global, script: &str, host: &mut MemHost) -> io::Result<()> {
    let before = host.emitted().len();
    let mut source = source_of(alloc, script, 4096, 0)?;
    let status = status_of(alloc, asking(&WORDS, Handed::Both), &mut source, host)?;
    let lines = replies_behind(host, before).lines().count();
    print!(rt; "{lines} lines\n{status:?}\n")
}

/// Runs one script that has this one for each of these numbers, in place of each `#`, and prints how many lines the replies
/// have, and the status: `FROM TO SCRIPT`.
pub fn run_many(rt: &impl Print, alloc: Global, line: &str, host: &mut MemHost) -> io::Result<()> {
    let Some((from, to, script)) = two_numbers(line) else {
        return println!(rt; "numbers are missing");
    };
    run_counted(rt, alloc, &copies(alloc, script, from, to)?, host)
}

/// Runs a command line of these words, with a script that creates a table.
pub fn run_words(rt: &impl Print, alloc: Global, line: &str, host: &mut MemHost) -> io::Result<()> {
    let words: Vec<&str> = line.split('|').skip(1).collect(alloc)?;
    let script = "CREATE TABLE t (k text PRIMARY KEY);";
    run_under(rt, alloc, asking(&words, Handed::Both), script, host)
}
