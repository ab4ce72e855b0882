//! Searches index files in memory as the lines of stdin say, and prints what each search gives: pairs, as a token and a place,
//! or the damage that it meets.
//!
//! - `# TITLE` is printed as it is.
//! - `put PARTS` puts a file. A part is bytes in hexadecimal, or `*` and a number of zero bytes.
//! - `search ASKED` searches it. What is asked for is `equal`, `prefix`, `suffix` or `contains` and bytes in hexadecimal, or
//!   `range` and two numbers.
//! - `cut FROM TO ASKED` searches the file cut to each of these lengths.
//! - `change FROM TO MASK ASKED` searches copies of the file, in which each of these bytes in turn has the bits of the mask
//!   turned.
//!
//! Of neighbours among the lengths and offsets that give the same, the first is printed.
#![tactic(auto)]

mod asked;
mod copies;
mod found;

use crate::asked::Asked;
use crate::copies::{parse_parts, search_changed, search_cuts};
use crate::found::result_of;
use std::alloc::Global;
use std::io::{self, BufRead, BufReader};

// Searches a file of these bytes.
fn search(rt: &impl Print, alloc: Global, bytes: &[u8], line: &str) -> io::Result<()> {
    let Some(asked) = Asked::parse(alloc, line) else {
        return println!(rt; "nothing asked");
    };
    println!(rt; "{}", result_of(alloc, bytes, &asked)?)
}

// Does what a line says.
fn take_line(rt: &impl Print, alloc: Global, bytes: &mut Vec<u8>, line: &str) -> io::Result<()> {
    let (word, rest) = line.split_once(' ').unwrap_or((line, ""));
    match word {
        "put" => {
            *bytes = parse_parts(alloc, rest)?;
            Ok(())
        }
        "search" => search(rt, alloc, bytes, rest),
        "cut" => search_cuts(rt, alloc, bytes, rest),
        "change" => search_changed(rt, alloc, bytes, rest),
        _ => println!(rt; "{line}"),
    }
}

fn main(rt: HostRuntime) -> io::Result<()> {
    let alloc = rt.alloc();
    let mut bytes = Vec::new(alloc);
    for line in BufReader::new(alloc, rt.reader())?.lines(alloc) {
        take_line(&rt, alloc, &mut bytes, &line?)?;
    }
    Ok(())
}
