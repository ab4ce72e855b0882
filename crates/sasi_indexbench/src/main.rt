//! Measures an index file in a real folder. The arguments are the folder, the number of terms, the pairs of each, and what is
//! done: write makes the file; terms, prefixes, ranges and infixes search a file that is there, 10,000, 1,000, 1,000 and 10 times;
//! and try writes a file and looks up 100 of its terms. It prints how many pairs were given and how many pages were read.
#![tactic(auto)]

mod filled;
mod measured;

use measured::{FILE, Round, search_all, write_all};
use sasi_bench::{CountingReader, words};
use sasi_filehost::FileHost;
use sasi_host::ReadFault;
use sasi_indexread::IndexFile;
use std::process::ExitCode;

// How the last argument asks to search the file, if it does.
fn round(what: &str) -> Option<Round> {
    match what {
        "terms" => Some(Round::Terms { asked: 10_000 }),
        "prefixes" => Some(Round::Prefixes { asked: 1_000 }),
        "ranges" => Some(Round::Ranges { asked: 1_000 }),
        "infixes" => Some(Round::Infixes { asked: 10 }),
        "try" => Some(Round::Terms { asked: 100 }),
        _ => None,
    }
}

fn run(
    rt: HostRuntime,
    folder: &str,
    terms: u64,
    pairs: u64,
    what: &str,
) -> Result<(u64, u64), ReadFault> {
    let alloc = rt.alloc();
    let mut host = FileHost::at(rt, folder)?;
    if what == "write" || what == "try" {
        write_all(alloc, &mut host, terms, pairs)?;
    }
    let mut pages = CountingReader { pages: 0 };
    let Some(round) = round(what) else {
        return Ok((0, 0));
    };
    let opened = IndexFile::open(&mut host, &mut pages, FILE)?;
    let given = search_all(alloc, &mut host, &mut pages, &opened, terms, round)?;
    Ok((given, pages.pages))
}

fn main(rt: HostRuntime) -> ExitCode {
    let Some(words) = words(&rt) else {
        return ExitCode::from(2);
    };
    let [folder, terms, pairs, what] = words.as_slice() else {
        return ExitCode::from(2);
    };
    let (Ok(terms), Ok(pairs)) = (terms.parse::<u64>(), pairs.parse::<u64>()) else {
        return ExitCode::from(2);
    };
    match run(rt, folder, terms, pairs, what) {
        Ok((given, pages)) => {
            let _ = println!(rt; "{given} pairs, {pages} pages");
            ExitCode::from(0)
        }
        Err(_) => ExitCode::from(1),
    }
}
