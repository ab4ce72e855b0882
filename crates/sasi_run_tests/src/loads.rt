// What SELECTs load into analyzers.
use crate::runs::run_with;
use sasi_analyzers::{Analyzer, Whole, Words};
use sasi_host::MemHost;
use sasi_run::Status;
use sasi_types::{Class, Rule};
use std::alloc::{AllocError, Global};
use std::fmt::Write;
use std::process::Abort;

/// How many rows the table has.
const ROWS: u32 = 1000;

/// How many texts may be loaded: three for each row.
const LOADS: u32 = 3000;

/// The words of a text, of so many more texts; after these no text can be loaded.
#[derive(Drop)]
struct Loads {
    words: Words,
    left: u32,
}

impl Analyzer for Loads {
    ghost kind = { λ it. ⟦<Words as Analyzer>⟧.kind it.words };

    ghost left = { λ it. ⟦<Words as Analyzer>⟧.left it.words };

    fn class(&self) -> Class {
        self.words.class()
    }

    fn load(&mut self, alloc: Global, rule: Rule, text: &str) -> Result<(), AllocError> {
        if self.left == 0 {
            return Err(AllocError);
        }
        self.left -= 1;
        self.words.load(alloc, rule, text)
    }

    fn next_into(&mut self, out: &mut Vec<u8>) -> Result<bool, AllocError> {
        self.words.next_into(out)
    }
}

/// A table with an index of words, a row for each of the numbers from 1, and ten times the row with one word.
fn script(rt: &impl Abort, alloc: Global) -> String {
    let mut script = String::from_str(
        alloc,
        "CREATE TABLE t (k text PRIMARY KEY, a text);
         CREATE CUSTOM INDEX ON t (a) USING 'org.apache.cassandra.index.sasi.SASIIndex'
           WITH OPTIONS = {'analyzer_class': 'org.apache.cassandra.index.sasi.analyzer.StandardAnalyzer'};",
    )
    .expect(rt, "memory");
    for number in 1..=ROWS {
        let wrote = write!(
            script,
            "INSERT INTO t (k, a) VALUES ('k{number}', 'w{number}');"
        );
        assert!(rt; wrote.is_ok());
    }
    for _select in 0..10 {
        let pushed = script.push_str("SELECT k FROM t WHERE a LIKE 'w7';");
        assert!(rt; pushed.is_ok());
    }
    script
}

// A search of a memtable looks its index up. One that made the terms of each row anew would need 10,000 loads.
#[test]
fn a_search_of_a_memtable_makes_no_terms_of_its_rows(rt: HostRuntime) {
    let alloc = rt.alloc();
    let mut analyzers: Vec<Box<dyn Analyzer>> = Vec::new(alloc);
    let whole = Box::new(alloc, Whole::new()).expect(&rt, "memory");
    assert!(rt; analyzers.push(whole).is_ok());
    let words = Words::new(alloc);
    let loads = Box::new(alloc, Loads { words, left: LOADS }).expect(&rt, "memory");
    assert!(rt; analyzers.push(loads).is_ok());
    let mut host = MemHost::new(alloc);
    let script = script(&rt, alloc);
    let (status, emitted) = run_with(&rt, alloc, script.as_str(), &mut host, analyzers);
    assert!(rt; status == Status::Done);
    let mut want = String::new(alloc);
    for _reply in 0..ROWS + 2 {
        assert!(rt; want.push_str("ok\n").is_ok());
    }
    for _select in 0..10 {
        assert!(rt; want.push_str("'k7'\n(1 rows)\n").is_ok());
    }
    assert!(rt; emitted.as_slice() == want.as_bytes());
}
