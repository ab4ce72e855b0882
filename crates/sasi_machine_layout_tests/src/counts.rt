// Counts of candidates and lines of files, beside those of runs.
use sasi_analyzers::{Analyzer, Kit, Whole, Words};
use sasi_cql::parse;
use sasi_host::{MemHost, MemSource};
use sasi_machine::Reply;
use sasi_machine_layout::Layout;
use sasi_run::run;
use sasi_types::{Partitioner, Statement};
use std::alloc::Global;
use std::process::Abort;

/// A word of a command line.
fn word(rt: &impl Abort, alloc: Global, word: &str) -> String {
    String::from_str(alloc, word).expect(rt, "memory")
}

/// The words of a command line.
fn words(rt: &impl Abort, alloc: Global) -> Vec<String> {
    let mut words = Vec::new(alloc);
    words.push(word(rt, alloc, "folder")).expect(rt, "memory");
    words.push(word(rt, alloc, "script")).expect(rt, "memory");
    words
}

/// The analyzers of whole texts and of words.
fn analyzers(rt: &impl Abort, alloc: Global) -> Vec<Box<dyn Analyzer>> {
    let mut analyzers: Vec<Box<dyn Analyzer>> = Vec::new(alloc);
    let whole = Box::new(alloc, Whole::new()).expect(rt, "memory");
    assert!(rt; analyzers.push(whole).is_ok());
    let words = Box::new(alloc, Words::new(alloc)).expect(rt, "memory");
    assert!(rt; analyzers.push(words).is_ok());
    analyzers
}

/// What a run of the script emits.
fn emitted(rt: &impl Abort, alloc: Global, script: &str) -> Vec<u8> {
    let bytes = script.as_bytes().to_vec(alloc).expect(rt, "memory");
    let mut source = MemSource::new(bytes, 4096, Vec::new(alloc));
    let mut host = MemHost::new(alloc);
    let given = analyzers(rt, alloc);
    let _ = run(alloc, &words(rt, alloc), &mut source, &mut host, given);
    host.emitted().to_vec(alloc).expect(rt, "memory")
}

/// The line tells a count, a file or how many files there are.
fn is_told(line: &str) -> bool {
    line.starts_with("checked ") || line.contains(" pinned ") || line.ends_with(" files)")
}

/// The counts and the files that the lines tell.
fn told(rt: &impl Abort, alloc: Global, lines: &str) -> String {
    let mut told = String::new(alloc);
    for line in lines.lines() {
        if is_told(line) {
            told.push_str(line).expect(rt, "memory");
            told.push_str("\n").expect(rt, "memory");
        }
    }
    told
}

/// Adds the lines of a layout's files.
fn add_files(rt: &impl Abort, alloc: Global, layout: &Layout, lines: &mut String) {
    let mut reply = Reply::new(alloc);
    layout.files(&mut reply).expect(rt, "memory");
    let files = str::from_utf8(reply.bytes()).expect(rt, "text");
    lines.push_str(files).expect(rt, "memory");
}

/// The counts and the files of the layouts that the statements make.
fn counted(rt: &impl Abort, alloc: Global, script: &str) -> String {
    let mut counted = String::new(alloc);
    let mut kit = Kit::new(analyzers(rt, alloc));
    let mut layout = Layout::new(alloc, Partitioner::Lead8);
    for text in script.split_inclusive(';') {
        match parse(alloc, text) {
            Ok(Statement::Query { select }) => {
                let count = layout.candidates(&mut kit, &select).expect(rt, "memory");
                let line = format!(in alloc; "checked {count}\n").expect(rt, "memory");
                counted.push_str(&line).expect(rt, "memory");
            }
            Ok(Statement::ShowFiles) => add_files(rt, alloc, &layout, &mut counted),
            Ok(statement) => layout.step(statement).expect(rt, "memory"),
            Err(_) => (),
        }
    }
    counted
}

/// The layouts count and list what a run tells.
fn check(rt: &impl Abort, alloc: Global, script: &str) {
    let bytes = emitted(rt, alloc, script);
    let lines = str::from_utf8(&bytes).expect(rt, "text");
    let told = told(rt, alloc, lines);
    let counted = counted(rt, alloc, script);
    assert!(rt; told.as_str() == counted.as_str(), "{told} but {counted}");
}

/// Scripts of which no SELECT is refused, one a line.
static SCRIPTS: &str =
    "TRACE ON; CREATE TABLE t (k text PRIMARY KEY, a text); CREATE CUSTOM INDEX i ON t (a) USING 'org.apache.cassandra.index.sasi.SASIIndex'; INSERT INTO t (k, a) VALUES ('k1', 'x'); FLUSH t; INSERT INTO t (k, a) VALUES ('k1', 'y');  SELECT * FROM t WHERE a = 'x'; SELECT * FROM t WHERE a = 'y'; SELECT * FROM t WHERE a = 'z'; SELECT * FROM t;
TRACE ON; CREATE TABLE t (k text PRIMARY KEY, a text); CREATE CUSTOM INDEX i ON t (a) USING 'org.apache.cassandra.index.sasi.SASIIndex'; INSERT INTO t (k, a) VALUES ('abcdefgh2', 'y'); INSERT INTO t (k, a) VALUES ('abcdefgh1', 'x'); FLUSH t;  SELECT k FROM t WHERE a = 'y'; SELECT k FROM t;
TRACE ON; CREATE TABLE t (k text PRIMARY KEY, a text, b int); CREATE CUSTOM INDEX i ON t (a) USING 'org.apache.cassandra.index.sasi.SASIIndex'; CREATE CUSTOM INDEX j ON t (b) USING 'org.apache.cassandra.index.sasi.SASIIndex'; INSERT INTO t (k, a) VALUES ('k1', 'x'); FLUSH t; INSERT INTO t (k, b) VALUES ('k1', 5); FLUSH t; SELECT * FROM t WHERE a = 'x' AND b > 4 ALLOW FILTERING;  SELECT * FROM t WHERE a = 'x' AND b > 4 ALLOW FILTERING; SELECT * FROM t WHERE a = 'x' AND b > 5 ALLOW FILTERING;
TRACE ON; CREATE TABLE t (k text PRIMARY KEY, a text, n int); CREATE CUSTOM INDEX i ON t (a) USING 'org.apache.cassandra.index.sasi.SASIIndex'; INSERT INTO t (k, a, n) VALUES ('k1', 'x', 1); INSERT INTO t (k, a, n) VALUES ('k2', 'x', 2); INSERT INTO t (k, a, n) VALUES ('k3', 'y', 3); FLUSH t; INSERT INTO t (k, a, n) VALUES ('k2', 'y', 2); INSERT INTO t (k, a, n) VALUES ('k4', 'x', 4); INSERT INTO t (k, a, n) VALUES ('k5', 'x', 5); DELETE FROM t WHERE k = 'k4';  SELECT k FROM t WHERE a = 'x' LIMIT 1; SELECT k FROM t WHERE a = 'x' LIMIT 2; SELECT k FROM t WHERE a = 'x' LIMIT 3; SELECT k FROM t LIMIT 3; SELECT k FROM t LIMIT 4; SELECT k FROM t LIMIT 5; SELECT k FROM t WHERE a = 'x' AND n > 1 LIMIT 1 ALLOW FILTERING;
TRACE ON; CREATE TABLE t (k text PRIMARY KEY, a text, n int); INSERT INTO t (k, a, n) VALUES ('k1', 'x', 1); FLUSH t; CREATE CUSTOM INDEX i ON t (a) USING 'org.apache.cassandra.index.sasi.SASIIndex'; INSERT INTO t (k, a, n) VALUES ('k2', 'x', 1); FLUSH t; FLUSH t; INSERT INTO t (k, a, n) VALUES ('k3', 'y', 1); SELECT * FROM t WHERE a = 'x'; SELECT * FROM t WHERE a = 'y'; SELECT * FROM t WHERE a LIKE 'x%' AND n > 0 LIMIT 1 ALLOW FILTERING; DELETE FROM t WHERE k = 'k2'; SELECT * FROM t WHERE a = 'x'; SELECT * FROM t;
TRACE ON; CREATE TABLE t (k text PRIMARY KEY, a text); CREATE CUSTOM INDEX ON t (a) USING 'org.apache.cassandra.index.sasi.SASIIndex' WITH OPTIONS = {'analyzer_class': 'org.apache.cassandra.index.sasi.analyzer.StandardAnalyzer', 'tokenization_normalize_lowercase': 'true'}; INSERT INTO t (k, a) VALUES ('k1', 'Red fox'); INSERT INTO t (k, a) VALUES ('k2', 'blue fox'); SELECT k FROM t WHERE a LIKE 'fox red'; SELECT k FROM t WHERE a LIKE 'red'; FLUSH t; INSERT INTO t (k, a) VALUES ('k3', 'red hat'); SELECT k FROM t WHERE a LIKE 'fox'; SELECT k FROM t WHERE a LIKE 'red'; SELECT k FROM t WHERE a LIKE 'fox blue'; SELECT k FROM t WHERE a LIKE 'b%'; UPDATE t SET a = 'x' WHERE k = 'k2'; SELECT k FROM t WHERE a LIKE 'fox';
TRACE ON; CREATE TABLE t (k text PRIMARY KEY, a text); CREATE CUSTOM INDEX ON t (a) USING 'org.apache.cassandra.index.sasi.SASIIndex' WITH OPTIONS = {'mode': 'CONTAINS'}; INSERT INTO t (k, a) VALUES ('k1', 'Red fox'); INSERT INTO t (k, a) VALUES ('k2', 'blue fox'); SELECT k FROM t WHERE a LIKE '%fox%'; SELECT k FROM t WHERE a LIKE '%red%'; FLUSH t; INSERT INTO t (k, a) VALUES ('k3', 'red hat'); SELECT k FROM t WHERE a LIKE '%fox%'; SELECT k FROM t WHERE a LIKE '%red%';
TRACE ON; CREATE TABLE t (k int PRIMARY KEY, n bigint); CREATE CUSTOM INDEX ON t (n) USING 'org.apache.cassandra.index.sasi.SASIIndex'; INSERT INTO t (k, n) VALUES (1, 5); INSERT INTO t (k, n) VALUES (2, 15); FLUSH t; INSERT INTO t (k, n) VALUES (3, 25); INSERT INTO t (k, n) VALUES (1, 30); SELECT * FROM t WHERE n > 4; SELECT * FROM t WHERE n >= 15 AND n < 30 ALLOW FILTERING; SELECT * FROM t WHERE n > 14 AND n < 26 ALLOW FILTERING; SELECT * FROM t WHERE n = 5; SELECT * FROM t WHERE k = 2; SELECT * FROM t WHERE k = 7;";

#[test]
fn layouts_count_the_candidates_that_a_run_tells(rt: HostRuntime) {
    for script in SCRIPTS.lines() {
        check(&rt, rt.alloc(), script);
    }
}

/// Scripts that show their files, one a line: of an empty folder, of a table without indexes, and of two tables with two indexes each, whose
/// flushes alternate.
static LISTINGS: &str =
    "SHOW FILES; CREATE TABLE t (k text PRIMARY KEY, a text); FLUSH t; SHOW FILES; INSERT INTO t (k, a) VALUES ('k1', 'x'); SHOW FILES; FLUSH t; SHOW FILES; FLUSH t; INSERT INTO t (k, a) VALUES ('k2', 'x'); FLUSH t; SHOW FILES;
CREATE TABLE t (k text PRIMARY KEY, a text, b int); CREATE TABLE u (k int PRIMARY KEY, a text, b int); CREATE CUSTOM INDEX ta ON t (a) USING 'org.apache.cassandra.index.sasi.SASIIndex'; CREATE CUSTOM INDEX ua ON u (a) USING 'org.apache.cassandra.index.sasi.SASIIndex'; CREATE CUSTOM INDEX ub ON u (b) USING 'org.apache.cassandra.index.sasi.SASIIndex'; CREATE CUSTOM INDEX tb ON t (b) USING 'org.apache.cassandra.index.sasi.SASIIndex'; INSERT INTO u (k, a, b) VALUES (1, 'x', 1); INSERT INTO t (k, a, b) VALUES ('k1', 'x', 1); FLUSH u; SHOW FILES; FLUSH t; SHOW FILES; INSERT INTO t (k, a) VALUES ('k2', 'y'); FLUSH t; INSERT INTO u (k, b) VALUES (2, 2); FLUSH u; SHOW FILES; DELETE FROM t WHERE k = 'k1'; FLUSH t; SHOW FILES;";

#[test]
fn layouts_list_the_files_that_a_run_shows(rt: HostRuntime) {
    for script in LISTINGS.lines() {
        check(&rt, rt.alloc(), script);
    }
}
