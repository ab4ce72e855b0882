// What SHOW FILES reads.
use crate::runs::run_script;
use sasi_host::MemHost;
use std::alloc::Global;
use std::process::Abort;

/// A table with a data file and an index file.
const FILES: &str = "CREATE TABLE t (k int PRIMARY KEY, a int);
    CREATE CUSTOM INDEX ON t (a) USING 'org.apache.cassandra.index.sasi.SASIIndex';
    INSERT INTO t (k, a) VALUES (1, 2);
    FLUSH t;";

/// How many reads a run of the script makes, which emits these bytes.
fn reads_of(rt: &impl Abort, alloc: Global, script: &str, want: &str, host: &mut MemHost) -> u64 {
    let before = host.reads();
    let (_status, emitted) = run_script(rt, alloc, script, host);
    assert!(rt; emitted.as_slice() == want.as_bytes(), "not {want}");
    let after = host.reads();
    assert!(rt; before <= after);
    after - before
}

// What a run reads without a statement, it reads to open the folder.
#[test]
fn show_files_reads_nothing(rt: HostRuntime) {
    let alloc = rt.alloc();
    let mut host = MemHost::new(alloc);
    let _ = reads_of(&rt, alloc, FILES, "ok\nok\nok\nok\n", &mut host);
    let opening = reads_of(&rt, alloc, "", "", &mut host);
    let lines = "data-1 current pinned 0\nindex-1-1-1 current pinned 0\n(2 files)\n";
    let shown = reads_of(&rt, alloc, "SHOW FILES;", lines, &mut host);
    let selected = reads_of(&rt, alloc, "SELECT k FROM t;", "1\n(1 rows)\n", &mut host);
    assert!(rt; shown == opening && selected > opening);
}
