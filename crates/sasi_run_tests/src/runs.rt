// Whole runs in memory.
use sasi_analyzers::{Analyzer, Whole};
use sasi_host::{BytePick, MemHost, MemSource, NamePick, Pick};
use sasi_run::{Status, run};
use std::alloc::Global;
use std::process::Abort;

/// A word of a command line.
fn word(rt: &impl Abort, alloc: Global, word: &str) -> String {
    String::from_str(alloc, word).expect(rt, "memory")
}

/// The words of a command line.
fn words(rt: &impl Abort, alloc: Global) -> Vec<String> {
    let mut words = Vec::new(alloc);
    words.push(word(rt, alloc, "folder")).expect(rt, "memory");
    words.push(word(rt, alloc, "script")).expect(rt, "memory");
    words
}

/// A source of the script that doesn't fail.
fn source_of(rt: &impl Abort, alloc: Global, script: &str) -> MemSource {
    let bytes = script.as_bytes().to_vec(alloc).expect(rt, "memory");
    MemSource::new(bytes, 4096, Vec::new(alloc))
}

/// The analyzer of whole texts.
fn whole(rt: &impl Abort, alloc: Global) -> Vec<Box<dyn Analyzer>> {
    let mut analyzers: Vec<Box<dyn Analyzer>> = Vec::new(alloc);
    let whole = Box::new(alloc, Whole::new()).expect(rt, "memory");
    assert!(rt; analyzers.push(whole).is_ok());
    analyzers
}

/// The status of a run of a script, which is handed the analyzer of whole texts, and what it emitted.
pub fn run_script(
    rt: &impl Abort,
    alloc: Global,
    script: &str,
    host: &mut MemHost,
) -> (Status, Vec<u8>) {
    run_with(rt, alloc, script, host, whole(rt, alloc))
}

/// The status of a run of a script, which is handed these analyzers, and what it emitted.
pub fn run_with(
    rt: &impl Abort,
    alloc: Global,
    script: &str,
    host: &mut MemHost,
    analyzers: Vec<Box<dyn Analyzer>>,
) -> (Status, Vec<u8>) {
    let before = host.emitted().len();
    let mut source = source_of(rt, alloc, script);
    let status = run(alloc, &words(rt, alloc), &mut source, host, analyzers);
    let emitted = host.emitted().get(before..).unwrap_or(&[]);
    (status, emitted.to_vec(alloc).expect(rt, "memory"))
}

fn pick(names: NamePick, bytes: BytePick) -> Pick {
    Pick { names, bytes }
}

/// What a crash may keep of the names and of the bytes that weren't synced.
pub fn picks() -> [Pick; 8] {
    [
        pick(NamePick::AsNow, BytePick::AsNow),
        pick(NamePick::AsNow, BytePick::AsSynced),
        pick(NamePick::AsNow, BytePick::Zeros),
        pick(NamePick::AsNow, BytePick::Ones),
        pick(NamePick::AsSynced, BytePick::AsNow),
        pick(NamePick::AsSynced, BytePick::AsSynced),
        pick(NamePick::AsSynced, BytePick::Zeros),
        pick(NamePick::AsSynced, BytePick::Ones),
    ]
}

/// What a crash by this pick leaves of the host.
pub fn crashed(rt: &impl Abort, host: &MemHost, pick: Pick) -> MemHost {
    host.crash(pick).expect(rt, "memory")
}
