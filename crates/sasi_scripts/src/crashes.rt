// What a crash leaves of a run that is stopped.
use crate::files::{copy_of, print_files};
use crate::runs::{run_script, two_numbers};
use sasi_host::{BytePick, MemHost, NamePick, Pick};
use std::alloc::Global;
use std::io;

const fn pick(names: NamePick, bytes: BytePick) -> Pick {
    Pick { names, bytes }
}

// What a crash may keep of the names and of the bytes that weren't synced.
const fn picks() -> [Pick; 8] {
    [
        pick(NamePick::AsNow, BytePick::AsNow),
        pick(NamePick::AsNow, BytePick::AsSynced),
        pick(NamePick::AsNow, BytePick::Zeros),
        pick(NamePick::AsNow, BytePick::Ones),
        pick(NamePick::AsSynced, BytePick::AsNow),
        pick(NamePick::AsSynced, BytePick::AsSynced),
        pick(NamePick::AsSynced, BytePick::Zeros),
        pick(NamePick::AsSynced, BytePick::Ones),
    ]
}

/// What is printed of a crash: the files that it leaves, or what the script gives that is run over them.
#[derive(Clone, Copy)]
pub enum Shown {
    Files,
    Replies,
}

/// Runs a script over copies of the folder which stop after so many calls, and shows what each crash leaves: `FROM TO SCRIPT`.
pub fn run_crashes(
    rt: &impl Print,
    alloc: Global,
    line: &str,
    host: &MemHost,
    shown: Shown,
) -> io::Result<()> {
    let Some((from, to, script)) = two_numbers(line) else {
        return println!(rt; "numbers are missing");
    };
    for stop in from..=to {
        print!(rt; "{stop} ")?;
        run_stopped(rt, alloc, host, stop, script, shown)?;
    }
    Ok(())
}

// Runs a script over a copy of the folder which stops after so many calls, and shows what each crash leaves.
fn run_stopped(
    rt: &impl Print,
    alloc: Global,
    host: &MemHost,
    stop: u64,
    script: &str,
    shown: Shown,
) -> io::Result<()> {
    let mut stopped = copy_of(host)?;
    stopped.stop_after(stop);
    run_and_crash(rt, alloc, script, &mut stopped, shown)
}

// Runs a script over the folder, and shows what each crash leaves.
fn run_and_crash(
    rt: &impl Print,
    alloc: Global,
    script: &str,
    stopped: &mut MemHost,
    shown: Shown,
) -> io::Result<()> {
    run_script(rt, alloc, script, stopped)?;
    for pick in &picks() {
        show_crash(rt, alloc, script, stopped, *pick, shown)?;
    }
    Ok(())
}

// Shows what this crash leaves.
fn show_crash(
    rt: &impl Print,
    alloc: Global,
    script: &str,
    stopped: &MemHost,
    pick: Pick,
    shown: Shown,
) -> io::Result<()> {
    println!(rt; "{:?} {:?}", pick.names, pick.bytes)?;
    let mut left = stopped.crash(pick)?;
    show(rt, alloc, script, &mut left, shown)
}

// Shows what a crash left.
fn show(
    rt: &impl Print,
    alloc: Global,
    script: &str,
    left: &mut MemHost,
    shown: Shown,
) -> io::Result<()> {
    match shown {
        Shown::Files => print_files(rt, alloc, left),
        Shown::Replies => run_script(rt, alloc, script, left),
    }
}
