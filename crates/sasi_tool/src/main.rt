//! The program: it reads the command line, runs the script file over the folder, and ends with the status of the run. Nothing
//! is proved of what a real file or a terminal holds.
#![tactic(auto)]

use sasi_analyzers::{Analyzer, Whole, Words};
use sasi_filehost::{FileHost, FileSource};
use sasi_host::{MemHost, MemSource};
use sasi_message::Message;
use sasi_run::{Status, command, run};
use std::alloc::{AllocError, Global};
use std::env;
use std::env::Env;
use std::process::ExitCode;

// The words behind the program's own. One that isn't UTF-8 is a usage error.
fn words<R: Env + AllocGlobal>(rt: &R) -> Result<Vec<String>, Status> {
    let Ok(args) = env::args(rt) else {
        return Err(Status::Usage);
    };
    match args.skip(1).collect(rt.alloc()) {
        Ok(words) => Ok(words),
        Err(_) => Err(Status::OutOfMemory),
    }
}

// Runs words that are no command line: nothing is read or written.
fn run_nothing(alloc: Global, words: &[String]) -> Status {
    let mut script = MemSource::new(Vec::new(alloc), 1, Vec::new(alloc));
    let mut host = MemHost::new(alloc);
    run(alloc, words, &mut script, &mut host, Vec::new(alloc))
}

// Runs a script file over a folder of real files. It borrows them, so nothing that `run` promises is carried over their drop.
fn run_over(
    alloc: Global,
    words: &[String],
    script: &mut FileSource,
    host: &mut FileHost,
    analyzers: Vec<Box<dyn Analyzer>>,
) -> Status {
    run(alloc, words, script, host, analyzers)
}

// Opens the folder and the script file of a command line, and runs it.
fn run_files(
    rt: HostRuntime,
    words: &[String],
    folder: &str,
    script: &str,
) -> Result<Status, AllocError> {
    let alloc = rt.alloc();
    let mut host = FileHost::at(rt, folder)?;
    let mut script = FileSource::at(rt, script)?;
    let mut analyzers: Vec<Box<dyn Analyzer>> = Vec::new(alloc);
    analyzers.push(Box::new(alloc, Whole::new())?)?;
    analyzers.push(Box::new(alloc, Words::new(alloc))?)?;
    Ok(run_over(alloc, words, &mut script, &mut host, analyzers))
}

// Runs the words of the command line.
fn run_words(rt: HostRuntime, words: &[String]) -> Status {
    let Some(command) = command(words) else {
        return run_nothing(rt.alloc(), words);
    };
    let folder = words[command.folder].as_str();
    let script = words[command.script].as_str();
    match run_files(rt, words, folder, script) {
        Ok(status) => status,
        Err(AllocError) => Status::OutOfMemory,
    }
}

fn main(rt: HostRuntime) -> ExitCode {
    let status = match words(&rt) {
        Err(status) => status,
        Ok(words) => run_words(rt, &words),
    };
    let code = status.code();
    if code >= 2 {
        let _ = rt.eprintln(Message(status));
    }
    ExitCode::from(code)
}
