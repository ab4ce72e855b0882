// Opening files where the process may open no more.
ghost use Rattle.sasi_filehost.specs.OpenFiles.{OpensNone};

use crate::read_files::{MOST_READ_FILES, ReadFiles};
use std::io;

// The system's error where a process may open no more files. It has no kind of its own.
const TOO_MANY_OPEN_FILES: i32 = 24;

// Whether a call failed since the process may open no more files.
fn is_out_of_files<T>(answer: &io::Result<T>) -> bool {
    match answer {
        Err(error) => error.raw_os_error() == Some(TOO_MANY_OPEN_FILES),
        Ok(_) => false,
    }
}

// Whether such a call may be tried again, since a file was closed for it.
fn makes_way<T>(read: &mut ReadFiles, answer: &io::Result<T>) -> bool
    ensures { OpensNone read.old read.new }
{
    is_out_of_files(answer) && read.keep_fewer()
}

// Opens a file or a folder. Where the process may open no more, the file read longest ago is closed, and it is tried again.
pub fn with_descriptor<T: Drop, F: Fn() -> io::Result<T>>(
    read: &mut ReadFiles,
    attempt: F,
) -> io::Result<T>
    requires { F.IsAlwaysCallable attempt }
    ensures { OpensNone read.old read.new }
{
    for _ in 0..MOST_READ_FILES {
        let answer = attempt();
        if !makes_way(read, &answer) {
            return answer;
        }
    }
    attempt()
}
