// Opening a folder.
use std::fs::OpenFile;
use std::io::ErrorKind;
use std::rt::Files;
use std::{fs, io};

/// Makes the folder if it is missing, and opens it. The folder that it is in is synced each time, since the run that made it may
/// have been cut off before that.
pub fn open_folder<R: Files>(files: &R, path: &str, parent: &str) -> io::Result<R::File> {
    match fs::create_dir(files, path) {
        Err(error) if error.kind() != ErrorKind::AlreadyExists => return Err(error),
        _ => {}
    }
    fs::open(files, parent)?.sync_all()?;
    fs::open(files, path)
}
