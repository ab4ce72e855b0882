// A folder of real files.
ghost use Rattle.std.specs.Prelude.{◌≡◌, ◌+◌, ◌^◌, ◌≤◌, length, IfOk, OnOk};
ghost use Rattle.std.specs.List.Sorted.{IsStrictlySortedBy};
ghost use Rattle.sasi_host.specs.Names.{name_cmp};
ghost use Rattle.sasi_filehost.specs.OpenFiles.{IsClosed, IsUnwritten, OpensNone};

use crate::descriptors::with_descriptor;
use crate::opening::open_folder;
use crate::read_files::ReadFiles;
use crate::reading::fill_at;
use crate::written_files::WrittenFiles;
use sasi_host::{FileName, HostFault};
use sasi_names::{MAX_NAME_LENGTH, NameText, parse_name};
use std::alloc::{AllocError, Global};
use std::collections::BTreeSet;
use std::fs::OpenOptions;
use std::os::unix::fs::FileExt;
use std::{fs, io};

// No file has more bytes.
const MAX_FILE_SIZE: u64 = 1 << 62;

/// A folder that could be opened, with the files of it that are open.
#[derive(Drop)]
pub struct Folder {
    rt: HostRuntime,
    // The path of the folder, with a slash at its end.
    folder: String,
    // A buffer with capacity for the path of any file in it.
    path: String,
    // The folder itself.
    names: fs::File,
    written: WrittenFiles,
    read: ReadFiles,
}

impl Folder {
    /// The folder at this path, with room for the path of any file in it; None where it can't be opened.
    pub fn at(rt: HostRuntime, path: &str) -> Result<Option<Folder>, AllocError> {
        let alloc = rt.alloc();
        let mut folder = String::from_str(alloc, path)?;
        folder.push('/')?;
        // Dots in the path or a symlink don't lead this to another folder.
        let parent = format!(in alloc; "{folder}..")?;
        let room = folder.len().saturating_add(MAX_NAME_LENGTH);
        let path = String::with_capacity(alloc, room)?;
        let read = ReadFiles::new(alloc)?;
        match open_folder(&rt, folder.as_str(), parent.as_str()) {
            Ok(names) => Ok(Some(Folder {
                rt,
                folder,
                path,
                names,
                written: WrittenFiles::new(),
                read,
            })),
            Err(_) => Ok(None),
        }
    }

    // Writes the path of a file into its buffer.
    fn set_path(&mut self, file: FileName) -> io::Result<()>
        ensures read { self.new.read ≡ self.old.read }
        ensures written { self.new.written ≡ self.old.written }
    {
        self.path.clear();
        self.path.push_str(self.folder.as_str())?;
        let name = NameText(file);
        match write!(self.path, "{name}") {
            Ok(()) => Ok(()),
            Err(_) => Err(io::ErrorKind::OutOfMemory.into()),
        }
    }

    // Opens a file of the folder.
    fn open(&mut self, file: FileName, options: OpenOptions) -> io::Result<fs::File>
        ensures { OpensNone self.old.read self.new.read }
    {
        self.set_path(file)?;
        let (rt, path) = (&self.rt, self.path.as_str());
        with_descriptor(&mut self.read, || options.open(rt, path))
    }

    // The file, opened to be written or synced, and kept open.
    fn open_to_write(&mut self, name: FileName) -> io::Result<&fs::File> {
        if self.written.get(name).is_none() {
            let mut options = OpenOptions::new();
            options.read(true).write(true);
            let file = self.open(name, options)?;
            self.written.keep(name, file);
        }
        self.written.get(name).ok_or(io::ErrorKind::NotFound.into())
    }

    // The file, if it is open.
    fn kept(&mut self, name: FileName) -> Option<&fs::File> {
        if self.read.recall(name) {
            return self.read.get(name);
        }
        self.written.get(name)
    }

    // The file, opened to be read.
    fn open_to_read(&mut self, name: FileName) -> io::Result<fs::File> {
        let mut options = OpenOptions::new();
        options.read(true);
        self.open(name, options)
    }

    // Closes the file of this name: another one may get the name.
    fn close(&mut self, name: FileName)
        ensures read { IsClosed self.new.read name }
        ensures written { IsUnwritten self.new.written name }
    {
        self.written.close(name);
        self.read.close(name);
    }

    /// The names of its files, in their order. A foreign name is left out.
    pub fn list(&mut self, alloc: Global) -> Result<Vec<FileName>, HostFault>
        ensures { IfOk result (λ names. IsStrictlySortedBy name_cmp names.items) }
    {
        let mut names = BTreeSet::new(alloc);
        let (rt, path) = (&self.rt, self.folder.as_str());
        let entries = match with_descriptor(&mut self.read, || fs::read_dir(rt, path)) {
            Ok(entries) => entries,
            Err(error) => return Err(fault_of(error)),
        };
        for entry in entries {
            if let Some(name) = name_of(entry)? {
                names.insert(name).map_err(AllocError::from)?;
            }
        }
        in_order(&names, alloc)
    }

    /// How many bytes a file has.
    pub fn size(&mut self, name: FileName) -> io::Result<u64> {
        if let Some(file) = self.kept(name) {
            return size_of(file);
        }
        let file = self.open_to_read(name)?;
        let answer = size_of(&file);
        self.read.keep(name, file);
        answer
    }

    /// Fills the buffer from this offset on, as far as the file reaches.
    pub fn read(&mut self, name: FileName, at: u64, buf: &mut [u8]) -> io::Result<usize>
        ensures { IfOk result (λ count. count ≤ length buf.old) }
    {
        if let Some(file) = self.kept(name) {
            return fill_at(file, at, buf);
        }
        let file = self.open_to_read(name)?;
        let answer = fill_at(&file, at, buf);
        self.read.keep(name, file);
        answer
    }

    /// Makes an empty file.
    pub fn create(&mut self, name: FileName) -> io::Result<()>
        ensures read { IsClosed self.new.read name }
    {
        self.close(name);
        let mut options = OpenOptions::new();
        options.read(true).write(true).create_new(true);
        let file = self.open(name, options)?;
        self.written.keep(name, file);
        Ok(())
    }

    /// Writes all the bytes from this offset on.
    pub fn write(&mut self, name: FileName, at: u64, bytes: &[u8]) -> io::Result<()>
        ensures { OnOk result (at + length bytes.now ≤ 2 ^ 62) }
    {
        let count = bytes.len() as u64;
        if count > MAX_FILE_SIZE || at > MAX_FILE_SIZE - count {
            return Err(io::ErrorKind::FileTooLarge.into());
        }
        self.open_to_write(name)?.write_all_at(bytes, at)
    }

    /// Syncs a file's bytes and its length.
    pub fn sync(&mut self, name: FileName) -> io::Result<()> {
        self.open_to_write(name)?.sync_data()
    }

    /// Removes a file from the folder.
    pub fn delete(&mut self, name: FileName) -> io::Result<()>
        ensures read { IsClosed self.new.read name }
        ensures written { IsUnwritten self.new.written name }
    {
        self.close(name);
        self.set_path(name)?;
        fs::remove_file(&self.rt, self.path.as_str())
    }

    /// Syncs the folder's names.
    pub fn sync_names(&self) -> io::Result<()> {
        self.names.sync_all()
    }
}

// How many bytes an open file has.
fn size_of(file: &fs::File) -> io::Result<u64> {
    Ok(file.metadata()?.len())
}

// Why a folder can't be listed.
fn fault_of(error: io::Error) -> HostFault {
    match error.kind() {
        io::ErrorKind::OutOfMemory => HostFault::OutOfMemory,
        _ => HostFault::Failed,
    }
}

// The file name of an entry of the folder; None where it is foreign, as one that isn't UTF-8 is.
fn name_of(entry: io::Result<fs::DirEntry>) -> Result<Option<FileName>, HostFault> {
    match entry {
        Ok(entry) => Ok(parse_name(entry.file_name())),
        Err(error) if error.kind() == io::ErrorKind::InvalidFilename => Ok(None),
        Err(error) => Err(fault_of(error)),
    }
}

fn in_order(names: &BTreeSet<FileName>, alloc: Global) -> Result<Vec<FileName>, HostFault>
    ensures { IfOk result (λ names. IsStrictlySortedBy name_cmp names.items) }
{
    let names = names.iter().copied().collect(alloc)?;
    Ok(names)
}
