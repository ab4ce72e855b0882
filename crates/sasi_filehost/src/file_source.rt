// A script file as a source.
ghost use Rattle.std.specs.Prelude.{◌≡◌, IsErr, IfOk};
ghost use Rattle.std.specs.Io.{ReadsAtMost};
ghost use Rattle.sasi_host.specs.View.{SourceCauses};
ghost use Rattle.sasi_filehost.specs.RealFiles.{source_told, IsUnopened};

use sasi_host::{Failed, Source};
use std::alloc::AllocError;
use std::fs;
use std::io::{self, Read};

/// A script file. It tells how often it failed, and nothing of what it holds.
#[derive(Drop)]
pub struct FileSource {
    file: Option<fs::File>,
    reads: u64,
    faults: u64,
    failed_last: bool,
}

impl FileSource {
    /// The script at this path. If it can't be opened, each read fails.
    pub fn at(rt: HostRuntime, path: &str) -> Result<FileSource, AllocError>
        ensures { IfOk result (λ source. ((source_told source).reads ≡ 0) × ((source_told source).faults ≡ 0)) }
    {
        Ok(FileSource {
            file: fs::open(&rt, path).ok(),
            reads: 0,
            faults: 0,
            failed_last: false,
        })
    }
}

impl Source for FileSource {
    ghost view = { source_told };

    fn read(&mut self, buf: &mut [u8]) -> Result<usize, Failed>
        ensures bound { ReadsAtMost result buf.new }
        ensures causes { SourceCauses (source_told self.old) (source_told self.new) result }
        ensures unopened { IsUnopened self.old → IsErr result × IsUnopened self.new }
    {
        self.reads = self.reads.saturating_add(1);
        self.failed_last = false;
        if let Some(file) = &mut self.file {
            if let Ok(count) = read_again(file, buf) {
                return Ok(count);
            }
        }
        self.failed_last = true;
        self.faults = self.faults.saturating_add(1);
        Err(Failed)
    }
}

// Reads, and tries again where a signal interrupted the call.
fn read_again(file: &mut fs::File, buf: &mut [u8]) -> io::Result<usize>
    ensures { ReadsAtMost result buf.new }
{
    for _ in 0..u64::MAX {
        match file.read(buf) {
            Err(error) if error.kind() == io::ErrorKind::Interrupted => {}
            answer => return answer,
        }
    }
    Err(io::ErrorKind::Interrupted.into())
}
