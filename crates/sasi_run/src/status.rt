// How a run ended.
ghost use Rattle.std.specs.Prelude.{◌≡◌};
ghost use Rattle.sasi_run.specs.StatusCodes.{code_of};

use sasi_host::Damage;
use sasi_layout::NumberKind;
use sasi_types::{Class, Partitioner};

/// How a run ended.
#[derive(Clone, Copy, Debug, PartialEq, Eq)]
pub enum Status {
    /// The script was read to its end, and nothing was refused.
    Done,
    /// The script was read to its end, and so many pieces were refused.
    Refused(u64),
    /// The words are no command line.
    Usage,
    /// The script could not be read.
    ScriptFault,
    /// A file of the folder could not be read or written.
    FolderFault,
    /// A reply could not be written.
    OutputFault,
    OutOfMemory,
    /// A file of the folder breaks its format.
    Damaged(Damage),
    /// The words ask for a partitioner, and the folder keeps another.
    PartitionerDiffers {
        asked: Partitioner,
        kept: Partitioner,
    },
    /// An index needs an analyzer of this class, and none was handed in.
    AnalyzerMissing(Class),
    /// A statement needs another number of this kind, and the last one is used.
    NumbersSpent(NumberKind),
    /// The source gave more than 2^40 bytes.
    ScriptTooLong,
}

impl Status {
    /// The exit status of the program.
    pub fn code(self) -> u8
        ensures { result ≡ code_of self }
    {
        match self {
            Status::Done => 0,
            Status::Refused(_) => 1,
            Status::Usage => 2,
            Status::ScriptFault => 3,
            Status::FolderFault => 4,
            Status::OutputFault => 5,
            Status::OutOfMemory => 6,
            Status::Damaged(_) => 7,
            Status::AnalyzerMissing(_) => 8,
            Status::PartitionerDiffers { .. } => 9,
            Status::NumbersSpent(_) => 10,
            Status::ScriptTooLong => 11,
        }
    }
}
