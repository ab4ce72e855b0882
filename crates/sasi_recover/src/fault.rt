// Why a folder isn't opened.
ghost use Rattle.std.specs.Prelude.{◌≡◌};
ghost use Rattle.sasi_host.specs.Faults.{read_fault_of};
ghost use Rattle.sasi_recover.specs.Faults.{open_fault_of};
ghost use Rattle.sasi_recover.specs.declared.fault.OpenFault.TheVariants.{AnalyzerMissing};

use sasi_host::{Damage, HostFault, ReadFault};
use sasi_types::{Class, Partitioner};

/// Why a folder isn't opened.
#[derive(Clone, Copy)]
pub enum OpenFault {
    Failed,
    OutOfMemory,
    Damaged(Damage),
    /// A partitioner is asked, and the folder keeps another.
    PartitionerDiffers {
        asked: Partitioner,
        kept: Partitioner,
    },
    /// A listed index needs an analyzer of this class, and none was handed in.
    AnalyzerMissing(Class),
}

impl From<Class> for OpenFault {
    ghost from_gives = { λ class f. f ≡ AnalyzerMissing class };

    fn from(class: Class) -> OpenFault {
        OpenFault::AnalyzerMissing(class)
    }
}

impl From<ReadFault> for OpenFault {
    ghost from_gives = { λ fault f. f ≡ open_fault_of fault };

    fn from(fault: ReadFault) -> OpenFault {
        match fault {
            ReadFault::Failed => OpenFault::Failed,
            ReadFault::OutOfMemory => OpenFault::OutOfMemory,
            ReadFault::Damaged(damage) => OpenFault::Damaged(damage),
        }
    }
}

impl From<HostFault> for OpenFault {
    ghost from_gives = { λ fault f. f ≡ open_fault_of (read_fault_of fault) };

    fn from(fault: HostFault) -> OpenFault {
        match fault {
            HostFault::Failed => OpenFault::Failed,
            HostFault::OutOfMemory => OpenFault::OutOfMemory,
        }
    }
}
