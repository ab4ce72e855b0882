// Why a data file and its indexes can't be written.
ghost use Rattle.std.specs.Prelude.{◌≡◌};
ghost use Rattle.sasi_datawrite.specs.declared.fault.PairFault.TheVariants as pair;

use sasi_host::{Damage, Failed, HostFault, ReadFault};
use sasi_types::{Class, KitFault};
use std::alloc::AllocError;

/// Why a data file, or an index file that goes with it, can't be written.
#[derive(Clone, Copy, Debug, PartialEq, Eq)]
pub enum PairFault {
    Failed,
    OutOfMemory,
    Damaged(Damage),
    /// No analyzer of this class was handed in.
    Missing(Class),
}

impl From<AllocError> for PairFault {
    ghost from_gives = { λ _ f. f ≡ pair.OutOfMemory };

    fn from(_: AllocError) -> PairFault {
        PairFault::OutOfMemory
    }
}

impl From<Failed> for PairFault {
    ghost from_gives = { λ _ f. f ≡ pair.Failed };

    fn from(_: Failed) -> PairFault {
        PairFault::Failed
    }
}

impl From<HostFault> for PairFault {
    ghost use Rattle.sasi_datawrite.specs.Causes.{of_host};

    ghost from_gives = { λ fault f. f ≡ of_host fault };

    fn from(fault: HostFault) -> PairFault {
        match fault {
            HostFault::Failed => PairFault::Failed,
            HostFault::OutOfMemory => PairFault::OutOfMemory,
        }
    }
}

impl From<ReadFault> for PairFault {
    ghost use Rattle.sasi_datawrite.specs.Causes.{of_read};

    ghost from_gives = { λ fault f. f ≡ of_read fault };

    fn from(fault: ReadFault) -> PairFault {
        match fault {
            ReadFault::Failed => PairFault::Failed,
            ReadFault::OutOfMemory => PairFault::OutOfMemory,
            ReadFault::Damaged(damage) => PairFault::Damaged(damage),
        }
    }
}

impl From<KitFault> for PairFault {
    ghost use Rattle.sasi_datawrite.specs.Causes.{of_kit};

    ghost from_gives = { λ fault f. f ≡ of_kit fault };

    fn from(fault: KitFault) -> PairFault {
        match fault {
            KitFault::Missing(class) => PairFault::Missing(class),
            KitFault::OutOfMemory => PairFault::OutOfMemory,
        }
    }
}
