// Why a call on a host, or a read of a format on one, fails.
ghost use Rattle.std.specs.Prelude.{◌≡◌};
ghost use Rattle.sasi_host.specs.declared.fault.HostFault.TheVariants as host_fault;
ghost use Rattle.sasi_host.specs.declared.fault.ReadFault.TheVariants as read_fault;

use crate::{Damage, Failed};
use std::alloc::AllocError;

/// Why a call on a host fails.
#[derive(Clone, Copy, Debug, PartialEq, Eq)]
pub enum HostFault {
    /// An I/O error.
    Failed,
    /// Memory can't grow.
    OutOfMemory,
}

impl From<Failed> for HostFault {
    ghost from_gives = { λ _ f. f ≡ host_fault.Failed };

    fn from(_: Failed) -> HostFault {
        HostFault::Failed
    }
}

impl From<AllocError> for HostFault {
    ghost from_gives = { λ _ f. f ≡ host_fault.OutOfMemory };

    fn from(_: AllocError) -> HostFault {
        HostFault::OutOfMemory
    }
}

/// Why a read of a format fails.
#[derive(Clone, Copy, Debug, PartialEq, Eq)]
pub enum ReadFault {
    /// An I/O error.
    Failed,
    /// Memory can't grow.
    OutOfMemory,
    /// The file is corrupt.
    Damaged(Damage),
}

impl From<Failed> for ReadFault {
    ghost from_gives = { λ _ f. f ≡ read_fault.Failed };

    fn from(_: Failed) -> ReadFault {
        ReadFault::Failed
    }
}

impl From<AllocError> for ReadFault {
    ghost from_gives = { λ _ f. f ≡ read_fault.OutOfMemory };

    fn from(_: AllocError) -> ReadFault {
        ReadFault::OutOfMemory
    }
}

impl From<Damage> for ReadFault {
    ghost from_gives = { λ damage f. f ≡ read_fault.Damaged damage };

    fn from(damage: Damage) -> ReadFault {
        ReadFault::Damaged(damage)
    }
}

impl From<HostFault> for ReadFault {
    ghost use Rattle.sasi_host.specs.Faults.{read_fault_of};

    ghost from_gives = { λ fault f. f ≡ read_fault_of fault };

    fn from(fault: HostFault) -> ReadFault {
        match fault {
            HostFault::Failed => ReadFault::Failed,
            HostFault::OutOfMemory => ReadFault::OutOfMemory,
        }
    }
}
