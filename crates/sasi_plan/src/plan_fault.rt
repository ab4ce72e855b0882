// Why a reader gives no row.
ghost use Rattle.std.specs.Prelude.{◌≡◌};
ghost use Rattle.sasi_plan.specs.Faults.{fault_of_read};
ghost use Rattle.sasi_plan.specs.declared.plan_fault.PlanFault.TheVariants.{OutOfMemory};

use sasi_host::{Damage, ReadFault};
use sasi_types::Class;
use std::alloc::AllocError;

/// Why a reader gives no row.
#[derive(Clone, Copy, Debug, PartialEq, Eq)]
pub enum PlanFault {
    /// An I/O error.
    Failed,
    /// Memory can't grow.
    OutOfMemory,
    /// A file of the view is corrupt.
    Damaged(Damage),
    /// The WHERE asks an index that needs an analyzer of this class, and the kit has none.
    Missing(Class),
}

impl From<AllocError> for PlanFault {
    ghost from_gives = { λ _ f. f ≡ OutOfMemory };

    fn from(_: AllocError) -> PlanFault {
        PlanFault::OutOfMemory
    }
}

impl From<ReadFault> for PlanFault {
    ghost from_gives = { λ fault f. f ≡ fault_of_read fault };

    fn from(fault: ReadFault) -> PlanFault {
        match fault {
            ReadFault::Failed => PlanFault::Failed,
            ReadFault::OutOfMemory => PlanFault::OutOfMemory,
            ReadFault::Damaged(damage) => PlanFault::Damaged(damage),
        }
    }
}
