// Why a store makes no step.
ghost use Rattle.std.specs.Prelude.{◌≡◌};
ghost use Rattle.sasi_tables.specs.declared.fault.StepFault.TheVariants.{AnalyzerMissing, Failed as StepFailed, NumbersSpent, OutOfMemory};

use sasi_host::{Damage, Failed, HostFault, ReadFault};
use sasi_layout::NumberKind;
use sasi_pairs::PairFault;
use sasi_types::{Class, KitFault};
use std::alloc::AllocError;

/// Why a store makes no step.
#[derive(Clone, Copy, Debug, PartialEq, Eq)]
pub enum StepFault {
    Failed,
    OutOfMemory,
    Damaged(Damage),
    /// The statement needs a number, and the last one of this kind is used.
    NumbersSpent(NumberKind),
    /// The statement makes an index that needs an analyzer of this class, and none was handed in.
    AnalyzerMissing(Class),
}

impl From<Class> for StepFault {
    ghost from_gives = { λ class f. f ≡ AnalyzerMissing class };

    fn from(class: Class) -> StepFault {
        StepFault::AnalyzerMissing(class)
    }
}

impl From<KitFault> for StepFault {
    ghost use Rattle.sasi_tables.specs.Faults.{fault_of_kit};

    ghost from_gives = { λ fault f. f ≡ fault_of_kit fault };

    fn from(fault: KitFault) -> StepFault {
        match fault {
            KitFault::OutOfMemory => StepFault::OutOfMemory,
            KitFault::Missing(class) => StepFault::AnalyzerMissing(class),
        }
    }
}

impl From<AllocError> for StepFault {
    ghost from_gives = { λ _ f. f ≡ OutOfMemory };

    fn from(_: AllocError) -> StepFault {
        StepFault::OutOfMemory
    }
}

impl From<NumberKind> for StepFault {
    ghost from_gives = { λ kind f. f ≡ NumbersSpent kind };

    fn from(kind: NumberKind) -> StepFault {
        StepFault::NumbersSpent(kind)
    }
}

impl From<HostFault> for StepFault {
    ghost use Rattle.sasi_tables.specs.Faults.{fault_of_call};

    ghost from_gives = { λ fault f. f ≡ fault_of_call fault };

    fn from(fault: HostFault) -> StepFault {
        match fault {
            HostFault::Failed => StepFault::Failed,
            HostFault::OutOfMemory => StepFault::OutOfMemory,
        }
    }
}

impl From<ReadFault> for StepFault {
    ghost use Rattle.sasi_tables.specs.Faults.{fault_of_read};

    ghost from_gives = { λ fault f. f ≡ fault_of_read fault };

    fn from(fault: ReadFault) -> StepFault {
        match fault {
            ReadFault::Failed => StepFault::Failed,
            ReadFault::OutOfMemory => StepFault::OutOfMemory,
            ReadFault::Damaged(damage) => StepFault::Damaged(damage),
        }
    }
}

impl From<Failed> for StepFault {
    ghost from_gives = { λ _ f. f ≡ StepFailed };

    fn from(_: Failed) -> StepFault {
        StepFault::Failed
    }
}

impl From<PairFault> for StepFault {
    ghost use Rattle.sasi_tables.specs.Faults.{fault_of_pair};

    ghost from_gives = { λ fault f. f ≡ fault_of_pair fault };

    fn from(fault: PairFault) -> StepFault {
        match fault {
            PairFault::Failed => StepFault::Failed,
            PairFault::OutOfMemory => StepFault::OutOfMemory,
            PairFault::Damaged(damage) => StepFault::Damaged(damage),
            PairFault::Missing(class) => StepFault::AnalyzerMissing(class),
        }
    }
}
