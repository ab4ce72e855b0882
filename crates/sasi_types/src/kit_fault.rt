// Why a kit gives no terms of a text.
ghost use Rattle.std.specs.Prelude.{◌≡◌};
ghost use Rattle.sasi_types.specs.declared.kit_fault.KitFault.TheVariants.{OutOfMemory};

use crate::Class;
use std::alloc::AllocError;

/// Why a kit of analyzers gives no terms.
#[derive(Clone, Copy, Debug, PartialEq, Eq)]
pub enum KitFault {
    /// No analyzer of this class was handed in.
    Missing(Class),
    OutOfMemory,
}

impl From<AllocError> for KitFault {
    ghost from_gives = { λ _ f. f ≡ OutOfMemory };

    fn from(_: AllocError) -> KitFault {
        KitFault::OutOfMemory
    }
}
