// Why a reader of a form halts.
ghost use Rattle.std.specs.Prelude.{◌≡◌};
ghost use Rattle.sasi_cql.specs.declared.halt.Halt.TheVariants.{OutOfMemory};

use std::alloc::AllocError;

/// Why a reader of a form halts.
#[derive(Clone, Copy)]
pub enum Halt {
    /// No text of the form goes on with the next token. From it on the text has so many tokens.
    Stuck(usize),
    OutOfMemory,
}

impl From<AllocError> for Halt {
    ghost from_gives = { λ _ h. h ≡ OutOfMemory };

    fn from(_error: AllocError) -> Halt {
        Halt::OutOfMemory
    }
}
