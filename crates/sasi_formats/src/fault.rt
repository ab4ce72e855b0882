// Why bytes can't be decoded in a format.
ghost use Rattle.std.specs.Prelude.{◌≡◌, take};
ghost use Rattle.sasi_host.specs.Damages.{seen_bytes};
ghost use Rattle.sasi_formats.specs.declared.fault.FormatFault.TheVariants as fault;

use sasi_fields::ShortField;
use sasi_host::{FormatRule, Seen};
use std::alloc::AllocError;

/// A broken rule of a format, its offset, and the bytes there.
#[derive(Clone, Copy, Debug, PartialEq, Eq)]
pub struct Broken {
    pub rule: FormatRule,
    /// The offset from the start of the bytes.
    pub at: usize,
    pub seen: Seen,
}

/// Why bytes can't be decoded in a format: out of memory, or corruption.
#[derive(Clone, Copy, Debug, PartialEq, Eq)]
pub enum FormatFault {
    OutOfMemory,
    /// The bytes end too early.
    Short,
    /// Other bytes follow the value.
    Long,
    Broken(Broken),
}

/// The bytes at this offset break the rule. The first eight of them are reported.
pub fn broken_at(rule: FormatRule, at: usize, bytes: &[u8]) -> Broken
    ensures rule { result.rule ≡ rule }
    ensures at { result.at ≡ at }
    ensures seen { seen_bytes result.seen ≡ take 8 bytes.now }
{
    Broken {
        rule,
        at,
        seen: Seen::of(bytes),
    }
}

impl From<AllocError> for FormatFault {
    ghost from_gives = { λ _ f. f ≡ fault.OutOfMemory };

    fn from(_: AllocError) -> FormatFault {
        FormatFault::OutOfMemory
    }
}

impl From<ShortField> for FormatFault {
    ghost from_gives = { λ _ f. f ≡ fault.Short };

    fn from(_: ShortField) -> FormatFault {
        FormatFault::Short
    }
}
