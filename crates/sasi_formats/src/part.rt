// Parts of a file that have a format.
ghost use Rattle.std.specs.Prelude.{◌≡◌, ◌+◌, ◌^◌, ◌<◌};
ghost use Rattle.sasi_formats.specs.Parts.{HasRule, damage_by};

use crate::fault::FormatFault;
use sasi_host::{Damage, FileName};

/// The damage of a file whose part at this offset breaks a rule.
pub fn damage_in(file: FileName, offset: u64, fault: FormatFault) -> Damage
    requires { HasRule (λ broken. offset + broken.at < 2 ^ 64) fault }
    ensures { HasRule (λ broken. result ≡ damage_by file offset broken) fault }
{
    match fault {
        FormatFault::Broken(broken) => Damage {
            file,
            at: offset + broken.at as u64,
            rule: broken.rule,
            seen: broken.seen,
        },
        FormatFault::OutOfMemory => unreachable!(),
        FormatFault::Short => unreachable!(),
        FormatFault::Long => unreachable!(),
    }
}
