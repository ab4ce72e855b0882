// The seals among the names of a folder.
ghost use Rattle.std.specs.Prelude.{◌≡◌, ◌++◌, ◌∷◌, [], List};
ghost use Rattle.sasi_host.specs.declared.name.FileName.{FileName as AName};
ghost use Rattle.sasi_host.specs.Names.{seal_name};
ghost use Rattle.sasi_recover.specs.Opening.{IsHighestSeal, IsSealNumber};

use sasi_host::{FileName, ManifestNumber};

/// The number of the highest seal among the names, if there is one.
pub fn highest_seal(names: &[FileName]) -> Option<ManifestNumber>
    ensures { IsHighestSeal names.now result }
{
    let mut highest = None;
    for name in names {
        highest = higher(highest, *name);
    }
    highest
}

// The higher of this number and the name's, if the name is that of a seal.
fn higher(highest: Option<ManifestNumber>, name: FileName) -> Option<ManifestNumber>
    ensures { (before : List AName) → IsHighestSeal before highest → IsHighestSeal (before ++ name ∷ []) result }
{
    let Some(number) = seal_number(name) else {
        return highest;
    };
    match highest {
        None => Some(number),
        Some(other) => {
            if other < number {
                Some(number)
            } else {
                Some(other)
            }
        }
    }
}

fn seal_number(name: FileName) -> Option<ManifestNumber>
    ensures { IsSealNumber name result }
{
    if name == FileName::seal(name.number) {
        Some(name.number)
    } else {
        None
    }
}
