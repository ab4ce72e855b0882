// The damage of a file that ends too early.
ghost use Rattle.std.specs.Prelude.{◌≡◌, List, ℕ, length};
ghost use Rattle.sasi_gated.specs.Damages.{TellsSize};

use sasi_host::{Damage, FileName, FormatRule, found};

// The file ends too early: it has so many bytes.
pub fn truncated(file: FileName, size: u64) -> Damage
    ensures { (bytes : List ℕ) → length bytes ≡ size → TellsSize file bytes result }
{
    found(file, size, FormatRule::Short, &size.to_be_bytes())
}
