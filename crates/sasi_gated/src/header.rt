// The header of a gated file.
ghost use Rattle.std.specs.Prelude.{◌≡◌, ◌<◌, ◌++◌, [], List, ℕ, length, IfErr, OnOk};
ghost use Rattle.sasi_gated.specs.Format.{header, magic};
ghost use Rattle.sasi_gated.specs.Damages.{IsGatedDamage};

use crate::damage::truncated;
use sasi_formats::check_header;
use sasi_host::{Damage, FileName, Kind};

// The offset of the first gate.
pub const HEADER_LENGTH: u64 = 16;

const HEADER: usize = HEADER_LENGTH as usize;

pub fn magic_of(kind: Kind) -> &'static [u8]
    ensures { result.now ≡ magic kind }
{
    match kind {
        Kind::Manifest => b"SASIMAN1",
        _ => b"SASILOG1",
    }
}

// Checks that a file whose first page this is begins with its header.
pub fn check_page(file: FileName, page: &[u8]) -> Result<(), Damage>
    ensures ok { OnOk result ((rest : List ℕ) × (page.now ≡ header file ++ rest)) }
    ensures damaged { IfErr result (λ damage. (more : List ℕ) → (length page.now < 16 → more ≡ []) → IsGatedDamage file (page.now ++ more) damage) }
{
    if page.len() < HEADER {
        return Err(truncated(file, page.len() as u64));
    }
    check_header(file, magic_of(file.kind), file.number, &page[..HEADER])?;
    Ok(())
}
