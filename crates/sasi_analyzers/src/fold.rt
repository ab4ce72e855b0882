// Texts in which the letters A to Z become a to z.
ghost use Rattle.std.specs.Prelude.{◌≡◌, IfOk};
ghost use Rattle.sasi_terms.specs.Terms.{fold_byte, folded};

use std::alloc::{AllocError, Global};

fn fold_byte(byte: u8) -> u8
    ensures { result ≡ fold_byte byte }
{
    if byte.is_ascii_uppercase() {
        byte + 32
    } else {
        byte
    }
}

/// A copy of the text, in which A to Z become a to z where `fold` is set.
pub fn folded(alloc: Global, fold: bool, text: &[u8]) -> Result<Vec<u8>, AllocError>
    ensures { IfOk result (λ copy. copy.items ≡ folded fold text.now) }
{
    if !fold {
        return text.to_vec(alloc);
    }
    text.iter().map(|byte| fold_byte(*byte)).collect(alloc)
}
