// Words: keywords, in upper or lower case, and names.
ghost use Rattle.std.specs.Prelude.{◌≡◌, IfOk};
ghost use Rattle.std.specs.List.{list_any};
ghost use Rattle.sasi_model.specs.Abbreviations.{lower};
ghost use Rattle.sasi_model.specs.Statements.{is_name, reserved, same};

use crate::byte::lower_byte;
use sasi_types::Name;
use std::alloc::{AllocError, Global};

// The most bytes that a name has.
const NAME_LIMIT: usize = 48;

/// The word spells the keyword, in whichever case. The calls go no deeper than the keyword is long.
pub fn spells(word: &[u8], keyword: &[u8]) -> bool
    ensures { result ≡ same (lower word.now) (lower keyword.now) }
{
    match (word, keyword) {
        ([], []) => true,
        ([byte, word @ ..], [wanted, keyword @ ..]) => {
            lower_byte(*byte) == lower_byte(*wanted) && spells(word, keyword)
        }
        _ => false,
    }
}

/// The name that a word spells in lower case.
pub fn lower_name(alloc: Global, word: &[u8]) -> Result<Name, AllocError>
    ensures { IfOk result (λ name. name ≡ lower word.now) }
{
    let bytes = lowered(alloc, word)?;
    Ok(Name::new(bytes))
}

fn lowered(alloc: Global, word: &[u8]) -> Result<Vec<u8>, AllocError>
    ensures { IfOk result (λ bytes. bytes.items ≡ lower word.now) }
{
    word.iter().map(|byte| lower_byte(*byte)).collect(alloc)
}

fn is_reserved(word: &[u8]) -> bool
    ensures { result ≡ list_any (same (lower word.now)) reserved }
{
    spells(word, b"allow")
        || spells(word, b"and")
        || spells(word, b"at")
        || spells(word, b"from")
        || spells(word, b"like")
        || spells(word, b"limit")
        || spells(word, b"null")
        || spells(word, b"on")
        || spells(word, b"or")
        || spells(word, b"primary")
        || spells(word, b"set")
        || spells(word, b"using")
        || spells(word, b"values")
        || spells(word, b"where")
}

/// The word is a name.
pub fn is_name(word: &[u8]) -> bool
    ensures { result ≡ is_name (lower word.now) }
{
    word.len() <= NAME_LIMIT && !is_reserved(word)
}
