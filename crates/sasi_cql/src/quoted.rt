// Strings between quotes.
ghost use Rattle.std.specs.Prelude.{◌≡◌, IfOk};
ghost use Rattle.sasi_model.specs.Tokens.{quoted_text};
ghost use Rattle.sasi_cql.specs.ModelTokens.{closes_string, is_first_quote, quoted_size, undoubled};

use sasi_types::Text;
use std::alloc::{AllocError, Global};

// The byte closes a string. `quote` says that the byte before it is a quote, and may be the first of two.
fn closes_string(quote: bool, byte: u8) -> bool
    ensures { result ≡ closes_string quote byte }
{
    quote && byte != b'\''
}

// It is a quote itself, and the first of two, if there are two.
fn is_first_quote(quote: bool, byte: u8) -> bool
    ensures { result ≡ is_first_quote quote byte }
{
    !quote && byte == b'\''
}

/// The number of bytes of a string after its opening quote, the closing one included.
pub fn string_size(bytes: &[u8]) -> Option<usize>
    ensures { result ≡ quoted_size (quoted_text bytes.now) }
{
    let mut quote = false;
    'bytes: for (i, byte) in bytes.iter().enumerate() {
        if closes_string(quote, *byte) {
            return Some(i);
        }
        quote = is_first_quote(quote, *byte);
    }
    quote.then_some(bytes.len())
}

/// The text of a string, from the bytes between its quotes.
pub fn text_of(alloc: Global, bytes: &[u8]) -> Result<Text, AllocError>
    ensures { IfOk result (λ text. text ≡ undoubled bytes.now) }
{
    let mut text = Vec::new(alloc);
    let mut quote = false;
    'bytes: for byte in bytes {
        if !quote {
            text.push(*byte)?;
        }
        quote = is_first_quote(quote, *byte);
    }
    Ok(Text::new(text))
}
