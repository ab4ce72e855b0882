// The names of files in a folder.
ghost use Rattle.std.specs.Prelude.{◌≡◌, ℕ, ◌<◌, ◌^◌, Some, IfSome};
ghost use Rattle.std.specs.Fmt.{decimal};
ghost use Rattle.sasi_names.specs.NameText.{word_of, HasNumbers, Fits, name_text};

use sasi_host::{FileName, Kind};
use std::fmt;

/// How many bytes the longest name has.
pub const MAX_NAME_LENGTH: usize = 40;

/// A file name, printed as in the folder.
#[derive(Clone, Copy, Debug)]
pub struct NameText(pub FileName);

impl fmt::Display for NameText {
    ghost output = { λ t. Some (name_text t.0) };

    fn fmt<W: fmt::Write>(&self, f: &mut fmt::Formatter<W>) -> fmt::Result {
        let FileName {
            kind,
            number,
            index,
            part,
        } = self.0;
        let word = word_of(kind);
        match kind {
            Kind::Index | Kind::Segment => write!(f, "{word}-{number}-{index}-{part}"),
            _ => write!(f, "{word}-{number}"),
        }
    }
}

// The word before the numbers.
fn word_of(kind: Kind) -> &'static str
    ensures { result.now ≡ word_of kind }
{
    match kind {
        Kind::Manifest => "manifest",
        Kind::Seal => "seal",
        Kind::Log => "log",
        Kind::Data => "data",
        Kind::Index => "index",
        Kind::Segment => "segment",
    }
}

fn kind_of(word: &str) -> Option<Kind>
    ensures spelled { IfSome result (λ kind. word.now ≡ word_of kind) }
    ensures complete { (kind : Kind) → word.now ≡ word_of kind → result ≡ Some kind }
{
    match word {
        "manifest" => Some(Kind::Manifest),
        "seal" => Some(Kind::Seal),
        "log" => Some(Kind::Log),
        "data" => Some(Kind::Data),
        "index" => Some(Kind::Index),
        "segment" => Some(Kind::Segment),
        _ => None,
    }
}

// A number from 1 to 2^32 - 1 without a sign or leading zeros.
fn number_of(text: &str) -> Option<u32>
    ensures spelled { IfSome result (λ number. (0 < number) × (text.now ≡ decimal number)) }
    ensures complete { (number : ℕ) → 0 < number → number < 2 ^ 32 → text.now ≡ decimal number → result ≡ Some number }
{
    let first = *text.as_bytes().first()?;
    if first < b'1' || first > b'9' {
        return None;
    }
    match text.parse() {
        Ok(number) => Some(number),
        Err(_) => None,
    }
}

/// Parses the name of a file in the folder; None where it is foreign.
pub fn parse_name(text: &str) -> Option<FileName>
    ensures spelled { IfSome result (λ name. text.now ≡ name_text name) }
    ensures numbers { IfSome result (λ name. HasNumbers name.kind name) }
    ensures complete { (name : FileName) → HasNumbers name.kind name → Fits name → text.now ≡ name_text name → result ≡ Some name }
{
    let (word, numbers) = text.split_once('-')?;
    let kind = kind_of(word)?;
    match kind {
        Kind::Index | Kind::Segment => {
            let (number, parts) = numbers.split_once('-')?;
            let (index, part) = parts.split_once('-')?;
            Some(FileName {
                kind,
                number: number_of(number)?,
                index: number_of(index)?,
                part: number_of(part)?,
            })
        }
        _ => Some(FileName {
            kind,
            number: number_of(numbers)?,
            index: 0,
            part: 0,
        }),
    }
}
