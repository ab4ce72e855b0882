// Spaces and comments between tokens.
ghost use Rattle.std.specs.Prelude.{◌≡◌, ◌&&◌, ◌||◌, drop, true, false};
ghost use Rattle.sasi_model.specs.Pieces.{closes, is_block, is_line, is_space, opened_by, to_byte, to_close};
ghost use Rattle.sasi_model.specs.Abbreviations.{behind_first};
ghost use Rattle.sasi_model.specs.Tokens.{is_separator};
ghost use Rattle.sasi_cql.specs.ModelTokens.{Skips, SkipsIf};

use crate::byte::{is_space, starts};

fn is_line(first: u8, behind: &[u8]) -> bool
    ensures { result ≡ is_line first behind.now }
{
    (first == b'-' && starts(b'-', behind)) || (first == b'/' && starts(b'/', behind))
}

fn is_block(first: u8, behind: &[u8]) -> bool
    ensures { result ≡ is_block first behind.now }
{
    first == b'/' && starts(b'*', behind)
}

// The rest after the end of the line.
fn behind_line<'a>(bytes: &'a [u8]) -> &'a [u8]
    ensures { result.now ≡ drop (to_byte 10 bytes.now) bytes.now }
{
    let mut left = bytes;
    'bytes: while let Some((first, behind)) = left.split_first() {
        if *first == b'\n' {
            return behind;
        }
        left = behind;
    }
    left
}

// The rest after the first `*/`, if there is one.
fn behind_close<'a>(bytes: &'a [u8]) -> Option<&'a [u8]>
    ensures { SkipsIf (closes bytes.now) (to_close bytes.now) bytes.now result }
{
    let mut left = bytes;
    'bytes: while let Some((first, behind)) = left.split_first() {
        if *first == b'*' && starts(b'/', behind) {
            let (_, rest) = behind.split_at(1);
            return Some(rest);
        }
        left = behind;
    }
    None
}

// The rest after a space, or a comment up to the end of its line.
fn short_separator<'a>(first: u8, behind: &'a [u8]) -> Option<&'a [u8]>
    ensures { SkipsIf (is_space first || is_line first behind.now) (opened_by first behind.now) behind.now result }
{
    if is_space(first) {
        Some(behind)
    } else if is_line(first, behind) {
        Some(behind_line(behind))
    } else {
        None
    }
}

// The rest after a comment up to its `*/`. `unclosed` says that there is no further `*/`: a `/*` that nothing closes
// is no comment, and the text after it is searched only once.
fn block<'a>(first: u8, behind: &'a [u8], unclosed: &mut bool) -> Option<&'a [u8]>
    requires { unclosed.old ≡ true → closes behind.now ≡ false }
    ensures found { SkipsIf (is_block first behind.now && closes (behind_first behind.now)) (opened_by first behind.now) behind.now result }
    ensures kept { unclosed.new ≡ true → closes (behind_first behind.now) ≡ false }
{
    if *unclosed || !is_block(first, behind) {
        return None;
    }
    let (_, body) = behind.split_at(1);
    let rest = behind_close(body);
    *unclosed = rest.is_none();
    rest
}

// The rest after a space or a comment, if the bytes begin with one. `unclosed` says that there is no further `*/`.
#[tactic(auto, unfolding(sasi_model::specs::Tokens::is_separator))]
fn separator<'a>(first: u8, behind: &'a [u8], unclosed: &mut bool) -> Option<&'a [u8]>
    requires { unclosed.old ≡ true → closes behind.now ≡ false }
    ensures found { SkipsIf (is_separator first behind.now) (opened_by first behind.now) behind.now result }
    ensures kept { unclosed.new ≡ true → closes (behind_first behind.now) ≡ false }
{
    if let Some(rest) = short_separator(first, behind) {
        return Some(rest);
    }
    block(first, behind, unclosed)
}

/// The rest after the spaces and comments that a text begins with. `unclosed` says that there is no further `*/`.
pub fn skip_separators<'a>(text: &'a [u8], unclosed: &mut bool) -> &'a [u8]
    requires { unclosed.old ≡ true → closes (behind_first text.now) ≡ false }
    ensures skips { Skips text.now result.now }
    ensures kept { unclosed.new ≡ true → closes (behind_first (behind_first result.now)) ≡ false }
{
    let mut left = text;
    'separators: while let Some((first, behind)) = left.split_first() {
        let Some(rest) = separator(*first, behind, unclosed) else {
            return left;
        };
        left = rest;
    }
    left
}
