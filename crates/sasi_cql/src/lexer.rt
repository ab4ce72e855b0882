// From the bytes of a text to its first token.
ghost use Rattle.std.specs.Prelude.{◌≡◌, ◌≤◌, ◌∷◌, length, true, false, Some};
ghost use Rattle.sasi_model.specs.Pieces.{closes};
ghost use Rattle.sasi_model.specs.Abbreviations.{behind_first};
ghost use Rattle.sasi_model.specs.Tokens.{lexeme, name_lexeme, other_lexeme, quoted_text, sign, sign_lexeme, string_lexeme, uuid_in_front, word_lexeme, word_on};
ghost use Rattle.sasi_cql.specs.ModelTokens.{IsLexeme, IsNext, model_token, quoted_size, StaysUnclosed};

use crate::byte::{is_digit, is_letter, is_word_byte, starts, starts_digit, starts_word};
use crate::integer::{negative_integer, positive_integer};
use crate::quoted::string_size;
use crate::separator::skip_separators;
use crate::token::Token;
use uuid::Uuid;

// The length of a uuid in a text.
const UUID_SIZE: usize = 36;

// The most bytes that a name has.
const NAME_LIMIT: usize = 48;

fn short_sign(byte: u8) -> Token<'static>
    ensures { model_token result ≡ sign byte }
{
    match byte {
        b'(' => Token::Open,
        b')' => Token::Close,
        b',' => Token::Comma,
        b'*' => Token::Star,
        b'=' => Token::Equal,
        b'<' => Token::Less,
        b'>' => Token::More,
        b':' => Token::Colon,
        b'{' => Token::OpenBrace,
        b'}' => Token::CloseBrace,
        b';' => Token::Semicolon,
        _ => Token::Unknown,
    }
}

// The sign that begins with a byte, or the token of a byte that begins none.
fn sign<'a>(first: u8, behind: &'a [u8]) -> (Token<'a>, &'a [u8])
    ensures { IsLexeme (sign_lexeme first behind.now) behind.now result.0 result.1.now }
{
    if first == b'<' && starts(b'=', behind) {
        (Token::LessEqual, behind.split_at(1).1)
    } else if first == b'>' && starts(b'=', behind) {
        (Token::MoreEqual, behind.split_at(1).1)
    } else {
        (short_sign(first), behind)
    }
}

// The number of bytes at the start that go on with a word.
fn word_length(bytes: &[u8]) -> usize
    ensures value { result ≡ word_on bytes.now }
    ensures bound { result ≤ length bytes.now }
{
    bytes.iter().take_while(|byte| is_word_byte(**byte)).count()
}

// The word that begins with a letter.
fn word<'a>(first: u8, bytes: &'a [u8], behind: &'a [u8]) -> (Token<'a>, &'a [u8])
    requires { bytes.now ≡ first ∷ behind.now }
    ensures { IsLexeme (word_lexeme first behind.now) behind.now result.0 result.1.now }
{
    let size = word_length(behind);
    let (word, _) = bytes.split_at(1 + size);
    let (_, left) = behind.split_at(size);
    (Token::Word(word), left)
}

// The quoted name after its first quote, or the token of the quote alone.
fn quoted_name<'a>(behind: &'a [u8]) -> (Token<'a>, &'a [u8])
    ensures { IsLexeme (name_lexeme behind.now) behind.now result.0 result.1.now }
{
    let size = word_length(behind);
    let (name, rest) = behind.split_at(size);
    if 1 <= size && size <= NAME_LIMIT && starts(b'"', rest) {
        let (_, left) = behind.split_at(size + 1);
        (Token::QuotedName(name), left)
    } else {
        (Token::Unknown, behind)
    }
}

// The string with this size after its opening quote.
fn sized_string<'a>(behind: &'a [u8], size: usize) -> (Token<'a>, &'a [u8])
    requires { Some size ≡ quoted_size (quoted_text behind.now) }
    ensures { IsLexeme (string_lexeme (quoted_text behind.now)) behind.now result.0 result.1.now }
{
    let (text, _) = behind.split_at(size - 1);
    let (_, left) = behind.split_at(size);
    (Token::Quoted(text), left)
}

// The string after an opening quote, or the token of the quote alone. Without a closing quote each run of quotes after it is
// even, and so a string of its own: no byte is read more than twice.
fn string<'a>(behind: &'a [u8]) -> (Token<'a>, &'a [u8])
    ensures { IsLexeme (string_lexeme (quoted_text behind.now)) behind.now result.0 result.1.now }
{
    match string_size(behind) {
        Some(size) => sized_string(behind, size),
        None => (Token::Unknown, behind),
    }
}

// The sixteen bytes of the uuid that bytes begin with, if they begin with one.
fn uuid_in_front(bytes: &[u8]) -> Option<[u8; 16]>
    ensures { result ≡ uuid_in_front bytes.now }
{
    if bytes.len() < UUID_SIZE {
        return None;
    }
    let (text, left) = bytes.split_at(UUID_SIZE);
    if starts_word(left) {
        return None;
    }
    match Uuid::try_parse_ascii(text) {
        Ok(uuid) => Some(*uuid.as_bytes()),
        Err(_) => None,
    }
}

// The first token of bytes that begin with no uuid.
#[tactic(auto, unfolding(sasi_model::specs::Tokens::other_lexeme))]
fn other_token<'a>(first: u8, bytes: &'a [u8], behind: &'a [u8]) -> (Token<'a>, &'a [u8])
    requires { bytes.now ≡ first ∷ behind.now }
    ensures { IsLexeme (other_lexeme first behind.now) behind.now result.0 result.1.now }
{
    if is_letter(first) {
        word(first, bytes, behind)
    } else if is_digit(first) {
        positive_integer(first, bytes, behind)
    } else if first == b'-' && starts_digit(behind) {
        negative_integer(behind)
    } else if first == b'\'' {
        string(behind)
    } else if first == b'"' {
        quoted_name(behind)
    } else {
        sign(first, behind)
    }
}

// The first token of bytes that begin with no separator.
#[tactic(auto, unfolding(sasi_model::specs::Tokens::lexeme))]
fn first_token<'a>(first: u8, bytes: &'a [u8], behind: &'a [u8]) -> (Token<'a>, &'a [u8])
    requires { bytes.now ≡ first ∷ behind.now }
    ensures { IsLexeme (lexeme first behind.now) behind.now result.0 result.1.now }
{
    match uuid_in_front(bytes) {
        Some(uuid) => {
            let (_, left) = bytes.split_at(UUID_SIZE);
            (Token::Uuid(uuid), left)
        }
        None => other_token(first, bytes, behind),
    }
}

/// The first token of a text, if it has one, and the rest after it. `unclosed` says that there is no further `*/`.
pub fn next_token<'a>(text: &'a [u8], unclosed: &mut bool) -> Option<(Token<'a>, &'a [u8])>
    requires { unclosed.old ≡ true → closes (behind_first text.now) ≡ false }
    ensures next { IsNext text.now result }
    ensures kept { StaysUnclosed unclosed.new result }
{
    let left = skip_separators(text, unclosed);
    match left.split_first() {
        Some((first, behind)) => Some(first_token(*first, left, behind)),
        None => None,
    }
}
