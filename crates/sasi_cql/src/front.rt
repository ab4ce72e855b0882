// The start of a text: expected words and signs, or one token of a kind. Spaces and comments before a token are passed over.
ghost use Rattle.std.specs.Prelude.{◌≡◌, is_some, length, map, true, Some};
ghost use Rattle.sasi_model.specs.Tokens.{same_token, tokens};
ghost use Rattle.sasi_model.specs.FormReader.{after, read};
ghost use Rattle.sasi_model.specs.Forms.{One};
ghost use Rattle.sasi_model.specs.Statements.{literal, name, number, string, test_of, these, type};
ghost use Rattle.sasi_cql.specs.Finds.{Finds, FindsBehind, FindsWith, HasToken, IsBehind, IsFirst};
ghost use Rattle.sasi_cql.specs.ModelTokens.{model_token};
ghost use Rattle.sasi_cql.specs.declared.halt.Halt.TheVariants.{Stuck};

use crate::halt::Halt;
use crate::lexer::next_token;
use crate::literal::{literal_of, name_of, number_of, string_of, test_of, type_of};
use crate::offset::count_tokens;
use crate::token::Token;
use crate::word::spells;
use sasi_types::{ColumnType, Literal, Name, Number, Test, Text};
use std::alloc::Global;

// The first token, if there is one, and the rest after it.
fn first<'a>(text: &'a [u8]) -> Option<(Token<'a>, &'a [u8])>
    ensures { IsFirst (tokens text.now) result }
{
    let mut unclosed = false;
    next_token(text, &mut unclosed)
}

/// The text has a token.
pub fn has_token(text: &[u8]) -> bool
    ensures { HasToken (tokens text.now) result }
{
    first(text).is_some()
}

/// The halt at the first token of the text, with which no text of the form goes on.
pub fn stuck(text: &[u8]) -> Halt
    ensures { result ≡ Stuck (length (tokens text.now)) }
{
    Halt::Stuck(count_tokens(text))
}

// The token is the expected word, in any case, or the expected sign.
fn same_token(wanted: &Token, token: &Token) -> bool
    ensures { result ≡ same_token (model_token wanted.now) (model_token token.now) }
{
    match (*wanted, *token) {
        (Token::Word(wanted), Token::Word(word)) => spells(word, wanted),
        (Token::Open, Token::Open)
        | (Token::Close, Token::Close)
        | (Token::Comma, Token::Comma)
        | (Token::Star, Token::Star)
        | (Token::Equal, Token::Equal)
        | (Token::Less, Token::Less)
        | (Token::LessEqual, Token::LessEqual)
        | (Token::More, Token::More)
        | (Token::MoreEqual, Token::MoreEqual)
        | (Token::Colon, Token::Colon)
        | (Token::OpenBrace, Token::OpenBrace)
        | (Token::CloseBrace, Token::CloseBrace)
        | (Token::Semicolon, Token::Semicolon) => true,
        _ => false,
    }
}

/// The rest after this word or sign, if the text begins with it.
pub fn after<'a>(wanted: &Token, text: &'a [u8]) -> Option<&'a [u8]>
    ensures { IsBehind (after (model_token wanted.now) (tokens text.now)) result }
{
    match first(text) {
        Some((token, behind)) if same_token(wanted, &token) => Some(behind),
        _ => None,
    }
}

/// The rest after these words and signs, with which the text has to begin. It recurses once for each of them.
pub fn expect<'a>(wanted: &[Token], text: &'a [u8]) -> Result<&'a [u8], Halt>
    ensures { FindsBehind (read (these (map model_token wanted.now)) (tokens text.now)) result }
{
    let [next, others @ ..] = wanted else {
        return Ok(text);
    };
    match after(next, text) {
        Some(behind) => expect(others, behind),
        None => Err(stuck(text)),
    }
}

/// The value, if these words and signs come after it. What holds memory is handed on, so that no exit of a reader has it to drop.
pub fn followed<'a, T: Drop>(
    value: T,
    wanted: &[Token],
    text: &'a [u8],
) -> Result<(T, &'a [u8]), Halt>
    ensures { FindsWith value (read (these (map model_token wanted.now)) (tokens text.now)) result }
{
    let behind = expect(wanted, text)?;
    Ok((value, behind))
}

/// name
pub fn read_name<'a>(alloc: Global, text: &'a [u8]) -> Result<(Name, &'a [u8]), Halt>
    ensures { Finds (read name (tokens text.now)) result }
{
    let Some((token, behind)) = first(text) else {
        return Err(Halt::Stuck(0));
    };
    match name_of(alloc, &token)? {
        Some(name) => Ok((name, behind)),
        None => Err(stuck(text)),
    }
}

/// string
pub fn read_string<'a>(alloc: Global, text: &'a [u8]) -> Result<(Text, &'a [u8]), Halt>
    ensures { Finds (read string (tokens text.now)) result }
{
    let Some((token, behind)) = first(text) else {
        return Err(Halt::Stuck(0));
    };
    match string_of(alloc, &token)? {
        Some(string) => Ok((string, behind)),
        None => Err(stuck(text)),
    }
}

/// literal
pub fn read_literal<'a>(alloc: Global, text: &'a [u8]) -> Result<(Literal, &'a [u8]), Halt>
    ensures { Finds (read literal (tokens text.now)) result }
{
    let Some((token, behind)) = first(text) else {
        return Err(Halt::Stuck(0));
    };
    match literal_of(alloc, &token)? {
        Some(literal) => Ok((literal, behind)),
        None => Err(stuck(text)),
    }
}

/// integer
pub fn read_number<'a>(text: &'a [u8]) -> Result<(Number, &'a [u8]), Halt>
    ensures { Finds (read number (tokens text.now)) result }
{
    let Some((token, behind)) = first(text) else {
        return Err(Halt::Stuck(0));
    };
    match number_of(&token) {
        Some(number) => Ok((number, behind)),
        None => Err(stuck(text)),
    }
}

/// = | < | <= | > | >=
pub fn read_test<'a>(text: &'a [u8]) -> Result<(Test, &'a [u8]), Halt>
    ensures { Finds (read (One test_of) (tokens text.now)) result }
{
    let Some((token, behind)) = first(text) else {
        return Err(Halt::Stuck(0));
    };
    match test_of(&token) {
        Some(test) => Ok((test, behind)),
        None => Err(stuck(text)),
    }
}

/// type
pub fn read_type<'a>(text: &'a [u8]) -> Result<(ColumnType, &'a [u8]), Halt>
    ensures { Finds (read type (tokens text.now)) result }
{
    let Some((token, behind)) = first(text) else {
        return Err(Halt::Stuck(0));
    };
    match type_of(&token) {
        Some(kind) => Ok((kind, behind)),
        None => Err(stuck(text)),
    }
}
