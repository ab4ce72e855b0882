// What one token stands for.
ghost use Rattle.std.specs.Prelude.{◌≡◌, IfOk};
ghost use Rattle.sasi_model.specs.Abbreviations.{lower};
ghost use Rattle.sasi_model.specs.Statements.{literal_of, name_of, number_of, string_of, test_of, type_named, type_of};
ghost use Rattle.sasi_cql.specs.ModelTokens.{model_token};

use crate::quoted::text_of;
use crate::token::Token;
use crate::word::{is_name, lower_name, spells};
use sasi_types::{ColumnType, Literal, Name, Number, Test, Text};
use std::alloc::{AllocError, Global};

fn quoted_name(alloc: Global, bytes: &[u8]) -> Result<Name, AllocError>
    ensures { IfOk result (λ name. name ≡ bytes.now) }
{
    let bytes = Vec::from_slice(alloc, bytes)?;
    Ok(Name::new(bytes))
}

/// The name that a token is.
pub fn name_of(alloc: Global, token: &Token) -> Result<Option<Name>, AllocError>
    ensures { IfOk result (λ found. found ≡ name_of (model_token token.now)) }
{
    match *token {
        Token::Word(word) if is_name(word) => Ok(Some(lower_name(alloc, word)?)),
        Token::QuotedName(name) => Ok(Some(quoted_name(alloc, name)?)),
        _ => Ok(None),
    }
}

/// The text of a string.
pub fn string_of(alloc: Global, token: &Token) -> Result<Option<Text>, AllocError>
    ensures { IfOk result (λ found. found ≡ string_of (model_token token.now)) }
{
    match *token {
        Token::Quoted(text) => Ok(Some(text_of(alloc, text)?)),
        _ => Ok(None),
    }
}

/// The literal that a token is.
pub fn literal_of(alloc: Global, token: &Token) -> Result<Option<Literal>, AllocError>
    ensures { IfOk result (λ found. found ≡ literal_of (model_token token.now)) }
{
    match *token {
        Token::Quoted(text) => Ok(Some(Literal::Text(text_of(alloc, text)?))),
        Token::Integer(number) => Ok(Some(Literal::Number(number))),
        Token::Uuid(bytes) => Ok(Some(Literal::Uuid(bytes))),
        Token::Word(word) if spells(word, b"null") => Ok(Some(Literal::Null)),
        _ => Ok(None),
    }
}

/// The number that a token is.
pub fn number_of(token: &Token) -> Option<Number>
    ensures { result ≡ number_of (model_token token.now) }
{
    match *token {
        Token::Integer(number) => Some(number),
        _ => None,
    }
}

/// The test that a sign is.
pub fn test_of(token: &Token) -> Option<Test>
    ensures { result ≡ test_of (model_token token.now) }
{
    match *token {
        Token::Equal => Some(Test::Eq),
        Token::Less => Some(Test::Lt),
        Token::LessEqual => Some(Test::Le),
        Token::More => Some(Test::Gt),
        Token::MoreEqual => Some(Test::Ge),
        _ => None,
    }
}

fn type_named(word: &[u8]) -> Option<ColumnType>
    ensures { result ≡ type_named (lower word.now) }
{
    if spells(word, b"text") || spells(word, b"varchar") {
        Some(ColumnType::Text)
    } else if spells(word, b"int") {
        Some(ColumnType::Int)
    } else if spells(word, b"bigint") {
        Some(ColumnType::BigInt)
    } else if spells(word, b"uuid") {
        Some(ColumnType::Uuid)
    } else {
        None
    }
}

/// The type that a token is.
pub fn type_of(token: &Token) -> Option<ColumnType>
    ensures { result ≡ type_of (model_token token.now) }
{
    match *token {
        Token::Word(word) => type_named(word),
        _ => None,
    }
}
