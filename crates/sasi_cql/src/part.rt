// The small parts of statements.
ghost use Rattle.sasi_model.specs.Tokens.{tokens};
ghost use Rattle.sasi_model.specs.FormReader.{read};
ghost use Rattle.sasi_model.specs.Statements.{equation, index_named, key_given, names, time};
ghost use Rattle.sasi_cql.specs.Finds.{Finds};

use crate::front::{after, expect, followed, read_literal, read_name, read_number};
use crate::halt::Halt;
use crate::list::read_list;
use crate::token::Token;
use sasi_types::{Literal, Name, Names, Number};
use std::alloc::Global;

/// name {, name}
pub fn read_names<'a>(alloc: Global, text: &'a [u8]) -> Result<(Names, &'a [u8]), Halt>
    ensures { Finds (read names (tokens text.now)) result }
{
    read_list::<Name>(alloc, &Token::Comma, text)
}

/// [USING TIMESTAMP integer]
pub fn read_time<'a>(text: &'a [u8]) -> Result<(Option<Number>, &'a [u8]), Halt>
    ensures { Finds (read time (tokens text.now)) result }
{
    let Some(behind) = after(&Token::Word(b"using"), text) else {
        return Ok((None, text));
    };
    let behind = expect(&[Token::Word(b"timestamp")], behind)?;
    let (number, behind) = read_number(behind)?;
    Ok((Some(number), behind))
}

/// name = literal
pub fn read_equation<'a>(alloc: Global, text: &'a [u8]) -> Result<((Name, Literal), &'a [u8]), Halt>
    ensures { Finds (read equation (tokens text.now)) result }
{
    let (column, behind) = read_name(alloc, text)?;
    let (column, behind) = followed(column, &[Token::Equal], behind)?;
    let (value, behind) = read_literal(alloc, behind)?;
    Ok(((column, value), behind))
}

/// WHERE name = literal
pub fn read_key_given<'a>(
    alloc: Global,
    text: &'a [u8],
) -> Result<((Name, Literal), &'a [u8]), Halt>
    ensures { Finds (read key_given (tokens text.now)) result }
{
    let behind = expect(&[Token::Word(b"where")], text)?;
    read_equation(alloc, behind)
}

/// INDEX name
pub fn read_index_named<'a>(alloc: Global, text: &'a [u8]) -> Result<(Name, &'a [u8]), Halt>
    ensures { Finds (read index_named (tokens text.now)) result }
{
    let behind = expect(&[Token::Word(b"index")], text)?;
    read_name(alloc, behind)
}
