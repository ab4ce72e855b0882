// CREATE CUSTOM INDEX.
ghost use Rattle.sasi_model.specs.Tokens.{tokens};
ghost use Rattle.sasi_model.specs.FormReader.{read};
ghost use Rattle.sasi_model.specs.Statements.{index, index_name, options};
ghost use Rattle.sasi_cql.specs.Finds.{Finds};
ghost use Rattle.sasi_cql.specs.Parts.{class, column_indexed};

use crate::front::{after, expect, followed, read_name, read_string};
use crate::halt::Halt;
use crate::list::read_list;
use crate::token::Token;
use sasi_types::{Name, Options, Statement, Text};
use std::alloc::Global;

// [name] ON
fn read_index_name<'a>(alloc: Global, text: &'a [u8]) -> Result<(Option<Name>, &'a [u8]), Halt>
    ensures { Finds (read index_name (tokens text.now)) result }
{
    if let Some(behind) = after(&Token::Word(b"on"), text) {
        return Ok((None, behind));
    }
    let (name, behind) = read_name(alloc, text)?;
    followed(Some(name), &[Token::Word(b"on")], behind)
}

// [WITH OPTIONS = { string : string {, string : string} }]
fn read_options<'a>(alloc: Global, text: &'a [u8]) -> Result<(Options, &'a [u8]), Halt>
    ensures { Finds (read options (tokens text.now)) result }
{
    let Some(behind) = after(&Token::Word(b"with"), text) else {
        return Ok((Options::new(alloc), text));
    };
    let behind = expect(
        &[Token::Word(b"options"), Token::Equal, Token::OpenBrace],
        behind,
    )?;
    let (options, behind) = read_list::<(Text, Text)>(alloc, &Token::Comma, behind)?;
    followed(options, &[Token::CloseBrace], behind)
}

// ) USING string [WITH OPTIONS = { .. }]
fn read_class<'a>(alloc: Global, text: &'a [u8]) -> Result<((Text, Options), &'a [u8]), Halt>
    ensures { Finds (read class (tokens text.now)) result }
{
    let behind = expect(&[Token::Close, Token::Word(b"using")], text)?;
    let (class, behind) = read_string(alloc, behind)?;
    let (options, behind) = read_options(alloc, behind)?;
    Ok(((class, options), behind))
}

// ( name ) USING string [WITH OPTIONS = { .. }]
fn read_column<'a>(
    alloc: Global,
    text: &'a [u8],
) -> Result<((Name, (Text, Options)), &'a [u8]), Halt>
    ensures { Finds (read column_indexed (tokens text.now)) result }
{
    let behind = expect(&[Token::Open], text)?;
    let (column, behind) = read_name(alloc, behind)?;
    let (class, behind) = read_class(alloc, behind)?;
    Ok(((column, class), behind))
}

/// INDEX [name] ON name ( name ) USING string [WITH OPTIONS = { .. }], after CREATE CUSTOM or BEGIN CREATE CUSTOM
pub fn read_index<'a>(
    alloc: Global,
    stepped: bool,
    text: &'a [u8],
) -> Result<(Statement, &'a [u8]), Halt>
    ensures { Finds (read (index stepped) (tokens text.now)) result }
{
    let behind = expect(&[Token::Word(b"index")], text)?;
    let (name, behind) = read_index_name(alloc, behind)?;
    let (table, behind) = read_name(alloc, behind)?;
    let ((column, (class, options)), behind) = read_column(alloc, behind)?;
    let statement = Statement::CreateIndex {
        name,
        table,
        column,
        class,
        options,
        stepped,
    };
    Ok((statement, behind))
}
