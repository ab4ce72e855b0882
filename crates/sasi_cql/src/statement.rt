// Statements by their first words.
ghost use Rattle.sasi_model.specs.Tokens.{tokens};
ghost use Rattle.sasi_model.specs.FormReader.{read};
ghost use Rattle.sasi_model.specs.Statements.{created, on_cursors, statement};
ghost use Rattle.sasi_cql.specs.Finds.{Finds};
ghost use Rattle.sasi_cql.specs.Parts.{opened};

use crate::front::{after, expect, followed, read_name, read_number, stuck};
use crate::halt::Halt;
use crate::index::read_index;
use crate::part::read_index_named;
use crate::select::read_select;
use crate::table::read_table;
use crate::task::read_on_files;
use crate::token::Token;
use crate::write::{read_delete, read_insert, read_update};
use sasi_types::Statement;
use std::alloc::Global;

// TABLE .. | CUSTOM INDEX ..
fn read_created<'a>(alloc: Global, text: &'a [u8]) -> Result<(Statement, &'a [u8]), Halt>
    ensures { Finds (read created (tokens text.now)) result }
{
    if let Some(behind) = after(&Token::Word(b"table"), text) {
        return read_table(alloc, behind);
    }
    if let Some(behind) = after(&Token::Word(b"custom"), text) {
        return read_index(alloc, false, behind);
    }
    Err(stuck(text))
}

// name AS SELECT .., after OPEN
fn read_open<'a>(alloc: Global, text: &'a [u8]) -> Result<(Statement, &'a [u8]), Halt>
    ensures { Finds (read opened (tokens text.now)) result }
{
    let (cursor, behind) = read_name(alloc, text)?;
    let wanted = [Token::Word(b"as"), Token::Word(b"select")];
    let (cursor, behind) = followed(cursor, &wanted, behind)?;
    let (select, behind) = read_select(alloc, behind)?;
    Ok((Statement::OpenCursor { cursor, select }, behind))
}

// OPEN .. | FETCH .. | CLOSE .., and the others
fn read_on_cursors<'a>(alloc: Global, text: &'a [u8]) -> Result<(Statement, &'a [u8]), Halt>
    ensures { Finds (read on_cursors (tokens text.now)) result }
{
    if let Some(behind) = after(&Token::Word(b"open"), text) {
        return read_open(alloc, behind);
    }
    if let Some(behind) = after(&Token::Word(b"fetch"), text) {
        let (count, behind) = read_number(behind)?;
        let behind = expect(&[Token::Word(b"from")], behind)?;
        let (cursor, behind) = read_name(alloc, behind)?;
        return Ok((Statement::Fetch { cursor, count }, behind));
    }
    if let Some(behind) = after(&Token::Word(b"close"), text) {
        let (cursor, behind) = read_name(alloc, behind)?;
        return Ok((Statement::CloseCursor { cursor }, behind));
    }
    read_on_files(alloc, text)
}

/// A statement, without its `;`.
pub fn read_statement<'a>(alloc: Global, text: &'a [u8]) -> Result<(Statement, &'a [u8]), Halt>
    ensures { Finds (read statement (tokens text.now)) result }
{
    if let Some(behind) = after(&Token::Word(b"create"), text) {
        return read_created(alloc, behind);
    }
    if let Some(behind) = after(&Token::Word(b"drop"), text) {
        let (index, behind) = read_index_named(alloc, behind)?;
        return Ok((Statement::DropIndex { index }, behind));
    }
    if let Some(behind) = after(&Token::Word(b"insert"), text) {
        return read_insert(alloc, behind);
    }
    if let Some(behind) = after(&Token::Word(b"update"), text) {
        return read_update(alloc, behind);
    }
    if let Some(behind) = after(&Token::Word(b"delete"), text) {
        return read_delete(alloc, behind);
    }
    if let Some(behind) = after(&Token::Word(b"select"), text) {
        let (select, behind) = read_select(alloc, behind)?;
        return Ok((Statement::Query { select }, behind));
    }
    read_on_cursors(alloc, text)
}
