// Statements on files and tasks, and TRACE.
ghost use Rattle.sasi_model.specs.Tokens.{tokens};
ghost use Rattle.sasi_model.specs.FormReader.{read};
ghost use Rattle.sasi_model.specs.Statements.{begun, on_files, stepped, traced};
ghost use Rattle.sasi_cql.specs.Finds.{Finds};
ghost use Rattle.sasi_cql.specs.Parts.{units};

use crate::front::{after, expect, read_name, read_number, stuck};
use crate::halt::Halt;
use crate::index::read_index;
use crate::part::read_index_named;
use crate::token::Token;
use sasi_types::{Name, Number, Statement};
use std::alloc::Global;

// COMPACT name | REBUILD INDEX name | CREATE CUSTOM INDEX .., after BEGIN
fn read_begun<'a>(alloc: Global, text: &'a [u8]) -> Result<(Statement, &'a [u8]), Halt>
    ensures { Finds (read begun (tokens text.now)) result }
{
    if let Some(behind) = after(&Token::Word(b"compact"), text) {
        let (table, behind) = read_name(alloc, behind)?;
        return Ok((Statement::BeginCompact { table }, behind));
    }
    if let Some(behind) = after(&Token::Word(b"rebuild"), text) {
        let (index, behind) = read_index_named(alloc, behind)?;
        return Ok((Statement::BeginRebuild { index }, behind));
    }
    if let Some(behind) = after(&Token::Word(b"create"), text) {
        let behind = expect(&[Token::Word(b"custom")], behind)?;
        return read_index(alloc, true, behind);
    }
    Err(stuck(text))
}

// name integer
fn read_units<'a>(alloc: Global, text: &'a [u8]) -> Result<((Name, Number), &'a [u8]), Halt>
    ensures { Finds (read units (tokens text.now)) result }
{
    let (name, behind) = read_name(alloc, text)?;
    let (units, behind) = read_number(behind)?;
    Ok(((name, units), behind))
}

// COMPACT name integer | INDEX name integer, after STEP
fn read_stepped<'a>(alloc: Global, text: &'a [u8]) -> Result<(Statement, &'a [u8]), Halt>
    ensures { Finds (read stepped (tokens text.now)) result }
{
    if let Some(behind) = after(&Token::Word(b"compact"), text) {
        let ((table, units), behind) = read_units(alloc, behind)?;
        return Ok((Statement::StepCompact { table, units }, behind));
    }
    if let Some(behind) = after(&Token::Word(b"index"), text) {
        let ((index, units), behind) = read_units(alloc, behind)?;
        return Ok((Statement::StepIndex { index, units }, behind));
    }
    Err(stuck(text))
}

// ON | OFF, after TRACE
fn read_traced<'a>(text: &'a [u8]) -> Result<(Statement, &'a [u8]), Halt>
    ensures { Finds (read traced (tokens text.now)) result }
{
    if let Some(behind) = after(&Token::Word(b"on"), text) {
        return Ok((Statement::Trace { on: true }, behind));
    }
    if let Some(behind) = after(&Token::Word(b"off"), text) {
        return Ok((Statement::Trace { on: false }, behind));
    }
    Err(stuck(text))
}

/// FLUSH .. | COMPACT .. | REBUILD .. | SHOW FILES | BEGIN .. | STEP .. | TRACE ..
pub fn read_on_files<'a>(alloc: Global, text: &'a [u8]) -> Result<(Statement, &'a [u8]), Halt>
    ensures { Finds (read on_files (tokens text.now)) result }
{
    if let Some(behind) = after(&Token::Word(b"flush"), text) {
        let (table, behind) = read_name(alloc, behind)?;
        return Ok((Statement::Flush { table }, behind));
    }
    if let Some(behind) = after(&Token::Word(b"compact"), text) {
        let (table, behind) = read_name(alloc, behind)?;
        return Ok((Statement::Compact { table }, behind));
    }
    if let Some(behind) = after(&Token::Word(b"rebuild"), text) {
        let (index, behind) = read_index_named(alloc, behind)?;
        return Ok((Statement::Rebuild { index }, behind));
    }
    if let Some(behind) = after(&Token::Word(b"show"), text) {
        let behind = expect(&[Token::Word(b"files")], behind)?;
        return Ok((Statement::ShowFiles, behind));
    }
    if let Some(behind) = after(&Token::Word(b"begin"), text) {
        return read_begun(alloc, behind);
    }
    if let Some(behind) = after(&Token::Word(b"step"), text) {
        return read_stepped(alloc, behind);
    }
    if let Some(behind) = after(&Token::Word(b"trace"), text) {
        return read_traced(behind);
    }
    Err(stuck(text))
}
