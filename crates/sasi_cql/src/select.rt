// SELECT.
ghost use Rattle.sasi_model.specs.Tokens.{tokens};
ghost use Rattle.sasi_model.specs.FormReader.{read};
ghost use Rattle.sasi_model.specs.Statements.{asked, filtering, limit, relations, select};
ghost use Rattle.sasi_cql.specs.Finds.{Finds};
ghost use Rattle.sasi_cql.specs.Parts.{bounds, conditions};

use crate::front::{after, expect, followed, read_name, read_number};
use crate::halt::Halt;
use crate::list::read_list;
use crate::part::read_names;
use crate::token::Token;
use sasi_types::{Names, Number, Relation, Relations, Select};
use std::alloc::Global;

// * | name {, name}
fn read_asked<'a>(alloc: Global, text: &'a [u8]) -> Result<(Option<Names>, &'a [u8]), Halt>
    ensures { Finds (read asked (tokens text.now)) result }
{
    if let Some(behind) = after(&Token::Star, text) {
        return Ok((None, behind));
    }
    let (columns, behind) = read_names(alloc, text)?;
    Ok((Some(columns), behind))
}

// [WHERE relation {AND relation}]
fn read_relations<'a>(alloc: Global, text: &'a [u8]) -> Result<(Relations, &'a [u8]), Halt>
    ensures { Finds (read relations (tokens text.now)) result }
{
    let Some(behind) = after(&Token::Word(b"where"), text) else {
        return Ok((Relations::new(alloc), text));
    };
    read_list::<Relation>(alloc, &Token::Word(b"and"), behind)
}

// [LIMIT integer]
fn read_limit<'a>(text: &'a [u8]) -> Result<(Option<Number>, &'a [u8]), Halt>
    ensures { Finds (read limit (tokens text.now)) result }
{
    let Some(behind) = after(&Token::Word(b"limit"), text) else {
        return Ok((None, text));
    };
    let (number, behind) = read_number(behind)?;
    Ok((Some(number), behind))
}

// [ALLOW FILTERING]
fn read_filtering<'a>(text: &'a [u8]) -> Result<(bool, &'a [u8]), Halt>
    ensures { Finds (read filtering (tokens text.now)) result }
{
    let Some(behind) = after(&Token::Word(b"allow"), text) else {
        return Ok((false, text));
    };
    let behind = expect(&[Token::Word(b"filtering")], behind)?;
    Ok((true, behind))
}

// [LIMIT integer] [ALLOW FILTERING]
fn read_bounds<'a>(text: &'a [u8]) -> Result<((Option<Number>, bool), &'a [u8]), Halt>
    ensures { Finds (read bounds (tokens text.now)) result }
{
    let (limit, behind) = read_limit(text)?;
    let (filtering, behind) = read_filtering(behind)?;
    Ok(((limit, filtering), behind))
}

// [WHERE relation {AND relation}] [LIMIT integer] [ALLOW FILTERING]
fn read_conditions<'a>(
    alloc: Global,
    text: &'a [u8],
) -> Result<((Relations, (Option<Number>, bool)), &'a [u8]), Halt>
    ensures { Finds (read conditions (tokens text.now)) result }
{
    let (relations, behind) = read_relations(alloc, text)?;
    let (bounds, behind) = read_bounds(behind)?;
    Ok(((relations, bounds), behind))
}

/// (* | name {, name}) FROM name [WHERE relation {AND relation}] [LIMIT integer] [ALLOW FILTERING], after SELECT
pub fn read_select<'a>(alloc: Global, text: &'a [u8]) -> Result<(Select, &'a [u8]), Halt>
    ensures { Finds (read select (tokens text.now)) result }
{
    let (columns, behind) = read_asked(alloc, text)?;
    let (columns, behind) = followed(columns, &[Token::Word(b"from")], behind)?;
    let (table, behind) = read_name(alloc, behind)?;
    let ((relations, (limit, filtering)), behind) = read_conditions(alloc, behind)?;
    let select = Select {
        columns,
        table,
        relations,
        limit,
        filtering,
    };
    Ok((select, behind))
}
