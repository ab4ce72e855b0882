// INSERT, UPDATE and DELETE.
ghost use Rattle.std.specs.Prelude.{◌≡◌, ◌==◌, length};
ghost use Rattle.sasi_model.specs.Tokens.{tokens};
ghost use Rattle.sasi_model.specs.FormReader.{read};
ghost use Rattle.sasi_model.specs.Statements.{delete, deleted, equations, given, insert, literals, update};
ghost use Rattle.sasi_cql.specs.Finds.{Finds};
ghost use Rattle.sasi_cql.specs.Parts.{columns_given, time_and_key};

use crate::front::{after, expect, followed, read_name, stuck};
use crate::halt::Halt;
use crate::list::read_list;
use crate::part::{read_key_given, read_names, read_time};
use crate::token::Token;
use sasi_types::{Literal, Literals, Name, Names, Number, Sets, Statement};
use std::alloc::Global;

// As many literals as names.
fn same_length(columns: &Names, values: &Literals) -> bool
    ensures { result ≡ (length values.now == length columns.now) }
{
    values.len() == columns.len()
}

// literal {, literal}
fn read_literals<'a>(alloc: Global, text: &'a [u8]) -> Result<(Literals, &'a [u8]), Halt>
    ensures { Finds (read literals (tokens text.now)) result }
{
    read_list::<Literal>(alloc, &Token::Comma, text)
}

// ( name {, name} ) VALUES ( literal {, literal}
fn read_columns<'a>(alloc: Global, text: &'a [u8]) -> Result<((Names, Literals), &'a [u8]), Halt>
    ensures { Finds (read columns_given (tokens text.now)) result }
{
    let behind = expect(&[Token::Open], text)?;
    let (columns, behind) = read_names(alloc, behind)?;
    let wanted = [Token::Close, Token::Word(b"values"), Token::Open];
    let (columns, behind) = followed(columns, &wanted, behind)?;
    let (values, behind) = read_literals(alloc, behind)?;
    Ok(((columns, values), behind))
}

// INTO name ( name {, name} ) VALUES ( literal {, literal}
fn read_given<'a>(
    alloc: Global,
    text: &'a [u8],
) -> Result<((Name, (Names, Literals)), &'a [u8]), Halt>
    ensures { Finds (read given (tokens text.now)) result }
{
    let behind = expect(&[Token::Word(b"into")], text)?;
    let (table, behind) = read_name(alloc, behind)?;
    let (columns, behind) = read_columns(alloc, behind)?;
    Ok(((table, columns), behind))
}

/// INTO name ( name {, name} ) VALUES ( literal {, literal} ) [USING TIMESTAMP integer], after INSERT
pub fn read_insert<'a>(alloc: Global, text: &'a [u8]) -> Result<(Statement, &'a [u8]), Halt>
    ensures { Finds (read insert (tokens text.now)) result }
{
    let (given, behind) = read_given(alloc, text)?;
    let Some(given) = same_length(&given.1.0, &given.1.1).then_some(given) else {
        return Err(stuck(behind));
    };
    let (given, behind) = followed(given, &[Token::Close], behind)?;
    let (time, behind) = read_time(behind)?;
    let (table, (columns, values)) = given;
    let statement = Statement::Insert {
        table,
        columns,
        values,
        time,
    };
    Ok((statement, behind))
}

// name = literal {, name = literal}
fn read_sets<'a>(alloc: Global, text: &'a [u8]) -> Result<(Sets, &'a [u8]), Halt>
    ensures { Finds (read equations (tokens text.now)) result }
{
    read_list::<(Name, Literal)>(alloc, &Token::Comma, text)
}

/// name [USING TIMESTAMP integer] SET name = literal {, name = literal} WHERE name = literal, after UPDATE
pub fn read_update<'a>(alloc: Global, text: &'a [u8]) -> Result<(Statement, &'a [u8]), Halt>
    ensures { Finds (read update (tokens text.now)) result }
{
    let (table, behind) = read_name(alloc, text)?;
    let (time, behind) = read_time(behind)?;
    let (table, behind) = followed(table, &[Token::Word(b"set")], behind)?;
    let (sets, behind) = read_sets(alloc, behind)?;
    let ((key, value), behind) = read_key_given(alloc, behind)?;
    let statement = Statement::Update {
        table,
        time,
        sets,
        key,
        value,
    };
    Ok((statement, behind))
}

// [name {, name}] FROM
fn read_deleted<'a>(alloc: Global, text: &'a [u8]) -> Result<(Names, &'a [u8]), Halt>
    ensures { Finds (read deleted (tokens text.now)) result }
{
    if let Some(behind) = after(&Token::Word(b"from"), text) {
        return Ok((Names::new(alloc), behind));
    }
    let (columns, behind) = read_names(alloc, text)?;
    followed(columns, &[Token::Word(b"from")], behind)
}

// [USING TIMESTAMP integer] WHERE name = literal
fn read_time_and_key<'a>(
    alloc: Global,
    text: &'a [u8],
) -> Result<((Option<Number>, (Name, Literal)), &'a [u8]), Halt>
    ensures { Finds (read time_and_key (tokens text.now)) result }
{
    let (time, behind) = read_time(text)?;
    let (key, behind) = read_key_given(alloc, behind)?;
    Ok(((time, key), behind))
}

/// [name {, name}] FROM name [USING TIMESTAMP integer] WHERE name = literal, after DELETE
pub fn read_delete<'a>(alloc: Global, text: &'a [u8]) -> Result<(Statement, &'a [u8]), Halt>
    ensures { Finds (read delete (tokens text.now)) result }
{
    let (columns, behind) = read_deleted(alloc, text)?;
    let (table, behind) = read_name(alloc, behind)?;
    let ((time, (key, value)), behind) = read_time_and_key(alloc, behind)?;
    let statement = Statement::Delete {
        table,
        columns,
        time,
        key,
        value,
    };
    Ok((statement, behind))
}
