// CREATE TABLE.
ghost use Rattle.std.specs.Prelude.{false};
ghost use Rattle.sasi_model.specs.Tokens.{tokens};
ghost use Rattle.sasi_model.specs.FormReader.{read};
ghost use Rattle.sasi_model.specs.Statements.{declaration, plain_column, says_key, table};
ghost use Rattle.sasi_cql.specs.Finds.{Finds};

use crate::declarations::Declarations;
use crate::front::{after, expect, followed, read_name, read_type};
use crate::halt::Halt;
use crate::list::{Item, read_list};
use crate::token::Token;
use sasi_types::{Declaration, Statement};
use std::alloc::{AllocError, Global};

// name type
fn read_plain_column<'a>(alloc: Global, text: &'a [u8]) -> Result<(Declaration, &'a [u8]), Halt>
    ensures { Finds (read plain_column (tokens text.now)) result }
{
    let (column, behind) = read_name(alloc, text)?;
    let (kind, behind) = read_type(behind)?;
    Ok((Declaration::Column(column, kind), behind))
}

// name type [PRIMARY KEY] | PRIMARY KEY ( name )
fn read_declaration<'a>(alloc: Global, text: &'a [u8]) -> Result<(Declaration, &'a [u8]), Halt>
    ensures { Finds (read (declaration false) (tokens text.now)) result }
{
    if let Some(behind) = after(&Token::Word(b"primary"), text) {
        let behind = expect(&[Token::Word(b"key"), Token::Open], behind)?;
        let (key, behind) = read_name(alloc, behind)?;
        return followed(Declaration::Key(key), &[Token::Close], behind);
    }
    let (column, behind) = read_name(alloc, text)?;
    let (kind, behind) = read_type(behind)?;
    let Some(behind) = after(&Token::Word(b"primary"), behind) else {
        return Ok((Declaration::Column(column, kind), behind));
    };
    followed(
        Declaration::KeyColumn(column, kind),
        &[Token::Word(b"key")],
        behind,
    )
}

impl Item for Declaration {
    type Packed = Declarations;

    ghost form = { declaration };

    ghost marks = { says_key };

    ghost items = { λ list. list };

    fn read<'a>(
        alloc: Global,
        marked: bool,
        text: &'a [u8],
    ) -> Result<(Declaration, &'a [u8]), Halt> {
        if marked {
            read_plain_column(alloc, text)
        } else {
            read_declaration(alloc, text)
        }
    }

    fn marks(&self) -> bool {
        match self {
            Declaration::Column(..) => false,
            Declaration::KeyColumn(..) | Declaration::Key(_) => true,
        }
    }

    fn empty(alloc: Global) -> Declarations {
        Declarations::new(alloc)
    }

    fn add(list: Declarations, item: Declaration) -> Result<Declarations, AllocError> {
        list.with(item)
    }
}

/// name ( item {, item} ), after CREATE TABLE
pub fn read_table<'a>(alloc: Global, text: &'a [u8]) -> Result<(Statement, &'a [u8]), Halt>
    ensures { Finds (read table (tokens text.now)) result }
{
    let (table, behind) = read_name(alloc, text)?;
    let (table, behind) = followed(table, &[Token::Open], behind)?;
    let (declared, behind) = read_list::<Declaration>(alloc, &Token::Comma, behind)?;
    let ((table, declared), behind) = followed((table, declared), &[Token::Close], behind)?;
    let (columns, keys) = declared.split(alloc)?;
    let statement = Statement::CreateTable {
        table,
        columns,
        keys,
    };
    Ok((statement, behind))
}
