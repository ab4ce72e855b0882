// From the text of a piece to the statement that it spells.
ghost use Rattle.std.specs.Prelude.{◌≡◌, ℕ, IfOk, Err};
ghost use Rattle.sasi_types.specs.declared.statement.Statement.{Statement};
ghost use Rattle.sasi_model.specs.Tokens.{tokens};
ghost use Rattle.sasi_model.specs.Forms.{Spells};
ghost use Rattle.sasi_model.specs.FormReader.{ended, Got, read};
ghost use Rattle.sasi_model.specs.Faults.{IsSyntaxAt};
ghost use Rattle.sasi_model.specs.Parsers.{FailsAt, grammar_parser, Parses};
ghost use Rattle.sasi_model.specs.Statements.{piece};
ghost use Rattle.sasi_model.specs.WellFormed.{IsWellFormed};
ghost use Rattle.sasi_cql.specs.Finds.{Finds, FindsAll, IsResult};

use crate::fault::ParseFault;
use crate::front::{followed, has_token, stuck};
use crate::halt::Halt;
use crate::offset::offset_of_last;
use crate::statement::read_statement;
use crate::token::Token;
use sasi_types::Statement;
use std::alloc::Global;

// A statement and its `;`.
fn read_piece<'a>(alloc: Global, text: &'a [u8]) -> Result<(Statement, &'a [u8]), Halt>
    ensures { Finds (read piece (tokens text.now)) result }
{
    let (statement, behind) = read_statement(alloc, text)?;
    followed(statement, &[Token::Semicolon], behind)
}

// The value, if no token comes after it.
fn ended<T: Drop>(value: T, text: &[u8]) -> Result<T, Halt>
    ensures { FindsAll (ended (Got value (tokens text.now))) result }
{
    if has_token(text) {
        return Err(stuck(text));
    }
    Ok(value)
}

fn read_whole(alloc: Global, text: &[u8]) -> Result<Statement, Halt>
    ensures { FindsAll (ended (read piece (tokens text.now))) result }
{
    let (statement, behind) = read_piece(alloc, text)?;
    ended(statement, behind)
}

#[tactic(auto, unfolding(sasi_model::specs::Parsers::grammar_parser))]
fn parse_bytes(alloc: Global, text: &[u8]) -> Result<Statement, ParseFault>
    ensures { IsResult (grammar_parser text.now) result }
{
    match read_whole(alloc, text) {
        Ok(statement) => Ok(statement),
        Err(Halt::Stuck(size)) => Err(ParseFault::Syntax {
            at: offset_of_last(text, size),
        }),
        Err(Halt::OutOfMemory) => Err(ParseFault::OutOfMemory),
    }
}

/// The statement that a piece's text spells, or the offset at which it stops being one. The parser looks one token ahead, and takes memory
/// for the statement alone.
pub fn parse(alloc: Global, text: &str) -> Result<Statement, ParseFault>
    ensures statement { IfOk result (λ s. grammar_parser text.now ≡ Parses s) }
    ensures reads { IfOk result (λ s. Spells piece s (tokens text.now)) }
    ensures written { IfOk result (λ s. IsWellFormed s) }
    ensures fails { (at : ℕ) → result ≡ Err (ParseFault.Syntax at) → grammar_parser text.now ≡ FailsAt at }
    ensures refuses { (at : ℕ) → result ≡ Err (ParseFault.Syntax at) → (s : Statement) → ¬ (Spells piece s (tokens text.now)) }
    ensures syntax_offset { (at : ℕ) → result ≡ Err (ParseFault.Syntax at) → IsSyntaxAt text.now at }
{
    parse_bytes(alloc, text.as_bytes())
}
