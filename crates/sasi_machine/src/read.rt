// The parsing of pieces.
ghost use Rattle.std.specs.Prelude.{◌≡◌, IfOk};
ghost use Rattle.sasi_model.specs.Pieces.{Whole, piece_of};
ghost use Rattle.sasi_model.specs.Parsers.{Parses};
ghost use Rattle.sasi_model.specs.Refusals.{piece_parsed, read};
ghost use Rattle.sasi_model.specs.WellFormed.{IsWellFormed};
ghost use Rattle.sasi_machine.specs.ParsedPiece.{IsReadFrom, model_piece};

use crate::Refusal;
use crate::built::is_built;
use sasi_cql::{ParseFault, parse};
use sasi_types::{PieceEnd, Statement};
use std::alloc::{AllocError, Global};

/// The content of a piece.
#[derive(Drop)]
pub enum ParsedPiece {
    /// A `;` alone.
    Nothing,
    Says(Statement),
    Bad(Refusal),
}

/// Parses a piece, without a look at the tables.
#[tactic(auto, unfolding(sasi_model::specs::Refusals::read_by))]
pub fn read(alloc: Global, piece: &[u8], end: PieceEnd) -> Result<ParsedPiece, AllocError>
    ensures reads { IfOk result (λ parsed. model_piece parsed ≡ read (piece_of end piece.now)) }
    ensures written { IfOk result IsReadFrom }
{
    match end {
        PieceEnd::Whole => read_whole(alloc, piece),
        PieceEnd::TooLong { .. } => Ok(ParsedPiece::Bad(Refusal::StatementTooLong)),
        PieceEnd::Unfinished => Ok(ParsedPiece::Bad(Refusal::ScriptEnds)),
    }
}

#[tactic(auto, unfolding(sasi_model::specs::Refusals::read_by))]
fn read_whole(alloc: Global, piece: &[u8]) -> Result<ParsedPiece, AllocError>
    ensures reads { IfOk result (λ parsed. model_piece parsed ≡ read (Whole piece.now)) }
    ensures written { IfOk result IsReadFrom }
{
    if piece == b";".as_slice() {
        return Ok(ParsedPiece::Nothing);
    }
    let text = match str::from_utf8(piece) {
        Ok(text) => text,
        Err(error) => return Ok(ParsedPiece::Bad(Refusal::NotUtf8(error.valid_up_to()))),
    };
    match parse(alloc, text) {
        Ok(statement) => Ok(built(statement)),
        Err(ParseFault::Syntax { at }) => Ok(ParsedPiece::Bad(Refusal::Syntax(at))),
        Err(ParseFault::OutOfMemory) => Err(AllocError),
    }
}

// The statement, if it is built.
fn built(statement: Statement) -> ParsedPiece
    ensures reads { model_piece result ≡ piece_parsed (Parses statement) }
    ensures written { IsWellFormed statement → IsReadFrom result }
{
    match is_built(&statement).then_some(statement) {
        Some(statement) => ParsedPiece::Says(statement),
        None => ParsedPiece::Bad(Refusal::NotBuilt),
    }
}
