// Prepared pieces.
use crate::Outcome;
use sasi_cells::Mutation;
use sasi_schema::{NewIndex, Table};
use sasi_types::{Name, Select, TableNumber};

/// What is left to do for a piece, once its reply is known.
#[derive(Drop)]
pub enum Prepared {
    /// Nothing: the piece is refused, or has no reply.
    Answered(Outcome),
    /// A table to create.
    Create(Table),
    /// An index to define, under a number that it has yet to get.
    Define(NewIndex),
    /// A mutation to apply.
    Write(Mutation),
    /// A table to flush.
    Flush(TableNumber),
    /// Steps of the compactions of a table.
    Compact(CompactAsked),
    /// A SELECT, whose rows are to be printed behind the reply so far.
    Select(Selection),
    /// TRACE to be turned on or off.
    Trace(bool),
    /// The lines of the files, which are to be printed behind the reply so far.
    Files,
    /// A cursor to open, unless a rule of cursors refuses it.
    Open(OpenAsked),
    /// Rows of a cursor to be printed behind the reply so far, where one has the name.
    Fetch(FetchAsked),
    /// A cursor to close, where one has the name.
    Close(Name),
}

/// A COMPACT, a BEGIN COMPACT or a STEP COMPACT of a table.
#[derive(Clone, Copy)]
pub struct CompactAsked {
    pub table: TableNumber,
    pub steps: CompactSteps,
}

/// What is to be done of the compactions of a table, of which at most one runs.
#[derive(Clone, Copy)]
pub enum CompactSteps {
    /// What is left of the running compaction, and then one of all files.
    Whole,
    /// The begin of one of all files, where none runs.
    Begin,
    /// At most so many units of the running one, from 1 to 2^31 - 1.
    Units(u32),
}

/// A SELECT that isn't refused, and the number of its table.
#[derive(Drop)]
pub struct Selection {
    pub table: TableNumber,
    pub select: Select,
}

/// An OPEN. No rule refuses its SELECT, but perhaps that of the number of relations, which comes after the rules of cursors.
#[derive(Drop)]
pub struct OpenAsked {
    pub cursor: Name,
    pub rows: Selection,
}

/// A FETCH of at most so many rows, from 1 to 2^31 - 1.
#[derive(Drop)]
pub struct FetchAsked {
    pub cursor: Name,
    pub count: u32,
}
