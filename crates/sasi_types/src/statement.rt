// Statements, as the parser reads them.
use crate::{
    DeclaredColumns, Literal, Literals, Name, Names, Number, Options, Relations, Sets, Text,
};

/// What a SELECT asks for: rows of a table, and columns of them.
#[derive(Drop)]
pub struct Select {
    /// The columns; None for `*`.
    pub columns: Option<Names>,
    pub table: Name,
    /// What the WHERE asks; an empty list asks nothing.
    pub relations: Relations,
    /// The number behind LIMIT.
    pub limit: Option<Number>,
    /// ALLOW FILTERING is said.
    pub filtering: bool,
}

/// A statement, as the parser reads it.
#[derive(Drop)]
pub enum Statement {
    CreateTable {
        table: Name,
        columns: DeclaredColumns,
        /// The names that PRIMARY KEY is said of.
        keys: Names,
    },
    CreateIndex {
        name: Option<Name>,
        table: Name,
        column: Name,
        /// The string behind USING.
        class: Text,
        options: Options,
        /// BEGIN is said: the files are left to STEP INDEX.
        stepped: bool,
    },
    DropIndex {
        index: Name,
    },
    Insert {
        table: Name,
        columns: Names,
        values: Literals,
        time: Option<Number>,
    },
    Update {
        table: Name,
        time: Option<Number>,
        sets: Sets,
        key: Name,
        value: Literal,
    },
    Delete {
        table: Name,
        /// The columns to delete; an empty list deletes the whole row.
        columns: Names,
        time: Option<Number>,
        key: Name,
        value: Literal,
    },
    Query {
        select: Select,
    },
    OpenCursor {
        cursor: Name,
        select: Select,
    },
    Fetch {
        cursor: Name,
        count: Number,
    },
    CloseCursor {
        cursor: Name,
    },
    Flush {
        table: Name,
    },
    Compact {
        table: Name,
    },
    Rebuild {
        index: Name,
    },
    ShowFiles,
    BeginCompact {
        table: Name,
    },
    BeginRebuild {
        index: Name,
    },
    StepCompact {
        table: Name,
        units: Number,
    },
    StepIndex {
        index: Name,
        units: Number,
    },
    Trace {
        on: bool,
    },
}
