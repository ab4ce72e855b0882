// The moves of statements.
ghost use Rattle.std.specs.Prelude.{◌≡◌, OnErr, OnOk};
ghost use Rattle.sasi_layout.specs.Layout.{state_of};
ghost use Rattle.sasi_layout.specs.Moves.{after_moves};
ghost use Rattle.sasi_machine.specs.Prepares.{CanBeDone};
ghost use Rattle.sasi_model.specs.WellFormed.{IsWellFormed};
ghost use Rattle.sasi_machine_layout.specs.Contents.{IsContents, layout_of};
ghost use Rattle.sasi_machine_layout.specs.Steps.{IsMadeInPart, asks_change, prepared_moves, statement_moves};

use crate::contents::Contents;
use crate::create::create;
use crate::define::define;
use crate::flush::flush_unless_empty;
use crate::write::write;
use sasi_machine::{Prepared, Reply, prepare_change};
use sasi_types::Statement;
use std::alloc::AllocError;

/// Makes the moves of a statement.
pub fn step(contents: &mut Contents, statement: Statement) -> Result<(), AllocError>
    requires contents { IsContents contents.old }
    requires written { IsWellFormed statement }
    ensures ok { OnOk result (layout_of contents.new ≡ after_moves (statement_moves (layout_of contents.old) statement) (layout_of contents.old)) }
    ensures err { OnErr result (IsMadeInPart (statement_moves (layout_of contents.old) statement) (layout_of contents.old) (layout_of contents.new)) }
    ensures kept { IsContents contents.new }
{
    if !asks_change(&statement) {
        return Ok(());
    }
    let mut reply = Reply::new(contents.alloc);
    let prepared = prepare_change(
        contents.alloc,
        &contents.schema,
        contents.max_timestamp,
        statement,
        &mut reply,
    )?;
    make(contents, prepared)
}

// Whether the statement may have a move. Those on compactions have none here, since a layout has no running ones.
fn asks_change(statement: &Statement) -> bool
    ensures { result ≡ asks_change statement.now }
{
    match statement {
        Statement::CreateTable { .. }
        | Statement::Insert { .. }
        | Statement::Update { .. }
        | Statement::Delete { .. }
        | Statement::Flush { .. } => true,
        Statement::CreateIndex { stepped, .. } => !*stepped,
        _ => false,
    }
}

// Makes the moves of what was prepared.
fn make(contents: &mut Contents, prepared: Prepared) -> Result<(), AllocError>
    requires contents { IsContents contents.old }
    requires can { CanBeDone (state_of (layout_of contents.old)) prepared }
    ensures ok { OnOk result (layout_of contents.new ≡ after_moves (prepared_moves (layout_of contents.old) prepared) (layout_of contents.old)) }
    ensures err { OnErr result (IsMadeInPart (prepared_moves (layout_of contents.old) prepared) (layout_of contents.old) (layout_of contents.new)) }
    ensures kept { IsContents contents.new }
{
    match prepared {
        Prepared::Create(table) => create(contents, table),
        Prepared::Define(index) => define(contents, index),
        Prepared::Write(mutation) => write(contents, mutation),
        Prepared::Flush(table) => flush_unless_empty(contents, table),
        Prepared::Answered(_)
        | Prepared::Compact(_)
        | Prepared::Select(_)
        | Prepared::Trace(_)
        | Prepared::Files
        | Prepared::Open(_)
        | Prepared::Fetch(_)
        | Prepared::Close(_) => Ok(()),
    }
}
