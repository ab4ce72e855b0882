// The machine.
ghost use Rattle.std.specs.Prelude.{◌≡◌, false, map, IfErr, IfOk, OnOk, OnErr};
ghost use Rattle.sasi_analyzers.specs.Kits.{has_class};
ghost use Rattle.sasi_model.specs.Abbreviations.{empty_state};
ghost use Rattle.sasi_model.specs.Pieces.{piece_of};
ghost use Rattle.sasi_model.specs.Sessions.{new_session};
ghost use Rattle.sasi_model.specs.Step.{step};
ghost use Rattle.sasi_machine.specs.Classes.{OnMissing};
ghost use Rattle.sasi_machine.specs.MachineView.{AnswersSessions, Prints};

use crate::database::Database;
use crate::prepared::Prepared;
use crate::printed_cursors::{close, fetch, open};
use crate::printed_rows::{PrintedRows, print_rows};
use crate::{Outcome, Reply};
use sasi_analyzers::{Analyzer, Kit, Whole, Words};
use sasi_cursors::Cursors;
use sasi_types::{KitFault, Partitioner, PieceEnd};
use std::alloc::{AllocError, Global};
use std::marker::Model;

/// A session over tables in memory: the state of its script, and the open cursors with the rows that they had when they were opened.
#[derive(Drop)]
pub struct Machine {
    alloc: Global,
    database: Database,
    cursors: Cursors<PrintedRows>,
}

impl Model for Machine {
    ghost use Rattle.sasi_machine.specs.MachineView.{MachineView, coded_machine};

    ghost Value = { MachineView };

    ghost coded = { coded_machine };

    ghost view = { λ a. record { state = a.database; cursors = a.cursors } };
}

impl Machine {
    /// A session without tables, in which no cursor is open.
    pub fn new(alloc: Global, partitioner: Partitioner) -> Machine
        ensures state { result.state ≡ empty_state partitioner }
        ensures session { Prints result.cursors new_session }
    {
        Machine {
            alloc,
            database: Database::new(alloc, partitioner),
            cursors: Cursors::new(alloc),
        }
    }

    /// The partitioner of the tables.
    pub fn partitioner(&self) -> Partitioner
        ensures { result ≡ self.now.state.partitioner }
    {
        self.database.partitioner()
    }

    /// Runs one piece: prepares it, and does what was prepared. The reply has neither the lines of files nor the number of candidates. After
    /// an error the machine is as it was, and the reply may be incomplete.
    pub fn step(
        &mut self,
        piece: &[u8],
        end: PieceEnd,
        reply: &mut Reply,
    ) -> Result<Outcome, AllocError>
        ensures state { OnOk result (self.new.state ≡ (step self.old.state (piece_of end piece.now)).state) }
        ensures session { IfOk result (λ outcome. AnswersSessions self.old.state (piece_of end piece.now) self.old.cursors self.new.cursors reply.new outcome) }
        ensures err { OnErr result (self.new ≡ self.old) }
    {
        let mut analyzers: Vec<Box<dyn Analyzer>> = Vec::new(self.alloc);
        analyzers.push(Box::new(self.alloc, Whole::new())?)?;
        analyzers.push(Box::new(self.alloc, Words::new(self.alloc))?)?;
        let mut kit = Kit::new(analyzers);
        match step_with(
            &mut self.database,
            &mut self.cursors,
            &mut kit,
            piece,
            end,
            reply,
        ) {
            Ok(outcome) => Ok(outcome),
            Err(KitFault::OutOfMemory) => Err(AllocError),
            Err(KitFault::Missing(_)) => unreachable!(),
        }
    }
}

// The same with the analyzers of a kit, which the indexes may ask for.
fn step_with(
    database: &mut Database,
    cursors: &mut Cursors<PrintedRows>,
    kit: &mut Kit,
    piece: &[u8],
    end: PieceEnd,
    reply: &mut Reply,
) -> Result<Outcome, KitFault>
    ensures state { OnOk result (database.new ≡ (step database.old (piece_of end piece.now)).state) }
    ensures session { IfOk result (λ outcome. AnswersSessions database.old (piece_of end piece.now) cursors.old cursors.new reply.new outcome) }
    ensures database { OnErr result (database.new ≡ database.old) }
    ensures cursors { OnErr result (cursors.new ≡ cursors.old) }
    ensures missing { IfErr result (OnMissing (λ class. has_class class (map (λ b. kind (b.vtable, b.value)) kit.old.objects.items) ≡ false)) }
{
    match database.prepare(kit, piece, end, reply)? {
        Prepared::Answered(outcome) => Ok(outcome),
        Prepared::Create(table) => {
            database.create_table(table)?;
            Ok(Outcome::Done)
        }
        Prepared::Define(new) => {
            database.define_index(new)?;
            Ok(Outcome::Done)
        }
        Prepared::Write(mutation) => {
            database.apply(mutation)?;
            Ok(Outcome::Done)
        }
        Prepared::Flush(_) | Prepared::Compact(_) => Ok(Outcome::Done),
        Prepared::Trace(_) | Prepared::Files => Ok(Outcome::Done),
        Prepared::Select(rows) => {
            let lines = database.lines(&rows, kit)?;
            print_rows(&lines, reply)?;
            Ok(Outcome::Done)
        }
        Prepared::Open(asked) => open(database, cursors, asked, kit, reply),
        Prepared::Fetch(asked) => Ok(fetch(cursors, asked, reply)?),
        Prepared::Close(cursor) => Ok(close(cursors, cursor, reply)?),
    }
}
