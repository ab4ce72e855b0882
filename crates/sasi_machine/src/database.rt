// The tables in memory.
ghost use Rattle.std.specs.Prelude.{◌≡◌, false, map, IfErr, IfOk, OnOk, OnErr};
ghost use Rattle.sasi_analyzers.specs.Kits.{has_class};
ghost use Rattle.sasi_model.specs.Pieces.{piece_of};
ghost use Rattle.sasi_model.specs.Abbreviations.{empty_state, row_line};
ghost use Rattle.sasi_model.specs.Changes.{state_with_index, with_new_table};
ghost use Rattle.sasi_schema.specs.Defined.{definition};
ghost use Rattle.sasi_schema.specs.SchemaViews.{index_of_new};
ghost use Rattle.sasi_machine.specs.Classes.{OnMissing};
ghost use Rattle.sasi_cells.specs.Mutations.{state_with_mutation};
ghost use Rattle.sasi_machine.specs.Prepares.{HasRows, IsAddable, IsApplicable, IsNewTable, Prepares, rows_asked};

use crate::memtables::{add_within, merge_into, reserve_one};
use crate::prepared::{Prepared, Selection};
use crate::preparing::prepare;
use crate::table_rows::row_lines;
use crate::{Reply, RowQuery};
use sasi_analyzers::Kit;
use sasi_cells::Mutation;
use sasi_memtable::Memtable;
use sasi_schema::{NewIndex, Schema, Table};
use sasi_types::{KitFault, Partitioner, PieceEnd};
use std::alloc::{AllocError, Global};
use std::marker::Model;

/// The state of a script, in memory: the schema, and a memtable for each table.
#[derive(Drop)]
pub struct Database {
    alloc: Global,
    partitioner: Partitioner,
    schema: Schema,
    memtables: Vec<Memtable>,
    max_timestamp: u64,
}

impl Model for Database {
    ghost use Rattle.sasi_model.specs.State.{State};
    ghost use Rattle.sasi_model.specs.Codes.{coded_state};

    ghost Value = { State };

    ghost coded = { coded_state };

    ghost use Rattle.sasi_machine.specs.Tables.{IsMachineState, state_of};

    ghost view = { λ a. state_of a.partitioner a.schema.definitions a.memtables.items };

    ghost invariant = { λ a. IsMachineState a.partitioner a.schema.definitions a.memtables.items a.max_timestamp };
}

impl Database {
    /// The state without tables.
    pub fn new(alloc: Global, partitioner: Partitioner) -> Database
        ensures { result ≡ empty_state partitioner }
    {
        Database {
            alloc,
            partitioner,
            schema: Schema::new(alloc),
            memtables: Vec::new(alloc),
            max_timestamp: 0,
        }
    }

    /// The partitioner of the tables.
    pub fn partitioner(&self) -> Partitioner
        ensures { result ≡ self.now.partitioner }
    {
        self.partitioner
    }

    /// Prepares a piece. The reply is replaced; after an error it may be incomplete.
    pub fn prepare(
        &self,
        kit: &mut Kit,
        piece: &[u8],
        end: PieceEnd,
        reply: &mut Reply,
    ) -> Result<Prepared, KitFault>
        ensures prepares { IfOk result (λ prepared. Prepares self.now (piece_of end piece.now) reply.new prepared) }
        ensures missing { IfErr result (OnMissing (λ class. has_class class (map (λ b. kind (b.vtable, b.value)) kit.old.objects.items) ≡ false)) }
        ensures kinds { map (λ b. kind (b.vtable, b.value)) kit.new.objects.items ≡ map (λ b. kind (b.vtable, b.value)) kit.old.objects.items }
    {
        prepare(
            self.alloc,
            &self.schema,
            self.max_timestamp,
            kit,
            piece,
            end,
            reply,
        )
    }

    /// The lines of the rows that a SELECT asks for.
    pub fn lines(&self, rows: &Selection, kit: &mut Kit) -> Result<Vec<Reply>, KitFault>
        requires { HasRows self.now rows.now }
        ensures lines { IfOk result (λ lines. lines.items ≡ map row_line (rows_asked self.now rows.now)) }
        ensures missing { IfErr result (OnMissing (λ class. has_class class (map (λ b. kind (b.vtable, b.value)) kit.old.objects.items) ≡ false)) }
    {
        let Some(table) = self.schema.table(&rows.select.table) else {
            unreachable!()
        };
        let query = RowQuery::new(self.alloc, table, &rows.select, kit)?;
        let memtable = &self.memtables[rows.table as usize - 1];
        row_lines(self.alloc, memtable, &query, kit)
    }

    /// Creates a table that was prepared.
    pub fn create_table(&mut self, table: Table) -> Result<(), AllocError>
        requires { IsNewTable self.old table }
        ensures ok { OnOk result (self.new ≡ with_new_table self.old (definition table)) }
        ensures err { OnErr result (self.new ≡ self.old) }
    {
        reserve_one(&mut self.memtables)?;
        self.schema.restore_table(table)?;
        let memtable = Memtable::new(self.alloc, self.partitioner);
        add_within(&mut self.memtables, memtable);
        Ok(())
    }

    /// Defines an index that was prepared, under the next number.
    pub fn define_index(&mut self, new: NewIndex) -> Result<(), AllocError>
        requires { IsAddable self.old new }
        ensures ok { OnOk result (self.new ≡ state_with_index self.old new.table (index_of_new new)) }
        ensures err { OnErr result (self.new ≡ self.old) }
    {
        // A machine alone has no answer of its own for numbers that are spent: it says out of memory.
        let number = self.schema.last_index().checked_add(1).ok_or(AllocError)?;
        self.schema.restore_index(new.numbered(number))?;
        Ok(())
    }

    /// Applies a mutation that was prepared.
    pub fn apply(&mut self, mutation: Mutation) -> Result<(), AllocError>
        requires { IsApplicable self.old mutation }
        ensures ok { OnOk result (self.new ≡ state_with_mutation self.old mutation) }
        ensures err { OnErr result (self.new ≡ self.old) }
    {
        let time = merge_into(&mut self.memtables, mutation)?;
        self.max_timestamp = self.max_timestamp.max(time);
        Ok(())
    }
}
