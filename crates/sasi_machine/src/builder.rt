// The mutations of statements on an existing table, or their refusals.
ghost use Rattle.std.specs.Prelude.{◌≡◌, ◌≤◌, IfOk, Some, [], map};
ghost use Rattle.std.specs.List.{zip};
ghost use Rattle.sasi_types.specs.declared.statement.Statement.TheVariants.{Insert, Update, Delete};
ghost use Rattle.sasi_model.specs.Refusals.{delete_rules, insert_rules, update_rules};
ghost use Rattle.sasi_model.specs.Abbreviations.{TIME_LIMIT as time_limit};
ghost use Rattle.sasi_model.specs.Step.{insert_change};
ghost use Rattle.sasi_schema.specs.Answers.{Answers};
ghost use Rattle.sasi_schema.specs.Defined.{definition};
ghost use Rattle.sasi_machine.specs.Checks.{given_rules};
ghost use Rattle.sasi_machine.specs.Faults.{refusal_of_fault};
ghost use Rattle.sasi_machine.specs.Writes.{IsWriteTo, IsInsertTo};

use crate::change::{mutation_of_delete, mutation_of_insert, mutation_of_update};
use crate::check::{check_delete, check_given, check_once, check_update};
use crate::fault::Fault;
use crate::name_rule::NameRule;
use crate::relation::KeyRelation;
use sasi_cells::Mutation;
use sasi_schema::Table;
use sasi_types::{ColumnValues, Literal, Name, Number};
use std::alloc::Global;

/// Makes the mutations of statements.
#[derive(Clone, Copy)]
pub struct MutationBuilder {
    pub alloc: Global,
    /// The largest timestamp of the state.
    pub max_timestamp: u64,
}

impl MutationBuilder {
    /// The mutation of an INSERT.
    pub fn insert(
        &self,
        table: &Table,
        columns: Vec<Name>,
        values: Vec<Literal>,
        time: Option<Number>,
    ) -> Result<Mutation, Fault>
        requires { self.now.max_timestamp ≤ time_limit }
        ensures answers { Answers refusal_of_fault (insert_rules self.now.max_timestamp table.now.name columns.items (zip columns.items values.items) time (Some (definition table.now))) result }
        ensures write { IfOk result (IsWriteTo self.now.max_timestamp (definition table.now) (Insert table.now.name columns.items values.items time)) }
        ensures table { IfOk result (λ mutation. mutation.table ≡ table.now.number) }
    {
        NameRule::NoColumn.check_names(self.alloc, table, columns.as_slice())?;
        check_once(self.alloc, columns.as_slice())?;
        let given = ColumnValues::of(self.alloc, columns, values)?;
        self.insert_given(table, given, time)
    }

    // The mutation of an INSERT of these literals.
    fn insert_given(
        &self,
        table: &Table,
        given: ColumnValues,
        time: Option<Number>,
    ) -> Result<Mutation, Fault>
        requires { self.now.max_timestamp ≤ time_limit }
        ensures answers { Answers refusal_of_fault (given_rules (definition table.now) self.now.max_timestamp given time) result }
        ensures write { IfOk result (IsInsertTo self.now.max_timestamp (definition table.now) given time) }
        ensures table { IfOk result (λ mutation. mutation.table ≡ table.now.number) }
    {
        let time = check_given(
            self.alloc,
            table,
            self.max_timestamp,
            given.as_slice(),
            time,
        )?;
        Ok(mutation_of_insert(self.alloc, table, time, given)?)
    }

    /// The mutation of an UPDATE.
    pub fn update(
        &self,
        table: &Table,
        sets: ColumnValues,
        relation: KeyRelation,
        time: Option<Number>,
    ) -> Result<Mutation, Fault>
        requires { self.now.max_timestamp ≤ time_limit }
        ensures table { IfOk result (λ mutation. mutation.table ≡ table.now.number) }
        ensures answers { Answers refusal_of_fault (update_rules self.now.max_timestamp table.now.name sets relation.column relation.value time (Some (definition table.now))) result }
        ensures write { IfOk result (IsWriteTo self.now.max_timestamp (definition table.now) (Update table.now.name time sets relation.column relation.value)) }
    {
        let time = check_update(
            self.alloc,
            table,
            self.max_timestamp,
            sets.as_slice(),
            &relation,
            time,
        )?;
        let key = relation.value;
        Ok(mutation_of_update(self.alloc, table, time, sets, key)?)
    }

    /// The mutation of a DELETE.
    pub fn delete(
        &self,
        table: &Table,
        columns: Vec<Name>,
        relation: KeyRelation,
        time: Option<Number>,
    ) -> Result<Mutation, Fault>
        requires { self.now.max_timestamp ≤ time_limit }
        ensures answers { Answers refusal_of_fault (delete_rules self.now.max_timestamp table.now.name columns.items relation.column relation.value time (Some (definition table.now))) result }
        ensures write { IfOk result (IsWriteTo self.now.max_timestamp (definition table.now) (Delete table.now.name columns.items time relation.column relation.value)) }
        ensures table { IfOk result (λ mutation. mutation.table ≡ table.now.number) }
    {
        let time = check_delete(
            self.alloc,
            table,
            self.max_timestamp,
            columns.as_slice(),
            &relation,
            time,
        )?;
        let key = relation.value;
        Ok(mutation_of_delete(self.alloc, table, time, columns, key)?)
    }
}
