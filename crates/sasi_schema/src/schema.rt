// The tables that are defined.
ghost use Rattle.std.specs.Prelude.{◌≡◌, ◌+◌, ◌-◌, ◌^◌, ◌<◌, ◌≤◌, ◌++◌, ◌∷◌, [], List, ℕ, length, map, max, IfOk, OnOk, OnErr, None, Some};
ghost use Rattle.std.specs.Option.{option_copied, option_map};
ghost use Rattle.sasi_model.specs.Changes.{at_number};
ghost use Rattle.sasi_model.specs.Indexes.{index_named, index_of};
ghost use Rattle.sasi_model.specs.State.{Definition, definition_of, with_index};
ghost use Rattle.sasi_model.specs.Step.{index_given};
ghost use Rattle.sasi_model.specs.Refusals.{create_rules, index_rules};
ghost use Rattle.sasi_model.specs.Abbreviations.{COLUMN_LIMIT as column_limit, key_position, new_definition};
ghost use Rattle.sasi_schema.specs.Answers.{Answers};
ghost use Rattle.sasi_schema.specs.Defined.{definition, definitions, numbers_of};
ghost use Rattle.sasi_schema.specs.Faults.{refusal_of_fault};
ghost use Rattle.sasi_schema.specs.IndexFacts.{IsIndexIn};
ghost use Rattle.sasi_schema.specs.Numbers.{RisesFrom, number_of_table};
ghost use Rattle.sasi_schema.specs.SchemaViews.{IsNewIndex, no_tables, numbered_def, with_definition, with_index_def};
ghost use Rattle.sasi_schema.specs.declared.index.NewIndex.{NewIndex as ANewIndex};

use crate::check::check;
use crate::index::new_index;
use crate::index_name::index_name;
use crate::search::{find_index, find_table, position_in};
use crate::table::Table;
use crate::{NewIndex, SchemaFault};
use sasi_types::{
    ColumnType, Columns, IndexDef, IndexList, IndexNumber, Name, Options, Rule, TableNumber, Text,
};
use std::alloc::{AllocError, Global};
use std::marker::Model;

/// The tables that are defined, in the order of their creation, with their indexes.
#[derive(Drop)]
pub struct Schema {
    alloc: Global,
    tables: Vec<Table>,
    last_index: IndexNumber,
}

impl Model for Schema {
    ghost use Rattle.std.specs.Prelude.{map};
    ghost use Rattle.sasi_schema.specs.Defined.{definitions, numbers_of};
    ghost use Rattle.sasi_schema.specs.Numbers.{RisesFrom};
    ghost use Rattle.sasi_schema.specs.SchemaViews.{SchemaView, coded_schema};

    ghost Value = { SchemaView };

    ghost coded = { coded_schema };

    ghost view = { λ a. record { definitions = definitions a.tables.items; numbers = map numbers_of a.tables.items; last = a.last_index } };

    ghost invariant = { λ a. RisesFrom 1 (map (λ t. t.number) a.tables.items) };
}

impl Schema {
    /// No tables.
    pub fn new(alloc: Global) -> Schema
        ensures { result ≡ no_tables }
    {
        Schema {
            alloc,
            tables: Vec::new(alloc),
            last_index: 0,
        }
    }

    /// The table of a name.
    pub fn table(&self, name: &Name) -> Option<&Table>
        ensures definition { option_map definition (option_copied result) ≡ definition_of name.now self.now.definitions }
        ensures number { option_map (λ t. t.number) (option_copied result) ≡ number_of_table name.now self.now.definitions }
    {
        find_table(name, &self.tables)
    }

    /// The tables, in the order of their creation.
    pub fn tables(&self) -> &[Table]
        ensures definitions { definitions result.now ≡ self.now.definitions }
        ensures numbers { map numbers_of result.now ≡ self.now.numbers }
    {
        &self.tables
    }

    /// The table that a CREATE TABLE would define, behind the others.
    pub fn prepare_table(
        &self,
        table: &Name,
        columns: &Columns,
        keys: &[Name],
    ) -> Result<Table, SchemaFault>
        ensures number { IfOk result (λ t. t.number ≡ length self.now.definitions + 1) }
        ensures made { IfOk result (λ t. definition t ≡ new_definition table.now columns.now keys.now) }
        ensures numbers { IfOk result (λ t. numbers_of t ≡ []) }
        ensures answers { Answers refusal_of_fault (create_rules self.now.definitions table.now columns.now keys.now) result }
    {
        let columns_in = columns.as_slice();
        check(self.alloc, &self.tables, table, columns_in, keys)?;
        let key = key_position(columns_in, keys);
        let number = self.tables.len() as u32 + 1;
        Ok(Table {
            number,
            name: table.copy(self.alloc)?,
            columns: columns.copy(self.alloc)?,
            key,
            indexes: IndexList::new(self.alloc),
        })
    }

    /// Defines a table, behind the others, and gives its number.
    pub fn create_table(
        &mut self,
        table: &Name,
        columns: &Columns,
        keys: &[Name],
    ) -> Result<TableNumber, SchemaFault>
        ensures number { IfOk result (λ number. number ≡ length self.old.definitions + 1) }
        ensures made { OnOk result (self.new ≡ with_definition (new_definition table.now columns.now keys.now) [] self.old) }
        ensures answers { Answers refusal_of_fault (create_rules self.old.definitions table.now columns.now keys.now) result }
        ensures err { OnErr result (self.new ≡ self.old) }
    {
        let made = self.prepare_table(table, columns, keys)?;
        let number = made.number;
        self.restore_table(made)?;
        Ok(number)
    }

    /// Adds a table that was prepared, or that a manifest lists, behind the others.
    pub fn restore_table(&mut self, table: Table) -> Result<(), AllocError>
        requires number { table.number ≡ length self.old.definitions + 1 }
        requires free { definition_of table.name self.old.definitions ≡ None }
        ensures ok { OnOk result (self.new ≡ with_definition (definition table) (numbers_of table) self.old) }
        ensures err { OnErr result (self.new ≡ self.old) }
    {
        self.tables.push(table)?;
        Ok(())
    }

    /// The index of a name, among those of all tables.
    pub fn index(&self, name: &Name) -> Option<&IndexDef>
        ensures { option_map index_of (option_copied result) ≡ index_named name.now (self.now.definitions) }
    {
        find_index(name, &self.tables)
    }

    /// The last used number of an index, 0 where none is used.
    pub fn last_index(&self) -> IndexNumber
        ensures { result ≡ self.now.last }
    {
        self.last_index
    }

    /// The index that a CREATE CUSTOM INDEX would define. A nameless one is called by its table and its column.
    pub fn prepare_index(
        &self,
        name: Option<&Name>,
        table: &Name,
        column: &Name,
        class: &Text,
        options: &Options,
    ) -> Result<NewIndex, SchemaFault>
        ensures made { IfOk result (IsNewIndex self.now.definitions (option_copied name.entry) table.now column.now options.now) }
        ensures answers { Answers refusal_of_fault (index_rules self.now.definitions (option_copied name.entry) table.now column.now class.now options.now (definition_of table.now self.now.definitions)) result }
    {
        let name = index_name(self.alloc, name, table, column)?;
        let options = options.unpack(self.alloc)?;
        new_index(
            self.alloc,
            &self.tables,
            name,
            table,
            column,
            class,
            &options,
        )
    }

    /// How the index that these words would define makes terms of a text; None for an index of numbers.
    pub fn read_index(
        &self,
        name: Option<&Name>,
        table: &Name,
        column: &Name,
        class: &Text,
        options: &Options,
    ) -> Result<Option<Rule>, SchemaFault>
        ensures rule { IfOk result (λ rule. (d : Definition) → definition_of table.now self.now.definitions ≡ Some d → option_map (λ index. index.rule) (index_given d (option_copied name.entry) table.now column.now options.now) ≡ Some rule) }
        ensures answers { Answers refusal_of_fault (index_rules self.now.definitions (option_copied name.entry) table.now column.now class.now options.now (definition_of table.now self.now.definitions)) result }
    {
        let new = self.prepare_index(name, table, column, class, options)?;
        Ok(new.rule)
    }

    /// Defines an index under the number after the last used one, and gives the number.
    pub fn create_index(
        &mut self,
        name: Option<&Name>,
        table: &Name,
        column: &Name,
        class: &Text,
        options: &Options,
    ) -> Result<IndexNumber, SchemaFault>
        requires room { self.old.last < 2 ^ 32 - 1 }
        ensures number { IfOk result (λ number. number ≡ self.old.last + 1) }
        ensures made { OnOk result ((new : ANewIndex) × IsNewIndex self.old.definitions (option_copied name.entry) table.now column.now options.now new × (self.new ≡ with_index_def (numbered_def (self.old.last + 1) new) self.old)) }
        ensures answers { Answers refusal_of_fault (index_rules self.old.definitions (option_copied name.entry) table.now column.now class.now options.now (definition_of table.now self.old.definitions)) result }
        ensures err { OnErr result (self.new ≡ self.old) }
    {
        let new = self.prepare_index(name, table, column, class, options)?;
        let number = self.last_index + 1;
        self.restore_index(new.numbered(number))?;
        Ok(number)
    }

    /// Adds an index that was prepared, or that a manifest lists, behind the others of its table.
    pub fn restore_index(&mut self, def: IndexDef) -> Result<(), AllocError>
        requires { IsIndexIn self.old.definitions def }
        ensures ok { OnOk result (self.new ≡ with_index_def def self.old) }
        ensures err { OnErr result (self.new ≡ self.old) }
    {
        let number = def.number;
        add_index(&mut self.tables, def)?;
        self.last_index = self.last_index.max(number);
        Ok(())
    }

    /// Counts the number of an index as used.
    pub fn use_index(&mut self, number: IndexNumber)
        ensures { self.new ≡ record self.old { last = max self.old.last number } }
    {
        self.last_index = self.last_index.max(number);
    }
}

// The position of the key column.
fn key_position(columns: &[(Name, ColumnType)], keys: &[Name]) -> u16
    requires { length columns.now ≤ column_limit }
    ensures { result ≡ key_position columns.now keys.now }
{
    match keys.first() {
        None => 0,
        Some(key) => position_in(key, columns).unwrap_or(0) as u16,
    }
}

// Adds an index behind the others of its table.
fn add_index(tables: &mut [Table], def: IndexDef) -> Result<(), AllocError>
    requires rises { RisesFrom 1 (map (λ t. t.number) tables.old) }
    requires index { IsIndexIn (definitions tables.old) def }
    ensures rises { RisesFrom 1 (map (λ t. t.number) tables.new) }
    ensures definitions { OnOk result (definitions tables.new ≡ at_number 1 def.table (with_index (index_of def)) (definitions tables.old)) }
    ensures numbers { OnOk result (map numbers_of tables.new ≡ at_number 1 def.table (λ (numbers : List ℕ). numbers ++ def.number ∷ []) (map numbers_of tables.old)) }
    ensures err { OnErr result (tables.new ≡ tables.old) }
{
    let at = def.table as usize - 1;
    tables[at].add_index(def)
}
