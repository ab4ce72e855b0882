// Tables, as they are defined.
ghost use Rattle.std.specs.Prelude.{◌≡◌, ◌≤◌, ◌++◌, ◌∷◌, [], length, map, IfOk, OnOk, OnErr};
ghost use Rattle.sasi_model.specs.Abbreviations.{COLUMN_LIMIT as column_limit};
ghost use Rattle.std.specs.List.{All};
ghost use Rattle.sasi_schema.specs.IndexFacts.{IsIndexOf};
ghost use Rattle.sasi_schema.specs.Numbers.{IsKeyAt};

use crate::number::number_at;
use crate::search::position_in;
use sasi_types::{ColumnType, Columns, IndexDef, IndexList, Name, TableNumber};
use std::alloc::{AllocError, Global};

/// A table, as it is defined.
#[derive(Drop)]
pub struct Table {
    /// From 1, in the order of creation.
    pub number: TableNumber,
    pub name: Name,
    pub columns: Columns,
    /// The position of the key column, from 0.
    pub key: u16,
    /// Its indexes, in the order of their creation.
    pub indexes: IndexList,
    pub ghost key_is_there: { IsKeyAt key columns },
    pub ghost few: { length columns ≤ column_limit },
    pub ghost index_facts: { All (IsIndexOf number columns key) indexes },
}

impl Table {
    ghost use Rattle.std.specs.Option.{option_map};
    ghost use Rattle.sasi_model.specs.State.{number_of_column, position_in, with_index};
    ghost use Rattle.sasi_model.specs.Refusals.{is_key, type_of_column};
    ghost use Rattle.sasi_model.specs.Abbreviations.{key_name, key_type};
    ghost use Rattle.sasi_model.specs.Indexes.{index_of};
    ghost use Rattle.sasi_schema.specs.Defined.{definition, numbers_of};

    /// A table of these columns, with the key column at this position, and with these indexes.
    pub fn new(
        number: TableNumber,
        name: Name,
        columns: Columns,
        key: u16,
        indexes: IndexList,
    ) -> Table
        requires key { IsKeyAt key columns }
        requires few { length columns ≤ column_limit }
        requires index_facts { All (IsIndexOf number columns key) indexes }
        ensures number { result.number ≡ number }
        ensures definition { definition result ≡ record { name = name; columns = columns; key = key; indexes = map index_of indexes } }
        ensures numbers { numbers_of result ≡ map (λ def. def.number) indexes }
    {
        Table {
            number,
            name,
            columns,
            key,
            indexes,
        }
    }

    /// A copy of the table.
    pub fn copy(&self, alloc: Global) -> Result<Table, AllocError>
        ensures number { IfOk result (λ copy. copy.number ≡ self.now.number) }
        ensures definition { IfOk result (λ copy. definition copy ≡ definition self.now) }
        ensures numbers { IfOk result (λ copy. numbers_of copy ≡ numbers_of self.now) }
    {
        let name = self.name.copy(alloc)?;
        let columns = self.columns.copy(alloc)?;
        let indexes = self.indexes.copy(alloc)?;
        Ok(Table::new(self.number, name, columns, self.key, indexes))
    }

    /// Adds an index behind the others.
    pub fn add_index(&mut self, def: IndexDef) -> Result<(), AllocError>
        requires { IsIndexOf self.old.number self.old.columns self.old.key def }
        ensures number { self.new.number ≡ self.old.number }
        ensures definition { OnOk result (definition self.new ≡ with_index (index_of def) (definition self.old)) }
        ensures numbers { OnOk result (numbers_of self.new ≡ numbers_of self.old ++ def.number ∷ []) }
        ensures err { OnErr result (self.new ≡ self.old) }
    {
        self.indexes.push(def)
    }

    /// The name of the key column.
    pub fn key_name(&self) -> &Name
        ensures { result.now ≡ key_name (definition self.now) }
    {
        &self.columns.as_slice()[self.key as usize].0
    }

    /// The type of the key column.
    pub fn key_type(&self) -> ColumnType
        ensures { result ≡ key_type (definition self.now) }
    {
        self.columns.as_slice()[self.key as usize].1
    }

    /// The number of a column: 0 for the key, and the others from 1 in declared order, without the key.
    pub fn number_of(&self, column: &Name) -> Option<u16>
        ensures { result ≡ number_of_column (definition self.now) column.now }
    {
        let position = position_in(column, self.columns.as_slice())?;
        Some(number_at(self.key, position as u16))
    }

    /// The type of a column.
    pub fn type_of(&self, column: &Name) -> Option<ColumnType>
        ensures { result ≡ type_of_column (definition self.now) column.now }
    {
        let position = position_in(column, self.columns.as_slice())?;
        Some(self.columns.as_slice()[position].1)
    }

    /// The number and the type of a column.
    pub fn column(&self, name: &Name) -> Option<(u16, ColumnType)>
        ensures number { option_map (λ column. column.0) result ≡ number_of_column (definition self.now) name.now }
        ensures kind { option_map (λ column. column.1) result ≡ type_of_column (definition self.now) name.now }
    {
        let position = position_in(name, self.columns.as_slice())?;
        let number = number_at(self.key, position as u16);
        Some((number, self.columns.as_slice()[position].1))
    }

    /// Whether this is the name of the key column.
    pub fn is_key(&self, column: &Name) -> bool
        ensures { result ≡ is_key (definition self.now) column.now }
    {
        column.bytes() == self.key_name().bytes()
    }
}
