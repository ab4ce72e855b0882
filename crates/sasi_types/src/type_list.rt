// The types of a table's columns, by which files are read.
ghost use Rattle.std.specs.Prelude.{◌≡◌, ◌++◌, ◌∷◌, [], OnOk, OnErr};

use crate::ColumnType;
use std::alloc::{AllocError, Global};
use std::marker::Model;

/// The types of a table's columns: the key's first, and then those of the regular columns in their order.
#[derive(Drop)]
pub struct TypeList {
    items: Vec<ColumnType>,
}

impl Model for TypeList {
    ghost use Rattle.std.specs.Prelude.{List};
    ghost use Rattle.sasi_types.specs.declared.column.ColumnType.{ColumnType};

    ghost Value = { List ColumnType };

    ghost view = { λ a. a.items.items };
}

impl TypeList {
    /// The empty list.
    pub fn new(alloc: Global) -> TypeList
        ensures { result ≡ [] }
    {
        TypeList {
            items: Vec::new(alloc),
        }
    }

    /// The types, in order.
    pub fn as_slice(&self) -> &[ColumnType]
        ensures { result.now ≡ self.now }
    {
        &self.items
    }

    /// Adds the type of one more column.
    pub fn push(&mut self, kind: ColumnType) -> Result<(), AllocError>
        ensures ok { OnOk result (self.new ≡ self.old ++ kind ∷ []) }
        ensures err { OnErr result (self.new ≡ self.old) }
    {
        self.items.push(kind)?;
        Ok(())
    }
}

/// The number of a table, from 1 in the order of creation.
pub type TableNumber = u32;

/// The numbers of tables, each with the types of its columns.
#[derive(Drop)]
pub struct TableTypes {
    items: Vec<(TableNumber, TypeList)>,
}

impl Model for TableTypes {
    ghost use Rattle.std.specs.Prelude.{List, ℕ};
    ghost use Rattle.sasi_types.specs.declared.column.ColumnType.{ColumnType};

    ghost Value = { List (ℕ × List ColumnType) };

    ghost view = { λ a. a.items.items };
}

impl TableTypes {
    /// The empty list.
    pub fn new(alloc: Global) -> TableTypes
        ensures { result ≡ [] }
    {
        TableTypes {
            items: Vec::new(alloc),
        }
    }

    /// The tables, in order.
    pub fn as_slice(&self) -> &[(TableNumber, TypeList)]
        ensures { result.now ≡ self.now }
    {
        &self.items
    }

    /// Adds the types of one more table.
    pub fn push(&mut self, table: TableNumber, types: TypeList) -> Result<(), AllocError>
        ensures ok { OnOk result (self.new ≡ self.old ++ (table, types) ∷ []) }
        ensures err { OnErr result (self.new ≡ self.old) }
    {
        self.items.push((table, types))?;
        Ok(())
    }
}
