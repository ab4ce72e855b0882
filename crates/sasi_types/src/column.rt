// The columns of a table, as they are declared.
ghost use Rattle.std.specs.Prelude.{◌≡◌, ◌++◌, ◌∷◌, [], IfOk, OnOk, OnErr};
ghost use Rattle.sasi_types.specs.Codes.{type_code};

use crate::Name;
use std::alloc::{AllocError, Global};
use std::marker::Model;

/// What the values of a column are.
#[derive(Clone, Copy, Debug, PartialEq, Eq)]
pub enum ColumnType {
    Text,
    Int,
    BigInt,
    Uuid,
}

impl ColumnType {
    /// Its number in files.
    pub fn code(self) -> u8
        ensures { result ≡ type_code self }
    {
        match self {
            ColumnType::Text => 0,
            ColumnType::Int => 1,
            ColumnType::BigInt => 2,
            ColumnType::Uuid => 3,
        }
    }
}

/// The columns of a table with their types, in declared order.
#[derive(Drop)]
pub struct Columns {
    items: Vec<(Name, ColumnType)>,
}

impl Model for Columns {
    ghost use Rattle.std.specs.Prelude.{List, ℕ};
    ghost use Rattle.sasi_types.specs.declared.column.ColumnType.{ColumnType};

    ghost Value = { List (List ℕ × ColumnType) };

    ghost view = { λ a. a.items.items };
}

impl Columns {
    /// No columns.
    pub fn new(alloc: Global) -> Columns
        ensures { result ≡ [] }
    {
        Columns {
            items: Vec::new(alloc),
        }
    }

    /// The columns, in declared order.
    pub fn as_slice(&self) -> &[(Name, ColumnType)]
        ensures { result.now ≡ self.now }
    {
        &self.items
    }

    /// A copy of the columns.
    pub fn copy(&self, alloc: Global) -> Result<Columns, AllocError>
        ensures { IfOk result (λ copy. copy ≡ self.now) }
    {
        let items = copies(alloc, &self.items)?;
        Ok(Columns { items })
    }

    /// Adds a column at the end.
    pub fn push(&mut self, name: Name, kind: ColumnType) -> Result<(), AllocError>
        ensures ok { OnOk result (self.new ≡ self.old ++ (name, kind) ∷ []) }
        ensures err { OnErr result (self.new ≡ self.old) }
    {
        self.items.push((name, kind))?;
        Ok(())
    }
}

fn copies(
    alloc: Global,
    columns: &[(Name, ColumnType)],
) -> Result<Vec<(Name, ColumnType)>, AllocError>
    ensures { IfOk result (λ copies. copies.items ≡ columns.now) }
{
    let mut copies = Vec::with_capacity(alloc, columns.len())?;
    for column in columns {
        copies.push((column.0.copy(alloc)?, column.1))?;
    }
    Ok(copies)
}
