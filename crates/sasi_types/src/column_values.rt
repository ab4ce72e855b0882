// Columns with values, as a write goes through them.
ghost use Rattle.std.specs.Prelude.{◌≡◌, ◌++◌, ◌∷◌, [], None, IfOk, OnErr, OnOk};
ghost use Rattle.std.specs.List.{zip};
ghost use Rattle.std.specs.Option.{option_to_list};

use crate::{Literal, Name};
use std::alloc::{AllocError, Global};
use std::marker::Model;

/// Columns with their values, in order.
#[derive(Drop)]
pub struct ColumnValues {
    items: Vec<(Name, Literal)>,
}

impl Model for ColumnValues {
    ghost use Rattle.std.specs.Prelude.{List, ℕ};
    ghost use Rattle.sasi_types.specs.declared.literal.Literal.{Literal};

    ghost Value = { List (List ℕ × Literal) };

    ghost view = { λ a. a.items.items };
}

impl ColumnValues {
    /// The empty list.
    pub fn new(alloc: Global) -> ColumnValues
        ensures { result ≡ [] }
    {
        ColumnValues {
            items: Vec::new(alloc),
        }
    }

    /// These columns with their values, in order.
    pub fn from_vec(items: Vec<(Name, Literal)>) -> ColumnValues
        ensures { result ≡ items.items }
    {
        ColumnValues { items }
    }

    /// The columns, each with the value at its position, up to the shorter list's end.
    pub fn of(
        alloc: Global,
        columns: Vec<Name>,
        values: Vec<Literal>,
    ) -> Result<ColumnValues, AllocError>
        ensures { IfOk result (λ given. given ≡ zip columns.items values.items) }
    {
        let items = pairs(alloc, columns, values)?;
        Ok(ColumnValues { items })
    }

    /// Removes the last column and its value.
    pub fn pop(&mut self) -> Option<(Name, Literal)>
        ensures items { self.old ≡ self.new ++ option_to_list result }
        ensures end { result ≡ None → self.old ≡ [] }
    {
        self.items.pop()
    }

    /// The columns with their values, in order.
    pub fn as_slice(&self) -> &[(Name, Literal)]
        ensures { result.now ≡ self.now }
    {
        &self.items
    }

    /// Adds a column and its value at the end.
    pub fn push(&mut self, column: Name, value: Literal) -> Result<(), AllocError>
        ensures ok { OnOk result (self.new ≡ self.old ++ (column, value) ∷ []) }
        ensures err { OnErr result (self.new ≡ self.old) }
    {
        self.items.push((column, value))?;
        Ok(())
    }
}

fn pairs(
    alloc: Global,
    columns: Vec<Name>,
    values: Vec<Literal>,
) -> Result<Vec<(Name, Literal)>, AllocError>
    ensures { IfOk result (λ pairs. pairs.items ≡ zip columns.items values.items) }
{
    columns.into_iter().zip(values.into_iter()).collect(alloc)
}
