// What an UPDATE sets.
ghost use Rattle.std.specs.Prelude.{◌≡◌, ◌++◌, ◌∷◌, [], IfOk, length};

use crate::{ColumnValues, Literal, Literals, Name, Names};
use std::alloc::{AllocError, Global};
use std::marker::Model;

/// What an UPDATE sets: columns with their values, in order.
#[derive(Drop)]
pub struct Sets {
    columns: Names,
    values: Literals,
}

impl Model for Sets {
    ghost use Rattle.std.specs.Prelude.{◌≡◌, List, ℕ, length};
    ghost use Rattle.std.specs.List.{zip};
    ghost use Rattle.sasi_types.specs.declared.literal.Literal.{Literal};

    ghost Value = { List (List ℕ × Literal) };

    ghost view = { λ a. zip a.columns a.values };

    ghost invariant = { λ a. length a.columns ≡ length a.values };
}

impl Sets {
    /// The empty list.
    pub fn new(alloc: Global) -> Sets
        ensures { result ≡ [] }
    {
        Sets {
            columns: Names::new(alloc),
            values: Literals::new(alloc),
        }
    }

    /// The list with one more column and its value.
    #[tactic(auto, using(crate::proofs::Zipped::zip_more))]
    pub fn with(self, column: &Name, value: Literal) -> Result<Sets, AllocError>
        ensures { IfOk result (λ sets. sets ≡ self ++ (column.now, value) ∷ []) }
    {
        let Sets { columns, values } = self;
        let (mut columns, mut values) = (columns, values);
        columns.push(column)?;
        values.push(value)?;
        Ok(Sets { columns, values })
    }

    /// The columns with their values, each by itself.
    pub fn unpack(&self, alloc: Global) -> Result<ColumnValues, AllocError>
        ensures { IfOk result (λ given. given ≡ self.now) }
    {
        let columns = self.columns.unpack(alloc)?;
        let values = self.values.unpack(alloc)?;
        ColumnValues::of(alloc, columns, values)
    }
}
