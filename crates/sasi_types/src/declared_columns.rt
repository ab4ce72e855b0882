// The columns of a CREATE TABLE.
ghost use Rattle.std.specs.Prelude.{◌≡◌, ◌++◌, ◌∷◌, [], IfOk, OnErr, OnOk};

use crate::{ColumnType, Columns, Name, Names};
use std::alloc::{AllocError, Global};
use std::marker::Model;

/// The columns that a CREATE TABLE declares with their types, in order.
#[derive(Drop)]
pub struct DeclaredColumns {
    names: Names,
    types: Vec<ColumnType>,
}

impl Model for DeclaredColumns {
    ghost use Rattle.std.specs.Prelude.{◌≡◌, List, ℕ, length};
    ghost use Rattle.std.specs.List.{zip};
    ghost use Rattle.sasi_types.specs.declared.column.ColumnType.{ColumnType};

    ghost Value = { List (List ℕ × ColumnType) };

    ghost view = { λ a. zip a.names a.types.items };

    ghost invariant = { λ a. length a.names ≡ length a.types.items };
}

impl DeclaredColumns {
    /// No columns.
    pub fn new(alloc: Global) -> DeclaredColumns
        ensures { result ≡ [] }
    {
        DeclaredColumns {
            names: Names::new(alloc),
            types: Vec::new(alloc),
        }
    }

    /// Adds a column at the end.
    #[tactic(auto, using(crate::proofs::Zipped::zip_more))]
    pub fn push(&mut self, name: &Name, kind: ColumnType) -> Result<(), AllocError>
        ensures ok { OnOk result (self.new ≡ self.old ++ (name.now, kind) ∷ []) }
        ensures err { OnErr result (self.new ≡ self.old) }
    {
        self.types.reserve(1)?;
        self.names.push(name)?;
        self.types.push_reserved(kind);
        Ok(())
    }

    /// The columns, each by itself.
    pub fn unpack(&self, alloc: Global) -> Result<Columns, AllocError>
        ensures { IfOk result (λ columns. columns ≡ self.now) }
    {
        let mut columns = Columns::new(alloc);
        let mut names = self.names.read();
        let mut types = self.types.as_slice();
        'types: while let Some((kind, rest)) = types.split_first() {
            let Some(name) = names.next() else {
                unreachable!()
            };
            let name = Name::new(name.to_vec(alloc)?);
            columns.push(name, *kind)?;
            types = rest;
        }
        Ok(columns)
    }
}
