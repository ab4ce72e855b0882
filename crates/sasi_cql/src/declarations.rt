// What the items of a CREATE TABLE declare, in one list.
ghost use Rattle.std.specs.Prelude.{◌≡◌, ◌++◌, ◌∷◌, [], IfOk, OnOk};
ghost use Rattle.std.specs.List.{flat_map};
ghost use Rattle.sasi_model.specs.Statements.{columns_of, keys_of};
ghost use Rattle.sasi_cql.specs.TableItems.{declaration};

use crate::declared::Declared;
use sasi_types::{ColumnType, Declaration, DeclaredColumns, Name, Names};
use std::alloc::{AllocError, Global};
use std::marker::Model;

/// What the items of a CREATE TABLE declare, in order.
#[derive(Drop)]
pub struct Declarations {
    names: Names,
    kinds: Vec<Declared>,
}

impl Model for Declarations {
    ghost use Rattle.std.specs.Prelude.{◌≡◌, List, length};
    ghost use Rattle.sasi_types.specs.declared.declaration.Declaration.{Declaration};
    ghost use Rattle.sasi_cql.specs.TableItems.{declarations};

    ghost Value = { List Declaration };

    ghost view = { λ a. declarations a.names a.kinds.items };

    ghost invariant = { λ a. length a.names ≡ length a.kinds.items };
}

impl Declarations {
    /// The empty list.
    pub fn new(alloc: Global) -> Declarations
        ensures { result ≡ [] }
    {
        Declarations {
            names: Names::new(alloc),
            kinds: Vec::new(alloc),
        }
    }

    /// The list with one more.
    #[tactic(auto, using(crate::proofs::Declaring::declarations_more))]
    pub fn with(self, item: Declaration) -> Result<Declarations, AllocError>
        ensures { IfOk result (λ more. more ≡ self ++ item ∷ []) }
    {
        let Declarations { names, kinds } = self;
        let (mut names, mut kinds) = (names, kinds);
        let (name, kind) = parts(item);
        names.push(&name)?;
        kinds.push(kind)?;
        Ok(Declarations { names, kinds })
    }

    /// The columns that are declared, and the names that PRIMARY KEY is said of.
    pub fn split(&self, alloc: Global) -> Result<(DeclaredColumns, Names), AllocError>
        ensures columns { IfOk result (λ split. split.0 ≡ flat_map columns_of self.now) }
        ensures keys { IfOk result (λ split. split.1 ≡ flat_map keys_of self.now) }
    {
        let mut columns = DeclaredColumns::new(alloc);
        let mut keys = Names::new(alloc);
        let mut names = self.names.read();
        let mut kinds = self.kinds.as_slice();
        'kinds: while let Some((kind, rest)) = kinds.split_first() {
            let Some(name) = names.next() else {
                unreachable!()
            };
            let name = Name::new(name.to_vec(alloc)?);
            push_declared(&mut columns, &mut keys, &name, *kind)?;
            kinds = rest;
        }
        Ok((columns, keys))
    }
}

// The name of what is declared, and what it is.
fn parts(item: Declaration) -> (Name, Declared)
    ensures { item ≡ declaration result.0 result.1 }
{
    match item {
        Declaration::Column(name, kind) => (name, Declared::Column(kind)),
        Declaration::KeyColumn(name, kind) => (name, Declared::KeyColumn(kind)),
        Declaration::Key(name) => (name, Declared::Key),
    }
}

// Adds what is declared.
fn push_declared(
    columns: &mut DeclaredColumns,
    keys: &mut Names,
    name: &Name,
    kind: Declared,
) -> Result<(), AllocError>
    ensures columns { OnOk result (columns.new ≡ columns.old ++ columns_of (declaration name.now kind)) }
    ensures keys { OnOk result (keys.new ≡ keys.old ++ keys_of (declaration name.now kind)) }
{
    match kind {
        Declared::Column(kind) => {
            columns.push(name, kind)?;
        }
        Declared::KeyColumn(kind) => {
            push_key_column(columns, keys, name, kind)?;
        }
        Declared::Key => {
            keys.push(name)?;
        }
    }
    Ok(())
}

// Adds a column with PRIMARY KEY.
fn push_key_column(
    columns: &mut DeclaredColumns,
    keys: &mut Names,
    name: &Name,
    kind: ColumnType,
) -> Result<(), AllocError>
    ensures columns { OnOk result (columns.new ≡ columns.old ++ (name.now, kind) ∷ []) }
    ensures keys { OnOk result (keys.new ≡ keys.old ++ name.now ∷ []) }
{
    columns.push(name, kind)?;
    keys.push(name)?;
    Ok(())
}
