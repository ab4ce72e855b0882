// The definitions of indexes.
ghost use Rattle.std.specs.Prelude.{◌≡◌, ◌++◌, ◌∷◌, [], IfOk, OnOk, OnErr};

use crate::{ColumnType, Mode, Name, Rule, TableNumber};
use std::alloc::{AllocError, Global};
use std::marker::Model;

/// The number of an index, from 1 in the order of creation.
pub type IndexNumber = u32;

/// The definition of an index.
#[derive(Drop)]
pub struct IndexDef {
    pub number: IndexNumber,
    pub table: TableNumber,
    pub name: Name,
    /// The number of the indexed column, from 1 as in cells.
    pub column: u16,
    /// The type of the column.
    pub kind: ColumnType,
    pub mode: Mode,
    /// How terms are made of a text. The term of a number is the number.
    pub rule: Option<Rule>,
}

impl IndexDef {
    /// A copy of the definition.
    pub fn copy(&self, alloc: Global) -> Result<IndexDef, AllocError>
        ensures { IfOk result (λ copy. copy ≡ self.now) }
    {
        Ok(IndexDef {
            number: self.number,
            table: self.table,
            name: self.name.copy(alloc)?,
            column: self.column,
            kind: self.kind,
            mode: self.mode,
            rule: self.rule,
        })
    }
}

fn copies(alloc: Global, defs: &[IndexDef]) -> Result<Vec<IndexDef>, AllocError>
    ensures { IfOk result (λ copies. copies.items ≡ defs.now) }
{
    let mut copies = Vec::with_capacity(alloc, defs.len())?;
    for def in defs {
        copies.push(def.copy(alloc)?)?;
    }
    Ok(copies)
}

/// The definitions of some indexes.
#[derive(Drop)]
pub struct IndexList {
    items: Vec<IndexDef>,
}

impl Model for IndexList {
    ghost use Rattle.std.specs.Prelude.{List};
    ghost use Rattle.sasi_types.specs.declared.index_def.IndexDef.{IndexDef};

    ghost Value = { List IndexDef };

    ghost view = { λ a. a.items.items };
}

impl IndexList {
    /// The empty list.
    pub fn new(alloc: Global) -> IndexList
        ensures { result ≡ [] }
    {
        IndexList {
            items: Vec::new(alloc),
        }
    }

    /// The definitions, in order.
    pub fn as_slice(&self) -> &[IndexDef]
        ensures { result.now ≡ self.now }
    {
        &self.items
    }

    /// A copy of the definitions.
    pub fn copy(&self, alloc: Global) -> Result<IndexList, AllocError>
        ensures { IfOk result (λ copy. copy ≡ self.now) }
    {
        let items = copies(alloc, &self.items)?;
        Ok(IndexList { items })
    }

    /// Adds a definition at the end.
    pub fn push(&mut self, def: IndexDef) -> Result<(), AllocError>
        ensures ok { OnOk result (self.new ≡ self.old ++ def ∷ []) }
        ensures err { OnErr result (self.new ≡ self.old) }
    {
        self.items.push(def)?;
        Ok(())
    }
}
