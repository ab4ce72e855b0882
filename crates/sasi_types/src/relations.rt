// The relations of a WHERE.
ghost use Rattle.std.specs.Prelude.{◌≡◌, ◌++◌, ◌∷◌, [], IfOk, length};

use crate::{Literals, Name, Names, Relation, Test};
use std::alloc::{AllocError, Global};
use std::marker::Model;

/// The relations of a WHERE in order, which all have to hold.
#[derive(Drop)]
pub struct Relations {
    columns: Names,
    tests: Vec<Test>,
    values: Literals,
}

impl Model for Relations {
    ghost use Rattle.std.specs.Prelude.{◌≡◌, List, length};
    ghost use Rattle.sasi_types.specs.declared.relation.Relation.{Relation};
    ghost use Rattle.sasi_types.specs.Related.{related};

    ghost Value = { List Relation };

    ghost view = { λ a. related a.columns a.tests.items a.values };

    ghost invariant = { λ a. (length a.columns ≡ length a.tests.items) × (length a.values ≡ length a.tests.items) };
}

impl Relations {
    /// No relations.
    pub fn new(alloc: Global) -> Relations
        ensures { result ≡ [] }
    {
        Relations {
            columns: Names::new(alloc),
            tests: Vec::new(alloc),
            values: Literals::new(alloc),
        }
    }

    /// The number of relations.
    #[tactic(auto, using(crate::proofs::Relating::related_length))]
    pub fn len(&self) -> usize
        ensures { result ≡ length self.now }
    {
        self.tests.len()
    }

    /// The relations with one more.
    #[tactic(auto, using(crate::proofs::Relating::related_more))]
    pub fn with(self, relation: Relation) -> Result<Relations, AllocError>
        ensures { IfOk result (λ relations. relations ≡ self ++ relation ∷ []) }
    {
        let Relations {
            columns,
            tests,
            values,
        } = self;
        let (mut columns, mut tests, mut values) = (columns, tests, values);
        let Relation {
            column,
            test,
            value,
        } = relation;
        columns.push(&column)?;
        tests.push(test)?;
        values.push(value)?;
        Ok(Relations {
            columns,
            tests,
            values,
        })
    }

    /// The relations, each by itself.
    pub fn unpack(&self, alloc: Global) -> Result<Vec<Relation>, AllocError>
        ensures { IfOk result (λ relations. relations.items ≡ self.now) }
    {
        let mut relations = Vec::new(alloc);
        let mut columns = self.columns.read();
        let mut values = self.values.read();
        let mut tests = self.tests.as_slice();
        'tests: while let Some((test, rest)) = tests.split_first() {
            let Some(column) = columns.next() else {
                unreachable!()
            };
            let Some(value) = values.next(alloc)? else {
                unreachable!()
            };
            let column = Name::new(column.to_vec(alloc)?);
            relations.push(Relation {
                column,
                test: *test,
                value,
            })?;
            tests = rest;
        }
        Ok(relations)
    }
}
