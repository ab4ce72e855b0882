// Numbers of data files that are looked up.
ghost use Rattle.std.specs.Prelude.{◌≡◌, ◌==◌, ◌++◌, ◌∷◌, [], length, IfOk};
ghost use Rattle.sasi_manifest.specs.ListedFiles.{is_among};

use crate::files::NumberList;
use sasi_host::DataNumber;
use std::alloc::{AllocError, Global};
use std::collections::BTreeSet;
use std::marker::Model;

/// Numbers in the order in which they came, each of which is found in logarithmic time.
#[derive(Drop)]
pub struct NumberSet {
    numbers: NumberList,
    tree: BTreeSet<DataNumber>,
}

impl Model for NumberSet {
    ghost use Rattle.std.specs.Prelude.{ℕ, List};
    ghost use Rattle.sasi_manifest.specs.NumberSets.{IsTreeOf};

    ghost Value = { List ℕ };

    ghost view = { λ a. a.numbers };

    ghost invariant = { λ a. IsTreeOf a.numbers a.tree };
}

impl NumberSet {
    /// No numbers.
    pub fn new(alloc: Global) -> NumberSet
        ensures { result ≡ [] }
    {
        NumberSet {
            numbers: NumberList::new(alloc),
            tree: BTreeSet::new(alloc),
        }
    }

    /// These numbers.
    pub fn of(alloc: Global, numbers: &[DataNumber]) -> Result<NumberSet, AllocError>
        ensures { IfOk result (λ set. set ≡ numbers.now) }
    {
        let mut set = NumberSet::new(alloc);
        for number in numbers {
            set = set.with(*number)?;
        }
        Ok(set)
    }

    /// Whether it has no numbers.
    pub fn is_empty(&self) -> bool
        ensures { result ≡ (length self.now == 0) }
    {
        self.numbers.as_slice().is_empty()
    }

    /// Whether it has the number.
    pub fn has(&self, number: DataNumber) -> bool
        ensures { result ≡ is_among self.now number }
    {
        self.tree.contains(&number)
    }

    /// With one number more at the end.
    pub fn with(self, number: DataNumber) -> Result<NumberSet, AllocError>
        ensures { IfOk result (λ more. more ≡ self ++ number ∷ []) }
    {
        let NumberSet {
            mut numbers,
            mut tree,
        } = self;
        tree.insert(number)?;
        numbers.push(number)?;
        Ok(NumberSet { numbers, tree })
    }

    /// The numbers. Allocates nothing.
    pub fn into_list(self) -> NumberList
        ensures { result ≡ self }
    {
        self.numbers
    }
}
