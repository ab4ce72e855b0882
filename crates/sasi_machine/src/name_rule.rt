// Rules on the names of columns.
ghost use Rattle.std.specs.Prelude.{◌≡◌, ◌∷◌, [], map};
ghost use Rattle.sasi_schema.specs.Answers.{Answers};
ghost use Rattle.sasi_schema.specs.Defined.{definition};

use crate::Refusal;
use crate::fault::Fault;
use sasi_schema::Table;
use sasi_types::{Literal, Name};
use std::alloc::Global;

/// A rule on the name of a column.
#[derive(Clone, Copy)]
pub enum NameRule {
    NoColumn,
    /// It is no column, or the key.
    NoRegularColumn,
}

impl NameRule {
    ghost use Rattle.sasi_machine.specs.Faults.{refusal_of_fault};
    ghost use Rattle.sasi_machine.specs.Rules.{name_rule};

    /// Whether the rule refuses the name.
    pub fn applies(self, table: &Table, name: &Name) -> bool
        ensures { result ≡ (name_rule self (definition table.now) name.now).0 }
    {
        match self {
            NameRule::NoColumn => table.number_of(name).is_none(),
            NameRule::NoRegularColumn => table.number_of(name).is_none() || table.is_key(name),
        }
    }

    /// Tries the rule on a name.
    pub fn check(self, alloc: Global, table: &Table, name: &Name) -> Result<(), Fault>
        ensures { Answers refusal_of_fault (name_rule self (definition table.now) name.now ∷ []) result }
    {
        if self.applies(table, name) {
            return Err(Fault::Refused(Refusal::NoColumn(name.copy(alloc)?)));
        }
        Ok(())
    }

    /// Tries the rule on each name.
    pub fn check_names(self, alloc: Global, table: &Table, names: &[Name]) -> Result<(), Fault>
        ensures { Answers refusal_of_fault (map (name_rule self (definition table.now)) names.now) result }
    {
        for name in names {
            self.check(alloc, table, name)?;
        }
        Ok(())
    }

    /// Tries the rule on each name that is set.
    pub fn check_sets(
        self,
        alloc: Global,
        table: &Table,
        sets: &[(Name, Literal)],
    ) -> Result<(), Fault>
        ensures { Answers refusal_of_fault (map (λ set. name_rule self (definition table.now) set.0) sets.now) result }
    {
        for set in sets {
            self.check(alloc, table, &set.0)?;
        }
        Ok(())
    }
}
