// Rules on literals that columns are given.
ghost use Rattle.std.specs.Prelude.{◌≡◌, ◌∷◌, []};
ghost use Rattle.sasi_types.specs.declared.literal.Literal.{Literal};
ghost use Rattle.sasi_model.specs.State.{Definition};
ghost use Rattle.sasi_model.specs.Refusals.{each};
ghost use Rattle.sasi_schema.specs.Answers.{Answers};
ghost use Rattle.sasi_schema.specs.Defined.{definition};

use crate::Refusal;
use crate::fault::Fault;
use crate::literals::{is_empty_text, is_long_text, is_null, is_of, is_out_of_range};
use sasi_schema::Table;
use sasi_types::{Literal, Name};
use std::alloc::Global;

/// A rule on a column and the literal that it is given.
#[derive(Clone, Copy)]
pub enum LiteralRule {
    WrongType,
    /// The same in a WHERE, where NULL is of no type.
    WrongWhere,
    NumberRange,
    KeyEmpty,
    ValueTooLong,
}

impl LiteralRule {
    ghost use Rattle.sasi_machine.specs.Faults.{refusal_of_fault};
    ghost use Rattle.sasi_machine.specs.Refusal.{refusal_of};
    ghost use Rattle.sasi_machine.specs.Rules.{literal_rule};

    /// Whether the rule refuses the literal. It passes the literal of a name that is no column.
    pub fn applies(self, table: &Table, column: &Name, literal: &Literal) -> bool
        ensures { result ≡ (literal_rule self (definition table.now) column.now literal.now).0 }
    {
        let Some(kind) = table.type_of(column) else {
            return false;
        };
        match self {
            LiteralRule::WrongType => !is_of(kind, literal),
            LiteralRule::WrongWhere => !is_of(kind, literal) || is_null(literal),
            LiteralRule::NumberRange => is_out_of_range(kind, literal),
            LiteralRule::KeyEmpty => table.is_key(column) && is_empty_text(kind, literal),
            LiteralRule::ValueTooLong => is_long_text(kind, literal),
        }
    }

    /// The refusal of the column.
    pub fn refusal(self, column: Name) -> Refusal
        ensures { (d : Definition) (literal : Literal) → refusal_of result ≡ (literal_rule self d column literal).1 }
    {
        match self {
            LiteralRule::WrongType => Refusal::WrongType(column),
            LiteralRule::WrongWhere => Refusal::WrongType(column),
            LiteralRule::NumberRange => Refusal::NumberRange(column),
            LiteralRule::KeyEmpty => Refusal::KeyEmpty(column),
            LiteralRule::ValueTooLong => Refusal::ValueTooLong(column),
        }
    }

    /// Tries the rule on a column's literal.
    pub fn check(
        self,
        alloc: Global,
        table: &Table,
        column: &Name,
        literal: &Literal,
    ) -> Result<(), Fault>
        ensures { Answers refusal_of_fault (literal_rule self (definition table.now) column.now literal.now ∷ []) result }
    {
        if self.applies(table, column, literal) {
            return Err(Fault::Refused(self.refusal(column.copy(alloc)?)));
        }
        Ok(())
    }

    /// Tries the rule on each column's literal.
    pub fn check_each(
        self,
        alloc: Global,
        table: &Table,
        given: &[(Name, Literal)],
    ) -> Result<(), Fault>
        ensures { Answers refusal_of_fault (each (literal_rule self (definition table.now)) given.now) result }
    {
        for (column, literal) in given {
            self.check(alloc, table, column, literal)?;
        }
        Ok(())
    }
}
