// Which relations columns take.
ghost use Rattle.std.specs.Prelude.{◌≡◌, false};
ghost use Rattle.std.specs.Option.{option_copied, option_map, option_map_or};
ghost use Rattle.std.specs.Str.{IsUtf8};
ghost use Rattle.sasi_model.specs.Indexes.{index_of};
ghost use Rattle.sasi_model.specs.Refusals.{is_filtered, is_taken, type_of_column};
ghost use Rattle.sasi_model.specs.Relations.{column_takes, is_unindexed, takes, takes_like, takes_pattern, text_takes};
ghost use Rattle.sasi_model.specs.State.{number_of_column};
ghost use Rattle.sasi_model.specs.WellFormed.{IsWellFormedLiteral};
ghost use Rattle.sasi_schema.specs.Defined.{definition};

use crate::terms::as_str;
use sasi_schema::{Table, index_on};
use sasi_terms::{Op, Pattern};
use sasi_types::{ColumnType, IndexDef, Literal, Mode, Relation, Rule, Test, Text};

/// Whether the column of a relation takes it, or isn't there.
pub fn is_taken(table: &Table, relation: &Relation) -> bool
    requires { IsWellFormedLiteral relation.now.value }
    ensures { result ≡ is_taken (definition table.now) relation.now (number_of_column (definition table.now) relation.now.column) (type_of_column (definition table.now) relation.now.column) }
{
    match table.column(&relation.column) {
        Some((number, kind)) => takes(table, number, kind, relation.test, &relation.value),
        None => true,
    }
}

// Whether the column with this number and type takes the relation; 0 is the key.
fn takes(table: &Table, number: u16, kind: ColumnType, test: Test, literal: &Literal) -> bool
    requires { IsWellFormedLiteral literal.now }
    ensures { result ≡ takes (definition table.now) number kind test literal.now }
{
    match number {
        0 => test == Test::Eq,
        number => column_takes(
            kind,
            index_on(number, table.indexes.as_slice()),
            test,
            literal,
        ),
    }
}

// Whether a regular column of this type takes it, with its index if it has one.
fn column_takes(kind: ColumnType, index: Option<&IndexDef>, test: Test, literal: &Literal) -> bool
    requires { IsWellFormedLiteral literal.now }
    ensures { result ≡ column_takes kind (option_map index_of (option_copied index.entry)) test literal.now }
{
    match kind {
        ColumnType::Int | ColumnType::BigInt => test != Test::Like,
        ColumnType::Uuid => test == Test::Eq,
        ColumnType::Text => match index {
            Some(index) => index_takes(index.mode, index.rule, test, literal),
            None => test == Test::Eq,
        },
    }
}

// Whether a text takes it, with an index in this mode and with this rule.
fn index_takes(mode: Mode, rule: Option<Rule>, test: Test, literal: &Literal) -> bool
    requires { IsWellFormedLiteral literal.now }
    ensures { result ≡ option_map_or (λ rule. text_takes mode rule test literal.now) rule false }
{
    match rule {
        Some(rule) => text_takes(mode, rule, test, literal),
        None => false,
    }
}

fn text_takes(mode: Mode, rule: Rule, test: Test, literal: &Literal) -> bool
    requires { IsWellFormedLiteral literal.now }
    ensures { result ≡ text_takes mode rule test literal.now }
{
    match (test, literal) {
        (Test::Eq, _) => matches!(rule, Rule::Whole { .. }),
        (Test::Like, Literal::Text(text)) => takes_like(mode, rule, text),
        _ => false,
    }
}

// Whether the index takes the pattern; one with an empty body is refused for that.
fn takes_like(mode: Mode, rule: Rule, text: &Text) -> bool
    requires { IsUtf8 text.now }
    ensures { result ≡ takes_like mode rule text.now }
{
    match Pattern::read(as_str(text)) {
        Ok(pattern) => takes_pattern(mode, rule, pattern.op),
        Err(_) => true,
    }
}

fn takes_pattern(mode: Mode, rule: Rule, op: Op) -> bool
    ensures { result ≡ takes_pattern mode rule op }
{
    match (mode, rule, op) {
        (_, _, Op::Eq)
        | (Mode::Prefix, _, Op::Prefix)
        | (Mode::Contains, Rule::Whole { .. }, Op::Prefix)
        | (Mode::Contains, _, Op::Suffix | Op::Contains) => true,
        _ => false,
    }
}

/// Whether the relation is on a column that is neither the key nor indexed.
pub fn is_filtered(table: &Table, relation: &Relation) -> bool
    ensures { result ≡ is_filtered (definition table.now) relation.now }
{
    match table.number_of(&relation.column) {
        Some(number) => is_unindexed(table, number),
        None => false,
    }
}

fn is_unindexed(table: &Table, number: u16) -> bool
    ensures { result ≡ is_unindexed (definition table.now) number }
{
    match number {
        0 => false,
        number => index_on(number, table.indexes.as_slice()).is_none(),
    }
}
