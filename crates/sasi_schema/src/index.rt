// Indexes that are to be defined.
ghost use Rattle.std.specs.Prelude.{◌≡◌, map, IfOk, Some};
ghost use Rattle.sasi_model.specs.Refusals.{index_rules};
ghost use Rattle.sasi_model.specs.State.{definition_of};
ghost use Rattle.sasi_schema.specs.Answers.{Answers};
ghost use Rattle.sasi_schema.specs.Defined.{definitions};
ghost use Rattle.sasi_schema.specs.Faults.{refusal_of_fault};
ghost use Rattle.sasi_schema.specs.Numbers.{RisesFrom};
ghost use Rattle.sasi_schema.specs.SchemaViews.{IsNewIndex, numbered_def};

use crate::SchemaFault;
use crate::index_check::check_index;
use crate::options::{mode_given, rule_given};
use crate::search::find_table;
use crate::table::Table;
use sasi_types::{ColumnType, IndexDef, IndexNumber, Mode, Name, Rule, TableNumber, Text};
use std::alloc::Global;

/// An index that a CREATE CUSTOM INDEX would define. It has no number yet.
#[derive(Drop)]
pub struct NewIndex {
    pub table: TableNumber,
    pub name: Name,
    /// The number of the indexed column, from 1 as in cells.
    pub column: u16,
    /// The type of the column.
    pub kind: ColumnType,
    pub mode: Mode,
    /// How terms are made of a text. The term of a number is the number.
    pub rule: Option<Rule>,
}

impl NewIndex {
    /// The definition of the index under this number.
    pub fn numbered(self, number: IndexNumber) -> IndexDef
        ensures { result ≡ numbered_def number self }
    {
        IndexDef {
            number,
            table: self.table,
            name: self.name,
            column: self.column,
            kind: self.kind,
            mode: self.mode,
            rule: self.rule,
        }
    }
}

/// The index of this name that a CREATE CUSTOM INDEX would define.
pub fn new_index(
    alloc: Global,
    tables: &[Table],
    name: Name,
    table: &Name,
    column: &Name,
    class: &Text,
    options: &[(Text, Text)],
) -> Result<NewIndex, SchemaFault>
    requires { RisesFrom 1 (map (λ t. t.number) tables.now) }
    ensures made { IfOk result (IsNewIndex (definitions tables.now) (Some name) table.now column.now options.now) }
    ensures answers { Answers refusal_of_fault (index_rules (definitions tables.now) (Some name) table.now column.now class.now options.now (definition_of table.now (definitions tables.now))) result }
{
    let Some(found) = find_table(table, tables) else {
        return Err(SchemaFault::NoTable(table.copy(alloc)?));
    };
    let (number, kind) = check_index(alloc, tables, found, &name, column, class, options)?;
    Ok(NewIndex {
        table: found.number,
        name,
        column: number,
        kind,
        mode: mode_given(options),
        rule: rule_given(kind, options),
    })
}
