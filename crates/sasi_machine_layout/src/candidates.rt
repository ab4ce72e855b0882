// The candidates of a SELECT.
ghost use Rattle.std.specs.Prelude.{◌≡◌, IfErr, IfOk, Some, map};
ghost use Rattle.std.specs.Option.{option_map_or};
ghost use Rattle.sasi_layout.specs.Statements.{definitions_of};
ghost use Rattle.sasi_machine.specs.Classes.{OnMissing, TableLacks, TablesLack};
ghost use Rattle.sasi_model.specs.Abbreviations.{first_refusal};
ghost use Rattle.sasi_model.specs.Refusals.{select_rules};
ghost use Rattle.sasi_model.specs.WellFormed.{IsWellFormedSelect};
ghost use Rattle.sasi_schema.specs.Defined.{definition, numbers_of};
ghost use Rattle.sasi_machine_layout.specs.Checks.{answered_checks, table_checks};
ghost use Rattle.sasi_machine_layout.specs.Contents.{AreKept, IsContents, IsUnder, layout_of, table_with};

use crate::contents::{Contents, TableContents};
use crate::count::checked;
use sasi_analyzers::Kit;
use sasi_machine::{RowQuery, refusal_of_select};
use sasi_schema::Table;
use sasi_types::{KitFault, Partitioner, Select};
use std::alloc::Global;

/// How many candidates a SELECT checks, none where it is refused.
pub fn candidates(contents: &Contents, kit: &mut Kit, select: &Select) -> Result<u64, KitFault>
    requires contents { IsContents contents.now }
    requires written { IsWellFormedSelect select.now }
    ensures checks { IfOk result (λ count. count ≡ answered_checks (layout_of contents.now) select.now) }
    ensures missing { IfErr result (OnMissing (TablesLack (map (λ b. kind (b.vtable, b.value)) kit.old.objects.items) (definitions_of (layout_of contents.now)))) }
    ensures kinds { map (λ b. kind (b.vtable, b.value)) kit.new.objects.items ≡ map (λ b. kind (b.vtable, b.value)) kit.old.objects.items }
{
    let Some(named) = contents.schema.table(&select.table) else {
        return Ok(0);
    };
    let at = named.number as usize - 1;
    let table = &contents.schema.tables()[at];
    let parts = &contents.tables[at];
    let (alloc, partitioner) = (contents.alloc, contents.partitioner);
    count_in(alloc, partitioner, table, parts, kit, select)
}

// The same in its table, which has these parts.
fn count_in(
    alloc: Global,
    partitioner: Partitioner,
    table: &Table,
    parts: &TableContents,
    kit: &mut Kit,
    select: &Select,
) -> Result<u64, KitFault>
    requires written { IsWellFormedSelect select.now }
    requires under { IsUnder partitioner parts.now }
    requires kept { AreKept parts.now }
    ensures checks { IfOk result (λ count. count ≡ option_map_or (λ r. 0) (first_refusal (select_rules select.now (Some (definition table.now)))) (table_checks (table_with (definition table.now) (numbers_of table.now) parts.now) select.now)) }
    ensures missing { IfErr result (OnMissing (TableLacks (map (λ b. kind (b.vtable, b.value)) kit.old.objects.items) (definition table.now))) }
    ensures kinds { map (λ b. kind (b.vtable, b.value)) kit.new.objects.items ≡ map (λ b. kind (b.vtable, b.value)) kit.old.objects.items }
{
    let refused = refusal_of_select(alloc, table, select, kit)?;
    if refused.is_some() {
        return Ok(0);
    }
    let query = RowQuery::new(alloc, table, select, kit)?;
    checked(alloc, partitioner, table, parts, &query, kit)
}
