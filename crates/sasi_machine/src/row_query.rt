// What a SELECT asks of the rows of a table.
ghost use Rattle.std.specs.Prelude.{◌≡◌, ◌≤◌, ◌++◌, ◌∷◌, [], ℕ, List, length, map, IfOk, IfErr, OnOk};
ghost use Rattle.std.specs.List.{flat_map};
ghost use Rattle.sasi_types.specs.declared.class.Class.{Class};
ghost use Rattle.sasi_types.specs.declared.decorated_key.DecoratedKey.{DecoratedKey};
ghost use Rattle.sasi_cells.specs.Rows.{IsStored};
ghost use Rattle.sasi_model.specs.Abbreviations.{key_type, row_line};
ghost use Rattle.sasi_model.specs.Cells.{Partition as Cells};
ghost use Rattle.sasi_model.specs.Conditions.{condition_of};
ghost use Rattle.sasi_model.specs.Filters.{answers, limited, row_limit, where_of};
ghost use Rattle.sasi_model.specs.Step.{select_rows, selected_columns};
ghost use Rattle.sasi_schema.specs.Defined.{definition};
ghost use Rattle.sasi_machine.specs.Classes.{OnMissing, TableLacks, WhereLacks};
ghost use Rattle.sasi_machine.specs.Operands.{CanSelect};
ghost use Rattle.sasi_machine.specs.Picks.{pick};
ghost use Rattle.sasi_machine.specs.TableRows.{is_full, rows_picked};
ghost use Rattle.sasi_machine.specs.Where.{HasTexts};

use crate::conditions::conditions_of;
use crate::limit::row_limit;
use crate::picking::picked;
use crate::{Reply, RowFilter};
use sasi_analyzers::Kit;
use sasi_cells::{Partition, Picked};
use sasi_print::picked_row;
use sasi_schema::Table;
use sasi_types::{Key, KitFault, Select};
use std::alloc::Global;

/// What a SELECT asks of the rows of a table: which of them, which of their columns, and how many at most.
#[derive(Drop)]
pub struct RowQuery {
    pub picked: Picked,
    pub filter: RowFilter,
    /// How many rows it prints at most, where it has a LIMIT.
    pub limit: Option<u64>,
}

impl RowQuery {
    /// What a SELECT asks of a table on which it isn't refused.
    pub fn new(
        alloc: Global,
        table: &Table,
        select: &Select,
        kit: &mut Kit,
    ) -> Result<RowQuery, KitFault>
        requires { CanSelect (definition table.now) select.now }
        ensures key { IfOk result (λ query. query.picked.key ≡ key_type (definition table.now)) }
        ensures columns { IfOk result (λ query. query.picked.columns ≡ map pick (selected_columns (definition table.now) select.now.columns)) }
        ensures limit { IfOk result (λ query. query.limit ≡ row_limit select.now.limit) }
        ensures filter { IfOk result (λ query. query.filter ≡ map (condition_of (definition table.now)) select.now.relations) }

        // Its rows are those of the SELECT.
        ensures rows { IfOk result (λ query. (entries : List (DecoratedKey × Cells)) → limited query.limit (rows_picked query.picked.key query.picked.columns (where_of query.filter) entries) ≡ select_rows (definition table.now) select.now entries) }

        // A class is missing only where an index of the table needs it, and so it is when a row is tested.
        ensures classes { IfOk result (λ query. (kinds : List Class) (class : Class) → WhereLacks kinds query.filter class → TableLacks kinds (definition table.now) class) }
        ensures missing { IfErr result (OnMissing (TableLacks (map (λ b. kind (b.vtable, b.value)) kit.old.objects.items) (definition table.now))) }
        ensures kinds { map (λ b. kind (b.vtable, b.value)) kit.new.objects.items ≡ map (λ b. kind (b.vtable, b.value)) kit.old.objects.items }
    {
        let picked = picked(alloc, table, &select.columns)?;
        let relations = select.relations.unpack(alloc)?;
        let conditions = conditions_of(alloc, table, &relations, kit)?;
        Ok(RowQuery {
            picked,
            filter: RowFilter::new(alloc, conditions),
            limit: row_limit(select.limit),
        })
    }

    /// Whether no further row is to be printed after so many.
    pub fn is_full(&self, rows: u64) -> bool
        ensures { result ≡ is_full self.now.limit rows }
    {
        match self.limit {
            Some(limit) => limit <= rows,
            None => false,
        }
    }

    /// Prints the row of the partition of a key, where it is there and accepted, and gives 1. Else it prints nothing and gives 0.
    pub fn print_row(
        &self,
        alloc: Global,
        key: &Key,
        part: &Partition,
        kit: &mut Kit,
        reply: &mut Reply,
    ) -> Result<u64, KitFault>
        requires stored { IsStored self.now.picked.key key.now }
        requires texts { HasTexts part.now }
        ensures reply { OnOk result ((token : ℕ) → reply.new ≡ reply.old ++ flat_map row_line (rows_picked self.now.picked.key self.now.picked.columns (where_of self.now.filter) ((record { token = token; key = key.now }, part.now) ∷ []))) }
        ensures rows { IfOk result (λ rows. (token : ℕ) → rows ≡ length (rows_picked self.now.picked.key self.now.picked.columns (where_of self.now.filter) ((record { token = token; key = key.now }, part.now) ∷ []))) }
        ensures few { IfOk result (λ rows. rows ≤ 1) }
        ensures missing { IfErr result (OnMissing (WhereLacks (map (λ b. kind (b.vtable, b.value)) kit.old.objects.items) self.now.filter)) }
        ensures kinds { map (λ b. kind (b.vtable, b.value)) kit.new.objects.items ≡ map (λ b. kind (b.vtable, b.value)) kit.old.objects.items }
    {
        if !self.answers(key, part, kit)? {
            return Ok(0);
        }
        picked_row(alloc, reply, key, part, &self.picked)?;
        Ok(1)
    }

    // Whether the row is there, and accepted.
    fn answers(&self, key: &Key, part: &Partition, kit: &mut Kit) -> Result<bool, KitFault>
        requires { HasTexts part.now }
        ensures answers { IfOk result (λ answered. (token : ℕ) → answered ≡ answers (where_of self.now.filter) (record { token = token; key = key.now }, part.now)) }
        ensures missing { IfErr result (OnMissing (WhereLacks (map (λ b. kind (b.vtable, b.value)) kit.old.objects.items) self.now.filter)) }
        ensures kinds { map (λ b. kind (b.vtable, b.value)) kit.new.objects.items ≡ map (λ b. kind (b.vtable, b.value)) kit.old.objects.items }
    {
        if !part.is_live() {
            return Ok(false);
        }
        self.filter.accepts(key, part, kit)
    }
}
