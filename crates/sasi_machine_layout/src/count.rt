// The count of the candidates that are checked.
ghost use Rattle.std.specs.Prelude.{◌≡◌, ◌+◌, ◌-◌, ◌^◌, ◌∷◌, ◌<◌, min, List, IfErr, IfOk, false, map};
ghost use Rattle.sasi_candidates.specs.Candidates.{is_candidate};
ghost use Rattle.sasi_candidates.specs.Checks.{checked, looked};
ghost use Rattle.sasi_machine.specs.Classes.{OnMissing, WhereLacks};
ghost use Rattle.sasi_machine.specs.Where.{HasTexts};
ghost use Rattle.sasi_model.specs.Cells.{Partition as Written};
ghost use Rattle.sasi_model.specs.Filters.{answers, where_of};
ghost use Rattle.sasi_types.specs.declared.decorated_key.DecoratedKey.{DecoratedKey as AKey};
ghost use Rattle.sasi_machine_layout.specs.Contents.{AreKept, IsUnder};
ghost use Rattle.sasi_machine_layout.specs.Counts.{is_over, one_less};
ghost use Rattle.sasi_machine_layout.specs.Hits.{parts_in};

use crate::contents::TableContents;
use crate::hits::is_candidate;
use crate::merging::merged;
use sasi_analyzers::Kit;
use sasi_cells::Partition;
use sasi_machine::RowQuery;
use sasi_schema::Table;
use sasi_types::{DecoratedKey, KitFault, Partitioner};
use std::alloc::Global;

/// How many candidates are checked for the answer, over these parts of a table.
pub fn checked(
    alloc: Global,
    partitioner: Partitioner,
    table: &Table,
    parts: &TableContents,
    query: &RowQuery,
    kit: &mut Kit,
) -> Result<u64, KitFault>
    requires under { IsUnder partitioner parts.now }
    requires kept { AreKept parts.now }
    ensures count { IfOk result (λ count. count ≡ min (checked query.now.limit (where_of query.now.filter) (parts_in table.now parts.now)) (2 ^ 64 - 1)) }
    ensures missing { IfErr result (OnMissing (WhereLacks (map (λ b. kind (b.vtable, b.value)) kit.old.objects.items) query.now.filter)) }
    ensures kinds { map (λ b. kind (b.vtable, b.value)) kit.new.objects.items ≡ map (λ b. kind (b.vtable, b.value)) kit.old.objects.items }
{
    let all = merged(alloc, partitioner, parts)?;
    let mut count = Count {
        checked: 0,
        allowed: query.limit,
    };
    for (key, partition) in all.iter() {
        if count.is_full() {
            return Ok(count.checked);
        }
        if is_left(alloc, table, parts, query, key, kit)? {
            count = count.with(key, partition, query, kit)?;
        }
    }
    Ok(count.checked)
}

// Whether the WHERE leaves the key.
fn is_left(
    alloc: Global,
    table: &Table,
    parts: &TableContents,
    query: &RowQuery,
    key: &DecoratedKey,
    kit: &mut Kit,
) -> Result<bool, KitFault>
    requires { AreKept parts.now }
    ensures candidate { IfOk result (λ candidate. candidate ≡ is_candidate (parts_in table.now parts.now) (where_of query.now.filter) key.now) }
    ensures missing { IfErr result (OnMissing (WhereLacks (map (λ b. kind (b.vtable, b.value)) kit.old.objects.items) query.now.filter)) }
    ensures kinds { map (λ b. kind (b.vtable, b.value)) kit.new.objects.items ≡ map (λ b. kind (b.vtable, b.value)) kit.old.objects.items }
{
    is_candidate(alloc, table, parts, query.filter.conditions(), key, kit)
}

/// How many candidates were checked, and how many further rows LIMIT allows, where there is one.
#[derive(Clone, Copy)]
pub struct Count {
    pub checked: u64,
    pub allowed: Option<u64>,
}

impl Count {
    // Whether LIMIT allows no further row.
    fn is_full(self) -> bool
        ensures { result ≡ is_over self.allowed }
    {
        match self.allowed {
            Some(rows) => rows == 0,
            None => false,
        }
    }

    // With one candidate more, as the rest will be counted.
    fn with(
        self,
        key: &DecoratedKey,
        partition: &Partition,
        query: &RowQuery,
        kit: &mut Kit,
    ) -> Result<Count, KitFault>
        requires more { is_over self.allowed ≡ false }
        requires room { self.checked < 2 ^ 64 - 1 }
        requires texts { HasTexts partition.now }
        ensures one { IfOk result (λ new. new.checked ≡ self.checked + 1) }
        ensures rest { IfOk result (λ new. (left : List (AKey × Written)) → self.checked + looked self.allowed (answers (where_of query.now.filter)) ((key.now, partition.now) ∷ left) ≡ new.checked + looked new.allowed (answers (where_of query.now.filter)) left) }
        ensures missing { IfErr result (OnMissing (WhereLacks (map (λ b. kind (b.vtable, b.value)) kit.old.objects.items) query.now.filter)) }
        ensures kinds { map (λ b. kind (b.vtable, b.value)) kit.new.objects.items ≡ map (λ b. kind (b.vtable, b.value)) kit.old.objects.items }
    {
        let checked = self.checked + 1;
        if !answers(key, partition, query, kit)? {
            return Ok(Count { checked, ..self });
        }
        Ok(Count {
            checked,
            allowed: one_less(self.allowed),
        })
    }
}

// Whether the row is there, and as asked.
fn answers(
    key: &DecoratedKey,
    partition: &Partition,
    query: &RowQuery,
    kit: &mut Kit,
) -> Result<bool, KitFault>
    requires { HasTexts partition.now }
    ensures answers { IfOk result (λ answered. answered ≡ answers (where_of query.now.filter) (key.now, partition.now)) }
    ensures missing { IfErr result (OnMissing (WhereLacks (map (λ b. kind (b.vtable, b.value)) kit.old.objects.items) query.now.filter)) }
    ensures kinds { map (λ b. kind (b.vtable, b.value)) kit.new.objects.items ≡ map (λ b. kind (b.vtable, b.value)) kit.old.objects.items }
{
    if !partition.is_live() {
        return Ok(false);
    }
    query.filter.accepts(&key.key, partition, kit)
}

// How many rows LIMIT allows behind one more.
fn one_less(allowed: Option<u64>) -> Option<u64>
    requires { is_over allowed ≡ false }
    ensures { result ≡ one_less allowed }
{
    match allowed {
        Some(rows) => Some(rows - 1),
        None => None,
    }
}
