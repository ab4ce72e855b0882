// Candidates, and the hits of parts.
ghost use Rattle.std.specs.Prelude.{◌≡◌, false, nat_eq, IfErr, IfOk, map};
ghost use Rattle.std.specs.List.{list_any, zip};
ghost use Rattle.std.specs.Map.{lookup};
ghost use Rattle.std.specs.Option.{option_map_or};
ghost use Rattle.sasi_candidates.specs.Candidates.{admits, is_candidate};
ghost use Rattle.sasi_candidates.specs.Parts.{hit, hit_in_index, hit_in_memory, hit_on_disk};
ghost use Rattle.sasi_machine.specs.Classes.{ConditionLacks, OnMissing, RuleLacks, WhereLacks};
ghost use Rattle.sasi_machine.specs.TableRows.{TextsStored};
ghost use Rattle.sasi_machine.specs.Where.{model_condition, model_search};
ghost use Rattle.sasi_model.specs.Filters.{where_of};
ghost use Rattle.sasi_model.specs.Indexes.{index_of};
ghost use Rattle.sasi_machine_layout.specs.Contents.{AreKept};
ghost use Rattle.sasi_machine_layout.specs.Hits.{columns_in, parts_in};

use crate::contents::{FileContents, TableContents};
use crate::stored::{any_unstored, terms_at, value_of};
use sasi_analyzers::Kit;
use sasi_machine::{Condition, Search, finds_among};
use sasi_manifest::PartNumber;
use sasi_memindex::terms_of;
use sasi_memtable::Memtable;
use sasi_schema::Table;
use sasi_types::{DecoratedKey, IndexDef, KitFault};
use std::alloc::Global;

/// Whether each condition leaves the key.
pub fn is_candidate(
    alloc: Global,
    table: &Table,
    parts: &TableContents,
    conditions: &[Condition],
    key: &DecoratedKey,
    kit: &mut Kit,
) -> Result<bool, KitFault>
    requires { AreKept parts.now }
    ensures candidate { IfOk result (λ candidate. candidate ≡ is_candidate (parts_in table.now parts.now) (where_of (map model_condition conditions.now)) key.now) }
    ensures missing { IfErr result (OnMissing (WhereLacks (map (λ b. kind (b.vtable, b.value)) kit.old.objects.items) (map model_condition conditions.now))) }
    ensures kinds { map (λ b. kind (b.vtable, b.value)) kit.new.objects.items ≡ map (λ b. kind (b.vtable, b.value)) kit.old.objects.items }
{
    for condition in conditions {
        if !admits(alloc, table, parts, condition, key, kit)? {
            return Ok(false);
        }
    }
    Ok(true)
}

// Whether the condition leaves the key: one on an indexed column leaves the hits of every part, and one on another column all keys.
fn admits(
    alloc: Global,
    table: &Table,
    parts: &TableContents,
    condition: &Condition,
    key: &DecoratedKey,
    kit: &mut Kit,
) -> Result<bool, KitFault>
    requires { AreKept parts.now }
    ensures admits { IfOk result (λ admitted. admitted ≡ admits (parts_in table.now parts.now) key.now (model_condition condition.now)) }
    ensures missing { IfErr result (OnMissing (ConditionLacks (map (λ b. kind (b.vtable, b.value)) kit.old.objects.items) (model_condition condition.now))) }
    ensures kinds { map (λ b. kind (b.vtable, b.value)) kit.new.objects.items ≡ map (λ b. kind (b.vtable, b.value)) kit.old.objects.items }
{
    match condition {
        Condition::OfKey(asked) => Ok(key.key.bytes() == asked.bytes()),
        Condition::Indexed(index, search) => any_hit(alloc, table, parts, index, search, key, kit),
        Condition::Plain(..) => Ok(true),
    }
}

// Whether the key is a hit of a part.
fn any_hit(
    alloc: Global,
    table: &Table,
    parts: &TableContents,
    index: &IndexDef,
    search: &Search,
    key: &DecoratedKey,
    kit: &mut Kit,
) -> Result<bool, KitFault>
    requires { AreKept parts.now }
    ensures found { IfOk result (λ found. found ≡ list_any (hit (index_of index.now) (model_search search.now) key.now) (parts_in table.now parts.now)) }
    ensures missing { IfErr result (OnMissing (RuleLacks (map (λ b. kind (b.vtable, b.value)) kit.old.objects.items) index.now.rule)) }
    ensures kinds { map (λ b. kind (b.vtable, b.value)) kit.new.objects.items ≡ map (λ b. kind (b.vtable, b.value)) kit.old.objects.items }
{
    let files = parts.files.as_slice();
    for file in files {
        if hit_in_file(alloc, table, file, index, search, key, kit)? {
            return Ok(true);
        }
    }
    hit_in_memory(alloc, &parts.memtable, index, search, key, kit)
}

// Whether it is one of a file: of what its index file has, or any key where it has none.
fn hit_in_file(
    alloc: Global,
    table: &Table,
    file: &FileContents,
    index: &IndexDef,
    search: &Search,
    key: &DecoratedKey,
    kit: &mut Kit,
) -> Result<bool, KitFault>
    requires { TextsStored file.now.holds.partitions }
    ensures found { IfOk result (λ found. found ≡ hit_on_disk (list_any (nat_eq index.now.column) (columns_in table.now.indexes file.now.listed.parts)) (index_of index.now) (model_search search.now) file.now.holds.partitions key.now) }
    ensures missing { IfErr result (OnMissing (RuleLacks (map (λ b. kind (b.vtable, b.value)) kit.old.objects.items) index.now.rule)) }
    ensures kinds { map (λ b. kind (b.vtable, b.value)) kit.new.objects.items ≡ map (λ b. kind (b.vtable, b.value)) kit.old.objects.items }
{
    let indexes = table.indexes.as_slice();
    if !has_index(indexes, file.listed.parts.as_slice(), index.column) {
        return Ok(file.holds.get(key).is_some());
    }
    hit_in_index(alloc, &file.holds, index, search, key, kit)
}

// Whether one of the parts is of an index on the column.
fn has_index(indexes: &[IndexDef], parts: &[PartNumber], column: u16) -> bool
    ensures { result ≡ list_any (nat_eq column) (columns_in indexes.now parts.now) }
{
    for part in parts {
        if is_on(indexes, part.index, column) {
            return true;
        }
    }
    false
}

// Whether the index of this number is on the column.
fn is_on(indexes: &[IndexDef], number: u32, column: u16) -> bool
    ensures { result ≡ option_map_or (λ index. nat_eq column index.column) (lookup (nat_eq number) (zip (map (λ def. def.number) indexes.now) (map index_of indexes.now))) false }
{
    for index in indexes {
        if number == index.number {
            return column == index.column;
        }
    }
    false
}

// Whether the index file of these partitions has the key: in the spill, or for each word under a term that is as asked.
fn hit_in_index(
    alloc: Global,
    holds: &Memtable,
    index: &IndexDef,
    search: &Search,
    key: &DecoratedKey,
    kit: &mut Kit,
) -> Result<bool, KitFault>
    requires { TextsStored holds.now.partitions }
    ensures found { IfOk result (λ found. found ≡ hit_in_index (index_of index.now) (model_search search.now) holds.now.partitions key.now) }
    ensures missing { IfErr result (OnMissing (RuleLacks (map (λ b. kind (b.vtable, b.value)) kit.old.objects.items) index.now.rule)) }
    ensures kinds { map (λ b. kind (b.vtable, b.value)) kit.new.objects.items ≡ map (λ b. kind (b.vtable, b.value)) kit.old.objects.items }
{
    let terms = terms_at(alloc, holds, index, key, kit)?;
    if any_unstored(alloc, holds, index, terms.as_slice(), kit)? {
        return Ok(true);
    }
    Ok(finds_among(search, terms.as_slice()))
}

// Whether the cell that is current in memory is as asked.
fn hit_in_memory(
    alloc: Global,
    holds: &Memtable,
    index: &IndexDef,
    search: &Search,
    key: &DecoratedKey,
    kit: &mut Kit,
) -> Result<bool, KitFault>
    requires { TextsStored holds.now.partitions }
    ensures found { IfOk result (λ found. found ≡ hit_in_memory (index_of index.now) (model_search search.now) holds.now.partitions key.now) }
    ensures missing { IfErr result (OnMissing (RuleLacks (map (λ b. kind (b.vtable, b.value)) kit.old.objects.items) index.now.rule)) }
    ensures kinds { map (λ b. kind (b.vtable, b.value)) kit.new.objects.items ≡ map (λ b. kind (b.vtable, b.value)) kit.old.objects.items }
{
    let Some(value) = value_of(holds, index.column, key) else {
        return Ok(false);
    };
    let terms = terms_of(alloc, index.rule, Some(value), kit)?;
    Ok(finds_among(search, terms.as_slice()))
}
