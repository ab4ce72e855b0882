// The rows of a table, as the lines that print them.
ghost use Rattle.std.specs.Prelude.{◌≡◌, ◌++◌, ◌∷◌, [], ℕ, map as map_list, IfErr, IfOk, OnOk};
ghost use Rattle.std.specs.FinMap as map;
ghost use Rattle.sasi_cells.specs.Rows.{IsStored};
ghost use Rattle.sasi_model.specs.Abbreviations.{row_line};
ghost use Rattle.sasi_model.specs.Filters.{limited, where_of};
ghost use Rattle.sasi_machine.specs.Classes.{OnMissing, WhereLacks};
ghost use Rattle.sasi_machine.specs.TableRows.{KeysStored, TextsStored, rows_picked};
ghost use Rattle.sasi_machine.specs.Where.{HasTexts};

use crate::{Reply, RowQuery};
use sasi_analyzers::Kit;
use sasi_cells::Partition;
use sasi_memtable::Memtable;
use sasi_types::{Key, KitFault};
use std::alloc::{AllocError, Global};

/// The lines of the rows of a memtable that are asked for, in order and up to the LIMIT.
pub fn row_lines(
    alloc: Global,
    memtable: &Memtable,
    query: &RowQuery,
    kit: &mut Kit,
) -> Result<Vec<Reply>, KitFault>
    requires keys { KeysStored query.now.picked.key memtable.now.partitions }
    requires texts { TextsStored memtable.now.partitions }
    ensures lines { IfOk result (λ lines. lines.items ≡ map_list row_line (limited query.now.limit (rows_picked query.now.picked.key query.now.picked.columns (where_of query.now.filter) (map.entries memtable.now.partitions)))) }
    ensures missing { IfErr result (OnMissing (WhereLacks (map_list (λ b. kind (b.vtable, b.value)) kit.old.objects.items) query.now.filter)) }
    ensures kinds { map_list (λ b. kind (b.vtable, b.value)) kit.new.objects.items ≡ map_list (λ b. kind (b.vtable, b.value)) kit.old.objects.items }
{
    let mut lines = Vec::new(alloc);
    for (decorated_key, partition) in memtable.iter() {
        if query.is_full(lines.len() as u64) {
            return Ok(lines);
        }
        add_line(alloc, query, &decorated_key.key, partition, kit, &mut lines)?;
    }
    Ok(lines)
}

// Adds the line of the row of the partition of a key, where it is there and accepted.
fn add_line(
    alloc: Global,
    query: &RowQuery,
    key: &Key,
    part: &Partition,
    kit: &mut Kit,
    lines: &mut Vec<Reply>,
) -> Result<(), KitFault>
    requires stored { IsStored query.now.picked.key key.now }
    requires texts { HasTexts part.now }
    ensures lines { OnOk result ((token : ℕ) → lines.new.items ≡ lines.old.items ++ map_list row_line (rows_picked query.now.picked.key query.now.picked.columns (where_of query.now.filter) ((record { token = token; key = key.now }, part.now) ∷ []))) }
    ensures missing { IfErr result (OnMissing (WhereLacks (map_list (λ b. kind (b.vtable, b.value)) kit.old.objects.items) query.now.filter)) }
    ensures kinds { map_list (λ b. kind (b.vtable, b.value)) kit.new.objects.items ≡ map_list (λ b. kind (b.vtable, b.value)) kit.old.objects.items }
{
    let mut line = Reply::new(alloc);
    if query.print_row(alloc, key, part, kit, &mut line)? == 0 {
        return Ok(());
    }
    Ok(push_line(lines, line)?)
}

fn push_line(lines: &mut Vec<Reply>, line: Reply) -> Result<(), AllocError>
    ensures { OnOk result (lines.new.items ≡ lines.old.items ++ line ∷ []) }
{
    lines.push(line)?;
    Ok(())
}
