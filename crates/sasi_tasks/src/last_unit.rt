// The last unit of a compaction.

ghost use Rattle.std.specs.Prelude.{◌≡◌, ◌<◌, ◌≤◌, ◌+◌, ◌++◌, ◌-◌, ◌^◌, ◌∷◌, [], length, slice_get, suc, take, IfErr, IfNone, IfOk, IfSome, OnOk, OnSome, Some};
ghost use Rattle.std.specs.List.{filter, flat_map};
ghost use Rattle.sasi_compact.specs.Tasks.{IsReady};
ghost use Rattle.sasi_layout.specs.Layout.{drawn};
ghost use Rattle.sasi_manifest.specs.ListedDefinition.{ListedDefinition};
ghost use Rattle.sasi_manifest.specs.Edits.{files_of};
ghost use Rattle.sasi_manifest.specs.ListedFiles.{is_among, names_of};
ghost use Rattle.sasi_tasks.specs.MakesTaskMoves.{CanGoOn, MakesTaskMoves};
ghost use Rattle.sasi_tasks.specs.Running.{DrawsParts, StopsDrawn, StopsParts, compaction_of, numbers_of};
ghost use Rattle.sasi_tasks.specs.Tasks.{end_moves, without};
ghost use Rattle.sasi_tasks.specs.declared.running.RunningTask.{RunningTask as ARunningTask};

use crate::running::RunningTask;
use crate::unheld::delete_unheld;
use sasi_host::{FileName, Host};
use sasi_layout::NumberKind;
use sasi_listing::push_file;
use sasi_manifest::{ListedFile, NumberList, PartNumber, PartNumbers};
use sasi_tables::{Parts, StepFault};
use sasi_types::{IndexDef, IndexNumber};
use sasi_views::ViewBook;
use std::alloc::{AllocError, Global};

// The most bytes of a record's payload.
const MAX_RECORD: u64 = 1 << 30;

/// Lists the file of the task at this position, which has passed all keys, in the place of its sources: with index files of the indexes with which
/// it was begun and that are still defined. Then the sources are deleted that no view lists which is out.
pub fn end<H: Host>(
    parts: &mut Parts,
    tasks: &mut Vec<RunningTask>,
    views: &ViewBook,
    host: &mut H,
    at: usize,
) -> Result<(), StepFault>
    requires ready { CanGoOn (H.view host.old) views.now parts.old tasks.old.items }
    requires passed { (r : ARunningTask) × (slice_get tasks.old.items at ≡ Some r) × IsReady r.task }
    ensures makes { (r : ARunningTask) → slice_get tasks.old.items at ≡ Some r
        → MakesTaskMoves (λ l ks. end_moves r.table ks) (λ l ks. without r.table ks) views.now (H.view host.old) (H.view host.new) parts.old parts.new tasks.old.items tasks.new.items result }
    ensures reads { (H.view host.new).reads ≡ (H.view host.old).reads }
{
    let drawn = draw_parts(parts, &tasks[at])?;
    if tasks[at].task.record_length(&drawn) > MAX_RECORD {
        return Err(StepFault::NumbersSpent(NumberKind::Record));
    }
    let names = source_names(parts, &tasks[at])?;
    let running = tasks.remove(at);
    running
        .task
        .finish(host, &mut parts.manifest, running.table, &drawn)?;
    parts.numbers.part += drawn.as_slice().len() as u32;
    delete_unheld(host, views, &names)?;
    Ok(())
}

// A part after the last used one for each index with which the task was begun and that its table still has.
fn draw_parts(parts: &Parts, running: &RunningTask) -> Result<PartNumbers, StepFault>
    requires some { 0 < running.now.table }
    requires within { running.now.table ≤ length parts.now.manifest.listing.tables }
    ensures drawn { IfOk result (λ drawn. (row : ListedDefinition) → slice_get parts.now.manifest.listing.tables (running.now.table - 1) ≡ Some row → DrawsParts parts.now.numbers.part (compaction_of running.now) row.numbers drawn) }
    ensures stops { IfErr result (λ f. (row : ListedDefinition) → slice_get parts.now.manifest.listing.tables (running.now.table - 1) ≡ Some row → StopsParts parts.now.numbers.part (compaction_of running.now) row.numbers f) }
{
    let rows = parts.manifest.listing().tables.as_slice();
    let index = running.table as usize - 1;
    let defined = rows[index].table.indexes.as_slice();
    let left = numbers_left(parts.alloc, running.task.indexes(), defined)?;
    parts_after(parts.alloc, parts.numbers.part, left.as_slice())
}

// The numbers of those indexes that are still defined.
fn numbers_left(
    alloc: Global,
    indexes: &[IndexDef],
    defined: &[IndexDef],
) -> Result<NumberList, AllocError>
    ensures { IfOk result (λ left. left ≡ filter (is_among (numbers_of defined.now)) (numbers_of indexes.now)) }
{
    let mut left = NumberList::new(alloc);
    for def in indexes {
        push_defined(&mut left, defined, def.number)?;
    }
    Ok(left)
}

// Adds the number of an index if that is still defined.
fn push_defined(
    left: &mut NumberList,
    defined: &[IndexDef],
    number: IndexNumber,
) -> Result<(), AllocError>
    ensures { OnOk result (left.new ≡ left.old ++ filter (is_among (numbers_of defined.now)) (number ∷ [])) }
{
    if is_defined(defined, number) {
        return left.push(number);
    }
    Ok(())
}

// Whether an index has this number.
fn is_defined(defined: &[IndexDef], number: IndexNumber) -> bool
    ensures { result ≡ is_among (numbers_of defined.now) number }
{
    for def in defined {
        if number == def.number {
            return true;
        }
    }
    false
}

// A part after the last used one for each of the indexes with these numbers.
fn parts_after(alloc: Global, used: u32, indexes: &[IndexNumber]) -> Result<PartNumbers, StepFault>
    ensures drawn { IfOk result (λ parts. (parts ≡ drawn used indexes.now) × (used + length indexes.now < 2 ^ 32)) }
    ensures stops { IfErr result (λ f. StopsDrawn used indexes.now f) }
{
    let mut parts = PartNumbers::new(alloc);
    let mut last = used;
    for index in indexes {
        let Some(part) = next_part(last) else {
            return Err(StepFault::NumbersSpent(NumberKind::Part));
        };
        parts.push(PartNumber {
            index: *index,
            part,
        })?;
        last = part;
    }
    Ok(parts)
}

// The number of a part after the last used one, if it has 32 bits.
fn next_part(used: u32) -> Option<u32>
    ensures some { IfSome result (λ next. next ≡ suc used) }
    ensures left { OnSome result (used < 2 ^ 32 - 1) }
    ensures none { IfNone result (used ≡ 2 ^ 32 - 1) }
    ensures small { used < 2 ^ 32 }
{
    used.checked_add(1)
}

// The names of the sources' files: the data files, and the index files that they have now.
fn source_names(parts: &Parts, running: &RunningTask) -> Result<Vec<FileName>, AllocError>
    requires { length running.now.task.compaction.sources ≤ length (files_of parts.now.manifest.listing.tables running.now.table) }
    ensures { IfOk result (λ names. names.items ≡ flat_map names_of (take (length running.now.task.compaction.sources) (files_of parts.now.manifest.listing.tables running.now.table))) }
{
    let files = parts.manifest.listing().tables.files_of(running.table);
    names_in(parts.alloc, &files[..running.task.sources().len()])
}

// The names of data files and of the index files that go with them.
fn names_in(alloc: Global, files: &[ListedFile]) -> Result<Vec<FileName>, AllocError>
    ensures { IfOk result (λ names. names.items ≡ flat_map names_of files.now) }
{
    let mut names = Vec::new(alloc);
    for file in files {
        push_file(&mut names, file)?;
    }
    Ok(names)
}
