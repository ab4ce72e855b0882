// Begins compactions.
ghost use Rattle.std.specs.Prelude.{◌≡◌, ◌<◌, ◌≤◌, ◌-◌, ◌^◌, ◌++◌, ◌∷◌, [], length, map, nat_eq, suc, IfErr, IfOk, OnOk};
ghost use Rattle.std.specs.List.{position};
ghost use Rattle.sasi_tables.specs.Puts.{HasTableFor};
ghost use Rattle.sasi_tables.specs.TablesView.{held_in};
ghost use Rattle.sasi_views.specs.Books.{Book};
ghost use Rattle.sasi_tasks.specs.MakesTaskMoves.{CanGoOn, MakesTaskMoves};
ghost use Rattle.sasi_layout.specs.declared.number_kind.NumberKind.TheVariants.{Data};
ghost use Rattle.sasi_tasks.specs.Running.{IsOverAll};
ghost use Rattle.sasi_tasks.specs.Tasks.{begin_moves, tasks_begun};
ghost use Rattle.sasi_tasks.specs.declared.running.RunningTask.{RunningTask as ARunningTask};

use crate::running::RunningTask;
use sasi_compact::CompactTask;
use sasi_host::{DataNumber, Host};
use sasi_layout::NumberKind;
use sasi_manifest::{ListedFile, NumberList, types_of};
use sasi_tables::{Parts, StepFault, rising_indexes};
use sasi_types::TableNumber;
use std::alloc::{AllocError, Global};

/// Begins a compaction of all files of a table, under the next data number, unless one runs there or the table has fewer than two. It makes
/// no call on the host.
pub fn begin<H: Host>(
    parts: &mut Parts,
    tasks: &mut Vec<RunningTask>,
    host: &H,
    table: TableNumber,
) -> Result<(), StepFault>
    requires there { HasTableFor table (held_in parts.old) }
    requires ready { (views : Book) × CanGoOn (H.view host.now) views parts.old tasks.old.items }
    ensures makes { (views : Book) → CanGoOn (H.view host.now) views parts.old tasks.old.items
        → MakesTaskMoves (begin_moves table) (tasks_begun table) views (H.view host.now) (H.view host.now) parts.old parts.new tasks.old.items tasks.new.items result }
{
    let _ = host;
    if position_of(tasks, table).is_some() {
        return Ok(());
    }
    if parts.manifest.listing().tables.files_of(table).len() < 2 {
        return Ok(());
    }
    let number = next_data(parts.numbers.data)?;
    let task = task_over(parts, table, number)?;
    add(tasks, RunningTask { table, task })?;
    parts.numbers.data = number;
    Ok(())
}

// Adds a task behind all others. The one that there is no memory for is dropped.
fn add(tasks: &mut Vec<RunningTask>, running: RunningTask) -> Result<(), AllocError>
    ensures { OnOk result (tasks.new.items ≡ tasks.old.items ++ running ∷ []) }
{
    let Ok(()) = tasks.push(running) else {
        return Err(AllocError);
    };
    Ok(())
}

// The data number after the last used one.
fn next_data(used: DataNumber) -> Result<DataNumber, NumberKind>
    ensures next { IfOk result (λ next. next ≡ suc used) }
    ensures fits { IfOk result (λ next. next < 2 ^ 32) }
    ensures spent { IfErr result (λ kind. (kind ≡ Data) × (used ≡ 2 ^ 32 - 1)) }
{
    used.checked_add(1).ok_or(NumberKind::Data)
}

// A compaction of all files of a table, with the indexes that it has, into the file of this number.
fn task_over(
    parts: &Parts,
    table: TableNumber,
    number: DataNumber,
) -> Result<CompactTask, AllocError>
    requires some { 0 < table }
    requires within { table ≤ length parts.now.manifest.listing.tables }
    ensures { IfOk result (IsOverAll parts.now table number) }
{
    let listing = parts.manifest.listing();
    let rows = listing.tables.as_slice();
    let index = table as usize - 1;
    let listed = &rows[index].table;
    let sources = numbers_of(parts.alloc, listing.tables.files_of(table))?;
    let indexes = rising_indexes(parts.alloc, listed.indexes.as_slice())?;
    let types = types_of(parts.alloc, listed)?;
    Ok(CompactTask::begin(
        parts.alloc,
        sources,
        number,
        indexes,
        types,
        listing.partitioner,
    ))
}

// The numbers of data files.
fn numbers_of(alloc: Global, files: &[ListedFile]) -> Result<NumberList, AllocError>
    ensures { IfOk result (λ numbers. numbers ≡ map (λ f. f.number) files.now) }
{
    let mut numbers = NumberList::new(alloc);
    for file in files {
        numbers.push(file.number)?;
    }
    Ok(numbers)
}

/// The position of the first task of a table, if one runs there.
pub fn position_of(tasks: &[RunningTask], table: TableNumber) -> Option<usize>
    ensures { result ≡ position (λ (running : ARunningTask). nat_eq running.table table) tasks.now }
{
    tasks.iter().position(|running| running.table == table)
}
