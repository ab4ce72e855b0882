// Goes on with compactions.
ghost use Rattle.std.specs.Prelude.{◌≡◌, ◌+◌, ◌++◌, ◌≤◌, ℕ, [], map, IfErr, OnOk};
ghost use Rattle.sasi_host.specs.Disk.{AnyChange, Changes, FileChange};
ghost use Rattle.sasi_host.specs.Names.{data_name};
ghost use Rattle.sasi_layout.specs.Classes.{KnowsClasses};
ghost use Rattle.sasi_merge.specs.Streams.{Entries};
ghost use Rattle.sasi_pairs.specs.Gathered.{LacksClass};
ghost use Rattle.sasi_scan.specs.Parts.{ShowsListed};
ghost use Rattle.sasi_compact.specs.Tasks.{CanGoOn as TaskCanGoOn, CompactCauses, IsCompacting, IsReady, MayReadMore, OnPairDamage, sources_of};
ghost use Rattle.sasi_tables.specs.Puts.{HasTableFor};
ghost use Rattle.sasi_tables.specs.TablesView.{held_in, memory_of};
ghost use Rattle.sasi_tasks.specs.MakesTaskMoves.{CanGoOn, MakesTaskMoves};
ghost use Rattle.sasi_tasks.specs.Running.{KnowsTasks, MayReadIn};
ghost use Rattle.sasi_tasks.specs.Tasks.{advanced, compact_moves, end_moves, step_moves, without};

use crate::beginning::{begin, position_of};
use crate::last_unit::end;
use crate::running::RunningTask;
use sasi_analyzers::Kit;
use sasi_compact::{CompactTask, PairFault, Progress};
use sasi_host::Host;
use sasi_tables::{Parts, StepFault};
use sasi_types::TableNumber;
use sasi_views::ViewBook;

/// Does units of the compaction that runs in a table, if one does: each passes the next key of its sources, and one more lists its file in their place.
pub fn step<H: Host>(
    parts: &mut Parts,
    tasks: &mut Vec<RunningTask>,
    views: &ViewBook,
    host: &mut H,
    kit: &mut Kit,
    table: TableNumber,
    units: u32,
) -> Result<(), StepFault>
    requires ready { CanGoOn (H.view host.old) views.now parts.old tasks.old.items }
    requires classes { KnowsTasks (map (λ b. kind (b.vtable, b.value)) kit.old.objects.items) tasks.old.items }
    requires some { 1 ≤ units }
    ensures makes { MakesTaskMoves (step_moves table units) (λ l ks. advanced table units l ks) views.now (H.view host.old) (H.view host.new) parts.old parts.new tasks.old.items tasks.new.items result }
    ensures reads { (most : ℕ) → MayReadIn table (H.view host.old).files tasks.old.items most → (H.view host.new).reads ≤ (H.view host.old).reads + most }
    ensures kinds { map (λ b. kind (b.vtable, b.value)) kit.new.objects.items ≡ map (λ b. kind (b.vtable, b.value)) kit.old.objects.items }
{
    let Some(at) = position_of(tasks, table) else {
        return Ok(());
    };
    match tasks[at].task.step(host, kit, units)? {
        Progress::Ready { left } if left > 0 => end(parts, tasks, views, host, at),
        _ => Ok(()),
    }
}

/// Does all that is left of the compaction that runs in a table, and then, where the table has two files at least, one of all of them.
pub fn compact<H: Host>(
    parts: &mut Parts,
    tasks: &mut Vec<RunningTask>,
    views: &ViewBook,
    host: &mut H,
    kit: &mut Kit,
    table: TableNumber,
) -> Result<(), StepFault>
    requires there { HasTableFor table (held_in parts.old) }
    requires ready { CanGoOn (H.view host.old) views.now parts.old tasks.old.items }
    requires tables { KnowsClasses (map (λ b. kind (b.vtable, b.value)) kit.old.objects.items) (memory_of parts.old) }
    requires classes { KnowsTasks (map (λ b. kind (b.vtable, b.value)) kit.old.objects.items) tasks.old.items }
    ensures makes { MakesTaskMoves (compact_moves table) (λ l ks. without table ks) views.now (H.view host.old) (H.view host.new) parts.old parts.new tasks.old.items tasks.new.items result }
    ensures kinds { map (λ b. kind (b.vtable, b.value)) kit.new.objects.items ≡ map (λ b. kind (b.vtable, b.value)) kit.old.objects.items }
{
    complete(parts, tasks, views, host, kit, table)?;
    begin(parts, tasks, host, table)?;
    complete(parts, tasks, views, host, kit, table)
}

// Does all that is left of the compaction that runs in a table, if one does.
fn complete<H: Host>(
    parts: &mut Parts,
    tasks: &mut Vec<RunningTask>,
    views: &ViewBook,
    host: &mut H,
    kit: &mut Kit,
    table: TableNumber,
) -> Result<(), StepFault>
    requires ready { CanGoOn (H.view host.old) views.now parts.old tasks.old.items }
    requires classes { KnowsTasks (map (λ b. kind (b.vtable, b.value)) kit.old.objects.items) tasks.old.items }
    ensures makes { MakesTaskMoves (λ l ks. end_moves table ks) (λ l ks. without table ks) views.now (H.view host.old) (H.view host.new) parts.old parts.new tasks.old.items tasks.new.items result }
    ensures kinds { map (λ b. kind (b.vtable, b.value)) kit.new.objects.items ≡ map (λ b. kind (b.vtable, b.value)) kit.old.objects.items }
{
    let Some(at) = position_of(tasks, table) else {
        return Ok(());
    };
    pass_all(&mut tasks[at].task, host, kit)?;
    end(parts, tasks, views, host, at)
}

// Passes all keys that are left.
fn pass_all<H: Host>(task: &mut CompactTask, host: &mut H, kit: &mut Kit) -> Result<(), PairFault>
    requires can { TaskCanGoOn (H.view host.old) task.old }
    ensures passed { OnOk result ((passed left : Entries) → IsCompacting (H.view host.old) task.old passed left → IsCompacting (H.view host.new) task.new (passed ++ left) []) }
    ensures can { OnOk result (TaskCanGoOn (H.view host.new) task.new) }
    ensures ready { OnOk result (IsReady task.new) }
    ensures same { task.new.compaction ≡ task.old.compaction }
    ensures reads { (most : ℕ) → MayReadMore (H.view host.old).files task.old most → (H.view host.new).reads ≤ (H.view host.old).reads + most }
    ensures damaged { IfErr result (OnPairDamage (ShowsListed (H.view host.old).files (sources_of task.old.compaction) task.old.compaction.types)) }
    ensures undamaged { (passed left : Entries) → IsCompacting (H.view host.old) task.old passed left → IfErr result (OnPairDamage (λ _. ⊥)) }
    ensures changes { Changes (FileChange (data_name task.old.compaction.number) AnyChange) (H.view host.old) (H.view host.new) }
    ensures causes { CompactCauses (LacksClass (map (λ b. kind (b.vtable, b.value)) kit.old.objects.items) task.old.compaction.indexes) (H.view host.old) (H.view host.new) result }
    ensures classes { map (λ b. kind (b.vtable, b.value)) kit.new.objects.items ≡ map (λ b. kind (b.vtable, b.value)) kit.old.objects.items }
{
    for _turn in 0..u64::MAX {
        if let Progress::Ready { .. } = task.step(host, kit, u32::MAX)? {
            return Ok(());
        }
    }
    Err(PairFault::OutOfMemory)
}
