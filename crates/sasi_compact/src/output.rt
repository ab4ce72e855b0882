// The output of a compaction, as it is written.
ghost use Rattle.std.specs.Prelude.{◌≡◌, ◌+◌, ◌≤◌, ℕ, false, map, true, None, Some, IfErr, IfOk, IfSome, MatchResult, OnOk};
ghost use Rattle.sasi_host.specs.Disk.{AnyChange, Changes, FileChange};
ghost use Rattle.sasi_host.specs.Names.{data_name};
ghost use Rattle.sasi_host.specs.View.{IsThere};
ghost use Rattle.sasi_merge.specs.Streams.{Entries};
ghost use Rattle.sasi_pairs.specs.Gathered.{LacksClass};
ghost use Rattle.sasi_scan.specs.Parts.{ShowsListed};
ghost use Rattle.sasi_scan.specs.Scanning.{HasReadsLeft as ScanHasReadsLeft, MayRead};
ghost use Rattle.sasi_compact.specs.Tasks.{CanBegin, CanCompact, CanGoOnTo, CanWriteOn, CompactCauses, HasOutput, HasPassed, HasReadsLeft, HasWritten, IsCompactingTo, IsProgressOf, IsReadyAt, MayReadTo, OnPairDamage, PassesNext, output_of, sources_of};

use crate::Progress;
use crate::ahead::{next_merged, open_scan};
use crate::compaction::Compaction;
use sasi_analyzers::Kit;
use sasi_cells::Partition;
use sasi_host::Host;
use sasi_pairs::{PairFault, PairWriter};
use sasi_scan::TableScan;
use sasi_types::Key;
use std::alloc::Global;

// The output, from the first unit on.
#[derive(Drop)]
pub(crate) struct Output {
    // What is left of the merge, behind the partition that is looked ahead.
    pub(crate) scan: TableScan,
    // What is written.
    pub(crate) pairs: PairWriter,
    // The next partition; None where none is left.
    pub(crate) next: Option<(Key, Partition)>,
}

/// Does units: the first begins the output, and each writes a partition, until they are used or none is left.
pub(crate) fn do_units<H: Host>(
    alloc: Global,
    host: &mut H,
    kit: &mut Kit,
    compaction: &Compaction,
    output: &mut Option<Output>,
    units: u32,
) -> Result<Progress, PairFault>
    requires compaction { CanCompact compaction.now }
    requires can { CanGoOnTo (H.view host.old) compaction.now output.old }
    ensures passed { IfOk result (λ progress. (passed left : Entries) → IsCompactingTo (H.view host.old) compaction.now output.old passed left → HasPassed (H.view host.new) compaction.now output.new units passed left progress) }
    ensures can { OnOk result (CanGoOnTo (H.view host.new) compaction.now output.new) }
    ensures ready { IfOk result (IsReadyAt output.new) }
    ensures give_up { IfSome output.new (HasOutput (H.view host.new) compaction.now.number) }
    ensures idle { output.old ≡ None → units ≡ 0 → (output.new ≡ None) × (host.new ≡ host.old) }
    ensures reads { (most : ℕ) → MayReadTo (H.view host.old).files compaction.now output.old most
        → MatchResult result (λ _. HasReadsLeft (H.view host.new).files compaction.now output.new ((H.view host.old).reads + most) (H.view host.new).reads) (λ _. (H.view host.new).reads ≤ (H.view host.old).reads + most) }
    ensures damaged { IfErr result (OnPairDamage (ShowsListed (H.view host.old).files (sources_of compaction.now) compaction.now.types)) }
    ensures undamaged { (passed left : Entries) → IsCompactingTo (H.view host.old) compaction.now output.old passed left → IfErr result (OnPairDamage (λ _. ⊥)) }
    ensures changes { Changes (FileChange (data_name compaction.now.number) AnyChange) (H.view host.old) (H.view host.new) }
    ensures causes { CompactCauses (LacksClass (map (λ b. kind (b.vtable, b.value)) kit.old.objects.items) compaction.now.indexes) (H.view host.old) (H.view host.new) result }
    ensures classes { map (λ b. kind (b.vtable, b.value)) kit.new.objects.items ≡ map (λ b. kind (b.vtable, b.value)) kit.old.objects.items }
{
    if is_idle(output, units) {
        return Ok(Progress::Running);
    }
    let mut made = begun(alloc, host, compaction, output.take())?;
    let passed = pass_units(alloc, host, kit, compaction, &mut made, units);
    *output = Some(made);
    passed
}

// Whether nothing is to be done, and nothing is begun.
fn is_idle(output: &Option<Output>, units: u32) -> bool
    ensures none { result ≡ true → output.now ≡ None }
    ensures no_units { result ≡ true → units ≡ 0 }
    ensures only { output.now ≡ None → units ≡ 0 → result ≡ true }
{
    match output {
        Some(_) => false,
        None => units == 0,
    }
}

// The output, which is begun where it isn't yet.
fn begun<H: Host>(
    alloc: Global,
    host: &mut H,
    compaction: &Compaction,
    output: Option<Output>,
) -> Result<Output, PairFault>
    requires compaction { CanCompact compaction.now }
    requires can { CanGoOnTo (H.view host.old) compaction.now output }
    ensures begun { IfOk result (λ made. (passed left : Entries) → IsCompactingTo (H.view host.old) compaction.now output passed left → HasWritten (H.view host.new) compaction.now made passed left) }
    ensures can { IfOk result (CanWriteOn (H.view host.new) compaction.now) }
    ensures reads { (most : ℕ) → MayReadTo (H.view host.old).files compaction.now output most
        → MatchResult result (λ made. HasReadsLeft (H.view host.new).files compaction.now (Some made) ((H.view host.old).reads + most) (H.view host.new).reads) (λ _. (H.view host.new).reads ≤ (H.view host.old).reads + most) }
    ensures damaged { IfErr result (OnPairDamage (ShowsListed (H.view host.old).files (sources_of compaction.now) compaction.now.types)) }
    ensures undamaged { (passed left : Entries) → IsCompactingTo (H.view host.old) compaction.now output passed left → IfErr result (OnPairDamage (λ _. ⊥)) }
    ensures changes { Changes (FileChange (data_name compaction.now.number) AnyChange) (H.view host.old) (H.view host.new) }
    ensures causes { CompactCauses (λ _. ⊥) (H.view host.old) (H.view host.new) result }
{
    match output {
        Some(output) => Ok(output),
        None => begin(alloc, host, compaction),
    }
}

// Opens the sources, and makes the data file. Where reading fails, nothing is made.
fn begin<H: Host>(alloc: Global, host: &mut H, compaction: &Compaction) -> Result<Output, PairFault>
    requires compaction { CanCompact compaction.now }
    requires can { CanBegin (H.view host.old) compaction.now }
    ensures begun { IfOk result (λ made. (passed left : Entries) → IsCompactingTo (H.view host.old) compaction.now None passed left → HasWritten (H.view host.new) compaction.now made passed left) }
    ensures can { IfOk result (CanWriteOn (H.view host.new) compaction.now) }
    ensures reads { (most : ℕ) → MayReadTo (H.view host.old).files compaction.now None most
        → MatchResult result (λ made. HasReadsLeft (H.view host.new).files compaction.now (Some made) ((H.view host.old).reads + most) (H.view host.new).reads) (λ _. (H.view host.new).reads ≤ (H.view host.old).reads + most) }
    ensures damaged { IfErr result (OnPairDamage (ShowsListed (H.view host.old).files (sources_of compaction.now) compaction.now.types)) }
    ensures undamaged { (passed left : Entries) → IsCompactingTo (H.view host.old) compaction.now None passed left → IfErr result (OnPairDamage (λ _. ⊥)) }
    ensures changes { Changes (FileChange (data_name compaction.now.number) AnyChange) (H.view host.old) (H.view host.new) }
    ensures causes { CompactCauses (λ _. ⊥) (H.view host.old) (H.view host.new) result }
{
    let mut scan = open_scan(
        alloc,
        host,
        &compaction.sources,
        &compaction.types,
        compaction.partitioner,
    )?;
    let next = next_merged(alloc, host, &mut scan)?;
    let pairs = PairWriter::begin(
        alloc,
        host,
        compaction.number,
        compaction.partitioner,
        &compaction.indexes,
    )?;
    Ok(Output { scan, pairs, next })
}

// Writes the next partitions, so many of them or all that are left.
fn pass_units<H: Host>(
    alloc: Global,
    host: &mut H,
    kit: &mut Kit,
    compaction: &Compaction,
    output: &mut Output,
    units: u32,
) -> Result<Progress, PairFault>
    requires compaction { CanCompact compaction.now }
    requires can { CanWriteOn (H.view host.old) compaction.now output.old }
    ensures passed { IfOk result (λ progress. (passed left : Entries) → HasWritten (H.view host.old) compaction.now output.old passed left → HasPassed (H.view host.new) compaction.now (Some output.new) units passed left progress) }
    ensures can { OnOk result (CanWriteOn (H.view host.new) compaction.now output.new) }
    ensures ready { IfOk result (IsReadyAt (Some output.new)) }
    ensures there { HasOutput (H.view host.new) compaction.now.number output.new }
    ensures reads { (most : ℕ) → MayReadTo (H.view host.old).files compaction.now (Some output.old) most
        → MatchResult result (λ _. HasReadsLeft (H.view host.new).files compaction.now (Some output.new) ((H.view host.old).reads + most) (H.view host.new).reads) (λ _. (H.view host.new).reads ≤ (H.view host.old).reads + most) }
    ensures damaged { IfErr result (OnPairDamage (ShowsListed (H.view host.old).files (sources_of compaction.now) compaction.now.types)) }
    ensures undamaged { (passed left : Entries) → HasWritten (H.view host.old) compaction.now output.old passed left → IfErr result (OnPairDamage (λ _. ⊥)) }
    ensures changes { Changes (FileChange (data_name compaction.now.number) AnyChange) (H.view host.old) (H.view host.new) }
    ensures causes { CompactCauses (LacksClass (map (λ b. kind (b.vtable, b.value)) kit.old.objects.items) compaction.now.indexes) (H.view host.old) (H.view host.new) result }
    ensures classes { map (λ b. kind (b.vtable, b.value)) kit.new.objects.items ≡ map (λ b. kind (b.vtable, b.value)) kit.old.objects.items }
{
    for unit in 0..units {
        let some = pass_next(alloc, host, kit, compaction, output)?;
        if !some {
            return Ok(Progress::Ready { left: units - unit });
        }
    }
    Ok(progress_of(&output.next))
}

// How far it is, where no unit is left to be done.
fn progress_of(next: &Option<(Key, Partition)>) -> Progress
    ensures { IsProgressOf next.now result }
{
    match next {
        Some(_) => Progress::Running,
        None => Progress::Ready { left: 0 },
    }
}

// Writes the next partition, and looks for the one behind it. False where none is left.
fn pass_next<H: Host>(
    alloc: Global,
    host: &mut H,
    kit: &mut Kit,
    compaction: &Compaction,
    output: &mut Output,
) -> Result<bool, PairFault>
    requires compaction { CanCompact compaction.now }
    requires can { CanWriteOn (H.view host.old) compaction.now output.old }
    ensures passes { IfOk result (λ some. (passed left : Entries) → HasWritten (H.view host.old) compaction.now output.old passed left → PassesNext (H.view host.new) compaction.now output.new passed left some) }
    ensures can { OnOk result (CanWriteOn (H.view host.new) compaction.now output.new) }
    ensures none { IfOk result (λ some. some ≡ false → output.new.next ≡ None) }
    ensures there { HasOutput (H.view host.new) compaction.now.number output.new }
    ensures reads { (most : ℕ) → MayReadTo (H.view host.old).files compaction.now (Some output.old) most
        → MatchResult result (λ _. HasReadsLeft (H.view host.new).files compaction.now (Some output.new) ((H.view host.old).reads + most) (H.view host.new).reads) (λ _. (H.view host.new).reads ≤ (H.view host.old).reads + most) }
    ensures damaged { IfErr result (OnPairDamage (ShowsListed (H.view host.old).files (sources_of compaction.now) compaction.now.types)) }
    ensures undamaged { (passed left : Entries) → HasWritten (H.view host.old) compaction.now output.old passed left → IfErr result (OnPairDamage (λ _. ⊥)) }
    ensures changes { Changes (FileChange (data_name compaction.now.number) AnyChange) (H.view host.old) (H.view host.new) }
    ensures causes { CompactCauses (LacksClass (map (λ b. kind (b.vtable, b.value)) kit.old.objects.items) compaction.now.indexes) (H.view host.old) (H.view host.new) result }
    ensures classes { map (λ b. kind (b.vtable, b.value)) kit.new.objects.items ≡ map (λ b. kind (b.vtable, b.value)) kit.old.objects.items }
{
    let ahead = output.next.take();
    match ahead {
        None => Ok(false),
        Some(one) => {
            let next = pass_one(
                alloc,
                host,
                kit,
                compaction,
                &mut output.scan,
                &mut output.pairs,
                &one,
            )?;
            output.next = next;
            Ok(true)
        }
    }
}

// Writes the partition that was looked ahead, and gives the one behind it.
fn pass_one<H: Host>(
    alloc: Global,
    host: &mut H,
    kit: &mut Kit,
    compaction: &Compaction,
    scan: &mut TableScan,
    pairs: &mut PairWriter,
    one: &(Key, Partition),
) -> Result<Option<(Key, Partition)>, PairFault>
    requires compaction { CanCompact compaction.now }
    requires can { CanWriteOn (H.view host.old) compaction.now (output_of scan.old pairs.old (Some one.now)) }
    ensures passes { IfOk result (λ next. (passed left : Entries) → HasWritten (H.view host.old) compaction.now (output_of scan.old pairs.old (Some one.now)) passed left → PassesNext (H.view host.new) compaction.now (output_of scan.new pairs.new next) passed left true) }
    ensures can { IfOk result (λ next. CanWriteOn (H.view host.new) compaction.now (output_of scan.new pairs.new next)) }
    ensures file { pairs.new.writer.file ≡ data_name compaction.now.number }
    ensures there { IsThere (H.view host.new) pairs.new.writer.file }
    ensures reads { (most : ℕ) → MayRead (H.view host.old).files compaction.now.partitioner scan.old most
        → MatchResult result (λ _. ScanHasReadsLeft (H.view host.new).files compaction.now.partitioner scan.new ((H.view host.old).reads + most) (H.view host.new).reads) (λ _. (H.view host.new).reads ≤ (H.view host.old).reads + most) }
    ensures damaged { IfErr result (OnPairDamage (ShowsListed (H.view host.old).files (sources_of compaction.now) compaction.now.types)) }
    ensures undamaged { (passed left : Entries) → HasWritten (H.view host.old) compaction.now (output_of scan.old pairs.old (Some one.now)) passed left → IfErr result (OnPairDamage (λ _. ⊥)) }
    ensures changes { Changes (FileChange (data_name compaction.now.number) AnyChange) (H.view host.old) (H.view host.new) }
    ensures causes { CompactCauses (LacksClass (map (λ b. kind (b.vtable, b.value)) kit.old.objects.items) compaction.now.indexes) (H.view host.old) (H.view host.new) result }
    ensures classes { map (λ b. kind (b.vtable, b.value)) kit.new.objects.items ≡ map (λ b. kind (b.vtable, b.value)) kit.old.objects.items }
{
    pairs.push(host, kit, &one.0, &one.1)?;
    let next = next_merged(alloc, host, scan)?;
    Ok(next)
}
