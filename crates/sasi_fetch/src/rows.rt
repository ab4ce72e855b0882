// The rows of a reader, as they are printed.
ghost use Rattle.std.specs.Prelude.{◌≡◌, ◌+◌, ◌++◌, ◌≤◌, ℕ, suc, List, Option, Some, IfErr, IfOk, OnOk, false, map};
ghost use Rattle.sasi_host.specs.declared.damage.Damage.{Damage};
ghost use Rattle.sasi_host.specs.Names.{Folder};
ghost use Rattle.sasi_host.specs.Damages.{OnDamage};
ghost use Rattle.sasi_host.specs.Disk.{Changes, Same};
ghost use Rattle.sasi_model.specs.Cells.{Partition as SpecPartition};
ghost use Rattle.sasi_ranges.specs.StreamCalls.{CanStream, HasStreamed, Spends, StreamFaults};
ghost use Rattle.sasi_recheck.specs.Rows.{KnowsWhere};
ghost use Rattle.sasi_scan.specs.Scanning.{ScanCauses};
ghost use Rattle.sasi_plan.specs.Answers.{CountsTo, ReadsLeft, ReadsUpTo, RowsLeft};
ghost use Rattle.sasi_fetch.specs.Printing.{KnowsAfter, PrintsAtMost, PrintsFirst, PrintsNext, picked_lines};
ghost use Rattle.sasi_fetch.specs.declared.rows.RowsAfter.TheVariants.{Nothing};

use sasi_analyzers::Kit;
use sasi_host::{Host, PageReader, ReadFault};
use sasi_machine::Reply;
use sasi_memindex::MapBook;
use sasi_plan::{PlanCandidates, Reader};
use sasi_print::{count, picked_row};
use sasi_recheck::Candidates;
use std::alloc::Global;

/// Prints the rows that a reader has left, in their order, and their number, and gives how many candidates were checked for them. Of the table
/// it has one partition in memory at a time, and what `pages` keeps.
pub fn print_rows<H: Host, P: PageReader>(
    alloc: Global,
    host: &mut H,
    pages: &mut P,
    kit: &mut Kit,
    maps: &MapBook,
    reader: &mut Reader,
    reply: &mut Reply,
) -> Result<u64, ReadFault>
    requires read { CanStream (P.agrees pages.old) (⟦<PlanCandidates as Candidates>⟧.opens reader.old.rows.candidates) (H.view host.old) }
    requires ready { ⟦<PlanCandidates as Candidates>⟧.ready reader.old.rows.candidates (H.view host.old).files maps.now }
    requires prints { ⟦<PlanCandidates as Candidates>⟧.prints reader.old.rows.candidates (H.view host.old).files maps.now reader.old.picked.key }
    requires known { KnowsWhere (map (λ b. kind (b.vtable, b.value)) kit.old.objects.items) reader.old.rows.filter }
    ensures ok { OnOk result ((rows : List (List ℕ × SpecPartition)) → RowsLeft ⟦<PlanCandidates as Candidates>⟧.leaves reader.old.rows (H.view host.old).files maps.now rows → reply.new ≡ reply.old ++ picked_lines reader.old.picked rows) }
    ensures counted { IfOk result (λ checked. (count : ℕ) → CountsTo ⟦<PlanCandidates as Candidates>⟧.leaves reader.old.rows (H.view host.old).files maps.now count → checked ≡ count) }
    // It reads no more than that takes, also where it fails.
    ensures reads { (most : ℕ) → ReadsLeft ⟦<PlanCandidates as Candidates>⟧.leaves ⟦<PlanCandidates as Candidates>⟧.pays reader.old.rows (H.view host.old).files maps.now most → (H.view host.new).reads ≤ (H.view host.old).reads + most }
    ensures damaged { IfErr result (OnDamage (⟦<PlanCandidates as Candidates>⟧.shows reader.old.rows.candidates (H.view host.old).files)) }
    ensures undamaged { IfErr result (OnDamage (λ _. (rows : List (List ℕ × SpecPartition)) → RowsLeft ⟦<PlanCandidates as Candidates>⟧.leaves reader.old.rows (H.view host.old).files maps.now rows → ⊥)) }
    ensures view { reader.new.rows.candidates.view ≡ reader.old.rows.candidates.view }
    ensures kinds { map (λ b. kind (b.vtable, b.value)) kit.new.objects.items ≡ map (λ b. kind (b.vtable, b.value)) kit.old.objects.items }
    ensures changes { Changes Same (H.view host.old) (H.view host.new) }
    ensures causes { ScanCauses (H.view host.old) (H.view host.new) result }
{
    match print_first(alloc, host, pages, kit, maps, reader, u64::MAX, reply)? {
        RowsAfter::Nothing => Ok(reader.checked()),
        // The reply has no room for so many rows.
        RowsAfter::Perhaps => Err(ReadFault::OutOfMemory),
    }
}

// What is left behind the rows that were printed.
#[derive(Clone, Copy, Debug)]
pub(crate) enum RowsAfter {
    // No row.
    Nothing,
    // Perhaps further rows: none was looked for.
    Perhaps,
}

// Prints the next rows of a reader, in their order and at most `most`, and how many these are. Where it prints so many, it doesn't look
// whether there are more.
pub(crate) fn print_first<H: Host, P: PageReader>(
    alloc: Global,
    host: &mut H,
    pages: &mut P,
    kit: &mut Kit,
    maps: &MapBook,
    reader: &mut Reader,
    most: u64,
    reply: &mut Reply,
) -> Result<RowsAfter, ReadFault>
    requires read { CanStream (P.agrees pages.old) (⟦<PlanCandidates as Candidates>⟧.opens reader.old.rows.candidates) (H.view host.old) }
    requires ready { ⟦<PlanCandidates as Candidates>⟧.ready reader.old.rows.candidates (H.view host.old).files maps.now }
    requires prints { ⟦<PlanCandidates as Candidates>⟧.prints reader.old.rows.candidates (H.view host.old).files maps.now reader.old.picked.key }
    requires known { KnowsWhere (map (λ b. kind (b.vtable, b.value)) kit.old.objects.items) reader.old.rows.filter }
    ensures rows { OnOk result (PrintsFirst reader.old.picked most (RowsLeft ⟦<PlanCandidates as Candidates>⟧.leaves reader.old.rows (H.view host.old).files maps.now) (RowsLeft ⟦<PlanCandidates as Candidates>⟧.leaves reader.new.rows (H.view host.new).files maps.now) reply.old reply.new) }
    // In any file it prints no more than that.
    ensures few { OnOk result (PrintsAtMost reader.old.picked most reply.old reply.new) }
    ensures after { IfOk result (KnowsAfter most (RowsLeft ⟦<PlanCandidates as Candidates>⟧.leaves reader.old.rows (H.view host.old).files maps.now)) }
    ensures counted { IfOk result (λ after. after ≡ Nothing → (count : ℕ) → CountsTo ⟦<PlanCandidates as Candidates>⟧.leaves reader.old.rows (H.view host.old).files maps.now count → reader.new.rows.checked ≡ count) }
    // What it reads, and what is left to be read, take together no more than that took, also where it fails.
    ensures reads { (reads : ℕ) → ReadsLeft ⟦<PlanCandidates as Candidates>⟧.leaves ⟦<PlanCandidates as Candidates>⟧.pays reader.old.rows (H.view host.old).files maps.now reads
        → Spends (ReadsLeft ⟦<PlanCandidates as Candidates>⟧.leaves ⟦<PlanCandidates as Candidates>⟧.pays reader.new.rows (H.view host.new).files maps.now) reads (H.view host.old).reads (H.view host.new).reads result }
    // It reads ahead of no row: it takes what so many rows do, and leaves what the rows after them take.
    ensures reads_up_to { (n reads : ℕ) → ReadsUpTo ⟦<PlanCandidates as Candidates>⟧.leaves ⟦<PlanCandidates as Candidates>⟧.pays reader.old.rows (H.view host.old).files maps.now (Some (most + n)) reads
        → Spends (ReadsUpTo ⟦<PlanCandidates as Candidates>⟧.leaves ⟦<PlanCandidates as Candidates>⟧.pays reader.new.rows (H.view host.new).files maps.now (Some n)) reads (H.view host.old).reads (H.view host.new).reads result }
    ensures ready { OnOk result (⟦<PlanCandidates as Candidates>⟧.ready reader.new.rows.candidates (H.view host.new).files maps.now) }
    ensures prints { OnOk result (⟦<PlanCandidates as Candidates>⟧.prints reader.new.rows.candidates (H.view host.new).files maps.now reader.old.picked.key) }
    ensures uses { (number : ℕ) → ⟦<PlanCandidates as Candidates>⟧.uses reader.new.rows.candidates number → ⟦<PlanCandidates as Candidates>⟧.uses reader.old.rows.candidates number }
    ensures damaged { IfErr result (OnDamage (⟦<PlanCandidates as Candidates>⟧.shows reader.old.rows.candidates (H.view host.old).files)) }
    ensures undamaged { IfErr result (OnDamage (λ _. (rows : List (List ℕ × SpecPartition)) → RowsLeft ⟦<PlanCandidates as Candidates>⟧.leaves reader.old.rows (H.view host.old).files maps.now rows → ⊥)) }
    ensures shows_less { (files : Option Folder) (damage : Damage) → ⟦<PlanCandidates as Candidates>⟧.shows reader.new.rows.candidates files damage → ⟦<PlanCandidates as Candidates>⟧.shows reader.old.rows.candidates files damage }
    ensures picked { reader.new.picked ≡ reader.old.picked }
    ensures conditions { reader.new.rows.filter ≡ reader.old.rows.filter }
    ensures view { reader.new.rows.candidates.view ≡ reader.old.rows.candidates.view }
    ensures kinds { map (λ b. kind (b.vtable, b.value)) kit.new.objects.items ≡ map (λ b. kind (b.vtable, b.value)) kit.old.objects.items }
    ensures read { HasStreamed (P.agrees pages.new) (P.covers pages.old) (P.covers pages.new) (⟦<PlanCandidates as Candidates>⟧.opens reader.old.rows.candidates) (⟦<PlanCandidates as Candidates>⟧.opens reader.new.rows.candidates) (H.view host.old) (H.view host.new) }
    ensures causes { ScanCauses (H.view host.old) (H.view host.new) result }
{
    for row in 0..most {
        let printed = print_next(alloc, host, pages, kit, maps, reader, reply)?;
        if !printed {
            count(reply, row)?;
            return Ok(RowsAfter::Nothing);
        }
    }
    count(reply, most)?;
    Ok(RowsAfter::Perhaps)
}

// Prints the next row, if one is left, and tells whether one was.
fn print_next<H: Host, P: PageReader>(
    alloc: Global,
    host: &mut H,
    pages: &mut P,
    kit: &mut Kit,
    maps: &MapBook,
    reader: &mut Reader,
    reply: &mut Reply,
) -> Result<bool, ReadFault>
    requires read { CanStream (P.agrees pages.old) (⟦<PlanCandidates as Candidates>⟧.opens reader.old.rows.candidates) (H.view host.old) }
    requires ready { ⟦<PlanCandidates as Candidates>⟧.ready reader.old.rows.candidates (H.view host.old).files maps.now }
    requires prints { ⟦<PlanCandidates as Candidates>⟧.prints reader.old.rows.candidates (H.view host.old).files maps.now reader.old.picked.key }
    requires known { KnowsWhere (map (λ b. kind (b.vtable, b.value)) kit.old.objects.items) reader.old.rows.filter }
    ensures row { IfOk result (PrintsNext reader.old.picked (RowsLeft ⟦<PlanCandidates as Candidates>⟧.leaves reader.old.rows (H.view host.old).files maps.now) (RowsLeft ⟦<PlanCandidates as Candidates>⟧.leaves reader.new.rows (H.view host.new).files maps.now) reply.old reply.new) }
    ensures counts { (count : ℕ) → CountsTo ⟦<PlanCandidates as Candidates>⟧.leaves reader.old.rows (H.view host.old).files maps.now count → OnOk result (CountsTo ⟦<PlanCandidates as Candidates>⟧.leaves reader.new.rows (H.view host.new).files maps.now count) }
    ensures counted { (count : ℕ) → CountsTo ⟦<PlanCandidates as Candidates>⟧.leaves reader.old.rows (H.view host.old).files maps.now count → IfOk result (λ printed. printed ≡ false → reader.new.rows.checked ≡ count) }
    ensures reads { (most : ℕ) → ReadsLeft ⟦<PlanCandidates as Candidates>⟧.leaves ⟦<PlanCandidates as Candidates>⟧.pays reader.old.rows (H.view host.old).files maps.now most
        → Spends (ReadsLeft ⟦<PlanCandidates as Candidates>⟧.leaves ⟦<PlanCandidates as Candidates>⟧.pays reader.new.rows (H.view host.new).files maps.now) most (H.view host.old).reads (H.view host.new).reads result }
    ensures reads_up_to { (n most : ℕ) → ReadsUpTo ⟦<PlanCandidates as Candidates>⟧.leaves ⟦<PlanCandidates as Candidates>⟧.pays reader.old.rows (H.view host.old).files maps.now (Some (suc n)) most
        → Spends (ReadsUpTo ⟦<PlanCandidates as Candidates>⟧.leaves ⟦<PlanCandidates as Candidates>⟧.pays reader.new.rows (H.view host.new).files maps.now (Some n)) most (H.view host.old).reads (H.view host.new).reads result }
    ensures ready { OnOk result (⟦<PlanCandidates as Candidates>⟧.ready reader.new.rows.candidates (H.view host.new).files maps.now) }
    ensures prints { OnOk result (⟦<PlanCandidates as Candidates>⟧.prints reader.new.rows.candidates (H.view host.new).files maps.now reader.old.picked.key) }
    ensures uses { (number : ℕ) → ⟦<PlanCandidates as Candidates>⟧.uses reader.new.rows.candidates number → ⟦<PlanCandidates as Candidates>⟧.uses reader.old.rows.candidates number }
    ensures picked { reader.new.picked ≡ reader.old.picked }
    ensures conditions { reader.new.rows.filter ≡ reader.old.rows.filter }
    ensures view { reader.new.rows.candidates.view ≡ reader.old.rows.candidates.view }
    ensures kinds { map (λ b. kind (b.vtable, b.value)) kit.new.objects.items ≡ map (λ b. kind (b.vtable, b.value)) kit.old.objects.items }
    ensures read { HasStreamed (P.agrees pages.new) (P.covers pages.old) (P.covers pages.new) (⟦<PlanCandidates as Candidates>⟧.opens reader.old.rows.candidates) (⟦<PlanCandidates as Candidates>⟧.opens reader.new.rows.candidates) (H.view host.old) (H.view host.new) }
    ensures faults { StreamFaults (⟦<PlanCandidates as Candidates>⟧.shows reader.old.rows.candidates (H.view host.old).files) (⟦<PlanCandidates as Candidates>⟧.shows reader.new.rows.candidates (H.view host.new).files)
        (RowsLeft ⟦<PlanCandidates as Candidates>⟧.leaves reader.old.rows (H.view host.old).files maps.now) (H.view host.old) (H.view host.new) result }
    ensures shows_less { (files : Option Folder) (damage : Damage) → ⟦<PlanCandidates as Candidates>⟧.shows reader.new.rows.candidates files damage → ⟦<PlanCandidates as Candidates>⟧.shows reader.old.rows.candidates files damage }
{
    let Some((key, part)) = reader.next_partition(host, pages, maps, kit)? else {
        return Ok(false);
    };
    picked_row(alloc, reply, &key, &part, reader.picked())?;
    Ok(true)
}
