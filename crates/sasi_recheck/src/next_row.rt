// The next row of candidates.
ghost use Rattle.std.specs.Prelude.{◌≡◌, ◌+◌, ℕ, List, Option, IfOk, OnOk, drop, map, sum, take};
ghost use Rattle.sasi_types.specs.declared.column.ColumnType.{ColumnType};
ghost use Rattle.sasi_host.specs.declared.damage.Damage.{Damage};
ghost use Rattle.sasi_host.specs.Names.{Folder};
ghost use Rattle.sasi_model.specs.Filters.{accepts, answers, where_of};
ghost use Rattle.sasi_machine.specs.Where.{HasTexts};
ghost use Rattle.sasi_ranges.specs.StreamCalls.{CanStream, HasStreamed, Spends, StreamFaults};
ghost use Rattle.sasi_recheck.specs.Rows.{GivesRow, KnowsWhere, asked_to, counted_on, looked_to};
ghost use Rattle.sasi_recheck.specs.Sources.{Candidate, GivesPrintable};

use crate::Candidates;
use sasi_analyzers::Kit;
use sasi_cells::Partition;
use sasi_host::{Host, PageReader, ReadFault};
use sasi_machine::RowFilter;
use sasi_memindex::MapBook;
use sasi_types::{Key, KitFault};
use std::alloc::AllocError;

// The next candidate that the filter accepts, and counts those that are looked at.
pub(crate) fn next_row<C: Candidates, H: Host, P: PageReader>(
    host: &mut H,
    pages: &mut P,
    maps: &MapBook,
    kit: &mut Kit,
    filter: &RowFilter,
    candidates: &mut C,
    checked: &mut u64,
) -> Result<Option<(Key, Partition)>, ReadFault>
    requires read { CanStream (P.agrees pages.old) (C.opens candidates.old) (H.view host.old) }
    requires ready { C.ready candidates.old (H.view host.old).files maps.now }
    requires prints { (kind : ColumnType) × C.prints candidates.old (H.view host.old).files maps.now kind }
    requires known { KnowsWhere (map (λ b. kind (b.vtable, b.value)) kit.old.objects.items) filter.now }
    ensures row { (left : List Candidate) → C.leaves candidates.old (H.view host.old).files maps.now left → IfOk result (GivesRow (answers (where_of filter.now)) (C.leaves candidates.new (H.view host.new).files maps.now) left) }
    ensures checked { (left : List Candidate) → C.leaves candidates.old (H.view host.old).files maps.now left → OnOk result (checked.new ≡ counted_on checked.old (looked_to (answers (where_of filter.now)) left)) }
    ensures reads { (left : List Candidate) (most : ℕ) (prices : List ℕ) → C.leaves candidates.old (H.view host.old).files maps.now left → C.pays candidates.old (H.view host.old).files maps.now most prices
        → Spends (λ rest. C.pays candidates.new (H.view host.new).files maps.now rest (drop (asked_to (answers (where_of filter.now)) left) prices)) (most + sum (take (asked_to (answers (where_of filter.now)) left) prices)) (H.view host.old).reads (H.view host.new).reads result }
    ensures ready { OnOk result (C.ready candidates.new (H.view host.new).files maps.now) }
    ensures uses { (number : ℕ) → C.uses candidates.new number → C.uses candidates.old number }
    ensures kept { C.kept candidates.new ≡ C.kept candidates.old }
    ensures prints { (kind : ColumnType) → C.prints candidates.old (H.view host.old).files maps.now kind → IfOk result (GivesPrintable kind) }
    ensures still_prints { (kind : ColumnType) → C.prints candidates.old (H.view host.old).files maps.now kind → OnOk result (C.prints candidates.new (H.view host.new).files maps.now kind) }
    ensures kinds { map (λ b. kind (b.vtable, b.value)) kit.new.objects.items ≡ map (λ b. kind (b.vtable, b.value)) kit.old.objects.items }
    ensures read { HasStreamed (P.agrees pages.new) (P.covers pages.old) (P.covers pages.new) (C.opens candidates.old) (C.opens candidates.new) (H.view host.old) (H.view host.new) }
    ensures faults { StreamFaults (C.shows candidates.old (H.view host.old).files) (C.shows candidates.new (H.view host.new).files) (C.leaves candidates.old (H.view host.old).files maps.now) (H.view host.old) (H.view host.new) result }
    ensures shows_less { (files : Option Folder) (damage : Damage) → C.shows candidates.new files damage → C.shows candidates.old files damage }
{
    for _turn in 0..u64::MAX {
        match candidates.next(host, pages, maps)? {
            None => return Ok(None),
            Some((key, part)) => {
                *checked = checked.saturating_add(1);
                if answers(filter, &key, &part, kit)? {
                    return Ok(Some((key, part)));
                }
            }
        }
    }
    // No folder has so many keys.
    Err(ReadFault::OutOfMemory)
}

// Whether the row is there, and accepted.
fn answers(
    filter: &RowFilter,
    key: &Key,
    part: &Partition,
    kit: &mut Kit,
) -> Result<bool, AllocError>
    requires texts { HasTexts part.now }
    requires known { KnowsWhere (map (λ b. kind (b.vtable, b.value)) kit.old.objects.items) filter.now }
    ensures answers { IfOk result (λ answered. (token : ℕ) → answered ≡ answers (where_of filter.now) (record { token = token; key = key.now }, part.now)) }
    ensures kinds { map (λ b. kind (b.vtable, b.value)) kit.new.objects.items ≡ map (λ b. kind (b.vtable, b.value)) kit.old.objects.items }
{
    if !part.is_live() {
        return Ok(false);
    }
    accepts(filter, key, part, kit)
}

// Whether the WHERE accepts the partition of a key, where the analyzers are there.
fn accepts(
    filter: &RowFilter,
    key: &Key,
    part: &Partition,
    kit: &mut Kit,
) -> Result<bool, AllocError>
    requires texts { HasTexts part.now }
    requires known { KnowsWhere (map (λ b. kind (b.vtable, b.value)) kit.old.objects.items) filter.now }
    ensures accepts { IfOk result (λ accepted. accepted ≡ accepts (where_of filter.now) key.now part.now) }
    ensures kinds { map (λ b. kind (b.vtable, b.value)) kit.new.objects.items ≡ map (λ b. kind (b.vtable, b.value)) kit.old.objects.items }
{
    match filter.accepts(key, part, kit) {
        Ok(accepted) => Ok(accepted),
        Err(KitFault::OutOfMemory) => Err(AllocError),
        Err(KitFault::Missing(_)) => unreachable!(),
    }
}
