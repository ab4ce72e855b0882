// Candidates that are rechecked.
ghost use Rattle.std.specs.Prelude.{◌≡◌, ◌+◌, ℕ, List, Option, IfOk, OnOk, drop, map, sum, take};
ghost use Rattle.sasi_types.specs.declared.column.ColumnType.{ColumnType};
ghost use Rattle.sasi_host.specs.declared.damage.Damage.{Damage};
ghost use Rattle.sasi_host.specs.Names.{Folder};
ghost use Rattle.sasi_model.specs.Filters.{answers, where_of};
ghost use Rattle.sasi_ranges.specs.StreamCalls.{CanStream, HasStreamed, Spends, StreamFaults};
ghost use Rattle.sasi_recheck.specs.Rows.{GivesAllowed, KnowsWhere, allowed_after, asked_in, counted_on, looked_in};
ghost use Rattle.sasi_recheck.specs.Sources.{Candidate, GivesPrintable};

use crate::Candidates;
use crate::next_row::next_row;
use sasi_analyzers::Kit;
use sasi_cells::Partition;
use sasi_host::{Host, PageReader, ReadFault};
use sasi_machine::RowFilter;
use sasi_memindex::MapBook;
use sasi_types::Key;
use std::marker::Model;

/// Candidates, each of which is rechecked against the WHERE as it comes up: an index may give a key whose row is another by now, or is
/// deleted. It knows how many rows a LIMIT still allows.
#[derive(Drop)]
pub struct Recheck<C> {
    candidates: C,
    filter: RowFilter,
    rows_left: Option<u64>,
    checked: u64,
}

impl<C> Model for Recheck<C> {
    ghost use Rattle.sasi_recheck.specs.Rows.{RecheckView};

    ghost Value = { RecheckView C };

    ghost view = { λ a. record { candidates = a.candidates; filter = a.filter; rows_left = a.rows_left; checked = a.checked } };
}

impl<C: Candidates + Drop> Recheck<C> {
    /// Of these candidates the rows that the filter accepts, no more than LIMIT allows.
    pub fn new(candidates: C, filter: RowFilter, limit: Option<u64>) -> Recheck<C>
        ensures { result ≡ record { candidates = candidates; filter = filter; rows_left = limit; checked = 0 } }
    {
        Recheck {
            candidates,
            filter,
            rows_left: limit,
            checked: 0,
        }
    }

    /// The next row, as its key and its merged partition; None exactly where no row is left or LIMIT allows no more. At LIMIT it looks at
    /// no further candidate.
    pub fn next<H: Host, P: PageReader>(
        &mut self,
        host: &mut H,
        pages: &mut P,
        maps: &MapBook,
        kit: &mut Kit,
    ) -> Result<Option<(Key, Partition)>, ReadFault>
        requires read { CanStream (P.agrees pages.old) (C.opens self.old.candidates) (H.view host.old) }
        requires ready { C.ready self.old.candidates (H.view host.old).files maps.now }
        requires prints { (kind : ColumnType) × C.prints self.old.candidates (H.view host.old).files maps.now kind }
        requires known { KnowsWhere (map (λ b. kind (b.vtable, b.value)) kit.old.objects.items) self.old.filter }
        // It is the first candidate that passes, while LIMIT allows one.
        ensures row { (left : List Candidate) → C.leaves self.old.candidates (H.view host.old).files maps.now left
            → IfOk result (GivesAllowed self.old.rows_left (answers (where_of self.old.filter)) (C.leaves self.new.candidates (H.view host.new).files maps.now) left) }
        ensures allowed { IfOk result (λ row. self.new.rows_left ≡ allowed_after self.old.rows_left row) }
        ensures checked { (left : List Candidate) → C.leaves self.old.candidates (H.view host.old).files maps.now left
            → OnOk result (self.new.checked ≡ counted_on self.old.checked (looked_in self.old.rows_left (answers (where_of self.old.filter)) left)) }
        // It pays for the candidates that it looks at, and for the end where it comes to it.
        ensures reads { (left : List Candidate) (most : ℕ) (prices : List ℕ) → C.leaves self.old.candidates (H.view host.old).files maps.now left → C.pays self.old.candidates (H.view host.old).files maps.now most prices
            → Spends (λ rest. C.pays self.new.candidates (H.view host.new).files maps.now rest (drop (asked_in self.old.rows_left (answers (where_of self.old.filter)) left) prices))
            (most + sum (take (asked_in self.old.rows_left (answers (where_of self.old.filter)) left) prices)) (H.view host.old).reads (H.view host.new).reads result }
        ensures ready { OnOk result (C.ready self.new.candidates (H.view host.new).files maps.now) }
        ensures uses { (number : ℕ) → C.uses self.new.candidates number → C.uses self.old.candidates number }
        ensures kept { C.kept self.new.candidates ≡ C.kept self.old.candidates }
        // In any file what it gives can be printed.
        ensures prints { (kind : ColumnType) → C.prints self.old.candidates (H.view host.old).files maps.now kind → IfOk result (GivesPrintable kind) }
        ensures still_prints { (kind : ColumnType) → C.prints self.old.candidates (H.view host.old).files maps.now kind → OnOk result (C.prints self.new.candidates (H.view host.new).files maps.now kind) }
        ensures filter { self.new.filter ≡ self.old.filter }
        ensures kinds { map (λ b. kind (b.vtable, b.value)) kit.new.objects.items ≡ map (λ b. kind (b.vtable, b.value)) kit.old.objects.items }
        ensures read { HasStreamed (P.agrees pages.new) (P.covers pages.old) (P.covers pages.new) (C.opens self.old.candidates) (C.opens self.new.candidates) (H.view host.old) (H.view host.new) }
        ensures faults { StreamFaults (C.shows self.old.candidates (H.view host.old).files) (C.shows self.new.candidates (H.view host.new).files) (C.leaves self.old.candidates (H.view host.old).files maps.now) (H.view host.old) (H.view host.new) result }
        ensures shows_less { (files : Option Folder) (damage : Damage) → C.shows self.new.candidates files damage → C.shows self.old.candidates files damage }
    {
        if self.rows_left == Some(0) {
            return Ok(None);
        }
        let found = next_row(
            host,
            pages,
            maps,
            kit,
            &self.filter,
            &mut self.candidates,
            &mut self.checked,
        )?;
        self.rows_left = allowed_after(self.rows_left, &found);
        Ok(found)
    }

    /// How many candidates were looked at, at most 2^64 - 1.
    pub fn checked(&self) -> u64
        ensures { result ≡ self.now.checked }
    {
        self.checked
    }

    /// The conditions that a row has to meet.
    pub fn filter(&self) -> &RowFilter
        ensures { result.now ≡ self.now.filter }
    {
        &self.filter
    }

    /// The candidates, to look at.
    pub fn candidates(&self) -> &C
        ensures { result.now ≡ self.now.candidates }
    {
        &self.candidates
    }

    /// The candidates that are left.
    pub fn into_candidates(self) -> C
        ensures { result ≡ self.candidates }
    {
        self.candidates
    }
}

// How many rows are allowed after what was found.
fn allowed_after(rows: Option<u64>, found: &Option<(Key, Partition)>) -> Option<u64>
    ensures { result ≡ allowed_after rows found.now }
{
    match found {
        None => rows,
        Some(_) => rows.map(|n| n.saturating_sub(1)),
    }
}
