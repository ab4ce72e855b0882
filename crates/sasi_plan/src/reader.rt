// Readers.
ghost use Rattle.std.specs.Prelude.{◌≡◌, ℕ, suc, List, None, Option, Some, true, IfErr, IfOk, OnOk, map};
ghost use Rattle.sasi_types.specs.declared.class.Class.{Class};
ghost use Rattle.sasi_types.specs.declared.column.ColumnType.{ColumnType};
ghost use Rattle.sasi_host.specs.declared.damage.Damage.{Damage};
ghost use Rattle.sasi_host.specs.declared.name.FileName.{FileName};
ghost use Rattle.sasi_host.specs.Names.{Folder};
ghost use Rattle.sasi_cells.specs.Maps.{merged};
ghost use Rattle.sasi_machine.specs.Classes.{WhereLacks};
ghost use Rattle.sasi_memindex.specs.Book.{Book};
ghost use Rattle.sasi_model.specs.Cells.{Partition as SpecPartition};
ghost use Rattle.sasi_ranges.specs.StreamCalls.{CanStream, HasStreamed, Spends, StreamFaults};
ghost use Rattle.sasi_candidates.specs.Checks.{checked, rows};
ghost use Rattle.sasi_model.specs.Filters.{where_of};
ghost use Rattle.sasi_candidates.specs.Parts.{maps_of};
ghost use Rattle.sasi_recheck.specs.Rows.{KnowsWhere, counted_on};
ghost use Rattle.sasi_recheck.specs.Sources.{GivesPrintable};
ghost use Rattle.sasi_sources.specs.KeyCandidates.{HasKeyType};
ghost use Rattle.sasi_engine.specs.HitCandidates.{PlanWorld};
ghost use Rattle.sasi_engine.specs.Plans.{is_file_of, map_numbers};
ghost use Rattle.sasi_sources.specs.Maps.{IsOneOf};
ghost use Rattle.sasi_scan.specs.Numbered.{views_numbered};
ghost use Rattle.sasi_plan.specs.Answers.{CountsTo, GivesNext, ReadsLeft, ReadsUpTo, RowsLeft, lesser, row_of};
ghost use Rattle.sasi_plan.specs.Faults.{GivesPicked, IsMissing, OnPlanMissing, RowFaults, SpendsRow};
ghost use Rattle.sasi_plan.specs.Reading.{IsBounded, IsReadIn, PendingReady, PendingShows, plan_reads};

use crate::lacking::first_lacked;
use crate::picked_row::picked_row;
use crate::plan_candidates::PlanCandidates;
use crate::{Plan, PlanFault};
use sasi_analyzers::Kit;
use sasi_cells::{Partition, Picked};
use sasi_host::{Host, PageReader, ReadFault};
use sasi_memindex::MapBook;
use sasi_recheck::{Candidates, Recheck};
use sasi_types::{Key, Row};
use sasi_views::View;
use std::alloc::Global;

/// The rows of a SELECT over a view of its table, one after another. After an error a reader isn't asked again.
#[derive(Drop)]
pub struct Reader {
    alloc: Global,
    picked: Picked,
    rows: Recheck<PlanCandidates>,
}

impl Reader {
    /// A reader of a plan over the parts of a view. It reads nothing yet, and looks at no map.
    pub fn new(plan: Plan, view: View) -> Reader
        ensures picked { result.picked ≡ plan.picked }
        ensures conditions { result.rows.filter ≡ plan.conditions }
        ensures view { result.rows.candidates.view ≡ view }
        // Its rows are those of the answer over the merge of the view's parts, and the candidates those of the conditions.
        ensures rows { (w : PlanWorld) (book : Book) → IsReadIn w plan view book
            → RowsLeft ⟦<PlanCandidates as Candidates>⟧.leaves result.rows (Some w.folder) book (map row_of (rows plan.limit (where_of plan.conditions) (merged (maps_of w.parts)))) }
        ensures counts { (w : PlanWorld) (book : Book) → IsReadIn w plan view book
            → CountsTo ⟦<PlanCandidates as Candidates>⟧.leaves result.rows (Some w.folder) book (counted_on 0 (checked plan.limit (where_of plan.conditions) w.parts)) }
        ensures reads { (w : PlanWorld) (book : Book) → IsReadIn w plan view book → IsBounded w plan.source
            → ReadsLeft ⟦<PlanCandidates as Candidates>⟧.leaves ⟦<PlanCandidates as Candidates>⟧.pays result.rows (Some w.folder) book (plan_reads w plan.source plan.limit) }
        // Its first n rows take no more than the same plan with LIMIT n.
        ensures reads_up_to { (w : PlanWorld) (book : Book) → IsReadIn w plan view book → IsBounded w plan.source
            → (n : ℕ) → ReadsUpTo ⟦<PlanCandidates as Candidates>⟧.leaves ⟦<PlanCandidates as Candidates>⟧.pays result.rows (Some w.folder) book (Some n) (plan_reads w plan.source (lesser (Some n) plan.limit)) }
        // It reads no files but those of the view, and looks at no maps but its own.
        ensures ready { (files : Option Folder) (book : Book) → PendingReady plan.source view book → ⟦<PlanCandidates as Candidates>⟧.ready result.rows.candidates files book }
        ensures opens { (name : FileName) → ⟦<PlanCandidates as Candidates>⟧.opens result.rows.candidates name → is_file_of view name ≡ true }
        ensures uses { (number : ℕ) → ⟦<PlanCandidates as Candidates>⟧.uses result.rows.candidates number → IsOneOf (map_numbers view) number }
        ensures shows { (files : Option Folder) (damage : Damage) → ⟦<PlanCandidates as Candidates>⟧.shows result.rows.candidates files damage → PendingShows plan.types view files damage }
        ensures prints { (files : Option Folder) (book : Book) (kind : ColumnType) → HasKeyType plan.types (views_numbered book (map_numbers view)) kind → ⟦<PlanCandidates as Candidates>⟧.prints result.rows.candidates files book kind }
    {
        let candidates = PlanCandidates::new(plan.alloc, plan.types, plan.source, view);
        Reader {
            alloc: plan.alloc,
            picked: plan.picked,
            rows: Recheck::new(candidates, plan.filter, plan.limit),
        }
    }

    /// The columns that are picked of each row.
    pub fn picked(&self) -> &Picked
        ensures { result.now ≡ self.now.picked }
    {
        &self.picked
    }

    /// The next row, as its key and what all parts have of it, merged; None exactly where none is left.
    pub fn next_partition<H: Host, P: PageReader>(
        &mut self,
        host: &mut H,
        pages: &mut P,
        maps: &MapBook,
        kit: &mut Kit,
    ) -> Result<Option<(Key, Partition)>, ReadFault>
        requires read { CanStream (P.agrees pages.old) (⟦<PlanCandidates as Candidates>⟧.opens self.old.rows.candidates) (H.view host.old) }
        requires ready { ⟦<PlanCandidates as Candidates>⟧.ready self.old.rows.candidates (H.view host.old).files maps.now }
        requires prints { (kind : ColumnType) × ⟦<PlanCandidates as Candidates>⟧.prints self.old.rows.candidates (H.view host.old).files maps.now kind }
        requires known { KnowsWhere (map (λ b. kind (b.vtable, b.value)) kit.old.objects.items) self.old.rows.filter }
        ensures row { (rows : List (List ℕ × SpecPartition)) → RowsLeft ⟦<PlanCandidates as Candidates>⟧.leaves self.old.rows (H.view host.old).files maps.now rows
            → IfOk result (GivesNext (RowsLeft ⟦<PlanCandidates as Candidates>⟧.leaves self.new.rows (H.view host.new).files maps.now) rows) }
        // Of the candidates it counts those that were looked at; with the last row all are counted.
        ensures counts { (count : ℕ) → CountsTo ⟦<PlanCandidates as Candidates>⟧.leaves self.old.rows (H.view host.old).files maps.now count
            → OnOk result (CountsTo ⟦<PlanCandidates as Candidates>⟧.leaves self.new.rows (H.view host.new).files maps.now count) }
        ensures counted { (count : ℕ) → CountsTo ⟦<PlanCandidates as Candidates>⟧.leaves self.old.rows (H.view host.old).files maps.now count → IfOk result (λ row. row ≡ None → self.new.rows.checked ≡ count) }
        ensures reads { (most : ℕ) → ReadsLeft ⟦<PlanCandidates as Candidates>⟧.leaves ⟦<PlanCandidates as Candidates>⟧.pays self.old.rows (H.view host.old).files maps.now most
            → Spends (ReadsLeft ⟦<PlanCandidates as Candidates>⟧.leaves ⟦<PlanCandidates as Candidates>⟧.pays self.new.rows (H.view host.new).files maps.now) most (H.view host.old).reads (H.view host.new).reads result }
        // It reads ahead of no row: it takes what its row does, and leaves what the rows after it take.
        ensures reads_up_to { (n most : ℕ) → ReadsUpTo ⟦<PlanCandidates as Candidates>⟧.leaves ⟦<PlanCandidates as Candidates>⟧.pays self.old.rows (H.view host.old).files maps.now (Some (suc n)) most
            → Spends (ReadsUpTo ⟦<PlanCandidates as Candidates>⟧.leaves ⟦<PlanCandidates as Candidates>⟧.pays self.new.rows (H.view host.new).files maps.now (Some n)) most (H.view host.old).reads (H.view host.new).reads result }
        ensures ready { OnOk result (⟦<PlanCandidates as Candidates>⟧.ready self.new.rows.candidates (H.view host.new).files maps.now) }
        ensures uses { (number : ℕ) → ⟦<PlanCandidates as Candidates>⟧.uses self.new.rows.candidates number → ⟦<PlanCandidates as Candidates>⟧.uses self.old.rows.candidates number }
        // In any file what it gives can be printed.
        ensures prints { (kind : ColumnType) → ⟦<PlanCandidates as Candidates>⟧.prints self.old.rows.candidates (H.view host.old).files maps.now kind → IfOk result (GivesPrintable kind) }
        ensures still_prints { (kind : ColumnType) → ⟦<PlanCandidates as Candidates>⟧.prints self.old.rows.candidates (H.view host.old).files maps.now kind → OnOk result (⟦<PlanCandidates as Candidates>⟧.prints self.new.rows.candidates (H.view host.new).files maps.now kind) }
        ensures picked { self.new.picked ≡ self.old.picked }
        ensures conditions { self.new.rows.filter ≡ self.old.rows.filter }
        ensures view { self.new.rows.candidates.view ≡ self.old.rows.candidates.view }
        ensures kinds { map (λ b. kind (b.vtable, b.value)) kit.new.objects.items ≡ map (λ b. kind (b.vtable, b.value)) kit.old.objects.items }
        ensures read { HasStreamed (P.agrees pages.new) (P.covers pages.old) (P.covers pages.new) (⟦<PlanCandidates as Candidates>⟧.opens self.old.rows.candidates) (⟦<PlanCandidates as Candidates>⟧.opens self.new.rows.candidates) (H.view host.old) (H.view host.new) }
        ensures faults { StreamFaults (⟦<PlanCandidates as Candidates>⟧.shows self.old.rows.candidates (H.view host.old).files) (⟦<PlanCandidates as Candidates>⟧.shows self.new.rows.candidates (H.view host.new).files)
            (RowsLeft ⟦<PlanCandidates as Candidates>⟧.leaves self.old.rows (H.view host.old).files maps.now) (H.view host.old) (H.view host.new) result }
        ensures shows_less { (files : Option Folder) (damage : Damage) → ⟦<PlanCandidates as Candidates>⟧.shows self.new.rows.candidates files damage → ⟦<PlanCandidates as Candidates>⟧.shows self.old.rows.candidates files damage }
    {
        self.rows.next(host, pages, maps, kit)
    }

    /// The next row, as the values that are picked of it; None exactly where none is left. An analyzer that the WHERE needs and the kit lacks
    /// is found before anything is read.
    pub fn next<H: Host, P: PageReader>(
        &mut self,
        host: &mut H,
        pages: &mut P,
        maps: &MapBook,
        kit: &mut Kit,
    ) -> Result<Option<Row>, PlanFault>
        requires read { CanStream (P.agrees pages.old) (⟦<PlanCandidates as Candidates>⟧.opens self.old.rows.candidates) (H.view host.old) }
        requires ready { ⟦<PlanCandidates as Candidates>⟧.ready self.old.rows.candidates (H.view host.old).files maps.now }
        requires prints { ⟦<PlanCandidates as Candidates>⟧.prints self.old.rows.candidates (H.view host.old).files maps.now self.old.picked.key }
        // A class is missing exactly where the WHERE needs one that the kit lacks.
        ensures missing { IfErr result (OnPlanMissing (WhereLacks (map (λ b. kind (b.vtable, b.value)) kit.old.objects.items) self.old.rows.filter)) }
        ensures unread { IfErr result (OnPlanMissing (λ _. (H.view host.new).reads ≡ (H.view host.old).reads)) }
        ensures lacks { (class : Class) → WhereLacks (map (λ b. kind (b.vtable, b.value)) kit.old.objects.items) self.old.rows.filter class → IsMissing result }
        ensures row { (rows : List (List ℕ × SpecPartition)) → RowsLeft ⟦<PlanCandidates as Candidates>⟧.leaves self.old.rows (H.view host.old).files maps.now rows
            → IfOk result (GivesPicked self.old.picked (RowsLeft ⟦<PlanCandidates as Candidates>⟧.leaves self.new.rows (H.view host.new).files maps.now) rows) }
        ensures counts { (count : ℕ) → CountsTo ⟦<PlanCandidates as Candidates>⟧.leaves self.old.rows (H.view host.old).files maps.now count
            → OnOk result (CountsTo ⟦<PlanCandidates as Candidates>⟧.leaves self.new.rows (H.view host.new).files maps.now count) }
        ensures counted { (count : ℕ) → CountsTo ⟦<PlanCandidates as Candidates>⟧.leaves self.old.rows (H.view host.old).files maps.now count → IfOk result (λ row. row ≡ None → self.new.rows.checked ≡ count) }
        ensures reads { (most : ℕ) → ReadsLeft ⟦<PlanCandidates as Candidates>⟧.leaves ⟦<PlanCandidates as Candidates>⟧.pays self.old.rows (H.view host.old).files maps.now most
            → SpendsRow (ReadsLeft ⟦<PlanCandidates as Candidates>⟧.leaves ⟦<PlanCandidates as Candidates>⟧.pays self.new.rows (H.view host.new).files maps.now) most (H.view host.old).reads (H.view host.new).reads result }
        ensures reads_up_to { (n most : ℕ) → ReadsUpTo ⟦<PlanCandidates as Candidates>⟧.leaves ⟦<PlanCandidates as Candidates>⟧.pays self.old.rows (H.view host.old).files maps.now (Some (suc n)) most
            → SpendsRow (ReadsUpTo ⟦<PlanCandidates as Candidates>⟧.leaves ⟦<PlanCandidates as Candidates>⟧.pays self.new.rows (H.view host.new).files maps.now (Some n)) most (H.view host.old).reads (H.view host.new).reads result }
        ensures ready { OnOk result (⟦<PlanCandidates as Candidates>⟧.ready self.new.rows.candidates (H.view host.new).files maps.now) }
        ensures uses { (number : ℕ) → ⟦<PlanCandidates as Candidates>⟧.uses self.new.rows.candidates number → ⟦<PlanCandidates as Candidates>⟧.uses self.old.rows.candidates number }
        ensures still_prints { OnOk result (⟦<PlanCandidates as Candidates>⟧.prints self.new.rows.candidates (H.view host.new).files maps.now self.old.picked.key) }
        ensures picked { self.new.picked ≡ self.old.picked }
        ensures conditions { self.new.rows.filter ≡ self.old.rows.filter }
        ensures view { self.new.rows.candidates.view ≡ self.old.rows.candidates.view }
        ensures kinds { map (λ b. kind (b.vtable, b.value)) kit.new.objects.items ≡ (map (λ b. kind (b.vtable, b.value)) kit.old.objects.items) }
        ensures read { HasStreamed (P.agrees pages.new) (P.covers pages.old) (P.covers pages.new) (⟦<PlanCandidates as Candidates>⟧.opens self.old.rows.candidates) (⟦<PlanCandidates as Candidates>⟧.opens self.new.rows.candidates) (H.view host.old) (H.view host.new) }
        ensures faults { RowFaults (⟦<PlanCandidates as Candidates>⟧.shows self.old.rows.candidates (H.view host.old).files) (⟦<PlanCandidates as Candidates>⟧.shows self.new.rows.candidates (H.view host.new).files)
            (RowsLeft ⟦<PlanCandidates as Candidates>⟧.leaves self.old.rows (H.view host.old).files maps.now) (H.view host.old) (H.view host.new) result }
        ensures shows_less { (files : Option Folder) (damage : Damage) → ⟦<PlanCandidates as Candidates>⟧.shows self.new.rows.candidates files damage → ⟦<PlanCandidates as Candidates>⟧.shows self.old.rows.candidates files damage }
    {
        match first_lacked(self.rows.filter().conditions(), kit) {
            Some(class) => Err(PlanFault::Missing(class)),
            None => {
                let found = self.next_partition(host, pages, maps, kit);
                picked_row(self.alloc, &self.picked, found)
            }
        }
    }

    /// How many candidates were looked at so far, at most 2^64 - 1.
    pub fn checked(&self) -> u64
        ensures { result ≡ self.now.rows.checked }
    {
        self.rows.checked()
    }

    /// The view.
    pub fn view(&self) -> &View
        ensures { result.now ≡ self.now.rows.candidates.view }
    {
        self.rows.candidates().view()
    }

    /// The view, to be given back.
    pub fn end(self) -> View
        ensures { result ≡ self.rows.candidates.view }
    {
        self.rows.into_candidates().into_view()
    }
}
