// Cursors.
ghost use Rattle.std.specs.Prelude.{◌≡◌, ◌+◌, ℕ, List, Option, Some, true, IfErr, OnOk, map};
ghost use Rattle.sasi_types.specs.declared.column.ColumnType.{ColumnType};
ghost use Rattle.sasi_host.specs.declared.damage.Damage.{Damage};
ghost use Rattle.sasi_host.specs.declared.name.FileName.{FileName};
ghost use Rattle.sasi_host.specs.Damages.{OnDamage};
ghost use Rattle.sasi_host.specs.Disk.{Changes, Same};
ghost use Rattle.sasi_host.specs.Names.{Folder};
ghost use Rattle.sasi_host.specs.View.{IsThere};
ghost use Rattle.sasi_cells.specs.Maps.{merged};
ghost use Rattle.sasi_memindex.specs.Book.{Book};
ghost use Rattle.sasi_model.specs.Cells.{Partition as SpecPartition};
ghost use Rattle.sasi_model.specs.Filters.{where_of};
ghost use Rattle.sasi_candidates.specs.Checks.{rows};
ghost use Rattle.sasi_candidates.specs.Parts.{maps_of};
ghost use Rattle.sasi_ranges.specs.StreamCalls.{Spends};
ghost use Rattle.sasi_recheck.specs.Rows.{KnowsWhere};
ghost use Rattle.sasi_scan.specs.Numbered.{views_numbered};
ghost use Rattle.sasi_scan.specs.Scanning.{ScanCauses};
ghost use Rattle.sasi_sources.specs.KeyCandidates.{HasKeyType};
ghost use Rattle.sasi_engine.specs.HitCandidates.{PlanWorld};
ghost use Rattle.sasi_engine.specs.Plans.{is_file_of, map_numbers};
ghost use Rattle.sasi_plan.specs.Answers.{ReadsLeft, ReadsUpTo, RowsLeft, lesser, row_of};
ghost use Rattle.sasi_plan.specs.Reading.{IsBounded, IsReadIn, PendingReady, PendingShows, plan_reads};
ghost use Rattle.sasi_fetch.specs.Cursors.{IsReadable};
ghost use Rattle.sasi_fetch.specs.Printing.{PrintsAtMost, PrintsFirst};

use crate::rows::print_first;
use sasi_analyzers::Kit;
use sasi_cache::Cached;
use sasi_host::{Direct, Host, PageReader, ReadFault};
use sasi_machine::Reply;
use sasi_memindex::MapBook;
use sasi_plan::{Plan, PlanCandidates, Reader};
use sasi_recheck::Candidates;
use sasi_views::View;
use std::alloc::Global;

// How many pages a FETCH keeps of those that it has read: 4 MiB.
const CACHED_PAGES: usize = 1024;

// How the pages of files are read.
#[derive(Clone, Copy, Debug)]
pub(crate) enum PageUse {
    // One after another.
    Once,
    // Again and again, by the searches of index files.
    Often,
}

/// The rows of a SELECT over a view of its table, some of which are printed at a time. Between two calls it keeps no page but those of the
/// partitions in hand.
#[derive(Drop)]
pub struct Cursor {
    alloc: Global,
    reader: Reader,
    pages: PageUse,
}

impl Cursor {
    /// A cursor of a plan over the parts of a view. It reads nothing yet, and looks at no map.
    pub fn new(alloc: Global, plan: Plan, view: View) -> Cursor
        ensures picked { result.reader.picked ≡ plan.picked }
        ensures conditions { result.reader.rows.filter ≡ plan.conditions }
        ensures view { result.reader.rows.candidates.view ≡ view }
        // Its rows are those of the answer over the merge of the view's parts.
        ensures rows { (w : PlanWorld) (book : Book) → IsReadIn w plan view book
            → RowsLeft ⟦<PlanCandidates as Candidates>⟧.leaves result.reader.rows (Some w.folder) book (map row_of (rows plan.limit (where_of plan.conditions) (merged (maps_of w.parts)))) }
        // All fetches together take no more reads than a SELECT.
        ensures reads { (w : PlanWorld) (book : Book) → IsReadIn w plan view book → IsBounded w plan.source
            → ReadsLeft ⟦<PlanCandidates as Candidates>⟧.leaves ⟦<PlanCandidates as Candidates>⟧.pays result.reader.rows (Some w.folder) book (plan_reads w plan.source plan.limit) }
        // Fetches of n rows together take no more than a SELECT with LIMIT n.
        ensures reads_up_to { (w : PlanWorld) (book : Book) → IsReadIn w plan view book → IsBounded w plan.source
            → (n : ℕ) → ReadsUpTo ⟦<PlanCandidates as Candidates>⟧.leaves ⟦<PlanCandidates as Candidates>⟧.pays result.reader.rows (Some w.folder) book (Some n) (plan_reads w plan.source (lesser (Some n) plan.limit)) }
        ensures readable { (files : Option Folder) (book : Book) → PendingReady plan.source view book → HasKeyType plan.types (views_numbered book (map_numbers view)) plan.picked.key → IsReadable plan.types files book result }
    {
        let pages = if plan.asks_indexes() {
            PageUse::Often
        } else {
            PageUse::Once
        };
        Cursor {
            alloc,
            reader: Reader::new(plan, view),
            pages,
        }
    }

    /// Prints the next rows, in their order and at most `most`, and how many these are. After an error the cursor isn't asked again.
    pub fn fetch<H: Host>(
        &mut self,
        host: &mut H,
        kit: &mut Kit,
        maps: &MapBook,
        most: u32,
        reply: &mut Reply,
    ) -> Result<(), ReadFault>
        requires readable { (types : List ColumnType) × IsReadable types (H.view host.old).files maps.now self.old }
        requires there { (name : FileName) → is_file_of self.old.reader.rows.candidates.view name ≡ true → IsThere (H.view host.old) name }
        requires known { KnowsWhere (map (λ b. kind (b.vtable, b.value)) kit.old.objects.items) self.old.reader.rows.filter }
        ensures rows { OnOk result (PrintsFirst self.old.reader.picked most (RowsLeft ⟦<PlanCandidates as Candidates>⟧.leaves self.old.reader.rows (H.view host.old).files maps.now) (RowsLeft ⟦<PlanCandidates as Candidates>⟧.leaves self.new.reader.rows (H.view host.new).files maps.now) reply.old reply.new) }
        // In any file it prints no more than that.
        ensures few { OnOk result (PrintsAtMost self.old.reader.picked most reply.old reply.new) }
        // What it reads, and what is left to be read, take together no more than that took, also where it fails.
        ensures reads { (reads : ℕ) → ReadsLeft ⟦<PlanCandidates as Candidates>⟧.leaves ⟦<PlanCandidates as Candidates>⟧.pays self.old.reader.rows (H.view host.old).files maps.now reads
            → Spends (ReadsLeft ⟦<PlanCandidates as Candidates>⟧.leaves ⟦<PlanCandidates as Candidates>⟧.pays self.new.reader.rows (H.view host.new).files maps.now) reads (H.view host.old).reads (H.view host.new).reads result }
        // It reads ahead of no row: it takes what so many rows do, and leaves what the rows after them take.
        ensures reads_up_to { (n reads : ℕ) → ReadsUpTo ⟦<PlanCandidates as Candidates>⟧.leaves ⟦<PlanCandidates as Candidates>⟧.pays self.old.reader.rows (H.view host.old).files maps.now (Some (most + n)) reads
            → Spends (ReadsUpTo ⟦<PlanCandidates as Candidates>⟧.leaves ⟦<PlanCandidates as Candidates>⟧.pays self.new.reader.rows (H.view host.new).files maps.now (Some n)) reads (H.view host.old).reads (H.view host.new).reads result }
        ensures readable { (types : List ColumnType) → IsReadable types (H.view host.old).files maps.now self.old → OnOk result (IsReadable types (H.view host.new).files maps.now self.new) }
        // Damage is reported only if the files of the view show it, and never where they have what is left.
        ensures damaged { (types : List ColumnType) → IsReadable types (H.view host.old).files maps.now self.old → IfErr result (OnDamage (PendingShows types self.old.reader.rows.candidates.view (H.view host.old).files)) }
        ensures undamaged { IfErr result (OnDamage (λ _. (rows : List (List ℕ × SpecPartition)) → RowsLeft ⟦<PlanCandidates as Candidates>⟧.leaves self.old.reader.rows (H.view host.old).files maps.now rows → ⊥)) }
        ensures picked { self.new.reader.picked ≡ self.old.reader.picked }
        ensures conditions { self.new.reader.rows.filter ≡ self.old.reader.rows.filter }
        ensures view { self.new.reader.rows.candidates.view ≡ self.old.reader.rows.candidates.view }
        ensures kinds { map (λ b. kind (b.vtable, b.value)) kit.new.objects.items ≡ map (λ b. kind (b.vtable, b.value)) kit.old.objects.items }
        ensures changes { Changes Same (H.view host.old) (H.view host.new) }
        ensures causes { ScanCauses (H.view host.old) (H.view host.new) result }
    {
        match self.pages {
            PageUse::Once => fetch_by(self, host, &mut Direct, kit, maps, most, reply),
            PageUse::Often => {
                let mut pages = Cached::new(self.alloc, CACHED_PAGES)?;
                fetch_by(self, host, &mut pages, kit, maps, most, reply)
            }
        }
    }

    /// The view.
    pub fn view(&self) -> &View
        ensures { result.now ≡ self.now.reader.rows.candidates.view }
    {
        self.reader.view()
    }

    /// The view, to be given back.
    pub fn end(self) -> View
        ensures { result ≡ self.reader.rows.candidates.view }
    {
        self.reader.end()
    }
}

// The same by a reader of pages.
fn fetch_by<H: Host, P: PageReader>(
    cursor: &mut Cursor,
    host: &mut H,
    pages: &mut P,
    kit: &mut Kit,
    maps: &MapBook,
    most: u32,
    reply: &mut Reply,
) -> Result<(), ReadFault>
    requires agrees { P.agrees pages.old (H.view host.old).files }
    requires readable { (types : List ColumnType) × IsReadable types (H.view host.old).files maps.now cursor.old }
    requires there { (name : FileName) → is_file_of cursor.old.reader.rows.candidates.view name ≡ true → IsThere (H.view host.old) name }
    requires known { KnowsWhere (map (λ b. kind (b.vtable, b.value)) kit.old.objects.items) cursor.old.reader.rows.filter }
    ensures rows { OnOk result (PrintsFirst cursor.old.reader.picked most (RowsLeft ⟦<PlanCandidates as Candidates>⟧.leaves cursor.old.reader.rows (H.view host.old).files maps.now) (RowsLeft ⟦<PlanCandidates as Candidates>⟧.leaves cursor.new.reader.rows (H.view host.new).files maps.now) reply.old reply.new) }
    ensures few { OnOk result (PrintsAtMost cursor.old.reader.picked most reply.old reply.new) }
    ensures reads { (reads : ℕ) → ReadsLeft ⟦<PlanCandidates as Candidates>⟧.leaves ⟦<PlanCandidates as Candidates>⟧.pays cursor.old.reader.rows (H.view host.old).files maps.now reads
        → Spends (ReadsLeft ⟦<PlanCandidates as Candidates>⟧.leaves ⟦<PlanCandidates as Candidates>⟧.pays cursor.new.reader.rows (H.view host.new).files maps.now) reads (H.view host.old).reads (H.view host.new).reads result }
    ensures reads_up_to { (n reads : ℕ) → ReadsUpTo ⟦<PlanCandidates as Candidates>⟧.leaves ⟦<PlanCandidates as Candidates>⟧.pays cursor.old.reader.rows (H.view host.old).files maps.now (Some (most + n)) reads
        → Spends (ReadsUpTo ⟦<PlanCandidates as Candidates>⟧.leaves ⟦<PlanCandidates as Candidates>⟧.pays cursor.new.reader.rows (H.view host.new).files maps.now (Some n)) reads (H.view host.old).reads (H.view host.new).reads result }
    ensures readable { (types : List ColumnType) → IsReadable types (H.view host.old).files maps.now cursor.old → OnOk result (IsReadable types (H.view host.new).files maps.now cursor.new) }
    ensures damaged { (types : List ColumnType) → IsReadable types (H.view host.old).files maps.now cursor.old → IfErr result (OnDamage (PendingShows types cursor.old.reader.rows.candidates.view (H.view host.old).files)) }
    ensures undamaged { IfErr result (OnDamage (λ _. (rows : List (List ℕ × SpecPartition)) → RowsLeft ⟦<PlanCandidates as Candidates>⟧.leaves cursor.old.reader.rows (H.view host.old).files maps.now rows → ⊥)) }
    ensures picked { cursor.new.reader.picked ≡ cursor.old.reader.picked }
    ensures conditions { cursor.new.reader.rows.filter ≡ cursor.old.reader.rows.filter }
    ensures view { cursor.new.reader.rows.candidates.view ≡ cursor.old.reader.rows.candidates.view }
    ensures kinds { map (λ b. kind (b.vtable, b.value)) kit.new.objects.items ≡ map (λ b. kind (b.vtable, b.value)) kit.old.objects.items }
    ensures changes { Changes Same (H.view host.old) (H.view host.new) }
    ensures causes { ScanCauses (H.view host.old) (H.view host.new) result }
{
    print_first(
        cursor.alloc,
        host,
        pages,
        kit,
        maps,
        &mut cursor.reader,
        u64::from(most),
        reply,
    )?;
    Ok(())
}
