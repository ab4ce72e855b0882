// The candidates of a plan.
ghost use Rattle.std.specs.Prelude.{◌≡◌, ◌+◌, ◌≤◌, ℕ, List, Option, None, Some, IfOk, OnOk, [], drop, length, true};
ghost use Rattle.std.specs.List.{AllByRecursion};
ghost use Rattle.sasi_types.specs.declared.column.ColumnType.{ColumnType};
ghost use Rattle.sasi_host.specs.declared.damage.Damage.{Damage};
ghost use Rattle.sasi_host.specs.declared.name.FileName.{FileName};
ghost use Rattle.sasi_host.specs.Names.{Folder};
ghost use Rattle.sasi_memindex.specs.Book.{Book};
ghost use Rattle.sasi_ranges.specs.StreamCalls.{CanStream, HasStreamed, Spends, StreamFaults};
ghost use Rattle.sasi_candidates.specs.Candidates.{candidates};
ghost use Rattle.sasi_model.specs.Filters.{where_of};
ghost use Rattle.sasi_recheck.specs.Optional.{SourceOr};
ghost use Rattle.sasi_recheck.specs.Sources.{Candidate, GivesFirst, GivesPrintable, first_price};
ghost use Rattle.sasi_sources.specs.KeyCandidates.{HasKeyType};
ghost use Rattle.sasi_engine.specs.Findable.{CanFind, HasWords};
ghost use Rattle.sasi_engine.specs.HitCandidates.{PlanWorld};
ghost use Rattle.sasi_engine.specs.Plans.{is_file_of, map_numbers};
ghost use Rattle.sasi_sources.specs.Maps.{IsOneOf};
ghost use Rattle.sasi_scan.specs.Numbered.{views_numbered};
ghost use Rattle.sasi_plan.specs.declared.plan_candidates.Pending.{Pending as SpecPending};
ghost use Rattle.sasi_plan.specs.Begun.{Since};
ghost use Rattle.sasi_plan.specs.Reading.{IsMadeFor, IsMadeForKey, IsMadeForTable, IsViewOf, KeyPrices, PendingLeaves, PendingPays, PendingReady, PendingShows, PricesOf, TablePrices};

use crate::PlanSource;
use crate::parts::listed_files;
use either::{Either, Left, Right};
use sasi_cells::Partition;
use sasi_engine::{HitCandidates, IndexedRelation, KeyedHits, map_numbers};
use sasi_hits::Hits;
use sasi_host::{Host, PageReader, ReadFault};
use sasi_memindex::MapBook;
use sasi_ranges::Intersection;
use sasi_recheck::Candidates;
use sasi_sources::{KeyCandidates, ScanCandidates};
use sasi_types::{DecoratedKey, Key, TypeList};
use sasi_views::{Part, View};
use std::alloc::{AllocError, Global};

// A source of candidates, once it was begun.
pub(crate) type Source = Either<
    HitCandidates<Intersection<Hits>>,
    Either<KeyedHits<Intersection<Hits>>, Either<ScanCandidates, KeyCandidates>>,
>;

// What a source is made of.
#[derive(Drop)]
pub(crate) struct Pending {
    pub(crate) types: TypeList,
    pub(crate) source: PlanSource,
}

/// The candidates of a plan in the parts of a view. Nothing is read or looked up before the first one is asked for.
#[derive(Drop)]
pub struct PlanCandidates {
    alloc: Global,
    view: View,
    // None once the source was begun.
    pending: Option<Pending>,
    source: Option<Source>,
}

impl PlanCandidates {
    /// Those of this source in a table with these types, over the parts of a view.
    pub(crate) fn new(
        alloc: Global,
        types: TypeList,
        source: PlanSource,
        view: View,
    ) -> PlanCandidates
        ensures { result ≡ record { alloc = alloc; view = view; pending = Some (record { types = types; source = source }); source = None } }
    {
        PlanCandidates {
            alloc,
            view,
            pending: Some(Pending { types, source }),
            source: None,
        }
    }

    /// The view.
    pub(crate) fn view(&self) -> &View
        ensures { result.now ≡ self.now.view }
    {
        &self.view
    }

    /// The view, to be given back.
    pub(crate) fn into_view(self) -> View
        ensures { result ≡ self.view }
    {
        self.view
    }
}

// All keys of the table.
fn begin_scan(
    alloc: Global,
    parts: &[Part],
    types: TypeList,
    maps: &MapBook,
) -> Result<Source, AllocError>
    ensures leaves { (w : PlanWorld) (left : List Candidate) → IsViewOf w maps.now → IsMadeForTable w [] types parts.now → left ≡ candidates w.parts (where_of w.conditions) → IfOk result (λ made. ⟦<Either<HitCandidates<Intersection<Hits>>, Either<KeyedHits<Intersection<Hits>>, Either<ScanCandidates, KeyCandidates>>> as Candidates>⟧.leaves made (Some w.folder) maps.now left) }
    ensures pays { (w : PlanWorld) (most : ℕ) (prices : List ℕ) → IsViewOf w maps.now → IsMadeForTable w [] types parts.now → TablePrices w [] most prices → IfOk result (λ made. ⟦<Either<HitCandidates<Intersection<Hits>>, Either<KeyedHits<Intersection<Hits>>, Either<ScanCandidates, KeyCandidates>>> as Candidates>⟧.pays made (Some w.folder) maps.now most prices) }
    ensures ready { IfOk result (λ made. (files : Option Folder) (book : Book) → ⟦<Either<HitCandidates<Intersection<Hits>>, Either<KeyedHits<Intersection<Hits>>, Either<ScanCandidates, KeyCandidates>>> as Candidates>⟧.ready made files book) }
    ensures opens { IfOk result (λ made. (name : FileName) → ⟦<Either<HitCandidates<Intersection<Hits>>, Either<KeyedHits<Intersection<Hits>>, Either<ScanCandidates, KeyCandidates>>> as Candidates>⟧.opens made name → is_file_of parts.now name ≡ true) }
    ensures uses { IfOk result (λ made. (number : ℕ) → ⟦<Either<HitCandidates<Intersection<Hits>>, Either<KeyedHits<Intersection<Hits>>, Either<ScanCandidates, KeyCandidates>>> as Candidates>⟧.uses made number → IsOneOf (map_numbers parts.now) number) }
    ensures shows { IfOk result (λ made. (files : Option Folder) (damage : Damage) → ⟦<Either<HitCandidates<Intersection<Hits>>, Either<KeyedHits<Intersection<Hits>>, Either<ScanCandidates, KeyCandidates>>> as Candidates>⟧.shows made files damage → PendingShows types parts.now files damage) }
    ensures prints { (files : Option Folder) (book : Book) (kind : ColumnType) → HasKeyType types (views_numbered book (map_numbers parts.now)) kind → IfOk result (λ made. ⟦<Either<HitCandidates<Intersection<Hits>>, Either<KeyedHits<Intersection<Hits>>, Either<ScanCandidates, KeyCandidates>>> as Candidates>⟧.prints made files book kind) }
{
    let _ = &maps;
    let files = listed_files(alloc, parts)?;
    let numbers = map_numbers(alloc, parts)?;
    Ok(Right(Right(Left(ScanCandidates::new(alloc, types, files, numbers)))))
}

// All keys that these relations leave.
fn begin_hits(
    alloc: Global,
    relations: &[IndexedRelation],
    parts: &[Part],
    types: TypeList,
    maps: &MapBook,
) -> Result<Source, AllocError>
    requires some { 1 ≤ length relations.now }
    requires words { AllByRecursion HasWords relations.now }
    requires maps { AllByRecursion (CanFind maps.now relations.now) parts.now }
    ensures leaves { (w : PlanWorld) (left : List Candidate) → IsViewOf w maps.now → IsMadeForTable w relations.now types parts.now → left ≡ candidates w.parts (where_of w.conditions) → IfOk result (λ made. ⟦<Either<HitCandidates<Intersection<Hits>>, Either<KeyedHits<Intersection<Hits>>, Either<ScanCandidates, KeyCandidates>>> as Candidates>⟧.leaves made (Some w.folder) maps.now left) }
    ensures pays { (w : PlanWorld) (most : ℕ) (prices : List ℕ) → IsViewOf w maps.now → IsMadeForTable w relations.now types parts.now → TablePrices w relations.now most prices → IfOk result (λ made. ⟦<Either<HitCandidates<Intersection<Hits>>, Either<KeyedHits<Intersection<Hits>>, Either<ScanCandidates, KeyCandidates>>> as Candidates>⟧.pays made (Some w.folder) maps.now most prices) }
    ensures ready { IfOk result (λ made. (files : Option Folder) (book : Book) → ⟦<Either<HitCandidates<Intersection<Hits>>, Either<KeyedHits<Intersection<Hits>>, Either<ScanCandidates, KeyCandidates>>> as Candidates>⟧.ready made files book) }
    ensures opens { IfOk result (λ made. (name : FileName) → ⟦<Either<HitCandidates<Intersection<Hits>>, Either<KeyedHits<Intersection<Hits>>, Either<ScanCandidates, KeyCandidates>>> as Candidates>⟧.opens made name → is_file_of parts.now name ≡ true) }
    ensures uses { IfOk result (λ made. (number : ℕ) → ⟦<Either<HitCandidates<Intersection<Hits>>, Either<KeyedHits<Intersection<Hits>>, Either<ScanCandidates, KeyCandidates>>> as Candidates>⟧.uses made number → IsOneOf (map_numbers parts.now) number) }
    ensures shows { IfOk result (λ made. (files : Option Folder) (damage : Damage) → ⟦<Either<HitCandidates<Intersection<Hits>>, Either<KeyedHits<Intersection<Hits>>, Either<ScanCandidates, KeyCandidates>>> as Candidates>⟧.shows made files damage → PendingShows types parts.now files damage) }
    ensures prints { (files : Option Folder) (book : Book) (kind : ColumnType) → HasKeyType types (views_numbered book (map_numbers parts.now)) kind → IfOk result (λ made. ⟦<Either<HitCandidates<Intersection<Hits>>, Either<KeyedHits<Intersection<Hits>>, Either<ScanCandidates, KeyCandidates>>> as Candidates>⟧.prints made files book kind) }
{
    let hits = HitCandidates::new(alloc, relations, parts, types, maps)?;
    Ok(Left(hits))
}

// All keys that the relations leave, or all of the table where there is none.
fn begin_table(
    alloc: Global,
    relations: &[IndexedRelation],
    parts: &[Part],
    types: TypeList,
    maps: &MapBook,
) -> Result<Source, AllocError>
    requires words { AllByRecursion HasWords relations.now }
    requires maps { AllByRecursion (CanFind maps.now relations.now) parts.now }
    ensures leaves { (w : PlanWorld) (left : List Candidate) → IsViewOf w maps.now → IsMadeForTable w relations.now types parts.now → left ≡ candidates w.parts (where_of w.conditions) → IfOk result (λ made. ⟦<Either<HitCandidates<Intersection<Hits>>, Either<KeyedHits<Intersection<Hits>>, Either<ScanCandidates, KeyCandidates>>> as Candidates>⟧.leaves made (Some w.folder) maps.now left) }
    ensures pays { (w : PlanWorld) (most : ℕ) (prices : List ℕ) → IsViewOf w maps.now → IsMadeForTable w relations.now types parts.now → TablePrices w relations.now most prices → IfOk result (λ made. ⟦<Either<HitCandidates<Intersection<Hits>>, Either<KeyedHits<Intersection<Hits>>, Either<ScanCandidates, KeyCandidates>>> as Candidates>⟧.pays made (Some w.folder) maps.now most prices) }
    ensures ready { IfOk result (λ made. (files : Option Folder) (book : Book) → ⟦<Either<HitCandidates<Intersection<Hits>>, Either<KeyedHits<Intersection<Hits>>, Either<ScanCandidates, KeyCandidates>>> as Candidates>⟧.ready made files book) }
    ensures opens { IfOk result (λ made. (name : FileName) → ⟦<Either<HitCandidates<Intersection<Hits>>, Either<KeyedHits<Intersection<Hits>>, Either<ScanCandidates, KeyCandidates>>> as Candidates>⟧.opens made name → is_file_of parts.now name ≡ true) }
    ensures uses { IfOk result (λ made. (number : ℕ) → ⟦<Either<HitCandidates<Intersection<Hits>>, Either<KeyedHits<Intersection<Hits>>, Either<ScanCandidates, KeyCandidates>>> as Candidates>⟧.uses made number → IsOneOf (map_numbers parts.now) number) }
    ensures shows { IfOk result (λ made. (files : Option Folder) (damage : Damage) → ⟦<Either<HitCandidates<Intersection<Hits>>, Either<KeyedHits<Intersection<Hits>>, Either<ScanCandidates, KeyCandidates>>> as Candidates>⟧.shows made files damage → PendingShows types parts.now files damage) }
    ensures prints { (files : Option Folder) (book : Book) (kind : ColumnType) → HasKeyType types (views_numbered book (map_numbers parts.now)) kind → IfOk result (λ made. ⟦<Either<HitCandidates<Intersection<Hits>>, Either<KeyedHits<Intersection<Hits>>, Either<ScanCandidates, KeyCandidates>>> as Candidates>⟧.prints made files book kind) }
{
    if relations.is_empty() {
        return begin_scan(alloc, parts, types, maps);
    }
    begin_hits(alloc, relations, parts, types, maps)
}

// One key, in all parts.
fn begin_look_up(
    alloc: Global,
    key: DecoratedKey,
    parts: &[Part],
    types: TypeList,
    maps: &MapBook,
) -> Result<Source, AllocError>
    ensures leaves { (w : PlanWorld) (left : List Candidate) → IsViewOf w maps.now → IsMadeForKey w key [] types parts.now → left ≡ candidates w.parts (where_of w.conditions) → IfOk result (λ made. ⟦<Either<HitCandidates<Intersection<Hits>>, Either<KeyedHits<Intersection<Hits>>, Either<ScanCandidates, KeyCandidates>>> as Candidates>⟧.leaves made (Some w.folder) maps.now left) }
    ensures pays { (w : PlanWorld) (most : ℕ) (prices : List ℕ) → IsViewOf w maps.now → IsMadeForKey w key [] types parts.now → KeyPrices w key [] most prices → IfOk result (λ made. ⟦<Either<HitCandidates<Intersection<Hits>>, Either<KeyedHits<Intersection<Hits>>, Either<ScanCandidates, KeyCandidates>>> as Candidates>⟧.pays made (Some w.folder) maps.now most prices) }
    ensures ready { IfOk result (λ made. (files : Option Folder) (book : Book) → ⟦<Either<HitCandidates<Intersection<Hits>>, Either<KeyedHits<Intersection<Hits>>, Either<ScanCandidates, KeyCandidates>>> as Candidates>⟧.ready made files book) }
    ensures opens { IfOk result (λ made. (name : FileName) → ⟦<Either<HitCandidates<Intersection<Hits>>, Either<KeyedHits<Intersection<Hits>>, Either<ScanCandidates, KeyCandidates>>> as Candidates>⟧.opens made name → is_file_of parts.now name ≡ true) }
    ensures uses { IfOk result (λ made. (number : ℕ) → ⟦<Either<HitCandidates<Intersection<Hits>>, Either<KeyedHits<Intersection<Hits>>, Either<ScanCandidates, KeyCandidates>>> as Candidates>⟧.uses made number → IsOneOf (map_numbers parts.now) number) }
    ensures shows { IfOk result (λ made. (files : Option Folder) (damage : Damage) → ⟦<Either<HitCandidates<Intersection<Hits>>, Either<KeyedHits<Intersection<Hits>>, Either<ScanCandidates, KeyCandidates>>> as Candidates>⟧.shows made files damage → PendingShows types parts.now files damage) }
    ensures prints { (files : Option Folder) (book : Book) (kind : ColumnType) → HasKeyType types (views_numbered book (map_numbers parts.now)) kind → IfOk result (λ made. ⟦<Either<HitCandidates<Intersection<Hits>>, Either<KeyedHits<Intersection<Hits>>, Either<ScanCandidates, KeyCandidates>>> as Candidates>⟧.prints made files book kind) }
{
    let _ = &maps;
    let files = listed_files(alloc, parts)?;
    let numbers = map_numbers(alloc, parts)?;
    Ok(Right(Right(Right(KeyCandidates::new(alloc, types, files, numbers, key)))))
}

// One key, if these relations leave it.
fn begin_keyed_hits(
    alloc: Global,
    key: DecoratedKey,
    relations: &[IndexedRelation],
    parts: &[Part],
    types: TypeList,
    maps: &MapBook,
) -> Result<Source, AllocError>
    requires some { 1 ≤ length relations.now }
    requires words { AllByRecursion HasWords relations.now }
    requires maps { AllByRecursion (CanFind maps.now relations.now) parts.now }
    ensures leaves { (w : PlanWorld) (left : List Candidate) → IsViewOf w maps.now → IsMadeForKey w key relations.now types parts.now → left ≡ candidates w.parts (where_of w.conditions) → IfOk result (λ made. ⟦<Either<HitCandidates<Intersection<Hits>>, Either<KeyedHits<Intersection<Hits>>, Either<ScanCandidates, KeyCandidates>>> as Candidates>⟧.leaves made (Some w.folder) maps.now left) }
    ensures pays { (w : PlanWorld) (most : ℕ) (prices : List ℕ) → IsViewOf w maps.now → IsMadeForKey w key relations.now types parts.now → KeyPrices w key relations.now most prices → IfOk result (λ made. ⟦<Either<HitCandidates<Intersection<Hits>>, Either<KeyedHits<Intersection<Hits>>, Either<ScanCandidates, KeyCandidates>>> as Candidates>⟧.pays made (Some w.folder) maps.now most prices) }
    ensures ready { IfOk result (λ made. (files : Option Folder) (book : Book) → ⟦<Either<HitCandidates<Intersection<Hits>>, Either<KeyedHits<Intersection<Hits>>, Either<ScanCandidates, KeyCandidates>>> as Candidates>⟧.ready made files book) }
    ensures opens { IfOk result (λ made. (name : FileName) → ⟦<Either<HitCandidates<Intersection<Hits>>, Either<KeyedHits<Intersection<Hits>>, Either<ScanCandidates, KeyCandidates>>> as Candidates>⟧.opens made name → is_file_of parts.now name ≡ true) }
    ensures uses { IfOk result (λ made. (number : ℕ) → ⟦<Either<HitCandidates<Intersection<Hits>>, Either<KeyedHits<Intersection<Hits>>, Either<ScanCandidates, KeyCandidates>>> as Candidates>⟧.uses made number → IsOneOf (map_numbers parts.now) number) }
    ensures shows { IfOk result (λ made. (files : Option Folder) (damage : Damage) → ⟦<Either<HitCandidates<Intersection<Hits>>, Either<KeyedHits<Intersection<Hits>>, Either<ScanCandidates, KeyCandidates>>> as Candidates>⟧.shows made files damage → PendingShows types parts.now files damage) }
    ensures prints { (files : Option Folder) (book : Book) (kind : ColumnType) → HasKeyType types (views_numbered book (map_numbers parts.now)) kind → IfOk result (λ made. ⟦<Either<HitCandidates<Intersection<Hits>>, Either<KeyedHits<Intersection<Hits>>, Either<ScanCandidates, KeyCandidates>>> as Candidates>⟧.prints made files book kind) }
{
    let hits = KeyedHits::new(alloc, relations, parts, types, maps, key)?;
    Ok(Right(Left(hits)))
}

// One key, where the relations leave it.
fn begin_key(
    alloc: Global,
    key: DecoratedKey,
    relations: &[IndexedRelation],
    parts: &[Part],
    types: TypeList,
    maps: &MapBook,
) -> Result<Source, AllocError>
    requires words { AllByRecursion HasWords relations.now }
    requires maps { AllByRecursion (CanFind maps.now relations.now) parts.now }
    ensures leaves { (w : PlanWorld) (left : List Candidate) → IsViewOf w maps.now → IsMadeForKey w key relations.now types parts.now → left ≡ candidates w.parts (where_of w.conditions) → IfOk result (λ made. ⟦<Either<HitCandidates<Intersection<Hits>>, Either<KeyedHits<Intersection<Hits>>, Either<ScanCandidates, KeyCandidates>>> as Candidates>⟧.leaves made (Some w.folder) maps.now left) }
    ensures pays { (w : PlanWorld) (most : ℕ) (prices : List ℕ) → IsViewOf w maps.now → IsMadeForKey w key relations.now types parts.now → KeyPrices w key relations.now most prices → IfOk result (λ made. ⟦<Either<HitCandidates<Intersection<Hits>>, Either<KeyedHits<Intersection<Hits>>, Either<ScanCandidates, KeyCandidates>>> as Candidates>⟧.pays made (Some w.folder) maps.now most prices) }
    ensures ready { IfOk result (λ made. (files : Option Folder) (book : Book) → ⟦<Either<HitCandidates<Intersection<Hits>>, Either<KeyedHits<Intersection<Hits>>, Either<ScanCandidates, KeyCandidates>>> as Candidates>⟧.ready made files book) }
    ensures opens { IfOk result (λ made. (name : FileName) → ⟦<Either<HitCandidates<Intersection<Hits>>, Either<KeyedHits<Intersection<Hits>>, Either<ScanCandidates, KeyCandidates>>> as Candidates>⟧.opens made name → is_file_of parts.now name ≡ true) }
    ensures uses { IfOk result (λ made. (number : ℕ) → ⟦<Either<HitCandidates<Intersection<Hits>>, Either<KeyedHits<Intersection<Hits>>, Either<ScanCandidates, KeyCandidates>>> as Candidates>⟧.uses made number → IsOneOf (map_numbers parts.now) number) }
    ensures shows { IfOk result (λ made. (files : Option Folder) (damage : Damage) → ⟦<Either<HitCandidates<Intersection<Hits>>, Either<KeyedHits<Intersection<Hits>>, Either<ScanCandidates, KeyCandidates>>> as Candidates>⟧.shows made files damage → PendingShows types parts.now files damage) }
    ensures prints { (files : Option Folder) (book : Book) (kind : ColumnType) → HasKeyType types (views_numbered book (map_numbers parts.now)) kind → IfOk result (λ made. ⟦<Either<HitCandidates<Intersection<Hits>>, Either<KeyedHits<Intersection<Hits>>, Either<ScanCandidates, KeyCandidates>>> as Candidates>⟧.prints made files book kind) }
{
    if relations.is_empty() {
        return begin_look_up(alloc, key, parts, types, maps);
    }
    begin_keyed_hits(alloc, key, relations, parts, types, maps)
}

// The source that is pending.
fn begin(
    alloc: Global,
    pending: Pending,
    parts: &[Part],
    maps: &MapBook,
) -> Result<Option<Source>, AllocError>
    requires { PendingReady pending.source parts.now maps.now }
    ensures leaves { (w : PlanWorld) (left : List Candidate) → IsViewOf w maps.now → IsMadeFor w pending.source pending.types parts.now → left ≡ candidates w.parts (where_of w.conditions) → IfOk result (λ made. ⟦<Option<Either<HitCandidates<Intersection<Hits>>, Either<KeyedHits<Intersection<Hits>>, Either<ScanCandidates, KeyCandidates>>>> as Candidates>⟧.leaves made (Some w.folder) maps.now left) }
    ensures pays { (w : PlanWorld) (most : ℕ) (prices : List ℕ) → IsViewOf w maps.now → IsMadeFor w pending.source pending.types parts.now → PricesOf w pending.source most prices → IfOk result (λ made. ⟦<Option<Either<HitCandidates<Intersection<Hits>>, Either<KeyedHits<Intersection<Hits>>, Either<ScanCandidates, KeyCandidates>>>> as Candidates>⟧.pays made (Some w.folder) maps.now most prices) }
    ensures ready { IfOk result (λ made. (files : Option Folder) (book : Book) → ⟦<Option<Either<HitCandidates<Intersection<Hits>>, Either<KeyedHits<Intersection<Hits>>, Either<ScanCandidates, KeyCandidates>>>> as Candidates>⟧.ready made files book) }
    ensures opens { IfOk result (λ made. (name : FileName) → ⟦<Option<Either<HitCandidates<Intersection<Hits>>, Either<KeyedHits<Intersection<Hits>>, Either<ScanCandidates, KeyCandidates>>>> as Candidates>⟧.opens made name → is_file_of parts.now name ≡ true) }
    ensures uses { IfOk result (λ made. (number : ℕ) → ⟦<Option<Either<HitCandidates<Intersection<Hits>>, Either<KeyedHits<Intersection<Hits>>, Either<ScanCandidates, KeyCandidates>>>> as Candidates>⟧.uses made number → IsOneOf (map_numbers parts.now) number) }
    ensures shows { IfOk result (λ made. (files : Option Folder) (damage : Damage) → ⟦<Option<Either<HitCandidates<Intersection<Hits>>, Either<KeyedHits<Intersection<Hits>>, Either<ScanCandidates, KeyCandidates>>>> as Candidates>⟧.shows made files damage → PendingShows pending.types parts.now files damage) }
    ensures prints { (files : Option Folder) (book : Book) (kind : ColumnType) → HasKeyType pending.types (views_numbered book (map_numbers parts.now)) kind → IfOk result (λ made. ⟦<Option<Either<HitCandidates<Intersection<Hits>>, Either<KeyedHits<Intersection<Hits>>, Either<ScanCandidates, KeyCandidates>>>> as Candidates>⟧.prints made files book kind) }
{
    let Pending { types, source } = pending;
    match source {
        PlanSource::Nothing => Ok(None),
        PlanSource::OfKey(key, relations) => {
            let made = begin_key(alloc, key, &relations, parts, types, maps)?;
            Ok(Some(made))
        }
        PlanSource::OfTable(relations) => {
            let made = begin_table(alloc, &relations, parts, types, maps)?;
            Ok(Some(made))
        }
    }
}

// Begins the source where it is pending.
fn begin_pending(
    alloc: Global,
    pending: &mut Option<Pending>,
    source: &mut Option<Source>,
    parts: &[Part],
    maps: &MapBook,
) -> Result<(), AllocError>
    requires { SourceOr pending.old (λ (p : SpecPending). PendingReady p.source parts.now maps.now) (Unit {0}) }
    ensures begun { pending.new ≡ None }
    ensures leaves { (files : Option Folder) (left : List Candidate) → SourceOr pending.old (λ (p : SpecPending). PendingLeaves p.source p.types parts.now files maps.now left) (Since (⟦<Option<Either<HitCandidates<Intersection<Hits>>, Either<KeyedHits<Intersection<Hits>>, Either<ScanCandidates, KeyCandidates>>>> as Candidates>⟧.opens source.old) (⟦<Option<Either<HitCandidates<Intersection<Hits>>, Either<KeyedHits<Intersection<Hits>>, Either<ScanCandidates, KeyCandidates>>>> as Candidates>⟧.uses source.old) (λ was origin. ⟦<Option<Either<HitCandidates<Intersection<Hits>>, Either<KeyedHits<Intersection<Hits>>, Either<ScanCandidates, KeyCandidates>>>> as Candidates>⟧.leaves source.old was origin left) files maps.now)
        → OnOk result (Since (⟦<Option<Either<HitCandidates<Intersection<Hits>>, Either<KeyedHits<Intersection<Hits>>, Either<ScanCandidates, KeyCandidates>>>> as Candidates>⟧.opens source.new) (⟦<Option<Either<HitCandidates<Intersection<Hits>>, Either<KeyedHits<Intersection<Hits>>, Either<ScanCandidates, KeyCandidates>>>> as Candidates>⟧.uses source.new) (λ was origin. ⟦<Option<Either<HitCandidates<Intersection<Hits>>, Either<KeyedHits<Intersection<Hits>>, Either<ScanCandidates, KeyCandidates>>>> as Candidates>⟧.leaves source.new was origin left) files maps.now) }
    ensures pays { (files : Option Folder) (most : ℕ) (prices : List ℕ) → SourceOr pending.old (λ (p : SpecPending). PendingPays p.source p.types parts.now files maps.now most prices) (Since (⟦<Option<Either<HitCandidates<Intersection<Hits>>, Either<KeyedHits<Intersection<Hits>>, Either<ScanCandidates, KeyCandidates>>>> as Candidates>⟧.opens source.old) (⟦<Option<Either<HitCandidates<Intersection<Hits>>, Either<KeyedHits<Intersection<Hits>>, Either<ScanCandidates, KeyCandidates>>>> as Candidates>⟧.uses source.old) (λ was origin. ⟦<Option<Either<HitCandidates<Intersection<Hits>>, Either<KeyedHits<Intersection<Hits>>, Either<ScanCandidates, KeyCandidates>>>> as Candidates>⟧.pays source.old was origin most prices) files maps.now)
        → OnOk result (Since (⟦<Option<Either<HitCandidates<Intersection<Hits>>, Either<KeyedHits<Intersection<Hits>>, Either<ScanCandidates, KeyCandidates>>>> as Candidates>⟧.opens source.new) (⟦<Option<Either<HitCandidates<Intersection<Hits>>, Either<KeyedHits<Intersection<Hits>>, Either<ScanCandidates, KeyCandidates>>>> as Candidates>⟧.uses source.new) (λ was origin. ⟦<Option<Either<HitCandidates<Intersection<Hits>>, Either<KeyedHits<Intersection<Hits>>, Either<ScanCandidates, KeyCandidates>>>> as Candidates>⟧.pays source.new was origin most prices) files maps.now) }
    ensures ready { (files : Option Folder) → SourceOr pending.old (λ (p : SpecPending). PendingReady p.source parts.now maps.now) (Since (⟦<Option<Either<HitCandidates<Intersection<Hits>>, Either<KeyedHits<Intersection<Hits>>, Either<ScanCandidates, KeyCandidates>>>> as Candidates>⟧.opens source.old) (⟦<Option<Either<HitCandidates<Intersection<Hits>>, Either<KeyedHits<Intersection<Hits>>, Either<ScanCandidates, KeyCandidates>>>> as Candidates>⟧.uses source.old) (λ was origin. ⟦<Option<Either<HitCandidates<Intersection<Hits>>, Either<KeyedHits<Intersection<Hits>>, Either<ScanCandidates, KeyCandidates>>>> as Candidates>⟧.ready source.old was origin) files maps.now) → OnOk result (Since (⟦<Option<Either<HitCandidates<Intersection<Hits>>, Either<KeyedHits<Intersection<Hits>>, Either<ScanCandidates, KeyCandidates>>>> as Candidates>⟧.opens source.new) (⟦<Option<Either<HitCandidates<Intersection<Hits>>, Either<KeyedHits<Intersection<Hits>>, Either<ScanCandidates, KeyCandidates>>>> as Candidates>⟧.uses source.new) (λ was origin. ⟦<Option<Either<HitCandidates<Intersection<Hits>>, Either<KeyedHits<Intersection<Hits>>, Either<ScanCandidates, KeyCandidates>>>> as Candidates>⟧.ready source.new was origin) files maps.now) }
    ensures prints { (files : Option Folder) (kind : ColumnType) → SourceOr pending.old (λ (p : SpecPending). HasKeyType p.types (views_numbered maps.now (map_numbers parts.now)) kind) (Since (⟦<Option<Either<HitCandidates<Intersection<Hits>>, Either<KeyedHits<Intersection<Hits>>, Either<ScanCandidates, KeyCandidates>>>> as Candidates>⟧.opens source.old) (⟦<Option<Either<HitCandidates<Intersection<Hits>>, Either<KeyedHits<Intersection<Hits>>, Either<ScanCandidates, KeyCandidates>>>> as Candidates>⟧.uses source.old) (λ was origin. ⟦<Option<Either<HitCandidates<Intersection<Hits>>, Either<KeyedHits<Intersection<Hits>>, Either<ScanCandidates, KeyCandidates>>>> as Candidates>⟧.prints source.old was origin kind) files maps.now)
        → OnOk result (Since (⟦<Option<Either<HitCandidates<Intersection<Hits>>, Either<KeyedHits<Intersection<Hits>>, Either<ScanCandidates, KeyCandidates>>>> as Candidates>⟧.opens source.new) (⟦<Option<Either<HitCandidates<Intersection<Hits>>, Either<KeyedHits<Intersection<Hits>>, Either<ScanCandidates, KeyCandidates>>>> as Candidates>⟧.uses source.new) (λ was origin. ⟦<Option<Either<HitCandidates<Intersection<Hits>>, Either<KeyedHits<Intersection<Hits>>, Either<ScanCandidates, KeyCandidates>>>> as Candidates>⟧.prints source.new was origin kind) files maps.now) }
    ensures opens { (name : FileName) → ⟦<Option<Either<HitCandidates<Intersection<Hits>>, Either<KeyedHits<Intersection<Hits>>, Either<ScanCandidates, KeyCandidates>>>> as Candidates>⟧.opens source.new name → SourceOr pending.old (λ (p : SpecPending). is_file_of parts.now name ≡ true) (⟦<Option<Either<HitCandidates<Intersection<Hits>>, Either<KeyedHits<Intersection<Hits>>, Either<ScanCandidates, KeyCandidates>>>> as Candidates>⟧.opens source.old name) }
    ensures uses { (number : ℕ) → ⟦<Option<Either<HitCandidates<Intersection<Hits>>, Either<KeyedHits<Intersection<Hits>>, Either<ScanCandidates, KeyCandidates>>>> as Candidates>⟧.uses source.new number → SourceOr pending.old (λ (p : SpecPending). IsOneOf (map_numbers parts.now) number) (⟦<Option<Either<HitCandidates<Intersection<Hits>>, Either<KeyedHits<Intersection<Hits>>, Either<ScanCandidates, KeyCandidates>>>> as Candidates>⟧.uses source.old number) }
    ensures shows { (files : Option Folder) (damage : Damage) → ⟦<Option<Either<HitCandidates<Intersection<Hits>>, Either<KeyedHits<Intersection<Hits>>, Either<ScanCandidates, KeyCandidates>>>> as Candidates>⟧.shows source.new files damage → SourceOr pending.old (λ (p : SpecPending). PendingShows p.types parts.now files damage) (⟦<Option<Either<HitCandidates<Intersection<Hits>>, Either<KeyedHits<Intersection<Hits>>, Either<ScanCandidates, KeyCandidates>>>> as Candidates>⟧.shows source.old files damage) }
{
    let Some(plan) = pending.take() else {
        return Ok(());
    };
    *source = None;
    let begun = begin(alloc, plan, parts, maps)?;
    *source = begun;
    Ok(())
}

// The next candidate of a source of which something was known at an earlier moment.
fn next_since<C: Candidates, H: Host, P: PageReader>(
    source: &mut C,
    host: &mut H,
    pages: &mut P,
    maps: &MapBook,
) -> Result<Option<(Key, Partition)>, ReadFault>
    requires read { CanStream (P.agrees pages.old) (C.opens source.old) (H.view host.old) }
    requires ready { Since (C.opens source.old) (C.uses source.old) (C.ready source.old) (H.view host.old).files maps.now }
    ensures gives { (left : List Candidate) → Since (C.opens source.old) (C.uses source.old) (λ was origin. C.leaves source.old was origin left) (H.view host.old).files maps.now
        → IfOk result (GivesFirst (λ rest. Since (C.opens source.new) (C.uses source.new) (λ was origin. C.leaves source.new was origin rest) (H.view host.new).files maps.now) left) }
    ensures reads { (most : ℕ) (prices : List ℕ) → Since (C.opens source.old) (C.uses source.old) (λ was origin. C.pays source.old was origin most prices) (H.view host.old).files maps.now
        → Spends (λ rest. Since (C.opens source.new) (C.uses source.new) (λ was origin. C.pays source.new was origin rest (drop 1 prices)) (H.view host.new).files maps.now) (most + first_price prices) (H.view host.old).reads (H.view host.new).reads result }
    ensures ready { OnOk result (Since (C.opens source.new) (C.uses source.new) (C.ready source.new) (H.view host.new).files maps.now) }
    ensures uses { (number : ℕ) → C.uses source.new number → C.uses source.old number }
    ensures prints { (kind : ColumnType) → Since (C.opens source.old) (C.uses source.old) (λ was origin. C.prints source.old was origin kind) (H.view host.old).files maps.now → IfOk result (GivesPrintable kind) }
    ensures still_prints { (kind : ColumnType) → Since (C.opens source.old) (C.uses source.old) (λ was origin. C.prints source.old was origin kind) (H.view host.old).files maps.now
        → OnOk result (Since (C.opens source.new) (C.uses source.new) (λ was origin. C.prints source.new was origin kind) (H.view host.new).files maps.now) }
    ensures read { HasStreamed (P.agrees pages.new) (P.covers pages.old) (P.covers pages.new) (C.opens source.old) (C.opens source.new) (H.view host.old) (H.view host.new) }
    ensures faults { StreamFaults (C.shows source.old (H.view host.old).files) (C.shows source.new (H.view host.new).files)
        (λ left. Since (C.opens source.old) (C.uses source.old) (λ was origin. C.leaves source.old was origin left) (H.view host.old).files maps.now) (H.view host.old) (H.view host.new) result }
    ensures shows_less { (files : Option Folder) (damage : Damage) → C.shows source.new files damage → C.shows source.old files damage }
{
    source.next(host, pages, maps)
}

impl Candidates for PlanCandidates {
    ghost use Rattle.std.specs.Prelude.{◌≡◌, List, true};
    ghost use Rattle.sasi_views.specs.declared.part.Part.{Part as ViewPart};
    ghost use Rattle.sasi_recheck.specs.Optional.{SourceOr};
    ghost use Rattle.sasi_sources.specs.KeyCandidates.{HasKeyType};
    ghost use Rattle.sasi_engine.specs.Plans.{is_file_of, map_numbers};
    ghost use Rattle.sasi_sources.specs.Maps.{IsOneOf};
    ghost use Rattle.sasi_scan.specs.Numbered.{views_numbered};
    ghost use Rattle.sasi_plan.specs.declared.plan_candidates.Pending.{Pending as SpecPending};
    ghost use Rattle.sasi_plan.specs.Begun.{Since};
    ghost use Rattle.sasi_plan.specs.Reading.{PendingLeaves, PendingPays, PendingReady, PendingShows};
    ghost use Rattle.sasi_plan.specs.inside.PlanKeeps.{plan_keeps};

    // Before the source was begun it is what is known of the plan and the view, and then what was known of the source, since when
    // nothing that it looks at has changed.
    ghost leaves = { λ s files book left. SourceOr s.pending (λ (p : SpecPending). PendingLeaves p.source p.types s.view files book left) (Since (⟦<Option<Either<HitCandidates<Intersection<Hits>>, Either<KeyedHits<Intersection<Hits>>, Either<ScanCandidates, KeyCandidates>>>> as Candidates>⟧.opens s.source) (⟦<Option<Either<HitCandidates<Intersection<Hits>>, Either<KeyedHits<Intersection<Hits>>, Either<ScanCandidates, KeyCandidates>>>> as Candidates>⟧.uses s.source) (λ was origin. ⟦<Option<Either<HitCandidates<Intersection<Hits>>, Either<KeyedHits<Intersection<Hits>>, Either<ScanCandidates, KeyCandidates>>>> as Candidates>⟧.leaves s.source was origin left) files book) };

    ghost pays = { λ s files book most prices. SourceOr s.pending (λ (p : SpecPending). PendingPays p.source p.types s.view files book most prices) (Since (⟦<Option<Either<HitCandidates<Intersection<Hits>>, Either<KeyedHits<Intersection<Hits>>, Either<ScanCandidates, KeyCandidates>>>> as Candidates>⟧.opens s.source) (⟦<Option<Either<HitCandidates<Intersection<Hits>>, Either<KeyedHits<Intersection<Hits>>, Either<ScanCandidates, KeyCandidates>>>> as Candidates>⟧.uses s.source) (λ was origin. ⟦<Option<Either<HitCandidates<Intersection<Hits>>, Either<KeyedHits<Intersection<Hits>>, Either<ScanCandidates, KeyCandidates>>>> as Candidates>⟧.pays s.source was origin most prices) files book) };

    ghost opens = { λ s name. SourceOr s.pending (λ (p : SpecPending). is_file_of s.view name ≡ true) (⟦<Option<Either<HitCandidates<Intersection<Hits>>, Either<KeyedHits<Intersection<Hits>>, Either<ScanCandidates, KeyCandidates>>>> as Candidates>⟧.opens s.source name) };

    ghost uses = { λ s number. SourceOr s.pending (λ (p : SpecPending). IsOneOf (map_numbers s.view) number) (⟦<Option<Either<HitCandidates<Intersection<Hits>>, Either<KeyedHits<Intersection<Hits>>, Either<ScanCandidates, KeyCandidates>>>> as Candidates>⟧.uses s.source number) };

    ghost ready = { λ s files book. SourceOr s.pending (λ (p : SpecPending). PendingReady p.source s.view book) (Since (⟦<Option<Either<HitCandidates<Intersection<Hits>>, Either<KeyedHits<Intersection<Hits>>, Either<ScanCandidates, KeyCandidates>>>> as Candidates>⟧.opens s.source) (⟦<Option<Either<HitCandidates<Intersection<Hits>>, Either<KeyedHits<Intersection<Hits>>, Either<ScanCandidates, KeyCandidates>>>> as Candidates>⟧.uses s.source) (λ was origin. ⟦<Option<Either<HitCandidates<Intersection<Hits>>, Either<KeyedHits<Intersection<Hits>>, Either<ScanCandidates, KeyCandidates>>>> as Candidates>⟧.ready s.source was origin) files book) };

    ghost shows = { λ s files damage. SourceOr s.pending (λ (p : SpecPending). PendingShows p.types s.view files damage) (⟦<Option<Either<HitCandidates<Intersection<Hits>>, Either<KeyedHits<Intersection<Hits>>, Either<ScanCandidates, KeyCandidates>>>> as Candidates>⟧.shows s.source files damage) };

    ghost prints = { λ s files book kind. SourceOr s.pending (λ (p : SpecPending). HasKeyType p.types (views_numbered book (map_numbers s.view)) kind) (Since (⟦<Option<Either<HitCandidates<Intersection<Hits>>, Either<KeyedHits<Intersection<Hits>>, Either<ScanCandidates, KeyCandidates>>>> as Candidates>⟧.opens s.source) (⟦<Option<Either<HitCandidates<Intersection<Hits>>, Either<KeyedHits<Intersection<Hits>>, Either<ScanCandidates, KeyCandidates>>>> as Candidates>⟧.uses s.source) (λ was origin. ⟦<Option<Either<HitCandidates<Intersection<Hits>>, Either<KeyedHits<Intersection<Hits>>, Either<ScanCandidates, KeyCandidates>>>> as Candidates>⟧.prints s.source was origin kind) files book) };

    ghost Kept = { List ViewPart };

    ghost kept = { λ s. s.view };

    ghost keeps = { λ s old new was now told same maps. plan_keeps s.pending s.view (⟦<Option<Either<HitCandidates<Intersection<Hits>>, Either<KeyedHits<Intersection<Hits>>, Either<ScanCandidates, KeyCandidates>>>> as Candidates>⟧.opens s.source) (⟦<Option<Either<HitCandidates<Intersection<Hits>>, Either<KeyedHits<Intersection<Hits>>, Either<ScanCandidates, KeyCandidates>>>> as Candidates>⟧.uses s.source) (⟦<Option<Either<HitCandidates<Intersection<Hits>>, Either<KeyedHits<Intersection<Hits>>, Either<ScanCandidates, KeyCandidates>>>> as Candidates>⟧.ready s.source) (⟦<Option<Either<HitCandidates<Intersection<Hits>>, Either<KeyedHits<Intersection<Hits>>, Either<ScanCandidates, KeyCandidates>>>> as Candidates>⟧.leaves s.source) (⟦<Option<Either<HitCandidates<Intersection<Hits>>, Either<KeyedHits<Intersection<Hits>>, Either<ScanCandidates, KeyCandidates>>>> as Candidates>⟧.pays s.source) (⟦<Option<Either<HitCandidates<Intersection<Hits>>, Either<KeyedHits<Intersection<Hits>>, Either<ScanCandidates, KeyCandidates>>>> as Candidates>⟧.prints s.source) old new was now told same maps };

    fn next<H: Host, P: PageReader>(
        &mut self,
        host: &mut H,
        pages: &mut P,
        maps: &MapBook,
    ) -> Result<Option<(Key, Partition)>, ReadFault> {
        let parts = self.view.parts().as_slice();
        begin_pending(self.alloc, &mut self.pending, &mut self.source, parts, maps)?;
        next_since(&mut self.source, host, pages, maps)
    }
}
