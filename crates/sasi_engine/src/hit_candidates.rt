// The candidates that hits give.
ghost use Rattle.std.specs.Prelude.{◌≡◌, ◌≤◌, [], ℕ, List, Option, None, Some, true, length, map, IfOk};
ghost use Rattle.std.specs.List.{AllByRecursion, sum_by};
ghost use Rattle.sasi_types.specs.declared.column.ColumnType.{ColumnType};
ghost use Rattle.sasi_host.specs.declared.damage.Damage.{Damage};
ghost use Rattle.sasi_host.specs.declared.name.FileName.{FileName};
ghost use Rattle.sasi_host.specs.Names.{Folder};
ghost use Rattle.sasi_memindex.specs.Book.{Book};
ghost use Rattle.sasi_candidates.specs.Candidates.{candidates};
ghost use Rattle.sasi_candidates.specs.Costs.{file_cost, files_of};
ghost use Rattle.sasi_model.specs.Filters.{where_of};
ghost use Rattle.sasi_sources.specs.KeyCandidates.{HasKeyType};
ghost use Rattle.sasi_engine.specs.HitCandidates.{IsLeft, IsMadeOf, IsOwing, IsWorld, PlanWorld, looked_groups, prices_from};
ghost use Rattle.sasi_engine.specs.Plans.{AreShort, IsCandidateDamage, file_numbers, is_file_of, map_numbers};
ghost use Rattle.sasi_sources.specs.Maps.{IsOneOf};
ghost use Rattle.sasi_engine.specs.Findable.{CanFind, HasWords};
ghost use Rattle.sasi_scan.specs.Numbered.{views_numbered};
ghost use Rattle.sasi_engine.specs.inside.Steps.{IsHandReady, SourceOpens, SourceShows};

use crate::IndexedRelation;
use crate::hand::Hand;
use crate::plan::plan_streams;
use crate::step::next_candidate;
use sasi_cells::Partition;
use sasi_hits::Hits;
use sasi_host::{DataNumber, Host, PageReader, ReadFault};
use sasi_lookup::Lookup;
use sasi_memindex::MapBook;
use sasi_ranges::{Entry, Intersection, TokenStream};
use sasi_recheck::Candidates;
use sasi_types::{Key, TypeList};
use sasi_views::Part;
use std::alloc::{AllocError, Global};

/// The candidates that the hits of indexed relations leave, token by token. For each token it reads the keys that each data file has
/// with it, and of each key that all relations leave it merges what the parts have.
#[derive(Drop)]
pub struct HitCandidates<S> {
    // What all relations have a hit of.
    hits: S,
    // The first entry of the next token, where it was read.
    ahead: Option<Entry>,
    hand: Hand,
}

// The numbers of the data files.
fn file_numbers(alloc: Global, parts: &[Part]) -> Result<Vec<DataNumber>, AllocError>
    ensures { IfOk result (λ numbers. numbers.items ≡ file_numbers parts.now) }
{
    let mut numbers = Vec::new(alloc);
    for part in parts {
        if let Part::File { number, .. } = part {
            numbers.push(*number)?;
        }
    }
    Ok(numbers)
}

/// The numbers of the maps of a view, in its order.
pub fn map_numbers(alloc: Global, parts: &[Part]) -> Result<Vec<u64>, AllocError>
    ensures { IfOk result (λ numbers. numbers.items ≡ map_numbers parts.now) }
{
    let mut numbers = Vec::new(alloc);
    for part in parts {
        if let Part::Map(number) = part {
            numbers.push(*number)?;
        }
    }
    Ok(numbers)
}

// The hits that all relations have, with a hand that has no keys yet.
pub(crate) fn begin(
    alloc: Global,
    relations: &[IndexedRelation],
    parts: &[Part],
    types: TypeList,
    maps: &MapBook,
) -> Result<(Intersection<Hits>, Hand), AllocError>
    requires some { 1 ≤ length relations.now }
    requires words { AllByRecursion HasWords relations.now }
    requires maps { AllByRecursion (CanFind maps.now relations.now) parts.now }
    ensures leaves { (w : PlanWorld) → IsWorld w maps.now → IsMadeOf w types relations.now parts.now
        → IfOk result (λ made. IsLeft w (Some w.folder) maps.now (⟦<Intersection<Hits> as TokenStream>⟧.leaves made.0 (Some w.folder)) None made.1 (candidates w.parts (where_of w.conditions))) }
    ensures pays { (w : PlanWorld) → IsWorld w maps.now → IsMadeOf w types relations.now parts.now → AreShort w.folder parts.now
        → IfOk result (λ made. IsOwing w (Some w.folder) maps.now (⟦<Intersection<Hits> as TokenStream>⟧.leaves made.0 (Some w.folder)) (⟦<Intersection<Hits> as TokenStream>⟧.pays made.0 (Some w.folder)) None made.1
        (sum_by (file_cost w.partitioner w.conditions) (files_of w.parts)) 0 (prices_from w 0 (looked_groups w))) }
    ensures none { IfOk result (λ made. made.1.keys.items ≡ []) }
    ensures hits_ready { IfOk result (λ made. (files : Option Folder) → ⟦<Intersection<Hits> as TokenStream>⟧.ready made.0 files) }
    ensures ready { IfOk result (λ made. (files : Option Folder) → IsHandReady made.1 files) }
    ensures opens { IfOk result (λ made. (name : FileName) → SourceOpens (⟦<Intersection<Hits> as TokenStream>⟧.opens made.0) made.1 name → is_file_of parts.now name ≡ true) }
    ensures uses { IfOk result (λ made. (number : ℕ) → IsOneOf made.1.maps.items number → IsOneOf (map_numbers parts.now) number) }
    ensures shows { IfOk result (λ made. (files : Option Folder) (damage : Damage) → SourceShows (⟦<Intersection<Hits> as TokenStream>⟧.shows made.0 files) made.1 files damage → IsCandidateDamage parts.now types files damage) }
    ensures prints { (files : Option Folder) (book : Book) (kind : ColumnType) → HasKeyType types (views_numbered book (map_numbers parts.now)) kind → IfOk result (λ made. HasKeyType made.1.lookup.types (views_numbered book made.1.maps.items) kind) }
{
    let plan = plan_streams(alloc, relations, parts, &types, maps)?;
    let hits = Intersection::serving(plan.streams, plan.relations)?;
    let numbers = file_numbers(alloc, parts)?;
    let lookup = Lookup::new(alloc, &numbers, types)?;
    let maps = map_numbers(alloc, parts)?;
    let hand = Hand {
        alloc,
        relations: relations.len(),
        parts: plan.parts,
        maps,
        lookup,
        token: 0,
        keys: Vec::new(alloc),
    };
    Ok((hits, hand))
}

impl HitCandidates<Intersection<Hits>> {
    /// The candidates of some relations on indexed columns in the parts of a view, whose tables' columns have these types. A relation has
    /// a word at least, and each map of the view is in the book, with the relations' indexes. It reads nothing yet.
    pub fn new(
        alloc: Global,
        relations: &[IndexedRelation],
        parts: &[Part],
        types: TypeList,
        maps: &MapBook,
    ) -> Result<HitCandidates<Intersection<Hits>>, AllocError>
        requires some { 1 ≤ length relations.now }
        requires words { AllByRecursion HasWords relations.now }
        requires maps { AllByRecursion (CanFind maps.now relations.now) parts.now }

        // They are the candidates of the conditions. It takes at most what the conditions may cost in the files, and beside it what the
        // tokens cost that are looked at.
        ensures leaves { (w : PlanWorld) → IsWorld w maps.now → IsMadeOf w types relations.now parts.now → IfOk result (λ made. ⟦<HitCandidates<Intersection<Hits>> as Candidates>⟧.leaves made (Some w.folder) maps.now (candidates w.parts (where_of w.conditions))) }
        ensures pays { (w : PlanWorld) → IsWorld w maps.now → IsMadeOf w types relations.now parts.now → AreShort w.folder parts.now
            → IfOk result (λ made. ⟦<HitCandidates<Intersection<Hits>> as Candidates>⟧.pays made (Some w.folder) maps.now (sum_by (file_cost w.partitioner w.conditions) (files_of w.parts)) (prices_from w 0 (looked_groups w))) }

        // In every folder it can be asked. It reads no files but those of the parts, and looks at no maps but theirs.
        ensures ready { IfOk result (λ made. (files : Option Folder) (book : Book) → ⟦<HitCandidates<Intersection<Hits>> as Candidates>⟧.ready made files book) }
        ensures opens { IfOk result (λ made. (name : FileName) → ⟦<HitCandidates<Intersection<Hits>> as Candidates>⟧.opens made name → is_file_of parts.now name ≡ true) }
        ensures uses { IfOk result (λ made. (number : ℕ) → ⟦<HitCandidates<Intersection<Hits>> as Candidates>⟧.uses made number → IsOneOf (map_numbers parts.now) number) }
        ensures shows { IfOk result (λ made. (files : Option Folder) (damage : Damage) → ⟦<HitCandidates<Intersection<Hits>> as Candidates>⟧.shows made files damage → IsCandidateDamage parts.now types files damage) }
        ensures prints { (files : Option Folder) (book : Book) (kind : ColumnType) → HasKeyType types (views_numbered book (map_numbers parts.now)) kind → IfOk result (λ made. ⟦<HitCandidates<Intersection<Hits>> as Candidates>⟧.prints made files book kind) }
    {
        let (hits, hand) = begin(alloc, relations, parts, types, maps)?;
        Ok(HitCandidates {
            hits,
            ahead: None,
            hand,
        })
    }
}

impl<S: TokenStream> Candidates for HitCandidates<S> {
    ghost use Rattle.std.specs.Prelude.{ℕ, List, Option};
    ghost use Rattle.std.proofs.Common.{inl, inr};
    ghost use Rattle.sasi_host.specs.Names.{Folder};
    ghost use Rattle.sasi_ranges.specs.declared.entry.Entry.{Entry as SpecEntry};
    ghost use Rattle.sasi_sources.specs.KeyCandidates.{HasKeyType};
    ghost use Rattle.sasi_sources.specs.Maps.{IsOneOf};
    ghost use Rattle.sasi_engine.specs.inside.Steps.{IsHandReady, SourceLeaves, SourceOpens, SourceOwes, SourceShows};
    ghost use Rattle.sasi_scan.specs.Numbered.{views_numbered};
    ghost use Rattle.sasi_engine.specs.inside.SourceLaws.{source_keeps};

    ghost leaves = { λ s files book left. SourceLeaves (S.leaves s.hits files) s.ahead s.hand files book left };

    ghost pays = { λ s files book most prices. SourceOwes (S.leaves s.hits files) (S.pays s.hits files) s.ahead s.hand files book most 0 prices };

    ghost opens = { λ s name. SourceOpens (S.opens s.hits) s.hand name };

    ghost uses = { λ s number. IsOneOf s.hand.maps.items number };

    ghost ready = { λ s files book. S.ready s.hits files × IsHandReady s.hand files };

    ghost shows = { λ s files damage. SourceShows (S.shows s.hits files) s.hand files damage };

    ghost prints = { λ s files book kind. HasKeyType s.hand.lookup.types (views_numbered book s.hand.maps.items) kind };

    ghost kept = { λ _. tt };

    ghost keeps = { λ s old new was now told same maps.
        let kept = S.keeps s.hits old new told (λ name opens. same name (inl opens)) in
        source_keeps (S.leaves s.hits) (S.pays s.hits) s.ahead s.hand old new was now (λ name opens. same name (inr opens)) maps kept.1 kept.2 (S.ready s.hits) kept.0 };

    fn next<H: Host, P: PageReader>(
        &mut self,
        host: &mut H,
        pages: &mut P,
        maps: &MapBook,
    ) -> Result<Option<(Key, Partition)>, ReadFault> {
        next_candidate(
            host,
            pages,
            maps,
            &mut self.hits,
            &mut self.ahead,
            &mut self.hand,
        )
    }
}
