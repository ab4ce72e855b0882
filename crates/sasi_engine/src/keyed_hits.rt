// The candidate of a key that hits leave, too.
ghost use Rattle.std.specs.Prelude.{◌≡◌, ◌+◌, ◌≤◌, ◌∷◌, [], ℕ, List, Option, Some, true, length, IfOk};
ghost use Rattle.std.specs.List.{AllByRecursion, list_any, sum_by};
ghost use Rattle.sasi_types.specs.declared.column.ColumnType.{ColumnType};
ghost use Rattle.sasi_host.specs.declared.damage.Damage.{Damage};
ghost use Rattle.sasi_host.specs.declared.name.FileName.{FileName};
ghost use Rattle.sasi_host.specs.Names.{Folder};
ghost use Rattle.sasi_model.specs.Tokens.{same};
ghost use Rattle.sasi_memindex.specs.Book.{Book};
ghost use Rattle.sasi_ranges.specs.declared.entry.Entry.{Entry as SpecEntry};
ghost use Rattle.sasi_ranges.specs.StreamCalls.{CanStream, HasStreamed, StreamFaults};
ghost use Rattle.sasi_candidates.specs.Candidates.{candidates};
ghost use Rattle.sasi_candidates.specs.Costs.{file_cost, files_of, token_cost};
ghost use Rattle.sasi_model.specs.Filters.{where_of};
ghost use Rattle.sasi_lookup.specs.Reads.{found_pages};
ghost use Rattle.sasi_recheck.specs.Sources.{Candidate, GivesFirst, GivesPrintable, first_price};
ghost use Rattle.sasi_sources.specs.KeyCandidates.{HasKeyType};
ghost use Rattle.sasi_engine.specs.Findable.{CanFind, HasWords};
ghost use Rattle.sasi_engine.specs.HitCandidates.{IsMadeOf, PlanWorld};
ghost use Rattle.sasi_engine.specs.KeyedHits.{IsKeyedWorld};
ghost use Rattle.sasi_engine.specs.Plans.{AreShort, IsCandidateDamage, is_file_of, map_numbers};
ghost use Rattle.sasi_sources.specs.Maps.{IsOneOf};
ghost use Rattle.sasi_engine.specs.TokenHits.{AreSmall, contents_in_files};
ghost use Rattle.sasi_scan.specs.Numbered.{views_numbered};
ghost use Rattle.sasi_engine.specs.TokenTurns.{with_token};
ghost use Rattle.sasi_engine.specs.inside.KeyedSteps.{IsKeyLeft, IsKeyTurned, KeyLeaves, KeyOwes, begin_with};
ghost use Rattle.sasi_engine.specs.inside.Steps.{IsHandReady, IsSameHand, SourceOpens, SourceShows};

use crate::IndexedRelation;
use crate::hand::{Hand, turn_hand};
use crate::hit_candidates::begin;
use crate::part_finds::find_in_parts;
use crate::token_entries::next_token;
use sasi_cells::Partition;
use sasi_hits::Hits;
use sasi_host::{Host, PageReader, ReadFault};
use sasi_memindex::MapBook;
use sasi_ranges::{Entry, Intersection, TokenStream};
use sasi_recheck::Candidates;
use sasi_types::{DecoratedKey, Key, Token, TypeList};
use sasi_views::Part;
use std::alloc::{AllocError, Global};

/// The one key that a WHERE asks for, where its relations on indexed columns leave it, too. It looks at no other token than the key's.
#[derive(Drop)]
pub struct KeyedHits<S> {
    // What all relations have a hit of.
    hits: S,
    hand: Hand,
    // None once it was looked up.
    key: Option<DecoratedKey>,
}

impl KeyedHits<Intersection<Hits>> {
    /// This key, with some relations on indexed columns in the parts of a view, whose tables' columns have these types. A relation has a
    /// word at least, and each map of the view is in the book, with the relations' indexes. It reads nothing yet.
    pub fn new(
        alloc: Global,
        relations: &[IndexedRelation],
        parts: &[Part],
        types: TypeList,
        maps: &MapBook,
        key: DecoratedKey,
    ) -> Result<KeyedHits<Intersection<Hits>>, AllocError>
        requires some { 1 ≤ length relations.now }
        requires words { AllByRecursion HasWords relations.now }
        requires maps { AllByRecursion (CanFind maps.now relations.now) parts.now }

        // It is the candidate of the conditions, if there is one. It takes at most what the conditions may cost in the files, and one look at
        // the key's token.
        ensures leaves { (w : PlanWorld) → IsKeyedWorld w key maps.now → IsMadeOf w types relations.now parts.now → IfOk result (λ made. ⟦<KeyedHits<Intersection<Hits>> as Candidates>⟧.leaves made (Some w.folder) maps.now (candidates w.parts (where_of w.conditions))) }
        ensures pays { (w : PlanWorld) → IsKeyedWorld w key maps.now → IsMadeOf w types relations.now parts.now → AreShort w.folder parts.now
            → IfOk result (λ made. ⟦<KeyedHits<Intersection<Hits>> as Candidates>⟧.pays made (Some w.folder) maps.now (sum_by (file_cost w.partitioner w.conditions) (files_of w.parts)) (token_cost w.partitioner w.parts key.token ∷ [])) }

        // In every folder it can be asked. It reads no files but those of the parts, and looks at no maps but theirs.
        ensures ready { IfOk result (λ made. (files : Option Folder) (book : Book) → ⟦<KeyedHits<Intersection<Hits>> as Candidates>⟧.ready made files book) }
        ensures opens { IfOk result (λ made. (name : FileName) → ⟦<KeyedHits<Intersection<Hits>> as Candidates>⟧.opens made name → is_file_of parts.now name ≡ true) }
        ensures uses { IfOk result (λ made. (number : ℕ) → ⟦<KeyedHits<Intersection<Hits>> as Candidates>⟧.uses made number → IsOneOf (map_numbers parts.now) number) }
        ensures shows { IfOk result (λ made. (files : Option Folder) (damage : Damage) → ⟦<KeyedHits<Intersection<Hits>> as Candidates>⟧.shows made files damage → IsCandidateDamage parts.now types files damage) }
        ensures prints { (files : Option Folder) (book : Book) (kind : ColumnType) → HasKeyType types (views_numbered book (map_numbers parts.now)) kind → IfOk result (λ made. ⟦<KeyedHits<Intersection<Hits>> as Candidates>⟧.prints made files book kind) }
    {
        let (hits, hand) = begin(alloc, relations, parts, types, maps)?;
        Ok(KeyedHits {
            hits,
            hand,
            key: Some(key),
        })
    }
}

// The entries of a stream that have the token. The one behind them is read, too, and then no other.
fn entries_with<S: TokenStream, H: Host, P: PageReader>(
    alloc: Global,
    host: &mut H,
    pages: &mut P,
    hits: &mut S,
    token: Token,
) -> Result<Vec<Entry>, ReadFault>
    requires read { CanStream (P.agrees pages.old) (S.opens hits.old) (H.view host.old) }
    requires ready { S.ready hits.old (H.view host.old).files }
    ensures takes { (es : List SpecEntry) → S.leaves hits.old (H.view host.old).files es → IfOk result (λ entries. entries.items ≡ with_token token es) }
    ensures reads { (most : ℕ) → S.pays hits.old (H.view host.old).files most → (H.view host.new).reads ≤ (H.view host.old).reads + most }
    ensures read { HasStreamed (P.agrees pages.new) (P.covers pages.old) (P.covers pages.new) (S.opens hits.old) (S.opens hits.new) (H.view host.old) (H.view host.new) }
    ensures faults { StreamFaults (S.shows hits.old (H.view host.old).files) (S.shows hits.new (H.view host.new).files) (S.leaves hits.old (H.view host.old).files) (H.view host.old) (H.view host.new) result }
{
    hits.skip_to(host, pages, token)?;
    let mut ahead = None;
    let entries = next_token(alloc, host, pages, hits, &mut ahead)?;
    if begin_with(&entries, token) {
        return Ok(entries);
    }
    Ok(Vec::new(alloc))
}

// Whether the first entry has the token.
fn begin_with(entries: &[Entry], token: Token) -> bool
    ensures { result ≡ begin_with token entries.now }
{
    match entries.first() {
        Some(first) => first.token == token,
        None => false,
    }
}

// Whether the key is one of these.
fn has_key(keys: &[Key], key: &Key) -> bool
    ensures { result ≡ list_any (same key.now) keys.now }
{
    for other in keys {
        if key == other {
            return true;
        }
    }
    false
}

// Whether the hits leave the key. It takes the keys of its token in hand, and looks at no other token.
fn turn_to_key<S: TokenStream, H: Host, P: PageReader>(
    host: &mut H,
    pages: &mut P,
    hits: &mut S,
    hand: &mut Hand,
    key: &DecoratedKey,
) -> Result<bool, ReadFault>
    requires read { CanStream (P.agrees pages.old) (SourceOpens (S.opens hits.old) hand.old) (H.view host.old) }
    requires hits_ready { S.ready hits.old (H.view host.old).files }
    requires ready { IsHandReady hand.old (H.view host.old).files }
    ensures turned { (w : PlanWorld) (book : Book) (left : List Candidate) → IsKeyLeft w (H.view host.old).files book (S.leaves hits.old (H.view host.old).files) hand.old key.now left
        → IfOk result (IsKeyTurned w (H.view host.old).files book hand.new key.now left) }
    // What the look-up of the key then takes is paid, too.
    ensures reads { (w : PlanWorld) (book : Book) (left : List Candidate) (most : ℕ) → IsKeyLeft w (H.view host.old).files book (S.leaves hits.old (H.view host.old).files) hand.old key.now left → AreSmall w.parts → S.pays hits.old (H.view host.old).files most
        → (H.view host.new).reads + found_pages key.now.key (contents_in_files w.parts) ≤ (H.view host.old).reads + (most + token_cost w.partitioner w.parts key.now.token) }
    ensures ready { IsHandReady hand.new (H.view host.new).files }
    ensures same { IsSameHand hand.old hand.new }
    ensures read { HasStreamed (P.agrees pages.new) (P.covers pages.old) (P.covers pages.new) (SourceOpens (S.opens hits.old) hand.old) (SourceOpens (S.opens hits.new) hand.new) (H.view host.old) (H.view host.new) }
    ensures faults { (book : Book) → StreamFaults (SourceShows (S.shows hits.old (H.view host.old).files) hand.old (H.view host.old).files) (SourceShows (S.shows hits.new (H.view host.new).files) hand.new (H.view host.new).files)
        (KeyLeaves (S.leaves hits.old (H.view host.old).files) hand.old (Some key.now) (H.view host.old).files book) (H.view host.old) (H.view host.new) result }
{
    let entries = entries_with(hand.alloc, host, pages, hits, key.token)?;
    if entries.as_slice().is_empty() {
        return Ok(false);
    }
    turn_hand(host, pages, hand, key.token, &entries)?;
    Ok(has_key(&hand.keys, &key.key))
}

// The key with what all parts have of it, if the hits leave it, too.
fn find_candidate<S: TokenStream, H: Host, P: PageReader>(
    host: &mut H,
    pages: &mut P,
    maps: &MapBook,
    hits: &mut S,
    hand: &mut Hand,
    key: DecoratedKey,
) -> Result<Option<(Key, Partition)>, ReadFault>
    requires read { CanStream (P.agrees pages.old) (SourceOpens (S.opens hits.old) hand.old) (H.view host.old) }
    requires hits_ready { S.ready hits.old (H.view host.old).files }
    requires ready { IsHandReady hand.old (H.view host.old).files }
    ensures gives { (left : List Candidate) → KeyLeaves (S.leaves hits.old (H.view host.old).files) hand.old (Some key) (H.view host.old).files maps.now left → IfOk result (GivesFirst (λ rest. rest ≡ []) left) }
    ensures reads { (most : ℕ) (prices : List ℕ) → KeyOwes (S.leaves hits.old (H.view host.old).files) (S.pays hits.old (H.view host.old).files) hand.old (Some key) (H.view host.old).files maps.now most prices
        → (H.view host.new).reads ≤ (H.view host.old).reads + (most + first_price prices) }
    ensures prints { (kind : ColumnType) → HasKeyType hand.old.lookup.types (views_numbered maps.now hand.old.maps.items) kind → IfOk result (GivesPrintable kind) }
    ensures read { HasStreamed (P.agrees pages.new) (P.covers pages.old) (P.covers pages.new) (SourceOpens (S.opens hits.old) hand.old) (SourceOpens (S.opens hits.new) hand.new) (H.view host.old) (H.view host.new) }
    ensures faults { StreamFaults (SourceShows (S.shows hits.old (H.view host.old).files) hand.old (H.view host.old).files) (SourceShows (S.shows hits.new (H.view host.new).files) hand.new (H.view host.new).files)
        (KeyLeaves (S.leaves hits.old (H.view host.old).files) hand.old (Some key) (H.view host.old).files maps.now) (H.view host.old) (H.view host.new) result }
{
    if !turn_to_key(host, pages, hits, hand, &key)? {
        return Ok(None);
    }
    let found = find_in_parts(
        hand.alloc,
        host,
        pages,
        maps,
        &hand.lookup,
        &hand.maps,
        &key,
    )?;
    match found {
        Some(part) => Ok(Some((key.key, part))),
        None => Ok(None),
    }
}

impl<S: TokenStream> Candidates for KeyedHits<S> {
    ghost use Rattle.std.specs.Prelude.{ℕ, List, Option, IfSome};
    ghost use Rattle.std.specs.Option.{IsSomeAnd};
    ghost use Rattle.sasi_host.specs.Names.{Folder};
    ghost use Rattle.sasi_sources.specs.KeyCandidates.{HasKeyType};
    ghost use Rattle.sasi_sources.specs.Maps.{IsOneOf};
    ghost use Rattle.sasi_scan.specs.Numbered.{views_numbered};
    ghost use Rattle.sasi_engine.specs.inside.KeyedSteps.{KeyLeaves, KeyOwes};
    ghost use Rattle.sasi_engine.specs.inside.SourceLaws.{keyed_keeps};
    ghost use Rattle.sasi_engine.specs.inside.Steps.{IsHandReady, SourceOpens, SourceShows};

    ghost leaves = { λ s files book left. KeyLeaves (S.leaves s.hits files) s.hand s.key files book left };

    ghost pays = { λ s files book most prices. KeyOwes (S.leaves s.hits files) (S.pays s.hits files) s.hand s.key files book most prices };

    ghost opens = { λ s name. IsSomeAnd s.key (λ key. SourceOpens (S.opens s.hits) s.hand name) };

    ghost uses = { λ s number. IsSomeAnd s.key (λ key. IsOneOf s.hand.maps.items number) };

    ghost ready = { λ s files book. IfSome s.key (λ key. S.ready s.hits files × IsHandReady s.hand files) };

    ghost shows = { λ s files damage. IsSomeAnd s.key (λ key. SourceShows (S.shows s.hits files) s.hand files damage) };

    ghost prints = { λ s files book kind. IfSome s.key (λ key. HasKeyType s.hand.lookup.types (views_numbered book s.hand.maps.items) kind) };

    ghost kept = { λ _. tt };

    ghost keeps = { λ s old new was now told same maps.
        keyed_keeps (S.leaves s.hits) (S.pays s.hits) (S.opens s.hits) (S.ready s.hits) s.hand s.key old new was now same maps (λ opened. S.keeps s.hits old new told opened) };

    fn next<H: Host, P: PageReader>(
        &mut self,
        host: &mut H,
        pages: &mut P,
        maps: &MapBook,
    ) -> Result<Option<(Key, Partition)>, ReadFault> {
        let Some(key) = self.key.take() else {
            return Ok(None);
        };
        find_candidate(host, pages, maps, &mut self.hits, &mut self.hand, key)
    }
}
