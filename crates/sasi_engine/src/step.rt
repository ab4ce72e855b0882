// Steps of the candidates that hits give.
ghost use Rattle.std.specs.Prelude.{◌≡◌, ◌+◌, ◌++◌, ◌≤◌, ℕ, List, [], None, Option, IfOk, OnOk, drop};
ghost use Rattle.sasi_types.specs.declared.column.ColumnType.{ColumnType};
ghost use Rattle.sasi_types.specs.declared.partitioner.Partitioner.{Partitioner};
ghost use Rattle.sasi_types.specs.Token.{token_of};
ghost use Rattle.sasi_host.specs.declared.damage.Damage.{Damage};
ghost use Rattle.sasi_host.specs.Names.{Folder};
ghost use Rattle.sasi_datawrite.specs.Format.{Content};
ghost use Rattle.sasi_ranges.specs.StreamCalls.{CanStream, HasStreamed, Spends, StreamFaults};
ghost use Rattle.sasi_scan.specs.Finding.{file_maps, found_in};
ghost use Rattle.sasi_lookup.specs.Lookups.{HasKeysOf, IsLookingIn, IsReady, IsTurned, Opens, Shows};
ghost use Rattle.sasi_lookup.specs.Reads.{found_pages};
ghost use Rattle.sasi_recheck.specs.Sources.{Candidate, GivesFirst, GivesPrintable, first_price};
ghost use Rattle.sasi_sources.specs.KeyCandidates.{HasKeyType};
ghost use Rattle.sasi_engine.specs.TokenHits.{maps_numbered};
ghost use Rattle.sasi_engine.specs.inside.Steps.{IsHandReady, IsSameHand, SourceLeaves, SourceOpens, SourceOwes, SourceShows, StepGives, StepPrintable, StepSpends, first_token, step_of};
ghost use Rattle.sasi_scan.specs.Numbered.{views_numbered};

use crate::hand::{Hand, turn_hand};
use crate::part_finds::find_in_parts;
use crate::token_entries::next_token;
use sasi_cells::Partition;
use sasi_host::{Host, PageReader, ReadFault};
use sasi_memindex::MapBook;
use sasi_ranges::{Entry, TokenStream};
use sasi_types::{DecoratedKey, Key, Token};

// What a step comes to.
#[derive(Drop)]
pub(crate) enum Outcome {
    // No token is left.
    Ended,
    // Another token is in hand, or a key was passed over that no part has.
    Passed,
    // A candidate.
    Found(Key, Partition),
}

// The token of the first entry.
fn first_token(entries: &[Entry]) -> Option<Token>
    ensures { result ≡ first_token entries.now }
{
    match entries.first() {
        Some(first) => Some(first.token),
        None => None,
    }
}

// Takes the keys of the next token.
fn turn<S: TokenStream, H: Host, P: PageReader>(
    host: &mut H,
    pages: &mut P,
    maps: &MapBook,
    hits: &mut S,
    ahead: &mut Option<Entry>,
    hand: &mut Hand,
) -> Result<Outcome, ReadFault>
    requires read { CanStream (P.agrees pages.old) (SourceOpens (S.opens hits.old) hand.old) (H.view host.old) }
    requires hits_ready { S.ready hits.old (H.view host.old).files }
    requires ready { IsHandReady hand.old (H.view host.old).files }
    requires none { hand.old.keys.items ≡ [] }
    ensures gives { (left : List Candidate) → SourceLeaves (S.leaves hits.old (H.view host.old).files) ahead.old hand.old (H.view host.old).files maps.now left
        → IfOk result (StepGives (SourceLeaves (S.leaves hits.new (H.view host.new).files) ahead.new hand.new (H.view host.new).files maps.now) left) }
    ensures reads { (most owed : ℕ) (prices : List ℕ) → SourceOwes (S.leaves hits.old (H.view host.old).files) (S.pays hits.old (H.view host.old).files) ahead.old hand.old (H.view host.old).files maps.now most owed prices
        → StepSpends (SourceOwes (S.leaves hits.new (H.view host.new).files) (S.pays hits.new (H.view host.new).files) ahead.new hand.new (H.view host.new).files maps.now) most owed prices (H.view host.old).reads (H.view host.new).reads result }
    ensures hits_ready { OnOk result (S.ready hits.new (H.view host.new).files) }
    ensures ready { IsHandReady hand.new (H.view host.new).files }
    ensures same { IsSameHand hand.old hand.new }
    ensures prints { (kind : ColumnType) → IfOk result (StepPrintable kind) }
    ensures read { HasStreamed (P.agrees pages.new) (P.covers pages.old) (P.covers pages.new) (SourceOpens (S.opens hits.old) hand.old) (SourceOpens (S.opens hits.new) hand.new) (H.view host.old) (H.view host.new) }
    ensures faults { StreamFaults (SourceShows (S.shows hits.old (H.view host.old).files) hand.old (H.view host.old).files) (SourceShows (S.shows hits.new (H.view host.new).files) hand.new (H.view host.new).files)
        (SourceLeaves (S.leaves hits.old (H.view host.old).files) ahead.old hand.old (H.view host.old).files maps.now) (H.view host.old) (H.view host.new) result }
    ensures hits_show_less { (files : Option Folder) (damage : Damage) → S.shows hits.new files damage → S.shows hits.old files damage }
{
    let _ = &maps;
    let entries = next_token(hand.alloc, host, pages, hits, ahead)?;
    let Some(token) = first_token(&entries) else {
        return Ok(Outcome::Ended);
    };
    turn_hand(host, pages, hand, token, &entries)?;
    Ok(Outcome::Passed)
}

// Looks up a key of the token in hand.
fn look_up<H: Host, P: PageReader>(
    host: &mut H,
    pages: &mut P,
    maps: &MapBook,
    hand: &Hand,
    key: Key,
) -> Result<Outcome, ReadFault>
    requires read { CanStream (P.agrees pages.old) (Opens hand.now.lookup) (H.view host.old) }
    requires ready { IsReady hand.now.lookup (H.view host.old).files }
    ensures found { IfOk result (λ step. (partitioner : Partitioner) (contents : List Content) → IsLookingIn (H.view host.old).files partitioner contents hand.now.lookup → HasKeysOf partitioner hand.now.token contents hand.now.lookup
        → token_of partitioner key ≡ hand.now.token → step ≡ step_of key (found_in (record { token = hand.now.token; key = key }) None (file_maps partitioner contents ++ maps_numbered maps.now hand.now.maps.items))) }
    ensures prints { (kind : ColumnType) → HasKeyType hand.now.lookup.types (views_numbered maps.now hand.now.maps.items) kind → IfOk result (StepPrintable kind) }
    ensures reads { (partitioner : Partitioner) (contents : List Content) → IsLookingIn (H.view host.old).files partitioner contents hand.now.lookup → HasKeysOf partitioner hand.now.token contents hand.now.lookup
        → (H.view host.new).reads ≤ (H.view host.old).reads + found_pages key contents }
    ensures ready { IsReady hand.now.lookup (H.view host.new).files }
    ensures read { HasStreamed (P.agrees pages.new) (P.covers pages.old) (P.covers pages.new) (Opens hand.now.lookup) (Opens hand.now.lookup) (H.view host.old) (H.view host.new) }
    ensures faults { StreamFaults (Shows hand.now.lookup (H.view host.old).files) (Shows hand.now.lookup (H.view host.new).files) (IsTurned (H.view host.old).files hand.now.lookup) (H.view host.old) (H.view host.new) result }
{
    let key = DecoratedKey {
        token: hand.token,
        key,
    };
    let found = find_in_parts(
        hand.alloc,
        host,
        pages,
        maps,
        &hand.lookup,
        &hand.maps,
        &key,
    )?;
    match found {
        Some(part) => Ok(Outcome::Found(key.key, part)),
        None => Ok(Outcome::Passed),
    }
}

// Looks up the next key in hand, or takes the next token where there is none.
fn step<S: TokenStream, H: Host, P: PageReader>(
    host: &mut H,
    pages: &mut P,
    maps: &MapBook,
    hits: &mut S,
    ahead: &mut Option<Entry>,
    hand: &mut Hand,
) -> Result<Outcome, ReadFault>
    requires read { CanStream (P.agrees pages.old) (SourceOpens (S.opens hits.old) hand.old) (H.view host.old) }
    requires hits_ready { S.ready hits.old (H.view host.old).files }
    requires ready { IsHandReady hand.old (H.view host.old).files }
    ensures gives { (left : List Candidate) → SourceLeaves (S.leaves hits.old (H.view host.old).files) ahead.old hand.old (H.view host.old).files maps.now left
        → IfOk result (StepGives (SourceLeaves (S.leaves hits.new (H.view host.new).files) ahead.new hand.new (H.view host.new).files maps.now) left) }
    ensures reads { (most owed : ℕ) (prices : List ℕ) → SourceOwes (S.leaves hits.old (H.view host.old).files) (S.pays hits.old (H.view host.old).files) ahead.old hand.old (H.view host.old).files maps.now most owed prices
        → StepSpends (SourceOwes (S.leaves hits.new (H.view host.new).files) (S.pays hits.new (H.view host.new).files) ahead.new hand.new (H.view host.new).files maps.now) most owed prices (H.view host.old).reads (H.view host.new).reads result }
    ensures hits_ready { OnOk result (S.ready hits.new (H.view host.new).files) }
    ensures ready { IsHandReady hand.new (H.view host.new).files }
    ensures same { IsSameHand hand.old hand.new }
    ensures prints { (kind : ColumnType) → HasKeyType hand.old.lookup.types (views_numbered maps.now hand.old.maps.items) kind → IfOk result (StepPrintable kind) }
    ensures read { HasStreamed (P.agrees pages.new) (P.covers pages.old) (P.covers pages.new) (SourceOpens (S.opens hits.old) hand.old) (SourceOpens (S.opens hits.new) hand.new) (H.view host.old) (H.view host.new) }
    ensures faults { StreamFaults (SourceShows (S.shows hits.old (H.view host.old).files) hand.old (H.view host.old).files) (SourceShows (S.shows hits.new (H.view host.new).files) hand.new (H.view host.new).files)
        (SourceLeaves (S.leaves hits.old (H.view host.old).files) ahead.old hand.old (H.view host.old).files maps.now) (H.view host.old) (H.view host.new) result }
    ensures hits_show_less { (files : Option Folder) (damage : Damage) → S.shows hits.new files damage → S.shows hits.old files damage }
{
    if hand.keys.as_slice().is_empty() {
        return turn(host, pages, maps, hits, ahead, hand);
    }
    let Some(key) = hand.keys.pop() else {
        unreachable!();
    };
    look_up(host, pages, maps, hand, key)
}

// The next candidate; None exactly where none is left.
pub(crate) fn next_candidate<S: TokenStream, H: Host, P: PageReader>(
    host: &mut H,
    pages: &mut P,
    maps: &MapBook,
    hits: &mut S,
    ahead: &mut Option<Entry>,
    hand: &mut Hand,
) -> Result<Option<(Key, Partition)>, ReadFault>
    requires read { CanStream (P.agrees pages.old) (SourceOpens (S.opens hits.old) hand.old) (H.view host.old) }
    requires hits_ready { S.ready hits.old (H.view host.old).files }
    requires ready { IsHandReady hand.old (H.view host.old).files }
    ensures gives { (left : List Candidate) → SourceLeaves (S.leaves hits.old (H.view host.old).files) ahead.old hand.old (H.view host.old).files maps.now left
        → IfOk result (GivesFirst (SourceLeaves (S.leaves hits.new (H.view host.new).files) ahead.new hand.new (H.view host.new).files maps.now) left) }
    ensures reads { (most : ℕ) (prices : List ℕ) → SourceOwes (S.leaves hits.old (H.view host.old).files) (S.pays hits.old (H.view host.old).files) ahead.old hand.old (H.view host.old).files maps.now most 0 prices
        → Spends (λ rest. SourceOwes (S.leaves hits.new (H.view host.new).files) (S.pays hits.new (H.view host.new).files) ahead.new hand.new (H.view host.new).files maps.now rest 0 (drop 1 prices)) (most + first_price prices) (H.view host.old).reads (H.view host.new).reads result }
    ensures hits_ready { OnOk result (S.ready hits.new (H.view host.new).files) }
    ensures ready { OnOk result (IsHandReady hand.new (H.view host.new).files) }
    ensures same { IsSameHand hand.old hand.new }
    ensures prints { (kind : ColumnType) → HasKeyType hand.old.lookup.types (views_numbered maps.now hand.old.maps.items) kind → IfOk result (GivesPrintable kind) }
    ensures read { HasStreamed (P.agrees pages.new) (P.covers pages.old) (P.covers pages.new) (SourceOpens (S.opens hits.old) hand.old) (SourceOpens (S.opens hits.new) hand.new) (H.view host.old) (H.view host.new) }
    ensures faults { StreamFaults (SourceShows (S.shows hits.old (H.view host.old).files) hand.old (H.view host.old).files) (SourceShows (S.shows hits.new (H.view host.new).files) hand.new (H.view host.new).files)
        (SourceLeaves (S.leaves hits.old (H.view host.old).files) ahead.old hand.old (H.view host.old).files maps.now) (H.view host.old) (H.view host.new) result }
    ensures hits_show_less { (files : Option Folder) (damage : Damage) → S.shows hits.new files damage → S.shows hits.old files damage }
{
    for _turn in 0..u64::MAX {
        match step(host, pages, maps, hits, ahead, hand)? {
            Outcome::Ended => return Ok(None),
            Outcome::Found(key, part) => return Ok(Some((key, part))),
            Outcome::Passed => {}
        }
    }
    // No folder has so many keys.
    Err(ReadFault::OutOfMemory)
}
