// What a reader has in hand of a token.
ghost use Rattle.std.specs.Prelude.{◌≡◌, ◌+◌, ◌≤◌, ◌^◌, List, IfOk, OnOk, length, map, reverse};
ghost use Rattle.std.specs.List.{AllByRecursion};
ghost use Rattle.std.specs.List.Sorted.{IsStrictlySortedBy};
ghost use Rattle.sasi_types.specs.declared.partitioner.Partitioner.{Partitioner};
ghost use Rattle.sasi_types.specs.Key.{key_cmp};
ghost use Rattle.sasi_datawrite.specs.Format.{Content};
ghost use Rattle.sasi_narrow.specs.Narrowing.{AreInOrder, AreThose, TellsOf, has_entry, is_left};
ghost use Rattle.sasi_ranges.specs.StreamCalls.{CanStream, HasStreamed, StreamFaults};
ghost use Rattle.sasi_lookup.specs.Files.{LookedFile};
ghost use Rattle.sasi_lookup.specs.Lookups.{HasKeysOf, IsLookingIn, IsRight, Opens, Shows};
ghost use Rattle.sasi_lookup.specs.Reads.{turn_reads};
ghost use Rattle.sasi_engine.specs.inside.Steps.{AreKeysLeft, IsHandReady, IsSameHand};

use sasi_dataread::PlacedKey;
use sasi_host::{Host, PageReader, ReadFault};
use sasi_lookup::{Lookup, LookupFile};
use sasi_narrow::{PartHits, candidate_keys};
use sasi_ranges::Entry;
use sasi_types::{Key, Token};
use std::alloc::{AllocError, Global};

// The keys of a token that all relations leave, and where what the parts have of them is looked up.
#[derive(Drop)]
pub(crate) struct Hand {
    pub(crate) alloc: Global,
    // How many relations there are.
    pub(crate) relations: usize,
    // Of each part where its hits are.
    pub(crate) parts: Vec<PartHits>,
    // The numbers of the maps.
    pub(crate) maps: Vec<u64>,
    pub(crate) lookup: Lookup,
    pub(crate) token: Token,
    // The next one is the last.
    pub(crate) keys: Vec<Key>,
}

// The keys that each file has in hand.
fn keys_in_files(alloc: Global, files: &[LookupFile]) -> Result<Vec<&[PlacedKey]>, AllocError>
    ensures { IfOk result (λ keys. map (λ v. v.now) keys.items ≡ map (λ (file : LookedFile). file.keys) files.now) }
{
    let mut keys = Vec::with_capacity(alloc, files.len())?;
    for file in files {
        keys.push(file.keys())?;
    }
    Ok(keys)
}

// The keys of a token that all relations leave, the greatest first.
fn keys_left(
    alloc: Global,
    token: Token,
    relations: usize,
    parts: &[PartHits],
    files: &[LookupFile],
    entries: &[Entry],
) -> Result<Vec<Key>, AllocError>
    requires some { 1 ≤ relations }
    requires few { relations ≤ 2 ^ 32 }
    requires told { AllByRecursion (TellsOf relations (length files.now)) parts.now }
    ensures rise { IfOk result (λ left. IsStrictlySortedBy key_cmp (reverse left.items)) }
    ensures are { AreInOrder entries.now parts.now
        → IfOk result (λ left. AreThose (is_left token (has_entry entries.now) (map (λ (file : LookedFile). file.keys) files.now) parts.now relations) (reverse left.items)) }
{
    let keys = keys_in_files(alloc, files)?;
    let mut left = candidate_keys(alloc, token, relations, parts, &keys, entries)?;
    left.reverse();
    Ok(left)
}

// Takes the keys of a token that all relations leave, of which these are the hits.
pub(crate) fn turn_hand<H: Host, P: PageReader>(
    host: &mut H,
    pages: &mut P,
    hand: &mut Hand,
    token: Token,
    entries: &[Entry],
) -> Result<(), ReadFault>
    requires read { CanStream (P.agrees pages.old) (Opens hand.old.lookup) (H.view host.old) }
    requires ready { IsHandReady hand.old (H.view host.old).files }
    ensures same { IsSameHand hand.old hand.new }
    ensures left { OnOk result (AreKeysLeft hand.new token entries.now) }
    ensures keys { (partitioner : Partitioner) (contents : List Content) → IsLookingIn (H.view host.old).files partitioner contents hand.old.lookup → OnOk result (HasKeysOf partitioner token contents hand.new.lookup) }
    ensures looks { (partitioner : Partitioner) (contents : List Content) → IsLookingIn (H.view host.old).files partitioner contents hand.old.lookup → IsLookingIn (H.view host.new).files partitioner contents hand.new.lookup }
    ensures reads { (partitioner : Partitioner) (contents : List Content) → IsLookingIn (H.view host.old).files partitioner contents hand.old.lookup
        → (H.view host.new).reads ≤ (H.view host.old).reads + turn_reads partitioner token hand.old.lookup.files contents }
    ensures ready { IsHandReady hand.new (H.view host.new).files }
    ensures read { HasStreamed (P.agrees pages.new) (P.covers pages.old) (P.covers pages.new) (Opens hand.old.lookup) (Opens hand.new.lookup) (H.view host.old) (H.view host.new) }
    ensures faults { StreamFaults (Shows hand.old.lookup (H.view host.old).files) (Shows hand.new.lookup (H.view host.new).files) (IsRight (H.view host.old).files hand.old.lookup) (H.view host.old) (H.view host.new) result }
{
    hand.lookup.turn_to(host, pages, token)?;
    let keys = keys_left(
        hand.alloc,
        token,
        hand.relations,
        &hand.parts,
        hand.lookup.files(),
        entries,
    )?;
    hand.token = token;
    hand.keys = keys;
    Ok(())
}
