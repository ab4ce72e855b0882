// The hits of a relation in all parts.
ghost use Rattle.std.specs.Prelude.{◌+◌, IfOk, OnOk, length, map};
ghost use Rattle.std.specs.List.{AllByRecursion};
ghost use Rattle.std.specs.List.Sorted.{IsStrictlySortedBy};
ghost use Rattle.sasi_ranges.specs.Entries.{Rises};
ghost use Rattle.sasi_narrow.specs.Narrowing.{AreInOrder, FoundInOrder, TellsOf, has_entry, is_hit, some_hit};
ghost use Rattle.sasi_narrow.specs.inside.KeyRefs.{AddsKeys, AreKeys, ref_cmp};

use crate::PartHits;
use crate::file_hits::add_file_hits;
use crate::map_hits::add_map_hits;
use sasi_dataread::PlacedKey;
use sasi_ranges::Entry;
use sasi_types::{Key, Token};
use std::alloc::{AllocError, Global};

// Adds the keys that are hits in a part. `hit` is an entry of the relation and the part, whatever its offset is.
fn add_hits<'a>(
    hits: &mut Vec<&'a Key>,
    hit: Entry,
    part: &'a PartHits,
    keys: &'a [&'a [PlacedKey]],
    entries: &[Entry],
) -> Result<(), AllocError>
    requires { TellsOf (hit.leaf + 1) (length keys.now) part.now }
    ensures { Rises entries.now → FoundInOrder part.now
        → OnOk result (AddsKeys (is_hit hit.token (has_entry entries.now) (map (λ v. v.now) keys.now) hit.leaf hit.part part.now)
        hits.old.items hits.new.items) }
{
    let leaf = hit.leaf as usize;
    match part {
        PartHits::File { file, indexed } => {
            add_file_hits(hits, indexed[leaf], hit, keys[*file], entries)
        }
        PartHits::Map { found } => add_map_hits(hits, hit.token, found[leaf].as_slice()),
    }
}

// The keys that are hits of a relation, part by part.
fn all_hits<'a>(
    alloc: Global,
    token: Token,
    leaf: u32,
    parts: &'a [PartHits],
    keys: &'a [&'a [PlacedKey]],
    entries: &[Entry],
) -> Result<Vec<&'a Key>, AllocError>
    requires { AllByRecursion (TellsOf (leaf + 1) (length keys.now)) parts.now }
    ensures { AreInOrder entries.now parts.now
        → IfOk result (λ hits. AreKeys (some_hit token (has_entry entries.now) (map (λ v. v.now) keys.now) parts.now leaf)
        hits.items) }
{
    let mut hits = Vec::new(alloc);
    for (at, part) in parts.iter().enumerate() {
        let hit = Entry {
            token,
            leaf,
            part: at as u64,
            place: 0,
        };
        add_hits(&mut hits, hit, part, keys, entries)?;
    }
    Ok(hits)
}

/// The keys that are hits of a relation in some part, in their order and each once.
pub fn relation_keys<'a>(
    alloc: Global,
    token: Token,
    leaf: u32,
    parts: &'a [PartHits],
    keys: &'a [&'a [PlacedKey]],
    entries: &[Entry],
) -> Result<Vec<&'a Key>, AllocError>
    requires { AllByRecursion (TellsOf (leaf + 1) (length keys.now)) parts.now }
    ensures rise { IfOk result (λ hits. IsStrictlySortedBy ref_cmp hits.items) }
    ensures are { AreInOrder entries.now parts.now
        → IfOk result (λ hits. AreKeys (some_hit token (has_entry entries.now) (map (λ v. v.now) keys.now) parts.now leaf)
        hits.items) }
{
    let mut hits = all_hits(alloc, token, leaf, parts, keys, entries)?;
    hits.sort_unstable();
    hits.dedup();
    Ok(hits)
}
