// The keys that all relations leave.
ghost use Rattle.std.specs.Prelude.{◌≡◌, ◌^◌, ◌≤◌, IfOk, length, map};
ghost use Rattle.std.specs.List.{AllByRecursion, filter};
ghost use Rattle.std.specs.List.Sorted.{IsStrictlySortedBy};
ghost use Rattle.sasi_types.specs.Key.{key_cmp};
ghost use Rattle.sasi_narrow.specs.Narrowing.{AreInOrder, AreThose, TellsOf, has_entry, is_left};
ghost use Rattle.sasi_narrow.specs.inside.KeyRefs.{AreKeys, has_key, ref_cmp};

use crate::PartHits;
use crate::relation_keys::relation_keys;
use sasi_dataread::PlacedKey;
use sasi_ranges::Entry;
use sasi_types::{Key, Token};
use std::alloc::{AllocError, Global};

// Whether a key is one of these, which are in their order.
fn is_among(keys: &[&Key], key: &Key) -> bool
    ensures { IsStrictlySortedBy ref_cmp keys.now → result ≡ has_key key.now keys.now }
{
    keys.binary_search(&key).is_ok()
}

// Keeps the keys that are also among others, which are in their order.
fn keep_shared(left: &mut Vec<&Key>, others: &[&Key])
    requires { IsStrictlySortedBy ref_cmp others.now }
    ensures { left.new.items ≡ filter (λ key. has_key key.now others.now) left.old.items }
{
    left.retain(|key| is_among(others, key));
}

// The keys that are hits of every relation, in their order and each once.
fn shared_keys<'a>(
    alloc: Global,
    token: Token,
    relations: usize,
    parts: &'a [PartHits],
    keys: &'a [&'a [PlacedKey]],
    entries: &[Entry],
) -> Result<Vec<&'a Key>, AllocError>
    requires some { 1 ≤ relations }
    requires few { relations ≤ 2 ^ 32 }
    requires told { AllByRecursion (TellsOf relations (length keys.now)) parts.now }
    ensures rise { IfOk result (λ left. IsStrictlySortedBy ref_cmp left.items) }
    ensures are { AreInOrder entries.now parts.now
        → IfOk result (λ left. AreKeys (is_left token (has_entry entries.now) (map (λ v. v.now) keys.now) parts.now relations)
        left.items) }
{
    let mut left = relation_keys(alloc, token, 0, parts, keys, entries)?;
    for leaf in 1..relations {
        let others = relation_keys(alloc, token, leaf as u32, parts, keys, entries)?;
        keep_shared(&mut left, &others);
    }
    Ok(left)
}

// A copy of a key. Its bytes are those of a key, so the only fault is out of memory.
fn copy_key(alloc: Global, key: &Key) -> Result<Key, AllocError>
    ensures { IfOk result (λ copy. copy ≡ key.now) }
{
    match Key::new(alloc, key.bytes()) {
        Ok(copy) => Ok(copy),
        Err(_) => Err(AllocError),
    }
}

// Copies of keys.
fn copy_keys(alloc: Global, keys: &[&Key]) -> Result<Vec<Key>, AllocError>
    ensures { IfOk result (λ copies. copies.items ≡ map (λ key. key.now) keys.now) }
{
    let mut copies = Vec::with_capacity(alloc, keys.len())?;
    for key in keys {
        copies.push(copy_key(alloc, key)?)?;
    }
    Ok(copies)
}

/// The keys of a token that every relation leaves, in their order and each once: for each relation some part has the key as a hit. That
/// holds where the hits are in their order, as they are in a right folder. `keys` has the keys of each data file with the token, and
/// `entries` the hits with the token that streams gave: the relation's number, the position of the part among `parts`, and in a data
/// file the offset of the partition. Those of maps aren't looked at.
pub fn candidate_keys(
    alloc: Global,
    token: Token,
    relations: usize,
    parts: &[PartHits],
    keys: &[&[PlacedKey]],
    entries: &[Entry],
) -> Result<Vec<Key>, AllocError>
    requires some { 1 ≤ relations }
    requires few { relations ≤ 2 ^ 32 }
    requires told { AllByRecursion (TellsOf relations (length keys.now)) parts.now }
    ensures sorted { IfOk result (λ left. IsStrictlySortedBy key_cmp left.items) }
    ensures are { AreInOrder entries.now parts.now
        → IfOk result (λ left. AreThose (is_left token (has_entry entries.now) (map (λ v. v.now) keys.now) parts.now relations)
        left.items) }
{
    let left = shared_keys(alloc, token, relations, parts, keys, entries)?;
    copy_keys(alloc, &left)
}
