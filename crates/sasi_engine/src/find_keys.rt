// The keys of a map that a relation finds.
ghost use Rattle.std.specs.Prelude.{◌≡◌, ◌++◌, ◌∷◌, [], ◌≤◌, if◌then◌else◌, length, map, IfOk, OnOk};
ghost use Rattle.std.specs.List.{AllByRecursion, filter, list_any};
ghost use Rattle.std.specs.List.Sorted.{IsStrictlySortedBy};
ghost use Rattle.std.specs.Ordering.{eq_by_cmp};
ghost use Rattle.sasi_types.specs.DecoratedKey.{decorated_cmp};
ghost use Rattle.sasi_model.specs.Abbreviations.{Partitions};
ghost use Rattle.sasi_memindex.specs.Hits.{keys_in};
ghost use Rattle.sasi_memindex.specs.IndexOf.{IsIndexOf};
ghost use Rattle.sasi_engine.specs.Findable.{HasIndexFor};
ghost use Rattle.sasi_engine.specs.inside.Found.{found_in, is_in_all, keys_with};

use crate::IndexedRelation;
use sasi_memindex::{KeyList, MapPart, MemIndex};
use sasi_terms::Op;
use sasi_types::{DecoratedKey, Key, Term};
use std::alloc::{AllocError, Global};

// Whether the key is one of these, which are in their order.
fn has_key(keys: &[DecoratedKey], key: &DecoratedKey) -> bool
    requires { IsStrictlySortedBy decorated_cmp keys.now }
    ensures { result ≡ list_any (eq_by_cmp decorated_cmp key.now) keys.now }
{
    keys.binary_search(key).is_ok()
}

// Whether the key is in each of the lists.
fn is_in_all(lists: &[KeyList], key: &DecoratedKey) -> bool
    requires { AllByRecursion (IsStrictlySortedBy decorated_cmp) lists.now }
    ensures { result ≡ is_in_all lists.now key.now }
{
    for list in lists {
        if !has_key(list.as_slice(), key) {
            return false;
        }
    }
    true
}

// A copy of a key. Its bytes are those of a key, so the only fault is out of memory.
fn copy_key(alloc: Global, key: &DecoratedKey) -> Result<DecoratedKey, AllocError>
    ensures { IfOk result (λ copy. copy ≡ key.now) }
{
    match Key::new(alloc, key.key.bytes()) {
        Ok(bytes) => Ok(DecoratedKey {
            token: key.token,
            key: bytes,
        }),
        Err(_) => Err(AllocError),
    }
}

// Adds a copy of the key, where it is in each of the lists.
fn keep_common(
    alloc: Global,
    lists: &[KeyList],
    key: &DecoratedKey,
    common: &mut Vec<DecoratedKey>,
) -> Result<(), AllocError>
    requires { AllByRecursion (IsStrictlySortedBy decorated_cmp) lists.now }
    ensures { OnOk result (common.new.items ≡ common.old.items ++ (if is_in_all lists.now key.now then key.now ∷ [] else [])) }
{
    if !is_in_all(lists, key) {
        return Ok(());
    }
    common.push(copy_key(alloc, key)?)?;
    Ok(())
}

// Copies of those of the keys that are in each of the lists.
fn common_keys(
    alloc: Global,
    keys: &[DecoratedKey],
    lists: &[KeyList],
) -> Result<Vec<DecoratedKey>, AllocError>
    requires { AllByRecursion (IsStrictlySortedBy decorated_cmp) lists.now }
    ensures { IfOk result (λ common. common.items ≡ filter (is_in_all lists.now) keys.now) }
{
    let mut common = Vec::new(alloc);
    for key in keys {
        keep_common(alloc, lists, key, &mut common)?;
    }
    Ok(common)
}

// The keys that the search of each word gives.
fn search_each(
    index: &MemIndex,
    op: &Op,
    words: &[Term],
    alloc: Global,
) -> Result<Vec<KeyList>, AllocError>
    ensures sorted { IfOk result (λ lists. AllByRecursion (IsStrictlySortedBy decorated_cmp) lists.items) }
    ensures lists { (m : Partitions) → IsIndexOf m index.now → IfOk result (λ lists. lists.items ≡ map (λ word. keys_in op.now word index.now m) words.now) }
{
    let mut lists = Vec::new(alloc);
    for word in words {
        lists.push(index.search(op, word.bytes())?)?;
    }
    Ok(lists)
}

// The keys that the searches of all words give.
fn find_words(
    alloc: Global,
    index: &MemIndex,
    op: &Op,
    words: &[Term],
) -> Result<KeyList, AllocError>
    requires some { 1 ≤ length words.now }
    ensures { (m : Partitions) → IsIndexOf m index.now → IfOk result (λ found. found ≡ keys_with op.now words.now index.now m) }
{
    let Some((first, others)) = words.split_first() else {
        unreachable!();
    };
    let keys = index.search(op, first.bytes())?;
    if others.is_empty() {
        return Ok(keys);
    }
    let lists = search_each(index, op, others, alloc)?;
    let common = common_keys(alloc, keys.as_slice(), &lists)?;
    Ok(KeyList::new(common))
}

// The keys of a map that a relation finds.
pub(crate) fn find_keys(
    alloc: Global,
    map: &MapPart,
    relation: &IndexedRelation,
) -> Result<KeyList, AllocError>
    requires some { 1 ≤ length relation.now.words }
    requires has { HasIndexFor map.now relation.now }
    ensures { IfOk result (λ found. found ≡ found_in map.now relation.now) }
{
    let Some(index) = map.indexes.get(relation.index) else {
        unreachable!();
    };
    find_words(alloc, index, &relation.op, relation.words.as_slice())
}
