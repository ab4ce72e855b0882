// New streams of hits.
ghost use Rattle.std.specs.Prelude.{◌≡◌, ◌≤◌, length, IfOk};
ghost use Rattle.sasi_engine.specs.inside.Sources.{IsStream, OfIndex, OfKeys, OfMap};

use crate::IndexedRelation;
use sasi_hits::{FileKeys, Hits, IndexHits, map_hits};
use sasi_host::FileName;
use sasi_types::{DecoratedKey, Term, TermList, TypeList};
use std::alloc::{AllocError, Global};

// A copy of the words.
fn copy_words(alloc: Global, words: &[Term]) -> Result<TermList, AllocError>
    ensures { IfOk result (λ copy. copy ≡ words.now) }
{
    let mut copy = TermList::new(alloc);
    for word in words {
        copy.push(Term::new(Vec::from_slice(alloc, word.bytes())?))?;
    }
    Ok(copy)
}

// A copy of the types.
fn copy_types(alloc: Global, types: &TypeList) -> Result<TypeList, AllocError>
    ensures { IfOk result (λ copy. copy ≡ types.now) }
{
    let mut copy = TypeList::new(alloc);
    let kinds = types.as_slice();
    for kind in kinds {
        copy.push(*kind)?;
    }
    Ok(copy)
}

// The hits of a relation that an index file gives.
pub(crate) fn index_stream(
    alloc: Global,
    relation: &IndexedRelation,
    file: FileName,
    leaf: u32,
    part: u64,
) -> Result<Hits, AllocError>
    requires some { 1 ≤ length relation.now.words }
    ensures { IfOk result (IsStream (OfIndex file relation.now.op relation.now.words) leaf part) }
{
    let words = copy_words(alloc, relation.words.as_slice())?;
    let hits = IndexHits::new(alloc, file, relation.op, words, leaf, part);
    Ok(Hits::Index(hits))
}

// All keys of a data file, as hits.
pub(crate) fn keys_stream(
    alloc: Global,
    types: &TypeList,
    file: FileName,
    leaf: u32,
    part: u64,
) -> Result<Hits, AllocError>
    ensures { IfOk result (IsStream (OfKeys file types.now) leaf part) }
{
    let types = copy_types(alloc, types)?;
    Ok(Hits::Keys(FileKeys::new(alloc, file, types, leaf, part)))
}

// The hits in a map.
pub(crate) fn map_stream(
    alloc: Global,
    keys: &[DecoratedKey],
    leaf: u32,
    part: u64,
) -> Result<Hits, AllocError>
    ensures { IfOk result (IsStream (OfMap keys.now) leaf part) }
{
    Ok(Hits::Map(map_hits(alloc, leaf, part, keys)?))
}
