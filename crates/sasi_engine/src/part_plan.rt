// The streams of one part.
ghost use Rattle.std.specs.Prelude.{◌≡◌, ◌≤◌, ◌^◌, ◌<◌, true, if◌then◌else◌, is_some, length, map, IfOk, OnOk};
ghost use Rattle.std.specs.List.{AllByRecursion};
ghost use Rattle.sasi_engine.specs.Asked.{first_lacking};
ghost use Rattle.sasi_engine.specs.HitLists.{own_positions, part_positions};
ghost use Rattle.sasi_engine.specs.Findable.{CanFind, HasIndexFor, HasWords};
ghost use Rattle.sasi_engine.specs.inside.Found.{found_in};
ghost use Rattle.sasi_engine.specs.Parts.{hits_in};
ghost use Rattle.sasi_engine.specs.inside.Sources.{Adds, file_sources, found_sources, has_part, key_source, own_source, own_sources, part_bits, part_for, part_hits, part_sources};

use crate::IndexedRelation;
use crate::columns::PartPositions;
use crate::find_keys::find_keys;
use crate::streams::{index_stream, keys_stream, map_stream};
use sasi_hits::Hits;
use sasi_host::{DataNumber, FileName};
use sasi_manifest::PartNumber;
use sasi_memindex::{KeyList, MapBook, MapPart};
use sasi_narrow::PartHits;
use sasi_ranges::Streams;
use sasi_types::{IndexNumber, TypeList};
use sasi_views::Part;
use std::alloc::{AllocError, Global};

// Where the hits in a part are, and the positions of the streams that give them.
#[derive(Drop)]
pub(crate) struct PartPlan {
    pub(crate) hits: PartHits,
    pub(crate) positions: PartPositions,
}

// Of each relation, whether a file has its index, and the position of its stream.
#[derive(Drop)]
struct FilePlan {
    indexed: Vec<bool>,
    positions: Vec<usize>,
}

// Of each relation the keys that it finds in a map, and the position of its stream.
#[derive(Drop)]
struct MapPlan {
    found: Vec<KeyList>,
    positions: Vec<usize>,
}

// Of a file's parts the one of the index with this number.
fn part_for(parts: &[PartNumber], index: IndexNumber) -> Option<PartNumber>
    ensures { result ≡ part_for index parts.now }
{
    for part in parts {
        if part.index == index {
            return Some(*part);
        }
    }
    None
}

// Whether a file has a part of the index with this number.
fn has_part(parts: &[PartNumber], index: IndexNumber) -> bool
    ensures { result ≡ is_some (part_for index parts.now) }
{
    part_for(parts, index).is_some()
}

// The first relation whose index a file lacks.
fn first_lacking(relations: &[IndexedRelation], parts: &[PartNumber]) -> Option<u32>
    requires { length relations.now < 2 ^ 32 }
    ensures { result ≡ first_lacking 0 (map (has_part parts.now) relations.now) }
{
    let mut leaf = 0;
    for relation in relations {
        if !has_part(parts, relation.index) {
            return Some(leaf);
        }
        leaf += 1;
    }
    None
}

// Adds the stream of all keys of a data file, where it lacks an index.
fn add_keys(
    alloc: Global,
    lacking: Option<u32>,
    types: &TypeList,
    number: DataNumber,
    at: u64,
    streams: &mut Streams<Hits>,
) -> Result<(), AllocError>
    ensures { OnOk result (Adds (key_source number types.now at lacking) streams.old streams.new) }
{
    let Some(leaf) = lacking else {
        return Ok(());
    };
    let stream = keys_stream(alloc, types, FileName::data(number), leaf, at)?;
    streams.push(stream)
}

// Adds the stream of a relation's hits in a data file, where the file has the index. Whether it has.
fn add_index(
    alloc: Global,
    relation: &IndexedRelation,
    leaf: u32,
    number: DataNumber,
    parts: &[PartNumber],
    at: u64,
    streams: &mut Streams<Hits>,
) -> Result<bool, AllocError>
    requires { HasWords relation.now }
    ensures has { IfOk result (λ has. has ≡ has_part parts.now relation.now) }
    ensures adds { OnOk result (Adds (own_source number at leaf relation.now (part_for relation.now.index parts.now)) streams.old streams.new) }
{
    let Some(part) = part_for(parts, relation.index) else {
        return Ok(false);
    };
    let stream = index_stream(alloc, relation, part.file_name(number), leaf, at)?;
    streams.push(stream)?;
    Ok(true)
}

// The position of a relation's own stream, or that of the stream of all keys.
fn position_of(has: bool, own: usize, keys: usize) -> usize
    ensures { result ≡ (if has then own else keys) }
{
    if has { own } else { keys }
}

// Adds the streams of the relations' hits in a data file. `keys` is the position of the stream of all its keys.
fn add_indexes(
    alloc: Global,
    relations: &[IndexedRelation],
    number: DataNumber,
    parts: &[PartNumber],
    at: u64,
    keys: usize,
    streams: &mut Streams<Hits>,
) -> Result<FilePlan, AllocError>
    requires few { length relations.now < 2 ^ 32 }
    requires words { AllByRecursion HasWords relations.now }
    ensures indexed { IfOk result (λ plan. plan.indexed.items ≡ map (has_part parts.now) relations.now) }
    ensures positions { IfOk result (λ plan. plan.positions.items ≡ own_positions keys (length streams.old) (map (has_part parts.now) relations.now)) }
    ensures adds { OnOk result (Adds (own_sources number parts.now at 0 relations.now) streams.old streams.new) }
{
    let mut indexed = Vec::with_capacity(alloc, relations.len())?;
    let mut positions = Vec::with_capacity(alloc, relations.len())?;
    for relation in relations {
        let leaf = indexed.len() as u32;
        let next = streams.len();
        let has = add_index(alloc, relation, leaf, number, parts, at, streams)?;
        indexed.push(has)?;
        positions.push(position_of(has, next, keys))?;
    }
    Ok(FilePlan { indexed, positions })
}

// Adds the streams of a data file.
fn add_file(
    alloc: Global,
    relations: &[IndexedRelation],
    types: &TypeList,
    number: DataNumber,
    parts: &[PartNumber],
    at: u64,
    streams: &mut Streams<Hits>,
) -> Result<FilePlan, AllocError>
    requires few { length relations.now < 2 ^ 32 }
    requires words { AllByRecursion HasWords relations.now }
    ensures indexed { IfOk result (λ plan. plan.indexed.items ≡ map (has_part parts.now) relations.now) }
    ensures positions { IfOk result (λ plan. plan.positions.items ≡ part_positions (length streams.old) (map (has_part parts.now) relations.now)) }
    ensures adds { OnOk result (Adds (file_sources types.now relations.now at number parts.now) streams.old streams.new) }
{
    let keys = streams.len();
    let lacking = first_lacking(relations, parts);
    add_keys(alloc, lacking, types, number, at, streams)?;
    add_indexes(alloc, relations, number, parts, at, keys, streams)
}

// Adds the streams of the relations' hits in a map.
fn add_map(
    alloc: Global,
    relations: &[IndexedRelation],
    table_map: &MapPart,
    at: u64,
    streams: &mut Streams<Hits>,
) -> Result<MapPlan, AllocError>
    requires few { length relations.now < 2 ^ 32 }
    requires words { AllByRecursion HasWords relations.now }
    requires has { AllByRecursion (HasIndexFor table_map.now) relations.now }
    ensures found { IfOk result (λ plan. plan.found.items ≡ map (found_in table_map.now) relations.now) }
    ensures positions { IfOk result (λ plan. plan.positions.items ≡ part_positions (length streams.old) (map (λ r. true) relations.now)) }
    ensures adds { OnOk result (Adds (found_sources table_map.now at 0 relations.now) streams.old streams.new) }
{
    let mut found = Vec::with_capacity(alloc, relations.len())?;
    let mut positions = Vec::with_capacity(alloc, relations.len())?;
    for relation in relations {
        let leaf = found.len() as u32;
        let keys = find_keys(alloc, table_map, relation)?;
        let stream = map_stream(alloc, keys.as_slice(), leaf, at)?;
        positions.push(streams.len())?;
        streams.push(stream)?;
        found.push(keys)?;
    }
    Ok(MapPlan { found, positions })
}

// Adds the streams of a part, before which there are so many files.
pub(crate) fn add_part(
    alloc: Global,
    relations: &[IndexedRelation],
    types: &TypeList,
    maps: &MapBook,
    part: &Part,
    at: u64,
    files: usize,
    streams: &mut Streams<Hits>,
) -> Result<PartPlan, AllocError>
    requires few { length relations.now < 2 ^ 32 }
    requires words { AllByRecursion HasWords relations.now }
    requires has { CanFind maps.now relations.now part.now }
    ensures hits { IfOk result (λ plan. hits_in plan.hits ≡ part_hits maps.now relations.now files part.now) }
    ensures positions { IfOk result (λ plan. plan.positions ≡ part_positions (length streams.old) (part_bits relations.now part.now)) }
    ensures adds { OnOk result (Adds (part_sources maps.now types.now relations.now at part.now) streams.old streams.new) }
{
    match part {
        Part::File { number, indexes } => {
            let parts = indexes.as_slice();
            let plan = add_file(alloc, relations, types, *number, parts, at, streams)?;
            Ok(PartPlan {
                hits: PartHits::File {
                    file: files,
                    indexed: plan.indexed,
                },
                positions: PartPositions {
                    positions: plan.positions,
                },
            })
        }
        Part::Map(number) => {
            let Some(map) = maps.get(*number) else {
                unreachable!();
            };
            let plan = add_map(alloc, relations, map, at, streams)?;
            Ok(PartPlan {
                hits: PartHits::Map { found: plan.found },
                positions: PartPositions {
                    positions: plan.positions,
                },
            })
        }
    }
}
