// The streams of a plan.
ghost use Rattle.std.specs.Prelude.{◌≡◌, ◌+◌, ◌≤◌, ◌^◌, ◌<◌, List, Option, Some, length, map, true, IfOk};
ghost use Rattle.std.specs.List.{AllByRecursion, sum_by};
ghost use Rattle.sasi_types.specs.declared.partitioner.Partitioner.{Partitioner};
ghost use Rattle.sasi_host.specs.declared.damage.Damage.{Damage};
ghost use Rattle.sasi_host.specs.declared.name.FileName.{FileName};
ghost use Rattle.sasi_host.specs.Names.{Folder};
ghost use Rattle.sasi_model.specs.Conditions.{Condition};
ghost use Rattle.sasi_layout.specs.Layout.{TableParts};
ghost use Rattle.sasi_ranges.specs.EachStream.{EachIsReady, EachPays, SomeOpens, SomeShows};
ghost use Rattle.sasi_candidates.specs.Costs.{file_cost, files_of};
ghost use Rattle.sasi_candidates.specs.Parts.{Part as TablePart};
ghost use Rattle.sasi_hits.specs.Hits.{Opens, Pays, Ready, Shows};
ghost use Rattle.sasi_narrow.specs.Narrowing.{TellsOf};
ghost use Rattle.sasi_engine.specs.Asked.{Asked, asked_of};
ghost use Rattle.sasi_engine.specs.Plans.{AreShort, IsPlanOf, IsShownIn, file_numbers, is_file_of};
ghost use Rattle.sasi_engine.specs.Views.{IsPlannedFor};
ghost use Rattle.sasi_engine.specs.HitLists.{columns_of, position_rows};
ghost use Rattle.sasi_engine.specs.Parts.{hits_in};
ghost use Rattle.sasi_engine.specs.Findable.{CanFind, HasWords};
ghost use Rattle.sasi_engine.specs.inside.Sources.{AreStreams, all_hits, all_sources, files_with, part_bits};

use crate::IndexedRelation;
use crate::columns::{PartPositions, columns_of};
use crate::part_plan::add_part;
use sasi_hits::Hits;
use sasi_memindex::MapBook;
use sasi_narrow::PartHits;
use sasi_ranges::{RelationStreams, Streams};
use sasi_types::TypeList;
use sasi_views::Part;
use std::alloc::{AllocError, Global};

/// What a reader reads the hits of relations from.
#[derive(Drop)]
pub struct PlanStreams {
    /// In each part a stream for each relation whose index the part has. One stream gives all keys of a file that lacks an index.
    pub streams: Streams<Hits>,
    /// Of each relation the positions of the streams that serve it, one for each part.
    pub relations: RelationStreams,
    /// Of each part where its hits are.
    pub parts: Vec<PartHits>,
}

// The streams of all parts, of each part where its hits are, and of each part the positions of the streams that serve the relations.
#[derive(Drop)]
struct PartStreams {
    streams: Streams<Hits>,
    parts: Vec<PartHits>,
    rows: Vec<PartPositions>,
}

// How many files there are with this part.
fn files_with(files: usize, part: &Part) -> usize
    requires { files + 1 < 2 ^ 64 }
    ensures { result ≡ files_with files part.now }
{
    match part {
        Part::File { .. } => files + 1,
        Part::Map(_) => files,
    }
}

// The streams of all parts.
fn part_streams(
    alloc: Global,
    relations: &[IndexedRelation],
    parts: &[Part],
    types: &TypeList,
    maps: &MapBook,
) -> Result<PartStreams, AllocError>
    requires few { length relations.now < 2 ^ 32 }
    requires words { AllByRecursion HasWords relations.now }
    requires has { AllByRecursion (CanFind maps.now relations.now) parts.now }
    ensures streams { IfOk result (λ plan. AreStreams (all_sources maps.now types.now relations.now 0 parts.now) plan.streams) }
    ensures parts { IfOk result (λ plan. map hits_in plan.parts.items ≡ all_hits maps.now relations.now 0 parts.now) }
    ensures rows { IfOk result (λ plan. plan.rows.items ≡ position_rows 0 (map (part_bits relations.now) parts.now)) }
{
    let mut streams = Streams::new(alloc);
    let mut hits = Vec::with_capacity(alloc, parts.len())?;
    let mut rows = Vec::with_capacity(alloc, parts.len())?;
    let mut files = 0;
    for part in parts {
        let at = rows.len() as u64;
        let plan = add_part(alloc, relations, types, maps, part, at, files, &mut streams)?;
        files = files_with(files, part);
        hits.push(plan.hits)?;
        rows.push(plan.positions)?;
    }
    Ok(PartStreams {
        streams,
        parts: hits,
        rows,
    })
}

/// The streams of the hits of relations in the parts of a view, whose tables' columns have these types. A relation has a word at least,
/// and each map of the view is in the book, with the relations' indexes. It reads nothing.
pub fn plan_streams(
    alloc: Global,
    relations: &[IndexedRelation],
    parts: &[Part],
    types: &TypeList,
    maps: &MapBook,
) -> Result<PlanStreams, AllocError>
    requires words { AllByRecursion HasWords relations.now }
    requires maps { AllByRecursion (CanFind maps.now relations.now) parts.now }

    // They leave the hits of the relations in the parts, and take at most what the conditions may cost in the files.
    ensures leaves { (folder : Folder) (partitioner : Partitioner) (t : TableParts) (asked : List Asked) (seen : List TablePart) → IsPlannedFor folder partitioner t maps.now types.now relations.now parts.now asked seen → IfOk result (IsPlanOf folder partitioner asked seen) }
    ensures pays { (folder : Folder) (partitioner : Partitioner) (t : TableParts) (conditions : List Condition) (seen : List TablePart) → IsPlannedFor folder partitioner t maps.now types.now relations.now parts.now (asked_of conditions) seen → AreShort folder parts.now → IfOk result (λ plan. EachPays Pays (Some folder) plan.streams (sum_by (file_cost partitioner conditions) (files_of seen))) }

    ensures count { IfOk result (λ plan. length plan.relations ≡ length relations.now) }
    ensures few { IfOk result (λ plan. length relations.now < 2 ^ 32) }

    // Of each part the hits are told of every relation.
    ensures told { IfOk result (λ plan. AllByRecursion (TellsOf (length relations.now) (length (file_numbers parts.now))) plan.parts.items) }

    // In every folder they can be asked, and they read no files but those of the parts.
    ensures ready { IfOk result (λ plan. (files : Option Folder) → EachIsReady Ready files plan.streams) }
    ensures opens { IfOk result (λ plan. (name : FileName) → SomeOpens Opens plan.streams name → is_file_of parts.now name ≡ true) }
    ensures shows { IfOk result (λ plan. (files : Option Folder) (damage : Damage) → SomeShows Shows files plan.streams damage → IsShownIn parts.now files damage) }
{
    // As many relations don't fit into memory.
    if relations.len() > u32::MAX as usize {
        return Err(AllocError);
    }
    let made = part_streams(alloc, relations, parts, types, maps)?;
    let relations = columns_of(alloc, &made.rows, relations.len())?;
    Ok(PlanStreams {
        streams: made.streams,
        relations,
        parts: made.parts,
    })
}
