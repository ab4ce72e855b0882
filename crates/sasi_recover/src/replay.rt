// Replays the live segments of the commit log over the listed tables.
ghost use Rattle.std.specs.Prelude.{◌≡◌, map, IfErr, IfOk, IsTrue, OnOk, ◌+◌, ◌≤◌};
ghost use Rattle.sasi_host.specs.View.{IsThere, Reaches};
ghost use Rattle.sasi_host.specs.Disk.{Changes, Same};
ghost use Rattle.sasi_host.specs.Names.{log_name};
ghost use Rattle.sasi_host.specs.Buffered.{IsBuffered};
ghost use Rattle.sasi_host.specs.Sequential.{ReadsWithinPages};
ghost use Rattle.sasi_gated.specs.Causes.{ReadingCauses};
ghost use Rattle.sasi_gated.specs.ReadCosts.{IsSequential, ReadsPagesOnce};
ghost use Rattle.sasi_schema.specs.Numbers.{RisesFrom};
ghost use Rattle.sasi_commitlog.specs.Format.{IsMutationOf};
ghost use Rattle.sasi_commitlog.specs.Reads.{IsLogDamageAt, NoFalseLogDamage};
ghost use Rattle.sasi_manifest.specs.ListedTables.{listed};
ghost use Rattle.sasi_manifest.specs.Listings.{CanStart};
ghost use Rattle.sasi_folder.specs.Replay.{is_replayed};
ghost use Rattle.sasi_folder.specs.FolderContents.{types_listed};
ghost use Rattle.sasi_layout.specs.Serving.{IsTyped};
ghost use Rattle.sasi_types.specs.Token.{AreBytes};
ghost use Rattle.std.specs.List.{AllByRecursion};
ghost use Rattle.sasi_recover.specs.OpeningReads.{ReadsLiveOnce};
ghost use Rattle.sasi_recover.specs.ReplayState.{HasTableFor, IsLiveSegment, IsPutAt, IsReplayOf, after_mutation, after_replayed, empty_maps, empty_state, seen};
ghost use Rattle.sasi_recover.specs.Replaying.{LiveSegmentsExist, MergesNext, HasReplayed, ReplayShowsDamage, SegmentShowsDamage, ReadsAll, ReadsSegment, Replays, ReplaysSegment, NoFalseReplayDamage, NoFalseSegmentDamage};

use crate::{MapList, TableMap};
use sasi_cells::Mutation;
use sasi_commitlog::Log;
use sasi_host::{Host, ReadFault, SegmentNumber};
use sasi_manifest::{ListedTable, Listing};
use sasi_memtable::Memtable;
use sasi_types::{Partitioner, TableNumber, TableTypes};
use std::alloc::{AllocError, Global};

/// A memtable for each listed table, and the largest timestamp of the mutations that were replayed into them.
#[derive(Drop)]
pub struct Memtables {
    pub tables: MapList,
    pub max_timestamp: u64,
}

/// What the live segments of the log make, with the last of them at its closed gate.
#[derive(Drop)]
pub struct Replayed {
    pub replay: Memtables,
    pub log: Log,
}

/// Replays all mutations of the live segments into a memtable for each listed table.
pub fn replay<H: Host>(
    alloc: Global,
    host: &mut H,
    listing: &Listing,
) -> Result<Replayed, ReadFault>
    requires live { CanStart listing.now.floor listing.now.last }
    requires there { LiveSegmentsExist (H.view host.old) listing.now }
    ensures replayed { IfOk result (λ r. Replays (H.view host.old) (H.view host.new) listing.now r.log.at (seen r.replay)) }
    ensures reads { IfOk result (λ r. ReadsAll (H.view host.old) listing.now (seen r.replay)) }
    ensures tables { IfOk result (λ r. IsReplayOf listing.now (seen r.replay)) }
    ensures room { IfOk result (λ r. Reaches (H.view host.new) (log_name listing.now.last) (r.log.at + 1)) }
    ensures usable { IfOk result (λ r. IsTrue r.log.usable) }
    ensures file { IfOk result (λ r. r.log.file ≡ log_name listing.now.last) }
    ensures damaged { IfErr result (ReplayShowsDamage (H.view host.old) listing.now) }
    ensures undamaged { IfErr result (NoFalseReplayDamage (H.view host.old) listing.now) }
    ensures changes { Changes Same (H.view host.old) (H.view host.new) }
    ensures once { ReadsLiveOnce (H.view host.old) (H.view host.new) listing.now }
    ensures causes { ReadingCauses (H.view host.old) (H.view host.new) result }
{
    let types = listing.table_types(alloc)?;
    let mut replay = empty_replay(alloc, listing)?;
    replay_older(alloc, host, &mut replay, listing, &types)?;
    let log = replay_segment(alloc, host, &mut replay, listing, &types, listing.last)?;
    Ok(Replayed { replay, log })
}

// Replays the mutations of the live segments before the last one.
fn replay_older<H: Host>(
    alloc: Global,
    host: &mut H,
    replay: &mut Memtables,
    listing: &Listing,
    types: &TableTypes,
) -> Result<(), ReadFault>
    requires live { CanStart listing.now.floor listing.now.last }
    requires there { LiveSegmentsExist (H.view host.old) listing.now }
    requires types { types.now ≡ types_listed listing.now }
    requires start { seen replay.old ≡ empty_state listing.now }
    requires tables { IsReplayOf listing.now (seen replay.old) }
    ensures replayed { OnOk result (HasReplayed (H.view host.old) (H.view host.new) listing.now listing.now.last (seen replay.new)) }
    ensures damaged { IfErr result (ReplayShowsDamage (H.view host.old) listing.now) }
    ensures undamaged { IfErr result (NoFalseReplayDamage (H.view host.old) listing.now) }
    ensures changes { Changes Same (H.view host.old) (H.view host.new) }
    ensures once { ReadsLiveOnce (H.view host.old) (H.view host.new) listing.now }
    ensures causes { ReadingCauses (H.view host.old) (H.view host.new) result }
{
    for number in listing.floor..listing.last {
        replay_segment(alloc, host, replay, listing, types, number)?;
    }
    Ok(())
}

// An empty memtable for each listed table.
fn empty_replay(alloc: Global, listing: &Listing) -> Result<Memtables, AllocError>
    ensures state { IfOk result (λ replay. seen replay ≡ empty_state listing.now) }
    ensures tables { IfOk result (λ replay. IsReplayOf listing.now (seen replay)) }
{
    let tables = empty_tables(alloc, listing.partitioner, listing.tables.as_slice())?;
    Ok(Memtables {
        tables,
        max_timestamp: 0,
    })
}

fn empty_tables(
    alloc: Global,
    partitioner: Partitioner,
    tables: &[ListedTable],
) -> Result<MapList, AllocError>
    requires numbers { RisesFrom 1 (map (λ t. t.table.number) tables.now) }
    ensures empty { IfOk result (λ maps. maps.items ≡ empty_maps partitioner 1 (map listed tables.now)) }
    ensures typed { OnOk result (AllByRecursion (λ t. IsTyped t.definition) (map listed tables.now)) }
{
    let mut maps = Vec::with_capacity(alloc, tables.len())?;
    for listed in tables {
        maps.push(TableMap {
            number: listed.table.number,
            memtable: Memtable::new(alloc, partitioner),
            first: None,
        })?;
    }
    Ok(maps)
}

// Whether mutations of the table with this number are replayed from the segment.
fn is_replayed(tables: &[ListedTable], segment: SegmentNumber, number: TableNumber) -> bool
    ensures { result ≡ is_replayed (map listed tables.now) segment number }
{
    if number == 0 {
        return false;
    }
    match tables.get(number as usize - 1) {
        Some(listed) => listed.since <= segment,
        None => false,
    }
}

// Replays a mutation of the segment with this number, unless its table begins later.
fn merge(
    replay: &mut Memtables,
    listing: &Listing,
    number: SegmentNumber,
    mutation: Mutation,
) -> Result<(), AllocError>
    requires known { IsMutationOf (types_listed listing.now) mutation }
    requires tables { IsReplayOf listing.now (seen replay.old) }
    requires live { IsLiveSegment listing.now number }
    ensures state { OnOk result (seen replay.new ≡ after_mutation listing.now.tables number (seen replay.old) mutation) }
    ensures tables { OnOk result (IsReplayOf listing.now (seen replay.new)) }
{
    note_bytes(mutation.key.bytes());
    if !is_replayed(listing.tables.as_slice(), number, mutation.table) {
        return Ok(());
    }
    put(replay, number, mutation)
}

// Does nothing. Its clause says that what a slice has are bytes.
fn note_bytes(bytes: &[u8])
    ensures { AreBytes bytes.now }
{
    let _ = bytes;
}

// Merges a mutation of a segment into the memtable of its table.
fn put(replay: &mut Memtables, segment: SegmentNumber, mutation: Mutation) -> Result<(), AllocError>
    requires { HasTableFor replay.old.tables.items mutation }
    ensures { OnOk result (seen replay.new ≡ after_replayed segment (seen replay.old) mutation) }
{
    let time = mutation.change.max_timestamp();
    put_into(&mut replay.tables, segment, mutation)?;
    replay.max_timestamp = replay.max_timestamp.max(time);
    Ok(())
}

fn put_into(
    tables: &mut MapList,
    segment: SegmentNumber,
    mutation: Mutation,
) -> Result<(), AllocError>
    requires { HasTableFor tables.old.items mutation }
    ensures { OnOk result (IsPutAt segment mutation tables.old.items tables.new.items) }
{
    let table = &mut tables[mutation.table as usize - 1];
    table.memtable.put_from(mutation.key, mutation.change)?;
    table.first = table.first.or(Some(segment));
    Ok(())
}

// Reads the next mutation of the segment, merges it where there is one, and tells whether there was.
fn merge_next<H: Host>(
    host: &mut H,
    log: &mut Log,
    replay: &mut Memtables,
    listing: &Listing,
    types: &TableTypes,
    number: SegmentNumber,
) -> Result<bool, ReadFault>
    requires there { IsThere (H.view host.old) log.old.file }
    requires usable { IsTrue log.old.usable }
    requires buffered { IsBuffered log.old.buffered (H.view host.old).files }
    requires types { types.now ≡ types_listed listing.now }
    requires tables { IsReplayOf listing.now (seen replay.old) }
    requires live { IsLiveSegment listing.now number }
    ensures tables { OnOk result (IsReplayOf listing.now (seen replay.new)) }
    ensures merged { IfOk result (λ is_more. MergesNext (H.view host.old) (H.view host.new) listing.now number log.old log.new (seen replay.old) (seen replay.new) is_more) }
    ensures damaged { IfErr result (IsLogDamageAt (H.view host.old) log.old.file (types_listed listing.now) log.old.at) }
    ensures undamaged { IfErr result (NoFalseLogDamage (H.view host.old) log.old.file (types_listed listing.now) log.old.at) }
    ensures changes { Changes Same (H.view host.old) (H.view host.new) }
    ensures buffered { IsBuffered log.new.buffered (H.view host.new).files }
    ensures once { IsSequential log.old → ReadsPagesOnce (H.view host.old) (H.view host.new) log.old log.new result }
    ensures causes { ReadingCauses (H.view host.old) (H.view host.new) result }
{
    match log.next(host, types)? {
        Some(mutation) => {
            merge(replay, listing, number, mutation)?;
            Ok(true)
        }
        None => Ok(false),
    }
}

// Replays the mutations of the segment with this number. The log then stands at its closed gate.
fn replay_segment<H: Host>(
    alloc: Global,
    host: &mut H,
    replay: &mut Memtables,
    listing: &Listing,
    types: &TableTypes,
    number: SegmentNumber,
) -> Result<Log, ReadFault>
    requires there { IsThere (H.view host.old) (log_name number) }
    requires types { types.now ≡ types_listed listing.now }
    requires tables { IsReplayOf listing.now (seen replay.old) }
    requires live { IsLiveSegment listing.now number }
    ensures replayed { IfOk result (λ log. ReplaysSegment (H.view host.old) (H.view host.new) listing.now number log.at (seen replay.old) (seen replay.new)) }
    ensures reads { OnOk result (ReadsSegment (H.view host.old) listing.now number (seen replay.old) (seen replay.new)) }
    ensures tables { OnOk result (IsReplayOf listing.now (seen replay.new)) }
    ensures room { IfOk result (λ log. Reaches (H.view host.new) (log_name number) (log.at + 1)) }
    ensures usable { IfOk result (λ log. IsTrue log.usable) }
    ensures file { IfOk result (λ log. log.file ≡ log_name number) }
    ensures damaged { IfErr result (SegmentShowsDamage (H.view host.old) listing.now number) }
    ensures undamaged { IfErr result (NoFalseSegmentDamage (H.view host.old) listing.now number) }
    ensures changes { Changes Same (H.view host.old) (H.view host.new) }
    ensures once { ReadsWithinPages (H.view host.old) (H.view host.new) (log_name number) }
    ensures causes { ReadingCauses (H.view host.old) (H.view host.new) result }
{
    let mut log = Log::open(alloc, host, number)?;
    'merging: while merge_next(host, &mut log, replay, listing, types, number)? {}
    Ok(log)
}
