// What maps in memory have of a key.
ghost use Rattle.std.specs.Prelude.{◌≡◌, IfOk, OnOk};
ghost use Rattle.sasi_cells.specs.Maps.{joined};
ghost use Rattle.sasi_scan.specs.Finding.{found_in};
ghost use Rattle.sasi_engine.specs.TokenHits.{map_finds, maps_numbered};

use sasi_cells::Partition;
use sasi_memindex::MapBook;
use sasi_types::DecoratedKey;
use std::alloc::{AllocError, Global};

// A copy of what the map with this number has of a key; None also where the book has no such map.
fn find_in_map(
    alloc: Global,
    maps: &MapBook,
    number: u64,
    key: &DecoratedKey,
) -> Result<Option<Partition>, AllocError>
    ensures { IfOk result (λ found. found ≡ map_finds maps.now key.now number) }
{
    let Some(part) = maps.get(number) else {
        return Ok(None);
    };
    match part.map.get(key) {
        Some(found) => Ok(Some(found.copy(alloc)?)),
        None => Ok(None),
    }
}

// Merges what a later part of a table has of a key.
fn join(
    alloc: Global,
    found: &mut Option<Partition>,
    later: Option<Partition>,
) -> Result<(), AllocError>
    ensures { OnOk result (found.new ≡ joined found.old later) }
{
    let Some(later) = later else {
        return Ok(());
    };
    let mut merged = found.take().unwrap_or(Partition::new(alloc));
    merged.merge_from(later)?;
    *found = Some(merged);
    Ok(())
}

// Merges what the maps with these numbers have of a key onto what was found, the oldest first.
pub(crate) fn find_in_maps(
    alloc: Global,
    maps: &MapBook,
    numbers: &[u64],
    key: &DecoratedKey,
    found: Option<Partition>,
) -> Result<Option<Partition>, AllocError>
    ensures { IfOk result (λ all. all ≡ found_in key.now found (maps_numbered maps.now numbers.now)) }
{
    let mut all = found;
    for number in numbers {
        let part = find_in_map(alloc, maps, *number, key)?;
        join(alloc, &mut all, part)?;
    }
    Ok(all)
}
