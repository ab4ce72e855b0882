// Passes partitions to an observer.
ghost use Rattle.std.specs.Prelude.{◌∷◌, ◌++◌, [], List, map, OnOk};
ghost use Rattle.sasi_types.specs.declared.class.Class.{Class};
ghost use Rattle.sasi_datawrite.specs.Calls.{Call, cell_call, partition_calls};
ghost use Rattle.sasi_datawrite.specs.Causes.{MissingOnlyIfLacking};

use crate::FlushObserver;
use sasi_cells::{Entry, Partition};
use sasi_types::{KitFault, Pair};
use std::alloc::Global;

/// Passes the start of a partition to the observer, and each of its cells.
pub fn notify<O: FlushObserver>(
    alloc: Global,
    watch: &mut O,
    pair: Pair,
    part: &Partition,
) -> Result<(), KitFault>
    ensures agrees { OnOk result ((calls : List Call) → O.agrees watch.old calls → O.agrees watch.new (calls ++ partition_calls pair.token pair.place part.now)) }
    ensures lacks { (class : Class) → O.lacks watch.new class → O.lacks watch.old class }
    ensures missing { MissingOnlyIfLacking (O.lacks watch.old) result }
{
    watch.start_partition(pair.token, pair.place)?;
    notify_cells(alloc, watch, part.cells())
}

fn notify_cells<O: FlushObserver>(
    alloc: Global,
    watch: &mut O,
    cells: &[Entry],
) -> Result<(), KitFault>
    ensures agrees { OnOk result ((calls : List Call) → O.agrees watch.old calls → O.agrees watch.new (calls ++ map cell_call cells.now)) }
    ensures lacks { (class : Class) → O.lacks watch.new class → O.lacks watch.old class }
    ensures missing { MissingOnlyIfLacking (O.lacks watch.old) result }
{
    for entry in cells {
        notify_cell(alloc, watch, entry)?;
    }
    Ok(())
}

fn notify_cell<O: FlushObserver>(
    alloc: Global,
    watch: &mut O,
    entry: &Entry,
) -> Result<(), KitFault>
    ensures agrees { OnOk result ((calls : List Call) → O.agrees watch.old calls → O.agrees watch.new (calls ++ cell_call entry.now ∷ [])) }
    ensures lacks { (class : Class) → O.lacks watch.new class → O.lacks watch.old class }
    ensures missing { MissingOnlyIfLacking (O.lacks watch.old) result }
{
    let cell = entry.copy(alloc)?.into_cell();
    watch.cell(entry.column(), &cell)
}
