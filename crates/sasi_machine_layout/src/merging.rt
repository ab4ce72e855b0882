// The merge of all parts of a table.
ghost use Rattle.std.specs.Prelude.{◌≡◌, IfOk, OnOk};
ghost use Rattle.sasi_cells.specs.Maps.{merge_maps, merged};
ghost use Rattle.sasi_machine_layout.specs.Contents.{IsUnder, maps_in};

use crate::contents::TableContents;
use sasi_memtable::Memtable;
use sasi_types::Partitioner;
use std::alloc::{AllocError, Global};

/// The merge of the parts of a table, the oldest first.
pub fn merged(
    alloc: Global,
    partitioner: Partitioner,
    parts: &TableContents,
) -> Result<Memtable, AllocError>
    requires { IsUnder partitioner parts.now }
    ensures partitions { IfOk result (λ all. all.partitions ≡ merged (maps_in parts.now)) }
{
    let mut all = Memtable::new(alloc, partitioner);
    let files = parts.files.as_slice();
    for file in files {
        merge_into(&mut all, &file.holds)?;
    }
    merge_into(&mut all, &parts.memtable)?;
    Ok(all)
}

// Merges a later map into what is merged so far.
fn merge_into(all: &mut Memtable, later: &Memtable) -> Result<(), AllocError>
    requires { later.now.partitioner ≡ all.old.partitioner }
    ensures partitions { OnOk result (all.new.partitions ≡ merge_maps all.old.partitions later.now.partitions) }
    ensures partitioner { all.new.partitioner ≡ all.old.partitioner }
{
    for (key, partition) in later.iter() {
        all.put(&key.key, partition)?;
    }
    Ok(())
}
