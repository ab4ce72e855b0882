// Writes.
ghost use Rattle.std.specs.Prelude.{◌≡◌, ◌∷◌, [], OnErr, OnOk};
ghost use Rattle.sasi_layout.specs.Layout.{state_of};
ghost use Rattle.sasi_layout.specs.Moves.{after_moves, after_put};
ghost use Rattle.sasi_layout.specs.Statements.{are_full, moves_asked};
ghost use Rattle.sasi_machine.specs.Prepares.{IsApplicable};
ghost use Rattle.sasi_model.specs.Asked.{Writes};
ghost use Rattle.sasi_machine_layout.specs.Contents.{HasTable, IsContents, layout_of};
ghost use Rattle.sasi_machine_layout.specs.Steps.{IsMadeInPart, IsPut};

use crate::contents::{Contents, TableContents};
use crate::flush::flush;
use sasi_cells::Mutation;
use sasi_host::SegmentNumber;
use sasi_memtable::Memtable;
use std::alloc::AllocError;

/// A table is flushed once its memtable has so many cells, or so many bytes of keys and values.
const CELL_LIMIT: u64 = 65_536;

const BYTE_LIMIT: u64 = 1 << 26;

/// Puts a mutation, and flushes its table if the memtable is full then.
pub fn write(contents: &mut Contents, mutation: Mutation) -> Result<(), AllocError>
    requires contents { IsContents contents.old }
    requires fits { IsApplicable (state_of (layout_of contents.old)) mutation }
    ensures ok { OnOk result (layout_of contents.new ≡ after_moves (moves_asked (layout_of contents.old) (Writes mutation.table mutation.key mutation.change)) (layout_of contents.old)) }
    ensures err { OnErr result (IsMadeInPart (moves_asked (layout_of contents.old) (Writes mutation.table mutation.key mutation.change)) (layout_of contents.old) (layout_of contents.new)) }
    ensures kept { IsContents contents.new }
{
    let table = mutation.table;
    put(contents, mutation)?;
    let memtable = &contents.tables[table as usize - 1].memtable;
    if is_full(memtable) {
        return flush(contents, table);
    }
    Ok(())
}

// Merges a mutation into its memtable.
fn put(contents: &mut Contents, mutation: Mutation) -> Result<(), AllocError>
    requires contents { IsContents contents.old }
    requires fits { IsApplicable (state_of (layout_of contents.old)) mutation }
    ensures ok { OnOk result (layout_of contents.new ≡ after_put mutation (layout_of contents.old)) }
    ensures err { OnErr result (layout_of contents.new ≡ layout_of contents.old) }
    ensures kept { IsContents contents.new }
    ensures there { OnOk result (HasTable contents.new mutation.table) }
{
    let time = mutation.change.max_timestamp();
    let last = contents.last;
    let table = &mut contents.tables[mutation.table as usize - 1];
    put_in(table, last, mutation)?;
    contents.max_timestamp = contents.max_timestamp.max(time);
    Ok(())
}

// Merges a mutation into the memtable, where this is the last segment of the log.
fn put_in(
    table: &mut TableContents,
    last: SegmentNumber,
    mutation: Mutation,
) -> Result<(), AllocError>
    ensures ok { OnOk result (IsPut last mutation table.old table.new) }
    ensures err { OnErr result (table.new ≡ table.old) }
{
    table.memtable.put_from(mutation.key, mutation.change)?;
    if table.first.is_none() {
        table.first = Some(last);
    }
    Ok(())
}

// Whether the memtable has so many cells or bytes that it has to be flushed.
fn is_full(memtable: &Memtable) -> bool
    ensures { result ≡ are_full (memtable.now.partitions ∷ []) }
{
    memtable.cells() >= CELL_LIMIT || memtable.bytes() >= BYTE_LIMIT
}
