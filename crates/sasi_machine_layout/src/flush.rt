// Flushes.
ghost use Rattle.std.specs.Prelude.{◌≡◌, ◌<◌, ◌++◌, ◌∷◌, [], IfOk, OnErr, OnOk};
ghost use Rattle.std.specs.Vec.{vec_capacity, vec_len};
ghost use Rattle.sasi_layout.specs.Layout.{drawn};
ghost use Rattle.sasi_layout.specs.Moves.{after_flush, after_moves, flush_parts};
ghost use Rattle.sasi_layout.specs.Statements.{any_partition, flush_where};
ghost use Rattle.sasi_machine_layout.specs.Contents.{HasTable, IsContents, layout_of};
ghost use Rattle.sasi_machine_layout.specs.Draws.{IsDrawn, IsStored, IsUntouched};

use crate::contents::{Contents, FileContents, TableContents};
use crate::draws::{draw_parts, floor_without, last_part, rising_numbers};
use crate::records::{length_with, number_after, record_after};
use sasi_host::{DataNumber, SegmentNumber};
use sasi_manifest::{Edit, EditList, ListedFile, ListedFiles, NumberList, PartNumbers};
use sasi_memtable::Memtable;
use sasi_types::TableNumber;
use std::alloc::{AllocError, Global};
use std::mem;

/// Flushes a table, unless nothing of it is in memory.
pub fn flush_unless_empty(contents: &mut Contents, table: TableNumber) -> Result<(), AllocError>
    requires contents { IsContents contents.old }
    requires there { HasTable contents.old table }
    ensures ok { OnOk result (layout_of contents.new ≡ after_moves (flush_where any_partition table (layout_of contents.old)) (layout_of contents.old)) }
    ensures err { OnErr result (layout_of contents.new ≡ layout_of contents.old) }
    ensures kept { IsContents contents.new }
{
    let memtable = &contents.tables[table as usize - 1].memtable;
    if memtable.is_empty() {
        return Ok(());
    }
    flush(contents, table)
}

/// What a flush makes: the file, its record's place in the manifest, and the segments that stay live.
#[derive(Drop)]
pub struct Drawn {
    pub listed: ListedFile,
    pub part: u32,
    pub floor: SegmentNumber,
    pub last: SegmentNumber,
    pub records: u64,
    pub length: u64,
}

/// Flushes a table: its memtable becomes a data file, and the log goes on in a new segment.
pub fn flush(contents: &mut Contents, table: TableNumber) -> Result<(), AllocError>
    requires contents { IsContents contents.old }
    requires there { HasTable contents.old table }
    ensures ok { OnOk result (layout_of contents.new ≡ after_flush table (layout_of contents.old)) }
    ensures err { OnErr result (layout_of contents.new ≡ layout_of contents.old) }
    ensures kept { IsContents contents.new }
{
    let drawn = draw(contents, table)?;
    let empty = Memtable::new(contents.alloc, contents.partitioner);
    let number = drawn.listed.number;
    let here = &mut contents.tables[table as usize - 1];
    store(here, drawn.listed, drawn.last, empty)?;
    contents.floor = drawn.floor;
    contents.last = drawn.last;
    contents.records = drawn.records;
    contents.length = drawn.length;
    contents.data = number;
    contents.part = drawn.part;
    Ok(())
}

// Draws the numbers of a flush, where they have 32 bits, and reckons its record.
fn draw(contents: &Contents, table: TableNumber) -> Result<Drawn, AllocError>
    requires contents { IsContents contents.now }
    requires there { HasTable contents.now table }
    ensures { IfOk result (IsDrawn table (layout_of contents.now)) }
{
    let rising = rising_in(contents, table)?;
    draw_with(contents, table, &rising)
}

// The same for indexes of these numbers.
fn draw_with(contents: &Contents, table: TableNumber, rising: &[u32]) -> Result<Drawn, AllocError>
    requires contents { IsContents contents.now }
    requires drawn { drawn contents.now.part rising.now ≡ flush_parts table (layout_of contents.now) }
    ensures { IfOk result (IsDrawn table (layout_of contents.now)) }
{
    let alloc = contents.alloc;
    let number = number_after(contents.data)?;
    let last = number_after(contents.last)?;
    let records = record_after(contents.records)?;
    let part = last_part(contents.part, rising.len())?;
    let floor = floor_without(1, &contents.tables, table, last);
    let parts = draw_parts(alloc, rising, contents.part)?;
    let edits = flush_edits(alloc, table, number, parts, floor, last)?;
    let length = length_with(contents.length, &edits)?;
    let parts = draw_parts(alloc, rising, contents.part)?;
    Ok(Drawn {
        listed: ListedFile { number, parts },
        part,
        floor,
        last,
        records,
        length,
    })
}

// The numbers of the table's indexes, rising.
fn rising_in(contents: &Contents, table: TableNumber) -> Result<Vec<u32>, AllocError>
    requires contents { IsContents contents.now }
    requires there { HasTable contents.now table }
    ensures { IfOk result (λ numbers. drawn contents.now.part numbers.items ≡ flush_parts table (layout_of contents.now)) }
{
    let tables = contents.schema.tables();
    rising_numbers(
        contents.alloc,
        tables[table as usize - 1].indexes.as_slice(),
    )
}

// The manifest's record of it.
fn flush_edits(
    alloc: Global,
    table: TableNumber,
    number: DataNumber,
    parts: PartNumbers,
    floor: SegmentNumber,
    last: SegmentNumber,
) -> Result<EditList, AllocError>
    ensures { IfOk result (λ edits. edits ≡ Edit.Replace table [] (record { number = number; parts = parts } ∷ []) last floor last ∷ []) }
{
    let mut added = ListedFiles::new(alloc);
    added.push(ListedFile { number, parts })?;
    let mut edits = EditList::new(alloc);
    edits.push(Edit::Replace {
        table,
        removed: NumberList::new(alloc),
        added,
        since: last,
        floor,
        last,
    })?;
    Ok(edits)
}

// What the memtable has becomes a file, and the table goes on with an empty one.
fn store(
    table: &mut TableContents,
    listed: ListedFile,
    last: SegmentNumber,
    empty: Memtable,
) -> Result<(), AllocError>
    ensures ok { OnOk result (IsStored table.old listed last empty table.new) }
    ensures err { OnErr result (IsUntouched table.old table.new) }
{
    reserve_one(&mut table.files)?;
    let holds = mem::replace(&mut table.memtable, empty);
    add_within(&mut table.files, FileContents { listed, holds });
    table.since = last;
    table.first = None;
    Ok(())
}

// Reserves room for one more.
fn reserve_one(files: &mut Vec<FileContents>) -> Result<(), AllocError>
    ensures room { OnOk result (vec_len files.new < vec_capacity files.new) }
    ensures items { files.new.items ≡ files.old.items }
{
    files.reserve(1)
}

// Adds a file at the end of a list that has room for it.
fn add_within(files: &mut Vec<FileContents>, file: FileContents)
    requires { vec_len files.old < vec_capacity files.old }
    ensures { files.new.items ≡ files.old.items ++ file ∷ [] }
{
    let _ = files.push(file);
}
