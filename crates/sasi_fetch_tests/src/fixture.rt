// A table of two texts: a data file with the row k1, and three maps: the first has a newer text of k1 and the row k2, the second
// has the row k3 alone, and the third has the newest text of k1.
ghost use Rattle.std.specs.Prelude.{◌<◌, []};
ghost use Rattle.std.specs.List.{AllByRecursion};
ghost use Rattle.sasi_types.specs.declared.column.ColumnType.TheVariants as kinds;
ghost use Rattle.sasi_machine.specs.TableRows.{AreStored};
ghost use Rattle.sasi_machine.specs.Where.{HasTexts, IsText};
ghost use Rattle.sasi_plan_tests.specs.Fixture.{HasMaps, IsOwnPart};

use sasi_cells::Partition;
use sasi_host::{FileName, Kind, MemHost};
use sasi_manifest::PartNumbers;
use sasi_memindex::MapBook;
use sasi_memtable::Memtable;
use sasi_types::{Cell, Key, Partitioner, Text, Value};
use sasi_views::{Part, PartList, View, ViewBook};
use std::alloc::Global;
use std::process::Abort;

/// The data file.
pub const DATA: FileName = FileName {
    kind: Kind::Data,
    number: 7,
    index: 0,
    part: 0,
};

/// The data file of the key k1 with two cells at time 5: the marker, and the text x in column 1. Another writer of the format gave it.
const ONE: [u8; 125] = [
    b'S', b'A', b'S', b'I', b'D', b'A', b'T', b'1', 0, 0, 0, 1, 0, 0, 0, 0, 0, 0, 0, 41, 0, 2,
    b'k', b'1', 0, 0, 0, 0, 0, 0, 0, 0, 0, 2, 0, 0, 0, 0, 0, 0, 0, 0, 0, 5, 1, 0, 0, 0, 1, 0, 0, 0,
    0, 0, 0, 0, 5, 1, 0, 1, b'x', 0, 0, 0, 1, 0, 0, 0, 0, b'k', b'1', 0, 0, 0, 0, 0, 0, 0, 0, 0, 0,
    0, 0, 0, 16, 0, 0, 0, 0, 0, 0, 0, 61, 0, 0, 0, 0, 0, 0, 0, 1, 0, 0, 0, 0, 0, 0, 0, 5, 0, 0, 0,
    0, 0, 0, 0, 61, b'S', b'A', b'S', b'I', b'D', b'E', b'N', b'D',
];

/// A host with the data file.
pub fn host_of(rt: &impl Abort, alloc: Global) -> MemHost {
    let mut host = MemHost::new(alloc);
    host.put(DATA, &ONE).expect(rt, "memory for a file");
    host
}

/// A row with a text in column 1.
fn row_of(rt: &impl Abort, alloc: Global, time: u64, text: &str) -> Partition
    requires { 0 < time }
    ensures { HasTexts result }
{
    let mut part = Partition::new(alloc);
    let cell = Cell {
        time,
        value: Some(text_of(rt, alloc, text)),
    };
    part.put(1, cell).expect(rt, "memory");
    part
}

fn text_of(rt: &impl Abort, alloc: Global, text: &str) -> Value
    ensures { IsText result }
{
    Value::Text(Text::new(text.as_bytes().to_vec(alloc).expect(rt, "memory")))
}

fn key_of(rt: &impl Abort, alloc: Global, bytes: &[u8]) -> Key {
    Key::new(alloc, bytes).expect(rt, "a key")
}

/// Puts a row into a map.
fn put(rt: &impl Abort, map: &mut Memtable, key: Key, row: Partition)
    requires stored { AreStored kinds.Text map.old.partitions }
    requires row { HasTexts row }
    ensures { AreStored kinds.Text map.new.partitions }
{
    map.put_from(key, row).expect(rt, "memory for a change");
}

/// The first map: the text of k1 was written at 6, and that of k2 at 5.
fn first_map(rt: &impl Abort, alloc: Global) -> Memtable
    ensures { AreStored kinds.Text result.partitions }
{
    let mut map = Memtable::new(alloc, Partitioner::Lead8);
    let (first, second) = (key_of(rt, alloc, b"k1"), key_of(rt, alloc, b"k2"));
    put(rt, &mut map, second, row_of(rt, alloc, 5, "x"));
    put(rt, &mut map, first, row_of(rt, alloc, 6, "y"));
    map
}

/// A map with one row, whose text was written then.
pub fn one_row(rt: &impl Abort, alloc: Global, key: &[u8], time: u64, text: &str) -> Memtable
    requires { 0 < time }
    ensures { AreStored kinds.Text result.partitions }
{
    let mut map = Memtable::new(alloc, Partitioner::Lead8);
    let key = key_of(rt, alloc, key);
    put(rt, &mut map, key, row_of(rt, alloc, time, text));
    map
}

/// A book in which the maps have the numbers 1 to 3.
pub fn book_of(rt: &impl Abort, alloc: Global) -> MapBook
    ensures { HasMaps [] result }
{
    let mut book = MapBook::new(alloc);
    book.add(1, first_map(rt, alloc)).expect(rt, "memory");
    book.add(2, one_row(rt, alloc, b"k3", 5, "w"))
        .expect(rt, "memory");
    book.add(3, one_row(rt, alloc, b"k1", 7, "z"))
        .expect(rt, "memory");
    book
}

/// The data file and the maps, the oldest first.
pub fn file_and_maps(rt: &impl Abort, alloc: Global) -> View
    ensures { AllByRecursion IsOwnPart result }
{
    let mut parts = PartList::new(alloc);
    let file = Part::File {
        number: 7,
        indexes: PartNumbers::new(alloc),
    };
    parts.push(file).expect(rt, "memory");
    parts.push(Part::Map(1)).expect(rt, "memory");
    parts.push(Part::Map(2)).expect(rt, "memory");
    parts.push(Part::Map(3)).expect(rt, "memory");
    ViewBook::new(alloc).take(parts).expect(rt, "memory")
}
