// A table of two texts with two data files, and their compaction.
ghost use Rattle.std.specs.Prelude.{◌≡◌, [], ◌∷◌};
ghost use Rattle.std.specs.List.{AllByRecursion};
ghost use Rattle.sasi_types.specs.declared.column.ColumnType.TheVariants as kinds;
ghost use Rattle.sasi_host.specs.Memory.{host_view, memory_host};
ghost use Rattle.sasi_host.specs.Names.{data_name};
ghost use Rattle.sasi_compact.specs.Tasks.{CanGoOn, IsOnColumn};
ghost use Rattle.sasi_compact_tests.specs.OwnTask.{IsOwnTask};

use sasi_analyzers::{Analyzer, Kit, Whole};
use sasi_compact::CompactTask;
use sasi_host::{FileName, MemHost};
use sasi_manifest::NumberList;
use sasi_types::{ColumnType, IndexDef, IndexList, Mode, Name, Partitioner, Rule, TypeList};
use std::alloc::Global;
use std::process::Abort;

/// A data file.
pub fn data_file(number: u32) -> FileName
    ensures { result ≡ data_name number }
{
    FileName::data(number)
}

/// The data file 1: k1 with the text x and k2 with y, written at 5.
pub const OLDER: [u8; 186] = [
    b'S', b'A', b'S', b'I', b'D', b'A', b'T', 49, 0, 0, 0, 1, 0, 0, 0, 0, 0, 0, 0, 41, 0, 2, b'k',
    49, 0, 0, 0, 0, 0, 0, 0, 0, 0, 2, 0, 0, 0, 0, 0, 0, 0, 0, 0, 5, 1, 0, 0, 0, 1, 0, 0, 0, 0, 0,
    0, 0, 5, 1, 0, 1, b'x', 0, 0, 0, 41, 0, 2, b'k', 50, 0, 0, 0, 0, 0, 0, 0, 0, 0, 2, 0, 0, 0, 0,
    0, 0, 0, 0, 0, 5, 1, 0, 0, 0, 1, 0, 0, 0, 0, 0, 0, 0, 5, 1, 0, 1, b'y', 0, 0, 0, 2, 0, 0, 0, 0,
    b'k', 49, 0, 0, 0, 0, 0, 0, 0, 0, 0, 0, 0, 0, 0, 16, b'k', 50, 0, 0, 0, 0, 0, 0, 0, 0, 0, 0, 0,
    0, 0, 61, 0, 0, 0, 0, 0, 0, 0, b'j', 0, 0, 0, 0, 0, 0, 0, 2, 0, 0, 0, 0, 0, 0, 0, 5, 0, 0, 0,
    0, 0, 0, 0, b'j', b'S', b'A', b'S', b'I', b'D', b'E', b'N', b'D',
];

/// The data file 2: the text of k1 was deleted at 7, and k3 with z was written at 6.
pub const NEWER: [u8; 170] = [
    b'S', b'A', b'S', b'I', b'D', b'A', b'T', 49, 0, 0, 0, 1, 0, 0, 0, 0, 0, 0, 0, 25, 0, 2, b'k',
    49, 0, 0, 0, 0, 0, 0, 0, 0, 0, 1, 0, 1, 0, 0, 0, 0, 0, 0, 0, 7, 0, 0, 0, 0, 41, 0, 2, b'k', 51,
    0, 0, 0, 0, 0, 0, 0, 0, 0, 2, 0, 0, 0, 0, 0, 0, 0, 0, 0, 6, 1, 0, 0, 0, 1, 0, 0, 0, 0, 0, 0, 0,
    6, 1, 0, 1, b'z', 0, 0, 0, 2, 0, 0, 0, 0, b'k', 49, 0, 0, 0, 0, 0, 0, 0, 0, 0, 0, 0, 0, 0, 16,
    b'k', 51, 0, 0, 0, 0, 0, 0, 0, 0, 0, 0, 0, 0, 0, 45, 0, 0, 0, 0, 0, 0, 0, b'Z', 0, 0, 0, 0, 0,
    0, 0, 2, 0, 0, 0, 0, 0, 0, 0, 7, 0, 0, 0, 0, 0, 0, 0, b'Z', b'S', b'A', b'S', b'I', b'D', b'E',
    b'N', b'D',
];

/// The data file of their merge: of k1 the tombstone is left.
pub const MERGED: [u8; 244] = [
    b'S', b'A', b'S', b'I', b'D', b'A', b'T', 49, 0, 0, 0, 1, 0, 0, 0, 0, 0, 0, 0, 38, 0, 2, b'k',
    49, 0, 0, 0, 0, 0, 0, 0, 0, 0, 2, 0, 0, 0, 0, 0, 0, 0, 0, 0, 5, 1, 0, 0, 0, 1, 0, 0, 0, 0, 0,
    0, 0, 7, 0, 0, 0, 0, 41, 0, 2, b'k', 50, 0, 0, 0, 0, 0, 0, 0, 0, 0, 2, 0, 0, 0, 0, 0, 0, 0, 0,
    0, 5, 1, 0, 0, 0, 1, 0, 0, 0, 0, 0, 0, 0, 5, 1, 0, 1, b'y', 0, 0, 0, 41, 0, 2, b'k', 51, 0, 0,
    0, 0, 0, 0, 0, 0, 0, 2, 0, 0, 0, 0, 0, 0, 0, 0, 0, 6, 1, 0, 0, 0, 1, 0, 0, 0, 0, 0, 0, 0, 6, 1,
    0, 1, b'z', 0, 0, 0, 3, 0, 0, 0, 0, b'k', 49, 0, 0, 0, 0, 0, 0, 0, 0, 0, 0, 0, 0, 0, 16, b'k',
    50, 0, 0, 0, 0, 0, 0, 0, 0, 0, 0, 0, 0, 0, 58, b'k', 51, 0, 0, 0, 0, 0, 0, 0, 0, 0, 0, 0, 0, 0,
    b'g', 0, 0, 0, 0, 0, 0, 0, 148, 0, 0, 0, 0, 0, 0, 0, 3, 0, 0, 0, 0, 0, 0, 0, 7, 0, 0, 0, 0, 0,
    0, 0, 148, b'S', b'A', b'S', b'I', b'D', b'E', b'N', b'D',
];

/// How many bytes the output has after its first unit: its header, and k1.
pub const FIRST: usize = 58;

/// A host with both data files.
pub fn host_of(rt: &impl Abort, alloc: Global) -> MemHost {
    let mut host = MemHost::new(alloc);
    host.put(data_file(1), &OLDER).expect(rt, "memory");
    host.put(data_file(2), &NEWER).expect(rt, "memory");
    host
}

/// A kit that takes a text as one term.
pub fn kit_of(rt: &impl Abort, alloc: Global) -> Kit {
    let mut objects: Vec<Box<dyn Analyzer>> = Vec::new(alloc);
    let whole = Box::new(alloc, Whole::new()).expect(rt, "memory");
    assert!(rt; objects.push(whole).is_ok());
    Kit::new(objects)
}

/// The index i on the text.
fn indexes_of(rt: &impl Abort, alloc: Global) -> IndexList
    ensures { AllByRecursion (IsOnColumn (kinds.Text ∷ kinds.Text ∷ [])) result }
{
    let mut indexes = IndexList::new(alloc);
    let index = IndexDef {
        number: 1,
        table: 1,
        name: Name::new(b"i".to_vec(alloc).expect(rt, "memory")),
        column: 1,
        kind: ColumnType::Text,
        mode: Mode::Prefix,
        rule: Some(Rule::Whole { fold: false }),
    };
    indexes.push(index).expect(rt, "memory");
    indexes
}

/// The types of the key and of the text.
fn types_of(rt: &impl Abort, alloc: Global) -> TypeList
    ensures { result ≡ kinds.Text ∷ kinds.Text ∷ [] }
{
    let mut types = TypeList::new(alloc);
    types.push(ColumnType::Text).expect(rt, "memory");
    types.push(ColumnType::Text).expect(rt, "memory");
    types
}

/// A compaction of both data files into the data file 3.
pub fn task_of(rt: &impl Abort, alloc: Global) -> CompactTask
    ensures { IsOwnTask result }
{
    let mut sources = NumberList::new(alloc);
    sources.push(1).expect(rt, "memory");
    sources.push(2).expect(rt, "memory");
    CompactTask::begin(
        alloc,
        sources,
        3,
        indexes_of(rt, alloc),
        types_of(rt, alloc),
        Partitioner::Lead8,
    )
}

/// Both sources are there, and the output isn't.
pub fn check_begins(rt: &impl Abort, host: &MemHost, task: &CompactTask)
    requires { IsOwnTask task.now }
    ensures { CanGoOn (host_view (memory_host host.now)) task.now }
{
    assert!(rt; host.bytes(data_file(1)).is_some());
    assert!(rt; host.bytes(data_file(2)).is_some());
    assert!(rt; host.bytes(data_file(3)).is_none());
    let _ = task;
}
