// Index files beside a data file.
ghost use Rattle.std.specs.Prelude.{◌≡◌, ◌≢◌, ◌≤◌, [], ◌∷◌, true, length, IsTrue};
ghost use Rattle.std.specs.FinMap as map;
ghost use Rattle.std.specs.List.{AllByRecursion};
ghost use Rattle.sasi_types.specs.declared.column.ColumnType.TheVariants.{Int, Text, Uuid};
ghost use Rattle.sasi_host.specs.Memory.{host_view, memory_host};
ghost use Rattle.sasi_host.specs.View.{Reaches};
ghost use Rattle.sasi_model.specs.Cells.{Partition as Written};
ghost use Rattle.sasi_memindex.specs.IndexedValues.{IsCellOf, IsValueOf};
ghost use Rattle.sasi_pairs.specs.Gathered.{CanIndex, IsBuilt, defs_of};
ghost use Rattle.sasi_pairs.specs.SealedFiles.{AreDefined};

use crate::fixture::{DATA, INSERTED, ONE, partition_of};
use sasi_analyzers::{Analyzer, Kit, Whole};
use sasi_cells::Partition;
use sasi_host::{FileName, Kind, MemHost};
use sasi_manifest::{PartNumber, PartNumbers};
use sasi_pairs::PairWriter;
use sasi_types::{ColumnType, IndexDef, IndexList, Mode, Name, Partitioner, Rule, Value};
use std::alloc::Global;
use std::process::Abort;
use std::str;

// The index files of the data file 7.
const TEXTS: FileName = FileName {
    kind: Kind::Index,
    number: 7,
    index: 3,
    part: 1,
};

const NUMBERS: FileName = FileName {
    kind: Kind::Index,
    number: 7,
    index: 4,
    part: 2,
};

// The definition of an index of a column of this type.
fn definition(
    rt: &impl Abort,
    alloc: Global,
    number: u32,
    column: u16,
    kind: ColumnType,
) -> IndexDef
    requires { kind ≢ Uuid }
    ensures built { IsBuilt result }
    ensures number { result.number ≡ number }
    ensures column { result.column ≡ column }
    ensures kind { result.kind ≡ kind }
{
    IndexDef {
        number,
        table: 1,
        name: Name::new(b"i".to_vec(alloc).expect(rt, "memory")),
        column,
        kind,
        mode: Mode::Prefix,
        rule: Some(Rule::Whole { fold: false }),
    }
}

// An index of texts, and one of numbers.
fn definitions(rt: &impl Abort, alloc: Global) -> IndexList
    ensures built { AllByRecursion IsBuilt result }
    ensures typed { (part : Written) → IsCellOf Text (map.get part.cells 1) → IsCellOf Int (map.get part.cells 2) → AllByRecursion (CanIndex part) result }
    ensures numbers { AreDefined result (record { index = 3; part = 1 } ∷ record { index = 4; part = 2 } ∷ []) }
{
    let mut defs = IndexList::new(alloc);
    let texts = definition(rt, alloc, 3, 1, ColumnType::Text);
    defs.push(texts).expect(rt, "memory");
    let numbers = definition(rt, alloc, 4, 2, ColumnType::Int);
    defs.push(numbers).expect(rt, "memory");
    defs
}

// The parts of both.
fn parts(rt: &impl Abort, alloc: Global) -> PartNumbers
    ensures { result ≡ record { index = 3; part = 1 } ∷ record { index = 4; part = 2 } ∷ [] }
{
    let mut parts = PartNumbers::new(alloc);
    parts
        .push(PartNumber { index: 3, part: 1 })
        .expect(rt, "memory");
    parts
        .push(PartNumber { index: 4, part: 2 })
        .expect(rt, "memory");
    parts
}

// Whether the value is one of the type.
fn is_value_of(value: &Value, kind: ColumnType) -> bool
    ensures { result ≡ true → IsValueOf kind value.now }
{
    match (value, kind) {
        (Value::Text(text), ColumnType::Text) => str::from_utf8(text.bytes()).is_ok(),
        (Value::Int(_), ColumnType::Int) => true,
        _ => false,
    }
}

// The cell of the column, if the partition has a live one, has a value of the type.
fn check_column(rt: &impl Abort, part: &Partition, column: u16, kind: ColumnType)
    ensures { IsCellOf kind (map.get part.now.cells column) }
{
    if let Some(entry) = part.cell(column) {
        if let Some(value) = entry.value() {
            assert!(rt; is_value_of(value, kind));
        }
    }
}

// A kit that takes a text as one term.
fn kit(rt: &impl Abort, alloc: Global) -> Kit {
    let mut objects: Vec<Box<dyn Analyzer>> = Vec::new(alloc);
    let whole = Box::new(alloc, Whole::new()).expect(rt, "memory");
    assert!(rt; objects.push(whole).is_ok());
    Kit::new(objects)
}

// The number of bytes of a file, and a checksum of them.
fn summary(rt: &impl Abort, host: &MemHost, name: FileName) -> (usize, u64) {
    let bytes = host.bytes(name).expect(rt, "a file");
    let mut sum = 0u64;
    for byte in bytes {
        sum = sum.wrapping_mul(31).wrapping_add(u64::from(*byte));
    }
    (bytes.len(), sum)
}

// A writer of a data file with one partition and of both indexes.
fn pushed(rt: &impl Abort, alloc: Global, host: &mut MemHost) -> PairWriter
    ensures room { Reaches (host_view (memory_host host.new)) result.writer.file result.writer.offset }
    ensures some { 1 ≤ length result.writer.pairs }
    ensures usable { IsTrue result.writer.usable }
    ensures defined { AreDefined (defs_of result.indexes) (record { index = 3; part = 1 } ∷ record { index = 4; part = 2 } ∷ []) }
    ensures number { result.writer.file.number ≡ 7 }
{
    assert!(rt; host.bytes(DATA).is_none());
    let (key, part) = partition_of(rt, alloc, &INSERTED);
    check_column(rt, &part, 1, ColumnType::Text);
    check_column(rt, &part, 2, ColumnType::Int);
    let defs = definitions(rt, alloc);
    let mut writer = PairWriter::begin(alloc, host, 7, Partitioner::Lead8, &defs).expect(
        rt, "begun",
    );
    let mut kit = kit(rt, alloc);
    writer
        .push(host, &mut kit, &key, &part)
        .expect(rt, "pushed");
    drop((key, part, defs, kit));
    writer
}

// Seals a data file of one partition with both index files.
fn seal(rt: &impl Abort, alloc: Global, host: &mut MemHost) {
    let writer = pushed(rt, alloc, host);
    assert!(rt; host.bytes(TEXTS).is_none());
    assert!(rt; host.bytes(NUMBERS).is_none());
    writer.seal(host, &parts(rt, alloc)).expect(rt, "sealed");
}

#[test]
fn index_files_stand_beside_their_data_file(rt: HostRuntime) {
    let mut host = MemHost::new(rt.alloc());
    seal(&rt, rt.alloc(), &mut host);
    assert!(rt; host.bytes(DATA) == Some(ONE.as_slice()));
    assert!(rt; summary(&rt, &host, TEXTS) == (8264, 6691731470373201816));
    assert!(rt; summary(&rt, &host, NUMBERS).0 == 4168);
    drop(host);
}
