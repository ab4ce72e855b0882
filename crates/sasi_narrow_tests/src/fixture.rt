// The parts of a table with two relations: two data files and a map.
ghost use Rattle.std.specs.Prelude.{◌≡◌, ◌+◌, ◌<◌, length, None};
ghost use Rattle.std.specs.List.{AllByRecursion};
ghost use Rattle.sasi_types.specs.declared.column.ColumnType.TheVariants.{Int as OfNumbers};
ghost use Rattle.sasi_memindex.specs.MemIndexView.{empty_index};
ghost use Rattle.sasi_narrow.specs.Narrowing.{TellsOf};
ghost use Rattle.sasi_narrow_tests.specs.NewKeys.{HasNothingFrom};

use sasi_analyzers::Kit;
use sasi_dataread::PlacedKey;
use sasi_memindex::{KeyList, MemIndex};
use sasi_narrow::PartHits;
use sasi_ranges::Entry;
use sasi_terms::Op;
use sasi_types::{Cell, ColumnType, DecoratedKey, IndexDef, Key, Mode, Name, Token, Value};
use std::alloc::Global;
use std::process::Abort;

/// The token of all keys of the data files.
pub const TOKEN: Token = 5;

fn key_of(rt: &impl Abort, alloc: Global, bytes: &[u8]) -> Key {
    Key::new(alloc, bytes).expect(rt, "a key")
}

// ---- data files

fn placed(rt: &impl Abort, alloc: Global, place: u64, key: &[u8]) -> PlacedKey {
    PlacedKey {
        place,
        key: key_of(rt, alloc, key),
    }
}

/// The keys of both files: `a` and `b` of the first, `b` and `c` of the second.
pub fn keys_of_files(rt: &impl Abort, alloc: Global) -> Vec<Vec<PlacedKey>>
    ensures { length result.items ≡ 2 }
{
    let first = [placed(rt, alloc, 16, b"a"), placed(rt, alloc, 40, b"b")];
    let second = [placed(rt, alloc, 16, b"b"), placed(rt, alloc, 50, b"c")];
    let first = Vec::from_array(alloc, first).expect(rt, "memory");
    let second = Vec::from_array(alloc, second).expect(rt, "memory");
    vec![in alloc; first, second].expect(rt, "memory")
}

/// The hits that streams gave, each a relation, a part and an offset.
pub fn entries_of(rt: &impl Abort, alloc: Global, hits: &[(u32, u64, u64)]) -> Vec<Entry> {
    let mut entries = Vec::new(alloc);
    for (leaf, part, place) in hits {
        entries
            .push(Entry {
                token: TOKEN,
                leaf: *leaf,
                part: *part,
                place: *place,
            })
            .expect(rt, "memory");
    }
    entries
}

// ---- a map

/// The empty index of a column of numbers.
fn index_of(alloc: Global) -> MemIndex
    ensures { result ≡ empty_index 1 OfNumbers None }
{
    let def = IndexDef {
        number: 1,
        table: 1,
        name: Name::new(Vec::new(alloc)),
        column: 1,
        kind: ColumnType::Int,
        mode: Mode::Prefix,
        rule: None,
    };
    MemIndex::new(alloc, &def)
}

/// Puts a number at a key whose token is above that of each other key.
fn put(rt: &impl Abort, alloc: Global, index: &mut MemIndex, token: Token, key: &[u8], number: i32)
    requires kind { index.old.kind ≡ OfNumbers }
    requires nothing { HasNothingFrom token index.old }
    ensures kind { index.new.kind ≡ OfNumbers }
    ensures nothing { HasNothingFrom (token + 1) index.new }
{
    let key = DecoratedKey {
        token,
        key: key_of(rt, alloc, key),
    };
    let cell = Cell {
        time: 1,
        value: Some(Value::Int(number)),
    };
    let mut kit = Kit::new(Vec::new(alloc));
    index
        .put(&key, None, Some(&cell), &mut kit)
        .expect(rt, "memory");
}

/// What a relation finds in a map: keys of three tokens, of which the second is that of the files, or the first of them alone.
pub fn found_of(rt: &impl Abort, alloc: Global, key: &[u8], all: bool) -> KeyList {
    let mut index = index_of(alloc);
    put(rt, alloc, &mut index, 4, b"x", 1);
    put(rt, alloc, &mut index, TOKEN, key, 2);
    put(rt, alloc, &mut index, 6, b"z", 3);
    let greatest = if all { 3 } else { 1 };
    index
        .search(&Op::Range { least: 1, greatest }, &[])
        .expect(rt, "memory")
}

// ---- parts

fn file_part(rt: &impl Abort, alloc: Global, file: usize, indexed: (bool, bool)) -> PartHits
    requires { file < 2 }
    ensures { TellsOf 2 2 result }
{
    let indexed = vec![in alloc; indexed.0, indexed.1].expect(rt, "memory");
    PartHits::File { file, indexed }
}

fn map_part(rt: &impl Abort, alloc: Global, first: KeyList, second: KeyList) -> PartHits
    ensures { TellsOf 2 2 result }
{
    let found = vec![in alloc; first, second].expect(rt, "memory");
    PartHits::Map { found }
}

/// Both files, the first with both indexes, and the map.
pub fn parts_of(
    rt: &impl Abort,
    alloc: Global,
    indexed: (bool, bool),
    first: KeyList,
    second: KeyList,
) -> Vec<PartHits>
    ensures { AllByRecursion (TellsOf 2 2) result.items }
{
    let whole = file_part(rt, alloc, 0, (true, true));
    let other = file_part(rt, alloc, 1, indexed);
    let map = map_part(rt, alloc, first, second);
    vec![in alloc; whole, other, map].expect(rt, "memory")
}
