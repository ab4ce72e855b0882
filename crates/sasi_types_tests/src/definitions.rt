// Definitions of tables and of indexes.
use sasi_schema::Schema;
use sasi_types::{ColumnType, Columns, IndexDef, IndexList, IndexNumber, Mode, Name, TableNumber};
use std::alloc::Global;
use std::process::Abort;

fn name_of(rt: &impl Abort, alloc: Global, bytes: &[u8]) -> Name {
    Name::new(bytes.to_vec(alloc).expect(rt, "memory"))
}

/// Defines a table of this name, whose only column is its key, and gives its number.
fn create(rt: &impl Abort, alloc: Global, schema: &mut Schema, name: &[u8]) -> TableNumber {
    let key = name_of(rt, alloc, b"k");
    let mut columns = Columns::new(alloc);
    columns
        .push(name_of(rt, alloc, b"k"), ColumnType::Int)
        .expect(rt, "memory");
    schema
        .create_table(&name_of(rt, alloc, name), &columns, &[key])
        .expect(rt, "a table")
}

/// Whether a table of this name is defined, with this number.
fn has(rt: &impl Abort, alloc: Global, schema: &Schema, name: &[u8], number: TableNumber) -> bool {
    match schema.table(&name_of(rt, alloc, name)) {
        Some(table) => table.number == number && table.key_name().bytes() == b"k".as_slice(),
        None => false,
    }
}

#[test]
fn tables_are_numbered_as_they_are_created(rt: HostRuntime) {
    let mut schema = Schema::new(rt.alloc());
    let first = create(&rt, rt.alloc(), &mut schema, b"t");
    let second = create(&rt, rt.alloc(), &mut schema, b"s");
    assert!(rt; (first, second) == (1, 2));
    assert!(rt; has(&rt, rt.alloc(), &schema, b"t", 1));
    assert!(rt; has(&rt, rt.alloc(), &schema, b"s", 2));
}

/// The definition of the index with this number.
fn index_of(rt: &impl Abort, alloc: Global, number: IndexNumber) -> IndexDef {
    IndexDef {
        number,
        table: 1,
        name: name_of(rt, alloc, b"i"),
        column: 1,
        kind: ColumnType::Int,
        mode: Mode::Sparse,
        rule: None,
    }
}

/// The numbers of two indexes.
fn numbers(list: &IndexList) -> Option<(IndexNumber, IndexNumber)> {
    match list.as_slice() {
        [first, second] => Some((first.number, second.number)),
        _ => None,
    }
}

#[test]
fn indexes_are_listed_as_they_are_added(rt: HostRuntime) {
    let mut list = IndexList::new(rt.alloc());
    list.push(index_of(&rt, rt.alloc(), 2))
        .expect(&rt, "memory");
    list.push(index_of(&rt, rt.alloc(), 1))
        .expect(&rt, "memory");
    assert!(rt; numbers(&list) == Some((2, 1)));
}
