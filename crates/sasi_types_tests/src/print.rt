//! The lines of replies, each call once.
use sasi_cells::{Partition, Picked, PickedColumn, PickedList};
use sasi_host::{FileName, Kind};
use sasi_print::{
    FileState, Reply, checked, count, file_count, file_line, ok, picked_row, refusal,
    refusal_about, refusal_at, row,
};
use sasi_types::{Cell, ColumnType, Key, Row, Text, Value};
use std::alloc::Global;
use std::process::Abort;

/// The reply has these lines.
fn check_lines(rt: &impl Abort, reply: &Reply, want: &str) {
    assert!(rt; reply.bytes() == want.as_bytes(), "not {want}");
}

#[test]
fn reply_keeps_its_lines_until_it_is_cleared(rt: HostRuntime) {
    let mut reply = Reply::new(rt.alloc());
    ok(&mut reply).expect(&rt, "memory");
    count(&mut reply, 2).expect(&rt, "memory");
    checked(&mut reply, 17).expect(&rt, "memory");
    check_lines(&rt, &reply, "ok\n(2 rows)\nchecked 17\n");
    reply.clear();
    check_lines(&rt, &reply, "");
}

#[test]
fn file_has_its_name_its_state_and_its_cursors(rt: HostRuntime) {
    let index = FileName {
        kind: Kind::Index,
        number: 7,
        index: 2,
        part: 5,
    };
    let mut reply = Reply::new(rt.alloc());
    file_line(&mut reply, FileName::data(7), FileState::Current, 0).expect(&rt, "memory");
    file_line(&mut reply, index, FileState::Obsolete, 4_294_967_295).expect(&rt, "memory");
    file_line(&mut reply, FileName::data(8), FileState::Building, 1).expect(&rt, "memory");
    file_count(&mut reply, 3).expect(&rt, "memory");
    let want = "data-7 current pinned 0
index-7-2-5 obsolete pinned 4294967295
data-8 building pinned 1
(3 files)
";
    check_lines(&rt, &reply, want);
}

#[test]
fn refusal_has_its_number_its_name_and_its_detail(rt: HostRuntime) {
    let mut reply = Reply::new(rt.alloc());
    refusal(&mut reply, 19, "").expect(&rt, "memory");
    refusal(&mut reply, 24, "relations 32").expect(&rt, "memory");
    refusal_about(&mut reply, 4, b"users").expect(&rt, "memory");
    refusal_about(&mut reply, 22, b"c").expect(&rt, "memory");
    refusal_about(&mut reply, 23, b"c").expect(&rt, "memory");
    refusal_at(&mut reply, 1, 12).expect(&rt, "memory");
    let want = "error 19 NeedsFiltering
error 24 TooMany relations 32
error 4 NoTable users
error 22 CursorExists c
error 23 NoCursor c
error 1 Syntax at 12
";
    check_lines(&rt, &reply, want);
}

/// A text.
fn text_of(rt: &impl Abort, alloc: Global, text: &str) -> Value {
    Value::Text(Text::new(text.as_bytes().to_vec(alloc).expect(rt, "memory")))
}

/// A row with a value of each type, and one that is missing.
fn row_of(rt: &impl Abort, alloc: Global) -> Row {
    let uuid = [
        0x00, 0x11, 0x22, 0x33, 0x44, 0x55, 0x66, 0x77, 0x88, 0x99, 0xaa, 0xbb, 0xcc, 0xdd, 0xee,
        0xff,
    ];
    let mut row = Row::new(alloc);
    row.push(Some(text_of(rt, alloc, "it's")))
        .expect(rt, "memory");
    row.push(Some(Value::Int(-5))).expect(rt, "memory");
    row.push(None).expect(rt, "memory");
    row.push(Some(Value::BigInt(10))).expect(rt, "memory");
    row.push(Some(Value::Uuid(uuid))).expect(rt, "memory");
    row
}

#[test]
fn row_has_its_values_between_bars(rt: HostRuntime) {
    let values = row_of(&rt, rt.alloc());
    let mut reply = Reply::new(rt.alloc());
    row(&mut reply, &values).expect(&rt, "memory");
    let want = "'it''s' | -5 | null | 10 | 00112233-4455-6677-8899-aabbccddeeff\n";
    check_lines(&rt, &reply, want);
}

/// A partition with a text in column 2.
fn partition_of(rt: &impl Abort, alloc: Global, text: &str) -> Partition {
    let mut part = Partition::new(alloc);
    let cell = Cell {
        time: 1,
        value: Some(text_of(rt, alloc, text)),
    };
    part.put(2, cell).expect(rt, "memory");
    part
}

/// Column 2, the key and column 1.
fn columns_of(rt: &impl Abort, alloc: Global) -> PickedList {
    let mut columns = PickedList::new(alloc);
    columns.push(PickedColumn::Column(2)).expect(rt, "memory");
    columns.push(PickedColumn::Key).expect(rt, "memory");
    columns.push(PickedColumn::Column(1)).expect(rt, "memory");
    columns
}

#[test]
fn picked_row_is_printed_from_the_key_and_the_cells(rt: HostRuntime) {
    let key = Key::new(rt.alloc(), b"k1").expect(&rt, "a key");
    let part = partition_of(&rt, rt.alloc(), "x");
    let picked = Picked {
        key: ColumnType::Text,
        columns: columns_of(&rt, rt.alloc()),
    };
    let mut reply = Reply::new(rt.alloc());
    picked_row(rt.alloc(), &mut reply, &key, &part, &picked).expect(&rt, "memory");
    check_lines(&rt, &reply, "'x' | 'k1' | null\n");
}
