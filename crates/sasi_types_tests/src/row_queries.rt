//! What SELECTs ask of rows, one by one.
ghost use Rattle.std.specs.Prelude.{◌≡◌, ◌<◌, Some};
ghost use Rattle.sasi_model.specs.State.{Definition, definition_of};
ghost use Rattle.sasi_machine.specs.Operands.{CanSelect};
ghost use Rattle.sasi_machine.specs.Where.{HasTexts, IsText};

use crate::indexes::{create_table, define};
use sasi_analyzers::{Analyzer, Kit, Whole};
use sasi_cells::Partition;
use sasi_machine::{Condition, Prepared, Reply, RowFilter, RowQuery, Selection, prepare};
use sasi_schema::Schema;
use sasi_types::{Cell, ColumnType, Key, PieceEnd, Text, Value};
use std::alloc::Global;
use std::process::Abort;

/// A kit of the analyzer of whole texts.
fn kit_of(rt: &impl Abort, alloc: Global) -> Kit {
    let mut analyzers: Vec<Box<dyn Analyzer>> = Vec::new(alloc);
    let whole = Box::new(alloc, Whole::new()).expect(rt, "memory");
    analyzers.push(whole).expect(rt, "memory");
    Kit::new(analyzers)
}

/// A table with an index of whole texts that folds letters.
fn schema_of(rt: &impl Abort, alloc: Global) -> Schema {
    let mut schema = Schema::new(alloc);
    let columns = [
        ("k", ColumnType::Text),
        ("a", ColumnType::Text),
        ("n", ColumnType::Int),
    ];
    create_table(rt, alloc, &mut schema, "t", &columns);
    let line = "- t a SASIIndex mode:contains,case_sensitive:false";
    define(rt, alloc, &mut schema, line);
    schema
}

/// The SELECT of a piece, which isn't refused.
fn selection_of(
    rt: &impl Abort,
    alloc: Global,
    schema: &Schema,
    kit: &mut Kit,
    piece: &str,
) -> Selection
    ensures { (d : Definition) → definition_of result.select.table schema.now.definitions ≡ Some d → CanSelect d result.select }
{
    let mut reply = Reply::new(alloc);
    let prepared = prepare(
        alloc,
        schema,
        0,
        kit,
        piece.as_bytes(),
        PieceEnd::Whole,
        &mut reply,
    )
    .expect(rt, "prepared");
    match prepared {
        Prepared::Select(rows) => rows,
        _ => panic!(rt; "no rows: {piece}"),
    }
}

/// What the SELECT of a piece asks.
fn query_of(
    rt: &impl Abort,
    alloc: Global,
    schema: &Schema,
    kit: &mut Kit,
    piece: &str,
) -> RowQuery {
    let rows = selection_of(rt, alloc, schema, kit, piece);
    let table = schema.table(&rows.select.table).expect(rt, "a table");
    RowQuery::new(alloc, table, &rows.select, kit).expect(rt, "a query")
}

fn text_of(rt: &impl Abort, alloc: Global, text: &str) -> Value
    ensures { IsText result }
{
    Value::Text(Text::new(text.as_bytes().to_vec(alloc).expect(rt, "memory")))
}

/// Puts the value of a column, and the marker as that of column 0.
fn put(rt: &impl Abort, part: &mut Partition, column: u16, value: Value)
    requires deleted { part.old.deleted < 1 }
    requires texts { HasTexts part.old }
    requires value { IsText value }
    ensures deleted { part.new.deleted < 1 }
    ensures texts { HasTexts part.new }
{
    let cell = Cell {
        time: 1,
        value: Some(value),
    };
    part.put(column, cell).expect(rt, "memory");
}

/// A row without values.
fn bare_row(rt: &impl Abort, alloc: Global) -> Partition
    ensures deleted { result.deleted < 1 }
    ensures texts { HasTexts result }
{
    let mut part = Partition::new(alloc);
    put(rt, &mut part, 0, text_of(rt, alloc, ""));
    part
}

/// A row with a text and a number.
fn row_of(rt: &impl Abort, alloc: Global, text: &str, number: i32) -> Partition
    ensures { HasTexts result }
{
    let mut part = bare_row(rt, alloc);
    put(rt, &mut part, 1, text_of(rt, alloc, text));
    put(rt, &mut part, 2, Value::Int(number));
    part
}

/// Of the partition of a key the query prints this line, or nothing.
fn check_row(
    rt: &impl Abort,
    alloc: Global,
    query: &RowQuery,
    key: &Key,
    part: &Partition,
    kit: &mut Kit,
    want: &str,
)
    requires { HasTexts part.now }
{
    let ColumnType::Text = query.picked.key else {
        panic!(rt; "a key of text");
    };
    let mut reply = Reply::new(alloc);
    let rows = query
        .print_row(alloc, key, part, kit, &mut reply)
        .expect(rt, "memory");
    let accepted = query.filter.accepts(key, part, kit).expect(rt, "memory");
    assert!(rt; reply.bytes() == want.as_bytes());
    assert!(rt; rows == u64::from(!want.is_empty()) && accepted != want.is_empty());
}

// SELECTs, and what they print of a row with the key k, the text Nuts and the number 3.
const CASES: &str = "SELECT n, a FROM t;=>3 | 'Nuts'
SELECT n FROM t WHERE a = 'nUTS';=>3
SELECT n FROM t WHERE a = 'nut';=>
SELECT n FROM t WHERE a LIKE '%UT%';=>3
SELECT k FROM t WHERE n > 2 AND n <= 3 ALLOW FILTERING;=>'k'
SELECT k FROM t WHERE n > 2 AND n < 3 ALLOW FILTERING;=>
SELECT a FROM t WHERE k = 'k';=>'Nuts'
SELECT a FROM t WHERE k = 'K';=>";

/// What the SELECT of a case prints of the row.
fn check_case(
    rt: &impl Abort,
    alloc: Global,
    schema: &Schema,
    kit: &mut Kit,
    part: &Partition,
    case: &str,
)
    requires { HasTexts part.now }
{
    let (piece, want) = case.split_once("=>").expect(rt, "a piece and a line");
    let query = query_of(rt, alloc, schema, kit, piece);
    let key = Key::new(alloc, b"k").expect(rt, "a key");
    let mut line = want.as_bytes().to_vec(alloc).expect(rt, "memory");
    if !want.is_empty() {
        line.push(b'\n').expect(rt, "memory");
    }
    let want = str::from_utf8(&line).expect(rt, "a line");
    check_row(rt, alloc, &query, &key, part, kit, want);
}

#[test]
fn row_is_printed_where_it_is_as_asked(rt: HostRuntime) {
    let alloc = rt.alloc();
    let mut kit = kit_of(&rt, alloc);
    let schema = schema_of(&rt, alloc);
    let part = row_of(&rt, alloc, "Nuts", 3);
    for case in CASES.lines() {
        check_case(&rt, alloc, &schema, &mut kit, &part, case);
    }
}

#[test]
fn missing_value_meets_no_relation(rt: HostRuntime) {
    let alloc = rt.alloc();
    let mut kit = kit_of(&rt, alloc);
    let schema = schema_of(&rt, alloc);
    let part = bare_row(&rt, alloc);
    let cases = [
        "SELECT n FROM t;=>null",
        "SELECT k FROM t WHERE a LIKE '%UT%';=>",
        "SELECT k FROM t WHERE n < 3 ALLOW FILTERING;=>",
        "SELECT a FROM t WHERE k = 'k';=>null",
    ];
    for case in cases {
        check_case(&rt, alloc, &schema, &mut kit, &part, case);
    }
}

/// The filter asks for this key, or for none.
fn check_key(rt: &impl Abort, filter: &RowFilter, want: Option<&[u8]>) {
    match filter.key() {
        Some(key) => assert!(rt; want == Some(key.bytes())),
        None => assert!(rt; want.is_none()),
    }
}

/// The filter has so many conditions, and the one at this position asks for a key.
fn check_conditions(rt: &impl Abort, filter: &RowFilter, count: usize, at: usize) {
    let conditions = filter.conditions();
    let is_key = match conditions.get(at) {
        Some(Condition::OfKey(_)) => true,
        _ => false,
    };
    assert!(rt; (conditions.len(), is_key) == (count, true));
}

#[test]
fn key_that_is_asked_for_is_told(rt: HostRuntime) {
    let alloc = rt.alloc();
    let mut kit = kit_of(&rt, alloc);
    let schema = schema_of(&rt, alloc);
    let by_key = "SELECT * FROM t WHERE a = 'x' AND k = 'y' AND k = 'z' ALLOW FILTERING;";
    let query = query_of(&rt, alloc, &schema, &mut kit, by_key);
    check_key(&rt, &query.filter, Some(b"y"));
    check_conditions(&rt, &query.filter, 3, 1);
    let by_text = "SELECT * FROM t WHERE a = 'y';";
    let query = query_of(&rt, alloc, &schema, &mut kit, by_text);
    check_key(&rt, &query.filter, None);
}

#[test]
fn query_is_full_at_its_limit(rt: HostRuntime) {
    let alloc = rt.alloc();
    let mut kit = kit_of(&rt, alloc);
    let schema = schema_of(&rt, alloc);
    let limited = "SELECT * FROM t LIMIT 2;";
    let query = query_of(&rt, alloc, &schema, &mut kit, limited);
    assert!(rt; !query.is_full(1) && query.is_full(2));
    let query = query_of(&rt, alloc, &schema, &mut kit, "SELECT * FROM t;");
    assert!(rt; !query.is_full(u64::MAX));
}
