//! What pieces prepare.
use crate::indexes::create_table;
use sasi_analyzers::Kit;
use sasi_machine::{CompactAsked, CompactSteps, Prepared, Reply, prepare};
use sasi_schema::Schema;
use sasi_types::{ColumnType, PieceEnd};
use std::alloc::Global;
use std::process::Abort;

/// What a piece prepares where there is no table, without a reply.
fn prepared(rt: &impl Abort, alloc: Global, piece: &[u8]) -> Prepared {
    let schema = Schema::new(alloc);
    let mut kit = Kit::new(Vec::new(alloc));
    let mut reply = Reply::new(alloc);
    let prepared = prepare(
        alloc,
        &schema,
        0,
        &mut kit,
        piece,
        PieceEnd::Whole,
        &mut reply,
    )
    .expect(rt, "prepared");
    assert!(rt; reply.bytes().is_empty(), "the reply has bytes");
    prepared
}

/// The lines of files are to be printed.
fn is_listing(prepared: &Prepared) -> bool {
    matches!(prepared, Prepared::Files)
}

/// At most so many rows of the cursor `c` are to be printed.
fn is_fetch(prepared: &Prepared, count: u32) -> bool {
    matches!(prepared, Prepared::Fetch(asked) if asked.count == count && asked.cursor.bytes() == b"c".as_slice())
}

/// The cursor `c` is to be closed.
fn is_close(prepared: &Prepared) -> bool {
    matches!(prepared, Prepared::Close(cursor) if cursor.bytes() == b"c".as_slice())
}

#[test]
fn show_files_prepares_lines_of_files(rt: HostRuntime) {
    let prepared = prepared(&rt, rt.alloc(), b"SHOW FILES;");
    assert!(rt; is_listing(&prepared), "no listing");
    drop(prepared);
}

#[test]
fn fetch_prepares_a_number_of_rows(rt: HostRuntime) {
    let prepared = prepared(&rt, rt.alloc(), b"FETCH 2147483647 FROM C;");
    assert!(rt; is_fetch(&prepared, 2_147_483_647), "no rows");
    drop(prepared);
}

#[test]
fn close_prepares_the_name_of_the_cursor(rt: HostRuntime) {
    let prepared = prepared(&rt, rt.alloc(), b"CLOSE C;");
    assert!(rt; is_close(&prepared), "no name");
    drop(prepared);
}

/// The tables `s` and `t`.
fn two_tables(rt: &impl Abort, alloc: Global) -> Schema {
    let mut schema = Schema::new(alloc);
    let columns = [("k", ColumnType::Text)];
    create_table(rt, alloc, &mut schema, "s", &columns);
    create_table(rt, alloc, &mut schema, "t", &columns);
    schema
}

/// What a piece asks of compactions, which is answered so; None where it asks nothing.
fn compact_asked(rt: &impl Abort, alloc: Global, piece: &str, want: &str) -> Option<CompactAsked> {
    let schema = two_tables(rt, alloc);
    let mut kit = Kit::new(Vec::new(alloc));
    let mut reply = Reply::new(alloc);
    let prepared = prepare(
        alloc,
        &schema,
        0,
        &mut kit,
        piece.as_bytes(),
        PieceEnd::Whole,
        &mut reply,
    )
    .expect(rt, "prepared");
    assert!(rt;
        reply.bytes() == want.as_bytes(),
        "another reply to {piece}"
    );
    match prepared {
        Prepared::Compact(asked) => Some(asked),
        _ => None,
    }
}

/// The table `t` is compacted whole.
fn is_whole(asked: Option<CompactAsked>) -> bool {
    matches!(asked, Some(asked) if asked.table == 2 && matches!(asked.steps, CompactSteps::Whole))
}

/// A compaction of the table `t` is begun.
fn is_begin(asked: Option<CompactAsked>) -> bool {
    matches!(asked, Some(asked) if asked.table == 2 && matches!(asked.steps, CompactSteps::Begin))
}

/// So many units of a compaction of the table `t` are done.
fn is_units(asked: Option<CompactAsked>, count: u32) -> bool {
    matches!(asked, Some(asked) if asked.table == 2 && matches!(asked.steps, CompactSteps::Units(units) if units == count))
}

#[test]
fn compact_prepares_a_whole_compaction(rt: HostRuntime) {
    let asked = compact_asked(&rt, rt.alloc(), "COMPACT T;", "ok\n");
    assert!(rt; is_whole(asked), "not whole");
}

#[test]
fn begin_compact_prepares_its_begin(rt: HostRuntime) {
    let asked = compact_asked(&rt, rt.alloc(), "BEGIN COMPACT t;", "ok\n");
    assert!(rt; is_begin(asked), "no begin");
}

#[test]
fn step_compact_prepares_a_number_of_units(rt: HostRuntime) {
    let least = compact_asked(&rt, rt.alloc(), "STEP COMPACT t 1;", "ok\n");
    assert!(rt; is_units(least, 1), "not one unit");
    let most = compact_asked(&rt, rt.alloc(), "STEP COMPACT t 2147483647;", "ok\n");
    assert!(rt; is_units(most, 2_147_483_647), "not the most units");
}

/// Statements on compactions, each with its refusal. The rule of the table comes before that of the units.
static REFUSED: &str = "\
COMPACT u;|error 4 NoTable u
BEGIN COMPACT u;|error 4 NoTable u
STEP COMPACT u 1;|error 4 NoTable u
STEP COMPACT u 0;|error 4 NoTable u
STEP COMPACT t 0;|error 9 NumberRange STEP
STEP COMPACT t -1;|error 9 NumberRange STEP
STEP COMPACT t 2147483648;|error 9 NumberRange STEP
STEP COMPACT t 170141183460469231731687303715884105728;|error 9 NumberRange STEP
";

/// A statement is refused so, and prepares nothing.
fn check_refused(rt: &impl Abort, alloc: Global, case: &str) {
    let (piece, want) = case.split_once('|').expect(rt, "a case");
    assert!(rt;
        compact_asked(rt, alloc, piece, want).is_none(),
        "steps of {piece}"
    );
}

#[test]
fn compactions_are_refused_by_their_table_and_their_units(rt: HostRuntime) {
    for case in REFUSED.split_inclusive('\n') {
        check_refused(&rt, rt.alloc(), case);
    }
}
