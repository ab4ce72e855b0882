// SELECTs on the table, of which each condition is on a column without an index.
ghost use Rattle.std.specs.Prelude.{◌≡◌, List, Some};
ghost use Rattle.sasi_types.specs.declared.class.Class.{Class};
ghost use Rattle.sasi_model.specs.State.{Definition, definition_of};
ghost use Rattle.sasi_machine.specs.Operands.{CanSelect};
ghost use Rattle.sasi_recheck.specs.Rows.{KnowsWhere};

use sasi_analyzers::Kit;
use sasi_machine::{Condition, Prepared, Reply, RowFilter, RowQuery, Selection, prepare};
use sasi_schema::Schema;
use sasi_types::{ColumnType, Columns, Name, PieceEnd};
use std::alloc::Global;
use std::process::Abort;

fn name_of(rt: &impl Abort, alloc: Global, text: &str) -> Name {
    Name::new(text.as_bytes().to_vec(alloc).expect(rt, "memory"))
}

/// The definition of the table `t`, with the key `k` and the column `a`.
fn schema_of(rt: &impl Abort, alloc: Global) -> Schema {
    let mut schema = Schema::new(alloc);
    let mut columns = Columns::new(alloc);
    for name in ["k", "a"] {
        columns
            .push(name_of(rt, alloc, name), ColumnType::Text)
            .expect(rt, "memory");
    }
    let keys = [name_of(rt, alloc, "k")];
    schema
        .create_table(&name_of(rt, alloc, "t"), &columns, &keys)
        .expect(rt, "a table");
    schema
}

/// The SELECT of a piece, which isn't refused.
fn selection_of(
    rt: &impl Abort,
    alloc: Global,
    schema: &Schema,
    kit: &mut Kit,
    piece: &str,
) -> Selection
    ensures { (d : Definition) → definition_of result.select.table schema.now.definitions ≡ Some d → CanSelect d result.select }
{
    let mut reply = Reply::new(alloc);
    let prepared = prepare(
        alloc,
        schema,
        0,
        kit,
        piece.as_bytes(),
        PieceEnd::Whole,
        &mut reply,
    )
    .expect(rt, "prepared");
    match prepared {
        Prepared::Select(rows) => rows,
        _ => panic!(rt; "no rows: {piece}"),
    }
}

/// No analyzer is needed: there is at most one condition, on a column without an index.
fn check_plain(rt: &impl Abort, filter: &RowFilter)
    ensures { (classes : List Class) → KnowsWhere classes filter.now }
{
    match filter.conditions() {
        [] => {}
        [Condition::Plain(_, _)] => {}
        _ => panic!(rt; "another WHERE"),
    }
}

/// What the SELECT of a piece asks.
pub fn query_of(rt: &impl Abort, alloc: Global, kit: &mut Kit, piece: &str) -> RowQuery
    ensures { (classes : List Class) → KnowsWhere classes result.filter }
{
    let schema = schema_of(rt, alloc);
    let rows = selection_of(rt, alloc, &schema, kit, piece);
    let table = schema.table(&rows.select.table).expect(rt, "a table");
    let query = RowQuery::new(alloc, table, &rows.select, kit).expect(rt, "a query");
    check_plain(rt, &query.filter);
    query
}
