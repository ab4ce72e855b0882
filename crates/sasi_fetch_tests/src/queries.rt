// Plans of SELECTs on the table.
ghost use Rattle.std.specs.Prelude.{◌≡◌, List, Some};
ghost use Rattle.sasi_types.specs.declared.class.Class.{Class};
ghost use Rattle.sasi_model.specs.Abbreviations.{key_type};
ghost use Rattle.sasi_model.specs.State.{Definition, definition_of};
ghost use Rattle.sasi_schema.specs.Defined.{definition, numbers_of};
ghost use Rattle.sasi_machine.specs.Classes.{TableLacks, WhereLacks};
ghost use Rattle.sasi_machine.specs.Operands.{CanSelect};
ghost use Rattle.sasi_plan_tests.specs.Fixture.{IsPlanOn};
ghost use Rattle.sasi_fetch_tests.specs.Fetching.{IsOwnPlan};

use sasi_analyzers::Kit;
use sasi_machine::{Prepared, Reply, Selection, prepare};
use sasi_plan::Plan;
use sasi_schema::{Schema, Table};
use sasi_types::{ColumnType, Columns, Name, Partitioner, PieceEnd, Select};
use std::alloc::Global;
use std::process::Abort;

fn name_of(rt: &impl Abort, alloc: Global, text: &str) -> Name {
    Name::new(text.as_bytes().to_vec(alloc).expect(rt, "memory"))
}

/// The definition of the table `t`, with the key `k` and the column `a`.
fn schema_of(rt: &impl Abort, alloc: Global) -> Schema {
    let mut schema = Schema::new(alloc);
    let mut columns = Columns::new(alloc);
    for name in ["k", "a"] {
        columns
            .push(name_of(rt, alloc, name), ColumnType::Text)
            .expect(rt, "memory");
    }
    let keys = [name_of(rt, alloc, "k")];
    schema
        .create_table(&name_of(rt, alloc, "t"), &columns, &keys)
        .expect(rt, "a table");
    schema
}

/// The SELECT of a piece, which isn't refused.
fn selection_of(
    rt: &impl Abort,
    alloc: Global,
    schema: &Schema,
    kit: &mut Kit,
    piece: &str,
) -> Selection
    ensures { (d : Definition) → definition_of result.select.table schema.now.definitions ≡ Some d → CanSelect d result.select }
{
    let mut reply = Reply::new(alloc);
    let prepared = prepare(
        alloc,
        schema,
        0,
        kit,
        piece.as_bytes(),
        PieceEnd::Whole,
        &mut reply,
    )
    .expect(rt, "prepared");
    match prepared {
        Prepared::Select(rows) => rows,
        _ => panic!(rt; "no rows: {piece}"),
    }
}

/// The plan of a SELECT on a table.
fn plan_on(rt: &impl Abort, alloc: Global, table: &Table, select: &Select, kit: &mut Kit) -> Plan
    requires { CanSelect (definition table.now) select.now }
    ensures planned { IsPlanOn (numbers_of table.now) result }
    ensures key { result.picked.key ≡ key_type (definition table.now) }
    ensures classes { (classes : List Class) (class : Class) → WhereLacks classes result.conditions class → TableLacks classes (definition table.now) class }
{
    Plan::new(alloc, select, table, Partitioner::Lead8, kit).expect(rt, "a plan")
}

/// The plan of a piece on a table without indexes.
pub fn plan_of(rt: &impl Abort, alloc: Global, kit: &mut Kit, piece: &str) -> Plan
    ensures { IsOwnPlan result }
{
    let schema = schema_of(rt, alloc);
    let rows = selection_of(rt, alloc, &schema, kit, piece);
    let table = schema.table(&rows.select.table).expect(rt, "a table");
    assert!(rt; table.indexes.as_slice().is_empty());
    let ColumnType::Text = table.key_type() else {
        panic!(rt; "a key of text");
    };
    plan_on(rt, alloc, table, &rows.select, kit)
}
