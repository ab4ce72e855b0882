// What readers give.
ghost use Rattle.sasi_ranges.specs.StreamCalls.{CanStream};
ghost use Rattle.sasi_plan_tests.specs.Fixture.{CanRead};

use crate::fixture::{DATA, host_of};
use sasi_analyzers::Kit;
use sasi_host::{Direct, Host, PageReader};
use sasi_memindex::MapBook;
use sasi_plan::{Plan, PlanCandidates, Reader};
use sasi_recheck::Candidates;
use sasi_types::{ColumnType, Row, Value};
use sasi_views::View;
use std::alloc::Global;
use std::process::Abort;

/// A row: the key, and the text.
pub type Want<'a> = (&'a [u8], &'a [u8]);

/// The values are those of this row.
fn check_row(rt: &impl Abort, row: &Row, want: &Want<'_>) {
    let [Some(Value::Text(key)), Some(Value::Text(text))] = row.values() else {
        panic!(rt; "other values");
    };
    assert!(rt; key.bytes() == want.0 && text.bytes() == want.1);
}

/// The next row is this one.
fn check_next<H: Host, P: PageReader>(
    rt: &impl Abort,
    reader: &mut Reader,
    host: &mut H,
    pages: &mut P,
    maps: &MapBook,
    kit: &mut Kit,
    want: &Want<'_>,
)
    requires read { CanStream (P.agrees pages.old) (⟦<PlanCandidates as Candidates>⟧.opens reader.old.rows.candidates) (H.view host.old) }
    requires ready { ⟦<PlanCandidates as Candidates>⟧.ready reader.old.rows.candidates (H.view host.old).files maps.now }
    requires prints { ⟦<PlanCandidates as Candidates>⟧.prints reader.old.rows.candidates (H.view host.old).files maps.now reader.old.picked.key }
    ensures read { CanStream (P.agrees pages.new) (⟦<PlanCandidates as Candidates>⟧.opens reader.new.rows.candidates) (H.view host.new) }
    ensures ready { ⟦<PlanCandidates as Candidates>⟧.ready reader.new.rows.candidates (H.view host.new).files maps.now }
    ensures prints { ⟦<PlanCandidates as Candidates>⟧.prints reader.new.rows.candidates (H.view host.new).files maps.now reader.new.picked.key }
{
    let next = reader.next(host, pages, maps, kit).expect(rt, "read");
    let row = next.expect(rt, "a row");
    check_row(rt, &row, want);
    drop(row);
}

/// No row is left.
fn check_end<H: Host, P: PageReader>(
    rt: &impl Abort,
    reader: &mut Reader,
    host: &mut H,
    pages: &mut P,
    maps: &MapBook,
    kit: &mut Kit,
)
    requires read { CanStream (P.agrees pages.old) (⟦<PlanCandidates as Candidates>⟧.opens reader.old.rows.candidates) (H.view host.old) }
    requires ready { ⟦<PlanCandidates as Candidates>⟧.ready reader.old.rows.candidates (H.view host.old).files maps.now }
    requires prints { ⟦<PlanCandidates as Candidates>⟧.prints reader.old.rows.candidates (H.view host.old).files maps.now reader.old.picked.key }
    ensures read { CanStream (P.agrees pages.new) (⟦<PlanCandidates as Candidates>⟧.opens reader.new.rows.candidates) (H.view host.new) }
    ensures ready { ⟦<PlanCandidates as Candidates>⟧.ready reader.new.rows.candidates (H.view host.new).files maps.now }
    ensures prints { ⟦<PlanCandidates as Candidates>⟧.prints reader.new.rows.candidates (H.view host.new).files maps.now reader.new.picked.key }
{
    let next = reader.next(host, pages, maps, kit).expect(rt, "read");
    assert!(rt; next.is_none());
    drop(next);
}

/// The rows are these, and then none is given, however often it is asked.
fn check_rows<H: Host, P: PageReader>(
    rt: &impl Abort,
    reader: &mut Reader,
    host: &mut H,
    pages: &mut P,
    maps: &MapBook,
    kit: &mut Kit,
    wanted: &[Want<'_>],
)
    requires read { CanStream (P.agrees pages.old) (⟦<PlanCandidates as Candidates>⟧.opens reader.old.rows.candidates) (H.view host.old) }
    requires ready { ⟦<PlanCandidates as Candidates>⟧.ready reader.old.rows.candidates (H.view host.old).files maps.now }
    requires prints { ⟦<PlanCandidates as Candidates>⟧.prints reader.old.rows.candidates (H.view host.old).files maps.now reader.old.picked.key }
{
    for want in wanted {
        check_next(rt, reader, host, pages, maps, kit, want);
    }
    check_end(rt, reader, host, pages, maps, kit);
    check_end(rt, reader, host, pages, maps, kit);
}

/// Over the data file the reader of a plan gives these rows of a view, and has then looked at so many candidates.
pub fn check_plan(
    rt: &impl Abort,
    alloc: Global,
    plan: Plan,
    view: View,
    maps: &MapBook,
    kit: &mut Kit,
    wanted: &[Want<'_>],
    checked: u64,
) -> View
    requires { CanRead plan view maps.now }
{
    let mut host = host_of(rt, alloc);
    assert!(rt; host.bytes(DATA).is_some());
    let mut reader = Reader::new(plan, view);
    let ColumnType::Text = reader.picked().key else {
        panic!(rt; "a key of text");
    };
    assert!(rt; reader.picked().columns.as_slice().len() == 2);
    check_rows(rt, &mut reader, &mut host, &mut Direct, maps, kit, wanted);
    assert!(rt; reader.checked() == checked);
    drop(host);
    reader.end()
}
