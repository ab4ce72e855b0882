// Rechecks of what sources give.
ghost use Rattle.std.specs.Prelude.{List, map};
ghost use Rattle.sasi_types.specs.declared.class.Class.{Class};
ghost use Rattle.sasi_types.specs.declared.column.ColumnType.TheVariants as kinds;
ghost use Rattle.sasi_ranges.specs.StreamCalls.{CanStream};
ghost use Rattle.sasi_recheck.specs.Rows.{KnowsWhere};
ghost use Rattle.sasi_sources_tests.specs.Sources.{Begins, HasTextMaps};

use crate::fixture::{DATA, book_of, host_of};
use crate::queries::query_of;
use crate::steps::{Want, check_left};
use crate::{key_look_ups, table_scans};
use sasi_analyzers::Kit;
use sasi_host::{Direct, Host, PageReader};
use sasi_machine::RowQuery;
use sasi_memindex::MapBook;
use sasi_recheck::{Candidates, Recheck};
use std::alloc::Global;
use std::process::Abort;

/// The next row is that of this key, or there is none.
fn check_row<C: Candidates + Drop, H: Host, P: PageReader>(
    rt: &impl Abort,
    recheck: &mut Recheck<C>,
    host: &mut H,
    pages: &mut P,
    maps: &MapBook,
    kit: &mut Kit,
    want: Option<&[u8]>,
)
    requires read { CanStream (P.agrees pages.old) (C.opens recheck.old.candidates) (H.view host.old) }
    requires ready { C.ready recheck.old.candidates (H.view host.old).files maps.now }
    requires prints { C.prints recheck.old.candidates (H.view host.old).files maps.now kinds.Text }
    requires known { (classes : List Class) → KnowsWhere classes recheck.old.filter }
    ensures read { CanStream (P.agrees pages.new) (C.opens recheck.new.candidates) (H.view host.new) }
    ensures ready { C.ready recheck.new.candidates (H.view host.new).files maps.now }
    ensures prints { C.prints recheck.new.candidates (H.view host.new).files maps.now kinds.Text }
    ensures known { (classes : List Class) → KnowsWhere classes recheck.new.filter }
{
    let next = recheck.next(host, pages, maps, kit).expect(rt, "read");
    match &next {
        Some((key, _)) => assert!(rt; want == Some(key.bytes())),
        None => assert!(rt; want.is_none()),
    }
    drop(next);
}

/// The rows are those of these keys, and then none is given, however often it is asked.
fn check_rows<C: Candidates + Drop, H: Host, P: PageReader>(
    rt: &impl Abort,
    recheck: &mut Recheck<C>,
    host: &mut H,
    pages: &mut P,
    maps: &MapBook,
    kit: &mut Kit,
    wanted: &[&[u8]],
)
    requires read { CanStream (P.agrees pages.old) (C.opens recheck.old.candidates) (H.view host.old) }
    requires ready { C.ready recheck.old.candidates (H.view host.old).files maps.now }
    requires prints { C.prints recheck.old.candidates (H.view host.old).files maps.now kinds.Text }
    requires known { (classes : List Class) → KnowsWhere classes recheck.old.filter }
    ensures read { CanStream (P.agrees pages.new) (C.opens recheck.new.candidates) (H.view host.new) }
    ensures ready { C.ready recheck.new.candidates (H.view host.new).files maps.now }
{
    for key in wanted {
        check_row(rt, recheck, host, pages, maps, kit, Some(*key));
    }
    check_row(rt, recheck, host, pages, maps, kit, None);
    check_row(rt, recheck, host, pages, maps, kit, None);
}

/// What a SELECT gives of a source, over a host with the data file: the rows of these keys. It looks at so many candidates, and leaves these.
fn check_select<C: Candidates + Drop>(
    rt: &impl Abort,
    alloc: Global,
    source: C,
    query: RowQuery,
    maps: &MapBook,
    kit: &mut Kit,
    wanted: &[&[u8]],
    checked: u64,
    left: &[Want<'_>],
)
    requires source { Begins C.opens C.ready C.prints source }
    requires maps { HasTextMaps maps.now }
    requires known { (classes : List Class) → KnowsWhere classes query.filter }
{
    let mut host = host_of(rt, alloc);
    assert!(rt; host.bytes(DATA).is_some());
    let mut recheck = Recheck::new(source, query.filter, query.limit);
    check_rows(rt, &mut recheck, &mut host, &mut Direct, maps, kit, wanted);
    assert!(rt; recheck.checked() == checked);
    let mut source = recheck.into_candidates();
    check_left(rt, &mut source, &mut host, &mut Direct, maps, left);
    drop((host, source));
}

/// The same of a scan.
fn check_scan(
    rt: &impl Abort,
    alloc: Global,
    piece: &str,
    wanted: &[&[u8]],
    checked: u64,
    left: &[Want<'_>],
) {
    let book = book_of(rt, alloc);
    let mut kit = Kit::new(Vec::new(alloc));
    let query = query_of(rt, alloc, &mut kit, piece);
    let source = table_scans::source_of(rt, alloc);
    check_select(
        rt, alloc, source, query, &book, &mut kit, wanted, checked, left,
    );
    drop((book, kit));
}

#[test]
fn all_rows_are_given(rt: HostRuntime) {
    check_scan(
        &rt,
        rt.alloc(),
        "SELECT k FROM t;",
        &[b"k1", b"k2", b"k3"],
        3,
        &[],
    );
}

// The data file has the text x of k1, which the maps overwrite.
#[test]
fn rejected_candidates_are_counted(rt: HostRuntime) {
    let piece = "SELECT k FROM t WHERE a = 'x' ALLOW FILTERING;";
    check_scan(&rt, rt.alloc(), piece, &[b"k2"], 3, &[]);
}

#[test]
fn nothing_is_looked_at_behind_the_limit(rt: HostRuntime) {
    let piece = "SELECT k FROM t LIMIT 1;";
    let left: [Want<'_>; 2] = [(b"k2", 1, 5), (b"k3", 1, 5)];
    check_scan(&rt, rt.alloc(), piece, &[b"k1"], 1, &left);
}

#[test]
fn limit_counts_rows_that_are_accepted(rt: HostRuntime) {
    let piece = "SELECT k FROM t WHERE a = 'x' LIMIT 1 ALLOW FILTERING;";
    check_scan(&rt, rt.alloc(), piece, &[b"k2"], 2, &[(b"k3", 1, 5)]);
}

#[test]
fn key_that_was_looked_up_is_rechecked(rt: HostRuntime) {
    let alloc = rt.alloc();
    let book = book_of(&rt, alloc);
    let mut kit = Kit::new(Vec::new(alloc));
    let piece = "SELECT k FROM t WHERE a = 'x' ALLOW FILTERING;";
    let query = query_of(&rt, alloc, &mut kit, piece);
    let source = key_look_ups::source_of(&rt, alloc, b"k1");
    check_select(&rt, alloc, source, query, &book, &mut kit, &[], 1, &[]);
    drop((book, kit));
}
