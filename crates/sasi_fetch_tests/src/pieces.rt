// Rows are fetched in pieces: the same rows, each once, and none behind the last one.

use crate::fetches::{Fetch, check_fetches};
use crate::fixture::{DATA, book_of, file_and_maps, host_of};
use crate::queries::plan_of;
use sasi_analyzers::Kit;
use sasi_fetch::Cursor;
use sasi_views::Part;
use std::alloc::Global;
use std::process::Abort;

/// FETCHes of a cursor of the SELECT of a piece print this.
fn check(rt: &impl Abort, alloc: Global, piece: &str, fetches: &[Fetch<'_>]) {
    let book = book_of(rt, alloc);
    let mut kit = Kit::new(Vec::new(alloc));
    let plan = plan_of(rt, alloc, &mut kit, piece);
    let view = file_and_maps(rt, alloc);
    let mut cursor = Cursor::new(alloc, plan, view);
    let mut host = host_of(rt, alloc);
    assert!(rt; host.bytes(DATA).is_some());
    check_fetches(rt, alloc, &mut cursor, &mut host, &mut kit, &book, fetches);
    let view = cursor.end();
    check_parts(rt, view.parts().as_slice());
    drop((book, kit, host, view));
}

/// They are the data file and the maps.
fn check_parts(rt: &impl Abort, parts: &[Part]) {
    let [
        Part::File { number, .. },
        Part::Map(first),
        Part::Map(second),
        Part::Map(third),
    ] = parts
    else {
        panic!(rt; "other parts");
    };
    assert!(rt; (*number, *first, *second, *third) == (7, 1, 2, 3));
}

const ALL: &str = "SELECT k, a FROM t;";

#[test]
fn all_rows_at_once(rt: HostRuntime) {
    let fetches: [Fetch<'_>; 2] = [
        (3, "'k1' | 'z'\n'k2' | 'x'\n'k3' | 'w'\n(3 rows)\n"),
        (1, "(0 rows)\n"),
    ];
    check(&rt, rt.alloc(), ALL, &fetches);
}

#[test]
fn one_row_at_a_time(rt: HostRuntime) {
    let fetches: [Fetch<'_>; 5] = [
        (1, "'k1' | 'z'\n(1 rows)\n"),
        (1, "'k2' | 'x'\n(1 rows)\n"),
        (1, "'k3' | 'w'\n(1 rows)\n"),
        (1, "(0 rows)\n"),
        (4_294_967_295, "(0 rows)\n"),
    ];
    check(&rt, rt.alloc(), ALL, &fetches);
}

#[test]
fn last_piece_is_shorter(rt: HostRuntime) {
    let fetches: [Fetch<'_>; 3] = [
        (2, "'k1' | 'z'\n'k2' | 'x'\n(2 rows)\n"),
        (2, "'k3' | 'w'\n(1 rows)\n"),
        (2, "(0 rows)\n"),
    ];
    check(&rt, rt.alloc(), ALL, &fetches);
}

#[test]
fn more_rows_than_there_are(rt: HostRuntime) {
    let fetches: [Fetch<'_>; 1] = [(
        4_294_967_295,
        "'k1' | 'z'\n'k2' | 'x'\n'k3' | 'w'\n(3 rows)\n",
    )];
    check(&rt, rt.alloc(), ALL, &fetches);
}

#[test]
fn limit_ends_the_rows(rt: HostRuntime) {
    let fetches: [Fetch<'_>; 3] = [
        (1, "'k1' | 'z'\n(1 rows)\n"),
        (5, "'k2' | 'x'\n(1 rows)\n"),
        (5, "(0 rows)\n"),
    ];
    check(&rt, rt.alloc(), "SELECT k, a FROM t LIMIT 2;", &fetches);
}

#[test]
fn rows_of_a_where(rt: HostRuntime) {
    let piece = "SELECT a FROM t WHERE a = 'x' ALLOW FILTERING;";
    let fetches: [Fetch<'_>; 2] = [(1, "'x'\n(1 rows)\n"), (1, "(0 rows)\n")];
    check(&rt, rt.alloc(), piece, &fetches);
}

#[test]
fn row_of_a_key(rt: HostRuntime) {
    let piece = "SELECT k, a FROM t WHERE k = 'k3';";
    let fetches: [Fetch<'_>; 2] = [(2, "'k3' | 'w'\n(1 rows)\n"), (2, "(0 rows)\n")];
    check(&rt, rt.alloc(), piece, &fetches);
}

#[test]
fn no_row(rt: HostRuntime) {
    let piece = "SELECT k, a FROM t WHERE k = 'k1' AND k = 'k2' ALLOW FILTERING;";
    let fetches: [Fetch<'_>; 2] = [(1, "(0 rows)\n"), (1, "(0 rows)\n")];
    check(&rt, rt.alloc(), piece, &fetches);
}
