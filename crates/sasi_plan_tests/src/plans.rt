// Plans over the data file and the maps, without an index.

use crate::fixture::{book_of, file_and_maps};
use crate::queries::plan_of;
use crate::readers::{Want, check_plan};
use sasi_analyzers::Kit;
use sasi_views::Part;
use std::alloc::Global;
use std::process::Abort;

/// The SELECT of a piece gives these rows, and looks at so many candidates.
fn check(rt: &impl Abort, alloc: Global, piece: &str, wanted: &[Want<'_>], checked: u64) {
    let book = book_of(rt, alloc);
    let mut kit = Kit::new(Vec::new(alloc));
    let plan = plan_of(rt, alloc, &mut kit, piece);
    let view = file_and_maps(rt, alloc);
    let parts = check_plan(rt, alloc, plan, view, &book, &mut kit, wanted, checked);
    check_parts(rt, parts.parts().as_slice());
    drop((book, kit, parts));
}

/// They are the data file and the maps.
fn check_parts(rt: &impl Abort, parts: &[Part]) {
    let [
        Part::File { number, .. },
        Part::Map(first),
        Part::Map(second),
        Part::Map(third),
    ] = parts
    else {
        panic!(rt; "other parts");
    };
    assert!(rt; (*number, *first, *second, *third) == (7, 1, 2, 3));
}

#[test]
fn newest_of_three_maps_wins(rt: HostRuntime) {
    let rows: [Want<'_>; 3] = [(b"k1", b"z"), (b"k2", b"x"), (b"k3", b"w")];
    check(&rt, rt.alloc(), "SELECT k, a FROM t;", &rows, 3);
}

#[test]
fn row_of_a_key_is_given(rt: HostRuntime) {
    let piece = "SELECT k, a FROM t WHERE k = 'k1';";
    check(&rt, rt.alloc(), piece, &[(b"k1", b"z")], 1);
}

#[test]
fn row_of_a_later_map_alone_is_given(rt: HostRuntime) {
    let piece = "SELECT k, a FROM t WHERE k = 'k3';";
    check(&rt, rt.alloc(), piece, &[(b"k3", b"w")], 1);
}

#[test]
fn two_keys_give_nothing(rt: HostRuntime) {
    let piece = "SELECT k, a FROM t WHERE k = 'k1' AND k = 'k2' ALLOW FILTERING;";
    check(&rt, rt.alloc(), piece, &[], 0);
}

// The data file has the text x of k1, which the maps overwrite.
#[test]
fn column_without_an_index_is_filtered(rt: HostRuntime) {
    let piece = "SELECT k, a FROM t WHERE a = 'x' ALLOW FILTERING;";
    check(&rt, rt.alloc(), piece, &[(b"k2", b"x")], 3);
}

#[test]
fn limit_ends_the_rows(rt: HostRuntime) {
    let piece = "SELECT k, a FROM t LIMIT 1;";
    check(&rt, rt.alloc(), piece, &[(b"k1", b"z")], 1);
}
