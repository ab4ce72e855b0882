// Each call over cursors that are numbers.
use sasi_cursors::Cursors;
use sasi_types::Name;
use std::alloc::Global;
use std::process::Abort;

fn named(rt: &impl Abort, alloc: Global, text: &str) -> Name {
    Name::new(text.as_bytes().to_vec(alloc).expect(rt, "memory"))
}

/// Opens a cursor under the name, which no other has.
fn open(rt: &impl Abort, alloc: Global, cursors: &mut Cursors<u32>, text: &str, cursor: u32) {
    let name = named(rt, alloc, text);
    assert!(rt; !cursors.has(&name));
    assert!(rt; cursors.insert(&name, cursor).is_ok());
    assert!(rt; cursors.has(&name));
}

/// Closes the cursor of the name.
fn close(rt: &impl Abort, alloc: Global, cursors: &mut Cursors<u32>, text: &str) -> Option<u32> {
    let name = named(rt, alloc, text);
    let closed = cursors.remove(&name);
    assert!(rt; !cursors.has(&name));
    closed
}

/// Puts a number in place of the cursor of the name. It tells the former one.
fn replace(
    rt: &impl Abort,
    alloc: Global,
    cursors: &mut Cursors<u32>,
    text: &str,
    cursor: u32,
) -> Option<u32> {
    let place = cursors.get_mut(&named(rt, alloc, text))?;
    let former = *place;
    *place = cursor;
    Some(former)
}

/// The cursors in their order.
fn check(rt: &impl Abort, cursors: &Cursors<u32>, expected: &[u32]) {
    assert!(rt; cursors.values().as_slice() == expected);
}

/// The cursors `one`, `two` and `three`, opened in this order.
fn three(rt: &impl Abort, alloc: Global) -> Cursors<u32> {
    let mut cursors = Cursors::new(alloc);
    open(rt, alloc, &mut cursors, "one", 1);
    open(rt, alloc, &mut cursors, "two", 2);
    open(rt, alloc, &mut cursors, "three", 3);
    cursors
}

#[test]
fn cursors_are_listed_in_the_order_of_opening(rt: HostRuntime) {
    let cursors = three(&rt, rt.alloc());
    assert!(rt; cursors.len() == 3);
    check(&rt, &cursors, &[1, 2, 3]);
}

#[test]
fn closed_cursor_leaves_the_order(rt: HostRuntime) {
    let mut cursors = three(&rt, rt.alloc());
    assert!(rt; close(&rt, rt.alloc(), &mut cursors, "one") == Some(1));
    check(&rt, &cursors, &[2, 3]);
    assert!(rt; close(&rt, rt.alloc(), &mut cursors, "one").is_none());
}

#[test]
fn name_used_again_is_the_last(rt: HostRuntime) {
    let mut cursors = three(&rt, rt.alloc());
    assert!(rt; close(&rt, rt.alloc(), &mut cursors, "two") == Some(2));
    open(&rt, rt.alloc(), &mut cursors, "two", 4);
    check(&rt, &cursors, &[1, 3, 4]);
}

#[test]
fn cursor_is_moved_on_in_its_place(rt: HostRuntime) {
    let mut cursors = three(&rt, rt.alloc());
    assert!(rt; replace(&rt, rt.alloc(), &mut cursors, "two", 7) == Some(2));
    assert!(rt; replace(&rt, rt.alloc(), &mut cursors, "four", 8).is_none());
    check(&rt, &cursors, &[1, 7, 3]);
}

#[test]
fn names_differ_by_each_byte(rt: HostRuntime) {
    let cursors = three(&rt, rt.alloc());
    for text in ["on", "onf", "ones", "One", ""] {
        assert!(rt; !cursors.has(&named(&rt, rt.alloc(), text)));
    }
}

#[test]
fn cursors_are_given_back_in_the_order_of_opening(rt: HostRuntime) {
    let mut expected = 1_u32;
    for cursor in three(&rt, rt.alloc()).into_values() {
        assert!(rt; cursor == expected);
        expected = expected.saturating_add(1);
    }
    assert!(rt; expected == 4);
}
