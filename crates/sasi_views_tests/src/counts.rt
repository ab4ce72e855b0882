//! What is counted.
use crate::fixture::{close, data, file, index, map, no_views, open, replace};
use sasi_views::{Component, PartList};

#[test]
fn views_are_counted(rt: HostRuntime) {
    let alloc = rt.alloc();
    let (mut book, mut views) = no_views(alloc);
    replace(
        &rt,
        &mut book,
        &views,
        PartList::new(alloc),
        file(&rt, alloc, 7, 2, 5),
    );
    assert!(&rt; book.count(&data(7)) == 0);
    open(&rt, &mut book, &mut views, file(&rt, alloc, 7, 2, 5));
    open(&rt, &mut book, &mut views, file(&rt, alloc, 7, 2, 5));
    open(&rt, &mut book, &mut views, map(&rt, alloc, 3));
    assert!(&rt; book.count(&data(7)) == 2);
    assert!(&rt; book.count(&index(7, 2, 5)) == 2);
    assert!(&rt; book.count(&Component::Map(3)) == 1);
    assert!(&rt; book.count(&Component::Map(7)) == 0);
    close(&mut book, &mut views);
    close(&mut book, &mut views);
    assert!(&rt; book.count(&data(7)) == 1);
    assert!(&rt; book.count(&Component::Map(3)) == 0);
}
