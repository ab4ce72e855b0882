//! What is dead, and what is obsolete.
use crate::fixture::{close, data, file, index, map, next_dead, no_views, open, replace};
use sasi_views::{Component, PartList};

#[test]
fn replaced_parts_die_with_their_views(rt: HostRuntime) {
    let alloc = rt.alloc();
    let (mut book, mut views) = no_views(alloc);
    replace(
        &rt,
        &mut book,
        &views,
        PartList::new(alloc),
        file(&rt, alloc, 7, 2, 5),
    );
    open(&rt, &mut book, &mut views, file(&rt, alloc, 7, 2, 5));
    replace(
        &rt,
        &mut book,
        &views,
        file(&rt, alloc, 7, 2, 5),
        file(&rt, alloc, 9, 2, 6),
    );
    assert!(&rt; next_dead(&mut book, &views).is_none());
    close(&mut book, &mut views);
    assert!(&rt; next_dead(&mut book, &views) == Some(data(7)));
    assert!(&rt; next_dead(&mut book, &views) == Some(index(7, 2, 5)));
    assert!(&rt; next_dead(&mut book, &views).is_none());
}

#[test]
fn a_part_that_is_replaced_by_itself_stays(rt: HostRuntime) {
    let alloc = rt.alloc();
    let (mut book, views) = no_views(alloc);
    replace(
        &rt,
        &mut book,
        &views,
        PartList::new(alloc),
        file(&rt, alloc, 7, 2, 5),
    );
    replace(
        &rt,
        &mut book,
        &views,
        file(&rt, alloc, 7, 2, 5),
        file(&rt, alloc, 7, 2, 6),
    );
    assert!(&rt; next_dead(&mut book, &views) == Some(index(7, 2, 5)));
    assert!(&rt; next_dead(&mut book, &views).is_none());
}

#[test]
fn dead_files_come_before_dead_maps(rt: HostRuntime) {
    let alloc = rt.alloc();
    let (mut book, mut views) = no_views(alloc);
    open(&rt, &mut book, &mut views, map(&rt, alloc, 4));
    open(&rt, &mut book, &mut views, file(&rt, alloc, 9, 1, 1));
    open(&rt, &mut book, &mut views, map(&rt, alloc, 3));
    close(&mut book, &mut views);
    close(&mut book, &mut views);
    close(&mut book, &mut views);
    assert!(&rt; next_dead(&mut book, &views) == Some(data(9)));
    assert!(&rt; next_dead(&mut book, &views) == Some(index(9, 1, 1)));
    assert!(&rt; next_dead(&mut book, &views) == Some(Component::Map(3)));
    assert!(&rt; next_dead(&mut book, &views) == Some(Component::Map(4)));
}

#[test]
fn replaced_files_with_views_are_obsolete(rt: HostRuntime) {
    let alloc = rt.alloc();
    let (mut book, mut views) = no_views(alloc);
    replace(
        &rt,
        &mut book,
        &views,
        PartList::new(alloc),
        file(&rt, alloc, 7, 2, 5),
    );
    open(&rt, &mut book, &mut views, file(&rt, alloc, 7, 2, 5));
    open(&rt, &mut book, &mut views, map(&rt, alloc, 3));
    assert!(&rt; book.obsolete().expect(&rt, "memory").as_slice().is_empty());
    replace(
        &rt,
        &mut book,
        &views,
        file(&rt, alloc, 7, 2, 5),
        file(&rt, alloc, 7, 2, 6),
    );
    let files = book.obsolete().expect(&rt, "memory");
    assert!(&rt; files.as_slice().len() == 1);
    assert!(&rt; files.as_slice()[0].index == 2);
    assert!(&rt; files.as_slice()[0].part == 5);
}
