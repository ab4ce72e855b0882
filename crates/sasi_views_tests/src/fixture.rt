// A book whose views are all kept.
ghost use Rattle.std.specs.Prelude.{◌≡◌, ◌<◌, ◌++◌, ◌∷◌, ◌^◌, [], length};
ghost use Rattle.sasi_views.specs.Kept.{IsCounted};
ghost use Rattle.sasi_views.specs.Parts.{ListsOnce};
ghost use Rattle.sasi_views_tests.specs.OneView.{one_file, one_map};

use sasi_host::FileName;
use sasi_manifest::{PartNumber, PartNumbers};
use sasi_views::{Component, Part, PartList, View, ViewBook};
use std::alloc::Global;
use std::process::Abort;

/// A book without views, and the views that are out.
pub fn no_views(alloc: Global) -> (ViewBook, Vec<View>)
    ensures counted { IsCounted result.0 result.1.items }
    ensures none { result.1.items ≡ [] }
{
    (ViewBook::new(alloc), Vec::new(alloc))
}

/// The data file with this number, and the part of one index that goes with it.
pub fn file(rt: &impl Abort, alloc: Global, number: u32, index: u32, part: u32) -> PartList
    ensures parts { result ≡ one_file number index part }
    ensures once { ListsOnce result }
{
    let mut indexes = PartNumbers::new(alloc);
    indexes
        .push(PartNumber { index, part })
        .expect(rt, "memory");
    let mut parts = PartList::new(alloc);
    parts
        .push(Part::File { number, indexes })
        .expect(rt, "memory");
    parts
}

/// The map with this number.
pub fn map(rt: &impl Abort, alloc: Global, number: u64) -> PartList
    ensures parts { result ≡ one_map number }
    ensures once { ListsOnce result }
{
    let mut parts = PartList::new(alloc);
    parts.push(Part::Map(number)).expect(rt, "memory");
    parts
}

/// The component of a data file.
pub fn data(number: u32) -> Component {
    Component::File(FileName::data(number))
}

/// The component of an index file that goes with a data file.
pub fn index(number: u32, index: u32, part: u32) -> Component {
    Component::File(PartNumber { index, part }.file_name(number))
}

/// Takes a view and keeps it.
pub fn open(rt: &impl Abort, book: &mut ViewBook, views: &mut Vec<View>, parts: PartList)
    requires counted { IsCounted book.old views.old.items }
    requires few { length views.old.items < 2 ^ 16 }
    requires once { ListsOnce parts }
    ensures counted { IsCounted book.new views.new.items }
    ensures views { views.new.items ≡ views.old.items ++ parts ∷ [] }
{
    let view = book.take(parts).expect(rt, "memory");
    views.push(view).expect(rt, "memory");
}

/// Gives the view back that was taken last.
pub fn close(book: &mut ViewBook, views: &mut Vec<View>)
    requires counted { IsCounted book.old views.old.items }
    ensures counted { IsCounted book.new views.new.items }
{
    if let Some(view) = views.pop() {
        book.give(view);
    }
}

/// Replaces parts.
pub fn replace(rt: &impl Abort, book: &mut ViewBook, views: &[View], old: PartList, new: PartList)
    requires counted { IsCounted book.old views.now }
    ensures counted { IsCounted book.new views.now }
{
    book.replace(&old, new).expect(rt, "memory");
}

/// The next dead component.
pub fn next_dead(book: &mut ViewBook, views: &[View]) -> Option<Component>
    requires counted { IsCounted book.old views.now }
    ensures counted { IsCounted book.new views.now }
{
    book.next_dead()
}
