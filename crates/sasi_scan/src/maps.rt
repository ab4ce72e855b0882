// The maps in memory of a view.
ghost use Rattle.std.specs.Prelude.{◌≡◌, ◌≤◌, length, slice_get};
ghost use Rattle.std.specs.Option.{option_copied};
ghost use Rattle.sasi_scan.specs.Numbered.{view_numbered, views_numbered};

use sasi_memindex::MapBook;
use sasi_memtable::Memtable;
use std::marker::Model;

/// The maps with these numbers that a book has, as a list in the order of the numbers, which is from the oldest to the newest. It
/// copies neither a map nor a number.
#[derive(Drop)]
pub struct Maps<'a> {
    book: &'a MapBook,
    numbers: &'a [u64],
    // How many of the numbers the book has. Where it has all of them, a position among the maps is one among the numbers.
    len: usize,
}

impl<'a> Model for Maps<'a> {
    ghost use Rattle.std.specs.Prelude.{◌≡◌, List, length};
    ghost use Rattle.sasi_memtable.specs.MemtableView.{MemtableView};
    ghost use Rattle.sasi_scan.specs.Numbered.{coded_views, views_numbered};

    ghost Value = { List MemtableView };

    ghost coded = { coded_views };

    ghost view = { λ a. views_numbered a.book.now a.numbers.now };

    ghost invariant = { λ a. a.len ≡ length (views_numbered a.book.now a.numbers.now) };
}

impl<'a> Maps<'a> {
    /// The maps with these numbers. A number that the book hasn't is passed over.
    pub fn new(book: &'a MapBook, numbers: &'a [u64]) -> Maps<'a>
        ensures { result ≡ views_numbered book.now numbers.now }
    {
        let len = count(book, numbers);
        Maps { book, numbers, len }
    }

    // How many maps there are.
    pub(crate) fn len(&self) -> usize
        ensures { result ≡ length self.now }
    {
        self.len
    }

    // The map at this position.
    pub(crate) fn get(&self, position: usize) -> Option<&'a Memtable>
        ensures { option_copied result ≡ slice_get self.now position }
    {
        if self.len == self.numbers.len() {
            map_at(self.book, self.numbers, position)
        } else {
            map_among(self.book, self.numbers, position)
        }
    }
}

// How many of the numbers the book has.
fn count(book: &MapBook, numbers: &[u64]) -> usize
    ensures { result ≡ length (views_numbered book.now numbers.now) }
{
    let mut total = 0;
    for number in numbers {
        total += count_one(book, *number);
    }
    total
}

// One where the book has the number, and else zero.
fn count_one(book: &MapBook, number: u64) -> usize
    ensures counts { result ≡ length (view_numbered book.now number) }
    ensures most { result ≤ 1 }
{
    match book.get(number) {
        Some(_) => 1,
        None => 0,
    }
}

// The map at a position, where the book has all the numbers.
fn map_at<'a>(book: &'a MapBook, numbers: &[u64], position: usize) -> Option<&'a Memtable>
    requires { length (views_numbered book.now numbers.now) ≡ length numbers.now }
    ensures { option_copied result ≡ slice_get (views_numbered book.now numbers.now) position }
{
    let Some(number) = numbers.get(position) else {
        return None;
    };
    match book.get(*number) {
        Some(part) => Some(&part.map),
        None => None,
    }
}

// The map at a position, where the book may lack some of the numbers, which are passed over.
fn map_among<'a>(book: &'a MapBook, numbers: &[u64], position: usize) -> Option<&'a Memtable>
    ensures { option_copied result ≡ slice_get (views_numbered book.now numbers.now) position }
{
    let mut before = position;
    for number in numbers {
        if let Some(part) = book.get(*number) {
            if before == 0 {
                return Some(&part.map);
            }
            before -= 1;
        }
    }
    None
}
