// Items of a format, one after another.
ghost use Rattle.std.specs.Prelude.{◌≡◌, ◌++◌, ◌∷◌, [], List, OnOk, OnErr};
ghost use Rattle.sasi_formats.specs.Formats.{Format};
ghost use Rattle.sasi_formats.specs.Reader.{read, read_items as read_items_of};
ghost use Rattle.sasi_formats.specs.Gives.{Gives};

use crate::fault::FormatFault;
use sasi_fields::FieldReader;
use std::alloc::{AllocError, Global};
use std::marker::Model;

/// A list of items.
#[derive(Drop)]
pub struct Items<T> {
    items: Vec<T>,
}

impl<T> Model for Items<T> {
    ghost use Rattle.std.specs.Prelude.{List};

    ghost Value = { List T };

    ghost view = { λ a. a.items.items };
}

impl<T: Drop> Items<T> {
    /// The empty list.
    pub fn new(alloc: Global) -> Items<T>
        ensures { result ≡ [] }
    {
        Items {
            items: Vec::new(alloc),
        }
    }

    /// The items.
    pub fn as_slice(&self) -> &[T]
        ensures { result.now ≡ self.now }
    {
        &self.items
    }

    /// The items as a vector. Allocates nothing.
    pub fn into_vec(self) -> Vec<T>
        ensures { result.items ≡ self }
    {
        self.items
    }

    /// Adds an item at the end.
    pub fn push(&mut self, item: T) -> Result<(), AllocError>
        ensures ok { OnOk result (self.new ≡ self.old ++ item ∷ []) }
        ensures err { OnErr result (self.new ≡ self.old) }
    {
        self.items.push(item)?;
        Ok(())
    }
}

/// Reads items whose format may depend on the items before.
pub trait ReadItem<T> {
    /// The format of an item after these.
    ghost format: { Self → List T → Format T };

    /// Reads the next one.
    fn read(&self, alloc: Global, before: &[T], reader: &mut FieldReader) -> Result<T, FormatFault>
        ensures { Gives (read (format self.now before.now) reader.old) result reader.new };
}

/// Reads `count` items, one after another.
pub fn read_items<T: Drop, R: ReadItem<T>>(
    alloc: Global,
    reader: &mut FieldReader,
    count: usize,
    item: &R,
) -> Result<Items<T>, FormatFault>
    ensures { Gives (read_items_of (λ before. read (R.format item.now before)) count [] reader.old) result reader.new }
{
    let mut items = Items::new(alloc);
    for _turn in 0..count {
        let next = item.read(alloc, items.as_slice(), reader)?;
        items.push(next)?;
    }
    Ok(items)
}
