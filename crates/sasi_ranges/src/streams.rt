// Lists of streams.
ghost use Rattle.std.specs.Prelude.{◌≡◌, ◌++◌, ◌∷◌, [], length, OnOk, OnErr};

use std::alloc::{AllocError, Global};
use std::marker::Model;

/// A list of streams of one type.
#[derive(Drop)]
pub struct Streams<S> {
    pub(crate) alloc: Global,
    pub(crate) items: Vec<S>,
}

impl<S> Model for Streams<S> {
    ghost use Rattle.std.specs.Prelude.{List};

    ghost Value = { List S };

    ghost view = { λ a. a.items.items };
}

impl<S: Drop> Streams<S> {
    /// The empty list.
    pub fn new(alloc: Global) -> Streams<S>
        ensures { result ≡ [] }
    {
        Streams {
            alloc,
            items: Vec::new(alloc),
        }
    }

    /// How many there are: the position of the stream that is added next.
    pub fn len(&self) -> usize
        ensures { result ≡ length self.now }
    {
        self.items.len()
    }

    /// Adds a stream at the end.
    pub fn push(&mut self, stream: S) -> Result<(), AllocError>
        ensures ok { OnOk result (self.new ≡ self.old ++ stream ∷ []) }
        ensures err { OnErr result (self.new ≡ self.old) }
    {
        self.items.push(stream)?;
        Ok(())
    }
}
