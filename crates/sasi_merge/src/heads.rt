// The heads of sources.
ghost use Rattle.std.specs.Prelude.{◌≡◌, ◌<◌, ◌++◌, ◌∷◌, [], length, set, slice_get, Some, IfOk, OnOk, OnErr};
ghost use Rattle.sasi_merge.specs.Merging.{IsLeastKey};

use crate::least::least;
use sasi_cells::Partition;
use sasi_types::{DecoratedKey, Key, Token};
use std::alloc::{AllocError, Global};
use std::marker::Model;
use std::mem;

/// The next partition of a source, with its token and its key; None at the source's end.
pub type Head = Option<(Token, Key, Partition)>;

/// The heads of several sources, the oldest source first.
#[derive(Drop)]
pub struct Heads {
    items: Vec<Head>,
}

impl Model for Heads {
    ghost use Rattle.std.specs.Prelude.{List};
    ghost use Rattle.std.specs.Coded.{coded_list};
    ghost use Rattle.sasi_merge.specs.Merging.{Head, coded_head};

    ghost Value = { List Head };

    ghost coded = { coded_list coded_head };

    ghost view = { λ a. a.items.items };
}

impl Heads {
    /// No sources.
    pub fn new(alloc: Global) -> Heads
        ensures { result ≡ [] }
    {
        Heads {
            items: Vec::new(alloc),
        }
    }

    /// The heads, in the order of the sources.
    pub fn as_slice(&self) -> &[Head]
        ensures { result.now ≡ self.now }
    {
        &self.items
    }

    /// A copy of the least key of the heads, by token and then by the bytes of the key; None exactly where all sources are at their end. The
    /// caller then moves each source whose head has this key, and merges the heads that these had.
    pub fn least_key(&self, alloc: Global) -> Result<Option<DecoratedKey>, AllocError>
        ensures { IfOk result (IsLeastKey self.now) }
    {
        match least(&self.items) {
            None => Ok(None),
            Some((token, key)) => {
                let key = copy_key(alloc, key)?;
                Ok(Some(DecoratedKey { token, key }))
            }
        }
    }

    /// Adds the head of one more source, which is newer than the others.
    pub fn push(&mut self, head: Head) -> Result<(), AllocError>
        ensures ok { OnOk result (self.new ≡ self.old ++ head ∷ []) }
        ensures err { OnErr result (self.new ≡ self.old) }
    {
        self.items.push(head)?;
        Ok(())
    }

    /// Replaces the head of the source at this position.
    pub fn replace(&mut self, position: usize, head: Head)
        requires { position < length self.old }
        ensures { self.new ≡ set self.old position head }
    {
        self.items[position] = head;
    }

    /// Replaces the head of the source at this position, and gives the one that stood there.
    pub fn exchange(&mut self, position: usize, head: Head) -> Head
        requires { position < length self.old }
        ensures given { slice_get self.old position ≡ Some result }
        ensures heads { self.new ≡ set self.old position head }
    {
        mem::replace(&mut self.items[position], head)
    }
}

/// A copy of an entry in memory, as the head of its source.
pub fn copy_head(alloc: Global, key: &DecoratedKey, part: &Partition) -> Result<Head, AllocError>
    ensures { IfOk result (λ head. head ≡ Some (key.now.token, key.now.key, part.now)) }
{
    let copy = copy_key(alloc, &key.key)?;
    let part = part.copy(alloc)?;
    Ok(Some((key.token, copy, part)))
}

/// A copy of a key. Its bytes are those of a key, so the only fault is out of memory.
pub fn copy_key(alloc: Global, key: &Key) -> Result<Key, AllocError>
    ensures { IfOk result (λ copy. copy ≡ key.now) }
{
    match Key::new(alloc, key.bytes()) {
        Ok(copy) => Ok(copy),
        Err(_) => Err(AllocError),
    }
}
