// Token trees, as other files refer to them.
ghost use Rattle.std.specs.Prelude.{◌≡◌, ◌++◌, ◌∷◌, [], OnOk, OnErr};

use crate::Token;
use std::alloc::{AllocError, Global};
use std::marker::Model;

/// A token, and the offset in a file to which it leads. Pairs are in the order of tokens, and then of offsets.
#[derive(Clone, Copy, Debug, PartialEq, Eq, PartialOrd, Ord)]
pub struct Pair {
    pub token: Token,
    /// The offset from the file's start.
    pub place: u64,
}

/// A list of pairs.
#[derive(Drop)]
pub struct PairList {
    items: Vec<Pair>,
}

impl Model for PairList {
    ghost use Rattle.std.specs.Prelude.{List};
    ghost use Rattle.sasi_types.specs.declared.tree.Pair.{Pair};

    ghost Value = { List Pair };

    ghost view = { λ a. a.items.items };
}

impl PairList {
    /// The empty list.
    pub fn new(alloc: Global) -> PairList
        ensures { result ≡ [] }
    {
        PairList {
            items: Vec::new(alloc),
        }
    }

    /// The pairs, in order.
    pub fn as_slice(&self) -> &[Pair]
        ensures { result.now ≡ self.now }
    {
        &self.items
    }

    /// Adds a pair at the end.
    pub fn push(&mut self, pair: Pair) -> Result<(), AllocError>
        ensures ok { OnOk result (self.new ≡ self.old ++ pair ∷ []) }
        ensures err { OnErr result (self.new ≡ self.old) }
    {
        self.items.push(pair)?;
        Ok(())
    }

    /// Removes all pairs.
    pub fn clear(&mut self)
        ensures { self.new ≡ [] }
    {
        self.items.clear();
    }
}

/// A token tree in a file: the offset of its root and its number of pairs, both 0 for the empty tree.
#[derive(Clone, Copy, Debug, PartialEq, Eq)]
pub struct TreeRef {
    pub root: u64,
    pub pairs: u64,
}
