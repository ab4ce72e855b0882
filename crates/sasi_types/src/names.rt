// Lists of names.
ghost use Rattle.std.specs.Prelude.{◌≡◌, ◌++◌, ◌∷◌, [], IfOk, OnErr, OnOk, length};

use crate::Name;
use crate::strings::{Strings, StringsLeft};
use std::alloc::{AllocError, Global};
use std::marker::Model;

/// A list of names.
#[derive(Drop)]
pub struct Names {
    names: Strings,
}

impl Model for Names {
    ghost use Rattle.std.specs.Prelude.{List, ℕ};

    ghost Value = { List (List ℕ) };

    ghost view = { λ a. a.names };
}

impl Names {
    /// The empty list.
    pub fn new(alloc: Global) -> Names
        ensures { result ≡ [] }
    {
        Names {
            names: Strings::new(alloc),
        }
    }

    /// The number of names.
    pub fn len(&self) -> usize
        ensures { result ≡ length self.now }
    {
        self.names.len()
    }

    /// Adds a name at the end.
    pub fn push(&mut self, name: &Name) -> Result<(), AllocError>
        ensures ok { OnOk result (self.new ≡ self.old ++ name.now ∷ []) }
        ensures err { OnErr result (self.new ≡ self.old) }
    {
        self.names.push(name.bytes())
    }

    /// The bytes of the names, to be read from the first one on.
    pub fn read(&self) -> StringsLeft<'_>
        ensures { result ≡ self.now }
    {
        self.names.read()
    }

    /// The names, each by itself.
    pub fn unpack(&self, alloc: Global) -> Result<Vec<Name>, AllocError>
        ensures { IfOk result (λ names. names.items ≡ self.now) }
    {
        let mut names = Vec::new(alloc);
        let mut left = self.names.read();
        'names: while let Some(bytes) = left.next() {
            names.push(Name::new(bytes.to_vec(alloc)?))?;
        }
        Ok(names)
    }
}
