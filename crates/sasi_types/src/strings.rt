// Byte strings in one buffer. A string of a byte takes five bytes here, and some sixty as a vector of its own.
ghost use Rattle.std.specs.Prelude.{◌≡◌, ◌++◌, ◌∷◌, [], None, OnOk, OnErr, length};
ghost use Rattle.std.specs.Option.{option_copied, option_to_list};

use std::alloc::{AllocError, Global};
use std::marker::Model;

/// Byte strings, one after another in one buffer, seen as their list.
#[derive(Drop)]
pub struct Strings {
    sizes: Vec<u32>,
    bytes: Vec<u8>,
}

impl Model for Strings {
    ghost use Rattle.std.specs.Prelude.{◌≡◌, List, ℕ, length};
    ghost use Rattle.sasi_types.specs.Strings.{cut, total};

    ghost Value = { List (List ℕ) };

    ghost view = { λ a. cut a.sizes.items a.bytes.items };

    ghost invariant = { λ a. total a.sizes.items ≡ length a.bytes.items };
}

impl Strings {
    /// The empty list.
    pub fn new(alloc: Global) -> Strings
        ensures { result ≡ [] }
    {
        Strings {
            sizes: Vec::new(alloc),
            bytes: Vec::new(alloc),
        }
    }

    /// The number of strings.
    #[tactic(auto, using(crate::proofs::Cutting::cut_length))]
    pub fn len(&self) -> usize
        ensures { result ≡ length self.now }
    {
        self.sizes.len()
    }

    /// Adds a string at the end. One of 2^32 bytes is out of memory.
    #[tactic(auto, using(crate::proofs::Cutting::cut_more, crate::proofs::Cutting::total_more))]
    pub fn push(&mut self, string: &[u8]) -> Result<(), AllocError>
        ensures ok { OnOk result (self.new ≡ self.old ++ string.now ∷ []) }
        ensures err { OnErr result (self.new ≡ self.old) }
    {
        let Ok(size) = u32::try_from(string.len()) else {
            return Err(AllocError);
        };
        self.sizes.reserve(1)?;
        self.bytes.extend_from_slice(string)?;
        self.sizes.push_reserved(size);
        Ok(())
    }

    /// The strings, to be read from the first one on.
    pub fn read(&self) -> StringsLeft<'_>
        ensures { result ≡ self.now }
    {
        StringsLeft {
            sizes: &self.sizes,
            bytes: &self.bytes,
        }
    }
}

/// The strings that are left to be read.
#[derive(Drop)]
pub struct StringsLeft<'a> {
    sizes: &'a [u32],
    bytes: &'a [u8],
}

impl<'a> Model for StringsLeft<'a> {
    ghost use Rattle.std.specs.Prelude.{◌≡◌, List, ℕ, length};
    ghost use Rattle.sasi_types.specs.Strings.{cut, total};

    ghost Value = { List (List ℕ) };

    ghost view = { λ a. cut a.sizes.now a.bytes.now };

    ghost invariant = { λ a. total a.sizes.now ≡ length a.bytes.now };
}

impl<'a> StringsLeft<'a> {
    /// The next string.
    pub fn next(&mut self) -> Option<&'a [u8]>
        ensures items { self.old ≡ option_to_list (option_copied result) ++ self.new }
        ensures end { result ≡ None → self.old ≡ [] }
    {
        let (size, sizes) = self.sizes.split_first()?;
        let (string, bytes) = self.bytes.split_at(*size as usize);
        self.sizes = sizes;
        self.bytes = bytes;
        Some(string)
    }
}
