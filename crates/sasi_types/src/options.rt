// The options of an index, as they are written.
ghost use Rattle.std.specs.Prelude.{◌≡◌, ◌++◌, ◌∷◌, [], IfOk};

use crate::Text;
use crate::strings::Strings;
use std::alloc::{AllocError, Global};
use std::marker::Model;

/// The options of an index with their values, in the order in which they are written. An option that is given twice is here twice.
#[derive(Drop)]
pub struct Options {
    options: Strings,
    values: Strings,
}

impl Model for Options {
    ghost use Rattle.std.specs.Prelude.{◌≡◌, List, ℕ, length};
    ghost use Rattle.std.specs.List.{zip};

    ghost Value = { List (List ℕ × List ℕ) };

    ghost view = { λ a. zip a.options a.values };

    ghost invariant = { λ a. length a.options ≡ length a.values };
}

impl Options {
    /// No options.
    pub fn new(alloc: Global) -> Options
        ensures { result ≡ [] }
    {
        Options {
            options: Strings::new(alloc),
            values: Strings::new(alloc),
        }
    }

    /// The options with one more and its value.
    #[tactic(auto, using(crate::proofs::Zipped::zip_more))]
    pub fn with(self, option: &Text, value: &Text) -> Result<Options, AllocError>
        ensures { IfOk result (λ options. options ≡ self ++ (option.now, value.now) ∷ []) }
    {
        let Options { options, values } = self;
        let (mut options, mut values) = (options, values);
        options.push(option.bytes())?;
        values.push(value.bytes())?;
        Ok(Options { options, values })
    }

    /// The options with their values, each by itself.
    pub fn unpack(&self, alloc: Global) -> Result<Vec<(Text, Text)>, AllocError>
        ensures { IfOk result (λ options. options.items ≡ self.now) }
    {
        let mut all = Vec::new(alloc);
        let mut options = self.options.read();
        let mut values = self.values.read();
        'options: while let Some(option) = options.next() {
            let Some(value) = values.next() else {
                unreachable!()
            };
            let option = Text::new(option.to_vec(alloc)?);
            all.push((option, Text::new(value.to_vec(alloc)?)))?;
        }
        Ok(all)
    }
}
