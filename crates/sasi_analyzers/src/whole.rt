// The analyzer that takes a text as a whole.
ghost use Rattle.std.specs.Prelude.{◌≡◌, ◌∷◌, []};
ghost use Rattle.std.specs.Option.{option_to_list};
ghost use Rattle.sasi_types.specs.Rule.{class_of};
ghost use Rattle.sasi_types.specs.declared.class.Class.TheVariants.{NonTokenizing};
ghost use Rattle.sasi_terms.specs.Terms.{terms};

use crate::Analyzer;
use crate::fold::folded;
use sasi_types::{Class, Rule, Term};
use std::alloc::{AllocError, Global};

/// The analyzer whose one term is the text itself, also where it is empty.
#[derive(Drop)]
pub struct Whole {
    term: Option<Term>,
}

impl Whole {
    /// An analyzer without a text.
    pub fn new() -> Whole
        ensures { ⟦<Whole as Analyzer>⟧.left result ≡ [] }
    {
        Whole { term: None }
    }
}

impl Analyzer for Whole {
    ghost kind = { λ it. NonTokenizing };

    ghost left = { λ it. option_to_list it.term };

    fn class(&self) -> Class {
        Class::NonTokenizing
    }

    fn load(&mut self, alloc: Global, rule: Rule, text: &str) -> Result<(), AllocError> {
        let bytes = folded(alloc, rule.folds(), text.as_bytes())?;
        self.term = Some(Term::new(bytes));
        Ok(())
    }

    fn next_into(&mut self, out: &mut Vec<u8>) -> Result<bool, AllocError> {
        out.clear();
        match self.term.take() {
            Some(term) => {
                out.extend_from_slice(term.bytes())?;
                Ok(true)
            }
            None => Ok(false),
        }
    }
}
