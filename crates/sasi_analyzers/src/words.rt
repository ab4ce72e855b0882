// The analyzer that takes the words of a text.
ghost use Rattle.std.specs.Prelude.{◌≡◌, ◌+◌, [], map, drop, IfOk};
ghost use Rattle.unicode_segmentation.specs.Word.{words};
ghost use Rattle.sasi_types.specs.declared.class.Class.TheVariants.{Standard};
ghost use Rattle.sasi_terms.specs.Terms.{folded};

use crate::Analyzer;
use crate::fold::folded;
use sasi_types::{Class, Rule, Term, TermList};
use std::alloc::{AllocError, Global};
use unicode_segmentation::UnicodeSegmentation;

/// The analyzer whose terms are the words of a text, in order: the pieces between the word boundaries of Unicode's annex 29 that
/// have a letter or a number.
#[derive(Drop)]
pub struct Words {
    terms: TermList,
    position: usize,
}

// The words of a text, in which A to Z become a to z where `fold` is set.
fn words_of(alloc: Global, fold: bool, text: &str) -> Result<TermList, AllocError>
    ensures { IfOk result (λ found. found ≡ map (folded fold) (words text.now)) }
{
    let mut found = TermList::new(alloc);
    'words: for word in text.unicode_words() {
        let bytes = folded(alloc, fold, word.as_bytes())?;
        found.push(Term::new(bytes))?;
    }
    Ok(found)
}

impl Words {
    /// An analyzer without a text.
    pub fn new(alloc: Global) -> Words
        ensures { ⟦<Words as Analyzer>⟧.left result ≡ [] }
    {
        Words {
            terms: TermList::new(alloc),
            position: 0,
        }
    }
}

impl Analyzer for Words {
    ghost kind = { λ it. Standard };

    ghost left = { λ it. drop it.position it.terms };

    fn class(&self) -> Class {
        Class::Standard
    }

    fn load(&mut self, alloc: Global, rule: Rule, text: &str) -> Result<(), AllocError> {
        self.terms = words_of(alloc, rule.folds(), text)?;
        self.position = 0;
        Ok(())
    }

    fn next_into(&mut self, out: &mut Vec<u8>) -> Result<bool, AllocError> {
        out.clear();
        match self.terms.as_slice().get(self.position) {
            Some(term) => {
                out.extend_from_slice(term.bytes())?;
                self.position += 1;
                Ok(true)
            }
            None => Ok(false),
        }
    }
}
