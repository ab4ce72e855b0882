// How the terms of a text are made.
ghost use Rattle.std.specs.Prelude.{◌≡◌};
ghost use Rattle.sasi_types.specs.Rule.{class_of, folds};

use crate::Class;

/// How an index makes terms of a text: the whole text is one, or each of its words is. Where `fold` is set, the letters A to Z
/// become a to z.
#[derive(Clone, Copy, Debug, PartialEq, Eq)]
pub enum Rule {
    Whole { fold: bool },
    Words { fold: bool },
}

impl Rule {
    /// The class of analyzer that makes these terms.
    pub fn class(self) -> Class
        ensures { result ≡ class_of self }
    {
        match self {
            Rule::Whole { .. } => Class::NonTokenizing,
            Rule::Words { .. } => Class::Standard,
        }
    }

    /// Whether the letters A to Z become a to z.
    pub fn folds(self) -> bool
        ensures { result ≡ folds self }
    {
        match self {
            Rule::Whole { fold } | Rule::Words { fold } => fold,
        }
    }
}
