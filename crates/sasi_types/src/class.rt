// Classes of analyzers.

/// The class of an analyzer: an index of texts asks for one that keeps a text whole, or for one that splits it into words.
#[derive(Clone, Copy, Debug, PartialEq, Eq)]
pub enum Class {
    NonTokenizing,
    Standard,
}
