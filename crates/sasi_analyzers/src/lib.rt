//! Analyzers, which make the terms of a text: one that takes a text as a whole, and one that takes its words as Unicode cuts them.
//! Any other object of the trait serves as well. A kit is a list of such objects, and finds the one that a rule asks for.
#![tactic(auto)]

mod analyzer;
mod fold;
mod kit;
mod whole;
mod words;

pub use analyzer::Analyzer;
pub use kit::Kit;
pub use whole::Whole;
pub use words::Words;
