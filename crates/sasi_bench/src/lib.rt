//! What the programs that measure files share: their arguments, and a reader that counts the pages that it reads.
#![tactic(auto)]

mod arguments;
mod counting_reader;

pub use arguments::words;
pub use counting_reader::CountingReader;
