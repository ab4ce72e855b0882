//! The framing of a file: the header that it begins with, and the footer that it ends with. Reads both in at most three reads,
//! and no more than the file has pages, and says what corruption of them is, for all kinds of files that have both.
#![tactic(auto)]

mod mark;
mod read;

pub use mark::check_mark;
pub use read::{read_footer, read_header_and_footer};
