//! The line that the program prints of a status.
#![tactic(auto)]

mod message;

pub use message::Message;
