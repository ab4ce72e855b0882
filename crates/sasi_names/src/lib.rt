//! The names of files as texts, as the folder and SHOW FILES have them. It stands on sasi_host, and promises that a name is read back
//! as it is spelt.
#![tactic(auto)]

mod name_text;

pub use name_text::{MAX_NAME_LENGTH, NameText, parse_name};
