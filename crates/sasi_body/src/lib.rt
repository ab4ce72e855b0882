//! Bodies of partitions: the bytes of a key and its partition, as commit logs and data files store them. Each key and
//! partition has exactly one body. A reader gives back what was put, or says where the bytes break the format.
#![tactic(auto)]

mod cell;
mod part;
mod put;
mod value;
mod whole;

pub use part::read_content;
pub use put::put_body;
pub use whole::read_body;
