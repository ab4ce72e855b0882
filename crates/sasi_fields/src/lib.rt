//! Bounded fields as files hold them: big-endian numbers of a fixed width, and runs of bytes. A reader reads back what
//! was put at the end of a list, and moves by exactly that field.
#![tactic(auto)]

mod fault;
mod number;
mod put;
mod reader;

pub use fault::{FieldFault, ShortField};
pub use put::{put_bytes, put_u8, put_u16, put_u32, put_u64};
pub use reader::FieldReader;
