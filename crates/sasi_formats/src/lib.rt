//! Byte formats as data, with readers of their fields and lists, over `sasi_host` and `sasi_fields`. Each function gives
//! the value that the format's reader gives, or the first corruption.
#![tactic(auto)]

mod bytes;
mod fault;
mod field_start;
mod header;
mod items;
mod numbers;
mod part;
mod ranged;

pub use bytes::{expect, take};
pub use fault::{Broken, FormatFault, broken_at};
pub use field_start::{FieldStart, broken};
pub use header::{check_header, put_front, put_header, read_front};
pub use items::{Items, ReadItem, read_items};
pub use numbers::{read_flag, read_u8, read_u16, read_u32, read_u64};
pub use part::damage_in;
pub use ranged::{read_u8_in_range, read_u16_in_range, read_u32_in_range, read_u64_in_range};
