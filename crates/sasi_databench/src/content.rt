// The partitions of the measured file: one for each number, whose key is the number.
use sasi_types::{ColumnType, TypeList};
use std::alloc::{AllocError, Global};

/// The types of their columns: a bigint as the key, and a text.
pub fn types(alloc: Global) -> Result<TypeList, AllocError> {
    let mut list = TypeList::new(alloc);
    list.push(ColumnType::BigInt)?;
    list.push(ColumnType::Text)?;
    Ok(list)
}

// The body of partition 0: its key, no deletion, the marker, and a text of ten letters.
const BODY: [u8; 56] = [
    0, 8, 0, 0, 0, 0, 0, 0, 0, 0, //
    0, 0, 0, 0, 0, 0, 0, 0, //
    0, 2, //
    0, 0, 0, 0, 0, 0, 0, 0, 0, 5, 1, 0, 0, //
    0, 1, 0, 0, 0, 0, 0, 0, 0, 5, 1, 0, 10, //
    b'a', b'b', b'c', b'd', b'e', b'f', b'g', b'h', b'i', b'j',
];

/// The body of a partition, with its number as the key.
pub fn body(number: u64) -> [u8; 56] {
    let mut body = BODY;
    body[2..10].copy_from_slice(&number.to_be_bytes());
    body
}
