// Values of columns.
ghost use Rattle.std.specs.Prelude.{◌≡◌, IfOk};
ghost use Rattle.sasi_types.specs.Value.{stored, type_of};

use crate::{ColumnType, Text};
use std::alloc::{AllocError, Global};

/// A value of a column.
#[derive(Drop)]
pub enum Value {
    Text(Text),
    Int(i32),
    BigInt(i64),
    /// Its sixteen bytes, in the order in which they are written.
    Uuid([u8; 16]),
}

/// The bytes of a value in files and keys: a text's own, and a number's in two's complement, big-endian.
#[derive(Clone, Copy)]
pub enum Stored<'a> {
    Borrowed(&'a [u8]),
    Int([u8; 4]),
    BigInt([u8; 8]),
}

impl Stored<'_> {
    ghost use Rattle.sasi_types.specs.StoredBytes.{bytes_of};

    /// The bytes.
    pub fn as_slice(&self) -> &[u8]
        ensures { result.now ≡ bytes_of self.now }
    {
        match self {
            Stored::Borrowed(bytes) => bytes,
            Stored::Int(bytes) => bytes,
            Stored::BigInt(bytes) => bytes,
        }
    }
}

impl Value {
    ghost use Rattle.sasi_types.specs.StoredBytes.{bytes_of};

    /// The type of a column that the value fits.
    pub fn column_type(&self) -> ColumnType
        ensures { result ≡ type_of self.now }
    {
        match self {
            Value::Text(_) => ColumnType::Text,
            Value::Int(_) => ColumnType::Int,
            Value::BigInt(_) => ColumnType::BigInt,
            Value::Uuid(_) => ColumnType::Uuid,
        }
    }

    /// The bytes of the value in files and keys.
    pub fn stored(&self) -> Stored<'_>
        ensures { bytes_of result ≡ stored self.now }
    {
        match self {
            Value::Text(text) => Stored::Borrowed(text.bytes()),
            Value::Int(number) => Stored::Int(number.to_be_bytes()),
            Value::BigInt(number) => Stored::BigInt(number.to_be_bytes()),
            Value::Uuid(bytes) => Stored::Borrowed(bytes),
        }
    }
    /// A copy of the value.
    pub fn copy(&self, alloc: Global) -> Result<Value, AllocError>
        ensures { IfOk result (λ copy. copy ≡ self.now) }
    {
        match self {
            Value::Text(text) => {
                let text = text.copy(alloc)?;
                Ok(Value::Text(text))
            }
            Value::Int(number) => Ok(Value::Int(*number)),
            Value::BigInt(number) => Ok(Value::BigInt(*number)),
            Value::Uuid(bytes) => Ok(Value::Uuid(*bytes)),
        }
    }
}
