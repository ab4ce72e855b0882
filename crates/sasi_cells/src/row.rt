// The row that a partition gives.
ghost use Rattle.std.specs.Prelude.{◌≡◌, length, map, IfOk};
ghost use Rattle.sasi_model.specs.Cells.{value_at};
ghost use Rattle.sasi_model.specs.Step.{value_stored};
ghost use Rattle.sasi_cells.specs.Rows.{IsStored, picked_value, row_of};

use crate::{Partition, Picked, PickedColumn};
use sasi_types::{ColumnType, Key, Row, Text, Value};
use std::alloc::{AllocError, Global};

impl Partition {
    /// The values that are picked, if the row is there. The key's bytes have to be those of a value of the key's type.
    pub fn row(&self, alloc: Global, key: &Key, picked: &Picked) -> Result<Option<Row>, AllocError>
        requires { IsStored picked.now.key key.now }
        ensures { IfOk result (λ row. row ≡ row_of picked.now.key key.now picked.now.columns self.now) }
    {
        if !self.is_live() {
            return Ok(None);
        }
        let row = self.picked_row(alloc, key, picked)?;
        Ok(Some(row))
    }

    // The values that are picked.
    fn picked_row(&self, alloc: Global, key: &Key, picked: &Picked) -> Result<Row, AllocError>
        requires { IsStored picked.now.key key.now }
        ensures { IfOk result (λ row. row ≡ map (picked_value picked.now.key key.now self.now) picked.now.columns) }
    {
        let mut row = Row::new(alloc);
        for column in picked.columns.as_slice() {
            let value = self.picked_value(alloc, picked.key, key.bytes(), *column)?;
            row.push(value)?;
        }
        Ok(row)
    }

    // One value.
    fn picked_value(
        &self,
        alloc: Global,
        kind: ColumnType,
        key: &[u8],
        column: PickedColumn,
    ) -> Result<Option<Value>, AllocError>
        requires { IsStored kind key.now }
        ensures { IfOk result (λ value. value ≡ picked_value kind key.now self.now column) }
    {
        match column {
            PickedColumn::Key => {
                let value = decode_value(alloc, kind, key)?;
                Ok(Some(value))
            }
            PickedColumn::Column(number) => self.value_at(alloc, number),
        }
    }

    // The value of a column's cell, where it has one.
    fn value_at(&self, alloc: Global, column: u16) -> Result<Option<Value>, AllocError>
        ensures { IfOk result (λ value. value ≡ value_at self.now column) }
    {
        let Some(cell) = self.cell(column) else {
            return Ok(None);
        };
        let Some(value) = cell.value() else {
            return Ok(None);
        };
        let copy = value.copy(alloc)?;
        Ok(Some(copy))
    }
}

/// Decodes the stored bytes of a value, which have to be as long as a value of the type is.
pub fn decode_value(alloc: Global, kind: ColumnType, bytes: &[u8]) -> Result<Value, AllocError>
    requires { IsStored kind bytes.now }
    ensures { IfOk result (λ value. value ≡ value_stored kind bytes.now) }
{
    match kind {
        ColumnType::Text => {
            let bytes = Vec::from_slice(alloc, bytes)?;
            Ok(Value::Text(Text::new(bytes)))
        }
        ColumnType::Int => Ok(Value::Int(i32::from_be_bytes(array_of(bytes)))),
        ColumnType::BigInt => Ok(Value::BigInt(i64::from_be_bytes(array_of(bytes)))),
        ColumnType::Uuid => Ok(Value::Uuid(array_of(bytes))),
    }
}

// The bytes as an array of their length.
fn array_of<const N: usize>(bytes: &[u8]) -> [u8; N]
    requires { length bytes.now ≡ N }
    ensures { result ≡ bytes.now }
{
    let mut array = [0; N];
    array.copy_from_slice(bytes);
    array
}
