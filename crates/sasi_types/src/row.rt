// The values of a row.
ghost use Rattle.std.specs.Prelude.{◌≡◌, ◌++◌, ◌∷◌, [], OnOk, OnErr};

use crate::Value;
use std::alloc::{AllocError, Global};
use std::marker::Model;

/// The values of a row, one for each column asked for, where it has one.
#[derive(Drop)]
pub struct Row {
    values: Vec<Option<Value>>,
}

impl Model for Row {
    ghost use Rattle.std.specs.Prelude.{List};
    ghost use Rattle.std.specs.declared.option.Option.{Option};
    ghost use Rattle.sasi_types.specs.declared.value.Value.{Value as ColumnValue};

    ghost Value = { List (Option ColumnValue) };

    ghost view = { λ a. a.values.items };
}

impl Row {
    /// The row without columns.
    pub fn new(alloc: Global) -> Row
        ensures { result ≡ [] }
    {
        Row {
            values: Vec::new(alloc),
        }
    }

    /// The values, in the order of the columns.
    pub fn values(&self) -> &[Option<Value>]
        ensures { result.now ≡ self.now }
    {
        &self.values
    }

    /// Adds the value of one more column.
    pub fn push(&mut self, value: Option<Value>) -> Result<(), AllocError>
        ensures ok { OnOk result (self.new ≡ self.old ++ value ∷ []) }
        ensures err { OnErr result (self.new ≡ self.old) }
    {
        self.values.push(value)?;
        Ok(())
    }
}
