// What an item of a CREATE TABLE declares of a name.
use sasi_types::ColumnType;

/// What an item of a CREATE TABLE declares of a name.
#[derive(Clone, Copy)]
pub enum Declared {
    Column(ColumnType),
    /// A column with PRIMARY KEY.
    KeyColumn(ColumnType),
    /// PRIMARY KEY of a column by its name.
    Key,
}
