// What a CREATE TABLE declares.
use crate::{ColumnType, Name};

/// An item between the parentheses of a CREATE TABLE.
#[derive(Drop)]
pub enum Declaration {
    Column(Name, ColumnType),
    /// A column with PRIMARY KEY.
    KeyColumn(Name, ColumnType),
    /// PRIMARY KEY of a column by its name.
    Key(Name),
}
