// The types of a table's columns, by the number of the table.
ghost use Rattle.std.specs.Prelude.{◌≡◌};
ghost use Rattle.std.specs.Option.{option_copied};
ghost use Rattle.sasi_commitlog.specs.Format.{types_in};

use sasi_types::{TableNumber, TypeList};

/// The column types of this table, if the list has the table.
pub fn types_of(tables: &[(TableNumber, TypeList)], table: TableNumber) -> Option<&TypeList>
    ensures { option_copied result ≡ types_in tables.now table }
{
    for entry in tables {
        if entry.0 == table {
            return Some(&entry.1);
        }
    }
    None
}
