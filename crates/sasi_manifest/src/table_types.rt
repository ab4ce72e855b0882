// The types of listed tables.
ghost use Rattle.std.specs.Prelude.{◌≡◌, ◌<◌, ◌≤◌, ◌++◌, suc, length, map, take, drop, IfOk, OnOk};
ghost use Rattle.sasi_model.specs.Abbreviations.{types_of};
ghost use Rattle.sasi_schema.specs.Defined.{definition};
ghost use Rattle.sasi_manifest.specs.ListedTables.{listed};
ghost use Rattle.sasi_manifest.specs.Types.{numbered_types};

use crate::ListedTable;
use sasi_schema::Table;
use sasi_types::{ColumnType, Name, TableTypes, TypeList};
use std::alloc::{AllocError, Global};

/// The number of each table with its types.
pub fn table_types(alloc: Global, tables: &[ListedTable]) -> Result<TableTypes, AllocError>
    requires { length tables.now ≤ 256 }
    ensures { IfOk result (λ types. types ≡ numbered_types 1 (map listed tables.now)) }
{
    let mut types = TableTypes::new(alloc);
    for (i, listed) in tables.iter().enumerate() {
        let own = types_of(alloc, &listed.table)?;
        types.push(i as u32 + 1, own)?;
    }
    Ok(types)
}

/// The types of a table's columns, the key's first.
pub fn types_of(alloc: Global, table: &Table) -> Result<TypeList, AllocError>
    ensures { IfOk result (λ types. types ≡ types_of (definition table.now)) }
{
    let columns = table.columns.as_slice();
    let key = table.key as usize;
    let mut types = TypeList::new(alloc);
    types.push(table.key_type())?;
    put_others(&mut types, columns, key)?;
    Ok(types)
}

// Adds the types of the columns other than the key.
fn put_others(
    types: &mut TypeList,
    columns: &[(Name, ColumnType)],
    key: usize,
) -> Result<(), AllocError>
    requires { key < length columns.now }
    ensures { OnOk result (types.new ≡ types.old ++ map (λ c. c.1) (take key columns.now ++ drop (suc key) columns.now)) }
{
    put_types(types, &columns[..key])?;
    put_types(types, &columns[key + 1..])
}

fn put_types(types: &mut TypeList, columns: &[(Name, ColumnType)]) -> Result<(), AllocError>
    ensures { OnOk result (types.new ≡ types.old ++ map (λ c. c.1) columns.now) }
{
    for column in columns {
        types.push(column.1)?;
    }
    Ok(())
}
