// The names of indexes.
ghost use Rattle.std.specs.Prelude.{◌≡◌, IfOk};
ghost use Rattle.std.specs.Option.{option_copied};
ghost use Rattle.sasi_model.specs.Indexes.{default_name, index_name};

use sasi_types::Name;
use std::alloc::{AllocError, Global};

/// The most bytes of a name.
const NAME_LIMIT: usize = 48;

/// The name of an index that may be given one, on a column of a table.
pub fn index_name(
    alloc: Global,
    given: Option<&Name>,
    table: &Name,
    column: &Name,
) -> Result<Name, AllocError>
    ensures { IfOk result (λ name. name ≡ index_name (option_copied given.entry) table.now column.now) }
{
    match given {
        Some(name) => name.copy(alloc),
        None => default_name(alloc, table, column),
    }
}

fn default_name(alloc: Global, table: &Name, column: &Name) -> Result<Name, AllocError>
    ensures { IfOk result (λ name. name ≡ default_name table.now column.now) }
{
    let mut bytes = table.bytes().to_vec(alloc)?;
    bytes.extend_from_slice(b"_")?;
    bytes.extend_from_slice(column.bytes())?;
    bytes.extend_from_slice(b"_idx")?;
    bytes.truncate(NAME_LIMIT);
    Ok(Name::new(bytes))
}
