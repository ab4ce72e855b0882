// Names that stand twice in a list. A search keeps the names so far in an ordered set, so it takes O(n log n).
ghost use Rattle.std.specs.Prelude.{◌≡◌, [], IfOk, map};
ghost use Rattle.std.specs.Option.{option_map};
ghost use Rattle.sasi_model.specs.Refusals.{repeat_rules};
ghost use Rattle.sasi_model.specs.Abbreviations.{first_refusal, ColumnRepeated};

use sasi_types::Name;
use std::alloc::{AllocError, Global};
use std::collections::BTreeSet;

/// The first name that repeats an earlier one.
pub fn repeated_name(alloc: Global, names: &[Name]) -> Result<Option<Name>, AllocError>
    ensures { IfOk result (λ name. first_refusal (repeat_rules [] names.now) ≡ option_map ColumnRepeated name) }
{
    let mut seen = BTreeSet::new(alloc);
    for name in names {
        if !seen.insert(name.copy(alloc)?)? {
            return Ok(Some(name.copy(alloc)?));
        }
    }
    Ok(None)
}

/// The first name of a column that repeats an earlier column's.
pub fn repeated_column<T>(alloc: Global, columns: &[(Name, T)]) -> Result<Option<Name>, AllocError>
    ensures { IfOk result (λ name. first_refusal (repeat_rules [] (map (λ column. column.0) columns.now)) ≡ option_map ColumnRepeated name) }
{
    let mut seen = BTreeSet::new(alloc);
    for column in columns {
        if !seen.insert(column.0.copy(alloc)?)? {
            return Ok(Some(column.0.copy(alloc)?));
        }
    }
    Ok(None)
}
