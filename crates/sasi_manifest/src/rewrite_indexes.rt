// The edits that create all indexes anew.
ghost use Rattle.std.specs.Prelude.{◌≡◌, ◌++◌, map, IfOk, OnOk};
ghost use Rattle.sasi_schema.specs.Numbers.{RisesFrom};
ghost use Rattle.sasi_manifest.specs.ListedTables.{listed};
ghost use Rattle.sasi_manifest.specs.Listings.{all_defs, by_number, index_edit, index_edits};

use crate::{Edit, ListedTable};
use sasi_types::IndexDef;
use std::alloc::{AllocError, Global};

/// Adds the edits that create the indexes of all tables, in the order of their numbers.
pub fn push_indexes(
    alloc: Global,
    edits: &mut Vec<Edit>,
    tables: &[ListedTable],
) -> Result<(), AllocError>
    requires { RisesFrom 1 (map (λ t. t.table.number) tables.now) }
    ensures { OnOk result (edits.new.items ≡ edits.old.items ++ index_edits (map listed tables.now)) }
{
    let mut defs = all_defs(alloc, tables)?;
    sort_by_number(&mut defs)?;
    push_edits(edits, defs)
}

// The definitions of all indexes, table by table.
fn all_defs(alloc: Global, tables: &[ListedTable]) -> Result<Vec<IndexDef>, AllocError>
    requires { RisesFrom 1 (map (λ t. t.table.number) tables.now) }
    ensures { IfOk result (λ defs. defs.items ≡ all_defs 1 (map listed tables.now)) }
{
    let mut defs = Vec::new(alloc);
    for table in tables {
        push_defs(alloc, &mut defs, table.table.indexes.as_slice())?;
    }
    Ok(defs)
}

fn push_defs(alloc: Global, defs: &mut Vec<IndexDef>, own: &[IndexDef]) -> Result<(), AllocError>
    ensures { OnOk result (defs.new.items ≡ defs.old.items ++ own.now) }
{
    for def in own {
        defs.push(def.copy(alloc)?)?;
    }
    Ok(())
}

/// Sorts definitions by their numbers.
pub fn sort_by_number(defs: &mut Vec<IndexDef>) -> Result<(), AllocError>
    ensures { OnOk result (defs.new.items ≡ by_number defs.old.items) }
{
    defs.sort_by_key(|def| def.number)
}

fn push_edits(edits: &mut Vec<Edit>, defs: Vec<IndexDef>) -> Result<(), AllocError>
    ensures { OnOk result (edits.new.items ≡ edits.old.items ++ map index_edit defs.items) }
{
    for def in defs {
        edits.push(Edit::create_index(def))?;
    }
    Ok(())
}
