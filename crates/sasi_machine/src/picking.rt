// The columns of a SELECT.
ghost use Rattle.std.specs.Prelude.{◌≡◌, ◌≤◌, ◌++◌, [], map, IfOk, OnOk};
ghost use Rattle.std.specs.List.{cons_option};
ghost use Rattle.sasi_model.specs.Abbreviations.{COLUMN_LIMIT as column_limit, count_up, numbers_of, key_type};
ghost use Rattle.sasi_model.specs.Step.{selected_columns};
ghost use Rattle.sasi_schema.specs.Defined.{definition};
ghost use Rattle.sasi_machine.specs.Picks.{pick};

use sasi_cells::{Picked, PickedColumn, PickedList};
use sasi_schema::Table;
use sasi_types::{Name, Names};
use std::alloc::{AllocError, Global};

/// The selected columns: those named, or the key and then the others in declared order.
pub fn picked(alloc: Global, table: &Table, columns: &Option<Names>) -> Result<Picked, AllocError>
    ensures key { IfOk result (λ picked. picked.key ≡ key_type (definition table.now)) }
    ensures columns { IfOk result (λ picked. picked.columns ≡ map pick (selected_columns (definition table.now) columns.now)) }
{
    let list = match columns {
        None => all(alloc, table.columns.as_slice().len())?,
        Some(names) => named_columns(alloc, table, &names.unpack(alloc)?)?,
    };
    Ok(Picked {
        key: table.key_type(),
        columns: list,
    })
}

fn pick(number: u16) -> PickedColumn
    ensures { result ≡ pick number }
{
    match number {
        0 => PickedColumn::Key,
        number => PickedColumn::Column(number),
    }
}

// All columns of a table with this number of them.
fn all(alloc: Global, count: usize) -> Result<PickedList, AllocError>
    requires { count ≤ column_limit }
    ensures { IfOk result (λ list. list ≡ map pick (count_up 0 count)) }
{
    let mut list = PickedList::new(alloc);
    for number in 0..count {
        list.push(pick(number as u16))?;
    }
    Ok(list)
}

// The columns of these names.
fn named_columns(alloc: Global, table: &Table, names: &[Name]) -> Result<PickedList, AllocError>
    ensures { IfOk result (λ list. list ≡ map pick (numbers_of (definition table.now) names.now)) }
{
    let mut list = PickedList::new(alloc);
    for name in names {
        push_numbered(&mut list, table.number_of(name))?;
    }
    Ok(list)
}

// Adds the column of this number, if there is one.
fn push_numbered(list: &mut PickedList, number: Option<u16>) -> Result<(), AllocError>
    ensures ok { OnOk result (list.new ≡ list.old ++ map pick (cons_option number [])) }
{
    if let Some(number) = number {
        list.push(pick(number))?;
    }
    Ok(())
}
