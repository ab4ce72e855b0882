// What a flush draws: a data file, a part for each index file that it writes, and a segment of the log.
ghost use Rattle.std.specs.Prelude.{◌≡◌, ◌+◌, ◌-◌, ◌<◌, ◌≤◌, ◌^◌, suc, List, length, slice_get, IfErr, IfNone, IfOk, IfSome, OnOk, OnSome, Some};
ghost use Rattle.sasi_manifest.specs.declared.files.PartNumber.{PartNumber as APart};
ghost use Rattle.sasi_manifest.specs.declared.listed.ListedTable.{ListedTable as ARow};
ghost use Rattle.sasi_manifest.specs.ListedTables.{listed};
ghost use Rattle.sasi_manifest.specs.Listings.{by_number};
ghost use Rattle.sasi_tables.specs.FlushDraws.{IsDrawnFor, StopsDraw, parts_for};
ghost use Rattle.sasi_tables.specs.Held.{AreMapped};
ghost use Rattle.sasi_tables.specs.Numbers.{AreNext, AreSpent};
ghost use Rattle.sasi_tables.specs.Puts.{HasTableFor};
ghost use Rattle.sasi_tables.specs.TablesView.{held_in, wanted_of};

use crate::StepFault;
use crate::parts::Parts;
use sasi_layout::NumberKind;
use sasi_manifest::{ListedTable, PartNumber, PartNumbers, sort_by_number};
use sasi_recover::Numbers;
use sasi_types::{IndexDef, IndexList, TableNumber};
use std::alloc::{AllocError, Global};

/// What a flush draws: the parts of index files of these definitions, and the last used numbers then.
#[derive(Drop)]
pub struct Drawn {
    pub defs: IndexList,
    pub parts: PartNumbers,
    pub numbers: Numbers,
}

/// Draws the numbers of a flush of the table.
pub fn draw_numbers(parts: &Parts, table: TableNumber) -> Result<Drawn, StepFault>
    requires mapped { AreMapped parts.now.maps parts.now.last_map (wanted_of parts.now) parts.now.tables.items }
    requires there { HasTableFor table (held_in parts.now) }
    ensures drawn { IfOk result (λ drawn. (row : ARow) × (slice_get parts.now.manifest.listing.tables (table - 1) ≡ Some (listed row)) × IsDrawnFor row parts.now.numbers drawn.defs drawn.parts drawn.numbers) }
    ensures stops { IfErr result (λ f. (row : ARow) × (slice_get parts.now.manifest.listing.tables (table - 1) ≡ Some (listed row)) × StopsDraw row parts.now.numbers f) }
{
    let rows = parts.manifest.listing().tables.as_slice();
    draw_row(parts.alloc, parts.numbers, &rows[table as usize - 1])
}

// Draws the numbers of a flush of the listed table after these last used ones.
fn draw_row(alloc: Global, numbers: Numbers, row: &ListedTable) -> Result<Drawn, StepFault>
    ensures drawn { IfOk result (λ drawn. IsDrawnFor row.now numbers drawn.defs drawn.parts drawn.numbers) }
    ensures stops { IfErr result (StopsDraw row.now numbers) }
{
    let defs = rising_indexes(alloc, row.table.indexes.as_slice())?;
    let next = next_numbers(numbers, defs.as_slice().len())?;
    let parts = draw_parts(alloc, defs.as_slice(), numbers.part)?;
    Ok(Drawn {
        defs,
        parts,
        numbers: next,
    })
}

// The last used numbers with the next data file, so many further parts and the next segment of the log, or the kind of which no
// number is left.
fn next_numbers(numbers: Numbers, count: usize) -> Result<Numbers, NumberKind>
    ensures next { IfOk result (λ next. (parts : List APart) → length parts ≡ count → AreNext parts numbers next) }
    ensures room { OnOk result (numbers.part + count < 2 ^ 32) }
    ensures spent { IfErr result (λ kind. (parts : List APart) → length parts ≡ count → AreSpent parts numbers kind) }
{
    let Some(data) = next_number(numbers.data) else {
        return Err(NumberKind::Data);
    };
    let Some(part) = part_after(numbers.part, count) else {
        return Err(NumberKind::Part);
    };
    let Some(log) = next_number(numbers.log) else {
        return Err(NumberKind::Log);
    };
    Ok(Numbers {
        data,
        log,
        part,
        ..numbers
    })
}

// The number after the last used one, if it has 32 bits.
fn next_number(used: u32) -> Option<u32>
    ensures some { IfSome result (λ next. next ≡ suc used) }
    ensures left { OnSome result (used < 2 ^ 32 - 1) }
    ensures none { IfNone result (used ≡ 2 ^ 32 - 1) }
{
    used.checked_add(1)
}

// The last of so many numbers of parts after the last used one, if they have 32 bits.
fn part_after(used: u32, count: usize) -> Option<u32>
    ensures some { IfSome result (λ last. last ≡ used + count) }
    ensures fits { OnSome result (used + count < 2 ^ 32) }
    ensures none { IfNone result (2 ^ 32 ≤ used + count) }
    ensures small { used < 2 ^ 32 }
{
    if count > u32::MAX as usize {
        return None;
    }
    used.checked_add(count as u32)
}

/// The definitions, rising by number.
pub fn rising_indexes(alloc: Global, defs: &[IndexDef]) -> Result<IndexList, AllocError>
    ensures { IfOk result (λ rising. rising ≡ by_number defs.now) }
{
    let mut rising = copies_of(alloc, defs)?;
    sort_by_number(&mut rising)?;
    list_of(alloc, rising)
}

// Copies of the definitions.
fn copies_of(alloc: Global, defs: &[IndexDef]) -> Result<Vec<IndexDef>, AllocError>
    ensures { IfOk result (λ copies. copies.items ≡ defs.now) }
{
    let mut copies = Vec::new(alloc);
    for def in defs {
        copies.push(def.copy(alloc)?)?;
    }
    Ok(copies)
}

// The definitions as a list.
fn list_of(alloc: Global, defs: Vec<IndexDef>) -> Result<IndexList, AllocError>
    ensures { IfOk result (λ list. list ≡ defs.items) }
{
    let mut list = IndexList::new(alloc);
    for def in defs {
        list.push(def)?;
    }
    Ok(list)
}

// A part for each of these indexes, in order, after the last used one. There is room for their numbers.
fn draw_parts(alloc: Global, defs: &[IndexDef], used: u32) -> Result<PartNumbers, AllocError>
    requires { used + length defs.now < 2 ^ 32 }
    ensures { IfOk result (λ parts. parts ≡ parts_for used defs.now) }
{
    let mut parts = PartNumbers::new(alloc);
    let mut part = used;
    for def in defs {
        part += 1;
        parts.push(PartNumber {
            index: def.number,
            part,
        })?;
    }
    Ok(parts)
}
