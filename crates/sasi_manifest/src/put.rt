// The encoding of edits.
ghost use Rattle.std.specs.Prelude.{◌≡◌, ◌++◌, ◌<◌, ◌≤◌, ◌^◌, [], length, None, OnOk};
ghost use Rattle.std.specs.Int.{to_be_bytes, w32};
ghost use Rattle.std.specs.List.{AllByRecursion};
ghost use Rattle.sasi_types.specs.declared.column.ColumnType.TheVariants.{Text};
ghost use Rattle.sasi_model.specs.Refusals.{names_in};
ghost use Rattle.sasi_formats.specs.Formats.{encoded};
ghost use Rattle.sasi_manifest.specs.Edits.{analysis, edit as edit_format, index_def, rule_code, columns as columns_format, name as name_format, new_file_format, new_files, partitioner_code, parts as parts_format, removed_numbers};
ghost use Rattle.sasi_manifest.specs.Abbreviations.{column as column_format};
ghost use Rattle.sasi_manifest.specs.Naming.{AreNames};
ghost use Rattle.sasi_manifest.specs.Listings.{FitsWidths};

use crate::{Edit, ListedFile, PartNumber};
use sasi_fields::{put_bytes, put_u8, put_u16, put_u32};
use sasi_host::{DataNumber, SegmentNumber};
use sasi_types::{ColumnType, IndexDef, Name, Partitioner, Rule};
use std::alloc::AllocError;

/// Appends an edit: its tag and its fields.
#[tactic(auto, unfolding(crate::specs::Edits::edit, crate::specs::Edits::create_index, crate::specs::Edits::replace))]
pub fn put_edit(out: &mut Vec<u8>, edit: &Edit) -> Result<(), AllocError>
    requires { FitsWidths edit.now }
    ensures { OnOk result (out.new.items ≡ out.old.items ++ encoded (edit_format None) edit.now) }
{
    match edit {
        Edit::Start {
            partitioner,
            floor,
            last,
        } => {
            put_u8(out, 1)?;
            put_u8(out, code_of(*partitioner))?;
            put_u32(out, *floor)?;
            put_u32(out, *last)
        }
        Edit::CreateTable {
            number,
            name,
            columns,
            key,
            since,
        } => {
            put_u8(out, 2)?;
            put_u32(out, *number)?;
            put_name(out, name)?;
            put_columns(out, columns.as_slice())?;
            put_u16(out, *key)?;
            put_u32(out, *since)
        }
        Edit::CreateIndex { def, fold } => {
            put_u8(out, 3)?;
            put_index(out, def, *fold)
        }
        Edit::Replace {
            table,
            removed,
            added,
            since,
            floor,
            last,
        } => {
            put_u8(out, 5)?;
            put_u32(out, *table)?;
            put_numbers(out, removed.as_slice())?;
            put_files(out, added.as_slice())?;
            put_segments(out, *since, *floor, *last)
        }
    }
}

// Appends the numbers of an index and its table, its name, its column, and how that is indexed.
fn put_index(out: &mut Vec<u8>, def: &IndexDef, fold: bool) -> Result<(), AllocError>
    requires { length def.now.name ≤ 48 }
    ensures { OnOk result (out.new.items ≡ out.old.items ++ encoded (index_def [] [] []) (def.now, fold)) }
{
    put_u32(out, def.number)?;
    put_u32(out, def.table)?;
    put_name(out, &def.name)?;
    put_u16(out, def.column)?;
    put_u8(out, def.mode.code())?;
    put_rule(out, def.rule, fold)
}

// Appends the byte of a rule, and whether letters are folded.
fn put_rule(out: &mut Vec<u8>, rule: Option<Rule>, fold: bool) -> Result<(), AllocError>
    ensures { OnOk result (out.new.items ≡ out.old.items ++ encoded (analysis Text) (rule, fold)) }
{
    put_u8(out, rule_code(rule))?;
    put_u8(out, fold.into())
}

// The byte of a rule.
fn rule_code(rule: Option<Rule>) -> u8
    ensures { result ≡ rule_code rule }
{
    match rule {
        None => 0,
        Some(Rule::Whole { .. }) => 1,
        Some(Rule::Words { .. }) => 2,
    }
}

// The three numbers of segments of a replacement.
fn put_segments(
    out: &mut Vec<u8>,
    since: SegmentNumber,
    floor: SegmentNumber,
    last: SegmentNumber,
) -> Result<(), AllocError>
    ensures { OnOk result (out.new.items ≡ out.old.items ++ (to_be_bytes w32 since ++ (to_be_bytes w32 floor ++ to_be_bytes w32 last))) }
{
    put_u32(out, since)?;
    put_u32(out, floor)?;
    put_u32(out, last)
}

// Appends the number of data numbers, then each of them.
fn put_numbers(out: &mut Vec<u8>, numbers: &[DataNumber]) -> Result<(), AllocError>
    requires { length numbers.now < 2 ^ 32 }
    ensures { OnOk result (out.new.items ≡ out.old.items ++ encoded (removed_numbers []) numbers.now) }
{
    put_u32(out, numbers.len() as u32)?;
    for number in numbers {
        put_u32(out, *number)?;
    }
    Ok(())
}

// Appends the number of files, then each of them.
fn put_files(out: &mut Vec<u8>, files: &[ListedFile]) -> Result<(), AllocError>
    requires few { length files.now < 2 ^ 32 }
    requires parts { AllByRecursion (λ f. length f.parts < 2 ^ 16) files.now }
    ensures { OnOk result (out.new.items ≡ out.old.items ++ encoded (new_files [] 0 []) files.now) }
{
    put_u32(out, files.len() as u32)?;
    for file in files {
        put_file(out, file)?;
    }
    Ok(())
}

// Appends the number of a file, then its parts.
fn put_file(out: &mut Vec<u8>, file: &ListedFile) -> Result<(), AllocError>
    requires { length file.now.parts < 2 ^ 16 }
    ensures { OnOk result (out.new.items ≡ out.old.items ++ encoded (new_file_format [] 0 [] []) file.now) }
{
    put_u32(out, file.number)?;
    put_parts(out, file.parts.as_slice())
}

// Appends the number of parts, then each of them.
fn put_parts(out: &mut Vec<u8>, parts: &[PartNumber]) -> Result<(), AllocError>
    requires { length parts.now < 2 ^ 16 }
    ensures { OnOk result (out.new.items ≡ out.old.items ++ encoded (parts_format []) parts.now) }
{
    put_u16(out, parts.len() as u16)?;
    for part in parts {
        put_u32(out, part.index)?;
        put_u32(out, part.part)?;
    }
    Ok(())
}

// The byte that names a partitioner.
fn code_of(partitioner: Partitioner) -> u8
    ensures { result ≡ partitioner_code partitioner }
{
    match partitioner {
        Partitioner::Lead8 => 0,
        Partitioner::Murmur3 => 1,
    }
}

fn put_name(out: &mut Vec<u8>, name: &Name) -> Result<(), AllocError>
    requires { length name.now ≤ 48 }
    ensures { OnOk result (out.new.items ≡ out.old.items ++ encoded (name_format []) name.now) }
{
    let bytes = name.bytes();
    put_u8(out, bytes.len() as u8)?;
    put_bytes(out, bytes)
}

// Appends the number of columns, then each of them.
fn put_columns(out: &mut Vec<u8>, columns: &[(Name, ColumnType)]) -> Result<(), AllocError>
    requires few { length columns.now ≤ 64 }
    requires names { AreNames (names_in columns.now) }
    ensures { OnOk result (out.new.items ≡ out.old.items ++ encoded columns_format columns.now) }
{
    put_u16(out, columns.len() as u16)?;
    for column in columns {
        put_column(out, column)?;
    }
    Ok(())
}

fn put_column(out: &mut Vec<u8>, column: &(Name, ColumnType)) -> Result<(), AllocError>
    requires { length column.now.0 ≤ 48 }
    ensures { OnOk result (out.new.items ≡ out.old.items ++ encoded (column_format []) column.now) }
{
    put_name(out, &column.0)?;
    put_u8(out, column.1.code())
}
