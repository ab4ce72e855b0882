// Decodes whole bodies.
ghost use Rattle.std.specs.Prelude.{◌≡◌, IfErr, IfOk};
ghost use Rattle.sasi_host.specs.Names.{Bytes};
ghost use Rattle.sasi_model.specs.Cells.{Partition};
ghost use Rattle.sasi_formats.specs.Reader.{read_whole};
ghost use Rattle.sasi_formats.specs.Whole.{GivesWhole, IsOutOfMemory, IsShownBy};
ghost use Rattle.sasi_body.specs.Body.{body, body_of, IsBodyOf};

use crate::part::read_content;
use sasi_cells::{Entry, Partition};
use sasi_fields::FieldReader;
use sasi_formats::{FormatFault, Items};
use sasi_types::{ColumnType, Key, TypeList};
use std::alloc::Global;

/// Decodes a body, which is all the bytes, of a table whose columns have these types.
pub fn read_body(
    alloc: Global,
    bytes: &[u8],
    types: &TypeList,
) -> Result<(Key, Partition), FormatFault>
    ensures bytes { IfOk result (λ read. bytes.now ≡ body read.0 read.1) }
    ensures in_table { IfOk result (λ read. IsBodyOf types.now read.0 read.1) }
    // It reads back what was put, unless memory runs out.
    ensures again { (key : Bytes) (part : Partition) → IsBodyOf types.now key part → bytes.now ≡ body key part → IfOk result (λ read. (read.0 ≡ key) × (read.1 ≡ part)) }
    ensures no_false_damage { (key : Bytes) (part : Partition) → IsBodyOf types.now key part → bytes.now ≡ body key part → IfErr result IsOutOfMemory }
    // Otherwise the bytes break the format as the fault says.
    ensures shown { IfErr result (IsShownBy (body_of types.now) bytes.now) }
{
    let (key, (deleted, cells)) = read_all(alloc, bytes, types.as_slice())?;
    Ok((key, Partition::from_entries(deleted, cells.into_vec())))
}

// Reads the fields, which are all the bytes.
fn read_all(
    alloc: Global,
    bytes: &[u8],
    types: &[ColumnType],
) -> Result<(Key, (u64, Items<Entry>)), FormatFault>
    ensures { GivesWhole (read_whole (body_of types.now) bytes.now) result }
{
    let mut reader = FieldReader::new(bytes);
    let content = read_content(alloc, &mut reader, types)?;
    if !reader.left().is_empty() {
        return Err(FormatFault::Long);
    }
    Ok(content)
}
