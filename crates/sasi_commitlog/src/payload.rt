// Mutations as the payloads of records.
ghost use Rattle.std.specs.Prelude.{◌≡◌, ◌++◌, IfErr, IfOk, OnOk};
ghost use Rattle.sasi_body.specs.Body.{HasBody};
ghost use Rattle.sasi_formats.specs.Reader.{read, read_whole};
ghost use Rattle.sasi_formats.specs.Gives.{Gives};
ghost use Rattle.sasi_formats.specs.Whole.{GivesWhole, IsShownBy};
ghost use Rattle.sasi_commitlog.specs.Format.{payload_of, mutation_of, IsMutationOf};

use crate::Mutation;
use crate::tables::types_of;
use sasi_body::{put_body, read_content};
use sasi_cells::{Entry, Partition};
use sasi_fields::{FieldReader, put_u32};
use sasi_formats::{FieldStart, FormatFault, Items, read_u32};
use sasi_host::FormatRule;
use sasi_types::{Key, TableNumber, TypeList};
use std::alloc::{AllocError, Global};

/// Appends the number of the table, and the body.
pub fn put_mutation(out: &mut Vec<u8>, mutation: &Mutation) -> Result<(), AllocError>
    requires { HasBody mutation.now.key mutation.now.change }
    ensures { OnOk result (out.new.items ≡ out.old.items ++ payload_of mutation.now) }
{
    put_u32(out, mutation.table)?;
    put_body(out, &mutation.key, &mutation.change)
}

/// Decodes a whole payload.
pub fn read_mutation(
    alloc: Global,
    payload: &[u8],
    tables: &[(TableNumber, TypeList)],
) -> Result<Mutation, FormatFault>
    ensures bytes { IfOk result (λ mutation. payload.now ≡ payload_of mutation) }
    ensures of_table { IfOk result (IsMutationOf tables.now) }
    ensures shown { IfErr result (IsShownBy (mutation_of tables.now) payload.now) }
{
    let (table, (key, (deleted, cells))) = read_all(alloc, payload, tables)?;
    let change = Partition::from_entries(deleted, cells.into_vec());
    Ok(Mutation { table, key, change })
}

// Reads the fields, which are all the bytes.
fn read_all(
    alloc: Global,
    payload: &[u8],
    tables: &[(TableNumber, TypeList)],
) -> Result<(TableNumber, (Key, (u64, Items<Entry>))), FormatFault>
    ensures { GivesWhole (read_whole (mutation_of tables.now) payload.now) result }
{
    let mut reader = FieldReader::new(payload);
    let fields = read_fields(alloc, &mut reader, tables)?;
    if !reader.left().is_empty() {
        return Err(FormatFault::Long);
    }
    Ok(fields)
}

// Reads the number of one of the tables, and a body in it.
fn read_fields(
    alloc: Global,
    reader: &mut FieldReader,
    tables: &[(TableNumber, TypeList)],
) -> Result<(TableNumber, (Key, (u64, Items<Entry>))), FormatFault>
    ensures { Gives (read (mutation_of tables.now) reader.old) result reader.new }
{
    let start = FieldStart::of(reader);
    let table = read_u32(reader)?;
    let Some(types) = types_of(tables, table) else {
        return Err(start.broken(FormatRule::Number, 4));
    };
    let content = read_content(alloc, reader, types.as_slice())?;
    Ok((table, content))
}
