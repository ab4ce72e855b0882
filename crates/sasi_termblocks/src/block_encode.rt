// Encodes blocks.
ghost use Rattle.std.specs.Prelude.{◌≡◌, ℕ, ◌+◌, ◌*◌, ◌≤◌, ◌++◌, List, length, slice_index, OnOk};
ghost use Rattle.std.specs.Int.{to_be_bytes, w16};
ghost use Rattle.std.specs.List.{flat_map};
ghost use Rattle.sasi_termblocks.specs.Blocks.{Item, block, entries_bytes, offsets};

use sasi_fields::{put_bytes, put_u16};
use std::alloc::AllocError;

/// The bytes of a block.
pub const BLOCK_BYTES: usize = 4096;

// Appends the block of these entries. `starts` has where each begins behind the offsets.
pub fn put_block(out: &mut Vec<u8>, starts: &[u16], entries: &[u8]) -> Result<(), AllocError>
    requires size { 2 + (2 * length starts.now + length entries.now) ≤ 4096 }
    requires each { (k : ℕ) → slice_index starts.now k ≤ 4096 }
    ensures long { OnOk result (length out.new.items ≡ length out.old.items + 4096) }
    ensures grows { length out.old.items ≤ length out.new.items }
    ensures ok { OnOk result ((items : List Item) → starts.now ≡ offsets 0 items → entries.now ≡ entries_bytes items → out.new.items ≡ out.old.items ++ block items) }
{
    let zeros = [0; BLOCK_BYTES];
    let table = 2 + 2 * starts.len();
    put_u16(out, starts.len() as u16)?;
    put_offsets(out, table as u16, starts)?;
    put_bytes(out, entries)?;
    put_bytes(out, &zeros[table + entries.len()..])?;
    Ok(())
}

// Appends the offsets of entries, which begin so far behind `table`.
fn put_offsets(out: &mut Vec<u8>, table: u16, starts: &[u16]) -> Result<(), AllocError>
    requires table { table ≤ 4096 }
    requires each { (k : ℕ) → slice_index starts.now k ≤ 4096 }
    ensures grows { length out.old.items ≤ length out.new.items }
    ensures ok { OnOk result (out.new.items ≡ out.old.items ++ flat_map (λ start. to_be_bytes w16 (table + start)) starts.now) }
{
    for start in starts {
        put_u16(out, table + *start)?;
    }
    Ok(())
}
