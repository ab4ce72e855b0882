// Packs the pointers to the blocks of a level.
ghost use Rattle.std.specs.Prelude.{◌≡◌, ℕ, ◌+◌, ◌*◌, ◌^◌, ◌<◌, ◌≤◌, List, length, IfOk, OnOk};
ghost use Rattle.sasi_host.specs.Names.{Bytes};
ghost use Rattle.sasi_termblocks.specs.Blocks.{Cut, Item, add, cut_of, pointer_item, pointers_to};
ghost use Rattle.sasi_termblocks.specs.Writing.{AreShort, IsLevel, IsSmall, Packs};

use crate::block_encode::BLOCK_BYTES;
use crate::encode::put_pointer;
use crate::packer::{Packer, close};
use sasi_types::Term;
use std::alloc::{AllocError, Global};

// The blocks of pointers to blocks with these first terms, of which the first stands at this offset.
pub fn pack_pointers(alloc: Global, at: u64, first_terms: &[Term]) -> Result<Packer, AllocError>
    requires short { AreShort first_terms.now }
    requires room { at + 4096 * length first_terms.now < 2 ^ 64 }
    ensures level { IfOk result (λ above. IsLevel above.full.items above.first_terms.items (pointers_to at first_terms.now)) }
    ensures short { IfOk result (λ above. AreShort above.first_terms.items) }
    ensures few { IfOk result (λ above. 4096 * length above.first_terms.items ≤ length above.full.items + 4096) }
{
    let mut packer = Packer::new(alloc);
    let mut bytes = Vec::new(alloc);
    for index in 0..first_terms.len() {
        let place = at + BLOCK_BYTES as u64 * index as u64;
        push_pointer(&mut packer, &mut bytes, first_terms[index].bytes(), place)?;
    }
    end_level(&mut packer)?;
    Ok(packer)
}

// Adds a pointer.
fn push_pointer(
    packer: &mut Packer,
    bytes: &mut Vec<u8>,
    least: &[u8],
    place: u64,
) -> Result<(), AllocError>
    requires small { IsSmall packer.old }
    requires short { length least.now ≤ 1024 }
    ensures ok { OnOk result ((cut : Cut) → Packs packer.old cut → Packs packer.new (add cut (pointer_item least.now place))) }
    ensures small { IsSmall packer.new }
{
    bytes.clear();
    put_pointer(bytes, least, place)?;
    packer.push(least, bytes)?;
    Ok(())
}

// Closes the last block of a level, if there is one.
pub fn end_level(packer: &mut Packer) -> Result<(), AllocError>
    requires small { IsSmall packer.old }
    ensures ok { OnOk result ((items : List Item) → Packs packer.old (cut_of items) → IsLevel packer.new.full.items packer.new.first_terms.items items) }
    ensures short { AreShort packer.new.first_terms.items }
    ensures few { 4096 * length packer.new.first_terms.items ≤ length packer.new.full.items + 4096 }
{
    if packer.starts.is_empty() {
        return Ok(());
    }
    close(packer)?;
    Ok(())
}
