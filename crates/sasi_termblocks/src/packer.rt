// Packs the entries of a level into blocks.
ghost use Rattle.std.specs.Prelude.{◌≡◌, ℕ, ◌+◌, ◌*◌, ◌^◌, ◌<◌, ◌≤◌, List, [], ◌∷◌, ◌++◌, length, OnOk, IfOk};
ghost use Rattle.sasi_termblocks.specs.Blocks.{Cut, Item, add, cut_of, with_room};
ghost use Rattle.sasi_termblocks.specs.Writing.{AreShort, IsLevel, IsSmall, Packs, first_terms_with};

use crate::block_encode::{BLOCK_BYTES, put_block};
use sasi_fields::put_bytes;
use sasi_types::Term;
use std::alloc::{AllocError, Global};

// The blocks of a level: the bytes of the full ones, the entries of the last one, and the first term of each.
#[derive(Drop)]
pub struct Packer {
    pub full: Vec<u8>,
    // Where each entry of the last block begins behind its offsets.
    pub starts: Vec<u16>,
    pub entries: Vec<u8>,
    pub first_terms: Vec<Term>,
}

impl Packer {
    // A packer without blocks.
    pub fn new(alloc: Global) -> Packer
        ensures packs { Packs result (cut_of []) }
        ensures small { IsSmall result }
    {
        Packer {
            full: Vec::new(alloc),
            starts: Vec::new(alloc),
            entries: Vec::new(alloc),
            first_terms: Vec::new(alloc),
        }
    }

    // Adds an entry with this term and these bytes.
    pub fn push(&mut self, term: &[u8], bytes: &[u8]) -> Result<(), AllocError>
        requires small { IsSmall self.old }
        requires term { length term.now ≤ 1024 }
        requires short { length bytes.now ≤ 1200 }
        ensures ok { OnOk result ((cut : Cut) → Packs self.old cut → Packs self.new (add cut (record { term = term.now; bytes = bytes.now }))) }
        ensures small { IsSmall self.new }
    {
        make_room(self, bytes.len())?;
        begin_block(&mut self.first_terms, self.full.len(), term)?;
        let start = self.entries.len() as u16;
        self.starts.push(start)?;
        put_bytes(&mut self.entries, bytes)?;
        Ok(())
    }
}

// Begins a new block where so many bytes of an entry don't fit the last one.
fn make_room(packer: &mut Packer, bytes: usize) -> Result<(), AllocError>
    requires small { IsSmall packer.old }
    requires short { bytes ≤ 1200 }
    ensures ok { OnOk result ((cut : Cut) → Packs packer.old cut → Packs packer.new (with_room bytes cut)) }
    ensures room { OnOk result (2 + (2 * length packer.new.starts.items + length packer.new.entries.items) + (2 + bytes) ≤ 4096) }
    ensures small { IsSmall packer.new }
{
    let size = 2 + (2 * packer.starts.len() + packer.entries.len());
    if size + (2 + bytes) <= BLOCK_BYTES {
        return Ok(());
    }
    close(packer)?;
    Ok(())
}

// Closes the last block.
pub fn close(packer: &mut Packer) -> Result<(), AllocError>
    requires small { IsSmall packer.old }
    ensures ok { OnOk result ((cut : Cut) (first : Item) (others : List Item) → cut.last ≡ first ∷ others → Packs packer.old cut → Packs packer.new (record { full = cut.full ++ cut.last ∷ []; last = [] })) }
    ensures starts { OnOk result (packer.new.starts.items ≡ []) }
    ensures entries { OnOk result (packer.new.entries.items ≡ []) }
    ensures small { IsSmall packer.new }
{
    put_block(&mut packer.full, &packer.starts, &packer.entries)?;
    packer.starts.clear();
    packer.entries.clear();
    Ok(())
}

// Keeps the term as the first one of the last block, where that has no entry yet: there are then as many first terms as full blocks.
fn begin_block(first_terms: &mut Vec<Term>, full: usize, term: &[u8]) -> Result<(), AllocError>
    requires terms { AreShort first_terms.old.items }
    requires term { length term.now ≤ 1024 }
    requires few { 4096 * length first_terms.old.items ≤ full + 4096 }
    requires full { full < 2 ^ 63 }
    ensures ok { OnOk result (first_terms.new.items ≡ first_terms_with full first_terms.old.items term.now) }
    ensures terms { AreShort first_terms.new.items }
    ensures few { 4096 * length first_terms.new.items ≤ full + 4096 }
{
    if first_terms.len() * BLOCK_BYTES > full {
        return Ok(());
    }
    let alloc = *first_terms.allocator();
    let bytes = term.to_vec(alloc)?;
    first_terms.push(Term::new(bytes))?;
    Ok(())
}
