// Writers of blocks.
ghost use Rattle.std.specs.Prelude.{◌≡◌, ◌≤◌, ◌++◌, ◌∷◌, ◌==◌, [], List, length, IfOk, OnOk, if◌then◌else◌};
ghost use Rattle.sasi_host.specs.View.{ListCauses, Reaches};
ghost use Rattle.sasi_formats.specs.Formats.{Fits};
ghost use Rattle.sasi_tokentree.specs.Writes.{ChangesFrom, Writes};
ghost use Rattle.sasi_termblocks.specs.declared.term_entry.TermEntry.{TermEntry};
ghost use Rattle.sasi_termblocks.specs.Entries.{term_entry};
ghost use Rattle.sasi_termblocks.specs.Blocks.{Cut, IsRefOf, add, blocks, items_of, levels_bytes, term_item};
ghost use Rattle.sasi_termblocks.specs.Writing.{HasPushed, IsSmall, Packs};

use crate::block_ref::BlockRef;
use crate::encode::put_entry;
use crate::level_write::{Above, write_levels};
use crate::packer::Packer;
use crate::pointers::end_level;
use crate::term_entry::TermEntry;
use sasi_host::{FileName, Host, HostFault};
use std::alloc::{AllocError, Global};
use std::marker::Model;

/// Writes term blocks and the pointer blocks above them. It keeps the bytes of the term blocks until they are written, and
/// then those of a level and of the one above it.
#[derive(Drop)]
pub struct BlockWriter {
    packer: Packer,
    terms: u64,
    bytes: Vec<u8>,
}

impl Model for BlockWriter {
    ghost use Rattle.sasi_termblocks.specs.Writing.{IsSmall, Writer};

    ghost Value = { Writer };

    ghost view = { λ a. record { packer = a.packer; terms = a.terms } };

    ghost invariant = { λ a. IsSmall a.packer };
}

impl BlockWriter {
    /// A writer without entries.
    pub fn new(alloc: Global) -> BlockWriter
        ensures { HasPushed result [] }
    {
        BlockWriter {
            packer: Packer::new(alloc),
            terms: 0,
            bytes: Vec::new(alloc),
        }
    }

    /// Adds an entry. A reader finds it where its term is above those of the entries before. After out of memory the writer
    /// can't be used any more.
    pub fn push(&mut self, entry: &TermEntry) -> Result<(), AllocError>
        requires fits { Fits term_entry entry.now }
        ensures { OnOk result ((entries : List TermEntry) → HasPushed self.old entries → HasPushed self.new (entries ++ entry.now ∷ [])) }
    {
        push_entry(&mut self.packer, &mut self.bytes, entry)?;
        self.terms = self.terms.saturating_add(1);
        Ok(())
    }

    /// How many term blocks the entries take so far.
    pub fn blocks(&self) -> u64
        ensures { (entries : List TermEntry) → HasPushed self.now entries → result ≡ length (blocks (items_of entries)) }
    {
        self.packer.first_terms.len() as u64
    }

    /// Writes the term blocks at this offset of the file, and the levels of pointer blocks behind them, each by one call of
    /// the host. It doesn't sync the file.
    pub fn finish<H: Host>(
        self,
        host: &mut H,
        file: FileName,
        at: u64,
    ) -> Result<BlockRef, HostFault>
        requires room { Reaches (H.view host.old) file at }
        ensures ok { IfOk result (λ written. (entries : List TermEntry) → HasPushed self entries → Writes (H.view host.old) (H.view host.new) file at (levels_bytes written.levels at (items_of entries))) }
        ensures written { IfOk result (λ written. (entries : List TermEntry) → HasPushed self entries → IsRefOf at entries written) }
        ensures changes { ChangesFrom file at (H.view host.old) (H.view host.new) }
        ensures causes { ListCauses (H.view host.old) (H.view host.new) result }
    {
        let alloc = *self.bytes.allocator();
        let mut packer = self.packer;
        end_level(&mut packer)?;
        let above = write_levels(alloc, host, file, at, &packer.full, &packer.first_terms)?;
        Ok(reference(at, packer.first_terms.len() as u64, above, self.terms))
    }
}

// Adds an entry to a level.
fn push_entry(packer: &mut Packer, bytes: &mut Vec<u8>, entry: &TermEntry) -> Result<(), AllocError>
    requires small { IsSmall packer.old }
    requires fits { Fits term_entry entry.now }
    ensures ok { OnOk result ((cut : Cut) → Packs packer.old cut → Packs packer.new (add cut (term_item entry.now))) }
    ensures short { OnOk result (length (term_item entry.now).bytes ≤ 1200) }
    ensures small { IsSmall packer.new }
{
    bytes.clear();
    put_entry(bytes, entry)?;
    packer.push(entry.term.bytes(), bytes)?;
    Ok(())
}

// The reference of so many blocks at this offset, and of the levels above them.
fn reference(first: u64, blocks: u64, above: Above, terms: u64) -> BlockRef
    ensures { result ≡ record { first = first; blocks = blocks; levels = above.levels; top = (if above.levels == 0 then 0 else above.top); terms = terms } }
{
    let top = if above.levels == 0 { 0 } else { above.top };
    BlockRef {
        first,
        blocks,
        levels: above.levels,
        top,
        terms,
    }
}
