// Scans the entries of blocks, one after another.
ghost use Rattle.std.specs.Prelude.{◌≡◌, ◌+◌, ◌-◌, ◌*◌, ◌/◌, ◌^◌, ◌<◌, ◌≤◌, ◌⊎◌, List, ℕ, length, IfErr, IfOk, IfSome, IsTrue, None, OnOk, Some, false};
ghost use Rattle.sasi_host.specs.View.{contents, ReadCost};
ghost use Rattle.sasi_host.specs.Damages.{DamageShown, HasAt};
ghost use Rattle.sasi_host.specs.PageReading.{CanReadOn, HasReadOn};
ghost use Rattle.sasi_termblocks.specs.declared.list_form.ListForm.{ListForm};
ghost use Rattle.sasi_termblocks.specs.Forms.{HasForm};
ghost use Rattle.sasi_termblocks.specs.Windows.{IsFault, count_in};
ghost use Rattle.sasi_termblocks.specs.BlockFaults.{BreaksFirstPointer, PointsTo};
ghost use Rattle.sasi_termblocks.specs.Damages.{BreaksGiven, EndsTerms, ShowsBlock, ShowsBlocks, ShowsGiven};
ghost use Rattle.sasi_termblocks.specs.Scans.{EndsBelow, EndsPast, GivesEntry, GivesTree, IsNotBelow, ReadsFirst, ReadsHere, ReadsNext, ReadsSome};

use crate::block::{
    check_entry, check_form, check_least, check_order, check_tree, count_of, entry_at,
    first_pointer,
};
use crate::block_encode::BLOCK_BYTES;
use crate::block_read::{fault_of, load_block, loaded_block};
use crate::block_ref::BlockRef;
use crate::fault::BlockFault;
use crate::list_form::ListForm;
use crate::position::{Position, position_in};
use crate::seek::{leaf_page, position_for};
use crate::term_entry::TermEntry;
use sasi_host::{BufferedFile, Host, PageReader, ReadFault, unexpected_end};
use std::alloc::Global;

// No file has more blocks, nor is longer.
const MAX_BLOCKS: u64 = 1 << 50;

const MAX_FILE_SIZE: u64 = 1 << 62;

// An entry, if there is one, and where the scan is then.
#[derive(Drop)]
pub struct ScannedEntry {
    pub entry: Option<TermEntry>,
    pub position: Position,
}

// Whether the blocks are longer than a file can be.
fn is_too_long(blocks: BlockRef) -> bool
    ensures long { IsTrue result → (2 ^ 62 < blocks.first) ⊎ (2 ^ 50 < blocks.blocks) }
    ensures first { result ≡ false → blocks.first ≤ 2 ^ 62 }
    ensures few { result ≡ false → blocks.blocks ≤ 2 ^ 50 }
{
    blocks.first > MAX_FILE_SIZE || blocks.blocks > MAX_BLOCKS
}

// Checks that the block on this page begins with a pointer to the first term block, which is on the first page.
fn check_pointer_block<H: Host, P: PageReader>(
    host: &mut H,
    pages: &mut P,
    buffered: &mut BufferedFile,
    first: u64,
    page: u64,
) -> Result<(), ReadFault>
    requires read { CanReadOn (P.agrees pages.old) (H.view host.old) buffered.old }
    requires first { first ≤ 2 ^ 52 }
    ensures ok { OnOk result ((bytes : List ℕ) → contents (H.view host.old) buffered.old.file ≡ Some bytes → (block : List ℕ) × HasAt bytes (4096 * page) block × ((place : ℕ) × PointsTo first (first + 1) block 0 place)) }
    ensures damaged { IfErr result (DamageShown (H.view host.old) buffered.old.file (ShowsBlock (BreaksFirstPointer first) buffered.old.file page)) }
    ensures read { HasReadOn (P.agrees pages.new) (P.covers pages.old) (P.covers pages.new) (H.view host.old) (H.view host.new) buffered.old buffered.new }
    ensures causes { ReadCost 1 (H.view host.old) (H.view host.new) result }
{
    load_block(host, pages, buffered, page)?;
    match first_pointer(loaded_block(buffered), first) {
        Ok(_) => Ok(()),
        Err(fault) => Err(fault_of(buffered.file(), page, fault)),
    }
}

// Checks that the term blocks end where the pointer blocks begin, if there are any.
fn check_end<H: Host, P: PageReader>(
    host: &mut H,
    pages: &mut P,
    buffered: &mut BufferedFile,
    blocks: BlockRef,
) -> Result<(), ReadFault>
    requires read { CanReadOn (P.agrees pages.old) (H.view host.old) buffered.old }
    requires first { blocks.first ≤ 2 ^ 62 }
    requires few { blocks.blocks ≤ 2 ^ 50 }
    ensures ok { OnOk result ((bytes : List ℕ) → contents (H.view host.old) buffered.old.file ≡ Some bytes → EndsTerms bytes blocks) }
    ensures damaged { IfErr result (λ fault. (form : ListForm) → DamageShown (H.view host.old) buffered.old.file (ShowsBlocks buffered.old.file blocks form) fault) }
    ensures read { HasReadOn (P.agrees pages.new) (P.covers pages.old) (P.covers pages.new) (H.view host.old) (H.view host.new) buffered.old buffered.new }
    ensures causes { ReadCost 1 (H.view host.old) (H.view host.new) result }
{
    if blocks.levels == 0 {
        return Ok(());
    }
    let first = blocks.first / BLOCK_BYTES as u64;
    check_pointer_block(host, pages, buffered, first, first + blocks.blocks)?;
    Ok(())
}

// The entry with this index of a block on this page, which isn't below the least term, has this form and refers to no tree behind
// the first term block, and the position behind it; none where it has no such entry.
fn entry_in(
    alloc: Global,
    block: &[u8],
    first: u64,
    form: ListForm,
    position: Position,
    least: &[u8],
) -> Result<ScannedEntry, BlockFault>
    requires whole { length block.now ≡ 4096 }
    requires page { position.page < 2 ^ 50 }
    ensures ok { IfOk result (λ found. GivesEntry block.now position.page position.index found.position.page found.position.index found.entry) }
    ensures least { IfOk result (λ found. IsNotBelow least.now found.entry) }
    ensures tree { IfOk result (λ found. GivesTree first found.entry) }
    ensures form { IfOk result (λ found. IfSome found.entry (HasForm form)) }
    ensures seen { IfErr result (IsFault (BreaksGiven first form position.index least.now block.now)) }
{
    let count = count_of(block)?;
    if position.index >= count {
        return Ok(ScannedEntry {
            entry: None,
            position,
        });
    }
    check_order(block, position.index)?;
    check_least(block, position.index, least)?;
    check_entry(alloc, block, position.index, count)?;
    let entry = entry_at(alloc, block, position.index)?;
    check_form(block, position.index, &entry, form)?;
    check_tree(block, position.index, &entry, first)?;
    Ok(ScannedEntry {
        entry: Some(entry),
        position: position_in(position.page, position.index + 1, count),
    })
}

// The entry at a position, which isn't below the least term, and the position behind it.
pub fn entry_from<H: Host, P: PageReader>(
    alloc: Global,
    host: &mut H,
    pages: &mut P,
    buffered: &mut BufferedFile,
    blocks: BlockRef,
    form: ListForm,
    position: Position,
    least: &[u8],
) -> Result<ScannedEntry, ReadFault>
    requires read { CanReadOn (P.agrees pages.old) (H.view host.old) buffered.old }
    requires low { blocks.first / 4096 ≤ position.page }
    ensures ok { IfOk result (λ found. ReadsNext (H.view host.old) buffered.old.file blocks position.page position.index found.position.page found.position.index found.entry) }
    ensures stands { IfOk result (λ found. ReadsHere (H.view host.old) buffered.old.file position.page position.index found.position.page found.position.index found.entry) }
    ensures least { IfOk result (λ found. IsNotBelow least.now found.entry) }
    ensures tree { IfOk result (λ found. GivesTree blocks.first found.entry) }
    ensures form { IfOk result (λ found. IfSome found.entry (HasForm form)) }
    ensures ends { IfOk result (λ found. EndsPast (H.view host.old) buffered.old.file blocks position.page position.index found.position.page found.position.index found.entry) }
    ensures low { IfOk result (λ found. blocks.first / 4096 ≤ found.position.page) }
    ensures damaged { IfErr result (DamageShown (H.view host.old) buffered.old.file (ShowsGiven buffered.old.file blocks form position.page position.index least.now)) }
    ensures read { HasReadOn (P.agrees pages.new) (P.covers pages.old) (P.covers pages.new) (H.view host.old) (H.view host.new) buffered.old buffered.new }
    ensures causes { ReadCost 1 (H.view host.old) (H.view host.new) result }
{
    if is_too_long(blocks) {
        return Err(unexpected_end(host, buffered.file()));
    }
    if position.page >= blocks.first / BLOCK_BYTES as u64 + blocks.blocks {
        check_end(host, pages, buffered, blocks)?;
        return Ok(ScannedEntry {
            entry: None,
            position,
        });
    }
    load_block(host, pages, buffered, position.page)?;
    match entry_in(
        alloc,
        loaded_block(buffered),
        blocks.first,
        form,
        position,
        least,
    ) {
        Ok(found) => Ok(found),
        Err(fault) => Err(fault_of(buffered.file(), position.page, fault)),
    }
}

// The first entry at or above the term, and the position behind it.
pub fn first_from<H: Host, P: PageReader>(
    alloc: Global,
    host: &mut H,
    pages: &mut P,
    buffered: &mut BufferedFile,
    blocks: BlockRef,
    form: ListForm,
    sought: &[u8],
) -> Result<ScannedEntry, ReadFault>
    requires read { CanReadOn (P.agrees pages.old) (H.view host.old) buffered.old }
    ensures ok { IfOk result (λ found. ReadsFirst (H.view host.old) buffered.old.file blocks sought.now found.position.page found.position.index found.entry) }
    ensures stands { IfOk result (λ found. ReadsSome (H.view host.old) buffered.old.file found.entry) }
    ensures least { IfOk result (λ found. IsNotBelow sought.now found.entry) }
    ensures tree { IfOk result (λ found. GivesTree blocks.first found.entry) }
    ensures form { IfOk result (λ found. IfSome found.entry (HasForm form)) }
    ensures ends { IfOk result (λ found. EndsBelow (H.view host.old) buffered.old.file blocks sought.now found.position.page found.position.index found.entry) }
    ensures low { IfOk result (λ found. blocks.first / 4096 ≤ found.position.page) }
    ensures damaged { IfErr result (DamageShown (H.view host.old) buffered.old.file (ShowsBlocks buffered.old.file blocks form)) }
    ensures read { HasReadOn (P.agrees pages.new) (P.covers pages.old) (P.covers pages.new) (H.view host.old) (H.view host.new) buffered.old buffered.new }
    ensures causes { ReadCost (blocks.levels + 2) (H.view host.old) (H.view host.new) result }
{
    if is_too_long(blocks) {
        return Err(unexpected_end(host, buffered.file()));
    }
    let first = blocks.first / BLOCK_BYTES as u64;
    if blocks.blocks == 0 {
        return Ok(ScannedEntry {
            entry: None,
            position: Position {
                page: first,
                index: 0,
            },
        });
    }
    let page = leaf_page(host, pages, buffered, blocks, sought)?;
    let position = position_for(alloc, host, pages, buffered, first, page, sought)?;
    let found = entry_from(alloc, host, pages, buffered, blocks, form, position, sought)?;
    Ok(found)
}
