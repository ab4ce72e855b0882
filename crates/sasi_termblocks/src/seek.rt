// Seeks terms in the blocks of a file.
ghost use Rattle.std.specs.Prelude.{◌≡◌, ◌+◌, ◌-◌, ◌*◌, ◌/◌, ◌^◌, ◌<◌, ◌≤◌, List, ℕ, length, IfErr, IfOk, Some};
ghost use Rattle.sasi_host.specs.View.{contents, ReadCost};
ghost use Rattle.sasi_host.specs.Damages.{DamageShown};
ghost use Rattle.sasi_host.specs.PageReading.{CanReadOn, HasReadOn};
ghost use Rattle.sasi_termblocks.specs.declared.block_ref.BlockRef.{BlockRef};
ghost use Rattle.sasi_termblocks.specs.declared.list_form.ListForm.{ListForm};
ghost use Rattle.sasi_termblocks.specs.declared.term_entry.TermEntry.{TermEntry};
ghost use Rattle.sasi_termblocks.specs.Windows.{EndsAtNext, IsBound, IsFault, count_in};
ghost use Rattle.sasi_termblocks.specs.BlockFaults.{IsAboveLast, PointsTo};
ghost use Rattle.sasi_termblocks.specs.Damages.{BreaksPointers, BreaksSplit, BreaksTerms, Leads, LeadsFor, LeadsTo, ShowsBlock, ShowsBlocks};
ghost use Rattle.sasi_termblocks.specs.Descents.{IsPageFor, high_page, low_page, page_of_top};
ghost use Rattle.sasi_termblocks.specs.Scans.{CountsBelow, HasBlocks, HasPassed, terms_of};

use crate::block::{check_entry, check_order, count_below, count_of, out_of_order, pointed_offset};
use crate::block_encode::BLOCK_BYTES;
use crate::block_read::{fault_of, load_block, loaded_block};
use crate::block_ref::BlockRef;
use crate::fault::BlockFault;
use crate::position::{Position, position_in};
use sasi_host::{BufferedFile, Host, PageReader, ReadFault};
use std::alloc::Global;

// The offset to which a block points for a term: that of its last pointer with a term below it, or of its first one.
fn pointer_for(block: &[u8], sought: &[u8], low: u64, high: u64) -> Result<u64, BlockFault>
    requires whole { length block.now ≡ 4096 }
    ensures ok { IfOk result (λ place. (below : ℕ) × IsBound block.now (count_in block.now) sought.now below × PointsTo low high block.now (below - 1) place) }
    ensures some { IfOk result (λ _. 0 < count_in block.now) }
    ensures seen { IfErr result (IsFault (BreaksPointers low high block.now)) }
{
    let count = count_of(block)?;
    let below = count_below(block, count, sought)?;
    let place = pointed_offset(block, below.saturating_sub(1), low, high)?;
    Ok(place)
}

// How many entries a block has, and how many of them have terms below a given one.
#[derive(Clone, Copy)]
struct SplitBlock {
    below: usize,
    count: usize,
}

// Counts the entries of a term block with terms below this one.
fn split_block(block: &[u8], sought: &[u8]) -> Result<SplitBlock, BlockFault>
    requires whole { length block.now ≡ 4096 }
    ensures ok { IfOk result (λ split. IsBound block.now split.count sought.now split.below) }
    ensures count { IfOk result (λ split. split.count ≡ count_in block.now) }
    ensures some { IfOk result (λ split. 0 < split.count) }
    ensures within { IfOk result (λ split. 2 + 2 * split.count ≤ 4096) }
    ensures seen { IfErr result (IsFault (BreaksTerms block.now)) }
{
    let count = count_of(block)?;
    let below = count_below(block, count, sought)?;
    Ok(SplitBlock { below, count })
}

// Splits a term block, and checks the entries beside the split: that the two before it end where the next ones stand, and the order.
fn split_whole(alloc: Global, block: &[u8], sought: &[u8]) -> Result<SplitBlock, BlockFault>
    requires whole { length block.now ≡ 4096 }
    ensures ok { IfOk result (λ split. IsBound block.now split.count sought.now split.below) }
    ensures count { IfOk result (λ split. split.count ≡ count_in block.now) }
    ensures some { IfOk result (λ split. 0 < split.count) }
    ensures last { IfOk result (λ split. 0 < split.below → split.below < split.count → EndsAtNext block.now (split.below - 1)) }
    ensures order { IfOk result (λ split. IsAboveLast block.now (split.below - 1)) }
    ensures next { IfOk result (λ split. split.below + 1 < split.count → IsAboveLast block.now (split.below + 1)) }
    ensures seen { IfErr result (IsFault (BreaksTerms block.now)) }
{
    let split = split_block(block, sought)?;
    let last = split.below.saturating_sub(1);
    check_entry(alloc, block, last, split.count)?;
    check_entry(alloc, block, last.saturating_sub(1), split.count)?;
    check_order(block, last)?;
    check_order(block, (split.below + 1).min(split.count - 1))?;
    Ok(split)
}

// The same in a block to which the pointers lead: where it isn't the first one, its first entry is below the term.
fn split_led(
    alloc: Global,
    block: &[u8],
    first: u64,
    page: u64,
    sought: &[u8],
) -> Result<SplitBlock, BlockFault>
    requires whole { length block.now ≡ 4096 }
    ensures ok { IfOk result (λ split. IsBound block.now split.count sought.now split.below) }
    ensures count { IfOk result (λ split. split.count ≡ count_in block.now) }
    ensures led { IfOk result (λ split. first < page → 0 < split.below) }
    ensures seen { IfErr result (IsFault (BreaksSplit first page sought.now block.now)) }
{
    let split = split_whole(alloc, block, sought)?;
    if split.below > 0 {
        return Ok(split);
    }
    if first < page {
        return Err(out_of_order(block, 0));
    }
    Ok(split)
}

// The page of the block to which a block of a level points for a term.
fn child_page<H: Host, P: PageReader>(
    host: &mut H,
    pages: &mut P,
    buffered: &mut BufferedFile,
    blocks: BlockRef,
    level: u64,
    page: u64,
    sought: &[u8],
) -> Result<u64, ReadFault>
    requires read { CanReadOn (P.agrees pages.old) (H.view host.old) buffered.old }
    requires first { blocks.first ≤ 2 ^ 62 }
    requires few { blocks.blocks ≤ 2 ^ 50 }
    requires level { 0 < level }
    ensures ok { IfOk result (λ child. (bytes : List ℕ) (entries : List TermEntry) → contents (H.view host.old) buffered.old.file ≡ Some bytes → HasBlocks bytes blocks entries → level ≤ blocks.levels
        → IsPageFor blocks.first entries level sought.now page → IsPageFor blocks.first entries (level - 1) sought.now child) }
    ensures leads { IfOk result (λ child. (bytes : List ℕ) → contents (H.view host.old) buffered.old.file ≡ Some bytes → Leads bytes blocks level page → Leads bytes blocks (level - 1) child) }
    ensures led { IfOk result (λ child. (bytes : List ℕ) → contents (H.view host.old) buffered.old.file ≡ Some bytes → LeadsFor bytes blocks sought.now level page → LeadsFor bytes blocks sought.now (level - 1) child) }
    ensures below { IfOk result (λ child. low_page blocks level ≤ child) }
    ensures within { IfOk result (λ child. child < high_page blocks level page) }
    ensures damaged { IfErr result (DamageShown (H.view host.old) buffered.old.file (ShowsBlock (BreaksPointers (low_page blocks level) (high_page blocks level page)) buffered.old.file page)) }
    ensures read { HasReadOn (P.agrees pages.new) (P.covers pages.old) (P.covers pages.new) (H.view host.old) (H.view host.new) buffered.old buffered.new }
    ensures causes { ReadCost 1 (H.view host.old) (H.view host.new) result }
{
    load_block(host, pages, buffered, page)?;
    let range = range_of(blocks, level, page);
    match pointer_for(loaded_block(buffered), sought, range.low, range.high) {
        Ok(place) => Ok(place / BLOCK_BYTES as u64),
        Err(fault) => Err(fault_of(buffered.file(), page, fault)),
    }
}

// The pages from `low` up to `high`, which isn't among them.
#[derive(Clone, Copy)]
struct PageRange {
    low: u64,
    high: u64,
}

// The pages to which a block of a level on this page can point.
fn range_of(blocks: BlockRef, level: u64, page: u64) -> PageRange
    requires first { blocks.first ≤ 2 ^ 62 }
    requires few { blocks.blocks ≤ 2 ^ 50 }
    ensures low { result.low ≡ low_page blocks level }
    ensures high { result.high ≡ high_page blocks level page }
{
    let first = blocks.first / BLOCK_BYTES as u64;
    let end = first + blocks.blocks;
    if level == 1 {
        return PageRange {
            low: first,
            high: end,
        };
    }
    PageRange {
        low: end,
        high: page,
    }
}

// The page of the top block.
fn top_page(blocks: BlockRef) -> u64
    ensures { result ≡ page_of_top blocks }
{
    let top = if blocks.levels == 0 {
        blocks.first
    } else {
        blocks.top
    };
    top / BLOCK_BYTES as u64
}

// The page of the term block for a term.
pub fn leaf_page<H: Host, P: PageReader>(
    host: &mut H,
    pages: &mut P,
    buffered: &mut BufferedFile,
    blocks: BlockRef,
    sought: &[u8],
) -> Result<u64, ReadFault>
    requires read { CanReadOn (P.agrees pages.old) (H.view host.old) buffered.old }
    requires first { blocks.first ≤ 2 ^ 62 }
    requires few { blocks.blocks ≤ 2 ^ 50 }
    requires some { 0 < blocks.blocks }
    ensures ok { IfOk result (λ page. (bytes : List ℕ) (entries : List TermEntry) → contents (H.view host.old) buffered.old.file ≡ Some bytes → HasBlocks bytes blocks entries → IsPageFor blocks.first entries 0 sought.now page) }
    ensures led { IfOk result (λ page. (bytes : List ℕ) → contents (H.view host.old) buffered.old.file ≡ Some bytes → LeadsFor bytes blocks sought.now 0 page) }
    ensures low { IfOk result (λ page. blocks.first / 4096 ≤ page) }
    ensures high { IfOk result (λ page. page < blocks.first / 4096 + blocks.blocks) }
    ensures damaged { IfErr result (λ fault. (form : ListForm) → DamageShown (H.view host.old) buffered.old.file (ShowsBlocks buffered.old.file blocks form) fault) }
    ensures read { HasReadOn (P.agrees pages.new) (P.covers pages.old) (P.covers pages.new) (H.view host.old) (H.view host.new) buffered.old buffered.new }
    ensures causes { ReadCost blocks.levels (H.view host.old) (H.view host.new) result }
{
    let mut page = top_page(blocks);
    for passed in 0..blocks.levels {
        let level = blocks.levels - passed;
        page = child_page(host, pages, buffered, blocks, level, page, sought)?;
    }
    Ok(page)
}

// Where the first entry at or above a term is, in the block on this page to which the pointers lead: behind the block, where it
// has none. The first block is that on the first page.
pub fn position_for<H: Host, P: PageReader>(
    alloc: Global,
    host: &mut H,
    pages: &mut P,
    buffered: &mut BufferedFile,
    first: u64,
    page: u64,
    sought: &[u8],
) -> Result<Position, ReadFault>
    requires read { CanReadOn (P.agrees pages.old) (H.view host.old) buffered.old }
    ensures ok { IfOk result (λ here. (bytes : List ℕ) (blocks : BlockRef) (entries : List TermEntry) → contents (H.view host.old) buffered.old.file ≡ Some bytes → HasBlocks bytes blocks entries → IsPageFor blocks.first entries 0 sought.now page
        → (passed : ℕ) × CountsBelow (terms_of entries) sought.now passed × HasPassed blocks entries here.page here.index passed) }
    ensures led { IfOk result (λ here. (bytes : List ℕ) (blocks : BlockRef) → contents (H.view host.old) buffered.old.file ≡ Some bytes → LeadsFor bytes blocks sought.now 0 page → LeadsTo bytes blocks sought.now here.page here.index) }
    ensures later { IfOk result (λ here. page ≤ here.page) }
    ensures damaged { IfErr result (DamageShown (H.view host.old) buffered.old.file (ShowsBlock (BreaksSplit first page sought.now) buffered.old.file page)) }
    ensures read { HasReadOn (P.agrees pages.new) (P.covers pages.old) (P.covers pages.new) (H.view host.old) (H.view host.new) buffered.old buffered.new }
    ensures causes { ReadCost 1 (H.view host.old) (H.view host.new) result }
{
    load_block(host, pages, buffered, page)?;
    match split_led(alloc, loaded_block(buffered), first, page, sought) {
        Ok(split) => Ok(position_in(page, split.below, split.count)),
        Err(fault) => Err(fault_of(buffered.file(), page, fault)),
    }
}
