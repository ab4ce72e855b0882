// Reads blocks from the file.
ghost use Rattle.std.specs.Prelude.{◌≡◌, ◌+◌, ◌*◌, ◌^◌, ◌<◌, ◌≤◌, List, ℕ, length, take, IfErr, IfOk, OnOk, Some};
ghost use Rattle.sasi_host.specs.View.{contents, ReadCost};
ghost use Rattle.sasi_host.specs.Damages.{HasAt, DamageShown, ShowsEnd};
ghost use Rattle.sasi_host.specs.PageReading.{CanReadOn, HasReadOn};
ghost use Rattle.sasi_termblocks.specs.BlockFaults.{IsNear};
ghost use Rattle.sasi_termblocks.specs.Damages.{IsLifted};

use crate::block_encode::BLOCK_BYTES;
use crate::fault::BlockFault;
use sasi_host::{BufferedFile, Damage, FileName, Host, PageReader, ReadFault, unexpected_end};

// No file has more pages.
pub const MAX_PAGES: u64 = 1 << 50;

// Loads the block on this page into the buffer.
pub fn load_block<H: Host, P: PageReader>(
    host: &mut H,
    pages: &mut P,
    buffered: &mut BufferedFile,
    page: u64,
) -> Result<(), ReadFault>
    requires read { CanReadOn (P.agrees pages.old) (H.view host.old) buffered.old }
    ensures is { OnOk result ((bytes : List ℕ) → contents (H.view host.old) buffered.old.file ≡ Some bytes → HasAt bytes (4096 * page) (take 4096 buffered.new.bytes)) }
    ensures whole { OnOk result (4096 ≤ length buffered.new.bytes) }
    ensures page { OnOk result (page < 2 ^ 50) }
    ensures damaged { IfErr result (DamageShown (H.view host.old) buffered.old.file (ShowsEnd (4096 * page + 4096) buffered.old.file)) }
    ensures read { HasReadOn (P.agrees pages.new) (P.covers pages.old) (P.covers pages.new) (H.view host.old) (H.view host.new) buffered.old buffered.new }
    ensures causes { ReadCost 1 (H.view host.old) (H.view host.new) result }
    ensures same_page { buffered.old.page ≡ Some page → (H.view host.new).reads ≡ (H.view host.old).reads }
{
    if page >= MAX_PAGES {
        return Err(unexpected_end(host, buffered.file()));
    }
    buffered.load_page(host, pages, page)?;
    if buffered.bytes_from(0).len() < BLOCK_BYTES {
        return Err(unexpected_end(host, buffered.file()));
    }
    Ok(())
}

// The block that was loaded.
pub fn loaded_block(buffered: &BufferedFile) -> &[u8]
    requires { 4096 ≤ length buffered.now.bytes }
    ensures is { result.now ≡ take 4096 buffered.now.bytes }
    ensures whole { length result.now ≡ 4096 }
{
    &buffered.bytes_from(0)[..BLOCK_BYTES]
}

// The fault of a block on this page of a file.
pub fn fault_of(file: FileName, page: u64, fault: BlockFault) -> ReadFault
    requires page { page < 2 ^ 50 }
    requires near { IsNear fault }
    ensures { IsLifted file (4096 * page) fault result }
{
    match fault {
        BlockFault::OutOfMemory => ReadFault::OutOfMemory,
        BlockFault::Broken(found) => ReadFault::Damaged(Damage {
            file,
            at: BLOCK_BYTES as u64 * page + found.at as u64,
            rule: found.rule,
            seen: found.seen,
        }),
    }
}
