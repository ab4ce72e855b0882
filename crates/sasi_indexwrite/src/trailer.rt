// The spill tree, the blocks and the footer, behind the trees of the terms.
ghost use Rattle.std.specs.Prelude.{◌≡◌, ◌==◌, ◌+◌, ◌^◌, ◌≤◌, ◌++◌, List, length, if◌then◌else◌, IfOk, OnOk};
ghost use Rattle.std.specs.List.{flat_map};
ghost use Rattle.sasi_types.specs.declared.mode.Mode.{Mode};
ghost use Rattle.sasi_host.specs.Names.{Bytes};
ghost use Rattle.sasi_host.specs.View.{DiskCauses, Holds, IsThere, IsTold, ListCauses, Reaches};
ghost use Rattle.sasi_host.specs.Disk.{AnyChange, Changes, IsSynced, FileChange};
ghost use Rattle.sasi_formats.specs.Formats.{encoded};
ghost use Rattle.sasi_tokentree.specs.Format.{AreFit, IsRising, tree_bytes, tree_ref};
ghost use Rattle.sasi_termblocks.specs.declared.term_entry.TermEntry.{TermEntry};
ghost use Rattle.sasi_termblocks.specs.Entries.{tree};
ghost use Rattle.sasi_termblocks.specs.Writing.{HasPushed};
ghost use Rattle.sasi_indexwrite.specs.Format.{footer_bytes, next_page, padding};
ghost use Rattle.sasi_indexwrite.specs.Writing.{EndsWithBlocks, IsTableOf, with_padding};

use crate::footer::{Footer, put_footer, put_ref};
use sasi_host::{Failed, FileName, Host, HostFault, write_durably};
use sasi_termblocks::BlockWriter;
use sasi_tokentree::{tree_size, write};
use sasi_types::{PairList, TreeRef};
use std::alloc::{AllocError, Global};

// Blocks begin at a multiple of this.
const PAGE: u64 = 4096;

// The spill tree, and where the blocks begin.
#[derive(Clone, Copy)]
pub struct Spilled {
    pub tree: TreeRef,
    pub blocks_at: u64,
}

// The next multiple of a page's size.
fn next_page(at: u64) -> u64
    requires { at ≤ 2 ^ 62 }
    ensures { result ≡ next_page at }
{
    (at + (PAGE - 1)) / PAGE * PAGE
}

// Writes zeros from this offset up to the next page, and gives where that begins.
fn write_padding<H: Host>(host: &mut H, file: FileName, at: u64) -> Result<u64, Failed>
    requires room { Reaches (H.view host.old) file at }
    requires fits { at ≤ 2 ^ 62 }
    ensures ok { OnOk result ((bytes : Bytes) → length bytes ≡ at → Holds (H.view host.old) file bytes → Holds (H.view host.new) file (bytes ++ padding at)) }
    ensures next { IfOk result (λ next. next ≡ next_page at) }
    ensures room { IfOk result (λ next. Reaches (H.view host.new) file next) }
    ensures changes { Changes (FileChange file AnyChange) (H.view host.old) (H.view host.new) }
    ensures causes { DiskCauses (H.view host.old) (H.view host.new) result }
{
    let zeros = [0; PAGE as usize];
    let next = next_page(at);
    host.write(file, at, &zeros[..(next - at) as usize])?;
    Ok(next)
}

// Writes the spill tree, and zeros up to the next page.
pub fn write_spill<H: Host>(
    alloc: Global,
    host: &mut H,
    file: FileName,
    at: u64,
    spill: &PairList,
) -> Result<Spilled, HostFault>
    requires rising { IsRising spill.now }
    requires room { Reaches (H.view host.old) file at }
    requires fits { at ≤ 2 ^ 62 }
    ensures ok { OnOk result ((bytes : Bytes) → length bytes ≡ at → Holds (H.view host.old) file bytes → Holds (H.view host.new) file (with_padding bytes spill.now)) }
    ensures tree { IfOk result (λ spilled. spilled.tree ≡ tree_ref at spill.now) }
    ensures blocks_at { IfOk result (λ spilled. spilled.blocks_at ≡ next_page (at + length (tree_bytes at spill.now))) }
    ensures fit { OnOk result (AreFit spill.now) }
    ensures room { IfOk result (λ spilled. Reaches (H.view host.new) file spilled.blocks_at) }
    ensures changes { Changes (FileChange file AnyChange) (H.view host.old) (H.view host.new) }
    ensures causes { ListCauses (H.view host.old) (H.view host.new) result }
{
    let tree = write(alloc, host, file, at, spill)?;
    let end = at + tree_size(spill.as_slice().len());
    let blocks_at = write_padding(host, file, end)?;
    Ok(Spilled { tree, blocks_at })
}

// Where the file ends.
fn end_of<H: Host>(host: &mut H, file: FileName) -> Result<u64, Failed>
    requires { IsThere (H.view host.old) file }
    ensures at { IfOk result (λ at. (bytes : Bytes) → Holds (H.view host.old) file bytes → IsTold (H.view host.old) → at ≡ length bytes) }
    ensures ok { OnOk result ((bytes : Bytes) → Holds (H.view host.old) file bytes → Holds (H.view host.new) file bytes) }
    ensures room { IfOk result (λ at. Reaches (H.view host.new) file at) }
    ensures changes { Changes (FileChange file AnyChange) (H.view host.old) (H.view host.new) }
    ensures causes { DiskCauses (H.view host.old) (H.view host.new) result }
{
    let at = host.size(file)?;
    Ok(at)
}

// Writes at the end of the file, which this offset is, and syncs it.
fn append<H: Host>(host: &mut H, file: FileName, at: u64, more: &[u8]) -> Result<(), Failed>
    requires { Reaches (H.view host.old) file at }
    ensures ok { OnOk result ((bytes : Bytes) → length bytes ≡ at → Holds (H.view host.old) file bytes → Holds (H.view host.new) file (bytes ++ more.now)) }
    ensures synced { OnOk result (IsSynced (H.view host.new) file) }
    ensures changes { Changes (FileChange file AnyChange) (H.view host.old) (H.view host.new) }
    ensures causes { DiskCauses (H.view host.old) (H.view host.new) result }
{
    write_durably(host, file, at, more)
}

// The offset of a table that stands there, or 0 where there is none.
fn table_place(table: &[TreeRef], at: u64) -> u64
    ensures { result ≡ (if length table.now == 0 then 0 else at) }
{
    if table.is_empty() { 0 } else { at }
}

// Appends the table of the superblocks.
fn put_table(out: &mut Vec<u8>, table: &[TreeRef]) -> Result<(), AllocError>
    ensures { OnOk result (out.new.items ≡ out.old.items ++ flat_map (encoded tree) table.now) }
{
    for each in table {
        put_ref(out, *each)?;
    }
    Ok(())
}

// The table of the superblocks and the footer behind it.
fn end_bytes(alloc: Global, table: &[TreeRef], footer: Footer) -> Result<Vec<u8>, AllocError>
    ensures { IfOk result (λ bytes. bytes.items ≡ flat_map (encoded tree) table.now ++ footer_bytes footer) }
{
    let mut bytes = Vec::new(alloc);
    put_table(&mut bytes, table)?;
    put_footer(&mut bytes, footer)?;
    Ok(bytes)
}

// Writes the blocks from this offset on, the table and the footer, and syncs the file.
pub fn write_blocks<H: Host>(
    alloc: Global,
    host: &mut H,
    file: FileName,
    blocks: BlockWriter,
    table: &[TreeRef],
    spilled: Spilled,
) -> Result<(), HostFault>
    requires room { Reaches (H.view host.old) file spilled.blocks_at }
    ensures ok { OnOk result ((bytes : Bytes) (entries : List TermEntry) (mode : Mode) → length bytes ≡ spilled.blocks_at → Holds (H.view host.old) file bytes → HasPushed blocks entries → IsTableOf mode table.now entries → EndsWithBlocks (H.view host.new) file mode bytes entries (flat_map (encoded tree) table.now) spilled.tree) }
    ensures synced { OnOk result (IsSynced (H.view host.new) file) }
    ensures changes { Changes (FileChange file AnyChange) (H.view host.old) (H.view host.new) }
    ensures causes { ListCauses (H.view host.old) (H.view host.new) result }
{
    let written = blocks.finish(host, file, spilled.blocks_at)?;
    let at = end_of(host, file)?;
    let footer = Footer {
        blocks: written,
        table: table_place(table, at),
        spill: spilled.tree,
    };
    let bytes = end_bytes(alloc, table, footer)?;
    append(host, file, at, &bytes)?;
    Ok(())
}
