// The footer of an index file.
ghost use Rattle.std.specs.Prelude.{◌≡◌, ◌++◌, OnOk};
ghost use Rattle.std.specs.Int.{to_be_bytes, w64};
ghost use Rattle.sasi_formats.specs.Formats.{encoded};
ghost use Rattle.sasi_termblocks.specs.Entries as format;
ghost use Rattle.sasi_indexwrite.specs.Format.{footer_bytes};

use sasi_fields::{put_bytes, put_u64};
use sasi_termblocks::BlockRef;
use sasi_types::TreeRef;
use std::alloc::AllocError;

/// The numbers of a footer: where the blocks stand, and the spill tree.
#[derive(Clone, Copy)]
pub struct Footer {
    pub blocks: BlockRef,
    /// Where the table of superblocks stands; 0 where there is none.
    pub table: u64,
    pub spill: TreeRef,
}

// Appends where the blocks stand, without the number of terms.
fn put_blocks(out: &mut Vec<u8>, blocks: BlockRef) -> Result<(), AllocError>
    ensures { OnOk result (out.new.items ≡ out.old.items ++ (to_be_bytes w64 blocks.first ++ (to_be_bytes w64 blocks.blocks ++ (to_be_bytes w64 blocks.levels ++ to_be_bytes w64 blocks.top)))) }
{
    put_u64(out, blocks.first)?;
    put_u64(out, blocks.blocks)?;
    put_u64(out, blocks.levels)?;
    put_u64(out, blocks.top)?;
    Ok(())
}

// Appends the root of a tree, and its number of pairs.
pub fn put_ref(out: &mut Vec<u8>, tree: TreeRef) -> Result<(), AllocError>
    ensures { OnOk result (out.new.items ≡ out.old.items ++ encoded format.tree tree) }
{
    put_u64(out, tree.root)?;
    put_u64(out, tree.pairs)
}

// Appends the numbers of a footer, and the mark behind them.
pub fn put_footer(out: &mut Vec<u8>, footer: Footer) -> Result<(), AllocError>
    ensures { OnOk result (out.new.items ≡ out.old.items ++ footer_bytes footer) }
{
    put_blocks(out, footer.blocks)?;
    put_u64(out, footer.table)?;
    put_ref(out, footer.spill)?;
    put_u64(out, footer.blocks.terms)?;
    put_bytes(out, b"SASIIEND")?;
    Ok(())
}
