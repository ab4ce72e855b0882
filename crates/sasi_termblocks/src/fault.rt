// Why a block can't be read.

use sasi_formats::Broken;

// Out of memory, or a broken rule by its offset in the block.
#[derive(Clone, Copy)]
pub enum BlockFault {
    OutOfMemory,
    Broken(Broken),
}
