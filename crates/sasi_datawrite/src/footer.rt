// The footer of a data file.
ghost use Rattle.std.specs.Prelude.{◌≡◌, IfOk};
ghost use Rattle.sasi_datawrite.specs.Format.{footer_bytes};

use sasi_fields::{put_bytes, put_u64};
use sasi_types::TreeRef;
use std::alloc::{AllocError, Global};

/// The numbers of a footer: the key tree, the largest timestamp, and where the partitions end.
#[derive(Clone, Copy)]
pub struct Footer {
    pub tree: TreeRef,
    pub max_timestamp: u64,
    /// The offset behind the last partition.
    pub end: u64,
}

/// The numbers of a footer, and the mark behind them.
pub fn footer_bytes(alloc: Global, footer: Footer) -> Result<Vec<u8>, AllocError>
    ensures { IfOk result (λ bytes. bytes.items ≡ footer_bytes footer) }
{
    let mut bytes = Vec::new(alloc);
    put_u64(&mut bytes, footer.tree.root)?;
    put_u64(&mut bytes, footer.tree.pairs)?;
    put_u64(&mut bytes, footer.max_timestamp)?;
    put_u64(&mut bytes, footer.end)?;
    put_bytes(&mut bytes, b"SASIDEND")?;
    Ok(bytes)
}
