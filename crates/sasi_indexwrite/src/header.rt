// The header of an index file.
ghost use Rattle.std.specs.Prelude.{◌≡◌, OnOk, ◌++◌};
ghost use Rattle.sasi_indexwrite.specs.Format.{header_bytes, magic};

use sasi_fields::{put_u8, put_u16};
use sasi_formats::put_front;
use sasi_types::{ColumnType, Mode};
use std::alloc::AllocError;

/// The offset of the first tree.
pub const HEADER_LENGTH: u64 = 16;

/// The first bytes of an index file.
pub fn magic() -> &'static [u8]
    ensures { result.now ≡ magic }
{
    b"SASIIDX1"
}

// Appends the header of a file of this mode and type.
pub fn put_header(out: &mut Vec<u8>, mode: Mode, kind: ColumnType) -> Result<(), AllocError>
    ensures { OnOk result (out.new.items ≡ out.old.items ++ header_bytes mode kind) }
{
    put_front(out, magic())?;
    put_u8(out, mode.code())?;
    put_u8(out, kind.code())?;
    put_u16(out, 0)?;
    Ok(())
}
