// Reads numbers.
ghost use Rattle.std.specs.Prelude.{◌≡◌};
ghost use Rattle.std.specs.Int.{w8, w16, w32, w64};
ghost use Rattle.sasi_formats.specs.Reader.{read};
ghost use Rattle.sasi_formats.specs.Fields.{flag, number};
ghost use Rattle.sasi_formats.specs.Gives.{Gives, TakesNoMemory};

use crate::fault::FormatFault;
use crate::field_start::FieldStart;
use sasi_fields::FieldReader;
use sasi_host::FormatRule;

/// Reads a number of one byte.
pub fn read_u8(reader: &mut FieldReader) -> Result<u8, FormatFault>
    ensures { Gives (read (number w8) reader.old) result reader.new }
{
    Ok(reader.u8()?)
}

/// Reads a number of two bytes, big-endian.
pub fn read_u16(reader: &mut FieldReader) -> Result<u16, FormatFault>
    ensures { Gives (read (number w16) reader.old) result reader.new }
{
    Ok(reader.u16()?)
}

/// Reads a number of four bytes, big-endian.
pub fn read_u32(reader: &mut FieldReader) -> Result<u32, FormatFault>
    ensures { Gives (read (number w32) reader.old) result reader.new }
{
    Ok(reader.u32()?)
}

/// Reads a number of eight bytes, big-endian.
pub fn read_u64(reader: &mut FieldReader) -> Result<u64, FormatFault>
    ensures number { Gives (read (number w64) reader.old) result reader.new }
    ensures memory { TakesNoMemory result }
{
    Ok(reader.u64()?)
}

/// Reads a byte that is 0 or 1.
pub fn read_flag(reader: &mut FieldReader) -> Result<bool, FormatFault>
    ensures { Gives (read flag reader.old) result reader.new }
{
    let start = FieldStart::of(reader);
    match read_u8(reader)? {
        0 => Ok(false),
        1 => Ok(true),
        _ => Err(start.broken(FormatRule::Number, 1)),
    }
}
