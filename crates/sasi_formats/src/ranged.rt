// Reads numbers of a range.
ghost use Rattle.std.specs.Prelude.{◌≡◌};
ghost use Rattle.std.specs.Int.{w8, w16, w32, w64};
ghost use Rattle.sasi_formats.specs.Reader.{read};
ghost use Rattle.sasi_formats.specs.Fields.{in_range};
ghost use Rattle.sasi_formats.specs.Gives.{Gives, TakesNoMemory};

use crate::fault::FormatFault;
use crate::field_start::FieldStart;
use crate::numbers::{read_u8, read_u16, read_u32, read_u64};
use sasi_fields::FieldReader;
use sasi_host::FormatRule;

/// Reads a number of one byte, from `least` to `most`.
pub fn read_u8_in_range(reader: &mut FieldReader, least: u8, most: u8) -> Result<u8, FormatFault>
    ensures { Gives (read (in_range w8 least most) reader.old) result reader.new }
{
    let start = FieldStart::of(reader);
    let number = read_u8(reader)?;
    if number < least || number > most {
        return Err(start.broken(FormatRule::Number, 1));
    }
    Ok(number)
}

/// Reads a number of two bytes, big-endian, from `least` to `most`.
pub fn read_u16_in_range(
    reader: &mut FieldReader,
    least: u16,
    most: u16,
) -> Result<u16, FormatFault>
    ensures { Gives (read (in_range w16 least most) reader.old) result reader.new }
{
    let start = FieldStart::of(reader);
    let number = read_u16(reader)?;
    if number < least || number > most {
        return Err(start.broken(FormatRule::Number, 2));
    }
    Ok(number)
}

/// Reads a number of four bytes, big-endian, from `least` to `most`.
pub fn read_u32_in_range(
    reader: &mut FieldReader,
    least: u32,
    most: u32,
) -> Result<u32, FormatFault>
    ensures { Gives (read (in_range w32 least most) reader.old) result reader.new }
{
    let start = FieldStart::of(reader);
    let number = read_u32(reader)?;
    if number < least || number > most {
        return Err(start.broken(FormatRule::Number, 4));
    }
    Ok(number)
}

/// Reads a number of eight bytes, big-endian, from `least` to `most`.
pub fn read_u64_in_range(
    reader: &mut FieldReader,
    least: u64,
    most: u64,
) -> Result<u64, FormatFault>
    ensures number { Gives (read (in_range w64 least most) reader.old) result reader.new }
    ensures memory { TakesNoMemory result }
{
    let start = FieldStart::of(reader);
    let number = read_u64(reader)?;
    if number < least || number > most {
        return Err(start.broken(FormatRule::Number, 8));
    }
    Ok(number)
}
