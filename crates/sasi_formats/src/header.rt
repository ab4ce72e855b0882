// How each file begins: with a magic, a version and a number.
ghost use Rattle.std.specs.Prelude.{◌≡◌, ◌+◌, ◌++◌, length, OnOk};
ghost use Rattle.sasi_formats.specs.Formats.{encoded};
ghost use Rattle.sasi_formats.specs.Reader.{read};
ghost use Rattle.sasi_formats.specs.Gives.{Gives, TakesNoMemory};
ghost use Rattle.sasi_formats.specs.Headers.{file_front, file_header};
ghost use Rattle.sasi_formats.specs.Parts.{ReadsPart};

use crate::bytes::expect;
use crate::fault::FormatFault;
use crate::part::damage_in;
use sasi_fields::{FieldReader, put_bytes, put_u32};
use sasi_host::{Damage, FileName, FormatRule};
use std::alloc::AllocError;

const VERSION: u32 = 1;

/// Appends the magic of a file, and the version.
pub fn put_front(out: &mut Vec<u8>, magic: &[u8]) -> Result<(), AllocError>
    ensures { OnOk result (out.new.items ≡ out.old.items ++ encoded (file_front magic.now) tt) }
{
    put_bytes(out, magic)?;
    put_u32(out, VERSION)?;
    Ok(())
}

/// Appends the header of a file: its magic, the version and its number.
pub fn put_header(out: &mut Vec<u8>, magic: &[u8], number: u32) -> Result<(), AllocError>
    ensures { OnOk result (out.new.items ≡ out.old.items ++ encoded (file_header magic.now number) tt) }
{
    put_front(out, magic)?;
    put_u32(out, number)?;
    Ok(())
}

/// Reads the magic of a file, and the version.
pub fn read_front(reader: &mut FieldReader, magic: &[u8]) -> Result<(), FormatFault>
    ensures front { Gives (read (file_front magic.now) reader.old) result reader.new }
    ensures memory { TakesNoMemory result }
{
    expect(reader, FormatRule::Magic, magic)?;
    expect(reader, FormatRule::Version, &VERSION.to_be_bytes())?;
    Ok(())
}

// Reads the header of a file.
fn read_header(reader: &mut FieldReader, magic: &[u8], number: u32) -> Result<(), FormatFault>
    ensures header { Gives (read (file_header magic.now number) reader.old) result reader.new }
    ensures memory { TakesNoMemory result }
{
    read_front(reader, magic)?;
    expect(reader, FormatRule::Number, &number.to_be_bytes())?;
    Ok(())
}

/// Checks that a file begins with the header of this magic and number, by its first bytes, as many as a header has.
pub fn check_header(file: FileName, magic: &[u8], number: u32, bytes: &[u8]) -> Result<(), Damage>
    requires { length bytes.now ≡ length magic.now + 8 }
    ensures { ReadsPart (file_header magic.now number) 0 file bytes.now result }
{
    let mut reader = FieldReader::new(bytes);
    match read_header(&mut reader, magic, number) {
        Ok(()) => Ok(()),
        Err(fault) => Err(damage_in(file, 0, fault)),
    }
}
