// The mark at the end of a footer.
ghost use Rattle.std.specs.Prelude.{◌≡◌, ◌+◌, ◌^◌, ◌<◌, length};
ghost use Rattle.sasi_host.specs.declared.damage.FormatRule.TheVariants.{Magic};
ghost use Rattle.sasi_formats.specs.Fields.{fixed};
ghost use Rattle.sasi_formats.specs.Parts.{ReadsPart};

use sasi_fields::FieldReader;
use sasi_formats::{damage_in, expect};
use sasi_host::{Damage, FileName, FormatRule};

/// Checks that this mark stands at this offset of a file, by the bytes there, as many as the mark has.
pub fn check_mark(file: FileName, at: u64, mark: &[u8], bytes: &[u8]) -> Result<(), Damage>
    requires size { length bytes.now ≡ length mark.now }
    requires offset { at + length mark.now < 2 ^ 64 }
    ensures { ReadsPart (fixed Magic mark.now) at file bytes.now result }
{
    let mut reader = FieldReader::new(bytes);
    match expect(&mut reader, FormatRule::Magic, mark) {
        Ok(()) => Ok(()),
        Err(fault) => Err(damage_in(file, at, fault)),
    }
}
