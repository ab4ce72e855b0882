// Reads bytes.
ghost use Rattle.std.specs.Prelude.{◌≡◌};
ghost use Rattle.sasi_formats.specs.Reader.{read, took};
ghost use Rattle.sasi_formats.specs.Fields.{fixed};
ghost use Rattle.sasi_formats.specs.Gives.{Gives, GivesBytes, TakesNoMemory};

use crate::fault::FormatFault;
use crate::field_start::broken;
use sasi_fields::FieldReader;
use sasi_host::FormatRule;

/// Reads the next `size` bytes.
#[tactic(auto, using(crate::proofs::Completed::took_is, crate::proofs::Completed::took_short))]
pub fn take<'a>(reader: &mut FieldReader<'a>, size: usize) -> Result<&'a [u8], FormatFault>
    ensures bytes { GivesBytes (took size reader.old) result reader.new }
    ensures memory { TakesNoMemory result }
{
    Ok(reader.bytes(size)?)
}

/// Reads these bytes. Others break the rule.
pub fn expect(reader: &mut FieldReader, rule: FormatRule, wanted: &[u8]) -> Result<(), FormatFault>
    ensures bytes { Gives (read (fixed rule wanted.now) reader.old) result reader.new }
    ensures memory { TakesNoMemory result }
{
    let at = reader.offset();
    let bytes = take(reader, wanted.len())?;
    if bytes != wanted {
        return Err(broken(rule, at, bytes));
    }
    Ok(())
}
