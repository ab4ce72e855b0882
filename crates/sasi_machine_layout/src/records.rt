// The numbers of the next file and record, and the length of a manifest.
ghost use Rattle.std.specs.Prelude.{◌≡◌, ◌+◌, length, IfOk};
ghost use Rattle.sasi_manifest.specs.Edits.{encoded};

use sasi_manifest::EditList;
use std::alloc::AllocError;

/// The length of a manifest with a record more, if it has 64 bits. A gate of 5 bytes stands before each record.
pub fn length_with(before: u64, edits: &EditList) -> Result<u64, AllocError>
    ensures { IfOk result (λ after. after ≡ before + (5 + length (encoded edits.now))) }
{
    let payload = edits.length();
    if payload == u64::MAX {
        return Err(AllocError);
    }
    let record = payload.checked_add(5).ok_or(AllocError)?;
    before.checked_add(record).ok_or(AllocError)
}

/// The number of one record more, if it has 64 bits.
pub fn record_after(records: u64) -> Result<u64, AllocError>
    ensures { IfOk result (λ after. after ≡ records + 1) }
{
    records.checked_add(1).ok_or(AllocError)
}

/// The next number of a file, a segment or an index, if it has 32 bits.
pub fn number_after(number: u32) -> Result<u32, AllocError>
    ensures { IfOk result (λ after. after ≡ number + 1) }
{
    number.checked_add(1).ok_or(AllocError)
}
