// The record of edits.
ghost use Rattle.std.specs.Prelude.{◌≡◌, ◌≤◌, ◌<◌, ◌^◌, ◌++◌, length, IfOk, OnOk};
ghost use Rattle.std.specs.List.{AllByRecursion};
ghost use Rattle.sasi_manifest.specs.Edits.{encoded};
ghost use Rattle.sasi_manifest.specs.Listings.{FitsWidths};

use crate::Edit;
use crate::put::put_edit;
use sasi_fields::put_u32;
use sasi_gated::Record;
use std::alloc::{AllocError, Global};

/// The record of the edits.
pub fn encode(alloc: Global, edits: &[Edit]) -> Result<Record, AllocError>
    requires writable { AllByRecursion FitsWidths edits.now }
    requires short { length (encoded edits.now) ≤ 2 ^ 30 }
    ensures { IfOk result (λ r. r ≡ encoded edits.now) }
{
    let mut payload = Vec::new(alloc);
    put_edits(edits, &mut payload)?;
    Record::new(alloc, &payload)
}

fn put_edits(edits: &[Edit], out: &mut Vec<u8>) -> Result<(), AllocError>
    requires writable { AllByRecursion FitsWidths edits.now }
    requires few { length edits.now < 2 ^ 32 }
    ensures { OnOk result (out.new.items ≡ out.old.items ++ encoded edits.now) }
{
    put_u32(out, edits.len() as u32)?;
    for edit in edits {
        put_edit(out, edit)?;
    }
    Ok(())
}
