// Records of a manifest.
ghost use Rattle.std.specs.Prelude.{◌≡◌, ◌+◌, ◌≤◌, ◌^◌, List, length, IfErr, IfOk, Some};
ghost use Rattle.sasi_formats.specs.Formats.{Encodes};
ghost use Rattle.sasi_formats.specs.Reader.{Got};
ghost use Rattle.sasi_formats.specs.Gives.{FailsWith};
ghost use Rattle.sasi_formats.specs.Whole.{IsShownBy};
ghost use Rattle.sasi_manifest.specs.declared.edit.Edit.{Edit as AnEdit};
ghost use Rattle.sasi_manifest.specs.Edits.{edits};
ghost use Rattle.sasi_manifest.specs.ReadEdits.{read_edits};
ghost use Rattle.sasi_manifest.specs.Listings.{after_all, with_record_counted, length_of, records_of};

use crate::Listing;
use crate::apply::apply;
use crate::read_edit::read_edit;
use sasi_fields::FieldReader;
use sasi_formats::{FormatFault, read_u32_in_range};
use std::alloc::Global;

/// Applies the record with this payload to the listing.
pub fn read_record(
    alloc: Global,
    listed: Option<Listing>,
    payload: &[u8],
) -> Result<Listing, FormatFault>
    requires records { records_of listed ≤ 2 ^ 62 }
    requires length { length_of listed ≤ 2 ^ 62 + 1 }
    requires short { length payload.now ≤ 2 ^ 62 }
    ensures ok { IfOk result (λ listing. (es : List AnEdit) × Encodes (edits listed) es payload.now × (Some listing ≡ with_record_counted payload.now (after_all listed es))) }
    ensures shown { IfErr result (IsShownBy (edits listed) payload.now) }
{
    let Some(mut listing) = read_all(alloc, payload, listed)? else {
        unreachable!();
    };
    count_record(&mut listing, payload.len() as u64);
    Ok(listing)
}

// Reads the edits, which are all the bytes, and applies them one after another.
fn read_all(
    alloc: Global,
    payload: &[u8],
    listed: Option<Listing>,
) -> Result<Option<Listing>, FormatFault>
    ensures ok { IfOk result (λ to. (es : List AnEdit) × Encodes (edits listed) es payload.now × (after_all listed es ≡ to)) }
    ensures shown { IfErr result (IsShownBy (edits listed) payload.now) }
{
    let mut reader = FieldReader::new(payload);
    let count = read_u32_in_range(&mut reader, 1, u32::MAX)?;
    let made = read_edits(alloc, &mut reader, count, listed)?;
    if !reader.left().is_empty() {
        return Err(FormatFault::Long);
    }
    Ok(made)
}

// Reads this many edits, and applies them one after another.
fn read_edits(
    alloc: Global,
    reader: &mut FieldReader,
    count: u32,
    listed: Option<Listing>,
) -> Result<Option<Listing>, FormatFault>
    ensures ok { IfOk result (λ to. (es : List AnEdit) × (read_edits listed count reader.old ≡ Got es reader.new) × (after_all listed es ≡ to)) }
    ensures fails { IfErr result (FailsWith (read_edits listed count reader.old)) }
{
    let mut listed = listed;
    for _turn in 0..count {
        let edit = read_edit(alloc, reader, listed.as_ref())?;
        listed = Some(apply(alloc, listed, &edit)?);
    }
    Ok(listed)
}

/// Counts one record more, whose payload has this size.
pub fn count_record(listing: &mut Listing, size: u64)
    requires records { listing.old.records ≤ 2 ^ 62 }
    requires length { listing.old.length ≤ 2 ^ 62 + 1 }
    requires short { size ≤ 2 ^ 62 }
    ensures { listing.new ≡ record listing.old { records = listing.old.records + 1; length = listing.old.length + (5 + size) } }
{
    listing.records += 1;
    listing.length += 5 + size;
}
