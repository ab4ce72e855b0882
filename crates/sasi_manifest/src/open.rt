// The reading of a manifest.
ghost use Rattle.std.specs.Prelude.{◌≡◌, ◌≢◌, ◌+◌, ◌-◌, ◌≤◌, ◌^◌, ◌∷◌, [], List, length, Option, Some, IfErr, IfOk, true};
ghost use Rattle.sasi_host.specs.declared.fault.ReadFault.TheVariants as read_fault;
ghost use Rattle.sasi_host.specs.View.{IsThere, Reaches};
ghost use Rattle.sasi_host.specs.Disk.{Changes, Same};
ghost use Rattle.sasi_host.specs.Sequential.{ReadsWithinPages};
ghost use Rattle.sasi_gated.specs.Causes.{ReadingCauses};
ghost use Rattle.sasi_host.specs.declared.damage.FormatRule.TheVariants.{Number};
ghost use Rattle.sasi_host.specs.Damages.{OnDamage, seen_bytes};
ghost use Rattle.sasi_host.specs.Names.{manifest_name};
ghost use Rattle.sasi_manifest.specs.declared.listing.Listing.{Listing as AListing};
ghost use Rattle.sasi_manifest.specs.declared.edit.Edit.{Edit as AnEdit};
ghost use Rattle.sasi_manifest.specs.Damages.{IsLengthDamage, IsManifestDamage};
ghost use Rattle.sasi_formats.specs.Formats.{Encodes};
ghost use Rattle.sasi_formats.specs.Whole.{IsShownBy};
ghost use Rattle.sasi_manifest.specs.Edits.{edits};
ghost use Rattle.sasi_manifest.specs.Listings.{after_all, with_record_counted, length_of, records_of};
ghost use Rattle.sasi_manifest.specs.Reading.{IsOffsetWithin, IsDamageOfRecord, ReadsUpTo, ReadsWhole};
ghost use Rattle.sasi_manifest.specs.OpenManifest.{IsOpenManifest};

use crate::Listing;
use crate::create::OpenParts;
use crate::read_record::read_record;
use sasi_formats::FormatFault;
use sasi_gated::Gated;
use sasi_host::{Damage, FileName, FormatRule, Host, ManifestNumber, ReadFault, Seen};
use std::alloc::Global;

/// Reads all records of a manifest.
pub fn open_manifest<H: Host>(
    alloc: Global,
    host: &mut H,
    number: ManifestNumber,
) -> Result<OpenParts, ReadFault>
    requires { IsThere (H.view host.old) (manifest_name number) }
    ensures ok { IfOk result (λ o. ReadsWhole (H.view host.old) number o.gated.at o.listing) }
    ensures room { IfOk result (λ o. Reaches (H.view host.new) (manifest_name number) (o.gated.at + 1)) }
    ensures is_open { IfOk result (λ o. IsOpenManifest number o.gated o.listing true) }
    ensures damaged { IfErr result (IsManifestDamage (H.view host.old) number) }
    ensures changes { Changes Same (H.view host.old) (H.view host.new) }
    ensures reads { ReadsWithinPages (H.view host.old) (H.view host.new) (manifest_name number) }
    ensures pages { IfOk result (λ o. ReadsUpTo (H.view host.old) (H.view host.new) o.gated.at) }
    ensures causes { ReadingCauses (H.view host.old) (H.view host.new) result }
{
    let mut gated = Gated::open(host, FileName::manifest(number))?;
    let mut payload = Vec::new(alloc);
    let mut listed = None;
    while gated.next(host, &mut payload)? {
        listed = Some(take_record(alloc, number, listed, &payload)?);
    }
    match listed {
        None => Err(ReadFault::Damaged(empty(number))),
        Some(listing) => Ok(OpenParts { gated, listing }),
    }
}

// Applies the record after the gate at the end of the listing.
fn take_record(
    alloc: Global,
    number: ManifestNumber,
    listed: Option<Listing>,
    payload: &[u8],
) -> Result<Listing, ReadFault>
    requires records { records_of listed ≤ 2 ^ 62 }
    requires length { length_of listed ≤ 2 ^ 62 + 1 }
    requires some { 1 ≤ length_of listed }
    requires short { length payload.now ≤ 2 ^ 30 }
    ensures ok { IfOk result (λ listing. (es : List AnEdit) × Encodes (edits listed) es payload.now × (Some listing ≡ with_record_counted payload.now (after_all listed es))) }
    ensures damaged { IfErr result (OnDamage (IsDamageOfRecord number (length_of listed - 1) listed payload.now)) }
    ensures not_failed { IfErr result (λ f. f ≢ read_fault.Failed) }
{
    let before = end_of(&listed);
    match read_record(alloc, listed, payload) {
        Ok(listing) => Ok(listing),
        Err(fault) => Err(record_damage(number, before, payload, fault)),
    }
}

// The offset of the gate at the end of the listing.
fn end_of(listed: &Option<Listing>) -> u64
    requires { 1 ≤ length_of listed.now }
    ensures { result ≡ length_of listed.now - 1 }
{
    match listed {
        None => 16,
        Some(listing) => listing.length - 1,
    }
}

// The fault of the record after the gate at this offset, with its offset in the file.
fn record_damage(
    number: ManifestNumber,
    before: u64,
    payload: &[u8],
    fault: FormatFault,
) -> ReadFault
    requires offset { before ≤ 2 ^ 62 + 1 }
    requires within { IsOffsetWithin (2 ^ 62) fault }
    requires short { length payload.now ≤ 2 ^ 30 }
    ensures damaged { (from : Option AListing) → IsShownBy (edits from) payload.now fault → OnDamage (IsDamageOfRecord number before from payload.now) result }
    ensures not_failed { result ≢ read_fault.Failed }
{
    match fault {
        FormatFault::OutOfMemory => ReadFault::OutOfMemory,
        FormatFault::Short => ReadFault::Damaged(other_length(number, before, payload)),
        FormatFault::Long => ReadFault::Damaged(other_length(number, before, payload)),
        FormatFault::Broken(broken) => ReadFault::Damaged(Damage {
            file: FileName::manifest(number),
            at: before + 5 + broken.at as u64,
            rule: broken.rule,
            seen: broken.seen,
        }),
    }
}

// The damage of the record after the gate at this offset, which states another length than its content has.
fn other_length(number: ManifestNumber, before: u64, payload: &[u8]) -> Damage
    requires offset { before ≤ 2 ^ 62 + 1 }
    requires short { length payload.now ≤ 2 ^ 30 }
    ensures file { result.file ≡ manifest_name number }
    ensures damage { IsLengthDamage before payload.now result.rule result.at (seen_bytes result.seen) }
{
    Damage {
        file: FileName::manifest(number),
        at: before + 1,
        rule: FormatRule::Number,
        seen: Seen::of(&(payload.len() as u32).to_be_bytes()),
    }
}

// The damage of a manifest without a record.
fn empty(number: ManifestNumber) -> Damage
    ensures file { result.file ≡ manifest_name number }
    ensures at { result.at ≡ 16 }
    ensures rule { result.rule ≡ Number }
    ensures seen { seen_bytes result.seen ≡ 0 ∷ [] }
{
    Damage {
        file: FileName::manifest(number),
        at: 16,
        rule: FormatRule::Number,
        seen: Seen::of(&[0]),
    }
}
