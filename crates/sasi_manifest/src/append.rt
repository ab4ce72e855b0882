// Appends edits to the file of a manifest.
ghost use Rattle.std.specs.Prelude.{◌≡◌, ◌+◌, ◌≤◌, ◌^◌, ℕ, List, length, None, Some, IsTrue, IfOk, IfSome, OnErr, OnOk};
ghost use Rattle.sasi_host.specs.View.{MakesCalls, ListCauses, Reaches};
ghost use Rattle.sasi_host.specs.Disk.{AnyChange, Changes, LeftWith, FileChange};
ghost use Rattle.sasi_gated.specs.Format.{IsBeforeOrAfter};
ghost use Rattle.sasi_gated.specs.Reads.{AppendsRecord};
ghost use Rattle.sasi_gated.specs.Handles.{IsAtEnd};
ghost use Rattle.sasi_manifest.specs.Edits.{AllApply, encoded};
ghost use Rattle.sasi_manifest.specs.Format.{IsNext};
ghost use Rattle.sasi_manifest.specs.Listings.{after_all};

use crate::apply::{apply_all, change};
use crate::encode::encode;
use crate::read_record::count_record;
use crate::size::edits_size;
use crate::{Edit, Listing};
use sasi_gated::Gated;
use sasi_host::{Host, HostFault};
use std::alloc::{AllocError, Global};

/// Appends the record of the edits, and applies them to the listing.
pub fn append_edits<H: Host>(
    alloc: Global,
    host: &mut H,
    gated: &mut Gated,
    listing: &mut Listing,
    edits: &[Edit],
) -> Result<(), HostFault>
    requires room { Reaches (H.view host.old) gated.old.file (gated.old.at + 1) }
    requires usable { IsTrue gated.old.usable }
    requires apply { AllApply (Some listing.old) edits.now }
    requires some { 1 ≤ length edits.now }
    requires short { length (encoded edits.now) ≤ 2 ^ 30 }
    requires records { listing.old.records ≤ 2 ^ 62 }
    requires length { listing.old.length ≤ 2 ^ 62 + 1 }
    ensures ok { OnOk result (AppendsRecord (H.view host.old) (H.view host.new) gated.old.file gated.old.at gated.new.at (encoded edits.now)) }
    ensures listing { OnOk result (IsNext listing.old edits.now listing.new) }
    ensures err { OnErr result (listing.new ≡ listing.old) }
    ensures any_moment { (records : List (List ℕ)) → IsAtEnd (H.view host.old) gated.old.file gated.old.at records
        → Changes (FileChange gated.old.file (LeftWith (IsBeforeOrAfter gated.old.file records (encoded edits.now)))) (H.view host.old) (H.view host.new) }
    ensures changes { Changes (FileChange gated.old.file AnyChange) (H.view host.old) (H.view host.new) }
    ensures offset { OnOk result (gated.new.at ≡ gated.old.at + (5 + length (encoded edits.now))) }
    ensures fits { OnOk result (gated.new.at ≤ 2 ^ 62) }
    ensures room { OnOk result (Reaches (H.view host.new) gated.new.file (gated.new.at + 1)) }
    ensures usable { OnOk result (IsTrue gated.new.usable) }
    ensures file { gated.new.file ≡ gated.old.file }
    ensures calls { MakesCalls 4 (H.view host.old) (H.view host.new) result }
    ensures causes { ListCauses (H.view host.old) (H.view host.new) result }
{
    let record = encode(alloc, edits)?;
    let copy = changed_copy(alloc, listing, edits)?;
    gated.append(host, &record)?;
    change_all(alloc, listing, edits, copy)?;
    count_record(listing, edits_size(edits));
    Ok(())
}

// A changed copy of the listing, since one edit may fail behind another; none for a single edit, which needs no copy.
fn changed_copy(
    alloc: Global,
    listing: &Listing,
    edits: &[Edit],
) -> Result<Option<Listing>, AllocError>
    requires apply { AllApply (Some listing.now) edits.now }
    requires some { 1 ≤ length edits.now }
    ensures copy { IfOk result (λ copy. IfSome copy (λ next. Some next ≡ after_all (Some listing.now) edits.now)) }
    ensures single { IfOk result (λ copy. copy ≡ None → length edits.now ≡ 1) }
{
    if edits.len() == 1 {
        return Ok(None);
    }
    let copy = listing.copy(alloc)?;
    let changed = apply_all(alloc, Some(copy), edits)?;
    Ok(changed)
}

// Takes the changed copy, or changes the listing itself.
fn change_all(
    alloc: Global,
    listing: &mut Listing,
    edits: &[Edit],
    copy: Option<Listing>,
) -> Result<(), AllocError>
    requires apply { AllApply (Some listing.old) edits.now }
    requires copy { IfSome copy (λ next. Some next ≡ after_all (Some listing.old) edits.now) }
    requires single { copy ≡ None → length edits.now ≡ 1 }
    ensures ok { OnOk result (Some listing.new ≡ after_all (Some listing.old) edits.now) }
    ensures err { OnErr result (listing.new ≡ listing.old) }
{
    match copy {
        Some(next) => {
            *listing = next;
            Ok(())
        }
        None => change(alloc, listing, &edits[0]),
    }
}
