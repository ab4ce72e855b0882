// A new manifest and its seal.
ghost use Rattle.std.specs.Prelude.{◌≡◌, ◌+◌, ◌≤◌, ◌^◌, [], length, None, Some, true, IfOk, OnOk};
ghost use Rattle.sasi_host.specs.View.{MakesCalls, Holds, IsAbsent, ListCauses, Reaches};
ghost use Rattle.sasi_host.specs.Disk.{Changes, IsFileDurable};
ghost use Rattle.sasi_host.specs.Names.{manifest_name, seal_name};
ghost use Rattle.sasi_manifest.specs.declared.listing.Listing.{Listing as AListing};
ghost use Rattle.sasi_manifest.specs.Edits.{AllApply, encoded};
ghost use Rattle.sasi_manifest.specs.Format.{IsRewritten};
ghost use Rattle.sasi_manifest.specs.Listings.{after_all, rewrite_edits, with_record_counted};
ghost use Rattle.sasi_manifest.specs.OpenManifest.{Creates, IsOpenManifest, IsUnsealed, ManifestStands, ChangesOnlyManifest};

use crate::apply::apply_all;
use crate::encode::encode;
use crate::read_record::count_record;
use crate::rewrite::rewrite_edits;
use crate::seal::make_seal;
use crate::size::edits_size;
use crate::{Edit, Listing};
use sasi_gated::Gated;
use sasi_host::{FileName, Host, HostFault, ManifestNumber};
use std::alloc::{AllocError, Global};

/// The open file of a manifest, and its listing.
#[derive(Drop)]
pub struct OpenParts {
    pub gated: Gated,
    pub listing: Listing,
}

/// Creates the file of a manifest that has this listing in one record, and its seal.
pub fn create_sealed<H: Host>(
    alloc: Global,
    host: &mut H,
    number: ManifestNumber,
    listing: &Listing,
) -> Result<OpenParts, HostFault>
    requires manifest { IsAbsent (H.view host.old) (manifest_name number) }
    requires seal { IsAbsent (H.view host.old) (seal_name number) }
    requires apply { AllApply None (rewrite_edits listing.now) }
    requires short { length (encoded (rewrite_edits listing.now)) ≤ 2 ^ 30 }
    ensures ok { IfOk result (λ o. ManifestStands (H.view host.new) number o.gated.at o.listing) }
    ensures sealed { OnOk result (IsUnsealed (H.view host.old) number → IsFileDurable (H.view host.new) (seal_name number) []) }
    ensures listing { IfOk result (λ o. IsRewritten listing.now o.listing) }
    ensures any_moment { (made : AListing) → IsRewritten listing.now made → IsUnsealed (H.view host.old) number → Changes (Creates number made) (H.view host.old) (H.view host.new) }
    ensures changes { Changes (ChangesOnlyManifest number) (H.view host.old) (H.view host.new) }
    ensures room { IfOk result (λ o. Reaches (H.view host.new) (manifest_name number) (o.gated.at + 1)) }
    ensures is_open { IfOk result (λ o. IsOpenManifest number o.gated o.listing true) }
    ensures calls { MakesCalls 6 (H.view host.old) (H.view host.new) result }
    ensures causes { ListCauses (H.view host.old) (H.view host.new) result }
{
    let edits = rewrite_edits(alloc, listing)?;
    let record = encode(alloc, &edits)?;
    let listing = listing_of(alloc, &edits)?;
    let gated = Gated::create(alloc, host, FileName::manifest(number), Some(&record))?;
    make_seal(host, number)?;
    Ok(OpenParts { gated, listing })
}

// The listing that one record of these edits builds up.
fn listing_of(alloc: Global, edits: &[Edit]) -> Result<Listing, AllocError>
    requires apply { AllApply None edits.now }
    requires some { 1 ≤ length edits.now }
    requires short { length (encoded edits.now) ≤ 2 ^ 30 }
    ensures { IfOk result (λ listing. Some listing ≡ with_record_counted (encoded edits.now) (after_all None edits.now)) }
{
    let Some(mut listing) = apply_all(alloc, None, edits)? else {
        unreachable!();
    };
    count_record(&mut listing, edits_size(edits));
    Ok(listing)
}
