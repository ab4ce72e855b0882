// Open manifests.
ghost use Rattle.std.specs.Prelude.{◌≡◌, ◌+◌, ◌≤◌, ◌^◌, [], length, None, Some, IsTrue, IfErr, IfOk, OnErr, OnOk, is_ok};
ghost use Rattle.sasi_host.specs.View.{MakesCalls, Holds, IsAbsent, IsThere, IsTold, ListCauses, Reaches, contents};
ghost use Rattle.sasi_host.specs.Disk.{AnyChange, Changes, IsFileDurable, LeftWith, Same, FileChange};
ghost use Rattle.sasi_host.specs.Names.{manifest_name, seal_name};
ghost use Rattle.sasi_host.specs.Sequential.{ReadsWithinPages};
ghost use Rattle.sasi_gated.specs.Causes.{ReadingCauses};
ghost use Rattle.sasi_manifest.specs.declared.listing.Listing.{Listing as AListing};
ghost use Rattle.sasi_manifest.specs.Consistent.{HasIndexesInOrder, IsConsistent};
ghost use Rattle.sasi_manifest.specs.Damages.{IsManifestDamage, NoFalseManifestDamage};
ghost use Rattle.sasi_manifest.specs.Edits.{AllApply, encoded};
ghost use Rattle.sasi_manifest.specs.Format.{IsManifest, IsNext, IsRewritten, ListsSame};
ghost use Rattle.sasi_manifest.specs.Listings.{rewrite_edits};
ghost use Rattle.sasi_manifest.specs.Reading.{ReadsListing, ReadsUpTo, StandsWhereKept};
ghost use Rattle.sasi_manifest.specs.OpenManifest.{Creates, IsEither, IsUnsealed, ManifestStands, ChangesOnlyManifest};

use crate::append::append_edits;
use crate::create::create_sealed;
use crate::open::open_manifest;
use crate::{EditList, Listing};
use sasi_gated::Gated;
use sasi_host::{Host, HostFault, ManifestNumber, ReadFault};
use std::alloc::Global;
use std::marker::Model;

/// An open manifest. Its model is its number, the offset of its closed gate, whether it is usable, and its listing.
#[derive(Drop)]
pub struct Manifest {
    alloc: Global,
    number: ManifestNumber,
    gated: Gated,
    listing: Listing,
    usable: bool,
}

impl Model for Manifest {
    ghost use Rattle.sasi_manifest.specs.OpenManifest.{ManifestState, IsOpenManifest};

    ghost Value = { ManifestState };

    ghost view = { λ a. record { number = a.number; at = a.gated.at; usable = a.usable; listing = a.listing } };

    ghost invariant = { λ a. IsOpenManifest a.number a.gated a.listing a.usable };
}

impl Manifest {
    /// Its listing.
    pub fn listing(&self) -> &Listing
        ensures listing { result.now ≡ self.now.listing }
        ensures consistent { IsConsistent self.now.listing }
    {
        &self.listing
    }

    /// Its number.
    pub fn number(&self) -> ManifestNumber
        ensures { result ≡ self.now.number }
    {
        self.number
    }

    /// Whether every call on it succeeded.
    pub fn is_usable(&self) -> bool
        ensures { result ≡ self.now.usable }
    {
        self.usable
    }

    /// Creates a manifest that has this listing in one record, and its seal. The file of the manifest is written and synced,
    /// then the seal is created and the folder synced.
    pub fn create<H: Host>(
        alloc: Global,
        host: &mut H,
        number: ManifestNumber,
        listing: &Listing,
    ) -> Result<Manifest, HostFault>
        requires manifest { IsAbsent (H.view host.old) (manifest_name number) }
        requires seal { IsAbsent (H.view host.old) (seal_name number) }
        requires apply { AllApply None (rewrite_edits listing.now) }
        requires short { length (encoded (rewrite_edits listing.now)) ≤ 2 ^ 30 }
        ensures ok { IfOk result (λ m. ManifestStands (H.view host.new) number m.at m.listing) }
        ensures sealed { OnOk result (IsUnsealed (H.view host.old) number → IsFileDurable (H.view host.new) (seal_name number) []) }
        ensures listing { IfOk result (λ m. IsRewritten listing.now m.listing) }
        // So it lists the same, if edits can have made the listing, and each table's indexes came in the order of their numbers.
        ensures same { IfOk result (λ m. IsConsistent listing.now → HasIndexesInOrder listing.now → ListsSame listing.now m.listing) }
        ensures any_moment { (made : AListing) → IsRewritten listing.now made → IsUnsealed (H.view host.old) number → Changes (Creates number made) (H.view host.old) (H.view host.new) }
        ensures changes { Changes (ChangesOnlyManifest number) (H.view host.old) (H.view host.new) }
        ensures room { IfOk result (λ m. Reaches (H.view host.new) (manifest_name number) (m.at + 1)) }
        ensures number { IfOk result (λ m. m.number ≡ number) }
        ensures usable { IfOk result (λ m. IsTrue m.usable) }
        ensures calls { MakesCalls 6 (H.view host.old) (H.view host.new) result }
        ensures causes { ListCauses (H.view host.old) (H.view host.new) result }
    {
        let made = create_sealed(alloc, host, number, listing)?;
        Ok(Manifest {
            alloc,
            number,
            gated: made.gated,
            listing: made.listing,
            usable: true,
        })
    }

    /// Opens a manifest, and reads all its records.
    pub fn open<H: Host>(
        alloc: Global,
        host: &mut H,
        number: ManifestNumber,
    ) -> Result<Manifest, ReadFault>
        requires { IsThere (H.view host.old) (manifest_name number) }
        ensures ok { IfOk result (λ m. ReadsListing (H.view host.old) number m.listing) }
        ensures stands { IfOk result (λ m. StandsWhereKept (H.view host.old) (H.view host.new) number m.at m.listing) }
        ensures room { IfOk result (λ m. Reaches (H.view host.new) (manifest_name number) (m.at + 1)) }
        ensures damaged { IfErr result (IsManifestDamage (H.view host.old) number) }
        ensures undamaged { IfErr result (NoFalseManifestDamage (H.view host.old) number) }
        ensures changes { Changes Same (H.view host.old) (H.view host.new) }
        ensures number { IfOk result (λ m. m.number ≡ number) }
        ensures usable { IfOk result (λ m. IsTrue m.usable) }
        ensures reads { ReadsWithinPages (H.view host.old) (H.view host.new) (manifest_name number) }
        // Nothing is read behind the page of the closed gate, on every host.
        ensures pages { IfOk result (λ m. ReadsUpTo (H.view host.old) (H.view host.new) m.at) }
        ensures causes { ReadingCauses (H.view host.old) (H.view host.new) result }
    {
        let opened = open_manifest(alloc, host, number)?;
        Ok(Manifest {
            alloc,
            number,
            gated: opened.gated,
            listing: opened.listing,
            usable: true,
        })
    }

    /// Appends a record of the edits, which take effect together. After a fault the listing is unchanged.
    pub fn append<H: Host>(&mut self, host: &mut H, edits: &EditList) -> Result<(), HostFault>
        requires room { Reaches (H.view host.old) (manifest_name self.old.number) (self.old.at + 1) }
        requires usable { IsTrue self.old.usable }
        requires apply { AllApply (Some self.old.listing) edits.now }
        requires some { 1 ≤ length edits.now }
        requires short { length (encoded edits.now) ≤ 2 ^ 30 }
        ensures ok { OnOk result (ManifestStands (H.view host.old) self.old.number self.old.at self.old.listing → ManifestStands (H.view host.new) self.old.number self.new.at self.new.listing) }
        ensures listing { OnOk result (IsNext self.old.listing edits.now self.new.listing) }
        ensures err { OnErr result (self.new.listing ≡ self.old.listing) }
        ensures any_moment { (next : AListing) → IsNext self.old.listing edits.now next → ManifestStands (H.view host.old) self.old.number self.old.at self.old.listing
            → Changes (FileChange (manifest_name self.old.number) (LeftWith (IsEither self.old.number self.old.listing next))) (H.view host.old) (H.view host.new) }
        ensures changes { Changes (FileChange (manifest_name self.old.number) AnyChange) (H.view host.old) (H.view host.new) }
        ensures room { OnOk result (Reaches (H.view host.new) (manifest_name self.new.number) (self.new.at + 1)) }
        ensures usable { self.new.usable ≡ is_ok result }
        ensures number { self.new.number ≡ self.old.number }
        ensures calls { MakesCalls 4 (H.view host.old) (H.view host.new) result }
        ensures causes { ListCauses (H.view host.old) (H.view host.new) result }
    {
        self.usable = false;
        append_edits(
            self.alloc,
            host,
            &mut self.gated,
            &mut self.listing,
            edits.as_slice(),
        )?;
        self.usable = true;
        Ok(())
    }
}
