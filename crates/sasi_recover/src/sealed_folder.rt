// Opens the manifest of a folder that has a seal, and what it lists.
ghost use Rattle.std.specs.Prelude.{◌≡◌, ◌+◌, ◌≤◌, ◌⊎◌, IfErr, IfOk, IsTrue, List, OnOk, Some};
ghost use Rattle.std.specs.List.Sorted.{IsStrictlySortedBy};
ghost use Rattle.sasi_host.specs.Damages.{OnDamage};
ghost use Rattle.sasi_host.specs.Names.{Folder, name_cmp, manifest_name};
ghost use Rattle.sasi_host.specs.View.{IsThere, Reaches};
ghost use Rattle.sasi_host.specs.Disk.{Changes, Lists, Same};
ghost use Rattle.sasi_gated.specs.Causes.{ReadingCauses};
ghost use Rattle.sasi_cells.specs.declared.mutation.Mutation.{Mutation};
ghost use Rattle.sasi_manifest.specs.Consistent.{IsConsistent};
ghost use Rattle.sasi_manifest.specs.Damages.{NoFalseManifestDamage};
ghost use Rattle.sasi_manifest.specs.Reading.{ReadsListing, StandsWhereKept};
ghost use Rattle.sasi_folder.specs.Damages.{ShowsManifestOrListed};
ghost use Rattle.sasi_folder.specs.Opens.{Opens};
ghost use Rattle.sasi_folder.specs.FolderContents.{IsSealed};
ghost use Rattle.sasi_layout.specs.Layout.{Layout, used_in};
ghost use Rattle.sasi_layout.specs.Kept.{nothing};
ghost use Rattle.sasi_layout.specs.Serving.{CanChange, HasExactlyBeside, Serves};
ghost use Rattle.sasi_layout.specs.Shape.{HasShape};
ghost use Rattle.sasi_recover.specs.KeptListed.{KeepsAll, kept_under};
ghost use Rattle.sasi_recover.specs.OpenedFolder.{AnyFolderChange, IsTimed, opened_store, used_numbers};
ghost use Rattle.sasi_recover.specs.Opening.{IsFolderDurable};
ghost use Rattle.sasi_recover.specs.OpeningReads.{ends_reads, ReadsFileOnce, ReadsListingOnce};
ghost use Rattle.sasi_recover.specs.ReplayState.{AreMaps};
ghost use Rattle.sasi_recover.specs.SealedFolder.{AreListedFiles, AreNamed, IsChecked, IsManifestRead, ReportsMissingListed};

use crate::file_ends::{check_files, read_ends};
use crate::files::{largest_number, largest_part, sorted_names};
use crate::names::{check_segments, check_there};
use crate::replay::replay;
use crate::unlisted_files::{Keep, delete_unlisted};
use crate::{Numbers, Opened};
use sasi_host::{Damage, FileName, Host, ManifestNumber, ReadFault};
use sasi_manifest::{Listing, Manifest};
use std::alloc::Global;

/// Opens the manifest of this number, which has to be among the names of the folder.
pub fn read_manifest<H: Host>(
    alloc: Global,
    host: &mut H,
    names: &[FileName],
    number: ManifestNumber,
) -> Result<Manifest, ReadFault>
    requires lists { Lists (H.view host.old) names.now }
    requires sorted { IsStrictlySortedBy name_cmp names.now }
    ensures there { OnOk result (IsThere (H.view host.old) (manifest_name number)) }
    ensures reads { IfOk result (λ m. ReadsListing (H.view host.old) number m.listing) }
    ensures stands { IfOk result (λ m. StandsWhereKept (H.view host.old) (H.view host.new) number m.at m.listing) }
    ensures consistent { IfOk result (λ m. IsConsistent m.listing) }
    ensures room { IfOk result (λ m. Reaches (H.view host.new) (manifest_name number) (m.at + 1)) }
    ensures number { IfOk result (λ m. m.number ≡ number) }
    ensures usable { IfOk result (λ m. IsTrue m.usable) }
    ensures damaged { (folder : Folder) → (H.view host.old).files ≡ Some folder → IfErr result (OnDamage (ShowsManifestOrListed folder number)) }
    ensures undamaged { IfErr result (NoFalseManifestDamage (H.view host.old) number) }
    ensures changes { Changes Same (H.view host.old) (H.view host.new) }
    ensures once { ReadsFileOnce (H.view host.old) (H.view host.new) (manifest_name number) }
    ensures causes { ReadingCauses (H.view host.old) (H.view host.new) result }
{
    check_there(names, FileName::manifest(number))?;
    let manifest = Manifest::open(alloc, host, number)?;
    Ok(manifest)
}

/// Opens what a manifest lists: checks the files that it lists, deletes the others, and replays the commit log.
pub fn open_listed<H: Host>(
    alloc: Global,
    host: &mut H,
    names: &[FileName],
    manifest: Manifest,
) -> Result<Opened, ReadFault>
    requires lists { Lists (H.view host.old) names.now }
    requires sorted { IsStrictlySortedBy name_cmp names.now }
    requires folder_durable { IsFolderDurable (H.view host.old) }
    requires read { IsManifestRead (H.view host.old) manifest }
    ensures listing { IfOk result (λ opened. opened.manifest.listing ≡ manifest.listing) }
    ensures ready { IfOk result (λ opened. CanChange (H.view host.new) (opened_store opened)) }
    ensures exactly { IfOk result (λ opened. HasExactlyBeside (H.view host.new) nothing (opened_store opened)) }
    ensures tables { IfOk result (λ opened. AreMaps opened.manifest.listing opened.tables.items) }
    ensures timed { IfOk result (λ opened. IsTimed (opened_store opened)) }
    ensures serves { (folder : Folder) (l : Layout) (logs : List (List Mutation)) → (H.view host.old).files ≡ Some folder → l.used.manifest ≡ manifest.number → HasShape folder l logs → IfOk result (λ opened. Serves (H.view host.new) (opened_store opened) l) }
    ensures opens { (folder : Folder) → (H.view host.old).files ≡ Some folder → IsSealed folder manifest.number → OnOk result (Opens folder) }
    ensures any_moment { (folder : Folder) (l : Layout) (logs : List (List Mutation)) → (H.view host.old).files ≡ Some folder → l.used.manifest ≡ manifest.number → HasShape folder l logs → Changes (λ x y. (y ≡ x) ⊎ HasShape y l logs) (H.view host.old) (H.view host.new) }
    ensures damaged { (folder : Folder) → (H.view host.old).files ≡ Some folder → IfErr result (OnDamage (ShowsManifestOrListed folder manifest.number)) }
    ensures undamaged { (folder : Folder) (l : Layout) (logs : List (List Mutation)) → (H.view host.old).files ≡ Some folder → l.used.manifest ≡ manifest.number → HasShape folder l logs → IfErr result (OnDamage (λ _. ⊥)) }
    ensures kept { Changes (KeepsAll (kept_under manifest)) (H.view host.old) (H.view host.new) }
    ensures changes { Changes AnyFolderChange (H.view host.old) (H.view host.new) }
    ensures once { (folder : Folder) → (H.view host.old).files ≡ Some folder → ReadsListingOnce folder manifest.listing (H.view host.old) (H.view host.new) }
    ensures causes { ReadingCauses (H.view host.old) (H.view host.new) result }
{
    let files = sorted_names(alloc, manifest.listing())?;
    let greatest = check_and_delete(host, names, &manifest, &files)?;
    let replayed = replay(alloc, host, manifest.listing())?;
    let numbers = numbers_in(&manifest);
    Ok(Opened {
        numbers,
        greatest: greatest.max(replayed.replay.max_timestamp),
        tables: replayed.replay.tables,
        log: replayed.log,
        manifest,
    })
}

// Checks the files that the manifest lists, and deletes the others. Gives the largest timestamp that data files tell.
fn check_and_delete<H: Host>(
    host: &mut H,
    names: &[FileName],
    manifest: &Manifest,
    files: &[FileName],
) -> Result<u64, ReadFault>
    requires lists { Lists (H.view host.old) names.now }
    requires sorted { IsStrictlySortedBy name_cmp names.now }
    requires folder_durable { IsFolderDurable (H.view host.old) }
    requires read { IsManifestRead (H.view host.old) manifest.now }
    requires files { AreListedFiles manifest.now.listing files.now }
    ensures checked { IfOk result (λ time. IsChecked (H.view host.old) (H.view host.new) manifest.now files.now time) }
    ensures any_moment { (folder : Folder) (l : Layout) (logs : List (List Mutation)) → (H.view host.old).files ≡ Some folder → l.used.manifest ≡ manifest.now.number → HasShape folder l logs → Changes (λ x y. (y ≡ x) ⊎ HasShape y l logs) (H.view host.old) (H.view host.new) }
    ensures damaged { (folder : Folder) → (H.view host.old).files ≡ Some folder → IfErr result (OnDamage (ShowsManifestOrListed folder manifest.now.number)) }
    ensures undamaged { (folder : Folder) (l : Layout) (logs : List (List Mutation)) → (H.view host.old).files ≡ Some folder → l.used.manifest ≡ manifest.now.number → HasShape folder l logs → IfErr result (OnDamage (λ _. ⊥)) }
    ensures kept { Changes (KeepsAll (kept_under manifest.now)) (H.view host.old) (H.view host.new) }
    ensures changes { Changes AnyFolderChange (H.view host.old) (H.view host.new) }
    ensures reads { (H.view host.new).reads ≤ (H.view host.old).reads + ends_reads files.now }
    ensures causes { ReadingCauses (H.view host.old) (H.view host.new) result }
{
    let number = manifest.number();
    let listing = manifest.listing();
    check_names(names, listing, files)?;
    let time = read_ends(host, files)?;
    let keep = Keep::Store {
        number,
        floor: listing.floor,
        last: listing.last,
    };
    delete_unlisted(host, names, keep, files)?;
    Ok(time)
}

// Passes where the live segments and the files of tables are among the names, and else reports the first that is missing.
fn check_names(names: &[FileName], listing: &Listing, files: &[FileName]) -> Result<(), Damage>
    requires sorted { IsStrictlySortedBy name_cmp names.now }
    requires ordered { listing.now.floor ≤ listing.now.last }
    ensures there { OnOk result (AreNamed names.now listing.now.floor listing.now.last files.now) }
    ensures missing { IfErr result (ReportsMissingListed names.now listing.now.floor listing.now.last files.now) }
{
    check_segments(names, listing.floor, listing.last)?;
    check_files(names, files)?;
    Ok(())
}

// The last used numbers: those of the manifest and its last segment, and the largest that it lists.
fn numbers_in(manifest: &Manifest) -> Numbers
    ensures { used_numbers result ≡ used_in manifest.now.number manifest.now.listing }
{
    let listing = manifest.listing();
    Numbers {
        manifest: manifest.number(),
        log: listing.last,
        data: largest_number(listing.tables.as_slice()),
        index: listing.tables.largest_index(),
        part: largest_part(listing.tables.as_slice()),
    }
}
