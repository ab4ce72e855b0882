// Durable files, and the record that lists them.
ghost use Rattle.std.specs.Prelude.{◌≡◌, ◌+◌, ◌≤◌, ◌^◌, List, length, map, Some, IfOk, IsTrue, is_ok, OnErr, OnOk};
ghost use Rattle.std.specs.List.{AllByRecursion};
ghost use Rattle.sasi_host.specs.declared.name.FileName.{FileName};
ghost use Rattle.sasi_host.specs.Names.{Bytes, manifest_name};
ghost use Rattle.sasi_host.specs.View.{MakesCalls, ListCauses, Reaches};
ghost use Rattle.sasi_host.specs.Disk.{AnyChange, Changes, FileChange, IsFileDurable, LeftWith};
ghost use Rattle.sasi_manifest.specs.declared.listing.Listing.{Listing};
ghost use Rattle.sasi_manifest.specs.Edits.{AllApply, encoded};
ghost use Rattle.sasi_manifest.specs.Format.{IsNext};
ghost use Rattle.sasi_manifest.specs.ListedFiles.{names_of};
ghost use Rattle.sasi_manifest.specs.OpenManifest.{IsEither, ManifestStands};
ghost use Rattle.sasi_pairs.specs.SealedFiles.{AddOnly, ComesWhole};

use sasi_host::{DataNumber, Host, HostFault};
use sasi_manifest::{EditList, ListedFile, Manifest, PartNumber, PartNumbers};
use std::alloc::{AllocError, Global};
use std::marker::Model;

/// A data file and its index files, which are durable, and which a manifest is to list. Its model is what the manifest lists.
#[derive(Drop)]
pub struct Sealed {
    file: ListedFile,
}

impl Model for Sealed {
    ghost use Rattle.sasi_manifest.specs.declared.files.ListedFile.{ListedFile};

    ghost Value = { ListedFile };

    ghost view = { λ a. a.file };
}

impl Sealed {
    // The data file of this number, with the index files of copies of these parts.
    pub(crate) fn of(
        alloc: Global,
        number: DataNumber,
        parts: &[PartNumber],
    ) -> Result<Sealed, AllocError>
        ensures { IfOk result (λ sealed. sealed ≡ record { number = number; parts = parts.now }) }
    {
        let parts = copy_parts(alloc, parts)?;
        Ok(Sealed {
            file: ListedFile { number, parts },
        })
    }
}

// A copy of parts.
fn copy_parts(alloc: Global, parts: &[PartNumber]) -> Result<PartNumbers, AllocError>
    ensures { IfOk result (λ copy. copy ≡ parts.now) }
{
    let mut copy = PartNumbers::new(alloc);
    for part in parts {
        copy.push(*part)?;
    }
    Ok(copy)
}

/// Appends a record of the edits to the manifest, one of which adds the data file with its parts. After a fault the listing is
/// unchanged.
pub fn commit<H: Host>(
    sealed: Sealed,
    host: &mut H,
    manifest: &mut Manifest,
    edits: &EditList,
) -> Result<(), HostFault>
    requires adds { AddOnly sealed edits.now }
    requires room { Reaches (H.view host.old) (manifest_name manifest.old.number) (manifest.old.at + 1) }
    requires usable { IsTrue manifest.old.usable }
    requires apply { AllApply (Some manifest.old.listing) edits.now }
    requires some { 1 ≤ length edits.now }
    requires short { length (encoded edits.now) ≤ 2 ^ 30 }
    ensures ok { OnOk result (ManifestStands (H.view host.old) manifest.old.number manifest.old.at manifest.old.listing → ManifestStands (H.view host.new) manifest.old.number manifest.new.at manifest.new.listing) }
    ensures listing { OnOk result (IsNext manifest.old.listing edits.now manifest.new.listing) }
    ensures err { OnErr result (manifest.new.listing ≡ manifest.old.listing) }
    ensures any_moment { (next : Listing) → IsNext manifest.old.listing edits.now next → ManifestStands (H.view host.old) manifest.old.number manifest.old.at manifest.old.listing
        → Changes (FileChange (manifest_name manifest.old.number) (LeftWith (IsEither manifest.old.number manifest.old.listing next))) (H.view host.old) (H.view host.new) }
    ensures whole { (next : Listing) (files : List (FileName × Bytes)) → map (λ f. f.0) files ≡ names_of sealed → IsNext manifest.old.listing edits.now next → ManifestStands (H.view host.old) manifest.old.number manifest.old.at manifest.old.listing
        → AllByRecursion (λ f. IsFileDurable (H.view host.old) f.0 f.1) files → Changes (ComesWhole manifest.old.number manifest.old.listing next files) (H.view host.old) (H.view host.new) }
    ensures changes { Changes (FileChange (manifest_name manifest.old.number) AnyChange) (H.view host.old) (H.view host.new) }
    ensures room { OnOk result (Reaches (H.view host.new) (manifest_name manifest.new.number) (manifest.new.at + 1)) }
    ensures usable { manifest.new.usable ≡ is_ok result }
    ensures number { manifest.new.number ≡ manifest.old.number }
    ensures calls { MakesCalls 4 (H.view host.old) (H.view host.new) result }
    ensures causes { ListCauses (H.view host.old) (H.view host.new) result }
{
    let _ = sealed;
    manifest.append(host, edits)
}
