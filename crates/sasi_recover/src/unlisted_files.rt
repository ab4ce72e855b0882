// Deletes the files that a store doesn't list.
ghost use Rattle.std.specs.Prelude.{◌≡◌, OnOk, false};
ghost use Rattle.std.specs.List.Sorted.{IsSorted, IsStrictlySortedBy};
ghost use Rattle.sasi_host.specs.declared.name.FileName.{FileName as AName};
ghost use Rattle.sasi_host.specs.Names.{name_cmp, log_name, manifest_name};
ghost use Rattle.sasi_host.specs.View.{DiskCauses, IsAbsent, IsThere};
ghost use Rattle.sasi_host.specs.Disk.{Changes, Lists, FileChange};
ghost use Rattle.sasi_layout.specs.Kept.{has_segment};
ghost use Rattle.sasi_recover.specs.Deletion.{DeletedUnless, Deletes, keeps};

use crate::names::is_among;
use sasi_host::{Failed, FileName, Host, ManifestNumber, SegmentNumber};

/// The files of a folder that are kept. The others are deleted.
#[derive(Clone, Copy)]
pub enum Keep {
    Nothing,
    /// The manifest of this number, its seal, the segments of the commit log from `floor` to `last`, and the listed files.
    Store {
        number: ManifestNumber,
        floor: SegmentNumber,
        last: SegmentNumber,
    },
}

/// Deletes each file that isn't kept; `files` are the names of the listed files, in order. A crash leaves none of the others once
/// the folder is synced.
pub fn delete_unlisted<H: Host>(
    host: &mut H,
    names: &[FileName],
    keep: Keep,
    files: &[FileName],
) -> Result<(), Failed>
    requires lists { Lists (H.view host.old) names.now }
    requires sorted { IsStrictlySortedBy name_cmp names.now }
    requires files { IsSorted name_cmp files.now }
    ensures gone { OnOk result ((name : AName) → keeps keep files.now name ≡ false → IsAbsent (H.view host.new) name) }
    ensures changes { Changes (Deletes (keeps keep files.now)) (H.view host.old) (H.view host.new) }
    ensures causes { DiskCauses (H.view host.old) (H.view host.new) result }
{
    for name in names {
        delete_unless_kept(host, *name, keep, files)?;
    }
    Ok(())
}

// Deletes the file, unless it is kept.
fn delete_unless_kept<H: Host>(
    host: &mut H,
    name: FileName,
    keep: Keep,
    files: &[FileName],
) -> Result<(), Failed>
    requires there { IsThere (H.view host.old) name }
    requires files { IsSorted name_cmp files.now }
    ensures gone { OnOk result (keeps keep files.now name ≡ false → IsAbsent (H.view host.new) name) }
    ensures changes { Changes (FileChange name (DeletedUnless (keeps keep files.now name))) (H.view host.old) (H.view host.new) }
    ensures causes { DiskCauses (H.view host.old) (H.view host.new) result }
{
    if is_kept(keep, name, files) {
        return Ok(());
    }
    host.delete(name)
}

fn is_kept(keep: Keep, name: FileName, files: &[FileName]) -> bool
    requires { IsSorted name_cmp files.now }
    ensures { result ≡ keeps keep files.now name }
{
    match keep {
        Keep::Nothing => false,
        Keep::Store {
            number,
            floor,
            last,
        } => {
            name == FileName::manifest(number)
                || name == FileName::seal(number)
                || is_segment(name, floor, last)
                || is_among(files, name)
        }
    }
}

// Whether it is a segment of the commit log with a number from `floor` to `last`.
fn is_segment(name: FileName, floor: SegmentNumber, last: SegmentNumber) -> bool
    ensures { result ≡ has_segment floor last name }
{
    name == FileName::log(name.number) && (floor <= name.number && name.number <= last)
}
