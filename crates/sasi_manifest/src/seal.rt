// The seal of a manifest.
ghost use Rattle.std.specs.Prelude.{◌≡◌, [], OnOk};
ghost use Rattle.sasi_host.specs.View.{MakesCalls, DiskCauses, Holds, IsAbsent};
ghost use Rattle.sasi_host.specs.Disk.{Changes, IsFileDurable, MaybeCreated, FileChange};
ghost use Rattle.sasi_host.specs.Names.{seal_name};
ghost use Rattle.sasi_manifest.specs.OpenManifest.{IsUnsealed};

use sasi_host::{Failed, FileName, Host, ManifestNumber};

/// Creates the seal, and syncs the folder.
pub fn make_seal<H: Host>(host: &mut H, number: ManifestNumber) -> Result<(), Failed>
    requires { IsAbsent (H.view host.old) (seal_name number) }
    ensures kept { OnOk result (IsUnsealed (H.view host.old) number → IsFileDurable (H.view host.new) (seal_name number) []) }
    ensures reads { OnOk result (Holds (H.view host.new) (seal_name number) []) }
    ensures changes { Changes (FileChange (seal_name number) MaybeCreated) (H.view host.old) (H.view host.new) }
    ensures calls { MakesCalls 2 (H.view host.old) (H.view host.new) result }
    ensures causes { DiskCauses (H.view host.old) (H.view host.new) result }
{
    host.create(FileName::seal(number))?;
    host.sync_folder()
}
