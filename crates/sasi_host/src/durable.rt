// Writes that are durable when they return.
ghost use Rattle.std.specs.Prelude.{◌≡◌, ◌+◌, ◌≤◌, ◌^◌, length, OnOk};
ghost use Rattle.sasi_host.specs.View.{IsAbsent, Holds, Reaches, DiskCauses, MakesCalls};
ghost use Rattle.sasi_host.specs.Disk.{Changes, FileChange, InPlace, Torn, AnyChange, Becomes, overlay, IsFileDurable, IsSynced};

use crate::{Failed, FileName, Host};

/// Writes and syncs a file. Where it was durable, it is durable with these bytes written over it.
pub fn write_durably<H: Host>(
    host: &mut H,
    file: FileName,
    at: u64,
    bytes: &[u8],
) -> Result<(), Failed>
    requires { Reaches (H.view host.old) file at }
    ensures ok { OnOk result ((old : _) → IsFileDurable (H.view host.old) file old → IsFileDurable (H.view host.new) file (overlay old at bytes.now)) }
    ensures reads { OnOk result (Becomes file (λ old. overlay old at bytes.now) (H.view host.old) (H.view host.new)) }
    ensures synced { OnOk result (IsSynced (H.view host.new) file) }
    ensures fits { OnOk result (at + length bytes.now ≤ 2 ^ 62) }
    ensures changes { Changes (FileChange file (InPlace (Torn at (length bytes.now)))) (H.view host.old) (H.view host.new) }
    ensures calls { MakesCalls 2 (H.view host.old) (H.view host.new) result }
    ensures causes { DiskCauses (H.view host.old) (H.view host.new) result }
{
    host.write(file, at, bytes)?;
    host.sync(file)
}

/// Makes a file of these bytes, and syncs it and the folder. Then it is durable.
pub fn make_file<H: Host>(host: &mut H, file: FileName, bytes: &[u8]) -> Result<(), Failed>
    requires { IsAbsent (H.view host.old) file }
    ensures ok { OnOk result (IsFileDurable (H.view host.new) file bytes.now) }
    ensures reads { OnOk result (Holds (H.view host.new) file bytes.now) }
    ensures fits { OnOk result (length bytes.now ≤ 2 ^ 62) }
    ensures changes { Changes (FileChange file AnyChange) (H.view host.old) (H.view host.new) }
    ensures calls { MakesCalls 4 (H.view host.old) (H.view host.new) result }
    ensures causes { DiskCauses (H.view host.old) (H.view host.new) result }
{
    host.create(file)?;
    write_durably(host, file, 0, bytes)?;
    host.sync_folder()
}
