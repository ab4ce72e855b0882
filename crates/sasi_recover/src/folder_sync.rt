// Syncs what an opening reads.
ghost use Rattle.std.specs.Prelude.{◌≡◌, All, IfOk, OnOk};
ghost use Rattle.std.specs.List.Sorted.{IsStrictlySortedBy};
ghost use Rattle.sasi_host.specs.Names.{name_cmp};
ghost use Rattle.sasi_host.specs.View.{DiskCauses, IsThere, ListCauses};
ghost use Rattle.sasi_host.specs.Disk.{Changes, Lists, Same};
ghost use Rattle.sasi_recover.specs.Opening.{IsRecordSynced, IsFolderDurable, has_records};

use sasi_host::{Failed, FileName, Host, HostFault, Kind};
use std::alloc::Global;

/// Syncs the folder, and each manifest and each segment of the commit log in it, so that a crash keeps what is read next.
/// Gives the names of the files, in order.
pub fn sync_all<H: Host>(alloc: Global, host: &mut H) -> Result<Vec<FileName>, HostFault>
    ensures names { IfOk result (λ names. Lists (H.view host.new) names.items) }
    ensures sorted { IfOk result (λ names. IsStrictlySortedBy name_cmp names.items) }
    ensures folder_durable { OnOk result (IsFolderDurable (H.view host.new)) }
    ensures changes { Changes Same (H.view host.old) (H.view host.new) }
    ensures causes { ListCauses (H.view host.old) (H.view host.new) result }
{
    host.sync_folder()?;
    let names = host.list(alloc)?;
    sync_records(host, names.as_slice())?;
    Ok(names)
}

// Syncs each manifest and each segment of the commit log among these names.
fn sync_records<H: Host>(host: &mut H, names: &[FileName]) -> Result<(), Failed>
    requires { All (IsThere (H.view host.old)) names.now }
    ensures synced { OnOk result (All (IsRecordSynced (H.view host.new)) names.now) }
    ensures changes { Changes Same (H.view host.old) (H.view host.new) }
    ensures causes { DiskCauses (H.view host.old) (H.view host.new) result }
{
    for name in names {
        sync_record(host, *name)?;
    }
    Ok(())
}

// Syncs the file, if it is a manifest or a segment of the commit log.
fn sync_record<H: Host>(host: &mut H, name: FileName) -> Result<(), Failed>
    requires { IsThere (H.view host.old) name }
    ensures synced { OnOk result (IsRecordSynced (H.view host.new) name) }
    ensures changes { Changes Same (H.view host.old) (H.view host.new) }
    ensures causes { DiskCauses (H.view host.old) (H.view host.new) result }
{
    if has_records(name.kind) {
        return host.sync(name);
    }
    Ok(())
}

// Whether an opening reads records from files of this kind.
fn has_records(kind: Kind) -> bool
    ensures { result ≡ has_records kind }
{
    matches!(kind, Kind::Manifest | Kind::Log)
}
