// The key tree and the footer, behind the partitions.
ghost use Rattle.std.specs.Prelude.{◌≡◌, ◌++◌, length, OnOk};
ghost use Rattle.sasi_host.specs.Names.{Bytes};
ghost use Rattle.sasi_host.specs.View.{Holds, IsThere, ListCauses, Reaches};
ghost use Rattle.sasi_host.specs.Disk.{AnyChange, Changes, IsSynced, FileChange};
ghost use Rattle.sasi_tokentree.specs.Format.{IsRising};
ghost use Rattle.sasi_datawrite.specs.Format.{trailer};

use crate::footer::{Footer, footer_bytes};
use sasi_host::{FileName, Host, HostFault, write_durably};
use sasi_tokentree::write;
use sasi_types::PairList;
use std::alloc::Global;

/// Writes the key tree where the partitions end, and the footer, and syncs the file.
pub fn write_trailer<H: Host>(
    alloc: Global,
    host: &mut H,
    file: FileName,
    end: u64,
    pairs: &PairList,
    max_timestamp: u64,
) -> Result<(), HostFault>
    requires rising { IsRising pairs.now }
    requires room { Reaches (H.view host.old) file end }
    ensures ok { OnOk result ((bytes : Bytes) → length bytes ≡ end → Holds (H.view host.old) file bytes → Holds (H.view host.new) file (bytes ++ trailer pairs.now max_timestamp end)) }
    ensures synced { OnOk result (IsSynced (H.view host.new) file) }
    ensures changes { Changes (FileChange file AnyChange) (H.view host.old) (H.view host.new) }
    ensures causes { ListCauses (H.view host.old) (H.view host.new) result }
{
    let tree = write(alloc, host, file, end, pairs)?;
    let footer = Footer {
        tree,
        max_timestamp,
        end,
    };
    let bytes = footer_bytes(alloc, footer)?;
    append(host, file, &bytes)
}

// Writes at the end of the file, and syncs it.
fn append<H: Host>(host: &mut H, file: FileName, more: &[u8]) -> Result<(), HostFault>
    requires { IsThere (H.view host.old) file }
    ensures ok { OnOk result ((bytes : Bytes) → Holds (H.view host.old) file bytes → Holds (H.view host.new) file (bytes ++ more.now)) }
    ensures synced { OnOk result (IsSynced (H.view host.new) file) }
    ensures changes { Changes (FileChange file AnyChange) (H.view host.old) (H.view host.new) }
    ensures causes { ListCauses (H.view host.old) (H.view host.new) result }
{
    let at = host.size(file)?;
    write_durably(host, file, at, more)?;
    Ok(())
}
