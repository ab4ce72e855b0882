// Deletes segments of the commit log that no table needs any more.
ghost use Rattle.std.specs.Prelude.{OnOk};
ghost use Rattle.sasi_host.specs.View.{DiskCauses};
ghost use Rattle.sasi_host.specs.Disk.{Changes, IsFolderSynced};
ghost use Rattle.sasi_tables.specs.Flushing.{AreAbsent, AreThere, DeletesSegments};

use sasi_host::{Failed, FileName, Host, SegmentNumber};

/// Deletes the segments from `first` up to before `floor`, and syncs the folder.
pub fn delete_segments<H: Host>(
    host: &mut H,
    first: SegmentNumber,
    floor: SegmentNumber,
) -> Result<(), Failed>
    requires { AreThere (H.view host.old) first floor }
    ensures gone { OnOk result (AreAbsent (H.view host.new) first floor) }
    ensures synced { OnOk result (IsFolderSynced (H.view host.new)) }
    ensures changes { Changes (DeletesSegments first floor) (H.view host.old) (H.view host.new) }
    ensures causes { DiskCauses (H.view host.old) (H.view host.new) result }
{
    for segment in first..floor {
        host.delete(FileName::log(segment))?;
    }
    host.sync_folder()
}
