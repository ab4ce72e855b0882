// A file that ends too early.
ghost use Rattle.std.specs.Prelude.{◌≡◌, ◌≢◌, ◌≤◌};
ghost use Rattle.sasi_host.specs.declared.damage.Damage.{Damage};
ghost use Rattle.sasi_host.specs.declared.fault.ReadFault.TheVariants as fault;
ghost use Rattle.sasi_host.specs.View.{FailedAtLast, IsThere, KeepsMoments};
ghost use Rattle.sasi_host.specs.Disk.{Changes, Same};
ghost use Rattle.sasi_host.specs.Damages.{DamageShown, TellsSize};

use crate::{FileName, FormatRule, Host, ReadFault, found};

/// The error of a file that ends too early. It asks for the file's size, which doesn't count as a read.
pub fn unexpected_end<H: Host>(host: &mut H, file: FileName) -> ReadFault
    requires { IsThere (H.view host.old) file }
    ensures damaged { DamageShown (H.view host.old) file (TellsSize file) result }
    ensures changes { Changes Same (H.view host.old) (H.view host.new) }
    ensures moments { KeepsMoments (H.view host.old) (H.view host.new) }
    ensures disk { (H.view host.old).disk_faults ≤ (H.view host.new).disk_faults }
    ensures out { (H.view host.new).out_faults ≡ (H.view host.old).out_faults }
    ensures reads { (H.view host.new).reads ≡ (H.view host.old).reads }
    ensures failed { result ≡ fault.Failed → FailedAtLast (H.view host.old).disk_faults (H.view host.new).disk_faults (H.view host.new).failed_last }
    ensures memory { result ≢ fault.OutOfMemory }
    ensures told { (damage : Damage) → result ≡ fault.Damaged damage → (H.view host.new).disk_faults ≡ (H.view host.old).disk_faults }
{
    match host.size(file) {
        Err(_) => ReadFault::Failed,
        Ok(size) => ReadFault::Damaged(found(file, size, FormatRule::Short, &size.to_be_bytes())),
    }
}
