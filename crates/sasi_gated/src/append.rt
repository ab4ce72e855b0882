// The four host calls of an append.
ghost use Rattle.std.specs.Prelude.{◌≡◌, ◌+◌, ◌≤◌, ◌^◌, ◌∷◌, ◌++◌, [], ℕ, List, length, OnOk, IfOk};
ghost use Rattle.sasi_host.specs.View.{DiskCauses, MakesCalls, Reaches};
ghost use Rattle.sasi_host.specs.Disk.{AnyChange, Becomes, Changes, InPlace, IsFileDurable, LeftWith, FileChange, Torn, overlay};
ghost use Rattle.sasi_gated.specs.Format.{IsBeforeOrAfter};
ghost use Rattle.sasi_gated.specs.Handles.{IsAtEnd};
ghost use Rattle.sasi_gated.specs.Reads.{AppendsRecord};

use crate::Record;
use sasi_host::{Failed, FileName, Host, write_durably};

// Appends a record at the closed gate at this offset, and gives the offset of the next one.
pub fn append_at<H: Host>(
    host: &mut H,
    file: FileName,
    at: u64,
    item: &Record,
) -> Result<u64, Failed>
    requires room { Reaches (H.view host.old) file (at + 1) }
    requires offset { at ≤ 2 ^ 62 }
    ensures ok { IfOk result (λ next. AppendsRecord (H.view host.old) (H.view host.new) file at next item.now) }
    ensures any_moment { (records : List (List ℕ)) → IsAtEnd (H.view host.old) file at records
        → Changes (FileChange file (LeftWith (IsBeforeOrAfter file records item.now))) (H.view host.old) (H.view host.new) }
    ensures changes { Changes (FileChange file AnyChange) (H.view host.old) (H.view host.new) }
    ensures offset { IfOk result (λ next. next ≡ at + (5 + length item.now)) }
    ensures fits { IfOk result (λ next. next ≤ 2 ^ 62) }
    ensures room { IfOk result (λ next. Reaches (H.view host.new) file (next + 1)) }
    ensures calls { MakesCalls 4 (H.view host.old) (H.view host.new) result }
    ensures causes { DiskCauses (H.view host.old) (H.view host.new) result }
{
    let bytes = item.bytes();
    write_record(host, file, at, bytes)?;
    open_gate(host, file, at)?;
    Ok(at + bytes.len() as u64)
}

// Writes behind the closed gate at this offset, which stays closed, and syncs.
fn write_record<H: Host>(host: &mut H, file: FileName, at: u64, bytes: &[u8]) -> Result<(), Failed>
    requires room { Reaches (H.view host.old) file (at + 1) }
    requires offset { at ≤ 2 ^ 62 }
    ensures ok { OnOk result ((old : _) → IsFileDurable (H.view host.old) file old → IsFileDurable (H.view host.new) file (overlay old (at + 1) bytes.now)) }
    ensures reads { OnOk result (Becomes file (λ old. overlay old (at + 1) bytes.now) (H.view host.old) (H.view host.new)) }
    ensures fits { OnOk result (at + 1 + length bytes.now ≤ 2 ^ 62) }
    ensures changes { Changes (FileChange file (InPlace (Torn (at + 1) (length bytes.now)))) (H.view host.old) (H.view host.new) }
    ensures calls { MakesCalls 2 (H.view host.old) (H.view host.new) result }
    ensures causes { DiskCauses (H.view host.old) (H.view host.new) result }
{
    write_durably(host, file, at + 1, bytes)
}

// Opens the gate at this offset, and syncs.
fn open_gate<H: Host>(host: &mut H, file: FileName, at: u64) -> Result<(), Failed>
    requires { Reaches (H.view host.old) file at }
    ensures ok { OnOk result ((old : _) → IsFileDurable (H.view host.old) file old → IsFileDurable (H.view host.new) file (overlay old at (1 ∷ []))) }
    ensures changes { Changes (FileChange file (InPlace (Torn at 1))) (H.view host.old) (H.view host.new) }
    ensures calls { MakesCalls 2 (H.view host.old) (H.view host.new) result }
    ensures causes { DiskCauses (H.view host.old) (H.view host.new) result }
{
    write_durably(host, file, at, &[1])
}
