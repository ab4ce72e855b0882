// A read at a gate, and where it leaves the reader.
ghost use Rattle.std.specs.Prelude.{false, ◌≡◌, ◌+◌, ◌≤◌, ◌^◌, List, ℕ, length, if◌then◌else◌, IfErr, IfOk, OnOk, Some};
ghost use Rattle.sasi_host.specs.View.{IsThere, IsTold, Reaches, contents};
ghost use Rattle.sasi_host.specs.Disk.{Changes, Same};
ghost use Rattle.sasi_host.specs.Buffered.{IsBuffered};
ghost use Rattle.sasi_host.specs.Sequential.{BeginsBy, ReadsEachOnce, ReadsNoFurther};
ghost use Rattle.sasi_gated.specs.Gates.{IsAtGate, ReadsAt};
ghost use Rattle.sasi_gated.specs.Damages.{IsGatedDamage};
ghost use Rattle.sasi_gated.specs.Causes.{ReadingCauses};
ghost use Rattle.sasi_gated.specs.Reads.{GatedDamageShown, GatedDamageShownAt, NoFalseGatedDamage, NoFalseRecordDamage, ReadsGate, ReadsRecords, HasHeader, AppendsRecord};
ghost use Rattle.sasi_host.specs.Damages.{OnDamage};
ghost use Rattle.sasi_gated.specs.Handles.{IsReading, ReadsOn};

use crate::damage::truncated;
use crate::read::read_record;
use sasi_host::{BufferedFile, Host, ReadFault};

// The most bytes that a file has.
const MAX_FILE_SIZE: u64 = 1 << 62;

// Whether a record was read, and the offset of the gate before which the reader then stands.
#[derive(Clone, Copy)]
pub struct Next {
    pub more: bool,
    pub at: u64,
}

pub fn read_next<H: Host>(
    host: &mut H,
    buffered: &mut BufferedFile,
    at: u64,
    out: &mut Vec<u8>,
) -> Result<Next, ReadFault>
    requires there { IsThere (H.view host.old) buffered.old.file }
    requires buffered { IsBuffered buffered.old (H.view host.old).files }
    requires offset { at ≤ 2 ^ 62 }
    ensures gate { IfOk result (λ next. ReadsGate (H.view host.old) buffered.old.file at next.at next.more out.new.items) }
    ensures records { IfOk result (λ next. ReadsRecords (H.view host.old) (H.view host.new) buffered.old.file at next.at next.more out.new.items) }
    ensures room { IfOk result (λ next. next.more ≡ false → Reaches (H.view host.new) buffered.old.file (next.at + 1)) }
    ensures offset { IfOk result (λ next. next.at ≡ (if next.more then at + (5 + length out.new.items) else at)) }
    ensures fits { IfOk result (λ next. next.at ≤ 2 ^ 62) }
    ensures short { OnOk result (length out.new.items ≤ 2 ^ 30) }
    ensures damaged { IfErr result (GatedDamageShownAt (H.view host.old) buffered.old.file at) }
    ensures undamaged { IfErr result (NoFalseRecordDamage (H.view host.old) buffered.old.file at) }
    ensures file { buffered.new.file ≡ buffered.old.file }
    ensures buffered { IsBuffered buffered.new (H.view host.new).files }
    ensures once { IfOk result (λ next. BeginsBy buffered.old.page at → ReadsEachOnce (H.view host.old) (H.view host.new) buffered.old.file buffered.old.page buffered.new.page next.at) }
    ensures no_further { BeginsBy buffered.old.page at → ReadsNoFurther (H.view host.old) (H.view host.new) buffered.old.file buffered.old.page at }
    ensures changes { Changes Same (H.view host.old) (H.view host.new) }
    ensures causes { ReadingCauses (H.view host.old) (H.view host.new) result }
{
    out.clear();
    if !read_record(host, buffered, at, out)? {
        return Ok(Next { more: false, at });
    }
    let next = at + 5 + out.len() as u64;
    if next > MAX_FILE_SIZE {
        return Err(ReadFault::Damaged(truncated(buffered.file(), next)));
    }
    Ok(Next {
        more: true,
        at: next,
    })
}
