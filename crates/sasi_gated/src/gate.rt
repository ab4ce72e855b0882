// What stands at a gate: whether it is open, and the length behind an open one.
ghost use Rattle.std.specs.Prelude.{◌≡◌, ◌+◌, ◌<◌, ◌≤◌, ◌^◌, ◌++◌, List, ℕ, drop, IfErr, IfOk, OnOk};
ghost use Rattle.std.specs.Int.{to_be_bytes, w32};
ghost use Rattle.sasi_host.specs.View.{IsThere, contents};
ghost use Rattle.sasi_host.specs.Disk.{Changes, Same};
ghost use Rattle.sasi_host.specs.Buffered.{IsBuffered};
ghost use Rattle.sasi_host.specs.Sequential.{BeginsBy, ReadsEachOnce, ReadsNoFurther};
ghost use Rattle.sasi_host.specs.Damages.{DamageShown, ShowsEnd};
ghost use Rattle.sasi_gated.specs.Format.{IsLength};
ghost use Rattle.sasi_gated.specs.AtGate.{HasGate, ShowsLength};
ghost use Rattle.sasi_gated.specs.Causes.{ReadingCauses};

use sasi_host::{BufferedFile, Direct, FormatRule, Host, ReadFault, found};

// The longest record.
const MAX_PAYLOAD: u32 = 1 << 30;

// Whether the gate at this offset is open.
pub fn read_gate<H: Host>(
    host: &mut H,
    buffered: &mut BufferedFile,
    at: u64,
) -> Result<bool, ReadFault>
    requires there { IsThere (H.view host.old) buffered.old.file }
    requires buffered { IsBuffered buffered.old (H.view host.old).files }
    requires offset { at ≤ 2 ^ 62 }
    ensures ok { IfOk result (λ is_open. (bytes : List ℕ) → contents (H.view host.old) buffered.old.file ≡ Some bytes → HasGate is_open (drop at bytes) (drop (at + 1) bytes)) }
    ensures damaged { IfErr result (DamageShown (H.view host.old) buffered.old.file (ShowsEnd (at + 1) buffered.old.file)) }
    ensures file { buffered.new.file ≡ buffered.old.file }
    ensures buffered { IsBuffered buffered.new (H.view host.new).files }
    ensures begins { OnOk result (BeginsBy buffered.new.page at) }
    ensures once { OnOk result (BeginsBy buffered.old.page at → ReadsEachOnce (H.view host.old) (H.view host.new) buffered.old.file buffered.old.page buffered.new.page (at + 1)) }
    ensures no_further { BeginsBy buffered.old.page at → ReadsNoFurther (H.view host.old) (H.view host.new) buffered.old.file buffered.old.page at }
    ensures changes { Changes Same (H.view host.old) (H.view host.new) }
    ensures causes { ReadingCauses (H.view host.old) (H.view host.new) result }
{
    let mut gate = [0; 1];
    buffered.read_into(host, &mut Direct, at, &mut gate)?;
    Ok(gate[0] != 0)
}

// The length that stands at this offset, behind an open gate.
pub fn read_length<H: Host>(
    host: &mut H,
    buffered: &mut BufferedFile,
    at: u64,
) -> Result<u32, ReadFault>
    requires there { IsThere (H.view host.old) buffered.old.file }
    requires buffered { IsBuffered buffered.old (H.view host.old).files }
    requires offset { at ≤ 2 ^ 62 + 1 }
    ensures ok { IfOk result (λ count. (bytes : List ℕ) → contents (H.view host.old) buffered.old.file ≡ Some bytes → drop at bytes ≡ to_be_bytes w32 count ++ drop (at + 4) bytes) }
    ensures length { IfOk result IsLength }
    ensures damaged { IfErr result (DamageShown (H.view host.old) buffered.old.file (ShowsLength at buffered.old.file)) }
    ensures file { buffered.new.file ≡ buffered.old.file }
    ensures buffered { IsBuffered buffered.new (H.view host.new).files }
    ensures once { OnOk result (BeginsBy buffered.old.page at → ReadsEachOnce (H.view host.old) (H.view host.new) buffered.old.file buffered.old.page buffered.new.page (at + 4)) }
    ensures no_further { BeginsBy buffered.old.page at → ReadsNoFurther (H.view host.old) (H.view host.new) buffered.old.file buffered.old.page at }
    ensures changes { Changes Same (H.view host.old) (H.view host.new) }
    ensures causes { ReadingCauses (H.view host.old) (H.view host.new) result }
{
    let mut bytes = [0; 4];
    buffered.read_into(host, &mut Direct, at, &mut bytes)?;
    let length = number(&bytes);
    if length == 0 || length > MAX_PAYLOAD {
        let damage = found(buffered.file(), at, FormatRule::Number, &bytes);
        return Err(ReadFault::Damaged(damage));
    }
    Ok(length)
}

// The number that these bytes hold.
fn number(bytes: &[u8; 4]) -> u32
    ensures { to_be_bytes w32 result ≡ bytes.now }
{
    u32::from_be_bytes(*bytes)
}
