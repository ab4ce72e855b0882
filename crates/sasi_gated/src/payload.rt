// Reads of a payload, page by page.
ghost use Rattle.std.specs.Prelude.{◌≡◌, ◌+◌, ◌<◌, ◌≤◌, ◌^◌, ◌++◌, [], List, ℕ, length, take, drop, IfErr, IfOk, OnOk};
ghost use Rattle.sasi_host.specs.View.{IsThere, contents};
ghost use Rattle.sasi_host.specs.Disk.{Changes, Same};
ghost use Rattle.sasi_host.specs.Buffered.{IsBuffered};
ghost use Rattle.sasi_host.specs.Sequential.{BeginsBy, ReachesTo, ReadsEachOnce, ReadsNoFurther};
ghost use Rattle.sasi_host.specs.Damages.{OnDamage};
ghost use Rattle.sasi_gated.specs.Damages.{TellsSize};
ghost use Rattle.sasi_gated.specs.Causes.{ReadingCauses};

use crate::damage::truncated;
use sasi_host::{BufferedFile, Direct, Host, ReadFault};

// Appends at most so many bytes of the file from this offset on, those of one page, and gives how many there were.
fn read_part<H: Host>(
    host: &mut H,
    buffered: &mut BufferedFile,
    at: u64,
    want: usize,
    out: &mut Vec<u8>,
) -> Result<usize, ReadFault>
    requires there { IsThere (H.view host.old) buffered.old.file }
    requires buffered { IsBuffered buffered.old (H.view host.old).files }
    requires some { 0 < want }
    ensures ok { IfOk result (λ count. (bytes : List ℕ) → contents (H.view host.old) buffered.old.file ≡ Some bytes → out.new.items ≡ out.old.items ++ take count (drop at bytes)) }
    ensures len { IfOk result (λ count. length out.new.items ≡ length out.old.items + count) }
    ensures some { IfOk result (λ count. 0 < count) }
    ensures most { IfOk result (λ count. count ≤ want) }
    ensures within { IfOk result (λ count. ReachesTo (H.view host.old) buffered.old.file (at + count)) }
    ensures damaged { IfErr result (OnDamage (λ damage. (bytes : List ℕ) → contents (H.view host.old) buffered.old.file ≡ Some bytes → at ≤ length bytes
        → TellsSize buffered.old.file bytes damage × (length bytes ≡ at))) }
    ensures file { buffered.new.file ≡ buffered.old.file }
    ensures buffered { IsBuffered buffered.new (H.view host.new).files }
    ensures once { IfOk result (λ count. BeginsBy buffered.old.page at → ReadsEachOnce (H.view host.old) (H.view host.new) buffered.old.file buffered.old.page buffered.new.page (at + count)) }
    ensures no_further { BeginsBy buffered.old.page at → ReadsNoFurther (H.view host.old) (H.view host.new) buffered.old.file buffered.old.page at }
    ensures changes { Changes Same (H.view host.old) (H.view host.new) }
    ensures causes { ReadingCauses (H.view host.old) (H.view host.new) result }
{
    buffered.load_page(host, &mut Direct, at / 4096)?;
    let part = buffered.bytes_from((at % 4096) as usize);
    let count = part.len().min(want);
    if count == 0 {
        return Err(ReadFault::Damaged(truncated(buffered.file(), at)));
    }
    out.extend_from_slice(&part[..count])?;
    Ok(count)
}

// Reads so many bytes of the file from this offset on. No memory is taken for bytes that aren't there.
pub fn read_payload<H: Host>(
    host: &mut H,
    buffered: &mut BufferedFile,
    at: u64,
    count: usize,
    out: &mut Vec<u8>,
) -> Result<(), ReadFault>
    requires there { IsThere (H.view host.old) buffered.old.file }
    requires buffered { IsBuffered buffered.old (H.view host.old).files }
    requires offset { at ≤ 2 ^ 62 + 5 }
    requires count { count ≤ 2 ^ 30 }
    requires empty { out.old.items ≡ [] }
    ensures ok { OnOk result ((bytes : List ℕ) → contents (H.view host.old) buffered.old.file ≡ Some bytes → out.new.items ≡ take count (drop at bytes)) }
    ensures len { OnOk result (length out.new.items ≡ count) }
    ensures damaged { IfErr result (OnDamage (λ damage. (bytes : List ℕ) → contents (H.view host.old) buffered.old.file ≡ Some bytes → at ≤ length bytes
        → TellsSize buffered.old.file bytes damage × (length (drop at bytes) < count))) }
    ensures file { buffered.new.file ≡ buffered.old.file }
    ensures buffered { IsBuffered buffered.new (H.view host.new).files }
    ensures once { OnOk result (BeginsBy buffered.old.page at → ReachesTo (H.view host.old) buffered.old.file at
        → ReadsEachOnce (H.view host.old) (H.view host.new) buffered.old.file buffered.old.page buffered.new.page (at + count)) }
    ensures no_further { BeginsBy buffered.old.page at → ReadsNoFurther (H.view host.old) (H.view host.new) buffered.old.file buffered.old.page at }
    ensures changes { Changes Same (H.view host.old) (H.view host.new) }
    ensures causes { ReadingCauses (H.view host.old) (H.view host.new) result }
{
    let mut done = 0;
    while done < count {
        done += read_part(host, buffered, at + done as u64, count - done, out)?;
    }
    Ok(())
}
