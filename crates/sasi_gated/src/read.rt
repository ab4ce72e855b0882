// Reads of a gated file on a host.
ghost use Rattle.std.specs.Prelude.{true, false, ◌≡◌, ◌+◌, ◌<◌, ◌≤◌, ◌^◌, ◌++◌, [], List, ℕ, length, IfErr, IfOk, OnOk, Some};
ghost use Rattle.sasi_host.specs.View.{IsThere, contents};
ghost use Rattle.sasi_host.specs.Disk.{Changes, Same};
ghost use Rattle.sasi_host.specs.Buffered.{IsBuffered};
ghost use Rattle.sasi_host.specs.Sequential.{BeginsBy, ReadsEachOnce, ReadsNoFurther};
ghost use Rattle.sasi_gated.specs.Format.{header};
ghost use Rattle.sasi_gated.specs.Gates.{ReadsFrom, IsAtGate};
ghost use Rattle.sasi_gated.specs.Causes.{ReadingCauses};
ghost use Rattle.sasi_gated.specs.Reads.{GatedDamageShown, GatedDamageShownAt};

use crate::gate::{read_gate, read_length};
use crate::header::check_page;
use crate::payload::read_payload;
use sasi_host::{BufferedFile, Direct, Host, ReadFault};

// Reads the header, which has to be that of this file.
pub fn read_header<H: Host>(host: &mut H, buffered: &mut BufferedFile) -> Result<(), ReadFault>
    requires there { IsThere (H.view host.old) buffered.old.file }
    requires buffered { IsBuffered buffered.old (H.view host.old).files }
    ensures ok { OnOk result ((bytes : _) → contents (H.view host.old) buffered.old.file ≡ Some bytes → (rest : List ℕ) × (bytes ≡ header buffered.old.file ++ rest)) }
    ensures damaged { IfErr result (GatedDamageShown (H.view host.old) buffered.old.file) }
    ensures file { buffered.new.file ≡ buffered.old.file }
    ensures buffered { IsBuffered buffered.new (H.view host.new).files }
    ensures page { OnOk result (buffered.new.page ≡ Some 0) }
    ensures reads { (H.view host.new).reads ≤ (H.view host.old).reads + 1 }
    ensures changes { Changes Same (H.view host.old) (H.view host.new) }
    ensures causes { ReadingCauses (H.view host.old) (H.view host.new) result }
{
    buffered.load_page(host, &mut Direct, 0)?;
    check_page(buffered.file(), buffered.bytes_from(0))?;
    Ok(())
}

// Reads at the gate at this offset: true with the record behind it, or false where it is closed.
pub fn read_record<H: Host>(
    host: &mut H,
    buffered: &mut BufferedFile,
    at: u64,
    out: &mut Vec<u8>,
) -> Result<bool, ReadFault>
    requires there { IsThere (H.view host.old) buffered.old.file }
    requires buffered { IsBuffered buffered.old (H.view host.old).files }
    requires offset { at ≤ 2 ^ 62 }
    requires empty { out.old.items ≡ [] }
    ensures ok { IfOk result (λ more. (bytes : List ℕ) (done : List (List ℕ)) (rest : List ℕ) → contents (H.view host.old) buffered.old.file ≡ Some bytes → IsAtGate buffered.old.file bytes at done rest
        → ReadsFrom more rest out.new.items) }
    ensures short { OnOk result (length out.new.items ≤ 2 ^ 30) }
    ensures within { OnOk result ((bytes : List ℕ) → contents (H.view host.old) buffered.old.file ≡ Some bytes → at < length bytes) }
    ensures damaged { IfErr result (GatedDamageShownAt (H.view host.old) buffered.old.file at) }
    ensures file { buffered.new.file ≡ buffered.old.file }
    ensures buffered { IsBuffered buffered.new (H.view host.new).files }
    ensures closed { IfOk result (λ more. more ≡ false → BeginsBy buffered.old.page at → ReadsEachOnce (H.view host.old) (H.view host.new) buffered.old.file buffered.old.page buffered.new.page at) }
    ensures opened { IfOk result (λ more. more ≡ true → BeginsBy buffered.old.page at
        → ReadsEachOnce (H.view host.old) (H.view host.new) buffered.old.file buffered.old.page buffered.new.page (at + 5 + length out.new.items)) }
    ensures no_further { BeginsBy buffered.old.page at → ReadsNoFurther (H.view host.old) (H.view host.new) buffered.old.file buffered.old.page at }
    ensures changes { Changes Same (H.view host.old) (H.view host.new) }
    ensures causes { ReadingCauses (H.view host.old) (H.view host.new) result }
{
    if !read_gate(host, buffered, at)? {
        return Ok(false);
    }
    let length = read_length(host, buffered, at + 1)?;
    read_payload(host, buffered, at + 5, length as usize, out)?;
    Ok(true)
}
