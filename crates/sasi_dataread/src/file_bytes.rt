// Reads bytes of a file.
ghost use Rattle.std.specs.Prelude.{◌≡◌, ◌+◌, ◌-◌, ◌/◌, ◌^◌, ◌<◌, ◌≤◌, List, ℕ, length, take, drop, IfErr, IfOk, OnOk, Some};
ghost use Rattle.sasi_host.specs.View.{ReadCost, contents};
ghost use Rattle.sasi_host.specs.Damages.{DamageShown, ShowsEnd};
ghost use Rattle.sasi_host.specs.Buffered.{unbuffered_pages};
ghost use Rattle.sasi_host.specs.PageReading.{CanReadOn, HasReadOn};

use sasi_host::{BufferedFile, Host, PageReader, ReadFault};
use std::alloc::Global;

/// Reads `count` bytes at this offset of the file.
pub fn read_bytes<H: Host, P: PageReader>(
    alloc: Global,
    host: &mut H,
    pages: &mut P,
    buffered: &mut BufferedFile,
    at: u64,
    count: usize,
) -> Result<Vec<u8>, ReadFault>
    requires read { CanReadOn (P.agrees pages.old) (H.view host.old) buffered.old }
    requires some { 0 < count }
    requires place { at + count < 2 ^ 64 }
    ensures ok { IfOk result (λ run. (bytes : List ℕ) → contents (H.view host.old) buffered.old.file ≡ Some bytes → run.items ≡ take count (drop at bytes)) }
    ensures count { IfOk result (λ run. length run.items ≡ count) }
    ensures within { OnOk result ((bytes : List ℕ) → contents (H.view host.old) buffered.old.file ≡ Some bytes → at + count ≤ length bytes) }
    ensures damaged { IfErr result (DamageShown (H.view host.old) buffered.old.file (ShowsEnd (at + count) buffered.old.file)) }
    ensures read { HasReadOn (P.agrees pages.new) (P.covers pages.old) (P.covers pages.new) (H.view host.old) (H.view host.new) buffered.old buffered.new }
    ensures page { OnOk result (buffered.new.page ≡ Some ((at + count - 1) / 4096)) }
    ensures causes { ReadCost (unbuffered_pages buffered.old.page at count) (H.view host.old) (H.view host.new) result }
{
    let mut out = vec![in alloc; 0; count]?;
    buffered.read_into(host, pages, at, &mut out)?;
    Ok(out)
}
