// A file read through a buffer of one page.
ghost use Rattle.std.specs.Prelude.{◌≡◌, ◌⊎◌, ◌+◌, ◌-◌, ◌*◌, ◌/◌, ◌%◌, ◌^◌, ◌<◌, ◌≤◌, List, ℕ, [], length, take, drop, IfErr, IfSome, IfNone, OnOk, Some, None};
ghost use Rattle.sasi_host.specs.declared.name.FileName.{FileName};
ghost use Rattle.sasi_host.specs.View.{IsThere, contents, PageCauses, ReadCost};
ghost use Rattle.sasi_host.specs.Disk.{Changes, Same};
ghost use Rattle.sasi_host.specs.Damages.{DamageShown, ShowsEnd};
ghost use Rattle.sasi_host.specs.Buffered.{IsBuffered, unbuffered_pages};
ghost use Rattle.sasi_host.specs.Sequential.{BeginsBy, ReadsNoFurther};

use crate::{FileName, Host, HostFault, PageReader, ReadFault, unexpected_end};
use std::marker::Model;

const PAGE: u64 = 4096;

/// A buffered file: it keeps the page that was read last. A sequential scan reads each page once.
#[derive(Drop)]
pub struct BufferedFile {
    file: FileName,
    page: Option<u64>,
    filled: usize,
    bytes: [u8; 4096],
}

impl Model for BufferedFile {
    ghost use Rattle.std.specs.Prelude.{◌≤◌, take};
    ghost use Rattle.sasi_host.specs.Buffered.{Buffered};

    ghost Value = { Buffered };

    ghost view = { λ h. record { file = h.file; page = h.page; bytes = take h.filled h.bytes } };

    ghost invariant = { λ h. h.filled ≤ 4096 };
}

impl BufferedFile {
    /// A buffered file with an empty buffer.
    pub fn new(file: FileName) -> BufferedFile
        ensures { result ≡ record { file = file; page = None; bytes = [] } }
    {
        BufferedFile {
            file,
            page: None,
            filled: 0,
            bytes: [0; 4096],
        }
    }

    /// The name of the file.
    pub fn file(&self) -> FileName
        ensures { result ≡ self.now.file }
    {
        self.file
    }

    /// Empties the buffer, as before the file is written.
    pub fn forget(&mut self)
        ensures { self.new ≡ record { file = self.old.file; page = None; bytes = [] } }
    {
        self.page = None;
        self.filled = 0;
    }

    /// Fills `out` with the file's bytes from this offset on.
    pub fn read_into<H: Host, P: PageReader>(
        &mut self,
        host: &mut H,
        pages: &mut P,
        at: u64,
        out: &mut [u8],
    ) -> Result<(), ReadFault>
        requires there { IsThere (H.view host.old) self.old.file }
        requires agrees { P.agrees pages.old (H.view host.old).files }
        requires buffered { IsBuffered self.old (H.view host.old).files }
        requires offset { at + length out.old < 2 ^ 64 }
        ensures ok { OnOk result ((bytes : List ℕ) → contents (H.view host.old) self.old.file ≡ Some bytes → out.new ≡ take (length out.old) (drop at bytes)) }
        ensures within { OnOk result ((bytes : List ℕ) → contents (H.view host.old) self.old.file ≡ Some bytes → 0 < length out.old → at + length out.old ≤ length bytes) }
        ensures damaged { IfErr result (DamageShown (H.view host.old) self.old.file (ShowsEnd (at + length out.old) self.old.file)) }
        ensures file { self.new.file ≡ self.old.file }
        ensures buffered { IsBuffered self.new (H.view host.new).files }
        ensures page { OnOk result (0 < length out.old → self.new.page ≡ Some ((at + length out.old - 1) / 4096)) }
        ensures agrees { P.agrees pages.new (H.view host.new).files }
        ensures covers { (name : FileName) → P.covers pages.new name → P.covers pages.old name ⊎ (name ≡ self.old.file) }
        ensures changes { Changes Same (H.view host.old) (H.view host.new) }
        ensures causes { ReadCost (unbuffered_pages self.old.page at (length out.old)) (H.view host.old) (H.view host.new) result }
        // A sequential reader reads no page beyond the end of the file.
        ensures no_further { BeginsBy self.old.page at → ReadsNoFurther (H.view host.old) (H.view host.new) self.old.file self.old.page at }
    {
        let mut filled = 0;
        while filled < out.len() {
            let here = at + filled as u64;
            let room = (PAGE - here % PAGE) as usize;
            let part = room.min(out.len() - filled);
            self.read_part(host, pages, here, &mut out[filled..filled + part])?;
            filled += part;
        }
        Ok(())
    }

    // Fills `out` with bytes that lie on one page.
    fn read_part<H: Host, P: PageReader>(
        &mut self,
        host: &mut H,
        pages: &mut P,
        at: u64,
        out: &mut [u8],
    ) -> Result<(), ReadFault>
        requires there { IsThere (H.view host.old) self.old.file }
        requires agrees { P.agrees pages.old (H.view host.old).files }
        requires buffered { IsBuffered self.old (H.view host.old).files }
        requires some { 0 < length out.old }
        requires one_page { at % 4096 + length out.old ≤ 4096 }
        ensures ok { OnOk result ((bytes : List ℕ) → contents (H.view host.old) self.old.file ≡ Some bytes → out.new ≡ take (length out.old) (drop at bytes)) }
        ensures within { OnOk result ((bytes : List ℕ) → contents (H.view host.old) self.old.file ≡ Some bytes → at + length out.old ≤ length bytes) }
        ensures damaged { IfErr result (DamageShown (H.view host.old) self.old.file (ShowsEnd (at + length out.old) self.old.file)) }
        ensures file { self.new.file ≡ self.old.file }
        ensures buffered { IsBuffered self.new (H.view host.new).files }
        ensures page { OnOk result (self.new.page ≡ Some (at / 4096)) }
        ensures agrees { P.agrees pages.new (H.view host.new).files }
        ensures covers { (name : FileName) → P.covers pages.new name → P.covers pages.old name ⊎ (name ≡ self.old.file) }
        ensures changes { Changes Same (H.view host.old) (H.view host.new) }
        ensures causes { ReadCost (unbuffered_pages self.old.page at (length out.old)) (H.view host.old) (H.view host.new) result }
    {
        self.load_page(host, pages, at / PAGE)?;
        let Some(part) = self.part((at % PAGE) as usize, out.len()) else {
            return Err(unexpected_end(host, self.file));
        };
        out.copy_from_slice(part);
        Ok(())
    }

    /// Loads the page into the buffer, unless it is there.
    pub fn load_page<H: Host, P: PageReader>(
        &mut self,
        host: &mut H,
        pages: &mut P,
        page: u64,
    ) -> Result<(), HostFault>
        requires there { IsThere (H.view host.old) self.old.file }
        requires agrees { P.agrees pages.old (H.view host.old).files }
        requires buffered { IsBuffered self.old (H.view host.old).files }
        requires page { page < 2 ^ 52 }
        ensures page { OnOk result (self.new.page ≡ Some page) }
        ensures file { self.new.file ≡ self.old.file }
        ensures buffered { IsBuffered self.new (H.view host.new).files }
        ensures agrees { P.agrees pages.new (H.view host.new).files }
        ensures covers { (name : FileName) → P.covers pages.new name → P.covers pages.old name ⊎ (name ≡ self.old.file) }
        ensures changes { Changes Same (H.view host.old) (H.view host.new) }
        ensures causes { PageCauses (H.view host.old) (H.view host.new) result }
        ensures same_page { self.old.page ≡ Some page → (H.view host.new).reads ≡ (H.view host.old).reads }
    {
        if self.page == Some(page) {
            return Ok(());
        }
        self.page = None;
        self.filled = pages.page(host, self.file, page, &mut self.bytes)?;
        self.page = Some(page);
        Ok(())
    }

    /// The bytes of the buffered page from this offset of the page on. Only the last page of a file has fewer than 4,096.
    pub fn bytes_from(&self, offset: usize) -> &[u8]
        ensures { result.now ≡ drop offset self.now.bytes }
    {
        let from = offset.min(self.filled);
        &self.bytes[from..self.filled]
    }

    // So many bytes of the buffered page, if it has them.
    fn part(&self, from: usize, count: usize) -> Option<&[u8]>
        requires { from + count ≤ 4096 }
        ensures some { IfSome result (λ part. part.now ≡ take count (drop from self.now.bytes)) }
        ensures within { IfSome result (λ _. from + count ≤ length self.now.bytes) }
        ensures none { IfNone result (length self.now.bytes < from + count) }
    {
        if from + count > self.filled {
            return None;
        }
        Some(&self.bytes[from..from + count])
    }
}
