// Reads the first and the last bytes of a file.
ghost use Rattle.std.specs.Prelude.{◌≡◌, ◌-◌, ◌≤◌, length, IfErr, IfOk, OnOk, Some};
ghost use Rattle.sasi_host.specs.Names.{Bytes};
ghost use Rattle.sasi_host.specs.View.{IsThere, ReadCost, contents};
ghost use Rattle.sasi_host.specs.Buffered.{unbuffered_pages};
ghost use Rattle.sasi_host.specs.Damages.{DamageShown, ShowsEnd};
ghost use Rattle.sasi_host.specs.Disk.{Changes, Same};
ghost use Rattle.sasi_host.specs.PageReading.{CanRead, HasRead, CanReadOn, HasReadOn};
ghost use Rattle.sasi_framing.specs.Framing.{EndsWith, BeginsAndEndsWith, OpensWithinPages};

use sasi_host::{BufferedFile, FileName, FormatRule, Host, PageReader, ReadFault, found};

// The size of a file. One of fewer than `least` bytes is too short.
fn size_of<H: Host>(host: &mut H, file: FileName, least: u64) -> Result<u64, ReadFault>
    requires { IsThere (H.view host.old) file }
    ensures least { IfOk result (λ size. least ≤ size) }
    ensures ok { IfOk result (λ size. (bytes : Bytes) → contents (H.view host.old) file ≡ Some bytes → size ≡ length bytes) }
    ensures damaged { IfErr result (DamageShown (H.view host.old) file (ShowsEnd least file)) }
    ensures changes { Changes Same (H.view host.old) (H.view host.new) }
    ensures causes { ReadCost 0 (H.view host.old) (H.view host.new) result }
{
    let size = host.size(file)?;
    if size < least {
        let damage = found(file, size, FormatRule::Short, &size.to_be_bytes());
        return Err(ReadFault::Damaged(damage));
    }
    Ok(size)
}

// Reads the last bytes of a file of this size.
fn read_end<H: Host, P: PageReader>(
    host: &mut H,
    pages: &mut P,
    buffered: &mut BufferedFile,
    size: u64,
    end: &mut [u8],
) -> Result<(), ReadFault>
    requires read { CanReadOn (P.agrees pages.old) (H.view host.old) buffered.old }
    requires within { length end.old ≤ size }
    ensures ok { OnOk result ((bytes : Bytes) → contents (H.view host.old) buffered.old.file ≡ Some bytes → size ≡ length bytes → EndsWith size end.new bytes) }
    ensures damaged { IfErr result (DamageShown (H.view host.old) buffered.old.file (ShowsEnd size buffered.old.file)) }
    ensures read { HasReadOn (P.agrees pages.new) (P.covers pages.old) (P.covers pages.new) (H.view host.old) (H.view host.new) buffered.old buffered.new }
    ensures causes { ReadCost (unbuffered_pages buffered.old.page (size - length end.old) (length end.old)) (H.view host.old) (H.view host.new) result }
{
    let at = size - end.len() as u64;
    buffered.read_into(host, pages, at, end)?;
    Ok(())
}

/// Reads the last bytes of a file, and gives its size. A file of fewer than `least` bytes is too short.
pub fn read_footer<H: Host, P: PageReader>(
    host: &mut H,
    pages: &mut P,
    buffered: &mut BufferedFile,
    least: u64,
    footer: &mut [u8],
) -> Result<u64, ReadFault>
    requires read { CanReadOn (P.agrees pages.old) (H.view host.old) buffered.old }
    requires within { length footer.old ≤ least }
    requires page { length footer.old ≤ 4096 }
    ensures least { IfOk result (λ size. least ≤ size) }
    ensures ok { IfOk result (λ size. (bytes : Bytes) → contents (H.view host.old) buffered.old.file ≡ Some bytes → EndsWith size footer.new bytes) }
    ensures damaged { IfErr result (DamageShown (H.view host.old) buffered.old.file (ShowsEnd least buffered.old.file)) }
    ensures read { HasReadOn (P.agrees pages.new) (P.covers pages.old) (P.covers pages.new) (H.view host.old) (H.view host.new) buffered.old buffered.new }
    ensures causes { ReadCost 2 (H.view host.old) (H.view host.new) result }
{
    let file = buffered.file();
    let size = size_of(host, file, least)?;
    read_end(host, pages, buffered, size, footer)?;
    Ok(size)
}

/// Reads the first and the last bytes of a file, and gives its size. A file of fewer than `least` bytes is too short. The first
/// bytes are read first, so that the last ones, where they begin on the first page, cost no further read of it.
pub fn read_header_and_footer<H: Host, P: PageReader>(
    host: &mut H,
    pages: &mut P,
    file: FileName,
    least: u64,
    header: &mut [u8],
    footer: &mut [u8],
) -> Result<u64, ReadFault>
    requires read { CanRead (P.agrees pages.old) (H.view host.old) file }
    requires header { length header.old ≤ least }
    requires first_page { length header.old ≤ 4096 }
    requires footer { length footer.old ≤ least }
    requires last_page { length footer.old ≤ 4096 }
    ensures least { IfOk result (λ size. least ≤ size) }
    ensures ok { IfOk result (λ size. (bytes : Bytes) → contents (H.view host.old) file ≡ Some bytes → BeginsAndEndsWith size header.new footer.new bytes) }
    ensures damaged { IfErr result (DamageShown (H.view host.old) file (ShowsEnd least file)) }
    ensures read { HasRead (P.agrees pages.new) (P.covers pages.old) (P.covers pages.new) (H.view host.old) (H.view host.new) file }
    ensures causes { ReadCost 3 (H.view host.old) (H.view host.new) result }
    ensures reads { OpensWithinPages (H.view host.old) (H.view host.new) file }
{
    let mut buffered = BufferedFile::new(file);
    let size = size_of(host, file, least)?;
    buffered.read_into(host, pages, 0, header)?;
    read_end(host, pages, &mut buffered, size, footer)?;
    Ok(size)
}
