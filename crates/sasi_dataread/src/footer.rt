// Reads the header and the footer of a data file.
ghost use Rattle.std.specs.Prelude.{◌≡◌, ◌<◌, ◌≤◌, length, IfErr, IfOk, Some};
ghost use Rattle.sasi_host.specs.declared.name.FileName.{FileName};
ghost use Rattle.sasi_host.specs.Names.{Bytes};
ghost use Rattle.sasi_host.specs.View.{ReadCost, contents};
ghost use Rattle.sasi_host.specs.Damages.{DamageShown};
ghost use Rattle.sasi_host.specs.PageReading.{CanRead, HasRead};
ghost use Rattle.sasi_framing.specs.Framing.{BeginsAndEndsWith, OpensWithinPages};
ghost use Rattle.sasi_dataread.specs.Reads.{NoFalseDataDamage};
ghost use Rattle.sasi_dataread.specs.Damages.{ShowsHeaderOrFooter};
ghost use Rattle.sasi_dataread.specs.HeaderAndFooter.{HasHeaderAndFooter};

use crate::parts::numbers_in;
use sasi_datawrite::{Footer, magic};
use sasi_formats::check_header;
use sasi_framing::{check_mark, read_header_and_footer};
use sasi_host::{Damage, FileName, Host, PageReader, ReadFault};

// The bytes of a header.
const HEADER: usize = 16;

/// The bytes of a footer.
pub const FOOTER: usize = 40;

/// The bytes of the numbers in a footer.
pub const NUMBERS: usize = 32;

/// No data file is shorter.
pub const MIN_FILE_SIZE: u64 = 97;

// Decodes the header and the footer of a file of this size.
fn decode(file: FileName, size: u64, header: &[u8], footer: &[u8]) -> Result<Footer, Damage>
    requires header { length header.now ≡ 16 }
    requires footer { length footer.now ≡ 40 }
    requires size { 40 ≤ size }
    ensures ok { IfOk result (λ numbers. (bytes : Bytes) → BeginsAndEndsWith size header.now footer.now bytes → HasHeaderAndFooter bytes numbers) }
    ensures some { IfOk result (λ numbers. 0 < numbers.tree.pairs) }
    ensures damaged { IfErr result (λ damage. (bytes : Bytes) → BeginsAndEndsWith size header.now footer.now bytes → ShowsHeaderOrFooter file bytes damage) }
{
    let at = size - FOOTER as u64;
    let (numbers, mark) = footer.split_at(NUMBERS);
    check_mark(file, at + NUMBERS as u64, b"SASIDEND", mark)?;
    check_header(file, magic(), 0, header)?;
    let numbers = numbers_in(file, at, numbers)?;
    Ok(numbers)
}

/// Reads the header and the footer of a file, and gives the footer.
pub fn read_footer<H: Host, P: PageReader>(
    host: &mut H,
    pages: &mut P,
    file: FileName,
) -> Result<Footer, ReadFault>
    requires read { CanRead (P.agrees pages.old) (H.view host.old) file }
    ensures ok { IfOk result (λ numbers. (bytes : Bytes) → contents (H.view host.old) file ≡ Some bytes → HasHeaderAndFooter bytes numbers) }
    ensures some { IfOk result (λ numbers. 0 < numbers.tree.pairs) }
    ensures damaged { IfErr result (DamageShown (H.view host.old) file (ShowsHeaderOrFooter file)) }
    ensures undamaged { IfErr result (NoFalseDataDamage (H.view host.old) file) }
    ensures read { HasRead (P.agrees pages.new) (P.covers pages.old) (P.covers pages.new) (H.view host.old) (H.view host.new) file }
    ensures causes { ReadCost 3 (H.view host.old) (H.view host.new) result }
    ensures reads { OpensWithinPages (H.view host.old) (H.view host.new) file }
{
    let mut header = [0; HEADER];
    let mut footer = [0; FOOTER];
    let size = read_header_and_footer(host, pages, file, MIN_FILE_SIZE, &mut header, &mut footer)?;
    let numbers = decode(file, size, &header, &footer)?;
    Ok(numbers)
}
