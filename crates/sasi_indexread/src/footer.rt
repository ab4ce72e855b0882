// Reads the header and the footer of an index file.
ghost use Rattle.std.specs.Prelude.{◌≡◌, ◌≤◌, length, true, IfErr, IfOk, Some};
ghost use Rattle.sasi_host.specs.declared.name.FileName.{FileName};
ghost use Rattle.sasi_host.specs.Names.{Bytes};
ghost use Rattle.sasi_host.specs.View.{ReadCost, contents};
ghost use Rattle.sasi_host.specs.Damages.{DamageShown};
ghost use Rattle.sasi_host.specs.PageReading.{CanRead, HasRead};
ghost use Rattle.sasi_framing.specs.Framing.{BeginsAndEndsWith, OpensWithinPages};
ghost use Rattle.sasi_indexwrite.specs.Format.{is_spill};
ghost use Rattle.sasi_indexread.specs.Opened.{NoFalseIndexDamage};
ghost use Rattle.sasi_indexread.specs.HeaderAndFooter.{HasHeaderAndFooter, ShowsHeaderOrFooter};

use crate::parts::{header_in, numbers_in};
use sasi_framing::{check_mark, read_header_and_footer};
use sasi_host::{Damage, FileName, Host, PageReader, ReadFault};
use sasi_indexwrite::Footer;
use sasi_types::{ColumnType, Mode};

// The bytes of a header.
const HEADER: usize = 16;

// The bytes of a footer.
const FOOTER: usize = 72;

// The bytes of the numbers in a footer.
const NUMBERS: usize = 64;

// No index file is shorter.
const MIN_FILE_SIZE: u64 = 4168;

/// What an index file says in its header and its footer.
#[derive(Clone, Copy)]
pub struct HeaderAndFooter {
    pub mode: Mode,
    pub kind: ColumnType,
    pub numbers: Footer,
}

// Decodes the header and the footer of a file of this size.
fn decode(
    file: FileName,
    size: u64,
    header: &[u8],
    footer: &[u8],
) -> Result<HeaderAndFooter, Damage>
    requires header { length header.now ≡ 16 }
    requires footer { length footer.now ≡ 72 }
    requires size { 72 ≤ size }
    ensures ok { IfOk result (λ read. (bytes : Bytes) → BeginsAndEndsWith size header.now footer.now bytes → HasHeaderAndFooter bytes read.mode read.kind read.numbers) }
    ensures spill { IfOk result (λ read. is_spill read.numbers.blocks.first read.numbers.spill ≡ true) }
    ensures damaged { IfErr result (λ damage. (bytes : Bytes) → BeginsAndEndsWith size header.now footer.now bytes → ShowsHeaderOrFooter file bytes damage) }
{
    let at = size - FOOTER as u64;
    let (numbers, mark) = footer.split_at(NUMBERS);
    check_mark(file, at + NUMBERS as u64, b"SASIIEND", mark)?;
    let fields = header_in(file, header)?;
    let numbers = numbers_in(file, fields.0, at, numbers)?;
    Ok(HeaderAndFooter {
        mode: fields.0,
        kind: fields.1,
        numbers,
    })
}

/// Reads the header and the footer of a file.
pub fn read_footer<H: Host, P: PageReader>(
    host: &mut H,
    pages: &mut P,
    file: FileName,
) -> Result<HeaderAndFooter, ReadFault>
    requires read { CanRead (P.agrees pages.old) (H.view host.old) file }
    ensures ok { IfOk result (λ read. (bytes : Bytes) → contents (H.view host.old) file ≡ Some bytes → HasHeaderAndFooter bytes read.mode read.kind read.numbers) }
    ensures spill { IfOk result (λ read. is_spill read.numbers.blocks.first read.numbers.spill ≡ true) }
    ensures damaged { IfErr result (DamageShown (H.view host.old) file (ShowsHeaderOrFooter file)) }
    ensures undamaged { IfErr result (NoFalseIndexDamage (H.view host.old) file) }
    ensures read { HasRead (P.agrees pages.new) (P.covers pages.old) (P.covers pages.new) (H.view host.old) (H.view host.new) file }
    ensures causes { ReadCost 3 (H.view host.old) (H.view host.new) result }
    ensures reads { OpensWithinPages (H.view host.old) (H.view host.new) file }
{
    let mut header = [0; HEADER];
    let mut footer = [0; FOOTER];
    let size = read_header_and_footer(host, pages, file, MIN_FILE_SIZE, &mut header, &mut footer)?;
    let read = decode(file, size, &header, &footer)?;
    Ok(read)
}
