// The end of a data file, which an opening of a folder looks at.
ghost use Rattle.std.specs.Prelude.{◌≡◌, ◌-◌, ◌≤◌, length, take, IfErr, IfOk, OnOk, Some};
ghost use Rattle.sasi_host.specs.Disk.{Changes, Same};
ghost use Rattle.sasi_host.specs.Names.{Bytes};
ghost use Rattle.sasi_host.specs.View.{IsThere, ReadCost, contents};
ghost use Rattle.sasi_host.specs.Damages.{DamageShown};
ghost use Rattle.sasi_formats.specs.Formats.{Encodes};
ghost use Rattle.sasi_framing.specs.Framing.{EndsWith};
ghost use Rattle.sasi_datawrite.specs.declared.footer.Footer.{Footer as AFooter};
ghost use Rattle.sasi_datawrite.specs.Format.{footer};
ghost use Rattle.sasi_dataread.specs.Reads.{NoFalseDataDamage};
ghost use Rattle.sasi_dataread.specs.Damages.{ShowsHeaderOrFooter};
ghost use Rattle.sasi_dataread.specs.HeaderAndFooter.{EndsAsDataFile, TellsMaxTimestamp};

use crate::footer::{FOOTER, MIN_FILE_SIZE, NUMBERS};
use crate::parts::numbers_in;
use sasi_framing::{check_mark, read_footer};
use sasi_host::{BufferedFile, Damage, Direct, FileName, Host, ReadFault};

/// Checks that a file is at least as long as the shortest data file and ends with their mark, and gives the largest timestamp of its
/// footer. Nothing else of it is looked at: of a file that isn't a data file, the timestamp may be any number.
pub fn read_max_timestamp<H: Host>(host: &mut H, file: FileName) -> Result<u64, ReadFault>
    requires { IsThere (H.view host.old) file }
    ensures ends { OnOk result ((bytes : Bytes) → contents (H.view host.old) file ≡ Some bytes → EndsAsDataFile bytes) }
    ensures time { IfOk result (λ time. TellsMaxTimestamp (H.view host.old) file time) }
    ensures damaged { IfErr result (DamageShown (H.view host.old) file (ShowsHeaderOrFooter file)) }
    ensures undamaged { IfErr result (NoFalseDataDamage (H.view host.old) file) }
    ensures changes { Changes Same (H.view host.old) (H.view host.new) }
    ensures causes { ReadCost 2 (H.view host.old) (H.view host.new) result }
{
    let mut buffered = BufferedFile::new(file);
    let mut bytes = [0; FOOTER];
    let size = read_footer(host, &mut Direct, &mut buffered, MIN_FILE_SIZE, &mut bytes)?;
    let time = max_timestamp_in(file, size, &bytes)?;
    Ok(time)
}

// Checks the mark of a footer that ends a file of this size, and gives its largest timestamp; 0 where its numbers break their
// format.
fn max_timestamp_in(file: FileName, size: u64, bytes: &[u8]) -> Result<u64, Damage>
    requires bytes { length bytes.now ≡ 40 }
    requires size { 97 ≤ size }
    ensures ends { OnOk result ((whole : Bytes) → EndsWith size bytes.now whole → EndsAsDataFile whole) }
    ensures time { IfOk result (λ time. (numbers : AFooter) → Encodes (footer (size - 40)) numbers (take 32 bytes.now) → time ≡ numbers.max_timestamp) }
    ensures damaged { IfErr result (λ damage. (whole : Bytes) → EndsWith size bytes.now whole → ShowsHeaderOrFooter file whole damage) }
{
    let at = size - FOOTER as u64;
    let (numbers, mark) = bytes.split_at(NUMBERS);
    check_mark(file, at + NUMBERS as u64, b"SASIDEND", mark)?;
    match numbers_in(file, at, numbers) {
        Ok(numbers) => Ok(numbers.max_timestamp),
        Err(_) => Ok(0),
    }
}
