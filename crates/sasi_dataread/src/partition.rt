// Reads partitions.
ghost use Rattle.std.specs.Prelude.{◌≡◌, ◌+◌, ◌/◌, ◌^◌, ◌<◌, ◌≤◌, List, ℕ, length, IfErr, IfOk, OnOk, IsTrue, Some, false};
ghost use Rattle.std.specs.Int.{to_be_bytes, w32};
ghost use Rattle.sasi_types.specs.declared.column.ColumnType.{ColumnType};
ghost use Rattle.sasi_model.specs.Cells.{Partition as Part};
ghost use Rattle.sasi_host.specs.declared.name.FileName.{FileName};
ghost use Rattle.sasi_host.specs.declared.fault.ReadFault.TheVariants as read_fault;
ghost use Rattle.sasi_host.specs.Names.{Bytes};
ghost use Rattle.sasi_host.specs.View.{ReadCost, contents};
ghost use Rattle.sasi_host.specs.Damages.{HasAt, OnDamage, DamageShown};
ghost use Rattle.sasi_host.specs.Buffered.{unbuffered_pages};
ghost use Rattle.sasi_host.specs.PageReading.{CanReadOn, HasReadOn};
ghost use Rattle.sasi_formats.specs.declared.fault.FormatFault.TheVariants as format_fault;
ghost use Rattle.sasi_formats.specs.Failures.{HasOtherLength};
ghost use Rattle.sasi_formats.specs.Whole.{IsShownBy};
ghost use Rattle.sasi_body.specs.Body.{body, body_of, IsBodyOf};
ghost use Rattle.sasi_dataread.specs.Damages.{ShowsPartition};
ghost use Rattle.sasi_dataread.specs.Bodies.{length_prefixed, partition_reads, IsLength, IsWithinBody, NoFalseLengthDamage, NoFalseBytesDamage, NoFalseBodyDamage};

use crate::file_bytes::read_bytes;
use sasi_body::read_body;
use sasi_cells::Partition;
use sasi_fields::FieldReader;
use sasi_formats::FormatFault;
use sasi_host::{
    BufferedFile, Damage, FileName, FormatRule, Host, PageReader, ReadFault, found, unexpected_end,
};
use sasi_types::{Key, TypeList};
use std::alloc::Global;

// The bytes of a length.
const LENGTH: u64 = 4;

// No file is longer.
const MAX_FILE_SIZE: u64 = 1 << 62;

// No body has so many bytes.
const BODY_LIMIT: u64 = 1 << 23;

// The number that a field of four bytes holds.
fn length_in(field: &[u8]) -> u32
    requires { length field.now ≡ 4 }
    ensures { to_be_bytes w32 result ≡ field.now }
{
    FieldReader::new(field).u32().unwrap_or(0)
}

// Whether a body can't have `count` bytes, where there is room for `room`.
fn is_wrong_length(count: u64, room: u64) -> bool
    ensures some { result ≡ false → 0 < count }
    ensures short { result ≡ false → count < 2 ^ 23 }
    ensures within { result ≡ false → count ≤ room }
    ensures wrong { IsTrue result → 0 < count → count < 2 ^ 23 → room < count }
{
    count == 0 || count >= BODY_LIMIT || count > room
}

// Reads the length of the body at this offset, and checks that the body ends at `end` or before it.
fn read_length<H: Host, P: PageReader>(
    host: &mut H,
    pages: &mut P,
    buffered: &mut BufferedFile,
    end: u64,
    place: u64,
) -> Result<u64, ReadFault>
    requires read { CanReadOn (P.agrees pages.old) (H.view host.old) buffered.old }
    ensures ok { IfOk result (λ count. (bytes : Bytes) → contents (H.view host.old) buffered.old.file ≡ Some bytes → HasAt bytes place (to_be_bytes w32 count)) }
    ensures length { IfOk result (IsLength end place) }
    ensures damaged { (types : List ColumnType) → IfErr result (DamageShown (H.view host.old) buffered.old.file (ShowsPartition types end place buffered.old.file)) }
    ensures undamaged { IfErr result (NoFalseLengthDamage (H.view host.old) buffered.old.file end place) }
    ensures read { HasReadOn (P.agrees pages.new) (P.covers pages.old) (P.covers pages.new) (H.view host.old) (H.view host.new) buffered.old buffered.new }
    ensures page { OnOk result (buffered.new.page ≡ Some ((place + 3) / 4096)) }
    ensures causes { ReadCost (unbuffered_pages buffered.old.page place 4) (H.view host.old) (H.view host.new) result }
{
    let file = buffered.file();
    if place > MAX_FILE_SIZE {
        return Err(unexpected_end(host, file));
    }
    let mut field = [0; LENGTH as usize];
    buffered.read_into(host, pages, place, &mut field)?;
    let count = u64::from(length_in(&field));
    if is_wrong_length(count, end.saturating_sub(place + LENGTH)) {
        let damage = found(file, place, FormatRule::Number, &field);
        return Err(ReadFault::Damaged(damage));
    }
    Ok(count)
}

// Reads the bytes of the body at this offset.
fn read_body_bytes<H: Host, P: PageReader>(
    alloc: Global,
    host: &mut H,
    pages: &mut P,
    buffered: &mut BufferedFile,
    end: u64,
    place: u64,
) -> Result<Vec<u8>, ReadFault>
    requires read { CanReadOn (P.agrees pages.old) (H.view host.old) buffered.old }
    ensures ok { IfOk result (λ read. (bytes : Bytes) → contents (H.view host.old) buffered.old.file ≡ Some bytes → HasAt bytes place (length_prefixed read.items)) }
    ensures length { IfOk result (λ read. IsLength end place (length read.items)) }
    ensures damaged { (types : List ColumnType) → IfErr result (DamageShown (H.view host.old) buffered.old.file (ShowsPartition types end place buffered.old.file)) }
    ensures undamaged { IfErr result (NoFalseBytesDamage (H.view host.old) buffered.old.file end place) }
    ensures read { HasReadOn (P.agrees pages.new) (P.covers pages.old) (P.covers pages.new) (H.view host.old) (H.view host.new) buffered.old buffered.new }
    ensures page { IfOk result (λ read. buffered.new.page ≡ Some ((place + 3 + length read.items) / 4096)) }
    ensures causes { ReadCost 2050 (H.view host.old) (H.view host.new) result }
    ensures reads { (bytes body : Bytes) → contents (H.view host.old) buffered.old.file ≡ Some bytes → HasAt bytes place (length_prefixed body) → length body < 2 ^ 32 → (H.view host.new).reads ≤ (H.view host.old).reads + partition_reads buffered.old.page place (length body) }
{
    let count = read_length(host, pages, buffered, end, place)?;
    let body = read_bytes(alloc, host, pages, buffered, place + LENGTH, count as usize)?;
    Ok(body)
}

// The damage where the length at this offset isn't that of the body behind it.
fn other_length(file: FileName, place: u64, bytes: &[u8]) -> ReadFault
    requires short { length bytes.now < 2 ^ 23 }
    ensures shown { (types : List ColumnType) (end : ℕ) (whole : Bytes) → HasOtherLength (body_of types) bytes.now → HasAt whole place (length_prefixed bytes.now) → OnDamage (ShowsPartition types end place file whole) result }
    ensures works { result ≡ read_fault.Failed → ⊥ }
{
    let length = bytes.len() as u32;
    let field = length.to_be_bytes();
    ReadFault::Damaged(found(file, place, FormatRule::Number, &field))
}

// The fault of the body at this offset, with its offset in the file.
fn fault_in_file(file: FileName, place: u64, bytes: &[u8], fault: FormatFault) -> ReadFault
    requires short { length bytes.now < 2 ^ 23 }
    requires place { place + 4 + length bytes.now < 2 ^ 64 }
    requires within { IsWithinBody (length bytes.now) fault }
    ensures shown { (types : List ColumnType) (end : ℕ) (whole : Bytes) → IsShownBy (body_of types) bytes.now fault → HasAt whole place (length_prefixed bytes.now) → OnDamage (ShowsPartition types end place file whole) result }
    ensures memory { fault ≡ format_fault.OutOfMemory → result ≡ read_fault.OutOfMemory }
    ensures works { result ≡ read_fault.Failed → ⊥ }
{
    match fault {
        FormatFault::OutOfMemory => ReadFault::OutOfMemory,
        FormatFault::Short => other_length(file, place, bytes),
        FormatFault::Long => other_length(file, place, bytes),
        FormatFault::Broken(broken) => ReadFault::Damaged(Damage {
            file,
            at: place + LENGTH + broken.at as u64,
            rule: broken.rule,
            seen: broken.seen,
        }),
    }
}

/// Reads the partition at this offset, and checks that it ends at `end` or before it.
pub fn partition_at<H: Host, P: PageReader>(
    alloc: Global,
    host: &mut H,
    pages: &mut P,
    buffered: &mut BufferedFile,
    types: &TypeList,
    end: u64,
    place: u64,
) -> Result<(Key, Partition), ReadFault>
    requires read { CanReadOn (P.agrees pages.old) (H.view host.old) buffered.old }
    ensures ok { IfOk result (λ read. (bytes : Bytes) → contents (H.view host.old) buffered.old.file ≡ Some bytes → HasAt bytes place (length_prefixed (body read.0 read.1))) }
    ensures in_table { IfOk result (λ read. IsBodyOf types.now read.0 read.1) }
    ensures length { IfOk result (λ read. IsLength end place (length (body read.0 read.1))) }
    ensures damaged { IfErr result (DamageShown (H.view host.old) buffered.old.file (ShowsPartition types.now end place buffered.old.file)) }
    ensures undamaged { IfErr result (NoFalseBodyDamage (H.view host.old) buffered.old.file types.now end place) }
    ensures read { HasReadOn (P.agrees pages.new) (P.covers pages.old) (P.covers pages.new) (H.view host.old) (H.view host.new) buffered.old buffered.new }
    ensures page { IfOk result (λ read. buffered.new.page ≡ Some ((place + 3 + length (body read.0 read.1)) / 4096)) }
    ensures causes { ReadCost 2050 (H.view host.old) (H.view host.new) result }
    ensures reads { (bytes part : Bytes) → contents (H.view host.old) buffered.old.file ≡ Some bytes → HasAt bytes place (length_prefixed part) → length part < 2 ^ 32 → (H.view host.new).reads ≤ (H.view host.old).reads + partition_reads buffered.old.page place (length part) }
{
    let file = buffered.file();
    let bytes = read_body_bytes(alloc, host, pages, buffered, end, place)?;
    match read_body(alloc, &bytes, types) {
        Ok(read) => Ok(read),
        Err(fault) => Err(fault_in_file(file, place, &bytes, fault)),
    }
}
