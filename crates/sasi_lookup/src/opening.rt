// Opens data files, and reads the keys of a token.
ghost use Rattle.std.specs.Prelude.{◌≡◌, ◌+◌, ◌≤◌, length, Some, IfOk, IfSome};
ghost use Rattle.sasi_types.specs.declared.partitioner.Partitioner.{Partitioner};
ghost use Rattle.sasi_host.specs.PageReading.{CanRead, HasRead};
ghost use Rattle.sasi_datawrite.specs.Format.{Content, header};
ghost use Rattle.sasi_dataread.specs.Opened.{IsOpenedAs};
ghost use Rattle.sasi_dataread.specs.PlacedKeys.{keys_at};
ghost use Rattle.sasi_ranges.specs.StreamCalls.{StreamFaults};
ghost use Rattle.sasi_lookup.specs.Files.{FileShows, IsDataOf, IsOpenIn, IsOpenWith};
ghost use Rattle.sasi_lookup.specs.Reads.{keys_reads, opening_reads};

use sasi_dataread::{DataFile, PlacedKey};
use sasi_host::{FileName, Host, PageReader, ReadFault};
use sasi_types::{Token, TypeList};
use std::alloc::Global;

// The open file: the one that is there, or else the file is opened now.
pub(crate) fn open_file<H: Host, P: PageReader>(
    alloc: Global,
    host: &mut H,
    pages: &mut P,
    name: FileName,
    types: &TypeList,
    opened: Option<DataFile>,
) -> Result<DataFile, ReadFault>
    requires read { CanRead (P.agrees pages.old) (H.view host.old) name }
    requires ready { IfSome opened (IsOpenIn (H.view host.old).files types.now name) }
    ensures ready { IfOk result (IsOpenIn (H.view host.new).files types.now name) }
    ensures opens { IfOk result (λ now. (partitioner : Partitioner) (content : Content) → IsDataOf (H.view host.old).files partitioner types.now name opened content → IsOpenedAs now partitioner content) }
    ensures reads { (partitioner : Partitioner) (content : Content) → IsDataOf (H.view host.old).files partitioner types.now name opened content → (H.view host.new).reads ≤ (H.view host.old).reads + opening_reads opened }
    ensures read { HasRead (P.agrees pages.new) (P.covers pages.old) (P.covers pages.new) (H.view host.old) (H.view host.new) name }
    ensures faults { StreamFaults (FileShows types.now name (H.view host.old).files) (FileShows types.now name (H.view host.new).files)
        (λ (has : Partitioner × Content). IsDataOf (H.view host.old).files has.0 types.now name opened has.1) (H.view host.old) (H.view host.new) result }
{
    match opened {
        Some(opened) => Ok(opened),
        None => {
            let opened = DataFile::open(alloc, host, pages, name, types)?;
            Ok(opened)
        }
    }
}

// The open file with its keys of this token. Where it isn't open yet, it is opened now.
pub(crate) fn read_keys<H: Host, P: PageReader>(
    alloc: Global,
    host: &mut H,
    pages: &mut P,
    name: FileName,
    types: &TypeList,
    opened: Option<DataFile>,
    token: Token,
) -> Result<(DataFile, Vec<PlacedKey>), ReadFault>
    requires read { CanRead (P.agrees pages.old) (H.view host.old) name }
    requires ready { IfSome opened (IsOpenIn (H.view host.old).files types.now name) }
    ensures ready { IfOk result (λ read. IsOpenWith (H.view host.new).files types.now name read.1.items read.0) }
    ensures data { IfOk result (λ read. (partitioner : Partitioner) (content : Content) → IsDataOf (H.view host.old).files partitioner types.now name opened content → IsDataOf (H.view host.new).files partitioner types.now name (Some read.0) content) }
    ensures keys { IfOk result (λ read. (partitioner : Partitioner) (content : Content) → IsDataOf (H.view host.old).files partitioner types.now name opened content → read.1.items ≡ keys_at partitioner token (length header) content) }
    ensures reads { (partitioner : Partitioner) (content : Content) → IsDataOf (H.view host.old).files partitioner types.now name opened content → (H.view host.new).reads ≤ (H.view host.old).reads + (opening_reads opened + keys_reads partitioner token content) }
    ensures read { HasRead (P.agrees pages.new) (P.covers pages.old) (P.covers pages.new) (H.view host.old) (H.view host.new) name }
    ensures faults { StreamFaults (FileShows types.now name (H.view host.old).files) (FileShows types.now name (H.view host.new).files)
        (λ (has : Partitioner × Content). IsDataOf (H.view host.old).files has.0 types.now name opened has.1) (H.view host.old) (H.view host.new) result }
{
    let now = open_file(alloc, host, pages, name, types, opened)?;
    let keys = now.keys_with(alloc, host, pages, token)?;
    Ok((now, keys))
}
