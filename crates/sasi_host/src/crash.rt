// The image that a pick names.
ghost use Rattle.std.specs.Prelude.{◌≡◌, length, replicate, IfOk, OnOk};
ghost use Rattle.std.specs.FinMap as map;
ghost use Rattle.sasi_host.specs.Picks.{picked, pick_step, synced_later, folder_later, pending};

use crate::byte_buffer::ByteBuffer;
use crate::call::Call;
use crate::mem_folder::{MAX_FILE_SIZE, MemFolder};
use crate::{BytePick, FileName, NamePick, Pick};
use std::alloc::{AllocError, Global};

// Whether the file is synced by one of these calls.
fn is_synced_later(file: FileName, rest: &[Call]) -> bool
    ensures { result ≡ synced_later file rest.now }
{
    for call in rest {
        if let Call::Synced(name) = call {
            if file.cmp(name).is_eq() {
                return true;
            }
        }
    }
    false
}

// Whether the folder is synced by one of them.
fn is_folder_later(rest: &[Call]) -> bool
    ensures { result ≡ folder_later rest.now }
{
    for call in rest {
        if let Call::FolderSynced = call {
            return true;
        }
    }
    false
}

fn filled_with(alloc: Global, byte: u8, count: usize) -> Result<Vec<u8>, AllocError>
    ensures { IfOk result (λ bytes. bytes.items ≡ replicate count byte) }
{
    let mut bytes = Vec::new(alloc);
    bytes.resize(count, byte)?;
    Ok(bytes)
}

// A write that wasn't synced later on.
fn write_pending(
    alloc: Global,
    left: &mut MemFolder,
    pick: BytePick,
    file: FileName,
    at: u64,
    bytes: &[u8],
) -> Result<(), AllocError>
    ensures { OnOk result (left.new ≡ pending pick file at bytes.now left.old) }
{
    match pick {
        BytePick::AsNow => left.write(file, at, bytes),
        BytePick::AsSynced => Ok(()),
        BytePick::Zeros => left.write(file, at, &filled_with(alloc, 0, bytes.len())?),
        BytePick::Ones => left.write(file, at, &filled_with(alloc, 255, bytes.len())?),
    }
}

// Applies one call to the picked image, where these calls come after it.
fn apply_call(
    alloc: Global,
    left: &mut MemFolder,
    pick: Pick,
    call: &Call,
    rest: &[Call],
) -> Result<(), AllocError>
    ensures { OnOk result (left.new ≡ pick_step pick call.now rest.now left.old) }
{
    match call {
        Call::Created(file) => {
            let is_there = is_folder_later(rest)
                || matches!(pick.names, NamePick::AsNow)
                || left.get(*file).is_some();
            if is_there {
                left.insert(*file, ByteBuffer::new(alloc))?;
            }
            Ok(())
        }
        Call::Wrote(file, at, bytes) => {
            if is_synced_later(*file, rest) {
                left.write(*file, *at, bytes.as_slice())
            } else {
                write_pending(alloc, left, pick.bytes, *file, *at, bytes.as_slice())
            }
        }
        Call::Deleted(file) => {
            if is_folder_later(rest) || matches!(pick.names, NamePick::AsNow) {
                left.remove(*file);
            }
            Ok(())
        }
        Call::Put(file, bytes) => put_file(alloc, left, *file, bytes.as_slice()),
        Call::Synced(_) | Call::FolderSynced | Call::Emitted(_) => Ok(()),
    }
}

// The image that the pick names: a folder with nothing pending, with these calls applied.
pub fn crash_image(
    alloc: Global,
    start: MemFolder,
    calls: &[Call],
    pick: Pick,
) -> Result<MemFolder, AllocError>
    ensures { IfOk result (λ left. left ≡ picked pick calls.now start) }
{
    let mut left = start;
    for i in 0..calls.len() {
        apply_call(alloc, &mut left, pick, &calls[i], &calls[i + 1..])?;
    }
    Ok(left)
}

// Puts a file into the image, unless it is longer than a file may be.
fn put_file(
    alloc: Global,
    left: &mut MemFolder,
    file: FileName,
    bytes: &[u8],
) -> Result<(), AllocError>
    ensures { OnOk result (left.new ≡ map.insert left.old file bytes.now) }
{
    if bytes.len() as u64 > MAX_FILE_SIZE {
        return Err(AllocError);
    }
    left.insert(file, ByteBuffer::from_slice(alloc, bytes)?)
}
