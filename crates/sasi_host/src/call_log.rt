// The calls of a folder in memory. Each one appends itself to the log and then takes effect, or does neither.
ghost use Rattle.std.specs.Prelude.{◌≡◌, ◌+◌, ◌^◌, ◌≤◌, ◌++◌, ◌∷◌, [], length, OnOk, OnErr};
ghost use Rattle.std.specs.FinMap as map;
ghost use Rattle.sasi_host.specs.Files.{FitsAll, written};

use crate::FileName;
use crate::byte_buffer::ByteBuffer;
use crate::call::Call;
use crate::mem_folder::{MAX_FILE_SIZE, MemFolder};
use std::alloc::{AllocError, Global};

// A call that changes nothing that reads give.
pub fn log_call(calls: &mut Vec<Call>, call: Call) -> Result<(), AllocError>
    ensures ok { OnOk result (calls.new.items ≡ calls.old.items ++ call ∷ []) }
    ensures err { OnErr result (calls.new.items ≡ calls.old.items) }
{
    calls.push(call)?;
    Ok(())
}

pub fn create(
    alloc: Global,
    folder: &mut MemFolder,
    calls: &mut Vec<Call>,
    file: FileName,
) -> Result<(), AllocError>
    ensures ok { OnOk result ((calls.new.items ≡ calls.old.items ++ Call.Created file ∷ []) × (folder.new ≡ map.insert folder.old file [])) }
    ensures err { OnErr result ((calls.new.items ≡ calls.old.items) × (folder.new ≡ folder.old)) }
    ensures fits { FitsAll folder.old → FitsAll folder.new }
{
    calls.push(Call::Created(file))?;
    if folder.insert(file, ByteBuffer::new(alloc)).is_err() {
        calls.pop();
        return Err(AllocError);
    }
    Ok(())
}

// Refuses a write that would make the file too long.
pub fn write(
    alloc: Global,
    folder: &mut MemFolder,
    calls: &mut Vec<Call>,
    file: FileName,
    at: u64,
    bytes: &[u8],
) -> Result<(), AllocError>
    ensures ok { OnOk result ((calls.new.items ≡ calls.old.items ++ Call.Wrote file at bytes.now ∷ []) × (folder.new ≡ written (map.get folder.old file) file at bytes.now folder.old)) }
    ensures err { OnErr result ((calls.new.items ≡ calls.old.items) × (folder.new ≡ folder.old)) }
    ensures room { OnOk result (at + length bytes.now ≤ 2 ^ 62) }
    ensures fits { FitsAll folder.old → FitsAll folder.new }
{
    calls.push(Call::Wrote(file, at, ByteBuffer::from_slice(alloc, bytes)?))?;
    if folder.write(file, at, bytes).is_err() {
        calls.pop();
        return Err(AllocError);
    }
    Ok(())
}

pub fn delete(
    folder: &mut MemFolder,
    calls: &mut Vec<Call>,
    file: FileName,
) -> Result<(), AllocError>
    ensures ok { OnOk result ((calls.new.items ≡ calls.old.items ++ Call.Deleted file ∷ []) × (folder.new ≡ map.remove folder.old file)) }
    ensures err { OnErr result ((calls.new.items ≡ calls.old.items) × (folder.new ≡ folder.old)) }
    ensures fits { FitsAll folder.old → FitsAll folder.new }
{
    calls.push(Call::Deleted(file))?;
    folder.remove(file);
    Ok(())
}

// Refuses a file that is too long.
pub fn put(
    alloc: Global,
    folder: &mut MemFolder,
    calls: &mut Vec<Call>,
    file: FileName,
    bytes: &[u8],
) -> Result<(), AllocError>
    ensures ok { OnOk result ((calls.new.items ≡ calls.old.items ++ Call.Put file bytes.now ∷ []) × (folder.new ≡ map.insert folder.old file bytes.now)) }
    ensures err { OnErr result ((calls.new.items ≡ calls.old.items) × (folder.new ≡ folder.old)) }
    ensures fits { FitsAll folder.old → FitsAll folder.new }
{
    if bytes.len() as u64 > MAX_FILE_SIZE {
        return Err(AllocError);
    }
    let copy = ByteBuffer::from_slice(alloc, bytes)?;
    calls.push(Call::Put(file, ByteBuffer::from_slice(alloc, bytes)?))?;
    if folder.insert(file, copy).is_err() {
        calls.pop();
        return Err(AllocError);
    }
    Ok(())
}

pub fn emit(
    alloc: Global,
    emitted: &mut Vec<u8>,
    calls: &mut Vec<Call>,
    bytes: &[u8],
) -> Result<(), AllocError>
    ensures ok { OnOk result ((calls.new.items ≡ calls.old.items ++ Call.Emitted bytes.now ∷ []) × (emitted.new.items ≡ emitted.old.items ++ bytes.now)) }
    ensures err { OnErr result ((calls.new.items ≡ calls.old.items) × (emitted.new.items ≡ emitted.old.items)) }
{
    calls.push(Call::Emitted(ByteBuffer::from_slice(alloc, bytes)?))?;
    if emitted.extend_from_slice(bytes).is_err() {
        calls.pop();
        return Err(AllocError);
    }
    Ok(())
}
