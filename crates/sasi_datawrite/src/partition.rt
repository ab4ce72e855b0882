// Writes partitions to a file.
ghost use Rattle.std.specs.Prelude.{◌≡◌, ◌+◌, ◌-◌, ◌^◌, ◌<◌, ◌≤◌, ◌++◌, length, drop, IfOk, OnOk};
ghost use Rattle.std.specs.Int.{to_be_bytes, w32};
ghost use Rattle.sasi_host.specs.Names.{Bytes};
ghost use Rattle.sasi_host.specs.View.{Holds, IsThere, ListCauses, MakesCalls, Reaches};
ghost use Rattle.sasi_host.specs.Disk.{AnyChange, Changes, FileChange};
ghost use Rattle.sasi_body.specs.Body.{HasBody};
ghost use Rattle.sasi_datawrite.specs.Format.{partition_bytes};

use sasi_body::put_body;
use sasi_cells::Partition;
use sasi_fields::put_u32;
use sasi_host::{FileName, Host, HostFault};
use sasi_types::Key;
use std::alloc::AllocError;

/// Writes a partition at this offset by one call, and gives the offset behind it. It overwrites the buffer.
pub fn write_partition<H: Host>(
    host: &mut H,
    file: FileName,
    at: u64,
    buffer: &mut Vec<u8>,
    key: &Key,
    part: &Partition,
) -> Result<u64, HostFault>
    requires body { HasBody key.now part.now }
    requires room { Reaches (H.view host.old) file at }
    ensures ok { OnOk result ((bytes : Bytes) → length bytes ≡ at → Holds (H.view host.old) file bytes → Holds (H.view host.new) file (bytes ++ partition_bytes key.now part.now)) }
    ensures next { IfOk result (λ next. next ≡ at + length (partition_bytes key.now part.now)) }
    ensures fits { IfOk result (λ next. next ≤ 2 ^ 62) }
    ensures room { IfOk result (λ next. Reaches (H.view host.new) file next) }
    ensures there { IsThere (H.view host.new) file }
    ensures changes { Changes (FileChange file AnyChange) (H.view host.old) (H.view host.new) }
    ensures calls { MakesCalls 1 (H.view host.old) (H.view host.new) result }
    ensures causes { ListCauses (H.view host.old) (H.view host.new) result }
{
    put_partition(buffer, key, part)?;
    host.write(file, at, buffer)?;
    Ok(at + buffer.len() as u64)
}

/// Encodes a partition into the buffer, which it overwrites.
pub fn put_partition(buffer: &mut Vec<u8>, key: &Key, part: &Partition) -> Result<(), AllocError>
    requires { HasBody key.now part.now }
    ensures { OnOk result (buffer.new.items ≡ partition_bytes key.now part.now) }
{
    buffer.clear();
    put_u32(buffer, 0)?;
    put_body(buffer, key, part)?;
    set_length(buffer);
    Ok(())
}

// Sets the first four bytes to the number of bytes behind them.
fn set_length(bytes: &mut [u8])
    requires some { 4 ≤ length bytes.old }
    requires short { length bytes.old < 2 ^ 32 }
    ensures { bytes.new ≡ to_be_bytes w32 (length bytes.old - 4) ++ drop 4 bytes.old }
{
    let length = (bytes.len() - 4) as u32;
    bytes[..4].copy_from_slice(&length.to_be_bytes());
}
