// Writes partitions, and passes them to the observer.
ghost use Rattle.std.specs.Prelude.{◌≡◌, ◌+◌, ◌^◌, ◌≤◌, ◌++◌, List, length, IfOk, OnOk};
ghost use Rattle.sasi_types.specs.declared.class.Class.{Class};
ghost use Rattle.sasi_host.specs.Names.{Bytes};
ghost use Rattle.sasi_host.specs.View.{Holds, IsThere, MakesCalls, Reaches};
ghost use Rattle.sasi_host.specs.Disk.{AnyChange, Changes, FileChange};
ghost use Rattle.sasi_body.specs.Body.{HasBody};
ghost use Rattle.sasi_datawrite.specs.Format.{partition_bytes};
ghost use Rattle.sasi_datawrite.specs.Calls.{Call, partition_calls};
ghost use Rattle.sasi_datawrite.specs.Causes.{PushCauses};

use crate::notify::notify;
use crate::partition::write_partition;
use crate::{FlushObserver, PairFault};
use sasi_cells::Partition;
use sasi_host::{FileName, Host};
use sasi_types::{Key, Pair};

/// Writes a partition at the offset of this pair, passes it to the observer, and gives the offset behind it.
pub fn push_partition<H: Host, O: FlushObserver>(
    host: &mut H,
    watch: &mut O,
    file: FileName,
    pair: Pair,
    buffer: &mut Vec<u8>,
    key: &Key,
    part: &Partition,
) -> Result<u64, PairFault>
    requires body { HasBody key.now part.now }
    requires room { Reaches (H.view host.old) file pair.place }
    ensures ok { OnOk result ((bytes : Bytes) → length bytes ≡ pair.place → Holds (H.view host.old) file bytes → Holds (H.view host.new) file (bytes ++ partition_bytes key.now part.now)) }
    ensures observed { OnOk result ((calls : List Call) → O.agrees watch.old calls → O.agrees watch.new (calls ++ partition_calls pair.token pair.place part.now)) }
    ensures next { IfOk result (λ next. next ≡ pair.place + length (partition_bytes key.now part.now)) }
    ensures fits { IfOk result (λ next. next ≤ 2 ^ 62) }
    ensures room { IfOk result (λ next. Reaches (H.view host.new) file next) }
    ensures there { IsThere (H.view host.new) file }
    ensures changes { Changes (FileChange file AnyChange) (H.view host.old) (H.view host.new) }
    ensures calls { MakesCalls 1 (H.view host.old) (H.view host.new) result }
    ensures causes { PushCauses (O.lacks watch.old) (H.view host.old) (H.view host.new) result }
    ensures lacks { (class : Class) → O.lacks watch.new class → O.lacks watch.old class }
{
    let alloc = *buffer.allocator();
    let next = write_partition(host, file, pair.place, buffer, key, part)?;
    notify(alloc, watch, pair, part)?;
    Ok(next)
}
