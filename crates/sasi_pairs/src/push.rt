// Writes a partition, and adds its postings to each index.
ghost use Rattle.std.specs.Prelude.{◌≡◌, ◌<◌, ◌≤◌, ◌∷◌, ◌++◌, [], map, is_ok, IfOk, IsTrue, OnOk};
ghost use Rattle.std.specs.List.{AllByRecursion};
ghost use Rattle.sasi_types.specs.Token.{token_of};
ghost use Rattle.sasi_host.specs.View.{IsThere, MakesCalls, Reaches};
ghost use Rattle.sasi_host.specs.Disk.{AnyChange, Changes, FileChange};
ghost use Rattle.sasi_body.specs.Body.{HasBody};
ghost use Rattle.sasi_datawrite.specs.Causes.{PushCauses};
ghost use Rattle.sasi_datawrite.specs.Format.{Content};
ghost use Rattle.sasi_datawrite.specs.Writing.{IsWriting, last_pair};
ghost use Rattle.sasi_pairs.specs.Gathered.{CanTake, LacksClass, defs_of, with_partition};

use crate::PairFault;
use crate::builder::IndexBuilder;
use crate::builders::add_partition;
use crate::seen::SeenPair;
use sasi_analyzers::Kit;
use sasi_cells::Partition;
use sasi_datawrite::DataWriter;
use sasi_host::Host;
use sasi_types::{Key, Pair};
use std::alloc::Global;

/// Writes a partition to the data file, and adds its postings to each index.
pub fn push_partition<H: Host>(
    alloc: Global,
    host: &mut H,
    writer: &mut DataWriter,
    builders: &mut [IndexBuilder],
    kit: &mut Kit,
    key: &Key,
    part: &Partition,
) -> Result<(), PairFault>
    requires body { HasBody key.now part.now }
    requires rising { (last_pair writer.old.pairs).token ≤ token_of writer.old.partitioner key.now }
    requires room { Reaches (H.view host.old) writer.old.file writer.old.offset }
    requires usable { IsTrue writer.old.usable }
    requires typed { AllByRecursion (CanTake part.now) builders.old }
    ensures ok { OnOk result ((content : Content) → IsWriting (H.view host.old) writer.old content → IsWriting (H.view host.new) writer.new (content ++ (key.now, part.now) ∷ [])) }
    ensures indexes { OnOk result (builders.new ≡ map (with_partition (record { token = token_of writer.old.partitioner key.now; place = writer.old.offset }) part.now) builders.old) }
    ensures pairs { OnOk result (writer.new.pairs ≡ writer.old.pairs ++ record { token = token_of writer.old.partitioner key.now; place = writer.old.offset } ∷ []) }
    ensures last { OnOk result ((last_pair writer.new.pairs).token ≡ token_of writer.old.partitioner key.now) }
    ensures later { OnOk result (writer.old.offset < writer.new.offset) }
    ensures room { OnOk result (Reaches (H.view host.new) writer.new.file writer.new.offset) }
    ensures usable { OnOk result (IsTrue writer.new.usable) }
    ensures file { writer.new.file ≡ writer.old.file }
    ensures partitioner { writer.new.partitioner ≡ writer.old.partitioner }
    ensures defs { defs_of builders.new ≡ defs_of builders.old }
    ensures there { IsThere (H.view host.new) writer.new.file }
    ensures changes { Changes (FileChange writer.old.file AnyChange) (H.view host.old) (H.view host.new) }
    ensures calls { MakesCalls 1 (H.view host.old) (H.view host.new) result }
    ensures causes { PushCauses (LacksClass (map (λ b. kind (b.vtable, b.value)) kit.old.objects.items) (defs_of builders.old)) (H.view host.old) (H.view host.new) result }
    ensures classes { map (λ b. kind (b.vtable, b.value)) kit.new.objects.items ≡ map (λ b. kind (b.vtable, b.value)) kit.old.objects.items }
{
    let pair = write_partition(host, writer, key, part)?;
    add_partition(alloc, builders, pair, part, kit)?;
    Ok(())
}

// Writes a partition to the data file, and gives the pair under which the key tree has it.
fn write_partition<H: Host>(
    host: &mut H,
    writer: &mut DataWriter,
    key: &Key,
    part: &Partition,
) -> Result<Pair, PairFault>
    requires body { HasBody key.now part.now }
    requires rising { (last_pair writer.old.pairs).token ≤ token_of writer.old.partitioner key.now }
    requires room { Reaches (H.view host.old) writer.old.file writer.old.offset }
    requires usable { IsTrue writer.old.usable }
    ensures ok { OnOk result ((content : Content) → IsWriting (H.view host.old) writer.old content → IsWriting (H.view host.new) writer.new (content ++ (key.now, part.now) ∷ [])) }
    ensures pair { IfOk result (λ pair. pair ≡ record { token = token_of writer.old.partitioner key.now; place = writer.old.offset }) }
    ensures pairs { OnOk result (writer.new.pairs ≡ writer.old.pairs ++ record { token = token_of writer.old.partitioner key.now; place = writer.old.offset } ∷ []) }
    ensures last { OnOk result ((last_pair writer.new.pairs).token ≡ token_of writer.old.partitioner key.now) }
    ensures later { OnOk result (writer.old.offset < writer.new.offset) }
    ensures room { OnOk result (Reaches (H.view host.new) writer.new.file writer.new.offset) }
    ensures usable { writer.new.usable ≡ is_ok result }
    ensures file { writer.new.file ≡ writer.old.file }
    ensures partitioner { writer.new.partitioner ≡ writer.old.partitioner }
    ensures there { IsThere (H.view host.new) writer.new.file }
    ensures changes { Changes (FileChange writer.old.file AnyChange) (H.view host.old) (H.view host.new) }
    ensures calls { MakesCalls 1 (H.view host.old) (H.view host.new) result }
    ensures causes { PushCauses (λ _. ⊥) (H.view host.old) (H.view host.new) result }
{
    let mut seen = SeenPair::new();
    writer.push(host, &mut seen, key, part)?;
    Ok(seen.pair)
}
