// Reads the partitions to which the pairs of the key tree lead.
ghost use Rattle.std.specs.Prelude.{◌≡◌, ◌⊎◌, ◌+◌, ◌-◌, ◌/◌, ◌<◌, ◌≤◌, length, IfErr, IfOk, OnOk, IsTrue, Some, false};
ghost use Rattle.sasi_types.specs.declared.partitioner.Partitioner.{Partitioner};
ghost use Rattle.sasi_model.specs.Cells.{Partition as Part};
ghost use Rattle.sasi_host.specs.Names.{Bytes};
ghost use Rattle.sasi_host.specs.View.{ReadCost};
ghost use Rattle.sasi_host.specs.Damages.{DamageShown};
ghost use Rattle.sasi_host.specs.Buffered.{IsBuffered};
ghost use Rattle.sasi_host.specs.PageReading.{CanRead, HasRead};
ghost use Rattle.sasi_body.specs.Body.{body, IsBodyOf};
ghost use Rattle.sasi_tokentree.specs.Scans.{HasPassed};
ghost use Rattle.sasi_datawrite.specs.Format.{Content};
ghost use Rattle.sasi_dataread.specs.Opened.{StandsAt};
ghost use Rattle.sasi_dataread.specs.Reads.{ReadsPartition, IsOpenOn, IsStoredAt, NoFalsePartitionDamage};
ghost use Rattle.sasi_dataread.specs.Bodies.{partition_reads, IsPartitionOffset};
ghost use Rattle.sasi_dataread.specs.Damages.{ShowsPair};

use crate::DataFile;
use sasi_cells::Partition;
use sasi_host::{BufferedFile, FormatRule, Host, PageReader, ReadFault, found};
use sasi_tokentree::Tree;
use sasi_types::Key;
use std::alloc::Global;

// Where the first partition begins.
const PARTITIONS_START: u64 = 16;

// The bytes of the smallest partition.
const MIN_PARTITION_BYTES: u64 = 17;

// Where the offset stands in a pair.
const OFFSET_FIELD: u64 = 8;

// Whether no partition can begin at this offset. `end` is where the partitions end.
fn is_wrong_offset(place: u64, end: u64) -> bool
    ensures place { result ≡ false → IsPartitionOffset end place }
    ensures wrong { IsTrue result → (place < 16) ⊎ (end < place + 17) }
{
    place < PARTITIONS_START || place > end.saturating_sub(MIN_PARTITION_BYTES)
}

/// Reads the partition to which the pair leads that the tree read last.
pub fn partition_of_pair<H: Host, P: PageReader>(
    alloc: Global,
    host: &mut H,
    pages: &mut P,
    opened: &DataFile,
    tree: &Tree,
    buffered: &mut BufferedFile,
    place: u64,
) -> Result<(Key, Partition), ReadFault>
    requires read { CanRead (P.agrees pages.old) (H.view host.old) opened.now.file }
    requires buffered { IsBuffered buffered.old (H.view host.old).files }
    requires named { buffered.old.file ≡ opened.now.file }
    requires tree { tree.now.tree ≡ opened.now.tree }
    requires passed { HasPassed tree.now.tree tree.now.passed }
    ensures ok { IfOk result (λ read. ReadsPartition (H.view host.old) opened.now place read.0 read.1) }
    ensures in_table { IfOk result (λ read. IsBodyOf opened.now.types read.0 read.1) }
    ensures begins { OnOk result (IsPartitionOffset opened.now.end place) }
    ensures stands { IfOk result (λ read. IsStoredAt (H.view host.old) opened.now place read.0 read.1) }
    ensures damaged { IfErr result (DamageShown (H.view host.old) opened.now.file (ShowsPair opened.now (tree.now.passed - 1) place)) }
    ensures undamaged { IfErr result (NoFalsePartitionDamage (H.view host.old) opened.now place) }
    ensures named { buffered.new.file ≡ opened.now.file }
    ensures buffered { IsBuffered buffered.new (H.view host.new).files }
    ensures page { IfOk result (λ read. buffered.new.page ≡ Some ((place + 3 + length (body read.0 read.1)) / 4096)) }
    ensures read { HasRead (P.agrees pages.new) (P.covers pages.old) (P.covers pages.new) (H.view host.old) (H.view host.new) opened.now.file }
    ensures causes { ReadCost 2050 (H.view host.old) (H.view host.new) result }
    ensures reads { (partitioner : Partitioner) (content : Content) (key : Bytes) (part : Part) → IsOpenOn (H.view host.old) opened.now partitioner content → StandsAt content place key part → (H.view host.new).reads ≤ (H.view host.old).reads + partition_reads buffered.old.page place (length (body key part)) }
{
    if is_wrong_offset(place, opened.end()) {
        let at = tree.last_offset() + OFFSET_FIELD;
        let damage = found(buffered.file(), at, FormatRule::Place, &place.to_be_bytes());
        return Err(ReadFault::Damaged(damage));
    }
    opened.at_buffered(alloc, host, pages, buffered, place)
}
