// Writes the index files of a data file.
ghost use Rattle.std.specs.Prelude.{◌≡◌, map, OnOk};
ghost use Rattle.std.specs.List.{AllByRecursion};
ghost use Rattle.std.specs.List.Sorted.{IsStrictlySortedBy};
ghost use Rattle.std.specs.Ordering.{nat_cmp};
ghost use Rattle.sasi_host.specs.Disk.{Changes, Within};
ghost use Rattle.sasi_indexwrite.specs.Causes.{WriteCauses};
ghost use Rattle.sasi_indexwrite.specs.TermsSoFar.{AreSortedPostings};
ghost use Rattle.sasi_pairs.specs.Gathered.{IsBuilt};
ghost use Rattle.sasi_pairs.specs.SealedFiles.{AreAbsent, AreAmong, HasSyncedIndex, is_index_of};

use crate::builder::IndexBuilder;
use crate::builders::take_builder;
use sasi_host::{DataNumber, Host, ReadFault};
use sasi_manifest::PartNumber;
use std::alloc::Global;

/// Writes the index file of each of these parts, and syncs it.
pub fn write_indexes<H: Host>(
    alloc: Global,
    host: &mut H,
    number: DataNumber,
    builders: Vec<IndexBuilder>,
    parts: &[PartNumber],
) -> Result<(), ReadFault>
    requires built { AllByRecursion (λ i. IsBuilt i.def) builders.items }
    requires gathered { AllByRecursion (λ i. AreSortedPostings i.postings) builders.items }
    requires defined { AreAmong builders.items parts.now }
    requires rising { IsStrictlySortedBy nat_cmp (map (λ p. p.index) parts.now) }
    requires absent { AreAbsent (H.view host.old) number parts.now }
    ensures synced { OnOk result (AllByRecursion (HasSyncedIndex (H.view host.new) number builders.items) parts.now) }
    ensures changes { Changes (Within (is_index_of (record { number = number; parts = parts.now }))) (H.view host.old) (H.view host.new) }
    ensures causes { WriteCauses (H.view host.old) (H.view host.new) result }
{
    let mut left = builders;
    for part in parts {
        let builder = take_builder(&mut left, part.index);
        builder.write(alloc, host, part.file_name(number))?;
    }
    Ok(())
}
