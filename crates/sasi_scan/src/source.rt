// Sources of a table's partitions.
ghost use Rattle.std.specs.Prelude.{◌≡◌, IfErr, IfOk};
ghost use Rattle.sasi_types.specs.declared.partitioner.Partitioner.{Partitioner};
ghost use Rattle.sasi_host.specs.Disk.{Changes, Same};
ghost use Rattle.sasi_host.specs.View.{ReadCost};
ghost use Rattle.sasi_dataread.specs.Damages.{ShowsData};
ghost use Rattle.sasi_scan.specs.Paging.{StepsWithin};
ghost use Rattle.sasi_scan.specs.Sources.{CanWalk, CanStep, NoFalseSourceDamage, ShowsSource, StepsInFile, StepsTo};
ghost use Rattle.sasi_scan.specs.declared.source.Source.TheVariants.{File as InFile};

use crate::map_heads::head_after;
use crate::maps::Maps;
use sasi_dataread::Walk;
use sasi_host::{Direct, Host, ReadFault};
use sasi_merge::Head;
use sasi_types::DecoratedKey;
use std::alloc::Global;

/// The partitions of a data file, or of the map at a position of the maps in memory, in the order of their decorated keys.
#[derive(Drop)]
pub enum Source {
    File(Walk),
    Map(usize),
}

impl Source {
    /// The next partition, which in a map is the first one behind the key; None at the end. Of a data file one page is read at a
    /// time.
    pub fn next<H: Host>(
        &mut self,
        alloc: Global,
        host: &mut H,
        maps: &Maps,
        key: &DecoratedKey,
    ) -> Result<Head, ReadFault>
        requires { CanStep (H.view host.old).files maps.now self.old }
        ensures steps { IfOk result (λ head. StepsTo (H.view host.old).files maps.now key.now self.old head self.new) }
        ensures damaged { IfErr result (ShowsSource (H.view host.old).files self.old) }
        ensures undamaged { IfErr result (NoFalseSourceDamage (H.view host.old).files self.old) }
        ensures reads { (partitioner : Partitioner) → StepsWithin (H.view host.old).files partitioner self.old self.new (H.view host.old).reads (H.view host.new).reads result }
        ensures changes { Changes Same (H.view host.old) (H.view host.new) }
        ensures causes { ReadCost 2052 (H.view host.old) (H.view host.new) result }
    {
        match self {
            Source::File(scan) => next_in_file(alloc, host, scan),
            Source::Map(position) => Ok(head_after(alloc, maps, *position, Some(key))?),
        }
    }
}

/// The next partition of a data file.
pub fn next_in_file<H: Host>(
    alloc: Global,
    host: &mut H,
    scan: &mut Walk,
) -> Result<Head, ReadFault>
    requires { CanWalk (H.view host.old).files scan.old }
    ensures steps { IfOk result (λ head. StepsInFile (H.view host.old).files scan.old head scan.new) }
    ensures damaged { IfErr result (ShowsSource (H.view host.old).files (InFile scan.old)) }
    ensures undamaged { IfErr result (NoFalseSourceDamage (H.view host.old).files (InFile scan.old)) }
    ensures reads { (partitioner : Partitioner) → StepsWithin (H.view host.old).files partitioner (InFile scan.old) (InFile scan.new) (H.view host.old).reads (H.view host.new).reads result }
    ensures changes { Changes Same (H.view host.old) (H.view host.new) }
    ensures causes { ReadCost 2052 (H.view host.old) (H.view host.new) result }
{
    scan.next(alloc, host, &mut Direct)
}
