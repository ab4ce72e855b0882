// The postings of an index, while its data file is written.
ghost use Rattle.std.specs.Prelude.{◌≡◌, ◌≢◌, [], map, Err, IfOk, OnOk};
ghost use Rattle.std.specs.Option.{option_copied};
ghost use Rattle.std.specs.FinMap as map_;
ghost use Rattle.sasi_types.specs.declared.class.Class.{Class};
ghost use Rattle.sasi_host.specs.View.{IsAbsent};
ghost use Rattle.sasi_host.specs.Disk.{AnyChange, Changes, FileChange, IsSynced};
ghost use Rattle.sasi_memindex.specs.Book.{IsMissing};
ghost use Rattle.sasi_memindex.specs.IndexedValues.{live_value};
ghost use Rattle.sasi_indexwrite.specs.Causes.{WriteCauses};
ghost use Rattle.sasi_indexwrite.specs.Files.{HoldsIndex};
ghost use Rattle.sasi_indexwrite.specs.Stored.{stored};
ghost use Rattle.sasi_indexwrite.specs.TermsSoFar.{AreSortedPostings};
ghost use Rattle.sasi_pairs.specs.Gathered.{CanTake, IsBuilt, fresh, with_partition};

use sasi_analyzers::Kit;
use sasi_cells::Partition;
use sasi_host::{DataNumber, FileName, Host, ReadFault};
use sasi_indexwrite::write_index;
use sasi_postings::add_postings;
use sasi_segments::Gather;
use sasi_types::{IndexDef, KitFault, Pair, Value};
use std::alloc::{AllocError, Global};
use std::marker::Model;

/// Gathers the postings of one index.
#[derive(Drop)]
pub struct IndexBuilder {
    def: IndexDef,
    gather: Gather,
}

impl Model for IndexBuilder {
    ghost use Rattle.sasi_pairs.specs.Gathered.{GatheredIndex};

    ghost Value = { GatheredIndex };

    ghost view = { λ a. record { def = a.def; postings = a.gather.postings } };
}

impl IndexBuilder {
    /// The builder of an index of a data file, without a posting.
    pub fn new(
        alloc: Global,
        number: DataNumber,
        def: &IndexDef,
    ) -> Result<IndexBuilder, AllocError>
        ensures { IfOk result (λ builder. builder ≡ fresh def.now) }
    {
        Ok(IndexBuilder {
            def: def.copy(alloc)?,
            gather: Gather::new(alloc, number, def.number),
        })
    }

    /// The number of the index.
    pub fn number(&self) -> u32
        ensures { result ≡ self.now.def.number }
    {
        self.def.number
    }

    /// Adds the postings of a partition, which the key tree has at this pair.
    pub fn add(
        &mut self,
        alloc: Global,
        pair: Pair,
        part: &Partition,
        kit: &mut Kit,
    ) -> Result<(), KitFault>
        requires { CanTake part.now self.old }
        ensures ok { OnOk result (self.new ≡ with_partition pair part.now self.old) }
        ensures def { self.new.def ≡ self.old.def }
        ensures missing { (class : Class) → result ≡ Err (KitFault.Missing class) → IsMissing (map (λ b. kind (b.vtable, b.value)) kit.old.objects.items) self.old.def.rule class }
        ensures classes { map (λ b. kind (b.vtable, b.value)) kit.new.objects.items ≡ map (λ b. kind (b.vtable, b.value)) kit.old.objects.items }
    {
        let value = value_in(part, self.def.column);
        add_postings(alloc, &mut self.gather, self.def.rule, value, pair, kit)
    }

    /// Writes the index file with what its mode keeps of the postings, and syncs it.
    pub fn write<H: Host>(
        self,
        alloc: Global,
        host: &mut H,
        file: FileName,
    ) -> Result<(), ReadFault>
        requires built { IsBuilt self.def }
        requires gathered { AreSortedPostings self.postings }
        requires absent { IsAbsent (H.view host.old) file }
        ensures ok { OnOk result (HoldsIndex (H.view host.new) file self.def.mode self.def.kind (stored self.def.mode self.postings)) }
        ensures synced { OnOk result (IsSynced (H.view host.new) file) }
        ensures changes { Changes (FileChange file AnyChange) (H.view host.old) (H.view host.new) }
        ensures causes { WriteCauses (H.view host.old) (H.view host.new) result }
    {
        let IndexBuilder { def, gather } = self;
        write_index(alloc, host, file, &def, gather)
    }
}

// The value of a column, if the partition has a live cell there.
fn value_in(part: &Partition, column: u16) -> Option<&Value>
    ensures { option_copied result ≡ live_value (map_.get part.now.cells column) }
{
    part.cell(column)?.value()
}
