// Writes a data file, with the index files that are to go with it.
ghost use Rattle.std.specs.Prelude.{◌≡◌, ◌≤◌, ◌∷◌, ◌++◌, [], length, map, IfOk, OnOk, IsTrue, is_ok};
ghost use Rattle.std.specs.List.{AllByRecursion};
ghost use Rattle.sasi_types.specs.Token.{token_of};
ghost use Rattle.sasi_host.specs.View.{DiskCauses, IsAbsent, IsThere, ListCauses, MakesCalls, Reaches};
ghost use Rattle.sasi_host.specs.Disk.{AnyChange, Changes, FileChange, MaybeDeleted, Within};
ghost use Rattle.sasi_host.specs.Names.{data_name};
ghost use Rattle.sasi_body.specs.Body.{HasBody};
ghost use Rattle.sasi_datawrite.specs.Causes.{PushCauses};
ghost use Rattle.sasi_datawrite.specs.Format.{Content};
ghost use Rattle.sasi_datawrite.specs.Writing.{last_pair};
ghost use Rattle.sasi_manifest.specs.ListedFiles.{IndexesRise, is_name_of};
ghost use Rattle.sasi_pairs.specs.Gathered.{CanIndex, IsBuilt, LacksClass, defs_of};
ghost use Rattle.sasi_pairs.specs.PairViews.{IsPairing};
ghost use Rattle.sasi_pairs.specs.SealedFiles.{AreAbsent, AreDefined, AreDurable};

use crate::builder::IndexBuilder;
use crate::builders::builders_of;
use crate::durable::finish_durably;
use crate::push::push_partition;
use crate::{PairFault, Sealed};
use sasi_analyzers::Kit;
use sasi_cells::Partition;
use sasi_datawrite::DataWriter;
use sasi_host::{DataNumber, Failed, FileName, Host, HostFault};
use sasi_manifest::PartNumbers;
use sasi_types::{IndexList, Key, Partitioner};
use std::alloc::Global;
use std::marker::Model;

/// A writer of a data file and of its index files. It keeps the postings of each index in memory; those of an index file are
/// written when the data file is whole.
#[derive(Drop)]
pub struct PairWriter {
    file: FileName,
    writer: DataWriter,
    builders: Vec<IndexBuilder>,
    usable: bool,
}

impl Model for PairWriter {
    ghost use Rattle.std.specs.Prelude.{◌&&◌};
    ghost use Rattle.sasi_pairs.specs.PairViews.{KeepsPostings, PairView};

    ghost Value = { PairView };

    ghost view = { λ a. record { writer = record a.writer { usable = a.usable && a.writer.usable }; indexes = a.builders.items } };

    ghost invariant = { λ a. KeepsPostings a.file a.writer a.builders.items a.usable };
}

impl PairWriter {
    /// Creates the data file with this number. It has a header and no partition yet, and no index file is there.
    pub fn begin<H: Host>(
        alloc: Global,
        host: &mut H,
        number: DataNumber,
        partitioner: Partitioner,
        defs: &IndexList,
    ) -> Result<PairWriter, HostFault>
        requires absent { IsAbsent (H.view host.old) (data_name number) }
        requires built { AllByRecursion IsBuilt defs.now }
        ensures ok { IfOk result (λ pair. IsPairing (H.view host.new) pair []) }
        ensures defs { IfOk result (λ pair. defs_of pair.indexes ≡ defs.now) }
        ensures file { IfOk result (λ pair. pair.writer.file ≡ data_name number) }
        ensures partitioner { IfOk result (λ pair. pair.writer.partitioner ≡ partitioner) }
        ensures room { IfOk result (λ pair. Reaches (H.view host.new) pair.writer.file pair.writer.offset) }
        ensures usable { IfOk result (λ pair. IsTrue pair.writer.usable) }
        ensures changes { Changes (FileChange (data_name number) AnyChange) (H.view host.old) (H.view host.new) }
        ensures calls { MakesCalls 2 (H.view host.old) (H.view host.new) result }
        ensures causes { ListCauses (H.view host.old) (H.view host.new) result }
    {
        let builders = builders_of(alloc, number, defs.as_slice())?;
        let writer = DataWriter::begin(alloc, host, number, partitioner)?;
        Ok(PairWriter {
            file: FileName::data(number),
            writer,
            builders,
            usable: true,
        })
    }

    /// Writes the next partition, by one call of the host, and adds its postings to each index. Its token isn't below the last
    /// one. After a fault the file is still there, with any bytes: the writer isn't usable, and can be given up.
    pub fn push<H: Host>(
        &mut self,
        host: &mut H,
        kit: &mut Kit,
        key: &Key,
        part: &Partition,
    ) -> Result<(), PairFault>
        requires body { HasBody key.now part.now }
        requires rising { (last_pair self.old.writer.pairs).token ≤ token_of self.old.writer.partitioner key.now }
        requires room { Reaches (H.view host.old) self.old.writer.file self.old.writer.offset }
        requires usable { IsTrue self.old.writer.usable }
        requires typed { AllByRecursion (CanIndex part.now) (defs_of self.old.indexes) }
        ensures ok { OnOk result ((content : Content) → IsPairing (H.view host.old) self.old content → IsPairing (H.view host.new) self.new (content ++ (key.now, part.now) ∷ [])) }
        ensures pairs { OnOk result (self.new.writer.pairs ≡ self.old.writer.pairs ++ record { token = token_of self.old.writer.partitioner key.now; place = self.old.writer.offset } ∷ []) }
        ensures last { OnOk result ((last_pair self.new.writer.pairs).token ≡ token_of self.old.writer.partitioner key.now) }
        ensures room { OnOk result (Reaches (H.view host.new) self.new.writer.file self.new.writer.offset) }
        ensures usable { self.new.writer.usable ≡ is_ok result }
        ensures file { self.new.writer.file ≡ self.old.writer.file }
        ensures partitioner { self.new.writer.partitioner ≡ self.old.writer.partitioner }
        ensures defs { defs_of self.new.indexes ≡ defs_of self.old.indexes }
        ensures there { IsThere (H.view host.new) self.new.writer.file }
        ensures changes { Changes (FileChange self.old.writer.file AnyChange) (H.view host.old) (H.view host.new) }
        ensures calls { MakesCalls 1 (H.view host.old) (H.view host.new) result }
        ensures causes { PushCauses (LacksClass (map (λ b. kind (b.vtable, b.value)) kit.old.objects.items) (defs_of self.old.indexes)) (H.view host.old) (H.view host.new) result }
        ensures classes { map (λ b. kind (b.vtable, b.value)) kit.new.objects.items ≡ map (λ b. kind (b.vtable, b.value)) kit.old.objects.items }
    {
        let alloc = *self.builders.allocator();
        self.usable = false;
        push_partition(
            alloc,
            host,
            &mut self.writer,
            &mut self.builders,
            kit,
            key,
            part,
        )?;
        self.usable = true;
        Ok(())
    }

    /// Ends the data file, writes the index file of each part, and syncs them and then the folder: each image has them then. An
    /// index that has no part gets no file. A part is one of an index that was given at the start, and no index has two.
    pub fn seal<H: Host>(self, host: &mut H, parts: &PartNumbers) -> Result<Sealed, PairFault>
        requires some { 1 ≤ length self.writer.pairs }
        requires defined { AreDefined (defs_of self.indexes) parts.now }
        requires rising { IndexesRise parts.now }
        requires absent { AreAbsent (H.view host.old) self.writer.file.number parts.now }
        requires room { Reaches (H.view host.old) self.writer.file self.writer.offset }
        requires usable { IsTrue self.writer.usable }
        ensures durable { OnOk result ((content : Content) → IsPairing (H.view host.old) self content → AreDurable (H.view host.new) self parts.now content) }
        ensures sealed { IfOk result (λ sealed. sealed ≡ record { number = self.writer.file.number; parts = parts.now }) }
        ensures changes { Changes (Within (is_name_of (record { number = self.writer.file.number; parts = parts.now }))) (H.view host.old) (H.view host.new) }
        ensures causes { PushCauses (λ _. ⊥) (H.view host.old) (H.view host.new) result }
    {
        let alloc = *self.builders.allocator();
        let sealed = Sealed::of(alloc, self.file.number, parts.as_slice())?;
        let PairWriter {
            writer,
            builders,
            ..
        } = self;
        finish_durably(alloc, host, writer, builders, parts.as_slice())?;
        Ok(sealed)
    }

    /// Deletes what was written. Allocates nothing.
    pub fn give_up<H: Host>(self, host: &mut H) -> Result<(), Failed>
        requires { IsThere (H.view host.old) self.writer.file }
        ensures gone { OnOk result (IsAbsent (H.view host.new) self.writer.file) }
        ensures changes { Changes (FileChange self.writer.file MaybeDeleted) (H.view host.old) (H.view host.new) }
        ensures calls { MakesCalls 1 (H.view host.old) (H.view host.new) result }
        ensures causes { DiskCauses (H.view host.old) (H.view host.new) result }
    {
        host.delete(self.file)
    }
}
