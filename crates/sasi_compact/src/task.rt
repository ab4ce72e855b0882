// Stepped compactions.
ghost use Rattle.std.specs.Prelude.{◌≡◌, ◌+◌, ◌-◌, ◌^◌, ◌≤◌, ℕ, [], length, map, min, true, None, Some, IfErr, IfOk, IsSome, IsTrue, MatchResult, OnErr, OnOk};
ghost use Rattle.sasi_host.specs.Disk.{AnyChange, Changes, FileChange, MaybeDeleted};
ghost use Rattle.sasi_host.specs.Names.{data_name, manifest_name};
ghost use Rattle.std.specs.List.{AllByRecursion};
ghost use Rattle.sasi_host.specs.View.{DiskCauses, IsAbsent, IsThere, Reaches};
ghost use Rattle.sasi_datawrite.specs.Causes.{PushCauses};
ghost use Rattle.sasi_manifest.specs.declared.listing.Listing.{Listing};
ghost use Rattle.sasi_manifest.specs.Edits.{encoded};
ghost use Rattle.sasi_manifest.specs.ListedFiles.{names_of};
ghost use Rattle.sasi_manifest.specs.Format.{IsNext};
ghost use Rattle.sasi_manifest.specs.OpenManifest.{ManifestStands};
ghost use Rattle.sasi_merge.specs.Streams.{Entries};
ghost use Rattle.sasi_pairs.specs.Gathered.{LacksClass};
ghost use Rattle.sasi_scan.specs.Parts.{ShowsListed};
ghost use Rattle.sasi_compact.specs.Listing.{AreKept, CanHaveParts, CanList, ChangesOutput, ListsOutput, edits_of as the_edits, output_file};
ghost use Rattle.sasi_compact.specs.Tasks.{CanGiveUp, CanGoOn, CompactCauses, HasPassed, HasReadsLeft, IsCompacting, IsReady, IsReadyAt, IsReadyTo, IsWriterOf, MayReadMore, OnPairDamage, content_of, sources_of};

use crate::compaction::Compaction;
use crate::listing::{edits_of, file_with, length_of};
use crate::output::{Output, do_units};
use crate::{PairFault, Progress};
use sasi_analyzers::Kit;
use sasi_host::{DataNumber, Failed, Host};
use sasi_manifest::{ListedFile, Manifest, NumberList, PartNumbers};
use sasi_pairs::{PairWriter, commit};
use sasi_types::{IndexDef, IndexList, Partitioner, TableNumber, TypeList};
use std::alloc::Global;

/// A compaction of some data files of a table into one. Of the sources it has one partition each in memory at a time, of the output the
/// postings of its indexes.
#[derive(Drop)]
pub struct CompactTask {
    alloc: Global,
    compaction: Compaction,
    output: Option<Output>,
    usable: bool,
}

impl CompactTask {
    /// A compaction of the data files with these numbers, the oldest first, into the one with this number. It makes no call of the host.
    pub fn begin(
        alloc: Global,
        sources: NumberList,
        number: DataNumber,
        indexes: IndexList,
        types: TypeList,
        partitioner: Partitioner,
    ) -> CompactTask
        ensures { result ≡ record { alloc = alloc; compaction = record { sources = sources; number = number; indexes = indexes; types = types; partitioner = partitioner }; output = None; usable = true } }
    {
        CompactTask {
            alloc,
            compaction: Compaction {
                sources,
                number,
                indexes,
                types,
                partitioner,
            },
            output: None,
            usable: true,
        }
    }

    /// Writes the next partitions of the merge, one a unit, until the units are used or none is left. The first unit makes the data file.
    /// After an error it isn't called again, but the task can be given up.
    pub fn step<H: Host>(
        &mut self,
        host: &mut H,
        kit: &mut Kit,
        units: u32,
    ) -> Result<Progress, PairFault>
        requires { CanGoOn (H.view host.old) self.old }
        // The next partitions of the merge are passed, so many as units were given, or all that are left.
        ensures passed { IfOk result (λ progress. (passed left : Entries) → IsCompacting (H.view host.old) self.old passed left → HasPassed (H.view host.new) self.new.compaction self.new.output units passed left progress) }
        ensures can { OnOk result (CanGoOn (H.view host.new) self.new) }
        ensures ready { IfOk result (IsReadyAt self.new.output) }
        ensures give_up { CanGiveUp (H.view host.new) self.new }
        // No unit makes no file.
        ensures idle { self.old.output ≡ None → units ≡ 0 → (self.new.output ≡ None) × (host.new ≡ host.old) }
        ensures same { self.new.compaction ≡ self.old.compaction }
        // What it reads and what is left to read are no more than was left to read before, also where it fails.
        ensures reads { (most : ℕ) → MayReadMore (H.view host.old).files self.old most
            → MatchResult result (λ _. HasReadsLeft (H.view host.new).files self.new.compaction self.new.output ((H.view host.old).reads + most) (H.view host.new).reads) (λ _. (H.view host.new).reads ≤ (H.view host.old).reads + most) }
        // Damage is that of a source, and none is reported where the sources are right.
        ensures damaged { IfErr result (OnPairDamage (ShowsListed (H.view host.old).files (sources_of self.old.compaction) self.old.compaction.types)) }
        ensures undamaged { (passed left : Entries) → IsCompacting (H.view host.old) self.old passed left → IfErr result (OnPairDamage (λ _. ⊥)) }
        ensures changes { Changes (FileChange (data_name self.old.compaction.number) AnyChange) (H.view host.old) (H.view host.new) }
        ensures causes { CompactCauses (LacksClass (map (λ b. kind (b.vtable, b.value)) kit.old.objects.items) self.old.compaction.indexes) (H.view host.old) (H.view host.new) result }
        ensures classes { map (λ b. kind (b.vtable, b.value)) kit.new.objects.items ≡ map (λ b. kind (b.vtable, b.value)) kit.old.objects.items }
    {
        self.usable = false;
        let progress = do_units(
            self.alloc,
            host,
            kit,
            &self.compaction,
            &mut self.output,
            units,
        )?;
        self.usable = true;
        Ok(progress)
    }

    /// The indexes that it was begun with.
    pub fn indexes(&self) -> &[IndexDef]
        ensures { result.now ≡ self.now.compaction.indexes }
    {
        self.compaction.indexes.as_slice()
    }

    /// The numbers of the data files that it takes in, the oldest first.
    pub fn sources(&self) -> &[DataNumber]
        ensures { result.now ≡ self.now.compaction.sources }
    {
        self.compaction.sources.as_slice()
    }

    /// The number of its data file, if that is begun.
    pub fn output(&self) -> Option<DataNumber>
        ensures none { self.now.output ≡ None → result ≡ None }
        ensures some { IsSome self.now.output → result ≡ Some self.now.compaction.number }
    {
        match &self.output {
            Some(_) => Some(self.compaction.number),
            None => None,
        }
    }

    /// The length of the payload of the record that `finish` appends with these parts.
    pub fn record_length(&self, parts: &PartNumbers) -> u64
        ensures { (listing : Listing) (table : ℕ) → result ≡ min (length (encoded (the_edits listing table self.now.compaction parts.now))) (2 ^ 64 - 1) }
    {
        length_of(
            self.compaction.sources.as_slice().len(),
            parts.as_slice().len(),
        )
    }

    /// The last unit: ends the data file, writes the index files of these parts, and lists them in the place of the sources. An index
    /// without a part gets no file.
    pub fn finish<H: Host>(
        self,
        host: &mut H,
        manifest: &mut Manifest,
        table: TableNumber,
        parts: &PartNumbers,
    ) -> Result<ListedFile, PairFault>
        requires can { CanGoOn (H.view host.old) self }
        requires ready { IsReady self }
        requires parts { CanHaveParts (H.view host.old) self.compaction parts.now }
        requires lists { CanList (H.view host.old) manifest.old (the_edits manifest.old.listing table self.compaction parts.now) }
        ensures file { IfOk result (λ file. file ≡ output_file self.compaction parts.now) }
        // The output is listed whole or not at all, and where the call succeeds its files are durable.
        ensures whole { (next : Listing) (passed : Entries) → IsNext manifest.old.listing (the_edits manifest.old.listing table self.compaction parts.now) next
            → ManifestStands (H.view host.old) manifest.old.number manifest.old.at manifest.old.listing → IsCompacting (H.view host.old) self passed []
            → Changes (ListsOutput manifest.old.number manifest.old.listing next self.compaction parts.now (content_of passed)) (H.view host.old) (H.view host.new) }
        ensures kept { OnOk result ((passed : Entries) → IsCompacting (H.view host.old) self passed [] → AreKept (H.view host.new) self.compaction parts.now (content_of passed)) }
        ensures there { OnOk result (AllByRecursion (IsThere (H.view host.new)) (names_of (output_file self.compaction parts.now))) }
        ensures listing { OnOk result (IsNext manifest.old.listing (the_edits manifest.old.listing table self.compaction parts.now) manifest.new.listing) }
        ensures err { OnErr result (manifest.new.listing ≡ manifest.old.listing) }
        ensures stands { OnOk result (ManifestStands (H.view host.old) manifest.old.number manifest.old.at manifest.old.listing → ManifestStands (H.view host.new) manifest.old.number manifest.new.at manifest.new.listing) }
        ensures room { OnOk result (Reaches (H.view host.new) (manifest_name manifest.new.number) (manifest.new.at + 1)) }
        ensures usable { OnOk result (IsTrue manifest.new.usable) }
        ensures number { manifest.new.number ≡ manifest.old.number }
        ensures changes { Changes (ChangesOutput manifest.old.number (output_file self.compaction parts.now)) (H.view host.old) (H.view host.new) }
        ensures causes { PushCauses (λ _. ⊥) (H.view host.old) (H.view host.new) result }
    {
        let CompactTask {
            alloc,
            compaction,
            output,
            ..
        } = self;
        let pairs = ready_pairs(output);
        let file = file_with(alloc, compaction.number, parts.as_slice())?;
        let listed = file_with(alloc, compaction.number, parts.as_slice())?;
        let edits = edits_of(alloc, manifest.listing(), table, compaction.sources, listed)?;
        let sealed = pairs.seal(host, parts)?;
        commit(sealed, host, manifest, &edits)?;
        Ok(file)
    }

    /// Deletes what was made: nothing before the first unit.
    pub fn give_up<H: Host>(self, host: &mut H) -> Result<(), Failed>
        requires { CanGiveUp (H.view host.old) self }
        ensures gone { OnOk result (IsSome self.output → IsAbsent (H.view host.new) (data_name self.compaction.number)) }
        ensures idle { self.output ≡ None → host.new ≡ host.old }
        ensures changes { Changes (FileChange (data_name self.compaction.number) MaybeDeleted) (H.view host.old) (H.view host.new) }
        ensures causes { DiskCauses (H.view host.old) (H.view host.new) result }
    {
        let CompactTask { output, .. } = self;
        match output {
            Some(output) => output.pairs.give_up(host),
            None => Ok(()),
        }
    }
}

// The writer of an output of which the last unit is left.
fn ready_pairs(output: Option<Output>) -> PairWriter
    requires { IsReadyTo output }
    ensures { IsWriterOf output result }
{
    match output {
        Some(output) => output.pairs,
        None => unreachable!(),
    }
}
