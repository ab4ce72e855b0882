// Scans of a table.
ghost use Rattle.std.specs.Prelude.{◌≡◌, ◌≢◌, ◌+◌, ◌≤◌, ℕ, List, [], IfErr, IfOk, IfSome, IsSome, MatchResult, OnOk, Some};
ghost use Rattle.std.specs.FinMap as map_;
ghost use Rattle.std.specs.List.{AllByRecursion};
ghost use Rattle.sasi_types.specs.declared.column.ColumnType.{ColumnType};
ghost use Rattle.sasi_types.specs.declared.partitioner.Partitioner.{Partitioner};
ghost use Rattle.sasi_host.specs.Damages.{OnDamage};
ghost use Rattle.sasi_host.specs.Disk.{Changes, Same};
ghost use Rattle.sasi_host.specs.Names.{data_name};
ghost use Rattle.sasi_host.specs.View.{IsThere};
ghost use Rattle.sasi_dataread.specs.Tokens.{AgreesWith};
ghost use Rattle.sasi_datawrite.specs.Format.{Content};
ghost use Rattle.sasi_manifest.specs.declared.files.ListedFile.{ListedFile as AListedFile};
ghost use Rattle.sasi_merge.specs.Streams.{Entries};
ghost use Rattle.sasi_scan.specs.KeyOrder.{GivesAbove, HasHead, IsUnder};
ghost use Rattle.sasi_scan.specs.Parts.{AreContents, IsMergeOfParts, ShowsListed, merged_parts};
ghost use Rattle.sasi_scan.specs.Paging.{table_reads};
ghost use Rattle.sasi_scan.specs.Scanning.{CanScan, GivesFirst, HasReadsLeft, IsScanOf, IsScanning, MayRead, ScanCauses, scan_of};

use crate::maps::Maps;
use crate::source::Source;
use crate::sources::{add_maps, advance, open_files};
use sasi_cells::Partition;
use sasi_host::{Host, ReadFault};
use sasi_manifest::ListedFile;
use sasi_merge::Heads;
use sasi_types::{Key, Partitioner, TypeList};
use std::alloc::Global;
use std::marker::Model;

/// A scan of the merge of a table's parts, in the order of the decorated keys. Of each part it has one partition in memory at a
/// time, and of a data file two pages. It has no hold on the maps: of each it has the position, and takes them at each call.
#[derive(Drop)]
pub struct TableScan {
    heads: Heads,
    sources: Vec<Source>,
}

impl Model for TableScan {
    ghost use Rattle.sasi_scan.specs.Codes.{coded_scan};
    ghost use Rattle.sasi_scan.specs.Scanning.{ScanView};

    ghost Value = { ScanView };

    ghost coded = { coded_scan };

    ghost view = { λ a. record { heads = a.heads; sources = a.sources.items } };
}

impl TableScan {
    /// A scan of listed data files of a table with these types, and of maps in memory, the oldest first. The tokens of the files are those
    /// of their key trees, or under a partitioner those of the keys: so a file in which these fall is out of order.
    pub fn open<H: Host>(
        alloc: Global,
        host: &mut H,
        files: &[ListedFile],
        types: &TypeList,
        maps: &Maps,
        tokens: Option<Partitioner>,
    ) -> Result<TableScan, ReadFault>
        requires { AllByRecursion (λ (f : AListedFile). IsThere (H.view host.old) (data_name f.number)) files.now }
        // The whole merge is left.
        ensures opened { IfOk result (λ scan. (partitioner : Partitioner) (contents : List Content) → AgreesWith tokens partitioner → AreContents (H.view host.old).files partitioner types.now files.now contents
            → IsScanning (H.view host.old).files partitioner maps.now scan (map_.entries (merged_parts partitioner contents maps.now))) }
        ensures can { IfOk result (CanScan (H.view host.new).files maps.now) }
        ensures is_of { IfOk result (IsScanOf (H.view host.old).files files.now types.now maps.now) }
        // In any file a scan of data files alone has the tokens of a partitioner that it is given.
        ensures under { (partitioner : Partitioner) → tokens ≡ Some partitioner → maps.now ≡ [] → IfOk result (IsUnder partitioner) }
        // Where there is a file, it has a partition.
        ensures some { files.now ≢ [] → IfOk result HasHead }
        // What it reads and what is left to read are each page of the data files twice at most, and three pages more of each.
        ensures reads { (partitioner : Partitioner) (contents : List Content) → AreContents (H.view host.old).files partitioner types.now files.now contents
            → MatchResult result (λ scan. HasReadsLeft (H.view host.old).files partitioner scan ((H.view host.old).reads + table_reads (H.view host.old).files files.now) (H.view host.new).reads) (λ _. (H.view host.new).reads ≤ (H.view host.old).reads + table_reads (H.view host.old).files files.now) }
        ensures damaged { IfErr result (OnDamage (ShowsListed (H.view host.old).files files.now types.now)) }
        ensures undamaged { IfErr result (OnDamage (λ _. (partitioner : Partitioner) (contents : List Content) → AgreesWith tokens partitioner → AreContents (H.view host.old).files partitioner types.now files.now contents → ⊥)) }
        ensures changes { Changes Same (H.view host.old) (H.view host.new) }
        ensures causes { ScanCauses (H.view host.old) (H.view host.new) result }
    {
        let mut heads = Heads::new(alloc);
        let mut sources = Vec::new(alloc);
        open_files(alloc, host, files, types, tokens, &mut heads, &mut sources)?;
        add_maps(alloc, maps, &mut heads, &mut sources)?;
        Ok(TableScan { heads, sources })
    }

    /// The next key with its merged partition; None exactly at the end. The maps are those with which the scan was opened. After an
    /// error the scan isn't used.
    pub fn next<H: Host>(
        &mut self,
        alloc: Global,
        host: &mut H,
        maps: &Maps,
    ) -> Result<Option<(Key, Partition)>, ReadFault>
        requires { CanScan (H.view host.old).files maps.now self.old }
        ensures next { IfOk result (λ found. (partitioner : Partitioner) (left : Entries) → IsScanning (H.view host.old).files partitioner maps.now self.old left → GivesFirst (H.view host.old).files partitioner maps.now left self.new found) }
        // In any file what is given of a key is the merge of what the parts have of it.
        ensures of_parts { (files : List AListedFile) (types : List ColumnType) → IsScanOf (H.view host.old).files files types maps.now self.old → IfOk result (λ found. IfSome found (λ one. IsMergeOfParts types maps.now one.0 one.1)) }
        // In any file the keys that it gives rise, each under a token of its key trees or its maps, or under that of a partitioner.
        ensures rises { IfOk result (λ found. IfSome found (GivesAbove self.old self.new)) }
        ensures under { (partitioner : Partitioner) → IsUnder partitioner self.old → OnOk result (IsUnder partitioner self.new) }
        // Where a part has a next partition, it gives one.
        ensures some { HasHead self.old → IfOk result (λ found. IsSome found) }
        ensures can { OnOk result (CanScan (H.view host.new).files maps.now self.new) }
        ensures is_of { (files : List AListedFile) (types : List ColumnType) → IsScanOf (H.view host.old).files files types maps.now self.old → OnOk result (IsScanOf (H.view host.old).files files types maps.now self.new) }
        ensures reads { (partitioner : Partitioner) (most : ℕ) → MayRead (H.view host.old).files partitioner self.old most
            → MatchResult result (λ _. HasReadsLeft (H.view host.old).files partitioner self.new ((H.view host.old).reads + most) (H.view host.new).reads) (λ _. (H.view host.new).reads ≤ (H.view host.old).reads + most) }
        ensures damaged { (files : List AListedFile) (types : List ColumnType) → IsScanOf (H.view host.old).files files types maps.now self.old → IfErr result (OnDamage (ShowsListed (H.view host.old).files files types)) }
        ensures undamaged { (partitioner : Partitioner) (left : Entries) → IsScanning (H.view host.old).files partitioner maps.now self.old left → IfErr result (OnDamage (λ _. ⊥)) }
        ensures changes { Changes Same (H.view host.old) (H.view host.new) }
        ensures causes { ScanCauses (H.view host.old) (H.view host.new) result }
    {
        next_of(alloc, host, maps, &mut self.heads, &mut self.sources)
    }
}

// The next key of sources with its merged partition; those that had it go on.
fn next_of<H: Host>(
    alloc: Global,
    host: &mut H,
    maps: &Maps,
    heads: &mut Heads,
    sources: &mut Vec<Source>,
) -> Result<Option<(Key, Partition)>, ReadFault>
    requires { CanScan (H.view host.old).files maps.now (scan_of heads.old sources.old.items) }
    ensures next { IfOk result (λ found. (partitioner : Partitioner) (left : Entries) → IsScanning (H.view host.old).files partitioner maps.now (scan_of heads.old sources.old.items) left → GivesFirst (H.view host.old).files partitioner maps.now left (scan_of heads.new sources.new.items) found) }
    ensures of_parts { (files : List AListedFile) (types : List ColumnType) → IsScanOf (H.view host.old).files files types maps.now (scan_of heads.old sources.old.items) → IfOk result (λ found. IfSome found (λ one. IsMergeOfParts types maps.now one.0 one.1)) }
    ensures rises { IfOk result (λ found. IfSome found (GivesAbove (scan_of heads.old sources.old.items) (scan_of heads.new sources.new.items))) }
    ensures under { (partitioner : Partitioner) → IsUnder partitioner (scan_of heads.old sources.old.items) → OnOk result (IsUnder partitioner (scan_of heads.new sources.new.items)) }
    ensures some { HasHead (scan_of heads.old sources.old.items) → IfOk result (λ found. IsSome found) }
    ensures can { OnOk result (CanScan (H.view host.new).files maps.now (scan_of heads.new sources.new.items)) }
    ensures is_of { (files : List AListedFile) (types : List ColumnType) → IsScanOf (H.view host.old).files files types maps.now (scan_of heads.old sources.old.items) → OnOk result (IsScanOf (H.view host.old).files files types maps.now (scan_of heads.new sources.new.items)) }
    ensures reads { (partitioner : Partitioner) (most : ℕ) → MayRead (H.view host.old).files partitioner (scan_of heads.old sources.old.items) most
        → MatchResult result (λ _. HasReadsLeft (H.view host.old).files partitioner (scan_of heads.new sources.new.items) ((H.view host.old).reads + most) (H.view host.new).reads) (λ _. (H.view host.new).reads ≤ (H.view host.old).reads + most) }
    ensures damaged { (files : List AListedFile) (types : List ColumnType) → IsScanOf (H.view host.old).files files types maps.now (scan_of heads.old sources.old.items) → IfErr result (OnDamage (ShowsListed (H.view host.old).files files types)) }
    ensures undamaged { (partitioner : Partitioner) (left : Entries) → IsScanning (H.view host.old).files partitioner maps.now (scan_of heads.old sources.old.items) left → IfErr result (OnDamage (λ _. ⊥)) }
    ensures changes { Changes Same (H.view host.old) (H.view host.new) }
    ensures causes { ScanCauses (H.view host.old) (H.view host.new) result }
{
    match heads.least_key(alloc)? {
        None => Ok(None),
        Some(key) => {
            let mut part = Partition::new(alloc);
            advance(alloc, host, maps, &key, &mut part, heads, sources)?;
            Ok(Some((key.key, part)))
        }
    }
}
