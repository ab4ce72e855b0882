// The candidates of a WHERE without an index.
ghost use Rattle.std.specs.Prelude.{◌+◌, ◌≤◌, List, ℕ, IfErr, IfOk, MatchResult, None, Option, OnOk, Some, drop};
ghost use Rattle.std.specs.FinMap as map_;
ghost use Rattle.std.specs.List.{AllByRecursion};
ghost use Rattle.sasi_types.specs.declared.column.ColumnType.{ColumnType};
ghost use Rattle.sasi_types.specs.declared.partitioner.Partitioner.{Partitioner};
ghost use Rattle.sasi_host.specs.declared.damage.Damage.{Damage};
ghost use Rattle.sasi_host.specs.declared.name.FileName.{FileName};
ghost use Rattle.sasi_host.specs.Damages.{OnDamage};
ghost use Rattle.sasi_host.specs.Disk.{Changes, Same};
ghost use Rattle.sasi_host.specs.Names.{Folder, data_name};
ghost use Rattle.sasi_host.specs.View.{IsThere};
ghost use Rattle.sasi_memindex.specs.Book.{Book};
ghost use Rattle.sasi_datawrite.specs.Format.{Content};
ghost use Rattle.sasi_manifest.specs.declared.files.ListedFile.{ListedFile as AListedFile};
ghost use Rattle.sasi_ranges.specs.StreamCalls.{Spends};
ghost use Rattle.sasi_scan.specs.Paging.{table_reads};
ghost use Rattle.sasi_scan.specs.Numbered.{views_numbered};
ghost use Rattle.sasi_scan.specs.Parts.{AreContents, ShowsListed, merged_parts};
ghost use Rattle.sasi_scan.specs.Scanning.{ScanCauses};
ghost use Rattle.sasi_recheck.specs.Sources.{Candidate, GivesFirst, GivesPrintable, first_price};
ghost use Rattle.sasi_sources.specs.KeyCandidates.{HasKeyType, IsListed};
ghost use Rattle.sasi_sources.specs.Maps.{IsOneOf};
ghost use Rattle.sasi_sources.specs.ScanCandidates.{ScanLeaves, ScanPays, ScanReady, SpendsTo};

use sasi_cells::Partition;
use sasi_host::{Host, PageReader, ReadFault};
use sasi_manifest::ListedFile;
use sasi_memindex::MapBook;
use sasi_recheck::Candidates;
use sasi_scan::{Maps, TableScan};
use sasi_types::{Key, TypeList};
use std::alloc::Global;

/// The candidates of a WHERE with no relation on the key or an indexed column: all keys of the table.
#[derive(Drop)]
pub struct ScanCandidates {
    alloc: Global,
    types: TypeList,
    files: Vec<ListedFile>,
    maps: Vec<u64>,
    // None before the first candidate.
    scan: Option<TableScan>,
}

impl ScanCandidates {
    /// All keys of the listed data files of a table with these types, and of the maps with these numbers, which come behind the
    /// files, the oldest first. It reads nothing yet.
    pub fn new(
        alloc: Global,
        types: TypeList,
        files: Vec<ListedFile>,
        maps: Vec<u64>,
    ) -> ScanCandidates
        ensures leaves { (seen : Option Folder) (book : Book) (partitioner : Partitioner) (contents : List Content) → AreContents seen partitioner types files.items contents
            → ⟦<ScanCandidates as Candidates>⟧.leaves result seen book (map_.entries (merged_parts partitioner contents (views_numbered book maps.items))) }
        // It takes each page of the files twice, and three reads more of each.
        ensures pays { (seen : Option Folder) (book : Book) (partitioner : Partitioner) (contents : List Content) (most : ℕ) (prices : List ℕ) → AreContents seen partitioner types files.items contents
            → table_reads seen files.items ≤ most + first_price prices → ⟦<ScanCandidates as Candidates>⟧.pays result seen book most prices }
        ensures ready { (seen : Option Folder) (book : Book) → ⟦<ScanCandidates as Candidates>⟧.ready result seen book }
        ensures prints { (seen : Option Folder) (book : Book) (kind : ColumnType) → HasKeyType types (views_numbered book maps.items) kind → ⟦<ScanCandidates as Candidates>⟧.prints result seen book kind }
        // It reads these files and these maps alone.
        ensures opens { (name : FileName) → ⟦<ScanCandidates as Candidates>⟧.opens result name → IsListed files.items name }
        ensures uses { (number : ℕ) → ⟦<ScanCandidates as Candidates>⟧.uses result number → IsOneOf maps.items number }
        ensures shows { (seen : Option Folder) (damage : Damage) → ⟦<ScanCandidates as Candidates>⟧.shows result seen damage → ShowsListed seen files.items types damage }
    {
        ScanCandidates {
            alloc,
            types,
            files,
            maps,
            scan: None,
        }
    }
}

impl Candidates for ScanCandidates {
    ghost use Rattle.sasi_sources.specs.KeyCandidates.{HasKeyType, IsListed};
    ghost use Rattle.sasi_sources.specs.Maps.{IsOneOf};
    ghost use Rattle.sasi_sources.specs.ScanCandidates.{ScanLeaves, ScanPays, ScanReady};
    ghost use Rattle.sasi_sources.specs.inside.ScanLaws.{scan_keeps};
    ghost use Rattle.sasi_scan.specs.Numbered.{views_numbered};
    ghost use Rattle.sasi_scan.specs.Parts.{ShowsListed};

    ghost leaves = { λ s files book left. ScanLeaves s.types s.files.items s.scan files (views_numbered book s.maps.items) left };

    ghost pays = { λ s files book most prices. ScanPays s.types s.files.items s.scan files (views_numbered book s.maps.items) most prices };

    ghost opens = { λ s name. IsListed s.files.items name };

    ghost uses = { λ s number. IsOneOf s.maps.items number };

    ghost ready = { λ s files book. ScanReady s.types s.files.items s.scan files (views_numbered book s.maps.items) };

    ghost shows = { λ s files damage. ShowsListed files s.files.items s.types damage };

    ghost prints = { λ s files book kind. HasKeyType s.types (views_numbered book s.maps.items) kind };

    ghost kept = { λ _. tt };

    ghost keeps = { λ s old new was now told same maps. scan_keeps s.types s.files.items s.scan s.maps.items old new was now told same maps };

    fn next<H: Host, P: PageReader>(
        &mut self,
        host: &mut H,
        pages: &mut P,
        maps: &MapBook,
    ) -> Result<Option<(Key, Partition)>, ReadFault> {
        let _ = &pages;
        let maps = Maps::new(maps, &self.maps);
        next_of(
            self.alloc,
            host,
            &maps,
            &self.files,
            &self.types,
            &mut self.scan,
        )
    }
}

// The next key of the scan, which begins where it wasn't begun.
fn next_of<H: Host>(
    alloc: Global,
    host: &mut H,
    maps: &Maps,
    files: &[ListedFile],
    types: &TypeList,
    scan: &mut Option<TableScan>,
) -> Result<Option<(Key, Partition)>, ReadFault>
    requires there { AllByRecursion (λ (f : AListedFile). IsThere (H.view host.old) (data_name f.number)) files.now }
    requires ready { ScanReady types.now files.now scan.old (H.view host.old).files maps.now }
    ensures gives { (left : List Candidate) → ScanLeaves types.now files.now scan.old (H.view host.old).files maps.now left → IfOk result (GivesFirst (ScanLeaves types.now files.now scan.new (H.view host.new).files maps.now) left) }
    ensures reads { (most : ℕ) (prices : List ℕ) → ScanPays types.now files.now scan.old (H.view host.old).files maps.now most prices
        → Spends (λ rest. ScanPays types.now files.now scan.new (H.view host.new).files maps.now rest (drop 1 prices)) (most + first_price prices) (H.view host.old).reads (H.view host.new).reads result }
    ensures ready { OnOk result (ScanReady types.now files.now scan.new (H.view host.new).files maps.now) }
    ensures prints { (kind : ColumnType) → HasKeyType types.now maps.now kind → IfOk result (GivesPrintable kind) }
    ensures damaged { IfErr result (OnDamage (ShowsListed (H.view host.old).files files.now types.now)) }
    ensures undamaged { IfErr result (OnDamage (λ _. (left : List Candidate) → ScanLeaves types.now files.now scan.old (H.view host.old).files maps.now left → ⊥)) }
    ensures changes { Changes Same (H.view host.old) (H.view host.new) }
    ensures causes { ScanCauses (H.view host.old) (H.view host.new) result }
{
    match scan {
        Some(open) => open.next(alloc, host, maps),
        None => {
            let (open, found) = begin(alloc, host, maps, files, types)?;
            *scan = Some(open);
            Ok(found)
        }
    }
}

// Begins a scan, and gives its first key.
fn begin<H: Host>(
    alloc: Global,
    host: &mut H,
    maps: &Maps,
    files: &[ListedFile],
    types: &TypeList,
) -> Result<(TableScan, Option<(Key, Partition)>), ReadFault>
    requires { AllByRecursion (λ (f : AListedFile). IsThere (H.view host.old) (data_name f.number)) files.now }
    ensures gives { (left : List Candidate) → ScanLeaves types.now files.now None (H.view host.old).files maps.now left → IfOk result (λ both. GivesFirst (ScanLeaves types.now files.now (Some both.0) (H.view host.new).files maps.now) left both.1) }
    ensures reads { (most : ℕ) (prices : List ℕ) → ScanPays types.now files.now None (H.view host.old).files maps.now most prices
        → MatchResult result (λ both. SpendsTo (λ rest. ScanPays types.now files.now (Some both.0) (H.view host.new).files maps.now rest (drop 1 prices)) (most + first_price prices) (H.view host.old).reads (H.view host.new).reads) (λ _. (H.view host.new).reads ≤ (H.view host.old).reads + (most + first_price prices)) }
    ensures ready { IfOk result (λ both. ScanReady types.now files.now (Some both.0) (H.view host.new).files maps.now) }
    ensures prints { (kind : ColumnType) → HasKeyType types.now maps.now kind → IfOk result (λ both. GivesPrintable kind both.1) }
    ensures damaged { IfErr result (OnDamage (ShowsListed (H.view host.old).files files.now types.now)) }
    ensures undamaged { IfErr result (OnDamage (λ _. (left : List Candidate) → ScanLeaves types.now files.now None (H.view host.old).files maps.now left → ⊥)) }
    ensures changes { Changes Same (H.view host.old) (H.view host.new) }
    ensures causes { ScanCauses (H.view host.old) (H.view host.new) result }
{
    let mut scan = TableScan::open(alloc, host, files, types, maps, None)?;
    let found = scan.next(alloc, host, maps)?;
    Ok((scan, found))
}
