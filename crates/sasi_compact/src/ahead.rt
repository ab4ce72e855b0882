// The partition of the merge that is looked ahead.
ghost use Rattle.std.specs.Prelude.{◌≡◌, ◌≤◌, ◌+◌, ℕ, [], length, List, IfErr, IfOk, IfSome, IsSome, MatchResult, OnOk};
ghost use Rattle.std.specs.FinMap as map_;
ghost use Rattle.std.specs.List.{AllByRecursion};
ghost use Rattle.sasi_types.specs.declared.column.ColumnType.{ColumnType};
ghost use Rattle.sasi_types.specs.declared.partitioner.Partitioner.{Partitioner as APartitioner};
ghost use Rattle.sasi_types.specs.Token.{token_of};
ghost use Rattle.sasi_host.specs.Disk.{Changes, Same};
ghost use Rattle.sasi_host.specs.Names.{data_name};
ghost use Rattle.sasi_host.specs.View.{IsThere};
ghost use Rattle.sasi_body.specs.Body.{IsBodyOf};
ghost use Rattle.sasi_datawrite.specs.Format.{Content};
ghost use Rattle.sasi_manifest.specs.declared.files.ListedFile.{ListedFile as AListedFile};
ghost use Rattle.sasi_merge.specs.Streams.{Entries};
ghost use Rattle.sasi_scan.specs.KeyOrder.{HasHead, IsUnder};
ghost use Rattle.sasi_scan.specs.Parts.{AreContents, ShowsListed, merged_parts};
ghost use Rattle.sasi_scan.specs.Paging.{table_reads};
ghost use Rattle.sasi_scan.specs.Scanning.{CanScan, GivesFirst, HasReadsLeft, IsScanOf, IsScanning, MayRead};
ghost use Rattle.sasi_compact.specs.Tasks.{CompactCauses, IsAheadOf, IsInOrder, OnPairDamage, files_numbered};

use sasi_cells::Partition;
use sasi_host::{DataNumber, Host};
use sasi_manifest::{ListedFile, ListedFiles, NumberList, PartNumbers};
use sasi_memindex::MapBook;
use sasi_pairs::PairFault;
use sasi_scan::{Maps, TableScan};
use sasi_types::{Key, Partitioner, TypeList};
use std::alloc::{AllocError, Global};

/// A scan of the data files with these numbers, of a table with these types, the oldest first. Its tokens are those of the partitioner.
pub fn open_scan<H: Host>(
    alloc: Global,
    host: &mut H,
    sources: &NumberList,
    types: &TypeList,
    partitioner: Partitioner,
) -> Result<TableScan, PairFault>
    requires there { AllByRecursion (λ (f : AListedFile). IsThere (H.view host.old) (data_name f.number)) (files_numbered sources.now) }
    requires some { 1 ≤ length sources.now }
    ensures opened { IfOk result (λ scan. (contents : List Content) → AreContents (H.view host.old).files partitioner types.now (files_numbered sources.now) contents
        → IsScanning (H.view host.old).files partitioner [] scan (map_.entries (merged_parts partitioner contents []))) }
    ensures can { IfOk result (CanScan (H.view host.new).files []) }
    ensures is_of { IfOk result (IsScanOf (H.view host.old).files (files_numbered sources.now) types.now []) }
    ensures under { IfOk result (IsUnder partitioner) }
    ensures some { IfOk result HasHead }
    ensures reads { (contents : List Content) → AreContents (H.view host.old).files partitioner types.now (files_numbered sources.now) contents
        → MatchResult result (λ scan. HasReadsLeft (H.view host.old).files partitioner scan ((H.view host.old).reads + table_reads (H.view host.old).files (files_numbered sources.now)) (H.view host.new).reads)
        (λ _. (H.view host.new).reads ≤ (H.view host.old).reads + table_reads (H.view host.old).files (files_numbered sources.now)) }
    ensures damaged { IfErr result (OnPairDamage (ShowsListed (H.view host.old).files (files_numbered sources.now) types.now)) }
    ensures undamaged { IfErr result (OnPairDamage (λ _. (contents : List Content) → AreContents (H.view host.old).files partitioner types.now (files_numbered sources.now) contents → ⊥)) }
    ensures changes { Changes Same (H.view host.old) (H.view host.new) }
    ensures causes { CompactCauses (λ _. ⊥) (H.view host.old) (H.view host.new) result }
{
    let files = files_of(alloc, sources.as_slice())?;
    let book = MapBook::new(alloc);
    let maps = Maps::new(&book, &[]);
    let scan = TableScan::open(
        alloc,
        host,
        files.as_slice(),
        types,
        &maps,
        Some(partitioner),
    )?;
    Ok(scan)
}

// Data files with these numbers.
fn files_of(alloc: Global, numbers: &[DataNumber]) -> Result<ListedFiles, AllocError>
    ensures { IfOk result (λ files. files ≡ files_numbered numbers.now) }
{
    let mut files = ListedFiles::new(alloc);
    for number in numbers {
        files.push(ListedFile {
            number: *number,
            parts: PartNumbers::new(alloc),
        })?;
    }
    Ok(files)
}

/// The next partition of the merge; None exactly at its end. In any file its token under the partitioner isn't below those of the keys
/// before it.
pub fn next_merged<H: Host>(
    alloc: Global,
    host: &mut H,
    scan: &mut TableScan,
) -> Result<Option<(Key, Partition)>, PairFault>
    requires { CanScan (H.view host.old).files [] scan.old }
    ensures next { IfOk result (λ found. (partitioner : APartitioner) (left : Entries) → IsScanning (H.view host.old).files partitioner [] scan.old left → GivesFirst (H.view host.old).files partitioner [] left scan.new found) }
    ensures body { (files : List AListedFile) (types : List ColumnType) → length types ≤ 64 → IsScanOf (H.view host.old).files files types [] scan.old → IfOk result (λ found. IfSome found (λ one. IsBodyOf types one.0 one.1)) }
    ensures in_order { (partitioner : APartitioner) → IsUnder partitioner scan.old → IfOk result (IsInOrder partitioner scan.new) }
    ensures rising { (partitioner : APartitioner) (last : List ℕ) → IsUnder partitioner scan.old → IsAheadOf partitioner scan.old last → IfOk result (λ found. IfSome found (λ one. token_of partitioner last ≤ token_of partitioner one.0)) }
    ensures some { HasHead scan.old → IfOk result (λ found. IsSome found) }
    ensures can { OnOk result (CanScan (H.view host.new).files [] scan.new) }
    ensures is_of { (files : List AListedFile) (types : List ColumnType) → IsScanOf (H.view host.old).files files types [] scan.old → OnOk result (IsScanOf (H.view host.old).files files types [] scan.new) }
    ensures reads { (partitioner : APartitioner) (most : ℕ) → MayRead (H.view host.old).files partitioner scan.old most
        → MatchResult result (λ _. HasReadsLeft (H.view host.old).files partitioner scan.new ((H.view host.old).reads + most) (H.view host.new).reads) (λ _. (H.view host.new).reads ≤ (H.view host.old).reads + most) }
    ensures damaged { (files : List AListedFile) (types : List ColumnType) → IsScanOf (H.view host.old).files files types [] scan.old → IfErr result (OnPairDamage (ShowsListed (H.view host.old).files files types)) }
    ensures undamaged { (partitioner : APartitioner) (left : Entries) → IsScanning (H.view host.old).files partitioner [] scan.old left → IfErr result (OnPairDamage (λ _. ⊥)) }
    ensures changes { Changes Same (H.view host.old) (H.view host.new) }
    ensures causes { CompactCauses (λ _. ⊥) (H.view host.old) (H.view host.new) result }
{
    let book = MapBook::new(alloc);
    let maps = Maps::new(&book, &[]);
    let found = scan.next(alloc, host, &maps)?;
    Ok(found)
}
