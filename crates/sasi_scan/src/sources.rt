// All sources of a table's partitions, and their heads.
ghost use Rattle.std.specs.Prelude.{◌≡◌, ◌+◌, ◌*◌, ◌≤◌, ◌<◌, ◌++◌, ◌∷◌, [], length, List, slice_get, Some, IfErr, IfOk, OnOk};
ghost use Rattle.std.specs.List.{AllByRecursion};
ghost use Rattle.sasi_types.specs.declared.partitioner.Partitioner.{Partitioner};
ghost use Rattle.sasi_types.specs.declared.column.ColumnType.{ColumnType};
ghost use Rattle.sasi_host.specs.Damages.{OnDamage};
ghost use Rattle.sasi_host.specs.Disk.{Changes, Same};
ghost use Rattle.sasi_host.specs.Names.{Bytes, data_name};
ghost use Rattle.sasi_host.specs.View.{IsThere, ReadCost, contents_in};
ghost use Rattle.sasi_datawrite.specs.Format.{Content};
ghost use Rattle.sasi_dataread.specs.Damages.{ShowsDataFile};
ghost use Rattle.sasi_dataread.specs.Tokens.{AgreesWith};
ghost use Rattle.sasi_model.specs.Cells.{empty_partition};
ghost use Rattle.sasi_manifest.specs.declared.files.ListedFile.{ListedFile as AListedFile};
ghost use Rattle.sasi_merge.specs.Merging.{Head as AHead, head_with, merged_part};
ghost use Rattle.sasi_merge.specs.Streams.{Entries};
ghost use Rattle.sasi_scan.specs.declared.source.Source.{Source as ASource};
ghost use Rattle.sasi_scan.specs.Parts.{AreContents, HasContent, ShowsListed};
ghost use Rattle.sasi_scan.specs.Sources.{AreMoved, CanStep, IsListedSource, IsMovedAt, NoFalseSourceDamage, ShowsSource};
ghost use Rattle.sasi_scan.specs.Left.{AreLeft};
ghost use Rattle.sasi_scan.specs.Opening.{AreOpened, IsAdded, IsOpened, IsOpenedFile, map_heads, map_sources};
ghost use Rattle.sasi_scan.specs.Paging.{IsPaged, MovesWithin, OpensWithin, pages_in, table_reads};
ghost use Rattle.sasi_scan.specs.Scanning.{ScanCauses};

use crate::map_heads::head_after;
use crate::maps::Maps;
use crate::source::{Source, next_in_file};
use sasi_cells::Partition;
use sasi_dataread::{DataFile, Walk};
use sasi_host::{Direct, FileName, Host, ReadFault};
use sasi_manifest::ListedFile;
use sasi_merge::{Head, Heads, add_head, has_key};
use sasi_types::{DecoratedKey, Partitioner, TypeList};
use std::alloc::{AllocError, Global};

/// Opens the listed data files of a table with these types, for a scan with these tokens, and reads the head of each.
pub fn open_files<H: Host>(
    alloc: Global,
    host: &mut H,
    files: &[ListedFile],
    types: &TypeList,
    tokens: Option<Partitioner>,
    heads: &mut Heads,
    sources: &mut Vec<Source>,
) -> Result<(), ReadFault>
    requires there { AllByRecursion (λ (f : AListedFile). IsThere (H.view host.old) (data_name f.number)) files.now }
    requires no_heads { heads.old ≡ [] }
    requires no_sources { sources.old.items ≡ [] }
    ensures opened { OnOk result (AreOpened (H.view host.old).files types.now tokens files.now heads.new sources.new.items) }
    ensures reads { (partitioner : Partitioner) (contents : List Content) → AreContents (H.view host.old).files partitioner types.now files.now contents → OpensWithin (H.view host.old).files partitioner (table_reads (H.view host.old).files files.now) [] sources.new.items (H.view host.old).reads (H.view host.new).reads result }
    ensures damaged { IfErr result (OnDamage (ShowsListed (H.view host.old).files files.now types.now)) }
    ensures undamaged { IfErr result (OnDamage (λ _. (partitioner : Partitioner) (contents : List Content) → AgreesWith tokens partitioner → AreContents (H.view host.old).files partitioner types.now files.now contents → ⊥)) }
    ensures changes { Changes Same (H.view host.old) (H.view host.new) }
    ensures causes { ScanCauses (H.view host.old) (H.view host.new) result }
{
    for file in files {
        open_source(alloc, host, file, types, tokens, heads, sources)?;
    }
    Ok(())
}

// Opens a data file, and reads its head.
fn open_source<H: Host>(
    alloc: Global,
    host: &mut H,
    file: &ListedFile,
    types: &TypeList,
    tokens: Option<Partitioner>,
    heads: &mut Heads,
    sources: &mut Vec<Source>,
) -> Result<(), ReadFault>
    requires { IsThere (H.view host.old) (data_name file.now.number) }
    ensures opened { OnOk result (IsAdded (IsOpened (H.view host.old).files types.now tokens file.now) heads.old sources.old.items heads.new sources.new.items) }
    ensures reads { (partitioner : Partitioner) (content : Content) → HasContent (H.view host.old).files partitioner types.now file.now content → AllByRecursion (IsPaged (H.view host.old).files partitioner) sources.old.items
        → OpensWithin (H.view host.old).files partitioner (3 + 2 * pages_in (H.view host.old).files (data_name file.now.number)) sources.old.items sources.new.items (H.view host.old).reads (H.view host.new).reads result }
    ensures damaged { IfErr result (OnDamage (λ damage. (bytes : Bytes) → contents_in (H.view host.old).files (data_name file.now.number) ≡ Some bytes → ShowsDataFile types.now (data_name file.now.number) bytes damage)) }
    ensures undamaged { IfErr result (OnDamage (λ _. (partitioner : Partitioner) (content : Content) → AgreesWith tokens partitioner → HasContent (H.view host.old).files partitioner types.now file.now content → ⊥)) }
    ensures changes { Changes Same (H.view host.old) (H.view host.new) }
    ensures causes { ReadCost 2055 (H.view host.old) (H.view host.new) result }
{
    let mut scan = open_file(alloc, host, file, types, tokens)?;
    let head = next_in_file(alloc, host, &mut scan)?;
    push(heads, sources, head, Source::File(scan))?;
    Ok(())
}

// Adds a source with its head.
fn push(
    heads: &mut Heads,
    sources: &mut Vec<Source>,
    head: Head,
    source: Source,
) -> Result<(), AllocError>
    ensures heads { OnOk result (heads.new ≡ heads.old ++ head ∷ []) }
    ensures sources { OnOk result (sources.new.items ≡ sources.old.items ++ source ∷ []) }
{
    heads.push(head)?;
    sources.push(source)?;
    Ok(())
}

// Opens a data file, before its first partition.
fn open_file<H: Host>(
    alloc: Global,
    host: &mut H,
    file: &ListedFile,
    types: &TypeList,
    tokens: Option<Partitioner>,
) -> Result<Walk, ReadFault>
    requires { IsThere (H.view host.old) (data_name file.now.number) }
    ensures opened { IfOk result (IsOpenedFile (H.view host.old).files types.now tokens file.now) }
    ensures damaged { IfErr result (OnDamage (λ damage. (bytes : Bytes) → contents_in (H.view host.old).files (data_name file.now.number) ≡ Some bytes → ShowsDataFile types.now (data_name file.now.number) bytes damage)) }
    ensures undamaged { IfErr result (OnDamage (λ _. (partitioner : Partitioner) (content : Content) → HasContent (H.view host.old).files partitioner types.now file.now content → ⊥)) }
    ensures changes { Changes Same (H.view host.old) (H.view host.new) }
    ensures causes { ReadCost 3 (H.view host.old) (H.view host.new) result }
{
    let name = FileName::data(file.number);
    let opened = DataFile::open(alloc, host, &mut Direct, name, types)?;
    let scan = opened.walk(alloc)?;
    Ok(scan.with_tokens(tokens))
}

/// Adds maps in memory, with the head of each.
pub fn add_maps(
    alloc: Global,
    maps: &Maps,
    heads: &mut Heads,
    sources: &mut Vec<Source>,
) -> Result<(), AllocError>
    ensures heads { OnOk result (heads.new ≡ heads.old ++ map_heads maps.now) }
    ensures sources { OnOk result (sources.new.items ≡ sources.old.items ++ map_sources 0 maps.now) }
{
    for position in 0..maps.len() {
        let head = head_after(alloc, maps, position, None)?;
        push(heads, sources, head, Source::Map(position))?;
    }
    Ok(())
}

/// Moves each source whose head has the key, and merges what the heads had of it, the oldest first.
pub fn advance<H: Host>(
    alloc: Global,
    host: &mut H,
    maps: &Maps,
    key: &DecoratedKey,
    part: &mut Partition,
    heads: &mut Heads,
    sources: &mut Vec<Source>,
) -> Result<(), ReadFault>
    requires unmerged { part.old ≡ empty_partition }
    requires can { AllByRecursion (CanStep (H.view host.old).files maps.now) sources.old.items }
    requires counted { length heads.old ≡ length sources.old.items }
    ensures moved { OnOk result (AreMoved (H.view host.old).files maps.now key.now (length sources.old.items) heads.old sources.old.items heads.new sources.new.items) }
    ensures merged { OnOk result (part.new ≡ merged_part key.now heads.old) }
    ensures reads { (partitioner : Partitioner) → MovesWithin (H.view host.old).files partitioner sources.old.items sources.new.items (H.view host.old).reads (H.view host.new).reads result }
    ensures damaged { (files : List AListedFile) (types : List ColumnType) → AllByRecursion (IsListedSource (H.view host.old).files files types) sources.old.items → IfErr result (OnDamage (ShowsListed (H.view host.old).files files types)) }
    ensures undamaged { (partitioner : Partitioner) (lefts : List Entries) → AreLeft (H.view host.old).files partitioner maps.now heads.old sources.old.items lefts → IfErr result (OnDamage (λ _. ⊥)) }
    ensures changes { Changes Same (H.view host.old) (H.view host.new) }
    ensures causes { ScanCauses (H.view host.old) (H.view host.new) result }
{
    for at in 0..sources.len() {
        let head = advance_at(alloc, host, maps, key, heads, sources, at)?;
        add_head(part, head)?;
    }
    Ok(())
}

// Moves the source at this position, if its head has the key, and gives the head that it had.
fn advance_at<H: Host>(
    alloc: Global,
    host: &mut H,
    maps: &Maps,
    key: &DecoratedKey,
    heads: &mut Heads,
    sources: &mut Vec<Source>,
    at: usize,
) -> Result<Head, ReadFault>
    requires can { AllByRecursion (CanStep (H.view host.old).files maps.now) sources.old.items }
    requires in_heads { at < length heads.old }
    requires in_sources { at < length sources.old.items }
    ensures moved { OnOk result (IsMovedAt (H.view host.old).files maps.now key.now at heads.old sources.old.items heads.new sources.new.items) }
    ensures head { IfOk result (λ given. (head : AHead) → slice_get heads.old at ≡ Some head → given ≡ head_with key.now head) }
    ensures reads { (partitioner : Partitioner) → MovesWithin (H.view host.old).files partitioner sources.old.items sources.new.items (H.view host.old).reads (H.view host.new).reads result }
    ensures damaged { IfErr result (λ f. (source : ASource) → slice_get sources.old.items at ≡ Some source → ShowsSource (H.view host.old).files source f) }
    ensures undamaged { IfErr result (λ f. (source : ASource) → slice_get sources.old.items at ≡ Some source → NoFalseSourceDamage (H.view host.old).files source f) }
    ensures changes { Changes Same (H.view host.old) (H.view host.new) }
    ensures causes { ReadCost 2052 (H.view host.old) (H.view host.new) result }
{
    if has_key(&heads.as_slice()[at], key.token, &key.key) {
        let head = sources[at].next(alloc, host, maps, key)?;
        Ok(heads.exchange(at, head))
    } else {
        Ok(None)
    }
}
