// What data files have of a key.
ghost use Rattle.std.specs.Prelude.{◌≡◌, ◌+◌, ◌≤◌, ℕ, List, length, IfErr, IfOk, IfSome, OnOk};
ghost use Rattle.std.specs.List.{AllByRecursion};
ghost use Rattle.sasi_types.specs.declared.column.ColumnType.{ColumnType};
ghost use Rattle.sasi_types.specs.declared.partitioner.Partitioner.{Partitioner};
ghost use Rattle.sasi_types.specs.Token.{token_of};
ghost use Rattle.sasi_host.specs.Damages.{DamageShown, OnDamage};
ghost use Rattle.sasi_host.specs.PageReading.{CanRead, HasRead};
ghost use Rattle.sasi_host.specs.View.{ReadCost};
ghost use Rattle.sasi_model.specs.State.{decorated};
ghost use Rattle.sasi_body.specs.Body.{IsBodyOf};
ghost use Rattle.sasi_cells.specs.Maps.{joined};
ghost use Rattle.sasi_datawrite.specs.Format.{Content, header};
ghost use Rattle.sasi_dataread.specs.Damages.{ShowsData};
ghost use Rattle.sasi_dataread.specs.Finds.{partition_of};
ghost use Rattle.sasi_dataread.specs.PlacedKeys.{keys_at};
ghost use Rattle.sasi_dataread.specs.Reads.{IsOpenOn};
ghost use Rattle.sasi_dataread.specs.Scans.{KeysAreBytes};
ghost use Rattle.sasi_memtable.specs.MemtableView.{MemtableView};
ghost use Rattle.sasi_ranges.specs.StreamCalls.{CanStream, HasStreamed, StreamFaults};
ghost use Rattle.sasi_scan.specs.Finding.{file_maps, found_in};
ghost use Rattle.sasi_scan.specs.Parts.{IsMergeOfParts};
ghost use Rattle.sasi_lookup.specs.Files.{IsAtPair, IsNamed};
ghost use Rattle.sasi_lookup.specs.Lookups.{AreTurned, FilesOpen, FilesReady, FilesShow};
ghost use Rattle.sasi_lookup.specs.Reads.{found_pages, key_pages};

use crate::LookupFile;
use crate::key_search::offset_of;
use sasi_cells::Partition;
use sasi_dataread::{DataFile, PlacedKey};
use sasi_host::{Host, PageReader, ReadFault};
use sasi_types::Key;
use std::alloc::{AllocError, Global};

// The partition of a key in an open file, by the keys in hand. A file that was changed beneath gives another key there, and counts
// as one without the key.
pub(crate) fn partition_of<H: Host, P: PageReader>(
    alloc: Global,
    host: &mut H,
    pages: &mut P,
    opened: &DataFile,
    keys: &[PlacedKey],
    key: &Key,
) -> Result<Option<Partition>, ReadFault>
    requires read { CanRead (P.agrees pages.old) (H.view host.old) opened.now.file }
    ensures found { IfOk result (λ found. (partitioner : Partitioner) (token : ℕ) (content : Content) → IsOpenOn (H.view host.old) opened.now partitioner content
        → keys.now ≡ keys_at partitioner token (length header) content → token_of partitioner key.now ≡ token → found ≡ partition_of content key.now) }
    ensures stored { IfOk result (λ found. IfSome found (IsBodyOf opened.now.types key.now)) }
    ensures reads { (partitioner : Partitioner) (token : ℕ) (content : Content) → IsOpenOn (H.view host.old) opened.now partitioner content
        → keys.now ≡ keys_at partitioner token (length header) content → (H.view host.new).reads ≤ (H.view host.old).reads + key_pages key.now (length header) content }
    ensures damaged { AllByRecursion (IsAtPair (H.view host.old).files opened.now) keys.now → IfErr result (DamageShown (H.view host.old) opened.now.file (ShowsData opened.now)) }
    ensures undamaged { IfErr result (OnDamage (λ _. (partitioner : Partitioner) (token : ℕ) (content : Content) → IsOpenOn (H.view host.old) opened.now partitioner content
        → keys.now ≡ keys_at partitioner token (length header) content → ⊥)) }
    ensures read { HasRead (P.agrees pages.new) (P.covers pages.old) (P.covers pages.new) (H.view host.old) (H.view host.new) opened.now.file }
    ensures causes { ReadCost 2050 (H.view host.old) (H.view host.new) result }
{
    let Some(place) = offset_of(keys, key) else {
        return Ok(None);
    };
    let (other, part) = opened.at(alloc, host, pages, place)?;
    if *key != other {
        return Ok(None);
    }
    Ok(Some(part))
}

// Merges what a later file has of a key.
fn join(
    alloc: Global,
    found: &mut Option<Partition>,
    later: Option<Partition>,
) -> Result<(), AllocError>
    ensures { OnOk result (found.new ≡ joined found.old later) }
{
    let Some(later) = later else {
        return Ok(());
    };
    let mut merged = found.take().unwrap_or(Partition::new(alloc));
    merged.merge_from(later)?;
    *found = Some(merged);
    Ok(())
}

// The merge of what data files have of a key with the token in hand, the oldest first.
pub(crate) fn find_in_files<H: Host, P: PageReader>(
    alloc: Global,
    host: &mut H,
    pages: &mut P,
    files: &[LookupFile],
    key: &Key,
) -> Result<Option<Partition>, ReadFault>
    requires read { CanStream (P.agrees pages.old) (FilesOpen files.now) (H.view host.old) }
    requires named { AllByRecursion IsNamed files.now }
    ensures found { IfOk result (λ found. (partitioner : Partitioner) (token : ℕ) (types : List ColumnType) (contents : List Content) → FilesReady types (H.view host.old).files files.now
        → AreTurned (H.view host.old).files types files.now (partitioner, (token, contents)) → token_of partitioner key.now ≡ token → found ≡ found_in (decorated partitioner key.now) None (file_maps partitioner contents)) }
    ensures of_parts { (types : List ColumnType) (maps : List MemtableView) → FilesReady types (H.view host.old).files files.now → IfOk result (λ found. IfSome found (IsMergeOfParts types maps key.now)) }
    ensures reads { (partitioner : Partitioner) (token : ℕ) (types : List ColumnType) (contents : List Content) → FilesReady types (H.view host.old).files files.now
        → AreTurned (H.view host.old).files types files.now (partitioner, (token, contents)) → (H.view host.new).reads ≤ (H.view host.old).reads + found_pages key.now contents }
    ensures read { HasStreamed (P.agrees pages.new) (P.covers pages.old) (P.covers pages.new) (FilesOpen files.now) (FilesOpen files.now) (H.view host.old) (H.view host.new) }
    ensures faults { (types : List ColumnType) → FilesReady types (H.view host.old).files files.now
        → StreamFaults (FilesShow types (H.view host.old).files files.now) (FilesShow types (H.view host.new).files files.now) (AreTurned (H.view host.old).files types files.now) (H.view host.old) (H.view host.new) result }
{
    let mut found = None;
    for file in files {
        let part = file.find(alloc, host, pages, key)?;
        join(alloc, &mut found, part)?;
    }
    Ok(found)
}
