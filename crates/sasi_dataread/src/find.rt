// Searches for a partition by its key.
ghost use Rattle.std.specs.Prelude.{◌≡◌, ◌+◌, ◌-◌, ◌*◌, ◌≤◌, ℕ, length, IfErr, IfOk, OnOk};
ghost use Rattle.sasi_types.specs.declared.partitioner.Partitioner.{Partitioner};
ghost use Rattle.sasi_model.specs.Cells.{Partition as Part};
ghost use Rattle.sasi_host.specs.Names.{Bytes};
ghost use Rattle.sasi_host.specs.View.{ReadCost};
ghost use Rattle.sasi_body.specs.Body.{body};
ghost use Rattle.sasi_tokentree.specs.Heights.{height};
ghost use Rattle.sasi_tokentree.specs.Scans.{HasPassed};
ghost use Rattle.sasi_host.specs.Damages.{DamageShown};
ghost use Rattle.sasi_host.specs.Buffered.{IsBuffered};
ghost use Rattle.sasi_host.specs.PageReading.{CanRead, HasRead};
ghost use Rattle.sasi_datawrite.specs.Format.{Content, header};
ghost use Rattle.sasi_dataread.specs.Opened.{StandsAt};
ghost use Rattle.sasi_dataread.specs.Reads.{IsOpenOn, NoFalsePartitionDamage};
ghost use Rattle.sasi_dataread.specs.Bodies.{partition_reads, IsPartitionOffset};
ghost use Rattle.sasi_dataread.specs.Damages.{ShowsData, ShowsPair};
ghost use Rattle.sasi_dataread.specs.Scans.{KeysAreBytes, NoFalseOpenedDamage};
ghost use Rattle.sasi_dataread.specs.Finds.{FindsKey, FindsStored, MissesKey, ReadsPartitionOfKey, ReadsStoredKey, LeadsTo, token_reads};

use crate::DataFile;
use crate::pair::partition_of_pair;
use sasi_cells::Partition;
use sasi_host::{BufferedFile, Host, PageReader, ReadFault};
use sasi_tokentree::Tree;
use sasi_types::{Key, Pair, Token};
use std::alloc::Global;

// The offset of the pair, if it has this token.
pub(crate) fn offset_for(next: Option<Pair>, token: Token) -> Option<u64>
    ensures { LeadsTo token next result }
{
    let pair = next?;
    if pair.token != token {
        return None;
    }
    Some(pair.place)
}

// Reads the partition at this offset, to which the tree's last pair leads, if it has this key.
fn partition_with_key<H: Host, P: PageReader>(
    alloc: Global,
    host: &mut H,
    pages: &mut P,
    opened: &DataFile,
    tree: &Tree,
    buffered: &mut BufferedFile,
    place: u64,
    key: &Key,
) -> Result<Option<Partition>, ReadFault>
    requires read { CanRead (P.agrees pages.old) (H.view host.old) opened.now.file }
    requires buffered { IsBuffered buffered.old (H.view host.old).files }
    requires named { buffered.old.file ≡ opened.now.file }
    requires tree { tree.now.tree ≡ opened.now.tree }
    requires passed { HasPassed tree.now.tree tree.now.passed }
    ensures ok { IfOk result (λ found. ReadsPartitionOfKey (H.view host.old) opened.now place key.now found) }
    ensures begins { OnOk result (IsPartitionOffset opened.now.end place) }
    ensures stands { IfOk result (ReadsStoredKey (H.view host.old) opened.now place key.now) }
    ensures damaged { IfErr result (DamageShown (H.view host.old) opened.now.file (ShowsPair opened.now (tree.now.passed - 1) place)) }
    ensures undamaged { IfErr result (NoFalsePartitionDamage (H.view host.old) opened.now place) }
    ensures named { buffered.new.file ≡ opened.now.file }
    ensures buffered { IsBuffered buffered.new (H.view host.new).files }
    ensures read { HasRead (P.agrees pages.new) (P.covers pages.old) (P.covers pages.new) (H.view host.old) (H.view host.new) opened.now.file }
    ensures causes { ReadCost 2050 (H.view host.old) (H.view host.new) result }
    ensures reads { (partitioner : Partitioner) (content : Content) (key : Bytes) (part : Part) → IsOpenOn (H.view host.old) opened.now partitioner content → StandsAt content place key part → (H.view host.new).reads ≤ (H.view host.old).reads + partition_reads buffered.old.page place (length (body key part)) }
{
    let (other, part) = partition_of_pair(alloc, host, pages, opened, tree, buffered, place)?;
    if *key != other {
        return Ok(None);
    }
    Ok(Some(part))
}

/// Searches for the partition with this key among those with its token.
pub fn find_partition<H: Host, P: PageReader>(
    alloc: Global,
    host: &mut H,
    pages: &mut P,
    opened: &DataFile,
    token: Token,
    key: &Key,
) -> Result<Option<Partition>, ReadFault>
    requires read { CanRead (P.agrees pages.old) (H.view host.old) opened.now.file }
    ensures ok { IfOk result (λ found. FindsKey (H.view host.old) opened.now token key.now found) }
    ensures stands { IfOk result (FindsStored (H.view host.old) opened.now token key.now) }
    ensures misses { IfOk result (MissesKey (H.view host.old) opened.now token key.now) }
    ensures damaged { IfErr result (DamageShown (H.view host.old) opened.now.file (ShowsData opened.now)) }
    ensures undamaged { IfErr result (NoFalseOpenedDamage (H.view host.old) opened.now) }
    ensures read { HasRead (P.agrees pages.new) (P.covers pages.old) (P.covers pages.new) (H.view host.old) (H.view host.new) opened.now.file }
    ensures causes { (most : ℕ) → opened.now.tree.pairs ≤ most → ReadCost (2 * height most opened.now.tree.pairs + 2 + 2051 * opened.now.tree.pairs) (H.view host.old) (H.view host.new) result }
    ensures reads { (most : ℕ) (partitioner : Partitioner) (content : Content) → opened.now.tree.pairs ≤ most → IsOpenOn (H.view host.old) opened.now partitioner content → KeysAreBytes content
        → (H.view host.new).reads ≤ (H.view host.old).reads + (2 * height most opened.now.tree.pairs + 2 + token_reads partitioner token (length header) content) }
{
    let mut tree = opened.tree();
    let mut buffered = opened.buffered_file();
    let mut next = tree.first(host, pages, token)?;
    for _turn in 0..opened.partitions() {
        let Some(place) = offset_for(next, token) else {
            return Ok(None);
        };
        let found = partition_with_key(
            alloc,
            host,
            pages,
            opened,
            &tree,
            &mut buffered,
            place,
            key,
        )?;
        if found.is_some() {
            return Ok(found);
        }
        next = tree.next(host, pages)?;
    }
    Ok(None)
}
