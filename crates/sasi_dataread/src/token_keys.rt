// Reads the keys of a token.
ghost use Rattle.std.specs.Prelude.{◌≡◌, ◌+◌, ◌-◌, ◌*◌, ◌≤◌, ◌∷◌, ◌++◌, [], ℕ, length, IfErr, IfOk, OnOk};
ghost use Rattle.sasi_types.specs.declared.partitioner.Partitioner.{Partitioner};
ghost use Rattle.sasi_model.specs.Cells.{Partition as Part};
ghost use Rattle.sasi_host.specs.Names.{Bytes};
ghost use Rattle.sasi_host.specs.View.{ReadCost};
ghost use Rattle.sasi_body.specs.Body.{body};
ghost use Rattle.sasi_tokentree.specs.Heights.{height};
ghost use Rattle.sasi_tokentree.specs.Scans.{HasPassed};
ghost use Rattle.sasi_host.specs.Damages.{DamageShown};
ghost use Rattle.sasi_host.specs.Buffered.{IsBuffered};
ghost use Rattle.sasi_host.specs.PageReading.{CanRead, HasRead};
ghost use Rattle.sasi_datawrite.specs.Format.{Content, header};
ghost use Rattle.sasi_dataread.specs.Opened.{StandsAt};
ghost use Rattle.sasi_dataread.specs.Reads.{IsOpenOn, NoFalsePartitionDamage};
ghost use Rattle.sasi_dataread.specs.Bodies.{partition_reads, IsPartitionOffset};
ghost use Rattle.sasi_dataread.specs.Damages.{ShowsData, ShowsPair};
ghost use Rattle.sasi_dataread.specs.Scans.{KeysAreBytes, NoFalseOpenedDamage};
ghost use Rattle.sasi_dataread.specs.Finds.{token_reads};
ghost use Rattle.sasi_dataread.specs.PlacedKeys.{AddsKey, HasKeysOfToken, keys_at};

use crate::DataFile;
use crate::find::offset_for;
use crate::pair::partition_of_pair;
use sasi_host::{BufferedFile, Host, PageReader, ReadFault};
use sasi_tokentree::Tree;
use sasi_types::{Key, Token};
use std::alloc::{AllocError, Global};

/// A key, and the offset of its partition in the file.
#[derive(Drop)]
pub struct PlacedKey {
    pub place: u64,
    pub key: Key,
}

// Adds a key with the offset of its partition.
fn push(keys: &mut Vec<PlacedKey>, place: u64, key: Key) -> Result<(), AllocError>
    ensures { OnOk result (keys.new.items ≡ keys.old.items ++ record { place = place; key = key } ∷ []) }
{
    keys.push(PlacedKey { place, key })?;
    Ok(())
}

// Adds the key of the partition at this offset, to which the tree's last pair leads. The whole partition is read for it, since
// nothing else shows that the bytes there are one.
fn add_key<H: Host, P: PageReader>(
    alloc: Global,
    host: &mut H,
    pages: &mut P,
    opened: &DataFile,
    tree: &Tree,
    buffered: &mut BufferedFile,
    place: u64,
    keys: &mut Vec<PlacedKey>,
) -> Result<(), ReadFault>
    requires read { CanRead (P.agrees pages.old) (H.view host.old) opened.now.file }
    requires buffered { IsBuffered buffered.old (H.view host.old).files }
    requires named { buffered.old.file ≡ opened.now.file }
    requires tree { tree.now.tree ≡ opened.now.tree }
    requires passed { HasPassed tree.now.tree tree.now.passed }
    ensures ok { OnOk result (AddsKey (H.view host.old) opened.now place keys.old.items keys.new.items) }
    ensures begins { OnOk result (IsPartitionOffset opened.now.end place) }
    ensures damaged { IfErr result (DamageShown (H.view host.old) opened.now.file (ShowsPair opened.now (tree.now.passed - 1) place)) }
    ensures undamaged { IfErr result (NoFalsePartitionDamage (H.view host.old) opened.now place) }
    ensures named { buffered.new.file ≡ opened.now.file }
    ensures buffered { IsBuffered buffered.new (H.view host.new).files }
    ensures read { HasRead (P.agrees pages.new) (P.covers pages.old) (P.covers pages.new) (H.view host.old) (H.view host.new) opened.now.file }
    ensures causes { ReadCost 2050 (H.view host.old) (H.view host.new) result }
    ensures reads { (partitioner : Partitioner) (content : Content) (key : Bytes) (part : Part) → IsOpenOn (H.view host.old) opened.now partitioner content → StandsAt content place key part → (H.view host.new).reads ≤ (H.view host.old).reads + partition_reads buffered.old.page place (length (body key part)) }
{
    let (key, _part) = partition_of_pair(alloc, host, pages, opened, tree, buffered, place)?;
    push(keys, place, key)?;
    Ok(())
}

/// Reads the keys of the partitions with this token.
pub fn keys_of_token<H: Host, P: PageReader>(
    alloc: Global,
    host: &mut H,
    pages: &mut P,
    opened: &DataFile,
    token: Token,
) -> Result<Vec<PlacedKey>, ReadFault>
    requires read { CanRead (P.agrees pages.old) (H.view host.old) opened.now.file }
    ensures ok { IfOk result (λ keys. (partitioner : Partitioner) (content : Content) → IsOpenOn (H.view host.old) opened.now partitioner content → KeysAreBytes content → keys.items ≡ keys_at partitioner token (length header) content) }
    ensures stands { IfOk result (λ keys. HasKeysOfToken (H.view host.old) opened.now token keys.items) }
    ensures damaged { IfErr result (DamageShown (H.view host.old) opened.now.file (ShowsData opened.now)) }
    ensures undamaged { IfErr result (NoFalseOpenedDamage (H.view host.old) opened.now) }
    ensures read { HasRead (P.agrees pages.new) (P.covers pages.old) (P.covers pages.new) (H.view host.old) (H.view host.new) opened.now.file }
    ensures causes { (most : ℕ) → opened.now.tree.pairs ≤ most → ReadCost (2 * height most opened.now.tree.pairs + 2 + 2051 * opened.now.tree.pairs) (H.view host.old) (H.view host.new) result }
    ensures reads { (most : ℕ) (partitioner : Partitioner) (content : Content) → opened.now.tree.pairs ≤ most → IsOpenOn (H.view host.old) opened.now partitioner content → KeysAreBytes content
        → (H.view host.new).reads ≤ (H.view host.old).reads + (2 * height most opened.now.tree.pairs + 2 + token_reads partitioner token (length header) content) }
{
    let mut keys = Vec::new(alloc);
    let mut tree = opened.tree();
    let mut buffered = opened.buffered_file();
    let mut next = tree.first(host, pages, token)?;
    for _turn in 0..opened.partitions() {
        let Some(place) = offset_for(next, token) else {
            return Ok(keys);
        };
        add_key(
            alloc,
            host,
            pages,
            opened,
            &tree,
            &mut buffered,
            place,
            &mut keys,
        )?;
        next = tree.next(host, pages)?;
    }
    Ok(keys)
}
