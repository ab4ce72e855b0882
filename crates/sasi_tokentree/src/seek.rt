// Searches a tree from the root down for the first pair at or after a token.
ghost use Rattle.std.specs.Prelude.{◌≡◌, ◌+◌, ◌-◌, ◌*◌, ◌^◌, ◌<◌, ◌≤◌, nat_le, List, ℕ, length, min, IfErr, IfOk, OnOk, Some};
ghost use Rattle.sasi_types.specs.declared.tree.Pair.{Pair};
ghost use Rattle.sasi_host.specs.View.{contents, ReadCost};
ghost use Rattle.sasi_host.specs.PageReading.{CanReadOn, HasReadOn};
ghost use Rattle.sasi_tokentree.specs.Format.{entries_of_node};
ghost use Rattle.sasi_tokentree.specs.Heights.{level_limit, height, bytes_below_root};
ghost use Rattle.sasi_tokentree.specs.Damages.{IsNodeFrom, ShownOf, is_tree_ref};
ghost use Rattle.sasi_tokentree.specs.Reads.{CountsBelow, CountsDown, CountsInNode, IsReached, NoFalseLevelDamage, HasLevels};

use crate::node_layout::{MAX_ENTRIES, MAX_NODE_BYTES, is_node_offset, level_size, node_count};
use crate::node_read::node_below;
use sasi_host::{BufferedFile, Host, PageReader, ReadFault};
use sasi_types::{Token, TreeRef};

// No file has room for more pairs.
const MAX_PAIRS: u64 = 1 << 58;

/// How many bytes the levels below the root take, in a tree of so many pairs.
pub fn size_below_root(count: usize) -> u64
    requires { count ≤ 2 ^ 58 }
    ensures is { (most : ℕ) → count ≤ most → result ≡ bytes_below_root most count }
    ensures short { result ≤ 17 * count }
{
    if count <= MAX_ENTRIES {
        return 0;
    }
    level_size(count) + size_below_root(node_count(count))
}

// Whether so many bytes have room between two offsets.
fn has_room(from: u64, to: u64, size: u64) -> bool
    ensures { result ≡ nat_le (from + size) to }
{
    from <= to && size <= to - from
}

/// Whether it can be the reference of a tree in the part of a file from one offset to another: its root can stand there, and so
/// many pairs in front of the root.
pub fn is_tree_ref(from: u64, to: u64, tree: TreeRef) -> bool
    ensures { result ≡ is_tree_ref from to tree }
{
    is_node_offset(from, to, tree.root)
        && (tree.pairs <= MAX_PAIRS
            && has_room(from, tree.root, size_below_root(tree.pairs as usize)))
}

// How many entries have tokens below this one, of a level at this offset that the levels above it follow.
pub fn count_below<H: Host, P: PageReader>(
    host: &mut H,
    pages: &mut P,
    buffered: &mut BufferedFile,
    at: u64,
    level: u8,
    count: usize,
    token: Token,
) -> Result<usize, ReadFault>
    requires read { CanReadOn (P.agrees pages.old) (H.view host.old) buffered.old }
    requires some { 0 < count }
    requires most { count ≤ level_limit level }
    requires place { at + 17 * count < 2 ^ 63 + 2 ^ 60 }
    ensures ok { IfOk result (λ below. (bytes : List ℕ) (entries : List Pair) → contents (H.view host.old) buffered.old.file ≡ Some bytes → HasLevels bytes level at entries → length entries ≡ count
        → CountsBelow entries token below) }
    ensures within { IfOk result (λ below. below ≤ count) }
    ensures counts { IfOk result (λ below. (bytes : List ℕ) → contents (H.view host.old) buffered.old.file ≡ Some bytes → CountsDown bytes token level at count below) }
    ensures reached { IfOk result (λ below. (bytes : List ℕ) → contents (H.view host.old) buffered.old.file ≡ Some bytes → IsReached bytes at count below) }
    ensures damaged { IfErr result (ShownOf (λ n. IsNodeFrom n level at count) (H.view host.old) buffered.old.file) }
    ensures undamaged { IfErr result (NoFalseLevelDamage (H.view host.old) buffered.old.file level at count) }
    ensures read { HasReadOn (P.agrees pages.new) (P.covers pages.old) (P.covers pages.new) (H.view host.old) (H.view host.new) buffered.old buffered.new }
    ensures causes { (most : ℕ) → count ≤ most → ReadCost (2 * height most count) (H.view host.old) (H.view host.new) result }
{
    if count <= MAX_ENTRIES {
        let below = node_below(host, pages, buffered, at, level, count, token)?;
        return Ok(below);
    }
    let next = at + level_size(count);
    let above = count_below(
        host,
        pages,
        buffered,
        next,
        level + 1,
        node_count(count),
        token,
    )?;
    if above == 0 {
        return Ok(0);
    }
    let node = above - 1;
    let below = count_in_node(host, pages, buffered, at, level, count, node, token)?;
    Ok(MAX_ENTRIES * node + below)
}

// How many entries of one node of a level have tokens below this one.
fn count_in_node<H: Host, P: PageReader>(
    host: &mut H,
    pages: &mut P,
    buffered: &mut BufferedFile,
    at: u64,
    level: u8,
    count: usize,
    node: usize,
    token: Token,
) -> Result<usize, ReadFault>
    requires read { CanReadOn (P.agrees pages.old) (H.view host.old) buffered.old }
    requires node { 255 * node < count }
    requires place { at + 17 * count < 2 ^ 63 + 2 ^ 60 }
    ensures ok { IfOk result (λ below. (bytes : List ℕ) (entries : List Pair) → contents (H.view host.old) buffered.old.file ≡ Some bytes → HasLevels bytes level at entries → length entries ≡ count
        → CountsBelow (entries_of_node entries node) token below) }
    ensures within { IfOk result (λ below. 255 * node + below ≤ count) }
    ensures counts { IfOk result (λ below. (bytes : List ℕ) → contents (H.view host.old) buffered.old.file ≡ Some bytes → CountsInNode bytes level (at + 4088 * node) (min (count - 255 * node) 255) token below) }
    ensures reached { IfOk result (λ below. (bytes : List ℕ) → contents (H.view host.old) buffered.old.file ≡ Some bytes → 255 < count → IsReached bytes at count (255 * node + below)) }
    ensures damaged { IfErr result (ShownOf (λ n. IsNodeFrom n level at count) (H.view host.old) buffered.old.file) }
    ensures undamaged { IfErr result (NoFalseLevelDamage (H.view host.old) buffered.old.file level at count) }
    ensures read { HasReadOn (P.agrees pages.new) (P.covers pages.old) (P.covers pages.new) (H.view host.old) (H.view host.new) buffered.old buffered.new }
    ensures causes { ReadCost 2 (H.view host.old) (H.view host.new) result }
{
    let here = (count - MAX_ENTRIES * node).min(MAX_ENTRIES);
    let place = at + MAX_NODE_BYTES * node as u64;
    let below = node_below(host, pages, buffered, place, level, here, token)?;
    Ok(below)
}
