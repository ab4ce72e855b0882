// Reads nodes of a tree from the file.
ghost use Rattle.std.specs.Prelude.{◌≡◌, ◌+◌, ◌*◌, ◌/◌, ◌^◌, ◌<◌, ◌≤◌, List, ℕ, length, IfErr, IfOk, OnOk, Some};
ghost use Rattle.sasi_types.specs.declared.tree.Pair.{Pair};
ghost use Rattle.sasi_host.specs.View.{contents, ReadCost};
ghost use Rattle.sasi_host.specs.Buffered.{unbuffered_pages};
ghost use Rattle.sasi_host.specs.Damages.{DamageShown, HasAt};
ghost use Rattle.sasi_host.specs.PageReading.{CanReadOn, HasReadOn};
ghost use Rattle.sasi_tokentree.specs.Format.{entry, node as encoded_node, node_header};
ghost use Rattle.sasi_tokentree.specs.Damages.{ShownOf, ShowsEndOr};
ghost use Rattle.sasi_tokentree.specs.Reads.{CountsBelow, CountsInNode, HasNode, NoFalseNodeDamage};

use crate::node_decode::{ENTRY_BYTES, NODE_HEADER_BYTES, check_header, entry_in, find_below};
use sasi_host::{BufferedFile, Host, PageReader, ReadFault};
use sasi_types::{Pair, Token};

// A node of a tree: its level, where it begins, and how many entries it has.
#[derive(Clone, Copy)]
struct Node {
    level: u8,
    at: u64,
    count: usize,
}

// Fills the buffer with the header of a node, and checks it against the node's level and number of entries.
fn read_header<H: Host, P: PageReader>(
    host: &mut H,
    pages: &mut P,
    buffered: &mut BufferedFile,
    node: Node,
    out: &mut [u8],
) -> Result<(), ReadFault>
    requires read { CanReadOn (P.agrees pages.old) (H.view host.old) buffered.old }
    requires place { node.at < 2 ^ 63 + 2 ^ 60 }
    requires most { node.count ≤ 255 }
    requires length { length out.old ≡ 8 }
    ensures ok { OnOk result (out.new ≡ node_header node.level node.count) }
    ensures is { OnOk result ((bytes : List ℕ) → contents (H.view host.old) buffered.old.file ≡ Some bytes → HasAt bytes node.at (node_header node.level node.count)) }
    ensures damaged { IfErr result (ShownOf (λ n. n ≡ node) (H.view host.old) buffered.old.file) }
    ensures undamaged { IfErr result (NoFalseNodeDamage (H.view host.old) buffered.old.file node.level node.at node.count) }
    ensures read { HasReadOn (P.agrees pages.new) (P.covers pages.old) (P.covers pages.new) (H.view host.old) (H.view host.new) buffered.old buffered.new }
    ensures page { OnOk result (buffered.new.page ≡ Some ((node.at + 7) / 4096)) }
    ensures causes { ReadCost (unbuffered_pages buffered.old.page node.at 8) (H.view host.old) (H.view host.new) result }
{
    buffered.read_into(host, pages, node.at, out)?;
    check_header(buffered.file(), node.at, node.level, node.count as u16, out)?;
    Ok(())
}

// Fills the buffer with a node. It reads the header and checks it, and then reads the entries.
fn read_node<H: Host, P: PageReader>(
    host: &mut H,
    pages: &mut P,
    buffered: &mut BufferedFile,
    node: Node,
    out: &mut [u8],
) -> Result<(), ReadFault>
    requires read { CanReadOn (P.agrees pages.old) (H.view host.old) buffered.old }
    requires place { node.at < 2 ^ 63 + 2 ^ 60 }
    requires most { node.count ≤ 255 }
    requires length { length out.old ≡ 8 + 16 * node.count }
    ensures ok { OnOk result ((bytes : List ℕ) (entries : List Pair) → contents (H.view host.old) buffered.old.file ≡ Some bytes → HasNode bytes node.level node.at entries → length entries ≡ node.count → out.new ≡ encoded_node node.level entries) }
    ensures header { OnOk result (HasAt out.new 0 (node_header node.level node.count)) }
    ensures is { OnOk result ((bytes : List ℕ) → contents (H.view host.old) buffered.old.file ≡ Some bytes → HasAt bytes node.at out.new) }
    ensures whole { OnOk result ((bytes : List ℕ) → contents (H.view host.old) buffered.old.file ≡ Some bytes → node.at + (8 + 16 * node.count) ≤ length bytes) }
    ensures damaged { IfErr result (ShownOf (λ n. n ≡ node) (H.view host.old) buffered.old.file) }
    ensures undamaged { IfErr result (NoFalseNodeDamage (H.view host.old) buffered.old.file node.level node.at node.count) }
    ensures read { HasReadOn (P.agrees pages.new) (P.covers pages.old) (P.covers pages.new) (H.view host.old) (H.view host.new) buffered.old buffered.new }
    ensures causes { ReadCost 2 (H.view host.old) (H.view host.new) result }
{
    let header = &mut out[..NODE_HEADER_BYTES];
    read_header(host, pages, buffered, node, header)?;
    let entries = &mut out[NODE_HEADER_BYTES..];
    buffered.read_into(host, pages, node.at + NODE_HEADER_BYTES as u64, entries)?;
    Ok(())
}

// How many entries of a node have tokens below this one.
pub fn node_below<H: Host, P: PageReader>(
    host: &mut H,
    pages: &mut P,
    buffered: &mut BufferedFile,
    at: u64,
    level: u8,
    count: usize,
    token: Token,
) -> Result<usize, ReadFault>
    requires read { CanReadOn (P.agrees pages.old) (H.view host.old) buffered.old }
    requires place { at < 2 ^ 63 + 2 ^ 60 }
    requires most { count ≤ 255 }
    ensures ok { IfOk result (λ below. (bytes : List ℕ) (entries : List Pair) → contents (H.view host.old) buffered.old.file ≡ Some bytes → HasNode bytes level at entries → length entries ≡ count
        → CountsBelow entries token below) }
    ensures within { IfOk result (λ below. below ≤ count) }
    ensures counts { IfOk result (λ below. (bytes : List ℕ) → contents (H.view host.old) buffered.old.file ≡ Some bytes → CountsInNode bytes level at count token below) }
    ensures whole { OnOk result ((bytes : List ℕ) → contents (H.view host.old) buffered.old.file ≡ Some bytes → at + (8 + 16 * count) ≤ length bytes) }
    ensures damaged { IfErr result (ShownOf (λ n. n ≡ record { level = level; at = at; count = count }) (H.view host.old) buffered.old.file) }
    ensures undamaged { IfErr result (NoFalseNodeDamage (H.view host.old) buffered.old.file level at count) }
    ensures read { HasReadOn (P.agrees pages.new) (P.covers pages.old) (P.covers pages.new) (H.view host.old) (H.view host.new) buffered.old buffered.new }
    ensures causes { ReadCost 2 (H.view host.old) (H.view host.new) result }
{
    let mut buffer = [0; 4088];
    let bytes = &mut buffer[..NODE_HEADER_BYTES + ENTRY_BYTES * count];
    read_node(host, pages, buffered, Node { level, at, count }, bytes)?;
    let below = find_below(buffered.file(), at, count, bytes, token)?;
    Ok(below)
}

// Reads the first entry of a leaf of so many with the leaf's header, in one read, and checks the header.
pub fn first_of_leaf<H: Host, P: PageReader>(
    host: &mut H,
    pages: &mut P,
    buffered: &mut BufferedFile,
    at: u64,
    count: usize,
) -> Result<Pair, ReadFault>
    requires read { CanReadOn (P.agrees pages.old) (H.view host.old) buffered.old }
    requires place { at < 2 ^ 63 + 2 ^ 60 }
    requires some { 0 < count }
    requires most { count ≤ 255 }
    ensures header { OnOk result ((bytes : List ℕ) → contents (H.view host.old) buffered.old.file ≡ Some bytes → HasAt bytes at (node_header 0 count)) }
    ensures stands { IfOk result (λ pair. (bytes : List ℕ) → contents (H.view host.old) buffered.old.file ≡ Some bytes → HasAt bytes (at + 8) (entry pair)) }
    ensures damaged { IfErr result (DamageShown (H.view host.old) buffered.old.file (ShowsEndOr (at + 24) (λ n. n ≡ record { level = 0; at = at; count = count }) buffered.old.file)) }
    ensures undamaged { IfErr result (NoFalseNodeDamage (H.view host.old) buffered.old.file 0 at count) }
    ensures read { HasReadOn (P.agrees pages.new) (P.covers pages.old) (P.covers pages.new) (H.view host.old) (H.view host.new) buffered.old buffered.new }
    ensures page { OnOk result (buffered.new.page ≡ Some ((at + 23) / 4096)) }
    ensures causes { ReadCost (unbuffered_pages buffered.old.page at 24) (H.view host.old) (H.view host.new) result }
{
    let mut bytes = [0; 24];
    buffered.read_into(host, pages, at, &mut bytes)?;
    check_header(buffered.file(), at, 0, count as u16, &bytes)?;
    Ok(entry_in(&bytes, 0))
}
