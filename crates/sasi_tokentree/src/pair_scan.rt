// Reads the pairs of a tree, one after another.
ghost use Rattle.std.specs.Prelude.{◌≡◌, ◌⊎◌, ◌+◌, ◌-◌, ◌*◌, ◌/◌, ◌%◌, ◌^◌, ◌<◌, ◌≤◌, List, ℕ, min, IfErr, IfOk, OnOk, IsSome, IsTrue, None, Some, false};
ghost use Rattle.sasi_host.specs.View.{contents, ReadCost};
ghost use Rattle.sasi_host.specs.Buffered.{unbuffered_pages};
ghost use Rattle.sasi_host.specs.Damages.{HasAt, DamageShown, ShowsEnd};
ghost use Rattle.sasi_host.specs.PageReading.{CanReadOn, HasReadOn};
ghost use Rattle.sasi_tokentree.specs.Format.{entry, node_header};
ghost use Rattle.sasi_tokentree.specs.Damages.{BeginsLeaf, IsNodeFrom, ShowsEndOr, ShowsTreeBy, pair_offset};
ghost use Rattle.sasi_tokentree.specs.Heights.{height, bytes_below_root};
ghost use Rattle.sasi_tokentree.specs.Reads.{NoFalseLevelDamage, NoFalseTreeDamage};
ghost use Rattle.sasi_tokentree.specs.Scans.{HasPassed, PassesOne, ReadsEntry, ReadsFirstPair, ReadsHeader, ReadsNextPair, StepsBehindCounted, IsEntryBuffered, entry_cost, header_read};

use crate::node_decode::{ENTRY_BYTES, NODE_HEADER_BYTES, number_in};
use crate::node_layout::{MAX_ENTRIES, MAX_NODE_BYTES};
use crate::node_read::first_of_leaf;
use crate::seek::{count_below, size_below_root};
use sasi_host::{BufferedFile, Host, PageReader, ReadFault, unexpected_end};
use sasi_types::{Pair, Token, TreeRef};

// No file is longer.
const MAX_FILE_SIZE: u64 = 1 << 62;

// No file has more pairs.
const MAX_PAIRS: u64 = 1 << 58;

// A pair, if there is one, and how many pairs the scan has then passed.
#[derive(Clone, Copy)]
pub struct ScannedPair {
    pub pair: Option<Pair>,
    pub passed: u64,
}

// Whether the tree is longer than a file can be.
fn is_too_long(tree: TreeRef) -> bool
    ensures long { IsTrue result → (2 ^ 62 < tree.root) ⊎ (2 ^ 58 < tree.pairs) }
    ensures root { result ≡ false → tree.root ≤ 2 ^ 62 }
    ensures pairs { result ≡ false → tree.pairs ≤ 2 ^ 58 }
{
    tree.root > MAX_FILE_SIZE || tree.pairs > MAX_PAIRS
}

// The offset of the first leaf of the tree.
fn start_of(tree: TreeRef) -> u64
    requires { tree.pairs ≤ 2 ^ 58 }
    ensures is { result ≡ tree.root - bytes_below_root tree.pairs tree.pairs }
    ensures before { result ≤ tree.root }
{
    tree.root
        .saturating_sub(size_below_root(tree.pairs as usize))
}

// The offset of the pair with this index, of leaves at this offset.
fn offset_of(at: u64, index: u64) -> u64
    requires { at + 17 * index < 2 ^ 63 + 2 ^ 59 }
    ensures { result ≡ at + 4088 * (index / 255) + (8 + 16 * (index % 255)) }
{
    let node = at + MAX_NODE_BYTES * (index / MAX_ENTRIES as u64);
    let offset = NODE_HEADER_BYTES as u64 + ENTRY_BYTES as u64 * (index % MAX_ENTRIES as u64);
    node + offset
}

// The offset of the last of the passed pairs.
pub fn last_offset(tree: TreeRef, passed: u64) -> u64
    requires { HasPassed tree passed }
    ensures is { result ≡ pair_offset tree (passed - 1) }
    ensures short { result < 2 ^ 63 + 2 ^ 60 }
{
    offset_of(start_of(tree), passed - 1)
}

// The entry with this index, of leaves at this offset.
fn read_entry<H: Host, P: PageReader>(
    host: &mut H,
    pages: &mut P,
    buffered: &mut BufferedFile,
    at: u64,
    index: u64,
) -> Result<Pair, ReadFault>
    requires read { CanReadOn (P.agrees pages.old) (H.view host.old) buffered.old }
    requires place { at + 17 * index < 2 ^ 63 + 2 ^ 59 }
    ensures stands { IfOk result (λ pair. (bytes : List ℕ) → contents (H.view host.old) buffered.old.file ≡ Some bytes → HasAt bytes (at + 4088 * (index / 255) + (8 + 16 * (index % 255))) (entry pair)) }
    ensures damaged { IfErr result (DamageShown (H.view host.old) buffered.old.file (ShowsEnd (at + 4088 * (index / 255) + (8 + 16 * (index % 255)) + 16) buffered.old.file)) }
    ensures read { HasReadOn (P.agrees pages.new) (P.covers pages.old) (P.covers pages.new) (H.view host.old) (H.view host.new) buffered.old buffered.new }
    ensures page { IfOk result (λ _. buffered.new.page ≡ Some ((at + 4088 * (index / 255) + (8 + 16 * (index % 255)) + 15) / 4096)) }
    ensures causes { ReadCost (unbuffered_pages buffered.old.page (at + 4088 * (index / 255) + (8 + 16 * (index % 255))) 16) (H.view host.old) (H.view host.new) result }
{
    let mut bytes = [0; ENTRY_BYTES];
    buffered.read_into(host, pages, offset_of(at, index), &mut bytes)?;
    Ok(Pair {
        token: number_in(&bytes[..8]),
        place: number_in(&bytes[8..16]),
    })
}

// The first pair of the leaf with this index, of leaves at this offset that have so many pairs.
fn read_first<H: Host, P: PageReader>(
    host: &mut H,
    pages: &mut P,
    buffered: &mut BufferedFile,
    at: u64,
    pairs: u64,
    leaf: u64,
) -> Result<Pair, ReadFault>
    requires read { CanReadOn (P.agrees pages.old) (H.view host.old) buffered.old }
    requires within { 255 * leaf < pairs }
    requires place { at + 4088 * leaf < 2 ^ 63 + 2 ^ 60 }
    ensures stands { IfOk result (λ pair. (bytes : List ℕ) → contents (H.view host.old) buffered.old.file ≡ Some bytes → HasAt bytes (at + 4088 * leaf + 8) (entry pair)) }
    ensures header { OnOk result ((bytes : List ℕ) → contents (H.view host.old) buffered.old.file ≡ Some bytes → HasAt bytes (at + 4088 * leaf) (node_header 0 (min (pairs - 255 * leaf) 255))) }
    ensures damaged { IfErr result (DamageShown (H.view host.old) buffered.old.file (ShowsEndOr (at + 4088 * leaf + 24) (λ n. IsNodeFrom n 0 at pairs) buffered.old.file)) }
    ensures undamaged { IfErr result (NoFalseLevelDamage (H.view host.old) buffered.old.file 0 at pairs) }
    ensures read { HasReadOn (P.agrees pages.new) (P.covers pages.old) (P.covers pages.new) (H.view host.old) (H.view host.new) buffered.old buffered.new }
    ensures page { OnOk result (buffered.new.page ≡ Some ((at + 4088 * leaf + 23) / 4096)) }
    ensures causes { ReadCost (unbuffered_pages buffered.old.page (at + 4088 * leaf) 24) (H.view host.old) (H.view host.new) result }
{
    let left = (pairs - MAX_ENTRIES as u64 * leaf).min(MAX_ENTRIES as u64);
    let place = at + MAX_NODE_BYTES * leaf;
    let pair = first_of_leaf(host, pages, buffered, place, left as usize)?;
    Ok(pair)
}

// The pair with this index, of leaves at this offset that have so many pairs. The first one of a leaf is read with the leaf's
// header.
fn read_pair<H: Host, P: PageReader>(
    host: &mut H,
    pages: &mut P,
    buffered: &mut BufferedFile,
    at: u64,
    pairs: u64,
    index: u64,
) -> Result<Pair, ReadFault>
    requires read { CanReadOn (P.agrees pages.old) (H.view host.old) buffered.old }
    requires within { index < pairs }
    requires place { at + 17 * index < 2 ^ 63 + 2 ^ 59 }
    ensures stands { IfOk result (λ pair. (bytes : List ℕ) → contents (H.view host.old) buffered.old.file ≡ Some bytes → HasAt bytes (at + 4088 * (index / 255) + (8 + 16 * (index % 255))) (entry pair)) }
    ensures header { OnOk result ((leaf : ℕ) → index ≡ 255 * leaf → (bytes : List ℕ) → contents (H.view host.old) buffered.old.file ≡ Some bytes → HasAt bytes (at + 4088 * leaf) (node_header 0 (min (pairs - 255 * leaf) 255))) }
    ensures damaged { IfErr result (DamageShown (H.view host.old) buffered.old.file (ShowsEndOr (at + 4088 * (index / 255) + (8 + 16 * (index % 255)) + 16) (λ n. IsNodeFrom n 0 at pairs) buffered.old.file)) }
    ensures undamaged { IfErr result (NoFalseLevelDamage (H.view host.old) buffered.old.file 0 at pairs) }
    ensures read { HasReadOn (P.agrees pages.new) (P.covers pages.old) (P.covers pages.new) (H.view host.old) (H.view host.new) buffered.old buffered.new }
    ensures page { OnOk result (buffered.new.page ≡ Some ((at + 4088 * (index / 255) + (8 + 16 * (index % 255)) + 15) / 4096)) }
    ensures causes { ReadCost (unbuffered_pages buffered.old.page (at + 4088 * (index / 255) + (8 + 16 * (index % 255)) - header_read index) (16 + header_read index)) (H.view host.old) (H.view host.new) result }
{
    if index % MAX_ENTRIES as u64 == 0 {
        let first = read_first(host, pages, buffered, at, pairs, index / MAX_ENTRIES as u64)?;
        return Ok(first);
    }
    let pair = read_entry(host, pages, buffered, at, index)?;
    Ok(pair)
}

// The pair behind the passed ones.
pub fn pair_from<H: Host, P: PageReader>(
    host: &mut H,
    pages: &mut P,
    buffered: &mut BufferedFile,
    tree: TreeRef,
    passed: u64,
) -> Result<ScannedPair, ReadFault>
    requires read { CanReadOn (P.agrees pages.old) (H.view host.old) buffered.old }
    ensures ok { IfOk result (λ found. ReadsNextPair (H.view host.old) buffered.old.file tree passed found.passed found.pair) }
    ensures stands { IfOk result (λ found. ReadsEntry (H.view host.old) buffered.old.file tree found.passed found.pair) }
    ensures header { IfOk result (λ found. ReadsHeader (H.view host.old) buffered.old.file tree found.passed found.pair) }
    ensures damaged { IfErr result (DamageShown (H.view host.old) buffered.old.file (ShowsTreeBy (λ index. index ≡ passed) buffered.old.file tree)) }
    ensures undamaged { IfErr result (NoFalseTreeDamage (H.view host.old) buffered.old.file tree) }
    ensures read { HasReadOn (P.agrees pages.new) (P.covers pages.old) (P.covers pages.new) (H.view host.old) (H.view host.new) buffered.old buffered.new }
    ensures entry_buffered { IfOk result (λ found. IsEntryBuffered (record { buffered = buffered.new; tree = tree; passed = found.passed; last = None }) found.pair) }
    ensures passed { IfOk result (λ found. IsSome found.pair → HasPassed tree found.passed) }
    ensures causes { ReadCost (entry_cost buffered.old.page tree passed) (H.view host.old) (H.view host.new) result }
    ensures ends { IfOk result (λ found. PassesOne (record { buffered = buffered.old; tree = tree; passed = passed; last = None }) (record { buffered = buffered.new; tree = tree; passed = found.passed; last = None }) found.pair) }
    ensures ended { tree.pairs ≤ passed → (H.view host.new).reads ≡ (H.view host.old).reads }
{
    if passed >= tree.pairs {
        return Ok(ScannedPair { pair: None, passed });
    }
    if is_too_long(tree) {
        return Err(unexpected_end(host, buffered.file()));
    }
    let start = start_of(tree);
    let pair = read_pair(host, pages, buffered, start, tree.pairs, passed)?;
    Ok(ScannedPair {
        pair: Some(pair),
        passed: passed + 1,
    })
}

// The first pair at or after the token.
pub fn first_from<H: Host, P: PageReader>(
    host: &mut H,
    pages: &mut P,
    buffered: &mut BufferedFile,
    tree: TreeRef,
    token: Token,
) -> Result<ScannedPair, ReadFault>
    requires read { CanReadOn (P.agrees pages.old) (H.view host.old) buffered.old }
    ensures ok { IfOk result (λ found. ReadsFirstPair (H.view host.old) buffered.old.file tree token found.passed found.pair) }
    ensures stands { IfOk result (λ found. ReadsEntry (H.view host.old) buffered.old.file tree found.passed found.pair) }
    ensures header { IfOk result (λ found. ReadsHeader (H.view host.old) buffered.old.file tree found.passed found.pair) }
    ensures damaged { IfErr result (DamageShown (H.view host.old) buffered.old.file (ShowsTreeBy (BeginsLeaf tree) buffered.old.file tree)) }
    ensures undamaged { IfErr result (NoFalseTreeDamage (H.view host.old) buffered.old.file tree) }
    ensures read { HasReadOn (P.agrees pages.new) (P.covers pages.old) (P.covers pages.new) (H.view host.old) (H.view host.new) buffered.old buffered.new }
    ensures entry_buffered { IfOk result (λ found. IsEntryBuffered (record { buffered = buffered.new; tree = tree; passed = found.passed; last = None }) found.pair) }
    ensures passed { IfOk result (λ found. IsSome found.pair → HasPassed tree found.passed) }
    ensures ends { IfOk result (λ found. StepsBehindCounted (H.view host.old) buffered.old.file tree token found.passed found.pair) }
    ensures causes { (most : ℕ) → tree.pairs ≤ most → ReadCost (2 * height most tree.pairs + 2) (H.view host.old) (H.view host.new) result }
{
    if tree.pairs == 0 {
        return Ok(ScannedPair {
            pair: None,
            passed: 0,
        });
    }
    if is_too_long(tree) {
        return Err(unexpected_end(host, buffered.file()));
    }
    let start = start_of(tree);
    let below = count_below(host, pages, buffered, start, 0, tree.pairs as usize, token)?;
    let found = pair_from(host, pages, buffered, tree, below as u64)?;
    Ok(found)
}
