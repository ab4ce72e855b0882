// Pairs in memory, and trees that are read whole into memory.
ghost use Rattle.std.specs.Prelude.{◌≡◌, ◌*◌, [], None, IfErr, IfOk, OnOk, true, false};
ghost use Rattle.std.specs.BinaryHeap.{IsHeap, KeepsHeap, heap_items};
ghost use Rattle.sasi_host.specs.View.{ReadCost};
ghost use Rattle.sasi_host.specs.Damages.{DamageShown};
ghost use Rattle.sasi_host.specs.PageReading.{CanRead, HasRead};
ghost use Rattle.sasi_tokentree.specs.Damages.{ShowsPairs};
ghost use Rattle.sasi_tokentree.specs.Reads.{NoFalseTreeDamage};
ghost use Rattle.sasi_treemerge.specs.Held.{held_cmp};
ghost use Rattle.sasi_treemerge.specs.Sources.{source_cmp};
ghost use Rattle.sasi_treemerge.specs.Merges.{HeadsFirst, HeldFirst, HoldsMore, HoldsOne, HoldsTree};

use crate::held_pair::HeldPair;
use crate::tree_source::{TreeSource, source_of};
use sasi_host::{FileName, Host, PageReader, ReadFault};
use sasi_tokentree::Tree;
use sasi_types::{Pair, TreeRef};
use std::alloc::{AllocError, Global};
use std::collections::BinaryHeap;

/// A scan of the tree with this reference.
pub fn scan_of(alloc: Global, file: FileName, list: TreeRef) -> Result<Box<Tree>, AllocError>
    ensures { IfOk result (λ tree. tree.value ≡ record { buffered = record { file = file; page = None; bytes = [] }; tree = list; passed = 0; last = None }) }
{
    let tree = Box::new(alloc, Tree::new(file, list))?;
    Ok(tree)
}

// Whether no head comes before the least pair in memory.
pub fn is_held_first(
    sources: &BinaryHeap<TreeSource, Global>,
    pairs: &BinaryHeap<HeldPair, Global>,
) -> bool
    requires heap { IsHeap source_cmp (heap_items sources.now) }
    requires held_heap { IsHeap held_cmp (heap_items pairs.now) }
    ensures yes { result ≡ true → HeldFirst (heap_items sources.now) (heap_items pairs.now) }
    ensures no { result ≡ false → HeadsFirst (heap_items sources.now) (heap_items pairs.now) }
{
    let Some(held) = pairs.peek() else {
        return false;
    };
    match sources.peek() {
        None => true,
        Some(source) => held.pair <= source.head,
    }
}

// Keeps a pair in memory.
fn hold(pairs: &mut BinaryHeap<HeldPair, Global>, pair: Pair) -> Result<(), AllocError>
    ensures put { OnOk result (HoldsOne pair (heap_items pairs.old) (heap_items pairs.new)) }
    ensures heap { OnOk result (KeepsHeap held_cmp (heap_items pairs.old) (heap_items pairs.new)) }
{
    pairs.push(HeldPair { pair })?;
    Ok(())
}

/// Keeps pairs in memory.
pub fn hold_all(held: &mut BinaryHeap<HeldPair, Global>, pairs: &[Pair]) -> Result<(), AllocError>
    ensures put { OnOk result (HoldsMore pairs.now (heap_items held.old) (heap_items held.new)) }
    ensures heap { OnOk result (KeepsHeap held_cmp (heap_items held.old) (heap_items held.new)) }
{
    for pair in pairs {
        hold(held, *pair)?;
    }
    Ok(())
}

/// Reads all pairs of a tree into memory.
pub fn hold_tree<H: Host, P: PageReader>(
    alloc: Global,
    host: &mut H,
    pages: &mut P,
    file: FileName,
    list: TreeRef,
    held: &mut BinaryHeap<HeldPair, Global>,
) -> Result<(), ReadFault>
    requires read { CanRead (P.agrees pages.old) (H.view host.old) file }
    ensures ok { OnOk result (HoldsTree (H.view host.old) file list (heap_items held.old) (heap_items held.new)) }
    ensures heap { OnOk result (KeepsHeap held_cmp (heap_items held.old) (heap_items held.new)) }
    ensures damaged { IfErr result (DamageShown (H.view host.old) file (ShowsPairs file list)) }
    ensures undamaged { IfErr result (NoFalseTreeDamage (H.view host.old) file list) }
    ensures read { HasRead (P.agrees pages.new) (P.covers pages.old) (P.covers pages.new) (H.view host.old) (H.view host.new) file }
    ensures causes { ReadCost (2 * list.pairs) (H.view host.old) (H.view host.new) result }
{
    let tree = scan_of(alloc, file, list)?;
    let Some(mut source) = source_of(host, pages, tree)? else {
        return Ok(());
    };
    loop {
        hold(held, source.head)?;
        let Some(next) = source_of(host, pages, source.tree)? else {
            return Ok(());
        };
        source = next;
    }
}
