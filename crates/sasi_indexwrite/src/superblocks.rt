// The trees of superblocks, in the mode SPARSE: 64 term blocks have one together.
ghost use Rattle.std.specs.Prelude.{◌≡◌, ◌+◌, ◌∷◌, [], ◌++◌, length, OnOk};
ghost use Rattle.std.specs.Prelude.{◌≤◌, List};
ghost use Rattle.sasi_host.specs.Names.{Bytes};
ghost use Rattle.sasi_host.specs.View.{ListCauses, Reaches};
ghost use Rattle.sasi_host.specs.Disk.{AnyChange, Changes, FileChange};
ghost use Rattle.sasi_indexwrite.specs.Appending.{CanAppend, IsAppending, next_tree};
ghost use Rattle.sasi_indexwrite.specs.Content.{TermPairs};
ghost use Rattle.sasi_indexwrite.specs.Format.{refs_from, trees_bytes};
ghost use Rattle.sasi_indexwrite.specs.Grouped.{HasGroups, last_list};
ghost use Rattle.sasi_indexwrite.specs.Superblocks.{inline_blocks};

use crate::tree_writer::{TreeWriter, append_tree};
use crate::unions::{push_all, union};
use sasi_host::{Host, HostFault};
use sasi_sparse::superblocks;
use sasi_types::{Pair, PairList, TreeRef};
use std::alloc::{AllocError, Global};

// The pairs of the last superblock, as they came, and the trees of those before it.
#[derive(Drop)]
pub struct Superblocks {
    pub pairs: PairList,
    pub trees: Vec<TreeRef>,
}

impl Superblocks {
    // None yet.
    pub fn new(alloc: Global) -> Superblocks
        ensures pairs { result.pairs ≡ [] }
        ensures trees { result.trees.items ≡ [] }
    {
        Superblocks {
            pairs: PairList::new(alloc),
            trees: Vec::new(alloc),
        }
    }
}

// Keeps the reference of the last superblock's tree, and lets its pairs go.
fn keep_tree(groups: &mut Superblocks, tree: TreeRef) -> Result<(), AllocError>
    ensures trees { OnOk result (groups.new.trees.items ≡ groups.old.trees.items ++ tree ∷ []) }
    ensures pairs { OnOk result (groups.new.pairs ≡ []) }
{
    groups.trees.push(tree)?;
    groups.pairs.clear();
    Ok(())
}

// Appends the tree of the last superblock, if it has pairs.
pub fn end_superblock<H: Host>(
    alloc: Global,
    host: &mut H,
    trees: &mut TreeWriter,
    groups: &mut Superblocks,
) -> Result<(), HostFault>
    requires ready { CanAppend trees.old }
    requires room { Reaches (H.view host.old) trees.old.file trees.old.end }
    ensures ok { OnOk result ((bytes : Bytes) → IsAppending (H.view host.old) trees.old bytes → IsAppending (H.view host.new) trees.new (bytes ++ trees_bytes (next_tree trees.old) (last_list groups.old.pairs))) }
    ensures next { OnOk result (next_tree trees.new ≡ next_tree trees.old + length (trees_bytes (next_tree trees.old) (last_list groups.old.pairs))) }
    ensures table { OnOk result (groups.new.trees.items ≡ groups.old.trees.items ++ refs_from (next_tree trees.old) (last_list groups.old.pairs)) }
    ensures pairs { OnOk result (groups.new.pairs ≡ []) }
    ensures ready { OnOk result (CanAppend trees.new) }
    ensures room { OnOk result (Reaches (H.view host.new) trees.new.file trees.new.end) }
    ensures file { trees.new.file ≡ trees.old.file }
    ensures changes { Changes (FileChange trees.old.file AnyChange) (H.view host.old) (H.view host.new) }
    ensures causes { ListCauses (H.view host.old) (H.view host.new) result }
{
    if groups.pairs.as_slice().is_empty() {
        return Ok(());
    }
    let pairs = union(alloc, &groups.pairs)?;
    let tree = append_tree(alloc, host, trees, &pairs)?;
    keep_tree(groups, tree)?;
    Ok(())
}

// Takes the pairs of a term whose entry stands in the last of so many blocks. Where it opened another superblock, the tree of
// the one before is appended first.
pub fn take_pairs<H: Host>(
    alloc: Global,
    host: &mut H,
    trees: &mut TreeWriter,
    groups: &mut Superblocks,
    blocks: u64,
    pairs: &[Pair],
) -> Result<(), HostFault>
    requires some { 1 ≤ length pairs.now }
    requires ready { CanAppend trees.old }
    requires room { Reaches (H.view host.old) trees.old.file trees.old.end }
    ensures ok { OnOk result ((header : Bytes) (kept : List TermPairs) (term : Bytes) → blocks ≡ length (inline_blocks (kept ++ (term, pairs.now) ∷ [])) → HasGroups (H.view host.old) trees.old groups.old header kept → HasGroups (H.view host.new) trees.new groups.new header (kept ++ (term, pairs.now) ∷ [])) }
    ensures ready { OnOk result (CanAppend trees.new) }
    ensures room { OnOk result (Reaches (H.view host.new) trees.new.file trees.new.end) }
    ensures file { trees.new.file ≡ trees.old.file }
    ensures changes { Changes (FileChange trees.old.file AnyChange) (H.view host.old) (H.view host.new) }
    ensures causes { ListCauses (H.view host.old) (H.view host.new) result }
{
    if superblocks(blocks) <= groups.trees.len() as u64 + 1 {
        return Ok(push_all(&mut groups.pairs, pairs)?);
    }
    end_superblock(alloc, host, trees, groups)?;
    push_all(&mut groups.pairs, pairs)?;
    Ok(())
}
