// The sources of a merge.
ghost use Rattle.std.specs.Prelude.{◌≡◌, ◌≤◌, IfErr, IfOk, IfSome};
ghost use Rattle.std.proofs.Common.{rules};
ghost use Rattle.std.specs.Cmp.{partial_order_from_own_ties, partial_order_from_total};
ghost use Rattle.std.specs.Cmp.Rules.{comparing};
ghost use Rattle.std.specs.Ordering.{as_partial_cmp};
ghost use Rattle.sasi_host.specs.View.{ReadCost};
ghost use Rattle.sasi_host.specs.Buffered.{IsBuffered};
ghost use Rattle.sasi_host.specs.Damages.{DamageShown};
ghost use Rattle.sasi_host.specs.PageReading.{CanReadOn, HasRead};
ghost use Rattle.sasi_tokentree.specs.Damages.{ShowsPairs};
ghost use Rattle.sasi_tokentree.specs.Reads.{NoFalseTreeDamage};
ghost use Rattle.sasi_tokentree.specs.Scans.{IsAtLast};
ghost use Rattle.sasi_treemerge.specs.Sources.{source_cmp, source_eq, source_total};
ghost use Rattle.sasi_treemerge.specs.Merges.{AdvancesTo, IsAtHead};

use sasi_host::{Host, PageReader, ReadFault};
use sasi_tokentree::Tree;
use sasi_types::Pair;
use std::cmp::Ordering;

/// A scan of a tree, with the pair that it read last. The source with the least pair is the largest one, so that a heap gives it
/// first.
#[derive(Drop)]
pub struct TreeSource {
    /// The pair that was read last.
    pub head: Pair,
    /// The scan. It stands in a box, so that a heap moves no page.
    pub tree: Box<Tree>,
}

impl PartialEq for TreeSource {
    ghost eq = { source_eq };

    ghost laws = { Prim.search (comparing, rules) };

    fn eq(&self, other: &TreeSource) -> bool {
        self.head == other.head
    }
}

impl Eq for TreeSource {
    ghost laws = { Prim.search (comparing, rules) };
}

impl PartialOrd for TreeSource {
    ghost partial_cmp = { as_partial_cmp source_cmp };

    ghost laws = { partial_order_from_own_ties (partial_order_from_total source_total) (Prim.search (comparing, rules)) };

    fn partial_cmp(&self, other: &TreeSource) -> Option<Ordering> {
        Some(self.cmp(other))
    }
}

impl Ord for TreeSource {
    ghost cmp = { source_cmp };

    ghost total = { source_total };

    ghost matches_partial_cmp = { Prim.search (comparing, rules) };

    ghost matches_eq = { Prim.search (comparing, rules) };

    fn cmp(&self, other: &TreeSource) -> Ordering {
        other.head.cmp(&self.head)
    }
}

/// Moves a scan on to its next pair, if it has one.
pub fn source_of<H: Host, P: PageReader>(
    host: &mut H,
    pages: &mut P,
    mut tree: Box<Tree>,
) -> Result<Option<TreeSource>, ReadFault>
    requires read { CanReadOn (P.agrees pages.old) (H.view host.old) tree.value.buffered }
    requires last { IsAtLast tree.value (H.view host.old).files }
    ensures ok { IfOk result (AdvancesTo (H.view host.old) tree.value) }
    ensures named { IfOk result (λ found. IfSome found (λ source. source.tree.value.buffered.file ≡ tree.value.buffered.file)) }
    ensures buffered { IfOk result (λ found. IfSome found (λ source. IsBuffered source.tree.value.buffered (H.view host.new).files)) }
    ensures at_head { IfOk result (λ found. IfSome found (IsAtHead (H.view host.old) tree.value.buffered.file)) }
    ensures damaged { IfErr result (DamageShown (H.view host.old) tree.value.buffered.file (ShowsPairs tree.value.buffered.file tree.value.tree)) }
    ensures undamaged { IfErr result (NoFalseTreeDamage (H.view host.old) tree.value.buffered.file tree.value.tree) }
    ensures read { HasRead (P.agrees pages.new) (P.covers pages.old) (P.covers pages.new) (H.view host.old) (H.view host.new) tree.value.buffered.file }
    ensures causes { ReadCost 2 (H.view host.old) (H.view host.new) result }
    ensures ended { tree.value.tree.pairs ≤ tree.value.passed → (H.view host.new).reads ≡ (H.view host.old).reads }
{
    match tree.next(host, pages)? {
        None => Ok(None),
        Some(head) => Ok(Some(TreeSource { head, tree })),
    }
}
