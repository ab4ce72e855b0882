// The next key of a data file from a token on.
ghost use Rattle.std.specs.Prelude.{◌≡◌, ℕ, List, IfOk};
ghost use Rattle.sasi_types.specs.declared.tree.Pair.{Pair as SpecPair};
ghost use Rattle.sasi_host.specs.PageReading.{CanReadOn, HasReadOn};
ghost use Rattle.sasi_tokentree.specs.Damages.{ShowsPairs};
ghost use Rattle.sasi_tokentree.specs.Scans.{IsAtLast};
ghost use Rattle.sasi_ranges.specs.StreamCalls.{Spends, StreamFaults};
ghost use Rattle.sasi_hits.specs.Calls.{ShowsIn};
ghost use Rattle.sasi_hits.specs.KeyTrees.{ScanGives, ScanLeaves, ScanPays};

use sasi_host::{Host, PageReader, ReadFault};
use sasi_tokentree::Tree;
use sasi_types::{Pair, Token};

// The next pair of the tree whose token isn't below the floor; None where there is none.
pub(crate) fn next_key<H: Host, P: PageReader>(
    host: &mut H,
    pages: &mut P,
    tree: &mut Tree,
    floor: Token,
) -> Result<Option<Pair>, ReadFault>
    requires read { CanReadOn (P.agrees pages.old) (H.view host.old) tree.old.buffered }
    requires last { IsAtLast tree.old (H.view host.old).files }
    ensures gives { (left : List SpecPair) → ScanLeaves tree.old (H.view host.old).files left → IfOk result (ScanGives floor (ScanLeaves tree.new (H.view host.new).files) left) }
    ensures reads { (most : ℕ) → ScanPays tree.old (H.view host.old).files most → Spends (ScanPays tree.new (H.view host.new).files) most (H.view host.old).reads (H.view host.new).reads result }
    ensures read { HasReadOn (P.agrees pages.new) (P.covers pages.old) (P.covers pages.new) (H.view host.old) (H.view host.new) tree.old.buffered tree.new.buffered }
    ensures faults { StreamFaults (ShowsIn tree.old.buffered.file (ShowsPairs tree.old.buffered.file tree.old.tree) (H.view host.old).files) (ShowsIn tree.old.buffered.file (ShowsPairs tree.old.buffered.file tree.old.tree) (H.view host.new).files) (ScanLeaves tree.old (H.view host.old).files) (H.view host.old) (H.view host.new) result }
    ensures at_last { IsAtLast tree.new (H.view host.new).files }
    ensures tree { tree.new.tree ≡ tree.old.tree }
{
    'keys: loop {
        let Some(pair) = tree.next(host, pages)? else {
            return Ok(None);
        };
        if floor <= pair.token {
            return Ok(Some(pair));
        }
    }
}
