// The next hit of open searches.
ghost use Rattle.std.specs.Prelude.{ℕ, List, IfOk, OnOk};
ghost use Rattle.sasi_types.specs.declared.tree.Pair.{Pair as SpecPair};
ghost use Rattle.sasi_host.specs.Names.{Bytes};
ghost use Rattle.sasi_terms.specs.declared.op.Op.{Op as SpecOp};
ghost use Rattle.sasi_ranges.specs.StreamCalls.{CanStream, HasStreamed, Spends, StreamFaults};
ghost use Rattle.sasi_hits.specs.Calls.{IsFile};
ghost use Rattle.sasi_hits.specs.IndexHits.{AreOpen, HitsShow, SearchesLeave, SearchesPay};
ghost use Rattle.sasi_hits.specs.Pairs.{GivesPair};

use crate::meeting::next_hit;
use crate::open_searches::WordSearches;
use sasi_host::{Host, PageReader, ReadFault};
use sasi_types::{Pair, Token};

// The next pair that all words give, from the floor on; None where there is none.
pub(crate) fn next_of<H: Host, P: PageReader>(
    host: &mut H,
    pages: &mut P,
    searches: &mut WordSearches,
    floor: Token,
) -> Result<Option<Pair>, ReadFault>
    requires read { CanStream (P.agrees pages.old) (IsFile searches.old.first.index.file) (H.view host.old) }
    requires ready { AreOpen searches.old.first.index.file searches.old (H.view host.old).files }
    ensures gives { (op : SpecOp) (words : List Bytes) (left : List SpecPair) → SearchesLeave op words floor searches.old (H.view host.old).files left → IfOk result (GivesPair (SearchesLeave op words floor searches.new (H.view host.new).files) left) }
    ensures reads { (op : SpecOp) (words : List Bytes) (most : ℕ) → SearchesPay op words searches.old (H.view host.old).files most → Spends (SearchesPay op words searches.new (H.view host.new).files) most (H.view host.old).reads (H.view host.new).reads result }
    ensures ready { OnOk result (AreOpen searches.old.first.index.file searches.new (H.view host.new).files) }
    ensures read { HasStreamed (P.agrees pages.new) (P.covers pages.old) (P.covers pages.new) (IsFile searches.old.first.index.file) (IsFile searches.old.first.index.file) (H.view host.old) (H.view host.new) }
    ensures faults { StreamFaults (HitsShow searches.old.first.index.file (H.view host.old).files) (HitsShow searches.old.first.index.file (H.view host.new).files) (λ (left : List SpecPair). (op : SpecOp) × (words : List Bytes) × (floor : ℕ) × SearchesLeave op words floor searches.old (H.view host.old).files left) (H.view host.old) (H.view host.new) result }
{
    next_hit(
        host,
        pages,
        &mut searches.first,
        &mut searches.others,
        floor,
    )
}
