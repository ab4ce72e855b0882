// Searches of an index file.
ghost use Rattle.std.specs.Prelude.{◌≡◌, ◌+◌, ◌*◌, ◌^◌, ◌≤◌, max, [], None, IfErr, IfOk, IfSome, IsOk, OnOk, true, false};
ghost use Rattle.std.specs.BinaryHeap.{IsHeap};
ghost use Rattle.sasi_host.specs.View.{ReadCost};
ghost use Rattle.sasi_host.specs.Damages.{DamageShown};
ghost use Rattle.sasi_host.specs.PageReading.{CanRead, HasRead};
ghost use Rattle.sasi_indexwrite.specs.Content.{IndexContent};
ghost use Rattle.sasi_indexread.specs.Asked.{AreNumberTerms, asked_lists, holding_lists};
ghost use Rattle.sasi_indexread.specs.Costs.{cost_left};
ghost use Rattle.sasi_indexread.specs.Damages.{ShowsIndex};
ghost use Rattle.sasi_treemerge.specs.Merges.{IsLeast, SpendsReads, held_of, is_left, last_after, sources_of};
ghost use Rattle.sasi_indexread.specs.Searches.{CanSearch, FailsAsRead, IsSearching, NoFalseSearchDamage, NoFalseSearchingDamage, searching};
ghost use Rattle.sasi_treemerge.specs.Held.{held_cmp};
ghost use Rattle.sasi_treemerge.specs.Sources.{source_cmp};

use crate::IndexFile;
use crate::collect::collect;
use sasi_host::{Host, PageReader, ReadFault};
use sasi_terms::Op;
use sasi_treemerge::TreeMerge;
use sasi_types::{Pair, Token};
use std::alloc::Global;
use std::marker::Model;

/// A search of an index file. It collects the pairs of the terms that are asked for at the first pair, and merges them: it keeps those
/// of trees of one node and of entries in memory, and of each larger tree the next pair and one page. In an index of the mode SPARSE
/// it looks at each term of a range, and doesn't read the trees of superblocks yet. After an error it isn't used again.
#[derive(Drop)]
pub struct Search {
    alloc: Global,
    index: IndexFile,
    op: Op,
    body: Vec<u8>,
    is_collected: bool,
    merge: TreeMerge,
}

impl Model for Search {
    ghost use Rattle.sasi_indexread.specs.Searches.{Searching};

    ghost Value = { Searching };

    ghost view = { λ a. record { index = a.index; op = a.op; body = a.body.items; is_collected = a.is_collected; merge = a.merge } };
}

// Collects the trees, unless they are.
fn keep_collected<H: Host, P: PageReader>(
    alloc: Global,
    host: &mut H,
    pages: &mut P,
    index: &IndexFile,
    op: &Op,
    body: &[u8],
    is_collected: &mut bool,
    merge: &mut TreeMerge,
) -> Result<(), ReadFault>
    requires read { CanRead (P.agrees pages.old) (H.view host.old) index.now.file }
    requires search { CanSearch (H.view host.old) (searching index.now op.now body.now is_collected.old merge.old) }
    ensures ok { OnOk result ((content : IndexContent) → IsSearching (H.view host.old) (searching index.now op.now body.now is_collected.old merge.old) content
        → IsSearching (H.view host.new) (searching index.now op.now body.now is_collected.new merge.new) content) }
    ensures collected { OnOk result (is_collected.new ≡ true) }
    ensures reads { (content : IndexContent) → IsSearching (H.view host.old) (searching index.now op.now body.now is_collected.old merge.old) content
        → SpendsReads (H.view host.old) (H.view host.new) (cost_left (searching index.now op.now body.now is_collected.old merge.old) content) (cost_left (searching index.now op.now body.now is_collected.new merge.new) content) result }
    ensures search { OnOk result (CanSearch (H.view host.new) (searching index.now op.now body.now is_collected.new merge.new)) }
    ensures damaged { IfErr result (DamageShown (H.view host.old) index.now.file (ShowsIndex index.now)) }
    ensures undamaged { IfErr result (NoFalseSearchDamage (H.view host.old) index.now) }
    ensures read { HasRead (P.agrees pages.new) (P.covers pages.old) (P.covers pages.new) (H.view host.old) (H.view host.new) index.now.file }
    ensures causes { ReadCost (index.now.blocks.levels + 512 + 511 * 2 ^ 62) (H.view host.old) (H.view host.new) result }
    ensures same { (merge.new.last ≡ merge.old.last) × (merge.new.floor ≡ merge.old.floor) }
{
    if *is_collected {
        return Ok(());
    }
    collect(alloc, host, pages, index, op, body, merge)?;
    *is_collected = true;
    Ok(())
}

// The next pair of a search, which collects the trees first.
fn next_pair<H: Host, P: PageReader>(
    alloc: Global,
    host: &mut H,
    pages: &mut P,
    index: &IndexFile,
    op: &Op,
    body: &[u8],
    is_collected: &mut bool,
    merge: &mut TreeMerge,
) -> Result<Option<Pair>, ReadFault>
    requires read { CanRead (P.agrees pages.old) (H.view host.old) index.now.file }
    requires search { CanSearch (H.view host.old) (searching index.now op.now body.now is_collected.old merge.old) }
    ensures ok { IfOk result (λ found. (content : IndexContent) → IsSearching (H.view host.old) (searching index.now op.now body.now is_collected.old merge.old) content
        → IsLeast (asked_lists content op.now body.now) merge.old.last merge.old.floor found × IsSearching (H.view host.new) (searching index.now op.now body.now is_collected.new merge.new) content) }
    ensures behind { IfOk result (λ found. IfSome found (λ pair. is_left merge.old.last merge.old.floor pair ≡ true)) }
    ensures last { IfOk result (λ found. merge.new.last ≡ last_after merge.old.last found) }
    ensures floor { OnOk result (merge.new.floor ≡ merge.old.floor) }
    ensures search { OnOk result (CanSearch (H.view host.new) (searching index.now op.now body.now is_collected.new merge.new)) }
    ensures damaged { IfErr result (DamageShown (H.view host.old) index.now.file (ShowsIndex index.now)) }
    ensures undamaged { IfErr result (NoFalseSearchingDamage (H.view host.old) (searching index.now op.now body.now is_collected.old merge.old)) }
    ensures read { HasRead (P.agrees pages.new) (P.covers pages.old) (P.covers pages.new) (H.view host.old) (H.view host.new) index.now.file }
    ensures causes { FailsAsRead (H.view host.old) (H.view host.new) result }
    ensures reads { (content : IndexContent) → IsSearching (H.view host.old) (searching index.now op.now body.now is_collected.old merge.old) content
        → SpendsReads (H.view host.old) (H.view host.new) (cost_left (searching index.now op.now body.now is_collected.old merge.old) content) (cost_left (searching index.now op.now body.now is_collected.new merge.new) content) result }
{
    keep_collected(alloc, host, pages, index, op, body, is_collected, merge)?;
    let found = merge.next(host, pages)?;
    Ok(found)
}

impl Search {
    // A search of the file for the terms that the operator and the body ask for, before its first pair.
    pub(crate) fn new(alloc: Global, index: IndexFile, op: Op, body: Vec<u8>) -> Search
        ensures index { result.index ≡ index }
        ensures op { result.op ≡ op }
        ensures body { result.body ≡ body.items }
        ensures begins { result.is_collected ≡ false }
        ensures file { result.merge.file ≡ index.file }
        ensures sources { sources_of result.merge ≡ [] }
        ensures heap { IsHeap source_cmp (sources_of result.merge) }
        ensures held { held_of result.merge ≡ [] }
        ensures held_heap { IsHeap held_cmp (held_of result.merge) }
        ensures last { result.merge.last ≡ None }
        ensures floor { result.merge.floor ≡ 0 }
    {
        let merge = TreeMerge::new(alloc, index.file());
        Search {
            alloc,
            index,
            op,
            body,
            is_collected: false,
            merge,
        }
    }

    /// The next pair of the terms that are asked for and of the spill; None exactly at the end. Pairs rise, and each comes once.
    pub fn next<H: Host, P: PageReader>(
        &mut self,
        host: &mut H,
        pages: &mut P,
    ) -> Result<Option<Pair>, ReadFault>
        requires read { CanRead (P.agrees pages.old) (H.view host.old) self.old.index.file }
        requires search { CanSearch (H.view host.old) self.old }
        ensures ok { IfOk result (λ found. (content : IndexContent) → IsSearching (H.view host.old) self.old content
            → IsLeast (asked_lists content self.old.op self.old.body) self.old.merge.last self.old.merge.floor found × IsSearching (H.view host.new) self.new content) }
        // In an index of numbers, a range gives the pairs of those that are in it.
        ensures numbers { IfOk result (λ found. (content : IndexContent) → IsSearching (H.view host.old) self.old content → AreNumberTerms content
            → IsLeast (holding_lists content self.old.op self.old.body) self.old.merge.last self.old.merge.floor found) }
        // In any file pairs rise, so a loop over them ends.
        ensures behind { IfOk result (λ found. IfSome found (λ pair. is_left self.old.merge.last self.old.merge.floor pair ≡ true)) }
        ensures last { IfOk result (λ found. self.new.merge.last ≡ last_after self.old.merge.last found) }
        ensures floor { OnOk result (self.new.merge.floor ≡ self.old.merge.floor) }
        ensures search { OnOk result (CanSearch (H.view host.new) self.new) }
        ensures damaged { IfErr result (DamageShown (H.view host.old) self.old.index.file (ShowsIndex self.old.index)) }
        ensures undamaged { IfErr result (NoFalseSearchingDamage (H.view host.old) self.old) }
        ensures read { HasRead (P.agrees pages.new) (P.covers pages.old) (P.covers pages.new) (H.view host.old) (H.view host.new) self.old.index.file }
        ensures causes { FailsAsRead (H.view host.old) (H.view host.new) result }
        // Its reads are those that were left to it, also where it fails. A new search has one for each term that is read, and two for
        // each pair.
        ensures reads { (content : IndexContent) → IsSearching (H.view host.old) self.old content → SpendsReads (H.view host.old) (H.view host.new) (cost_left self.old content) (cost_left self.new content) result }
        ensures asked { (self.new.index ≡ self.old.index) × (self.new.op ≡ self.old.op) × (self.new.body ≡ self.old.body) }
    {
        let alloc = self.alloc;
        next_pair(
            alloc,
            host,
            pages,
            &self.index,
            &self.op,
            &self.body,
            &mut self.is_collected,
            &mut self.merge,
        )
    }

    /// Drops the pairs of tokens below this one. It reads nothing: the trees are read on at the next pair.
    pub fn skip_to<H: Host, P: PageReader>(
        &mut self,
        host: &mut H,
        pages: &mut P,
        token: Token,
    ) -> Result<(), ReadFault>
        ensures ok { IsOk result }
        ensures floor { self.new.merge.floor ≡ max self.old.merge.floor token }
        ensures last { self.new.merge.last ≡ self.old.merge.last }
        ensures collected { self.new.is_collected ≡ self.old.is_collected }
        ensures searching { (content : IndexContent) → IsSearching (H.view host.old) self.old content → IsSearching (H.view host.old) self.new content }
        ensures search { CanSearch (H.view host.old) self.old → CanSearch (H.view host.old) self.new }
        ensures asked { (self.new.index ≡ self.old.index) × (self.new.op ≡ self.old.op) × (self.new.body ≡ self.old.body) }
        // No more reads are left to it than before.
        ensures costs { (content : IndexContent) → cost_left self.new content ≤ cost_left self.old content }
        ensures host { host.new ≡ host.old }
        ensures pages { pages.new ≡ pages.old }
    {
        let _ = &host;
        let _ = &pages;
        self.merge.skip_to(token);
        Ok(())
    }
}
