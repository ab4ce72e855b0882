// Opens an index file, and begins the searches of the words.
ghost use Rattle.std.specs.Prelude.{◌≡◌, ◌≤◌, ℕ, List, length, map, IfOk, Some};
ghost use Rattle.std.specs.List.{AllByRecursion};
ghost use Rattle.sasi_types.specs.declared.tree.Pair.{Pair as SpecPair};
ghost use Rattle.sasi_ranges.specs.StreamCalls.{CanStream, HasStreamed, StreamFaults};
ghost use Rattle.sasi_hits.specs.Calls.{IsFile, SpendsOn};
ghost use Rattle.sasi_hits.specs.IndexHits.{AreFresh, HitsLeave, HitsPay, HitsReady, HitsShow};
ghost use Rattle.sasi_hits.specs.WordSearches.{IsFreshWord};

use crate::word_search::WordSearch;
use sasi_host::{FileName, Host, PageReader, ReadFault};
use sasi_indexread::{IndexFile, Search};
use sasi_terms::Op;
use sasi_types::{Term, TermList};
use std::alloc::{AllocError, Global};

// The searches of all words.
#[derive(Drop)]
pub(crate) struct WordSearches {
    pub(crate) first: Search,
    pub(crate) others: Vec<WordSearch>,
}

// New searches of the words behind the first one.
fn search_others(
    alloc: Global,
    index: &IndexFile,
    op: &Op,
    words: &[Term],
) -> Result<Vec<WordSearch>, AllocError>
    ensures fresh { IfOk result (λ others. AllByRecursion (IsFreshWord index.now op.now) others.items) }
    ensures words { IfOk result (λ others. map (λ word. word.search.body) others.items ≡ words.now) }
{
    let mut others = Vec::new(alloc);
    for word in words {
        let search = index.search(alloc, op, word.bytes())?;
        others.push(WordSearch { search, head: None })?;
    }
    Ok(others)
}

// New searches of the words.
fn search_all(
    alloc: Global,
    index: &IndexFile,
    op: &Op,
    words: &[Term],
) -> Result<WordSearches, AllocError>
    requires some { 1 ≤ length words.now }
    ensures { IfOk result (AreFresh index.now op.now words.now) }
{
    let Some((first, others)) = words.split_first() else {
        unreachable!();
    };
    let first = index.search(alloc, op, first.bytes())?;
    let others = search_others(alloc, index, op, others)?;
    Ok(WordSearches { first, others })
}

// The searches: those that are there, or new ones of the file, which is opened then.
pub(crate) fn open_searches<H: Host, P: PageReader>(
    alloc: Global,
    host: &mut H,
    pages: &mut P,
    file: FileName,
    op: &Op,
    words: &TermList,
    searches: Option<WordSearches>,
) -> Result<WordSearches, ReadFault>
    requires some { 1 ≤ length words.now }
    requires read { CanStream (P.agrees pages.old) (IsFile file) (H.view host.old) }
    requires ready { HitsReady file searches (H.view host.old).files }
    ensures leaves { (floor : ℕ) (left : List SpecPair) → HitsLeave file op.now words.now floor searches (H.view host.old).files left → IfOk result (λ opened. HitsLeave file op.now words.now floor (Some opened) (H.view host.new).files left) }
    ensures reads { (most : ℕ) → HitsPay file op.now words.now searches (H.view host.old).files most → SpendsOn (λ opened rest. HitsPay file op.now words.now (Some opened) (H.view host.new).files rest) most (H.view host.old).reads (H.view host.new).reads result }
    ensures ready { IfOk result (λ opened. HitsReady file (Some opened) (H.view host.new).files) }
    ensures read { HasStreamed (P.agrees pages.new) (P.covers pages.old) (P.covers pages.new) (IsFile file) (IsFile file) (H.view host.old) (H.view host.new) }
    ensures faults { StreamFaults (HitsShow file (H.view host.old).files) (HitsShow file (H.view host.new).files) (λ (left : List SpecPair). (floor : ℕ) × HitsLeave file op.now words.now floor searches (H.view host.old).files left) (H.view host.old) (H.view host.new) result }
{
    match searches {
        Some(searches) => Ok(searches),
        None => {
            let index = IndexFile::open(host, pages, file)?;
            let searches = search_all(alloc, &index, op, words.as_slice())?;
            Ok(searches)
        }
    }
}
