// The search of a word behind the first one.
ghost use Rattle.std.specs.Prelude.{◌≡◌, ◌<◌, ◌^◌, true, IfOk, OnOk, Some};
ghost use Rattle.sasi_treemerge.specs.Merges.{SpendsReads};
ghost use Rattle.sasi_indexwrite.specs.Content.{IndexContent};
ghost use Rattle.sasi_indexread.specs.Costs.{cost_left};
ghost use Rattle.sasi_indexread.specs.Damages.{ShowsIndex};
ghost use Rattle.sasi_indexread.specs.Searches.{IsSearching};
ghost use Rattle.sasi_ranges.specs.StreamCalls.{CanStream, HasStreamed, StreamFaults};
ghost use Rattle.sasi_hits.specs.Calls.{IsFile, ShowsIn};
ghost use Rattle.sasi_hits.specs.WordSearches.{AsksAgain, CanFollow, From, HeadAdvances, HeadRises, IsFollowing, IsMetBy, has_come_to, met_at};

use crate::meeting::Met;
use sasi_host::{Host, PageReader, ReadFault};
use sasi_indexread::Search;
use sasi_types::Pair;

// A search, and the pair that it gave last. It is read on as the pairs of the first word rise, so that pair may be above them.
#[derive(Drop)]
pub(crate) struct WordSearch {
    pub(crate) search: Search,
    pub(crate) head: Option<Pair>,
}

// Whether the head is the pair or behind it.
fn has_come_to(head: Option<Pair>, pair: Pair) -> bool
    ensures { result ≡ has_come_to head pair }
{
    match head {
        None => false,
        Some(head) => pair <= head,
    }
}

// Whether the head is the pair.
fn met_at(head: Option<Pair>, pair: Pair) -> Met
    ensures { result ≡ met_at head pair }
{
    match head {
        None => Met::NotAll,
        Some(head) => { if head == pair { Met::All } else { Met::NotAll } }
    }
}

// The head at a pair, whose numbers fit their fields.
fn head_at(pair: Pair) -> Option<Pair>
    ensures is { result ≡ Some pair }
    ensures fits { (pair.token < 2 ^ 64) × (pair.place < 2 ^ 64) }
{
    Some(pair)
}

// The next pair of the search becomes the head; false at its end.
fn advance<H: Host, P: PageReader>(
    host: &mut H,
    pages: &mut P,
    word: &mut WordSearch,
) -> Result<bool, ReadFault>
    requires read { CanStream (P.agrees pages.old) (IsFile word.old.search.index.file) (H.view host.old) }
    requires can { CanFollow (H.view host.old) word.old.search.index word.old }
    ensures gives { IfOk result (λ more. (content : IndexContent) → IsSearching (H.view host.old) word.old.search content → HeadAdvances content word.old.search word.old.head word.new.head more × IsSearching (H.view host.new) word.new.search content) }
    // In any file the head rises.
    ensures rises { IfOk result (λ more. more ≡ true → HeadRises word.old.head word.new.head) }
    ensures can { OnOk result (CanFollow (H.view host.new) word.old.search.index word.new) }
    ensures reads { (content : IndexContent) → IsSearching (H.view host.old) word.old.search content → SpendsReads (H.view host.old) (H.view host.new) (cost_left word.old.search content) (cost_left word.new.search content) result }
    ensures read { HasStreamed (P.agrees pages.new) (P.covers pages.old) (P.covers pages.new) (IsFile word.old.search.index.file) (IsFile word.old.search.index.file) (H.view host.old) (H.view host.new) }
    ensures faults { StreamFaults (ShowsIn word.old.search.index.file (ShowsIndex word.old.search.index) (H.view host.old).files) (ShowsIn word.old.search.index.file (ShowsIndex word.old.search.index) (H.view host.new).files) (IsSearching (H.view host.old) word.old.search) (H.view host.old) (H.view host.new) result }
    ensures asked { AsksAgain word.old.search word.new.search }
{
    let Some(pair) = word.search.next(host, pages)? else {
        return Ok(false);
    };
    word.head = head_at(pair);
    Ok(true)
}

// Reads the search on to its first pair at this one or behind it, and tells whether it is this one.
pub(crate) fn word_meets<H: Host, P: PageReader>(
    host: &mut H,
    pages: &mut P,
    word: &mut WordSearch,
    pair: Pair,
) -> Result<Met, ReadFault>
    requires read { CanStream (P.agrees pages.old) (IsFile word.old.search.index.file) (H.view host.old) }
    requires can { CanFollow (H.view host.old) word.old.search.index word.old }
    ensures meets { (content : IndexContent) → IsFollowing (H.view host.old) content (From pair) word.old → IfOk result (λ met. IsMetBy content word.old.search pair met × IsFollowing (H.view host.new) content (From pair) word.new) }
    ensures can { OnOk result (CanFollow (H.view host.new) word.old.search.index word.new) }
    ensures reads { (content : IndexContent) → IsSearching (H.view host.old) word.old.search content → SpendsReads (H.view host.old) (H.view host.new) (cost_left word.old.search content) (cost_left word.new.search content) result }
    ensures read { HasStreamed (P.agrees pages.new) (P.covers pages.old) (P.covers pages.new) (IsFile word.old.search.index.file) (IsFile word.old.search.index.file) (H.view host.old) (H.view host.new) }
    ensures faults { StreamFaults (ShowsIn word.old.search.index.file (ShowsIndex word.old.search.index) (H.view host.old).files) (ShowsIn word.old.search.index.file (ShowsIndex word.old.search.index) (H.view host.new).files) (IsSearching (H.view host.old) word.old.search) (H.view host.old) (H.view host.new) result }
    ensures asked { AsksAgain word.old.search word.new.search }
{
    'pairs: while !has_come_to(word.head, pair) {
        if !advance(host, pages, word)? {
            return Ok(Met::NoMore);
        }
    }
    Ok(met_at(word.head, pair))
}
