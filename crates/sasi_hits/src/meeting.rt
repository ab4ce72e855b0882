// The pairs at which the words of a relation meet.
ghost use Rattle.std.specs.Prelude.{◌≡◌, ◌<◌, ◌^◌, List, IfOk, OnOk};
ghost use Rattle.sasi_types.specs.declared.tree.Pair.{Pair as SpecPair};
ghost use Rattle.sasi_host.specs.Names.{Bytes};
ghost use Rattle.sasi_terms.specs.declared.op.Op.{Op as SpecOp};
ghost use Rattle.sasi_treemerge.specs.Merges.{SpendsReads};
ghost use Rattle.sasi_indexwrite.specs.Content.{IndexContent};
ghost use Rattle.sasi_indexread.specs.Damages.{ShowsIndex};
ghost use Rattle.sasi_ranges.specs.StreamCalls.{CanStream, HasStreamed, StreamFaults};
ghost use Rattle.sasi_hits.specs.Calls.{IsFile, ShowsIn};
ghost use Rattle.sasi_hits.specs.HitPairs.{AreHits};
ghost use Rattle.sasi_hits.specs.Pairs.{GivesPair};
ghost use Rattle.sasi_hits.specs.WordSearches.{AreFollowing, AreSearching, AskAgain, AskedOf, CanMeet, EachCanFollow, From, HeadRises, IsMet, OthersOpen, OthersShow, TurnGives, is_all, others_cost, turn_of, words_cost};
ghost use Rattle.sasi_hits.specs.declared.meeting.Turn.TheVariants as turns;

use crate::word_search::{WordSearch, word_meets};
use sasi_host::{Host, PageReader, ReadFault};
use sasi_indexread::Search;
use sasi_types::{Pair, Token};

// Whether the words behind the first one give a pair.
#[derive(Clone, Copy)]
pub(crate) enum Met {
    // Each of them gives it.
    All,
    // One of them doesn't.
    NotAll,
    // One of them has come to its end.
    NoMore,
}

fn is_all(met: Met) -> bool
    ensures { result ≡ is_all met }
{
    match met {
        Met::All => true,
        Met::NotAll => false,
        Met::NoMore => false,
    }
}

// What one pair of the first word turns out to be.
#[derive(Clone, Copy)]
enum Turn {
    // The other words give it, too.
    Hit(Pair),
    // Not all of them do, or it is below the floor.
    Passed,
    // No hit is left.
    Ended,
}

fn turn_of(met: Met, pair: Pair) -> Turn
    ensures is { result ≡ turn_of met pair }
    ensures fits { (pair.token < 2 ^ 64) × (pair.place < 2 ^ 64) }
{
    match met {
        Met::All => Turn::Hit(pair),
        Met::NotAll => Turn::Passed,
        Met::NoMore => Turn::Ended,
    }
}

// Whether the words behind the first one give the pair, to which their searches are read on.
fn others_meet<H: Host, P: PageReader>(
    host: &mut H,
    pages: &mut P,
    others: &mut [WordSearch],
    pair: Pair,
) -> Result<Met, ReadFault>
    requires read { CanStream (P.agrees pages.old) (OthersOpen others.old) (H.view host.old) }
    requires can { EachCanFollow (H.view host.old) others.old }
    ensures meets { (content : IndexContent) → AreFollowing (H.view host.old) content (From pair) others.old → IfOk result (λ met. IsMet content others.old pair met × AreFollowing (H.view host.new) content (From pair) others.new) }
    ensures can { OnOk result (EachCanFollow (H.view host.new) others.new) }
    ensures reads { (content : IndexContent) → AreFollowing (H.view host.old) content (From pair) others.old → SpendsReads (H.view host.old) (H.view host.new) (others_cost content others.old) (others_cost content others.new) result }
    ensures read { HasStreamed (P.agrees pages.new) (P.covers pages.old) (P.covers pages.new) (OthersOpen others.old) (OthersOpen others.new) (H.view host.old) (H.view host.new) }
    ensures faults { StreamFaults (OthersShow (H.view host.old).files others.old) (OthersShow (H.view host.new).files others.new) (λ content. AreFollowing (H.view host.old) content (From pair) others.old) (H.view host.old) (H.view host.new) result }
    ensures asked { AskAgain others.old others.new }
{
    for word in others.iter_mut() {
        let met = word_meets(host, pages, word, pair)?;
        if !is_all(met) {
            return Ok(met);
        }
    }
    Ok(Met::All)
}

// Takes the next pair of the first word, and looks for it among those of the others.
fn take_turn<H: Host, P: PageReader>(
    host: &mut H,
    pages: &mut P,
    first: &mut Search,
    others: &mut [WordSearch],
    floor: Token,
) -> Result<Turn, ReadFault>
    requires read { CanStream (P.agrees pages.old) (IsFile first.old.index.file) (H.view host.old) }
    requires can { CanMeet (H.view host.old) first.old others.old }
    ensures searching { OnOk result ((op : SpecOp) (words : List Bytes) (content : IndexContent) → AreSearching (H.view host.old) op words first.old others.old content → AreSearching (H.view host.new) op words first.new others.new content) }
    ensures gives { (op : SpecOp) (words : List Bytes) (content : IndexContent) (left : List SpecPair) → AreSearching (H.view host.old) op words first.old others.old content → AreHits content op words first.old.merge.last floor left → IfOk result (TurnGives (AreHits content op words first.new.merge.last floor) left) }
    // In any file the pairs of the first word rise.
    ensures rises { IfOk result (λ turn. turn ≡ turns.Passed → HeadRises first.old.merge.last first.new.merge.last) }
    ensures reads { (op : SpecOp) (words : List Bytes) (content : IndexContent) → AreSearching (H.view host.old) op words first.old others.old content → SpendsReads (H.view host.old) (H.view host.new) (words_cost content first.old others.old) (words_cost content first.new others.new) result }
    ensures can { OnOk result (CanMeet (H.view host.new) first.new others.new) }
    ensures read { HasStreamed (P.agrees pages.new) (P.covers pages.old) (P.covers pages.new) (IsFile first.old.index.file) (IsFile first.old.index.file) (H.view host.old) (H.view host.new) }
    ensures faults { StreamFaults (ShowsIn first.old.index.file (ShowsIndex first.old.index) (H.view host.old).files) (ShowsIn first.old.index.file (ShowsIndex first.old.index) (H.view host.new).files) (AskedOf (H.view host.old) first.old others.old) (H.view host.old) (H.view host.new) result }
    ensures index { first.new.index ≡ first.old.index }
{
    let Some(pair) = first.next(host, pages)? else {
        return Ok(Turn::Ended);
    };
    if pair.token < floor {
        return Ok(turn_of(Met::NotAll, pair));
    }
    let met = others_meet(host, pages, others, pair)?;
    Ok(turn_of(met, pair))
}

// The next pair that all words give; None where there is none.
pub(crate) fn next_hit<H: Host, P: PageReader>(
    host: &mut H,
    pages: &mut P,
    first: &mut Search,
    others: &mut [WordSearch],
    floor: Token,
) -> Result<Option<Pair>, ReadFault>
    requires read { CanStream (P.agrees pages.old) (IsFile first.old.index.file) (H.view host.old) }
    requires can { CanMeet (H.view host.old) first.old others.old }
    ensures searching { OnOk result ((op : SpecOp) (words : List Bytes) (content : IndexContent) → AreSearching (H.view host.old) op words first.old others.old content → AreSearching (H.view host.new) op words first.new others.new content) }
    ensures gives { (op : SpecOp) (words : List Bytes) (content : IndexContent) (left : List SpecPair) → AreSearching (H.view host.old) op words first.old others.old content → AreHits content op words first.old.merge.last floor left → IfOk result (GivesPair (AreHits content op words first.new.merge.last floor) left) }
    ensures reads { (op : SpecOp) (words : List Bytes) (content : IndexContent) → AreSearching (H.view host.old) op words first.old others.old content → SpendsReads (H.view host.old) (H.view host.new) (words_cost content first.old others.old) (words_cost content first.new others.new) result }
    ensures can { OnOk result (CanMeet (H.view host.new) first.new others.new) }
    ensures read { HasStreamed (P.agrees pages.new) (P.covers pages.old) (P.covers pages.new) (IsFile first.old.index.file) (IsFile first.old.index.file) (H.view host.old) (H.view host.new) }
    ensures faults { StreamFaults (ShowsIn first.old.index.file (ShowsIndex first.old.index) (H.view host.old).files) (ShowsIn first.old.index.file (ShowsIndex first.old.index) (H.view host.new).files) (AskedOf (H.view host.old) first.old others.old) (H.view host.old) (H.view host.new) result }
    ensures index { first.new.index ≡ first.old.index }
{
    'pairs: loop {
        match take_turn(host, pages, first, others, floor)? {
            Turn::Hit(pair) => return Ok(Some(pair)),
            Turn::Ended => return Ok(None),
            Turn::Passed => {}
        }
    }
}
