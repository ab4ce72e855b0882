// The entries of one token.
ghost use Rattle.std.specs.Prelude.{◌≡◌, ◌++◌, ◌∷◌, [], ℕ, List, Option, IfOk, OnOk};
ghost use Rattle.sasi_host.specs.declared.damage.Damage.{Damage};
ghost use Rattle.sasi_host.specs.Names.{Folder};
ghost use Rattle.sasi_ranges.specs.declared.entry.Entry.{Entry as SpecEntry};
ghost use Rattle.sasi_ranges.specs.StreamCalls.{CanStream, HasStreamed, Spends, StreamFaults};
ghost use Rattle.sasi_engine.specs.TokenTurns.{GivesAfter, TakesNext, TakesToken};

use sasi_host::{Host, PageReader, ReadFault};
use sasi_ranges::{Entry, TokenStream};
use sasi_types::Token;
use std::alloc::{AllocError, Global};

// Adds an entry.
fn add_entry(entries: &mut Vec<Entry>, entry: Entry) -> Result<(), AllocError>
    ensures { OnOk result (entries.new.items ≡ entries.old.items ++ entry ∷ []) }
{
    entries.push(entry)?;
    Ok(())
}

// Adds the next entries of a stream, as long as they have the token. It gives the first one behind them, which has another token;
// None exactly where the stream ends.
pub(crate) fn take_token<S: TokenStream, H: Host, P: PageReader>(
    host: &mut H,
    pages: &mut P,
    hits: &mut S,
    token: Token,
    entries: &mut Vec<Entry>,
) -> Result<Option<Entry>, ReadFault>
    requires read { CanStream (P.agrees pages.old) (S.opens hits.old) (H.view host.old) }
    requires ready { S.ready hits.old (H.view host.old).files }
    ensures takes { (es : List SpecEntry) → S.leaves hits.old (H.view host.old).files es → IfOk result (TakesToken (S.leaves hits.new (H.view host.new).files) token entries.old.items entries.new.items es) }
    ensures reads { (most : ℕ) → S.pays hits.old (H.view host.old).files most → Spends (S.pays hits.new (H.view host.new).files) most (H.view host.old).reads (H.view host.new).reads result }
    ensures ready { OnOk result (S.ready hits.new (H.view host.new).files) }
    ensures read { HasStreamed (P.agrees pages.new) (P.covers pages.old) (P.covers pages.new) (S.opens hits.old) (S.opens hits.new) (H.view host.old) (H.view host.new) }
    ensures faults { StreamFaults (S.shows hits.old (H.view host.old).files) (S.shows hits.new (H.view host.new).files) (S.leaves hits.old (H.view host.old).files) (H.view host.old) (H.view host.new) result }
    ensures shows_less { (files : Option Folder) (damage : Damage) → S.shows hits.new files damage → S.shows hits.old files damage }
{
    for _turn in 0..u64::MAX {
        let Some(entry) = hits.next(host, pages)? else {
            return Ok(None);
        };
        if entry.token != token {
            return Ok(Some(entry));
        }
        add_entry(entries, entry)?;
    }
    // No folder has so many hits.
    Err(ReadFault::OutOfMemory)
}

// The first entry that is left: the one that was read ahead, or else the next one of the stream.
fn first_left<S: TokenStream, H: Host, P: PageReader>(
    host: &mut H,
    pages: &mut P,
    hits: &mut S,
    ahead: Option<Entry>,
) -> Result<Option<Entry>, ReadFault>
    requires read { CanStream (P.agrees pages.old) (S.opens hits.old) (H.view host.old) }
    requires ready { S.ready hits.old (H.view host.old).files }
    ensures gives { (es : List SpecEntry) → S.leaves hits.old (H.view host.old).files es → IfOk result (GivesAfter (S.leaves hits.new (H.view host.new).files) ahead es) }
    ensures reads { (most : ℕ) → S.pays hits.old (H.view host.old).files most → Spends (S.pays hits.new (H.view host.new).files) most (H.view host.old).reads (H.view host.new).reads result }
    ensures ready { OnOk result (S.ready hits.new (H.view host.new).files) }
    ensures read { HasStreamed (P.agrees pages.new) (P.covers pages.old) (P.covers pages.new) (S.opens hits.old) (S.opens hits.new) (H.view host.old) (H.view host.new) }
    ensures faults { StreamFaults (S.shows hits.old (H.view host.old).files) (S.shows hits.new (H.view host.new).files) (S.leaves hits.old (H.view host.old).files) (H.view host.old) (H.view host.new) result }
    ensures shows_less { (files : Option Folder) (damage : Damage) → S.shows hits.new files damage → S.shows hits.old files damage }
{
    match ahead {
        Some(entry) => Ok(Some(entry)),
        None => hits.next(host, pages),
    }
}

// The entries of the next token, of which one may have been read ahead; none exactly where none is left.
pub(crate) fn next_token<S: TokenStream, H: Host, P: PageReader>(
    alloc: Global,
    host: &mut H,
    pages: &mut P,
    hits: &mut S,
    ahead: &mut Option<Entry>,
) -> Result<Vec<Entry>, ReadFault>
    requires read { CanStream (P.agrees pages.old) (S.opens hits.old) (H.view host.old) }
    requires ready { S.ready hits.old (H.view host.old).files }
    ensures takes { (es : List SpecEntry) → S.leaves hits.old (H.view host.old).files es → IfOk result (λ entries. TakesNext (S.leaves hits.new (H.view host.new).files) ahead.old ahead.new es entries.items) }
    ensures reads { (most : ℕ) → S.pays hits.old (H.view host.old).files most → Spends (S.pays hits.new (H.view host.new).files) most (H.view host.old).reads (H.view host.new).reads result }
    ensures ready { OnOk result (S.ready hits.new (H.view host.new).files) }
    ensures read { HasStreamed (P.agrees pages.new) (P.covers pages.old) (P.covers pages.new) (S.opens hits.old) (S.opens hits.new) (H.view host.old) (H.view host.new) }
    ensures faults { StreamFaults (S.shows hits.old (H.view host.old).files) (S.shows hits.new (H.view host.new).files) (S.leaves hits.old (H.view host.old).files) (H.view host.old) (H.view host.new) result }
    ensures shows_less { (files : Option Folder) (damage : Damage) → S.shows hits.new files damage → S.shows hits.old files damage }
{
    let mut entries = Vec::new(alloc);
    let before = ahead.take();
    let Some(first) = first_left(host, pages, hits, before)? else {
        return Ok(entries);
    };
    add_entry(&mut entries, first)?;
    *ahead = take_token(host, pages, hits, first.token, &mut entries)?;
    Ok(entries)
}
