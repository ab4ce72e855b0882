// The intersection of streams.
ghost use Rattle.std.specs.Prelude.{◌≡◌, ℕ, List, None, Option, IfOk, OnOk};
ghost use Rattle.sasi_host.specs.declared.name.FileName.{FileName};
ghost use Rattle.sasi_host.specs.declared.damage.Damage.{Damage};
ghost use Rattle.sasi_host.specs.Names.{Folder};
ghost use Rattle.sasi_ranges.specs.declared.entry.Entry.{Entry as SpecEntry};
ghost use Rattle.sasi_ranges.specs.Entries.{Rises, from_token};
ghost use Rattle.sasi_ranges.specs.StreamCalls.{CanStream, Gives, HasStreamed, Spends, StreamFaults};
ghost use Rattle.sasi_ranges.specs.EachStream.{EachIsReady, EachLeaves, EachPays, SomeOpens, SomeShows};
ghost use Rattle.std.specs.Prelude.{Some, ◌<◌, length};
ghost use Rattle.sasi_ranges.specs.Lists.{intersection_by, intersection_of};
ghost use Rattle.sasi_ranges.specs.inside.Heads.{HeadsOpen, HeadsPay, HeadsReady, HeadsShow, greatest_low, head_at, lesser_token, low_at};
ghost use Rattle.sasi_ranges.specs.inside.Meets.{Agrees, MetLeaves, TakesAt, TakesCurrent};

use crate::head::{Head, Headed};
use crate::heads::{drop_all, fill_all, headed, least_of, skip_all};
use crate::relation_streams::{RelationStreams, StreamPositions, each_alone};
use crate::{Entry, Streams, TokenStream};
use sasi_host::{Host, PageReader, ReadFault};
use sasi_types::Token;
use std::alloc::AllocError;

/// Of the entries of several streams those whose token every relation has, in their order and each once. A relation has a token where
/// some stream that serves it has it. It keeps each stream with its first entry.
#[derive(Drop)]
pub struct Intersection<S> {
    streams: Vec<Headed<S>>,
    relations: RelationStreams,
    // The token whose entries are being given.
    current: Option<Token>,
}

// The lesser of a token so far and that of a first entry.
fn lesser_token(low: Option<Token>, head: Head) -> Option<Token>
    ensures { result ≡ lesser_token low head }
{
    match head {
        Head::Unread => low,
        Head::Ended => low,
        Head::At(entry) => match low {
            None => Some(entry.token),
            Some(so_far) => Some(so_far.min(entry.token)),
        },
    }
}

// The head of the stream at the position.
fn head_at<S>(streams: &[Headed<S>], at: usize) -> Head
    ensures { result ≡ head_at streams.now at }
{
    match streams.get(at) {
        None => Head::Ended,
        Some(stream) => stream.head,
    }
}

// The least token of the first entries of a relation's streams; None where none of them has one.
fn low_of<S>(streams: &[Headed<S>], positions: &[usize]) -> Option<Token>
    ensures { result ≡ low_at streams.now None positions.now }
{
    let mut low = None;
    for at in positions.iter() {
        low = lesser_token(low, head_at(streams, *at));
    }
    low
}

// The greatest of the least tokens of the relations; None where a relation has none.
fn greatest_low<S>(streams: &[Headed<S>], relations: &[StreamPositions]) -> Option<Token>
    ensures { result ≡ greatest_low streams.now (Some 0) relations.now }
{
    let mut greatest = 0;
    for relation in relations.iter() {
        let low = low_of(streams, &relation.positions)?;
        greatest = greatest.max(low);
    }
    Some(greatest)
}

// Takes the least first entry, if it has the token.
fn take_at<S>(streams: &mut [Headed<S>], token: Token) -> Option<Entry>
    ensures { TakesAt token streams.old streams.new result }
{
    let least = least_of(streams)?;
    if least.token != token {
        return None;
    }
    drop_all(streams, least);
    Some(least)
}

// Takes the least first entry, if it has the current token.
fn take_current<S: TokenStream, H: Host, P: PageReader>(
    host: &mut H,
    pages: &mut P,
    streams: &mut [Headed<S>],
    current: Option<Token>,
) -> Result<Option<Entry>, ReadFault>
    requires read { CanStream (P.agrees pages.old) (HeadsOpen S.opens streams.old) (H.view host.old) }
    requires ready { HeadsReady S.ready (H.view host.old).files streams.old }
    ensures takes { (relations : List (List ℕ)) (es : List SpecEntry) → MetLeaves S.leaves (H.view host.old).files streams.old relations current es → IfOk result (TakesCurrent S.leaves (H.view host.new).files streams.new relations current es) }
    ensures reads { (most : ℕ) → HeadsPay S.pays (H.view host.old).files streams.old most → Spends (HeadsPay S.pays (H.view host.new).files streams.new) most (H.view host.old).reads (H.view host.new).reads result }
    ensures ready { OnOk result (HeadsReady S.ready (H.view host.new).files streams.new) }
    ensures read { HasStreamed (P.agrees pages.new) (P.covers pages.old) (P.covers pages.new) (HeadsOpen S.opens streams.old) (HeadsOpen S.opens streams.new) (H.view host.old) (H.view host.new) }
    ensures faults { StreamFaults (HeadsShow S.shows (H.view host.old).files streams.old) (HeadsShow S.shows (H.view host.new).files streams.new) (λ (es : List SpecEntry). (relations : List (List ℕ)) × MetLeaves S.leaves (H.view host.old).files streams.old relations current es) (H.view host.old) (H.view host.new) result }
    ensures shows_less { (files : Option Folder) (damage : Damage) → HeadsShow S.shows files streams.new damage → HeadsShow S.shows files streams.old damage }
{
    let Some(token) = current else {
        return Ok(None);
    };
    fill_all(host, pages, streams)?;
    Ok(take_at(streams, token))
}

// Reads on to the next token that all relations have.
fn next_agreed<S: TokenStream, H: Host, P: PageReader>(
    host: &mut H,
    pages: &mut P,
    streams: &mut [Headed<S>],
    relations: &RelationStreams,
) -> Result<Option<Token>, ReadFault>
    requires read { CanStream (P.agrees pages.old) (HeadsOpen S.opens streams.old) (H.view host.old) }
    requires ready { HeadsReady S.ready (H.view host.old).files streams.old }
    ensures found { (es : List SpecEntry) → MetLeaves S.leaves (H.view host.old).files streams.old relations.now None es → IfOk result (Agrees S.leaves (H.view host.new).files streams.new relations.now es) }
    ensures reads { (most : ℕ) → HeadsPay S.pays (H.view host.old).files streams.old most → Spends (HeadsPay S.pays (H.view host.new).files streams.new) most (H.view host.old).reads (H.view host.new).reads result }
    ensures ready { OnOk result (HeadsReady S.ready (H.view host.new).files streams.new) }
    ensures read { HasStreamed (P.agrees pages.new) (P.covers pages.old) (P.covers pages.new) (HeadsOpen S.opens streams.old) (HeadsOpen S.opens streams.new) (H.view host.old) (H.view host.new) }
    ensures faults { StreamFaults (HeadsShow S.shows (H.view host.old).files streams.old) (HeadsShow S.shows (H.view host.new).files streams.new) (MetLeaves S.leaves (H.view host.old).files streams.old relations.now None) (H.view host.old) (H.view host.new) result }
    ensures shows_less { (files : Option Folder) (damage : Damage) → HeadsShow S.shows files streams.new damage → HeadsShow S.shows files streams.old damage }
{
    let mut from = 0;
    'tokens: loop {
        fill_all(host, pages, streams)?;
        let Some(token) = greatest_low(streams, relations.as_slice()) else {
            return Ok(None);
        };
        // No first entry is below the token to which all were skipped, so here each relation has it.
        if token <= from {
            return Ok(Some(token));
        }
        from = token;
        skip_all(host, pages, streams, token)?;
    }
}

// The next entry of the intersection.
fn next_met<S: TokenStream, H: Host, P: PageReader>(
    host: &mut H,
    pages: &mut P,
    streams: &mut [Headed<S>],
    relations: &RelationStreams,
    current: &mut Option<Token>,
) -> Result<Option<Entry>, ReadFault>
    requires read { CanStream (P.agrees pages.old) (HeadsOpen S.opens streams.old) (H.view host.old) }
    requires ready { HeadsReady S.ready (H.view host.old).files streams.old }
    ensures gives { (es : List SpecEntry) → MetLeaves S.leaves (H.view host.old).files streams.old relations.now current.old es → IfOk result (Gives (MetLeaves S.leaves (H.view host.new).files streams.new relations.now current.new) es) }
    ensures reads { (most : ℕ) → HeadsPay S.pays (H.view host.old).files streams.old most → Spends (HeadsPay S.pays (H.view host.new).files streams.new) most (H.view host.old).reads (H.view host.new).reads result }
    ensures ready { OnOk result (HeadsReady S.ready (H.view host.new).files streams.new) }
    ensures read { HasStreamed (P.agrees pages.new) (P.covers pages.old) (P.covers pages.new) (HeadsOpen S.opens streams.old) (HeadsOpen S.opens streams.new) (H.view host.old) (H.view host.new) }
    ensures faults { StreamFaults (HeadsShow S.shows (H.view host.old).files streams.old) (HeadsShow S.shows (H.view host.new).files streams.new) (MetLeaves S.leaves (H.view host.old).files streams.old relations.now current.old) (H.view host.old) (H.view host.new) result }
    ensures shows_less { (files : Option Folder) (damage : Damage) → HeadsShow S.shows files streams.new damage → HeadsShow S.shows files streams.old damage }
{
    if let Some(entry) = take_current(host, pages, streams, *current)? {
        return Ok(Some(entry));
    }
    *current = None;
    let Some(token) = next_agreed(host, pages, streams, relations)? else {
        return Ok(None);
    };
    *current = Some(token);
    Ok(take_at(streams, token))
}

impl<S: TokenStream + Drop> Intersection<S> {
    /// The intersection of these streams, each of which is a relation of its own. It reads nothing yet.
    pub fn new(streams: Streams<S>) -> Result<Intersection<S>, AllocError>
        requires some { 0 < length streams }
        ensures leaves { IfOk result (λ made. (files : Option Folder) (lists : List (List SpecEntry)) → EachLeaves S.leaves files streams lists → ⟦<Intersection<S> as TokenStream>⟧.leaves made files (intersection_of lists)) }
        ensures pays { IfOk result (λ made. (files : Option Folder) (most : ℕ) → EachPays S.pays files streams most → ⟦<Intersection<S> as TokenStream>⟧.pays made files most) }
        ensures opens { IfOk result (λ made. (name : FileName) → ⟦<Intersection<S> as TokenStream>⟧.opens made name → SomeOpens S.opens streams name) }
        ensures ready { IfOk result (λ made. (files : Option Folder) → EachIsReady S.ready files streams → ⟦<Intersection<S> as TokenStream>⟧.ready made files) }
        ensures shows { IfOk result (λ made. (files : Option Folder) (damage : Damage) → ⟦<Intersection<S> as TokenStream>⟧.shows made files damage → SomeShows S.shows files streams damage) }
    {
        let relations = each_alone(streams.alloc, streams.len())?;
        Intersection::serving(streams, relations)
    }

    /// The intersection of the relations that these streams serve. It reads nothing yet.
    pub fn serving(
        streams: Streams<S>,
        relations: RelationStreams,
    ) -> Result<Intersection<S>, AllocError>
        requires some { 0 < length relations }
        ensures leaves { IfOk result (λ made. (files : Option Folder) (lists : List (List SpecEntry)) → EachLeaves S.leaves files streams lists → ⟦<Intersection<S> as TokenStream>⟧.leaves made files (intersection_by relations lists)) }
        ensures pays { IfOk result (λ made. (files : Option Folder) (most : ℕ) → EachPays S.pays files streams most → ⟦<Intersection<S> as TokenStream>⟧.pays made files most) }
        ensures opens { IfOk result (λ made. (name : FileName) → ⟦<Intersection<S> as TokenStream>⟧.opens made name → SomeOpens S.opens streams name) }
        ensures ready { IfOk result (λ made. (files : Option Folder) → EachIsReady S.ready files streams → ⟦<Intersection<S> as TokenStream>⟧.ready made files) }
        ensures shows { IfOk result (λ made. (files : Option Folder) (damage : Damage) → ⟦<Intersection<S> as TokenStream>⟧.shows made files damage → SomeShows S.shows files streams damage) }
    {
        let streams = headed(streams)?;
        Ok(Intersection {
            streams,
            relations,
            current: None,
        })
    }
}

impl<S: TokenStream> TokenStream for Intersection<S> {
    ghost use Rattle.sasi_ranges.specs.inside.Keeping.{heads_keep};

    ghost leaves = { λ u files es. MetLeaves S.leaves files u.streams.items u.relations u.current es × Rises es };

    ghost pays = { λ u files most. HeadsPay S.pays files u.streams.items most };

    ghost opens = { λ u name. HeadsOpen S.opens u.streams.items name };

    ghost ready = { λ u files. HeadsReady S.ready files u.streams.items };

    ghost shows = { λ u files damage. HeadsShow S.shows files u.streams.items damage };

    ghost rises = { λ u files es left. left.1 };

    ghost keeps = { λ u old new told same.
        let kept = heads_keep S.ready S.leaves S.pays S.opens old new (λ s stays. S.keeps s old new told stays) u.streams.items same in
        (kept.still_ready, λ es left. ((left.0.0, kept.still_left left.0.0 left.0.1, left.0.2, left.0.3, left.0.4, left.0.5), left.1), kept.still_paid) };

    fn next<H: Host, P: PageReader>(
        &mut self,
        host: &mut H,
        pages: &mut P,
    ) -> Result<Option<Entry>, ReadFault> {
        next_met(
            host,
            pages,
            &mut self.streams,
            &self.relations,
            &mut self.current,
        )
    }

    fn skip_to<H: Host, P: PageReader>(
        &mut self,
        host: &mut H,
        pages: &mut P,
        token: Token,
    ) -> Result<(), ReadFault> {
        skip_all(host, pages, &mut self.streams, token)
    }
}
