// The union of streams.
ghost use Rattle.std.specs.Prelude.{◌≡◌, ℕ, List, None, Option, IfOk, OnOk};
ghost use Rattle.sasi_host.specs.declared.name.FileName.{FileName};
ghost use Rattle.sasi_host.specs.declared.damage.Damage.{Damage};
ghost use Rattle.sasi_host.specs.Names.{Folder};
ghost use Rattle.sasi_ranges.specs.declared.entry.Entry.{Entry as SpecEntry};
ghost use Rattle.sasi_ranges.specs.Entries.{Rises, from_token};
ghost use Rattle.sasi_ranges.specs.StreamCalls.{CanStream, Gives, HasStreamed, Spends, StreamFaults};
ghost use Rattle.sasi_ranges.specs.EachStream.{EachIsReady, EachLeaves, EachPays, SomeOpens, SomeShows};
ghost use Rattle.sasi_ranges.specs.Lists.{union_of};
ghost use Rattle.sasi_ranges.specs.inside.Heads.{HeadsOpen, HeadsPay, HeadsReady, HeadsShow};
ghost use Rattle.sasi_ranges.specs.inside.Unions.{UnionLeaves};

use crate::head::Headed;
use crate::heads::{drop_all, fill_all, headed, least_of, skip_all};
use crate::{Entry, Streams, TokenStream};
use sasi_host::{Host, PageReader, ReadFault};
use sasi_types::Token;
use std::alloc::AllocError;

/// The entries that some of several streams has, in their order and each once. It keeps each stream with its first entry.
#[derive(Drop)]
pub struct Union<S> {
    streams: Vec<Headed<S>>,
}

// The next entry of the union.
fn next_of<S: TokenStream, H: Host, P: PageReader>(
    host: &mut H,
    pages: &mut P,
    streams: &mut [Headed<S>],
) -> Result<Option<Entry>, ReadFault>
    requires read { CanStream (P.agrees pages.old) (HeadsOpen S.opens streams.old) (H.view host.old) }
    requires ready { HeadsReady S.ready (H.view host.old).files streams.old }
    ensures gives { (es : List SpecEntry) → UnionLeaves S.leaves (H.view host.old).files streams.old es → IfOk result (Gives (UnionLeaves S.leaves (H.view host.new).files streams.new) es) }
    ensures reads { (most : ℕ) → HeadsPay S.pays (H.view host.old).files streams.old most → Spends (HeadsPay S.pays (H.view host.new).files streams.new) most (H.view host.old).reads (H.view host.new).reads result }
    ensures ready { OnOk result (HeadsReady S.ready (H.view host.new).files streams.new) }
    ensures read { HasStreamed (P.agrees pages.new) (P.covers pages.old) (P.covers pages.new) (HeadsOpen S.opens streams.old) (HeadsOpen S.opens streams.new) (H.view host.old) (H.view host.new) }
    ensures faults { StreamFaults (HeadsShow S.shows (H.view host.old).files streams.old) (HeadsShow S.shows (H.view host.new).files streams.new) (UnionLeaves S.leaves (H.view host.old).files streams.old) (H.view host.old) (H.view host.new) result }
    ensures shows_less { (files : Option Folder) (damage : Damage) → HeadsShow S.shows files streams.new damage → HeadsShow S.shows files streams.old damage }
{
    fill_all(host, pages, streams)?;
    match least_of(streams) {
        None => Ok(None),
        Some(least) => {
            drop_all(streams, least);
            Ok(Some(least))
        }
    }
}

impl<S: TokenStream + Drop> Union<S> {
    /// The union of these streams. It reads nothing yet.
    pub fn new(streams: Streams<S>) -> Result<Union<S>, AllocError>
        ensures leaves { IfOk result (λ made. (files : Option Folder) (lists : List (List SpecEntry)) → EachLeaves S.leaves files streams lists → ⟦<Union<S> as TokenStream>⟧.leaves made files (union_of lists)) }
        ensures pays { IfOk result (λ made. (files : Option Folder) (most : ℕ) → EachPays S.pays files streams most → ⟦<Union<S> as TokenStream>⟧.pays made files most) }
        ensures opens { IfOk result (λ made. (name : FileName) → ⟦<Union<S> as TokenStream>⟧.opens made name → SomeOpens S.opens streams name) }
        ensures ready { IfOk result (λ made. (files : Option Folder) → EachIsReady S.ready files streams → ⟦<Union<S> as TokenStream>⟧.ready made files) }
        ensures shows { IfOk result (λ made. (files : Option Folder) (damage : Damage) → ⟦<Union<S> as TokenStream>⟧.shows made files damage → SomeShows S.shows files streams damage) }
    {
        let streams = headed(streams)?;
        Ok(Union { streams })
    }
}

impl<S: TokenStream> TokenStream for Union<S> {
    ghost use Rattle.sasi_ranges.specs.inside.Keeping.{heads_keep};

    ghost leaves = { λ u files es. UnionLeaves S.leaves files u.streams.items es × Rises es };

    ghost pays = { λ u files most. HeadsPay S.pays files u.streams.items most };

    ghost opens = { λ u name. HeadsOpen S.opens u.streams.items name };

    ghost ready = { λ u files. HeadsReady S.ready files u.streams.items };

    ghost shows = { λ u files damage. HeadsShow S.shows files u.streams.items damage };

    ghost rises = { λ u files es left. left.1 };

    ghost keeps = { λ u old new told same.
        let kept = heads_keep S.ready S.leaves S.pays S.opens old new (λ s stays. S.keeps s old new told stays) u.streams.items same in
        (kept.still_ready, λ es left. ((left.0.0, kept.still_left left.0.0 left.0.1, left.0.2, left.0.3), left.1), kept.still_paid) };

    fn next<H: Host, P: PageReader>(
        &mut self,
        host: &mut H,
        pages: &mut P,
    ) -> Result<Option<Entry>, ReadFault> {
        next_of(host, pages, &mut self.streams)
    }

    fn skip_to<H: Host, P: PageReader>(
        &mut self,
        host: &mut H,
        pages: &mut P,
        token: Token,
    ) -> Result<(), ReadFault> {
        skip_all(host, pages, &mut self.streams, token)
    }
}
