// Many streams, each with its first entry.
ghost use Rattle.std.specs.Prelude.{◌≡◌, ℕ, List, map, None, Option, IfOk, OnOk};
ghost use Rattle.sasi_host.specs.declared.damage.Damage.{Damage};
ghost use Rattle.sasi_host.specs.Names.{Folder};
ghost use Rattle.sasi_ranges.specs.declared.entry.Entry.{Entry as SpecEntry};
ghost use Rattle.sasi_ranges.specs.Entries.{from_token};
ghost use Rattle.sasi_ranges.specs.StreamCalls.{CanStream, HasStreamed, Spends, StreamFaults};
ghost use Rattle.sasi_ranges.specs.inside.Heads.{AllLeave, AreRead, HeadsOpen, HeadsPay, HeadsReady, HeadsShow, dropped, least_from, lesser, unread};

use crate::entry::is_below;
use crate::head::{Head, Headed, drop_head, fill, skip_head};
use crate::{Entry, Streams, TokenStream};
use sasi_host::{Host, PageReader, ReadFault};
use sasi_types::Token;
use std::alloc::AllocError;

// The streams, of which nothing was read yet.
pub(crate) fn headed<S: Drop>(streams: Streams<S>) -> Result<Vec<Headed<S>>, AllocError>
    ensures { IfOk result (λ heads. heads.items ≡ map unread streams) }
{
    let mut heads = Vec::new(streams.alloc);
    for stream in streams.items {
        heads.push(Headed {
            head: Head::Unread,
            stream,
        })?;
    }
    Ok(heads)
}

// Reads the first entry of each stream, unless it was read.
pub(crate) fn fill_all<S: TokenStream, H: Host, P: PageReader>(
    host: &mut H,
    pages: &mut P,
    streams: &mut [Headed<S>],
) -> Result<(), ReadFault>
    requires read { CanStream (P.agrees pages.old) (HeadsOpen S.opens streams.old) (H.view host.old) }
    requires ready { HeadsReady S.ready (H.view host.old).files streams.old }
    ensures leaves { (lists : List (List SpecEntry)) → AllLeave S.leaves (H.view host.old).files streams.old lists → OnOk result (AllLeave S.leaves (H.view host.new).files streams.new lists) }
    ensures filled { OnOk result (AreRead streams.new) }
    ensures reads { (most : ℕ) → HeadsPay S.pays (H.view host.old).files streams.old most → Spends (HeadsPay S.pays (H.view host.new).files streams.new) most (H.view host.old).reads (H.view host.new).reads result }
    ensures ready { OnOk result (HeadsReady S.ready (H.view host.new).files streams.new) }
    ensures read { HasStreamed (P.agrees pages.new) (P.covers pages.old) (P.covers pages.new) (HeadsOpen S.opens streams.old) (HeadsOpen S.opens streams.new) (H.view host.old) (H.view host.new) }
    ensures faults { StreamFaults (HeadsShow S.shows (H.view host.old).files streams.old) (HeadsShow S.shows (H.view host.new).files streams.new) (AllLeave S.leaves (H.view host.old).files streams.old) (H.view host.old) (H.view host.new) result }
    ensures shows_less { (files : Option Folder) (damage : Damage) → HeadsShow S.shows files streams.new damage → HeadsShow S.shows files streams.old damage }
{
    for head in streams.iter_mut() {
        fill(host, pages, head)?;
    }
    Ok(())
}

// The lesser of the least entry so far and a first entry.
fn lesser_of(least: Option<Entry>, head: Head) -> Option<Entry>
    ensures { result ≡ lesser least head }
{
    match head {
        Head::Unread => least,
        Head::Ended => least,
        Head::At(entry) => match least {
            None => Some(entry),
            Some(so_far) => {
                if is_below(entry, so_far) {
                    Some(entry)
                } else {
                    Some(so_far)
                }
            }
        },
    }
}

// The least of the first entries.
pub(crate) fn least_of<S>(streams: &[Headed<S>]) -> Option<Entry>
    ensures { result ≡ least_from None streams.now }
{
    let mut least = None;
    for head in streams.iter() {
        least = lesser_of(least, head.head);
    }
    least
}

// Takes this entry from each stream of which it is the first.
pub(crate) fn drop_all<S>(streams: &mut [Headed<S>], least: Entry)
    ensures { streams.new ≡ map (dropped least) streams.old }
{
    for head in streams.iter_mut() {
        drop_head(head, least);
    }
}

// Drops the entries of each stream that are below the token.
pub(crate) fn skip_all<S: TokenStream, H: Host, P: PageReader>(
    host: &mut H,
    pages: &mut P,
    streams: &mut [Headed<S>],
    token: Token,
) -> Result<(), ReadFault>
    requires read { CanStream (P.agrees pages.old) (HeadsOpen S.opens streams.old) (H.view host.old) }
    requires ready { HeadsReady S.ready (H.view host.old).files streams.old }
    ensures skips { (lists : List (List SpecEntry)) → AllLeave S.leaves (H.view host.old).files streams.old lists → OnOk result (AllLeave S.leaves (H.view host.new).files streams.new (map (from_token token) lists)) }
    ensures reads { (most : ℕ) → HeadsPay S.pays (H.view host.old).files streams.old most → Spends (HeadsPay S.pays (H.view host.new).files streams.new) most (H.view host.old).reads (H.view host.new).reads result }
    ensures ready { OnOk result (HeadsReady S.ready (H.view host.new).files streams.new) }
    ensures read { HasStreamed (P.agrees pages.new) (P.covers pages.old) (P.covers pages.new) (HeadsOpen S.opens streams.old) (HeadsOpen S.opens streams.new) (H.view host.old) (H.view host.new) }
    ensures faults { StreamFaults (HeadsShow S.shows (H.view host.old).files streams.old) (HeadsShow S.shows (H.view host.new).files streams.new) (AllLeave S.leaves (H.view host.old).files streams.old) (H.view host.old) (H.view host.new) result }
    ensures shows_less { (files : Option Folder) (damage : Damage) → HeadsShow S.shows files streams.new damage → HeadsShow S.shows files streams.old damage }
{
    for head in streams.iter_mut() {
        skip_head(host, pages, head, token)?;
    }
    Ok(())
}
