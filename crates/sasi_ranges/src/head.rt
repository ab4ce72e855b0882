// A stream with its first entry.
ghost use Rattle.std.specs.Prelude.{◌≡◌, ℕ, List, Option, IfOk, OnOk};
ghost use Rattle.sasi_host.specs.declared.damage.Damage.{Damage};
ghost use Rattle.sasi_host.specs.Names.{Folder};
ghost use Rattle.sasi_ranges.specs.declared.entry.Entry.{Entry as SpecEntry};
ghost use Rattle.sasi_ranges.specs.Entries.{from_token};
ghost use Rattle.sasi_ranges.specs.StreamCalls.{CanStream, HasStreamed, Spends, StreamFaults};
ghost use Rattle.sasi_ranges.specs.inside.Heads.{HeadLeaves, IsRead, dropped, head_of_found};

use crate::entry::is_same;
use crate::{Entry, TokenStream};
use sasi_host::{Host, PageReader, ReadFault};
use sasi_types::Token;

// The first entry of what is left.
#[derive(Clone, Copy)]
pub(crate) enum Head {
    Unread,
    At(Entry),
    Ended,
}

// A stream, and the first entry of what is left: that was taken from it.
#[derive(Drop)]
pub(crate) struct Headed<S> {
    pub(crate) head: Head,
    pub(crate) stream: S,
}

// What a stream gives as a head.
fn head_of(found: Option<Entry>) -> Head
    ensures { result ≡ head_of_found found }
{
    match found {
        None => Head::Ended,
        Some(entry) => Head::At(entry),
    }
}

// Reads its first entry, unless it was read.
pub(crate) fn fill<S: TokenStream, H: Host, P: PageReader>(
    host: &mut H,
    pages: &mut P,
    head: &mut Headed<S>,
) -> Result<(), ReadFault>
    requires read { CanStream (P.agrees pages.old) (S.opens head.old.stream) (H.view host.old) }
    requires ready { S.ready head.old.stream (H.view host.old).files }
    ensures leaves { (es : List SpecEntry) → HeadLeaves S.leaves (H.view host.old).files head.old es → OnOk result (HeadLeaves S.leaves (H.view host.new).files head.new es) }
    ensures filled { OnOk result (IsRead head.new.head) }
    ensures reads { (most : ℕ) → S.pays head.old.stream (H.view host.old).files most → Spends (S.pays head.new.stream (H.view host.new).files) most (H.view host.old).reads (H.view host.new).reads result }
    ensures ready { OnOk result (S.ready head.new.stream (H.view host.new).files) }
    ensures read { HasStreamed (P.agrees pages.new) (P.covers pages.old) (P.covers pages.new) (S.opens head.old.stream) (S.opens head.new.stream) (H.view host.old) (H.view host.new) }
    ensures faults { StreamFaults (S.shows head.old.stream (H.view host.old).files) (S.shows head.new.stream (H.view host.new).files) (HeadLeaves S.leaves (H.view host.old).files head.old) (H.view host.old) (H.view host.new) result }
    ensures shows_less { (files : Option Folder) (damage : Damage) → S.shows head.new.stream files damage → S.shows head.old.stream files damage }
{
    match head.head {
        Head::Unread => {
            let found = head.stream.next(host, pages)?;
            head.head = head_of(found);
            Ok(())
        }
        Head::At(_) => Ok(()),
        Head::Ended => Ok(()),
    }
}

// Takes its first entry, if it is this one.
pub(crate) fn drop_head<S>(head: &mut Headed<S>, least: Entry)
    ensures { head.new ≡ dropped least head.old }
{
    match head.head {
        Head::Unread => {}
        Head::Ended => {}
        Head::At(entry) => {
            if is_same(entry, least) {
                head.head = Head::Unread;
            }
        }
    }
}

// Drops its entries below the token.
pub(crate) fn skip_head<S: TokenStream, H: Host, P: PageReader>(
    host: &mut H,
    pages: &mut P,
    head: &mut Headed<S>,
    token: Token,
) -> Result<(), ReadFault>
    requires read { CanStream (P.agrees pages.old) (S.opens head.old.stream) (H.view host.old) }
    requires ready { S.ready head.old.stream (H.view host.old).files }
    ensures skips { (es : List SpecEntry) → HeadLeaves S.leaves (H.view host.old).files head.old es → OnOk result (HeadLeaves S.leaves (H.view host.new).files head.new (from_token token es)) }
    ensures reads { (most : ℕ) → S.pays head.old.stream (H.view host.old).files most → Spends (S.pays head.new.stream (H.view host.new).files) most (H.view host.old).reads (H.view host.new).reads result }
    ensures ready { OnOk result (S.ready head.new.stream (H.view host.new).files) }
    ensures read { HasStreamed (P.agrees pages.new) (P.covers pages.old) (P.covers pages.new) (S.opens head.old.stream) (S.opens head.new.stream) (H.view host.old) (H.view host.new) }
    ensures faults { StreamFaults (S.shows head.old.stream (H.view host.old).files) (S.shows head.new.stream (H.view host.new).files) (HeadLeaves S.leaves (H.view host.old).files head.old) (H.view host.old) (H.view host.new) result }
    ensures shows_less { (files : Option Folder) (damage : Damage) → S.shows head.new.stream files damage → S.shows head.old.stream files damage }
{
    match head.head {
        Head::Unread => head.stream.skip_to(host, pages, token),
        Head::At(entry) => {
            if entry.token < token {
                head.head = Head::Unread;
                return head.stream.skip_to(host, pages, token);
            }
            Ok(())
        }
        Head::Ended => Ok(()),
    }
}
