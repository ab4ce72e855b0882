// Streams of lists in memory, and what streams give.
ghost use Rattle.std.specs.Prelude.{◌≡◌, length};
ghost use Rattle.sasi_ranges.specs.StreamCalls.{CanStream};

use sasi_host::{Host, PageReader};
use sasi_ranges::{Entry, ListStream, Streams, TokenStream};
use std::alloc::Global;
use std::process::Abort;

/// The entry of a token at a place.
pub fn entry(token: u64, place: u64) -> Entry {
    Entry {
        token,
        leaf: 0,
        part: 0,
        place,
    }
}

/// The entries of the list with this number, each a number, a token and a place.
fn list_of(
    rt: &impl Abort,
    alloc: Global,
    number: usize,
    items: &[(usize, u64, u64)],
) -> Vec<Entry> {
    let mut list = Vec::new(alloc);
    for item in items {
        if item.0 == number {
            list.push(entry(item.1, item.2)).expect(rt, "memory");
        }
    }
    list
}

/// So many streams, of the lists with the numbers from 0 on.
pub fn streams_of(
    rt: &impl Abort,
    alloc: Global,
    count: usize,
    items: &[(usize, u64, u64)],
) -> Streams<ListStream>
    ensures { length result ≡ count }
{
    let mut streams = Streams::new(alloc);
    for number in 0..count {
        let list = list_of(rt, alloc, number, items);
        streams.push(ListStream::new(list)).expect(rt, "memory");
    }
    streams
}

fn skip<S: TokenStream, H: Host, P: PageReader>(
    rt: &impl Abort,
    stream: &mut S,
    host: &mut H,
    pages: &mut P,
    token: u64,
)
    requires read { CanStream (P.agrees pages.old) (S.opens stream.old) (H.view host.old) }
    requires ready { S.ready stream.old (H.view host.old).files }
    ensures read { CanStream (P.agrees pages.new) (S.opens stream.new) (H.view host.new) }
    ensures ready { S.ready stream.new (H.view host.new).files }
{
    stream.skip_to(host, pages, token).expect(rt, "no fault");
}

fn next<S: TokenStream, H: Host, P: PageReader>(
    rt: &impl Abort,
    stream: &mut S,
    host: &mut H,
    pages: &mut P,
) -> Option<Entry>
    requires read { CanStream (P.agrees pages.old) (S.opens stream.old) (H.view host.old) }
    requires ready { S.ready stream.old (H.view host.old).files }
    ensures read { CanStream (P.agrees pages.new) (S.opens stream.new) (H.view host.new) }
    ensures ready { S.ready stream.new (H.view host.new).files }
{
    stream.next(host, pages).expect(rt, "no fault")
}

/// Checks the steps of a stream, each a token to which it is skipped, and the token and the place of the entry that it gives then.
/// Behind them it is skipped to the end, and gives nothing twice.
pub fn check<S: TokenStream, H: Host, P: PageReader>(
    rt: &impl Abort,
    stream: &mut S,
    host: &mut H,
    pages: &mut P,
    steps: &[(u64, u64, u64)],
    end: u64,
)
    requires read { CanStream (P.agrees pages.old) (S.opens stream.old) (H.view host.old) }
    requires ready { S.ready stream.old (H.view host.old).files }
{
    for step in steps {
        skip(rt, stream, host, pages, step.0);
        let found = next(rt, stream, host, pages);
        assert!(rt; found == Some(entry(step.1, step.2)));
    }
    skip(rt, stream, host, pages, end);
    assert!(rt; next(rt, stream, host, pages).is_none());
    assert!(rt; next(rt, stream, host, pages).is_none());
}
