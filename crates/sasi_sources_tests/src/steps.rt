// Steps of a source of candidates.
ghost use Rattle.sasi_ranges.specs.StreamCalls.{CanStream};
ghost use Rattle.sasi_sources_tests.specs.Sources.{Begins};

use crate::fixture::{DATA, book_of, host_of};
use sasi_cells::Partition;
use sasi_host::{Direct, Host, PageReader};
use sasi_memindex::MapBook;
use sasi_recheck::Candidates;
use sasi_types::Key;
use std::alloc::Global;
use std::process::Abort;

/// A candidate: the key, how many cells it has, and when the last of them was written.
pub type Want<'a> = (&'a [u8], usize, u64);

/// The candidate is this one.
fn check_candidate(rt: &impl Abort, key: &Key, part: &Partition, want: &Want<'_>) {
    assert!(rt; key.bytes() == want.0);
    assert!(rt; (part.cells().len(), part.max_timestamp()) == (want.1, want.2));
}

/// The next candidate is this one.
fn check_next<C: Candidates, H: Host, P: PageReader>(
    rt: &impl Abort,
    source: &mut C,
    host: &mut H,
    pages: &mut P,
    maps: &MapBook,
    want: &Want<'_>,
)
    requires read { CanStream (P.agrees pages.old) (C.opens source.old) (H.view host.old) }
    requires ready { C.ready source.old (H.view host.old).files maps.now }
    ensures read { CanStream (P.agrees pages.new) (C.opens source.new) (H.view host.new) }
    ensures ready { C.ready source.new (H.view host.new).files maps.now }
{
    let next = source.next(host, pages, maps).expect(rt, "read");
    let (key, part) = next.expect(rt, "a candidate");
    check_candidate(rt, &key, &part, want);
    drop((key, part));
}

/// No candidate is left.
fn check_end<C: Candidates, H: Host, P: PageReader>(
    rt: &impl Abort,
    source: &mut C,
    host: &mut H,
    pages: &mut P,
    maps: &MapBook,
)
    requires read { CanStream (P.agrees pages.old) (C.opens source.old) (H.view host.old) }
    requires ready { C.ready source.old (H.view host.old).files maps.now }
    ensures read { CanStream (P.agrees pages.new) (C.opens source.new) (H.view host.new) }
    ensures ready { C.ready source.new (H.view host.new).files maps.now }
{
    let next = source.next(host, pages, maps).expect(rt, "read");
    assert!(rt; next.is_none());
    drop(next);
}

/// The source gives these candidates and no further one, however often it is asked.
pub fn check_left<C: Candidates, H: Host, P: PageReader>(
    rt: &impl Abort,
    source: &mut C,
    host: &mut H,
    pages: &mut P,
    maps: &MapBook,
    wanted: &[Want<'_>],
)
    requires read { CanStream (P.agrees pages.old) (C.opens source.old) (H.view host.old) }
    requires ready { C.ready source.old (H.view host.old).files maps.now }
{
    for want in wanted {
        check_next(rt, source, host, pages, maps, want);
    }
    check_end(rt, source, host, pages, maps);
    check_end(rt, source, host, pages, maps);
}

/// So does a source that wasn't asked yet, over the data file and the book.
pub fn check_new<C: Candidates + Drop>(
    rt: &impl Abort,
    alloc: Global,
    source: C,
    wanted: &[Want<'_>],
)
    requires { Begins C.opens C.ready C.prints source }
{
    let mut host = host_of(rt, alloc);
    assert!(rt; host.bytes(DATA).is_some());
    let book = book_of(rt, alloc);
    let mut source = source;
    check_left(rt, &mut source, &mut host, &mut Direct, &book, wanted);
    drop((host, book, source));
}
