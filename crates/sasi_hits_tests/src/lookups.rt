// Look-ups in a data file.
ghost use Rattle.sasi_lookup.specs.Lookups.{IsReady, Opens};
ghost use Rattle.sasi_ranges.specs.StreamCalls.{CanStream};

use crate::fixture::{DATA, TOKEN, host_of, types_of};
use sasi_host::{Direct, Host, PageReader};
use sasi_lookup::Lookup;
use sasi_types::{Key, Token};
use std::alloc::Global;
use std::process::Abort;

// How many keys of a token the first file has, and whether the files have each of two keys.
fn check_token<H: Host, P: PageReader>(
    rt: &impl Abort,
    alloc: Global,
    host: &mut H,
    pages: &mut P,
    lookup: &mut Lookup,
    token: Token,
    count: usize,
    found: bool,
)
    requires read { CanStream (P.agrees pages.old) (Opens lookup.old) (H.view host.old) }
    requires ready { IsReady lookup.old (H.view host.old).files }
{
    lookup.turn_to(host, pages, token).expect(rt, "no fault");
    for file in lookup.files() {
        assert!(rt; file.keys().len() == count);
    }
    let key = Key::new(alloc, b"abcdefgh2").expect(rt, "a key");
    let there = lookup.find(host, pages, &key).expect(rt, "no fault");
    assert!(rt; there.is_some() == found);
}

#[test]
fn keys_of_a_token_are_found(rt: HostRuntime) {
    let alloc = rt.alloc();
    let mut host = host_of(&rt, alloc, &[]);
    assert!(&rt; host.bytes(DATA).is_some());
    let mut lookup = Lookup::new(alloc, &[7], types_of(&rt, alloc)).expect(&rt, "memory");
    check_token(
        &rt,
        alloc,
        &mut host,
        &mut Direct,
        &mut lookup,
        TOKEN,
        2,
        true,
    );
    drop(host);
}

#[test]
fn no_key_of_another_token_is_found(rt: HostRuntime) {
    let alloc = rt.alloc();
    let mut host = host_of(&rt, alloc, &[]);
    assert!(&rt; host.bytes(DATA).is_some());
    let mut lookup = Lookup::new(alloc, &[7], types_of(&rt, alloc)).expect(&rt, "memory");
    check_token(
        &rt,
        alloc,
        &mut host,
        &mut Direct,
        &mut lookup,
        TOKEN + 1,
        0,
        false,
    );
    drop(host);
}
