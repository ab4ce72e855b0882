// The keys of a data file.
use crate::fixture::{DATA, TOKEN, check, hit, host_of, types_of};
use sasi_hits::FileKeys;
use sasi_host::{Direct, MemHost};
use sasi_ranges::Entry;
use sasi_types::Token;
use std::alloc::Global;
use std::process::Abort;

fn check_keys(
    rt: &impl Abort,
    alloc: Global,
    host: &mut MemHost,
    steps: &[(Token, Entry)],
    end: Token,
) {
    assert!(rt; host.bytes(DATA).is_some());
    let mut keys = FileKeys::new(alloc, DATA, types_of(rt, alloc), 3, 7);
    check(rt, &mut keys, host, &mut Direct, steps, end);
}

#[test]
fn each_key_is_a_hit_of_its_own(rt: HostRuntime) {
    let alloc = rt.alloc();
    let mut host = host_of(&rt, alloc, &[]);
    let both = [(0, hit(TOKEN, 16)), (TOKEN, hit(TOKEN, 41))];
    check_keys(&rt, alloc, &mut host, &both, 0);
    check_keys(&rt, alloc, &mut host, &[(TOKEN, hit(TOKEN, 16))], TOKEN + 1);
    check_keys(&rt, alloc, &mut host, &[], TOKEN + 1);
    drop(host);
}
