// The hits of several parts, united.
ghost use Rattle.std.specs.Prelude.{◌≡◌, ◌⊎◌, Option};
ghost use Rattle.sasi_host.specs.Names.{Folder};
ghost use Rattle.sasi_host.specs.declared.name.Kind.TheVariants as kinds;
ghost use Rattle.sasi_host.specs.declared.name.FileName.{FileName as SpecName};
ghost use Rattle.sasi_ranges.specs.EachStream.{EachIsReady, SomeOpens};
ghost use Rattle.sasi_hits.specs.Hits.{Opens, Ready};

use crate::fixture::{DATA, INDEX, TOKEN, check, hit, host_of, types_of};
use crate::indexes::{ROWS, words_of};
use sasi_hits::{FileKeys, Hits, IndexHits, map_hits};
use sasi_host::Direct;
use sasi_ranges::{Streams, Union};
use sasi_terms::Op;
use sasi_types::{DecoratedKey, Key, Token};
use std::alloc::Global;
use std::process::Abort;

/// The keys of these tokens.
fn keys_of(rt: &impl Abort, alloc: Global, tokens: &[Token]) -> Vec<DecoratedKey> {
    let mut keys = Vec::new(alloc);
    for token in tokens {
        let key = Key::new(alloc, b"k").expect(rt, "a key");
        keys.push(DecoratedKey { token: *token, key })
            .expect(rt, "memory");
    }
    keys
}

/// The hits of an index file, of a data file and of a map.
fn streams_of(rt: &impl Abort, alloc: Global) -> Streams<Hits>
    ensures opens { (name : SpecName) → SomeOpens Opens result name → (name ≡ record { kind = kinds.Data; number = 7; index = 0; part = 0 }) ⊎ (name ≡ record { kind = kinds.Index; number = 7; index = 1; part = 1 }) }
    ensures ready { (files : Option Folder) → EachIsReady Ready files result }
{
    let words = words_of(rt, alloc, &[b"red"]);
    let index = IndexHits::new(alloc, INDEX, Op::Eq, words, 3, 7);
    let keys = FileKeys::new(alloc, DATA, types_of(rt, alloc), 3, 7);
    let found = keys_of(rt, alloc, &[6, 9]);
    let map = map_hits(alloc, 3, 7, &found).expect(rt, "memory");
    let mut streams = Streams::new(alloc);
    streams.push(Hits::Map(map)).expect(rt, "memory");
    streams.push(Hits::Keys(keys)).expect(rt, "memory");
    streams.push(Hits::Index(index)).expect(rt, "memory");
    streams
}

#[test]
fn hits_of_all_parts_are_united(rt: HostRuntime) {
    let alloc = rt.alloc();
    let mut host = host_of(&rt, alloc, &ROWS);
    assert!(&rt; host.bytes(DATA).is_some());
    assert!(&rt; host.bytes(INDEX).is_some());
    let mut union = Union::new(streams_of(&rt, alloc)).expect(&rt, "memory");
    let steps = [
        (0, hit(5, 16)),
        (6, hit(6, 0)),
        (8, hit(8, 100)),
        (8, hit(9, 1)),
        (TOKEN, hit(TOKEN, 16)),
        (TOKEN, hit(TOKEN, 41)),
    ];
    check(&rt, &mut union, &mut host, &mut Direct, &steps, 0);
    drop(host);
}
