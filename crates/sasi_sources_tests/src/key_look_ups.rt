// Look-ups of the key that a WHERE asks for.
ghost use Rattle.sasi_sources_tests.specs.Sources.{Begins};

use crate::fixture::{files_of, key_of, numbers_of, types_of};
use crate::steps::check_new;
use sasi_memtable::decorated;
use sasi_recheck::Candidates;
use sasi_sources::KeyCandidates;
use sasi_types::Partitioner;
use std::alloc::Global;
use std::process::Abort;

/// The look-up of a key in the data file and the three maps.
pub fn source_of(rt: &impl Abort, alloc: Global, key: &[u8]) -> KeyCandidates
    ensures { Begins ⟦<KeyCandidates as Candidates>⟧.opens ⟦<KeyCandidates as Candidates>⟧.ready ⟦<KeyCandidates as Candidates>⟧.prints result }
{
    let key = decorated(Partitioner::Lead8, key_of(rt, alloc, key));
    let numbers = numbers_of(rt, alloc);
    KeyCandidates::new(
        alloc,
        types_of(rt, alloc),
        files_of(rt, alloc),
        numbers,
        key,
    )
}

/// The look-up of a key in the data file alone.
fn file_source_of(rt: &impl Abort, alloc: Global, key: &[u8]) -> KeyCandidates
    ensures { Begins ⟦<KeyCandidates as Candidates>⟧.opens ⟦<KeyCandidates as Candidates>⟧.ready ⟦<KeyCandidates as Candidates>⟧.prints result }
{
    let key = decorated(Partitioner::Lead8, key_of(rt, alloc, key));
    let numbers = Vec::new(alloc);
    KeyCandidates::new(
        alloc,
        types_of(rt, alloc),
        files_of(rt, alloc),
        numbers,
        key,
    )
}

#[test]
fn newest_of_file_and_maps_wins(rt: HostRuntime) {
    let source = source_of(&rt, rt.alloc(), b"k1");
    check_new(&rt, rt.alloc(), source, &[(b"k1", 2, 7)]);
}

#[test]
fn key_is_found_in_the_first_map_alone(rt: HostRuntime) {
    let source = source_of(&rt, rt.alloc(), b"k2");
    check_new(&rt, rt.alloc(), source, &[(b"k2", 1, 5)]);
}

#[test]
fn key_is_found_in_a_later_map_alone(rt: HostRuntime) {
    let source = source_of(&rt, rt.alloc(), b"k3");
    check_new(&rt, rt.alloc(), source, &[(b"k3", 1, 5)]);
}

#[test]
fn key_is_found_without_a_map(rt: HostRuntime) {
    let source = file_source_of(&rt, rt.alloc(), b"k1");
    check_new(&rt, rt.alloc(), source, &[(b"k1", 2, 5)]);
}

#[test]
fn missing_key_gives_none(rt: HostRuntime) {
    let source = source_of(&rt, rt.alloc(), b"k");
    check_new(&rt, rt.alloc(), source, &[]);
}
