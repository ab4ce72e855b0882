// One source of candidates or another, or none.
ghost use Rattle.sasi_sources_tests.specs.Sources.{Begins};

use crate::steps::{Want, check_new};
use crate::{key_look_ups, table_scans};
use either::{Either, Left, Right};
use sasi_recheck::Candidates;
use sasi_sources::{KeyCandidates, ScanCandidates};
use std::alloc::Global;
use std::process::Abort;

/// A scan or a look-up, or nothing.
type Choice = Option<Either<ScanCandidates, KeyCandidates>>;

/// A scan of all keys.
fn scan_of(rt: &impl Abort, alloc: Global) -> Choice
    ensures { Begins ⟦<Choice as Candidates>⟧.opens ⟦<Choice as Candidates>⟧.ready ⟦<Choice as Candidates>⟧.prints result }
{
    Some(Left(table_scans::source_of(rt, alloc)))
}

/// A look-up of a key.
fn look_up_of(rt: &impl Abort, alloc: Global, key: &[u8]) -> Choice
    ensures { Begins ⟦<Choice as Candidates>⟧.opens ⟦<Choice as Candidates>⟧.ready ⟦<Choice as Candidates>⟧.prints result }
{
    Some(Right(key_look_ups::source_of(rt, alloc, key)))
}

/// Nothing.
fn nothing() -> Choice
    ensures { Begins ⟦<Choice as Candidates>⟧.opens ⟦<Choice as Candidates>⟧.ready ⟦<Choice as Candidates>⟧.prints result }
{
    None
}

#[test]
fn the_one_source_is_asked(rt: HostRuntime) {
    let source = scan_of(&rt, rt.alloc());
    let wanted: [Want<'_>; 3] = [(b"k1", 2, 7), (b"k2", 1, 5), (b"k3", 1, 5)];
    check_new(&rt, rt.alloc(), source, &wanted);
}

#[test]
fn the_other_source_is_asked(rt: HostRuntime) {
    let source = look_up_of(&rt, rt.alloc(), b"k1");
    check_new(&rt, rt.alloc(), source, &[(b"k1", 2, 7)]);
}

#[test]
fn no_source_gives_none(rt: HostRuntime) {
    check_new(&rt, rt.alloc(), nothing(), &[]);
}
