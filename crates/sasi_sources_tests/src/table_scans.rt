// Scans of all keys of a table.
ghost use Rattle.sasi_sources_tests.specs.Sources.{Begins};

use crate::fixture::{files_of, numbers_of, types_of};
use crate::steps::{Want, check_new};
use sasi_recheck::Candidates;
use sasi_sources::ScanCandidates;
use std::alloc::Global;
use std::process::Abort;

/// The scan of the data file and the three maps.
pub fn source_of(rt: &impl Abort, alloc: Global) -> ScanCandidates
    ensures { Begins ⟦<ScanCandidates as Candidates>⟧.opens ⟦<ScanCandidates as Candidates>⟧.ready ⟦<ScanCandidates as Candidates>⟧.prints result }
{
    let numbers = numbers_of(rt, alloc);
    ScanCandidates::new(alloc, types_of(rt, alloc), files_of(rt, alloc), numbers)
}

/// The scan of a table without data files and maps.
fn empty_source_of(rt: &impl Abort, alloc: Global) -> ScanCandidates
    ensures { Begins ⟦<ScanCandidates as Candidates>⟧.opens ⟦<ScanCandidates as Candidates>⟧.ready ⟦<ScanCandidates as Candidates>⟧.prints result }
{
    let files = Vec::new(alloc);
    let numbers = Vec::new(alloc);
    ScanCandidates::new(alloc, types_of(rt, alloc), files, numbers)
}

#[test]
fn keys_of_file_and_maps_are_given_in_order(rt: HostRuntime) {
    let source = source_of(&rt, rt.alloc());
    let wanted: [Want<'_>; 3] = [(b"k1", 2, 7), (b"k2", 1, 5), (b"k3", 1, 5)];
    check_new(&rt, rt.alloc(), source, &wanted);
}

#[test]
fn table_without_parts_has_no_key(rt: HostRuntime) {
    let source = empty_source_of(&rt, rt.alloc());
    check_new(&rt, rt.alloc(), source, &[]);
}
