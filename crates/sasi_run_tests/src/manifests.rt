// The manifest that a run leaves, and how long the records of edits are.
use crate::cases::insert;
use crate::runs::run_script;
use sasi_host::{FileName, MemHost};
use sasi_manifest::{Edit, EditList, Manifest};
use sasi_types::{ColumnType, Columns, Name, Partitioner};
use std::alloc::Global;
use std::process::Abort;

/// Opens the first manifest of the folder.
fn opened(rt: &impl Abort, alloc: Global, host: &mut MemHost) -> Manifest {
    assert!(rt; host.bytes(FileName::manifest(1)).is_some());
    Manifest::open(alloc, host, 1).expect(rt, "a manifest")
}

#[test]
fn manifest_of_a_run_is_usable(rt: HostRuntime) {
    let mut host = MemHost::new(rt.alloc());
    let _ = run_script(&rt, rt.alloc(), insert().script, &mut host);
    let manifest = opened(&rt, rt.alloc(), &mut host);
    let listing = manifest.listing();
    assert!(rt; (manifest.is_usable(), listing.records, listing.length) == (true, 2, 66));
}

fn name_of(rt: &impl Abort, alloc: Global, bytes: &[u8]) -> Name {
    Name::new(bytes.to_vec(alloc).expect(rt, "memory"))
}

/// The edit that makes a table of two columns with names of one letter.
fn create(rt: &impl Abort, alloc: Global) -> Edit {
    let mut columns = Columns::new(alloc);
    for name in [b"k", b"a"] {
        columns
            .push(name_of(rt, alloc, name), ColumnType::Text)
            .expect(rt, "memory");
    }
    Edit::CreateTable {
        number: 1,
        name: name_of(rt, alloc, b"t"),
        columns,
        key: 0,
        since: 1,
    }
}

// The count of the edits has four bytes, the start ten and the table 21.
#[test]
fn edits_have_the_length_of_their_record(rt: HostRuntime) {
    let mut edits = EditList::new(rt.alloc());
    let start = Edit::Start {
        partitioner: Partitioner::Lead8,
        floor: 1,
        last: 1,
    };
    edits.push(start).expect(&rt, "memory");
    assert!(rt; edits.length() == 14);
    edits.push(create(&rt, rt.alloc())).expect(&rt, "memory");
    assert!(rt; edits.length() == 35);
}
