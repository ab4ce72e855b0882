// A file and a map are added between two FETCHes: the view has neither.
ghost use Rattle.sasi_host.specs.Memory.{host_view, memory_host};
ghost use Rattle.sasi_host.specs.Names.{data_name};
ghost use Rattle.sasi_host.specs.View.{IsThere};
ghost use Rattle.sasi_fetch_tests.specs.Fetching.{IsOwnCursor, StillLeaves};

use crate::fetches::check_fetch;
use crate::fixture::{DATA, book_of, file_and_maps, host_of, one_row};
use crate::queries::plan_of;
use sasi_analyzers::Kit;
use sasi_fetch::Cursor;
use sasi_host::{FileName, Kind, MemHost};
use sasi_memindex::MapBook;
use std::alloc::Global;
use std::process::Abort;

/// A data file that came later.
const LATER: FileName = FileName {
    kind: Kind::Data,
    number: 8,
    index: 0,
    part: 0,
};

/// Adds a file and a map, with a newer text of k2, behind the back of a cursor.
fn add(rt: &impl Abort, alloc: Global, cursor: &Cursor, host: &mut MemHost, book: &mut MapBook)
    requires cursor { IsOwnCursor (host_view (memory_host host.old)).files book.old cursor.now }
    requires there { IsThere (host_view (memory_host host.old)) (data_name 7) }
    ensures cursor { IsOwnCursor (host_view (memory_host host.new)).files book.new cursor.now }
    ensures there { IsThere (host_view (memory_host host.new)) (data_name 7) }
    ensures left { StillLeaves (host_view (memory_host host.old)).files (host_view (memory_host host.new)).files book.old book.new cursor.now }
{
    host.put(LATER, b"SASIDAT1").expect(rt, "memory for a file");
    book.add(4, one_row(rt, alloc, b"k2", 9, "v"))
        .expect(rt, "memory");
}

/// Behind the first row a file and a map are added.
fn check(rt: &impl Abort, alloc: Global) {
    let mut book = book_of(rt, alloc);
    let mut kit = Kit::new(Vec::new(alloc));
    let plan = plan_of(rt, alloc, &mut kit, "SELECT k, a FROM t;");
    let view = file_and_maps(rt, alloc);
    let mut cursor = Cursor::new(alloc, plan, view);
    let mut host = host_of(rt, alloc);
    assert!(rt; host.bytes(DATA).is_some());
    let first = (1, "'k1' | 'z'\n(1 rows)\n");
    check_fetch(rt, alloc, &mut cursor, &mut host, &mut kit, &book, &first);
    add(rt, alloc, &cursor, &mut host, &mut book);
    let others = (2, "'k2' | 'x'\n'k3' | 'w'\n(2 rows)\n");
    check_fetch(rt, alloc, &mut cursor, &mut host, &mut kit, &book, &others);
    drop((book, kit, host, cursor));
}

#[test]
fn rows_stay_those_of_the_view(rt: HostRuntime) {
    check(&rt, rt.alloc());
}
