// What cursors print.
ghost use Rattle.std.specs.Prelude.{◌≡◌};
ghost use Rattle.sasi_host.specs.Names.{data_name};
ghost use Rattle.sasi_host.specs.View.{IsThere};
ghost use Rattle.sasi_fetch.specs.Cursors.{view_of};
ghost use Rattle.sasi_fetch_tests.specs.Fetching.{IsOwnCursor};

use sasi_analyzers::Kit;
use sasi_fetch::Cursor;
use sasi_host::Host;
use sasi_machine::Reply;
use sasi_memindex::MapBook;
use std::alloc::Global;
use std::process::Abort;

/// A FETCH of so many rows, and what it prints.
pub type Fetch<'a> = (u32, &'a str);

/// A FETCH prints this.
pub fn check_fetch<H: Host>(
    rt: &impl Abort,
    alloc: Global,
    cursor: &mut Cursor,
    host: &mut H,
    kit: &mut Kit,
    maps: &MapBook,
    fetch: &Fetch<'_>,
)
    requires cursor { IsOwnCursor (H.view host.old).files maps.now cursor.old }
    requires there { IsThere (H.view host.old) (data_name 7) }
    ensures cursor { IsOwnCursor (H.view host.new).files maps.now cursor.new }
    ensures there { IsThere (H.view host.new) (data_name 7) }
    ensures view { view_of cursor.new ≡ view_of cursor.old }
{
    let mut reply = Reply::new(alloc);
    cursor
        .fetch(host, kit, maps, fetch.0, &mut reply)
        .expect(rt, "fetched");
    assert!(rt; reply.bytes() == fetch.1.as_bytes());
    drop(reply);
}

/// FETCHes one after another print this.
pub fn check_fetches<H: Host>(
    rt: &impl Abort,
    alloc: Global,
    cursor: &mut Cursor,
    host: &mut H,
    kit: &mut Kit,
    maps: &MapBook,
    fetches: &[Fetch<'_>],
)
    requires cursor { IsOwnCursor (H.view host.old).files maps.now cursor.old }
    requires there { IsThere (H.view host.old) (data_name 7) }
{
    for fetch in fetches {
        check_fetch(rt, alloc, cursor, host, kit, maps, fetch);
    }
}
