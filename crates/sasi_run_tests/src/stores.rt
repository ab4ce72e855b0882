// What a store says of its steps.
ghost use Rattle.std.specs.Prelude.{map};
ghost use Rattle.sasi_host.specs.Memory.{host_view, memory_host};
ghost use Rattle.sasi_store.specs.StoreView.{IsReady, KnowsStore};

use sasi_analyzers::Kit;
use sasi_host::MemHost;
use sasi_machine::{Outcome, Reply};
use sasi_store::{StepFault, Store};
use sasi_types::PieceEnd;
use std::alloc::Global;
use std::process::Abort;

/// Opens the store of a new folder, whose host fails from the second statement on: thirteen calls make the folder, and a
/// table is recorded by four.
fn opened(rt: &impl Abort, alloc: Global, host: &mut MemHost, kit: &mut Kit) -> Store
    ensures ready { IsReady (host_view (memory_host host.new)) result }
    ensures classes { KnowsStore (map (λ b. kind (b.vtable, b.value)) kit.new.objects.items) result }
{
    host.stop_after(17);
    match Store::open(alloc, host, kit, None) {
        Ok(store) => store,
        Err(_) => panic!(rt; "the store can't be opened"),
    }
}

/// A store counts a step that succeeds, and one that fails, and is then unusable.
fn check_steps(
    rt: &impl Abort,
    host: &mut MemHost,
    kit: &mut Kit,
    store: &mut Store,
    reply: &mut Reply,
)
    requires ready { IsReady (host_view (memory_host host.old)) store.old }
    requires classes { KnowsStore (map (λ b. kind (b.vtable, b.value)) kit.old.objects.items) store.old }
{
    assert!(rt; store.steps() == 0 && store.is_usable());
    let create = b"CREATE TABLE t (k int PRIMARY KEY);";
    let outcome = store
        .step(host, kit, create, PieceEnd::Whole, reply)
        .expect(rt, "created");
    assert!(rt; (outcome, store.steps(), store.is_usable()) == (Outcome::Done, 1, true));
    let insert = b"INSERT INTO t (k) VALUES (1);";
    let failed = store.step(host, kit, insert, PieceEnd::Whole, reply);
    assert!(rt; failed == Err(StepFault::Failed));
    assert!(rt; store.steps() == 2 && !store.is_usable());
}

#[test]
fn steps_of_a_store_are_counted(rt: HostRuntime) {
    let mut host = MemHost::new(rt.alloc());
    let mut kit = Kit::new(Vec::new(rt.alloc()));
    let mut store = opened(&rt, rt.alloc(), &mut host, &mut kit);
    let mut reply = Reply::new(rt.alloc());
    check_steps(&rt, &mut host, &mut kit, &mut store, &mut reply);
}
