// Units, one or more at a time.
ghost use Rattle.sasi_host.specs.Memory.{host_view, memory_host};
ghost use Rattle.sasi_compact.specs.Tasks.{CanGiveUp, CanGoOn};

use crate::fixture::{FIRST, MERGED, OLDER, check_begins, data_file, host_of, kit_of, task_of};
use sasi_compact::{CompactTask, PairFault, Progress};
use sasi_host::{FormatRule, MemHost};
use std::alloc::Global;
use std::process::Abort;

// So many units are done, and the output has the first bytes of the merge then.
fn check_step(
    rt: &impl Abort,
    alloc: Global,
    host: &mut MemHost,
    task: &mut CompactTask,
    units: u32,
    progress: Progress,
    len: usize,
)
    requires { CanGoOn (host_view (memory_host host.old)) task.old }
    ensures can { CanGoOn (host_view (memory_host host.new)) task.new }
    ensures give_up { CanGiveUp (host_view (memory_host host.new)) task.new }
{
    let mut kit = kit_of(rt, alloc);
    let done = task.step(host, &mut kit, units).expect(rt, "done");
    drop(kit);
    assert!(rt; done == progress);
    assert!(rt; host.bytes(data_file(3)) == MERGED.get(..len));
}

// Units are done up to the end, and then the task is given up.
fn check_units(rt: &impl Abort, alloc: Global, host: &mut MemHost, task: CompactTask)
    requires { CanGoOn (host_view (memory_host host.old)) task }
{
    let mut task = task;
    check_step(rt, alloc, host, &mut task, 1, Progress::Running, FIRST);
    check_step(rt, alloc, host, &mut task, 1, Progress::Running, 103);
    check_step(rt, alloc, host, &mut task, 0, Progress::Running, 103);
    check_step(
        rt,
        alloc,
        host,
        &mut task,
        5,
        Progress::Ready { left: 4 },
        148,
    );
    check_step(
        rt,
        alloc,
        host,
        &mut task,
        2,
        Progress::Ready { left: 2 },
        148,
    );
    task.give_up(host).expect(rt, "given up");
    assert!(rt; host.bytes(data_file(3)).is_none());
}

#[test]
fn each_unit_writes_a_partition(rt: HostRuntime) {
    let mut host = host_of(&rt, rt.alloc());
    let task = task_of(&rt, rt.alloc());
    check_begins(&rt, &host, &task);
    check_units(&rt, rt.alloc(), &mut host, task);
    drop(host);
}

#[test]
fn no_unit_makes_no_file(rt: HostRuntime) {
    let mut host = host_of(&rt, rt.alloc());
    let mut task = task_of(&rt, rt.alloc());
    check_begins(&rt, &host, &task);
    let mut kit = kit_of(&rt, rt.alloc());
    assert!(rt; task.step(&mut host, &mut kit, 0) == Ok(Progress::Running));
    assert!(rt; host.bytes(data_file(3)).is_none());
    drop((kit, task, host));
}

#[test]
fn last_partition_leaves_nothing_to_pass(rt: HostRuntime) {
    let mut host = host_of(&rt, rt.alloc());
    let mut task = task_of(&rt, rt.alloc());
    check_begins(&rt, &host, &task);
    check_step(
        &rt,
        rt.alloc(),
        &mut host,
        &mut task,
        3,
        Progress::Ready { left: 0 },
        148,
    );
    drop((task, host));
}

// With these bytes in place of the data file, the first unit or a later one reports it as corrupt by a rule. What was made can be deleted.
fn check_damaged(rt: &impl Abort, alloc: Global, number: u32, bytes: &[u8], rule: FormatRule) {
    let mut host = host_of(rt, alloc);
    host.put(data_file(number), bytes).expect(rt, "memory");
    let mut task = task_of(rt, alloc);
    check_begins(rt, &host, &task);
    let mut kit = kit_of(rt, alloc);
    match task.step(&mut host, &mut kit, 9) {
        Err(PairFault::Damaged(damage)) => {
            assert!(rt; (damage.file, damage.rule) == (data_file(number), rule));
        }
        _ => assert!(rt; false),
    }
    drop(kit);
    task.give_up(&mut host).expect(rt, "given up");
    assert!(rt; host.bytes(data_file(3)).is_none());
    drop(host);
}

#[test]
fn short_source_is_reported(rt: HostRuntime) {
    check_damaged(&rt, rt.alloc(), 2, &OLDER[..20], FormatRule::Short);
}

// The data file 1 with its keys exchanged: its stored tokens rise, and those of its keys fall.
fn exchanged(rt: &impl Abort, alloc: Global) -> Vec<u8> {
    let mut bytes = OLDER.as_slice().to_vec(alloc).expect(rt, "memory");
    *bytes.get_mut(23).expect(rt, "a byte") = b'2';
    *bytes.get_mut(68).expect(rt, "a byte") = b'1';
    bytes
}

#[test]
fn keys_out_of_order_are_reported(rt: HostRuntime) {
    let bytes = exchanged(&rt, rt.alloc());
    check_damaged(&rt, rt.alloc(), 1, &bytes, FormatRule::Order);
}
