// What a run finds after a crash or a fault at any call of an earlier one.
use crate::cases::{
    Answer, Case, compaction, flush, flushes_of_two_tables, indexed_flush,
    indexed_flushes_of_two_tables, insert, stepped_compaction,
};
use crate::runs::{crashed, picks, run_script};
use sasi_host::{MemHost, Pick};
use sasi_run::{Status, starts_again};
use std::alloc::Global;
use std::process::Abort;

/// How many replies were emitted: all of them whole.
fn replies_in(rt: &impl Abort, case: &Case<'_>, emitted: &[u8]) -> usize {
    let mut count: usize = 0;
    let mut rest = emitted;
    for reply in case.replies {
        if !rest.is_empty() {
            rest = rest
                .strip_prefix(reply.as_bytes())
                .expect(rt, "a whole reply");
            count = count.saturating_add(1);
        }
    }
    assert!(rt; rest.is_empty(), "no more than the replies");
    count
}

// Whether a run answered so.
fn is_answer(answer: &Answer<'_>, status: Status, emitted: &[u8]) -> bool {
    answer.status == status
        && emitted.starts_with(answer.first.as_bytes())
        && emitted.get(answer.first.len()..) == Some(answer.second.as_bytes())
}

/// The folder's state, by what a run answers on it.
fn state_in(rt: &impl Abort, alloc: Global, case: &Case<'_>, host: &mut MemHost) -> usize {
    let (status, emitted) = run_script(rt, alloc, case.question, host);
    case.answers
        .iter()
        .position(|answer| is_answer(answer, status, &emitted))
        .expect(rt, "an answer")
}

/// The state is that after the statements whose replies were emitted, or after one more. Gives it.
fn check_state(
    rt: &impl Abort,
    alloc: Global,
    case: &Case<'_>,
    host: &mut MemHost,
    replies: usize,
) -> usize {
    let found = state_in(rt, alloc, case, host);
    let mut states = case.states.iter().skip(replies).take(2);
    assert!(rt;
        states.any(|state| *state == found),
        "state {found} after {replies} replies"
    );
    found
}

/// A crash by this pick of a stopped host leaves the state, from which a run starts again.
fn check_left(
    rt: &impl Abort,
    alloc: Global,
    case: &Case<'_>,
    stopped: &MemHost,
    pick: Pick,
    state: usize,
) {
    let mut left = crashed(rt, stopped, pick);
    starts_again(stopped, &left);
    assert!(rt; state_in(rt, alloc, case, &mut left) == state);
}

/// Each crash of a stopped host leaves the state.
fn check_each_left(
    rt: &impl Abort,
    alloc: Global,
    case: &Case<'_>,
    stopped: &MemHost,
    state: usize,
) {
    for pick in picks() {
        check_left(rt, alloc, case, stopped, pick, state);
    }
}

// Whether what a run emitted that was stopped is nothing, or the first of two replies.
fn is_first_part(answer: &Answer<'_>, emitted: &[u8]) -> bool {
    emitted.is_empty() || (!answer.second.is_empty() && answer.first.as_bytes() == emitted)
}

/// Whether a run over this host, which is stopped, goes through. One that doesn't emits a first part of the state's answer.
fn goes_through(
    rt: &impl Abort,
    alloc: Global,
    case: &Case<'_>,
    host: &mut MemHost,
    state: usize,
) -> bool {
    let (status, emitted) = run_script(rt, alloc, case.question, host);
    if !matches!(status, Status::FolderFault | Status::OutputFault) {
        return true;
    }
    let answer = case.answers.get(state).expect(rt, "an answer");
    assert!(rt; is_first_part(answer, &emitted));
    false
}

/// Each crash in a run that is stopped after so many calls leaves the state. Tells whether the run went through.
fn check_stopped_opening(
    rt: &impl Abort,
    alloc: Global,
    case: &Case<'_>,
    host: &MemHost,
    stop: u64,
    state: usize,
) -> bool {
    let mut stopped = crashed(rt, host, picks()[0]);
    stopped.stop_after(stop);
    let went_through = goes_through(rt, alloc, case, &mut stopped, state);
    check_each_left(rt, alloc, case, &stopped, state);
    went_through
}

/// Crashes at each call of an opening, and of the answers behind it, leave the state. Nothing is pending on the host.
fn check_opening(rt: &impl Abort, alloc: Global, case: &Case<'_>, host: &MemHost, state: usize) {
    for stop in 0..80 {
        if check_stopped_opening(rt, alloc, case, host, stop, state) {
            return;
        }
    }
    panic!(rt; "the opening doesn't end");
}

/// A crash by this pick leaves the state after these replies or one statement more. Gives it.
fn check_picked(
    rt: &impl Abort,
    alloc: Global,
    case: &Case<'_>,
    host: &MemHost,
    pick: Pick,
    replies: usize,
) -> usize {
    check_state(rt, alloc, case, &mut crashed(rt, host, pick), replies)
}

/// The same where any crash cuts off its recovery, and a run follows.
fn check_crash(
    rt: &impl Abort,
    alloc: Global,
    case: &Case<'_>,
    host: &MemHost,
    pick: Pick,
    replies: usize,
) {
    let state = check_picked(rt, alloc, case, host, pick, replies);
    check_opening(rt, alloc, case, &crashed(rt, host, pick), state);
}

/// The status of a run that is stopped after so many calls.
fn status_after(case: &Case<'_>, stop: u64) -> Status {
    if case.emits.contains(&stop) {
        return Status::OutputFault;
    }
    if case.emits.iter().all(|emit| *emit < stop) {
        return Status::Done;
    }
    Status::FolderFault
}

/// How many replies such a run emits.
fn replies_after(case: &Case<'_>, stop: u64) -> usize {
    case.emits.iter().filter(|emit| **emit < stop).count()
}

/// The host of such a run, and how many replies were emitted.
fn stopped_run(rt: &impl Abort, alloc: Global, case: &Case<'_>, stop: u64) -> (MemHost, usize) {
    let mut host = MemHost::new(alloc);
    host.stop_after(stop);
    let (status, emitted) = run_script(rt, alloc, case.script, &mut host);
    assert!(rt;
        status == status_after(case, stop),
        "the status after {stop} calls"
    );
    (host, replies_in(rt, case, &emitted))
}

/// Crashes of a run that is stopped after so many calls.
fn check_stopped(rt: &impl Abort, alloc: Global, case: &Case<'_>, stop: u64) {
    let (host, replies) = stopped_run(rt, alloc, case, stop);
    assert!(rt; replies == replies_after(case, stop));
    for pick in picks() {
        check_crash(rt, alloc, case, &host, pick, replies);
    }
}

// How many calls a run of the script makes.
fn calls_of(case: &Case<'_>) -> u64 {
    case.emits.last().map_or(0, |emit| emit.saturating_add(1))
}

/// Crashes of runs that are stopped after each number of calls.
fn check_each_stopped(rt: &impl Abort, alloc: Global, case: &Case<'_>) {
    for stop in 0..=calls_of(case) {
        check_stopped(rt, alloc, case, stop);
    }
}

#[test]
fn crash_leaves_what_was_answered_or_one_more(rt: HostRuntime) {
    check_each_stopped(&rt, rt.alloc(), &insert());
}

#[test]
fn crash_in_a_flush_leaves_the_state(rt: HostRuntime) {
    check_each_stopped(&rt, rt.alloc(), &flush());
}

#[test]
fn crash_in_flushes_of_two_tables_leaves_what_was_answered_or_one_more(rt: HostRuntime) {
    check_each_stopped(&rt, rt.alloc(), &flushes_of_two_tables());
}

#[test]
fn crash_in_a_flush_of_an_index_leaves_the_state(rt: HostRuntime) {
    check_each_stopped(&rt, rt.alloc(), &indexed_flush());
}

#[test]
fn crash_in_flushes_of_two_indexed_tables_leaves_what_was_answered_or_one_more(rt: HostRuntime) {
    check_each_stopped(&rt, rt.alloc(), &indexed_flushes_of_two_tables());
}

/// Each crash leaves the state after these replies or one statement more.
fn check_crashes(rt: &impl Abort, alloc: Global, case: &Case<'_>, host: &MemHost, replies: usize) {
    for pick in picks() {
        check_picked(rt, alloc, case, host, pick, replies);
    }
}

/// The crashes of runs that are stopped after each number of calls, where the recovery goes through.
fn check_each_crash(rt: &impl Abort, alloc: Global, case: &Case<'_>) {
    for stop in 0..=calls_of(case) {
        let (host, replies) = stopped_run(rt, alloc, case, stop);
        assert!(rt; replies == replies_after(case, stop));
        check_crashes(rt, alloc, case, &host, replies);
    }
}

#[test]
fn crash_in_a_compaction_leaves_its_sources_or_its_file(rt: HostRuntime) {
    check_each_crash(&rt, rt.alloc(), &compaction());
}

#[test]
fn crash_in_a_stepped_compaction_leaves_its_sources_or_its_file(rt: HostRuntime) {
    check_each_crash(&rt, rt.alloc(), &stepped_compaction());
}

/// A run whose call of this number on the disk fails. Gives the host, and how many replies were emitted.
fn failed_run(rt: &impl Abort, alloc: Global, case: &Case<'_>, failing: u64) -> (MemHost, usize) {
    let mut host = MemHost::new(alloc);
    host.fail_disk(vec![in alloc; failing].expect(rt, "memory"));
    let (status, emitted) = run_script(rt, alloc, case.script, &mut host);
    assert!(rt; status == Status::FolderFault);
    (host, replies_in(rt, case, &emitted))
}

// How many replies are emitted before the call of this number on the disk.
fn replies_before(case: &Case<'_>, call: u64) -> usize {
    let mut replies = 0;
    for emit in case.emits {
        // The emits themselves are no calls on the disk.
        if *emit < call.saturating_add(replies) {
            replies = replies.saturating_add(1);
        }
    }
    replies as usize
}

fn check_failing(rt: &impl Abort, alloc: Global, case: &Case<'_>, failing: u64) {
    let (mut host, replies) = failed_run(rt, alloc, case, failing);
    assert!(rt; replies == replies_before(case, failing));
    check_crashes(rt, alloc, case, &host, replies);
    // What a later run on this host finds, a crash then leaves.
    host.fail_disk(Vec::new(alloc));
    let state = check_state(rt, alloc, case, &mut host, replies);
    check_each_left(rt, alloc, case, &host, state);
}

/// Each call on the disk fails once, and ends the run.
fn check_each_failing(rt: &impl Abort, alloc: Global, case: &Case<'_>) {
    let calls = calls_of(case).saturating_sub(case.emits.len() as u64);
    for failing in 1..=calls {
        check_failing(rt, alloc, case, failing);
    }
}

#[test]
fn failed_call_ends_the_run(rt: HostRuntime) {
    check_each_failing(&rt, rt.alloc(), &insert());
}

#[test]
fn failed_call_of_a_flush_ends_the_run(rt: HostRuntime) {
    check_each_failing(&rt, rt.alloc(), &flushes_of_two_tables());
}

#[test]
fn failed_call_of_a_flush_of_indexes_ends_the_run(rt: HostRuntime) {
    check_each_failing(&rt, rt.alloc(), &indexed_flushes_of_two_tables());
}

#[test]
fn failed_call_of_a_compaction_ends_the_run(rt: HostRuntime) {
    check_each_failing(&rt, rt.alloc(), &compaction());
}

#[test]
fn failed_call_of_a_stepped_compaction_ends_the_run(rt: HostRuntime) {
    check_each_failing(&rt, rt.alloc(), &stepped_compaction());
}
