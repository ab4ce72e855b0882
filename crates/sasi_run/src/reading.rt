// The loop over the reads of a script.
ghost use Rattle.std.specs.Prelude.{◌≡◌, IfErr, IfOk, IsErrOf, OnOk, map};
ghost use Rattle.sasi_host.specs.View.{FailsOnlyAsTold};
ghost use Rattle.sasi_store.specs.StoreView.{IsReady, KnowsStore};
ghost use Rattle.sasi_run.specs.Crashing.{EndsAtRead, FeedsCrashSafe, FeedsRead, RanScript, RunsCrashSafe, StopsWith};
ghost use Rattle.sasi_run.specs.Session.{IsAtScriptStart};
ghost use Rattle.sasi_run.specs.Causes.{FailedCalls, IsOfStore, ReportsNow};
ghost use Rattle.sasi_run.specs.StatusCauses.{HostCauses, NothingFailed};
ghost use Rattle.sasi_run.specs.Headline.{status_of_stop, status_of_count};

use crate::Status;
use crate::session::{Session, Stop, feed, finish};
use sasi_analyzers::Kit;
use sasi_host::{Failed, Host, Source};
use sasi_store::Store;
use std::alloc::Global;

/// The most bytes of a script that are run.
pub const SCRIPT_LIMIT: u64 = 1 << 40;

/// The most bytes that one read asks for.
pub const READ_SIZE: usize = 4096;

fn stop_status(stop: Stop) -> Status
    ensures { result ≡ status_of_stop stop }
{
    match stop {
        Stop::Disk => Status::FolderFault,
        Stop::Output => Status::OutputFault,
        Stop::Memory => Status::OutOfMemory,
        Stop::Corrupt(damage) => Status::Damaged(damage),
        Stop::Spent(kind) => Status::NumbersSpent(kind),
        Stop::Missing(class) => Status::AnalyzerMissing(class),
    }
}

fn end_status(refused: u64) -> Status
    ensures { result ≡ status_of_count refused }
{
    if refused == 0 {
        Status::Done
    } else {
        Status::Refused(refused)
    }
}

// Feeds bytes of the script. At Err the run has ended.
fn feed_bytes<H: Host>(
    session: &mut Session,
    host: &mut H,
    kit: &mut Kit,
    bytes: &[u8],
) -> Result<(), Status>
    requires ready { IsReady (H.view host.old) session.old.store }
    requires classes { KnowsStore (map (λ b. kind (b.vtable, b.value)) kit.old.objects.items) session.old.store }
    ensures ok { OnOk result (FeedsCrashSafe (map (λ b. kind (b.vtable, b.value)) kit.old.objects.items) session.old session.new (H.view host.old) (H.view host.new) bytes.now) }
    ensures err { IfErr result (λ status. StopsWith (map (λ b. kind (b.vtable, b.value)) kit.old.objects.items) status session.old (H.view host.old) (H.view host.new) bytes.now) }
    ensures causes { HostCauses (H.view host.old) (H.view host.new) result }
    ensures told { FailsOnlyAsTold (H.view host.old) (H.view host.new) }
    ensures classes { OnOk result (KnowsStore (map (λ b. kind (b.vtable, b.value)) kit.new.objects.items) session.new.store) }
    ensures kinds { map (λ b. kind (b.vtable, b.value)) kit.new.objects.items ≡ map (λ b. kind (b.vtable, b.value)) kit.old.objects.items }
{
    match feed(session, host, kit, bytes) {
        Ok(()) => Ok(()),
        Err(stop) => Err(stop_status(stop)),
    }
}

// Reads the script once, and feeds what there is room for. Gives how much was read; at Err the run has ended.
fn read_once<S: Source, H: Host>(
    session: &mut Session,
    script: &mut S,
    host: &mut H,
    kit: &mut Kit,
    room: usize,
) -> Result<usize, Status>
    requires ready { IsReady (H.view host.old) session.old.store }
    requires classes { KnowsStore (map (λ b. kind (b.vtable, b.value)) kit.old.objects.items) session.old.store }
    ensures ok { IfOk result (λ count. FeedsRead (map (λ b. kind (b.vtable, b.value)) kit.old.objects.items) session.old session.new (S.view script.old).left (S.view script.new).left (H.view host.old) (H.view host.new) room count) }
    ensures err { IfErr result (λ status. EndsAtRead (map (λ b. kind (b.vtable, b.value)) kit.old.objects.items) status session.old (S.view script.old).left (S.view script.new).left (H.view host.old) (H.view host.new) room) }
    ensures unread { IsErrOf result Status.ScriptFault → host.new ≡ host.old }
    ensures unfailed { OnOk result (NothingFailed (S.view script.old) (S.view script.new) (H.view host.old) (H.view host.new)) }
    ensures calls { IfErr result (λ status. FailedCalls status (S.view script.old) (S.view script.new) (H.view host.old) (H.view host.new)) }
    ensures damage { IfErr result (λ status. ReportsNow status (H.view host.new)) }
    ensures classes { OnOk result (KnowsStore (map (λ b. kind (b.vtable, b.value)) kit.new.objects.items) session.new.store) }
    ensures kinds { map (λ b. kind (b.vtable, b.value)) kit.new.objects.items ≡ map (λ b. kind (b.vtable, b.value)) kit.old.objects.items }
{
    let mut buf = [0; READ_SIZE];
    let count = match script.read(&mut buf) {
        Ok(count) => count,
        Err(Failed) => return Err(Status::ScriptFault),
    };
    let bytes = &buf[..count];
    match feed_bytes(session, host, kit, &bytes[..room.min(bytes.len())]) {
        Ok(()) => Ok(count),
        Err(status) => Err(status),
    }
}

// Runs the script to its end. At Err something has ended the run before.
fn run_script<S: Source, H: Host>(
    session: &mut Session,
    script: &mut S,
    host: &mut H,
    kit: &mut Kit,
) -> Result<(), Status>
    requires fresh { IsAtScriptStart session.old }
    requires ready { IsReady (H.view host.old) session.old.store }
    requires classes { KnowsStore (map (λ b. kind (b.vtable, b.value)) kit.old.objects.items) session.old.store }
    ensures ran { OnOk result (RanScript (map (λ b. kind (b.vtable, b.value)) kit.old.objects.items) session.old session.new (S.view script.old).left (S.view script.new).left (H.view host.old) (H.view host.new)) }
    ensures runs { IfErr result (λ status. RunsCrashSafe (map (λ b. kind (b.vtable, b.value)) kit.old.objects.items) status session.old.store (S.view script.old).left (S.view script.new).left (H.view host.old) (H.view host.new)) }
    ensures unfailed { OnOk result (NothingFailed (S.view script.old) (S.view script.new) (H.view host.old) (H.view host.new)) }
    ensures calls { IfErr result (λ status. FailedCalls status (S.view script.old) (S.view script.new) (H.view host.old) (H.view host.new)) }
    ensures damage { IfErr result (λ status. ReportsNow status (H.view host.new)) }
    ensures of_store { IfErr result IsOfStore }
    ensures classes { OnOk result (KnowsStore (map (λ b. kind (b.vtable, b.value)) kit.new.objects.items) session.new.store) }
    ensures kinds { map (λ b. kind (b.vtable, b.value)) kit.new.objects.items ≡ map (λ b. kind (b.vtable, b.value)) kit.old.objects.items }
{
    let mut taken: u64 = 0;
    'reads: loop {
        let room = (SCRIPT_LIMIT - taken) as usize;
        let count = match read_once(session, script, host, kit, room) {
            Ok(count) => count,
            Err(status) => return Err(status),
        };
        if count == 0 {
            return match finish(session, host, kit) {
                Ok(()) => Ok(()),
                Err(stop) => Err(stop_status(stop)),
            };
        }
        if count > room {
            return Err(Status::ScriptTooLong);
        }
        taken += count as u64;
    }
}

/// Runs the script over an open store to its end, or until a fault stops the run.
pub fn run_store<S: Source, H: Host>(
    alloc: Global,
    store: Store,
    script: &mut S,
    host: &mut H,
    kit: &mut Kit,
) -> Status
    requires ready { IsReady (H.view host.old) store }
    requires classes { KnowsStore (map (λ b. kind (b.vtable, b.value)) kit.old.objects.items) store }
    ensures runs { RunsCrashSafe (map (λ b. kind (b.vtable, b.value)) kit.old.objects.items) result store (S.view script.old).left (S.view script.new).left (H.view host.old) (H.view host.new) }
    ensures calls { FailedCalls result (S.view script.old) (S.view script.new) (H.view host.old) (H.view host.new) }
    ensures damage { ReportsNow result (H.view host.new) }
    ensures of_store { IsOfStore result }
{
    let mut session = Session::new(alloc, store);
    match run_script(&mut session, script, host, kit) {
        Err(status) => status,
        Ok(()) => {
            let refused = session.refused;
            match session.into_store().finish(host) {
                Ok(()) => end_status(refused),
                Err(Failed) => Status::FolderFault,
            }
        }
    }
}
