// A session: a run between two reads of its script.
ghost use Rattle.std.specs.Prelude.{◌≡◌, OnErr, OnOk, IfErr, map, ◌∷◌, []};
ghost use Rattle.sasi_host.specs.View.{AllOut, Emits, FailsOnlyAsTold, OutCauses, counted};
ghost use Rattle.sasi_layout.specs.Layout.{state_of};
ghost use Rattle.sasi_store.specs.Worlds.{ServesWorld, World};
ghost use Rattle.sasi_model.specs.Pieces.{piece_of};
ghost use Rattle.sasi_cql.specs.SplitterState.{resume};
ghost use Rattle.sasi_store.specs.Answers.{NeedsNoFile};
ghost use Rattle.sasi_store.specs.StoreView.{IsReady, KnowsStore};
ghost use Rattle.sasi_run.specs.declared.session.Stop.TheVariants.{Memory, Output};
ghost use Rattle.sasi_run.specs.Crashing.{AnswersCrashSafe, FailsCrashSafe, FinishesCrashSafe, StopsCrashSafe, FeedsCrashSafe};
ghost use Rattle.sasi_run.specs.FileCalls.{emits_after};
ghost use Rattle.sasi_run.specs.Session.{counted_outcome, EmitAppends, Faults};

use sasi_analyzers::Kit;
use sasi_cql::Splitter;
use sasi_host::{Damage, Failed, Host};
use sasi_machine::{Outcome, Reply};
use sasi_store::{NumberKind, StepFault, Store};
use sasi_types::{Class, PieceEnd};
use std::alloc::{AllocError, Global};

/// A run between two reads of its script: its store, the splitter of the script, and the last reply.
#[derive(Drop)]
pub struct Session {
    pub store: Store,
    pub splitter: Splitter,
    pub reply: Reply,
    /// How many pieces were refused, at most 2^64 - 1.
    pub refused: u64,
}

/// Why a run stops before its script's end.
#[derive(Clone, Copy, Debug, PartialEq, Eq)]
pub enum Stop {
    Disk,
    Output,
    Memory,
    Corrupt(Damage),
    Spent(NumberKind),
    Missing(Class),
}

impl From<AllocError> for Stop {
    ghost from_gives = { λ _ e. e ≡ Memory };

    fn from(_: AllocError) -> Self {
        Stop::Memory
    }
}

impl From<Failed> for Stop {
    ghost from_gives = { λ _ e. e ≡ Output };

    fn from(_: Failed) -> Self {
        Stop::Output
    }
}

impl From<StepFault> for Stop {
    ghost use Rattle.sasi_run.specs.Session.{stop_of};

    ghost from_gives = { λ fault e. e ≡ stop_of fault };

    fn from(fault: StepFault) -> Self {
        match fault {
            StepFault::Failed => Stop::Disk,
            StepFault::OutOfMemory => Stop::Memory,
            StepFault::Damaged(damage) => Stop::Corrupt(damage),
            StepFault::NumbersSpent(kind) => Stop::Spent(kind),
            StepFault::AnalyzerMissing(class) => Stop::Missing(class),
        }
    }
}

// One more, if a piece was refused.
fn count_refused(count: u64, outcome: Outcome) -> u64
    ensures { result ≡ counted_outcome count outcome }
{
    match outcome {
        Outcome::Done => count,
        Outcome::Refused(_) => count.saturating_add(1),
    }
}

// Emits a reply by one call, unless it is empty.
fn emit_reply<H: Host>(host: &mut H, reply: &[u8]) -> Result<(), Failed>
    ensures bytes { EmitAppends (H.view host.old).emitted (H.view host.new).emitted result reply.now }
    ensures all { OnOk result (AllOut reply.now (H.view host.old) (H.view host.new)) }
    ensures emits { Emits reply.now (H.view host.old) (H.view host.new) }
    ensures call { (H.view host.new).emits ≡ emits_after (H.view host.old).emits reply.now }
    ensures failed_call { OnErr result ((H.view host.new).emits ≡ counted (H.view host.old).emits) }
    ensures causes { OutCauses (H.view host.old) (H.view host.new) result }
{
    if reply.is_empty() {
        return Ok(());
    }
    host.emit(reply)
}

/// Runs the piece that has ended, and emits its reply.
pub fn answer<H: Host>(
    session: &mut Session,
    host: &mut H,
    kit: &mut Kit,
    end: PieceEnd,
) -> Result<(), Stop>
    requires ready { IsReady (H.view host.old) session.old.store }
    requires classes { KnowsStore (map (λ b. kind (b.vtable, b.value)) kit.old.objects.items) session.old.store }
    ensures ok { OnOk result (AnswersCrashSafe (map (λ b. kind (b.vtable, b.value)) kit.old.objects.items) session.old session.new (H.view host.old) (H.view host.new) (piece_of end session.old.splitter.text)) }
    ensures err { IfErr result (λ stop. FailsCrashSafe (map (λ b. kind (b.vtable, b.value)) kit.old.objects.items) stop session.old (H.view host.old) (H.view host.new) (piece_of end session.old.splitter.text ∷ [])) }
    ensures no_file_call { (w : World) → ServesWorld (H.view host.old) session.old.store w → NeedsNoFile w.session (state_of w.layout) (piece_of end session.old.splitter.text) → (H.view host.new).calls ≡ (H.view host.old).calls }
    ensures causes { Faults (H.view host.old) (H.view host.new) result }
    ensures told { FailsOnlyAsTold (H.view host.old) (H.view host.new) }
    ensures classes { OnOk result (KnowsStore (map (λ b. kind (b.vtable, b.value)) kit.new.objects.items) session.new.store) }
    ensures kinds { map (λ b. kind (b.vtable, b.value)) kit.new.objects.items ≡ map (λ b. kind (b.vtable, b.value)) kit.old.objects.items }
{
    let outcome = session.store.step(host, kit, session.splitter.piece(), end, &mut session.reply)?;
    session.refused = count_refused(session.refused, outcome);
    emit_reply(host, session.reply.bytes())?;
    Ok(())
}

// Pushes the next byte of the script, and runs the piece that it ends, if it ends one.
fn feed_byte<H: Host>(
    session: &mut Session,
    host: &mut H,
    kit: &mut Kit,
    byte: u8,
) -> Result<(), Stop>
    requires ready { IsReady (H.view host.old) session.old.store }
    requires classes { KnowsStore (map (λ b. kind (b.vtable, b.value)) kit.old.objects.items) session.old.store }
    ensures ok { OnOk result (FeedsCrashSafe (map (λ b. kind (b.vtable, b.value)) kit.old.objects.items) session.old session.new (H.view host.old) (H.view host.new) (byte ∷ [])) }
    ensures err { IfErr result (λ stop. StopsCrashSafe (map (λ b. kind (b.vtable, b.value)) kit.old.objects.items) stop session.old (H.view host.old) (H.view host.new) (byte ∷ [])) }
    ensures causes { Faults (H.view host.old) (H.view host.new) result }
    ensures told { FailsOnlyAsTold (H.view host.old) (H.view host.new) }
    ensures classes { OnOk result (KnowsStore (map (λ b. kind (b.vtable, b.value)) kit.new.objects.items) session.new.store) }
    ensures kinds { map (λ b. kind (b.vtable, b.value)) kit.new.objects.items ≡ map (λ b. kind (b.vtable, b.value)) kit.old.objects.items }
{
    let _refused = session.refused;
    match session.splitter.push(byte)? {
        Some(end) => answer(session, host, kit, end),
        None => Ok(()),
    }
}

/// Feeds the next bytes of the script, and runs each piece that ends in them.
pub fn feed<H: Host>(
    session: &mut Session,
    host: &mut H,
    kit: &mut Kit,
    bytes: &[u8],
) -> Result<(), Stop>
    requires ready { IsReady (H.view host.old) session.old.store }
    requires classes { KnowsStore (map (λ b. kind (b.vtable, b.value)) kit.old.objects.items) session.old.store }
    ensures ok { OnOk result (FeedsCrashSafe (map (λ b. kind (b.vtable, b.value)) kit.old.objects.items) session.old session.new (H.view host.old) (H.view host.new) bytes.now) }
    ensures err { IfErr result (λ stop. StopsCrashSafe (map (λ b. kind (b.vtable, b.value)) kit.old.objects.items) stop session.old (H.view host.old) (H.view host.new) bytes.now) }
    ensures causes { Faults (H.view host.old) (H.view host.new) result }
    ensures told { FailsOnlyAsTold (H.view host.old) (H.view host.new) }
    ensures classes { OnOk result (KnowsStore (map (λ b. kind (b.vtable, b.value)) kit.new.objects.items) session.new.store) }
    ensures kinds { map (λ b. kind (b.vtable, b.value)) kit.new.objects.items ≡ map (λ b. kind (b.vtable, b.value)) kit.old.objects.items }
{
    for byte in bytes {
        feed_byte(session, host, kit, *byte)?;
    }
    Ok(())
}

/// Runs the piece that the script's end cuts off, if there is one.
pub fn finish<H: Host>(session: &mut Session, host: &mut H, kit: &mut Kit) -> Result<(), Stop>
    requires ready { IsReady (H.view host.old) session.old.store }
    requires classes { KnowsStore (map (λ b. kind (b.vtable, b.value)) kit.old.objects.items) session.old.store }
    ensures ok { OnOk result (FinishesCrashSafe (map (λ b. kind (b.vtable, b.value)) kit.old.objects.items) session.old session.new (H.view host.old) (H.view host.new)) }
    ensures err { IfErr result (λ stop. FailsCrashSafe (map (λ b. kind (b.vtable, b.value)) kit.old.objects.items) stop session.old (H.view host.old) (H.view host.new) (resume session.old.splitter []).last) }
    ensures causes { Faults (H.view host.old) (H.view host.new) result }
    ensures told { FailsOnlyAsTold (H.view host.old) (H.view host.new) }
    ensures classes { OnOk result (KnowsStore (map (λ b. kind (b.vtable, b.value)) kit.new.objects.items) session.new.store) }
    ensures kinds { map (λ b. kind (b.vtable, b.value)) kit.new.objects.items ≡ map (λ b. kind (b.vtable, b.value)) kit.old.objects.items }
{
    let _refused = session.refused;
    match session.splitter.end() {
        Some(end) => answer(session, host, kit, end),
        None => Ok(()),
    }
}

impl Session {
    ghost use Rattle.sasi_run.specs.Session.{IsAtScriptStart};

    /// A session at the start of a script.
    pub fn new(alloc: Global, store: Store) -> Session
        ensures fresh { IsAtScriptStart result }
        ensures store { result.store ≡ store }
    {
        Session {
            store,
            splitter: Splitter::new(alloc),
            reply: Reply::new(alloc),
            refused: 0,
        }
    }

    /// Ends the session, and gives back its store.
    pub fn into_store(self) -> Store
        ensures { result ≡ self.store }
    {
        let Session {
            store,
            splitter: _splitter,
            reply: _reply,
            refused: _refused,
        } = self;
        store
    }
}
