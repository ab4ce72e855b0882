// Cuts a script into its pieces, a byte at a time.
ghost use Rattle.std.specs.Prelude.{◌≡◌, List, ℕ, [], ◌∷◌, ◌++◌, IfOk, OnOk, OnErr, true, false};
ghost use Rattle.sasi_model.specs.Pieces.{pieces};
ghost use Rattle.sasi_cql.specs.SplitterState.{resume, reported, behind, size_after, kept, mode_after, stage_after, leads, tentative, front_size, end_at, last_end_of, opens};
ghost use Rattle.sasi_cql.specs.declared.stage.PieceStage.TheVariants.{Front, Begun, Ended};

use crate::mode::ScanMode;
use crate::stage::PieceStage;
use sasi_types::PieceEnd;
use std::alloc::{AllocError, Global};
use std::marker::Model;

// The most bytes that a piece has.
const LIMIT: usize = 1 << 20;

/// Cuts a script into its pieces, a byte at a time. It keeps at most 2^20 bytes of a piece, and none of a comment in
/// front of one.
#[derive(Drop)]
pub struct Splitter {
    text: Vec<u8>,
    // The number of bytes of the piece so far, or of the open comment before it: at most LIMIT + 1, where it stops.
    size: usize,
    stage: PieceStage,
    mode: ScanMode,
}

impl Model for Splitter {
    ghost use Rattle.sasi_cql.specs.SplitterState.{SplitterState, IsSplitterState};

    ghost Value = { SplitterState };

    ghost view = { λ a. record { text = a.text.items; size = a.size; stage = a.stage; mode = a.mode } };

    ghost invariant = { λ a. IsSplitterState a.text.items a.size a.stage a.mode };
}

fn opened(byte: u8) -> ScanMode
    ensures { result ≡ opens byte }
{
    match byte {
        b'\'' => ScanMode::Quote,
        b'"' => ScanMode::QuotedName,
        b'-' => ScanMode::Dash,
        b'/' => ScanMode::Slash,
        _ => ScanMode::Plain,
    }
}

// The mode after the byte.
fn next_mode(mode: ScanMode, byte: u8) -> ScanMode
    ensures { result ≡ mode_after mode byte }
{
    match (mode, byte) {
        (ScanMode::Dash, b'-') | (ScanMode::Slash, b'/') => ScanMode::Line,
        (ScanMode::Slash, b'*') => ScanMode::Block,
        (ScanMode::Plain | ScanMode::Dash | ScanMode::Slash, _) => opened(byte),
        (ScanMode::Quote, b'\'')
        | (ScanMode::QuotedName, b'"')
        | (ScanMode::Line, b'\n')
        | (ScanMode::Star, b'/') => ScanMode::Plain,
        (ScanMode::Block | ScanMode::Star, b'*') => ScanMode::Star,
        (ScanMode::Star, _) => ScanMode::Block,
        (mode, _) => mode,
    }
}

// The stage after a byte of a piece.
fn next_stage(mode: ScanMode, byte: u8) -> PieceStage
    ensures { result ≡ stage_after mode byte }
{
    match mode {
        ScanMode::Plain | ScanMode::Dash | ScanMode::Slash if byte == b';' => PieceStage::Ended,
        _ => PieceStage::Begun,
    }
}

// Whether the byte begins no piece, where none has begun before it.
fn is_lead(mode: ScanMode, byte: u8) -> bool
    ensures { result ≡ leads mode byte }
{
    match mode {
        ScanMode::Plain => matches!(byte, b' ' | b'\t' | b'\r' | b'\n' | b'-' | b'/'),
        ScanMode::Dash => byte == b'-',
        ScanMode::Slash => byte == b'/' || byte == b'*',
        _ => true,
    }
}

// The size with one more byte.
fn next_size(size: usize) -> usize
    ensures { result ≡ size_after size }
{
    if size > LIMIT { size } else { size + 1 }
}

// The size after a byte before a piece, where the byte led to this mode.
fn next_front_size(mode: ScanMode, size: usize) -> usize
    ensures { result ≡ front_size mode size }
{
    match mode {
        ScanMode::Dash | ScanMode::Slash => 1,
        ScanMode::Block | ScanMode::Star => next_size(size),
        _ => 0,
    }
}

// Keeps a byte of a piece that has `size` bytes so far, unless that is the limit.
fn keep(text: &mut Vec<u8>, size: usize, byte: u8) -> Result<(), AllocError>
    ensures ok { OnOk result (text.new.items ≡ kept text.old.items size byte) }
    ensures err { OnErr result (text.new.items ≡ text.old.items) }
{
    if size < LIMIT {
        text.push(byte)?;
    }
    Ok(())
}

// Keeps the byte that may begin a piece or a comment, and nothing else.
fn set_tentative(text: &mut Vec<u8>, mode: ScanMode) -> Result<(), AllocError>
    ensures ok { OnOk result (text.new.items ≡ tentative mode) }
    ensures err { OnErr result (text.new.items ≡ []) }
{
    text.clear();
    match mode {
        ScanMode::Dash => text.push(b'-')?,
        ScanMode::Slash => text.push(b'/')?,
        _ => {}
    }
    Ok(())
}

// The end of a piece of this size at its own last byte, if it has ended.
fn end_of(stage: PieceStage, size: usize) -> Option<PieceEnd>
    ensures { result ≡ end_at stage size }
{
    if stage != PieceStage::Ended {
        None
    } else if size > LIMIT {
        Some(PieceEnd::TooLong { finished: true })
    } else {
        Some(PieceEnd::Whole)
    }
}

// The end of a piece of this size at the end of the script, if there is one.
fn last_end(stage: PieceStage, size: usize) -> Option<PieceEnd>
    ensures { result ≡ last_end_of stage size }
{
    if stage == PieceStage::Ended || size == 0 {
        None
    } else if size > LIMIT {
        Some(PieceEnd::TooLong { finished: false })
    } else {
        Some(PieceEnd::Unfinished)
    }
}

impl Splitter {
    /// A splitter at a script's start.
    #[tactic(auto, unfolding(crate::specs::SplitterState::resume))]
    pub fn new(alloc: Global) -> Splitter
        ensures { (left : List ℕ) → resume result left ≡ pieces left }
    {
        Splitter {
            text: Vec::new(alloc),
            size: 0,
            stage: PieceStage::Front,
            mode: ScanMode::Plain,
        }
    }

    // Forgets a piece that has ended.
    #[tactic(auto, unfolding(crate::specs::SplitterState::resume))]
    fn restart(&mut self)
        ensures same { (left : List ℕ) → resume self.new left ≡ resume self.old left }
        ensures stage { self.new.stage ≡ Ended → ⊥ }
    {
        if self.stage == PieceStage::Ended {
            self.text.clear();
            self.size = 0;
            self.stage = PieceStage::Front;
            self.mode = ScanMode::Plain;
        }
    }

    // Pushes a byte that stands before the piece, or may turn out to be its first.
    #[tactic(auto, unfolding(crate::specs::SplitterState::resume))]
    fn take_lead(&mut self, byte: u8) -> Result<(), AllocError>
        requires stage { self.old.stage ≡ Front }
        requires leads { leads self.old.mode byte ≡ true }
        ensures { OnOk result ((left : List ℕ) → resume self.old (byte ∷ left) ≡ resume self.new left) }
    {
        let mode = next_mode(self.mode, byte);
        let size = next_front_size(mode, self.size);
        self.mode = ScanMode::Plain;
        self.size = 0;
        set_tentative(&mut self.text, mode)?;
        self.mode = mode;
        self.size = size;
        Ok(())
    }

    // Begins a piece with the byte that is to come, unless it has begun.
    #[tactic(auto, unfolding(crate::specs::SplitterState::resume))]
    fn begin(&mut self, byte: u8)
        requires open { self.old.stage ≡ Ended → ⊥ }
        requires begins { self.old.stage ≡ Front → leads self.old.mode byte ≡ false }
        ensures same { (left : List ℕ) → resume self.new (byte ∷ left) ≡ resume self.old (byte ∷ left) }
        ensures stage { self.new.stage ≡ Begun }
    {
        if self.stage == PieceStage::Front {
            self.stage = PieceStage::Begun;
            self.mode = ScanMode::Plain;
        }
    }

    // Pushes a byte of a piece.
    #[tactic(auto, unfolding(crate::specs::SplitterState::resume))]
    fn take_body(&mut self, byte: u8) -> Result<Option<PieceEnd>, AllocError>
        requires stage { self.old.stage ≡ Begun }
        ensures { IfOk result (λ end. (left : List ℕ) →
            resume self.old (byte ∷ left) ≡ behind (reported end self.new.text) (resume self.new left)) }
    {
        keep(&mut self.text, self.size, byte)?;
        self.size = next_size(self.size);
        self.stage = next_stage(self.mode, byte);
        self.mode = next_mode(self.mode, byte);
        Ok(end_of(self.stage, self.size))
    }

    /// Pushes the next byte of the script. Returns the end of the piece, if this byte ends it.
    pub fn push(&mut self, byte: u8) -> Result<Option<PieceEnd>, AllocError>
        ensures { IfOk result (λ end. (left : List ℕ) →
            resume self.old (byte ∷ left) ≡ behind (reported end self.new.text) (resume self.new left)) }
    {
        self.restart();
        if self.stage == PieceStage::Front && is_lead(self.mode, byte) {
            self.take_lead(byte)?;
            return Ok(None);
        }
        self.begin(byte);
        self.take_body(byte)
    }

    /// Ends the script. Returns the end of the last piece, if there is one after the last `;`.
    #[tactic(auto, unfolding(crate::specs::SplitterState::resume))]
    pub fn end(&mut self) -> Option<PieceEnd>
        ensures { resume self.old [] ≡ record { whole = []; last = reported result self.new.text } }
    {
        last_end(self.stage, self.size)
    }

    /// The text of the piece.
    pub fn piece(&self) -> &[u8]
        ensures { result.now ≡ self.now.text }
    {
        &self.text
    }
}
