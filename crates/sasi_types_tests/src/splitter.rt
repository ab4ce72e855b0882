//! Which pieces a script is cut into.
use sasi_cql::Splitter;
use sasi_types::PieceEnd;
use std::alloc::Global;
use std::process::Abort;

/// The most bytes that a piece has.
const LIMIT: usize = 1 << 20;

/// The line on a piece: its text, or why it has none.
fn line(end: PieceEnd, text: &[u8]) -> &[u8] {
    match end {
        PieceEnd::Whole => text,
        PieceEnd::TooLong { finished: true } => b"too long",
        PieceEnd::TooLong { finished: false } => b"too long at the end",
        PieceEnd::Unfinished => b"unfinished",
    }
}

/// Adds the line on the piece that ended.
fn add(rt: &impl Abort, lines: &mut Vec<u8>, end: PieceEnd, text: &[u8]) {
    lines
        .extend_from_slice(line(end, text))
        .expect(rt, "memory is left");
    lines.push(b'|').expect(rt, "memory is left");
}

/// Pushes a byte. Returns the end of the piece, if the byte ends one.
fn pushed(rt: &impl Abort, splitter: &mut Splitter, byte: u8) -> Option<PieceEnd> {
    splitter.push(byte).expect(rt, "memory is left")
}

/// Pushes a byte, and adds the line on the piece that it ends.
fn push(rt: &impl Abort, splitter: &mut Splitter, lines: &mut Vec<u8>, byte: u8) {
    if let Some(end) = pushed(rt, splitter, byte) {
        add(rt, lines, end, splitter.piece());
    }
}

/// Adds the line on the piece that the end of the script ends.
fn end(rt: &impl Abort, splitter: &mut Splitter, lines: &mut Vec<u8>) {
    if let Some(end) = splitter.end() {
        add(rt, lines, end, splitter.piece());
    }
}

/// `front`, then the letter a so many times, then `back`.
fn script(rt: &impl Abort, alloc: Global, front: &[u8], count: usize, back: &[u8]) -> Vec<u8> {
    let mut script = front.to_vec(alloc).expect(rt, "memory is left");
    script
        .resize(front.len().saturating_add(count), b'a')
        .expect(rt, "memory is left");
    script.extend_from_slice(back).expect(rt, "memory is left");
    script
}

/// The lines on the pieces of a script.
fn cut(rt: &impl Abort, alloc: Global, script: &[u8]) -> Vec<u8> {
    let mut splitter = Splitter::new(alloc);
    let mut lines = Vec::new(alloc);
    for byte in script {
        push(rt, &mut splitter, &mut lines, *byte);
    }
    end(rt, &mut splitter, &mut lines);
    lines
}

/// A script is cut into pieces with these lines.
fn check(rt: &impl Abort, alloc: Global, script: &[u8], want: &[u8]) {
    let lines = cut(rt, alloc, script);
    assert!(rt; lines.as_slice() == want, "{want:?}");
}

// Scripts, in which `\n` stands for the end of a line, and behind `=>` the lines on their pieces.
const CASES: &str = "=>
 \t\r\\n=>
a;b;=>a;|b;|
  a ; b=>a ;|unfinished|
;;=>;|;|
'a;''b';c;=>'a;''b';|c;|
\"a;\"\"b\";=>\"a;\"\"b\";|
'\";';\"';\";=>'\";';|\"';\";|
a 'b;=>unfinished|
-- a;\\nb;=>b;|
// a;\\nb;=>b;|
/* a; */b;=>b;|
a -- b;\\nc;d;=>a -- b;\\nc;|d;|
a /* ; **/ b;=>a /* ; **/ b;|
a /*/ ; */;=>a /*/ ; */;|
-a;/b;=>-a;|/b;|
- -;/ /;=>- -;|/ /;|
-- a=>
-=>unfinished|
/* a;=>unfinished|
/*/;=>unfinished|
-- 'a\\n;'=>;|unfinished|";

fn check_case(rt: &impl Abort, alloc: Global, case: &str) {
    let case = case
        .replace(alloc, "\\n", "\n")
        .expect(rt, "memory is left");
    let (script, want) = case.split_once("=>").expect(rt, "a script and lines");
    check(rt, alloc, script.as_bytes(), want.as_bytes());
}

#[test]
fn scripts_are_cut_at_their_semicolons(rt: HostRuntime) {
    for case in CASES.split('\n') {
        check_case(&rt, rt.alloc(), case);
    }
}

#[test]
fn pieces_past_the_limit_are_too_long(rt: HostRuntime) {
    let table: [(&[u8], usize, &[u8], &[u8]); 6] = [
        (b"a", LIMIT - 1, b";b;", b"too long|b;|"),
        (b"", LIMIT, b"", b"unfinished|"),
        (b"a", LIMIT, b"", b"too long at the end|"),
        (b"/*", LIMIT - 2, b"", b"unfinished|"),
        (b"/*", LIMIT - 1, b"", b"too long at the end|"),
        (b"/*", LIMIT, b"*/b;", b"b;|"),
    ];
    for (front, count, back, want) in table {
        let script = script(&rt, rt.alloc(), front, count, back);
        check(&rt, rt.alloc(), &script, want);
    }
}

#[test]
fn piece_of_the_limit_is_whole(rt: HostRuntime) {
    let script = script(&rt, rt.alloc(), b"", LIMIT - 1, b";");
    let whole = cut(&rt, rt.alloc(), &script);
    assert!(rt; whole.len() == LIMIT + 1);
}
