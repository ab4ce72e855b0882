//! Which terms a relation asks for.
use sasi_terms::{LikeEmpty, Op, Pattern, bigint_term, holds, int_term};
use std::process::Abort;

/// The word for an operator.
fn word(op: &Op) -> &'static str {
    match op {
        Op::Eq => "eq",
        Op::Prefix => "prefix",
        Op::Suffix => "suffix",
        Op::Contains => "contains",
        Op::Range { .. } => "range",
    }
}

/// Whether the text is read as this operator and body, or as empty.
fn is_read_as(text: &str, op: &str, body: &str) -> bool {
    match Pattern::read(text) {
        Ok(pattern) => word(&pattern.op) == op && pattern.body == body,
        Err(LikeEmpty) => op == "empty",
    }
}

// Texts of a LIKE, each with its operator and its body.
const PATTERNS: &str = "abc=>eq abc
abc%=>prefix abc
%abc=>suffix abc
%abc%=>contains abc
a%b=>eq a%b
%a%b%=>contains a%b
%%a=>suffix %a
a%%=>prefix a%
%%%=>contains %
é%=>prefix é
=>empty 
%=>empty 
%%=>empty ";

fn check_pattern(rt: &impl Abort, case: &str) {
    let (text, want) = case.split_once("=>").expect(rt, "a text and its pattern");
    let (op, body) = want.split_once(' ').expect(rt, "an operator and a body");
    assert!(rt; is_read_as(text, op, body), "{case}");
}

#[test]
fn percent_at_an_end_is_a_wildcard(rt: HostRuntime) {
    for case in PATTERNS.split('\n') {
        check_pattern(&rt, case);
    }
}

/// What the four operators that compare with a body say of a term, in the order of `Op`.
fn answers(term: &[u8], body: &[u8]) -> [bool; 4] {
    [
        holds(&Op::Eq, term, body),
        holds(&Op::Prefix, term, body),
        holds(&Op::Suffix, term, body),
        holds(&Op::Contains, term, body),
    ]
}

// Terms and bodies, and whether the term is the body, begins with it, ends with it and has it in it.
const BODIES: [(&[u8], &[u8], [bool; 4]); 7] = [
    (b"banana", b"banana", [true, true, true, true]),
    (b"banana", b"ban", [false, true, false, true]),
    (b"banana", b"na", [false, false, true, true]),
    (b"banana", b"nan", [false, false, false, true]),
    (b"banana", b"Ban", [false, false, false, false]),
    (b"ban", b"banana", [false, false, false, false]),
    (b"", b"", [true, true, true, true]),
];

#[test]
fn terms_are_compared_with_a_body(rt: HostRuntime) {
    for (term, body, want) in BODIES {
        assert!(rt; answers(term, body) == want, "{term:?} {body:?}");
    }
}

// Bounds, the term of a number and whether it is between them. The terms are of 5, -1, -2^31, 5 and 2^63 - 1, and of no number.
const RANGES: [(i64, i64, &[u8], bool); 10] = [
    (5, 5, b"\x80\0\0\x05", true),
    (6, 9, b"\x80\0\0\x05", false),
    (-9, 4, b"\x80\0\0\x05", false),
    (-1, 0, b"\x7f\xff\xff\xff", true),
    (i64::MIN, -2_147_483_648, b"\0\0\0\0", true),
    (5, 5, b"\x80\0\0\0\0\0\0\x05", true),
    (
        i64::MAX,
        i64::MAX,
        b"\xff\xff\xff\xff\xff\xff\xff\xff",
        true,
    ),
    (i64::MIN, i64::MIN, b"\0\0\0\0\0\0\0\0", true),
    (9, 1, b"\x80\0\0\x05", false),
    (i64::MIN, i64::MAX, b"\x80\0\0\0\x05", false),
];

#[test]
fn numbers_are_compared_with_bounds(rt: HostRuntime) {
    for (least, greatest, term, want) in RANGES {
        let op = Op::Range { least, greatest };
        assert!(rt;
            holds(&op, term, b"") == want,
            "{least} {greatest} {term:?}"
        );
    }
}

// Ints, and their terms in order.
const INTS: [(i32, [u8; 4]); 6] = [
    (i32::MIN, [0, 0, 0, 0]),
    (-2, [0x7f, 0xff, 0xff, 0xfe]),
    (-1, [0x7f, 0xff, 0xff, 0xff]),
    (0, [0x80, 0, 0, 0]),
    (258, [0x80, 0, 1, 2]),
    (i32::MAX, [0xff, 0xff, 0xff, 0xff]),
];

// Bigints, and their terms in order.
const BIGINTS: [(i64, [u8; 8]); 6] = [
    (i64::MIN, [0, 0, 0, 0, 0, 0, 0, 0]),
    (-2, [0x7f, 0xff, 0xff, 0xff, 0xff, 0xff, 0xff, 0xfe]),
    (-1, [0x7f, 0xff, 0xff, 0xff, 0xff, 0xff, 0xff, 0xff]),
    (0, [0x80, 0, 0, 0, 0, 0, 0, 0]),
    (258, [0x80, 0, 0, 0, 0, 0, 1, 2]),
    (i64::MAX, [0xff, 0xff, 0xff, 0xff, 0xff, 0xff, 0xff, 0xff]),
];

#[test]
fn numbers_have_their_terms(rt: HostRuntime) {
    for (number, want) in INTS {
        assert!(rt; int_term(number) == want, "{number}");
    }
    for (number, want) in BIGINTS {
        assert!(rt; bigint_term(number) == want, "{number}");
    }
}
