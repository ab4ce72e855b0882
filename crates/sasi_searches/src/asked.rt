// What a search asks for.
use sasi_terms::Op;
use std::alloc::Global;

/// An operator and a body.
#[derive(Drop)]
pub struct Asked {
    pub op: Op,
    pub body: Vec<u8>,
}

// Two numbers.
fn range(words: &str) -> Option<Op> {
    let (least, greatest) = words.split_once(' ')?;
    let (Ok(least), Ok(greatest)) = (least.parse::<i64>(), greatest.parse::<i64>()) else {
        return None;
    };
    Some(Op::Range { least, greatest })
}

fn op(word: &str, rest: &str) -> Option<Op> {
    match word {
        "equal" => Some(Op::Eq),
        "prefix" => Some(Op::Prefix),
        "suffix" => Some(Op::Suffix),
        "contains" => Some(Op::Contains),
        "range" => range(rest),
        _ => None,
    }
}

// The bytes of a body; a range has none.
fn body(alloc: Global, word: &str, rest: &str) -> Option<Vec<u8>> {
    let digits = if word == "range" { "" } else { rest };
    hex::decode(alloc, digits).ok()
}

impl Asked {
    /// A word, and bytes in hexadecimal or two numbers.
    pub fn parse(alloc: Global, line: &str) -> Option<Asked> {
        let (word, rest) = line.split_once(' ').unwrap_or((line, ""));
        let op = op(word, rest)?;
        let body = body(alloc, word, rest)?;
        Some(Asked { op, body })
    }
}
