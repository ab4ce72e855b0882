// The pattern of a LIKE.
ghost use Rattle.std.specs.Prelude.{◌≡◌};
ghost use Rattle.sasi_terms.specs.Patterns.{begins_with_percent, ends_with_percent, IsReadAs, op_of, read_pattern, without_first_percent, without_last_percent};
ghost use Rattle.sasi_terms.specs.Percents.{IsAfterPercent, IsBeforePercent};

use crate::Op;

/// A pattern whose body is empty.
#[derive(Clone, Copy, Debug, PartialEq, Eq)]
pub struct LikeEmpty;

/// What a LIKE asks of a term. It borrows the text of the pattern.
#[derive(Clone, Copy, Debug)]
pub struct Pattern<'a> {
    pub op: Op,
    pub body: &'a str,
}

// The operator of a text that has a `%` in front of its body, behind it, at both ends or at none.
fn op_of(in_front: bool, behind: bool) -> Op
    ensures { result ≡ op_of in_front behind }
{
    match (in_front, behind) {
        (false, false) => Op::Eq,
        (false, true) => Op::Prefix,
        (true, false) => Op::Suffix,
        (true, true) => Op::Contains,
    }
}

// What follows a `%` at the beginning.
fn after_percent<'a>(text: &'a str) -> Option<&'a str>
    ensures { IsAfterPercent text.now result }
{
    text.strip_prefix("%")
}

// What precedes a `%` at the end.
fn before_percent<'a>(text: &'a str) -> Option<&'a str>
    ensures { IsBeforePercent text.now result }
{
    text.strip_suffix('%')
}

// Whether the text begins with a `%`, and the text without it.
fn split_front<'a>(text: &'a str) -> (bool, &'a str)
    ensures { (result.0 ≡ begins_with_percent text.now) × (result.1.now ≡ without_first_percent text.now) }
{
    match after_percent(text) {
        Some(rest) => (true, rest),
        None => (false, text),
    }
}

// Whether the text ends with a `%`, and the text without it.
fn split_end<'a>(text: &'a str) -> (bool, &'a str)
    ensures { (result.0 ≡ ends_with_percent text.now) × (result.1.now ≡ without_last_percent text.now) }
{
    match before_percent(text) {
        Some(body) => (true, body),
        None => (false, text),
    }
}

impl<'a> Pattern<'a> {
    /// Reads the text of a LIKE: a `%` at either end is a wildcard, and what is left of the text is the body.
    pub fn read(text: &'a str) -> Result<Pattern<'a>, LikeEmpty>
        ensures { IsReadAs (read_pattern text.now) result }
    {
        let (in_front, rest) = split_front(text);
        let (behind, body) = split_end(rest);
        if body.is_empty() {
            return Err(LikeEmpty);
        }
        Ok(Pattern {
            op: op_of(in_front, behind),
            body,
        })
    }
}
