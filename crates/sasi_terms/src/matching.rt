// Whether a term is one of those that are asked for.
ghost use Rattle.std.specs.Prelude.{◌≡◌};
ghost use Rattle.sasi_terms.specs.Holds.{contains, holds, is_between};

use crate::Op;
use crate::number::number_of;
use memchr::memmem;

// Whether the body stands somewhere in the term.
fn contains(term: &[u8], body: &[u8]) -> bool
    ensures { result ≡ contains term.now body.now }
{
    memmem::find(term, body).is_some()
}

// Whether there is a number, and it is from `least` to `greatest`.
fn is_between(least: i64, greatest: i64, number: Option<i64>) -> bool
    ensures { result ≡ is_between least greatest number }
{
    match number {
        Some(number) => least <= number && number <= greatest,
        None => false,
    }
}

/// Whether the term is one of those that the operator asks for. A range doesn't look at the body, and holds for no term that isn't
/// four or eight bytes long.
pub fn holds(op: &Op, term: &[u8], body: &[u8]) -> bool
    ensures { result ≡ holds op.now term.now body.now }
{
    match op {
        Op::Eq => term == body,
        Op::Prefix => term.starts_with(body),
        Op::Suffix => term.ends_with(body),
        Op::Contains => contains(term, body),
        Op::Range { least, greatest } => is_between(*least, *greatest, number_of(term)),
    }
}
