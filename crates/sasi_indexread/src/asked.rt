// Which terms of an index are asked for, and where they begin.
ghost use Rattle.std.specs.Prelude.{◌≡◌, not};
ghost use Rattle.sasi_termblocks.specs.Entries.{is_below};
ghost use Rattle.sasi_indexread.specs.Asked.{asks_none, is_from_to, is_match, is_run, lower, nearest_term};
ghost use Rattle.sasi_indexread.specs.BoundTerms.{bytes_of};

use crate::bound_term::{BoundTerm, has_number};
use sasi_terms::{Op, holds};
use sasi_types::ColumnType;

/// Whether no term is asked for: the column has no number in the range.
pub fn asks_none(kind: ColumnType, op: &Op) -> bool
    ensures { result ≡ asks_none kind op.now }
{
    match op {
        Op::Range { least, greatest } => !has_number(kind, *least, *greatest),
        _ => false,
    }
}

// Whether the first term isn't above the second.
fn is_up_to(first: &[u8], second: &[u8]) -> bool
    ensures { result ≡ not (is_below second.now first.now) }
{
    first <= second
}

// Whether the term is from that of the least number to that of the greatest.
fn is_in_range(kind: ColumnType, least: i64, greatest: i64, term: &[u8]) -> bool
    ensures { result ≡ is_from_to (nearest_term kind least) (nearest_term kind greatest) term.now }
{
    let least = BoundTerm::nearest(kind, least);
    let greatest = BoundTerm::nearest(kind, greatest);
    is_up_to(least.bytes(), term) && is_up_to(term, greatest.bytes())
}

/// Whether a term is asked for, of an index with this type of its column.
pub fn is_match(kind: ColumnType, op: &Op, body: &[u8], term: &[u8]) -> bool
    ensures { result ≡ is_match kind op.now body.now term.now }
{
    match op {
        Op::Range { least, greatest } => is_in_range(kind, *least, *greatest, term),
        _ => holds(op, term, body),
    }
}

/// No term below this one is asked for.
pub fn lower<'a>(kind: ColumnType, op: &Op, body: &'a [u8]) -> BoundTerm<'a>
    ensures { bytes_of result ≡ lower kind op.now body.now }
{
    match op {
        Op::Eq => BoundTerm::Body(body),
        Op::Prefix => BoundTerm::Body(body),
        Op::Suffix => BoundTerm::Body(&[]),
        Op::Contains => BoundTerm::Body(&[]),
        Op::Range { least, .. } => BoundTerm::nearest(kind, *least),
    }
}

/// Whether the terms that are asked for follow one another from there on.
pub fn is_run(op: &Op) -> bool
    ensures { result ≡ is_run op.now }
{
    match op {
        Op::Eq => true,
        Op::Prefix => true,
        Op::Suffix => false,
        Op::Contains => false,
        Op::Range { .. } => true,
    }
}
