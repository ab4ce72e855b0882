// Postings, and how many bytes they take.
ghost use Rattle.std.specs.Prelude.{◌≡◌, IfOk};
ghost use Rattle.sasi_segments.specs.Postings.{posting_of};

use sasi_types::{ListKind, Pair, Term};
use std::alloc::{AllocError, Global};

/// A posting of an index: a term that is stored, or the spill, and the pair of a partition that has it. Postings are in the order
/// of their fields: stored ones first, then by the bytes of terms, by token and by offset.
#[derive(Debug, PartialEq, Eq, PartialOrd, Ord, Drop)]
pub struct Posting {
    pub list: ListKind,
    /// Empty in the spill.
    pub term: Term,
    pub pair: Pair,
}

/// The posting of a copy of the term.
pub fn posting_of(
    alloc: Global,
    term: &[u8],
    list: ListKind,
    pair: Pair,
) -> Result<Posting, AllocError>
    ensures { IfOk result (λ posting. posting ≡ posting_of term.now list pair) }
{
    let term = Term::new(term.to_vec(alloc)?);
    Ok(Posting { list, term, pair })
}
