// The postings whose term is as an operator asks.
ghost use Rattle.std.specs.Prelude.{◌≡◌, ◌∷◌, [], IfOk, IfSome};
ghost use Rattle.std.specs.List.{list_any};
ghost use Rattle.std.specs.List.Sorted.{IsStrictlySortedBy};
ghost use Rattle.std.specs.BTreeSet.{IsFromIterResult};
ghost use Rattle.std.specs.Option.{option_copied};
ghost use Rattle.std.specs.Ordering.{eq_by_cmp};
ghost use Rattle.sasi_types.specs.declared.decorated_key.DecoratedKey.{DecoratedKey as Seen};
ghost use Rattle.sasi_types.specs.DecoratedKey.{decorated_cmp};
ghost use Rattle.sasi_terms.specs.Holds.{holds};
ghost use Rattle.sasi_memindex.specs.Hits.{keys_of_hits};
ghost use Rattle.sasi_memindex.specs.Kept.{AreOf, set_of};
ghost use Rattle.sasi_memindex.specs.Postings.{posting};
ghost use Rattle.sasi_memindex.specs.Runs.{IsFirst, RiseForEq};

use crate::first_term::first_term;
use crate::posting::{Posting, copy_key};
use sasi_terms::{Op, holds};
use sasi_types::{ColumnType, DecoratedKey, Key, Term};
use std::alloc::{AllocError, Global};
use std::collections::BTreeSet;

/// The keys of the postings whose term is as the operator asks, in the order of the postings.
pub fn hits(
    alloc: Global,
    kind: ColumnType,
    postings: &BTreeSet<Posting>,
    op: &Op,
    body: &[u8],
) -> Result<Vec<DecoratedKey>, AllocError>
    requires { AreOf kind (set_of postings.now) }
    ensures keys { IfOk result (λ keys. keys.items ≡ keys_of_hits op.now body.now postings.now.keys) }
    ensures rise { IfOk result (λ keys. RiseForEq op.now keys.items) }
{
    match first_term(alloc, kind, op, body)? {
        Some(term) => {
            let first = first_of(alloc, term)?;
            hits_from(alloc, postings, first, op, body)
        }
        None => hits_in_all(alloc, postings, op, body),
    }
}

// The least posting of a term: no token is below 0, and no key below one byte of 0.
fn first_of(alloc: Global, term: Term) -> Result<Posting, AllocError>
    ensures { IfOk result (λ first. first ≡ posting term (record { token = 0; key = 0 ∷ [] })) }
{
    match Key::new(alloc, &[0]) {
        Ok(key) => Ok(Posting {
            term,
            key: DecoratedKey { token: 0, key },
        }),
        Err(_) => Err(AllocError),
    }
}

// The same, where those postings follow one another from the first one on.
fn hits_from(
    alloc: Global,
    postings: &BTreeSet<Posting>,
    first: Posting,
    op: &Op,
    body: &[u8],
) -> Result<Vec<DecoratedKey>, AllocError>
    requires { IsFirst op.now body.now first postings.now }
    ensures keys { IfOk result (λ keys. keys.items ≡ keys_of_hits op.now body.now postings.now.keys) }
    ensures rise { IfOk result (λ keys. RiseForEq op.now keys.items) }
{
    let mut keys = Vec::new(alloc);
    'hits: for posting in postings.range(first..) {
        if !holds(op, posting.term.bytes(), body) {
            return Ok(keys);
        }
        keys.push(copy_key(alloc, &posting.key)?)?;
    }
    Ok(keys)
}

// The same, with each posting looked at. Those of one term stand side by side, so each term is tested once.
fn hits_in_all(
    alloc: Global,
    postings: &BTreeSet<Posting>,
    op: &Op,
    body: &[u8],
) -> Result<Vec<DecoratedKey>, AllocError>
    ensures keys { IfOk result (λ keys. keys.items ≡ keys_of_hits op.now body.now postings.now.keys) }
    ensures rise { IfOk result (λ keys. RiseForEq op.now keys.items) }
{
    let mut keys = Vec::new(alloc);
    // The term that was tested last, and whether it is as the operator asks.
    let mut tested = None;
    let mut is_hit = false;
    'hits: for posting in postings {
        is_hit = is_asked(op, body, &posting.term, tested, is_hit);
        tested = Some(&posting.term);
        if is_hit {
            keys.push(copy_key(alloc, &posting.key)?)?;
        }
    }
    Ok(keys)
}

// Whether the term is as the operator asks. That is known where it is the one that was tested last.
fn is_asked(op: &Op, body: &[u8], term: &Term, tested: Option<&Term>, known: bool) -> bool
    requires { IfSome (option_copied tested) (λ tested. known ≡ holds op.now tested body.now) }
    ensures { result ≡ holds op.now term.now body.now }
{
    if tested == Some(term) {
        return known;
    }
    holds(op, term.bytes(), body)
}

/// The keys of hits in their order, and each once. Where all hits have one term they are so already.
pub fn in_order(
    alloc: Global,
    op: &Op,
    keys: Vec<DecoratedKey>,
) -> Result<Vec<DecoratedKey>, AllocError>
    requires { RiseForEq op.now keys.items }
    ensures rises { IfOk result (λ sorted. IsStrictlySortedBy decorated_cmp sorted.items) }
    ensures keys { IfOk result (λ sorted. (q : Seen) → list_any (eq_by_cmp decorated_cmp q) sorted.items ≡ list_any (eq_by_cmp decorated_cmp q) keys.items) }
{
    match op {
        Op::Eq => Ok(keys),
        Op::Prefix | Op::Suffix | Op::Contains | Op::Range { .. } => sorted(alloc, keys),
    }
}

// Keys in their order, and each once.
fn sorted(alloc: Global, keys: Vec<DecoratedKey>) -> Result<Vec<DecoratedKey>, AllocError>
    ensures rises { IfOk result (λ sorted. IsStrictlySortedBy decorated_cmp sorted.items) }
    ensures keys { IfOk result (λ sorted. (q : Seen) → list_any (eq_by_cmp decorated_cmp q) sorted.items ≡ list_any (eq_by_cmp decorated_cmp q) keys.items) }
{
    let sorted = set_of_keys(alloc, keys)?;
    sorted.into_iter().collect(alloc)
}

// The set of some keys.
fn set_of_keys(alloc: Global, keys: Vec<DecoratedKey>) -> Result<BTreeSet<DecoratedKey>, AllocError>
    ensures { IfOk result (IsFromIterResult decorated_cmp keys.items) }
{
    keys.into_iter().collect(alloc)
}
