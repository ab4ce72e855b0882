// Postings whose terms stand one after another in one list of bytes.
ghost use Rattle.std.specs.Prelude.{◌≡◌, ◌≤◌, ◌++◌, ℕ, get_or, length, map, take, IfOk, OnErr, OnOk};
ghost use Rattle.sasi_segments.specs.Gathering.{gathered, posting_at, term_at};
ghost use Rattle.sasi_segments.specs.Prefixes.{BeginsAs, ShareFirst, gathered_cmp, prefix_in, prefix_of, with_prefix};

use crate::Posting;
use crate::posting::posting_of;
use sasi_types::{ListKind, Pair};
use std::alloc::{AllocError, Global};
use std::cmp::Ordering;

/// A posting of a gathering, without its term: it says where that stands among the bytes of the gathering's terms.
#[derive(Clone, Copy)]
pub struct GatheredPosting {
    pub pair: Pair,
    // Eight bytes of its term, set by a sort.
    pub prefix: u64,
    pub start: u32,
    // At most 1,024.
    pub length: u16,
    pub list: ListKind,
}

// The bytes of its term.
fn term_at<'a>(terms: &'a [u8], posting: &GatheredPosting) -> &'a [u8]
    ensures { result.now ≡ term_at terms.now posting.now }
{
    let rest = terms.get(posting.start as usize..).unwrap_or(&[]);
    rest.get(..usize::from(posting.length)).unwrap_or(rest)
}

/// Keeps a term behind the others, and gives its posting. Out of memory leaves the terms unchanged; so does a term behind 4 GiB of
/// others, which is more than a memtable has.
pub fn keep_term(
    terms: &mut Vec<u8>,
    term: &[u8],
    list: ListKind,
    pair: Pair,
) -> Result<GatheredPosting, AllocError>
    requires short { length term.now ≤ 1024 }
    ensures kept { IfOk result (λ posting. posting ≡ gathered (length terms.old.items) (length term.now) list pair) }
    ensures terms { OnOk result (terms.new.items ≡ terms.old.items ++ term.now) }
    ensures err { OnErr result (terms.new.items ≡ terms.old.items) }
{
    let start = u32::try_from(terms.len()).map_err(|_| AllocError)?;
    terms.extend_from_slice(term)?;
    Ok(GatheredPosting {
        pair,
        prefix: 0,
        start,
        length: term.len() as u16,
        list,
    })
}

/// The posting with a copy of its term.
pub fn posting_at(
    alloc: Global,
    terms: &[u8],
    posting: &GatheredPosting,
) -> Result<Posting, AllocError>
    ensures { IfOk result (λ made. made ≡ posting_at terms.now posting.now) }
{
    posting_of(alloc, term_at(terms, posting), posting.list, posting.pair)
}

// The byte at an index, and a zero where there is none.
fn byte_or_zero(bytes: &[u8], index: usize) -> u8
    ensures { result ≡ get_or bytes.now index 0 }
{
    *bytes.get(index).unwrap_or(&0)
}

// The first eight bytes as a number, with zeros for those that aren't there.
fn prefix_of(bytes: &[u8]) -> u64
    ensures { result ≡ prefix_of bytes.now }
{
    let mut prefix = 0;
    for i in 0..8 {
        prefix = prefix * 256 + u64::from(byte_or_zero(bytes, i));
    }
    prefix
}

// How many of their first bytes two slices have in common.
fn common_length(a: &[u8], b: &[u8]) -> usize
    ensures within { result ≤ length a.now }
    ensures same { take result a.now ≡ take result b.now }
{
    let mut n = 0;
    while n < a.len() && n < b.len() && a[n] == b[n] {
        n += 1;
    }
    n
}

// How many of these first bytes a posting's term begins with; all of them, if it isn't stored.
fn shared_with(front: &[u8], shared: usize, terms: &[u8], posting: &GatheredPosting) -> usize
    requires { shared ≤ length front.now }
    ensures fewer { result ≤ shared }
    ensures begins { BeginsAs result front.now posting.now.list (term_at terms.now posting.now) }
{
    match posting.list {
        ListKind::Stored => common_length(&front[..shared], term_at(terms, posting)),
        ListKind::Spill => shared,
    }
}

// How many of their first bytes all stored terms have in common, or fewer.
fn shared_length(terms: &[u8], postings: &[GatheredPosting]) -> usize
    ensures { ShareFirst terms.now postings.now result }
{
    let Some(first) = postings.first() else {
        return 0;
    };
    let front = term_at(terms, first);
    let mut shared = front.len();
    for posting in postings {
        shared = shared_with(front, shared, terms, posting);
    }
    shared
}

// The number by which a posting is compared first, where the terms share so many bytes.
fn prefix_in(terms: &[u8], posting: &GatheredPosting, shared: usize) -> u64
    ensures { result ≡ prefix_in shared posting.now.list (term_at terms.now posting.now) }
{
    match posting.list {
        ListKind::Stored => prefix_of(term_at(terms, posting).get(shared..).unwrap_or(&[])),
        ListKind::Spill => 0,
    }
}

/// Sets the number by which each posting is compared first: eight bytes of its term, behind those that all stored terms share.
pub fn set_prefixes(terms: &[u8], postings: &mut [GatheredPosting])
    ensures set { (shared : ℕ) × ShareFirst terms.now postings.old shared × (postings.new ≡ map (with_prefix shared terms.now) postings.old) }
{
    let shared = shared_length(terms, postings);
    for posting in postings.iter_mut() {
        posting.prefix = prefix_in(terms, posting, shared);
    }
}

/// Compares the postings that two of them stand for, by their numbers before their terms.
pub fn compare(terms: &[u8], a: &GatheredPosting, b: &GatheredPosting) -> Ordering
    ensures { result ≡ gathered_cmp terms.now a.now b.now }
{
    let by_list = a.list.cmp(&b.list);
    if by_list != Ordering::Equal {
        return by_list;
    }
    let by_prefix = a.prefix.cmp(&b.prefix);
    if by_prefix != Ordering::Equal {
        return by_prefix;
    }
    let by_term = term_at(terms, a).cmp(term_at(terms, b));
    if by_term != Ordering::Equal {
        return by_term;
    }
    a.pair.cmp(&b.pair)
}
