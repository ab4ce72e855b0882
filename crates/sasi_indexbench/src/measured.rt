// Writes an index file of bigints, and searches it for terms, prefixes, ranges and infixes.
ghost use Rattle.std.specs.Prelude.{OnOk};
ghost use Rattle.sasi_indexwrite.specs.TermsSoFar.{AreSortedPostings, AreUpTo};

use crate::filled::{add, lowest};
use sasi_bench::CountingReader;
use sasi_filehost::FileHost;
use sasi_host::{FileName, Kind, ReadFault};
use sasi_indexread::IndexFile;
use sasi_indexwrite::write_index;
use sasi_segments::{Gather, Posting};
use sasi_terms::Op;
use sasi_types::{ColumnType, IndexDef, Mode, Name, Pair};
use std::alloc::Global;

/// The index file that is measured.
pub const FILE: FileName = FileName {
    kind: Kind::Index,
    number: 1,
    index: 1,
    part: 1,
};

// The term with this number: its eight decimal digits, which are the bytes of a bigint's term.
fn term_of(number: u64) -> [u8; 8] {
    let mut term = [b'0'; 8];
    let mut left = number;
    for at in 1..=8 {
        term[8 - at] = b'0' + (left % 10) as u8;
        left /= 10;
    }
    term
}

// Adds so many pairs of the term with this number. Their tokens rise, and are those of no other term.
fn fill_term(
    alloc: Global,
    gather: &mut Gather,
    last: &mut Posting,
    number: u64,
    pairs: u64,
) -> Result<(), ReadFault>
    requires { AreUpTo gather.old.postings last.old }
    ensures { OnOk result (AreUpTo gather.new.postings last.new) }
{
    let term = term_of(number);
    let spread = number.wrapping_mul(0x9e37_79b9_7f4a_7c15) >> 20;
    for turn in 0..pairs {
        let token = turn.wrapping_mul(1 << 44).wrapping_add(spread);
        let place = number.wrapping_add(16);
        add(alloc, gather, last, &term, Pair { token, place })?;
    }
    Ok(())
}

// Adds so many terms, each with so many pairs.
fn fill(
    alloc: Global,
    gather: &mut Gather,
    last: &mut Posting,
    terms: u64,
    pairs: u64,
) -> Result<(), ReadFault>
    requires { AreUpTo gather.old.postings last.old }
    ensures { OnOk result (AreUpTo gather.new.postings last.new) }
{
    for number in 0..terms {
        fill_term(alloc, gather, last, number, pairs)?;
    }
    Ok(())
}

fn write(alloc: Global, host: &mut FileHost, gather: Gather) -> Result<(), ReadFault>
    requires { AreSortedPostings gather.postings }
{
    let name = Name::new(b"i".to_vec(alloc)?);
    let def = IndexDef {
        number: 1,
        table: 1,
        name,
        column: 1,
        kind: ColumnType::BigInt,
        mode: Mode::Prefix,
        rule: None,
    };
    write_index(alloc, host, FILE, &def, gather)
}

/// Writes a file of so many terms, each with so many pairs.
pub fn write_all(
    alloc: Global,
    host: &mut FileHost,
    terms: u64,
    pairs: u64,
) -> Result<(), ReadFault> {
    let mut last = lowest(alloc);
    let mut gather = Gather::new(alloc, 1, 1);
    fill(alloc, &mut gather, &mut last, terms, pairs)?;
    write(alloc, host, gather)
}

// How many pairs a search gives.
fn search(
    alloc: Global,
    host: &mut FileHost,
    pages: &mut CountingReader,
    opened: &IndexFile,
    op: Op,
    body: &[u8],
) -> Result<u64, ReadFault> {
    let mut found = opened.search(alloc, &op, body)?;
    let mut count = 0u64;
    for _turn in 0..u64::MAX {
        if found.next(host, pages)?.is_none() {
            break;
        }
        count = count.saturating_add(1);
    }
    Ok(count)
}

// The bigint with this term.
fn bigint_of(term: [u8; 8]) -> i64 {
    (u64::from_be_bytes(term) ^ (1 << 63)).cast_signed()
}

// The range of ten terms from the one with this number on.
fn ten_from(number: u64) -> Op {
    Op::Range {
        least: bigint_of(term_of(number)),
        greatest: bigint_of(term_of(number.saturating_add(9))),
    }
}

/// What a round of searches asks for.
#[derive(Clone, Copy)]
pub enum Round {
    /// So many terms, spread over all.
    Terms { asked: u64 },
    /// So many prefixes of seven digits, which ten terms have.
    Prefixes { asked: u64 },
    /// So many ranges, each of the ten terms with the same first seven digits.
    Ranges { asked: u64 },
    /// So many infixes of four digits.
    Infixes { asked: u64 },
}

impl Round {
    fn asked(self) -> u64 {
        match self {
            Round::Terms { asked } => asked,
            Round::Prefixes { asked } => asked,
            Round::Ranges { asked } => asked,
            Round::Infixes { asked } => asked,
        }
    }

    // What is asked of the term with this number.
    fn op(self, number: u64) -> Op {
        match self {
            Round::Terms { .. } => Op::Eq,
            Round::Prefixes { .. } => Op::Prefix,
            Round::Ranges { .. } => ten_from(number - number % 10),
            Round::Infixes { .. } => Op::Contains,
        }
    }
}

// The part of a term that the search with this number looks for.
fn part(round: Round, term: &[u8; 8]) -> &[u8] {
    match round {
        Round::Terms { .. } => term,
        Round::Prefixes { .. } => &term[..7],
        Round::Ranges { .. } => &[],
        Round::Infixes { .. } => &term[4..],
    }
}

/// How many pairs the searches of a round give, in a file of so many terms.
pub fn search_all(
    alloc: Global,
    host: &mut FileHost,
    pages: &mut CountingReader,
    opened: &IndexFile,
    terms: u64,
    round: Round,
) -> Result<u64, ReadFault> {
    let mut given = 0u64;
    for turn in 0..round.asked() {
        let number = turn.wrapping_mul(7919).checked_rem(terms).unwrap_or(0);
        let term = term_of(number);
        let found = search(
            alloc,
            host,
            pages,
            opened,
            round.op(number),
            part(round, &term),
        )?;
        given = given.saturating_add(found);
    }
    Ok(given)
}
