// Gatherings that are filled in their order, and the files that are written from them.
ghost use Rattle.std.specs.Prelude.{◌≡◌, ◌≢◌, true, []};
ghost use Rattle.std.specs.Ordering.{is_lt};
ghost use Rattle.sasi_types.specs.declared.column.ColumnType.TheVariants.{Uuid};
ghost use Rattle.sasi_segments.specs.Postings.{posting_cmp};
ghost use Rattle.sasi_segments.specs.Sorting.{inserted};
ghost use Rattle.sasi_indexwrite.specs.TermsSoFar.{AreSortedPostings, AreUpTo, IsPosting};

use sasi_host::{FileName, Kind, MemHost};
use sasi_indexwrite::write_index;
use sasi_segments::{Gather, Posting};
use sasi_types::{ColumnType, IndexDef, ListKind, Mode, Name, Pair, Rule, Term, Token};
use std::alloc::Global;
use std::process::Abort;

/// The file that is written.
pub const FILE: FileName = FileName {
    kind: Kind::Index,
    number: 1,
    index: 1,
    part: 1,
};

/// A posting below those that are added.
pub fn lowest(alloc: Global) -> Posting
    ensures { AreUpTo [] result }
{
    Posting {
        list: ListKind::Stored,
        term: Term::new(Vec::new(alloc)),
        pair: Pair { token: 0, place: 0 },
    }
}

/// The next posting is above the last one, and can be gathered.
fn check(rt: &impl Abort, last: &Posting, next: &Posting)
    ensures above { is_lt (posting_cmp last.now next.now) ≡ true }
    ensures one { IsPosting next.now }
{
    assert!(rt; last < next);
    assert!(rt; next.term.bytes().len() <= 1024);
    assert!(rt; next.list == ListKind::Stored || next.term.bytes().is_empty());
}

/// Adds a posting.
fn gather_posting(rt: &impl Abort, gather: &mut Gather, next: &Posting)
    requires { IsPosting next.now }
    ensures { gather.new.postings ≡ inserted posting_cmp next.now gather.old.postings }
{
    gather
        .add(next.term.bytes(), next.list, next.pair)
        .expect(rt, "memory");
}

/// Adds a posting above the last one.
pub fn add(
    rt: &impl Abort,
    alloc: Global,
    gather: &mut Gather,
    last: &mut Posting,
    list: ListKind,
    term: &[u8],
    pair: Pair,
)
    requires { AreUpTo gather.old.postings last.old }
    ensures { AreUpTo gather.new.postings last.new }
{
    let term = Term::new(term.to_vec(alloc).expect(rt, "memory"));
    let next = Posting { list, term, pair };
    check(rt, last, &next);
    gather_posting(rt, gather, &next);
    *last = next;
}

/// The definition of an index of this mode, of a column of this type.
fn definition(rt: &impl Abort, alloc: Global, mode: Mode, kind: ColumnType) -> IndexDef
    ensures kind { result.kind ≡ kind }
{
    IndexDef {
        number: 1,
        table: 1,
        name: Name::new(b"i".to_vec(alloc).expect(rt, "memory")),
        column: 1,
        kind,
        mode,
        rule: Some(Rule::Whole { fold: false }),
    }
}

/// Writes the file of a gathering to a new folder.
pub fn write(
    rt: &impl Abort,
    alloc: Global,
    mode: Mode,
    kind: ColumnType,
    gather: Gather,
) -> MemHost
    requires gathered { AreSortedPostings gather.postings }
    requires terms { kind ≢ Uuid }
{
    let mut host = MemHost::new(alloc);
    assert!(rt; host.bytes(FILE).is_none());
    let def = definition(rt, alloc, mode, kind);
    write_index(alloc, &mut host, FILE, &def, gather).expect(rt, "written");
    host
}

/// Adds a pair with this token.
pub fn put(
    rt: &impl Abort,
    alloc: Global,
    gather: &mut Gather,
    last: &mut Posting,
    list: ListKind,
    term: &[u8],
    token: Token,
)
    requires { AreUpTo gather.old.postings last.old }
    ensures { AreUpTo gather.new.postings last.new }
{
    let place = token.wrapping_add(16);
    add(rt, alloc, gather, last, list, term, Pair { token, place });
}

/// A pair of a term: its list, the term, and its token.
pub type Row<'a> = (ListKind, &'a [u8], Token);

/// Adds the pairs.
fn add_rows(
    rt: &impl Abort,
    alloc: Global,
    gather: &mut Gather,
    last: &mut Posting,
    rows: &[Row<'_>],
)
    requires { AreUpTo gather.old.postings last.old }
    ensures { AreUpTo gather.new.postings last.new }
{
    for (list, term, token) in rows {
        put(rt, alloc, gather, last, *list, term, *token);
    }
}

/// A file of these pairs, which are in their order.
pub fn file_of(
    rt: &impl Abort,
    alloc: Global,
    mode: Mode,
    kind: ColumnType,
    rows: &[Row<'_>],
) -> MemHost
    requires { kind ≢ Uuid }
{
    let mut last = lowest(alloc);
    let mut gather = Gather::new(alloc, 1, 1);
    add_rows(rt, alloc, &mut gather, &mut last, rows);
    write(rt, alloc, mode, kind, gather)
}
