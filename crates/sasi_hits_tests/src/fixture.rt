// Files in memory, and what streams over them give.
ghost use Rattle.std.specs.Prelude.{◌≡◌, true, []};
ghost use Rattle.std.specs.Ordering.{is_lt};
ghost use Rattle.sasi_types.specs.declared.column.ColumnType.TheVariants as kinds;
ghost use Rattle.sasi_types.specs.declared.mode.Mode.TheVariants.{Prefix};
ghost use Rattle.sasi_segments.specs.Postings.{posting_cmp};
ghost use Rattle.sasi_segments.specs.Sorting.{inserted};
ghost use Rattle.sasi_indexwrite.specs.TermsSoFar.{AreSortedPostings, AreUpTo, IsPosting};
ghost use Rattle.sasi_ranges.specs.StreamCalls.{CanStream};

use sasi_host::{FileName, Host, Kind, MemHost, PageReader};
use sasi_indexwrite::write_index;
use sasi_ranges::{Entry, TokenStream};
use sasi_segments::{Gather, Posting};
use sasi_types::{ColumnType, IndexDef, ListKind, Mode, Name, Pair, Rule, Term, Token, TypeList};
use std::alloc::Global;
use std::process::Abort;

/// The index file.
pub const INDEX: FileName = FileName {
    kind: Kind::Index,
    number: 7,
    index: 1,
    part: 1,
};

/// The data file.
pub const DATA: FileName = FileName {
    kind: Kind::Data,
    number: 7,
    index: 0,
    part: 0,
};

/// The data file of two keys with the token of their first eight bytes: `abcdefgh1` and `abcdefgh2`, each deleted.
pub const TWO: [u8; 146] = [
    b'S', b'A', b'S', b'I', b'D', b'A', b'T', b'1', 0, 0, 0, 1, 0, 0, 0, 0, 0, 0, 0, 21, 0, 9,
    b'a', b'b', b'c', b'd', b'e', b'f', b'g', b'h', b'1', 0, 0, 0, 0, 0, 0, 0, 1, 0, 0, 0, 0, 0,
    21, 0, 9, b'a', b'b', b'c', b'd', b'e', b'f', b'g', b'h', b'2', 0, 0, 0, 0, 0, 0, 0, 2, 0, 0,
    0, 0, 0, 2, 0, 0, 0, 0, b'a', b'b', b'c', b'd', b'e', b'f', b'g', b'h', 0, 0, 0, 0, 0, 0, 0,
    16, b'a', b'b', b'c', b'd', b'e', b'f', b'g', b'h', 0, 0, 0, 0, 0, 0, 0, 41, 0, 0, 0, 0, 0, 0,
    0, 66, 0, 0, 0, 0, 0, 0, 0, 2, 0, 0, 0, 0, 0, 0, 0, 2, 0, 0, 0, 0, 0, 0, 0, 66, b'S', b'A',
    b'S', b'I', b'D', b'E', b'N', b'D',
];

/// Their token.
pub const TOKEN: Token = 0x6162_6364_6566_6768;

/// The hit of a token at a place, of the relation 3 in the part 7.
pub fn hit(token: Token, place: u64) -> Entry {
    Entry {
        token,
        leaf: 3,
        part: 7,
        place,
    }
}

/// A posting below those that are added.
fn lowest(alloc: Global) -> Posting
    ensures { AreUpTo [] result }
{
    Posting {
        list: ListKind::Stored,
        term: Term::new(Vec::new(alloc)),
        pair: Pair { token: 0, place: 0 },
    }
}

/// The next posting is above the last one, and can be gathered.
fn check_posting(rt: &impl Abort, last: &Posting, next: &Posting)
    ensures above { is_lt (posting_cmp last.now next.now) ≡ true }
    ensures one { IsPosting next.now }
{
    assert!(rt; last < next);
    assert!(rt; next.term.bytes().len() <= 1024);
    assert!(rt; next.list == ListKind::Stored || next.term.bytes().is_empty());
}

/// Adds a posting.
fn gather_posting(rt: &impl Abort, gather: &mut Gather, next: &Posting)
    requires { IsPosting next.now }
    ensures { gather.new.postings ≡ inserted posting_cmp next.now gather.old.postings }
{
    gather
        .add(next.term.bytes(), next.list, next.pair)
        .expect(rt, "memory");
}

/// A posting: its list, the term, the token and the place.
pub type Row<'a> = (ListKind, &'a [u8], Token, u64);

/// Adds a posting above the last one.
fn add(rt: &impl Abort, alloc: Global, gather: &mut Gather, last: &mut Posting, row: &Row<'_>)
    requires { AreUpTo gather.old.postings last.old }
    ensures { AreUpTo gather.new.postings last.new }
{
    let term = Term::new(row.1.to_vec(alloc).expect(rt, "memory"));
    let pair = Pair {
        token: row.2,
        place: row.3,
    };
    let next = Posting {
        list: row.0,
        term,
        pair,
    };
    check_posting(rt, last, &next);
    gather_posting(rt, gather, &next);
    *last = next;
}

/// Adds the postings.
fn add_rows(
    rt: &impl Abort,
    alloc: Global,
    gather: &mut Gather,
    last: &mut Posting,
    rows: &[Row<'_>],
)
    requires { AreUpTo gather.old.postings last.old }
    ensures { AreUpTo gather.new.postings last.new }
{
    for row in rows {
        add(rt, alloc, gather, last, row);
    }
}

/// The definition of an index of texts.
fn definition(rt: &impl Abort, alloc: Global) -> IndexDef
    ensures mode { result.mode ≡ Prefix }
    ensures kind { result.kind ≡ kinds.Text }
{
    IndexDef {
        number: 1,
        table: 1,
        name: Name::new(b"i".to_vec(alloc).expect(rt, "memory")),
        column: 1,
        kind: ColumnType::Text,
        mode: Mode::Prefix,
        rule: Some(Rule::Whole { fold: false }),
    }
}

/// Writes the index file of a gathering.
fn write(rt: &impl Abort, alloc: Global, host: &mut MemHost, gather: Gather)
    requires { AreSortedPostings gather.postings }
{
    assert!(rt; host.bytes(INDEX).is_none());
    let def = definition(rt, alloc);
    write_index(alloc, host, INDEX, &def, gather).expect(rt, "written");
}

/// A host with the index file of these postings, which are in their order, and the data file.
pub fn host_of(rt: &impl Abort, alloc: Global, rows: &[Row<'_>]) -> MemHost {
    let mut host = MemHost::new(alloc);
    host.put(DATA, &TWO).expect(rt, "memory");
    let mut last = lowest(alloc);
    let mut gather = Gather::new(alloc, 1, 1);
    add_rows(rt, alloc, &mut gather, &mut last, rows);
    write(rt, alloc, &mut host, gather);
    host
}

/// The types of a table of two texts.
pub fn types_of(rt: &impl Abort, alloc: Global) -> TypeList {
    let mut types = TypeList::new(alloc);
    types.push(ColumnType::Text).expect(rt, "memory");
    types.push(ColumnType::Text).expect(rt, "memory");
    types
}

fn skip<S: TokenStream, H: Host, P: PageReader>(
    rt: &impl Abort,
    stream: &mut S,
    host: &mut H,
    pages: &mut P,
    token: Token,
)
    requires read { CanStream (P.agrees pages.old) (S.opens stream.old) (H.view host.old) }
    requires ready { S.ready stream.old (H.view host.old).files }
    ensures read { CanStream (P.agrees pages.new) (S.opens stream.new) (H.view host.new) }
    ensures ready { S.ready stream.new (H.view host.new).files }
{
    stream.skip_to(host, pages, token).expect(rt, "no fault");
}

fn next<S: TokenStream, H: Host, P: PageReader>(
    rt: &impl Abort,
    stream: &mut S,
    host: &mut H,
    pages: &mut P,
) -> Option<Entry>
    requires read { CanStream (P.agrees pages.old) (S.opens stream.old) (H.view host.old) }
    requires ready { S.ready stream.old (H.view host.old).files }
    ensures read { CanStream (P.agrees pages.new) (S.opens stream.new) (H.view host.new) }
    ensures ready { S.ready stream.new (H.view host.new).files }
{
    stream.next(host, pages).expect(rt, "no fault")
}

/// Checks the steps of a stream, each a token to which it is skipped, and the hit that it gives then. Behind them it is skipped to the
/// end, and gives nothing twice.
pub fn check<S: TokenStream, H: Host, P: PageReader>(
    rt: &impl Abort,
    stream: &mut S,
    host: &mut H,
    pages: &mut P,
    steps: &[(Token, Entry)],
    end: Token,
)
    requires read { CanStream (P.agrees pages.old) (S.opens stream.old) (H.view host.old) }
    requires ready { S.ready stream.old (H.view host.old).files }
{
    for step in steps {
        skip(rt, stream, host, pages, step.0);
        let found = next(rt, stream, host, pages);
        assert!(rt; found == Some(step.1));
    }
    skip(rt, stream, host, pages, end);
    assert!(rt; next(rt, stream, host, pages).is_none());
    assert!(rt; next(rt, stream, host, pages).is_none());
}
