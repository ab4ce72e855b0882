// The tables in memory alone.
use sasi_machine::{Machine, Outcome, Reply};
use sasi_types::{Partitioner, PieceEnd};
use std::alloc::Global;
use std::process::Abort;

/// The machine answers a piece with this outcome and this reply.
fn check_step(
    rt: &impl Abort,
    machine: &mut Machine,
    reply: &mut Reply,
    piece: &[u8],
    outcome: Outcome,
    want: &str,
) {
    let found = machine
        .step(piece, PieceEnd::Whole, reply)
        .expect(rt, "memory");
    assert!(rt;
        found == outcome && reply.bytes() == want.as_bytes(),
        "not {want}"
    );
}

/// A table, a row, a change of the row, a statement that is refused, and what is there then.
fn check_steps(rt: &impl Abort, machine: &mut Machine, reply: &mut Reply) {
    let create = b"CREATE TABLE t (k text PRIMARY KEY, a text);";
    check_step(rt, machine, reply, create, Outcome::Done, "ok\n");
    let insert = b"INSERT INTO t (k, a) VALUES ('k1', 'x');";
    check_step(rt, machine, reply, insert, Outcome::Done, "ok\n");
    let update = b"UPDATE t SET a = 'y' WHERE k = 'k1';";
    check_step(rt, machine, reply, update, Outcome::Done, "ok\n");
    let refused = b"INSERT INTO u (k) VALUES ('k1');";
    let no_table = "error 4 NoTable u\n";
    check_step(rt, machine, reply, refused, Outcome::Refused(4), no_table);
    let select = b"SELECT * FROM t;";
    let row = "'k1' | 'y'\n(1 rows)\n";
    check_step(rt, machine, reply, select, Outcome::Done, row);
}

#[test]
fn tables_in_memory_answer_statements(rt: HostRuntime) {
    let mut machine = Machine::new(rt.alloc(), Partitioner::Murmur3);
    assert!(rt; machine.partitioner() == Partitioner::Murmur3);
    let mut reply = Reply::new(rt.alloc());
    check_steps(&rt, &mut machine, &mut reply);
}

/// An index that folds letters, and what it makes of a WHERE.
fn check_where(rt: &impl Abort, machine: &mut Machine, reply: &mut Reply) {
    let create = b"CREATE TABLE t (k text PRIMARY KEY, a text);";
    check_step(rt, machine, reply, create, Outcome::Done, "ok\n");
    let index =
        b"CREATE CUSTOM INDEX ON t (a) USING 'org.apache.cassandra.index.sasi.SASIIndex' WITH OPTIONS = {'case_sensitive': 'false'};";
    check_step(rt, machine, reply, index, Outcome::Done, "ok\n");
    let insert = b"INSERT INTO t (k, a) VALUES ('k1', 'Nuts');";
    check_step(rt, machine, reply, insert, Outcome::Done, "ok\n");
    let select = b"SELECT k FROM t WHERE a LIKE 'nU%';";
    let row = "'k1'\n(1 rows)\n";
    check_step(rt, machine, reply, select, Outcome::Done, row);
    let refused = b"SELECT k FROM t WHERE a > 'nuts';";
    let outcome = Outcome::Refused(17);
    let unsupported = "error 17 OperatorUnsupported a\n";
    check_step(rt, machine, reply, refused, outcome, unsupported);
}

#[test]
fn index_in_memory_says_how_a_where_compares(rt: HostRuntime) {
    let mut machine = Machine::new(rt.alloc(), Partitioner::Lead8);
    let mut reply = Reply::new(rt.alloc());
    check_where(&rt, &mut machine, &mut reply);
}

/// Three rows, of which a LIMIT leaves fewer, as many or more, also behind a WHERE.
fn check_limit(rt: &impl Abort, machine: &mut Machine, reply: &mut Reply) {
    let create = b"CREATE TABLE t (k text PRIMARY KEY, n int);";
    check_step(rt, machine, reply, create, Outcome::Done, "ok\n");
    for insert in [
        b"INSERT INTO t (k, n) VALUES ('k1', 1);".as_slice(),
        b"INSERT INTO t (k, n) VALUES ('k2', 2);".as_slice(),
        b"INSERT INTO t (k, n) VALUES ('k3', 3);".as_slice(),
    ] {
        check_step(rt, machine, reply, insert, Outcome::Done, "ok\n");
    }
    let fewer = b"SELECT k FROM t LIMIT 2;";
    let two = "'k1'\n'k2'\n(2 rows)\n";
    check_step(rt, machine, reply, fewer, Outcome::Done, two);
    let more = b"SELECT k FROM t WHERE n > 1 LIMIT 3 ALLOW FILTERING;";
    let others = "'k2'\n'k3'\n(2 rows)\n";
    check_step(rt, machine, reply, more, Outcome::Done, others);
    let none = b"SELECT k FROM t LIMIT 0;";
    let outcome = Outcome::Refused(9);
    let range = "error 9 NumberRange LIMIT\n";
    check_step(rt, machine, reply, none, outcome, range);
}

#[test]
fn rows_in_memory_end_at_the_limit(rt: HostRuntime) {
    let mut machine = Machine::new(rt.alloc(), Partitioner::Lead8);
    let mut reply = Reply::new(rt.alloc());
    check_limit(&rt, &mut machine, &mut reply);
}

/// Runs pieces, each on a line of its own, and adds their replies to those before.
fn run_lines(rt: &impl Abort, machine: &mut Machine, replies: &mut Vec<u8>, pieces: &str) {
    let mut reply = Reply::new(*replies.allocator());
    for piece in pieces.lines() {
        machine
            .step(piece.as_bytes(), PieceEnd::Whole, &mut reply)
            .expect(rt, "memory");
        replies
            .extend_from_slice(reply.bytes())
            .expect(rt, "memory");
    }
}

/// A new machine answers these pieces with these replies.
fn check_lines(rt: &impl Abort, alloc: Global, pieces: &str, want: &str) {
    let mut machine = Machine::new(alloc, Partitioner::Lead8);
    let mut replies = Vec::new(alloc);
    run_lines(rt, &mut machine, &mut replies, pieces);
    assert!(rt; replies.as_slice() == want.as_bytes());
}

/// Statements on cursors where none is open. The rules of their SELECT and of the number of rows come before those of cursors.
const NONE_OPEN: &str = "\
CREATE TABLE t (k text PRIMARY KEY, a int);
OPEN c AS SELECT * FROM u;
OPEN c AS SELECT * FROM t LIMIT 0;
OPEN c AS SELECT k FROM t WHERE a>0 AND a>0 AND a>0 AND a>0 AND a>0 AND a>0 AND a>0 AND a>0 AND a>0 AND a>0 AND a>0 AND a>0 AND a>0 AND a>0 AND a>0 AND a>0 AND a>0 AND a>0 AND a>0 AND a>0 AND a>0 AND a>0 AND a>0 AND a>0 AND a>0 AND a>0 AND a>0 AND a>0 AND a>0 AND a>0 AND a>0 AND a>0 AND a>0 ALLOW FILTERING;
FETCH 0 FROM c;
FETCH 1 FROM c;
CLOSE c;
OPEN c AS SELECT * FROM t;
";

const NONE_OPEN_REPLIES: &str = "\
ok
error 4 NoTable u
error 9 NumberRange LIMIT
error 24 TooMany relations 32
error 9 NumberRange FETCH
error 23 NoCursor c
error 23 NoCursor c
ok
";

#[test]
fn cursor_in_memory_is_refused_by_its_rules(rt: HostRuntime) {
    check_lines(&rt, rt.alloc(), NONE_OPEN, NONE_OPEN_REPLIES);
}

/// Rows that are fetched in pieces, while their table changes.
const FETCHED: &str = "\
CREATE TABLE t (k text PRIMARY KEY, n int);
INSERT INTO t (k, n) VALUES ('k1', 1);
INSERT INTO t (k, n) VALUES ('k2', 2);
INSERT INTO t (k, n) VALUES ('k3', 3);
OPEN c AS SELECT * FROM t;
FETCH 2 FROM c;
UPDATE t SET n = 4 WHERE k = 'k3';
INSERT INTO t (k, n) VALUES ('k4', 5);
FETCH 2 FROM c;
FETCH 2147483647 FROM c;
SELECT * FROM t WHERE n > 2 ALLOW FILTERING;
CLOSE c;
FETCH 1 FROM c;
";

const FETCHED_REPLIES: &str = "\
ok
ok
ok
ok
ok
'k1' | 1
'k2' | 2
(2 rows)
ok
ok
'k3' | 3
(1 rows)
(0 rows)
'k3' | 4
'k4' | 5
(2 rows)
ok
error 23 NoCursor c
";

#[test]
fn cursor_in_memory_keeps_its_rows(rt: HostRuntime) {
    check_lines(&rt, rt.alloc(), FETCHED, FETCHED_REPLIES);
}

/// Two cursors, each with rows of its own. A name is taken until its cursor is closed, also where all its rows were given.
const NAMED: &str = "\
CREATE TABLE t (k text PRIMARY KEY);
INSERT INTO t (k) VALUES ('k1');
OPEN c AS SELECT * FROM t;
INSERT INTO t (k) VALUES ('k2');
OPEN d AS SELECT * FROM t LIMIT 2;
FETCH 1 FROM c;
FETCH 1 FROM c;
OPEN c AS SELECT * FROM t;
OPEN c AS SELECT * FROM u;
CLOSE c;
FETCH 1 FROM d;
OPEN C AS SELECT * FROM t;
FETCH 3 FROM d;
FETCH 3 FROM c;
";

const NAMED_REPLIES: &str = "\
ok
ok
ok
ok
ok
'k1'
(1 rows)
(0 rows)
error 22 CursorExists c
error 4 NoTable u
ok
'k1'
(1 rows)
ok
'k2'
(1 rows)
'k1'
'k2'
(2 rows)
";

#[test]
fn name_of_a_cursor_in_memory_is_taken_until_it_is_closed(rt: HostRuntime) {
    check_lines(&rt, rt.alloc(), NAMED, NAMED_REPLIES);
}

/// An OPEN of one cursor more than there may be, until one is closed. The rule of its name comes first, and that of the number of relations last.
const FULL: &str = "\
OPEN d AS SELECT * FROM t;
OPEN c7 AS SELECT * FROM t;
OPEN d AS SELECT k FROM t WHERE a>0 AND a>0 AND a>0 AND a>0 AND a>0 AND a>0 AND a>0 AND a>0 AND a>0 AND a>0 AND a>0 AND a>0 AND a>0 AND a>0 AND a>0 AND a>0 AND a>0 AND a>0 AND a>0 AND a>0 AND a>0 AND a>0 AND a>0 AND a>0 AND a>0 AND a>0 AND a>0 AND a>0 AND a>0 AND a>0 AND a>0 AND a>0 AND a>0 ALLOW FILTERING;
CLOSE c63;
OPEN d AS SELECT k FROM t WHERE a>0 AND a>0 AND a>0 AND a>0 AND a>0 AND a>0 AND a>0 AND a>0 AND a>0 AND a>0 AND a>0 AND a>0 AND a>0 AND a>0 AND a>0 AND a>0 AND a>0 AND a>0 AND a>0 AND a>0 AND a>0 AND a>0 AND a>0 AND a>0 AND a>0 AND a>0 AND a>0 AND a>0 AND a>0 AND a>0 AND a>0 AND a>0 AND a>0 ALLOW FILTERING;
OPEN d AS SELECT * FROM t;
";

const FULL_REPLIES: &str = "\
error 24 TooMany cursors 64
error 22 CursorExists c7
error 24 TooMany cursors 64
ok
error 24 TooMany relations 32
ok
";

/// Opens a cursor under the letter c and a number.
fn open_numbered(rt: &impl Abort, alloc: Global, machine: &mut Machine, number: u32) {
    let piece = format!(in alloc; "OPEN c{number} AS SELECT * FROM t;").expect(rt, "memory");
    let mut reply = Reply::new(alloc);
    check_step(
        rt,
        machine,
        &mut reply,
        piece.as_bytes(),
        Outcome::Done,
        "ok\n",
    );
}

/// A machine with as many cursors as there may be.
fn full_machine(rt: &impl Abort, alloc: Global) -> Machine {
    let mut machine = Machine::new(alloc, Partitioner::Lead8);
    let mut reply = Reply::new(alloc);
    let create = b"CREATE TABLE t (k text PRIMARY KEY, a int);";
    check_step(rt, &mut machine, &mut reply, create, Outcome::Done, "ok\n");
    for number in 0..64 {
        open_numbered(rt, alloc, &mut machine, number);
    }
    machine
}

#[test]
fn cursors_in_memory_are_few(rt: HostRuntime) {
    let mut machine = full_machine(&rt, rt.alloc());
    let mut replies = Vec::new(rt.alloc());
    run_lines(&rt, &mut machine, &mut replies, FULL);
    assert!(rt; replies.as_slice() == FULL_REPLIES.as_bytes());
}

/// Compactions, which change no row. A machine has no files, so there is nothing to be done.
const COMPACTED: &str = "\
CREATE TABLE t (k text PRIMARY KEY, n int);
INSERT INTO t (k, n) VALUES ('k1', 1);
COMPACT t;
STEP COMPACT t 3;
BEGIN COMPACT t;
STEP COMPACT t 1;
COMPACT u;
BEGIN COMPACT u;
STEP COMPACT u 0;
STEP COMPACT t 0;
SELECT * FROM t;
";

const COMPACTED_REPLIES: &str = "\
ok
ok
ok
ok
ok
ok
error 4 NoTable u
error 4 NoTable u
error 4 NoTable u
error 9 NumberRange STEP
'k1' | 1
(1 rows)
";

#[test]
fn compaction_in_memory_changes_no_row(rt: HostRuntime) {
    check_lines(&rt, rt.alloc(), COMPACTED, COMPACTED_REPLIES);
}

#[test]
fn piece_that_is_not_utf8_is_refused_at_its_offset(rt: HostRuntime) {
    let mut machine = Machine::new(rt.alloc(), Partitioner::Lead8);
    let mut reply = Reply::new(rt.alloc());
    let piece = b"SELECT \xff;";
    let want = "error 3 NotUtf8 at 7\n";
    check_step(
        &rt,
        &mut machine,
        &mut reply,
        piece,
        Outcome::Refused(3),
        want,
    );
}
