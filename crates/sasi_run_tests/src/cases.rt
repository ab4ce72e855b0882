// Scripts of which every crash is tried, and what a folder is asked then.
use sasi_run::Status;

/// What a state answers: the status of a run, and its replies, of which the second may be empty.
#[derive(Clone, Copy)]
pub struct Answer<'a> {
    pub status: Status,
    pub first: &'a str,
    pub second: &'a str,
}

/// A script, of which no statement is refused.
#[derive(Clone, Copy)]
pub struct Case<'a> {
    pub script: &'a str,
    /// The reply to each statement, and perhaps further ones.
    pub replies: &'a [&'a str],
    /// How many calls a run makes before it emits each reply. Thirteen make the folder, and a statement that isn't a flush is
    /// recorded by four.
    pub emits: &'a [u64],
    /// What a folder is asked.
    pub question: &'a str,
    pub answers: &'a [Answer<'a>],
    /// The state after so many statements: the position of its answer.
    pub states: &'a [usize],
}

static OKS: [&str; 10] = ["ok\n"; 10];

static INSERT_EMITS: [u64; 2] = [17, 22];

static INSERT_STATES: [usize; 3] = [0, 1, 2];

static ONE_TABLE: [Answer<'static>; 3] = [
    Answer {
        status: Status::Refused(1),
        first: "error 4 NoTable t\n",
        second: "",
    },
    Answer {
        status: Status::Done,
        first: "(0 rows)\n",
        second: "",
    },
    Answer {
        status: Status::Done,
        first: "'k1' | 'x'\n(1 rows)\n",
        second: "",
    },
];

/// A table, and a row.
pub fn insert() -> Case<'static> {
    Case {
        script: "CREATE TABLE t (k text PRIMARY KEY, a text); INSERT INTO t (k, a) VALUES ('k1', 'x') USING TIMESTAMP 5;",
        replies: &OKS,
        emits: &INSERT_EMITS,
        question: "SELECT * FROM t;",
        answers: &ONE_TABLE,
        states: &INSERT_STATES,
    }
}

static FLUSH_EMITS: [u64; 3] = [17, 22, 41];

static FLUSH_STATES: [usize; 4] = [0, 1, 2, 2];

/// A table, a row, and a flush: a flush leaves the state as it is.
pub fn flush() -> Case<'static> {
    Case {
        script: "CREATE TABLE t (k text PRIMARY KEY, a text); INSERT INTO t (k, a) VALUES ('k1', 'x'); FLUSH t;",
        replies: &OKS,
        emits: &FLUSH_EMITS,
        question: "SELECT * FROM t;",
        answers: &ONE_TABLE,
        states: &FLUSH_STATES,
    }
}

static FLUSHES_EMITS: [u64; 7] = [17, 22, 27, 32, 50, 55, 74];

static FLUSHES_STATES: [usize; 8] = [0, 1, 2, 3, 4, 4, 5, 5];

static TWO_TABLES: [Answer<'static>; 6] = [
    Answer {
        status: Status::Refused(2),
        first: "error 4 NoTable t\n",
        second: "error 4 NoTable u\n",
    },
    Answer {
        status: Status::Refused(1),
        first: "(0 rows)\n",
        second: "error 4 NoTable u\n",
    },
    Answer {
        status: Status::Done,
        first: "(0 rows)\n",
        second: "(0 rows)\n",
    },
    Answer {
        status: Status::Done,
        first: "(0 rows)\n",
        second: "1\n(1 rows)\n",
    },
    Answer {
        status: Status::Done,
        first: "'k1' | 'x'\n(1 rows)\n",
        second: "1\n(1 rows)\n",
    },
    Answer {
        status: Status::Done,
        first: "'k1' | 'y'\n(1 rows)\n",
        second: "1\n(1 rows)\n",
    },
];

/// Two tables, each flushed once. The first flush leaves the first segment, which the second table needs, and the second flush
/// deletes it and leaves the second segment, in which the first table has a newer write.
pub fn flushes_of_two_tables() -> Case<'static> {
    Case {
        script: "CREATE TABLE t (k text PRIMARY KEY, a text); CREATE TABLE u (k int PRIMARY KEY); INSERT INTO u (k) VALUES (1); \
            INSERT INTO t (k, a) VALUES ('k1', 'x'); FLUSH t; UPDATE t SET a = 'y' WHERE k = 'k1'; FLUSH u;",
        replies: &OKS,
        emits: &FLUSHES_EMITS,
        question: "SELECT * FROM t; SELECT * FROM u;",
        answers: &TWO_TABLES,
        states: &FLUSHES_STATES,
    }
}

static INDEXED_EMITS: [u64; 4] = [17, 22, 27, 54];

static INDEXED_STATES: [usize; 5] = [0, 1, 1, 2, 2];

/// A table with an index, a row, and a flush, which writes an index file beside the data file.
pub fn indexed_flush() -> Case<'static> {
    Case {
        script: "CREATE TABLE t (k text PRIMARY KEY, a text); CREATE CUSTOM INDEX i ON t (a) USING 'org.apache.cassandra.index.sasi.SASIIndex'; \
            INSERT INTO t (k, a) VALUES ('k1', 'x'); FLUSH t;",
        replies: &OKS,
        emits: &INDEXED_EMITS,
        question: "SELECT * FROM t;",
        answers: &ONE_TABLE,
        states: &INDEXED_STATES,
    }
}

static INDEXED_FLUSHES_EMITS: [u64; 10] = [17, 22, 27, 32, 37, 42, 47, 81, 86, 113];

static INDEXED_FLUSHES_STATES: [usize; 11] = [0, 1, 1, 1, 2, 2, 3, 4, 4, 5, 5];

/// Two tables, each flushed once, as without indexes. One has two indexes and the other one has one, so the flushes write two index files
/// and one.
pub fn indexed_flushes_of_two_tables() -> Case<'static> {
    Case {
        script: "CREATE TABLE t (k text PRIMARY KEY, a text, b int); CREATE CUSTOM INDEX i ON t (a) USING 'org.apache.cassandra.index.sasi.SASIIndex'; \
            CREATE CUSTOM INDEX j ON t (b) USING 'org.apache.cassandra.index.sasi.SASIIndex'; CREATE TABLE u (k int PRIMARY KEY, a text); \
            CREATE CUSTOM INDEX l ON u (a) USING 'org.apache.cassandra.index.sasi.SASIIndex'; INSERT INTO u (k, a) VALUES (1, 'z'); \
            INSERT INTO t (k, a, b) VALUES ('k1', 'x', 7); FLUSH t; UPDATE t SET a = 'y' WHERE k = 'k1'; FLUSH u;",
        replies: &OKS,
        emits: &INDEXED_FLUSHES_EMITS,
        question: "SELECT k, a FROM t; SELECT k FROM u;",
        answers: &TWO_TABLES,
        states: &INDEXED_FLUSHES_STATES,
    }
}

static COMPACTED_REPLIES: [&str; 11] = [
    "ok\n",
    "ok\n",
    "ok\n",
    "ok\n",
    "ok\n",
    "ok\n",
    "ok\n",
    "'k1' | 'x'\n(1 rows)\n",
    "data-1 obsolete pinned 1\ndata-3 current pinned 0\n(2 files)\n",
    "ok\n",
    "data-3 current pinned 0\n(1 files)\n",
];

static COMPACTED_EMITS: [u64; 11] = [17, 22, 41, 42, 47, 66, 90, 95, 96, 99, 100];

static COMPACTED_STATES: [usize; 12] = [0, 1, 2, 3, 3, 4, 5, 6, 6, 6, 6, 6];

static COMPACTED_FILES: [Answer<'static>; 7] = [
    Answer {
        status: Status::Refused(1),
        first: "error 4 NoTable t\n",
        second: "(0 files)\n",
    },
    Answer {
        status: Status::Done,
        first: "(0 rows)\n",
        second: "(0 files)\n",
    },
    Answer {
        status: Status::Done,
        first: "'k1' | 'x'\n(1 rows)\n",
        second: "(0 files)\n",
    },
    Answer {
        status: Status::Done,
        first: "'k1' | 'x'\n(1 rows)\n",
        second: "data-1 current pinned 0\n(1 files)\n",
    },
    Answer {
        status: Status::Done,
        first: "'k0' | 'y'\n'k1' | 'x'\n(2 rows)\n",
        second: "data-1 current pinned 0\n(1 files)\n",
    },
    Answer {
        status: Status::Done,
        first: "'k0' | 'y'\n'k1' | 'x'\n(2 rows)\n",
        second: "data-1 current pinned 0\ndata-2 current pinned 0\n(2 files)\n",
    },
    Answer {
        status: Status::Done,
        first: "'k0' | 'y'\n'k1' | 'x'\n(2 rows)\n",
        second: "data-3 current pinned 0\n(1 files)\n",
    },
];

/// A compaction of two data files, of which a cursor holds one.
pub fn compaction() -> Case<'static> {
    Case {
        script: "CREATE TABLE t (k text PRIMARY KEY, a text); INSERT INTO t (k, a) VALUES ('k1', 'x'); FLUSH t; OPEN c AS SELECT * FROM t; \
            INSERT INTO t (k, a) VALUES ('k0', 'y'); FLUSH t; COMPACT t; FETCH 2 FROM c; SHOW FILES; CLOSE c; SHOW FILES;",
        replies: &COMPACTED_REPLIES,
        emits: &COMPACTED_EMITS,
        question: "SELECT * FROM t; SHOW FILES;",
        answers: &COMPACTED_FILES,
        states: &COMPACTED_STATES,
    }
}

static STEPPED_REPLIES: [&str; 11] = [
    "ok\n",
    "ok\n",
    "ok\n",
    "ok\n",
    "ok\n",
    "ok\n",
    "ok\n",
    "ok\n",
    "ok\n",
    "'k1' | 'z'\n'k2' | 'y'\n(2 rows)\n",
    "data-3 current pinned 0\n(1 files)\n",
];

static STEPPED_EMITS: [u64; 11] = [17, 22, 41, 46, 65, 66, 78, 83, 97, 102, 103];

static STEPPED_STATES: [usize; 12] = [0, 1, 2, 3, 4, 5, 5, 5, 6, 7, 7, 7];

static STEPPED_FILES: [Answer<'static>; 8] = [
    Answer {
        status: Status::Refused(1),
        first: "error 4 NoTable t\n",
        second: "(0 files)\n",
    },
    Answer {
        status: Status::Done,
        first: "(0 rows)\n",
        second: "(0 files)\n",
    },
    Answer {
        status: Status::Done,
        first: "'k1' | 'x'\n(1 rows)\n",
        second: "(0 files)\n",
    },
    Answer {
        status: Status::Done,
        first: "'k1' | 'x'\n(1 rows)\n",
        second: "data-1 current pinned 0\n(1 files)\n",
    },
    Answer {
        status: Status::Done,
        first: "'k1' | 'x'\n'k2' | 'y'\n(2 rows)\n",
        second: "data-1 current pinned 0\n(1 files)\n",
    },
    Answer {
        status: Status::Done,
        first: "'k1' | 'x'\n'k2' | 'y'\n(2 rows)\n",
        second: "data-1 current pinned 0\ndata-2 current pinned 0\n(2 files)\n",
    },
    Answer {
        status: Status::Done,
        first: "'k1' | 'z'\n'k2' | 'y'\n(2 rows)\n",
        second: "data-1 current pinned 0\ndata-2 current pinned 0\n(2 files)\n",
    },
    Answer {
        status: Status::Done,
        first: "'k1' | 'z'\n'k2' | 'y'\n(2 rows)\n",
        second: "data-3 current pinned 0\n(1 files)\n",
    },
];

/// A compaction in steps, with a write in between.
pub fn stepped_compaction() -> Case<'static> {
    Case {
        script: "CREATE TABLE t (k text PRIMARY KEY, a text); INSERT INTO t (k, a) VALUES ('k1', 'x'); FLUSH t; INSERT INTO t (k, a) VALUES ('k2', 'y'); \
            FLUSH t; BEGIN COMPACT t; STEP COMPACT t 1; INSERT INTO t (k, a) VALUES ('k1', 'z'); STEP COMPACT t 2; SELECT * FROM t; SHOW FILES;",
        replies: &STEPPED_REPLIES,
        emits: &STEPPED_EMITS,
        question: "SELECT * FROM t; SHOW FILES;",
        answers: &STEPPED_FILES,
        states: &STEPPED_STATES,
    }
}
