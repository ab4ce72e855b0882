// Definitions of indexes.
use sasi_schema::{Schema, SchemaFault};
use sasi_types::{ColumnType, Columns, IndexNumber, Name, Options, Rule, TableNumber, Text};
use std::alloc::Global;
use std::process::Abort;

fn bytes_of(rt: &impl Abort, alloc: Global, text: &str) -> Vec<u8> {
    text.as_bytes().to_vec(alloc).expect(rt, "memory")
}

fn name_of(rt: &impl Abort, alloc: Global, text: &str) -> Name {
    Name::new(bytes_of(rt, alloc, text))
}

fn text_of(rt: &impl Abort, alloc: Global, text: &str) -> Text {
    Text::new(bytes_of(rt, alloc, text))
}

/// The words of a CREATE CUSTOM INDEX.
#[derive(Drop)]
struct Words {
    name: Option<Name>,
    table: Name,
    column: Name,
    class: Text,
    options: Options,
}

/// The options of a text such as `mode:sparse,analyzed:true`.
fn options_of(rt: &impl Abort, alloc: Global, text: &str) -> Options {
    let mut options = Options::new(alloc);
    for option in text.split(',') {
        if let Some((name, value)) = option.split_once(':') {
            let (name, value) = (text_of(rt, alloc, name), text_of(rt, alloc, value));
            options = options.with(&name, &value).expect(rt, "memory");
        }
    }
    options
}

/// The words of a line: a name or `-`, the table, the column, the end of the class behind USING, and the options.
fn words_of(rt: &impl Abort, alloc: Global, line: &str) -> Words {
    let words: Vec<&str> = line.split(' ').collect(alloc).expect(rt, "memory");
    let [name, table, column, class, options] = words.as_slice() else {
        panic!(rt; "five words")
    };
    let name = match *name {
        "-" => None,
        name => Some(name_of(rt, alloc, name)),
    };
    let mut class_bytes = bytes_of(rt, alloc, "org.apache.cassandra.index.sasi.");
    class_bytes
        .extend_from_slice(class.as_bytes())
        .expect(rt, "memory");
    Words {
        name,
        table: name_of(rt, alloc, table),
        column: name_of(rt, alloc, column),
        class: Text::new(class_bytes),
        options: options_of(rt, alloc, options),
    }
}

/// Defines a table of these columns; the key is `k`.
pub fn create_table(
    rt: &impl Abort,
    alloc: Global,
    schema: &mut Schema,
    name: &str,
    columns: &[(&str, ColumnType)],
) {
    let mut listed = Columns::new(alloc);
    for (column, kind) in columns {
        listed
            .push(name_of(rt, alloc, column), *kind)
            .expect(rt, "memory");
    }
    let keys = [name_of(rt, alloc, "k")];
    schema
        .create_table(&name_of(rt, alloc, name), &listed, &keys)
        .expect(rt, "a table");
}

/// Defines the index of a line, and gives its number.
fn create(
    rt: &impl Abort,
    alloc: Global,
    schema: &mut Schema,
    line: &str,
) -> Result<IndexNumber, SchemaFault> {
    assert!(rt; schema.last_index() < u32::MAX);
    let words = words_of(rt, alloc, line);
    schema.create_index(
        words.name.as_ref(),
        &words.table,
        &words.column,
        &words.class,
        &words.options,
    )
}

/// Two tables, and an index on the second.
fn schema(rt: &impl Abort, alloc: Global) -> Schema {
    let mut schema = Schema::new(alloc);
    let columns = [
        ("a", ColumnType::Text),
        ("k", ColumnType::Int),
        ("b", ColumnType::Int),
        ("c", ColumnType::BigInt),
        ("d", ColumnType::Uuid),
    ];
    create_table(rt, alloc, &mut schema, "t", &columns);
    create_table(
        rt,
        alloc,
        &mut schema,
        "u",
        &[("k", ColumnType::Text), ("a", ColumnType::Text)],
    );
    define(rt, alloc, &mut schema, "taken u a SASIIndex -");
    schema
}

fn rule_words(rule: Option<Rule>) -> &'static str {
    match rule {
        None => "number",
        Some(Rule::Whole { fold: false }) => "whole",
        Some(Rule::Whole { fold: true }) => "whole, folded",
        Some(Rule::Words { fold: false }) => "words",
        Some(Rule::Words { fold: true }) => "words, folded",
    }
}

/// The name of a fault, and what it is about.
fn fault_words(fault: &SchemaFault) -> (&str, &[u8]) {
    match fault {
        SchemaFault::NoTable(name) => ("NoTable", name.bytes()),
        SchemaFault::NoColumn(name) => ("NoColumn", name.bytes()),
        SchemaFault::IndexExists(name) => ("IndexExists", name.bytes()),
        SchemaFault::BadOption(option) => ("BadOption", option.bytes()),
        SchemaFault::BadUsing => ("BadUsing", b""),
        SchemaFault::ModeType(name) => ("ModeType", name.bytes()),
        _ => ("another", b""),
    }
}

/// What the schema says of the words of an index.
fn answer_words(answer: &Result<Option<Rule>, SchemaFault>) -> (&str, &[u8]) {
    match answer {
        Ok(rule) => ("ok", rule_words(*rule).as_bytes()),
        Err(fault) => fault_words(fault),
    }
}

/// The words of an index have this answer.
fn check(rt: &impl Abort, alloc: Global, schema: &Schema, line: &str, want: &str) {
    let words = words_of(rt, alloc, line);
    let answer = schema.read_index(
        words.name.as_ref(),
        &words.table,
        &words.column,
        &words.class,
        &words.options,
    );
    let (fault, detail) = answer_words(&answer);
    let (want_fault, want_detail) = want.split_once(' ').unwrap_or((want, ""));
    assert!(rt;
        fault == want_fault && detail == want_detail.as_bytes(),
        "{line}"
    );
}

// The words of an index, and what the schema says of them: the first rule that applies, or how terms are made.
const CASES: &str = "- t a SASIIndex -=>ok whole
- t b SASIIndex -=>ok number
- v x Other x:y=>NoTable v
taken t x Other x:y=>NoColumn x
taken t a Other x:y=>IndexExists taken
- u a Other x:y=>IndexExists taken
u_a_idx u a SASIIndex -=>IndexExists taken
- t b Other x:y=>BadUsing
- t k SASIIndex x:y=>BadOption x
- t k SASIIndex -=>ModeType k
- u k SASIIndex mode:contains=>ModeType k
- t d SASIIndex analyzed:true=>ModeType d
- t a SASIIndex mode:Contains=>ok whole
- t a SASIIndex mode:SPARSE=>ModeType a
- t b SASIIndex mode:sparse,analyzed:false=>ok number
- t c SASIIndex mode:CONTAINS=>ModeType c
- t a SASIIndex mode:suffix=>BadOption mode
- t a SASIIndex mode:prefix,mode:prefix=>BadOption mode
- t a SASIIndex mode:prefix,analyzed:no,mode:prefix=>BadOption analyzed
- t a SASIIndex Mode:prefix=>BadOption Mode
- t a SASIIndex :prefix=>BadOption
- t a SASIIndex analyzer_class:x=>BadOption analyzer_class
- t b SASIIndex analyzer_class:org.apache.cassandra.index.sasi.analyzer.StandardAnalyzer=>BadOption analyzer_class
- t a SASIIndex analyzer_class:org.apache.cassandra.index.sasi.analyzer.StandardAnalyzer=>ok words
- t a SASIIndex analyzer_class:org.apache.cassandra.index.sasi.analyzer.NonTokenizingAnalyzer=>ok whole
- t a SASIIndex case_sensitive:false=>ok whole, folded
- t a SASIIndex case_sensitive:true=>ok whole
- t a SASIIndex case_sensitive:FALSE=>BadOption case_sensitive
- t b SASIIndex case_sensitive:false=>BadOption case_sensitive
- t a SASIIndex case_sensitive:false,analyzer_class:org.apache.cassandra.index.sasi.analyzer.StandardAnalyzer=>BadOption case_sensitive
- t a SASIIndex tokenization_normalize_lowercase:true=>BadOption tokenization_normalize_lowercase
- t a SASIIndex tokenization_normalize_lowercase:true,analyzer_class:org.apache.cassandra.index.sasi.analyzer.StandardAnalyzer=>ok words, folded
- t a SASIIndex tokenization_enable_stemming:false,analyzer_class:org.apache.cassandra.index.sasi.analyzer.StandardAnalyzer=>ok words
- t a SASIIndex tokenization_enable_stemming:true,analyzer_class:org.apache.cassandra.index.sasi.analyzer.StandardAnalyzer=>BadOption tokenization_enable_stemming";

#[test]
fn first_rule_that_applies_is_told(rt: HostRuntime) {
    let schema = schema(&rt, rt.alloc());
    for case in CASES.lines() {
        let (line, want) = case.split_once("=>").unwrap_or((case, ""));
        check(&rt, rt.alloc(), &schema, line, want);
    }
}

/// Defines the index of a line, which isn't refused.
pub fn define(rt: &impl Abort, alloc: Global, schema: &mut Schema, line: &str) -> IndexNumber {
    create(rt, alloc, schema, line).expect(rt, "an index")
}

/// Adds the index of a line under this number.
fn restore(rt: &impl Abort, alloc: Global, schema: &mut Schema, line: &str, number: IndexNumber) {
    let words = words_of(rt, alloc, line);
    let new = schema
        .prepare_index(
            words.name.as_ref(),
            &words.table,
            &words.column,
            &words.class,
            &words.options,
        )
        .expect(rt, "an index");
    schema
        .restore_index(new.numbered(number))
        .expect(rt, "memory");
}

/// The numbers of the index of this name, of its table and of its column.
fn numbers(
    rt: &impl Abort,
    alloc: Global,
    schema: &Schema,
    name: &str,
) -> Option<(IndexNumber, TableNumber, u16)> {
    let def = schema.index(&name_of(rt, alloc, name))?;
    Some((def.number, def.table, def.column))
}

#[test]
fn indexes_are_numbered_as_they_are_created(rt: HostRuntime) {
    let mut schema = schema(&rt, rt.alloc());
    let second = define(&rt, rt.alloc(), &mut schema, "- t b SASIIndex mode:sparse");
    let third = define(&rt, rt.alloc(), &mut schema, "i t a SASIIndex -");
    assert!(rt; (second, third) == (2, 3));
    assert!(rt; numbers(&rt, rt.alloc(), &schema, "taken") == Some((1, 2, 1)));
    assert!(rt; numbers(&rt, rt.alloc(), &schema, "t_b_idx") == Some((2, 1, 2)));
    assert!(rt; numbers(&rt, rt.alloc(), &schema, "i") == Some((3, 1, 1)));
    assert!(rt; numbers(&rt, rt.alloc(), &schema, "t_a_idx") == None);
}

#[test]
fn default_name_is_cut_after_48_bytes(rt: HostRuntime) {
    let mut schema = Schema::new(rt.alloc());
    let columns = [("k", ColumnType::Int), ("a", ColumnType::Text)];
    create_table(
        &rt,
        rt.alloc(),
        &mut schema,
        "a_table_whose_name_is_of_forty_four_bytes_xx",
        &columns,
    );
    define(
        &rt,
        rt.alloc(),
        &mut schema,
        "- a_table_whose_name_is_of_forty_four_bytes_xx a SASIIndex -",
    );
    assert!(rt;
        numbers(
            &rt,
            rt.alloc(),
            &schema,
            "a_table_whose_name_is_of_forty_four_bytes_xx_a_i"
        ) == Some((1, 1, 1))
    );
}

#[test]
fn refused_index_draws_no_number(rt: HostRuntime) {
    let mut schema = schema(&rt, rt.alloc());
    let refused = create(&rt, rt.alloc(), &mut schema, "- t d SASIIndex -").is_err();
    assert!(rt; refused && schema.last_index() == 1);
}

#[test]
fn next_number_follows_the_greatest_restored_one(rt: HostRuntime) {
    let mut schema = schema(&rt, rt.alloc());
    restore(&rt, rt.alloc(), &mut schema, "i t a SASIIndex -", 7);
    restore(&rt, rt.alloc(), &mut schema, "j t b SASIIndex -", 3);
    let next = define(&rt, rt.alloc(), &mut schema, "- t c SASIIndex -");
    assert!(rt; next == 8);
    assert!(rt; numbers(&rt, rt.alloc(), &schema, "i") == Some((7, 1, 1)));
    assert!(rt; numbers(&rt, rt.alloc(), &schema, "j") == Some((3, 1, 2)));
}

#[test]
fn used_numbers_are_passed(rt: HostRuntime) {
    let mut schema = schema(&rt, rt.alloc());
    schema.use_index(9);
    schema.use_index(4);
    let next = define(&rt, rt.alloc(), &mut schema, "- t c SASIIndex -");
    assert!(rt; next == 10);
}
