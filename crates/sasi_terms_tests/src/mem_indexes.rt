//! Which keys the indexes of a map have under which terms, and what changes of the map leave of them.
ghost use Rattle.std.specs.Prelude.{◌≡◌, ◌<◌, IfSome, Some};
ghost use Rattle.std.specs.FinMap as fin;
ghost use Rattle.std.specs.Option.{option_copied};
ghost use Rattle.sasi_types.specs.declared.column.ColumnType.TheVariants.{Text as OfTexts};
ghost use Rattle.sasi_types.specs.Value.{type_of};
ghost use Rattle.sasi_model.specs.Cells.{value_at};
ghost use Rattle.sasi_model.specs.IndexTerms.{terms_of_cell};
ghost use Rattle.sasi_memindex.specs.IndexedValues.{IsCellOf, IsText, IsValueOf};
ghost use Rattle.sasi_memindex.specs.IndexOf.{HasTermsAt};
ghost use Rattle.sasi_terms_tests.specs.IndexedMaps.{HasIndexes};

use crate::analyzers::kit_of_both;
use sasi_analyzers::Kit;
use sasi_cells::Partition;
use sasi_memindex::{KeyList, MapBook, MemIndex};
use sasi_memtable::Memtable;
use sasi_terms::Op;
use sasi_types::{
    Cell, Class, ColumnType, DecoratedKey, IndexDef, IndexNumber, Key, KitFault, Mode, Name,
    Partitioner, Rule, Text, Value,
};
use std::alloc::Global;
use std::process::Abort;

/// The definition of an index of column 1.
fn def_of(alloc: Global, number: IndexNumber, kind: ColumnType, rule: Option<Rule>) -> IndexDef
    ensures column { result.column ≡ 1 }
    ensures kind { result.kind ≡ kind }
{
    IndexDef {
        number,
        table: 1,
        name: Name::new(Vec::new(alloc)),
        column: 1,
        kind,
        mode: Mode::Contains,
        rule,
    }
}

/// Adds an index to map 1.
fn add_index(rt: &impl Abort, book: &mut MapBook, def: &IndexDef, kit: &mut Kit)
    requires column { def.now.column ≡ 1 }
    requires indexes { HasIndexes def.now.kind (fin.get book.old 1) }
    ensures { HasIndexes def.now.kind (fin.get book.new 1) }
{
    book.index(1, def, kit).expect(rt, "an index");
}

/// A book whose map 1 is empty, with one index.
pub fn book_of(
    rt: &impl Abort,
    alloc: Global,
    kind: ColumnType,
    rule: Option<Rule>,
    kit: &mut Kit,
) -> MapBook
    ensures { HasIndexes kind (fin.get result 1) }
{
    let mut book = MapBook::new(alloc);
    book.add(1, Memtable::new(alloc, Partitioner::Lead8))
        .expect(rt, "memory");
    add_index(rt, &mut book, &def_of(alloc, 1, kind, rule), kit);
    book
}

/// A change of column 1: a value, or a tombstone where there is none.
pub fn change_of(rt: &impl Abort, alloc: Global, time: u64, value: Option<Value>) -> Partition
    requires { 0 < time }
    ensures { value_at result 1 ≡ value }
{
    let mut change = Partition::new(alloc);
    change
        .put(1, Cell { time, value })
        .expect(rt, "memory for a cell");
    change
}

// ---- what a search finds

/// The bytes of the keys, one after another.
fn line_of(rt: &impl Abort, alloc: Global, keys: &KeyList) -> Vec<u8> {
    let mut line = Vec::new(alloc);
    for key in keys.as_slice() {
        line.extend_from_slice(key.key.bytes()).expect(rt, "memory");
    }
    line
}

/// An index gives these keys, of one byte each.
fn check_index(rt: &impl Abort, alloc: Global, index: &MemIndex, op: &Op, body: &[u8], want: &str) {
    let keys = index.search(op, body).expect(rt, "memory");
    assert!(rt;
        line_of(rt, alloc, &keys).as_slice() == want.as_bytes(),
        "{op:?} {body:?}"
    );
}

/// The index with this number of map 1 gives these keys.
pub fn check_search(
    rt: &impl Abort,
    alloc: Global,
    book: &MapBook,
    number: IndexNumber,
    op: &Op,
    body: &[u8],
    want: &str,
) {
    let part = book.get(1).expect(rt, "a map");
    let index = part.indexes.get(number).expect(rt, "an index");
    check_index(rt, alloc, index, op, body, want);
}

/// The operator of a word.
fn op_of(word: &str) -> Op {
    match word {
        "eq" => Op::Eq,
        "prefix" => Op::Prefix,
        "suffix" => Op::Suffix,
        _ => Op::Contains,
    }
}

/// A search, as `eq some text`, gives these keys.
fn check_line(
    rt: &impl Abort,
    alloc: Global,
    book: &MapBook,
    number: IndexNumber,
    asked: &str,
    want: &str,
) {
    let (word, body) = asked.split_once(' ').expect(rt, "an operator and a body");
    check_search(rt, alloc, book, number, &op_of(word), body.as_bytes(), want);
}

// ---- texts

fn text_of(rt: &impl Abort, alloc: Global, text: &str) -> Value
    ensures kind { type_of result ≡ OfTexts }
    ensures text { IsText result }
{
    Value::Text(Text::new(text.as_bytes().to_vec(alloc).expect(rt, "memory")))
}

fn time_of(word: &str) -> u64
    ensures { 0 < result }
{
    match word {
        "1" => 1,
        "2" => 2,
        _ => 3,
    }
}

/// The change of a word: a text, a tombstone or a deletion of the row.
fn text_change(rt: &impl Abort, alloc: Global, word: &str, time: u64, text: &str) -> Partition
    requires { 0 < time }
    ensures { IfSome (value_at result 1) (IsValueOf OfTexts) }
{
    match word {
        "put" => change_of(rt, alloc, time, Some(text_of(rt, alloc, text))),
        "tombstone" => change_of(rt, alloc, time, None),
        _ => Partition::deletion(alloc, time),
    }
}

/// Writes what a line says, as `put a 1 some text`, `tombstone a 2` or `delete a 3`, each with a key and a time.
fn write_line(rt: &impl Abort, alloc: Global, book: &mut MapBook, line: &str, kit: &mut Kit)
    requires { HasIndexes OfTexts (fin.get book.old 1) }
    ensures { HasIndexes OfTexts (fin.get book.new 1) }
{
    let (word, rest) = line.split_once(' ').expect(rt, "a word");
    let (key, rest) = rest.split_once(' ').expect(rt, "a key");
    let (time, text) = rest.split_once(' ').unwrap_or((rest, ""));
    let key = Key::new(alloc, key.as_bytes()).expect(rt, "a key");
    let change = text_change(rt, alloc, word, time_of(time), text);
    book.put(1, &key, &change, kit).expect(rt, "memory");
}

/// Writes what a line says, or checks what it says of a search.
fn step(rt: &impl Abort, alloc: Global, book: &mut MapBook, line: &str, kit: &mut Kit)
    requires { HasIndexes OfTexts (fin.get book.old 1) }
    ensures { HasIndexes OfTexts (fin.get book.new 1) }
{
    match line.split_once("=>") {
        Some((asked, want)) => check_line(rt, alloc, book, 1, asked, want),
        None => write_line(rt, alloc, book, line, kit),
    }
}

// Writes and searches in turn. An overwritten text, a tombstone and the deletion of a row remove terms, and an older write doesn't
// change them.
const WHOLE: &str = "put b 1 the quick fox
put a 1 The quick fox
put d 1 fox
put c 1 quick
eq quick=>c
eq the quick fox=>b
eq the=>
prefix the=>b
prefix quick=>c
suffix fox=>abd
contains quick=>abc
contains Fox=>
put c 2 fox
eq quick=>
eq fox=>cd
put c 1 quick
eq quick=>
tombstone d 2
eq fox=>c
delete c 3
eq fox=>
contains quick=>ab";

const FOLDED: &str = "put a 1 The Quick
put b 1 the quick
put c 1 QUICK ÉA
eq the quick=>ab
eq The Quick=>
prefix quick=>c
suffix quick=>ab
contains Éa=>c
contains éa=>";

// A word that a text has twice is one term, and a key is given once, however many of its terms are as asked.
const WORDS: &str = "put a 1 The quick quick fox
put b 1 quick, brown
put c 1 foxes, fox
eq quick=>ab
eq quick quick=>
prefix fox=>ac
suffix own=>b
contains o=>abc
contains e=>ac
put a 2 quick
eq quick=>ab
contains e=>c
delete b 2
contains u=>a";

/// The lines hold of an index of texts.
fn check_lines(rt: &impl Abort, alloc: Global, rule: Rule, lines: &str) {
    let mut kit = kit_of_both(rt, alloc);
    let mut book = book_of(rt, alloc, ColumnType::Text, Some(rule), &mut kit);
    for line in lines.lines() {
        step(rt, alloc, &mut book, line, &mut kit);
    }
}

#[test]
fn texts_are_found_by_their_current_terms(rt: HostRuntime) {
    check_lines(&rt, rt.alloc(), Rule::Whole { fold: false }, WHOLE);
    check_lines(&rt, rt.alloc(), Rule::Whole { fold: true }, FOLDED);
    check_lines(&rt, rt.alloc(), Rule::Words { fold: false }, WORDS);
}

// ---- maps of a book

#[test]
fn index_that_comes_later_has_what_the_map_has(rt: HostRuntime) {
    let alloc = rt.alloc();
    let mut kit = kit_of_both(&rt, alloc);
    let rule = Rule::Words { fold: false };
    let mut book = book_of(&rt, alloc, ColumnType::Text, Some(rule), &mut kit);
    write_line(&rt, alloc, &mut book, "put a 1 The quick", &mut kit);
    let whole = def_of(
        alloc,
        2,
        ColumnType::Text,
        Some(Rule::Whole { fold: false }),
    );
    add_index(&rt, &mut book, &whole, &mut kit);
    write_line(&rt, alloc, &mut book, "put b 1 quick", &mut kit);
    check_line(&rt, alloc, &book, 2, "contains quick", "ab");
    check_line(&rt, alloc, &book, 2, "eq quick", "b");
    check_line(&rt, alloc, &book, 1, "eq quick", "ab");
}

/// Adds an empty map.
fn add_map(rt: &impl Abort, alloc: Global, book: &mut MapBook, number: u64) {
    book.add(number, Memtable::new(alloc, Partitioner::Lead8))
        .expect(rt, "memory");
}

#[test]
fn map_is_there_until_it_is_removed(rt: HostRuntime) {
    let mut book = MapBook::new(rt.alloc());
    add_map(&rt, rt.alloc(), &mut book, 1);
    add_map(&rt, rt.alloc(), &mut book, 2);
    book.remove(1);
    assert!(rt; book.get(1).is_none() && book.get(2).is_some() && book.get(3).is_none());
}

#[test]
fn indexes_of_a_map_are_listed(rt: HostRuntime) {
    let mut kit = kit_of_both(&rt, rt.alloc());
    let book = book_of(&rt, rt.alloc(), ColumnType::Int, None, &mut kit);
    let part = book.get(1).expect(&rt, "a map");
    assert!(rt; part.indexes.as_slice().len() == 1 && part.indexes.get(2).is_none());
}

/// An index whose class the kit lacks isn't added to map 1, which has a text.
fn check_not_indexed(rt: &impl Abort, alloc: Global, book: &mut MapBook, none: &mut Kit)
    requires { HasIndexes OfTexts (fin.get book.old 1) }
    ensures { book.new ≡ book.old }
{
    let rule = Rule::Whole { fold: false };
    let def = def_of(alloc, 2, ColumnType::Text, Some(rule));
    let Err(fault) = book.index(1, &def, none) else {
        panic!(rt; "an index was added");
    };
    assert!(rt; fault == KitFault::Missing(Class::NonTokenizing));
}

/// A text whose terms need a class that the kit lacks isn't put.
fn check_not_put(rt: &impl Abort, alloc: Global, book: &mut MapBook, none: &mut Kit)
    requires { HasIndexes OfTexts (fin.get book.old 1) }
{
    let key = Key::new(alloc, b"b").expect(rt, "a key");
    let change = text_change(rt, alloc, "put", 1, "x");
    let answer = book.put(1, &key, &change, none);
    assert!(rt; answer == Err(KitFault::Missing(Class::Standard)));
}

#[test]
fn class_that_the_kit_lacks_is_missing(rt: HostRuntime) {
    let alloc = rt.alloc();
    let mut kit = kit_of_both(&rt, alloc);
    let rule = Rule::Words { fold: false };
    let mut book = book_of(&rt, alloc, ColumnType::Text, Some(rule), &mut kit);
    write_line(&rt, alloc, &mut book, "put a 1 fox", &mut kit);
    let mut none = Kit::new(Vec::new(alloc));
    check_not_indexed(&rt, alloc, &mut book, &mut none);
    check_line(&rt, alloc, &book, 1, "eq fox", "a");
    check_not_put(&rt, alloc, &mut book, &mut none);
}

// ---- an index alone

fn text_cell(rt: &impl Abort, alloc: Global, text: &str) -> Cell
    ensures { IsCellOf OfTexts (Some result) }
{
    Cell {
        time: 1,
        value: Some(text_of(rt, alloc, text)),
    }
}

/// Puts a cell in the place of another one, at a key.
fn replace(
    rt: &impl Abort,
    index: &mut MemIndex,
    key: &DecoratedKey,
    old: Option<&Cell>,
    new: Option<&Cell>,
    kit: &mut Kit,
)
    requires current { HasTermsAt index.old key.now (terms_of_cell index.old.rule (option_copied old)) }
    requires old_value { IsCellOf index.old.kind (option_copied old) }
    requires new_value { IsCellOf index.old.kind (option_copied new) }
    ensures current { HasTermsAt index.new key.now (terms_of_cell index.new.rule (option_copied new.entry)) }
    ensures kind { index.new.kind ≡ index.old.kind }
{
    index.put(key, old, new, kit).expect(rt, "memory");
}

/// A kit without analyzers replaces no cell.
fn check_missing(
    rt: &impl Abort,
    alloc: Global,
    index: &mut MemIndex,
    key: &DecoratedKey,
    old: &Cell,
    new: &Cell,
)
    requires current { HasTermsAt index.old key.now (terms_of_cell index.old.rule (Some old.now)) }
    requires old_value { IsCellOf index.old.kind (Some old.now) }
    requires new_value { IsCellOf index.old.kind (Some new.now) }
{
    let mut none = Kit::new(Vec::new(alloc));
    let answer = index.put(key, Some(old), Some(new), &mut none);
    assert!(rt; answer == Err(KitFault::Missing(Class::Standard)));
}

#[test]
fn put_replaces_the_terms_of_a_key(rt: HostRuntime) {
    let alloc = rt.alloc();
    let mut kit = kit_of_both(&rt, alloc);
    let token = 5;
    let key = Key::new(alloc, b"k").expect(&rt, "a key");
    let key = DecoratedKey { token, key };
    let fox = text_cell(&rt, alloc, "quick fox");
    let brown = text_cell(&rt, alloc, "quick, brown");
    let rule = Rule::Words { fold: true };
    let mut index = MemIndex::new(alloc, &def_of(alloc, 1, ColumnType::Text, Some(rule)));
    replace(&rt, &mut index, &key, None, Some(&fox), &mut kit);
    check_index(&rt, alloc, &index, &Op::Eq, b"fox", "k");
    replace(&rt, &mut index, &key, Some(&fox), Some(&brown), &mut kit);
    check_index(&rt, alloc, &index, &Op::Eq, b"fox", "");
    check_index(&rt, alloc, &index, &Op::Eq, b"quick", "k");
    check_missing(&rt, alloc, &mut index, &key, &brown, &fox);
    check_index(&rt, alloc, &index, &Op::Eq, b"brown", "k");
}
