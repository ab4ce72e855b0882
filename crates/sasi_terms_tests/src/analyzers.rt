//! The terms of texts in several scripts.
use sasi_analyzers::{Analyzer, Kit, Whole, Words};
use sasi_types::{Class, KitFault, Rule, Term, TermList};
use std::alloc::Global;
use std::process::Abort;

/// Adds a term to a line of terms.
fn add(rt: &impl Abort, line: &mut Vec<u8>, term: &Term) {
    line.push(b'|').expect(rt, "memory");
    line.extend_from_slice(term.bytes()).expect(rt, "memory");
}

/// The line of the terms, with a bar in front of each.
fn line_of(rt: &impl Abort, alloc: Global, terms: &TermList) -> Vec<u8> {
    let mut line = Vec::new(alloc);
    for term in terms.as_slice() {
        add(rt, &mut line, term);
    }
    line
}

/// Whether the terms make this line.
fn are(rt: &impl Abort, alloc: Global, terms: &TermList, want: &str) -> bool {
    line_of(rt, alloc, terms).as_slice() == want.as_bytes()
}

/// A kit gives these terms of a text.
fn check_terms(rt: &impl Abort, alloc: Global, kit: &mut Kit, rule: Rule, text: &str, want: &str) {
    let mut terms = TermList::new(alloc);
    let answer = kit.terms(alloc, rule, text, &mut terms);
    assert!(rt; answer == Ok(()), "{text}");
    assert!(rt; are(rt, alloc, &terms, want), "{text}");
}

// Texts with their words. The first is that of the tests of unicode_segmentation and, with curly quotes, of Unicode's annex 29,
// then come the examples that its rules name, and then lines of its file WordBreakTest.
const WORDS: &str =
    "The quick (\"brown\") fox can't jump 32.3 feet, right?=>|The|quick|brown|fox|can't|jump|32.3|feet|right
The quick (“brown”) fox can’t jump 32.3 feet, right?=>|The|quick|brown|fox|can’t|jump|32.3|feet|right
e.g. example.com=>|e.g|example.com
3a A3 3.2 3,456.789=>|3a|A3|3.2|3,456.789
漢字=>|漢|字
A:A=>|A:A
A::A=>|A|A
A00A=>|A00A
0,0=>|0,0
0,,0=>|0|0
A_0_〱_=>|A_0_〱_
A__A=>|A__A
〱〱=>|〱〱
א\"א=>|א\"א
א'=>|א'
ن\u{200d} =>|ن\u{200d}
 \u{200d}ن=>|ن
a\u{308}=>|a\u{308}
a🇦🇧🇨b=>|a|b
.,;=>
=>";

/// A text has these words.
fn check_words(rt: &impl Abort, alloc: Global, kit: &mut Kit, case: &str) {
    let (text, want) = case.split_once("=>").expect(rt, "a text and its words");
    check_terms(rt, alloc, kit, Rule::Words { fold: false }, text, want);
}

/// Hands an analyzer in.
fn hand_in(rt: &impl Abort, objects: &mut Vec<Box<dyn Analyzer>>, object: Box<dyn Analyzer>) {
    assert!(rt; objects.push(object).is_ok());
}

#[test]
fn words_are_those_of_unicode(rt: HostRuntime) {
    let alloc = rt.alloc();
    let mut objects: Vec<Box<dyn Analyzer>> = Vec::new(alloc);
    let words = Box::new(alloc, Words::new(alloc)).expect(&rt, "memory");
    hand_in(&rt, &mut objects, words);
    let mut kit = Kit::new(objects);
    for case in WORDS.split('\n') {
        check_words(&rt, alloc, &mut kit, case);
    }
}

/// A kit of both analyzers gives these terms.
fn check_both(rt: &impl Abort, alloc: Global, kit: &mut Kit) {
    let rule = Rule::Whole { fold: false };
    check_terms(rt, alloc, kit, rule, "The ÄB", "|The ÄB");
    check_terms(rt, alloc, kit, rule, "", "|");
    let rule = Rule::Whole { fold: true };
    check_terms(rt, alloc, kit, rule, "@The ÄZ[", "|@the Äz[");
    let rule = Rule::Words { fold: true };
    check_terms(rt, alloc, kit, rule, "The Quick fox", "|the|quick|fox");
}

/// A kit of both analyzers.
pub fn kit_of_both(rt: &impl Abort, alloc: Global) -> Kit {
    let mut objects: Vec<Box<dyn Analyzer>> = Vec::new(alloc);
    let words = Box::new(alloc, Words::new(alloc)).expect(rt, "memory");
    hand_in(rt, &mut objects, words);
    let whole = Box::new(alloc, Whole::new()).expect(rt, "memory");
    hand_in(rt, &mut objects, whole);
    Kit::new(objects)
}

#[test]
fn kit_finds_the_analyzer_of_a_rule(rt: HostRuntime) {
    let mut kit = kit_of_both(&rt, rt.alloc());
    check_both(&rt, rt.alloc(), &mut kit);
}

/// A kit without an analyzer of words says so, and gives no term.
fn check_no_words(rt: &impl Abort, alloc: Global, kit: &mut Kit) {
    let mut terms = TermList::new(alloc);
    let answer = kit.terms(alloc, Rule::Words { fold: false }, "x", &mut terms);
    assert!(rt; answer == Err(KitFault::Missing(Class::Standard)));
    assert!(rt; terms.as_slice().is_empty());
    assert!(rt; kit.has(Class::NonTokenizing) && !kit.has(Class::Standard));
}

#[test]
fn class_that_a_kit_lacks_is_missing(rt: HostRuntime) {
    let alloc = rt.alloc();
    let mut objects: Vec<Box<dyn Analyzer>> = Vec::new(alloc);
    let whole = Box::new(alloc, Whole::new()).expect(&rt, "memory");
    hand_in(&rt, &mut objects, whole);
    check_no_words(&rt, alloc, &mut Kit::new(objects));
}
