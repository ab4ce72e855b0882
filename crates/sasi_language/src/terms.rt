// The terms of texts.
use sasi_analyzers::{Analyzer, Kit, Whole, Words};
use sasi_types::{Rule, Term, TermList};
use std::alloc::{AllocError, Global};
use std::str;

// Asks a kit for the terms of a text. It gives false where memory runs out.
fn ask(kit: &mut Kit, alloc: Global, rule: Rule, text: &str, out: &mut TermList) -> bool {
    out.clear();
    kit.terms(alloc, rule, text, out).is_ok()
}

// The terms of a text, by a kit of both analyzers.
fn terms_of(alloc: Global, rule: Rule, text: &str, out: &mut TermList) -> Result<bool, AllocError> {
    let mut objects: Vec<Box<dyn Analyzer>> = Vec::new(alloc);
    objects.push(Box::new(alloc, Whole::new())?)?;
    objects.push(Box::new(alloc, Words::new(alloc))?)?;
    let mut kit = Kit::new(objects);
    Ok(ask(&mut kit, alloc, rule, text, out))
}

fn add_each_term(line: &mut String, terms: &[Term]) -> Result<(), AllocError> {
    for term in terms {
        write!(
            line,
            "[{}]",
            str::from_utf8(term.bytes()).unwrap_or("not UTF-8")
        )?;
    }
    Ok(())
}

/// The terms of a text.
pub fn add_terms(
    line: &mut String,
    alloc: Global,
    rule: Rule,
    text: &str,
) -> Result<(), AllocError> {
    let mut terms = TermList::new(alloc);
    if !terms_of(alloc, rule, text, &mut terms)? {
        return line.push_str("out of memory");
    }
    add_each_term(line, terms.as_slice())
}
