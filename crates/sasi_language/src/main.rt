//! Prints what the language makes of each line of stdin: the statement that the parser reads, field by field, or the offset of the
//! syntax error. A line is the text of a piece, in which `\n` stands for the end of a line, unless it begins with one of these:
//!
//! - `# TITLE` is printed as it is.
//! - `hex DIGITS` is a piece of these bytes, in hexadecimal.
//! - `parse TEXT` prints of a piece only whether it has a statement.
//! - `whole TEXT` and `words TEXT` print the terms of a text, each between `[` and `]`; `fold whole TEXT` and `fold words TEXT`
//!   print them with A to Z folded.
//!
//! Names are printed as they are, texts and uuids in hexadecimal, and a number of more than 128 bits as `wide`.
#![tactic(auto)]

mod fields;
mod statements;
mod terms;

use crate::statements::add_statement;
use crate::terms::add_terms;
use sasi_cql::{ParseFault, parse};
use sasi_types::{Rule, Statement};
use std::alloc::{AllocError, Global};
use std::{io, str};

fn add_fault(line: &mut String, fault: ParseFault) -> Result<(), AllocError> {
    match fault {
        ParseFault::Syntax { at } => write!(line, "syntax at {at}"),
        ParseFault::OutOfMemory => line.push_str("out of memory"),
    }
}

// Adds each statement.
fn add_each(line: &mut String, alloc: Global, statements: &[Statement]) -> Result<(), AllocError> {
    for statement in statements {
        add_statement(line, alloc, statement)?;
    }
    Ok(())
}

// Adds a statement. A list owns it: to borrow and then drop a statement is proved variant by variant.
fn add_owned(line: &mut String, alloc: Global, statement: Statement) -> Result<(), AllocError> {
    add_each(line, alloc, &vec![in alloc; statement]?)
}

// What the parser makes of a text: a statement, or a fault.
fn add_piece(line: &mut String, alloc: Global, text: &str) -> Result<(), AllocError> {
    match parse(alloc, text) {
        Ok(statement) => add_owned(line, alloc, statement),
        Err(fault) => add_fault(line, fault),
    }
}

// The same of a text in which `\n` stands for the end of a line.
fn add_escaped(line: &mut String, alloc: Global, text: &str) -> Result<(), AllocError> {
    add_piece(line, alloc, &text.replace(alloc, "\\n", "\n")?)
}

// The fault of a text that has no statement.
fn fault_of(alloc: Global, text: &str) -> Option<ParseFault> {
    parse(alloc, text).err()
}

// Whether the text has a statement.
fn add_parsed(line: &mut String, alloc: Global, text: &str) -> Result<(), AllocError> {
    match fault_of(alloc, text) {
        None => line.push_str("a statement"),
        Some(fault) => add_fault(line, fault),
    }
}

// What the parser makes of bytes, where they are a text.
fn add_bytes(line: &mut String, alloc: Global, bytes: &[u8]) -> Result<(), AllocError> {
    match str::from_utf8(bytes) {
        Ok(text) => add_piece(line, alloc, text),
        Err(_) => line.push_str("not UTF-8"),
    }
}

// What the parser makes of bytes in hexadecimal.
fn add_digits(line: &mut String, alloc: Global, digits: &str) -> Result<(), AllocError> {
    let Ok(bytes) = hex::decode(alloc, digits) else {
        return line.push_str("no digits");
    };
    add_bytes(line, alloc, &bytes)
}

// The first word, and what follows the space after it.
fn front_word(line: &str) -> (&str, &str) {
    line.split_once(' ').unwrap_or((line, ""))
}

// The terms of a text, folded.
fn add_folded(line: &mut String, alloc: Global, asked: &str) -> Result<(), AllocError> {
    let (word, text) = front_word(asked);
    match word {
        "whole" => add_terms(line, alloc, Rule::Whole { fold: true }, text),
        _ => add_terms(line, alloc, Rule::Words { fold: true }, text),
    }
}

// What is printed of a line of stdin.
fn add_answer(line: &mut String, alloc: Global, asked: &str) -> Result<(), AllocError> {
    let (word, rest) = front_word(asked);
    match word {
        "#" => line.push_str(asked),
        "hex" => add_digits(line, alloc, rest),
        "parse" => add_parsed(line, alloc, rest),
        "whole" => add_terms(line, alloc, Rule::Whole { fold: false }, rest),
        "words" => add_terms(line, alloc, Rule::Words { fold: false }, rest),
        "fold" => add_folded(line, alloc, rest),
        _ => add_escaped(line, alloc, asked),
    }
}

fn print_answer(rt: &impl Print, alloc: Global, asked: &str) -> io::Result<()> {
    let mut line = String::new(alloc);
    add_answer(&mut line, alloc, asked)?;
    println!(rt; "{line}")
}

fn print_answers(rt: &impl Print, alloc: Global, text: &str) -> io::Result<()> {
    for asked in text.lines() {
        print_answer(rt, alloc, asked)?;
    }
    Ok(())
}

fn main(rt: HostRuntime) -> io::Result<()> {
    let alloc = rt.alloc();
    print_answers(&rt, alloc, &io::read_to_string(alloc, rt.reader())?)
}
