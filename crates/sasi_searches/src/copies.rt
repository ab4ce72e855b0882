// Copies of a file that are cut or changed, and what their searches give.
use crate::asked::Asked;
use crate::found::result_of;
use std::alloc::{AllocError, Global};
use std::io;

// Adds so many zero bytes.
fn add_zeros(bytes: &mut Vec<u8>, count: u64) -> Result<(), AllocError> {
    for _turn in 0..count {
        bytes.push(0)?;
    }
    Ok(())
}

// Adds bytes in hexadecimal, or `*` and a number of zero bytes.
fn add_part(alloc: Global, bytes: &mut Vec<u8>, part: &str) -> Result<(), AllocError> {
    if let Some(count) = part.strip_prefix("*") {
        return add_zeros(bytes, count.parse::<u64>().unwrap_or(0));
    }
    match hex::decode(alloc, part) {
        Ok(more) => bytes.extend_from_slice(&more),
        Err(_) => Ok(()),
    }
}

/// The bytes of a file.
pub fn parse_parts(alloc: Global, line: &str) -> Result<Vec<u8>, AllocError> {
    let mut bytes = Vec::new(alloc);
    for part in line.split(' ') {
        add_part(alloc, &mut bytes, part)?;
    }
    Ok(bytes)
}

// The number before the first space, and what stands behind it.
fn number(line: &str) -> Option<(u64, &str)> {
    let (digits, rest) = line.split_once(' ')?;
    match digits.parse::<u64>() {
        Ok(number) => Some((number, rest)),
        Err(_) => None,
    }
}

// Two numbers, and what stands behind them.
fn two_numbers(line: &str) -> Option<(u64, u64, &str)> {
    let (first, rest) = number(line)?;
    let (second, rest) = number(rest)?;
    Some((first, second, rest))
}

// Prints what a copy gives, unless the one before gave the same.
fn print_new(rt: &impl Print, at: u64, before: &str, now: &str) -> io::Result<()> {
    if before == now {
        return Ok(());
    }
    println!(rt; "{at} {now}")
}

// Searches copies that are cut to each of these lengths.
fn print_cuts(
    rt: &impl Print,
    alloc: Global,
    bytes: &[u8],
    from: u64,
    to: u64,
    asked: &Asked,
) -> io::Result<()> {
    let mut before = String::new(alloc);
    for length in from..=to {
        let front = bytes.get(..length as usize).unwrap_or(bytes);
        let now = result_of(alloc, front, asked)?;
        print_new(rt, length, &before, &now)?;
        before = now;
    }
    Ok(())
}

/// Searches copies that are cut: `FROM TO ASKED`.
pub fn search_cuts(rt: &impl Print, alloc: Global, bytes: &[u8], line: &str) -> io::Result<()> {
    let Some((from, to, rest)) = two_numbers(line) else {
        return println!(rt; "numbers are missing");
    };
    let Some(asked) = Asked::parse(alloc, rest) else {
        return println!(rt; "nothing asked");
    };
    print_cuts(rt, alloc, bytes, from, to, &asked)
}

// The bytes, with some bits turned at this offset.
fn changed(alloc: Global, bytes: &[u8], at: u64, mask: u8) -> Result<Vec<u8>, AllocError> {
    let mut changed = bytes.to_vec(alloc)?;
    if let Some(old) = changed.get_mut(at as usize) {
        *old ^= mask;
    }
    Ok(changed)
}

// Searches copies in which each of these bytes in turn is changed.
fn print_changed(
    rt: &impl Print,
    alloc: Global,
    bytes: &[u8],
    from: u64,
    to: u64,
    mask: u8,
    asked: &Asked,
) -> io::Result<()> {
    let mut before = String::new(alloc);
    for at in from..=to {
        let copy = changed(alloc, bytes, at, mask)?;
        let now = result_of(alloc, &copy, asked)?;
        print_new(rt, at, &before, &now)?;
        before = now;
    }
    Ok(())
}

/// Searches copies with a changed byte: `FROM TO MASK ASKED`.
pub fn search_changed(rt: &impl Print, alloc: Global, bytes: &[u8], line: &str) -> io::Result<()> {
    let Some((from, to, rest)) = two_numbers(line) else {
        return println!(rt; "numbers are missing");
    };
    let Some((mask, rest)) = number(rest) else {
        return println!(rt; "a mask is missing");
    };
    let Some(asked) = Asked::parse(alloc, rest) else {
        return println!(rt; "nothing asked");
    };
    print_changed(rt, alloc, bytes, from, to, (mask % 256) as u8, &asked)
}
