// Data files that were cut, and ones of which a byte changed.
use crate::fixture::{DATA, ONE, TOKEN, changed, host_of};
use crate::reading::{body_at, find_in, open_whole};
use sasi_host::{Damage, FormatRule, found};
use std::alloc::Global;
use std::process::Abort;

// The damage of these bytes by this rule, from an offset up to another.
fn damage_at(rt: &impl Abort, bytes: &[u8], from: usize, to: usize, rule: FormatRule) -> Damage {
    if rule == FormatRule::Short {
        let size = bytes.len() as u64;
        return found(DATA, size, rule, &size.to_be_bytes());
    }
    let seen = bytes.get(from..to).expect(rt, "bytes");
    assert!(rt; seen.len() <= 8);
    found(DATA, from as u64, rule, seen)
}

/// Whether a file of these bytes has key k1, or the damage.
fn find_one(rt: &impl Abort, alloc: Global, bytes: &[u8]) -> Result<bool, Damage> {
    let mut host = host_of(rt, alloc, bytes);
    let found = find_in(rt, alloc, &mut host, TOKEN, b"k1");
    drop(host);
    found
}

/// The file of one partition, cut to this size, is damaged.
fn check_cut(rt: &impl Abort, alloc: Global, size: usize) {
    let cut = ONE.get(..size).expect(rt, "a front");
    let damage = if size < 97 {
        damage_at(rt, cut, 0, 0, FormatRule::Short)
    } else {
        damage_at(rt, cut, size - 8, size, FormatRule::Magic)
    };
    assert!(rt; find_one(rt, alloc, cut) == Err(damage), "at {size}");
}

#[test]
fn cut_file_is_damaged(rt: HostRuntime) {
    for size in 0..ONE.len() {
        check_cut(&rt, rt.alloc(), size);
    }
}

// Where the last bit of a byte from the first of these offsets up to the second is turned: the offsets between which the
// damage is seen, and its rule.
const DAMAGES: [(usize, usize, usize, usize, FormatRule); 26] = [
    (0, 8, 0, 8, FormatRule::Magic),
    (8, 12, 8, 12, FormatRule::Version),
    (12, 16, 12, 16, FormatRule::Number),
    (16, 21, 16, 20, FormatRule::Number),
    (21, 22, 33, 35, FormatRule::Number),
    (24, 31, 36, 44, FormatRule::Number),
    (32, 33, 32, 34, FormatRule::Number),
    (33, 34, 16, 20, FormatRule::Number),
    (34, 35, 34, 36, FormatRule::Number),
    (35, 36, 47, 55, FormatRule::Order),
    (44, 45, 44, 45, FormatRule::Number),
    (45, 47, 45, 47, FormatRule::Number),
    (47, 48, 47, 49, FormatRule::Number),
    (48, 49, 47, 55, FormatRule::Order),
    (57, 60, 16, 20, FormatRule::Number),
    (61, 62, 61, 62, FormatRule::Number),
    (62, 63, 62, 63, FormatRule::Number),
    (63, 65, 63, 65, FormatRule::Number),
    (65, 69, 65, 69, FormatRule::Number),
    (77, 84, 77, 85, FormatRule::Place),
    (84, 85, 17, 21, FormatRule::Number),
    (85, 93, 85, 93, FormatRule::Place),
    (93, 101, 93, 101, FormatRule::Number),
    (109, 116, 109, 117, FormatRule::Place),
    (116, 117, 93, 101, FormatRule::Number),
    (117, 125, 117, 125, FormatRule::Magic),
];

/// The damage where this byte of the file was changed.
fn damage_of(rt: &impl Abort, bytes: &[u8], at: usize) -> Option<Damage> {
    for (first, last, from, to, rule) in DAMAGES {
        if first <= at && at < last {
            return Some(damage_at(rt, bytes, from, to, rule));
        }
    }
    None
}

/// The body of the one partition in a file of these bytes.
fn body_in(rt: &impl Abort, alloc: Global, bytes: &[u8]) -> Vec<u8> {
    let mut host = host_of(rt, alloc, bytes);
    let data = open_whole(rt, alloc, &mut host);
    let body = body_at(rt, alloc, &mut host, &data, 16);
    drop(data);
    drop(host);
    body
}

/// A file of these bytes, of which this one was changed, is damaged there, or has another partition.
fn check_bytes(rt: &impl Abort, alloc: Global, bytes: &[u8], at: usize) {
    let found = find_one(rt, alloc, bytes);
    if let Some(damage) = damage_of(rt, bytes, at) {
        assert!(rt; found == Err(damage), "at {at}");
    } else {
        assert!(rt; found == Ok(at != 22 && at != 23), "at {at}");
        let body = body_in(rt, alloc, bytes);
        assert!(rt; bytes.get(20..61) == Some(body.as_slice()), "at {at}");
    }
}

/// Checks the file of one partition where the last bit of this byte is turned.
fn check_changed(rt: &impl Abort, alloc: Global, at: usize) {
    let byte = ONE.get(at).expect(rt, "a byte");
    let bytes = changed(rt, alloc, &ONE, at, *byte ^ 1);
    check_bytes(rt, alloc, &bytes, at);
}

#[test]
fn changed_byte_is_damage_or_read(rt: HostRuntime) {
    for at in (0..69).chain(77..125) {
        check_changed(&rt, rt.alloc(), at);
    }
}

// Offsets that can't be right in the file of one partition, and where they stand: those of the key tree's root, which can
// only be 61, and those of a partition, which ends by 61.
const WRONG_OFFSETS: [(usize, u64); 8] = [
    (85, 0),
    (85, 60),
    (85, 62),
    (85, 1_000_000_000),
    (85, u64::MAX),
    (77, 15),
    (77, 45),
    (77, u64::MAX),
];

/// The file of one partition, with this number of eight bytes at an offset.
fn with_number(rt: &impl Abort, alloc: Global, at: usize, number: u64) -> Vec<u8> {
    let front = ONE.get(..at).expect(rt, "a front");
    let rest = ONE.get(at.saturating_add(8)..).expect(rt, "a rest");
    let mut bytes = front.to_vec(alloc).expect(rt, "memory for bytes");
    bytes
        .extend_from_slice(&number.to_be_bytes())
        .expect(rt, "memory for a number");
    bytes
        .extend_from_slice(rest)
        .expect(rt, "memory for the rest");
    bytes
}

/// The file with this offset in it is damaged there.
fn check_place(rt: &impl Abort, alloc: Global, at: usize, place: u64) {
    let bytes = with_number(rt, alloc, at, place);
    let damage = damage_at(rt, &bytes, at, at.saturating_add(8), FormatRule::Place);
    assert!(rt;
        find_one(rt, alloc, &bytes) == Err(damage),
        "{place} at {at}"
    );
}

#[test]
fn wrong_place_is_damage_where_it_stands(rt: HostRuntime) {
    for (at, place) in WRONG_OFFSETS {
        check_place(&rt, rt.alloc(), at, place);
    }
}
