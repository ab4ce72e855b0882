// Manifests that list index files, and ones of which a byte changed.
use crate::fixture::changed;
use crate::manifests::{damage_at, damage_in, opened};
use sasi_host::FormatRule;
use sasi_manifest::{ListedTable, Manifest, PartNumber};
use std::alloc::Global;
use std::process::Abort;

// A manifest of two records. The first has a start, the table t with the key k, the text a and the int b, the table s with the key k
// and the text a, the indexes i on a and j on b of t, which are numbers 3 and 7, and the index l on a of s, which is number 5. The
// second adds data file 4 to t, with part 1 of index 3 and part 2 of index 7.
const LISTED: [u8; 185] = [
    b'S', b'A', b'S', b'I', b'M', b'A', b'N', b'1', 0, 0, 0, 1, 0, 0, 0, 1, 1, 0, 0, 0, 107, 0, 0,
    0, 6, 1, 0, 0, 0, 0, 1, 0, 0, 0, 1, 2, 0, 0, 0, 1, 1, b't', 0, 3, 1, b'k', 0, 1, b'a', 0, 1,
    b'b', 1, 0, 0, 0, 0, 0, 1, 2, 0, 0, 0, 2, 1, b's', 0, 2, 1, b'k', 0, 1, b'a', 0, 0, 0, 0, 0, 0,
    1, 3, 0, 0, 0, 3, 0, 0, 0, 1, 1, b'i', 0, 1, 0, 1, 0, 3, 0, 0, 0, 5, 0, 0, 0, 2, 1, b'l', 0, 1,
    0, 1, 0, 3, 0, 0, 0, 7, 0, 0, 0, 1, 1, b'j', 0, 2, 0, 0, 0, 1, 0, 0, 0, 51, 0, 0, 0, 1, 5, 0,
    0, 0, 1, 0, 0, 0, 0, 0, 0, 0, 1, 0, 0, 0, 4, 0, 2, 0, 0, 0, 3, 0, 0, 0, 1, 0, 0, 0, 7, 0, 0, 0,
    2, 0, 0, 0, 1, 0, 0, 0, 1, 0, 0, 0, 1, 0,
];

// Whether these are part 1 of index 3 and part 2 of index 7.
fn are_both(parts: &[PartNumber]) -> bool {
    match parts {
        [first, second] => (first.index, first.part, second.index, second.part) == (3, 1, 7, 2),
        _ => false,
    }
}

// Whether the one file of the table is number 4, and has both.
fn has_both(table: &ListedTable) -> bool {
    match table.files.as_slice() {
        [file] => file.number == 4 && are_both(file.parts.as_slice()),
        _ => false,
    }
}

// Whether the first table has the file with both, and the second none.
fn lists_both(manifest: &Manifest) -> bool {
    match manifest.listing().tables.as_slice() {
        [first, second] => has_both(first) && second.files.as_slice().is_empty(),
        _ => false,
    }
}

#[test]
fn parts_are_listed(rt: HostRuntime) {
    let manifest = opened(&rt, rt.alloc(), &LISTED).expect(&rt, "a manifest");
    assert!(rt; lists_both(&manifest));
    let listing = manifest.listing();
    assert!(rt; (listing.records, listing.length) == (2, 185));
}

// What a byte is changed to, and where the damage is seen: an index of no table, or of another one, a part 0, an index that isn't above
// that of the part before, and one part more than there is. The field is the number, or the pair that isn't in order.
const DAMAGES: [(usize, u8, usize, usize, FormatRule); 13] = [
    (159, 0, 156, 160, FormatRule::Number),
    (159, 4, 156, 160, FormatRule::Number),
    (159, 5, 156, 160, FormatRule::Number),
    (156, 1, 156, 160, FormatRule::Number),
    (163, 0, 160, 164, FormatRule::Number),
    (167, 0, 164, 168, FormatRule::Number),
    (167, 5, 164, 168, FormatRule::Number),
    (171, 0, 168, 172, FormatRule::Number),
    (159, 7, 164, 172, FormatRule::Order),
    (167, 3, 164, 172, FormatRule::Order),
    (155, 3, 172, 176, FormatRule::Number),
    (141, 2, 156, 160, FormatRule::Number),
    (141, 3, 138, 142, FormatRule::Number),
];

// The manifest with another byte at this offset has the damage.
fn check_changed(
    rt: &impl Abort,
    alloc: Global,
    bytes: &[u8],
    change: (usize, u8),
    field: (usize, usize, FormatRule),
) {
    let (at, byte) = change;
    let bytes = changed(rt, alloc, bytes, at, byte);
    let damage = damage_at(rt, &bytes, field.0, field.1, field.2);
    assert!(rt;
        damage_in(rt, alloc, &bytes) == Some(damage),
        "{byte} at {at}"
    );
}

#[test]
fn part_that_may_not_stand_there_is_damage(rt: HostRuntime) {
    for (at, byte, from, to, rule) in DAMAGES {
        check_changed(&rt, rt.alloc(), &LISTED, (at, byte), (from, to, rule));
    }
}

// Of two faults of the second part the first of these is told: its index is none of the table's, its number is 0, it isn't above the first.
const SECOND_FAULTS: [(usize, u8, u8, usize, usize, FormatRule); 2] = [
    (167, 3, 0, 168, 172, FormatRule::Number),
    (167, 5, 0, 164, 168, FormatRule::Number),
];

#[test]
fn first_fault_of_a_part_is_told(rt: HostRuntime) {
    for (at, byte, part, from, to, rule) in SECOND_FAULTS {
        let bytes = changed(&rt, rt.alloc(), &LISTED, at, byte);
        check_changed(&rt, rt.alloc(), &bytes, (171, part), (from, to, rule));
    }
}

// Each of these bytes gives other parts that may stand there: another number of the first, one that the second has too, and of the second.
const OTHERS: [(usize, u8); 3] = [(163, 9), (163, 2), (168, 1)];

#[test]
fn other_parts_are_read(rt: HostRuntime) {
    for (at, byte) in OTHERS {
        let bytes = changed(&rt, rt.alloc(), &LISTED, at, byte);
        let manifest = opened(&rt, rt.alloc(), &bytes).expect(&rt, "a manifest");
        assert!(rt; !lists_both(&manifest), "{byte} at {at}");
    }
}
