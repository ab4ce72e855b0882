// Manifests that list indexes, and ones of which a byte changed.
use crate::fixture::changed;
use sasi_host::{Damage, FileName, FormatRule, Kind, MemHost, ReadFault, found};
use sasi_manifest::{ListedTable, Manifest};
use sasi_types::{ColumnType, IndexDef, Mode, Rule};
use std::alloc::Global;
use std::process::Abort;

const MANIFEST: FileName = FileName {
    kind: Kind::Manifest,
    number: 1,
    index: 0,
    part: 0,
};

// A manifest of two records. The first has a start, the table t with the key k, the text a and the int b, and the index i on a, which is
// number 3. The second has the index j on b, which is number 7.
const INDEXED: [u8; 101] = [
    b'S', b'A', b'S', b'I', b'M', b'A', b'N', b'1', 0, 0, 0, 1, 0, 0, 0, 1, 1, 0, 0, 0, 54, 0, 0,
    0, 3, 1, 0, 0, 0, 0, 1, 0, 0, 0, 1, 2, 0, 0, 0, 1, 1, b't', 0, 3, 1, b'k', 0, 1, b'a', 0, 1,
    b'b', 1, 0, 0, 0, 0, 0, 1, 3, 0, 0, 0, 3, 0, 0, 0, 1, 1, b'i', 0, 1, 1, 2, 1, 1, 0, 0, 0, 20,
    0, 0, 0, 1, 3, 0, 0, 0, 7, 0, 0, 0, 1, 1, b'j', 0, 2, 2, 0, 0, 0,
];

/// Opens the manifest of these bytes.
pub fn opened(rt: &impl Abort, alloc: Global, bytes: &[u8]) -> Result<Manifest, ReadFault> {
    let mut host = MemHost::new(alloc);
    host.put(MANIFEST, bytes).expect(rt, "memory for a file");
    assert!(rt; host.bytes(MANIFEST).is_some());
    let manifest = Manifest::open(alloc, &mut host, 1);
    drop(host);
    manifest
}

/// The corruption of a manifest of these bytes.
pub fn damage_in(rt: &impl Abort, alloc: Global, bytes: &[u8]) -> Option<Damage> {
    match opened(rt, alloc, bytes) {
        Err(ReadFault::Damaged(damage)) => Some(damage),
        _ => None,
    }
}

// The index is this one: its number, name, column, the type of that, the mode and the rule.
fn is_index(
    def: &IndexDef,
    number: u32,
    name: &[u8],
    column: u16,
    kind: ColumnType,
    how: (Mode, Option<Rule>),
) -> bool {
    (def.number, def.table, def.column, def.kind) == (number, 1, column, kind)
        && def.name.bytes() == name
        && (def.mode, def.rule) == how
}

// The table has the indexes i and j.
fn has_both(table: &ListedTable) -> bool {
    let words = Some(Rule::Words { fold: true });
    match table.table.indexes.as_slice() {
        [i, j] => {
            is_index(i, 3, b"i", 1, ColumnType::Text, (Mode::Contains, words))
                && is_index(j, 7, b"j", 2, ColumnType::Int, (Mode::Sparse, None))
        }
        _ => false,
    }
}

// Whether the one listed table has both.
fn lists_both(manifest: &Manifest) -> bool {
    match manifest.listing().tables.as_slice() {
        [table] => has_both(table),
        _ => false,
    }
}

#[test]
fn indexes_are_listed(rt: HostRuntime) {
    let manifest = opened(&rt, rt.alloc(), &INDEXED).expect(&rt, "a manifest");
    assert!(rt; lists_both(&manifest));
    let listing = manifest.listing();
    assert!(rt; (listing.records, listing.length) == (2, 101));
    assert!(rt; listing.tables.largest_index() == 7);
}

// What a byte is changed to, and where the damage is seen: at the field from an offset up to another, by a rule.
const DAMAGES: [(usize, u8, usize, usize, FormatRule); 23] = [
    (49, 3, 70, 72, FormatRule::Number),
    (72, 2, 72, 73, FormatRule::Number),
    (73, 0, 73, 74, FormatRule::Number),
    (73, 3, 73, 74, FormatRule::Number),
    (74, 2, 74, 75, FormatRule::Number),
    (84, 1, 84, 85, FormatRule::Number),
    (84, 4, 84, 85, FormatRule::Number),
    (88, 0, 85, 89, FormatRule::Number),
    (88, 3, 85, 89, FormatRule::Number),
    (92, 0, 89, 93, FormatRule::Number),
    (92, 2, 89, 93, FormatRule::Number),
    (93, 0, 93, 94, FormatRule::Number),
    (93, 49, 93, 94, FormatRule::Number),
    (94, b'-', 94, 95, FormatRule::Text),
    (94, b'i', 94, 95, FormatRule::Text),
    (96, 0, 95, 97, FormatRule::Number),
    (96, 1, 95, 97, FormatRule::Number),
    (96, 3, 95, 97, FormatRule::Number),
    (97, 1, 97, 98, FormatRule::Number),
    (97, 3, 97, 98, FormatRule::Number),
    (98, 1, 98, 99, FormatRule::Number),
    (98, 3, 98, 99, FormatRule::Number),
    (99, 2, 99, 100, FormatRule::Number),
];

/// The damage of a field that breaks the rule.
pub fn damage_at(
    rt: &impl Abort,
    bytes: &[u8],
    from: usize,
    to: usize,
    rule: FormatRule,
) -> Damage {
    let seen = bytes.get(from..to).expect(rt, "bytes");
    assert!(rt; seen.len() <= 8);
    found(MANIFEST, from as u64, rule, seen)
}

// The manifest with another byte at this offset has the damage.
fn check_changed(
    rt: &impl Abort,
    alloc: Global,
    at: usize,
    byte: u8,
    field: (usize, usize, FormatRule),
) {
    let bytes = changed(rt, alloc, &INDEXED, at, byte);
    let damage = damage_at(rt, &bytes, field.0, field.1, field.2);
    assert!(rt;
        damage_in(rt, alloc, &bytes) == Some(damage),
        "{byte} at {at}"
    );
}

#[test]
fn index_that_may_not_stand_there_is_damage(rt: HostRuntime) {
    for (at, byte, from, to, rule) in DAMAGES {
        check_changed(&rt, rt.alloc(), at, byte, (from, to, rule));
    }
}

// Each of these bytes gives another index that may stand there: a number, a name, a mode, a rule, and that letters aren't folded.
const OTHERS: [(usize, u8); 6] = [(88, 1), (94, b't'), (97, 0), (72, 0), (73, 1), (74, 0)];

#[test]
fn another_index_is_read(rt: HostRuntime) {
    for (at, byte) in OTHERS {
        let bytes = changed(&rt, rt.alloc(), &INDEXED, at, byte);
        let manifest = opened(&rt, rt.alloc(), &bytes).expect(&rt, "a manifest");
        assert!(rt; !lists_both(&manifest), "{byte} at {at}");
    }
}

// Of an index of numbers the byte that says whether letters are folded means nothing.
#[test]
fn index_of_numbers_is_read_with_either_byte(rt: HostRuntime) {
    let bytes = changed(&rt, rt.alloc(), &INDEXED, 99, 1);
    let manifest = opened(&rt, rt.alloc(), &bytes).expect(&rt, "a manifest");
    assert!(rt; lists_both(&manifest));
}
