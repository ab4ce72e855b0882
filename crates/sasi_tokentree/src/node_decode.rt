// Decodes the bytes of a node.
ghost use Rattle.std.specs.Prelude.{◌≡◌, ◌≢◌, ◌+◌, ◌*◌, ◌^◌, ◌<◌, ◌≤◌, ℕ, List, length, take, drop, IfErr, IfOk, OnOk, IsTrue, false};
ghost use Rattle.std.specs.Int.{to_be_bytes, w64};
ghost use Rattle.sasi_types.specs.declared.tree.Pair.{Pair};
ghost use Rattle.sasi_host.specs.Damages.{HasAt};
ghost use Rattle.sasi_tokentree.specs.Format.{pair_at, entry, node_header, node, AreFit, IsBefore, IsRising};
ghost use Rattle.sasi_tokentree.specs.Reads.{CountsBelow, CountsInNode, IsInNode};

use crate::order::is_before;
use sasi_fields::FieldReader;
use sasi_host::{Damage, FileName, FormatRule, check_part, found};
use sasi_types::{Pair, Token};

// The bytes of a node's header.
pub const NODE_HEADER_BYTES: usize = 8;

// The bytes of an entry.
pub const ENTRY_BYTES: usize = 16;

// Checks the header of a node of this level and number of entries.
pub fn check_header(
    file: FileName,
    at: u64,
    level: u8,
    count: u16,
    bytes: &[u8],
) -> Result<(), Damage>
    requires whole { 8 ≤ length bytes.now }
    requires place { at < 2 ^ 63 + 2 ^ 60 }
    ensures ok { OnOk result (take 8 bytes.now ≡ node_header level count) }
    ensures seen { IfErr result (IsInNode file at bytes.now level count) }
    ensures differs { IfErr result (λ _. take 8 bytes.now ≢ node_header level count) }
{
    check_part(file, at, bytes, 0, &[level], FormatRule::Number)?;
    check_part(file, at, bytes, 1, &[0], FormatRule::Number)?;
    check_part(file, at, bytes, 2, &count.to_be_bytes(), FormatRule::Number)?;
    check_part(file, at, bytes, 4, &[0; 4], FormatRule::Number)?;
    Ok(())
}

// The number that a field of eight bytes holds.
pub fn number_in(field: &[u8]) -> u64
    requires { length field.now ≡ 8 }
    ensures { to_be_bytes w64 result ≡ field.now }
{
    FieldReader::new(field).u64().unwrap_or(0)
}

// The entry at this index of the node.
pub fn entry_in(bytes: &[u8], index: usize) -> Pair
    requires { 24 + 16 * index ≤ length bytes.now }
    ensures stands { HasAt bytes.now (8 + 16 * index) (entry result) }
    ensures is { (level : ℕ) (entries : List Pair) → AreFit entries → bytes.now ≡ node level entries → result ≡ pair_at entries index }
{
    let at = NODE_HEADER_BYTES + ENTRY_BYTES * index;
    Pair {
        token: number_in(&bytes[at..at + 8]),
        place: number_in(&bytes[at + 8..at + 16]),
    }
}

// Whether the entry with this index isn't above the one before it.
fn is_out_of_order(index: usize, last: Pair, pair: Pair) -> bool
    ensures some { IsTrue result → 0 < index }
    ensures order { IsTrue result → IsBefore last pair → ⊥ }
    ensures not { result ≡ false → 0 < index → IsBefore last pair }
{
    index > 0 && !is_before(last, pair)
}

// How many entries of the node have tokens below this one. It checks the order of the entries up to the first other one.
pub fn find_below(
    file: FileName,
    at: u64,
    count: usize,
    bytes: &[u8],
    token: Token,
) -> Result<usize, Damage>
    requires whole { length bytes.now ≡ 8 + 16 * count }
    requires most { count ≤ 255 }
    requires place { at < 2 ^ 63 + 2 ^ 60 }
    ensures ok { IfOk result (λ below. (level : ℕ) (entries : List Pair) → AreFit entries → IsRising entries → bytes.now ≡ node level entries → CountsBelow entries token below) }
    ensures within { IfOk result (λ below. below ≤ count) }
    ensures counts { IfOk result (λ below. (level : ℕ) → HasAt bytes.now 0 (node_header level count) → CountsInNode bytes.now level 0 count token below) }
    ensures seen { (level : ℕ) → HasAt bytes.now 0 (node_header level count) → IfErr result (IsInNode file at bytes.now level count) }
    ensures no_false_damage { IfErr result (λ _. (level : ℕ) (entries : List Pair) → AreFit entries → IsRising entries → bytes.now ≡ node level entries → ⊥) }
{
    let mut last = Pair { token: 0, place: 0 };
    for index in 0..count {
        let pair = entry_in(bytes, index);
        if is_out_of_order(index, last, pair) {
            let offset = NODE_HEADER_BYTES + ENTRY_BYTES * index;
            let seen = &bytes[offset..offset + 8];
            return Err(found(file, at + offset as u64, FormatRule::Order, seen));
        }
        if token <= pair.token {
            return Ok(index);
        }
        last = pair;
    }
    Ok(count)
}
