// Reads the bytes of a block.
ghost use Rattle.std.specs.Prelude.{◌≡◌, ◌+◌, ◌-◌, ◌*◌, ◌^◌, ◌<◌, ◌≤◌, ℕ, length, take, drop, IfErr, IfOk, IsTrue, OnOk, false};
ghost use Rattle.sasi_host.specs.declared.damage.FormatRule.TheVariants as rule;
ghost use Rattle.sasi_formats.specs.Reader.{start};
ghost use Rattle.sasi_termblocks.specs.Entries.{is_below, term, term_entry};
ghost use Rattle.sasi_termblocks.specs.Forms.{HasForm};
ghost use Rattle.sasi_termblocks.specs.Windows.{BreaksCount, BreaksEntry, BreaksForm, BreaksFront, BreaksStart, BreaksTree, EndsAtNext, HasEntry, HasSize, IsBound, IsFault, RefersWithin, StartsBehind, bytes_in, count_in, number_at, offset_in};
ghost use Rattle.sasi_termblocks.specs.Descents.{pointer_to};
ghost use Rattle.sasi_termblocks.specs.BlockFaults.{BreaksEnd, BreaksFirstPointer, BreaksLeast, BreaksSome, BreaksUpTo, IsAboveLast, IsAtLeast, IsBrokenAt, IsCompared, IsMoved, IsNear, IsPlaced, IsSearched, PointsTo};

use crate::block_encode::BLOCK_BYTES;
use crate::decode::{read_entry, read_pointer, read_term, skip_entry};
use crate::fault::BlockFault;
use crate::list_form::ListForm;
use crate::term_entry::TermEntry;
use sasi_fields::FieldReader;
use sasi_formats::{Broken, FormatFault, broken_at};
use sasi_host::FormatRule;
use sasi_tokentree::is_tree_ref;
use std::alloc::Global;

// The offset of the first tree of a file, behind its header.
const TREES: u64 = 16;

// The number of two bytes at this offset.
fn number_at(block: &[u8], at: usize) -> usize
    requires { at + 2 ≤ length block.now }
    ensures is { result ≡ number_at block.now at }
    ensures fits { result < 2 ^ 16 }
{
    usize::from(u16::from_be_bytes([block[at], block[at + 1]]))
}

// How many entries the block tells.
fn told_count(block: &[u8]) -> Result<usize, BlockFault>
    requires whole { length block.now ≡ 4096 }
    ensures ok { IfOk result (λ count. count ≡ count_in block.now) }
    ensures some { IfOk result (λ count. 0 < count) }
    ensures within { IfOk result (λ count. 2 + 2 * count ≤ 4096) }
    ensures seen { IfErr result (IsFault (BreaksCount block.now)) }
{
    let count = number_at(block, 0);
    if count == 0 || 2 + 2 * count > BLOCK_BYTES {
        return Err(broken(FormatRule::Number, 0, &block[..2]));
    }
    Ok(count)
}

// Checks that the first of so many entries stands behind their offsets.
fn check_start(block: &[u8], count: usize) -> Result<(), BlockFault>
    requires whole { length block.now ≡ 4096 }
    requires count { count ≡ count_in block.now }
    requires within { 2 + 2 * count ≤ 4096 }
    ensures ok { OnOk result (StartsBehind block.now) }
    ensures seen { IfErr result (IsFault (BreaksStart block.now)) }
{
    if number_at(block, 2) != 2 + 2 * count {
        return Err(broken(FormatRule::Number, 2, &block[2..4]));
    }
    Ok(())
}

// How many entries the block has.
pub fn count_of(block: &[u8]) -> Result<usize, BlockFault>
    requires whole { length block.now ≡ 4096 }
    ensures ok { IfOk result (λ count. count ≡ count_in block.now) }
    ensures some { IfOk result (λ count. 0 < count) }
    ensures within { IfOk result (λ count. 2 + 2 * count ≤ 4096) }
    ensures start { OnOk result (StartsBehind block.now) }
    ensures seen { IfErr result (IsFault (BreaksFront block.now)) }
{
    let count = told_count(block)?;
    check_start(block, count)?;
    Ok(count)
}

// The block breaks the rule at this offset, where it has these bytes.
fn broken(rule: FormatRule, at: usize, bytes: &[u8]) -> BlockFault
    requires { at ≤ 131072 }
    ensures near { IsNear result }
    ensures is { IsBrokenAt rule at (take 8 bytes.now) result }
{
    BlockFault::Broken(broken_at(rule, at, bytes))
}

// A reader before the entry with this index.
fn reader_at(block: &[u8], index: usize) -> FieldReader
    requires whole { length block.now ≡ 4096 }
    requires within { 4 + 2 * index ≤ 4096 }
    ensures { result ≡ start (bytes_in block.now index) }
{
    let at = number_at(block, 2 + 2 * index);
    FieldReader::new(&block[at.min(BLOCK_BYTES)..])
}

// The offset of the entry with this index is wrong.
fn wrong_offset(block: &[u8], index: usize) -> BlockFault
    requires whole { length block.now ≡ 4096 }
    requires within { 4 + 2 * index ≤ 4096 }
    ensures near { IsNear result }
    ensures is { IsBrokenAt rule.Number (2 + 2 * index) (take 2 (drop (2 + 2 * index) block.now)) result }
{
    let at = 2 + 2 * index;
    broken(FormatRule::Number, at, &block[at..at + 2])
}

// The fault of the entry with this index, by its offset in the block. Where the entry ends behind the block, its offset is wrong.
fn fault_at(block: &[u8], index: usize, fault: FormatFault) -> BlockFault
    requires whole { length block.now ≡ 4096 }
    requires within { 4 + 2 * index ≤ 4096 }
    requires placed { IsPlaced fault }
    ensures moved { IsMoved block.now index fault result }
    ensures near { IsNear result }
{
    match fault {
        FormatFault::OutOfMemory => BlockFault::OutOfMemory,
        FormatFault::Short => wrong_offset(block, index),
        FormatFault::Long => wrong_offset(block, index),
        FormatFault::Broken(found) => BlockFault::Broken(Broken {
            rule: found.rule,
            at: number_at(block, 2 + 2 * index) + found.at,
            seen: found.seen,
        }),
    }
}

// The term of the entry with this index.
fn term_at(block: &[u8], index: usize) -> Result<&[u8], BlockFault>
    requires whole { length block.now ≡ 4096 }
    requires within { 4 + 2 * index ≤ 4096 }
    ensures ok { IfOk result (λ found. HasEntry term block.now index found.now) }
    ensures seen { IfErr result (IsFault (BreaksEntry term block.now index)) }
{
    match read_term(&mut reader_at(block, index)) {
        Ok(found) => Ok(found),
        Err(fault) => Err(fault_at(block, index, fault)),
    }
}

// The entry with this index.
pub fn entry_at(alloc: Global, block: &[u8], index: usize) -> Result<TermEntry, BlockFault>
    requires whole { length block.now ≡ 4096 }
    requires within { 4 + 2 * index ≤ 4096 }
    ensures ok { IfOk result (λ found. HasEntry term_entry block.now index found) }
    ensures seen { IfErr result (IsFault (BreaksEntry term_entry block.now index)) }
{
    match read_entry(alloc, &mut reader_at(block, index)) {
        Ok(found) => Ok(found),
        Err(fault) => Err(fault_at(block, index, fault)),
    }
}

// How many bytes the entry with this index has.
fn size_of(alloc: Global, block: &[u8], index: usize) -> Result<usize, BlockFault>
    requires whole { length block.now ≡ 4096 }
    requires within { 4 + 2 * index ≤ 4096 }
    ensures ok { IfOk result (HasSize block.now index) }
    ensures seen { IfErr result (IsFault (BreaksEntry term_entry block.now index)) }
{
    let mut reader = reader_at(block, index);
    match skip_entry(alloc, &mut reader) {
        Ok(()) => Ok(reader.offset()),
        Err(fault) => Err(fault_at(block, index, fault)),
    }
}

// Checks the entry with this index, and that the next one, if there is one, stands where it ends.
pub fn check_entry(
    alloc: Global,
    block: &[u8],
    index: usize,
    count: usize,
) -> Result<(), BlockFault>
    requires whole { length block.now ≡ 4096 }
    requires count { count ≡ count_in block.now }
    requires within { 2 + 2 * count ≤ 4096 }
    requires index { index < count }
    ensures ok { OnOk result (index + 1 < count_in block.now → EndsAtNext block.now index) }
    ensures seen { IfErr result (IsFault (BreaksEnd block.now index)) }
{
    let size = size_of(alloc, block, index)?;
    if index + 1 >= count {
        return Ok(());
    }
    let here = number_at(block, 2 + 2 * index);
    let next = number_at(block, 2 + 2 * (index + 1));
    let bytes = next.saturating_sub(here);
    if bytes != size {
        return Err(wrong_offset(block, index + 1));
    }
    Ok(())
}

// The root of the tree is wrong, of the entry with this index and a term of this size.
fn wrong_root(block: &[u8], index: usize, size: usize) -> BlockFault
    requires whole { length block.now ≡ 4096 }
    requires within { 4 + 2 * index ≤ 4096 }
    requires short { size ≤ 1024 }
    ensures near { IsNear result }
    ensures is { IsBrokenAt rule.Place (offset_in block.now index + (3 + size)) (take 8 (drop (offset_in block.now index + (3 + size)) block.now)) result }
{
    let at = number_at(block, 2 + 2 * index) + (3 + size);
    broken(FormatRule::Place, at, &block[at.min(BLOCK_BYTES)..])
}

// Checks that the tree of the entry with this index, if it has one, can stand in front of the first term block, at this offset.
pub fn check_tree(
    block: &[u8],
    index: usize,
    entry: &TermEntry,
    first: u64,
) -> Result<(), BlockFault>
    requires whole { length block.now ≡ 4096 }
    requires within { 4 + 2 * index ≤ 4096 }
    requires index { index < count_in block.now }
    requires entry { HasEntry term_entry block.now index entry.now }
    ensures ok { OnOk result (RefersWithin first entry.now.list) }
    ensures seen { IfErr result (IsFault (BreaksTree first index block.now)) }
{
    let Some(tree) = entry.list else {
        return Ok(());
    };
    if !is_tree_ref(TREES, first, tree) {
        return Err(wrong_root(block, index, entry.term.bytes().len()));
    }
    Ok(())
}

// The flags are wrong, of the entry with this index and a term of this size.
fn wrong_flags(block: &[u8], index: usize, size: usize) -> BlockFault
    requires whole { length block.now ≡ 4096 }
    requires within { 4 + 2 * index ≤ 4096 }
    requires short { size ≤ 1024 }
    ensures near { IsNear result }
    ensures is { IsBrokenAt rule.Number (offset_in block.now index + (2 + size)) (take 1 (drop (offset_in block.now index + (2 + size)) block.now)) result }
{
    let at = number_at(block, 2 + 2 * index) + (2 + size);
    broken(
        FormatRule::Number,
        at,
        first_byte(&block[at.min(BLOCK_BYTES)..]),
    )
}

// The first byte, if there is one.
fn first_byte(bytes: &[u8]) -> &[u8]
    ensures { result.now ≡ take 1 bytes.now }
{
    &bytes[..bytes.len().min(1)]
}

// Whether the entry has its pairs where the form has them.
fn has_form(form: ListForm, entry: &TermEntry) -> bool
    ensures yes { IsTrue result → HasForm form entry.now }
    ensures no { result ≡ false → HasForm form entry.now → ⊥ }
{
    match form {
        ListForm::Tree => entry.list.is_some(),
        ListForm::Inline => entry.list.is_none() && entry.inline.is_some(),
    }
}

// Checks that the entry with this index has its pairs where the form has them.
pub fn check_form(
    block: &[u8],
    index: usize,
    entry: &TermEntry,
    form: ListForm,
) -> Result<(), BlockFault>
    requires whole { length block.now ≡ 4096 }
    requires within { 4 + 2 * index ≤ 4096 }
    requires index { index < count_in block.now }
    requires entry { HasEntry term_entry block.now index entry.now }
    ensures ok { OnOk result (HasForm form entry.now) }
    ensures seen { IfErr result (IsFault (BreaksForm form index block.now)) }
{
    if !has_form(form, entry) {
        return Err(wrong_flags(block, index, entry.term.bytes().len()));
    }
    Ok(())
}

// The offset to which the pointer with this index leads: that of a page from `low` up to `high`, which isn't among them.
pub fn pointed_offset(block: &[u8], index: usize, low: u64, high: u64) -> Result<u64, BlockFault>
    requires whole { length block.now ≡ 4096 }
    requires within { 4 + 2 * index ≤ 4096 }
    ensures ok { IfOk result (PointsTo low high block.now index) }
    ensures seen { IfErr result (IsFault (BreaksEntry (pointer_to low high) block.now index)) }
{
    match read_pointer(&mut reader_at(block, index), low, high) {
        Ok(place) => Ok(place),
        Err(fault) => Err(fault_at(block, index, fault)),
    }
}

// The offset to which the first pointer leads: that of this page.
pub fn first_pointer(block: &[u8], page: u64) -> Result<u64, BlockFault>
    requires whole { length block.now ≡ 4096 }
    requires page { page ≤ 2 ^ 52 }
    ensures ok { IfOk result (PointsTo page (page + 1) block.now 0) }
    ensures seen { IfErr result (IsFault (BreaksFirstPointer page block.now)) }
{
    let _ = count_of(block)?;
    let place = pointed_offset(block, 0, page, page + 1)?;
    Ok(place)
}

// Whether the first term is below the second.
fn is_below(first: &[u8], second: &[u8]) -> bool
    ensures { result ≡ is_below first.now second.now }
{
    first.cmp(second).is_lt()
}

// Whether the entry with this index has a term below this one.
fn has_below(block: &[u8], index: usize, sought: &[u8]) -> Result<bool, BlockFault>
    requires whole { length block.now ≡ 4096 }
    requires within { 4 + 2 * index ≤ 4096 }
    ensures ok { IfOk result (IsCompared block.now index sought.now) }
    ensures seen { IfErr result (IsFault (BreaksEntry term block.now index)) }
{
    let found = term_at(block, index)?;
    Ok(is_below(found, sought))
}

// The entries from the index `low` up to `high`, which isn't among them.
#[derive(Clone, Copy)]
struct Between {
    low: usize,
    high: usize,
}

// One half of the entries, by the term of the one in the middle.
fn halve(block: &[u8], range: Between, sought: &[u8]) -> Result<Between, BlockFault>
    requires whole { length block.now ≡ 4096 }
    requires some { range.low < range.high }
    requires within { 2 + 2 * range.high ≤ 4096 }
    ensures ok { IfOk result (λ half. (count : ℕ) → IsSearched block.now count sought.now range.low range.high → IsSearched block.now count sought.now half.low half.high) }
    ensures smaller { IfOk result (λ half. half.high - half.low < range.high - range.low) }
    ensures high { IfOk result (λ half. half.high ≤ range.high) }
    ensures seen { IfErr result (IsFault (BreaksSome term block.now range.high)) }
{
    let middle = range.low + (range.high - range.low) / 2;
    if has_below(block, middle, sought)? {
        return Ok(Between {
            low: middle + 1,
            high: range.high,
        });
    }
    Ok(Between {
        low: range.low,
        high: middle,
    })
}

// How many of the block's entries have terms below this one, found by halving.
pub fn count_below(block: &[u8], count: usize, sought: &[u8]) -> Result<usize, BlockFault>
    requires whole { length block.now ≡ 4096 }
    requires within { 2 + 2 * count ≤ 4096 }
    ensures ok { IfOk result (IsBound block.now count sought.now) }
    ensures seen { IfErr result (IsFault (BreaksSome term block.now count)) }
{
    let mut range = Between {
        low: 0,
        high: count,
    };
    while range.low < range.high {
        range = halve(block, range, sought)?;
    }
    Ok(range.low)
}

// Checks that the entry with this index is above the one before it.
pub fn check_order(block: &[u8], index: usize) -> Result<(), BlockFault>
    requires whole { length block.now ≡ 4096 }
    requires within { 4 + 2 * index ≤ 4096 }
    ensures ok { OnOk result (IsAboveLast block.now index) }
    ensures seen { IfErr result (IsFault (BreaksUpTo block.now index)) }
{
    if index == 0 {
        return Ok(());
    }
    let before = term_at(block, index - 1)?;
    let after = term_at(block, index)?;
    if !is_below(before, after) {
        return Err(out_of_order(block, index));
    }
    Ok(())
}

// Checks that the entry with this index isn't below the term.
pub fn check_least(block: &[u8], index: usize, least: &[u8]) -> Result<(), BlockFault>
    requires whole { length block.now ≡ 4096 }
    requires within { 4 + 2 * index ≤ 4096 }
    ensures ok { OnOk result (IsAtLeast block.now index least.now) }
    ensures seen { IfErr result (IsFault (BreaksLeast index least.now block.now)) }
{
    let below = has_below(block, index, least)?;
    if below {
        return Err(out_of_order(block, index));
    }
    Ok(())
}

// The fault of an entry that is out of order.
pub fn out_of_order(block: &[u8], index: usize) -> BlockFault
    requires whole { length block.now ≡ 4096 }
    requires within { 4 + 2 * index ≤ 4096 }
    ensures near { IsNear result }
    ensures is { IsBrokenAt rule.Order (offset_in block.now index) (take 8 (bytes_in block.now index)) result }
{
    let at = number_at(block, 2 + 2 * index);
    broken(FormatRule::Order, at, &block[at.min(BLOCK_BYTES)..])
}
