// Decodes the entries of blocks.
ghost use Rattle.std.specs.Prelude.{◌≡◌, Bool, List, true, false, IfOk};
ghost use Rattle.sasi_types.specs.declared.tree.Pair.{Pair};
ghost use Rattle.sasi_host.specs.declared.damage.FormatRule.TheVariants as rule;
ghost use Rattle.sasi_formats.specs.Reader.{outcome_as, read};
ghost use Rattle.sasi_formats.specs.Fields.{checked, last};
ghost use Rattle.sasi_formats.specs.Gives.{Gives, GivesBytes};
ghost use Rattle.sasi_termblocks.specs.Entries.{few_pairs, flags, is_behind, pair, pair_count, postings, term, term_entry, term_tree};
ghost use Rattle.sasi_termblocks.specs.Descents.{is_page_offset, pointer_to};

use crate::block_encode::BLOCK_BYTES;
use crate::term_entry::TermEntry;
use sasi_fields::FieldReader;
use sasi_formats::{
    FieldStart, FormatFault, ReadItem, read_items, read_u8, read_u8_in_range, read_u16_in_range,
    read_u64, take,
};
use sasi_host::FormatRule;
use sasi_types::{Pair, PairList, Term, TreeRef};
use std::alloc::{AllocError, Global};

// The flags of an entry with a tree, and of one with a few pairs.
const IN_TREE: u8 = 1;

const INLINE: u8 = 5;

// The tree of a term's pairs, or the pairs.
#[derive(Drop)]
pub struct Postings {
    pub list: Option<TreeRef>,
    pub inline: Option<PairList>,
}

// Reads an entry.
pub fn read_entry(alloc: Global, reader: &mut FieldReader) -> Result<TermEntry, FormatFault>
    ensures { Gives (read term_entry reader.old) result reader.new }
{
    let bytes = read_term(reader)?;
    let postings = read_postings(alloc, reader)?;
    let term = Term::new(bytes.to_vec(alloc)?);
    Ok(TermEntry {
        term,
        list: postings.list,
        inline: postings.inline,
    })
}

// Reads an entry, and keeps nothing of it.
pub fn skip_entry(alloc: Global, reader: &mut FieldReader) -> Result<(), FormatFault>
    ensures { Gives (outcome_as (λ _. tt) (read term_entry reader.old)) result reader.new }
{
    read_term(reader)?;
    read_postings(alloc, reader)?;
    Ok(())
}

// Reads a pointer, and gives its offset: that of a page from `low` up to `high`, which isn't among them.
pub fn read_pointer(reader: &mut FieldReader, low: u64, high: u64) -> Result<u64, FormatFault>
    ensures { Gives (outcome_as (λ both. both.1) (read (pointer_to low high) reader.old)) result reader.new }
{
    read_term(reader)?;
    let start = FieldStart::of(reader);
    let place = read_u64(reader)?;
    if !is_page_offset(low, high, place) {
        return Err(start.broken(FormatRule::Place, 8));
    }
    Ok(place)
}

// Whether the offset is that of a page from `low` up to `high`, which isn't among them.
fn is_page_offset(low: u64, high: u64, place: u64) -> bool
    ensures { result ≡ is_page_offset low high place }
{
    let page = place / BLOCK_BYTES as u64;
    place % BLOCK_BYTES as u64 == 0 && (low <= page && page < high)
}

// Reads a term after its length.
pub fn read_term<'a>(reader: &mut FieldReader<'a>) -> Result<&'a [u8], FormatFault>
    ensures { GivesBytes (read term reader.old) result reader.new }
{
    let size = read_u16_in_range(reader, 0, 1024)?;
    take(reader, usize::from(size))
}

// Reads the flags, and what they name.
fn read_postings(alloc: Global, reader: &mut FieldReader) -> Result<Postings, FormatFault>
    ensures { Gives (outcome_as (λ both. record { list = both.0; inline = both.1 }) (read postings reader.old)) result reader.new }
{
    let tag = read_flags(reader)?;
    if tag == IN_TREE {
        let tree = read_tree(reader)?;
        return Ok(Postings {
            list: Some(tree),
            inline: None,
        });
    }
    let pairs = read_pairs(alloc, reader)?;
    Ok(Postings {
        list: None,
        inline: Some(pairs),
    })
}

fn read_flags(reader: &mut FieldReader) -> Result<u8, FormatFault>
    ensures { Gives (read flags reader.old) result reader.new }
{
    let start = FieldStart::of(reader);
    let tag = read_u8(reader)?;
    if tag != IN_TREE && tag != INLINE {
        return Err(start.broken(FormatRule::Number, 1));
    }
    Ok(tag)
}

// Reads the reference of a term's tree.
fn read_tree(reader: &mut FieldReader) -> Result<TreeRef, FormatFault>
    ensures { Gives (read term_tree reader.old) result reader.new }
{
    let root = read_u64(reader)?;
    let pairs = read_pair_count(reader)?;
    Ok(TreeRef { root, pairs })
}

// Reads a number of pairs, one at least.
fn read_pair_count(reader: &mut FieldReader) -> Result<u64, FormatFault>
    ensures { Gives (read pair_count reader.old) result reader.new }
{
    let start = FieldStart::of(reader);
    let count = read_u64(reader)?;
    if count == 0 {
        return Err(start.broken(FormatRule::Number, 8));
    }
    Ok(count)
}

// Reads one to five pairs.
fn read_pairs(alloc: Global, reader: &mut FieldReader) -> Result<PairList, FormatFault>
    ensures { Gives (read few_pairs reader.old) result reader.new }
{
    let count = read_u8_in_range(reader, 1, 5)?;
    let pairs = read_items(alloc, reader, usize::from(count), &RisingPairs)?;
    Ok(pair_list(alloc, pairs.as_slice())?)
}

// A list of these pairs.
fn pair_list(alloc: Global, pairs: &[Pair]) -> Result<PairList, AllocError>
    ensures { IfOk result (λ list. list ≡ pairs.now) }
{
    let mut list = PairList::new(alloc);
    for pair in pairs {
        list.push(*pair)?;
    }
    Ok(list)
}

// Reads pairs, each above the one before.
struct RisingPairs;

impl ReadItem<Pair> for RisingPairs {
    ghost format = { λ _ before. checked rule.Order 8 (is_behind (last before)) pair };

    fn read(
        &self,
        _alloc: Global,
        before: &[Pair],
        reader: &mut FieldReader,
    ) -> Result<Pair, FormatFault> {
        let start = FieldStart::of(reader);
        let pair = read_pair(reader)?;
        if !is_next(before, &pair) {
            return Err(start.broken(FormatRule::Order, 8));
        }
        Ok(pair)
    }
}

fn read_pair(reader: &mut FieldReader) -> Result<Pair, FormatFault>
    ensures { Gives (read pair reader.old) result reader.new }
{
    let token = read_u64(reader)?;
    let place = read_u64(reader)?;
    Ok(Pair { token, place })
}

// Whether the pair is behind the last of those before.
fn is_next(before: &[Pair], pair: &Pair) -> bool
    ensures { result ≡ is_behind (last before.now) pair.now }
{
    match before.last() {
        None => true,
        Some(last) => {
            last.token < pair.token || (last.token == pair.token && last.place < pair.place)
        }
    }
}
