// Decodes the header of an index file, and the numbers of its footer.
ghost use Rattle.std.specs.Prelude.{◌≡◌, ◌+◌, ◌-◌, ◌^◌, ◌<◌, ◌≤◌, ◌==◌, ◌&&◌, nat_le, nat_lt, if◌then◌else◌, length};
ghost use Rattle.std.specs.Int.{w8};
ghost use Rattle.sasi_formats.specs.Reader.{read};
ghost use Rattle.sasi_formats.specs.Fields.{◌&◌, number};
ghost use Rattle.sasi_formats.specs.Gives.{Gives, TakesNoMemory};
ghost use Rattle.sasi_formats.specs.Parts.{ReadsPart};
ghost use Rattle.sasi_termblocks.specs.Entries.{tree};
ghost use Rattle.sasi_indexwrite.specs.Format.{blocks_end, blocks_field, first_field, footer, has_levels, has_room, header, header_fields, is_first, is_spill, is_term_count, is_top, levels_field, mode_field, spill_field, table_at, table_field, table_size, terms_field, top_field, type_field};

use sasi_fields::FieldReader;
use sasi_formats::{FieldStart, FormatFault, damage_in, expect, read_front, read_u64};
use sasi_host::{Damage, FileName, FormatRule};
use sasi_indexwrite::{Footer, magic};
use sasi_sparse::superblocks;
use sasi_termblocks::BlockRef;
use sasi_tokentree::is_tree_ref;
use sasi_types::{ColumnType, Mode, TreeRef};

// The bytes of a block.
const BLOCK: u64 = 4096;

// The bytes of an entry of the table of superblocks.
const SUPERBLOCK: u64 = 16;

// The offset of the first tree.
const TREES: u64 = 16;

// ---- the header

/// Decodes the header of an index file.
pub fn header_in(file: FileName, bytes: &[u8]) -> Result<(Mode, ColumnType), Damage>
    requires { length bytes.now ≡ 16 }
    ensures { ReadsPart header 0 file bytes.now result }
{
    let mut reader = FieldReader::new(bytes);
    match read_header(&mut reader) {
        Ok(fields) => Ok(fields),
        Err(fault) => Err(damage_in(file, 0, fault)),
    }
}

// Reads a header.
fn read_header(reader: &mut FieldReader) -> Result<(Mode, ColumnType), FormatFault>
    ensures header { Gives (read header reader.old) result reader.new }
    ensures memory { TakesNoMemory result }
{
    read_front(reader, magic())?;
    read_fields(reader)
}

// Reads the fields of a header behind its version.
fn read_fields(reader: &mut FieldReader) -> Result<(Mode, ColumnType), FormatFault>
    ensures fields { Gives (read header_fields reader.old) result reader.new }
    ensures memory { TakesNoMemory result }
{
    let mode = read_mode(reader)?;
    let kind = read_kind(reader)?;
    expect(reader, FormatRule::Number, &[0, 0])?;
    Ok((mode, kind))
}

// Reads a byte.
fn read_byte(reader: &mut FieldReader) -> Result<u8, FormatFault>
    ensures number { Gives (read (number w8) reader.old) result reader.new }
    ensures memory { TakesNoMemory result }
{
    Ok(reader.u8()?)
}

// Reads the mode of an index.
fn read_mode(reader: &mut FieldReader) -> Result<Mode, FormatFault>
    ensures mode { Gives (read mode_field reader.old) result reader.new }
    ensures memory { TakesNoMemory result }
{
    let start = FieldStart::of(reader);
    match read_byte(reader)? {
        0 => Ok(Mode::Prefix),
        1 => Ok(Mode::Contains),
        2 => Ok(Mode::Sparse),
        _ => Err(start.broken(FormatRule::Number, 1)),
    }
}

// Reads the type of an indexed column.
fn read_kind(reader: &mut FieldReader) -> Result<ColumnType, FormatFault>
    ensures kind { Gives (read type_field reader.old) result reader.new }
    ensures memory { TakesNoMemory result }
{
    let start = FieldStart::of(reader);
    match read_byte(reader)? {
        0 => Ok(ColumnType::Text),
        1 => Ok(ColumnType::Int),
        2 => Ok(ColumnType::BigInt),
        _ => Err(start.broken(FormatRule::Number, 1)),
    }
}

// ---- the footer

/// Decodes the numbers of a footer at this offset of a file, of an index of this mode.
pub fn numbers_in(file: FileName, mode: Mode, at: u64, bytes: &[u8]) -> Result<Footer, Damage>
    requires size { length bytes.now ≡ 64 }
    requires offset { at + 64 < 2 ^ 64 }
    ensures { ReadsPart (footer mode at) at file bytes.now result }
{
    let mut reader = FieldReader::new(bytes);
    match read_numbers(&mut reader, mode, at) {
        Ok(numbers) => Ok(numbers),
        Err(fault) => Err(damage_in(file, at, fault)),
    }
}

// Reads the numbers of a footer at this offset, of an index of this mode.
fn read_numbers(reader: &mut FieldReader, mode: Mode, at: u64) -> Result<Footer, FormatFault>
    ensures numbers { Gives (read (footer mode at) reader.old) result reader.new }
    ensures memory { TakesNoMemory result }
{
    let first = read_first(reader, at)?;
    let blocks = read_blocks(reader, mode, at, first)?;
    let end = blocks_end(mode, at, blocks);
    let levels = read_levels(reader, end, first, blocks)?;
    let top = read_top(reader, end, levels)?;
    let (table, (spill, terms)) = read_others(reader, mode, at, first, blocks)?;
    Ok(Footer {
        blocks: BlockRef {
            first,
            blocks,
            levels,
            top,
            terms,
        },
        table,
        spill,
    })
}

// Reads the numbers behind those of the blocks: the offset of the table, the reference of the spill tree, and the number of terms.
fn read_others(
    reader: &mut FieldReader,
    mode: Mode,
    at: u64,
    first: u64,
    blocks: u64,
) -> Result<(u64, (TreeRef, u64)), FormatFault>
    ensures others { Gives (read (table_field mode at blocks & spill_field first & terms_field blocks) reader.old) result reader.new }
    ensures memory { TakesNoMemory result }
{
    let table = read_table(reader, mode, at, blocks)?;
    let spill = read_spill(reader, first)?;
    let terms = read_terms(reader, blocks)?;
    Ok((table, (spill, terms)))
}

// The bytes of the table of the superblocks of so many term blocks.
fn table_size(mode: Mode, blocks: u64) -> u64
    ensures { result ≡ table_size mode blocks }
{
    match mode {
        Mode::Prefix | Mode::Contains => 0,
        Mode::Sparse => SUPERBLOCK * superblocks(blocks),
    }
}

// Where the pointer blocks of so many term blocks end, in front of that table and of a footer at this offset.
fn blocks_end(mode: Mode, at: u64, blocks: u64) -> u64
    ensures { result ≡ blocks_end mode at blocks }
{
    at.saturating_sub(table_size(mode, blocks))
}

// Where that table stands; 0 where there is none.
fn table_at(mode: Mode, at: u64, blocks: u64) -> u64
    ensures { result ≡ table_at mode at blocks }
{
    if table_size(mode, blocks) == 0 {
        return 0;
    }
    blocks_end(mode, at, blocks)
}

// Whether the first term block can stand there, in front of a footer at this offset.
fn is_first(at: u64, first: u64) -> bool
    ensures { result ≡ is_first at first }
{
    first.is_multiple_of(BLOCK) && (first >= BLOCK && first <= at)
}

// Reads the offset of the first term block.
fn read_first(reader: &mut FieldReader, at: u64) -> Result<u64, FormatFault>
    ensures first { Gives (read (first_field at) reader.old) result reader.new }
    ensures memory { TakesNoMemory result }
{
    let start = FieldStart::of(reader);
    let first = read_u64(reader)?;
    if !is_first(at, first) {
        return Err(start.broken(FormatRule::Place, 8));
    }
    Ok(first)
}

// Whether blocks can end there, and so many of those between the first one and there be term blocks.
fn has_room(end: u64, first: u64, blocks: u64) -> bool
    ensures { result ≡ has_room end first blocks }
{
    end.is_multiple_of(BLOCK) && has_term_blocks(end.saturating_sub(first) / BLOCK, blocks)
}

// Whether so many of all blocks can be term blocks.
fn has_term_blocks(all: u64, blocks: u64) -> bool
    ensures { result ≡ (if nat_le all 1 then blocks == all else (nat_lt 1 blocks && nat_lt blocks all)) }
{
    if all <= 1 {
        return blocks == all;
    }
    1 < blocks && blocks < all
}

// Reads the number of term blocks.
fn read_blocks(
    reader: &mut FieldReader,
    mode: Mode,
    at: u64,
    first: u64,
) -> Result<u64, FormatFault>
    ensures blocks { Gives (read (blocks_field mode at first) reader.old) result reader.new }
    ensures memory { TakesNoMemory result }
{
    let start = FieldStart::of(reader);
    let blocks = read_u64(reader)?;
    if !has_room(blocks_end(mode, at, blocks), first, blocks) {
        return Err(start.broken(FormatRule::Number, 8));
    }
    Ok(blocks)
}

// Whether so many term blocks have as many levels of pointers, where the blocks end there.
fn has_levels(end: u64, first: u64, blocks: u64, levels: u64) -> bool
    ensures { result ≡ has_levels end first blocks levels }
{
    if blocks <= 1 {
        return levels == 0;
    }
    let pointer_blocks = (end.saturating_sub(first) / BLOCK).saturating_sub(blocks);
    if pointer_blocks == 1 {
        return levels == 1;
    }
    1 < levels && levels < pointer_blocks
}

// Reads the number of levels of pointers.
fn read_levels(
    reader: &mut FieldReader,
    end: u64,
    first: u64,
    blocks: u64,
) -> Result<u64, FormatFault>
    ensures levels { Gives (read (levels_field end first blocks) reader.old) result reader.new }
    ensures memory { TakesNoMemory result }
{
    let start = FieldStart::of(reader);
    let levels = read_u64(reader)?;
    if !has_levels(end, first, blocks, levels) {
        return Err(start.broken(FormatRule::Number, 8));
    }
    Ok(levels)
}

// Whether the top pointer block of so many levels stands there, as the last one of those that end at `end`.
fn is_top(end: u64, levels: u64, top: u64) -> bool
    ensures { result ≡ is_top end levels top }
{
    if levels == 0 {
        return top == 0;
    }
    top == end.saturating_sub(BLOCK)
}

// Reads the offset of the top pointer block.
fn read_top(reader: &mut FieldReader, end: u64, levels: u64) -> Result<u64, FormatFault>
    ensures top { Gives (read (top_field end levels) reader.old) result reader.new }
    ensures memory { TakesNoMemory result }
{
    let start = FieldStart::of(reader);
    let top = read_u64(reader)?;
    if !is_top(end, levels, top) {
        return Err(start.broken(FormatRule::Place, 8));
    }
    Ok(top)
}

// Reads the offset of the table of superblocks.
fn read_table(
    reader: &mut FieldReader,
    mode: Mode,
    at: u64,
    blocks: u64,
) -> Result<u64, FormatFault>
    ensures table { Gives (read (table_field mode at blocks) reader.old) result reader.new }
    ensures memory { TakesNoMemory result }
{
    let start = FieldStart::of(reader);
    let table = read_u64(reader)?;
    if table != table_at(mode, at, blocks) {
        return Err(start.broken(FormatRule::Place, 8));
    }
    Ok(table)
}

// Whether the spill tree can stand there, in front of the first term block.
fn is_spill(first: u64, spill: TreeRef) -> bool
    ensures { result ≡ is_spill first spill }
{
    if spill.pairs == 0 {
        return spill.root == 0;
    }
    is_tree_ref(TREES, first, spill)
}

// Reads the reference of a tree.
fn read_tree(reader: &mut FieldReader) -> Result<TreeRef, FormatFault>
    ensures tree { Gives (read tree reader.old) result reader.new }
    ensures memory { TakesNoMemory result }
{
    let root = read_u64(reader)?;
    let pairs = read_u64(reader)?;
    Ok(TreeRef { root, pairs })
}

// Reads the reference of the spill tree.
fn read_spill(reader: &mut FieldReader, first: u64) -> Result<TreeRef, FormatFault>
    ensures spill { Gives (read (spill_field first) reader.old) result reader.new }
    ensures memory { TakesNoMemory result }
{
    let start = FieldStart::of(reader);
    let spill = read_tree(reader)?;
    if !is_spill(first, spill) {
        return Err(start.broken(FormatRule::Place, 8));
    }
    Ok(spill)
}

// Whether so many blocks can have so many terms: each has one at least.
fn is_term_count(blocks: u64, terms: u64) -> bool
    ensures { result ≡ is_term_count blocks terms }
{
    if blocks == 0 {
        return terms == 0;
    }
    blocks <= terms
}

// Reads the number of terms of so many blocks.
fn read_terms(reader: &mut FieldReader, blocks: u64) -> Result<u64, FormatFault>
    ensures terms { Gives (read (terms_field blocks) reader.old) result reader.new }
    ensures memory { TakesNoMemory result }
{
    let start = FieldStart::of(reader);
    let terms = read_u64(reader)?;
    if !is_term_count(blocks, terms) {
        return Err(start.broken(FormatRule::Number, 8));
    }
    Ok(terms)
}
