// Decodes the numbers of a footer.
ghost use Rattle.std.specs.Prelude.{◌≡◌, ◌+◌, ◌==◌, ◌^◌, ◌<◌, ◌≤◌, length};
ghost use Rattle.sasi_formats.specs.Reader.{read};
ghost use Rattle.sasi_formats.specs.Gives.{Gives, TakesNoMemory};
ghost use Rattle.sasi_formats.specs.Parts.{ReadsPart};
ghost use Rattle.sasi_tokentree.specs.Heights.{levels_size};
ghost use Rattle.sasi_datawrite.specs.Format.{end_before, fills_room, footer};

use sasi_datawrite::Footer;
use sasi_fields::FieldReader;
use sasi_formats::{FieldStart, FormatFault, damage_in, read_u64, read_u64_in_range};
use sasi_host::{Damage, FileName, FormatRule};
use sasi_tokentree::{is_node_offset, size_below_root, tree_size};
use sasi_types::TreeRef;

// The least offset where partitions can end.
const MIN_PARTITIONS_END: u64 = 33;

// No file has room for more pairs.
const MAX_PAIRS: u64 = 1 << 58;

/// Decodes the numbers of a footer at this offset of a file.
pub fn numbers_in(file: FileName, at: u64, bytes: &[u8]) -> Result<Footer, Damage>
    requires size { length bytes.now ≡ 32 }
    requires offset { at + 32 < 2 ^ 64 }
    ensures { ReadsPart (footer at) at file bytes.now result }
{
    let mut reader = FieldReader::new(bytes);
    match read_numbers(&mut reader, at) {
        Ok(numbers) => Ok(numbers),
        Err(fault) => Err(damage_in(file, at, fault)),
    }
}

// Reads the numbers of a footer at this offset.
fn read_numbers(reader: &mut FieldReader, at: u64) -> Result<Footer, FormatFault>
    ensures numbers { Gives (read (footer at) reader.old) result reader.new }
    ensures memory { TakesNoMemory result }
{
    let start = FieldStart::of(reader);
    let root = read_u64(reader)?;
    let count = FieldStart::of(reader);
    let pairs = read_u64_in_range(reader, 1, u64::MAX)?;
    let max_timestamp = read_u64(reader)?;
    let end = read_end(reader, at)?;
    if !is_node_offset(end, at, root) {
        return Err(start.broken(FormatRule::Place, 8));
    }
    if !fills_room(at, root, end, pairs) {
        return Err(count.broken(FormatRule::Number, 8));
    }
    Ok(Footer {
        tree: TreeRef { root, pairs },
        max_timestamp,
        end,
    })
}

// Whether the key tree with this root and so many pairs fills the room from the partitions' end to a footer at this offset.
fn fills_room(at: u64, root: u64, end: u64, pairs: u64) -> bool
    ensures { result ≡ fills_room at root end pairs }
{
    pairs <= MAX_PAIRS
        && is_end(root, end, size_below_root(pairs as usize))
        && is_end(at, end, key_tree_size(pairs))
}

// Whether so many bytes from one offset end at another.
fn is_end(end: u64, from: u64, size: u64) -> bool
    ensures { result ≡ (from + size == end) }
{
    from <= end && size == end - from
}

// How many bytes the key tree of so many pairs has.
fn key_tree_size(pairs: u64) -> u64
    requires { pairs ≤ 2 ^ 58 }
    ensures { result ≡ levels_size pairs pairs }
{
    tree_size(pairs as usize)
}

// Reads where the partitions end, before a footer at this offset.
fn read_end(reader: &mut FieldReader, at: u64) -> Result<u64, FormatFault>
    ensures end { Gives (read (end_before at) reader.old) result reader.new }
    ensures memory { TakesNoMemory result }
{
    let start = FieldStart::of(reader);
    let end = read_u64(reader)?;
    if !is_node_offset(MIN_PARTITIONS_END, at, end) {
        return Err(start.broken(FormatRule::Place, 8));
    }
    Ok(end)
}
