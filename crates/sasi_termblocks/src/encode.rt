// Encodes the entries of blocks.
ghost use Rattle.std.specs.Prelude.{◌≡◌, ◌≤◌, ◌++◌, ◌∷◌, length, None, OnOk};
ghost use Rattle.sasi_formats.specs.Formats.{Fits, encoded};
ghost use Rattle.sasi_termblocks.specs.Entries.{few_pairs, pairs_of, pointer, postings, term, term_entry, tree};

use crate::term_entry::TermEntry;
use sasi_fields::{put_bytes, put_u8, put_u16, put_u64};
use sasi_sparse::put_inline;
use sasi_types::{PairList, TreeRef};
use std::alloc::AllocError;

// Appends an entry.
pub fn put_entry(out: &mut Vec<u8>, entry: &TermEntry) -> Result<(), AllocError>
    requires { Fits term_entry entry.now }
    ensures { OnOk result (out.new.items ≡ out.old.items ++ encoded term_entry entry.now) }
{
    put_term(out, entry.term.bytes())?;
    put_postings(out, entry)
}

// Appends a pointer to the block at this offset.
pub fn put_pointer(out: &mut Vec<u8>, least: &[u8], place: u64) -> Result<(), AllocError>
    requires { length least.now ≤ 1024 }
    ensures { OnOk result (out.new.items ≡ out.old.items ++ encoded pointer (least.now, place)) }
{
    put_term(out, least)?;
    put_u64(out, place)
}

// Appends a term after its length.
fn put_term(out: &mut Vec<u8>, bytes: &[u8]) -> Result<(), AllocError>
    requires { length bytes.now ≤ 1024 }
    ensures { OnOk result (out.new.items ≡ out.old.items ++ encoded term bytes.now) }
{
    put_u16(out, bytes.len() as u16)?;
    put_bytes(out, bytes)
}

// Appends the flags and the pairs, or their tree.
fn put_postings(out: &mut Vec<u8>, entry: &TermEntry) -> Result<(), AllocError>
    requires { Fits postings (entry.now.list, entry.now.inline) }
    ensures { OnOk result (out.new.items ≡ out.old.items ++ encoded postings (entry.now.list, entry.now.inline)) }
{
    match &entry.list {
        Some(tree) => put_tree(out, *tree),
        None => put_pairs(out, &entry.inline),
    }
}

// Appends the reference of a tree.
fn put_tree(out: &mut Vec<u8>, list: TreeRef) -> Result<(), AllocError>
    ensures { OnOk result (out.new.items ≡ out.old.items ++ 1 ∷ encoded tree list) }
{
    put_u8(out, 1)?;
    put_u64(out, list.root)?;
    put_u64(out, list.pairs)
}

// Appends a few pairs.
fn put_pairs(out: &mut Vec<u8>, inline: &Option<PairList>) -> Result<(), AllocError>
    requires { Fits postings (None, inline.now) }
    ensures { OnOk result (out.new.items ≡ out.old.items ++ 5 ∷ encoded few_pairs (pairs_of inline.now)) }
{
    // No entry that fits has neither a tree nor pairs.
    let Some(pairs) = inline else {
        return Ok(());
    };
    put_u8(out, 5)?;
    put_inline(pairs, out)
}
