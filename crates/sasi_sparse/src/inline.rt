// A few pairs in the entry of a term.
ghost use Rattle.std.specs.Prelude.{◌≡◌, ◌≤◌, ◌++◌, [], length, OnOk};
ghost use Rattle.sasi_formats.specs.Formats.{encoded, encoded_items};
ghost use Rattle.sasi_sparse.specs.Inline.{few_pairs, pair};

use sasi_fields::{put_u8, put_u64};
use sasi_types::{Pair, PairList};
use std::alloc::AllocError;

/// Appends the number of the pairs, a byte, and the pairs: token and offset of each, of eight bytes, the most significant first.
pub fn put_inline(pairs: &PairList, out: &mut Vec<u8>) -> Result<(), AllocError>
    requires some { 1 ≤ length pairs.now }
    requires few { length pairs.now ≤ 5 }
    ensures { OnOk result (out.new.items ≡ out.old.items ++ encoded few_pairs pairs.now) }
{
    let pairs = pairs.as_slice();
    put_u8(out, pairs.len() as u8)?;
    put_pairs(out, pairs)
}

fn put_pairs(out: &mut Vec<u8>, pairs: &[Pair]) -> Result<(), AllocError>
    ensures { OnOk result (out.new.items ≡ out.old.items ++ encoded_items (λ _. encoded pair) [] pairs.now) }
{
    for each in pairs {
        put_pair(out, *each)?;
    }
    Ok(())
}

fn put_pair(out: &mut Vec<u8>, each: Pair) -> Result<(), AllocError>
    ensures { OnOk result (out.new.items ≡ out.old.items ++ encoded pair each) }
{
    put_u64(out, each.token)?;
    put_u64(out, each.place)
}
