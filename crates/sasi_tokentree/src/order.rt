// The order of pairs.
ghost use Rattle.std.specs.Prelude.{◌↔◌, IsTrue};
ghost use Rattle.sasi_tokentree.specs.Format.{IsBefore, IsRising};

use sasi_types::{Pair, PairList};

// Whether a pair comes before another one.
pub fn is_before(a: Pair, b: Pair) -> bool
    ensures { IsTrue result ↔ IsBefore a b }
{
    a.token < b.token || (a.token == b.token && a.place < b.place)
}

/// Whether each pair comes before the next one, which a tree needs.
pub fn is_rising(pairs: &PairList) -> bool
    ensures { IsTrue result ↔ IsRising pairs.now }
{
    let entries = pairs.as_slice();
    for index in 1..entries.len() {
        if !is_before(entries[index - 1], entries[index]) {
            return false;
        }
    }
    true
}
