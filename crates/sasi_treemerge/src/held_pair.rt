// The pairs that a merge has in memory.
ghost use Rattle.std.proofs.Common.{rules};
ghost use Rattle.std.specs.Cmp.{partial_order_from_own_ties, partial_order_from_total};
ghost use Rattle.std.specs.Cmp.Rules.{comparing};
ghost use Rattle.std.specs.Ordering.{as_partial_cmp};
ghost use Rattle.sasi_treemerge.specs.Held.{held_cmp, held_eq, held_total};

use sasi_types::Pair;
use std::cmp::Ordering;

/// A pair in memory. The least one is the largest, so that a heap gives it first.
#[derive(Clone, Copy)]
pub struct HeldPair {
    pub pair: Pair,
}

impl PartialEq for HeldPair {
    ghost eq = { held_eq };

    ghost laws = { Prim.search (comparing, rules) };

    fn eq(&self, other: &HeldPair) -> bool {
        self.pair == other.pair
    }
}

impl Eq for HeldPair {
    ghost laws = { Prim.search (comparing, rules) };
}

impl PartialOrd for HeldPair {
    ghost partial_cmp = { as_partial_cmp held_cmp };

    ghost laws = { partial_order_from_own_ties (partial_order_from_total held_total) (Prim.search (comparing, rules)) };

    fn partial_cmp(&self, other: &HeldPair) -> Option<Ordering> {
        Some(self.cmp(other))
    }
}

impl Ord for HeldPair {
    ghost cmp = { held_cmp };

    ghost total = { held_total };

    ghost matches_partial_cmp = { Prim.search (comparing, rules) };

    ghost matches_eq = { Prim.search (comparing, rules) };

    fn cmp(&self, other: &HeldPair) -> Ordering {
        other.pair.cmp(&self.pair)
    }
}
