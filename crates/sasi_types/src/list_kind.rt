// The two kinds of lists of an index.
ghost use Rattle.std.specs.Prelude.{◌≡◌};
ghost use Rattle.std.proofs.Common.{rules};
ghost use Rattle.std.specs.Cmp.{partial_order_from_own_ties, partial_order_from_total};
ghost use Rattle.std.specs.Cmp.Rules.{comparing};
ghost use Rattle.std.specs.Ordering.{as_partial_cmp};
ghost use Rattle.sasi_types.specs.ListKind.{list_cmp, list_eq, list_total, rank};

use std::cmp::Ordering;

/// The list of an index to which a posting belongs: that of its term, or the spill, which keeps the pairs whose terms aren't stored.
/// Stored postings come before the spill.
#[derive(Clone, Copy, Debug)]
pub enum ListKind {
    Stored,
    Spill,
}

impl ListKind {
    /// Its rank in the order of postings.
    pub fn rank(self) -> u8
        ensures { result ≡ rank self }
    {
        match self {
            ListKind::Stored => 0,
            ListKind::Spill => 1,
        }
    }
}

impl PartialEq for ListKind {
    ghost eq = { list_eq };

    ghost laws = { Prim.search (comparing, rules) };

    fn eq(&self, other: &ListKind) -> bool {
        self.rank() == other.rank()
    }
}

impl Eq for ListKind {
    ghost laws = { Prim.search (comparing, rules) };
}

impl Ord for ListKind {
    ghost cmp = { list_cmp };

    ghost total = { Prim.search (comparing, rules) };

    ghost matches_partial_cmp = { Prim.search (comparing, rules) };

    ghost matches_eq = { Prim.search (comparing, rules) };

    fn cmp(&self, other: &ListKind) -> Ordering {
        self.rank().cmp(&other.rank())
    }
}

impl PartialOrd for ListKind {
    ghost partial_cmp = { as_partial_cmp list_cmp };

    ghost laws = { partial_order_from_own_ties (partial_order_from_total list_total) (Prim.search (comparing, rules)) };

    fn partial_cmp(&self, other: &ListKind) -> Option<Ordering> {
        Some(self.cmp(other))
    }
}
