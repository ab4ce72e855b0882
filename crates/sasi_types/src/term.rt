// Terms and their order, and lists of terms.
ghost use Rattle.std.specs.Prelude.{◌≡◌, ◌++◌, ◌∷◌, [], OnOk, OnErr};
ghost use Rattle.std.proofs.Common.{rules};
ghost use Rattle.std.specs.Cmp.{partial_order_from_own_ties, partial_order_from_total};
ghost use Rattle.std.specs.Cmp.Rules.{comparing};
ghost use Rattle.std.specs.Cmp.Lexicographic.{nat_list_cmp_total};
ghost use Rattle.std.specs.Ordering.{as_partial_cmp};
ghost use Rattle.sasi_types.specs.Term.{term_cmp, term_eq};

use std::alloc::{AllocError, Global};
use std::cmp::Ordering;
use std::marker::Model;

/// A term of an index, seen as its bytes. Terms are in the order of their unsigned bytes.
#[derive(Debug, Drop)]
pub struct Term {
    bytes: Vec<u8>,
}

impl Model for Term {
    ghost use Rattle.std.specs.Prelude.{List, ℕ};

    ghost Value = { List ℕ };

    ghost view = { λ a. a.bytes.items };
}

impl Term {
    /// The term with these bytes.
    pub fn new(bytes: Vec<u8>) -> Term
        ensures { result ≡ bytes.items }
    {
        Term { bytes }
    }

    /// The bytes of the term.
    pub fn bytes(&self) -> &[u8]
        ensures { result.now ≡ self.now }
    {
        &self.bytes
    }
}

impl PartialEq for Term {
    ghost eq = { term_eq };

    ghost laws = { Prim.search (comparing, rules) };

    fn eq(&self, other: &Term) -> bool {
        self.bytes == other.bytes
    }
}

impl Eq for Term {
    ghost laws = { Prim.search (comparing, rules) };
}

impl PartialOrd for Term {
    ghost partial_cmp = { as_partial_cmp term_cmp };

    ghost laws = { partial_order_from_own_ties (partial_order_from_total nat_list_cmp_total) (Prim.search (comparing, rules)) };

    fn partial_cmp(&self, other: &Term) -> Option<Ordering> {
        Some(self.cmp(other))
    }
}

impl Ord for Term {
    ghost cmp = { term_cmp };

    ghost total = { Prim.search (comparing, rules) };

    ghost matches_partial_cmp = { Prim.search (comparing, rules) };

    ghost matches_eq = { Prim.search (comparing, rules) };

    fn cmp(&self, other: &Term) -> Ordering {
        self.bytes.cmp(&other.bytes)
    }
}

/// The terms of a text, in order.
#[derive(Debug, Drop)]
pub struct TermList {
    items: Vec<Term>,
}

impl Model for TermList {
    ghost use Rattle.std.specs.Prelude.{List, ℕ};

    ghost Value = { List (List ℕ) };

    ghost view = { λ a. a.items.items };
}

impl TermList {
    /// The empty list.
    pub fn new(alloc: Global) -> TermList
        ensures { result ≡ [] }
    {
        TermList {
            items: Vec::new(alloc),
        }
    }

    /// The terms, in order.
    pub fn as_slice(&self) -> &[Term]
        ensures { result.now ≡ self.now }
    {
        &self.items
    }

    /// Adds a term at the end.
    pub fn push(&mut self, term: Term) -> Result<(), AllocError>
        ensures ok { OnOk result (self.new ≡ self.old ++ term ∷ []) }
        ensures err { OnErr result (self.new ≡ self.old) }
    {
        self.items.push(term)?;
        Ok(())
    }

    /// Removes all terms.
    pub fn clear(&mut self)
        ensures { self.new ≡ [] }
    {
        self.items.clear();
    }
}
