// Components: what views count.
ghost use Rattle.std.specs.Cmp.{eq_by_cmp_equiv, partial_equiv_from_equiv, partial_order_from_own_ties, partial_order_from_total};
ghost use Rattle.std.specs.Ordering.{as_partial_cmp, eq_by_cmp};
ghost use Rattle.std.specs.Prelude.{refl};
ghost use Rattle.sasi_views.specs.Components.{component_cmp, same};
ghost use Rattle.sasi_views.specs.ComponentLaws.{components_total};

use sasi_host::FileName;
use std::cmp::Ordering;

/// A file or a map in memory, as views list them.
#[derive(Clone, Copy, Debug)]
pub enum Component {
    /// A data file, or an index file that goes with one.
    File(FileName),
    /// A memtable or a frozen map, by its number.
    Map(u64),
}

impl PartialEq for Component {
    ghost eq = { same };

    ghost laws = { partial_equiv_from_equiv (eq_by_cmp_equiv components_total) };

    fn eq(&self, other: &Component) -> bool {
        self.cmp(other).is_eq()
    }
}

impl Eq for Component {
    ghost laws = { eq_by_cmp_equiv components_total };
}

impl Ord for Component {
    ghost cmp = { component_cmp };

    ghost total = { components_total };

    ghost matches_partial_cmp = { λ x y. refl };

    ghost matches_eq = { λ x y. refl };

    fn cmp(&self, other: &Component) -> Ordering {
        match (self, other) {
            (Component::File(name), Component::File(other)) => name.cmp(other),
            (Component::File(_), Component::Map(_)) => Ordering::Less,
            (Component::Map(_), Component::File(_)) => Ordering::Greater,
            (Component::Map(number), Component::Map(other)) => number.cmp(other),
        }
    }
}

impl PartialOrd for Component {
    ghost partial_cmp = { as_partial_cmp component_cmp };

    ghost laws = { partial_order_from_own_ties (partial_order_from_total components_total) (λ x y. refl) };

    fn partial_cmp(&self, other: &Component) -> Option<Ordering> {
        Some(self.cmp(other))
    }
}
