// Changes of one component.
ghost use Rattle.std.specs.Prelude.{◌≡◌, ◌+◌, ◌≤◌, ◌<◌, ◌^◌, OnOk, OnErr};
ghost use Rattle.std.specs.BTreeMap.{get};
ghost use Rattle.sasi_views.specs.declared.component.Component.{Component as Seen};
ghost use Rattle.sasi_views.specs.Components.{component_cmp};
ghost use Rattle.sasi_views.specs.Books.{count_in};
ghost use Rattle.sasi_views.specs.inside.Steps.{forgotten, learnt, lowered, marked, raised};

use crate::component::Component;
use crate::counted::Counted;
use std::alloc::AllocError;
use std::collections::BTreeMap;

/// The book's components.
pub type Known = BTreeMap<Component, Counted>;

/// Adds a component that isn't known: it isn't current, and no view lists it.
pub fn learn(known: &mut Known, component: Component) -> Result<(), AllocError>
    requires { get component_cmp known.old component ≡ None }
    ensures ok { OnOk result ((c : Seen) → get component_cmp known.new c ≡ learnt component c (get component_cmp known.old c)) }
    ensures err { OnErr result ((c : Seen) → get component_cmp known.new c ≡ get component_cmp known.old c) }
{
    let counted = Counted {
        count: 0,
        current: false,
    };
    let _ = known.insert(component, counted)?;
    Ok(())
}

/// Forgets a component.
pub fn forget(known: &mut Known, component: &Component)
    ensures { (c : Seen) → get component_cmp known.new c ≡ forgotten component.now c (get component_cmp known.old c) }
{
    let _ = known.remove(component);
}

/// Counts one more view that lists the component.
pub fn raise(known: &mut Known, component: &Component)
    requires { count_in (get component_cmp known.old component.now) + 1 < 2 ^ 32 }
    ensures { (c : Seen) → get component_cmp known.new c ≡ raised component.now c (get component_cmp known.old c) }
{
    if let Some(counted) = known.get_mut(component) {
        counted.count += 1;
    }
}

/// Counts one view less that lists the component.
pub fn lower(known: &mut Known, component: &Component)
    requires { 1 ≤ count_in (get component_cmp known.old component.now) }
    ensures { (c : Seen) → get component_cmp known.new c ≡ lowered component.now c (get component_cmp known.old c) }
{
    if let Some(counted) = known.get_mut(component) {
        counted.count -= 1;
    }
}

/// Makes a component current, or no longer so.
pub fn mark(known: &mut Known, component: &Component, current: bool)
    ensures { (c : Seen) → get component_cmp known.new c ≡ marked current component.now c (get component_cmp known.old c) }
{
    if let Some(counted) = known.get_mut(component) {
        counted.current = current;
    }
}
