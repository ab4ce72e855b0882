// Changes of many components.
ghost use Rattle.std.specs.Prelude.{◌≡◌, ◌+◌, ◌≤◌, ◌<◌, ◌^◌, true, false, suc, OnOk, OnErr, [], is_some, IsTrue};
ghost use Rattle.std.specs.BTreeMap.{get};
ghost use Rattle.sasi_views.specs.declared.component.Component.{Component as Seen};
ghost use Rattle.sasi_views.specs.Components.{among, component_cmp, lists};
ghost use Rattle.sasi_views.specs.Books.{count_in};
ghost use Rattle.sasi_views.specs.inside.Steps.{each, forgotten, learnt, lowered, marked, raised};

use crate::component::Component;
use crate::known::{Known, forget, learn, lower, mark, raise};
use std::alloc::{AllocError, Global};

/// Takes a view that lists these components. Out of memory leaves all as it was, and so does a count that has no room for one more.
pub fn take_all(
    alloc: Global,
    known: &mut Known,
    components: &[Component],
) -> Result<(), AllocError>
    requires once { (c : Seen) → lists c components.now ≤ 1 }
    ensures ok { OnOk result ((c : Seen) → get component_cmp known.new c ≡ each raised components.now c (each learnt components.now c (get component_cmp known.old c))) }
    ensures err { OnErr result ((c : Seen) → get component_cmp known.new c ≡ get component_cmp known.old c) }
{
    if !have_room(known, components) {
        return Err(AllocError);
    }
    learn_all(alloc, known, components)?;
    raise_all(known, components);
    Ok(())
}

/// Makes components current, and others no longer so that aren't among them. Out of memory leaves all as it was.
pub fn replace_all(
    alloc: Global,
    known: &mut Known,
    removed: &[Component],
    added: &[Component],
) -> Result<(), AllocError>
    ensures ok { OnOk result ((c : Seen) → get component_cmp known.new c ≡ each (marked true) added.now c (each (marked false) removed.now c (each learnt added.now c (get component_cmp known.old c)))) }
    ensures err { OnErr result ((c : Seen) → get component_cmp known.new c ≡ get component_cmp known.old c) }
{
    learn_all(alloc, known, added)?;
    mark_all(known, removed, false);
    mark_all(known, added, true);
    Ok(())
}

// Whether each of the counts has room for one more view.
fn have_room(known: &Known, components: &[Component]) -> bool
    ensures { IsTrue result → (c : Seen) → among c components.now ≡ true → suc (count_in (get component_cmp known.now c)) < 2 ^ 32 }
{
    for component in components {
        if !has_room(known, component) {
            return false;
        }
    }
    true
}

// Whether a count has room for one more view.
fn has_room(known: &Known, component: &Component) -> bool
    ensures { IsTrue result → suc (count_in (get component_cmp known.now component.now)) < 2 ^ 32 }
{
    match known.get(component) {
        Some(counted) => counted.count < u32::MAX,
        None => true,
    }
}

// Makes the book know each of the components, or none that it didn't know.
fn learn_all(alloc: Global, known: &mut Known, components: &[Component]) -> Result<(), AllocError>
    ensures ok { OnOk result ((c : Seen) → get component_cmp known.new c ≡ each learnt components.now c (get component_cmp known.old c)) }
    ensures err { OnErr result ((c : Seen) → get component_cmp known.new c ≡ get component_cmp known.old c) }
{
    let mut added = Vec::new(alloc);
    match learn_each(known, components, &mut added) {
        Ok(()) => Ok(()),
        Err(error) => {
            forget_all(known, &added);
            Err(error)
        }
    }
}

// Makes the book know the components one by one, and lists those that it didn't know.
fn learn_each(
    known: &mut Known,
    components: &[Component],
    added: &mut Vec<Component>,
) -> Result<(), AllocError>
    requires { added.old.items ≡ [] }
    ensures ok { OnOk result ((c : Seen) → get component_cmp known.new c ≡ each learnt components.now c (get component_cmp known.old c)) }
    ensures undone { (c : Seen) → each forgotten added.new.items c (get component_cmp known.new c) ≡ get component_cmp known.old c }
{
    for component in components {
        learn_one(known, *component, added)?;
    }
    Ok(())
}

// Makes the book know a component, and lists it if it didn't.
fn learn_one(
    known: &mut Known,
    component: Component,
    added: &mut Vec<Component>,
) -> Result<(), AllocError>
    ensures ok { OnOk result ((c : Seen) → get component_cmp known.new c ≡ learnt component c (get component_cmp known.old c)) }
    ensures undone { (c : Seen) → each forgotten added.new.items c (get component_cmp known.new c) ≡ each forgotten added.old.items c (get component_cmp known.old c) }
{
    if known.contains_key(&component) {
        return Ok(());
    }
    added.push(component)?;
    learn(known, component)
}

// Forgets each of the components.
fn forget_all(known: &mut Known, components: &[Component])
    ensures { (c : Seen) → get component_cmp known.new c ≡ each forgotten components.now c (get component_cmp known.old c) }
{
    for component in components {
        forget(known, component);
    }
}

// Counts one more view that lists each of the components.
fn raise_all(known: &mut Known, components: &[Component])
    requires { (c : Seen) → among c components.now ≡ true → count_in (get component_cmp known.old c) + lists c components.now < 2 ^ 32 }
    ensures { (c : Seen) → get component_cmp known.new c ≡ each raised components.now c (get component_cmp known.old c) }
{
    for component in components {
        raise(known, component);
    }
}

/// Counts one view less that lists each of the components.
pub fn lower_all(known: &mut Known, components: &[Component])
    requires { (c : Seen) → lists c components.now ≤ count_in (get component_cmp known.old c) }
    ensures { (c : Seen) → get component_cmp known.new c ≡ each lowered components.now c (get component_cmp known.old c) }
{
    for component in components {
        lower(known, component);
    }
}

// Makes each of the components current, or no longer so.
fn mark_all(known: &mut Known, components: &[Component], current: bool)
    ensures { (c : Seen) → get component_cmp known.new c ≡ each (marked current) components.now c (get component_cmp known.old c) }
{
    for component in components {
        mark(known, component, current);
    }
}
