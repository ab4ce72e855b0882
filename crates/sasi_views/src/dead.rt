// The components that are dead.
ghost use Rattle.std.specs.Prelude.{◌≡◌, true, false, IfSome, IfNone};
ghost use Rattle.std.specs.BTreeMap.{get};
ghost use Rattle.std.specs.Ordering.{is_lt};
ghost use Rattle.sasi_views.specs.declared.component.Component.{Component as Seen};
ghost use Rattle.sasi_views.specs.Components.{among, component_cmp};
ghost use Rattle.sasi_views.specs.Books.{dead_in};
ghost use Rattle.sasi_views.specs.inside.DeadFrom.{AreDeadFrom};

use crate::component::Component;
use crate::known::Known;

/// The least component that isn't current and that no view lists, where none below `from` is so. It looks at each component from there
/// up to that one.
pub fn first_dead(known: &Known, from: Component) -> Option<Component>
    requires { AreDeadFrom from known.now }
    ensures dead { IfSome result (λ gone. dead_in (get component_cmp known.now gone) ≡ true) }
    ensures least { IfSome result (λ gone. AreDeadFrom gone known.now) }
    ensures none { IfNone result ((c : Seen) → dead_in (get component_cmp known.now c) ≡ false) }
{
    for (component, counted) in known.range(from..) {
        if counted.is_dead() {
            return Some(*component);
        }
    }
    None
}

/// Lowers `from` to the least of these components that is dead.
pub fn note_dead(known: &Known, components: &[Component], from: &mut Component)
    ensures kept { (c : Seen) → is_lt (component_cmp c from.old) ≡ false → is_lt (component_cmp c from.new) ≡ false }
    ensures noted { (c : Seen) → among c components.now ≡ true → dead_in (get component_cmp known.now c) ≡ true → is_lt (component_cmp c from.new) ≡ false }
{
    for component in components {
        note_one(known, component, from);
    }
}

// The same for one component.
fn note_one(known: &Known, component: &Component, from: &mut Component)
    ensures kept { (c : Seen) → is_lt (component_cmp c from.old) ≡ false → is_lt (component_cmp c from.new) ≡ false }
    ensures noted { dead_in (get component_cmp known.now component.now) ≡ true → is_lt (component_cmp component.now from.new) ≡ false }
{
    if is_dead(known, component) {
        lower_to(from, *component);
    }
}

// Whether a component is dead.
fn is_dead(known: &Known, component: &Component) -> bool
    ensures { result ≡ dead_in (get component_cmp known.now component.now) }
{
    match known.get(component) {
        Some(counted) => counted.is_dead(),
        None => false,
    }
}

// The lesser of the two.
fn lower_to(from: &mut Component, component: Component)
    ensures kept { (c : Seen) → is_lt (component_cmp c from.old) ≡ false → is_lt (component_cmp c from.new) ≡ false }
    ensures lowered { is_lt (component_cmp component from.new) ≡ false }
{
    if component.cmp(from).is_lt() {
        *from = component;
    }
}
