// The book of counted views.
ghost use Rattle.std.specs.Prelude.{◌≡◌, ◌≤◌, ◌<◌, ◌^◌, IfOk, IfSome, IfNone, OnOk, OnErr};
ghost use Rattle.std.specs.FinMap as fin;
ghost use Rattle.sasi_views.specs.Parts.{ListsOnce, components_of};
ghost use Rattle.sasi_views.specs.Books.{count_of};
ghost use Rattle.sasi_views.specs.Changes.{AreCounted, AreObsolete, Forgot, Given, HasNoneDead, Replaced, Taken};

use crate::component::Component;
use crate::counting::{lower_all, replace_all, take_all};
use crate::dead::{first_dead, note_dead};
use crate::known::{Known, forget};
use crate::part::{FileList, PartList};
use crate::view::View;
use crate::{components, obsolete};
use std::alloc::{AllocError, Global};
use std::marker::Model;

// No component is above it.
const LAST: Component = Component::Map(u64::MAX);

/// Counts for each file and each map the views that are out and list it, and keeps which of them are current. It knows a component from
/// the view or the replacement that first lists it until `next_dead` gives it out. Each call takes O(log n) a component, where n are
/// known. `next_dead` also passes components that aren't dead, each at most once between two calls of `give` or `replace`. `obsolete`
/// looks at each.
#[derive(Drop)]
pub struct ViewBook {
    alloc: Global,
    known: Known,
    // No component below it is dead, so a search for one begins here.
    dead_from: Component,
    out: u32,
}

impl Model for ViewBook {
    ghost use Rattle.std.specs.FinMap as fin;
    ghost use Rattle.sasi_views.specs.Books.{Book, coded_book};

    ghost Value = { Book };

    ghost coded = { coded_book };

    ghost use Rattle.sasi_views.specs.inside.DeadFrom.{AreDeadFrom};

    ghost invariant = { λ a. AreDeadFrom a.dead_from a.known };

    ghost view = { λ a. record { known = fin.from_entries a.known.entries; out = a.out } };
}

impl ViewBook {
    /// The book that knows no component, with no view out.
    pub fn new(alloc: Global) -> ViewBook
        ensures { result ≡ record { known = fin.empty; out = 0 } }
    {
        ViewBook {
            alloc,
            known: Known::new(alloc),
            dead_from: LAST,
            out: 0,
        }
    }

    /// Takes a view that lists these parts. Out of memory leaves the book unchanged. A count that has no room
    /// for one more is taken for that.
    pub fn take(&mut self, parts: PartList) -> Result<View, AllocError>
        requires room { self.old.out < 2 ^ 16 }
        requires once { ListsOnce parts }
        ensures taken { OnOk result (Taken self.old self.new (components_of parts)) }
        ensures parts { IfOk result (λ view. view ≡ parts) }
        ensures err { OnErr result (self.new ≡ self.old) }
    {
        let view = View::of(self.alloc, parts)?;
        take_all(self.alloc, &mut self.known, view.components())?;
        self.out += 1;
        Ok(view)
    }

    /// Takes a view back. Allocates nothing.
    pub fn give(&mut self, view: View)
        requires counted { AreCounted self.old (components_of view) }
        requires out { 1 ≤ self.old.out }
        ensures { Given self.old self.new (components_of view) }
    {
        lower_all(&mut self.known, view.components());
        note_dead(&self.known, view.components(), &mut self.dead_from);
        self.out -= 1;
    }

    /// Makes parts current in the place of old ones. What is listed in both stays current. Out of memory leaves the book unchanged.
    pub fn replace(&mut self, old: &PartList, new: PartList) -> Result<(), AllocError>
        ensures ok { OnOk result (Replaced self.old self.new (components_of old.now) (components_of new)) }
        ensures err { OnErr result (self.new ≡ self.old) }
    {
        let removed = components::components_of(self.alloc, old.as_slice())?;
        let added = components::components_of(self.alloc, new.as_slice())?;
        replace_all(self.alloc, &mut self.known, &removed, &added)?;
        note_dead(&self.known, &removed, &mut self.dead_from);
        Ok(())
    }

    /// Gives out, and forgets, a component that isn't current and that no view lists: the first such file by name, or else the first
    /// such map by number. Allocates nothing.
    pub fn next_dead(&mut self) -> Option<Component>
        ensures some { IfSome result (λ gone. Forgot self.old self.new gone) }
        ensures none { IfNone result (HasNoneDead self.old × (self.new ≡ self.old)) }
    {
        let Some(gone) = first_dead(&self.known, self.dead_from) else {
            self.dead_from = LAST;
            return None;
        };
        forget(&mut self.known, &gone);
        self.dead_from = gone;
        Some(gone)
    }

    /// How many views that are out list the component.
    pub fn count(&self, component: &Component) -> u32
        ensures { result ≡ count_of self.now component.now }
    {
        match self.known.get(component) {
            Some(counted) => counted.count,
            None => 0,
        }
    }

    /// The files that are no longer current but listed by a view that is out, sorted. It looks at each component.
    pub fn obsolete(&self) -> Result<FileList, AllocError>
        ensures { IfOk result (AreObsolete self.now) }
    {
        obsolete::obsolete_files(self.alloc, &self.known)
    }
}
