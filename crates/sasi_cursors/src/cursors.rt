// The open cursors by their names.
ghost use Rattle.std.specs.Prelude.{◌≡◌, ◌++◌, false, [], ◌∷◌, length, IfErr, IfOk, OnErr, OnOk};
ghost use Rattle.std.specs.Borrow.{sem};
ghost use Rattle.std.specs.Map.{lookup, remove_entry, values_of};
ghost use Rattle.std.specs.Map.Iter.{GivesInOrder, ShowsInOrder, deref};
ghost use Rattle.std.specs.Option.{option_copied_mut};
ghost use Rattle.indexmap.specs.IndexMap.{IsUnique};
ghost use Rattle.sasi_types.specs.Key.{key_eq};
ghost use Rattle.sasi_cursors.specs.Cursors.{cursor_of, is_open, without, IsOnce};

use indexmap::IndexMap;
use indexmap::map::{IntoValues, Values};
use sasi_types::Name;
use std::alloc::{AllocError, AllocFailed, Global};
use std::marker::Model;

/// Open cursors, each under a name of its own, in the order in which they were opened. Seen as the list of names and cursors.
#[derive(Drop)]
pub struct Cursors<C> {
    // By the bytes of the name, since by these a `Name` finds its cursor without a copy.
    by_name: IndexMap<Vec<u8>, C>,
}

impl<C> Model for Cursors<C> {
    ghost use Rattle.std.specs.Prelude.{List, ℕ, map};
    ghost use Rattle.std.specs.Coded.{coded×, coded_list, coded_ℕ};
    ghost use Rattle.sasi_cursors.specs.Cursors.{entry_of, IsOnce};

    ghost Value = { List (List ℕ × C) };

    ghost coded = { coded_list (coded× (coded_list coded_ℕ) C.code) };

    ghost view = { λ c. map entry_of c.by_name.entries };

    ghost invariant = { λ c. IsOnce (map entry_of c.by_name.entries) };
}

// The bytes of a name, for the map to own.
fn copied(name: &Name, alloc: Global) -> Result<Vec<u8>, AllocError>
    ensures { IfOk result (λ bytes. bytes.items ≡ name.now) }
{
    Ok(name.bytes().to_vec(alloc)?)
}

// Takes a cursor out of the map, and leaves the others in their order.
fn take_out<C>(by_name: &mut IndexMap<Vec<u8>, C>, name: &Name) -> Option<C>
    ensures taken { result ≡ lookup (λ key. key_eq name.now key.items) by_name.old.entries }
    ensures others { by_name.new.entries ≡ remove_entry (λ key. key_eq name.now key.items) by_name.old.entries }
    ensures unique { IsUnique (λ x y. key_eq x.items y.items) by_name.new }
{
    by_name.shift_remove(name.bytes())
}

impl<C> Cursors<C> {
    ghost use Rattle.sasi_cursors.specs.Lends.{lends_cursor};

    /// No cursor is open. It takes no memory until the first one is.
    pub fn new(alloc: Global) -> Cursors<C>
        ensures { result ≡ [] }
    {
        Cursors {
            by_name: IndexMap::new(alloc),
        }
    }

    /// How many cursors are open.
    pub fn len(&self) -> usize
        ensures len { result ≡ length self.now }
        ensures once { IsOnce self.now }
    {
        self.by_name.len()
    }

    /// Whether a cursor of the name is open.
    pub fn has(&self, name: &Name) -> bool
        ensures found { result ≡ is_open name.now self.now }
        ensures once { IsOnce self.now }
    {
        self.by_name.contains_key(name.bytes())
    }

    /// The cursor of the name, to be moved on in its place.
    pub fn get_mut(&mut self, name: &Name) -> Option<&mut C>
        ensures* writes_back { sem 𝓛 (lends_cursor C.row self.entry name.now result) }
        ensures value { option_copied_mut result ≡ cursor_of name.now self.old }
        ensures once { IsOnce self.old }
    {
        self.by_name.get_mut(name.bytes())
    }

    /// Opens a cursor behind all others. The name is copied. Out of memory gives the cursor back, and leaves the others.
    pub fn insert(&mut self, name: &Name, cursor: C) -> Result<(), AllocFailed<C>>
    where
        C: Drop,
        requires { is_open name.now self.old ≡ false }
        ensures opened { OnOk result (self.new ≡ self.old ++ (name.now, cursor) ∷ []) }
        ensures unchanged { OnErr result (self.new ≡ self.old) }
        ensures given_back { IfErr result (λ error. error.value ≡ cursor) }
        ensures once { IsOnce self.old }
    {
        let Ok(bytes) = copied(name, *self.by_name.allocator()) else {
            return Err(AllocFailed { value: cursor });
        };
        match self.by_name.insert(bytes, cursor) {
            Ok(_) => Ok(()),
            Err(error) => Err(AllocFailed {
                value: error.value.1,
            }),
        }
    }

    /// Closes the cursor of the name, and gives it back. The others keep their order.
    pub fn remove(&mut self, name: &Name) -> Option<C>
        ensures closed { result ≡ cursor_of name.now self.old }
        ensures rest { self.new ≡ without name.now self.old }
        ensures once { IsOnce self.old }
    {
        take_out(&mut self.by_name, name)
    }

    /// The cursors in the order of opening.
    pub fn values(&self) -> Values<'_, Vec<u8>, C>
        ensures rest { result ≡ values_of self.now }
        ensures runs { ShowsInOrder (deref {X = C}) }
        ensures once { IsOnce self.now }
    {
        self.by_name.values()
    }

    /// The cursors by value, in the order of opening.
    pub fn into_values(self) -> IntoValues<Vec<u8>, C>
        ensures rest { result ≡ values_of self }
        ensures runs { GivesInOrder C }
        ensures once { IsOnce self }
    {
        self.by_name.into_values()
    }
}
