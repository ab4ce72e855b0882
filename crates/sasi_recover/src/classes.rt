// The analyzers that listed indexes need.
ghost use Rattle.std.specs.Prelude.{◌≡◌, ◌++◌, ◌∷◌, [], ℕ, List, IfErr, OnOk, false, map};
ghost use Rattle.sasi_types.specs.declared.class.Class.{Class as AClass};
ghost use Rattle.sasi_analyzers.specs.Kits.{has_class};
ghost use Rattle.sasi_layout.specs.Classes.{HasAll, IsFirstMissing, classes_listed};
ghost use Rattle.sasi_manifest.specs.ListedTables.{listed};
ghost use Rattle.sasi_recover.specs.Missing.{IsMissingOf, needed_by, needed_by_all};

use sasi_analyzers::Kit;
use sasi_manifest::ListedTable;
use sasi_types::{Class, IndexDef, IndexNumber};

/// An index whose analyzer isn't there.
#[derive(Clone, Copy)]
pub struct Missing {
    pub index: IndexNumber,
    pub class: Class,
}

/// Passes where an analyzer is there for each index, and else tells the class of the first one for which none is.
pub fn check_classes(kit: &Kit, tables: &[ListedTable]) -> Result<(), Class>
    ensures all { OnOk result (HasAll (map (λ b. kind (b.vtable, b.value)) kit.now.objects.items) (classes_listed (map listed tables.now))) }
    ensures missing { IfErr result (IsFirstMissing (map (λ b. kind (b.vtable, b.value)) kit.now.objects.items) (classes_listed (map listed tables.now))) }
{
    match missing_of(kit, tables) {
        Some(missing) => Err(missing.class),
        None => Ok(()),
    }
}

// The index with the least number whose analyzer isn't there.
fn missing_of(kit: &Kit, tables: &[ListedTable]) -> Option<Missing>
    ensures { IsMissingOf (map (λ b. kind (b.vtable, b.value)) kit.now.objects.items) (classes_listed (map listed tables.now)) result }
{
    let mut found = None;
    for table in tables {
        found = missing_in(kit, table.table.indexes.as_slice(), found);
    }
    found
}

// The same of these indexes, and of those before.
fn missing_in(kit: &Kit, defs: &[IndexDef], before: Option<Missing>) -> Option<Missing>
    ensures { (needed : List (ℕ × AClass)) → IsMissingOf (map (λ b. kind (b.vtable, b.value)) kit.now.objects.items) needed before → IsMissingOf (map (λ b. kind (b.vtable, b.value)) kit.now.objects.items) (needed ++ needed_by_all defs.now) result }
{
    let mut found = before;
    for def in defs {
        found = missing_at(kit, def, found);
    }
    found
}

// The same of one index more.
fn missing_at(kit: &Kit, def: &IndexDef, before: Option<Missing>) -> Option<Missing>
    ensures { (needed : List (ℕ × AClass)) → IsMissingOf (map (λ b. kind (b.vtable, b.value)) kit.now.objects.items) needed before → IsMissingOf (map (λ b. kind (b.vtable, b.value)) kit.now.objects.items) (needed ++ needed_by def.now) result }
{
    let Some(rule) = def.rule else {
        return before;
    };
    let class = rule.class();
    if kit.has(class) {
        return before;
    }
    lesser(before, def.number, class)
}

// The one before, unless this index, whose analyzer isn't there, has a lower number.
fn lesser(before: Option<Missing>, index: IndexNumber, class: Class) -> Option<Missing>
    ensures { (kinds : List AClass) (needed : List (ℕ × AClass)) → has_class class kinds ≡ false → IsMissingOf kinds needed before → IsMissingOf kinds (needed ++ (index, class) ∷ []) result }
{
    let Some(found) = before else {
        return Some(Missing { index, class });
    };
    if found.index <= index {
        before
    } else {
        Some(Missing { index, class })
    }
}
