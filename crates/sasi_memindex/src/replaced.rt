// Changes of the postings of one key.
ghost use Rattle.std.specs.Prelude.{◌≡◌, ◌&&◌, ◌||◌, not, map, Err, IfSome, OnOk, OnErr};
ghost use Rattle.std.specs.FinSet as set;
ghost use Rattle.std.specs.Option.{option_copied};
ghost use Rattle.sasi_model.specs.IndexTerms.{terms_of_value};
ghost use Rattle.sasi_types.specs.declared.class.Class.{Class};
ghost use Rattle.sasi_memindex.specs.IndexedValues.{IsText, IsValueOf, MissingExactly};
ghost use Rattle.sasi_types.specs.declared.column.ColumnType.{ColumnType};
ghost use Rattle.sasi_memindex.specs.declared.posting.Posting.{Posting as Seen};
ghost use Rattle.sasi_memindex.specs.Kept.{AreOf, AreTermsOf, is_among, set_of};

use crate::posting::Posting;
use crate::terms::terms_of;
use sasi_analyzers::Kit;
use sasi_types::{DecoratedKey, KitFault, Rule, Term, Value};
use std::alloc::{AllocError, Global};
use std::collections::BTreeSet;

/// Puts the terms of a value in the place of those of another one, at one key.
pub fn replace_value(
    alloc: Global,
    rule: Option<Rule>,
    postings: &mut BTreeSet<Posting>,
    key: &DecoratedKey,
    old: Option<&Value>,
    new: Option<&Value>,
    kit: &mut Kit,
) -> Result<(), KitFault>
    requires old_text { IfSome (option_copied old) IsText }
    requires new_text { IfSome (option_copied new) IsText }
    ensures ok { OnOk result ((p : Seen) → set.contains (set_of postings.new) p ≡ ((set.contains (set_of postings.old) p && not (is_among key.now (terms_of_value rule (option_copied old.entry)) p)) || is_among key.now (terms_of_value rule (option_copied new.entry)) p)) }
    ensures of { (type : ColumnType) → AreTermsOf type (terms_of_value rule (option_copied new.entry)) → AreOf type (set_of postings.old) → AreOf type (set_of postings.new) }
    ensures missing { (type : ColumnType) → IfSome (option_copied old.entry) (IsValueOf type) → IfSome (option_copied new.entry) (IsValueOf type) → MissingExactly (map (λ b. kind (b.vtable, b.value)) kit.old.objects.items) rule (option_copied old.entry) (option_copied new.entry) result }
    ensures unchanged { (class : Class) → result ≡ Err (KitFault.Missing class) → set_of postings.new ≡ set_of postings.old }
    ensures classes { map (λ b. kind (b.vtable, b.value)) kit.new.objects.items ≡ map (λ b. kind (b.vtable, b.value)) kit.old.objects.items }
{
    let old = terms_of(alloc, rule, old, kit)?;
    let new = terms_of(alloc, rule, new, kit)?;
    replace_terms(alloc, postings, key, old.as_slice(), new.as_slice())?;
    Ok(())
}

// Puts terms in the place of others, at one key.
fn replace_terms(
    alloc: Global,
    postings: &mut BTreeSet<Posting>,
    key: &DecoratedKey,
    old: &[Term],
    new: &[Term],
) -> Result<(), AllocError>
    ensures ok { OnOk result ((p : Seen) → set.contains (set_of postings.new) p ≡ ((set.contains (set_of postings.old) p && not (is_among key.now old.now p)) || is_among key.now new.now p)) }
    ensures of { (type : ColumnType) → AreTermsOf type new.now → AreOf type (set_of postings.old) → AreOf type (set_of postings.new) }
{
    remove_terms(alloc, postings, key, old)?;
    add_terms(alloc, postings, key, new)
}

// Removes the postings of a key with these terms.
fn remove_terms(
    alloc: Global,
    postings: &mut BTreeSet<Posting>,
    key: &DecoratedKey,
    terms: &[Term],
) -> Result<(), AllocError>
    ensures ok { OnOk result ((p : Seen) → set.contains (set_of postings.new) p ≡ (set.contains (set_of postings.old) p && not (is_among key.now terms.now p))) }
    ensures of { (type : ColumnType) → AreOf type (set_of postings.old) → AreOf type (set_of postings.new) }
{
    for term in terms {
        remove(postings, &Posting::new(alloc, term.bytes(), key)?);
    }
    Ok(())
}

// Removes one posting.
fn remove(postings: &mut BTreeSet<Posting>, posting: &Posting)
    ensures { set_of postings.new ≡ set.remove (set_of postings.old) posting.now }
{
    let _ = postings.remove(posting);
}

// Adds postings of a key with these terms.
fn add_terms(
    alloc: Global,
    postings: &mut BTreeSet<Posting>,
    key: &DecoratedKey,
    terms: &[Term],
) -> Result<(), AllocError>
    ensures ok { OnOk result ((p : Seen) → set.contains (set_of postings.new) p ≡ (set.contains (set_of postings.old) p || is_among key.now terms.now p)) }
    ensures of { (type : ColumnType) → AreTermsOf type terms.now → AreOf type (set_of postings.old) → AreOf type (set_of postings.new) }
{
    for term in terms {
        add(postings, Posting::new(alloc, term.bytes(), key)?)?;
    }
    Ok(())
}

// Adds one posting.
fn add(postings: &mut BTreeSet<Posting>, posting: Posting) -> Result<(), AllocError>
    ensures ok { OnOk result (set_of postings.new ≡ set.insert (set_of postings.old) posting) }
    ensures err { OnErr result (set_of postings.new ≡ set_of postings.old) }
{
    let _ = postings.insert(posting)?;
    Ok(())
}
