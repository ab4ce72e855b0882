// Adds the postings of a cell to a gathering.
ghost use Rattle.std.specs.Prelude.{◌≡◌, ◌≤◌, ◌∷◌, [], length, map, not, Err, IfOk, IfSome, OnOk};
ghost use Rattle.std.specs.List.{AllByRecursion, filter, list_any};
ghost use Rattle.std.specs.Option.{option_copied};
ghost use Rattle.sasi_types.specs.declared.class.Class.{Class};
ghost use Rattle.sasi_types.specs.declared.list_kind.ListKind.TheVariants.{Stored};
ghost use Rattle.sasi_model.specs.IndexTerms.{terms_of_value};
ghost use Rattle.sasi_memindex.specs.Book.{IsMissing};
ghost use Rattle.sasi_memindex.specs.IndexedValues.{IsText};
ghost use Rattle.sasi_segments.specs.Postings.{posting_of};
ghost use Rattle.sasi_postings.specs.Postings.{distinct, is_short, postings_of, spill_postings, stored_postings, with_postings};

use sasi_analyzers::Kit;
use sasi_memindex::terms_of;
use sasi_segments::Gather;
use sasi_types::{KitFault, ListKind, Pair, Rule, Term, Value};
use std::alloc::{AllocError, Global};

/// A stored term has this many bytes at most.
const LONGEST_TERM: usize = 1024;

/// Adds the postings of a partition whose indexed column has this value: one for each of its terms, and one in the spill
/// where a term is too long to be stored. No value has none. After a fault some of them may have been added.
pub fn add_postings(
    alloc: Global,
    gather: &mut Gather,
    rule: Option<Rule>,
    value: Option<&Value>,
    pair: Pair,
    kit: &mut Kit,
) -> Result<(), KitFault>
    requires { IfSome (option_copied value) IsText }
    ensures ok { OnOk result (gather.new ≡ record gather.old { postings = with_postings gather.old.postings (postings_of is_short pair (terms_of_value rule (option_copied value.entry))) }) }
    ensures missing { (class : Class) → result ≡ Err (KitFault.Missing class) → IsMissing (map (λ b. kind (b.vtable, b.value)) kit.old.objects.items) rule class }
    ensures classes { map (λ b. kind (b.vtable, b.value)) kit.new.objects.items ≡ map (λ b. kind (b.vtable, b.value)) kit.old.objects.items }
{
    let terms = terms_of(alloc, rule, value, kit)?;
    add_terms(alloc, gather, terms.as_slice(), pair)?;
    Ok(())
}

// Adds the postings of these terms.
fn add_terms(
    alloc: Global,
    gather: &mut Gather,
    terms: &[Term],
    pair: Pair,
) -> Result<(), AllocError>
    ensures { OnOk result (gather.new ≡ record gather.old { postings = with_postings gather.old.postings (postings_of is_short pair terms.now) }) }
{
    // As of most values: no list is needed.
    if let [term] = terms {
        return add_term(gather, term, pair);
    }
    let short = short_terms(alloc, terms)?;
    add_stored(gather, &short, pair)?;
    add_spilled(gather, terms, pair)
}

// Whether the term can be stored.
fn is_short(term: &Term) -> bool
    ensures { result ≡ is_short term.now }
{
    term.bytes().len() <= LONGEST_TERM
}

// Adds the posting of the only term of a value.
fn add_term(gather: &mut Gather, term: &Term, pair: Pair) -> Result<(), AllocError>
    ensures { OnOk result (gather.new ≡ record gather.old { postings = with_postings gather.old.postings (postings_of is_short pair (term.now ∷ [])) }) }
{
    if is_short(term) {
        gather.add(term.bytes(), ListKind::Stored, pair)
    } else {
        gather.add(&[], ListKind::Spill, pair)
    }
}

// The terms that can be stored, in their order and each once.
fn short_terms<'a>(alloc: Global, terms: &'a [Term]) -> Result<Vec<&'a [u8]>, AllocError>
    ensures once { IfOk result (λ short. map (λ t. t.now) short.items ≡ distinct (filter is_short terms.now)) }
{
    let mut short = Vec::new(alloc);
    for term in terms {
        if is_short(term) {
            short.push(term.bytes())?;
        }
    }
    short.sort_unstable();
    short.dedup();
    Ok(short)
}

// Adds a posting for each of these terms, which can be stored.
fn add_stored(gather: &mut Gather, terms: &[&[u8]], pair: Pair) -> Result<(), AllocError>
    requires { AllByRecursion (λ t. length t.now ≤ 1024) terms.now }
    ensures { OnOk result (gather.new ≡ record gather.old { postings = with_postings gather.old.postings (map (λ t. posting_of t.now Stored pair) terms.now) }) }
{
    for term in terms {
        gather.add(term, ListKind::Stored, pair)?;
    }
    Ok(())
}

// Whether one of the terms can't be stored.
fn has_long(terms: &[Term]) -> bool
    ensures { result ≡ list_any (λ term. not (is_short term)) terms.now }
{
    for term in terms {
        if !is_short(term) {
            return true;
        }
    }
    false
}

// Adds a posting to the spill, where one of the terms can't be stored.
fn add_spilled(gather: &mut Gather, terms: &[Term], pair: Pair) -> Result<(), AllocError>
    ensures { OnOk result (gather.new ≡ record gather.old { postings = with_postings gather.old.postings (spill_postings is_short pair terms.now) }) }
{
    if has_long(terms) {
        gather.add(&[], ListKind::Spill, pair)?;
    }
    Ok(())
}
