// The terms of a file, and which of them its index file stores.
ghost use Rattle.std.specs.Prelude.{◌≡◌, not, IfErr, IfOk, map};
ghost use Rattle.std.specs.FinMap as map_;
ghost use Rattle.std.specs.List.{list_any};
ghost use Rattle.std.specs.Option.{option_copied};
ghost use Rattle.sasi_candidates.specs.Parts.{is_stored, keys_with};
ghost use Rattle.sasi_machine.specs.Classes.{OnMissing, RuleLacks};
ghost use Rattle.sasi_machine.specs.TableRows.{TextsStored};
ghost use Rattle.sasi_machine.specs.Where.{HasTexts};
ghost use Rattle.sasi_model.specs.Abbreviations.{value_of};
ghost use Rattle.sasi_model.specs.Cells.{value_at};
ghost use Rattle.sasi_model.specs.IndexTerms.{cell_at, terms_at, terms_of_cell};
ghost use Rattle.sasi_model.specs.Indexes.{index_of};
ghost use Rattle.sasi_model.specs.Tokens.{same};

use sasi_analyzers::Kit;
use sasi_cells::Partition;
use sasi_memindex::terms_of;
use sasi_memtable::Memtable;
use sasi_types::{DecoratedKey, IndexDef, KitFault, Mode, Term, TermList, Value};
use std::alloc::Global;

/// A stored term has this many bytes at most.
const LONGEST_TERM: usize = 1024;

/// An index of the mode SPARSE stores no term of more keys.
const MOST_KEYS: u64 = 5;

/// The value that is current in the column at a key.
pub fn value_of<'a>(holds: &'a Memtable, column: u16, key: &DecoratedKey) -> Option<&'a Value>
    ensures { option_copied result ≡ value_of (cell_at holds.now.partitions key.now column) }
{
    value_in(holds.get(key)?, column)
}

fn value_in(partition: &Partition, column: u16) -> Option<&Value>
    ensures { option_copied result ≡ value_at partition.now column }
{
    partition.cell(column)?.value()
}

/// The terms that an index has at a key.
pub fn terms_at(
    alloc: Global,
    holds: &Memtable,
    index: &IndexDef,
    key: &DecoratedKey,
    kit: &mut Kit,
) -> Result<TermList, KitFault>
    requires { TextsStored holds.now.partitions }
    ensures terms { IfOk result (λ terms. terms ≡ terms_at index.now.rule index.now.column holds.now.partitions key.now) }
    ensures missing { IfErr result (OnMissing (RuleLacks (map (λ b. kind (b.vtable, b.value)) kit.old.objects.items) index.now.rule)) }
    ensures kinds { map (λ b. kind (b.vtable, b.value)) kit.new.objects.items ≡ map (λ b. kind (b.vtable, b.value)) kit.old.objects.items }
{
    terms_of(alloc, index.rule, value_of(holds, index.column, key), kit)
}

/// Whether one of the terms isn't stored, so that its key is in the spill.
pub fn any_unstored(
    alloc: Global,
    holds: &Memtable,
    index: &IndexDef,
    terms: &[Term],
    kit: &mut Kit,
) -> Result<bool, KitFault>
    requires { TextsStored holds.now.partitions }
    ensures found { IfOk result (λ found. found ≡ list_any (λ term. not (is_stored (index_of index.now) holds.now.partitions term)) terms.now) }
    ensures missing { IfErr result (OnMissing (RuleLacks (map (λ b. kind (b.vtable, b.value)) kit.old.objects.items) index.now.rule)) }
    ensures kinds { map (λ b. kind (b.vtable, b.value)) kit.new.objects.items ≡ map (λ b. kind (b.vtable, b.value)) kit.old.objects.items }
{
    for term in terms {
        if !is_stored(alloc, holds, index, term, kit)? {
            return Ok(true);
        }
    }
    Ok(false)
}

// Whether the term is stored: it isn't too long, and in the mode SPARSE not one of too many keys.
fn is_stored(
    alloc: Global,
    holds: &Memtable,
    index: &IndexDef,
    term: &Term,
    kit: &mut Kit,
) -> Result<bool, KitFault>
    requires { TextsStored holds.now.partitions }
    ensures stored { IfOk result (λ stored. stored ≡ is_stored (index_of index.now) holds.now.partitions term.now) }
    ensures missing { IfErr result (OnMissing (RuleLacks (map (λ b. kind (b.vtable, b.value)) kit.old.objects.items) index.now.rule)) }
    ensures kinds { map (λ b. kind (b.vtable, b.value)) kit.new.objects.items ≡ map (λ b. kind (b.vtable, b.value)) kit.old.objects.items }
{
    if term.bytes().len() > LONGEST_TERM {
        return Ok(false);
    }
    match index.mode {
        Mode::Sparse => Ok(keys_with(alloc, holds, index, term, kit)? <= MOST_KEYS),
        Mode::Prefix | Mode::Contains => Ok(true),
    }
}

// How many keys have the term.
fn keys_with(
    alloc: Global,
    holds: &Memtable,
    index: &IndexDef,
    term: &Term,
    kit: &mut Kit,
) -> Result<u64, KitFault>
    requires { TextsStored holds.now.partitions }
    ensures keys { IfOk result (λ keys. keys ≡ keys_with (index_of index.now) holds.now.partitions term.now) }
    ensures missing { IfErr result (OnMissing (RuleLacks (map (λ b. kind (b.vtable, b.value)) kit.old.objects.items) index.now.rule)) }
    ensures kinds { map (λ b. kind (b.vtable, b.value)) kit.new.objects.items ≡ map (λ b. kind (b.vtable, b.value)) kit.old.objects.items }
{
    let mut keys = 0u64;
    for (_key, partition) in holds.iter() {
        if has_term(alloc, partition, index, term, kit)? {
            keys += 1;
        }
    }
    Ok(keys)
}

// Whether the term is one of the partition.
fn has_term(
    alloc: Global,
    partition: &Partition,
    index: &IndexDef,
    term: &Term,
    kit: &mut Kit,
) -> Result<bool, KitFault>
    requires { HasTexts partition.now }
    ensures found { IfOk result (λ found. found ≡ list_any (same term.now) (terms_of_cell index.now.rule (map_.get partition.now.cells index.now.column))) }
    ensures missing { IfErr result (OnMissing (RuleLacks (map (λ b. kind (b.vtable, b.value)) kit.old.objects.items) index.now.rule)) }
    ensures kinds { map (λ b. kind (b.vtable, b.value)) kit.new.objects.items ≡ map (λ b. kind (b.vtable, b.value)) kit.old.objects.items }
{
    let terms = terms_of(alloc, index.rule, value_in(partition, index.column), kit)?;
    Ok(is_among(terms.as_slice(), term))
}

fn is_among(terms: &[Term], term: &Term) -> bool
    ensures { result ≡ list_any (same term.now) terms.now }
{
    for other in terms {
        if term.bytes() == other.bytes() {
            return true;
        }
    }
    false
}
