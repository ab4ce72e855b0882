// Indexes of memtables.
ghost use Rattle.std.specs.Prelude.{◌≡◌, map, Err, IfOk, IfSome, OnOk};
ghost use Rattle.std.specs.Option.{option_copied};
ghost use Rattle.sasi_types.specs.declared.class.Class.{Class};
ghost use Rattle.sasi_model.specs.IndexTerms.{terms_of_cell, terms_of_value};
ghost use Rattle.sasi_memindex.specs.IndexedValues.{IsCellOf, IsValueOf, MissingExactly, live_value};
ghost use Rattle.sasi_memindex.specs.IndexOf.{HasPut, HasTermsAt, IsIndexOf};
ghost use Rattle.sasi_memindex.specs.Hits.{AreHits, keys_in};
ghost use Rattle.sasi_model.specs.Abbreviations.{Partitions};
ghost use Rattle.sasi_memindex.specs.MemIndexView.{empty_index, subject};

use crate::KeyList;
use crate::hits::{hits, in_order};
use crate::posting::Posting;
use crate::replaced::replace_value;
use sasi_analyzers::Kit;
use sasi_terms::Op;
use sasi_types::{Cell, ColumnType, DecoratedKey, IndexDef, KitFault, Rule, Value};
use std::alloc::{AllocError, Global};
use std::collections::BTreeSet;
use std::marker::Model;

/// The index of a column in one memtable: which of the memtable's keys have a term.
#[derive(Drop)]
pub struct MemIndex {
    alloc: Global,
    column: u16,
    kind: ColumnType,
    rule: Option<Rule>,
    postings: BTreeSet<Posting>,
}

impl Model for MemIndex {
    ghost use Rattle.std.specs.FinSet as set;
    ghost use Rattle.sasi_memindex.specs.MemIndexView.{MemIndexView, coded_index};

    ghost Value = { MemIndexView };

    ghost coded = { coded_index };

    ghost use Rattle.sasi_memindex.specs.Kept.{AreOf, set_of};

    ghost view = { λ a. record { column = a.column; kind = a.kind; rule = a.rule; postings = set_of a.postings } };

    ghost invariant = { λ a. AreOf a.kind (set_of a.postings) };
}

impl MemIndex {
    /// The empty index that a definition asks for.
    pub fn new(alloc: Global, def: &IndexDef) -> MemIndex
        ensures { result ≡ empty_index def.now.column def.now.kind def.now.rule }
    {
        MemIndex {
            alloc,
            column: def.column,
            kind: def.kind,
            rule: def.rule,
            postings: BTreeSet::new(alloc),
        }
    }

    // The number of the column.
    pub(crate) fn column(&self) -> u16
        ensures { result ≡ self.now.column }
    {
        self.column
    }

    /// The keys that have a term which is as the operator asks, in their order and each once. A range doesn't look at the body.
    /// Equality takes the time of a look-up and of the hits. Prefix and a range take that of sorting the hits besides, suffix
    /// and contains also test each term that the index has.
    pub fn search(&self, op: &Op, body: &[u8]) -> Result<KeyList, AllocError>
        ensures hits { IfOk result (AreHits op.now body.now self.now.postings) }

        // Those of the map whose index it is.
        ensures of_map { (m : Partitions) → IsIndexOf m self.now → IfOk result (λ found. found ≡ keys_in op.now body.now self.now m) }
    {
        let keys = hits(self.alloc, self.kind, &self.postings, op, body)?;
        let keys = in_order(self.alloc, op, keys)?;
        Ok(KeyList::new(keys))
    }

    /// Puts the terms of a key's new cell in the place of those of its old one, which is the cell that the index knows of. No
    /// cell is None. After out of memory the index isn't used again.
    pub fn put(
        &mut self,
        key: &DecoratedKey,
        old: Option<&Cell>,
        new: Option<&Cell>,
        kit: &mut Kit,
    ) -> Result<(), KitFault>
        requires current { HasTermsAt self.old key.now (terms_of_cell self.old.rule (option_copied old)) }
        requires old_value { IsCellOf self.old.kind (option_copied old) }
        requires new_value { IsCellOf self.old.kind (option_copied new) }
        ensures ok { OnOk result (HasPut self.old key.now (terms_of_cell self.old.rule (option_copied new.entry)) self.new) }
        ensures subject { subject self.new ≡ subject self.old }
        ensures missing { MissingExactly (map (λ b. kind (b.vtable, b.value)) kit.old.objects.items) self.old.rule (live_value (option_copied old.entry)) (live_value (option_copied new.entry)) result }
        ensures unchanged { (class : Class) → result ≡ Err (KitFault.Missing class) → self.new ≡ self.old }
        ensures classes { map (λ b. kind (b.vtable, b.value)) kit.new.objects.items ≡ map (λ b. kind (b.vtable, b.value)) kit.old.objects.items }
    {
        self.put_value(key, value_of(old), value_of(new), kit)
    }

    /// The same, with the values of the cells. A tombstone has none.
    pub(crate) fn put_value(
        &mut self,
        key: &DecoratedKey,
        old: Option<&Value>,
        new: Option<&Value>,
        kit: &mut Kit,
    ) -> Result<(), KitFault>
        requires current { HasTermsAt self.old key.now (terms_of_value self.old.rule (option_copied old)) }
        requires old_value { IfSome (option_copied old) (IsValueOf self.old.kind) }
        requires new_value { IfSome (option_copied new) (IsValueOf self.old.kind) }
        ensures ok { OnOk result (HasPut self.old key.now (terms_of_value self.old.rule (option_copied new.entry)) self.new) }
        ensures subject { subject self.new ≡ subject self.old }
        ensures missing { MissingExactly (map (λ b. kind (b.vtable, b.value)) kit.old.objects.items) self.old.rule (option_copied old.entry) (option_copied new.entry) result }
        ensures unchanged { (class : Class) → result ≡ Err (KitFault.Missing class) → self.new ≡ self.old }
        ensures classes { map (λ b. kind (b.vtable, b.value)) kit.new.objects.items ≡ map (λ b. kind (b.vtable, b.value)) kit.old.objects.items }
    {
        replace_value(
            self.alloc,
            self.rule,
            &mut self.postings,
            key,
            old,
            new,
            kit,
        )
    }
}

// The value of a cell.
fn value_of(cell: Option<&Cell>) -> Option<&Value>
    ensures { option_copied result ≡ live_value (option_copied cell.entry) }
{
    match cell {
        Some(cell) => cell.value.as_ref(),
        None => None,
    }
}
