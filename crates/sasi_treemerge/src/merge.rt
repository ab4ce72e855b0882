// Merges the pairs of several trees of a file, and pairs in memory.
ghost use Rattle.std.specs.Prelude.{◌≡◌, ◌+◌, ◌*◌, ◌-◌, ◌≤◌, ◌<◌, ◌∷◌, [], List, None, IfErr, IfOk, IfSome, OnOk, Some, max, true};
ghost use Rattle.std.specs.BinaryHeap.{IsHeap, KeepsHeap, heap_items};
ghost use Rattle.std.specs.List.Sorted.{IsPermutation};
ghost use Rattle.sasi_types.specs.declared.tree.Pair.{Pair as SpecPair};
ghost use Rattle.sasi_host.specs.Names.{Bytes};
ghost use Rattle.sasi_host.specs.View.{ReadCost, contents};
ghost use Rattle.sasi_host.specs.Damages.{DamageShown};
ghost use Rattle.sasi_host.specs.PageReading.{CanRead, HasRead};
ghost use Rattle.sasi_tokentree.specs.Damages.{ShowsPairs};
ghost use Rattle.sasi_tokentree.specs.Reads.{NoFalseTreeDamage};
ghost use Rattle.sasi_treemerge.specs.Held.{held_cmp};
ghost use Rattle.sasi_treemerge.specs.Sources.{source_cmp};
ghost use Rattle.sasi_treemerge.specs.Merges.{Adds, AddsPairs, AddsSource, CanMerge, Gives, HeadsFirst, IsLeast, KeepsHeld, ReadsEach, SpendsReads, Steps, Takes, TakesHeld, TreesStay, held_of, is_left, last_after, parts_of, sources_of, unread_of};
ghost use Rattle.sasi_treemerge.specs.MergeDamages.{NoFalseDamageOf, ShowsSources};

use crate::held_pair::HeldPair;
use crate::tree_source::{TreeSource, source_of};
use crate::whole_tree::{hold_all, hold_tree, is_held_first, scan_of};
use sasi_host::{FileName, Host, PageReader, ReadFault};
use sasi_tokentree::MAX_ENTRIES;
use sasi_types::{Pair, Token, TreeRef};
use std::alloc::{AllocError, Global};
use std::collections::BinaryHeap;

/// A merge of the pairs of trees and of pairs in memory, in their order and each once. After an error it isn't used again.
#[derive(Drop)]
pub struct TreeMerge {
    pub alloc: Global,
    /// The file of the trees.
    pub file: FileName,
    /// The trees that have a pair left.
    pub sources: BinaryHeap<TreeSource, Global>,
    /// The pairs in memory that weren't given yet.
    pub pairs: BinaryHeap<HeldPair, Global>,
    /// The pair that was given last.
    pub last: Option<Pair>,
    /// Pairs of tokens below this one aren't given.
    pub floor: Token,
}

// Whether a pair comes behind the one that was given last, and its token isn't below the floor.
fn is_left(last: Option<Pair>, floor: Token, pair: Pair) -> bool
    ensures { result ≡ is_left last floor pair }
{
    match last {
        Some(last) if pair <= last => false,
        _ => floor <= pair.token,
    }
}

// Adds a source.
fn put(sources: &mut BinaryHeap<TreeSource, Global>, source: TreeSource) -> Result<(), AllocError>
    ensures put { OnOk result (IsPermutation (source ∷ heap_items sources.old) (heap_items sources.new)) }
    ensures heap { OnOk result (KeepsHeap source_cmp (heap_items sources.old) (heap_items sources.new)) }
{
    sources.push(source)?;
    Ok(())
}

impl TreeMerge {
    /// A merge of no tree of the file, and of no pair.
    pub fn new(alloc: Global, file: FileName) -> TreeMerge
        ensures file { result.file ≡ file }
        ensures sources { sources_of result ≡ [] }
        ensures heap { IsHeap source_cmp (sources_of result) }
        ensures held { held_of result ≡ [] }
        ensures held_heap { IsHeap held_cmp (held_of result) }
        ensures last { result.last ≡ None }
        ensures floor { result.floor ≡ 0 }
    {
        TreeMerge {
            alloc,
            file,
            sources: BinaryHeap::new(alloc),
            pairs: BinaryHeap::new(alloc),
            last: None,
            floor: 0,
        }
    }

    /// Adds the tree with this reference. One of a single node is read at once, and its pairs are kept in memory; a larger one is
    /// read pair by pair.
    pub fn add<H: Host, P: PageReader>(
        &mut self,
        host: &mut H,
        pages: &mut P,
        list: TreeRef,
    ) -> Result<(), ReadFault>
        requires read { CanRead (P.agrees pages.old) (H.view host.old) self.old.file }
        requires merge { CanMerge (H.view host.old) self.old }
        ensures ok { OnOk result (Adds (H.view host.old) self.old.file list (parts_of self.old) (parts_of self.new)) }
        ensures merge { OnOk result (CanMerge (H.view host.new) self.new) }
        ensures damaged { IfErr result (DamageShown (H.view host.old) self.old.file (ShowsPairs self.old.file list)) }
        ensures undamaged { IfErr result (NoFalseTreeDamage (H.view host.old) self.old.file list) }
        ensures read { HasRead (P.agrees pages.new) (P.covers pages.old) (P.covers pages.new) (H.view host.old) (H.view host.new) self.old.file }
        // It makes at most two reads for each pair of a node.
        ensures causes { ReadCost 510 (H.view host.old) (H.view host.new) result }
        ensures reads { SpendsReads (H.view host.old) (H.view host.new) (2 * unread_of (sources_of self.old) + 2 * list.pairs) (2 * unread_of (sources_of self.new)) result }
        ensures same { (self.new.file ≡ self.old.file) × (self.new.last ≡ self.old.last) × (self.new.floor ≡ self.old.floor) }
    {
        if list.pairs <= MAX_ENTRIES as u64 {
            hold_tree(self.alloc, host, pages, self.file, list, &mut self.pairs)?;
            return Ok(());
        }
        self.add_source(host, pages, list)?;
        Ok(())
    }

    /// Adds pairs, which are kept in memory.
    pub fn add_pairs(&mut self, pairs: &[Pair]) -> Result<(), AllocError>
        ensures ok { OnOk result (AddsPairs pairs.now (parts_of self.old) (parts_of self.new)) }
        ensures heap { OnOk result (KeepsHeap held_cmp (held_of self.old) (held_of self.new)) }
        ensures same { (self.new.file ≡ self.old.file) × (self.new.last ≡ self.old.last) × (self.new.floor ≡ self.old.floor) }
    {
        hold_all(&mut self.pairs, pairs)
    }

    // Adds the tree with this reference as a source, at its first pair.
    fn add_source<H: Host, P: PageReader>(
        &mut self,
        host: &mut H,
        pages: &mut P,
        list: TreeRef,
    ) -> Result<(), ReadFault>
        requires read { CanRead (P.agrees pages.old) (H.view host.old) self.old.file }
        requires merge { CanMerge (H.view host.old) self.old }
        ensures ok { OnOk result (AddsSource (H.view host.old) self.old.file list (sources_of self.old) (sources_of self.new)) }
        ensures merge { OnOk result (CanMerge (H.view host.new) self.new) }
        ensures damaged { IfErr result (DamageShown (H.view host.old) self.old.file (ShowsPairs self.old.file list)) }
        ensures undamaged { IfErr result (NoFalseTreeDamage (H.view host.old) self.old.file list) }
        ensures read { HasRead (P.agrees pages.new) (P.covers pages.old) (P.covers pages.new) (H.view host.old) (H.view host.new) self.old.file }
        ensures causes { ReadCost 2 (H.view host.old) (H.view host.new) result }
        ensures reads { SpendsReads (H.view host.old) (H.view host.new) (2 * unread_of (sources_of self.old) + 2 * list.pairs) (2 * unread_of (sources_of self.new)) result }
        ensures same { (self.new.file ≡ self.old.file) × (self.new.last ≡ self.old.last) × (self.new.floor ≡ self.old.floor) }
        ensures held { held_of self.new ≡ held_of self.old }
    {
        let tree = scan_of(self.alloc, self.file, list)?;
        match source_of(host, pages, tree)? {
            None => Ok(()),
            Some(source) => {
                put(&mut self.sources, source)?;
                Ok(())
            }
        }
    }

    // Takes the least pair in memory, unless a head comes before it.
    fn take_held(&mut self) -> Option<Pair>
        requires heap { IsHeap source_cmp (sources_of self.old) }
        requires held_heap { IsHeap held_cmp (held_of self.old) }
        ensures some { IfSome result (λ pair. TakesHeld pair (parts_of self.old) (parts_of self.new)) }
        ensures none { result ≡ None → HeadsFirst (sources_of self.old) (held_of self.old) × (held_of self.new ≡ held_of self.old) }
        ensures sources { sources_of self.new ≡ sources_of self.old }
        ensures held_heap { IsHeap held_cmp (held_of self.new) }
        ensures same { (self.new.file ≡ self.old.file) × (self.new.last ≡ self.old.last) × (self.new.floor ≡ self.old.floor) }
    {
        if !is_held_first(&self.sources, &self.pairs) {
            return None;
        }
        match self.pairs.pop() {
            None => None,
            Some(held) => Some(held.pair),
        }
    }

    // Takes the least head, and moves its source on; None where there is no source.
    fn take_head<H: Host, P: PageReader>(
        &mut self,
        host: &mut H,
        pages: &mut P,
    ) -> Result<Option<Pair>, ReadFault>
        requires read { CanRead (P.agrees pages.old) (H.view host.old) self.old.file }
        requires merge { CanMerge (H.view host.old) self.old }
        ensures ok { IfOk result (Steps (H.view host.old) (sources_of self.old) (sources_of self.new)) }
        ensures merge { OnOk result (CanMerge (H.view host.new) self.new) }
        ensures damaged { IfErr result (DamageShown (H.view host.old) self.old.file (ShowsSources (sources_of self.old) self.old.file)) }
        ensures undamaged { IfErr result (NoFalseDamageOf (H.view host.old) self.old.file (sources_of self.old)) }
        ensures read { HasRead (P.agrees pages.new) (P.covers pages.old) (P.covers pages.new) (H.view host.old) (H.view host.new) self.old.file }
        ensures causes { ReadCost (2 * unread_of (sources_of self.old)) (H.view host.old) (H.view host.new) result }
        ensures reads { OnOk result ((H.view host.new).reads + 2 * unread_of (sources_of self.new) ≤ (H.view host.old).reads + 2 * unread_of (sources_of self.old)) }
        ensures same { (self.new.file ≡ self.old.file) × (self.new.last ≡ self.old.last) × (self.new.floor ≡ self.old.floor) }
        ensures held { held_of self.new ≡ held_of self.old }
    {
        let Some(source) = self.sources.pop() else {
            return Ok(None);
        };
        let head = source.head;
        match source_of(host, pages, source.tree)? {
            None => Ok(Some(head)),
            Some(next) => {
                put(&mut self.sources, next)?;
                Ok(Some(head))
            }
        }
    }

    // Takes the least of the pairs in memory and of the heads, and moves its source on; None where there is none.
    fn take_least<H: Host, P: PageReader>(
        &mut self,
        host: &mut H,
        pages: &mut P,
    ) -> Result<Option<Pair>, ReadFault>
        requires read { CanRead (P.agrees pages.old) (H.view host.old) self.old.file }
        requires merge { CanMerge (H.view host.old) self.old }
        ensures ok { IfOk result (Takes (H.view host.old) (parts_of self.old) (parts_of self.new)) }
        ensures merge { OnOk result (CanMerge (H.view host.new) self.new) }
        ensures damaged { IfErr result (DamageShown (H.view host.old) self.old.file (ShowsSources (sources_of self.old) self.old.file)) }
        ensures undamaged { IfErr result (NoFalseDamageOf (H.view host.old) self.old.file (sources_of self.old)) }
        ensures read { HasRead (P.agrees pages.new) (P.covers pages.old) (P.covers pages.new) (H.view host.old) (H.view host.new) self.old.file }
        ensures causes { ReadCost (2 * unread_of (sources_of self.old)) (H.view host.old) (H.view host.new) result }
        ensures reads { OnOk result ((H.view host.new).reads + 2 * unread_of (sources_of self.new) ≤ (H.view host.old).reads + 2 * unread_of (sources_of self.old)) }
        ensures same { (self.new.file ≡ self.old.file) × (self.new.last ≡ self.old.last) × (self.new.floor ≡ self.old.floor) }
    {
        if let Some(pair) = self.take_held() {
            return Ok(Some(pair));
        }
        let head = self.take_head(host, pages)?;
        Ok(head)
    }

    /// The least pair that is left; None where none is.
    pub fn next<H: Host, P: PageReader>(
        &mut self,
        host: &mut H,
        pages: &mut P,
    ) -> Result<Option<Pair>, ReadFault>
        requires read { CanRead (P.agrees pages.old) (H.view host.old) self.old.file }
        requires merge { CanMerge (H.view host.old) self.old }
        ensures ok { IfOk result (λ found. (bytes : Bytes) (lists : List (List SpecPair)) → contents (H.view host.old) self.old.file ≡ Some bytes → Gives bytes lists self.old.last self.old.floor (parts_of self.old)
            → IsLeast lists self.old.last self.old.floor found × Gives bytes lists self.new.last self.new.floor (parts_of self.new)) }
        ensures merge { OnOk result (CanMerge (H.view host.new) self.new) }
        ensures trees { OnOk result (TreesStay (sources_of self.old) (sources_of self.new)) }
        // In any file no source is dropped before its tree's end, and no pair in memory before it was given. There is no pair only where
        // neither a source nor a pair in memory is left.
        ensures each { OnOk result (ReadsEach (H.view host.old) self.old.file (sources_of self.old) (sources_of self.new)) }
        ensures held { IfOk result (λ found. KeepsHeld self.old.last self.old.floor found (held_of self.old) (held_of self.new)) }
        ensures ends { IfOk result (λ found. found ≡ None → (sources_of self.new ≡ []) × (held_of self.new ≡ [])) }
        // In any file pairs rise, so a loop over them ends.
        ensures behind { IfOk result (λ found. IfSome found (λ pair. is_left self.old.last self.old.floor pair ≡ true)) }
        ensures damaged { IfErr result (DamageShown (H.view host.old) self.old.file (ShowsSources (sources_of self.old) self.old.file)) }
        ensures undamaged { IfErr result (NoFalseDamageOf (H.view host.old) self.old.file (sources_of self.old)) }
        ensures read { HasRead (P.agrees pages.new) (P.covers pages.old) (P.covers pages.new) (H.view host.old) (H.view host.new) self.old.file }
        // It makes at most two reads for each pair that becomes a head.
        ensures causes { ReadCost (2 * unread_of (sources_of self.old)) (H.view host.old) (H.view host.new) result }
        ensures reads { OnOk result ((H.view host.new).reads + 2 * unread_of (sources_of self.new) ≤ (H.view host.old).reads + 2 * unread_of (sources_of self.old)) }
        ensures file { self.new.file ≡ self.old.file }
        ensures floor { self.new.floor ≡ self.old.floor }
        ensures last { IfOk result (λ found. self.new.last ≡ last_after self.old.last found) }
    {
        loop {
            let Some(pair) = self.take_least(host, pages)? else {
                return Ok(None);
            };
            if is_left(self.last, self.floor, pair) {
                self.last = Some(pair);
                return Ok(Some(pair));
            }
        }
    }

    /// Drops the pairs of tokens below this one.
    pub fn skip_to(&mut self, token: Token)
        ensures floor { self.new.floor ≡ max self.old.floor token }
        ensures same { (self.new.file ≡ self.old.file) × (self.new.last ≡ self.old.last) × (parts_of self.new ≡ parts_of self.old) }
    {
        self.floor = self.floor.max(token);
    }
}
