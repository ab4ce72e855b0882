// The hits that an index file gives.
ghost use Rattle.std.specs.Prelude.{◌+◌, ◌≤◌, List, None, Option, length};
ghost use Rattle.sasi_types.specs.declared.tree.Pair.{Pair as SpecPair};
ghost use Rattle.sasi_host.specs.declared.name.FileName.{FileName as SpecName};
ghost use Rattle.sasi_host.specs.declared.damage.Damage.{Damage};
ghost use Rattle.sasi_host.specs.Names.{Bytes, Folder};
ghost use Rattle.sasi_indexwrite.specs.Content.{IndexContent};
ghost use Rattle.sasi_hits.specs.Calls.{IsFile};
ghost use Rattle.sasi_hits.specs.HitPairs.{AreHits};
ghost use Rattle.sasi_hits.specs.IndexHits.{HitsShow, ReadsAsIndex, all_cost};
ghost use Rattle.sasi_hits.specs.Pairs.{entries_of};

use crate::found::hit_of;
use crate::next_of::next_of;
use crate::open_searches::{WordSearches, open_searches};
use sasi_host::{FileName, Host, PageReader, ReadFault};
use sasi_ranges::{Entry, TokenStream};
use sasi_terms::Op;
use sasi_types::{TermList, Token};
use std::alloc::Global;

/// The hits of a relation that the index file beside a data file gives: the partitions at which each word of the relation is found, or
/// which are in the spill. The file is opened when the first hit is asked for.
#[derive(Drop)]
pub struct IndexHits {
    alloc: Global,
    file: FileName,
    op: Op,
    words: TermList,
    leaf: u32,
    part: u64,
    floor: Token,
    // None before the first hit is asked for.
    searches: Option<WordSearches>,
    ghost some: { 1 ≤ length words },
}

impl IndexHits {
    /// The hits of a relation with this operator and these words. It reads nothing yet.
    pub fn new(
        alloc: Global,
        file: FileName,
        op: Op,
        words: TermList,
        leaf: u32,
        part: u64,
    ) -> IndexHits
        requires some { 1 ≤ length words }
        // They are exactly the pairs that the search of each word gives, one by one the same pair for all words.
        ensures leaves { (files : Option Folder) (bytes : Bytes) (content : IndexContent) (pairs : List SpecPair) → ReadsAsIndex files file bytes content → AreHits content op words None 0 pairs → ⟦<IndexHits as TokenStream>⟧.leaves result files (entries_of leaf part pairs) }
        // They take at most the reads of the searches, and three to open the file.
        ensures pays { (files : Option Folder) (bytes : Bytes) (content : IndexContent) (is : ReadsAsIndex files file bytes content) → ⟦<IndexHits as TokenStream>⟧.pays result files (3 + all_cost is.index_file.blocks.levels content op words) }
        ensures opens { (name : SpecName) → ⟦<IndexHits as TokenStream>⟧.opens result name → IsFile file name }
        ensures ready { (files : Option Folder) → ⟦<IndexHits as TokenStream>⟧.ready result files }
        ensures shows { (files : Option Folder) (damage : Damage) → ⟦<IndexHits as TokenStream>⟧.shows result files damage → HitsShow file files damage }
    {
        IndexHits {
            alloc,
            file,
            op,
            words,
            leaf,
            part,
            floor: 0,
            searches: None,
        }
    }
}

impl TokenStream for IndexHits {
    ghost use Rattle.sasi_hits.specs.IndexHits.{HitEntries, HitsPay, HitsReady};
    ghost use Rattle.sasi_hits.specs.inside.KeepingHits.{hit_entries_rise, hits_keep};

    ghost leaves = { λ s files es. HitEntries s.file s.op s.words s.leaf s.part s.floor s.searches files es };

    ghost pays = { λ s files most. HitsPay s.file s.op s.words s.searches files most };

    ghost opens = { λ s name. IsFile s.file name };

    ghost ready = { λ s files. HitsReady s.file s.searches files };

    ghost shows = { λ s files damage. HitsShow s.file files damage };

    ghost rises = { λ s files es is. hit_entries_rise s.file s.op s.words s.leaf s.part s.floor s.searches files es is };

    ghost keeps = { λ s old new told same. hits_keep old new s.file s.op s.words s.leaf s.part s.floor s.searches same };

    fn next<H: Host, P: PageReader>(
        &mut self,
        host: &mut H,
        pages: &mut P,
    ) -> Result<Option<Entry>, ReadFault> {
        let searches = self.searches.take();
        let mut searches = open_searches(
            self.alloc,
            host,
            pages,
            self.file,
            &self.op,
            &self.words,
            searches,
        )?;
        let found = next_of(host, pages, &mut searches, self.floor)?;
        self.searches = Some(searches);
        Ok(hit_of(self.leaf, self.part, found))
    }

    fn skip_to<H: Host, P: PageReader>(
        &mut self,
        host: &mut H,
        pages: &mut P,
        token: Token,
    ) -> Result<(), ReadFault> {
        let _ = &host;
        let _ = &pages;
        self.floor = self.floor.max(token);
        Ok(())
    }
}
