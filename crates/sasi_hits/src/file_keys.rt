// The keys of a data file, as hits.
ghost use Rattle.std.specs.Prelude.{◌*◌, ℕ, List, Option};
ghost use Rattle.sasi_types.specs.declared.partitioner.Partitioner.{Partitioner};
ghost use Rattle.sasi_host.specs.declared.name.FileName.{FileName as SpecName};
ghost use Rattle.sasi_host.specs.declared.damage.Damage.{Damage};
ghost use Rattle.sasi_host.specs.Names.{Bytes, Folder};
ghost use Rattle.sasi_datawrite.specs.Format.{Content, key_pairs};
ghost use Rattle.sasi_dataread.specs.ReadCosts.{file_pages};
ghost use Rattle.sasi_hits.specs.Calls.{IsFile};
ghost use Rattle.sasi_hits.specs.KeyTrees.{KeysShow, ReadsAsData};
ghost use Rattle.sasi_hits.specs.Pairs.{entries_of};

use crate::found::hit_of;
use crate::next_key::next_key;
use crate::open_keys::open_keys;
use sasi_host::{FileName, Host, PageReader, ReadFault};
use sasi_ranges::{Entry, TokenStream};
use sasi_tokentree::Tree;
use sasi_types::{Token, TypeList};
use std::alloc::Global;

/// All keys of a data file, as hits of a relation whose index the file lacks. One stream serves each such relation. The file is opened
/// when the first hit is asked for.
#[derive(Drop)]
pub struct FileKeys {
    alloc: Global,
    file: FileName,
    types: TypeList,
    leaf: u32,
    part: u64,
    floor: Token,
    // None before the first hit is asked for.
    tree: Option<Tree>,
}

impl FileKeys {
    /// The keys of a data file of a table whose columns have these types. It reads nothing yet.
    pub fn new(alloc: Global, file: FileName, types: TypeList, leaf: u32, part: u64) -> FileKeys
        // Its hits are those of all keys, each at the offset of its partition.
        ensures leaves { (files : Option Folder) (bytes : Bytes) (partitioner : Partitioner) (content : Content) → ReadsAsData files file types bytes partitioner content → ⟦<FileKeys as TokenStream>⟧.leaves result files (entries_of leaf part (key_pairs partitioner content)) }
        // They take at most twice as many reads as the file has pages.
        ensures pays { (files : Option Folder) (bytes : Bytes) (partitioner : Partitioner) (content : Content) → ReadsAsData files file types bytes partitioner content → ⟦<FileKeys as TokenStream>⟧.pays result files (2 * file_pages bytes) }
        ensures opens { (name : SpecName) → ⟦<FileKeys as TokenStream>⟧.opens result name → IsFile file name }
        ensures ready { (files : Option Folder) → ⟦<FileKeys as TokenStream>⟧.ready result files }
        ensures shows { (files : Option Folder) (damage : Damage) → ⟦<FileKeys as TokenStream>⟧.shows result files damage → KeysShow file files damage }
    {
        FileKeys {
            alloc,
            file,
            types,
            leaf,
            part,
            floor: 0,
            tree: None,
        }
    }
}

impl TokenStream for FileKeys {
    ghost use Rattle.sasi_hits.specs.KeyTrees.{KeyEntries, KeysPay, KeysReady};
    ghost use Rattle.sasi_hits.specs.inside.KeepingKeys.{key_entries_rise, keys_keep};

    ghost leaves = { λ s files es. KeyEntries s.file s.types s.leaf s.part s.floor s.tree files es };

    ghost pays = { λ s files most. KeysPay s.file s.types s.tree files most };

    ghost opens = { λ s name. IsFile s.file name };

    ghost ready = { λ s files. KeysReady s.file s.tree files };

    ghost shows = { λ s files damage. KeysShow s.file files damage };

    ghost rises = { λ s files es is. key_entries_rise s.file s.types s.leaf s.part s.floor s.tree files es is };

    ghost keeps = { λ s old new told same. keys_keep old new s.file s.types s.leaf s.part s.floor s.tree same };

    fn next<H: Host, P: PageReader>(
        &mut self,
        host: &mut H,
        pages: &mut P,
    ) -> Result<Option<Entry>, ReadFault> {
        let tree = self.tree.take();
        let mut tree = open_keys(self.alloc, host, pages, self.file, &self.types, tree)?;
        let found = next_key(host, pages, &mut tree, self.floor)?;
        self.tree = Some(tree);
        Ok(hit_of(self.leaf, self.part, found))
    }

    fn skip_to<H: Host, P: PageReader>(
        &mut self,
        host: &mut H,
        pages: &mut P,
        token: Token,
    ) -> Result<(), ReadFault> {
        let _ = &host;
        let _ = &pages;
        self.floor = self.floor.max(token);
        Ok(())
    }
}
