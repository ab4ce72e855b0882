// Writes the trees of an index's terms one behind another, and keeps an entry for each.
ghost use Rattle.std.specs.Prelude.{◌≡◌, ◌+◌, ◌∷◌, ◌^◌, ◌≤◌, [], List, Some, None, ◌++◌, length, OnOk};
ghost use Rattle.sasi_types.specs.declared.mode.Mode.{Mode};
ghost use Rattle.sasi_host.specs.Names.{Bytes};
ghost use Rattle.sasi_host.specs.View.{ListCauses, Reaches};
ghost use Rattle.sasi_host.specs.Disk.{AnyChange, Changes, FileChange};
ghost use Rattle.sasi_tokentree.specs.Format.{IsRising};
ghost use Rattle.sasi_termblocks.specs.Writing.{HasPushed};
ghost use Rattle.sasi_indexwrite.specs.Appending.{CanAppend};
ghost use Rattle.sasi_indexwrite.specs.Content.{TermPairs};
ghost use Rattle.sasi_indexwrite.specs.TermsSoFar.{closed_for, kept_for, with_pair, with_pairs};
ghost use Rattle.sasi_indexwrite.specs.Writing.{CanStoreTerm, HasAllTrees, HasSuperblocks, HasTrees, HasWritten};

use crate::header::HEADER_LENGTH;
use crate::superblocks::{Superblocks, end_superblock, take_pairs};
use crate::tree_writer::{TreeWriter, append_tree, write_out};
use crate::unions::push_all;
use sasi_host::{FileName, Host, HostFault};
use sasi_sparse::is_stored;
use sasi_termblocks::{BlockWriter, TermEntry};
use sasi_types::{Mode, Pair, PairList, Term};
use std::alloc::Global;
use std::mem;

// What was written of the terms, and the pairs of the last term so far.
#[derive(Drop)]
pub struct TermWriter {
    pub mode: Mode,
    pub trees: TreeWriter,
    pub blocks: BlockWriter,
    pub term: Term,
    pub pairs: PairList,
    // In the mode SPARSE: the trees of superblocks, and the pairs of the terms with too many.
    pub groups: Superblocks,
    pub common: PairList,
}

impl TermWriter {
    // A writer behind the header, without a term.
    pub fn new(alloc: Global, file: FileName, mode: Mode) -> TermWriter
        ensures mode { result.mode ≡ mode }
        ensures file { result.trees.file ≡ file }
        ensures end { result.trees.end ≡ 16 }
        ensures none { result.trees.unwritten.items ≡ [] }
        ensures term { result.term ≡ [] }
        ensures pairs { result.pairs ≡ [] }
        ensures ready { CanStoreTerm result }
        ensures blocks { HasPushed result.blocks [] }
        ensures groups { result.groups.pairs ≡ [] }
        ensures table { result.groups.trees.items ≡ [] }
        ensures common { result.common ≡ [] }
    {
        TermWriter {
            mode,
            trees: TreeWriter::new(alloc, file, HEADER_LENGTH),
            blocks: BlockWriter::new(alloc),
            term: Term::new(Vec::new(alloc)),
            pairs: PairList::new(alloc),
            groups: Superblocks::new(alloc),
            common: PairList::new(alloc),
        }
    }
}

// Appends the tree of the term's pairs, and keeps its entry with the reference of the tree.
fn write_tree<H: Host>(
    alloc: Global,
    host: &mut H,
    writer: &mut TermWriter,
    term: Term,
) -> Result<(), HostFault>
    requires short { length term ≤ 1024 }
    requires some { 1 ≤ length writer.old.pairs }
    requires ready { CanStoreTerm writer.old }
    requires room { Reaches (H.view host.old) writer.old.trees.file writer.old.trees.end }
    ensures ok { OnOk result ((header : Bytes) (closed : List TermPairs) → HasTrees (H.view host.old) writer.old header closed → HasTrees (H.view host.new) writer.new header (closed ++ (term, writer.old.pairs) ∷ [])) }
    ensures trees { OnOk result (CanAppend writer.new.trees) }
    ensures room { OnOk result (Reaches (H.view host.new) writer.new.trees.file writer.new.trees.end) }
    ensures file { writer.new.trees.file ≡ writer.old.trees.file }
    ensures mode { writer.new.mode ≡ writer.old.mode }
    ensures term { writer.new.term ≡ writer.old.term }
    ensures changes { Changes (FileChange writer.old.trees.file AnyChange) (H.view host.old) (H.view host.new) }
    ensures causes { ListCauses (H.view host.old) (H.view host.new) result }
{
    let tree = append_tree(alloc, host, &mut writer.trees, &writer.pairs)?;
    let entry = TermEntry {
        term,
        list: Some(tree),
        inline: None,
    };
    writer.blocks.push(&entry)?;
    Ok(())
}

// Keeps the entry of a term with few pairs, which stand in it, and takes them for the tree of its superblock.
fn write_inline<H: Host>(
    alloc: Global,
    host: &mut H,
    writer: &mut TermWriter,
    term: Term,
) -> Result<(), HostFault>
    requires short { length term ≤ 1024 }
    requires some { 1 ≤ length writer.old.pairs }
    requires few { length writer.old.pairs ≤ 5 }
    requires ready { CanStoreTerm writer.old }
    requires room { Reaches (H.view host.old) writer.old.trees.file writer.old.trees.end }
    ensures ok { OnOk result ((header : Bytes) (closed : List TermPairs) → HasSuperblocks (H.view host.old) writer.old header closed → HasSuperblocks (H.view host.new) writer.new header (closed ++ (term, writer.old.pairs) ∷ [])) }
    ensures trees { OnOk result (CanAppend writer.new.trees) }
    ensures room { OnOk result (Reaches (H.view host.new) writer.new.trees.file writer.new.trees.end) }
    ensures file { writer.new.trees.file ≡ writer.old.trees.file }
    ensures mode { writer.new.mode ≡ writer.old.mode }
    ensures term { writer.new.term ≡ writer.old.term }
    ensures changes { Changes (FileChange writer.old.trees.file AnyChange) (H.view host.old) (H.view host.new) }
    ensures causes { ListCauses (H.view host.old) (H.view host.new) result }
{
    let mut pairs = PairList::new(alloc);
    push_all(&mut pairs, writer.pairs.as_slice())?;
    let entry = TermEntry {
        term,
        list: None,
        inline: Some(pairs),
    };
    writer.blocks.push(&entry)?;
    let blocks = writer.blocks.blocks();
    take_pairs(
        alloc,
        host,
        &mut writer.trees,
        &mut writer.groups,
        blocks,
        writer.pairs.as_slice(),
    )?;
    Ok(())
}

// In the mode SPARSE: a term with few pairs is stored, and the pairs of one with more go to the spill.
fn write_sparse<H: Host>(
    alloc: Global,
    host: &mut H,
    writer: &mut TermWriter,
    term: Term,
) -> Result<(), HostFault>
    requires short { length term ≤ 1024 }
    requires some { 1 ≤ length writer.old.pairs }
    requires ready { CanStoreTerm writer.old }
    requires room { Reaches (H.view host.old) writer.old.trees.file writer.old.trees.end }
    ensures ok { OnOk result ((header : Bytes) (closed : List TermPairs) → HasSuperblocks (H.view host.old) writer.old header closed → HasSuperblocks (H.view host.new) writer.new header (closed ++ (term, writer.old.pairs) ∷ [])) }
    ensures trees { OnOk result (CanAppend writer.new.trees) }
    ensures room { OnOk result (Reaches (H.view host.new) writer.new.trees.file writer.new.trees.end) }
    ensures file { writer.new.trees.file ≡ writer.old.trees.file }
    ensures mode { writer.new.mode ≡ writer.old.mode }
    ensures term { writer.new.term ≡ writer.old.term }
    ensures changes { Changes (FileChange writer.old.trees.file AnyChange) (H.view host.old) (H.view host.new) }
    ensures causes { ListCauses (H.view host.old) (H.view host.new) result }
{
    if is_stored(writer.pairs.as_slice().len()) {
        return write_inline(alloc, host, writer, term);
    }
    push_all(&mut writer.common, writer.pairs.as_slice())?;
    Ok(())
}

// Stores a term with pairs as its mode does.
fn store_term<H: Host>(
    alloc: Global,
    host: &mut H,
    writer: &mut TermWriter,
    term: Term,
) -> Result<(), HostFault>
    requires short { length term ≤ 1024 }
    requires some { 1 ≤ length writer.old.pairs }
    requires ready { CanStoreTerm writer.old }
    requires room { Reaches (H.view host.old) writer.old.trees.file writer.old.trees.end }
    ensures ok { OnOk result ((header : Bytes) (closed : List TermPairs) → HasWritten (H.view host.old) writer.old header closed → HasWritten (H.view host.new) writer.new header (closed ++ (term, writer.old.pairs) ∷ [])) }
    ensures trees { OnOk result (CanAppend writer.new.trees) }
    ensures room { OnOk result (Reaches (H.view host.new) writer.new.trees.file writer.new.trees.end) }
    ensures file { writer.new.trees.file ≡ writer.old.trees.file }
    ensures mode { writer.new.mode ≡ writer.old.mode }
    ensures term { writer.new.term ≡ writer.old.term }
    ensures changes { Changes (FileChange writer.old.trees.file AnyChange) (H.view host.old) (H.view host.new) }
    ensures causes { ListCauses (H.view host.old) (H.view host.new) result }
{
    match writer.mode {
        Mode::Prefix => write_tree(alloc, host, writer, term),
        Mode::Contains => write_tree(alloc, host, writer, term),
        Mode::Sparse => write_sparse(alloc, host, writer, term),
    }
}

// Stores the last term, if it has pairs.
fn write_term<H: Host>(
    alloc: Global,
    host: &mut H,
    writer: &mut TermWriter,
    term: Term,
) -> Result<(), HostFault>
    requires short { length term ≤ 1024 }
    requires ready { CanStoreTerm writer.old }
    requires room { Reaches (H.view host.old) writer.old.trees.file writer.old.trees.end }
    ensures ok { OnOk result ((header : Bytes) (closed : List TermPairs) → HasWritten (H.view host.old) writer.old header closed → HasWritten (H.view host.new) writer.new header (closed ++ with_pairs term writer.old.pairs)) }
    ensures pairs { OnOk result (writer.new.pairs ≡ []) }
    ensures trees { OnOk result (CanAppend writer.new.trees) }
    ensures room { OnOk result (Reaches (H.view host.new) writer.new.trees.file writer.new.trees.end) }
    ensures file { writer.new.trees.file ≡ writer.old.trees.file }
    ensures mode { writer.new.mode ≡ writer.old.mode }
    ensures term { writer.new.term ≡ writer.old.term }
    ensures changes { Changes (FileChange writer.old.trees.file AnyChange) (H.view host.old) (H.view host.new) }
    ensures causes { ListCauses (H.view host.old) (H.view host.new) result }
{
    if writer.pairs.as_slice().is_empty() {
        return Ok(());
    }
    store_term(alloc, host, writer, term)?;
    writer.pairs.clear();
    Ok(())
}

// Writes the last term, if there is one, and begins this one; unless it is the same.
fn begin_term<H: Host>(
    alloc: Global,
    host: &mut H,
    writer: &mut TermWriter,
    term: Term,
) -> Result<(), HostFault>
    requires short { length term ≤ 1024 }
    requires ready { CanStoreTerm writer.old }
    requires room { Reaches (H.view host.old) writer.old.trees.file writer.old.trees.end }
    ensures ok { OnOk result ((header : Bytes) (closed : List TermPairs) → HasWritten (H.view host.old) writer.old header closed → HasWritten (H.view host.new) writer.new header (closed_for closed writer.old.term writer.old.pairs term)) }
    ensures term { OnOk result (writer.new.term ≡ term) }
    ensures pairs { OnOk result (writer.new.pairs ≡ kept_for writer.old.term writer.old.pairs term) }
    ensures trees { OnOk result (CanAppend writer.new.trees) }
    ensures room { OnOk result (Reaches (H.view host.new) writer.new.trees.file writer.new.trees.end) }
    ensures file { writer.new.trees.file ≡ writer.old.trees.file }
    ensures mode { writer.new.mode ≡ writer.old.mode }
    ensures changes { Changes (FileChange writer.old.trees.file AnyChange) (H.view host.old) (H.view host.new) }
    ensures causes { ListCauses (H.view host.old) (H.view host.new) result }
{
    if writer.term == term {
        return Ok(());
    }
    let last = mem::replace(&mut writer.term, term);
    write_term(alloc, host, writer, last)
}

// Adds a pair of this term, which comes behind the others.
pub fn add_pair<H: Host>(
    alloc: Global,
    host: &mut H,
    writer: &mut TermWriter,
    term: Term,
    pair: Pair,
) -> Result<(), HostFault>
    requires short { length term ≤ 1024 }
    requires rises { IsRising (with_pair writer.old.term writer.old.pairs term pair) }
    requires ready { CanStoreTerm writer.old }
    requires room { Reaches (H.view host.old) writer.old.trees.file writer.old.trees.end }
    ensures ok { OnOk result ((header : Bytes) (closed : List TermPairs) → HasWritten (H.view host.old) writer.old header closed → HasWritten (H.view host.new) writer.new header (closed_for closed writer.old.term writer.old.pairs term)) }
    ensures term { OnOk result (writer.new.term ≡ term) }
    ensures pairs { OnOk result (writer.new.pairs ≡ with_pair writer.old.term writer.old.pairs term pair) }
    ensures ready { OnOk result (CanStoreTerm writer.new) }
    ensures room { OnOk result (Reaches (H.view host.new) writer.new.trees.file writer.new.trees.end) }
    ensures file { writer.new.trees.file ≡ writer.old.trees.file }
    ensures mode { writer.new.mode ≡ writer.old.mode }
    ensures changes { Changes (FileChange writer.old.trees.file AnyChange) (H.view host.old) (H.view host.new) }
    ensures causes { ListCauses (H.view host.old) (H.view host.new) result }
{
    begin_term(alloc, host, writer, term)?;
    writer.pairs.push(pair)?;
    Ok(())
}

// Writes the last term, the tree of the last superblock, and what isn't written yet.
pub fn end_terms<H: Host>(
    alloc: Global,
    host: &mut H,
    writer: &mut TermWriter,
) -> Result<(), HostFault>
    requires ready { CanStoreTerm writer.old }
    requires room { Reaches (H.view host.old) writer.old.trees.file writer.old.trees.end }
    ensures ok { OnOk result ((header : Bytes) (closed : List TermPairs) → HasWritten (H.view host.old) writer.old header closed → HasAllTrees (H.view host.new) writer.old.mode writer.new header (closed ++ with_pairs writer.old.term writer.old.pairs)) }
    ensures none { OnOk result (writer.new.trees.unwritten.items ≡ []) }
    ensures fits { OnOk result (writer.new.trees.end ≤ 2 ^ 62) }
    ensures room { OnOk result (Reaches (H.view host.new) writer.new.trees.file writer.new.trees.end) }
    ensures file { writer.new.trees.file ≡ writer.old.trees.file }
    ensures mode { writer.new.mode ≡ writer.old.mode }
    ensures changes { Changes (FileChange writer.old.trees.file AnyChange) (H.view host.old) (H.view host.new) }
    ensures causes { ListCauses (H.view host.old) (H.view host.new) result }
{
    let last = mem::replace(&mut writer.term, Term::new(Vec::new(alloc)));
    write_term(alloc, host, writer, last)?;
    end_superblock(alloc, host, &mut writer.trees, &mut writer.groups)?;
    write_out(host, &mut writer.trees)?;
    Ok(())
}
