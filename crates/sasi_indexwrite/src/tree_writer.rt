// Writes trees one behind another.
ghost use Rattle.std.specs.Prelude.{◌≡◌, ◌+◌, ◌^◌, ◌<◌, ◌≤◌, [], ◌++◌, length, IfOk, OnOk};
ghost use Rattle.sasi_host.specs.Names.{Bytes};
ghost use Rattle.sasi_host.specs.View.{DiskCauses, ListCauses, Reaches};
ghost use Rattle.sasi_host.specs.Disk.{AnyChange, Changes, FileChange};
ghost use Rattle.sasi_tokentree.specs.Format.{AreFit, IsRising, tree_bytes, tree_ref};
ghost use Rattle.sasi_indexwrite.specs.Appending.{CanAppend, IsAppending, next_tree};

use sasi_host::{Failed, FileName, Host, HostFault};
use sasi_tokentree::{MAX_ENTRIES, put_small_tree, tree_size, write};
use sasi_types::{PairList, TreeRef};
use std::alloc::Global;

// Small trees are kept until they have so many bytes, and then written by one call.
const PAGE: usize = 4096;

// Trees at the end of a file, of which the last ones may not be written yet.
#[derive(Drop)]
pub struct TreeWriter {
    pub file: FileName,
    // Where the file ends.
    pub end: u64,
    // The trees behind that.
    pub unwritten: Vec<u8>,
}

impl TreeWriter {
    // A writer of trees behind what a file has.
    pub fn new(alloc: Global, file: FileName, end: u64) -> TreeWriter
        ensures file { result.file ≡ file }
        ensures end { result.end ≡ end }
        ensures none { result.unwritten.items ≡ [] }
    {
        TreeWriter {
            file,
            end,
            unwritten: Vec::new(alloc),
        }
    }
}

// Writes the trees that aren't written yet.
pub fn write_out<H: Host>(host: &mut H, trees: &mut TreeWriter) -> Result<(), Failed>
    requires room { Reaches (H.view host.old) trees.old.file trees.old.end }
    ensures ok { OnOk result ((bytes : Bytes) → IsAppending (H.view host.old) trees.old bytes → IsAppending (H.view host.new) trees.new bytes) }
    ensures none { OnOk result (trees.new.unwritten.items ≡ []) }
    ensures next { OnOk result (next_tree trees.new ≡ next_tree trees.old) }
    ensures fits { OnOk result (trees.new.end ≤ 2 ^ 62) }
    ensures room { OnOk result (Reaches (H.view host.new) trees.new.file trees.new.end) }
    ensures file { trees.new.file ≡ trees.old.file }
    ensures changes { Changes (FileChange trees.old.file AnyChange) (H.view host.old) (H.view host.new) }
    ensures causes { DiskCauses (H.view host.old) (H.view host.new) result }
{
    host.write(trees.file, trees.end, &trees.unwritten)?;
    trees.end += trees.unwritten.len() as u64;
    trees.unwritten.clear();
    Ok(())
}

// Writes them where they have a page or more.
fn write_page<H: Host>(host: &mut H, trees: &mut TreeWriter) -> Result<(), Failed>
    requires fits { trees.old.end ≤ 2 ^ 62 }
    requires room { Reaches (H.view host.old) trees.old.file trees.old.end }
    ensures ok { OnOk result ((bytes : Bytes) → IsAppending (H.view host.old) trees.old bytes → IsAppending (H.view host.new) trees.new bytes) }
    ensures ready { OnOk result (CanAppend trees.new) }
    ensures next { OnOk result (next_tree trees.new ≡ next_tree trees.old) }
    ensures room { OnOk result (Reaches (H.view host.new) trees.new.file trees.new.end) }
    ensures file { trees.new.file ≡ trees.old.file }
    ensures changes { Changes (FileChange trees.old.file AnyChange) (H.view host.old) (H.view host.new) }
    ensures causes { DiskCauses (H.view host.old) (H.view host.new) result }
{
    if trees.unwritten.len() < PAGE {
        return Ok(());
    }
    write_out(host, trees)
}

// Appends a tree of one node.
fn append_small<H: Host>(
    host: &mut H,
    trees: &mut TreeWriter,
    pairs: &PairList,
) -> Result<TreeRef, HostFault>
    requires some { 1 ≤ length pairs.now }
    requires most { length pairs.now ≤ 255 }
    requires ready { CanAppend trees.old }
    requires room { Reaches (H.view host.old) trees.old.file trees.old.end }
    ensures ok { OnOk result ((bytes : Bytes) → IsAppending (H.view host.old) trees.old bytes → IsAppending (H.view host.new) trees.new (bytes ++ tree_bytes (next_tree trees.old) pairs.now)) }
    ensures tree { IfOk result (λ tree. tree ≡ tree_ref (next_tree trees.old) pairs.now) }
    ensures next { OnOk result (next_tree trees.new ≡ next_tree trees.old + length (tree_bytes (next_tree trees.old) pairs.now)) }
    ensures fit { OnOk result (AreFit pairs.now) }
    ensures ready { OnOk result (CanAppend trees.new) }
    ensures room { OnOk result (Reaches (H.view host.new) trees.new.file trees.new.end) }
    ensures file { trees.new.file ≡ trees.old.file }
    ensures changes { Changes (FileChange trees.old.file AnyChange) (H.view host.old) (H.view host.new) }
    ensures causes { ListCauses (H.view host.old) (H.view host.new) result }
{
    let at = trees.end + trees.unwritten.len() as u64;
    let tree = put_small_tree(&mut trees.unwritten, at, pairs)?;
    write_page(host, trees)?;
    Ok(tree)
}

// Appends a tree of more nodes, each by a call.
fn append_large<H: Host>(
    alloc: Global,
    host: &mut H,
    trees: &mut TreeWriter,
    pairs: &PairList,
) -> Result<TreeRef, HostFault>
    requires rising { IsRising pairs.now }
    requires room { Reaches (H.view host.old) trees.old.file trees.old.end }
    ensures ok { OnOk result ((bytes : Bytes) → IsAppending (H.view host.old) trees.old bytes → IsAppending (H.view host.new) trees.new (bytes ++ tree_bytes (next_tree trees.old) pairs.now)) }
    ensures tree { IfOk result (λ tree. tree ≡ tree_ref (next_tree trees.old) pairs.now) }
    ensures next { OnOk result (next_tree trees.new ≡ next_tree trees.old + length (tree_bytes (next_tree trees.old) pairs.now)) }
    ensures fit { OnOk result (AreFit pairs.now) }
    ensures ready { OnOk result (CanAppend trees.new) }
    ensures room { OnOk result (Reaches (H.view host.new) trees.new.file trees.new.end) }
    ensures file { trees.new.file ≡ trees.old.file }
    ensures changes { Changes (FileChange trees.old.file AnyChange) (H.view host.old) (H.view host.new) }
    ensures causes { ListCauses (H.view host.old) (H.view host.new) result }
{
    write_out(host, trees)?;
    let tree = write(alloc, host, trees.file, trees.end, pairs)?;
    trees.end += tree_size(pairs.as_slice().len());
    Ok(tree)
}

// Appends the tree of these pairs. It may stand in memory until `write_out`.
pub fn append_tree<H: Host>(
    alloc: Global,
    host: &mut H,
    trees: &mut TreeWriter,
    pairs: &PairList,
) -> Result<TreeRef, HostFault>
    requires some { 1 ≤ length pairs.now }
    requires rising { IsRising pairs.now }
    requires ready { CanAppend trees.old }
    requires room { Reaches (H.view host.old) trees.old.file trees.old.end }
    ensures ok { OnOk result ((bytes : Bytes) → IsAppending (H.view host.old) trees.old bytes → IsAppending (H.view host.new) trees.new (bytes ++ tree_bytes (next_tree trees.old) pairs.now)) }
    ensures tree { IfOk result (λ tree. tree ≡ tree_ref (next_tree trees.old) pairs.now) }
    ensures next { OnOk result (next_tree trees.new ≡ next_tree trees.old + length (tree_bytes (next_tree trees.old) pairs.now)) }
    ensures fit { OnOk result (AreFit pairs.now) }
    ensures ready { OnOk result (CanAppend trees.new) }
    ensures room { OnOk result (Reaches (H.view host.new) trees.new.file trees.new.end) }
    ensures file { trees.new.file ≡ trees.old.file }
    ensures changes { Changes (FileChange trees.old.file AnyChange) (H.view host.old) (H.view host.new) }
    ensures causes { ListCauses (H.view host.old) (H.view host.new) result }
{
    if pairs.as_slice().len() <= MAX_ENTRIES {
        return append_small(host, trees, pairs);
    }
    append_large(alloc, host, trees, pairs)
}
