// Writes trees to a file.
ghost use Rattle.std.specs.Prelude.{◌≡◌, ℕ, ◌+◌, ◌^◌, ◌≤◌, ◌<◌, [], ◌∷◌, ◌++◌, length, IfOk, OnOk};
ghost use Rattle.sasi_host.specs.View.{ListCauses, Reaches};
ghost use Rattle.sasi_tokentree.specs.Format.{node, size, level_bytes, above, levels, top, tree_bytes, tree_ref, AreFit, IsRising};
ghost use Rattle.sasi_tokentree.specs.Heights.{level_limit, levels_size};
ghost use Rattle.sasi_tokentree.specs.Writes.{ChangesFrom, Writes};

use crate::node_encode::{node_bytes, put_node};
use crate::node_layout::{MAX_ENTRIES, MAX_NODE_BYTES, level_size, node_count, node_entries};
use sasi_host::{FileName, Host, HostFault};
use sasi_types::{Pair, PairList, TreeRef};
use std::alloc::{AllocError, Global};

/// Writes the tree of these pairs at this offset, in one pass from left to right, a node at a time. It doesn't sync the
/// file. It keeps one node in memory, and for each level the entries of the level above.
pub fn write<H: Host>(
    alloc: Global,
    host: &mut H,
    file: FileName,
    at: u64,
    pairs: &PairList,
) -> Result<TreeRef, HostFault>
    requires rising { IsRising pairs.now }
    requires room { Reaches (H.view host.old) file at }
    ensures ok { OnOk result (Writes (H.view host.old) (H.view host.new) file at (tree_bytes at pairs.now)) }
    ensures tree { IfOk result (λ tree. tree ≡ tree_ref at pairs.now) }
    ensures fit { OnOk result (AreFit pairs.now) }
    ensures fits { OnOk result (at ≤ 2 ^ 62 → at + length (tree_bytes at pairs.now) ≤ 2 ^ 62) }
    ensures changes { ChangesFrom file at (H.view host.old) (H.view host.new) }
    ensures causes { ListCauses (H.view host.old) (H.view host.new) result }
{
    let entries = pairs.as_slice();
    let mut root = 0;
    if !entries.is_empty() {
        root = write_levels(alloc, host, file, at, 0, entries)?;
    }
    Ok(TreeRef {
        root,
        pairs: entries.len() as u64,
    })
}

/// Appends the tree of so few pairs that one node has them, as it stands at this offset, for a caller that writes many of them by
/// one call.
pub fn put_small_tree(bytes: &mut Vec<u8>, at: u64, pairs: &PairList) -> Result<TreeRef, AllocError>
    requires some { 0 < length pairs.now }
    requires most { length pairs.now ≤ 255 }
    ensures ok { OnOk result (bytes.new.items ≡ bytes.old.items ++ tree_bytes at pairs.now) }
    ensures tree { IfOk result (λ tree. tree ≡ tree_ref at pairs.now) }
    ensures short { OnOk result (length bytes.new.items ≤ length bytes.old.items + 4088) }
    ensures fit { OnOk result (AreFit pairs.now) }
{
    let entries = pairs.as_slice();
    put_node(bytes, 0, entries)?;
    Ok(TreeRef {
        root: at,
        pairs: entries.len() as u64,
    })
}

// Writes a level of these entries and the levels above it, and gives the offset of the root.
fn write_levels<H: Host>(
    alloc: Global,
    host: &mut H,
    file: FileName,
    at: u64,
    level: u8,
    entries: &[Pair],
) -> Result<u64, HostFault>
    requires room { Reaches (H.view host.old) file at }
    requires some { 0 < length entries.now }
    requires most { length entries.now ≤ level_limit level }
    ensures ok { OnOk result ((most : ℕ) → length entries.now ≤ most → Writes (H.view host.old) (H.view host.new) file at (levels most level at entries.now)) }
    ensures top { IfOk result (λ root. (most : ℕ) → length entries.now ≤ most → root ≡ top most at (length entries.now)) }
    ensures fit { OnOk result (AreFit entries.now) }
    ensures fits { OnOk result ((most : ℕ) → length entries.now ≤ most → at + levels_size most (length entries.now) ≤ 2 ^ 62) }
    ensures changes { ChangesFrom file at (H.view host.old) (H.view host.new) }
    ensures causes { ListCauses (H.view host.old) (H.view host.new) result }
{
    let above = write_level(alloc, host, file, at, level, entries)?;
    if entries.len() <= MAX_ENTRIES {
        return Ok(at);
    }
    let next = at + level_size(entries.len());
    let root = write_levels(alloc, host, file, next, level + 1, &above)?;
    Ok(root)
}

// Writes the nodes of a level of these entries, and gives the entries of the level above.
fn write_level<H: Host>(
    alloc: Global,
    host: &mut H,
    file: FileName,
    at: u64,
    level: u8,
    entries: &[Pair],
) -> Result<Vec<Pair>, HostFault>
    requires room { Reaches (H.view host.old) file at }
    requires some { 0 < length entries.now }
    ensures ok { OnOk result (Writes (H.view host.old) (H.view host.new) file at (level_bytes level entries.now)) }
    ensures above { IfOk result (λ entries_above. entries_above.items ≡ above at entries.now) }
    ensures fit { OnOk result (AreFit entries.now) }
    ensures fits { OnOk result (at + size (length entries.now) ≤ 2 ^ 62) }
    ensures changes { ChangesFrom file at (H.view host.old) (H.view host.new) }
    ensures causes { ListCauses (H.view host.old) (H.view host.new) result }
{
    let mut above = Vec::new(alloc);
    for index in 0..node_count(entries.len()) {
        let place = at + MAX_NODE_BYTES * index as u64;
        let here = node_entries(entries, index);
        write_node(alloc, host, file, place, level, here)?;
        let token = here[0].token;
        push_entry(&mut above, Pair { token, place })?;
    }
    Ok(above)
}

fn push_entry(entries: &mut Vec<Pair>, pair: Pair) -> Result<(), AllocError>
    ensures { OnOk result (entries.new.items ≡ entries.old.items ++ pair ∷ []) }
{
    entries.push(pair)?;
    Ok(())
}

// Writes a node of these entries.
fn write_node<H: Host>(
    alloc: Global,
    host: &mut H,
    file: FileName,
    at: u64,
    level: u8,
    entries: &[Pair],
) -> Result<(), HostFault>
    requires room { Reaches (H.view host.old) file at }
    requires most { length entries.now ≤ 255 }
    ensures ok { OnOk result (Writes (H.view host.old) (H.view host.new) file at (node level entries.now)) }
    ensures fits { OnOk result (at + length (node level entries.now) ≤ 2 ^ 62) }
    ensures fit { OnOk result (AreFit entries.now) }
    ensures changes { ChangesFrom file at (H.view host.old) (H.view host.new) }
    ensures causes { ListCauses (H.view host.old) (H.view host.new) result }
{
    let bytes = node_bytes(alloc, level, entries)?;
    host.write(file, at, &bytes)?;
    Ok(())
}
