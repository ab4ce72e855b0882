// Encodes a node.
ghost use Rattle.std.specs.Prelude.{◌≡◌, ◌^◌, ◌<◌, ◌≤◌, ◌++◌, length, IfOk, OnOk};
ghost use Rattle.std.specs.List.{flat_map};
ghost use Rattle.sasi_tokentree.specs.Format.{entry, node_header, node, AreFit};

use sasi_fields::{put_u8, put_u16, put_u32, put_u64};
use sasi_types::Pair;
use std::alloc::{AllocError, Global};

// The bytes of a node of these entries.
pub fn node_bytes(alloc: Global, level: u8, entries: &[Pair]) -> Result<Vec<u8>, AllocError>
    requires { length entries.now ≤ 255 }
    ensures is { IfOk result (λ bytes. bytes.items ≡ node level entries.now) }
    ensures fit { OnOk result (AreFit entries.now) }
{
    let mut bytes = Vec::new(alloc);
    put_node(&mut bytes, level, entries)?;
    Ok(bytes)
}

// Appends a node of these entries.
#[tactic(auto, unfolding(crate::specs::Format::node))]
pub fn put_node(bytes: &mut Vec<u8>, level: u8, entries: &[Pair]) -> Result<(), AllocError>
    requires { length entries.now ≤ 255 }
    ensures is { OnOk result (bytes.new.items ≡ bytes.old.items ++ node level entries.now) }
    ensures fit { OnOk result (AreFit entries.now) }
{
    put_header(bytes, level, entries.len() as u16)?;
    put_entries(bytes, entries)
}

#[tactic(auto, unfolding(crate::specs::Format::node_header))]
fn put_header(bytes: &mut Vec<u8>, level: u8, count: u16) -> Result<(), AllocError>
    ensures { OnOk result (bytes.new.items ≡ bytes.old.items ++ node_header level count) }
{
    put_u8(bytes, level)?;
    put_u8(bytes, 0)?;
    put_u16(bytes, count)?;
    put_u32(bytes, 0)
}

fn put_entries(bytes: &mut Vec<u8>, entries: &[Pair]) -> Result<(), AllocError>
    ensures is { OnOk result (bytes.new.items ≡ bytes.old.items ++ flat_map entry entries.now) }
    ensures fit { OnOk result (AreFit entries.now) }
{
    for pair in entries {
        put_entry(bytes, *pair)?;
    }
    Ok(())
}

#[tactic(auto, unfolding(crate::specs::Format::entry))]
fn put_entry(bytes: &mut Vec<u8>, pair: Pair) -> Result<(), AllocError>
    ensures is { OnOk result (bytes.new.items ≡ bytes.old.items ++ entry pair) }
    ensures token { pair.token < 2 ^ 64 }
    ensures place { pair.place < 2 ^ 64 }
{
    put_u64(bytes, pair.token)?;
    put_u64(bytes, pair.place)
}
