// The size of a whole memtable, kept up to date.
ghost use Rattle.std.specs.Prelude.{◌≡◌};
ghost use Rattle.std.specs.BTreeMap.{IsOrdered};
ghost use Rattle.std.specs.FinMap as map;
ghost use Rattle.sasi_types.specs.DecoratedKey.{decorated_cmp};
ghost use Rattle.sasi_memtable.specs.Sized.{IsResized, IsTotal};

use crate::size::{Size, SizeChange, replaced};
use sasi_cells::Partition;
use sasi_types::DecoratedKey;
use std::collections::BTreeMap;

/// The size of all partitions, once one of them has changed. It counts all of them only where a count has saturated.
pub fn resized(
    partitions: &BTreeMap<DecoratedKey, Partition>,
    was: Size,
    growth: SizeChange,
) -> Size
    requires { IsResized (map.from_entries partitions.now.entries) was growth }
    ensures { IsTotal (map.from_entries partitions.now.entries) result }
{
    let cells = replaced(was.cells, growth.before.cells, growth.after.cells);
    let bytes = replaced(was.bytes, growth.before.bytes, growth.after.bytes);
    match (cells, bytes) {
        (Some(cells), Some(bytes)) => Size { cells, bytes },
        _ => total(partitions),
    }
}

// The size of all partitions, counted one by one.
fn total(partitions: &BTreeMap<DecoratedKey, Partition>) -> Size
    ensures { IsTotal (map.from_entries partitions.now.entries) result }
{
    let mut size = Size::none();
    for (key, partition) in partitions {
        size = size.plus(Size::of(key, partition));
    }
    size
}
