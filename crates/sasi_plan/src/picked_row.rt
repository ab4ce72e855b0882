// The picked values of a row that was found.
ghost use Rattle.std.specs.Prelude.{IfOk};
ghost use Rattle.sasi_recheck.specs.Sources.{GivesPrintable};
ghost use Rattle.sasi_plan.specs.Faults.{IsPickedOf};

use crate::PlanFault;
use sasi_cells::{Partition, Picked};
use sasi_host::ReadFault;
use sasi_types::{Key, Row};
use std::alloc::Global;

/// The values that are picked of what was found.
pub(crate) fn picked_row(
    alloc: Global,
    picked: &Picked,
    found: Result<Option<(Key, Partition)>, ReadFault>,
) -> Result<Option<Row>, PlanFault>
    requires { IfOk found (GivesPrintable picked.now.key) }
    ensures { IsPickedOf picked.now found result }
{
    let Some((key, part)) = found? else {
        return Ok(None);
    };
    let row = part.row(alloc, &key, picked)?;
    Ok(row)
}
