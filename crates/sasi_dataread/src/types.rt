// Copies lists of types.
ghost use Rattle.std.specs.Prelude.{◌≡◌, IfOk};

use sasi_types::TypeList;
use std::alloc::{AllocError, Global};

/// A copy of a list of types.
pub fn copy_types(alloc: Global, types: &TypeList) -> Result<TypeList, AllocError>
    ensures { IfOk result (λ copy. copy ≡ types.now) }
{
    let mut copy = TypeList::new(alloc);
    let list = types.as_slice();
    for kind in list {
        copy.push(*kind)?;
    }
    Ok(copy)
}
