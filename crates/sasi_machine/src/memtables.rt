// The memtables, in the order of the tables.
ghost use Rattle.std.specs.Prelude.{◌≡◌, ◌<◌, ◌+◌, ◌++◌, ◌∷◌, [], IfOk, OnOk, OnErr, length, slice_get, slice_set, Some};
ghost use Rattle.std.specs.Vec.{vec_len, vec_capacity};
ghost use Rattle.sasi_model.specs.Cells.{max_timestamp_of};
ghost use Rattle.sasi_machine.specs.Tables.{IsChangedAt, HasMemtableFor};

use sasi_cells::Mutation;
use sasi_memtable::Memtable;
use std::alloc::AllocError;

/// Reserves room for one more.
pub fn reserve_one(memtables: &mut Vec<Memtable>) -> Result<(), AllocError>
    ensures room { OnOk result (vec_len memtables.new < vec_capacity memtables.new) }
    ensures items { memtables.new.items ≡ memtables.old.items }
{
    memtables.reserve(1)
}

/// Adds a memtable at the end of a list that has room for it.
pub fn add_within(memtables: &mut Vec<Memtable>, memtable: Memtable)
    requires { vec_len memtables.old < vec_capacity memtables.old }
    ensures { memtables.new.items ≡ memtables.old.items ++ memtable ∷ [] }
{
    let _ = memtables.push(memtable);
}

/// Merges a mutation into its memtable, and returns the largest timestamp of its change.
pub fn merge_into(memtables: &mut Vec<Memtable>, mutation: Mutation) -> Result<u64, AllocError>
    requires { HasMemtableFor memtables.old.items mutation }
    ensures ok { OnOk result (IsChangedAt memtables.old.items mutation memtables.new.items) }
    ensures time { IfOk result (λ time. time ≡ max_timestamp_of mutation.change) }
    ensures err { OnErr result (memtables.new.items ≡ memtables.old.items) }
{
    let time = mutation.change.max_timestamp();
    let memtable = &mut memtables[mutation.table as usize - 1];
    memtable.put_from(mutation.key, mutation.change)?;
    Ok(time)
}
