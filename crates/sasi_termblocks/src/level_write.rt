// Writes levels of blocks.
ghost use Rattle.std.specs.Prelude.{◌≡◌, ℕ, ◌+◌, ◌*◌, ◌^◌, ◌<◌, ◌≤◌, List, length, IfOk, OnOk};
ghost use Rattle.sasi_host.specs.View.{ListCauses, Reaches};
ghost use Rattle.sasi_tokentree.specs.Writes.{ChangesFrom, Writes};
ghost use Rattle.sasi_termblocks.specs.Blocks.{Item, EndsAfter, levels_bytes, top_of};
ghost use Rattle.sasi_termblocks.specs.Writing.{AreShort, IsLevel};

use crate::pointers::pack_pointers;
use sasi_host::{FileName, Host, HostFault};
use sasi_types::Term;
use std::alloc::Global;

// How many levels stand above one, and the offset of the last of them.
#[derive(Clone, Copy)]
pub struct Above {
    pub levels: u64,
    pub top: u64,
}

// Writes a level of blocks with these bytes and first terms, and the levels of pointers above it.
pub fn write_levels<H: Host>(
    alloc: Global,
    host: &mut H,
    file: FileName,
    at: u64,
    bytes: &[u8],
    first_terms: &[Term],
) -> Result<Above, HostFault>
    requires room { Reaches (H.view host.old) file at }
    requires short { AreShort first_terms.now }
    requires few { 4096 * length first_terms.now ≤ length bytes.now + 4096 }
    ensures ok { IfOk result (λ above. (items : List Item) → IsLevel bytes.now first_terms.now items → Writes (H.view host.old) (H.view host.new) file at (levels_bytes above.levels at items)) }
    ensures ends { IfOk result (λ above. (items : List Item) → IsLevel bytes.now first_terms.now items → EndsAfter above.levels at items) }
    ensures top { IfOk result (λ above. (items : List Item) → IsLevel bytes.now first_terms.now items → above.top ≡ top_of above.levels at items) }
    ensures few { IfOk result (λ above. above.levels ≤ length first_terms.now) }
    ensures changes { ChangesFrom file at (H.view host.old) (H.view host.new) }
    ensures causes { ListCauses (H.view host.old) (H.view host.new) result }
{
    write_bytes(host, file, at, bytes)?;
    if first_terms.len() <= 1 {
        return Ok(Above { levels: 0, top: at });
    }
    let next = at + bytes.len() as u64;
    let level = pack_pointers(alloc, at, first_terms)?;
    let above = write_levels(alloc, host, file, next, &level.full, &level.first_terms)?;
    Ok(Above {
        levels: above.levels + 1,
        top: above.top,
    })
}

// Writes these bytes.
fn write_bytes<H: Host>(
    host: &mut H,
    file: FileName,
    at: u64,
    bytes: &[u8],
) -> Result<(), HostFault>
    requires room { Reaches (H.view host.old) file at }
    ensures ok { OnOk result (Writes (H.view host.old) (H.view host.new) file at bytes.now) }
    ensures fits { OnOk result (at + length bytes.now ≤ 2 ^ 62) }
    ensures changes { ChangesFrom file at (H.view host.old) (H.view host.new) }
    ensures causes { ListCauses (H.view host.old) (H.view host.new) result }
{
    host.write(file, at, bytes)?;
    Ok(())
}
