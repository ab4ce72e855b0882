// Reads and appends at the gates of a segment.
ghost use Rattle.std.specs.Prelude.{◌≡◌, ◌+◌, ◌<◌, ◌≤◌, ◌^◌, List, IfErr, IfOk, IsSome, IsTrue, OnOk, None, map};
ghost use Rattle.sasi_host.specs.View.{MakesCalls, IsThere, ListCauses, Reaches};
ghost use Rattle.sasi_host.specs.Disk.{AnyChange, Changes, LeftWith, Same, FileChange};
ghost use Rattle.sasi_host.specs.Buffered.{IsBuffered};
ghost use Rattle.sasi_gated.specs.Causes.{ReadingCauses};
ghost use Rattle.sasi_gated.specs.ReadCosts.{IsSequential, ReadsPagesOnce};
ghost use Rattle.sasi_body.specs.Body.{HasBody};
ghost use Rattle.sasi_cells.specs.declared.mutation.Mutation.{Mutation};
ghost use Rattle.sasi_commitlog.specs.LogPosition.{IsAtLogEnd, IsLogBeforeOrAfter};
ghost use Rattle.sasi_commitlog.specs.Reads.{GainsMutation, IsLogDamageAt, IsReadOf, ReadsLogGate, ReadsMutations, NoFalseLogDamage};

use crate::Mutation;
use crate::fault::fault_in_file;
use crate::payload::{put_mutation, read_mutation};
use sasi_gated::{Gated, Record};
use sasi_host::{Host, HostFault, ReadFault};
use sasi_types::TableTypes;
use std::alloc::Global;

/// Reads the mutation after the next gate. A closed gate has none.
pub fn read_next<H: Host>(
    alloc: Global,
    gated: &mut Gated,
    payload: &mut Vec<u8>,
    host: &mut H,
    tables: &TableTypes,
) -> Result<Option<Mutation>, ReadFault>
    requires there { IsThere (H.view host.old) gated.old.file }
    requires usable { IsTrue gated.old.usable }
    requires buffered { IsBuffered gated.old.buffered (H.view host.old).files }
    ensures gate { IfOk result (ReadsLogGate (H.view host.old) gated.old.file tables.now gated.old.at gated.new.at) }
    ensures mutations { IfOk result (ReadsMutations (H.view host.old) (H.view host.new) gated.old.file tables.now gated.old.at gated.new.at) }
    ensures of_tables { IfOk result (IsReadOf tables.now) }
    ensures advances { IfOk result (λ read. IsSome read → gated.old.at < gated.new.at) }
    ensures fits { OnOk result (gated.new.at ≤ 2 ^ 62) }
    ensures room { IfOk result (λ read. read ≡ None → Reaches (H.view host.new) gated.new.file (gated.new.at + 1)) }
    ensures damaged { IfErr result (IsLogDamageAt (H.view host.old) gated.old.file tables.now gated.old.at) }
    ensures undamaged { IfErr result (NoFalseLogDamage (H.view host.old) gated.old.file tables.now gated.old.at) }
    ensures changes { Changes Same (H.view host.old) (H.view host.new) }
    ensures usable { OnOk result (IsTrue gated.new.usable) }
    ensures file { gated.new.file ≡ gated.old.file }
    ensures buffered { IsBuffered gated.new.buffered (H.view host.new).files }
    ensures once { IsSequential gated.old → ReadsPagesOnce (H.view host.old) (H.view host.new) gated.old gated.new result }
    ensures causes { ReadingCauses (H.view host.old) (H.view host.new) result }
{
    let file = gated.file();
    let gate = gated.offset();
    if !gated.next(host, payload)? {
        return Ok(None);
    }
    match read_mutation(alloc, payload, tables.as_slice()) {
        Ok(mutation) => Ok(Some(mutation)),
        Err(fault) => Err(fault_in_file(file, gate, payload, fault)),
    }
}

/// Appends a mutation at the closed gate.
pub fn append<H: Host>(
    alloc: Global,
    gated: &mut Gated,
    payload: &mut Vec<u8>,
    host: &mut H,
    mutation: &Mutation,
) -> Result<(), HostFault>
    requires body { HasBody mutation.now.key mutation.now.change }
    requires room { Reaches (H.view host.old) gated.old.file (gated.old.at + 1) }
    requires usable { IsTrue gated.old.usable }
    ensures ok { OnOk result (GainsMutation (H.view host.old) (H.view host.new) gated.old.file gated.old.at gated.new.at mutation.now) }
    ensures any_moment { (mutations : List Mutation) → IsAtLogEnd (H.view host.old) gated.old.file gated.old.at mutations
        → Changes (FileChange gated.old.file (LeftWith (IsLogBeforeOrAfter gated.old.file mutations mutation.now))) (H.view host.old) (H.view host.new) }
    ensures changes { Changes (FileChange gated.old.file AnyChange) (H.view host.old) (H.view host.new) }
    ensures room { OnOk result (Reaches (H.view host.new) gated.new.file (gated.new.at + 1)) }
    ensures usable { OnOk result (IsTrue gated.new.usable) }
    ensures file { gated.new.file ≡ gated.old.file }
    ensures buffered { OnOk result (gated.new.buffered.page ≡ None) }
    ensures calls { MakesCalls 4 (H.view host.old) (H.view host.new) result }
    ensures causes { ListCauses (H.view host.old) (H.view host.new) result }
{
    payload.clear();
    put_mutation(payload, mutation)?;
    let record = Record::new(alloc, payload)?;
    gated.append(host, &record)?;
    Ok(())
}
