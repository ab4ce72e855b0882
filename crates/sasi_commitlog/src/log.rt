// An open segment of the commit log.
ghost use Rattle.std.specs.Prelude.{◌≡◌, ◌+◌, ◌<◌, ◌≤◌, ◌^◌, [], ℕ, List, IfErr, IfOk, IsSome, IsTrue, OnOk, None, is_ok};
ghost use Rattle.sasi_host.specs.View.{MakesCalls, IsAbsent, IsThere, ListCauses, Reaches};
ghost use Rattle.sasi_host.specs.Disk.{AnyChange, Changes, IsFileDurable, LeftWith, Same, FileChange};
ghost use Rattle.sasi_host.specs.Names.{Bytes, log_name};
ghost use Rattle.sasi_host.specs.Buffered.{IsBuffered};
ghost use Rattle.sasi_gated.specs.Causes.{ReadingCauses};
ghost use Rattle.sasi_gated.specs.ReadCosts.{IsSequential, OpensSequential, ReadsPagesOnce};
ghost use Rattle.sasi_gated.specs.Reads.{HasHeader, GatedDamageShown, NoFalseGatedDamage};
ghost use Rattle.sasi_body.specs.Body.{HasBody};
ghost use Rattle.sasi_cells.specs.declared.mutation.Mutation.{Mutation};
ghost use Rattle.sasi_commitlog.specs.Format.{IsLog, Tables};
ghost use Rattle.sasi_commitlog.specs.LogPosition.{IsAtLogEnd, IsLogBeforeOrAfter, IsReadingLog};
ghost use Rattle.sasi_commitlog.specs.Reads.{GainsMutation, IsLogDamageAt, IsReadOf, ReadsLogGate, ReadsMutations, NoFalseLogDamage};

use crate::Mutation;
use crate::segment::{append, read_next};
use sasi_gated::Gated;
use sasi_host::{FileName, Host, HostFault, ReadFault, SegmentNumber};
use sasi_types::TableTypes;
use std::alloc::Global;
use std::marker::Model;

/// An open segment of the commit log: its mutations are read first, then it takes appends. Its model is the file's name,
/// the offset of the next gate, whether it is usable, and the page that is buffered.
#[derive(Drop)]
pub struct Log {
    gated: Gated,
    // The payload that was read or appended last.
    payload: Vec<u8>,
    usable: bool,
}

impl Model for Log {
    ghost use Rattle.std.specs.Prelude.{◌&&◌};
    ghost use Rattle.sasi_gated.specs.Handles.{Handle};

    ghost Value = { Handle };

    ghost view = { λ a. record { file = a.gated.file; at = a.gated.at; usable = a.usable && a.gated.usable; buffered = a.gated.buffered } };
}

impl Log {
    /// Whether every call on it succeeded.
    pub fn is_usable(&self) -> bool
        ensures { result ≡ self.now.usable }
    {
        self.usable && self.gated.is_usable()
    }

    /// Creates the empty segment with this number, and syncs it and the folder. The log is then at the closed gate.
    pub fn create<H: Host>(
        alloc: Global,
        host: &mut H,
        number: SegmentNumber,
    ) -> Result<Log, HostFault>
        requires { IsAbsent (H.view host.old) (log_name number) }
        ensures ok { IfOk result (λ log. IsAtLogEnd (H.view host.new) (log_name number) log.at []) }
        ensures changes { Changes (FileChange (log_name number) AnyChange) (H.view host.old) (H.view host.new) }
        ensures room { IfOk result (λ log. Reaches (H.view host.new) (log_name number) (log.at + 1)) }
        ensures usable { IfOk result (λ log. IsTrue log.usable) }
        ensures file { IfOk result (λ log. log.file ≡ log_name number) }
        ensures buffered { IfOk result (λ log. log.buffered.page ≡ None) }
        ensures calls { MakesCalls 4 (H.view host.old) (H.view host.new) result }
        ensures causes { ListCauses (H.view host.old) (H.view host.new) result }
    {
        let gated = Gated::create(alloc, host, FileName::log(number), None)?;
        Ok(Log {
            gated,
            payload: Vec::new(alloc),
            usable: true,
        })
    }

    /// Opens the segment with this number. The first mutation is next.
    pub fn open<H: Host>(
        alloc: Global,
        host: &mut H,
        number: SegmentNumber,
    ) -> Result<Log, ReadFault>
        requires { IsThere (H.view host.old) (log_name number) }
        ensures header { IfOk result (λ log. HasHeader (H.view host.old) (log_name number) log.at) }
        ensures mutations { IfOk result (λ log. (tables : Tables) (bytes : Bytes) (mutations : List Mutation) → IsFileDurable (H.view host.old) (log_name number) bytes → IsLog number tables bytes mutations
            → IsReadingLog (H.view host.new) (log_name number) log.at tables [] mutations) }
        ensures damaged { IfErr result (GatedDamageShown (H.view host.old) (log_name number)) }
        ensures undamaged { IfErr result (NoFalseGatedDamage (H.view host.old) (log_name number)) }
        ensures changes { Changes Same (H.view host.old) (H.view host.new) }
        ensures usable { IfOk result (λ log. IsTrue log.usable) }
        ensures file { IfOk result (λ log. log.file ≡ log_name number) }
        ensures buffered { IfOk result (λ log. IsBuffered log.buffered (H.view host.new).files) }
        ensures sequential { IfOk result (λ log. OpensSequential (H.view host.old) (H.view host.new) log) }
        ensures reads { (H.view host.new).reads ≤ (H.view host.old).reads + 1 }
        ensures causes { ReadingCauses (H.view host.old) (H.view host.new) result }
    {
        let gated = Gated::open(host, FileName::log(number))?;
        Ok(Log {
            gated,
            payload: Vec::new(alloc),
            usable: true,
        })
    }

    /// Reads the next mutation, which is of one of these tables. At the closed gate there is none, and the log stays there.
    pub fn next<H: Host>(
        &mut self,
        host: &mut H,
        tables: &TableTypes,
    ) -> Result<Option<Mutation>, ReadFault>
        requires there { IsThere (H.view host.old) self.old.file }
        requires usable { IsTrue self.old.usable }
        requires buffered { IsBuffered self.old.buffered (H.view host.old).files }
        ensures gate { IfOk result (ReadsLogGate (H.view host.old) self.old.file tables.now self.old.at self.new.at) }
        ensures mutations { IfOk result (ReadsMutations (H.view host.old) (H.view host.new) self.old.file tables.now self.old.at self.new.at) }
        ensures of_tables { IfOk result (IsReadOf tables.now) }
        ensures advances { IfOk result (λ read. IsSome read → self.old.at < self.new.at) }
        ensures fits { OnOk result (self.new.at ≤ 2 ^ 62) }
        ensures room { IfOk result (λ read. read ≡ None → Reaches (H.view host.new) self.new.file (self.new.at + 1)) }
        ensures damaged { IfErr result (IsLogDamageAt (H.view host.old) self.old.file tables.now self.old.at) }
        ensures undamaged { IfErr result (NoFalseLogDamage (H.view host.old) self.old.file tables.now self.old.at) }
        ensures changes { Changes Same (H.view host.old) (H.view host.new) }
        ensures usable { self.new.usable ≡ is_ok result }
        ensures file { self.new.file ≡ self.old.file }
        ensures buffered { IsBuffered self.new.buffered (H.view host.new).files }
        ensures once { IsSequential self.old → ReadsPagesOnce (H.view host.old) (H.view host.new) self.old self.new result }
        ensures causes { ReadingCauses (H.view host.old) (H.view host.new) result }
    {
        self.usable = false;
        let alloc = *self.payload.allocator();
        let read = read_next(alloc, &mut self.gated, &mut self.payload, host, tables)?;
        self.usable = true;
        Ok(read)
    }

    /// Appends a mutation at the closed gate, by four host calls. After Ok the mutation survives each crash.
    pub fn append<H: Host>(&mut self, host: &mut H, mutation: &Mutation) -> Result<(), HostFault>
        requires body { HasBody mutation.now.key mutation.now.change }
        requires room { Reaches (H.view host.old) self.old.file (self.old.at + 1) }
        requires usable { IsTrue self.old.usable }
        ensures ok { OnOk result (GainsMutation (H.view host.old) (H.view host.new) self.old.file self.old.at self.new.at mutation.now) }
        ensures any_moment { (mutations : List Mutation) → IsAtLogEnd (H.view host.old) self.old.file self.old.at mutations
            → Changes (FileChange self.old.file (LeftWith (IsLogBeforeOrAfter self.old.file mutations mutation.now))) (H.view host.old) (H.view host.new) }
        ensures changes { Changes (FileChange self.old.file AnyChange) (H.view host.old) (H.view host.new) }
        ensures room { OnOk result (Reaches (H.view host.new) self.new.file (self.new.at + 1)) }
        ensures usable { self.new.usable ≡ is_ok result }
        ensures file { self.new.file ≡ self.old.file }
        ensures buffered { OnOk result (self.new.buffered.page ≡ None) }
        ensures calls { MakesCalls 4 (H.view host.old) (H.view host.new) result }
        ensures causes { ListCauses (H.view host.old) (H.view host.new) result }
    {
        self.usable = false;
        let alloc = *self.payload.allocator();
        append(alloc, &mut self.gated, &mut self.payload, host, mutation)?;
        self.usable = true;
        Ok(())
    }
}
