// An open gated file.
ghost use Rattle.std.specs.Prelude.{◌≡◌, ◌+◌, ◌≤◌, ◌^◌, ◌∷◌, ◌++◌, [], ℕ, List, length, if◌then◌else◌, IfErr, IfOk, OnOk, IsTrue, is_ok, false, None, Some};
ghost use Rattle.std.specs.Option.{option_copied, option_to_list};
ghost use Rattle.sasi_host.specs.View.{MakesCalls, DiskCauses, ListCauses, Reaches, IsAbsent, IsThere, IsTold, contents};
ghost use Rattle.sasi_host.specs.Disk.{AnyChange, Changes, IsFileDurable, LeftWith, Same, FileChange};
ghost use Rattle.sasi_gated.specs.Format.{IsBeforeOrAfter, IsGated, new_gated_file};
ghost use Rattle.sasi_gated.specs.Gates.{IsAtGate, ReadsAt};
ghost use Rattle.sasi_gated.specs.Damages.{IsGatedDamage};
ghost use Rattle.sasi_gated.specs.Causes.{ReadingCauses};
ghost use Rattle.sasi_gated.specs.Reads.{GatedDamageShown, GatedDamageShownAt, NoFalseGatedDamage, NoFalseRecordDamage, ReadsGate, ReadsRecords, HasHeader, AppendsRecord};
ghost use Rattle.sasi_host.specs.Damages.{OnDamage};
ghost use Rattle.sasi_host.specs.Buffered.{IsBuffered};
ghost use Rattle.sasi_gated.specs.Handles.{IsAtEnd, IsReading, ReadsOn};
ghost use Rattle.sasi_gated.specs.ReadCosts.{IsSequential, OpensSequential, ReadsPagesOnce};

use crate::Record;
use crate::append::append_at;
use crate::create::new_file_bytes;
use crate::header::HEADER_LENGTH;
use crate::next::read_next;
use crate::read::read_header;
use sasi_host::{BufferedFile, Failed, FileName, Host, HostFault, ReadFault, make_file};
use std::alloc::Global;
use std::marker::Model;

/// An open gated file, which is read from gate to gate, and then appended to. Contracts see its name, the offset of the
/// gate before which it stands, whether it is usable, and the page that is buffered.
#[derive(Drop)]
pub struct Gated {
    buffered: BufferedFile,
    at: u64,
    usable: bool,
}

impl Model for Gated {
    ghost use Rattle.std.specs.Prelude.{◌≤◌, ◌^◌};
    ghost use Rattle.sasi_gated.specs.Handles.{Handle};

    ghost Value = { Handle };

    ghost view = { λ a. record { file = a.buffered.file; at = a.at; usable = a.usable; buffered = a.buffered } };

    ghost invariant = { λ a. a.at ≤ 2 ^ 62 };
}

impl Gated {
    /// Whether no call on it has failed.
    pub fn is_usable(&self) -> bool
        ensures { result ≡ self.now.usable }
    {
        self.usable
    }

    /// Its name.
    pub fn file(&self) -> FileName
        ensures { result ≡ self.now.file }
    {
        self.buffered.file()
    }

    /// The offset of the gate before which it stands.
    pub fn offset(&self) -> u64
        ensures offset { result ≡ self.now.at }
        ensures fits { result ≤ 2 ^ 62 }
    {
        self.at
    }

    /// Makes a gated file with no record or with this first one, and syncs it and the folder. It stands at the closed gate.
    pub fn create<H: Host>(
        alloc: Global,
        host: &mut H,
        file: FileName,
        first: Option<&Record>,
    ) -> Result<Gated, HostFault>
        requires { IsAbsent (H.view host.old) file }
        ensures ok { IfOk result (λ gated. IsAtEnd (H.view host.new) file gated.at (option_to_list (option_copied first.entry))) }
        ensures changes { Changes (FileChange file AnyChange) (H.view host.old) (H.view host.new) }
        ensures room { IfOk result (λ gated. Reaches (H.view host.new) gated.file (gated.at + 1)) }
        ensures offset { IfOk result (λ gated. gated.at + 1 ≡ length (new_gated_file file (option_copied first.entry))) }
        ensures fits { IfOk result (λ gated. gated.at ≤ 2 ^ 62) }
        ensures usable { IfOk result (λ gated. IsTrue gated.usable) }
        ensures file { IfOk result (λ gated. gated.file ≡ file) }
        ensures buffered { IfOk result (λ gated. gated.buffered.page ≡ None) }
        ensures calls { MakesCalls 4 (H.view host.old) (H.view host.new) result }
        ensures causes { ListCauses (H.view host.old) (H.view host.new) result }
    {
        let bytes = new_file_bytes(alloc, file, first)?;
        make_file(host, file, &bytes)?;
        Ok(Gated {
            buffered: BufferedFile::new(file),
            at: bytes.len() as u64 - 1,
            usable: true,
        })
    }

    /// Opens a gated file, and stands at its first gate.
    pub fn open<H: Host>(host: &mut H, file: FileName) -> Result<Gated, ReadFault>
        requires { IsThere (H.view host.old) file }
        ensures header { IfOk result (λ gated. HasHeader (H.view host.old) file gated.at) }
        ensures records { IfOk result (λ gated. (bytes : List ℕ) (records : List (List ℕ)) → IsFileDurable (H.view host.old) file bytes → IsGated file bytes records
            → IsReading (H.view host.new) file gated.at [] records) }
        ensures damaged { IfErr result (GatedDamageShown (H.view host.old) file) }
        ensures undamaged { IfErr result (NoFalseGatedDamage (H.view host.old) file) }
        ensures changes { Changes Same (H.view host.old) (H.view host.new) }
        ensures offset { IfOk result (λ gated. gated.at ≡ 16) }
        ensures usable { IfOk result (λ gated. IsTrue gated.usable) }
        ensures file { IfOk result (λ gated. gated.file ≡ file) }
        ensures buffered { IfOk result (λ gated. IsBuffered gated.buffered (H.view host.new).files) }
        ensures sequential { IfOk result (λ gated. OpensSequential (H.view host.old) (H.view host.new) gated) }
        ensures reads { (H.view host.new).reads ≤ (H.view host.old).reads + 1 }
        ensures causes { ReadingCauses (H.view host.old) (H.view host.new) result }
    {
        let mut buffered = BufferedFile::new(file);
        read_header(host, &mut buffered)?;
        Ok(Gated {
            buffered,
            at: HEADER_LENGTH,
            usable: true,
        })
    }

    /// Reads at the gate before which it stands: the record behind it, whose payload is then all of `out`, or false where it
    /// is closed.
    pub fn next<H: Host>(&mut self, host: &mut H, out: &mut Vec<u8>) -> Result<bool, ReadFault>
        requires there { IsThere (H.view host.old) self.old.file }
        requires usable { IsTrue self.old.usable }
        requires buffered { IsBuffered self.old.buffered (H.view host.old).files }
        ensures gate { IfOk result (λ more. ReadsGate (H.view host.old) self.old.file self.old.at self.new.at more out.new.items) }
        ensures records { IfOk result (λ more. ReadsRecords (H.view host.old) (H.view host.new) self.old.file self.old.at self.new.at more out.new.items) }
        ensures room { IfOk result (λ more. more ≡ false → Reaches (H.view host.new) self.new.file (self.new.at + 1)) }
        ensures short { OnOk result (length out.new.items ≤ 2 ^ 30) }
        ensures damaged { IfErr result (GatedDamageShownAt (H.view host.old) self.old.file self.old.at) }
        ensures undamaged { IfErr result (NoFalseRecordDamage (H.view host.old) self.old.file self.old.at) }
        ensures changes { Changes Same (H.view host.old) (H.view host.new) }
        ensures offset { IfOk result (λ more. self.new.at ≡ (if more then self.old.at + (5 + length out.new.items) else self.old.at)) }
        ensures fits { OnOk result (self.new.at ≤ 2 ^ 62) }
        ensures usable { self.new.usable ≡ is_ok result }
        ensures file { self.new.file ≡ self.old.file }
        ensures buffered { IsBuffered self.new.buffered (H.view host.new).files }
        ensures once { IsSequential self.old → ReadsPagesOnce (H.view host.old) (H.view host.new) self.old self.new result }
        ensures causes { ReadingCauses (H.view host.old) (H.view host.new) result }
    {
        self.usable = false;
        let next = read_next(host, &mut self.buffered, self.at, out)?;
        self.at = next.at;
        self.usable = true;
        Ok(next.more)
    }

    /// Appends a record at the closed gate, by four host calls and with no memory: the record and the next closed gate are
    /// written behind the gate and synced, and then the gate is opened and synced.
    pub fn append<H: Host>(&mut self, host: &mut H, item: &Record) -> Result<(), Failed>
        requires room { Reaches (H.view host.old) self.old.file (self.old.at + 1) }
        requires usable { IsTrue self.old.usable }
        ensures ok { OnOk result (AppendsRecord (H.view host.old) (H.view host.new) self.old.file self.old.at self.new.at item.now) }
        ensures any_moment { (records : List (List ℕ)) → IsAtEnd (H.view host.old) self.old.file self.old.at records
            → Changes (FileChange self.old.file (LeftWith (IsBeforeOrAfter self.old.file records item.now))) (H.view host.old) (H.view host.new) }
        ensures changes { Changes (FileChange self.old.file AnyChange) (H.view host.old) (H.view host.new) }
        ensures offset { OnOk result (self.new.at ≡ self.old.at + (5 + length item.now)) }
        ensures room { OnOk result (Reaches (H.view host.new) self.new.file (self.new.at + 1)) }
        ensures fits { OnOk result (self.new.at ≤ 2 ^ 62) }
        ensures usable { self.new.usable ≡ is_ok result }
        ensures file { self.new.file ≡ self.old.file }
        ensures buffered { self.new.buffered.page ≡ None }
        ensures calls { MakesCalls 4 (H.view host.old) (H.view host.new) result }
        ensures causes { DiskCauses (H.view host.old) (H.view host.new) result }
    {
        self.usable = false;
        self.buffered.forget();
        self.at = append_at(host, self.buffered.file(), self.at, item)?;
        self.usable = true;
        Ok(())
    }
}
