// Writes a data file.
ghost use Rattle.std.specs.Prelude.{◌≡◌, ◌<◌, ◌≤◌, ◌∷◌, ◌++◌, [], List, length, IfOk, OnOk, IsTrue, is_ok};
ghost use Rattle.sasi_types.specs.declared.class.Class.{Class};
ghost use Rattle.sasi_types.specs.Token.{token_of};
ghost use Rattle.sasi_host.specs.View.{DiskCauses, Holds, IsAbsent, IsThere, ListCauses, MakesCalls, Reaches};
ghost use Rattle.sasi_host.specs.Disk.{AnyChange, Changes, IsSynced, FileChange};
ghost use Rattle.sasi_host.specs.Names.{data_name};
ghost use Rattle.sasi_body.specs.Body.{HasBody};
ghost use Rattle.sasi_datawrite.specs.Format.{Content, data_bytes};
ghost use Rattle.sasi_datawrite.specs.Calls.{Call, partition_calls};
ghost use Rattle.sasi_datawrite.specs.Causes.{PushCauses};
ghost use Rattle.sasi_datawrite.specs.Writing.{IsWriting, last_pair};

use crate::header::{HEADER_LENGTH, magic};
use crate::push::push_partition;
use crate::trailer::write_trailer;
use crate::{DataRef, FlushObserver, PairFault};
use sasi_cells::Partition;
use sasi_formats::put_header;
use sasi_host::{DataNumber, Failed, FileName, Host, HostFault};
use sasi_types::{Key, Pair, PairList, Partitioner};
use std::alloc::Global;
use std::marker::Model;

/// A writer of a data file. It keeps a pair for each partition in memory, and the bytes of one partition.
#[derive(Drop)]
pub struct DataWriter {
    file: FileName,
    partitioner: Partitioner,
    pairs: PairList,
    offset: u64,
    max_timestamp: u64,
    usable: bool,
    buffer: Vec<u8>,
}

impl Model for DataWriter {
    ghost use Rattle.sasi_datawrite.specs.Writing.{Writer, RiseBelow};

    ghost Value = { Writer };

    ghost view = { λ a. record { file = a.file; partitioner = a.partitioner; pairs = a.pairs; offset = a.offset; max_timestamp = a.max_timestamp; usable = a.usable } };

    ghost invariant = { λ a. RiseBelow a.pairs a.offset };
}

impl DataWriter {
    /// Creates the data file with this number. It has a header and no partition yet.
    pub fn begin<H: Host>(
        alloc: Global,
        host: &mut H,
        number: DataNumber,
        partitioner: Partitioner,
    ) -> Result<DataWriter, HostFault>
        requires { IsAbsent (H.view host.old) (data_name number) }
        ensures ok { IfOk result (λ writer. IsWriting (H.view host.new) writer []) }
        ensures file { IfOk result (λ writer. writer.file ≡ data_name number) }
        ensures partitioner { IfOk result (λ writer. writer.partitioner ≡ partitioner) }
        ensures room { IfOk result (λ writer. Reaches (H.view host.new) writer.file writer.offset) }
        ensures usable { IfOk result (λ writer. IsTrue writer.usable) }
        ensures changes { Changes (FileChange (data_name number) AnyChange) (H.view host.old) (H.view host.new) }
        ensures calls { MakesCalls 2 (H.view host.old) (H.view host.new) result }
        ensures causes { ListCauses (H.view host.old) (H.view host.new) result }
    {
        let file = FileName::data(number);
        let mut buffer = Vec::new(alloc);
        put_header(&mut buffer, magic(), 0)?;
        create_with(host, file, &buffer)?;
        Ok(DataWriter {
            file,
            partitioner,
            pairs: PairList::new(alloc),
            offset: HEADER_LENGTH,
            max_timestamp: 0,
            usable: true,
            buffer,
        })
    }

    /// Writes the next partition, by one call of the host, and passes it to the observer. Its token isn't below the last one.
    /// After a fault the file is still there, with any bytes, and the writer isn't usable.
    pub fn push<H: Host, O: FlushObserver>(
        &mut self,
        host: &mut H,
        watch: &mut O,
        key: &Key,
        part: &Partition,
    ) -> Result<(), PairFault>
        requires body { HasBody key.now part.now }
        requires rising { (last_pair self.old.pairs).token ≤ token_of self.old.partitioner key.now }
        requires room { Reaches (H.view host.old) self.old.file self.old.offset }
        requires usable { IsTrue self.old.usable }
        ensures ok { OnOk result ((content : Content) → IsWriting (H.view host.old) self.old content → IsWriting (H.view host.new) self.new (content ++ (key.now, part.now) ∷ [])) }
        ensures observed { OnOk result ((calls : List Call) → O.agrees watch.old calls → O.agrees watch.new (calls ++ partition_calls (token_of self.old.partitioner key.now) self.old.offset part.now)) }
        ensures pairs { OnOk result (self.new.pairs ≡ self.old.pairs ++ record { token = token_of self.old.partitioner key.now; place = self.old.offset } ∷ []) }
        ensures last { OnOk result ((last_pair self.new.pairs).token ≡ token_of self.old.partitioner key.now) }
        ensures later { OnOk result (self.old.offset < self.new.offset) }
        ensures room { OnOk result (Reaches (H.view host.new) self.new.file self.new.offset) }
        ensures usable { self.new.usable ≡ is_ok result }
        ensures file { self.new.file ≡ self.old.file }
        ensures partitioner { self.new.partitioner ≡ self.old.partitioner }
        ensures there { IsThere (H.view host.new) self.new.file }
        ensures changes { Changes (FileChange self.old.file AnyChange) (H.view host.old) (H.view host.new) }
        ensures calls { MakesCalls 1 (H.view host.old) (H.view host.new) result }
        ensures causes { PushCauses (O.lacks watch.old) (H.view host.old) (H.view host.new) result }
        ensures lacks { (class : Class) → O.lacks watch.new class → O.lacks watch.old class }
    {
        self.usable = false;
        let pair = Pair {
            token: self.partitioner.token(key.bytes()),
            place: self.offset,
        };
        let next = push_partition(host, watch, self.file, pair, &mut self.buffer, key, part)?;
        self.pairs.push(pair)?;
        self.offset = next;
        self.max_timestamp = self.max_timestamp.max(part.max_timestamp());
        self.usable = true;
        Ok(())
    }

    /// Writes the key tree and the footer, and syncs the file. Its name becomes durable when the folder is synced.
    pub fn finish<H: Host>(self, host: &mut H) -> Result<DataRef, HostFault>
        requires some { 1 ≤ length self.pairs }
        requires room { Reaches (H.view host.old) self.file self.offset }
        requires usable { IsTrue self.usable }
        ensures ok { OnOk result ((content : Content) → IsWriting (H.view host.old) self content → Holds (H.view host.new) self.file (data_bytes self.partitioner content)) }
        ensures synced { OnOk result (IsSynced (H.view host.new) self.file) }
        ensures number { IfOk result (λ written. written.number ≡ self.file.number) }
        ensures partitions { IfOk result (λ written. written.partitions ≡ length self.pairs) }
        ensures greatest { IfOk result (λ written. written.greatest ≡ self.max_timestamp) }
        ensures changes { Changes (FileChange self.file AnyChange) (H.view host.old) (H.view host.new) }
        ensures causes { ListCauses (H.view host.old) (H.view host.new) result }
    {
        let alloc = *self.buffer.allocator();
        write_trailer(
            alloc,
            host,
            self.file,
            self.offset,
            &self.pairs,
            self.max_timestamp,
        )?;
        Ok(DataRef {
            number: self.file.number,
            partitions: self.pairs.as_slice().len() as u64,
            greatest: self.max_timestamp,
        })
    }
}

// Makes a file of these bytes.
fn create_with<H: Host>(host: &mut H, file: FileName, bytes: &[u8]) -> Result<(), Failed>
    requires { IsAbsent (H.view host.old) file }
    ensures ok { OnOk result (Holds (H.view host.new) file bytes.now) }
    ensures changes { Changes (FileChange file AnyChange) (H.view host.old) (H.view host.new) }
    ensures calls { MakesCalls 2 (H.view host.old) (H.view host.new) result }
    ensures causes { DiskCauses (H.view host.old) (H.view host.new) result }
{
    host.create(file)?;
    host.write(file, 0, bytes)
}
