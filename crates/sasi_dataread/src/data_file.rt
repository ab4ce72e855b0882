// Reads a data file.
ghost use Rattle.std.specs.Prelude.{◌≡◌, ◌+◌, ◌*◌, ◌/◌, ◌<◌, ◌≤◌, ℕ, [], IfErr, IfOk, None, Some, length};
ghost use Rattle.sasi_types.specs.declared.partitioner.Partitioner.{Partitioner};
ghost use Rattle.sasi_model.specs.Cells.{Partition as Part};
ghost use Rattle.sasi_host.specs.declared.name.FileName.{FileName};
ghost use Rattle.sasi_host.specs.Names.{Bytes};
ghost use Rattle.sasi_host.specs.View.{ReadCost, contents};
ghost use Rattle.sasi_body.specs.Body.{body, IsBodyOf};
ghost use Rattle.sasi_tokentree.specs.Heights.{height};
ghost use Rattle.sasi_host.specs.Damages.{DamageShown};
ghost use Rattle.sasi_host.specs.Buffered.{IsBuffered};
ghost use Rattle.sasi_host.specs.PageReading.{CanRead, HasRead};
ghost use Rattle.sasi_framing.specs.Framing.{OpensWithinPages};
ghost use Rattle.sasi_datawrite.specs.Format.{Content, header};
ghost use Rattle.sasi_datawrite.specs.Files.{IsDataFile};
ghost use Rattle.sasi_dataread.specs.Opened.{IsOpenedAs, StandsAt};
ghost use Rattle.sasi_dataread.specs.Reads.{ReadsPartition, ReadsKey, IsOpenOn, IsStoredAt, NoFalseDataDamage, NoFalsePartitionDamage};
ghost use Rattle.sasi_dataread.specs.Bodies.{partition_pages, partition_reads};
ghost use Rattle.sasi_dataread.specs.Damages.{ShowsData, ShowsHeaderOrFooter, ShowsPartition};
ghost use Rattle.sasi_dataread.specs.HeaderAndFooter.{HasHeaderAndFooter};
ghost use Rattle.sasi_dataread.specs.Scans.{KeysAreBytes, NoFalseOpenedDamage};
ghost use Rattle.sasi_dataread.specs.Finds.{FindsKey, FindsStored, MissesKey, token_reads};
ghost use Rattle.sasi_dataread.specs.PlacedKeys.{HasKeysOfToken, keys_at};

use crate::find::find_partition;
use crate::footer::read_footer;
use crate::partition::partition_at;
use crate::token_keys::keys_of_token;
use crate::types::copy_types;
use crate::{PlacedKey, Walk};
use sasi_cells::Partition;
use sasi_host::{BufferedFile, FileName, Host, PageReader, ReadFault};
use sasi_tokentree::Tree;
use sasi_types::{Key, Token, TreeRef, TypeList};
use std::alloc::{AllocError, Global};
use std::marker::Model;

/// An open data file. It keeps the fields of its footer, and the types of its table's columns.
#[derive(Drop)]
pub struct DataFile {
    file: FileName,
    types: TypeList,
    tree: TreeRef,
    max_timestamp: u64,
    end: u64,
}

impl Model for DataFile {
    ghost use Rattle.sasi_dataread.specs.Opened.{OpenDataFile};

    ghost Value = { OpenDataFile };

    ghost view = { λ a. record { file = a.file; types = a.types; tree = a.tree; max_timestamp = a.max_timestamp; end = a.end } };
}

impl DataFile {
    /// Opens the data file of a table whose columns have these types, by its header and its footer.
    pub fn open<H: Host, P: PageReader>(
        alloc: Global,
        host: &mut H,
        pages: &mut P,
        file: FileName,
        types: &TypeList,
    ) -> Result<DataFile, ReadFault>
        requires read { CanRead (P.agrees pages.old) (H.view host.old) file }
        ensures ok { IfOk result (λ opened. (bytes : Bytes) (partitioner : Partitioner) (content : Content) → contents (H.view host.old) file ≡ Some bytes → IsDataFile partitioner types.now bytes content → IsOpenedAs opened partitioner content) }
        ensures header_and_footer { IfOk result (λ opened. (bytes : Bytes) → contents (H.view host.old) file ≡ Some bytes → HasHeaderAndFooter bytes (record { tree = opened.tree; max_timestamp = opened.max_timestamp; end = opened.end })) }
        // In any file it has a partition.
        ensures some { IfOk result (λ opened. 0 < opened.tree.pairs) }
        ensures file { IfOk result (λ opened. opened.file ≡ file) }
        ensures types { IfOk result (λ opened. opened.types ≡ types.now) }
        ensures damaged { IfErr result (DamageShown (H.view host.old) file (ShowsHeaderOrFooter file)) }
        ensures undamaged { IfErr result (NoFalseDataDamage (H.view host.old) file) }
        ensures read { HasRead (P.agrees pages.new) (P.covers pages.old) (P.covers pages.new) (H.view host.old) (H.view host.new) file }
        ensures causes { ReadCost 3 (H.view host.old) (H.view host.new) result }
        ensures reads { OpensWithinPages (H.view host.old) (H.view host.new) file }
    {
        let footer = read_footer(host, pages, file)?;
        let types = copy_types(alloc, types)?;
        Ok(DataFile {
            file,
            types,
            tree: footer.tree,
            max_timestamp: footer.max_timestamp,
            end: footer.end,
        })
    }

    /// A scan of the partitions, from the first one on, with the tokens of the key tree. It reads nothing yet.
    pub fn walk(&self, alloc: Global) -> Result<Walk, AllocError>
        ensures { IfOk result (λ walk. walk ≡ record { opened = self.now; tokens = None; passed = 0; pairs_buffered = record { file = self.now.file; page = None; bytes = [] }; buffered = record { file = self.now.file; page = None; bytes = [] }; last_pair = None; last = None }) }
    {
        let copy = self.copy(alloc)?;
        Ok(Walk::new(alloc, copy))
    }

    fn copy(&self, alloc: Global) -> Result<DataFile, AllocError>
        ensures { IfOk result (λ copy. copy ≡ self.now) }
    {
        let types = copy_types(alloc, &self.types)?;
        Ok(DataFile {
            file: self.file,
            types,
            tree: self.tree,
            max_timestamp: self.max_timestamp,
            end: self.end,
        })
    }

    /// The number of partitions.
    pub fn partitions(&self) -> u64
        ensures { result ≡ self.now.tree.pairs }
    {
        self.tree.pairs
    }

    /// The largest timestamp of a deletion or a cell in it.
    pub fn max_timestamp(&self) -> u64
        ensures { result ≡ self.now.max_timestamp }
    {
        self.max_timestamp
    }

    // Where the partitions end.
    pub(crate) fn end(&self) -> u64
        ensures { result ≡ self.now.end }
    {
        self.end
    }

    /// A scan of the key tree, from tokens to offsets of partitions, before its first pair.
    pub fn tree(&self) -> Tree
        ensures { result ≡ record { buffered = record { file = self.now.file; page = None; bytes = [] }; tree = self.now.tree; passed = 0; last = None } }
    {
        Tree::new(self.file, self.tree)
    }

    // The file, with no page buffered yet.
    pub(crate) fn buffered_file(&self) -> BufferedFile
        ensures { result ≡ record { file = self.now.file; page = None; bytes = [] } }
    {
        BufferedFile::new(self.file)
    }

    // Reads the partition at this offset, through the buffered page.
    pub(crate) fn at_buffered<H: Host, P: PageReader>(
        &self,
        alloc: Global,
        host: &mut H,
        pages: &mut P,
        buffered: &mut BufferedFile,
        place: u64,
    ) -> Result<(Key, Partition), ReadFault>
        requires read { CanRead (P.agrees pages.old) (H.view host.old) self.now.file }
        requires buffered { IsBuffered buffered.old (H.view host.old).files }
        requires named { buffered.old.file ≡ self.now.file }
        ensures ok { IfOk result (λ read. ReadsPartition (H.view host.old) self.now place read.0 read.1) }
        ensures in_table { IfOk result (λ read. IsBodyOf self.now.types read.0 read.1) }
        ensures stands { IfOk result (λ read. IsStoredAt (H.view host.old) self.now place read.0 read.1) }
        ensures damaged { IfErr result (DamageShown (H.view host.old) self.now.file (ShowsPartition self.now.types self.now.end place self.now.file)) }
        ensures undamaged { IfErr result (NoFalsePartitionDamage (H.view host.old) self.now place) }
        ensures named { buffered.new.file ≡ self.now.file }
        ensures buffered { IsBuffered buffered.new (H.view host.new).files }
        ensures page { IfOk result (λ read. buffered.new.page ≡ Some ((place + 3 + length (body read.0 read.1)) / 4096)) }
        ensures read { HasRead (P.agrees pages.new) (P.covers pages.old) (P.covers pages.new) (H.view host.old) (H.view host.new) self.now.file }
        ensures causes { ReadCost 2050 (H.view host.old) (H.view host.new) result }
        ensures reads { (partitioner : Partitioner) (content : Content) (key : Bytes) (part : Part) → IsOpenOn (H.view host.old) self.now partitioner content → StandsAt content place key part → (H.view host.new).reads ≤ (H.view host.old).reads + partition_reads buffered.old.page place (length (body key part)) }
    {
        partition_at(alloc, host, pages, buffered, &self.types, self.end, place)
    }

    /// Reads the partition at this offset, which is that of a pair of the key tree.
    pub fn at<H: Host, P: PageReader>(
        &self,
        alloc: Global,
        host: &mut H,
        pages: &mut P,
        place: u64,
    ) -> Result<(Key, Partition), ReadFault>
        requires read { CanRead (P.agrees pages.old) (H.view host.old) self.now.file }
        ensures ok { IfOk result (λ read. ReadsPartition (H.view host.old) self.now place read.0 read.1) }
        ensures in_table { IfOk result (λ read. IsBodyOf self.now.types read.0 read.1) }
        // In any file it stands there.
        ensures stands { IfOk result (λ read. IsStoredAt (H.view host.old) self.now place read.0 read.1) }
        ensures damaged { IfErr result (DamageShown (H.view host.old) self.now.file (ShowsPartition self.now.types self.now.end place self.now.file)) }
        ensures undamaged { IfErr result (NoFalsePartitionDamage (H.view host.old) self.now place) }
        ensures read { HasRead (P.agrees pages.new) (P.covers pages.old) (P.covers pages.new) (H.view host.old) (H.view host.new) self.now.file }
        ensures causes { ReadCost 2050 (H.view host.old) (H.view host.new) result }
        // It reads only the pages on which the partition lies, where the file is a data file.
        ensures reads { (partitioner : Partitioner) (content : Content) (key : Bytes) (part : Part) → IsOpenOn (H.view host.old) self.now partitioner content → StandsAt content place key part → (H.view host.new).reads ≤ (H.view host.old).reads + partition_pages place (length (body key part)) }
    {
        let mut buffered = self.buffered_file();
        self.at_buffered(alloc, host, pages, &mut buffered, place)
    }

    /// Reads the key of the partition at this offset, which is that of a pair of the key tree.
    pub fn key_at<H: Host, P: PageReader>(
        &self,
        alloc: Global,
        host: &mut H,
        pages: &mut P,
        place: u64,
    ) -> Result<Key, ReadFault>
        requires read { CanRead (P.agrees pages.old) (H.view host.old) self.now.file }
        ensures ok { IfOk result (λ key. ReadsKey (H.view host.old) self.now place key) }
        // In any file it is that of a partition of the table, which stands there.
        ensures in_table { IfOk result (λ key. (part : Part) × IsStoredAt (H.view host.old) self.now place key part) }
        ensures damaged { IfErr result (DamageShown (H.view host.old) self.now.file (ShowsPartition self.now.types self.now.end place self.now.file)) }
        ensures undamaged { IfErr result (NoFalsePartitionDamage (H.view host.old) self.now place) }
        ensures read { HasRead (P.agrees pages.new) (P.covers pages.old) (P.covers pages.new) (H.view host.old) (H.view host.new) self.now.file }
        ensures causes { ReadCost 2050 (H.view host.old) (H.view host.new) result }
        ensures reads { (partitioner : Partitioner) (content : Content) (key : Bytes) (part : Part) → IsOpenOn (H.view host.old) self.now partitioner content → StandsAt content place key part → (H.view host.new).reads ≤ (H.view host.old).reads + partition_pages place (length (body key part)) }
    {
        let (key, _part) = self.at(alloc, host, pages, place)?;
        Ok(key)
    }

    /// The partition with this key, whose token this is; None exactly where the file has no such key. It searches the key
    /// tree once, and reads the partitions with the token up to that of the key.
    pub fn find<H: Host, P: PageReader>(
        &self,
        alloc: Global,
        host: &mut H,
        pages: &mut P,
        token: Token,
        key: &Key,
    ) -> Result<Option<Partition>, ReadFault>
        requires read { CanRead (P.agrees pages.old) (H.view host.old) self.now.file }
        ensures ok { IfOk result (λ found. FindsKey (H.view host.old) self.now token key.now found) }
        // In any file what is found is the partition of the key to which a pair with the token leads.
        ensures stands { IfOk result (FindsStored (H.view host.old) self.now token key.now) }
        // In any file with the key tree each pair with the token leads to another key where none is found.
        ensures misses { IfOk result (MissesKey (H.view host.old) self.now token key.now) }
        ensures damaged { IfErr result (DamageShown (H.view host.old) self.now.file (ShowsData self.now)) }
        ensures undamaged { IfErr result (NoFalseOpenedDamage (H.view host.old) self.now) }
        ensures read { HasRead (P.agrees pages.new) (P.covers pages.old) (P.covers pages.new) (H.view host.old) (H.view host.new) self.now.file }
        ensures causes { (most : ℕ) → self.now.tree.pairs ≤ most → ReadCost (2 * height most self.now.tree.pairs + 2 + 2051 * self.now.tree.pairs) (H.view host.old) (H.view host.new) result }
        // It reads at most two pages a level and two more, and the pages of the partitions with the token and one for each,
        // where the file is a data file.
        ensures reads { (most : ℕ) (partitioner : Partitioner) (content : Content) → self.now.tree.pairs ≤ most → IsOpenOn (H.view host.old) self.now partitioner content → KeysAreBytes content
            → (H.view host.new).reads ≤ (H.view host.old).reads + (2 * height most self.now.tree.pairs + 2 + token_reads partitioner token (length header) content) }
    {
        find_partition(alloc, host, pages, self, token, key)
    }

    /// The keys of the partitions with this token, in the file's order, each with the offset at which `at` reads its partition.
    /// It searches the key tree once, and reads each of these partitions once.
    pub fn keys_with<H: Host, P: PageReader>(
        &self,
        alloc: Global,
        host: &mut H,
        pages: &mut P,
        token: Token,
    ) -> Result<Vec<PlacedKey>, ReadFault>
        requires read { CanRead (P.agrees pages.old) (H.view host.old) self.now.file }
        ensures ok { IfOk result (λ keys. (partitioner : Partitioner) (content : Content) → IsOpenOn (H.view host.old) self.now partitioner content → KeysAreBytes content → keys.items ≡ keys_at partitioner token (length header) content) }
        // In any file they are the keys to which the pairs of the token lead, one after another, and none of these is left out.
        ensures stands { IfOk result (λ keys. HasKeysOfToken (H.view host.old) self.now token keys.items) }
        ensures damaged { IfErr result (DamageShown (H.view host.old) self.now.file (ShowsData self.now)) }
        ensures undamaged { IfErr result (NoFalseOpenedDamage (H.view host.old) self.now) }
        ensures read { HasRead (P.agrees pages.new) (P.covers pages.old) (P.covers pages.new) (H.view host.old) (H.view host.new) self.now.file }
        ensures causes { (most : ℕ) → self.now.tree.pairs ≤ most → ReadCost (2 * height most self.now.tree.pairs + 2 + 2051 * self.now.tree.pairs) (H.view host.old) (H.view host.new) result }
        // It reads at most two pages a level and two more, and the pages of the partitions with the token and one for each,
        // where the file is a data file.
        ensures reads { (most : ℕ) (partitioner : Partitioner) (content : Content) → self.now.tree.pairs ≤ most → IsOpenOn (H.view host.old) self.now partitioner content → KeysAreBytes content
            → (H.view host.new).reads ≤ (H.view host.old).reads + (2 * height most self.now.tree.pairs + 2 + token_reads partitioner token (length header) content) }
    {
        keys_of_token(alloc, host, pages, self, token)
    }
}
