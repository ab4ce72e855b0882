// Reads an index file.
ghost use Rattle.std.specs.Prelude.{◌≡◌, true, IfErr, IfOk, Some};
ghost use Rattle.sasi_host.specs.declared.name.FileName.{FileName};
ghost use Rattle.sasi_host.specs.Names.{Bytes};
ghost use Rattle.sasi_host.specs.View.{ReadCost, contents};
ghost use Rattle.sasi_host.specs.Damages.{DamageShown};
ghost use Rattle.sasi_host.specs.PageReading.{CanRead, HasRead};
ghost use Rattle.sasi_framing.specs.Framing.{OpensWithinPages};
ghost use Rattle.sasi_indexwrite.specs.Content.{IndexContent};
ghost use Rattle.sasi_indexwrite.specs.Files.{IsIndexFile};
ghost use Rattle.sasi_indexwrite.specs.Format.{is_spill};
ghost use Rattle.sasi_indexread.specs.Opened.{HasHeaderAndFooterOf, IsOpenOn, NoFalseIndexDamage};
ghost use Rattle.sasi_indexread.specs.HeaderAndFooter.{ShowsHeaderOrFooter};
ghost use Rattle.sasi_indexread.specs.Searches.{IsFresh};

use crate::Search;
use crate::footer::read_footer;
use sasi_host::{FileName, Host, PageReader, ReadFault};
use sasi_termblocks::BlockRef;
use sasi_terms::Op;
use sasi_types::{ColumnType, Mode, TreeRef};
use std::alloc::{AllocError, Global};
use std::marker::Model;

/// An open index file. It keeps the mode of the index, the type of the indexed column, and what of the footer a search needs.
#[derive(Drop)]
pub struct IndexFile {
    file: FileName,
    mode: Mode,
    kind: ColumnType,
    blocks: BlockRef,
    spill: TreeRef,
}

impl Model for IndexFile {
    ghost use Rattle.std.specs.Prelude.{◌≡◌, true};
    ghost use Rattle.sasi_indexwrite.specs.Format.{is_spill};
    ghost use Rattle.sasi_indexread.specs.Opened.{OpenIndexFile};

    ghost Value = { OpenIndexFile };

    ghost view = { λ a. record { file = a.file; mode = a.mode; kind = a.kind; blocks = a.blocks; spill = a.spill } };

    ghost invariant = { λ a. is_spill a.blocks.first a.spill ≡ true };
}

impl IndexFile {
    /// Opens an index file by its header and its footer, which are read by three reads at most.
    pub fn open<H: Host, P: PageReader>(
        host: &mut H,
        pages: &mut P,
        file: FileName,
    ) -> Result<IndexFile, ReadFault>
        requires read { CanRead (P.agrees pages.old) (H.view host.old) file }
        ensures ok { IfOk result (λ opened. (bytes : Bytes) (content : IndexContent) → contents (H.view host.old) file ≡ Some bytes → IsIndexFile bytes content → IsOpenOn (H.view host.new) opened content) }
        ensures header_and_footer { IfOk result (λ opened. (bytes : Bytes) → contents (H.view host.old) file ≡ Some bytes → HasHeaderAndFooterOf bytes opened) }
        ensures file { IfOk result (λ opened. opened.file ≡ file) }
        ensures damaged { IfErr result (DamageShown (H.view host.old) file (ShowsHeaderOrFooter file)) }
        ensures undamaged { IfErr result (NoFalseIndexDamage (H.view host.old) file) }
        ensures read { HasRead (P.agrees pages.new) (P.covers pages.old) (P.covers pages.new) (H.view host.old) (H.view host.new) file }
        ensures causes { ReadCost 3 (H.view host.old) (H.view host.new) result }
        ensures reads { OpensWithinPages (H.view host.old) (H.view host.new) file }
    {
        let read = read_footer(host, pages, file)?;
        Ok(IndexFile {
            file,
            mode: read.mode,
            kind: read.kind,
            blocks: read.numbers.blocks,
            spill: read.numbers.spill,
        })
    }

    /// A search for the terms that the operator and the body ask for, before its first pair. It reads nothing yet. The body of a
    /// range isn't looked at.
    pub fn search(&self, alloc: Global, op: &Op, body: &[u8]) -> Result<Search, AllocError>
        ensures asked { IfOk result (λ search. (search.index ≡ self.now) × (search.op ≡ op.now) × (search.body ≡ body.now)) }
        ensures fresh { IfOk result IsFresh }
    {
        let body = body.to_vec(alloc)?;
        Ok(Search::new(alloc, self.copy(), *op, body))
    }

    fn copy(&self) -> IndexFile
        ensures { result ≡ self.now }
    {
        IndexFile {
            file: self.file,
            mode: self.mode,
            kind: self.kind,
            blocks: self.blocks,
            spill: self.spill,
        }
    }

    // The name of the file.
    pub(crate) fn file(&self) -> FileName
        ensures { result ≡ self.now.file }
    {
        self.file
    }

    // The mode of the index.
    pub(crate) fn mode(&self) -> Mode
        ensures { result ≡ self.now.mode }
    {
        self.mode
    }

    // The type of the indexed column.
    pub(crate) fn kind(&self) -> ColumnType
        ensures { result ≡ self.now.kind }
    {
        self.kind
    }

    // Where the blocks of terms are.
    pub(crate) fn blocks(&self) -> BlockRef
        ensures { result ≡ self.now.blocks }
    {
        self.blocks
    }

    // What refers to the spill tree.
    pub(crate) fn spill(&self) -> TreeRef
        ensures is { result ≡ self.now.spill }
        ensures possible { is_spill self.now.blocks.first self.now.spill ≡ true }
    {
        self.spill
    }
}
