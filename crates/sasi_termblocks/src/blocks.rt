// Readers of blocks.
ghost use Rattle.std.specs.Prelude.{◌≡◌, ◌+◌, ◌/◌, ◌≤◌, [], IfErr, IfOk, IfSome, OnErr, None};
ghost use Rattle.sasi_host.specs.View.{ReadCost};
ghost use Rattle.sasi_host.specs.Damages.{DamageShown};
ghost use Rattle.sasi_host.specs.PageReading.{CanReadOn, HasReadOn};
ghost use Rattle.sasi_termblocks.specs.Forms.{HasForm};
ghost use Rattle.sasi_termblocks.specs.Damages.{ShowsBlocks};
ghost use Rattle.sasi_termblocks.specs.Scans.{EndsBelow, EndsPast, GivesTree, IsNotBelow, NoFalseDamage, ReadsFirst, ReadsHere, ReadsNext, ReadsSome};

use crate::block_encode::BLOCK_BYTES;
use crate::block_ref::BlockRef;
use crate::list_form::ListForm;
use crate::position::Position;
use crate::scan::{entry_from, first_from};
use crate::term_entry::TermEntry;
use sasi_host::{BufferedFile, FileName, Host, PageReader, ReadFault};
use std::alloc::Global;
use std::marker::Model;

/// A scan of the entries of blocks in a file, from any term on. Its view is the buffered file, the reference, the form of the
/// entries, and the page and the index of the next one. A sequential scan reads each block once.
#[derive(Drop)]
pub struct Blocks {
    alloc: Global,
    buffered: BufferedFile,
    blocks: BlockRef,
    form: ListForm,
    page: u64,
    index: usize,
}

impl Model for Blocks {
    ghost use Rattle.std.specs.Prelude.{◌/◌, ◌≤◌};
    ghost use Rattle.sasi_termblocks.specs.Scans.{Scan};

    ghost Value = { Scan };

    ghost view = { λ a. record { buffered = a.buffered; blocks = a.blocks; form = a.form; page = a.page; index = a.index } };

    ghost invariant = { λ a. a.blocks.first / 4096 ≤ a.page };
}

impl Blocks {
    /// A scan of the blocks with this reference, whose entries have this form, before their first entry. It reads nothing
    /// yet. The offsets of the reference are multiples of 4,096.
    pub fn new(alloc: Global, file: FileName, blocks: BlockRef, form: ListForm) -> Blocks
        ensures { result ≡ record { buffered = record { file = file; page = None; bytes = [] }; blocks = blocks; form = form; page = blocks.first / 4096; index = 0 } }
    {
        Blocks {
            alloc,
            buffered: BufferedFile::new(file),
            blocks,
            form,
            page: blocks.first / BLOCK_BYTES as u64,
            index: 0,
        }
    }

    /// The first entry at or above the term; None where there is none. An error leaves its position unchanged, but may leave
    /// another page buffered.
    pub fn seek<H: Host, P: PageReader>(
        &mut self,
        host: &mut H,
        pages: &mut P,
        term: &[u8],
    ) -> Result<Option<TermEntry>, ReadFault>
        requires read { CanReadOn (P.agrees pages.old) (H.view host.old) self.old.buffered }
        ensures ok { IfOk result (λ found. ReadsFirst (H.view host.old) self.old.buffered.file self.old.blocks term.now self.new.page self.new.index found) }
        // In any file it is an entry of a block, and not below the term.
        ensures stands { IfOk result (λ found. ReadsSome (H.view host.old) self.old.buffered.file found) }
        ensures least { IfOk result (IsNotBelow term.now) }
        // In any file its tree can stand in front of the first term block.
        ensures tree { IfOk result (GivesTree self.old.blocks.first) }
        // In any file its pairs stand where those of the form do.
        ensures form { IfOk result (λ found. IfSome found (HasForm self.old.form)) }
        // In any file there is none only where the pointers lead behind the last entry of the term blocks.
        ensures ends { IfOk result (λ found. EndsBelow (H.view host.old) self.old.buffered.file self.old.blocks term.now self.new.page self.new.index found) }
        ensures damaged { IfErr result (DamageShown (H.view host.old) self.old.buffered.file (ShowsBlocks self.old.buffered.file self.old.blocks self.old.form)) }
        ensures undamaged { IfErr result (NoFalseDamage (H.view host.old) self.old.buffered.file self.old.blocks self.old.form) }
        ensures read { HasReadOn (P.agrees pages.new) (P.covers pages.old) (P.covers pages.new) (H.view host.old) (H.view host.new) self.old.buffered self.new.buffered }
        ensures causes { ReadCost (self.old.blocks.levels + 2) (H.view host.old) (H.view host.new) result }
        ensures blocks { self.new.blocks ≡ self.old.blocks }
        ensures same_form { self.new.form ≡ self.old.form }
        ensures err { OnErr result ((self.new.page ≡ self.old.page) × (self.new.index ≡ self.old.index)) }
    {
        let alloc = self.alloc;
        let found = first_from(
            alloc,
            host,
            pages,
            &mut self.buffered,
            self.blocks,
            self.form,
            term,
        )?;
        self.page = found.position.page;
        self.index = found.position.index;
        Ok(found.entry)
    }

    /// The next entry; None where there is none. An error leaves its position unchanged, but may leave another page buffered.
    pub fn next<H: Host, P: PageReader>(
        &mut self,
        host: &mut H,
        pages: &mut P,
    ) -> Result<Option<TermEntry>, ReadFault>
        requires read { CanReadOn (P.agrees pages.old) (H.view host.old) self.old.buffered }
        ensures ok { IfOk result (λ found. ReadsNext (H.view host.old) self.old.buffered.file self.old.blocks self.old.page self.old.index self.new.page self.new.index found) }
        // In any file it is an entry of a term block whose first entry stands behind the offsets, and above the one before it there.
        ensures stands { IfOk result (λ found. ReadsHere (H.view host.old) self.old.buffered.file self.old.page self.old.index self.new.page self.new.index found) }
        // In any file its tree can stand in front of the first term block.
        ensures tree { IfOk result (GivesTree self.old.blocks.first) }
        // In any file its pairs stand where those of the form do.
        ensures form { IfOk result (λ found. IfSome found (HasForm self.old.form)) }
        // In any file it ends exactly behind the term blocks, where the pointer blocks begin, or where its block has no further entry.
        ensures ends { IfOk result (λ found. EndsPast (H.view host.old) self.old.buffered.file self.old.blocks self.old.page self.old.index self.new.page self.new.index found) }
        ensures damaged { IfErr result (DamageShown (H.view host.old) self.old.buffered.file (ShowsBlocks self.old.buffered.file self.old.blocks self.old.form)) }
        ensures undamaged { IfErr result (NoFalseDamage (H.view host.old) self.old.buffered.file self.old.blocks self.old.form) }
        ensures read { HasReadOn (P.agrees pages.new) (P.covers pages.old) (P.covers pages.new) (H.view host.old) (H.view host.new) self.old.buffered self.new.buffered }
        ensures causes { ReadCost 1 (H.view host.old) (H.view host.new) result }
        ensures blocks { self.new.blocks ≡ self.old.blocks }
        ensures same_form { self.new.form ≡ self.old.form }
        ensures err { OnErr result ((self.new.page ≡ self.old.page) × (self.new.index ≡ self.old.index)) }
    {
        let alloc = self.alloc;
        let position = Position {
            page: self.page,
            index: self.index,
        };
        let found = entry_from(
            alloc,
            host,
            pages,
            &mut self.buffered,
            self.blocks,
            self.form,
            position,
            &[],
        )?;
        self.page = found.position.page;
        self.index = found.position.index;
        Ok(found.entry)
    }
}
