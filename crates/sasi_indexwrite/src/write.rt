// Writes an index file.
ghost use Rattle.std.specs.Prelude.{◌≡◌, ◌≢◌, List, ◌++◌, IfOk, OnOk};
ghost use Rattle.sasi_types.specs.declared.column.ColumnType.TheVariants.{Uuid};
ghost use Rattle.sasi_host.specs.Names.{Bytes};
ghost use Rattle.sasi_host.specs.View.{Holds, IsAbsent, ListCauses, Reaches};
ghost use Rattle.sasi_host.specs.Disk.{AnyChange, Changes, IsSynced, FileChange};
ghost use Rattle.sasi_tokentree.specs.Format.{IsRising};
ghost use Rattle.sasi_indexwrite.specs.Causes.{WriteCauses};
ghost use Rattle.sasi_indexwrite.specs.Content.{TermPairs};
ghost use Rattle.sasi_indexwrite.specs.Files.{HoldsIndex};
ghost use Rattle.sasi_indexwrite.specs.Format.{header_bytes};
ghost use Rattle.sasi_indexwrite.specs.Kept.{kept_spill, kept_terms};
ghost use Rattle.sasi_indexwrite.specs.Stored.{stored};
ghost use Rattle.sasi_indexwrite.specs.TermsSoFar.{AreSortedPostings, with_pairs};
ghost use Rattle.sasi_indexwrite.specs.Writing.{CanStoreTerm, EndsFile, HasWritten, spill_of};

use crate::header::put_header;
use crate::postings::add_postings;
use crate::term_writer::{TermWriter, end_terms};
use crate::trailer::{write_blocks, write_spill};
use crate::unions::{push_all, union};
use sasi_host::{FileName, Host, HostFault, ReadFault};
use sasi_segments::Gather;
use sasi_types::{ColumnType, IndexDef, Mode, PairList};
use std::alloc::{AllocError, Global};

// Makes a file that has a header.
fn create<H: Host>(
    alloc: Global,
    host: &mut H,
    file: FileName,
    mode: Mode,
    kind: ColumnType,
) -> Result<(), HostFault>
    requires { IsAbsent (H.view host.old) file }
    ensures ok { OnOk result (Holds (H.view host.new) file (header_bytes mode kind)) }
    ensures changes { Changes (FileChange file AnyChange) (H.view host.old) (H.view host.new) }
    ensures causes { ListCauses (H.view host.old) (H.view host.new) result }
{
    let mut bytes = Vec::new(alloc);
    put_header(&mut bytes, mode, kind)?;
    host.create(file)?;
    host.write(file, 0, &bytes)?;
    Ok(())
}

// The pairs of the spill: in the mode SPARSE those of the common terms are among them.
fn whole_spill(
    alloc: Global,
    mode: Mode,
    common: PairList,
    spill: PairList,
) -> Result<PairList, AllocError>
    ensures { IfOk result (λ whole. whole ≡ spill_of mode common spill) }
{
    match mode {
        Mode::Prefix | Mode::Contains => Ok(spill),
        Mode::Sparse => {
            let mut all = common;
            push_all(&mut all, spill.as_slice())?;
            union(alloc, &all)
        }
    }
}

// Writes the last term, and what follows the trees of the terms, and syncs the file.
fn end_file<H: Host>(
    alloc: Global,
    host: &mut H,
    writer: TermWriter,
    spill: PairList,
) -> Result<(), HostFault>
    requires ready { CanStoreTerm writer }
    requires rising { IsRising spill }
    requires room { Reaches (H.view host.old) writer.trees.file writer.trees.end }
    ensures ok { OnOk result ((header : Bytes) (closed : List TermPairs) → HasWritten (H.view host.old) writer header closed → EndsFile (H.view host.new) writer.trees.file writer.mode header (kept_terms writer.mode (closed ++ with_pairs writer.term writer.pairs)) (kept_spill writer.mode (closed ++ with_pairs writer.term writer.pairs) spill)) }
    ensures synced { OnOk result (IsSynced (H.view host.new) writer.trees.file) }
    ensures changes { Changes (FileChange writer.trees.file AnyChange) (H.view host.old) (H.view host.new) }
    ensures causes { ListCauses (H.view host.old) (H.view host.new) result }
{
    let mut writer = writer;
    end_terms(alloc, host, &mut writer)?;
    let spill = whole_spill(alloc, writer.mode, writer.common, spill)?;
    let file = writer.trees.file;
    let spilled = write_spill(alloc, host, file, writer.trees.end, &spill)?;
    write_blocks(
        alloc,
        host,
        file,
        writer.blocks,
        &writer.groups.trees,
        spilled,
    )?;
    Ok(())
}

/// Writes the file of an index from the postings that were gathered for it, and syncs it. Its name becomes durable when the
/// folder is synced. The pairs of one term are in memory at a time, some trees, and the terms with the offsets of their trees.
///
/// In the mode `Sparse` a term of more than five pairs isn't stored: its pairs join the spill, and are in memory to the end, as
/// are the pairs of 64 term blocks. A gathering has each posting once, and one of the spill has no term.
pub fn write_index<H: Host>(
    alloc: Global,
    host: &mut H,
    file: FileName,
    def: &IndexDef,
    gather: Gather,
) -> Result<(), ReadFault>
    requires kind { def.now.kind ≢ Uuid }
    requires gathered { AreSortedPostings gather.postings }
    requires absent { IsAbsent (H.view host.old) file }
    ensures ok { OnOk result (HoldsIndex (H.view host.new) file def.now.mode def.now.kind (stored def.now.mode gather.postings)) }
    ensures synced { OnOk result (IsSynced (H.view host.new) file) }
    ensures changes { Changes (FileChange file AnyChange) (H.view host.old) (H.view host.new) }
    ensures causes { WriteCauses (H.view host.old) (H.view host.new) result }
{
    create(alloc, host, file, def.mode, def.kind)?;
    let mut gather = gather;
    let mut writer = TermWriter::new(alloc, file, def.mode);
    let mut spill = PairList::new(alloc);
    add_postings(alloc, host, &mut gather, &mut writer, &mut spill)?;
    end_file(alloc, host, writer, spill)?;
    Ok(())
}
