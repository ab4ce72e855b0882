// Takes the postings of a gathering in their order.
ghost use Rattle.std.specs.Prelude.{◌≡◌, [], OnOk};
ghost use Rattle.sasi_host.specs.Names.{Bytes};
ghost use Rattle.sasi_host.specs.View.{ListCauses, Reaches};
ghost use Rattle.sasi_host.specs.Disk.{AnyChange, Changes, FileChange};
ghost use Rattle.sasi_indexwrite.specs.Causes.{WriteCauses};
ghost use Rattle.sasi_indexwrite.specs.TermsSoFar.{AreSortedPostings, CanFollow, TermsSoFar, add, gathered};
ghost use Rattle.sasi_indexwrite.specs.Writing.{CanStoreTerm, HasWritten, KeepsGathered};

use crate::term_writer::{TermWriter, add_pair};
use sasi_host::{Host, HostFault, ReadFault};
use sasi_segments::{Gather, Posting};
use sasi_types::{ListKind, PairList};
use std::alloc::Global;

// Takes the next posting: it is one of the last term, or begins another term, or is one of the spill.
fn add_posting<H: Host>(
    alloc: Global,
    host: &mut H,
    writer: &mut TermWriter,
    spill: &mut PairList,
    posting: Posting,
) -> Result<(), HostFault>
    requires follows { CanFollow writer.old.term writer.old.pairs posting }
    requires ready { CanStoreTerm writer.old }
    requires room { Reaches (H.view host.old) writer.old.trees.file writer.old.trees.end }
    ensures keeps { OnOk result ((all : TermsSoFar) → KeepsGathered writer.old spill.old all → KeepsGathered writer.new spill.new (add all posting)) }
    ensures ok { OnOk result ((header : Bytes) (all : TermsSoFar) → KeepsGathered writer.old spill.old all → HasWritten (H.view host.old) writer.old header all.closed → HasWritten (H.view host.new) writer.new header (add all posting).closed) }
    ensures ready { OnOk result (CanStoreTerm writer.new) }
    ensures room { OnOk result (Reaches (H.view host.new) writer.new.trees.file writer.new.trees.end) }
    ensures file { writer.new.trees.file ≡ writer.old.trees.file }
    ensures mode { writer.new.mode ≡ writer.old.mode }
    ensures changes { Changes (FileChange writer.old.trees.file AnyChange) (H.view host.old) (H.view host.new) }
    ensures causes { ListCauses (H.view host.old) (H.view host.new) result }
{
    match posting.list {
        ListKind::Stored => add_pair(alloc, host, writer, posting.term, posting.pair)?,
        ListKind::Spill => spill.push(posting.pair)?,
    }
    Ok(())
}

// Takes all postings of the gathering: writes each term but the last, and keeps the pairs of the spill.
pub fn add_postings<H: Host>(
    alloc: Global,
    host: &mut H,
    gather: &mut Gather,
    writer: &mut TermWriter,
    spill: &mut PairList,
) -> Result<(), ReadFault>
    requires gathered { AreSortedPostings gather.old.postings }
    requires none { KeepsGathered writer.old spill.old (gathered []) }
    requires ready { CanStoreTerm writer.old }
    requires room { Reaches (H.view host.old) writer.old.trees.file writer.old.trees.end }
    ensures keeps { OnOk result (KeepsGathered writer.new spill.new (gathered gather.old.postings)) }
    ensures ok { OnOk result ((header : Bytes) → HasWritten (H.view host.old) writer.old header [] → HasWritten (H.view host.new) writer.new header (gathered gather.old.postings).closed) }
    ensures ready { OnOk result (CanStoreTerm writer.new) }
    ensures room { OnOk result (Reaches (H.view host.new) writer.new.trees.file writer.new.trees.end) }
    ensures file { writer.new.trees.file ≡ writer.old.trees.file }
    ensures mode { writer.new.mode ≡ writer.old.mode }
    ensures changes { Changes (FileChange writer.old.trees.file AnyChange) (H.view host.old) (H.view host.new) }
    ensures causes { WriteCauses (H.view host.old) (H.view host.new) result }
{
    while let Some(posting) = gather.next(host)? {
        add_posting(alloc, host, writer, spill, posting)?;
    }
    Ok(())
}
