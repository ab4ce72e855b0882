// Opens the key tree of a data file.
ghost use Rattle.std.specs.Prelude.{ℕ, List, IfOk, Some};
ghost use Rattle.sasi_types.specs.declared.tree.Pair.{Pair as SpecPair};
ghost use Rattle.sasi_ranges.specs.StreamCalls.{CanStream, HasStreamed, StreamFaults};
ghost use Rattle.sasi_hits.specs.Calls.{IsFile, SpendsOn};
ghost use Rattle.sasi_hits.specs.KeyTrees.{KeysPay, KeysReady, KeysShow, TreeLeaves};

use sasi_dataread::DataFile;
use sasi_host::{FileName, Host, PageReader, ReadFault};
use sasi_tokentree::Tree;
use sasi_types::TypeList;
use std::alloc::Global;

// The scan of the key tree: the one that is there, or a new one of the file, which is opened then.
pub(crate) fn open_keys<H: Host, P: PageReader>(
    alloc: Global,
    host: &mut H,
    pages: &mut P,
    file: FileName,
    types: &TypeList,
    tree: Option<Tree>,
) -> Result<Tree, ReadFault>
    requires read { CanStream (P.agrees pages.old) (IsFile file) (H.view host.old) }
    requires ready { KeysReady file tree (H.view host.old).files }
    ensures leaves { (left : List SpecPair) → TreeLeaves file types.now tree (H.view host.old).files left → IfOk result (λ opened. TreeLeaves file types.now (Some opened) (H.view host.new).files left) }
    ensures reads { (most : ℕ) → KeysPay file types.now tree (H.view host.old).files most → SpendsOn (λ opened rest. KeysPay file types.now (Some opened) (H.view host.new).files rest) most (H.view host.old).reads (H.view host.new).reads result }
    ensures ready { IfOk result (λ opened. KeysReady file (Some opened) (H.view host.new).files) }
    ensures read { HasStreamed (P.agrees pages.new) (P.covers pages.old) (P.covers pages.new) (IsFile file) (IsFile file) (H.view host.old) (H.view host.new) }
    ensures faults { StreamFaults (KeysShow file (H.view host.old).files) (KeysShow file (H.view host.new).files) (TreeLeaves file types.now tree (H.view host.old).files) (H.view host.old) (H.view host.new) result }
{
    match tree {
        Some(tree) => Ok(tree),
        None => {
            let opened = DataFile::open(alloc, host, pages, file, types)?;
            Ok(opened.tree())
        }
    }
}
