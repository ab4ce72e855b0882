// The entry point: a run of a script over a folder.
ghost use Rattle.std.specs.Prelude.{◌≡◌, map, string_bytes, Some};
ghost use Rattle.sasi_run.specs.CommandLine.{asked_by};
ghost use Rattle.sasi_layout.specs.Shape.{Stands};
ghost use Rattle.sasi_run.specs.Headline.{Headline, status_of_fault};
ghost use Rattle.sasi_run.specs.Shapes.{Shapes};
ghost use Rattle.sasi_run.specs.Causes.{RunCauses};

use crate::reading::run_store;
use crate::{Status, command};
use sasi_analyzers::{Analyzer, Kit};
use sasi_host::{Host, Source};
use sasi_store::{OpenFault, Store};
use std::alloc::Global;

/// Runs a script over the folder of a host, and emits its replies. `words` are those of the command line, without the
/// program's own. The analyzers are those that an index may ask for; the run drops them.
pub fn run<S: Source, H: Host>(
    alloc: Global,
    words: &[String],
    script: &mut S,
    host: &mut H,
    analyzers: Vec<Box<dyn Analyzer>>,
) -> Status
    ensures headline { Headline Stands (asked_by (map (λ w. string_bytes w) words.now)) result (S.view script.old) (S.view script.new) (H.view host.old) (H.view host.new) }
    ensures shapes { Shapes (asked_by (map (λ w. string_bytes w) words.now)) result (S.view script.old) (S.view script.new) (H.view host.old) (H.view host.new) }
    ensures causes { RunCauses (map (λ w. string_bytes w) words.now) (map (λ b. kind b) analyzers.items) result (S.view script.old) (S.view script.new) (H.view host.old) (H.view host.new) }
    ensures untouched { result ≡ Status.Usage → (script.new ≡ script.old) × (host.new ≡ host.old) }
{
    let mut kit = Kit::new(analyzers);
    match command(words) {
        None => Status::Usage,
        Some(command) => match Store::open(alloc, host, &mut kit, command.partitioner) {
            Err(fault) => fault_status(fault),
            Ok(store) => run_store(alloc, store, script, host, &mut kit),
        },
    }
}

// The status of a run whose folder could not be opened.
fn fault_status(fault: OpenFault) -> Status
    ensures { result ≡ status_of_fault fault }
{
    match fault {
        OpenFault::Failed => Status::FolderFault,
        OpenFault::OutOfMemory => Status::OutOfMemory,
        OpenFault::Damaged(damage) => Status::Damaged(damage),
        OpenFault::PartitionerDiffers { asked, kept } => Status::PartitionerDiffers { asked, kept },
        OpenFault::AnalyzerMissing(class) => Status::AnalyzerMissing(class),
    }
}
