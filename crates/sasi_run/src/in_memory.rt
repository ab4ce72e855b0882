// A run over memory.
ghost use Rattle.std.specs.Prelude.{◌≡◌, ◌≤◌, length, map, string_bytes};
ghost use Rattle.sasi_host.specs.Memory.{host_view, memory_host, source_view};
ghost use Rattle.sasi_host.specs.View.{Rose};
ghost use Rattle.sasi_run.specs.CommandLine.{IsCommandLine, asked_by};
ghost use Rattle.sasi_run.specs.Causes.{RanThrough, RunCauses};
ghost use Rattle.sasi_layout.specs.Shape.{Stands};
ghost use Rattle.sasi_run.specs.Headline.{Headline, SCRIPT_MOST};
ghost use Rattle.sasi_run.specs.InMemory.{FailsNowhere};
ghost use Rattle.sasi_run.specs.Shapes.{Shapes};

use crate::Status;
use crate::runner::run;
use sasi_analyzers::Analyzer;
use sasi_host::{MemHost, MemSource};
use std::alloc::Global;

/// Runs a script in memory over a folder in memory, as `run` does. Where no call is to fail and the host's memory can grow, the
/// run goes through.
pub fn run_in_memory(
    alloc: Global,
    words: &[String],
    script: &mut MemSource,
    host: &mut MemHost,
    analyzers: Vec<Box<dyn Analyzer>>,
) -> Status
    ensures headline { Headline Stands (asked_by (map (λ w. string_bytes w) words.now)) result (source_view script.old) (source_view script.new) (host_view (memory_host host.old)) (host_view (memory_host host.new)) }
    ensures shapes { Shapes (asked_by (map (λ w. string_bytes w) words.now)) result (source_view script.old) (source_view script.new) (host_view (memory_host host.old)) (host_view (memory_host host.new)) }
    ensures causes { RunCauses (map (λ w. string_bytes w) words.now) (map (λ b. kind b) analyzers.items) result (source_view script.old) (source_view script.new) (host_view (memory_host host.old)) (host_view (memory_host host.new)) }
    ensures untouched { result ≡ Status.Usage → (script.new ≡ script.old) × (host.new ≡ host.old) }
    ensures through { IsCommandLine (map (λ w. string_bytes w) words.now) → FailsNowhere script.old (memory_host host.old) → ¬ (Rose (memory_host host.old).refused (memory_host host.new).refused) → length script.old.left ≤ SCRIPT_MOST → RanThrough result }
{
    run(alloc, words, script, host, analyzers)
}
