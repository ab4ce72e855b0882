// What all parts of a table have of a key.
ghost use Rattle.std.specs.Prelude.{◌≡◌, ◌+◌, ◌≤◌, ◌++◌, ℕ, List, IfOk, IfSome, None};
ghost use Rattle.sasi_types.specs.declared.partitioner.Partitioner.{Partitioner};
ghost use Rattle.sasi_model.specs.State.{decorated};
ghost use Rattle.sasi_datawrite.specs.Format.{Content};
ghost use Rattle.sasi_ranges.specs.StreamCalls.{CanStream, HasStreamed, StreamFaults};
ghost use Rattle.sasi_scan.specs.Finding.{file_maps, found_in};
ghost use Rattle.sasi_scan.specs.Parts.{IsMergeOfParts};
ghost use Rattle.sasi_lookup.specs.Lookups.{HasKeysOf, IsLookingIn, IsReady, IsTurned, Opens, Shows};
ghost use Rattle.sasi_lookup.specs.Reads.{found_pages};
ghost use Rattle.sasi_engine.specs.TokenHits.{maps_numbered};
ghost use Rattle.sasi_scan.specs.Numbered.{views_numbered};

use crate::map_finds::find_in_maps;
use sasi_cells::Partition;
use sasi_host::{Host, PageReader, ReadFault};
use sasi_lookup::Lookup;
use sasi_memindex::MapBook;
use sasi_types::DecoratedKey;
use std::alloc::Global;

// What the files and then the maps have of a key with the token in hand, merged; None where none has it.
pub(crate) fn find_in_parts<H: Host, P: PageReader>(
    alloc: Global,
    host: &mut H,
    pages: &mut P,
    maps: &MapBook,
    lookup: &Lookup,
    numbers: &[u64],
    key: &DecoratedKey,
) -> Result<Option<Partition>, ReadFault>
    requires read { CanStream (P.agrees pages.old) (Opens lookup.now) (H.view host.old) }
    requires ready { IsReady lookup.now (H.view host.old).files }
    ensures found { IfOk result (λ found. (partitioner : Partitioner) (contents : List Content) → IsLookingIn (H.view host.old).files partitioner contents lookup.now → HasKeysOf partitioner key.now.token contents lookup.now
        → key.now ≡ decorated partitioner key.now.key → found ≡ found_in key.now None (file_maps partitioner contents ++ maps_numbered maps.now numbers.now)) }
    ensures of_parts { IfOk result (λ found. IfSome found (IsMergeOfParts lookup.now.types (views_numbered maps.now numbers.now) key.now.key)) }
    ensures looks { (partitioner : Partitioner) (contents : List Content) → IsLookingIn (H.view host.old).files partitioner contents lookup.now → IsLookingIn (H.view host.new).files partitioner contents lookup.now }
    ensures ready { IsReady lookup.now (H.view host.new).files }
    ensures reads { (partitioner : Partitioner) (contents : List Content) → IsLookingIn (H.view host.old).files partitioner contents lookup.now → HasKeysOf partitioner key.now.token contents lookup.now
        → (H.view host.new).reads ≤ (H.view host.old).reads + found_pages key.now.key contents }
    ensures read { HasStreamed (P.agrees pages.new) (P.covers pages.old) (P.covers pages.new) (Opens lookup.now) (Opens lookup.now) (H.view host.old) (H.view host.new) }
    ensures faults { StreamFaults (Shows lookup.now (H.view host.old).files) (Shows lookup.now (H.view host.new).files) (IsTurned (H.view host.old).files lookup.now) (H.view host.old) (H.view host.new) result }
{
    let in_files = lookup.find(host, pages, &key.key)?;
    let found = find_in_maps(alloc, maps, numbers, key, in_files)?;
    Ok(found)
}
