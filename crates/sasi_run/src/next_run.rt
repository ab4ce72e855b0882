// From what a crash leaves to the next run.
ghost use Rattle.std.specs.Prelude.{◌≡◌, None, Option, [], unwrap_or};
ghost use Rattle.std.specs.FinMap.{get};
ghost use Rattle.sasi_types.specs.declared.partitioner.Partitioner.{Partitioner};
ghost use Rattle.sasi_types.specs.declared.partitioner.Partitioner.TheVariants.{Lead8};
ghost use Rattle.sasi_host.specs.Disk.{IsCrashOf};
ghost use Rattle.sasi_host.specs.declared.name.FileName.{FileName};
ghost use Rattle.sasi_host.specs.Names.{Folder};
ghost use Rattle.sasi_layout.specs.Layout.{Layout};
ghost use Rattle.sasi_layout.specs.Shape.{ShapeOf, Stands};
ghost use Rattle.sasi_model.specs.State.{State};
ghost use Rattle.sasi_run.specs.Headline.{StartsFrom};
ghost use Rattle.sasi_run.specs.Recovering.{IsAtRest};
ghost use Rattle.sasi_run.specs.Shapes.{StartsFromLayout};

use sasi_host::Host;

/// Does nothing. Its clauses say that a run starts from each folder that a crash leaves, where that folder stands for a state, and
/// that a folder without a file stands for the state without tables.
pub fn starts_again<H: Host>(crashed: &H, left: &H)
    ensures at_rest { IsCrashOf (H.view crashed.now) (H.view left.now) → (folder : Folder) × (H.view crashed.now).image folder × IsAtRest (H.view left.now) folder }
    ensures starts { (asked : Option Partitioner) (folder : Folder) (s : State) → IsAtRest (H.view left.now) folder → Stands asked folder s → StartsFrom Stands asked (H.view left.now) s }
    ensures layouts { (asked : Option Partitioner) (folder : Folder) (l : Layout) → IsAtRest (H.view left.now) folder → ShapeOf asked folder l → StartsFromLayout asked (H.view left.now) l }
    ensures empty { (asked : Option Partitioner) (folder : Folder) → ((name : FileName) → get folder name ≡ None) → Stands asked folder (record { partitioner = unwrap_or asked Lead8; tables = [] }) }
{
    let _ = crashed;
    let _ = left;
}
