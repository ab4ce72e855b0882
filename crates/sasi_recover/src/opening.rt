// Opens a folder.
ghost use Rattle.std.specs.Prelude.{◌≡◌, ◌≢◌, ◌⊎◌, ℕ, All, Contains, IfErr, IfOk, List, [], OnOk, Some, false, true, map, unwrap_or};
ghost use Rattle.std.specs.List.Sorted.{IsStrictlySortedBy};
ghost use Rattle.sasi_types.specs.declared.partitioner.Partitioner.{Partitioner as APartitioner};
ghost use Rattle.sasi_types.specs.declared.partitioner.Partitioner.TheVariants as partitioner;
ghost use Rattle.sasi_host.specs.declared.name.FileName.{FileName as AName};
ghost use Rattle.sasi_host.specs.Disk.{Changes, Lists, Same, Each};
ghost use Rattle.sasi_host.specs.View.{IsThere, IsTold};
ghost use Rattle.sasi_host.specs.Names.{Folder, name_cmp, seal_name};
ghost use Rattle.sasi_cells.specs.declared.mutation.Mutation.{Mutation};
ghost use Rattle.sasi_folder.specs.Damages.{ShowsManifestOrListed};
ghost use Rattle.sasi_folder.specs.Opens.{CanOpen, KeepsUnder, Opens};
ghost use Rattle.sasi_folder.specs.FolderContents.{IsFresh, IsSealed};
ghost use Rattle.sasi_types.specs.declared.class.Class.{Class as AClass};
ghost use Rattle.sasi_analyzers.specs.Kits.{has_class};
ghost use Rattle.sasi_layout.specs.Classes.{KnowsClasses};
ghost use Rattle.sasi_layout.specs.Layout.{Layout};
ghost use Rattle.sasi_layout.specs.Kept.{nothing};
ghost use Rattle.sasi_layout.specs.Serving.{CanChange, HasExactlyBeside, Serves};
ghost use Rattle.sasi_layout.specs.Shape.{HasShape, ShapeOf, new_layout};
ghost use Rattle.sasi_recover.specs.Faults.{IsDifference, OnDiffers, OnMissing, OnOpenDamage, OpenCauses, TellsDifference, TellsMissing};
ghost use Rattle.sasi_recover.specs.KeptListed.{KeepsListed};
ghost use Rattle.sasi_recover.specs.NewFolder.{IsForeign, IsFreshOrNew, NoFalseFreshDamage, ReportsForeign, is_initial};
ghost use Rattle.sasi_recover.specs.OpenedFolder.{AnyFolderChange, IsTimed, opened_store};
ghost use Rattle.sasi_recover.specs.Opening.{IsFolderDurable};
ghost use Rattle.sasi_recover.specs.OpeningReads.{ReadsStoreOnce};
ghost use Rattle.sasi_recover.specs.Promises.{LacksUnder, OpensSafely, ReportsTruly};
ghost use Rattle.sasi_recover.specs.ReplayState.{AreMaps};

use crate::classes::check_classes;
use crate::folder_sync::sync_all;
use crate::new_folder::create_store;
use crate::sealed_folder::{open_listed, read_manifest};
use crate::seals::highest_seal;
use crate::{OpenFault, Opened};
use sasi_analyzers::Kit;
use sasi_host::{FileName, Host, ManifestNumber};
use sasi_types::Partitioner;
use std::alloc::Global;

/// Opens the store of a folder, or creates one where the folder has no seal: with the asked partitioner, or else lead8.
pub fn open<H: Host>(
    alloc: Global,
    host: &mut H,
    kit: &Kit,
    asked: Option<Partitioner>,
) -> Result<Opened, OpenFault>
    ensures ready { IfOk result (λ opened. CanChange (H.view host.new) (opened_store opened)) }
    ensures exactly { IfOk result (λ opened. HasExactlyBeside (H.view host.new) nothing (opened_store opened)) }
    ensures tables { IfOk result (λ opened. AreMaps opened.manifest.listing opened.tables.items) }
    ensures timed { IfOk result (λ opened. IsTimed (opened_store opened)) }
    ensures serves { (folder : Folder) (l : Layout) → (H.view host.old).files ≡ Some folder → ShapeOf asked folder l → IfOk result (λ opened. Serves (H.view host.new) (opened_store opened) l) }
    ensures opens { (folder : Folder) → (H.view host.old).files ≡ Some folder → OnOk result (CanOpen folder) }
    ensures safe { OpensSafely asked (H.view host.old) (H.view host.new) }
    // An analyzer is there for each listed index.
    ensures classes { IfOk result (λ opened. KnowsClasses (map (λ b. kind (b.vtable, b.value)) kit.now.objects.items) (opened_store opened)) }
    ensures reports { ReportsTruly asked (map (λ b. kind (b.vtable, b.value)) kit.now.objects.items) (H.view host.old) result }
    // A folder that keeps another partitioner, or that needs an analyzer that isn't there, stays as it is.
    ensures untouched { IfErr result (OnDiffers (λ wanted kept. Changes Same (H.view host.old) (H.view host.new))) }
    ensures absent { IfErr result (OnMissing (λ class. has_class class (map (λ b. kind (b.vtable, b.value)) kit.now.objects.items) ≡ false)) }
    ensures unopened { IfErr result (OnMissing (λ class. Changes Same (H.view host.old) (H.view host.new))) }
    ensures causes { OpenCauses (H.view host.old) (H.view host.new) result }
{
    let names = sync_all(alloc, host)?;
    match highest_seal(&names) {
        None => open_new(alloc, host, &names, asked),
        Some(number) => open_sealed(alloc, host, kit, &names, number, asked),
    }
}

// Creates the store of a folder without a seal. `names` are the files of the folder.
fn open_new<H: Host>(
    alloc: Global,
    host: &mut H,
    names: &[FileName],
    asked: Option<Partitioner>,
) -> Result<Opened, OpenFault>
    requires lists { Lists (H.view host.old) names.now }
    requires sorted { IsStrictlySortedBy name_cmp names.now }
    ensures empty { IfOk result (λ opened. opened.manifest.listing.tables ≡ []) }
    ensures ready { IfOk result (λ opened. CanChange (H.view host.new) (opened_store opened)) }
    ensures exactly { IfOk result (λ opened. HasExactlyBeside (H.view host.new) nothing (opened_store opened)) }
    ensures tables { IfOk result (λ opened. AreMaps opened.manifest.listing opened.tables.items) }
    ensures timed { IfOk result (λ opened. IsTimed (opened_store opened)) }
    ensures serves { IfOk result (λ opened. IsTold (H.view host.old) → Each (H.view host.old) IsFresh → Serves (H.view host.new) (opened_store opened) (new_layout (unwrap_or asked partitioner.Lead8))) }
    ensures any_moment { Each (H.view host.old) IsFresh → Changes (IsFreshOrNew (unwrap_or asked partitioner.Lead8)) (H.view host.old) (H.view host.new) }
    ensures firsts { OnOk result (All (λ name. is_initial name ≡ true) names.now) }
    ensures damaged { IfErr result (OnOpenDamage (ReportsForeign names.now)) }
    ensures undamaged { IfErr result (OnOpenDamage (λ damage. NoFalseFreshDamage (H.view host.old))) }
    ensures same { IfErr result (OnDiffers (λ wanted kept. ⊥)) }
    ensures none_missing { IfErr result (OnMissing (λ class. ⊥)) }
    ensures foreign { (name : AName) → Contains names.now name → is_initial name ≡ false → Changes Same (H.view host.old) (H.view host.new) }
    ensures changes { Changes AnyFolderChange (H.view host.old) (H.view host.new) }
    ensures reads { (H.view host.new).reads ≡ (H.view host.old).reads }
    ensures causes { OpenCauses (H.view host.old) (H.view host.new) result }
{
    let opened = create_store(alloc, host, names, asked.unwrap_or(Partitioner::Lead8))?;
    Ok(opened)
}

// Opens a folder whose highest seal has this number. `names` are the files of the folder.
fn open_sealed<H: Host>(
    alloc: Global,
    host: &mut H,
    kit: &Kit,
    names: &[FileName],
    number: ManifestNumber,
    asked: Option<Partitioner>,
) -> Result<Opened, OpenFault>
    requires lists { Lists (H.view host.old) names.now }
    requires sorted { IsStrictlySortedBy name_cmp names.now }
    requires folder_durable { IsFolderDurable (H.view host.old) }
    requires sealed { IsThere (H.view host.old) (seal_name number) }
    ensures ready { IfOk result (λ opened. CanChange (H.view host.new) (opened_store opened)) }
    ensures exactly { IfOk result (λ opened. HasExactlyBeside (H.view host.new) nothing (opened_store opened)) }
    ensures tables { IfOk result (λ opened. AreMaps opened.manifest.listing opened.tables.items) }
    ensures timed { IfOk result (λ opened. IsTimed (opened_store opened)) }
    ensures serves { (folder : Folder) (l : Layout) (logs : List (List Mutation)) → (H.view host.old).files ≡ Some folder → l.used.manifest ≡ number → HasShape folder l logs → IfOk result (λ opened. Serves (H.view host.new) (opened_store opened) l) }
    ensures opens { (folder : Folder) → (H.view host.old).files ≡ Some folder → IsSealed folder number → OnOk result (Opens folder) }
    ensures any_moment { (folder : Folder) (l : Layout) (logs : List (List Mutation)) → (H.view host.old).files ≡ Some folder → l.used.manifest ≡ number → HasShape folder l logs → Changes (λ x y. (y ≡ x) ⊎ HasShape y l logs) (H.view host.old) (H.view host.new) }
    ensures damaged { (folder : Folder) → (H.view host.old).files ≡ Some folder → IfErr result (OnOpenDamage (ShowsManifestOrListed folder number)) }
    ensures undamaged { (folder : Folder) (l : Layout) (logs : List (List Mutation)) → (H.view host.old).files ≡ Some folder → l.used.manifest ≡ number → HasShape folder l logs → IfErr result (OnOpenDamage (λ _. ⊥)) }
    ensures differs { (folder : Folder) (wanted kept : APartitioner) → (H.view host.old).files ≡ Some folder → asked ≡ Some wanted → KeepsUnder folder number kept → wanted ≢ kept → TellsDifference wanted kept result }
    ensures differs_only { (folder : Folder) → (H.view host.old).files ≡ Some folder → IfErr result (OnDiffers (λ wanted kept. (asked ≡ Some wanted) × KeepsUnder folder number kept × (wanted ≢ kept))) }
    ensures classes { IfOk result (λ opened. KnowsClasses (map (λ b. kind (b.vtable, b.value)) kit.now.objects.items) (opened_store opened)) }
    ensures lacks { (folder : Folder) (class : AClass) → (H.view host.old).files ≡ Some folder → LacksUnder (map (λ b. kind (b.vtable, b.value)) kit.now.objects.items) folder number class → TellsMissing result }
    ensures lacks_only { (folder : Folder) → (H.view host.old).files ≡ Some folder → IfErr result (OnMissing (LacksUnder (map (λ b. kind (b.vtable, b.value)) kit.now.objects.items) folder number)) }
    ensures untouched { IfErr result (OnDiffers (λ wanted kept. Changes Same (H.view host.old) (H.view host.new))) }
    ensures absent { IfErr result (OnMissing (λ class. has_class class (map (λ b. kind (b.vtable, b.value)) kit.now.objects.items) ≡ false)) }
    ensures unopened { IfErr result (OnMissing (λ class. Changes Same (H.view host.old) (H.view host.new))) }
    ensures kept { (folder : Folder) → (H.view host.old).files ≡ Some folder → Changes (KeepsListed folder number) (H.view host.old) (H.view host.new) }
    ensures changes { Changes AnyFolderChange (H.view host.old) (H.view host.new) }
    ensures once { (folder : Folder) → (H.view host.old).files ≡ Some folder → ReadsStoreOnce folder number (H.view host.old) (H.view host.new) }
    ensures causes { OpenCauses (H.view host.old) (H.view host.new) result }
{
    let manifest = read_manifest(alloc, host, names, number)?;
    check_partitioner(asked, manifest.listing().partitioner)?;
    check_classes(kit, manifest.listing().tables.as_slice())?;
    let opened = open_listed(alloc, host, names, manifest)?;
    Ok(opened)
}

// Passes unless a partitioner is asked and another one kept.
fn check_partitioner(asked: Option<Partitioner>, kept: Partitioner) -> Result<(), OpenFault>
    ensures same { OnOk result ((wanted : APartitioner) → asked ≡ Some wanted → wanted ≡ kept) }
    ensures other { IfErr result (IsDifference asked kept) }
{
    let Some(wanted) = asked else {
        return Ok(());
    };
    if wanted == kept {
        return Ok(());
    }
    Err(OpenFault::PartitionerDiffers {
        asked: wanted,
        kept,
    })
}
