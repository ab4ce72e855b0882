// Creates the store of a new folder.
ghost use Rattle.std.specs.Prelude.{◌≡◌, [], All, Contains, IfErr, IfOk, OnOk, false, true};
ghost use Rattle.std.specs.List.Sorted.{IsStrictlySortedBy};
ghost use Rattle.sasi_host.specs.declared.name.FileName.{FileName as AName};
ghost use Rattle.sasi_host.specs.Damages.{OnDamage};
ghost use Rattle.sasi_host.specs.Names.{name_cmp};
ghost use Rattle.sasi_host.specs.View.{IsAbsent, IsTold, ListCauses};
ghost use Rattle.sasi_host.specs.Disk.{Changes, IsFolderSynced, Lists, Same, Each};
ghost use Rattle.sasi_gated.specs.Causes.{ReadingCauses};
ghost use Rattle.sasi_folder.specs.FolderContents.{IsFresh};
ghost use Rattle.sasi_layout.specs.Kept.{nothing};
ghost use Rattle.sasi_layout.specs.Serving.{CanChange, HasExactlyBeside, Serves};
ghost use Rattle.sasi_layout.specs.Shape.{new_layout};
ghost use Rattle.sasi_recover.specs.NewFolder.{IsFreshOrNew, ReportsForeign, NoFalseFreshDamage, is_initial};
ghost use Rattle.sasi_recover.specs.OpenedFolder.{AnyFolderChange, IsTimed, opened_store};
ghost use Rattle.sasi_recover.specs.ReplayState.{AreMaps};

use crate::unlisted_files::{Keep, delete_unlisted};
use crate::{Numbers, Opened};
use sasi_commitlog::Log;
use sasi_host::{Damage, FileName, FormatRule, Host, HostFault, ReadFault, found};
use sasi_manifest::{Listing, Manifest};
use sasi_types::Partitioner;
use std::alloc::Global;

/// Creates the store of a folder without a seal: its first segment of the commit log, its first manifest, and the seal.
/// Deletes before what an unfinished creation left. `names` are the files of the folder.
pub fn create_store<H: Host>(
    alloc: Global,
    host: &mut H,
    names: &[FileName],
    partitioner: Partitioner,
) -> Result<Opened, ReadFault>
    requires lists { Lists (H.view host.old) names.now }
    requires sorted { IsStrictlySortedBy name_cmp names.now }
    ensures empty { IfOk result (λ opened. opened.manifest.listing.tables ≡ []) }
    ensures tables { IfOk result (λ opened. AreMaps opened.manifest.listing opened.tables.items) }
    ensures timed { IfOk result (λ opened. IsTimed (opened_store opened)) }
    ensures ready { IfOk result (λ opened. CanChange (H.view host.new) (opened_store opened)) }
    ensures exactly { IfOk result (λ opened. HasExactlyBeside (H.view host.new) nothing (opened_store opened)) }
    ensures serves { IfOk result (λ opened. IsTold (H.view host.old) → Each (H.view host.old) IsFresh → Serves (H.view host.new) (opened_store opened) (new_layout partitioner)) }
    ensures any_moment { Each (H.view host.old) IsFresh → Changes (IsFreshOrNew partitioner) (H.view host.old) (H.view host.new) }
    ensures firsts { OnOk result (All (λ name. is_initial name ≡ true) names.now) }
    ensures damaged { IfErr result (OnDamage (ReportsForeign names.now)) }
    ensures undamaged { IfErr result (OnDamage (λ damage. NoFalseFreshDamage (H.view host.old))) }
    ensures untouched { IfErr result (OnDamage (λ damage. Changes Same (H.view host.old) (H.view host.new))) }
    ensures foreign { (name : AName) → Contains names.now name → is_initial name ≡ false → Changes Same (H.view host.old) (H.view host.new) }
    ensures changes { Changes AnyFolderChange (H.view host.old) (H.view host.new) }
    ensures reads { (H.view host.new).reads ≡ (H.view host.old).reads }
    ensures causes { ReadingCauses (H.view host.old) (H.view host.new) result }
{
    check_new(names)?;
    let opened = clear_and_create(alloc, host, names, partitioner)?;
    Ok(opened)
}

// Passes where each file is one that an unfinished creation leaves, and else reports the first other one as damage.
fn check_new(names: &[FileName]) -> Result<(), Damage>
    ensures firsts { OnOk result (All (λ name. is_initial name ≡ true) names.now) }
    ensures foreign { IfErr result (ReportsForeign names.now) }
{
    for name in names {
        if !is_initial(*name) {
            return Err(found(*name, 0, FormatRule::NoSeal, &[]));
        }
    }
    Ok(())
}

fn is_initial(name: FileName) -> bool
    ensures { result ≡ is_initial name }
{
    name == FileName::manifest(1) || name == FileName::log(1)
}

// Deletes all files, and creates the store.
fn clear_and_create<H: Host>(
    alloc: Global,
    host: &mut H,
    names: &[FileName],
    partitioner: Partitioner,
) -> Result<Opened, HostFault>
    requires lists { Lists (H.view host.old) names.now }
    requires sorted { IsStrictlySortedBy name_cmp names.now }
    ensures empty { IfOk result (λ opened. opened.manifest.listing.tables ≡ []) }
    ensures tables { IfOk result (λ opened. AreMaps opened.manifest.listing opened.tables.items) }
    ensures timed { IfOk result (λ opened. IsTimed (opened_store opened)) }
    ensures ready { IfOk result (λ opened. CanChange (H.view host.new) (opened_store opened)) }
    ensures exactly { IfOk result (λ opened. HasExactlyBeside (H.view host.new) nothing (opened_store opened)) }
    ensures serves { IfOk result (λ opened. IsTold (H.view host.old) → Each (H.view host.old) IsFresh → Serves (H.view host.new) (opened_store opened) (new_layout partitioner)) }
    ensures any_moment { Each (H.view host.old) IsFresh → Changes (IsFreshOrNew partitioner) (H.view host.old) (H.view host.new) }
    ensures changes { Changes AnyFolderChange (H.view host.old) (H.view host.new) }
    ensures causes { ListCauses (H.view host.old) (H.view host.new) result }
{
    delete_unlisted(host, names, Keep::Nothing, &[])?;
    host.sync_folder()?;
    create_files(alloc, host, partitioner)
}

// Creates the store in an empty folder.
fn create_files<H: Host>(
    alloc: Global,
    host: &mut H,
    partitioner: Partitioner,
) -> Result<Opened, HostFault>
    requires none { (name : AName) → IsAbsent (H.view host.old) name }
    requires synced { IsFolderSynced (H.view host.old) }
    ensures empty { IfOk result (λ opened. opened.manifest.listing.tables ≡ []) }
    ensures tables { IfOk result (λ opened. AreMaps opened.manifest.listing opened.tables.items) }
    ensures timed { IfOk result (λ opened. IsTimed (opened_store opened)) }
    ensures ready { IfOk result (λ opened. CanChange (H.view host.new) (opened_store opened)) }
    ensures exactly { IfOk result (λ opened. HasExactlyBeside (H.view host.new) nothing (opened_store opened)) }
    ensures serves { IfOk result (λ opened. IsTold (H.view host.old) → Each (H.view host.old) IsFresh → Serves (H.view host.new) (opened_store opened) (new_layout partitioner)) }
    ensures any_moment { Each (H.view host.old) IsFresh → Changes (IsFreshOrNew partitioner) (H.view host.old) (H.view host.new) }
    ensures changes { Changes AnyFolderChange (H.view host.old) (H.view host.new) }
    ensures causes { ListCauses (H.view host.old) (H.view host.new) result }
{
    let listing = Listing::new(alloc, partitioner);
    let log = Log::create(alloc, host, 1)?;
    let manifest = Manifest::create(alloc, host, 1, &listing)?;
    Ok(Opened {
        manifest,
        log,
        tables: Vec::new(alloc),
        numbers: Numbers {
            manifest: 1,
            log: 1,
            data: 0,
            index: 0,
            part: 0,
        },
        greatest: 0,
    })
}
