// Checks the listed files: that they are there, and how they end.
ghost use Rattle.std.specs.Prelude.{◌≡◌, ◌+◌, ◌≤◌, All, Contains, IfErr, IfOk, OnOk};
ghost use Rattle.std.specs.List.Sorted.{IsStrictlySortedBy};
ghost use Rattle.sasi_host.specs.declared.name.Kind.TheVariants as kinds;
ghost use Rattle.sasi_host.specs.Damages.{DamageShown};
ghost use Rattle.sasi_host.specs.Disk.{Changes, IsSynced, Same};
ghost use Rattle.sasi_host.specs.Names.{name_cmp};
ghost use Rattle.sasi_host.specs.View.{IsThere, ReadCost};
ghost use Rattle.sasi_gated.specs.Causes.{ReadingCauses};
ghost use Rattle.sasi_folder.specs.Damages.{ShowsEnds};
ghost use Rattle.sasi_recover.specs.FileEnds.{HasEnd, IsLargestOf, IsOfTable, NoFalseDamage, NoFalseEndDamage, ShowsEndDamage, TellsTime};
ghost use Rattle.sasi_recover.specs.OpeningReads.{end_reads, ends_reads};
ghost use Rattle.sasi_recover.specs.SealedFolder.{ReportsMissingFile};

use crate::names::check_there;
use sasi_dataread::read_max_timestamp;
use sasi_host::{Damage, Direct, FileName, Host, Kind, ReadFault};
use sasi_indexread::IndexFile;

// The largest timestamp that a write can have.
const TIME_LIMIT: u64 = 1 << 62;

/// Passes where each of the files exists, and else reports the first missing one.
pub fn check_files(names: &[FileName], files: &[FileName]) -> Result<(), Damage>
    requires { IsStrictlySortedBy name_cmp names.now }
    ensures there { OnOk result (All (Contains names.now) files.now) }
    ensures missing { IfErr result (ReportsMissingFile names.now files.now) }
{
    for file in files {
        check_there(names, *file)?;
    }
    Ok(())
}

/// Syncs each of the files, checks its end, and gives the largest timestamp that the footers of data files tell.
pub fn read_ends<H: Host>(host: &mut H, files: &[FileName]) -> Result<u64, ReadFault>
    requires there { All (IsThere (H.view host.old)) files.now }
    requires tables { All IsOfTable files.now }
    ensures ends { OnOk result (All (HasEnd (H.view host.old)) files.now) }
    ensures synced { OnOk result (All (IsSynced (H.view host.new)) files.now) }
    ensures time { IfOk result (λ time. IsLargestOf (H.view host.old) files.now time) }
    ensures damaged { IfErr result (ShowsEndDamage (H.view host.old) files.now) }
    ensures undamaged { IfErr result (NoFalseEndDamage (H.view host.old) files.now) }
    ensures changes { Changes Same (H.view host.old) (H.view host.new) }
    ensures reads { (H.view host.new).reads ≤ (H.view host.old).reads + ends_reads files.now }
    ensures causes { ReadingCauses (H.view host.old) (H.view host.new) result }
{
    let mut largest: u64 = 0;
    for file in files {
        let time = read_end(host, *file)?;
        largest = largest.max(time);
    }
    Ok(largest)
}

// Syncs a file, checks its end, and gives the timestamp that it tells.
fn read_end<H: Host>(host: &mut H, file: FileName) -> Result<u64, ReadFault>
    requires there { IsThere (H.view host.old) file }
    requires table { IsOfTable file }
    ensures ends { OnOk result (HasEnd (H.view host.old) file) }
    ensures synced { OnOk result (IsSynced (H.view host.new) file) }
    ensures time { IfOk result (TellsTime (H.view host.old) file) }
    ensures damaged { IfErr result (DamageShown (H.view host.old) file (ShowsEnds file)) }
    ensures undamaged { IfErr result (NoFalseDamage (H.view host.old) file) }
    ensures changes { Changes Same (H.view host.old) (H.view host.new) }
    ensures reads { (H.view host.new).reads ≤ (H.view host.old).reads + end_reads file }
    ensures causes { ReadingCauses (H.view host.old) (H.view host.new) result }
{
    host.sync(file)?;
    let time = check_end(host, file)?;
    Ok(time)
}

// Checks the end of a file by its kind, and gives the timestamp that it tells: that of a data file, and 0 of an index file.
fn check_end<H: Host>(host: &mut H, file: FileName) -> Result<u64, ReadFault>
    requires there { IsThere (H.view host.old) file }
    requires table { IsOfTable file }
    ensures ends { OnOk result (HasEnd (H.view host.old) file) }
    ensures time { IfOk result (TellsTime (H.view host.old) file) }
    ensures damaged { IfErr result (DamageShown (H.view host.old) file (ShowsEnds file)) }
    ensures undamaged { IfErr result (NoFalseDamage (H.view host.old) file) }
    ensures changes { Changes Same (H.view host.old) (H.view host.new) }
    ensures causes { ReadCost (end_reads file) (H.view host.old) (H.view host.new) result }
{
    match file.kind {
        Kind::Index => check_index_end(host, file),
        _ => read_data_end(host, file),
    }
}

// Checks the end of an index file, its header and its footer. It tells no timestamp.
fn check_index_end<H: Host>(host: &mut H, file: FileName) -> Result<u64, ReadFault>
    requires there { IsThere (H.view host.old) file }
    requires index { file.kind ≡ kinds.Index }
    ensures ends { OnOk result (HasEnd (H.view host.old) file) }
    ensures time { IfOk result (TellsTime (H.view host.old) file) }
    ensures damaged { IfErr result (DamageShown (H.view host.old) file (ShowsEnds file)) }
    ensures undamaged { IfErr result (NoFalseDamage (H.view host.old) file) }
    ensures changes { Changes Same (H.view host.old) (H.view host.new) }
    ensures causes { ReadCost (end_reads file) (H.view host.old) (H.view host.new) result }
{
    IndexFile::open(host, &mut Direct, file)?;
    Ok(0)
}

// Checks the end of a data file, and gives the largest timestamp of its footer, at most the limit of timestamps.
fn read_data_end<H: Host>(host: &mut H, file: FileName) -> Result<u64, ReadFault>
    requires there { IsThere (H.view host.old) file }
    requires of_data { file.kind ≡ kinds.Data }
    ensures ends { OnOk result (HasEnd (H.view host.old) file) }
    ensures time { IfOk result (TellsTime (H.view host.old) file) }
    ensures damaged { IfErr result (DamageShown (H.view host.old) file (ShowsEnds file)) }
    ensures undamaged { IfErr result (NoFalseDamage (H.view host.old) file) }
    ensures changes { Changes Same (H.view host.old) (H.view host.new) }
    ensures causes { ReadCost (end_reads file) (H.view host.old) (H.view host.new) result }
{
    let time = read_max_timestamp(host, file)?;
    Ok(time.min(TIME_LIMIT))
}
