// Names of files in their order.
ghost use Rattle.std.specs.Prelude.{◌≡◌, ◌≤◌, Contains, IfErr, OnOk, ℕ};
ghost use Rattle.std.specs.List.{list_any};
ghost use Rattle.std.specs.List.Sorted.{IsSorted, IsStrictlySortedBy};
ghost use Rattle.sasi_host.specs.Names.{log_name, name_cmp, name_eq};
ghost use Rattle.sasi_recover.specs.SealedFolder.{ReportsMissing, ReportsMissingSegment};

use sasi_host::{Damage, FileName, FormatRule, SegmentNumber, found};

/// Passes where each segment of the commit log from `floor` to `last` exists, and else reports the first missing one.
pub fn check_segments(
    names: &[FileName],
    floor: SegmentNumber,
    last: SegmentNumber,
) -> Result<(), Damage>
    requires sorted { IsStrictlySortedBy name_cmp names.now }
    requires ordered { floor ≤ last }
    ensures there { OnOk result ((segment : ℕ) → floor ≤ segment → segment ≤ last → Contains names.now (log_name segment)) }
    ensures missing { IfErr result (ReportsMissingSegment names.now floor last) }
{
    for segment in floor..last {
        check_there(names, FileName::log(segment))?;
    }
    check_there(names, FileName::log(last))?;
    Ok(())
}

/// Passes where the file is among the names, and else reports it as missing.
pub fn check_there(names: &[FileName], file: FileName) -> Result<(), Damage>
    requires { IsStrictlySortedBy name_cmp names.now }
    ensures there { OnOk result (Contains names.now file) }
    ensures missing { IfErr result (ReportsMissing names.now file) }
{
    if is_among(names, file) {
        Ok(())
    } else {
        Err(found(file, 0, FormatRule::Missing, &[]))
    }
}

/// Whether the file is among these names.
pub fn is_among(names: &[FileName], file: FileName) -> bool
    requires { IsSorted name_cmp names.now }
    ensures { result ≡ list_any (name_eq file) names.now }
{
    names.binary_search(&file).is_ok()
}
