// Faults of a payload, by their offset in the file.
ghost use Rattle.std.specs.Prelude.{◌≡◌, ◌≢◌, ◌≤◌, ◌^◌, List, ℕ, length};
ghost use Rattle.sasi_host.specs.declared.fault.ReadFault.TheVariants as read_fault;
ghost use Rattle.sasi_formats.specs.declared.fault.FormatFault.TheVariants as format_fault;
ghost use Rattle.sasi_formats.specs.Failures.{HasOtherLength};
ghost use Rattle.sasi_formats.specs.Whole.{IsShownBy};
ghost use Rattle.sasi_commitlog.specs.Format.{Tables, mutation_of};
ghost use Rattle.sasi_commitlog.specs.Faults.{IsWithin, IsRecordFault};

use sasi_formats::{Broken, FormatFault, broken_at};
use sasi_host::{Damage, FileName, FormatRule, ReadFault};

/// The fault of the payload after the gate at this offset, with its offset in the file.
pub fn fault_in_file(file: FileName, gate: u64, payload: &[u8], fault: FormatFault) -> ReadFault
    requires offset { gate ≤ 2 ^ 62 }
    requires short { length payload.now ≤ 2 ^ 30 }
    requires within { IsWithin (2 ^ 62) fault }
    ensures shown { (tables : Tables) → IsShownBy (mutation_of tables) payload.now fault → IsRecordFault tables file gate payload.now result }
    ensures memory { fault ≡ format_fault.OutOfMemory → result ≡ read_fault.OutOfMemory }
    ensures cause { result ≢ read_fault.Failed }
{
    match fault {
        FormatFault::OutOfMemory => ReadFault::OutOfMemory,
        FormatFault::Short => other_length(file, gate, payload),
        FormatFault::Long => other_length(file, gate, payload),
        FormatFault::Broken(broken) => {
            ReadFault::Damaged(damage_at(file, gate + 5 + broken.at as u64, broken))
        }
    }
}

// The damage of a record whose length isn't that of its content.
fn other_length(file: FileName, gate: u64, payload: &[u8]) -> ReadFault
    requires offset { gate ≤ 2 ^ 62 }
    requires short { length payload.now ≤ 2 ^ 30 }
    ensures shown { (tables : Tables) → HasOtherLength (mutation_of tables) payload.now → IsRecordFault tables file gate payload.now result }
    ensures cause { result ≢ read_fault.Failed }
{
    let bytes = (payload.len() as u32).to_be_bytes();
    ReadFault::Damaged(damage_at(file, gate + 1, broken_at(FormatRule::Number, 0, &bytes)))
}

// The damage of a file that breaks the rule at this offset.
fn damage_at(file: FileName, at: u64, broken: Broken) -> Damage
    ensures file { result.file ≡ file }
    ensures at { result.at ≡ at }
    ensures rule { result.rule ≡ broken.rule }
    ensures seen { result.seen ≡ broken.seen }
{
    Damage {
        file,
        at,
        rule: broken.rule,
        seen: broken.seen,
    }
}
