// The timestamps of writes.
ghost use Rattle.std.specs.Prelude.{◌≡◌, ◌≤◌, IfOk};
ghost use Rattle.sasi_model.specs.Refusals.{is_time, time_rules};
ghost use Rattle.sasi_model.specs.Abbreviations.{TIME_LIMIT as time_limit};
ghost use Rattle.sasi_types.specs.declared.literal.Number.TheVariants.{Fits};
ghost use Rattle.sasi_schema.specs.Answers.{Answers};
ghost use Rattle.sasi_machine.specs.Checks.{IsTimeOf};
ghost use Rattle.sasi_machine.specs.Faults.{refusal_of_fault};

use crate::Refusal;
use crate::fault::Fault;
use sasi_types::Number;

/// The largest timestamp of a write.
pub const TIME_LIMIT: u64 = 1 << 62;

/// The timestamp of a write: the given one, or one more than the largest of the state.
pub fn time_of(max_timestamp: u64, time: Option<Number>) -> Result<u64, Fault>
    requires { max_timestamp ≤ time_limit }
    ensures answers { Answers refusal_of_fault (time_rules max_timestamp time) result }
    ensures time { IfOk result (IsTimeOf max_timestamp time) }
{
    match time {
        None if max_timestamp == TIME_LIMIT => Err(Fault::Refused(Refusal::ClockSpent)),
        None => Ok(max_timestamp + 1),
        Some(Number::Fits(time)) if is_time(time) => Ok(time as u64),
        Some(_) => Err(Fault::Refused(Refusal::TimestampRange)),
    }
}

fn is_time(time: i128) -> bool
    ensures { result ≡ is_time (Fits time) }
{
    1 <= time && time <= i128::from(TIME_LIMIT)
}
