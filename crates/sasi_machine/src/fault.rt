// Why a check does not pass.
ghost use Rattle.std.specs.Prelude.{◌≡◌};
ghost use Rattle.sasi_machine.specs.declared.fault.Fault.TheVariants.{OutOfMemory};
ghost use Rattle.sasi_schema.specs.Faults.{refusal_of_fault as refusal_of_schema_fault};

use crate::Refusal;
use sasi_schema::SchemaFault;
use std::alloc::AllocError;

/// Why a check does not pass.
#[derive(Drop)]
pub enum Fault {
    OutOfMemory,
    Refused(Refusal),
}

impl From<AllocError> for Fault {
    ghost from_gives = { λ _ e. e ≡ OutOfMemory };

    fn from(_error: AllocError) -> Fault {
        Fault::OutOfMemory
    }
}

impl Fault {
    ghost use Rattle.sasi_machine.specs.Faults.{refusal_of_fault};

    /// The fault of the schema, as one of the machine.
    pub fn of_schema(fault: SchemaFault) -> Fault
        ensures { refusal_of_fault result ≡ refusal_of_schema_fault fault }
    {
        match fault {
            SchemaFault::OutOfMemory => Fault::OutOfMemory,
            SchemaFault::NoTable(name) => Fault::Refused(Refusal::NoTable(name)),
            SchemaFault::TableExists(name) => Fault::Refused(Refusal::TableExists(name)),
            SchemaFault::NoColumn(name) => Fault::Refused(Refusal::NoColumn(name)),
            SchemaFault::ColumnRepeated(name) => Fault::Refused(Refusal::ColumnRepeated(name)),
            SchemaFault::KeyMissing(name) => Fault::Refused(Refusal::KeyMissing(name)),
            SchemaFault::IndexExists(name) => Fault::Refused(Refusal::IndexExists(name)),
            SchemaFault::BadOption(option) => Fault::Refused(Refusal::BadOption(option)),
            SchemaFault::BadUsing => Fault::Refused(Refusal::BadUsing),
            SchemaFault::ModeType(column) => Fault::Refused(Refusal::ModeType(column)),
            SchemaFault::TooMany(limit) => Fault::Refused(Refusal::TooMany(limit)),
        }
    }
}
