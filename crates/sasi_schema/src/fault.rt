// Why a definition is refused.
ghost use Rattle.std.specs.Prelude.{◌≡◌};
ghost use Rattle.sasi_schema.specs.declared.fault.SchemaFault.TheVariants.{OutOfMemory};

use sasi_types::{Name, Text};
use std::alloc::{AllocError, AllocFailed};

/// A limit on definitions.
#[derive(Clone, Copy, Debug, PartialEq, Eq)]
pub enum Limit {
    /// 256 tables.
    Tables,
    /// 64 columns of a table, the key column included.
    Columns,
}

/// Why a definition is refused, with the name that the refusal shows.
#[derive(Debug, Drop)]
pub enum SchemaFault {
    OutOfMemory,
    NoTable(Name),
    TableExists(Name),
    NoColumn(Name),
    ColumnRepeated(Name),
    KeyMissing(Name),
    /// The name of the index that is there.
    IndexExists(Name),
    /// The option, as it is written.
    BadOption(Text),
    /// The class behind USING.
    BadUsing,
    /// The column.
    ModeType(Name),
    TooMany(Limit),
}

impl From<AllocError> for SchemaFault {
    ghost from_gives = { λ _ e. e ≡ OutOfMemory };

    fn from(_error: AllocError) -> SchemaFault {
        SchemaFault::OutOfMemory
    }
}

impl<T: Drop> From<AllocFailed<T>> for SchemaFault {
    ghost from_gives = { λ _ e. e ≡ OutOfMemory };

    fn from(_error: AllocFailed<T>) -> SchemaFault {
        SchemaFault::OutOfMemory
    }
}
