// Why a field can't be read.
ghost use Rattle.std.specs.Prelude.{◌≡◌};
ghost use Rattle.sasi_fields.specs.declared.fault.FieldFault.TheVariants.{Short};

/// Too few bytes are left for the field at this offset.
#[derive(Clone, Copy, Debug, PartialEq, Eq)]
pub struct ShortField {
    pub at: usize,
}

/// Why a number in a range can't be read: too few bytes are left, or the number at this offset is outside the range.
#[derive(Clone, Copy, Debug, PartialEq, Eq)]
pub enum FieldFault {
    Short(ShortField),
    BadField { at: usize, seen: u64 },
}

impl From<ShortField> for FieldFault {
    ghost from_gives = { λ short fault. fault ≡ Short short };

    fn from(short: ShortField) -> FieldFault {
        FieldFault::Short(short)
    }
}
