// The header of a data file.
ghost use Rattle.std.specs.Prelude.{◌≡◌};
ghost use Rattle.sasi_datawrite.specs.Format.{magic};

/// The offset of the first partition.
pub const HEADER_LENGTH: u64 = 16;

/// The first bytes of a data file.
pub fn magic() -> &'static [u8]
    ensures { result.now ≡ magic }
{
    b"SASIDAT1"
}
