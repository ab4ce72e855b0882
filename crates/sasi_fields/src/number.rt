// The number that a field of a fixed width holds.
ghost use Rattle.std.specs.Prelude.{◌≡◌, ◌∷◌, [], length};
ghost use Rattle.std.specs.Int.{to_be_bytes, w16, w32, w64};

pub fn number_8(field: &[u8]) -> u8
    requires { length field.now ≡ 1 }
    ensures { result ∷ [] ≡ field.now }
{
    field[0]
}

pub fn number_16(field: &[u8]) -> u16
    requires { length field.now ≡ 2 }
    ensures { to_be_bytes w16 result ≡ field.now }
{
    u16::from_be_bytes([field[0], field[1]])
}

pub fn number_32(field: &[u8]) -> u32
    requires { length field.now ≡ 4 }
    ensures { to_be_bytes w32 result ≡ field.now }
{
    u32::from_be_bytes([field[0], field[1], field[2], field[3]])
}

pub fn number_64(field: &[u8]) -> u64
    requires { length field.now ≡ 8 }
    ensures { to_be_bytes w64 result ≡ field.now }
{
    u64::from_be_bytes([
        field[0], field[1], field[2], field[3], field[4], field[5], field[6], field[7],
    ])
}
