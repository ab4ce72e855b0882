// The terms of numbers, and the number whose term some bytes are.
ghost use Rattle.std.specs.Prelude.{◌≡◌, length};
ghost use Rattle.sasi_terms.specs.Numbers.{bigint_of, bigint_term, int_of, int_term, number_of};

/// The term of an int.
pub fn int_term(number: i32) -> [u8; 4]
    ensures { result ≡ int_term number }
{
    (number.cast_unsigned() ^ (1 << 31)).to_be_bytes()
}

/// The term of a bigint.
pub fn bigint_term(number: i64) -> [u8; 8]
    ensures { result ≡ bigint_term number }
{
    (number.cast_unsigned() ^ (1 << 63)).to_be_bytes()
}

// The int of a term of four bytes.
fn int_of(term: &[u8]) -> i32
    requires { length term.now ≡ 4 }
    ensures { result ≡ int_of term.now }
{
    let flipped = u32::from_be_bytes([term[0], term[1], term[2], term[3]]);
    (flipped ^ (1 << 31)).cast_signed()
}

// The bigint of a term of eight bytes.
fn bigint_of(term: &[u8]) -> i64
    requires { length term.now ≡ 8 }
    ensures { result ≡ bigint_of term.now }
{
    let flipped = u64::from_be_bytes([
        term[0], term[1], term[2], term[3], term[4], term[5], term[6], term[7],
    ]);
    (flipped ^ (1 << 63)).cast_signed()
}

/// The number of a term of four or eight bytes.
pub fn number_of(term: &[u8]) -> Option<i64>
    ensures { result ≡ number_of term.now }
{
    match term.len() {
        4 => Some(i64::from(int_of(term))),
        8 => Some(bigint_of(term)),
        _ => None,
    }
}
