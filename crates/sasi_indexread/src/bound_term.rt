// Terms that bound those that are asked for.
ghost use Rattle.std.specs.Prelude.{◌≡◌};
ghost use Rattle.std.specs.Int.{saturate_signed, w32};
ghost use Rattle.sasi_indexread.specs.Asked.{has_number, nearest_term};
ghost use Rattle.sasi_indexread.specs.BoundTerms.{bytes_of};

use sasi_terms::{bigint_term, int_term};
use sasi_types::ColumnType;

/// A term that bounds those that are asked for.
#[derive(Clone, Copy)]
pub enum BoundTerm<'a> {
    /// The body, or the empty term.
    Body(&'a [u8]),
    /// The term of an int.
    Int([u8; 4]),
    /// The term of a bigint.
    BigInt([u8; 8]),
}

// The int that is nearest to the number.
fn nearest_int(number: i64) -> i32
    ensures { result ≡ saturate_signed w32 number }
{
    number.clamp(i64::from(i32::MIN), i64::from(i32::MAX)) as i32
}

/// Whether a column of this type has a number in the range.
pub fn has_number(kind: ColumnType, least: i64, greatest: i64) -> bool
    ensures { result ≡ has_number kind least greatest }
{
    match kind {
        ColumnType::Int => {
            let nearest = i64::from(nearest_int(least));
            least <= nearest && nearest <= greatest
        }
        ColumnType::BigInt => least <= greatest,
        ColumnType::Text | ColumnType::Uuid => false,
    }
}

impl<'a> BoundTerm<'a> {
    /// The term of the type's number that is nearest to this one; the empty one of a type that has no numbers.
    pub fn nearest(kind: ColumnType, number: i64) -> BoundTerm<'a>
        ensures { bytes_of result ≡ nearest_term kind number }
    {
        match kind {
            ColumnType::Int => BoundTerm::Int(int_term(nearest_int(number))),
            ColumnType::BigInt => BoundTerm::BigInt(bigint_term(number)),
            ColumnType::Text | ColumnType::Uuid => BoundTerm::Body(&[]),
        }
    }

    /// Its bytes.
    pub fn bytes(&self) -> &[u8]
        ensures { result.now ≡ bytes_of self.now }
    {
        match self {
            BoundTerm::Body(term) => term,
            BoundTerm::Int(term) => term,
            BoundTerm::BigInt(term) => term,
        }
    }
}
