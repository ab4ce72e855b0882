// Where the terms that a search asks for begin.
ghost use Rattle.std.specs.Prelude.{◌≡◌, IfOk};
ghost use Rattle.std.specs.Int.{w32, saturate_signed};
ghost use Rattle.sasi_memindex.specs.Runs.{first_term, nearest_term};

use sasi_terms::{Op, bigint_term, int_term};
use sasi_types::{ColumnType, Term};
use std::alloc::{AllocError, Global};

/// The first term that is asked for, where those that are follow one another in the order of terms.
pub fn first_term(
    alloc: Global,
    kind: ColumnType,
    op: &Op,
    body: &[u8],
) -> Result<Option<Term>, AllocError>
    ensures { IfOk result (λ first. first ≡ first_term kind op.now body.now) }
{
    match op {
        Op::Eq | Op::Prefix => copy_term(alloc, body),
        Op::Suffix | Op::Contains => Ok(None),
        Op::Range { least, .. } => nearest_term(alloc, kind, *least),
    }
}

// The term of the type's number that is nearest to this one.
fn nearest_term(alloc: Global, kind: ColumnType, number: i64) -> Result<Option<Term>, AllocError>
    ensures { IfOk result (λ nearest. nearest ≡ nearest_term kind number) }
{
    match kind {
        ColumnType::Int => copy_term(alloc, &int_term(nearest_int(number))),
        ColumnType::BigInt => copy_term(alloc, &bigint_term(number)),
        ColumnType::Text | ColumnType::Uuid => Ok(None),
    }
}

// The int that is nearest to the number.
fn nearest_int(number: i64) -> i32
    ensures { result ≡ saturate_signed w32 number }
{
    number.clamp(i64::from(i32::MIN), i64::from(i32::MAX)) as i32
}

// The term of a copy of the bytes.
fn copy_term(alloc: Global, bytes: &[u8]) -> Result<Option<Term>, AllocError>
    ensures { IfOk result (λ copy. copy ≡ Some bytes.now) }
{
    let copy = Vec::from_slice(alloc, bytes)?;
    Ok(Some(Term::new(copy)))
}
